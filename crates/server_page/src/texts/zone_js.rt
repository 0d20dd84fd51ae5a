//! The text of `web/zone.js`, as it is.

/// The text.
pub const ZONE_JS: &str =
    r#"// Moments in the city's zone, which is what the server's configuration says: `Z`, an offset, or a rule of POSIX's TZ variable.

const NAME = "(?:<[^>]+>|[A-Za-z]{3,15})", OFFSET = "([+-]?\\d{1,3}(?::\\d\\d){0,2})";
const RULE = new RegExp(`^${NAME}${OFFSET}(?:${NAME}${OFFSET}?,([^,/]+)(?:/${OFFSET})?,([^,/]+)(?:/${OFFSET})?)?$`);
const DAY = 86_400_000, HOUR = 3600_000, MINUTE = 60_000;

/** Hours, minutes and seconds with a sign, in milliseconds. */
function signed(text) {
  const [hours, minutes = 0, seconds = 0] = text.replace(/^[+-]/, "").split(":").map(Number);
  return (text[0] === "-" ? -1 : 1) * ((hours * 60 + minutes) * 60 + seconds) * 1000;
}

const isLeap = (year) => new Date(Date.UTC(year, 1, 29)).getUTCDate() === 29;

/** Midnight of the day that a POSIX date (`Mm.w.d`, `Jn` or `n`) names in a year, in milliseconds of local time. */
function dayOf(year, text) {
  if (text[0] === "J") {
    const day = +text.slice(1);
    return Date.UTC(year, 0, day + (isLeap(year) && day > 59 ? 1 : 0));
  }
  if (text[0] !== "M") return Date.UTC(year, 0, +text + 1);
  const [month, week, weekday] = text.slice(1).split(".").map(Number);
  const first = new Date(Date.UTC(year, month - 1, 1)).getUTCDay(), last = new Date(Date.UTC(year, month, 0)).getUTCDate();
  let day = 1 + (weekday - first + 7) % 7 + (week - 1) * 7;
  while (day > last) day -= 7;
  return Date.UTC(year, month - 1, day);
}

/** What is added to a moment to have the local time, in milliseconds; null where the text is no zone. */
export function zone(text) {
  if (text === "Z") return () => 0;
  const fixed = /^([+-])(\d\d):(\d\d)$/.exec(text);
  if (fixed) {
    const offset = (fixed[1] === "-" ? -1 : 1) * (fixed[2] * 60 + +fixed[3]) * MINUTE;
    return () => offset;
  }
  const rule = RULE.exec(text || "");
  if (!rule) return null;
  const standard = -signed(rule[1]), summer = rule[2] ? -signed(rule[2]) : standard + HOUR;
  if (!rule[3]) return () => standard;
  return (t) => {
    const year = new Date(t + standard).getUTCFullYear();
    const begins = dayOf(year, rule[3]) + signed(rule[4] || "2") - standard;
    const ends = dayOf(year, rule[5]) + signed(rule[6] || "2") - summer;
    const isSummer = begins < ends ? t >= begins && t < ends : !(t >= ends && t < begins);
    return isSummer ? summer : standard;
  };
}

const LONG = { timeZone: "UTC", weekday: "short", day: "numeric", month: "short", year: "numeric", hour: "2-digit",
  minute: "2-digit" };
const format = new Intl.DateTimeFormat(undefined, LONG);
const seconds = new Intl.DateTimeFormat(undefined, { timeZone: "UTC", hour: "2-digit", minute: "2-digit", second: "2-digit" });

const minutes = new Intl.DateTimeFormat(undefined, { timeZone: "UTC", hour: "2-digit", minute: "2-digit" });

/** How far the browser's own zone is from UTC. */
const ownOffset = (t) => -new Date(t).getTimezoneOffset() * MINUTE;

/** Moments in words and in fields of a form, in one zone. Where none is told, in UTC or the reader's own, and `isTold` is false. */
export class Clock {
  constructor(text, isOwn = false) {
    const offset = zone(text);
    this.isTold = offset !== null;
    this.isOwn = isOwn && !this.isTold;
    this.offset = offset || (isOwn ? ownOffset : () => 0);
  }

  /** The moment in words, in local time. */
  when(t) {
    return format.format(t + this.offset(t));
  }

  /** The time of day of a moment to the minute, in local time; its day too, where that is another one than that of `t`. */
  since(moment, t) {
    const local = (it) => it + this.offset(it), day = (it) => Math.floor(local(it) / DAY);
    return day(moment) === day(t) ? minutes.format(local(moment)) : this.when(moment);
  }

  /** The moment in local time with its offset (RFC 3339), to the millisecond. */
  stamp(t) {
    const minutes = Math.abs(this.offset(t) / MINUTE), two = (it) => String(Math.floor(it)).padStart(2, "0");
    const local = new Date(t + this.offset(t)).toISOString().slice(0, -1);
    return `${local}${this.offset(t) < 0 ? "-" : "+"}${two(minutes / 60)}:${two(minutes % 60)}`;
  }

  /** The time of day of the moment to the second, in local time. */
  time(t) {
    return seconds.format(t + this.offset(t));
  }

  /** How far local time is from UTC, in words. */
  name(t) {
    if (!this.isTold && !this.isOwn) return "UTC: the city’s zone isn’t told, so hours of rules may be judged wrong here";
    const minutes = Math.abs(this.offset(t) / MINUTE), rest = minutes % 60;
    const hours = `${this.offset(t) < 0 ? "−" : "+"}${Math.floor(minutes / 60)}`;
    const name = this.isOwn ? "your own time" : "city time";
    return `${name}, UTC${hours}${rest ? ":" + String(rest).padStart(2, "0") : ""}`;
  }

  /** The value of a field `datetime-local`. */
  toField(t) {
    return new Date(t + this.offset(t)).toISOString().slice(0, 16);
  }

  /** The moment of such a value, null where it is empty. */
  fromField(text) {
    const local = Date.parse(text + "Z");
    if (Number.isNaN(local)) return null;
    return local - this.offset(local - this.offset(local));
  }

  /** Local weekday (0 is Sunday) and second of the day. */
  local(t) {
    const wall = new Date(t + this.offset(t));
    const second = wall.getUTCHours() * 3600 + wall.getUTCMinutes() * 60 + wall.getUTCSeconds();
    return { day: wall.getUTCDay(), second };
  }
}
"#;
