//! The text of `web/fleet.js`, as it is.

/// The text.
pub const FLEET_JS: &str =
    r#"// A worker that reads fleets of any size without stopping the page, one after another, into columns: fleet behind fleet, each
// in the order of device identifiers. It tells which vehicles stand in which place.

import { E7, mercator, within } from "./geometry.js";

const FIRST = 4096, TOLD_EACH = 20_000, NEXT = '},{"device_id"';

// What each lower-case hexadecimal digit is worth, by its code.
const DIGITS = new Uint8Array(128);
for (let digit = 0; digit < 16; digit++) DIGITS[digit.toString(16).charCodeAt(0)] = digit;

const columns = (size) => ({
  x: new Float64Array(size), y: new Float64Array(size), lng: new Int32Array(size), lat: new Int32Array(size),
  since: new Float64Array(size), stamp: new Float64Array(size), kind: new Uint32Array(size), id: new Uint8Array(size * 16),
  owner: new Uint8Array(size),
});

/** Rows as they come. Vehicles that share type, state, propulsion types and events share a kind. */
class Rows {
  constructor() {
    this.count = 0;
    this.owner = 0;
    this.size = FIRST;
    this.columns = columns(FIRST);
    this.kinds = [];
    this.numbers = new Map();
  }

  grow() {
    const wider = columns(this.size *= 2);
    for (const name in wider) wider[name].set(this.columns[name]);
    this.columns = wider;
  }

  kindOf({ vehicle_type: type, vehicle_state: state, propulsion_types: propulsion, event_types: events }) {
    // Tokens have neither commas nor bars.
    const key = `${type}|${state}|${propulsion}|${events}`;
    let number = this.numbers.get(key);
    if (number === undefined) {
      number = this.kinds.push({ type, state, propulsion, events }) - 1;
      this.numbers.set(key, number);
    }
    return number;
  }

  add(vehicle) {
    if (this.count === this.size) this.grow();
    const row = this.count++, to = this.columns, { lng, lat } = vehicle.location;
    to.owner[row] = this.owner;
    to.kind[row] = this.kindOf(vehicle);
    to.since[row] = vehicle.since;
    to.stamp[row] = vehicle.timestamp;
    to.lng[row] = E7(lng);
    to.lat[row] = E7(lat);
    [to.x[row], to.y[row]] = mercator(lng, lat);
    for (let at = 0, i = row * 16; at < 36; at += 2) {
      if (vehicle.device_id[at] === "-") at++;
      to.id[i++] = DIGITS[vehicle.device_id.charCodeAt(at)] << 4 | DIGITS[vehicle.device_id.charCodeAt(at + 1)];
    }
  }

  /** The columns, no longer than they are filled. */
  filled() {
    const cut = {};
    for (const name in this.columns) cut[name] = this.columns[name].slice(0, name === "id" ? this.count * 16 : this.count);
    return cut;
  }
}

/** Takes vehicles out of a text that comes in pieces: a piece ends where a next vehicle begins. */
class Reading {
  constructor(rows) {
    this.rows = rows;
    this.text = "";
    this.hasBegun = false;
  }

  take(text) {
    this.text += text;
    if (!this.hasBegun) {
      const at = this.text.indexOf("[");
      if (at < 0) return;
      this.text = this.text.slice(at + 1);
      this.hasBegun = true;
    }
    const cut = this.text.lastIndexOf(NEXT);
    if (cut < 0) return;
    this.add(this.text.slice(0, cut + 1));
    this.text = this.text.slice(cut + 2);
  }

  end() {
    const end = this.text.lastIndexOf("]");
    if (end < 0) throw new Error("the answer broke off");
    this.add(this.text.slice(0, end));
  }

  add(piece) {
    for (const vehicle of JSON.parse(`[${piece}]`)) this.rows.add(vehicle);
  }
}

/** What is wrong with an answer that isn't 200. */
const codeOf = async (answer) => (await answer.json().catch(() => ({}))).error || "";

/** The answer to a request, which is sent again after each of these times while the server is busy. */
async function answerTo(target, headers, waits) {
  for (const wait of waits) {
    const answer = await fetch(target, { headers, cache: "no-store" });
    if (answer.status !== 503 || await codeOf(answer.clone()) !== "busy") return answer;
    await new Promise((then) => { setTimeout(then, wait); });
  }
  return fetch(target, { headers, cache: "no-store" });
}

/** Reads the fleet at a target behind those that were read; answers what was wrong, null where nothing was. */
async function readBehind(rows, target, headers, waits) {
  const first = rows.count;
  try {
    const answer = await answerTo(target, headers, waits);
    if (!answer.ok) return { status: answer.status, code: await codeOf(answer) };
    const reading = new Reading(rows), decoder = new TextDecoder(), body = answer.body.getReader();
    for (let told = rows.count;;) {
      const { value, done } = await body.read();
      if (done) break;
      reading.take(decoder.decode(value, { stream: true }));
      if (rows.count - told >= TOLD_EACH) postMessage({ progress: told = rows.count });
    }
    reading.end();
    return null;
  } catch {
    rows.count = first;
    return { status: 0, code: "unreachable" };
  }
}

/** Reads the fleets at the targets that aren't null. What of several couldn't be read is left out, and named by its place. */
async function read({ header, places, targets, waits }) {
  const rows = new Rows(), starts = [], faults = [];
  for (const [owner, target] of targets.entries()) {
    starts.push(rows.count);
    rows.owner = owner;
    faults.push(target === null ? null : await readBehind(rows, target, header, waits));
  }
  const asked = faults.filter((_, owner) => targets[owner] !== null);
  if (asked.length && asked.every(Boolean)) return postMessage({ fault: asked[0] });
  starts.push(rows.count);
  const inside = places.map((polygons) => within(polygons, rows.columns, rows.count)), filled = rows.filled();
  const missing = [...faults.keys()].filter((owner) => faults[owner]);
  const fleet = { count: rows.count, kinds: rows.kinds, starts, missing, inside, ...filled };
  return postMessage({ fleet }, [...Object.values(filled), ...inside].map((it) => it.buffer));
}

onmessage = ({ data }) => {
  read(data).catch(() => postMessage({ fault: { status: 0, code: "unreachable" } }));
};
"#;
