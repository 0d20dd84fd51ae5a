//! The text of `web/server.js`, as it is.

/// The text.
pub const SERVER_JS: &str =
    r#"// Requests to the server that serves this page. The access token is kept here and in this tab's own storage, in no other place,
// and goes out in a header field alone.

const KEY = "ruffletuff.token";

/** Each refusal of the protocol in words. */
export const WORDS = {
  bad_body: "The request broke off on its way. Try again.",
  bad_field: "A member is missing, or of another kind than it has to be.",
  bad_id: "That identifier is no UUID.",
  bad_json: "That is no JSON.",
  bad_number: "A coordinate is no number.",
  busy: "The server is busy, and nothing has changed. Try again.",
  catalog_full: "The server holds as many published documents as it may.",
  clock: "The server's clock is wrong. Tell whoever runs it.",
  decimal: "A policy may hold whole numbers only.",
  drafts_full: "256 drafts of this kind are kept already: publish or drop some first.",
  empty: "There is nothing in this publication.",
  fleet_full: "The fleet has as many vehicles as this operator may report.",
  future: "The report is of a moment that hasn't come.",
  id_mismatch: "The document's own identifier is another one.",
  method: "The server doesn't do that here.",
  no_draft: "There is no such draft any more.",
  no_geography: "A place of a rule is neither published nor in this publication.",
  no_memory: "The server is short of memory, and nothing has changed. Try again.",
  no_predecessor: "What it takes the place of isn't published.",
  no_room: "The server's disk is full, and nothing has changed. Tell whoever runs it.",
  no_route: "The server doesn't know that request.",
  no_snapshot: "The server is about to end.",
  not_found: "It isn't there.",
  not_kept: "What stood then isn't kept any more.",
  not_published: "What was to be withdrawn isn't published.",
  out_of_range: "A number is outside of what is allowed.",
  published: "It is published already, and can't be changed: replace it by another.",
  ring_open: "An outline isn't closed: its last position has to be its first.",
  ring_short: "An outline has fewer than three corners.",
  role: "This access token may not do that.",
  stale: "A later report of this vehicle is held.",
  token: "Nobody has this access token.",
  too_large: "The document is over 1 MB.",
  too_many_points: "The place has more than 20,000 positions.",
  too_many_rules: "The policy has more than 64 rules.",
};

// What isn't the protocol's: the server gave no answer of its own, it doesn't tell the past, the browser has no worker.
const OWN_WORDS = {
  unreachable: "The server can’t be reached.",
  untold: "The server doesn’t tell what stood at earlier moments.",
  worker: "The fleet can’t be read in this browser.",
};

/** An answer that isn't 200, or none: `code` is the protocol's or one of the page's own. */
export class Refused extends Error {
  constructor(status, code) {
    super(OWN_WORDS[code] || WORDS[code] || `The server answered ${status}.`);
    this.status = status;
    this.code = code;
  }
}

let token = sessionStorage.getItem(KEY) || "";
// What the server has said that it hasn't.
let missing = new Set();

export const hasToken = () => token !== "";

/** Takes an access token for the requests that follow. */
export function take(text) {
  token = text;
  missing = new Set();
}

/** Keeps it for this tab, once the server knows it. */
export const keep = () => sessionStorage.setItem(KEY, token);

/** Forgets it. */
export function forget() {
  token = "";
  sessionStorage.removeItem(KEY);
}

/** What a worker needs to ask by itself. */
export const header = () => ({ authorization: `Bearer ${token}` });

/** A request, with a document or a text as its body. Answers the document; throws `Refused`. */
export async function ask(method, target, body) {
  const sent = body === undefined || typeof body === "string" ? body : JSON.stringify(body);
  let answer, told;
  try {
    answer = await fetch(target, { method, headers: header(), body: sent, cache: "no-store" });
    told = await answer.json().catch(() => null);
  } catch {
    throw new Refused(0, "unreachable");
  }
  if (answer.ok && told) return told;
  // A proxy answers for a server that is gone, in words of its own.
  if (!told?.error && (answer.ok || answer.status >= 500)) throw new Refused(answer.status, "unreachable");
  throw new Refused(answer.status, told?.error || "");
}

/** What not every server has: the document, or null where it says 404, which it isn't asked again. */
export async function askIfThere(target) {
  if (missing.has(target)) return null;
  try {
    return await ask("GET", target);
  } catch (fault) {
    if (fault.status !== 404) throw fault;
    missing.add(target);
    return null;
  }
}

/**
 * What everyone is told without an access token, `policies` or `geographies` by the endpoints of MDS: `{list, at}` with the
 * moment at which it last changed; null where the server tells it to nobody.
 */
export async function askPublic(kind) {
  let answer, told;
  try {
    answer = await fetch(`mds/2.0/${kind}`, { cache: "no-store", credentials: "omit" });
    told = await answer.json().catch(() => null);
  } catch {
    throw new Refused(0, "unreachable");
  }
  if (answer.ok && Array.isArray(told?.data?.[kind])) return { list: told.data[kind], at: told.last_updated };
  if (answer.status >= 500) throw new Refused(answer.status, told?.error || "unreachable");
  return null;
}

// --- The past -----------------------------------------------------------------------------------------------------------

// How long after each answer that it is busy a server is asked again.
export const WAITS = [500, 1_000, 2_000, 4_000, 8_000, 8_000, 8_000];

// A server works out one question about the past at a time.
let last = Promise.resolve();

/** Does what asks about the past, once all that was to be done so before is over. */
export function inTurn(work) {
  const mine = last.then(work);
  last = mine.catch(() => {});
  return mine;
}

/** Asks, and a few times again while the server is busy; null where it is dropped meanwhile. */
async function askAgain(target, isDropped) {
  for (const wait of [...WAITS, null]) {
    if (isDropped()) return null;
    try {
      return await ask("GET", target);
    } catch (fault) {
      if (wait === null || fault.code !== "busy") throw fault;
      await new Promise((then) => { setTimeout(then, wait); });
    }
  }
  return null;
}

/**
 * What stood at a moment that is over: a document with the moment as `at`, or null where it is dropped before it is
 * asked. Throws `untold` where the server doesn't tell the past: it has no such path, or tells of now at any moment.
 */
export function askPast(path, at, isDropped) {
  return inTurn(async () => {
    try {
      const told = await askAgain(`${path}?at=${at}`, isDropped);
      if (told && told.at !== at) throw new Refused(404, "untold");
      return told;
    } catch (fault) {
      if (fault.status === 404 && fault.code !== "not_found") throw new Refused(404, "untold");
      throw fault;
    }
  });
}

/** The page's settings, those that are given here where the server has none. */
export async function settings(usual) {
  try {
    const answer = await fetch("settings.json", { cache: "no-cache" });
    return answer.ok ? { ...usual, ...await answer.json() } : usual;
  } catch {
    return usual;
  }
}
"#;
