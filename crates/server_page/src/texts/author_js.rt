//! The text of `web/author.js`, as it is.

/// The text.
pub const AUTHOR_JS: &str =
    r##"// The author's part: drafts, a place that is drawn or pasted, a policy by a form or as a document, publishing and withdrawing.

import { showForesight } from "./cards.js";
import { $, boxes, el, fold, keepPlace, link, memory, offerBoxes, question, say, tick, ticked } from "./dom.js";
import { boxOf, inSquare, inWhole, isCrossing, polygonsOf } from "./geometry.js";
import * as map from "./map.js";
import { DAYS, EVENTS, PROPULSIONS, STATES, TYPES, isSame, plain, warnings, words } from "./rules.js";
import { ask, askIfThere } from "./server.js";
import { operatorIds, operatorName, oversight, rememberWithdrawal, state } from "./state.js";

const policyForm = $("policyform"), placeForm = $("placeform");
const P = policyForm.elements, G = placeForm.elements;
const KINDS = { policies: "policy", geographies: "place" };
const LISTED = { policy: "policies", geography: "geographies" }; // the server's list of drafts names the kinds so

const MOST_MISTAKES = 10, FORESEEN_AFTER = 300;
// Groups of check boxes with the words of MDS that they are for; a field beside each takes others.
const WORDS = { types: TYPES, propulsions: PROPULSIONS, states: STATES };

// The document that the open form begins with, and the events that each state is bound to, by the form.
let base = null, afterEvents = new Map();
// What is done after each request that changed something, and with each fault.
let refresh = async () => {}, fail = () => {};

/** A random identifier (version 4 of RFC 9562), where the page wasn't served securely too. */
function newId() {
  const bytes = crypto.getRandomValues(new Uint8Array(16));
  bytes[6] = (bytes[6] & 15) | 64;
  bytes[8] = (bytes[8] & 63) | 128;
  return map.idOf(bytes);
}

// --- Drafts -------------------------------------------------------------------------------------------------------------

/** The drafts of these kinds and identifiers that are still there. */
async function draftsOf(list) {
  const got = await Promise.all(list.map(async ([kind, id]) => {
    try {
      return { kind, id, document: (await ask("GET", `drafts/${kind}/${id}`)).draft };
    } catch (fault) {
      if (fault.status !== 404) throw fault;
      return null;
    }
  }));
  return got.filter(Boolean);
}

/** The drafts that a server without a list of them holds: those that this browser remembers. */
async function rememberedDrafts() {
  const drafts = await draftsOf(memory.get("drafts"));
  memory.set("drafts", drafts.map(({ kind, id }) => [kind, id]));
  return drafts;
}

function asPlace(document) {
  const polygons = polygonsOf(document), path = inSquare(polygons);
  return { ...document, name: `${document.name} (draft)`, polygons, path, box: boxOf(path.flat(2)) };
}

/** Reads the drafts and shows them. */
export async function readDrafts() {
  const told = await askIfThere("app/drafts");
  state.areDraftsTold = told !== null;
  const listed = () => draftsOf(told.drafts.map(({ kind, id }) => [LISTED[kind], id]));
  const named = (one, other) => String(one.document.name).localeCompare(String(other.document.name));
  const drafts = (await (told ? listed() : rememberedDrafts())).sort(named);
  const chosen = new Set(state.drafts.filter((it) => it.isChosen).map((it) => it.id));
  state.drafts = drafts.map((it) => ({ ...it, isChosen: chosen.has(it.id) }));
  state.draftPlaces = drafts.filter((it) => it.kind === "geographies").map((it) => asPlace(it.document));
  showDrafts();
  fillChoices();
  foreseeSoon();
}

const remember = (kind, id) => memory.set("drafts", [...memory.get("drafts").filter(([, it]) => it !== id), [kind, id]]);
const forget = (ids) => memory.set("drafts", memory.get("drafts").filter(([, id]) => !ids.includes(id)));

function draftRow(draft) {
  const { name } = draft.document, kind = KINDS[draft.kind];
  const box = el("input", { type: "checkbox", checked: draft.isChosen, onchange: () => { draft.isChosen = box.checked; } });
  const edit = draft.kind === "policies" ? editPolicy : editPlace;
  return el("tr", { "data-key": `draft ${draft.id}` },
    el("td", {}, el("label", {}, box, ` ${name}`)),
    el("td", {}, kind),
    el("td", {}, link("Edit", () => edit(draft.document), { "aria-label": `Edit the draft ${name}` }), " ",
      link("Drop", () => drop(draft), { "aria-label": `Drop the draft ${name}` })));
}

function showDrafts() {
  const note = state.areDraftsTold ? "No drafts." : "No drafts of this browser. This server has no list of drafts.";
  const publishing = el("div", { className: "actions", "data-key": "publish" },
    el("button", { type: "button", className: "primary", id: "publish", onclick: () => publish().catch(fail) }, "Publish…"));
  const place = keepPlace($("panel"), "#drafts");
  const sentence = el("p", { className: "small" }, state.drafts.length ? "Tick what is to be published." : note);
  const table = () => el("table", {}, el("tbody", {}, state.drafts.map(draftRow)));
  $("drafts").replaceChildren(sentence, ...(state.drafts.length ? [table(), publishing] : []));
  place();
}

async function drop(draft) {
  try {
    await ask("DELETE", `drafts/${draft.kind}/${draft.id}`);
    forget([draft.id]);
    await refresh();
    say(`The draft “${draft.document.name}” is dropped.`);
  } catch (fault) {
    fail(fault);
  }
}

// --- Publishing and withdrawing -----------------------------------------------------------------------------------------

async function publish() {
  const chosen = state.drafts.filter((it) => it.isChosen);
  if (!chosen.length) return say("Tick a draft to publish.", true);
  const isSure = await question("Publish?",
    el("p", {}, "At once, for every operator it is meant for, and for good: "
      + "what is published can be replaced or withdrawn, not changed."),
    el("ul", {}, chosen.map((it) => el("li", {}, `${it.document.name} (${KINDS[it.kind]})`))));
  if (!isSure) return;
  const ids = (kind) => chosen.filter((it) => it.kind === kind).map((it) => it.id);
  const told = await ask("POST", "publish", { geographies: ids("geographies"), policies: ids("policies") });
  forget(chosen.map((it) => it.id));
  await refresh();
  say(`Published ${state.clock.when(told.published_date)}, revision ${told.revision}.`);
}

/** Withdraws a policy, once the author is sure. */
export async function withdraw(policy) {
  const isSure = await question(`Withdraw “${policy.name}”?`,
    el("p", {}, "From now on it isn’t in force for anyone, and it can’t be brought back. "
      + "What it took the place of stays superseded."));
  if (!isSure) return;
  try {
    const told = await ask("POST", "publish", { withdraw: [policy.policy_id] });
    rememberWithdrawal(policy.policy_id, told.published_date);
    await refresh();
    say(`“${policy.name}” is withdrawn.`);
  } catch (fault) {
    fail(fault);
  }
}

// --- Forms --------------------------------------------------------------------------------------------------------------

const listed = (field) => [...new Set(field.value.split(",").map((it) => it.trim()).filter(Boolean))];

/** A list as it was before, where it has the same in it. */
const asBefore = (list, old) =>
  (Array.isArray(old) && old.length === list.length && list.every((it) => old.some((one) => isSame(one, it))) ? old : list);

/** Identifiers with those behind them that a document names and that aren't among them. */
const withOthers = (ids, named) => [...ids, ...(named || []).filter((id) => !ids.some((it) => isSame(it, id)))];

/** The operators that are known, and those that a policy names. */
function knownOperators() {
  const policies = [...state.policies, ...state.drafts.map((it) => it.document), base].filter(Boolean);
  return policies.reduce((ids, it) => withOthers(ids, it.provider_ids), operatorIds());
}

/** The places that are published or drafts, and those that the rule names: each with its name. */
function knownPlaces() {
  const places = [...state.places, ...state.draftPlaces].map((it) => [it.geography_id, it.name]);
  const ids = places.map(([id]) => id), strange = withOthers(ids, base?.rules?.[0]?.geographies).slice(ids.length);
  return [...places, ...strange.map((id) => [id, `a place that isn’t published (${String(id).slice(0, 8)})`])];
}

/** What can be ticked: operators, places and policies by name. */
function fillChoices() {
  offerBoxes($("forwhom"), "forwhom", knownOperators().map((id) => [id, operatorName(id)]), "No operator is known.");
  offerBoxes($("where"), "where", knownPlaces(), "No place is published or a draft.");
  offerBoxes($("prev"), "prev", state.policies.map((it) => [it.policy_id, it.name]), "No policy is published.");
}

/** Ticks those that a document names. */
const tickNamed = (part, ids) => tick(part, (value) => (ids || []).some((id) => isSame(id, value)));

// --- Words of MDS -------------------------------------------------------------------------------------------------------

/** The words that are ticked in a group, and those beside it. */
const wordsIn = (group) => [...new Set([...ticked($(group)), ...listed(P[`other${group}`])])];

/** Ticks the words of MDS among these, and puts the others into the field beside the group. */
function fillWords(group, list) {
  tick($(group), (it) => list.includes(it));
  P[`other${group}`].value = list.filter((it) => !WORDS[group].includes(it)).join(", ");
}

/** Check boxes for the events of a state, with a field for others. */
function eventBoxes(name) {
  const bound = afterEvents.get(name) || [], others = bound.filter((it) => !EVENTS.includes(it)).join(", ");
  const field = el("input", { name: "otherevents", value: others, placeholder: "words with commas between" });
  return el("div", {}, el("div", { className: "boxes", role: "group", "aria-label": `Events: ${plain(name)}` },
    boxes("event", EVENTS.map((it) => [it, plain(it)]), (it) => bound.includes(it))),
  el("label", { className: "others" }, "Others, by hand ", field));
}

/** For each state of the form a part in which its events are ticked, made anew where the states are others than before. */
function showEvents(isAnew = false) {
  const part = $("events"), names = wordsIn("states");
  if (isAnew || part.dataset.said !== names.join()) {
    const open = new Set([...part.children].filter((it) => !isAnew && it.open).map((it) => it.dataset.key));
    const place = keepPlace($("panel"), "#events");
    part.dataset.said = names.join();
    part.replaceChildren(...names.map((it) => fold(`events ${it}`, open.has(`events ${it}`), "", () => eventBoxes(it))));
    place();
  }
  for (const [index, name] of names.entries()) {
    const bound = (afterEvents.get(name) || []).map(plain);
    part.children[index].firstChild.textContent = `${plain(name)}: after ${bound.length ? words(bound) : "any event"}`;
  }
}

/** Takes the events that are ticked in a state's part. */
function takeEvents(part) {
  const bound = [...ticked(part), ...listed(part.querySelector("[name=otherevents]"))];
  afterEvents.set(wordsIn("states")[[...$("events").children].indexOf(part)], [...new Set(bound)]);
}

/** The states by the form, each with its events. */
function statesByFields(old) {
  const eventsIn = (it) => {
    const bound = afterEvents.get(it) || [];
    return !bound.length && old?.[it] === null ? null : asBefore(bound, old?.[it]);
  };
  return Object.fromEntries(wordsIn("states").map((it) => [it, eventsIn(it)]));
}

// --- Opening and closing ------------------------------------------------------------------------------------------------

function closeForms() {
  base = null;
  map.stopDrawing();
  for (const form of [policyForm, placeForm]) {
    form.hidden = true;
    form.reset();
  }
  $("byhand").hidden = true;
  afterEvents = new Map();
  showEvents(true);
}

/** Closes the forms without saving; the focus goes where one is opened. */
function cancel(event) {
  const opener = event.target.form === placeForm ? "draw" : "write";
  closeForms();
  $(opener).focus();
}

function openForm(form) {
  closeForms();
  form.hidden = false;
  form.scrollIntoView({ block: "nearest" });
}

/** After a draft is saved: the form goes, and the draft is shown. */
async function showSaved(kind, id) {
  remember(kind, id);
  closeForms();
  $(kind === "policies" ? "write" : "draw").focus();
  await refresh();
  say("The draft is kept. Nobody but the city sees it until it is published.");
}

/** Whether a draft is to be saved in spite of what is likely a mistake. */
async function isMeant(mistakes) {
  const list = el("ul", {}, mistakes.slice(0, MOST_MISTAKES).map((it) => el("li", {}, it)));
  return !mistakes.length || question("Save it all the same?", el("p", {}, "This is likely a mistake:"), list);
}

/** Says what is wrong with a document that isn't even JSON. */
const faultOf = (fault, what) => (fault instanceof SyntaxError ? new Error(`${what} is no JSON: ${fault.message}`) : fault);

// --- A policy -----------------------------------------------------------------------------------------------------------

/** Puts a value into a rule, or takes the member away. */
function put(rule, name, value, isThere) {
  if (isThere) rule[name] = value;
  else delete rule[name];
}

/** The first rule by the form, what the form has no field for as it was. */
function ruleByFields() {
  const [old] = base.rules, isTime = P.kind.value === "time", where = asBefore(ticked($("where")), old.geographies);
  const rule = { ...old, name: P.rule.value || P.name.value, rule_type: P.kind.value, geographies: where };
  const days = asBefore(ticked($("days")), old.days), states = statesByFields(old.states);
  const types = asBefore(wordsIn("types"), old.vehicle_types);
  const propulsions = asBefore(wordsIn("propulsions"), old.propulsion_types);
  put(rule, "states", states, Object.keys(states).length);
  put(rule, "vehicle_types", types, types.length);
  put(rule, "propulsion_types", propulsions, propulsions.length);
  put(rule, "days", days, days.length);
  put(rule, "minimum", Number(P.minimum.value), P.minimum.value !== "");
  put(rule, "maximum", Number(P.maximum.value), P.maximum.value !== "");
  put(rule, "rule_units", P.unit.value, isTime);
  put(rule, "start_time", P.open.value, P.open.value);
  put(rule, "end_time", P.close.value, P.close.value);
  return rule;
}

/** The moment of a field; the one that it began with to the millisecond, where the field still says that. */
function momentOf(field, old) {
  return old != null && field.value === state.clock.toField(old) ? old : state.clock.fromField(field.value);
}

/** The policy by the form. */
function policyByFields() {
  return {
    ...base, name: P.name.value, description: P.description.value,
    start_date: momentOf(P.start, base.start_date), end_date: momentOf(P.end, base.end_date),
    provider_ids: asBefore(ticked($("forwhom")), base.provider_ids),
    prev_policies: asBefore(ticked($("prev")), base.prev_policies),
    rules: [ruleByFields(), ...base.rules.slice(1)],
  };
}

const isByHand = () => !$("byhand").hidden;

function showDocument() {
  P.unit.parentNode.hidden = P.kind.value !== "time";
  showEvents();
  if (!isByHand()) P.json.value = JSON.stringify(policyByFields(), null, 2);
  foreseeSoon();
}

let foreseeing = 0;

/** Shows how operators would stand by the policy of the open form, once nothing has been typed for a moment. */
export function foreseeSoon() {
  clearTimeout(foreseeing);
  if (!policyForm.hidden) foreseeing = setTimeout(foresee, FORESEEN_AFTER);
}

function foresee() {
  $("foresight").hidden = oversight() !== "vehicles";
  if (policyForm.hidden || $("foresight").hidden) return;
  let policy = null;
  try {
    policy = isByHand() ? JSON.parse(P.json.value) : policyByFields();
  } catch {
    // What is no JSON is told by the note.
  }
  showForesight(policy);
}

/** Puts a policy into the fields. */
function fillPolicy(policy) {
  const [rule] = policy.rules, { clock } = state;
  P.name.value = policy.name;
  P.description.value = policy.description || "";
  P.start.value = clock.toField(policy.start_date);
  P.end.value = policy.end_date != null ? clock.toField(policy.end_date) : "";
  tickNamed($("forwhom"), policy.provider_ids);
  tickNamed($("where"), rule.geographies);
  tickNamed($("prev"), policy.prev_policies);
  P.rule.value = rule.name === policy.name ? "" : rule.name || "";
  P.kind.value = rule.rule_type === "time" ? "time" : "count";
  afterEvents = new Map(Object.entries(rule.states || {}).map(([name, events]) => [name, events || []]));
  fillWords("types", rule.vehicle_types || []);
  fillWords("propulsions", rule.propulsion_types || []);
  fillWords("states", [...afterEvents.keys()]);
  showEvents(true);
  P.minimum.value = rule.minimum ?? "";
  P.maximum.value = rule.maximum ?? "";
  P.unit.value = rule.rule_units || "hours";
  P.open.value = rule.start_time || "";
  P.close.value = rule.end_time || "";
  tick($("days"), (day) => rule.days?.includes(day));
}

/** Opens the form with a policy. One whose first rule the fields can't hold is edited as a document. */
function editPolicy(policy) {
  openForm(policyForm);
  base = policy;
  fillChoices();
  const type = policy.rules[0]?.rule_type;
  if (type === "count" || type === "time") {
    fillPolicy(policy);
    showDocument();
  } else {
    P.name.value = policy.name;
    P.start.value = state.clock.toField(policy.start_date);
    takeByHand(JSON.stringify(policy, null, 2));
    foreseeSoon();
  }
  P.name.focus();
}

const PARKED = { available: [], reserved: [], non_operational: [] };

const newPolicy = () => editPolicy({
  policy_id: newId(), name: "", start_date: Math.floor(Date.now() / 60_000) * 60_000,
  rules: [{ rule_id: newId(), name: "", rule_type: "count", geographies: [], states: PARKED }],
});

/** A successor of a published policy, with its rules. */
export function replace({ published_date: _, ...policy }) {
  editPolicy({
    ...policy, policy_id: newId(), start_date: Math.max(Date.now(), policy.start_date), prev_policies: [policy.policy_id],
    rules: policy.rules.map((rule) => ({ ...rule, rule_id: newId() })),
  });
}

function takeByHand(text) {
  $("byhand").hidden = false;
  P.json.value = text;
  P.json.closest("details").open = true;
}

async function savePolicy(event) {
  event.preventDefault();
  try {
    const text = isByHand() ? P.json.value : JSON.stringify(policyByFields()), document = JSON.parse(text);
    if (!document?.policy_id) throw new Error("The document has no policy_id.");
    const isNowhere = !isByHand() && !ticked($("where")).length;
    if (isNowhere) throw new Error("Choose where it holds: a rule without a place catches nothing.");
    if (!await isMeant(warnings(document, state.fleet?.kinds || []))) return;
    await ask("PUT", `drafts/policies/${document.policy_id}`, text);
    await showSaved("policies", document.policy_id);
  } catch (fault) {
    fail(faultOf(fault, "The document"));
  }
}

// --- A place ------------------------------------------------------------------------------------------------------------

function beginPlace(document, corners) {
  openForm(placeForm);
  base = document;
  tellCorners(corners);
  map.startDrawing(corners, (now) => {
    G.geojson.value = JSON.stringify(now);
    tellCorners(now);
  });
}

function tellCorners({ length }) {
  $("corners").textContent = length > 1 ? `${length} corners.` : length ? "1 corner." : "No corner yet.";
}

function typeCorners() {
  const corners = cornersOf(G.geojson.value);
  map.setCorners(corners || []);
  if (corners) tellCorners(corners);
  else $("corners").textContent = "No list of corners: it is sent as GeoJSON.";
}

function newPlace() {
  beginPlace({ geography_id: newId() }, []);
  $("map").focus();
}

/** A draft of one ring is drawn on, any other is edited as GeoJSON. */
function editPlace(document) {
  const polygons = polygonsOf(document), isRing = polygons.length === 1 && polygons[0].length === 1;
  beginPlace(document, isRing ? polygons[0][0].slice(0, -1) : []);
  G.name.value = document.name;
  G.description.value = document.description || "";
  G.geojson.value = JSON.stringify(isRing ? polygons[0][0].slice(0, -1) : document.geography_json);
  G.name.focus();
}

const isPosition = (it) => Array.isArray(it) && it.length >= 2 && it.every(Number.isFinite);

/** The corners that a text lists, null where it is something else. */
function cornersOf(text) {
  try {
    const list = JSON.parse(text);
    return Array.isArray(list) && list.every(isPosition) ? list : null;
  } catch {
    return null;
  }
}

/** The GeoJSON that a text gives, corners as a polygon that is closed. */
function geoJsonOf(text) {
  const corners = cornersOf(text || "[]");
  if (corners === null) {
    JSON.parse(text);
    return text;
  }
  if (corners.length < 3) throw new Error("A place has three corners or more.");
  return JSON.stringify({ type: "Polygon", coordinates: [[...corners, corners[0]]] });
}

/** The polygons of GeoJSON: of one or several polygons, or of features of these; none where it is something else. */
function polygonsIn(it) {
  if (it?.type === "FeatureCollection") return (it.features || []).flatMap(polygonsIn);
  if (it?.type === "Feature") return polygonsIn(it.geometry);
  return it?.type === "Polygon" ? [it.coordinates] : it?.type === "MultiPolygon" ? it.coordinates : [];
}

/** What is likely a mistake in a place: an outline that crosses itself. What is no outline at all is the server's to refuse. */
function placeWarnings(text) {
  try {
    const crossing = inWhole(polygonsIn(JSON.parse(text))).flat().filter(isCrossing).length;
    if (!crossing) return [];
    return [crossing === 1 ? "An outline crosses or touches itself." : `${crossing} outlines cross or touch themselves.`];
  } catch {
    return [];
  }
}

async function savePlace(event) {
  event.preventDefault();
  try {
    const id = base.geography_id, head = { geography_id: id, name: G.name.value };
    if (G.description.value) head.description = G.description.value;
    // The coordinates go on as they were written.
    const shape = geoJsonOf(G.geojson.value), text = `${JSON.stringify(head).slice(0, -1)},"geography_json":${shape}}`;
    if (!await isMeant(placeWarnings(shape))) return;
    await ask("PUT", `drafts/geographies/${id}`, text);
    await showSaved("geographies", id);
  } catch (fault) {
    fail(faultOf(fault, "The place"));
  }
}

// --- The beginning ------------------------------------------------------------------------------------------------------

/** Shows this part to the author alone. */
export function show(isShown) {
  $("authoring").hidden = !isShown;
}

/** Binds the buttons and forms. */
export function start(after, onFault) {
  [refresh, fail] = [after, onFault];
  $("days").append(...boxes("day", DAYS.map((it) => [it, it])));
  for (const [group, list] of Object.entries(WORDS)) $(group).append(...boxes(group, list.map((it) => [it, plain(it)])));
  $("write").onclick = newPolicy;
  $("draw").onclick = newPlace;
  $("undo").onclick = () => map.dropCorner();
  for (const button of document.querySelectorAll("button.cancel")) button.onclick = cancel;
  policyForm.onsubmit = savePolicy;
  policyForm.oninput = (event) => {
    if (event.target === P.json) $("byhand").hidden = false;
    const part = event.target.closest("#events details");
    if (part) takeEvents(part);
    showDocument();
  };
  placeForm.onsubmit = savePlace;
  G.geojson.oninput = typeCorners;
}
"##;
