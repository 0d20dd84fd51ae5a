//! The text of `web/cards.js`, as it is.

/// The text.
pub const CARDS_JS: &str =
    r##"// Policies as cards, with what the server says of their rules, or what the page works out for a moment to come; and for the
// author a table of how operators stand.

import { $, csv, download, el, fold, keepPlace, link, terms } from "./dom.js";
import { inWhole, within } from "./geometry.js";
import * as layers from "./layers.js";
import { deviceOf, draw, fit, reveal, rowOf, showDevice } from "./map.js";
import * as rules from "./rules.js";
import { isAuthor, isEveryone, isOver, now, operatorName, oversight, placeName, serverVerdicts, shownFleet, shownPast,
  shownStandings, standingOf, state } from "./state.js";

const { digitsOf, isSame, number, plain, words } = rules;
const TAGS = { ok: ["good", "✓ kept"], violated: ["bad", "✗ broken"], not_evaluated: ["", "not judged"] };
const TONES = { force: "good", soon: "soon", over: "" };
const TOLD = 100, LONG = 400, ROUNDS_MISSED = 3, LEAST_MISSED = 60_000, FIRST_ROWS = 25, FIRST_ROWS_NARROW = 8, MORE_ROWS = 200;

/** What the author does with a policy, and what asks the server; page.js sets it. */
export const actions = { replace: null, withdraw: null, askSince: null, askEach: null, narrow: null, askAgain: null };

/** What stands beside what has a status, now or then. */
function standingTag(status, when = state.moment === null ? "now" : "then") {
  return status === "inactive" ? ["", `– not open ${when}`] : TAGS[status] || ["", plain(status)];
}

const one = (count, what) => `${number(count)} ${what}${count === 1 ? "" : "s"}`;

// How operators stand, for the author: a row for each operator and rule, and how many break and keep each rule.
let rows = [], tallies = new Map();

// --- Verdicts -----------------------------------------------------------------------------------------------------------

/** What the page works out by itself, null where it has no fleet of that moment. */
export function workOut(policy, t) {
  const { places, clock } = state, fleet = shownFleet();
  return fleet && rules.workOut(policy, t, { fleet, places, clock });
}

/** The verdict of each rule of a policy in force for an operator: the server's, the page's own for a moment to come. */
function verdictsOf(policy) {
  if (isAuthor() || isEveryone()) return null;
  const reports = state.moment === null ? state.reports : shownPast()?.reports;
  const told = reports?.get(digitsOf(policy.policy_id));
  if (told) return told.map((it) => ({ ...it, devices: it.devices || [], isOwn: false }));
  const worked = workOut(policy, now());
  return worked?.map(({ status, measure, rows }) => {
    const devices = status === "violated" ? rows.slice(0, TOLD).map(deviceOf) : [];
    return { status, measure, devices, isOwn: true };
  });
}

/** Where the page's own verdicts differ from the server's, for the moment at which the server judged. */
export function differences() {
  const found = [], verdicts = serverVerdicts();
  for (const policy of state.policies) {
    const told = verdicts?.reports.get(digitsOf(policy.policy_id)), mine = told && workOut(policy, verdicts.at);
    mine?.forEach((it, index) => {
      const other = told[index];
      if (it.status === other.status && it.measure === other.measure) return;
      found.push(`${policy.rules[index].name}: ${it.status} ${it.measure}, told ${other.status} ${other.measure}`);
    });
  }
  return found;
}

// --- A rule -------------------------------------------------------------------------------------------------------------

/** A rule's measure against its bounds. */
function meter(rule, { measure, status, isOwn }) {
  const own = isOwn ? " (worked out by this page)" : "";
  if (rule.rule_type === "time") {
    return el("p", {}, measure ? `${one(measure, "vehicle")} outside the limit` : "No vehicle outside the limit", own);
  }
  const most = Math.max(measure, rule.maximum ?? 0, rule.minimum ?? 0, 1) * 1.15, fill = el("i");
  const name = `${number(measure)} counted; ${rules.bounds(rule)}`;
  const bar = el("div", { className: status === "violated" ? "bar bad" : "bar", role: "img", "aria-label": name }, fill);
  fill.style.width = `${measure / most * 100}%`;
  for (const bound of [rule.minimum, rule.maximum]) {
    if (bound == null) continue;
    const mark = el("u");
    mark.style.left = `${bound / most * 100}%`;
    bar.append(mark);
  }
  const far = status === "violated" ? rules.excess(rule, measure) : "";
  return el("div", {}, bar, el("p", { className: "small" }, `${number(measure)} counted${far && `: ${far}`}${own}`));
}

/** The vehicles of an operator that a broken rule counts, the first hundred of them. */
function devices(verdict, key, open, { owner = 0, title = "" } = {}) {
  if (!verdict?.devices?.length) return null;
  const { measure, devices: list } = verdict, counted = one(measure, "vehicle");
  const first = measure > list.length ? `The first ${list.length} of ${counted}` : counted;
  const isOnMap = !isAuthor() || oversight() === "vehicles";
  const item = (it) => el("li", {}, isOnMap ? link(it, () => showDevice(it, owner)) : it);
  return fold(`devices ${key}`, open.has(`devices ${key}`), title || first, () =>
    el("div", {}, title && first !== counted ? first : null, el("ol", { className: "devices" }, list.map(item))));
}

/** What stands beside a rule's name. */
function ruleTag(rule, verdict, isInForce, tally) {
  if (verdict) return standingTag(verdict.status);
  if (!isInForce) return null;
  if (tally?.violated) return ["bad", `✗ broken by ${one(tally.violated, "operator")}`];
  if (tally?.ok) return ["good", `✓ kept by ${one(tally.ok, "operator")}`];
  if (!rules.isJudged(rule)) return TAGS.not_evaluated;
  // Hours are the city's: by another zone they aren't told as open or not.
  if (isEveryone() && !state.clock.isTold && !rules.isAlwaysOpen(rule)) return null;
  return rules.isOpen(rule, now(), state.clock) ? ["good", "open"] : ["", "not open"];
}

function showRule(rule, key) {
  state.shownRule = state.shownRule === key ? null : key;
  state.shownPlaces = state.shownRule ? rule.geographies.map(digitsOf) : null;
  render();
  if (state.shownRule) {
    fit(state.shownPlaces);
    reveal();
  }
  draw();
}

function ruleCard(rule, key, verdict, tag, open) {
  const isJudged = rules.isJudged(rule), isShown = state.shownRule === key;
  const inOneState = rule.rule_type === "time" ? " in one state" : "";
  return el("div", { className: "rule" },
    el("div", { className: "title" }, el("span", {}, rule.name), tag && el("span", { className: `tag ${tag[0]}` }, tag[1])),
    verdict && isJudged && verdict.status !== "inactive" ? meter(rule, verdict) : null,
    terms([
      ["How many", isJudged ? rules.bounds(rule) + inOneState : "kept and shown, not judged by this server"],
      ["What", rules.vehicles(rule)],
      ["Where", words(rule.geographies.map(placeName)) || "nowhere"],
      ["When", rules.hours(rule)],
    ]),
    el("div", { className: "actions" }, link(isShown ? "Show everything" : "Show on the map", () => showRule(rule, key),
      { "data-key": `show ${key}`, "aria-pressed": String(isShown), "aria-label": `Show on the map: ${rule.name}` })),
    devices(verdict, key, open));
}

/** For each operator whose vehicles the page has: whether the view isn't narrowed to another, and the policy is meant for it. */
function shownOwners(policy = null) {
  const ids = isAuthor() ? state.me.operators.map((it) => it.id) : [state.me.id];
  const isMeant = (id) => !isAuthor() || !policy?.provider_ids?.length || policy.provider_ids.some((it) => isSame(it, id));
  return ids.map((id) => isMeant(id) && (state.shownOperator === null || id === state.shownOperator));
}

/** Marks the vehicles that a shown rule catches. */
function markCaught(policy, index) {
  const owners = shownOwners(policy), { owner, count } = shownFleet();
  state.caught = new Uint8Array(count);
  for (const row of workOut(policy, now())[index].caught) if (owners[owner[row]]) state.caught[row] = 1;
}

/** Marks an operator's vehicles that break a rule, unless another rule is shown. */
function markOffenders(policy, index, verdict, owner = 0) {
  if (verdict?.status !== "violated" || rules.hasTooFew(policy.rules[index], verdict.measure)) return;
  if (state.shownRule && state.shownRule !== `${policy.policy_id}/${index}`) return;
  for (const device of verdict.devices) {
    const row = rowOf(device, owner);
    if (row >= 0) state.offenders.add(row);
  }
}

// --- A policy -----------------------------------------------------------------------------------------------------------

function about(policy) {
  if (!policy.description) return null;
  const isLong = policy.description.length > LONG;
  const more = isLong ? { tabIndex: 0, role: "region", "aria-label": `What it is for: ${policy.name}` } : {};
  return el("p", { className: isLong ? "about long" : "about", ...more }, policy.description);
}

/** How a policy stands, the verdicts of its rules where it is in force, and what stands beside their names. */
function judge(policy) {
  const standing = standingOf(policy, now()), isInForce = standing.state === "force";
  const verdicts = isInForce ? verdictsOf(policy) : null;
  const told = policy.rules.map((_, index) => tallies.get(`${policy.policy_id}/${index}`));
  const tags = policy.rules.map((rule, index) => ruleTag(rule, verdicts?.[index], isInForce, told[index]));
  const count = (status) => verdicts?.filter((it) => it.status === status).length || told.filter((it) => it?.[status]).length;
  return { policy, standing, verdicts, tags, broken: count("violated"), kept: count("ok") };
}

function card({ policy, standing, verdicts, tags, broken }, open) {
  const who = policy.provider_ids || [], id = policy.policy_id;
  const until = policy.end_date == null ? "" : ` until ${state.clock.when(policy.end_date)}`;
  return el("article", { className: broken ? "bad" : "", "data-key": `policy ${id}` },
    el("header", {}, el("h3", {}, policy.name),
      el("span", { className: `tag ${TONES[standing.state]}` }, rules.standingWords(standing, state.clock))),
    about(policy),
    terms([
      ["Who", who.length ? words(who.map(operatorName), "and") : "every operator"],
      ["From", state.clock.when(policy.start_date) + until],
      ["Published", state.clock.when(policy.published_date)],
    ]),
    policy.rules.map((rule, index) => ruleCard(rule, `${id}/${index}`, verdicts?.[index], tags[index], open)),
    isAuthor() && standing.state !== "over" ? authorActions(policy) : null,
    fold(`document ${id}`, open.has(`document ${id}`), "The document", () =>
      el("pre", { tabIndex: 0, role: "region", "aria-label": `The document: ${policy.name}` }, JSON.stringify(policy, null, 2))));
}

const authorActions = (policy) => el("div", { className: "actions" },
  el("button", { type: "button", className: "replace", onclick: () => actions.replace(policy),
    "aria-label": `Replace ${policy.name}` }, "Replace…"),
  el("button", { type: "button", className: "withdraw", onclick: () => actions.withdraw(policy),
    "aria-label": `Withdraw ${policy.name}` }, "Withdraw…"));

// --- How operators stand ------------------------------------------------------------------------------------------------

// How many rows are shown, and what the table says.
let most = 0, shownRows = "";

/** The rows for the moment that is shown, since when those of now are seen so, and how many operators break each rule. */
function takeRows() {
  const told = shownStandings();
  const longest = Math.max(LEAST_MISSED, ROUNDS_MISSED * state.settings.refresh_seconds * 1000);
  if (!state.me?.operators?.some((it) => it.id === state.shownOperator)) state.shownOperator = null;
  rows = told ? rules.standingRows(told.operators, state.policies) : [];
  if (told && state.moment === null) state.seen = rules.remember(state.seen, rows, told.at, longest);
  tallies = new Map();
  for (const { policy, index, verdict } of rows) {
    const key = `${policy.policy_id}/${index}`, tally = tallies.get(key) || {};
    tallies.set(key, { ...tally, [verdict.status]: (tally[verdict.status] || 0) + 1 });
  }
}

/** The rows that the choices above the table leave, in the order that is chosen. */
function chosenRows() {
  const policy = $("bypolicy").value, isBrokenAlone = $("brokenalone").checked;
  const left = rows.filter((it) => (!state.shownOperator || it.id === state.shownOperator)
    && (!policy || it.policy.policy_id === policy) && (!isBrokenAlone || it.verdict.status === "violated"));
  return rules.inOrder(left, $("order").value, operatorName);
}

const THIS_TIME = "An earlier time at which this rule was broken, and kept again in between, doesn’t count.";

/** How a rule stood at a moment at which it wasn't broken, in words; `from` is the first one known at which it was. */
function stoodWords(policy, { before, from, stood }) {
  const { clock } = state, at = `at ${clock.since(before, from)}`, begun = rules.begin(policy);
  if (stood === "inactive") return `${at} it wasn’t open`;
  if (stood !== "absent") return `${at} it wasn’t broken`;
  const isNew = policy.published_date > before, what = isNew ? "published" : "in force";
  if (begun <= before || begun > from) return `${at} the policy wasn’t in force`;
  return `${at} the policy wasn’t ${what} yet (in force since ${clock.since(begun, from)})`;
}

/** Since when a rule is broken that is so at `at`, by what was asked: the first moment known, and in words. */
function askedSince(policy, found, at) {
  const { from, before, stood, isKept } = found, when = state.clock.since(from, at);
  if (before !== null) {
    const since = stood === "absent" ? "since" : "this time since";
    return { from, text: `${since} ${when}; ${stoodWords(policy, found)}` };
  }
  const why = isKept ? "broken at each moment asked about, as far back as this page asks" : "what stood before that isn’t kept";
  return { from, text: `this time since ${when} or earlier: ${why}` };
}

/**
 * Since when a rule is broken, by what the page has seen or asked: `{from, text, isOpen}`. `from` is the first moment known at
 * which it was, null where none is but the one that is shown; the text is empty where there is nothing to say; `isOpen` is
 * whether the server may be asked.
 */
function brokenSince(row) {
  if (row.verdict.status !== "violated") return { from: null, text: "", isOpen: false };
  const key = rules.rowKey(row), { at } = shownStandings(), seen = state.moment === null ? state.seen.get(key) : null;
  // What was asked before the page saw the rule become as it is says nothing of it.
  const found = state.sinces.get(key), asked = seen?.from > found?.at || state.lacksPast ? null : found;
  if (seen?.hasBegun) return { from: seen.from, text: `this time since ${state.clock.since(seen.from, at)}`, isOpen: false };
  if (asked && !asked.isComing && !asked.fault) return { ...askedSince(row.policy, asked, at), isOpen: false };
  const from = seen?.from ?? null, isOpen = !state.lacksPast && !asked?.isComing;
  const first = seen ? `not known yet: already broken when this page first looked, at ${state.clock.since(from, at)}` : "";
  const said = asked?.isComing ? "Asking since when…" : asked?.fault ? pastWords(asked.fault) : "";
  return { from, text: [first, said].filter(Boolean).join(". "), isOpen };
}

/** How long the vehicles that break a rule of time have stood, in milliseconds; none where the page doesn't know it of all. */
function spansOf({ owner, rule, verdict }) {
  const fleet = shownFleet(), { at } = shownStandings();
  if (rule.rule_type !== "time" || verdict.status !== "violated" || !fleet || verdict.devices.length < verdict.measure) return [];
  // One that moved after the vehicles were read could stand too long again only by now.
  if (state.moment === null && Date.now() - state.fleetAt >= rules.longest(rule)) return [];
  const places = verdict.devices.map((it) => rowOf(it, owner));
  return places.includes(-1) ? [] : places.map((it) => Math.max(0, at - fleet.since[it]));
}

const measuredOf = (row) => rules.measured(row.rule, row.verdict, spansOf(row));

// A narrow page shows rows as blocks, so the table's parts say what they are.
const cell = (...inside) => el("td", { role: "cell" }, inside);

function standingRow(row, open) {
  const { id, owner, policy, index, rule, verdict } = row, key = `${policy.policy_id}/${index}`;
  const [tone, text] = standingTag(verdict.status), measure = measuredOf(row);
  const name = rule.name && rule.name !== policy.name ? rule.name : null;
  const shown = { "aria-pressed": String(state.shownRule === key), "aria-label": `Show on the map: ${policy.name} ${name || ""}` };
  const since = brokenSince(row), ask = () => el("div", {}, link("Since when?", () => actions.askSince(row),
    { className: "link small", "aria-label": `Since when? ${operatorName(id)}, ${name || policy.name}` }));
  return el("tr", { role: "row", "data-key": `stands ${id} ${key}`, className: verdict.status === "violated" ? "bad" : "" },
    el("th", { role: "rowheader", scope: "row" }, operatorName(id)),
    cell(link(policy.name, () => showRule(rule, key), shown), name && el("div", { className: "small" }, name)),
    cell(el("span", { className: `tag ${tone}` }, text)),
    cell(since.text && el("div", { className: "small", title: THIS_TIME }, since.text), since.isOpen && ask()),
    cell(devices(verdict, `stands ${id} ${key}`, open, { owner, title: measure }) || measure));
}

/** A button for more rows, where some are left. */
function moreRows(left) {
  if (left <= 0) return [];
  const text = `Show ${number(Math.min(left, MORE_ROWS))} more of ${one(left, "row")}`;
  return [el("div", { className: "actions", "data-key": "more" },
    el("button", { type: "button", id: "morerows", onclick: showMore }, text))];
}

const STANDING_HEAD = ["Operator", "Policy", "Verdict", "Broken since", "Measure"];

/** The first rows of the table. */
function standingTable(chosen, open) {
  const head = (name) => el("th", { role: "columnheader", scope: "col" }, name);
  const [is, then] = state.moment === null ? ["is", ""] : ["was", " then"];
  const none = rows.length ? "No rule is left by what is chosen above." : `No rule ${is} in force for an operator${then}.`;
  if (!chosen.length) return [el("p", { className: "small" }, none)];
  return [
    el("table", { className: "standing", role: "table", "aria-labelledby": "standingtitle" },
      el("thead", { role: "rowgroup" }, el("tr", { role: "row" }, STANDING_HEAD.map(head))),
      el("tbody", { role: "rowgroup" }, chosen.slice(0, most).map((it) => standingRow(it, open)))),
    ...moreRows(chosen.length - most),
  ];
}

function showMore() {
  most += MORE_ROWS;
  renderTable();
  showAskEach();
}

/** Choices of a list, made anew where they are others than before. */
function offer(select, pairs) {
  const said = JSON.stringify(pairs), { value } = select;
  if (select.dataset.said === said) return;
  select.dataset.said = said;
  select.replaceChildren(...pairs.map(([key, text]) => el("option", { value: key }, text)));
  select.value = pairs.some(([key]) => key === value) ? value : "";
}

// Why a moment that is over isn't shown, where more is to be said than the refusal's own words.
const PAST_WORDS = {
  not_kept: "What stood then isn’t kept on this server any more: its records were shortened since. An archive of them "
    + "would have it: ask whoever runs the server.",
  busy: "The server is still working out another question about the past.",
  future: "By the server’s clock that moment hasn’t come yet, so nothing is told of it.",
};
// Where it is of no use to ask again.
const LASTING = ["not_kept", "future", "role"];

const pastWords = (fault) => PAST_WORDS[fault.code] || fault.message;

/** What stands in the place of a moment that is over and isn't shown: `untold` where the server doesn't tell the past. */
function pastNote(untold) {
  const { past } = state;
  if (!past) return [untold];
  if (!past.fault) return ["Asking what stood then…"];
  const again = link("Ask again", () => actions.askAgain(), { "data-key": "again" });
  return LASTING.includes(past.fault.code) ? [pastWords(past.fault)] : [pastWords(past.fault), " ", again];
}

/** Why there is no table, null where there is one. */
function whyNone() {
  if (!state.me?.oversight) return ["This server doesn’t show the city how its operators stand."];
  if (oversight() === "none") {
    return ["The configuration doesn’t show the city how its operators stand. With \"oversight\": \"verdicts\" in it "
      + "their verdicts are told here; with \"oversight\": \"vehicles\" their vehicles are on the map too."];
  }
  if (shownStandings()) return null;
  if (isOver()) {
    return pastNote("How operators stood then isn’t told here: the server tells how they stand now. What the city’s "
      + "journal says of the past the command “ruffletuff report” writes, of all operators or of one.");
  }
  return [state.moment === null ? "Asking how operators stand…" : "How operators stand isn’t told of a moment to come."];
}

/** When the server told how operators stand, and how often it is asked; or how it came to tell how they stood then. */
function toldNote(at) {
  const { clock, settings } = state, zone = clock.name(at);
  if (state.moment !== null) return `By what had been reported until ${clock.when(at)} (${zone}).`;
  return `As of ${clock.time(at)} (${zone}), `
    + `renewed every ${settings.refresh_seconds} seconds while the page is looked at.`;
}

/** How many operators break a rule, or broke one then. */
function standingNote() {
  const { at, operators } = shownStandings(), broken = rows.filter((it) => it.verdict.status === "violated");
  const who = new Set(broken.map((it) => it.owner)).size, kept = rows.filter((it) => it.verdict.status === "ok").length;
  const untold = operators.filter((it) => !it.compliance?.policies).map((it) => operatorName(it.id));
  const does = state.moment !== null ? "broke a rule then" : `${who > 1 ? "break" : "breaks"} a rule`;
  return `${who ? number(who) : "None"} of ${one(operators.length, "operator")} ${does}: `
    + `${one(broken.length, "rule")} broken, ${number(kept)} kept. ${toldNote(at)}`
    + (untold.length ? ` How ${words(untold, "and")} stands wasn’t told.` : "");
}

const SPELL = "“This time since” a time: since then the rule is broken without a break that this page knows of. "
  + "It may have been broken, and kept again, before that. ";
const SEEN = "“Or earlier”: that is the earliest time known at which it was broken, not the time at which it became so. ";
const ASKED = "“Since when?” asks the server about a few earlier moments: the rule was broken at the first time that is "
  + "named, and at each later one that was asked; how it stood at the second is said beside it. Choose another moment below "
  + "the map to see how operators stood then. ";
const NO_SPANS = "By how many minutes vehicles stand too long is told only where the city is shown the vehicles. ";

/** What is said below the table: of since when a rule is broken, and where the past is told. */
const sinceNote = () => SPELL + SEEN + (state.lacksPast ? "" : ASKED) + (oversight() === "vehicles" ? "" : NO_SPANS)
  + "How they stood over days or weeks, the command “ruffletuff report” writes from the journal.";

/** The rows in the table of which the server may be asked since when they are broken. */
const openRows = () => chosenRows().slice(0, most).filter((it) => brokenSince(it).isOpen);

let isAskingEach = false;

/** Asks it of each of them. */
async function askEach() {
  isAskingEach = true;
  showAskEach();
  await actions.askEach(openRows());
  isAskingEach = false;
  if (state.me) render();
}

/** Shows the button for it, where there are several; it can't be pressed while they are asked. */
function showAskEach() {
  $("askeach").hidden = !isAskingEach && openRows().length < 2;
  $("askeach").disabled = isAskingEach;
}

/** The operators and the policies that can be chosen. */
function offerChoices() {
  const used = new Set(rows.map((it) => it.policy));
  offer($("byoperator"), [["", "all"], ...state.me.operators.map((it) => [it.id, operatorName(it.id)])]);
  offer($("bypolicy"), [["", "all"], ...state.policies.filter((it) => used.has(it)).map((it) => [it.policy_id, it.name])]);
  $("byoperator").value = state.shownOperator || "";
}

/** Shows the table, made anew only where it says something else than before. */
function renderTable() {
  const chosen = chosenRows();
  const told = chosen.slice(0, most)
    .map((it) => [it.id, it.policy.policy_id, it.index, it.verdict, brokenSince(it), measuredOf(it)]);
  const said = JSON.stringify([told, chosen.length, rows.length, state.moment, state.shownRule, oversight(),
    state.me.operators]);
  if (said === shownRows) return;
  const place = keepPlace($("standing"), "#standingtable");
  const open = [...document.querySelectorAll("#standingtable details")].filter((it) => it.open).map((it) => it.dataset.key);
  $("standingtable").replaceChildren(...standingTable(chosen, new Set(open)));
  shownRows = said;
  place();
}

function renderStandings() {
  $("standing").hidden = !isAuthor();
  $("work").classList.toggle("overseen", isAuthor());
  if (!isAuthor()) return;
  const why = whyNone(), place = keepPlace($("standing"), "#standingnote");
  const then = isOver() && state.past ? state.clock.when(state.moment) : null;
  $("standingtitle").textContent = then ? `How operators stood on ${then}` : "How operators stand";
  $("standingnote").replaceChildren(...why || [standingNote()]);
  place();
  $("standingview").hidden = why !== null;
  if (why) return;
  $("sincenote").textContent = sinceNote();
  offerChoices();
  renderTable();
  showAskEach();
}

const CSV_HEAD = ["Moment (UTC)", "Operator", "Operator identifier", "Policy", "Policy identifier", "Rule", "Rule identifier",
  "Verdict", "Measure", "At least", "At most", "Unit", "Vehicles (the first 100)", "By how much", "Broken since (UTC)",
  "Broken since (local)", "Broken since (in words)"];

/** By how much a rule is broken and since when, as values of CSV: moments are the first that are known. */
function sinceValues(row) {
  const { rule, verdict } = row;
  if (verdict.status !== "violated") return ["", "", "", ""];
  const far = rule.rule_type === "time" ? rules.overstay(rule, spansOf(row)) : rules.excess(rule, verdict.measure);
  const { from, text } = brokenSince(row);
  const moments = from === null ? ["", ""] : [new Date(from).toISOString(), state.clock.stamp(from)];
  return [far, ...moments, text || "not asked"];
}

/** The table as CSV, with all rows that are chosen. */
function standingCsv() {
  const moment = new Date(shownStandings().at).toISOString();
  const line = ({ id, policy, rule, verdict }) => [moment, operatorName(id), id, policy.name, policy.policy_id, rule.name,
    rule.rule_id, standingTag(verdict.status)[1].replace(/^[✓✗–] /, ""), verdict.measure, rule.minimum, rule.maximum,
    rule.rule_type === "time" ? rule.rule_units : "vehicles", (verdict.devices || []).join(" ")];
  return csv([CSV_HEAD, ...chosenRows().map((it) => [...line(it), ...sinceValues(it)])]);
}

function downloadCsv() {
  const moment = new Date(shownStandings().at).toISOString().slice(0, 19).replace(/[T:]/g, "-");
  download(`operators-${moment}.csv`, "text/csv;charset=utf-8", standingCsv());
}

/** Binds the choices above the table. */
export function start() {
  const isNarrow = matchMedia("(max-width: 800px)").matches;
  const anew = () => {
    most = isNarrow ? FIRST_ROWS_NARROW : FIRST_ROWS;
    state.shownOperator = $("byoperator").value || null;
    actions.narrow();
    render();
    draw();
  };
  most = isNarrow ? FIRST_ROWS_NARROW : FIRST_ROWS;
  for (const id of ["byoperator", "bypolicy", "order", "brokenalone"]) $(id).onchange = anew;
  $("csv").onclick = downloadCsv;
  $("askeach").onclick = askEach;
}

// --- How operators would stand by a draft -------------------------------------------------------------------------------

const OPEN_AT_FIRST = 3;

/** Which vehicles a place holds: as it was read with the fleets, a draft's by its outline. */
const marksOf = (place) =>
  state.fleet.inside[state.places.indexOf(place)] || within(inWhole(place.polygons), state.fleet, state.fleet.count);

/** The city as the rules of a draft see it now, with the places of drafts; and whether a place of a rule isn't there. */
function cityOf(policy) {
  const used = new Set(policy.rules.flatMap((it) => it.geographies.map(digitsOf)));
  const places = [...state.places, ...state.draftPlaces].filter((it) => used.has(digitsOf(it.geography_id)));
  const known = new Set(places.map((it) => digitsOf(it.geography_id)));
  const fleet = { ...state.fleet, inside: places.map(marksOf) };
  return { places, clock: state.clock, fleet, isWhole: known.size === used.size };
}

/** The operators that a draft is meant for, each with its place among all, and whether its vehicles were read. */
function meantFor(policy) {
  const ids = policy.provider_ids || [], { missing } = state.fleet;
  return state.me.operators.map(({ id }, owner) => ({ id, owner, isRead: !missing.includes(owner) }))
    .filter((it) => !ids.length || ids.some((id) => isSame(id, it.id)));
}

function foresightRow({ id, isRead }, rule, { status, measure }) {
  const [tone, text] = isRead ? standingTag(status, "now") : ["", "vehicles not read"];
  const counted = isRead && status !== "inactive" ? number(measure) : "–";
  return el("tr", {}, el("th", { scope: "row" }, operatorName(id)), el("td", {}, counted), el("td", {}, rules.bounds(rule)),
    el("td", {}, el("span", { className: `tag ${tone}` }, text)));
}

const foresightTable = (name, lines) => el("table", { className: "foresight", "aria-label": name },
  el("thead", {}, el("tr", {}, ["Operator", "Counted", "Bound", "Would be"].map((it) => el("th", { scope: "col" }, it)))),
  el("tbody", {}, lines));

/** How operators would stand by a rule: a table for one of count, for each other kind who tells it. */
function foresightOf(rule, index, operators, verdicts, isOpen) {
  const name = rule.name || `Rule ${index + 1}`, sentence = (text) => el("p", { className: "small" }, `“${name}” ${text}`);
  if (!rules.isJudged(rule)) return sentence("is kept and shown, and not judged by this server.");
  if (rule.rule_type !== "count") return sentence("is about how long vehicles stand: that is told once the policy is published.");
  const broken = operators.filter((it) => it.isRead && verdicts[it.owner].status === "violated").length;
  const title = `${name}: ${broken ? number(broken) : "none"} of ${one(operators.length, "operator")} would break it`;
  return fold(`would ${index}`, isOpen(`would ${index}`), title, () =>
    foresightTable(name, operators.map((it) => foresightRow(it, rule, verdicts[it.owner]))));
}

/** What is said above the tables: by which vehicles, for whom not, and what isn't there. */
function foresightNote(operators, { isWhole }) {
  const others = state.me.operators.filter(({ id }) => !operators.some((it) => it.id === id)).map((it) => operatorName(it.id));
  return `By the vehicles as they were read at ${state.clock.time(state.fleetAt)} (${state.clock.name(state.fleetAt)}), `
    + "as if it were in force now; worked out by this page."
    + (others.length ? ` It isn’t meant for ${words(others, "and")}.` : "")
    + (isWhole ? "" : " A place of a rule is neither published nor a draft: no vehicle is in it.");
}

/** What is told of a policy that may be any document: a note, and a part for each rule. */
function foresight(policy) {
  if (!policy) return ["The document is no JSON, so this can’t be worked out.", []];
  if (!state.fleet) return ["Reading the operators’ vehicles…", []];
  try {
    const city = cityOf(policy), operators = meantFor(policy), verdicts = rules.workOutEach(policy, Date.now(), city);
    const before = [...$("foresighttable").querySelectorAll("details")], { length } = policy.rules;
    const isOpen = (key) => before.find((it) => it.dataset.key === key)?.open ?? length <= OPEN_AT_FIRST;
    const parts = policy.rules.map((it, index) => foresightOf(it, index, operators, verdicts[index], isOpen));
    return [foresightNote(operators, city), parts];
  } catch {
    return ["A member of the document is missing, or of another kind than it has to be, so this can’t be worked out.", []];
  }
}

/** Shows how each operator would stand by a draft now, rule by rule; null is a document that is no JSON. */
export function showForesight(policy) {
  const [note, parts] = foresight(policy), place = keepPlace($("panel"), "#foresight");
  $("foresightnote").textContent = note;
  $("foresighttable").replaceChildren(...parts);
  place();
}

// --- All of it ----------------------------------------------------------------------------------------------------------

function group(key, title, cards, isOpen) {
  if (!cards.length && key !== "force") return null;
  const none = el("p", { className: "small" }, "None.");
  return el("details", { className: "group", open: isOpen, "data-key": key },
    el("summary", {}, `${title} (${cards.length})`), cards.length ? cards : none);
}

function renderPlaces(open) {
  const show = (place) => {
    state.shownPlaces = [digitsOf(place.geography_id)];
    fit(state.shownPlaces);
  };
  const row = (place) => el("tr", {}, el("td", {}, link(place.name, () => show(place))),
    el("td", {}, (place.description || "").slice(0, LONG)));
  $("places").replaceChildren(el("details", { className: "group", open: open.has("places"), "data-key": "places" },
    el("summary", {}, `Places (${state.places.length})`), el("table", {}, el("tbody", {}, state.places.map(row)))));
}

const UNTOLD = "What stood then isn’t told here: the server tells your vehicles and verdicts as they are now.";
const WATCHED = {
  none: "The city’s author is shown neither your verdicts nor your vehicles.",
  verdicts: "The city’s author is shown your verdicts, of now and of moments that are over, with the identifiers of "
    + "vehicles that break a rule, and not where your vehicles are.",
  vehicles: "The city’s author is shown your verdicts and all of your vehicles, of now and of moments that are over: "
    + "where each is, its state, and since when.",
};

/** How many rules there are, what they are or were: `3 rules were kept`, without the number. */
function ruleCount(count, what) {
  const verb = state.moment === null ? "" : !isOver() ? "would be " : count === 1 ? "was " : "were ";
  return `${count === 1 ? "rule" : "rules"} ${verb}${what}`;
}

/** An operator's vehicles and verdicts in numbers, as they are, were then, or would be. */
function tiles(broken, kept) {
  const fleet = shownFleet(), past = shownPast(), which = state.moment === null ? "" : past ? " then" : " as of now";
  const tile = (value, what, tone = "") => el("div", { className: tone }, el("b", {}, value), what);
  if (isOver() && !past) return el("p", { id: "untold" }, pastNote(UNTOLD));
  return el("div", { className: "tiles" },
    tile(fleet ? number(fleet.count) : past?.fleetFault ? "–" : "…", `vehicles${which}`),
    tile(number(broken), ruleCount(broken, "broken"), broken ? "bad" : ""),
    tile(number(kept), ruleCount(kept, "kept")));
}

const FOR_EVERYONE = "What the city has published for everyone. Policies for single operators, and how operators stand by any, "
  + "aren’t told here.";

/** What an operator is told above its policies: how it stands, or stood then, and what the city sees of that. */
function ownSummary(broken, kept) {
  const watched = WATCHED[state.me?.oversight], then = isOver() && state.past ? state.clock.when(state.moment) : null;
  return [then && el("h2", { id: "then" }, `How your vehicles stood on ${then}`), tiles(broken, kept),
    watched && el("p", { className: "small", id: "watched" }, watched)].filter(Boolean);
}

function renderSummary(broken, kept) {
  const place = keepPlace($("panel"), "#summary");
  if (isEveryone()) $("summary").replaceChildren(el("p", { id: "foreveryone" }, FOR_EVERYONE));
  else $("summary").replaceChildren(...(isAuthor() ? [] : ownSummary(broken, kept)));
  place();
}

/** The operators whose vehicles are on the map, with their marks and how many of theirs break a rule. */
function ownerItems() {
  const { starts, missing, owner } = shownFleet(), counts = new Map();
  const when = state.moment === null ? `as of ${state.clock.time(state.fleetAt)}` : "as they stood then";
  for (const row of state.offenders) counts.set(owner[row], (counts.get(owner[row]) || 0) + 1);
  const item = ({ id }, index) => {
    const broken = counts.get(index), icon = el("canvas", { width: 16, height: 16 });
    layers.drawMark(icon.getContext("2d"), index, 8, 8, 5);
    const said = broken ? ` (${number(broken)} ${broken === 1 ? "breaks" : "break"} a rule)` : "";
    return el("li", {}, icon, operatorName(id), said, missing.includes(index) ? " (not read)" : "");
  };
  const isThere = (_, index) => starts[index + 1] > starts[index] || missing.includes(index);
  return [...state.me.operators.map((it, index) => (isThere(it, index) ? item(it, index) : null)).filter(Boolean),
    el("li", { className: "small" }, `Vehicles ${when}`)];
}

/** What stands in the place of vehicles: that they are being read, or why they aren't there; empty where none are due. */
function fleetNote() {
  const past = shownPast(), isDue = isAuthor() ? oversight() === "vehicles" && (past || state.moment === null) : past;
  if (!isDue || shownFleet()) return "";
  if (past?.fleetFault) return `Where vehicles stood then isn’t shown. ${pastWords(past.fleetFault)}`;
  return isAuthor() ? "Reading the operators’ vehicles…" : "Reading your vehicles of then…";
}

function renderLegend() {
  const item = (name, text) => el("li", {}, el("i", { className: name }), text);
  const fleet = shownFleet(), used = new Set(isAuthor() ? [] : fleet?.kinds.map(layers.colourOf));
  const legend = $("legend"), { scrollTop } = legend;
  legend.replaceChildren(...layers.KINDS.filter((it) => used.has(it)).map((it) => item(it, plain(it))),
    ...(state.offenders.size ? [item("ring", "breaks a rule")] : []), ...(isAuthor() && fleet ? ownerItems() : []));
  const note = fleetNote();
  if (note) legend.append(el("li", {}, note));
  legend.setAttribute("aria-label", isAuthor() ? "Marks of operators" : "Colours of vehicles");
  legend.tabIndex = legend.scrollHeight > legend.clientHeight + 1 ? 0 : -1;
  legend.scrollTop = scrollTop;
}

/** What everyone is shown, for which moment, and by whose clock. */
function publicNote() {
  const t = now(), zone = state.clock.name(t);
  if (state.moment === null) return `Now (${zone}).`;
  return `${isOver() ? "What was in force then" : "What would be in force then"}, by what is published today (${zone}).`;
}

/** What is shown of a moment that is over. */
function overNote() {
  const inForce = "What was in force then, by what is published today.", t = state.moment;
  const none = state.past && !state.past.fault ? "The vehicles and verdicts of that moment are being asked for."
    : `${state.past ? "No" : "What stood then isn’t told here: no"} vehicle is shown, and no verdict.`;
  const whose = isAuthor() ? "How operators stood is" : "Your vehicles and verdicts are";
  if (!shownPast()) return `${inForce} ${none}`;
  return `${inForce} ${whose} what the server would have answered on ${state.clock.when(t)} (${state.clock.name(t)}).`;
}

/** What is shown, for which moment, and who has judged it. */
function momentNote() {
  if (isEveryone()) return publicNote();
  if (isOver()) return overNote();
  if (state.moment !== null) {
    return isAuthor()
      ? "What would be in force then, by what is published today. How operators stand isn’t told of a moment to come."
      : "The server judges only by its own clock. For this moment the page works it out by itself: "
        + "the fleet as last reported, standing still, under what is published today.";
  }
  const t = state.judgedAt || now(), zone = state.clock.name(t);
  const judged = state.judgedAt ? `, judged by the server ${state.clock.when(t)}` : "";
  const untold = isAuthor() && !state.areWithdrawalsTold
    ? " This server has no list of withdrawals: what another browser withdrew is shown as in force." : "";
  return `Now, revision ${state.revision}${judged} (${zone}).${untold}`;
}

/** Marks on the map all that the rules have to do with. */
function markAll(judged) {
  state.offenders = new Set();
  state.caught = null;
  const fleet = shownFleet(), owners = fleet && shownOwners();
  if (!fleet) return;
  for (const { policy, verdicts } of judged) {
    policy.rules.forEach((_, index) => {
      if (state.shownRule === `${policy.policy_id}/${index}`) markCaught(policy, index);
      markOffenders(policy, index, verdicts?.[index]);
    });
  }
  for (const { owner, policy, index, verdict } of rows) if (owners[owner]) markOffenders(policy, index, verdict, owner);
  if (!state.caught && owners.includes(false)) state.caught = fleet.owner.map((owner) => (owners[owner] ? 1 : 0));
}

function renderPolicies(judged) {
  const details = [...document.querySelectorAll("#policies details, #places details")];
  const place = keepPlace($("panel"), "#policies, #places");
  const open = new Set(details.filter((it) => it.open).map((it) => it.dataset.key));
  const of = (name) => judged.filter((it) => it.standing.state === name).map((it) => card(it, open));
  $("policies").replaceChildren(...[
    group("force", state.moment === null ? "In force now" : "In force at that moment", of("force"), !details.length || open.has("force")),
    group("soon", "To come", of("soon"), open.has("soon")),
    group("over", "No longer", of("over"), open.has("over")),
  ].filter(Boolean));
  renderPlaces(open);
  place();
}

let shown = "";

/** Shows all that the state holds. Cards are made anew only where they say something else than before. */
export function render() {
  takeRows();
  const judged = state.policies.map(judge).sort((a, b) => (b.broken > 0) - (a.broken > 0));
  const sum = (what) => judged.reduce((all, it) => all + it[what], 0);
  markAll(judged);
  const names = [state.places, state.me?.operators].map((list) => list?.map((it) => [it.name, it.description]));
  const said = JSON.stringify([judged, names, state.moment === null, state.shownRule, state.me?.role]);
  if (said !== shown) renderPolicies(judged);
  shown = said;
  renderSummary(sum("broken"), sum("kept"));
  renderStandings();
  renderLegend();
  $("timenote").textContent = momentNote();
}
"##;
