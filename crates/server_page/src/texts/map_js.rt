//! The text of `web/map.js`, as it is.

/// The text.
pub const MAP_JS: &str =
    r##"// The map: it pans and zooms by mouse, touch and keyboard, tells what is somewhere, and lets the author draw a place.

import { $, el, keepPlace, link, say, terms } from "./dom.js";
import { E7, boxOf, inWhole, mercator, unmercator, within } from "./geometry.js";
import * as layers from "./layers.js";
import { ago, digitsOf, isSame, plain, words } from "./rules.js";
import { isAuthor, isOver, now, operatorName, shownFleet, standingOf, state } from "./state.js";

const NEAREST = 256, FARTHEST = 256 * 2 ** 21, FITTED = 256 * 2 ** 19, CLOSE = 256 * 2 ** 15;
const REACH = 12, STILL = 5, STEP = 60;
const MOVES = { ArrowLeft: [-STEP, 0], ArrowRight: [STEP, 0], ArrowUp: [0, -STEP], ArrowDown: [0, STEP] };

const canvas = $("map"), ctx = canvas.getContext("2d");
const view = { x: 0.5, y: 0.5, scale: NEAREST, width: 0, height: 0 };
let isDue = false, picked = null, wasMoved = false;
// The corners of the place that is being drawn, and who wants to know of each change.
let drawing = null;

// --- Drawing ------------------------------------------------------------------------------------------------------------

/** Draws the map anew with the next frame. */
export function draw() {
  if (isDue) return;
  isDue = true;
  requestAnimationFrame(() => {
    isDue = false;
    frame();
  });
}

function frame() {
  const ratio = devicePixelRatio || 1;
  view.width = canvas.clientWidth;
  view.height = canvas.clientHeight;
  if (!view.width) return;
  const [width, height] = [Math.round(view.width * ratio), Math.round(view.height * ratio)];
  if (canvas.width !== width || canvas.height !== height) [canvas.width, canvas.height] = [width, height];
  ctx.setTransform(ratio, 0, 0, ratio, 0, 0);
  layers.drawLand(ctx, view);
  if (state.settings.tiles) layers.drawTiles(ctx, view, draw);
  else layers.drawGrid(ctx, view);
  layers.drawPlaces(ctx, view);
  layers.drawVehicles(ctx, view, picked);
  layers.drawNames(ctx, view);
  if (drawing) layers.drawOutline(ctx, view, drawing.corners);
  layers.drawScale(ctx, view);
}

/** Shows the view that the settings give, or all where they give none. */
export function showFirst() {
  const first = state.settings.view;
  if (!first) return fit();
  const [x, y] = mercator(first.lng, first.lat);
  view.x = x;
  view.y = Math.min(1, Math.max(0, y));
  view.scale = Math.min(FARTHEST, NEAREST * 2 ** first.zoom);
  draw();
}

/**
 * Shows these places (by the digits of their identifiers), or all, or the fleet where there is no place, or what the settings say
 * where there is no vehicle either.
 */
export function fit(ids) {
  let boxes = [...state.places, ...state.draftPlaces].filter((it) => !ids || ids.includes(digitsOf(it.geography_id)))
    .map((it) => it.box).filter((box) => box[0] < box[2]);
  if (!boxes.length && state.fleet?.count) {
    boxes = [boxOf(Array.from(state.fleet.x.subarray(0, 5000), (x, row) => [x, state.fleet.y[row]]))];
  }
  if (!boxes.length) {
    if (!ids && state.settings.view) showFirst();
    return;
  }
  const [west, north, east, south] = boxOf(boxes.flatMap((box) => [[box[0], box[1]], [box[2], box[3]]]));
  view.x = (west + east) / 2;
  view.y = (north + south) / 2;
  const width = Math.max(east - west, 1e-9), height = Math.max(south - north, 1e-9);
  view.scale = 0.88 * Math.min(canvas.clientWidth / width, canvas.clientHeight / height, FITTED);
  draw();
}

/** Brings the map into sight, where the page is narrow and scrolls. */
export const reveal = () => canvas.scrollIntoView({ block: "nearest" });

/** The same, unless somebody has moved the map already. */
export function fitFirst() {
  if (!wasMoved) showFirst();
}

function zoom(by, px = view.width / 2, py = view.height / 2) {
  const [x, y] = layers.toSquare(view, px, py);
  view.scale = Math.min(FARTHEST, Math.max(NEAREST, view.scale * by));
  view.x = x - (px - view.width / 2) / view.scale;
  view.y = y - (py - view.height / 2) / view.scale;
  wasMoved = true;
  draw();
}

function pan(px, py) {
  view.x += px / view.scale;
  view.y += py / view.scale;
  wasMoved = true;
  draw();
}

// --- What is somewhere --------------------------------------------------------------------------------------------------

/** 16 bytes as an identifier, as the server prints it. */
export function idOf(bytes) {
  const digits = Array.from(bytes, (it) => it.toString(16).padStart(2, "0")).join("");
  return digits.replace(/^(.{8})(.{4})(.{4})(.{4})/, "$1-$2-$3-$4-");
}

/** The device of a row of the fleet that is shown. */
export const deviceOf = (row) => idOf(shownFleet().id.subarray(row * 16, row * 16 + 16));

/** The row of an operator's device in that fleet, -1 where there is none: each fleet ascends by identifier. */
export function rowOf(device, owner = 0) {
  const { id, starts } = shownFleet(), key = digitsOf(device).match(/../g).map((it) => parseInt(it, 16));
  let low = starts[owner], high = (starts[owner + 1] ?? 0) - 1;
  while (low <= high) {
    const middle = (low + high) >> 1;
    let sign = 0;
    for (let i = 0; i < 16 && !sign; i++) sign = id[middle * 16 + i] - key[i];
    if (!sign) return middle;
    if (sign < 0) low = middle + 1;
    else high = middle - 1;
  }
  return -1;
}

/** Takes away what is told of a vehicle or a place. */
export function close() {
  picked = null;
  $("picked").hidden = true;
  draw();
}

/** Takes away what is told of a vehicle: its fleet isn't the one that is shown any more. */
export function closeVehicle() {
  if (picked !== null) close();
}

function tell(...parts) {
  const place = keepPlace($("picked"), "#picked");
  $("picked").replaceChildren(...parts.filter(Boolean), link("Close", close, { "data-key": "close" }));
  $("picked").hidden = false;
  place();
  draw();
}

/** A moment in local time and in the form of RFC 3339, and how long before the moment that is shown it was. */
function moment(t) {
  const text = new Date(t).toISOString(), word = state.moment === null ? "ago" : "before then";
  return el("span", {}, `${state.clock.when(t)}, ${ago(Math.max(0, now() - t), word)} `,
    el("time", { className: "small", dateTime: text }, text));
}

/** Tells of a vehicle: its type and state, since when and after what, its last report where that is a later one, and where it is. */
function tellVehicle(row) {
  const fleet = shownFleet(), kind = fleet.kinds[fleet.kind[row]], owner = state.me.operators?.[fleet.owner[row]];
  const places = state.places.filter((_, index) => fleet.inside[index]?.[row]).map((it) => it.name);
  const since = fleet.since[row], stamp = fleet.stamp[row];
  picked = row;
  tell(
    el("b", {}, `${plain(kind.type)}, ${plain(kind.state)}`),
    isAuthor() && owner ? el("div", {}, `of ${operatorName(owner.id)}`) : null,
    el("div", { className: "small" }, deviceOf(row)),
    terms([
      ["Since", moment(since)],
      ...(kind.events?.length ? [["After", words(kind.events.map(plain), "and")]] : []),
      ...(stamp === since ? [] : [["Reported", moment(stamp)]]),
      ["Where", words(places, "and") || "in no published place"],
    ]),
    state.offenders.has(row) ? el("div", { className: "tag bad" }, "✗ breaks a rule") : null,
  );
}

function tellPlaces([x, y]) {
  const [lng, lat] = unmercator(x, y).map(E7), point = { lng: [lng], lat: [lat] };
  const held = state.places.filter((it) => within(inWhole(it.polygons), point, 1)[0]);
  picked = null;
  if (!held.length) return close();
  const isHere = (rule) => rule.geographies.some((id) => held.some((it) => isSame(it.geography_id, id)));
  const policies = state.policies.filter((it) => standingOf(it, now()).state === "force" && it.rules.some(isHere));
  tell(
    el("b", {}, words(held.map((it) => it.name), "and")),
    el("div", {}, policies.length ? `In force here: ${words(policies.map((it) => it.name), "and")}` : "No policy is in force here."),
  );
}

/** Tells of the nearest vehicle within reach of a pixel, else of the places there. */
function pick(px, py) {
  const fleet = shownFleet();
  let best = REACH * REACH, nearest = -1;
  for (let row = 0; fleet && row < fleet.count; row++) {
    const [x, y] = layers.toPixel(view, fleet.x[row], fleet.y[row]), distance = (x - px) ** 2 + (y - py) ** 2;
    if (distance < best) [best, nearest] = [distance, row];
  }
  if (nearest >= 0) tellVehicle(nearest);
  else tellPlaces(layers.toSquare(view, px, py));
  $("picked").scrollTop = 0;
}

/** Goes to an operator's vehicle by its device, and tells of it. */
export function showDevice(device, owner = 0) {
  const fleet = shownFleet(), row = fleet ? rowOf(device, owner) : -1;
  if (row < 0) return say("That vehicle isn’t on the map.");
  view.x = fleet.x[row];
  view.y = fleet.y[row];
  view.scale = Math.max(view.scale, CLOSE);
  wasMoved = true;
  tellVehicle(row);
  $("picked").scrollTop = 0;
  reveal();
}

/** Keeps the vehicle that is told of, over a new reading of the fleet, unless it is one of a moment that is over. */
export function takeFleet(fleet) {
  const isTold = picked !== null && !isOver();
  const device = isTold ? deviceOf(picked) : null, owner = isTold ? state.fleet.owner[picked] : 0;
  state.fleet = fleet;
  state.fleetAt = Date.now();
  if (device === null) return;
  const row = rowOf(device, owner);
  if (row < 0) close();
  else tellVehicle(row);
}

// --- A place that is drawn ----------------------------------------------------------------------------------------------

/** Begins with these corners; `changed` is told the corners after each change. */
export function startDrawing(corners, changed) {
  drawing = { corners, changed };
  canvas.classList.add("draw");
  draw();
}

export function stopDrawing() {
  drawing = null;
  canvas.classList.remove("draw");
  draw();
}

/** Takes other corners, which were typed. */
export function setCorners(corners) {
  if (drawing) drawing.corners = corners;
  draw();
}

function addCorner([x, y]) {
  drawing.corners.push(unmercator(x, y).map((degrees) => +degrees.toFixed(6)));
  drawing.changed(drawing.corners);
  draw();
}

export function dropCorner() {
  drawing.corners.pop();
  drawing.changed(drawing.corners);
  draw();
}

// --- Mouse, touch, keys -------------------------------------------------------------------------------------------------

const fingers = new Map();
let downAt = [0, 0], moved = 0;

canvas.onpointerdown = (event) => {
  canvas.setPointerCapture(event.pointerId);
  downAt = [event.offsetX, event.offsetY];
  fingers.set(event.pointerId, downAt);
  moved = 0;
};

canvas.onpointermove = (event) => {
  const before = fingers.get(event.pointerId);
  if (!before) return;
  const here = [event.offsetX, event.offsetY], other = [...fingers].find(([id]) => id !== event.pointerId)?.[1];
  const apart = (point) => Math.max(1, Math.hypot(point[0] - other[0], point[1] - other[1]));
  if (other) zoom(apart(here) / apart(before), ...other);
  else pan(before[0] - here[0], before[1] - here[1]);
  moved = Math.max(moved, Math.hypot(here[0] - downAt[0], here[1] - downAt[1]));
  fingers.set(event.pointerId, here);
};

canvas.onpointerup = canvas.onpointercancel = (event) => {
  const isClick = event.type === "pointerup" && fingers.size === 1 && moved < STILL;
  fingers.delete(event.pointerId);
  if (!isClick) return;
  if (drawing) addCorner(layers.toSquare(view, event.offsetX, event.offsetY));
  else pick(event.offsetX, event.offsetY);
};

canvas.addEventListener("wheel", (event) => {
  event.preventDefault();
  zoom(2 ** (-event.deltaY / 300), event.offsetX, event.offsetY);
}, { passive: false });

/** What a key does, or undefined where it does nothing. */
function actionOf(key) {
  if (MOVES[key]) return () => pan(...MOVES[key]);
  if (key === "+" || key === "=") return () => zoom(1.5);
  if (key === "-") return () => zoom(1 / 1.5);
  if (key === "0") return () => fit();
  if (key === "Enter") return () => (drawing ? addCorner([view.x, view.y]) : pick(view.width / 2, view.height / 2));
  if (key === "Backspace" && drawing) return dropCorner;
  if (key === "Escape" && !drawing) return close;
  return undefined;
}

canvas.onkeydown = (event) => {
  const action = event.ctrlKey || event.metaKey || event.altKey ? undefined : actionOf(event.key);
  if (!action) return;
  event.preventDefault();
  action();
};

/** Begins: the buttons, the size and the scheme of colours. `showAll` is called where everything is to be shown. */
export function start(showAll) {
  const repaint = () => {
    layers.takeColours();
    draw();
  };
  $("in").onclick = () => zoom(1.6);
  $("out").onclick = () => zoom(1 / 1.6);
  $("fit").onclick = showAll;
  new ResizeObserver(draw).observe(canvas);
  matchMedia("(prefers-color-scheme: dark)").onchange = repaint;
  repaint();
}
"##;
