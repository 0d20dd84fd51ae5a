//! The text of `web/layers.js`, as it is.

/// The text.
pub const LAYERS_JS: &str =
    r##"// What the map draws, on a canvas: tiles or a grid, places, vehicles, a scale. All of it goes by a view, which has the middle of
// the map in the square of Web Mercator (`x`, `y`) and the pixels that are as wide as the world (`scale`).

import { mercator, unmercator } from "./geometry.js";
import { digitsOf } from "./rules.js";
import { isAuthor, shownFleet, state } from "./state.js";

const MANY = 4_000, VERY_MANY = 60_000, TILES_KEPT = 400, DOT = 4, EQUATOR = 40_075_017;
const FONT = "system-ui, sans-serif";

export const KINDS = ["available", "on_trip", "reserved", "non_operational", "other"];
export const colourOf = (kind) => (KINDS.includes(kind.state) ? kind.state : "other");

// The operators' colours, by Okabe and Ito: apart for colour-blind people too. The 64 operators that a city may have are told
// apart by colour and shape together, the first eight by either.
const COLOURS = ["#0072b2", "#e69f00", "#009e73", "#cc79a7", "#56b4e9", "#d55e00", "#f0e442", "#7f7f7f"];
const CROSS = [[-0.35, -1.1], [0.35, -1.1], [0.35, -0.35], [1.1, -0.35], [1.1, 0.35], [0.35, 0.35], [0.35, 1.1], [-0.35, 1.1],
  [-0.35, 0.35], [-1.1, 0.35], [-1.1, -0.35], [-0.35, -0.35]];
const SHAPES = [
  disc,
  (ctx, r) => ctx.rect(-0.85 * r, -0.85 * r, 1.7 * r, 1.7 * r),
  (ctx, r) => corners(ctx, r, [[0, -1.1], [1, 0.8], [-1, 0.8]]),
  (ctx, r) => corners(ctx, r, [[0, -1.2], [1, 0], [0, 1.2], [-1, 0]]),
  (ctx, r) => corners(ctx, r, [[0, 1.1], [1, -0.8], [-1, -0.8]]),
  (ctx, r) => corners(ctx, r, CROSS),
  (ctx, r) => corners(ctx, r, Array.from({ length: 10 }, (_, n) => turned([0, n % 2 ? -0.5 : -1.25], n / 10))),
  (ctx, r) => corners(ctx, r, CROSS.map((it) => turned(it, 1 / 8))),
];

const colourOfOwner = (owner) => COLOURS[owner % COLOURS.length];
const shapeOfOwner = (owner) => SHAPES[(owner + Math.floor(owner / COLOURS.length)) % SHAPES.length];

function disc(ctx, radius) {
  ctx.moveTo(radius, 0);
  ctx.arc(0, 0, radius, 0, 7);
}

/** A point turned by a part of a circle. */
function turned([x, y], part) {
  const [sin, cos] = [Math.sin(2 * Math.PI * part), Math.cos(2 * Math.PI * part)];
  return [x * cos - y * sin, x * sin + y * cos];
}

function corners(ctx, radius, list) {
  list.forEach(([x, y], index) => (index ? ctx.lineTo(x * radius, y * radius) : ctx.moveTo(x * radius, y * radius)));
  ctx.closePath();
}

let colours = {};
const layer = document.createElement("canvas"), tiles = new Map();
let image = null;

/** Takes the colours of the page's present scheme. */
export function takeColours() {
  const style = getComputedStyle(document.documentElement);
  colours = {};
  for (const name of ["land", "grid", "place", "halo", "ink", "offender", ...KINDS]) {
    colours[name] = style.getPropertyValue(`--${name}`).trim();
  }
}

/** Where a position of the square is on the canvas. */
export const toPixel = (view, x, y) =>
  [(x - view.x) * view.scale + view.width / 2, (y - view.y) * view.scale + view.height / 2];

/** The position of the square that a pixel shows. */
export const toSquare = (view, px, py) =>
  [(px - view.width / 2) / view.scale + view.x, (py - view.height / 2) / view.scale + view.y];

/** Lines at distances that are powers of two, where there are no tiles. */
export function drawGrid(ctx, view) {
  const step = 2 ** -Math.floor(Math.log2(view.scale / 90));
  const [west, north] = toSquare(view, 0, 0), [east, south] = toSquare(view, view.width, view.height);
  ctx.strokeStyle = colours.grid;
  ctx.lineWidth = 1;
  ctx.beginPath();
  for (let x = Math.ceil(west / step) * step; x < east; x += step) {
    const [px] = toPixel(view, x, 0);
    ctx.moveTo(px, 0);
    ctx.lineTo(px, view.height);
  }
  for (let y = Math.ceil(north / step) * step; y < south; y += step) {
    const [, py] = toPixel(view, 0, y);
    ctx.moveTo(0, py);
    ctx.lineTo(view.width, py);
  }
  ctx.stroke();
}

function tile(url, redraw) {
  let it = tiles.get(url);
  if (!it) {
    it = new Image();
    it.onload = redraw;
    it.src = url;
    tiles.set(url, it);
    if (tiles.size > TILES_KEPT) tiles.delete(tiles.keys().next().value);
  }
  return it.complete && it.naturalWidth ? it : null;
}

/** Tiles of 256 pixels in the scheme z/x/y, as far as they have come; `redraw` is called as each comes. */
export function drawTiles(ctx, view, redraw) {
  const level = Math.max(0, Math.min(19, Math.round(Math.log2(view.scale / 256)))), count = 2 ** level;
  const [west, north] = toSquare(view, 0, 0), [east, south] = toSquare(view, view.width, view.height);
  const last = Math.min(count - 1, Math.floor(south * count)), size = view.scale / count + 0.5;
  for (let i = Math.floor(west * count); i <= east * count; i++) {
    for (let j = Math.max(0, Math.floor(north * count)); j <= last; j++) {
      const column = ((i % count) + count) % count;
      const url = state.settings.tiles.replace("{z}", level).replace("{x}", column).replace("{y}", j);
      const it = tile(url, redraw), [px, py] = toPixel(view, i / count, j / count);
      if (it) ctx.drawImage(it, px, py, size, size);
    }
  }
}

/** Puts a ring on the path; positions that are nearer than half a pixel to the one before are left out. */
function trace(ctx, view, ring) {
  let lastX = Infinity, lastY = Infinity;
  ring.forEach(([x, y], index) => {
    const [px, py] = toPixel(view, x, y);
    if (index && Math.abs(px - lastX) < 0.5 && Math.abs(py - lastY) < 0.5) return;
    if (index) ctx.lineTo(px, py);
    else ctx.moveTo(px, py);
    [lastX, lastY] = [px, py];
  });
  ctx.closePath();
}

function drawPolygons(ctx, view, path, { alpha, width, dash }) {
  ctx.beginPath();
  for (const rings of path) for (const ring of rings) trace(ctx, view, ring);
  ctx.fillStyle = ctx.strokeStyle = colours.place;
  ctx.globalAlpha = alpha;
  ctx.fill("evenodd");
  ctx.globalAlpha = 1;
  ctx.lineWidth = width;
  ctx.setLineDash(dash);
  ctx.stroke();
  ctx.setLineDash([]);
}

function drawName(ctx, view, place) {
  const [west, north, east] = place.box;
  if ((east - west) * view.scale < 60) return;
  const [px, py] = toPixel(view, (west + east) / 2, north);
  const text = place.name.length > 40 ? `${place.name.slice(0, 39)}…` : place.name;
  ctx.font = `600 13px ${FONT}`;
  ctx.textAlign = "center";
  ctx.lineWidth = 4;
  ctx.strokeStyle = colours.halo;
  ctx.fillStyle = colours.ink;
  ctx.strokeText(text, px, py + 15);
  ctx.fillText(text, px, py + 15);
}

/** The places, those that are shown stronger, drafts dashed. */
export function drawPlaces(ctx, view) {
  const shown = state.shownPlaces;
  for (const place of state.places) {
    const isShown = shown?.includes(digitsOf(place.geography_id));
    drawPolygons(ctx, view, place.path, { alpha: isShown ? 0.22 : shown ? 0.03 : 0.08, width: isShown ? 3 : 1.3, dash: [] });
  }
  for (const place of state.draftPlaces) drawPolygons(ctx, view, place.path, { alpha: 0.08, width: 1.6, dash: [6, 5] });
}

export function drawNames(ctx, view) {
  for (const place of [...state.places, ...state.draftPlaces]) drawName(ctx, view, place);
}

/** The place that is being drawn: its corners so far, and a cross where Enter puts the next. */
export function drawOutline(ctx, view, corners) {
  const ring = corners.map(([lng, lat]) => mercator(lng, lat)), x = view.width / 2, y = view.height / 2;
  drawPolygons(ctx, view, [[ring]], { alpha: 0.22, width: 2.5, dash: [6, 5] });
  ctx.fillStyle = colours.place;
  for (const [px, py] of ring.map((it) => toPixel(view, ...it))) ctx.fillRect(px - 4, py - 4, 8, 8);
  ctx.strokeStyle = colours.ink;
  ctx.lineWidth = 1.5;
  ctx.beginPath();
  ctx.moveTo(x - 12, y);
  ctx.lineTo(x + 12, y);
  ctx.moveTo(x, y - 12);
  ctx.lineTo(x, y + 12);
  ctx.stroke();
}

// --- Vehicles -----------------------------------------------------------------------------------------------------------

/** An operator's mark: its colour and shape, with a rim. */
export function drawMark(ctx, owner, px, py, radius) {
  ctx.save();
  ctx.translate(px, py);
  ctx.beginPath();
  shapeOfOwner(owner)(ctx, radius);
  ctx.fillStyle = colourOfOwner(owner);
  ctx.strokeStyle = colours.ink;
  ctx.lineWidth = 1.5;
  ctx.fill();
  ctx.stroke();
  ctx.restore();
}

/** The colours and shapes of vehicles, and which of them a row of a fleet has: by its state, for the author by its operator. */
function paintOf(fleet) {
  if (isAuthor()) {
    const owners = [...Array(fleet.starts.length - 1).keys()];
    return { palette: owners.map(colourOfOwner), shapes: owners.map(shapeOfOwner), of: (row) => fleet.owner[row] };
  }
  const numbers = fleet.kinds.map((kind) => KINDS.indexOf(colourOf(kind)));
  return { palette: KINDS.map((it) => colours[it]), shapes: KINDS.map(() => disc), of: (row) => numbers[fleet.kind[row]] };
}

/** How many vehicles are in sight, by every eighth where there are many. */
function inSight(view, fleet) {
  if (fleet.count <= MANY) return fleet.count;
  let seen = 0;
  for (let row = 0; row < fleet.count; row += 8) {
    const dx = Math.abs(fleet.x[row] - view.x), dy = Math.abs(fleet.y[row] - view.y);
    if (dx * view.scale < view.width / 2 && dy * view.scale < view.height / 2) seen += 8;
  }
  return seen;
}

/** A colour `#rrggbb` as a pixel of an image. */
function pixelOf(colour) {
  const rgb = parseInt(colour.slice(1), 16);
  return ((255 << 24) | ((rgb & 255) << 16) | (rgb & 0xff00) | (rgb >> 16)) >>> 0;
}

/** Many vehicles: squares, straight into pixels. */
function drawSquares(ctx, view, fleet, side) {
  const { width, height } = ctx.canvas, ratio = width / view.width;
  if (!image || layer.width !== width || layer.height !== height) {
    layer.width = width;
    layer.height = height;
    image = layer.getContext("2d").createImageData(width, height);
  }
  const pixels = new Uint32Array(image.data.buffer), size = Math.max(2, Math.round(side * ratio));
  const scale = view.scale * ratio, left = width / 2 - view.x * scale, top = height / 2 - view.y * scale;
  const paint = paintOf(fleet), bright = paint.palette.map(pixelOf);
  const faint = bright.map((it) => ((it & 0xffffff) | (0x30 << 24)) >>> 0);
  pixels.fill(0);
  for (let row = 0; row < fleet.count; row++) {
    const x = Math.floor(fleet.x[row] * scale + left), y = Math.floor(fleet.y[row] * scale + top);
    if (x < 0 || y < 0 || x >= width - size || y >= height - size) continue;
    const pixel = (state.caught && !state.caught[row] ? faint : bright)[paint.of(row)];
    for (let j = 0, at = y * width + x; j < size; j++, at += width) for (let i = 0; i < size; i++) pixels[at + i] = pixel;
  }
  layer.getContext("2d").putImageData(image, 0, 0);
  ctx.drawImage(layer, 0, 0, view.width, view.height);
}

/** Few vehicles: dots, or their operator's shape; those that the shown rule doesn't catch faint and below the others. */
function drawDots(ctx, view, fleet, isFaint) {
  const paint = paintOf(fleet), points = paint.palette.map(() => []);
  for (let row = 0; row < fleet.count; row++) {
    const isLeftOut = state.caught !== null && !state.caught[row];
    if (isLeftOut !== isFaint) continue;
    const [px, py] = toPixel(view, fleet.x[row], fleet.y[row]);
    if (px >= -DOT && py >= -DOT && px <= view.width + DOT && py <= view.height + DOT) points[paint.of(row)].push([px, py]);
  }
  ctx.globalAlpha = isFaint ? 0.2 : 1;
  ctx.strokeStyle = colours.halo;
  ctx.lineWidth = 2;
  for (const [number, list] of points.entries()) {
    ctx.fillStyle = paint.palette[number];
    ctx.beginPath();
    for (const [px, py] of list) {
      ctx.translate(px, py);
      paint.shapes[number](ctx, DOT);
      ctx.translate(-px, -py);
    }
    // The rim lies below, so that dots which are close don't hide one another.
    ctx.stroke();
    ctx.fill();
  }
  ctx.globalAlpha = 1;
}

/** Rings around those that break a rule, in it for the author their operator's mark. */
function drawOffenders(ctx, view, fleet, radius) {
  const points = Array.from(state.offenders, (row) => [row, ...toPixel(view, fleet.x[row], fleet.y[row])]);
  const isSeen = ([, px, py]) => px > -radius && py > -radius && px < view.width + radius && py < view.height + radius;
  const marked = isAuthor() ? points.filter(isSeen) : [];
  for (const [row, px, py] of marked) drawMark(ctx, fleet.owner[row], px, py, radius * 0.55);
  ctx.strokeStyle = colours.offender;
  ctx.lineWidth = radius / 4 + 0.6;
  ctx.beginPath();
  for (const [, px, py] of points) {
    ctx.moveTo(px + radius, py);
    ctx.arc(px, py, radius, 0, 7);
  }
  ctx.stroke();
}

/** The vehicles, those that break a rule ringed, and a frame around the one that is told of. */
export function drawVehicles(ctx, view, picked) {
  const fleet = shownFleet();
  if (!fleet) return;
  const seen = inSight(view, fleet);
  if (seen > MANY) drawSquares(ctx, view, fleet, seen > VERY_MANY ? 1.5 : 3);
  else for (const isFaint of state.caught ? [true, false] : [false]) drawDots(ctx, view, fleet, isFaint);
  drawOffenders(ctx, view, fleet, state.offenders.size > 120 && seen > 1500 ? 4 : 8);
  if (picked === null) return;
  const [px, py] = toPixel(view, fleet.x[picked], fleet.y[picked]);
  ctx.strokeStyle = colours.ink;
  ctx.lineWidth = 2;
  ctx.strokeRect(px - 11, py - 11, 22, 22);
}

/** A bar of a round length. */
export function drawScale(ctx, view) {
  const [, latitude] = unmercator(view.x, view.y);
  const metre = view.scale / (EQUATOR * Math.cos(latitude * Math.PI / 180));
  const power = 10 ** Math.floor(Math.log10(140 / metre));
  const metres = [5, 2, 1].map((it) => it * power).find((it) => it * metre < 140) || power, size = metres * metre;
  ctx.fillStyle = colours.ink;
  ctx.fillRect(view.width - size - 14, view.height - 24, size, 3);
  ctx.font = `12px ${FONT}`;
  ctx.textAlign = "right";
  ctx.fillText(metres < 1000 ? `${metres} m` : `${metres / 1000} km`, view.width - 14, view.height - 30);
}

/** The ground on which all is drawn. */
export function drawLand(ctx, view) {
  ctx.fillStyle = colours.land;
  ctx.fillRect(0, 0, view.width, view.height);
}
"##;
