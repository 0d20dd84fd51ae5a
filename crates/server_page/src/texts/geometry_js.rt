//! The text of `web/geometry.js`, as it is.

/// The text.
pub const GEOMETRY_JS: &str =
    r#"// Plane geometry of places: degrees, whole 10^-7 degrees, and the square of Web Mercator.

/** Degrees as whole 10^-7 degrees, in which the server compares positions. */
export const E7 = (degrees) => Math.round(degrees * 1e7);

/** A position in the square of Web Mercator: 0 to 1 from west to east, and from north to south. */
export const mercator = (lng, lat) =>
  [(lng + 180) / 360, 0.5 - Math.log(Math.tan(Math.PI / 4 + lat * Math.PI / 360)) / (2 * Math.PI)];

/** Longitude and latitude of a position in that square. */
export const unmercator = (x, y) =>
  [x * 360 - 180, Math.atan(Math.sinh(Math.PI * (1 - 2 * y))) * 180 / Math.PI];

/** The least and the greatest of both coordinates: [x least, y least, x greatest, y greatest]. */
export function boxOf(points) {
  const box = [Infinity, Infinity, -Infinity, -Infinity];
  for (const [x, y] of points) {
    if (x < box[0]) box[0] = x;
    if (y < box[1]) box[1] = y;
    if (x > box[2]) box[2] = x;
    if (y > box[3]) box[3] = y;
  }
  return box;
}

/** On which side of the line from a to b a point is: positive, negative, or 0 on it. Exact for whole numbers. */
function side(ax, ay, bx, by, x, y) {
  const one = (bx - ax) * (y - ay), other = (x - ax) * (by - ay);
  if (Math.abs(one) <= Number.MAX_SAFE_INTEGER && Math.abs(other) <= Number.MAX_SAFE_INTEGER) return one - other;
  return Number(BigInt(bx - ax) * BigInt(y - ay) - BigInt(x - ax) * BigInt(by - ay));
}

/** Whether a point that is in line with a and b is between them. */
const isBetween = (ax, ay, bx, by, x, y) => (x - ax) * (x - bx) <= 0 && (y - ay) * (y - by) <= 0;

/** Whether two edges have a point in common. */
function isMeeting([ax, ay, bx, by], [cx, cy, dx, dy]) {
  const c = Math.sign(side(ax, ay, bx, by, cx, cy)), d = Math.sign(side(ax, ay, bx, by, dx, dy));
  const a = Math.sign(side(cx, cy, dx, dy, ax, ay)), b = Math.sign(side(cx, cy, dx, dy, bx, by));
  if (a * b < 0 && c * d < 0) return true;
  return (c === 0 && isBetween(ax, ay, bx, by, cx, cy)) || (d === 0 && isBetween(ax, ay, bx, by, dx, dy))
    || (a === 0 && isBetween(cx, cy, dx, dy, ax, ay)) || (b === 0 && isBetween(cx, cy, dx, dy, bx, by));
}

/**
 * Whether a closed ring in 10^-7 degrees crosses or touches itself: edges that aren't neighbours have a point in common.
 * Edges are gone through from west to east, each with those that begin before it ends.
 */
export function isCrossing(ring) {
  const corners = ring.filter(([x, y], i) => !i || x !== ring[i - 1][0] || y !== ring[i - 1][1]), count = corners.length - 1;
  const edges = Array.from({ length: Math.max(0, count) }, (_, i) => [...corners[i], ...corners[i + 1]]);
  const west = (i) => Math.min(edges[i][0], edges[i][2]), east = (i) => Math.max(edges[i][0], edges[i][2]);
  const order = edges.map((_, i) => [west(i), i]).sort((one, other) => one[0] - other[0]).map(([, i]) => i);
  const isNeighbour = (i, j) => Math.abs(i - j) === 1 || Math.abs(i - j) === count - 1;
  for (let n = 0; n < count; n++) {
    const i = order[n], [, ay, , by] = edges[i], end = east(i), south = Math.min(ay, by), north = Math.max(ay, by);
    for (let m = n + 1; m < count && west(order[m]) <= end; m++) {
      const j = order[m], [, cy, , dy] = edges[j];
      if (Math.max(cy, dy) < south || Math.min(cy, dy) > north || isNeighbour(i, j)) continue;
      if (isMeeting(edges[i], edges[j])) return true;
    }
  }
  return false;
}

/** The edges of rings in strips of equal height, each edge in every strip that it touches. */
function strips(rings, [, south, , north]) {
  const count = Math.min(512, rings.reduce((sum, ring) => sum + ring.length, 0)), height = (north - south) / count || 1;
  const at = (y) => Math.min(count, Math.floor((y - south) / height)), list = Array.from({ length: count + 1 }, () => []);
  for (const ring of rings) {
    for (let i = 1; i < ring.length; i++) {
      const [ax, ay] = ring[i - 1], [bx, by] = ring[i];
      for (let s = at(Math.min(ay, by)); s <= at(Math.max(ay, by)); s++) list[s].push([ax, ay, bx, by]);
    }
  }
  return (y) => list[at(y)];
}

/** Whether a point is on an edge, or is enclosed an odd number of times. */
function isHeld(edges, x, y) {
  let odd = false;
  for (const [ax, ay, bx, by] of edges) {
    const left = side(ax, ay, bx, by, x, y);
    if (left === 0 && (x - ax) * (x - bx) <= 0 && (y - ay) * (y - by) <= 0) return true;
    if ((ay > y) !== (by > y) && (by > ay ? left > 0 : left < 0)) odd = !odd;
  }
  return odd;
}

/** Marks which of `count` positions a place of polygons holds; all coordinates in 10^-7 degrees. */
export function within(polygons, { lng, lat }, count) {
  const marks = new Uint8Array(count);
  for (const rings of polygons) {
    const box = boxOf(rings.flat()), edges = strips(rings, box);
    for (let i = 0; i < count; i++) {
      const x = lng[i], y = lat[i];
      if (marks[i] || x < box[0] || y < box[1] || x > box[2] || y > box[3]) continue;
      if (isHeld(edges(y), x, y)) marks[i] = 1;
    }
  }
  return marks;
}

/** The polygons of a published or drafted geography, as the server serves it: one FeatureCollection of MultiPolygons. */
export const polygonsOf = (geography) =>
  geography.geography_json.features.flatMap((feature) => feature.geometry.coordinates);

/** The same in 10^-7 degrees, as `within` takes them. */
export const inWhole = (polygons) => polygons.map((rings) => rings.map((ring) => ring.map(([x, y]) => [E7(x), E7(y)])));

/** The same in the square of Web Mercator, as the map draws them. */
export const inSquare = (polygons) => polygons.map((rings) => rings.map((ring) => ring.map(([x, y]) => mercator(x, y))));
"#;
