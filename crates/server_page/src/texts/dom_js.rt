//! The text of `web/dom.js`, as it is.

/// The text.
pub const DOM_JS: &str = r#"// Elements of the page. Text is only ever put in as text.

export const $ = (id) => document.getElementById(id);

/** An element with properties (attributes, where a name has a hyphen) and what stands in it: elements and texts. */
export function el(name, properties = {}, ...inside) {
  const it = document.createElement(name);
  for (const [key, value] of Object.entries(properties)) {
    if (key.includes("-") || key === "role") it.setAttribute(key, value);
    else it[key] = value;
  }
  it.append(...inside.flat(Infinity).filter((part) => part !== null && part !== undefined && part !== false));
  return it;
}

/** A list of terms with what they are. */
export const terms = (pairs) => el("dl", {}, pairs.flatMap(([term, text]) => [el("dt", {}, term), el("dd", {}, text)]));

/** A button that looks like a link. */
export const link = (text, onclick, properties = {}) =>
  el("button", { type: "button", className: "link", onclick, ...properties }, text);

// --- Parts that are made anew -----------------------------------------------------------------------------------------------

const STOPS = "summary, button, input, select, textarea, a[href], [tabindex]", SCROLLED = ".long, .devices, .boxes, pre";
const TYPED = ["text", "search", "url", "tel", "password", "textarea"];

/** What is selected in a field that holds text, null in every other element. */
const selectionIn = (it) => (TYPED.includes(it.type) ? [it.selectionStart, it.selectionEnd, it.selectionDirection] : null);

/**
 * Where in a panel the focus is, below what a selector names, what is selected there, and how far parts are scrolled, by the
 * nearest element with a key: answers how to have it so again. Where that element has gone the panel itself has the focus.
 */
export function keepPlace(panel, below) {
  const { scrollTop } = panel, page = document.scrollingElement, pageTop = page.scrollTop;
  const active = document.activeElement?.closest(below) && document.activeElement;
  const found = (it, what) => {
    const holder = it.closest("[data-key]");
    return { key: holder.dataset.key, what, index: [...holder.querySelectorAll(what)].indexOf(it) };
  };
  const isKeyed = (it) => it.closest("[data-key]") !== null;
  const focus = active && isKeyed(active) ? { ...found(active, STOPS), selection: selectionIn(active) } : null;
  const scrolled = [...panel.querySelectorAll(SCROLLED)].filter((it) => it.scrollTop && isKeyed(it))
    .map((it) => ({ ...found(it, SCROLLED), top: it.scrollTop }));
  const again = ({ key, what, index }) => {
    const holder = panel.querySelector(`[data-key="${CSS.escape(key)}"]`);
    return index < 0 ? holder : holder?.querySelectorAll(what)[index];
  };
  return () => {
    const element = focus && (again(focus) || panel);
    if (element && element !== document.activeElement) element.focus({ preventScroll: true });
    if (focus?.selection && element.setSelectionRange) element.setSelectionRange(...focus.selection);
    for (const it of scrolled) {
      const part = again(it);
      if (part) part.scrollTop = it.top;
    }
    panel.scrollTop = scrollTop;
    page.scrollTop = pageTop;
  };
}

/** A part that is made once it is opened. */
export function fold(key, isOpen, title, make) {
  const it = el("details", { "data-key": key, open: isOpen }, el("summary", {}, title));
  const fill = () => {
    if (it.open && it.childElementCount === 1) it.append(make());
  };
  it.ontoggle = fill;
  fill();
  return it;
}

// --- Check boxes --------------------------------------------------------------------------------------------------------

/** Check boxes of a name with their values and texts. */
export const boxes = (name, pairs, isTicked = () => false) => pairs.map(([value, text]) =>
  el("label", { "data-key": `${name} ${value}` },
    el("input", { type: "checkbox", name, value, checked: isTicked(value) }), text));

/** The values that are ticked in a part of the page. */
export const ticked = (part) => [...part.querySelectorAll("input[type=checkbox]:checked")].map((it) => it.value);

/** Ticks those for which it is so, and no other. */
export function tick(part, isTicked) {
  for (const it of part.querySelectorAll("input[type=checkbox]")) it.checked = isTicked(it.value);
}

/**
 * Check boxes in a part, or what is said where there is none, made anew where they are others than before: those that were
 * ticked stay so, and the focus stays where it is. Where several have one text, the front of their values tells them apart.
 */
export function offerBoxes(part, name, pairs, none) {
  const said = JSON.stringify(pairs), texts = pairs.map(([, text]) => text);
  if (part.dataset.said === said) return;
  const isTwice = (text) => texts.indexOf(text) !== texts.lastIndexOf(text);
  const named = pairs.map(([value, text]) => [value, isTwice(text) ? `${text} (${value.slice(0, 8)})` : text]);
  const place = keepPlace(part, `#${part.id}`), before = new Set(ticked(part));
  const made = pairs.length ? boxes(name, named, (value) => before.has(value)) : [el("span", { className: "small" }, none)];
  part.dataset.said = said;
  part.replaceChildren(...made);
  place();
}

// --- What is said -------------------------------------------------------------------------------------------------------

/** Tells in one line above the page; an empty text takes it away. */
export function say(text, isBad = false) {
  const line = $("say");
  if (line.textContent !== text) line.textContent = text;
  line.classList.toggle("bad", isBad);
}

// What a spreadsheet may take for a formula where a text begins with it.
const FORMULA = /^[=+\-@\t\r]/;

/** A value of CSV: a text that a spreadsheet could take for a formula has an apostrophe in front. */
function csvValue(value) {
  const text = typeof value === "string" && FORMULA.test(value) ? `'${value}` : String(value ?? "");
  return /[",\r\n]/.test(text) ? `"${text.replaceAll('"', '""')}"` : text;
}

/** Lines of values as CSV (RFC 4180). */
export const csv = (lines) => lines.map((line) => `${line.map(csvValue).join(",")}\r\n`).join("");

/** Gives a text to be kept as a file. It has the mark by which spreadsheets know UTF-8. */
export function download(name, type, text) {
  const href = URL.createObjectURL(new Blob(["\ufeff", text], { type }));
  el("a", { href, download: name }).click();
  setTimeout(() => URL.revokeObjectURL(href), 60_000);
}

/** Asks a question that is answered by yes or no. */
export function question(title, ...body) {
  const dialog = $("ask");
  $("asktitle").textContent = title;
  $("askbody").replaceChildren(...body);
  dialog.returnValue = "";
  dialog.showModal();
  return new Promise((done) => {
    dialog.onclose = () => done(dialog.returnValue === "yes");
  });
}

/** What this browser remembers of lists, where it may; never a token. */
export const memory = {
  get(key) {
    try {
      const list = JSON.parse(localStorage.getItem(`ruffletuff.${key}`));
      return Array.isArray(list) ? list : [];
    } catch {
      return [];
    }
  },
  set(key, list) {
    try {
      localStorage.setItem(`ruffletuff.${key}`, JSON.stringify(list));
    } catch {
      // Without storage it is forgotten with the tab.
    }
  },
};
"#;
