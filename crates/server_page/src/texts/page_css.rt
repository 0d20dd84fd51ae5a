//! The text of `web/page.css`, as it is.

/// The text.
pub const PAGE_CSS: &str = r#":root {
  --bg: #f6f7f9; --card: #ffffff; --ink: #16202b; --dim: #556372; --line: #d5dbe2; --accent: #0b5cad; --on-accent: #ffffff;
  --good: #0a6b3b; --good-bg: #dff3e6; --bad: #a8181f; --bad-bg: #fde3e3; --calm: #4b5563; --calm-bg: #e8ebef;
  --late: #7a4a00; --late-bg: #fdeecd;
  /* The map's: layers.js reads them as #rrggbb. */
  --land: #eef1f3; --grid: #dde3e8; --place: #0b5cad; --halo: #ffffff; --offender: #d0111b;
  --available: #0a7f5a; --on_trip: #3b6fd4; --reserved: #b26a00; --non_operational: #8a3ea8; --other: #5b6672;
}
@media (prefers-color-scheme: dark) {
  :root {
    --bg: #11161c; --card: #1a212a; --ink: #e8edf2; --dim: #a5b2bf; --line: #33404d; --accent: #7db8ff; --on-accent: #06213f;
    --good: #7fe0a8; --good-bg: #11351f; --bad: #ff9a9a; --bad-bg: #4a1518; --calm: #c3ccd5; --calm-bg: #2b343e;
    --late: #ffd27d; --late-bg: #41300b;
    --land: #161d24; --grid: #222c36; --place: #7db8ff; --halo: #11161c; --offender: #ff5a5f;
    --available: #3ddc9f; --on_trip: #8ab0ff; --reserved: #ffb84d; --non_operational: #d79bf0; --other: #9aa7b4;
  }
}

* { box-sizing: border-box; }
[hidden] { display: none !important; }
html, body { height: 100%; margin: 0; }
body {
  display: flex; flex-direction: column; background: var(--bg); color: var(--ink);
  font: 16px/1.45 system-ui, "DejaVu Sans", sans-serif;
}
h1 { font-size: 1.1rem; margin: 0; }
h2 { font-size: 1.05rem; margin: 1.1rem 0 .5rem; }
h3 { font-size: 1rem; margin: 0; }
h1, h3, .tag, dd, p, td, summary { overflow-wrap: anywhere; }

body > header {
  display: flex; gap: .3rem 1rem; align-items: center; flex-wrap: wrap; padding: .5rem 1rem;
  background: var(--card); border-bottom: 1px solid var(--line);
}
body > header p { margin: 0; color: var(--dim); flex: 1 1 9rem; }
body > header .actions { margin: 0 0 0 auto; }
.skip { position: absolute; left: -999px; }
.skip:focus { left: .5rem; top: .5rem; background: var(--card); padding: .5rem; z-index: 9; }
.hidden { position: absolute; width: 1px; height: 1px; overflow: hidden; clip-path: inset(50%); }
a { color: var(--accent); }
#say { margin: 0; padding: .4rem 1rem; background: var(--calm-bg); color: var(--calm); }
#say:empty { display: none; }
#say.bad { background: var(--bad-bg); color: var(--bad); }

/* Controls */
button, input, select, textarea {
  font: inherit; color: inherit; background: var(--card); border: 1px solid var(--dim); border-radius: 6px;
  padding: .35rem .7rem; max-width: 100%;
}
input::placeholder { color: var(--dim); opacity: 1; }
button { cursor: pointer; min-height: 2.2rem; }
button:hover { border-color: var(--accent); }
button.primary { background: var(--accent); color: var(--on-accent); border-color: var(--accent); font-weight: 600; }
button.link {
  border: 0; padding: 0; min-height: 1.5rem; background: none; color: var(--accent); text-decoration: underline; text-align: left;
}
button[aria-pressed=true] { outline: 2px solid var(--accent); }
:focus-visible, input:focus-within { outline: 3px solid var(--accent); outline-offset: 2px; }
.small { font-size: .85rem; color: var(--dim); margin: .25rem 0; }
.actions { display: flex; gap: .5rem; flex-wrap: wrap; margin: .5rem 0; }
.sheet {
  background: var(--card); border: 1px solid var(--line); border-radius: 10px; padding: 1rem; display: grid; gap: .6rem;
  grid-template-columns: minmax(0, 1fr);
}
.sheet label { display: grid; gap: .2rem; font-size: .9rem; }
.sheet p { margin: 0; }
.two { display: flex; gap: .6rem; flex-wrap: wrap; }
.two label { flex: 1 1 8rem; }
fieldset {
  border: 1px solid var(--line); border-radius: 6px; display: flex; gap: .7rem; flex-wrap: wrap; font-size: .9rem; min-width: 0;
}
.sheet fieldset label { display: flex; gap: .35rem; align-items: baseline; min-width: 0; overflow-wrap: anywhere; }
.boxes { display: flex; flex-wrap: wrap; gap: .25rem .9rem; flex: 1 1 100%; max-height: 11rem; overflow-y: auto; padding: .3rem; }
.boxes input { flex: none; }
.sheet .others { flex: 1 1 100%; flex-wrap: wrap; margin: .2rem 0 .4rem; }
.others input { flex: 1 1 10rem; min-width: 0; }
#events { flex: 1 1 100%; min-width: 0; }
#events summary, #foresight summary { cursor: pointer; overflow-wrap: anywhere; }
#foresight h4 { margin: 0 0 .2rem; font-size: .95rem; }
#foresight p { margin: .25rem 0; }
textarea { font: 13px/1.4 ui-monospace, monospace; width: 100%; }

/* Signing in; the map beside the policies */
#enter { margin: 8vh auto; width: min(30rem, 94vw); }
#enter h2 { margin: 0; }
main { flex: 1; min-height: 0; display: flex; flex-direction: column; }
.strip h2 { position: absolute; width: 1px; height: 1px; overflow: hidden; clip-path: inset(50%); }
.strip .why, .strip .small { display: none; }
#enter.strip { margin: 0; width: auto; }
.strip .sheet {
  display: flex; flex-wrap: wrap; align-items: center; gap: .3rem .6rem; padding: .4rem 1rem;
  border-radius: 0; border-width: 0 0 1px;
}
.strip .sheet input { flex: 1 1 9rem; min-width: 0; max-width: 22rem; }
#work { flex: 1; min-height: 0; display: grid; grid-template-columns: minmax(0, 1fr) minmax(22rem, 30rem); }
#work.overseen { grid-template-rows: auto minmax(0, 1fr); }
#standing {
  grid-column: 1; min-width: 0; max-height: 46vh; overflow-y: auto; padding: .5rem 1rem; border-bottom: 1px solid var(--line);
}
#standing:focus { outline: none; }
#standing h2 { margin: 0; }
#standing p { margin: .2rem 0; font-size: .9rem; }
.overseen #mapside { grid-row: 2; }
.overseen #panel { grid-area: 1 / 2 / 3; }
.choices { display: flex; gap: .3rem .6rem; flex-wrap: wrap; align-items: end; margin: .3rem 0; font-size: .85rem; }
.choices label { display: grid; flex: 1 1 7rem; max-width: 12rem; min-width: 0; }
.choices select { padding: .15rem .3rem; min-height: 1.8rem; width: 100%; }
.choices .check { display: flex; gap: .4rem; align-items: center; flex: none; min-height: 1.8rem; }
.choices button { padding: .1rem .6rem; min-height: 1.8rem; }
#mapside { display: flex; flex-direction: column; min-height: 0; min-width: 0; }
#mapbox { position: relative; flex: 1; min-height: 0; overflow: hidden; }
#map { position: absolute; inset: 0; width: 100%; height: 100%; touch-action: none; cursor: grab; background: var(--land); }
#map:focus-visible { outline-offset: -4px; }
#map.draw { cursor: crosshair; }
.zoom { position: absolute; top: .6rem; right: .6rem; display: grid; gap: .3rem; }
.zoom button { width: 2.4rem; padding: 0; font-size: 1.2rem; }
#legend {
  position: absolute; left: .6rem; bottom: .6rem; margin: 0; padding: .4rem .6rem; list-style: none; font-size: .8rem;
  background: var(--card); border: 1px solid var(--line); border-radius: 8px;
}
#legend { max-height: 45%; max-width: 60%; overflow-y: auto; overflow-wrap: anywhere; }
#legend:empty { display: none; }
#legend canvas { vertical-align: -.2rem; margin-right: .3rem; }
#legend i { display: inline-block; width: .7rem; height: .7rem; border-radius: 50%; margin-right: .4rem; vertical-align: -.05rem; }
#legend .available { background: var(--available); }
#legend .on_trip { background: var(--on_trip); }
#legend .reserved { background: var(--reserved); }
#legend .non_operational { background: var(--non_operational); }
#legend .other { background: var(--other); }
#legend .ring { border: 3px solid var(--offender); }
#picked {
  position: absolute; left: .6rem; top: .6rem; max-width: min(22rem, 70%); max-height: 80%; overflow: auto; font-size: .88rem;
  background: var(--card); border: 1px solid var(--line); border-radius: 8px; padding: .5rem .8rem; overflow-wrap: anywhere;
}
#picked time { display: block; margin: 0; white-space: nowrap; }
#picked dl { gap: .1rem .5rem; }
#picked .tag { margin-right: .6rem; }
#attribution { position: absolute; right: .3rem; bottom: 0; margin: 0; font-size: .7rem; background: var(--card); }
#time {
  display: flex; gap: .6rem; align-items: center; flex-wrap: wrap; padding: .5rem 1rem;
  background: var(--card); border-top: 1px solid var(--line);
}
#time label { font-weight: 600; }
#slider { flex: 1 1 10rem; min-width: 0; padding: 0; accent-color: var(--accent); }
#timenote { flex-basis: 100%; margin: 0; }
#panel { overflow-y: auto; padding: .5rem 1rem 2rem; border-left: 1px solid var(--line); min-width: 0; }
#panel:focus { outline: none; }

/* Cards */
.tiles { display: grid; grid-template-columns: repeat(3, minmax(0, 1fr)); gap: .5rem; margin: .5rem 0; }
.tiles div {
  background: var(--card); border: 1px solid var(--line); border-radius: 8px; padding: .4rem .6rem; font-size: .8rem;
  color: var(--dim);
}
.tiles b { display: block; font-size: 1.35rem; color: var(--ink); }
.tiles .bad b { color: var(--bad); }
details.group > summary { cursor: pointer; padding: .4rem 0; font-weight: 600; }
article {
  background: var(--card); border: 1px solid var(--line); border-radius: 10px; padding: .8rem 1rem; margin: 0 0 .7rem;
  min-width: 0;
}
article.bad { border-left: 5px solid var(--bad); }
article header { display: flex; flex-wrap: wrap; gap: .2rem .6rem; justify-content: space-between; align-items: start; }
article p { margin: .3rem 0; }
.about { white-space: pre-line; }
.long { max-height: 9rem; overflow-y: auto; }
dl { display: grid; grid-template-columns: max-content minmax(0, 1fr); gap: .1rem .8rem; margin: .4rem 0; font-size: .9rem; }
dt { color: var(--dim); }
dd { margin: 0; }
.tag {
  display: inline-block; border-radius: .8rem; padding: .05rem .6rem; font-size: .8rem; font-weight: 600;
  background: var(--calm-bg); color: var(--calm);
}
.tag.good { background: var(--good-bg); color: var(--good); }
.tag.bad { background: var(--bad-bg); color: var(--bad); }
.tag.soon { background: var(--late-bg); color: var(--late); }
.rule { border-top: 1px solid var(--line); padding: .55rem 0 .2rem; }
.rule .title { display: flex; justify-content: space-between; align-items: start; gap: .6rem; font-weight: 600; }
.rule .title span:first-child { min-width: 0; overflow-wrap: anywhere; }
.rule .title .tag { white-space: nowrap; }
.rule .actions { margin: .2rem 0; }
.bar { position: relative; height: .6rem; border-radius: 4px; background: var(--calm-bg); margin: .45rem 0 .2rem; }
.bar i { position: absolute; left: 0; top: 0; bottom: 0; border-radius: 4px; background: var(--good); }
.bar.bad i { background: var(--bad); }
.bar u { position: absolute; top: -.2rem; bottom: -.2rem; width: 3px; margin-left: -1px; background: var(--ink); }
.devices { max-height: 11rem; overflow: auto; font: 12px ui-monospace, monospace; margin: .2rem 0; padding-left: 2.6rem; }
article details { font-size: .9rem; }
article summary { cursor: pointer; }
pre { max-height: 16rem; overflow: auto; font: 12px/1.4 ui-monospace, monospace; margin: .3rem 0; }
table { width: 100%; table-layout: fixed; border-collapse: collapse; font-size: .9rem; }
td:first-child { width: 42%; }
td, th { text-align: left; vertical-align: top; padding: .25rem .3rem; border-top: 1px solid var(--line); }
th { font-weight: 600; overflow-wrap: anywhere; }
.standing th:first-child { width: 14%; }
.standing th:nth-child(2) { width: 21%; }
.standing th:nth-child(3) { width: 6.5rem; }
.standing th:nth-child(4) { width: 26%; }
.foresight { margin: .2rem 0 .5rem; table-layout: auto; }
.foresight th, .foresight td { width: auto; overflow-wrap: break-word; }
.foresight thead th { font-size: .8rem; color: var(--dim); border: 0; }
.foresight .tag { padding: .05rem .4rem; white-space: nowrap; }
.standing summary { cursor: pointer; }
.standing .devices { list-style: none; padding: 0; max-height: 8rem; }
.standing thead th { font-size: .8rem; color: var(--dim); border: 0; }
.standing tr.bad th { border-left: 5px solid var(--bad); }
.standing tbody th { border-left: 5px solid transparent; }
dialog {
  background: var(--card); color: var(--ink); border: 1px solid var(--line); border-radius: 12px; max-width: min(30rem, 94vw);
}
dialog::backdrop { background: #0008; }

@media (max-width: 800px) {
  body { height: auto; }
  main { display: block; }
  #work { display: block; }
  #picked { max-width: calc(100% - 4.2rem); }
  #mapbox { height: 48vh; flex: none; }
  #panel { border: 0; overflow: visible; }
  #standing { max-height: none; }
  .standing thead { position: absolute; width: 1px; height: 1px; overflow: hidden; clip-path: inset(50%); }
  .standing thead th { white-space: nowrap; }
  .standing, .standing tbody { display: block; }
  .standing tr { display: flex; flex-wrap: wrap; gap: 0 .6rem; justify-content: space-between; border-top: 1px solid var(--line); }
  .standing th, .standing td { border: 0; width: auto !important; }
  .standing tbody th { flex: 1 1 40%; }
  .standing td:nth-child(3) { order: 0; }
  .standing td:nth-child(2), .standing td:nth-child(4), .standing td:nth-child(5) { flex: 1 1 100%; order: 1; }
  .standing td:empty { display: none; }
  .tiles b { font-size: 1.1rem; }
  #legend { font-size: .7rem; }
}
@media (prefers-reduced-motion: no-preference) {
  .bar i { transition: width .2s; }
}
"#;
