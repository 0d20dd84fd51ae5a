//! The text of `web/index.html`, as it is.

/// The text.
pub const INDEX_HTML: &str = r##"<!doctype html>
<html lang="en">
<head>
<meta charset="utf-8">
<meta name="viewport" content="width=device-width, initial-scale=1">
<meta name="color-scheme" content="light dark">
<title>Rules for shared vehicles</title>
<link rel="icon" href="data:,">
<link rel="stylesheet" href="page.css">
<script type="module" src="page.js"></script>
</head>
<body>
<a class="skip" href="#panel">Skip to the policies</a>
<header>
  <h1 id="city">Rules for shared vehicles</h1>
  <p id="who" hidden></p>
  <div class="actions" id="actions" hidden>
    <button type="button" id="refresh">Refresh</button>
    <button type="button" id="leave">Sign out</button>
  </div>
</header>
<p id="say" role="status" aria-live="polite"></p>
<noscript><p class="sheet">This page needs JavaScript. The policies themselves are at <code>/policies</code>.</p></noscript>

<main>
<section id="enter" aria-labelledby="entertitle">
  <form id="sign" class="sheet">
    <h2 id="entertitle">Sign in</h2>
    <p class="why">Paste the access token that your city gave you. An operator sees the policies that are meant for it, its own
      vehicles, whether the rules hold for them, and what the city sees of that. The city sees all policies, drafts and
      publishes them, and sees how operators stand as far as its configuration says.</p>
    <label for="token">Access token</label>
    <input id="token" name="token" type="password" autocomplete="off" spellcheck="false" required maxlength="64"
      pattern="[A-Za-z0-9_\-]{1,64}" title="1 to 64 letters, digits, - or _">
    <button class="primary">Sign in</button>
    <p class="small">It is kept in this tab only, until the tab is closed, and is sent to this server only.</p>
  </form>
</section>

<div id="work" hidden>
  <section id="standing" tabindex="-1" aria-labelledby="standingtitle" hidden>
    <h2 id="standingtitle">How operators stand</h2>
    <p id="standingnote"></p>
    <div id="standingview" hidden>
      <div class="choices">
        <label>Operator <select id="byoperator"></select></label>
        <label>Policy <select id="bypolicy"></select></label>
        <label>Order <select id="order">
          <option value="broken">broken first</option>
          <option value="operator">by operator</option>
          <option value="policy">by policy</option>
        </select></label>
        <label class="check"><input type="checkbox" id="brokenalone"> Only broken rules</label>
        <button type="button" id="askeach" hidden>Since when, each?</button>
        <button type="button" id="csv">Download as CSV</button>
      </div>
      <div id="standingtable"></div>
      <p id="sincenote" class="small"></p>
    </div>
  </section>
  <section id="mapside" aria-label="Map">
    <div id="mapbox">
      <canvas id="map" tabindex="0" role="application" aria-roledescription="map"
        aria-label="Map of places and vehicles" aria-describedby="mapkeys"></canvas>
      <p id="mapkeys" class="hidden">Arrow keys move, plus and minus zoom, zero shows everything, Enter tells what is at
        the middle. While a place is drawn, Enter adds a corner at the middle, Backspace takes the last away.</p>
      <div class="zoom">
        <button type="button" id="in" aria-label="Zoom in">+</button>
        <button type="button" id="out" aria-label="Zoom out">−</button>
        <button type="button" id="fit" aria-label="Show everything">⤢</button>
      </div>
      <ul id="legend" aria-label="Colours of vehicles"></ul>
      <div id="picked" role="status" hidden></div>
      <p id="attribution"></p>
    </div>
    <div id="time">
      <label for="slider">Moment</label>
      <input id="slider" type="range" min="0" max="1000" value="500">
      <input id="moment" type="datetime-local" aria-label="Moment, in the city's time" step="60">
      <button type="button" id="now">Now</button>
      <p id="timenote" class="small"></p>
    </div>
  </section>
  <section id="panel" tabindex="-1" aria-label="Policies">
    <div id="summary"></div>
    <div id="authoring" hidden>
      <h2>Drafts</h2>
      <div id="drafts"></div>
      <div class="actions">
        <button type="button" id="draw">Draw a place</button>
        <button type="button" id="write">Write a policy</button>
      </div>
      <form id="placeform" class="sheet" hidden>
        <h3>A place</h3>
        <p class="small">Click the map for each corner, or move it with the arrow keys and press Enter. Or paste GeoJSON
          below: a polygon, several, or features of these.</p>
        <label>Name <input name="name" required></label>
        <label>What it is <input name="description"></label>
        <label>Corners or GeoJSON <textarea name="geojson" rows="4" spellcheck="false"></textarea></label>
        <p class="small" id="corners" role="status">No corner yet.</p>
        <div class="actions">
          <button class="primary">Save draft</button>
          <button type="button" id="undo">Undo corner</button>
          <button type="button" class="cancel">Cancel</button>
        </div>
      </form>
      <form id="policyform" class="sheet" hidden>
        <h3>A policy</h3>
        <label>Name <input name="name" required></label>
        <label>What it is for <input name="description"></label>
        <div class="two">
          <label>From <input name="start" type="datetime-local" required></label>
          <label>Until (may be open) <input name="end" type="datetime-local"></label>
        </div>
        <fieldset><legend>For whom (none ticked: every operator)</legend><div id="forwhom" class="boxes"></div></fieldset>
        <fieldset><legend>Where (tick one at least)</legend><div id="where" class="boxes"></div></fieldset>
        <div class="two">
          <label>What is judged <select name="kind">
            <option value="count">how many vehicles</option>
            <option value="time">how long they stand</option>
          </select></label>
          <label>Name of the rule <input name="rule" placeholder="the policy's name"></label>
        </div>
        <div class="two">
          <label>At least <input name="minimum" type="number" min="0" max="1000000000"></label>
          <label>At most <input name="maximum" type="number" min="0" max="1000000000"></label>
          <label>Unit <select name="unit">
            <option>hours</option><option>minutes</option><option>days</option><option>seconds</option>
          </select></label>
        </div>
        <fieldset><legend>Vehicle types (none: all)</legend><div id="types" class="boxes"></div>
          <label class="others">Others, by hand <input name="othertypes" placeholder="words with commas between"></label>
        </fieldset>
        <fieldset><legend>Propulsion (none: any)</legend><div id="propulsions" class="boxes"></div>
          <label class="others">Others, by hand <input name="otherpropulsions" placeholder="words with commas between"></label>
        </fieldset>
        <fieldset><legend>States (none: all)</legend><div id="states" class="boxes"></div>
          <label class="others">Others, by hand <input name="otherstates" placeholder="words with commas between"></label>
          <div id="events"></div></fieldset>
        <div class="two">
          <label>Daily from <input name="open" type="time" step="1"></label>
          <label>to <input name="close" type="time" step="1"></label>
        </div>
        <fieldset><legend>Days (none: all)</legend><div id="days" class="boxes"></div></fieldset>
        <fieldset><legend>Takes the place of (may be none)</legend><div id="prev" class="boxes"></div></fieldset>
        <details>
          <summary>The document: edit it for more than one rule</summary>
          <textarea name="json" rows="12" spellcheck="false" aria-label="The policy as JSON"></textarea>
          <p class="small" id="byhand" hidden>It was edited by hand: the fields above no longer change it.</p>
        </details>
        <section id="foresight" aria-labelledby="foresighttitle" hidden>
          <h4 id="foresighttitle">How operators would stand by it now</h4>
          <p class="small" id="foresightnote"></p>
          <div id="foresighttable"></div>
        </section>
        <div class="actions">
          <button class="primary">Save draft</button>
          <button type="button" class="cancel">Cancel</button>
        </div>
      </form>
    </div>
    <h2>Policies</h2>
    <div id="policies"></div>
    <div id="places"></div>
  </section>
</div>
</main>
<dialog id="ask" aria-labelledby="asktitle">
  <form method="dialog">
    <h2 id="asktitle"></h2>
    <div id="askbody"></div>
    <div class="actions"><button value="yes" class="primary" id="askyes">Yes</button>
      <button value="no" id="askno" autofocus>No</button></div>
  </form>
</dialog>
</body>
</html>
"##;
