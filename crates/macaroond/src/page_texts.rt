//! The texts of the page, which `scripts/build/page_texts.py` makes of `page/`.

/// The document, in HTML.
pub(crate) const DOCUMENT: &str = r#"<!doctype html>
<html lang="en">
<head>
<meta charset="utf-8">
<meta name="viewport" content="width=device-width, initial-scale=1">
<meta name="color-scheme" content="light dark">
<title>Look at a macaroon</title>
<link rel="icon" href="data:,">
<link rel="stylesheet" href="page.css">
<script src="page.js" defer></script>
</head>
<body class="empty">
<header>
<h1>Look at a macaroon</h1>
<p>What a token says, which of its caveats hold, and why a request got a 401 or a 403. <code>macaroond</code> on this
machine answers. Nothing is sent elsewhere, and no token is kept.</p>
</header>
<main>
<div class="column">
<section class="card" aria-labelledby="token-title">
<div class="top">
<h2 id="token-title"><label for="token">Token</label></h2>
<button type="button" class="quiet" id="example">Show an example</button>
<button type="button" class="quiet" id="clear" hidden>Clear</button>
</div>
<textarea id="token" rows="6" dir="ltr" spellcheck="false" autocomplete="off" autocapitalize="off"
aria-describedby="note" placeholder="Paste it here: base64 text, V2 JSON, or a whole Authorization field"></textarea>
<p class="soft" id="note"></p>
<div class="place" id="place" hidden>
<p id="place-words"></p>
<p class="excerpt" id="excerpt" hidden></p>
<button type="button" class="quiet" id="go" hidden>Go to it in the text</button>
</div>
<noscript><p>This page needs JavaScript, which this machine serves too.</p></noscript>
</section>

<section class="card" id="verdict" data-state="none" aria-labelledby="verdict-title">
<h2 id="verdict-title">Verdict</h2>
<div id="verdict-words" role="status" aria-live="polite" aria-atomic="true"></div>
<p class="row" id="choice" hidden><label for="name">Verify with the key</label>
<select id="name" autocomplete="off"></select></p>
</section>

<section class="card said" aria-labelledby="says-title">
<h2 id="says-title">What it says</h2>
<dl id="says"></dl>
</section>
</div>

<div class="column right">
<section class="card said" aria-labelledby="caveats-title">
<div class="top"><h2 id="caveats-title">Caveats</h2><span class="soft" id="tally"></span></div>
<ol class="caveats" id="caveats" start="0" tabindex="0" aria-labelledby="caveats-title"></ol>

<div id="time" hidden>
<h3 id="time-title">Moment</h3>
<p id="moment-words"></p>
<svg class="line" id="line" aria-hidden="true"></svg>
<input type="range" id="moment" min="0" max="1000" step="1" autocomplete="off" aria-labelledby="time-title">
<p class="row"><label for="exact">At exactly</label>
<input type="datetime-local" step="1" id="exact" autocomplete="off">
<button type="button" class="quiet" id="back" disabled>Back to now</button></p>
</div>

<form id="fact-form" autocomplete="off">
<h3><label for="fact">Facts</label></h3>
<p class="soft" id="fact-help">What the service knows of the request, such as <code>action = read</code>. A caveat holds
where it is one of them, letter by letter.</p>
<p class="row"><input id="fact" dir="ltr" spellcheck="false" autocapitalize="off" aria-describedby="fact-help">
<button>Add fact</button></p>
<ul class="chips" id="facts" aria-label="Facts"></ul>
</form>
</section>

<section class="card said" aria-labelledby="narrow-title">
<h2 id="narrow-title">Narrow it</h2>
<form id="caveat-form" autocomplete="off">
<label for="caveat">Caveat to add</label>
<p class="row"><input id="caveat" dir="ltr" spellcheck="false" autocapitalize="off">
<button>Add caveat</button></p>
<p class="row"><button type="button" class="quiet" data-ends="3600">Ends in an hour</button>
<button type="button" class="quiet" data-ends="86400">Ends in a day</button></p>
</form>
<ul class="chips" id="added" aria-label="Caveats to add"></ul>
<p class="warning" id="caveat-warning" role="status"></p>
<div id="new" hidden>
<h3>The new token</h3>
<ul class="copies" id="copies"></ul>
<p><button type="button" class="quiet" id="follow">Look at the new token</button></p>
</div>
</section>

<section class="card" id="mint" hidden aria-labelledby="mint-title">
<h2 id="mint-title">Mint a token</h2>
<form id="mint-form" class="fields" autocomplete="off">
<label for="mint-name">Key</label><select id="mint-name"></select>
<label for="identifier">Identifier</label><input id="identifier" dir="ltr" spellcheck="false" autocapitalize="off">
<label for="location">Location</label><input id="location" dir="ltr" spellcheck="false" autocapitalize="off">
<label for="mint-caveats">Caveats, one a line</label>
<textarea id="mint-caveats" rows="3" dir="ltr" spellcheck="false" autocapitalize="off"></textarea>
<label for="mint-form-of">Form</label>
<select id="mint-form-of"><option value="v2-text">V2</option><option value="v1-text">V1</option><option value="v2-json">V2
JSON</option></select>
<button>Mint</button>
</form>
<div id="minted" role="status" aria-live="polite"></div>
</section>
</div>

<div class="column">
<section class="card said" aria-labelledby="chain-title">
<h2 id="chain-title">Why nothing can be widened</h2>
<ol class="chain" id="chain" aria-label="The chain of HMACs"></ol>
<p class="soft">An HMAC leads on and never back. Whoever holds the token has its last signature alone: enough to add a
caveat, and of no use to take one away.</p>
</section>

<section class="card said" aria-labelledby="words-title">
<h2 id="words-title">On the command line</h2>
<ul class="copies" id="commands"></ul>
<p class="soft">The <code>-</code> reads the token from standard input, so it stays out of the history: paste it, then
press Enter and Ctrl+D.</p>
</section>
</div>
</main>
<p class="aside" id="spoken" role="status" aria-live="polite"></p>
</body>
</html>
"#;

/// Its style, in CSS.
pub(crate) const STYLE: &str = r#":root {
  color-scheme: light dark;
  --ground: #f4f2ed; --card: #fffefb; --ink: #20242a; --soft: #565d66; --edge: #dcd8ce; --field: #8a8f96;
  --accent: #1d5082; --accent-ink: #ffffff; --inset: #f3f1ea;
  --good: #17633a; --good-ground: #e5f3e8; --bad: #a1231c; --bad-ground: #fbe9e6;
  --warn: #734700; --warn-ground: #fbf0d8; --mark: #50328f; --mark-ground: #ebe5f8;
  --mono: ui-monospace, "SF Mono", SFMono-Regular, Menlo, Consolas, "DejaVu Sans Mono", monospace;
}
@media (prefers-color-scheme: dark) {
  :root {
    --ground: #12151a; --card: #1a1f26; --ink: #e6e9ed; --soft: #a9b2bd; --edge: #333b46; --field: #77818d;
    --accent: #8fbcf2; --accent-ink: #10151b; --inset: #222831;
    --good: #83d6a3; --good-ground: #163022; --bad: #ffa097; --bad-ground: #3a1c1a;
    --warn: #efc778; --warn-ground: #332812; --mark: #cdb8ff; --mark-ground: #2f2549;
  }
}
* { box-sizing: border-box; }
[hidden] { display: none !important; }
html { font: 100%/1.55 system-ui, -apple-system, "Segoe UI", Roboto, "Liberation Sans", sans-serif; }
body { margin: 0; padding: 2.5rem clamp(1rem, 4vw, 3rem) 4rem; background: var(--ground); color: var(--ink); }
header, main { max-width: 84rem; margin: 0 auto; }
header p { max-width: 46rem; margin: 0 0 2rem; color: var(--soft); }
h1 { margin: 0 0 .35rem; font-size: 1.75rem; font-weight: 650; letter-spacing: -.015em; line-height: 1.25; }
h2 { margin: 0 0 .75rem; font-size: 1.0625rem; font-weight: 650; }
h3 { margin: 1.75rem 0 .35rem; font-size: .9375rem; font-weight: 650; }
p { margin: .5rem 0; }
main, .column { display: grid; gap: 1.5rem; grid-template-columns: minmax(0, 1fr); align-items: start; }
@media (min-width: 62rem) {
  body:not(.empty) main { grid-template: auto 1fr / minmax(0, 1fr) minmax(0, 1.1fr); }
  body:not(.empty) .right { grid-area: 1 / 2 / 3; }
}
.empty main, .empty header { max-width: 46rem; }
.empty .said, .empty #verdict { display: none; }
.refused .said { display: none; }
.card { background: var(--card); border: 1px solid var(--edge); border-radius: .75rem; padding: 1.35rem 1.5rem 1.5rem; }
.top { display: flex; flex-wrap: wrap; gap: .25rem .5rem; align-items: baseline; margin-bottom: .75rem; }
.top h2 { flex: 1; margin: 0; }
.soft { color: var(--soft); font-size: .9375rem; }
#note:empty, .warning:empty { display: none; }
code { overflow-wrap: anywhere; }
bdi { unicode-bidi: isolate; }

button, select, input, textarea { font: inherit; color: inherit; }
code, .mono, textarea, #fact, #caveat, #identifier, #location { font-family: var(--mono); font-size: .875rem; }
textarea, select, input:not([type=range]) {
  background: var(--inset); border: 1px solid var(--field); border-radius: .5rem; padding: .5rem .65rem;
  min-width: 0; max-width: 100%;
}
textarea { display: block; width: 100%; resize: vertical; word-break: break-all; line-height: 1.5; }
::placeholder { color: var(--soft); opacity: 1; }
button {
  background: var(--accent); color: var(--accent-ink); border: 1px solid var(--accent); border-radius: .5rem;
  padding: .5rem .9rem; font-weight: 600; font-size: .9375rem; cursor: pointer; white-space: nowrap;
}
button.quiet { background: transparent; color: var(--accent); border-color: var(--edge); font-weight: 500;
  padding: .3rem .7rem; }
button.quiet:hover:not(:disabled) { border-color: var(--accent); }
button:disabled { color: var(--soft); cursor: default; }
:focus-visible { outline: 3px solid var(--accent); outline-offset: 2px; }
.row { display: flex; flex-wrap: wrap; gap: .5rem .75rem; align-items: center; }
.row > input { flex: 1 1 12rem; }
.row > #exact { flex: 0 1 17rem; }
label { font-weight: 550; }
h2 label, h3 label { font-weight: inherit; }
.aside { position: absolute; width: 1px; height: 1px; overflow: hidden; clip-path: inset(50%); margin: 0; }

.place { background: var(--bad-ground); border-radius: .5rem; padding: .35rem .9rem .6rem; margin-top: .75rem; }
.excerpt { font-family: var(--mono); font-size: .875rem; overflow-wrap: anywhere; }
.excerpt mark { background: var(--bad); color: var(--card); border-radius: .2rem; padding: .05rem .2rem; }
.escape { color: var(--mark); background: var(--mark-ground); border-radius: .25rem; padding: 0 .15rem;
  font-family: var(--mono); font-size: .8125rem; }

#verdict { border-left: .4rem solid var(--edge); }
#verdict[data-state=good] { border-left-color: var(--good); }
#verdict[data-state=bad] { border-left-color: var(--bad); }
#verdict h2 { font-size: .875rem; color: var(--soft); margin-bottom: .15rem; }
.headline { font-size: 1.375rem; font-weight: 650; line-height: 1.3; margin: 0 0 .5rem; }
[data-state=good] .headline { color: var(--good); }
[data-state=bad] .headline { color: var(--bad); }
.told { background: var(--inset); border-radius: .4rem; padding: .5rem .75rem; }
.told code, .copies code { white-space: pre-wrap; }

dl { display: grid; grid-template-columns: max-content minmax(0, 1fr); gap: .4rem 1.25rem; margin: 0; }
dt { color: var(--soft); }
dd { margin: 0; overflow-wrap: anywhere; }

.caveats { list-style: none; margin: 0; padding: 0; display: grid; gap: .6rem; max-height: 38rem; overflow-y: auto; }
.caveats li { display: grid; grid-template-columns: auto minmax(0, 1fr) auto; gap: .1rem .75rem; align-items: baseline;
  padding: .6rem .9rem; border-radius: .5rem; background: var(--inset); border-left: .25rem solid var(--edge); }
.caveats li[data-state=holds] { background: var(--good-ground); border-left-color: var(--good); }
.caveats li[data-state=fails] { background: var(--bad-ground); border-left-color: var(--bad); }
.caveats li > * { grid-column: 2; }
.caveats .number { grid-column: 1; grid-row: 1; color: var(--soft); font-variant-numeric: tabular-nums; }
.caveats .text { grid-row: 1; overflow-wrap: anywhere; font-size: .9375rem; }
.caveats .badge { grid-column: 3; grid-row: 1; font-weight: 650; font-size: .875rem; }
[data-state=holds] > .badge { color: var(--good); }
[data-state=fails] > .badge { color: var(--bad); }
.caveats .soft { grid-column: 2 / 4; font-size: .875rem; margin: 0; color: var(--ink); }
.caveats button { justify-self: start; margin-top: .35rem; background: var(--card); }
summary { cursor: pointer; color: var(--accent); font-size: .875rem; }
.warning { color: var(--warn); background: var(--warn-ground); border-radius: .4rem; padding: .3rem .7rem;
  font-size: .875rem; }

#moment-words { margin-bottom: .75rem; }
.line { display: block; width: calc(100% - 1.5rem); height: 3.25rem; margin: 0 .75rem -.25rem; overflow: visible; }
.line .rail { fill: var(--edge); }
.line .window { fill: var(--good); }
.line .bound { stroke: var(--ink); stroke-width: 2; }
.line .now { stroke: var(--accent); stroke-width: 2; stroke-dasharray: 3 3; }
.line text { font-size: .75rem; text-anchor: middle; fill: var(--ink); }
.line text.now { stroke: none; fill: var(--accent); font-weight: 650; }
input[type=range] { appearance: none; display: block; width: 100%; height: 1.5rem; margin: 0 0 1rem;
  background: transparent; cursor: pointer; border-radius: .75rem; }
::-webkit-slider-thumb { appearance: none; width: 1.5rem; height: 1.5rem; border-radius: 50%; border: 0;
  background: var(--accent); }
::-moz-range-thumb { width: 1.5rem; height: 1.5rem; border-radius: 50%; border: 0; background: var(--accent); }

.chips { list-style: none; margin: .75rem 0 0; padding: 0; display: flex; flex-wrap: wrap; gap: .5rem; }
.chips:empty { display: none; }
.chips li { display: flex; align-items: center; gap: .35rem; max-width: 100%; background: var(--inset);
  border: 1px solid var(--edge); border-radius: 1.25rem; padding: .15rem .3rem .15rem .8rem; }
.chips code { min-width: 0; }
.chips button { background: transparent; border-color: transparent; color: var(--soft); border-radius: 50%;
  width: 1.75rem; height: 1.75rem; padding: 0; line-height: 1; font-size: 1.125rem; }

.copies { list-style: none; margin: 0; padding: 0; display: grid; gap: .75rem; }
.copies li { display: grid; grid-template-columns: minmax(0, 1fr) auto; gap: .15rem .75rem; align-items: center; }
.copies .soft { grid-column: 1; }
.copies code { grid-column: 1; background: var(--inset); border-radius: .4rem; padding: .45rem .7rem; }
.copies .short { white-space: nowrap; overflow: hidden; text-overflow: ellipsis; }
.copies button { grid-column: 2; grid-row: 2; }
.fields { display: grid; grid-template-columns: max-content minmax(0, 1fr); gap: .6rem 1rem; align-items: center; }
.fields button { grid-column: 2; justify-self: start; }
#minted { margin-top: .75rem; }

.chain { list-style: none; margin: 0 0 1rem; padding: 0; font-size: .9375rem; }
.chain li { position: relative; padding: .1rem 0 .1rem 2rem; min-height: 1.6rem; overflow-wrap: anywhere; }
.chain li::before { content: ""; position: absolute; left: .55rem; top: 0; bottom: 0;
  border-left: 2px solid var(--field); }
.chain li.key::before { top: .95rem; }
.chain li.known:last-child::before { bottom: auto; height: .9rem; }
.chain .dot { position: absolute; left: .1rem; top: .42rem; width: 1rem; height: 1rem; border-radius: 50%;
  background: var(--card); border: 2px dashed var(--field); }
.chain .known .dot { background: var(--accent); border: 2px solid var(--accent); }
.chain .step { padding-top: .45rem; padding-bottom: .45rem; }
.chain .step > div { background: var(--inset); border-radius: .5rem; padding: .4rem .8rem; }
.chain .more > div { border: 2px dashed var(--accent); background: transparent; }
.chain .secret { color: var(--soft); }
.chain small { font-size: .8125rem; color: var(--soft); }
.chain small.mono { display: block; }
@media (max-width: 30rem) {
  body { padding-top: 1.5rem; }
  .card { padding: 1.1rem 1rem 1.2rem; }
  dl, .fields { grid-template-columns: minmax(0, 1fr); gap: .15rem; }
  dd, .fields > :not(label) { margin-bottom: .5rem; }
  .fields button { grid-column: 1; }
}
"#;

/// What it does, in JavaScript.
pub(crate) const SCRIPT: &str =
    r#"// The page of `macaroond page`. What it says of a token, the daemon says: this only asks, and shows the
// answers as text. It keeps no token, and asks nobody but the daemon that it was opened for.
"use strict";

const $ = (id) => document.getElementById(id);
const TOKEN_MAX = 32768;
const BODY_MAX = 65536;
const EXAMPLE = "MDAxY2xvY2F0aW9uIGh0dHA6Ly9teWJhbmsvCjAwMjZpZGVudGlmaWVyIHdlIHVzZWQgb3VyIHNlY3JldCBrZXkKMDAxZGNpZCB" +
  "hY2NvdW50ID0gMzczNTkyODU1OQowMDIwY2lkIHRpbWUgPCAyMTAwLTAxLTAxVDAwOjAwCjAwMmZzaWduYXR1cmUg3j9iiy8--xzYtOSUB3x6xj9" +
  "UA9t8IbCL-vIZPb29w94K";

// What is looked at: the text that was pasted, the token in it, what an inspect and the last checks said.
let pasted = { text: "", start: 0, token: "" };
let said = null;
let bounds = [];
let facts = [];
let added = [];
let made = null;
let names = [];
// The moment that was picked, in seconds since 1970; null stands for now.
let picked = null;
let asOf = now();
let line = null;
// Which look, check and narrowing is the last one: answers to earlier ones are dropped.
const turns = { look: 0, check: 0, narrow: 0 };

function now() {
  return Math.floor(Date.now() / 1000);
}

// ---- The daemon

// The address that the daemon printed has two secrets behind its #: what this page shows with each call, and what the
// daemon shows this page. They are kept for this tab alone, so that it can be loaded again, and leave the address.
const KEPT = "secrets";
const SECRETS = /^#([0-9a-f]{32})([0-9a-f]{32})$/;
let secrets = takenSecrets();
// Why nothing is asked any more.
let gone = "";

function takenSecrets() {
  const opened = location.hash;
  if (SECRETS.test(opened)) sessionStorage.setItem(KEPT, opened);
  if (opened) history.replaceState(null, "", location.pathname);
  const [, ours, daemons] = SECRETS.exec(sessionStorage.getItem(KEPT)) || [];
  return { ours, daemons };
}

async function fetched(path, how) {
  const headers = { ...how.headers, "Macaroond-Page": secrets.ours };
  const reply = await fetch(path, { cache: "no-store", credentials: "omit", redirect: "error", ...how, headers });
  return { status: reply.status, text: await reply.text() };
}

// Whether the daemon answers that this page was opened for. Once it has ended, another program may have its port: that
// one doesn't know the daemon's secret, and gets no call.
async function isHere() {
  if (gone) return false;
  try {
    const { text } = await fetched("/here", {});
    if (text === secrets.daemons) return true;
  } catch {
    // No connection: it has ended.
  }
  end("macaroond has ended, and this page asks nothing more. Start it again, and open the address that it prints.");
  return false;
}

// Asks nothing more, and forgets the secrets.
function end(words) {
  if (gone) return;
  gone = words;
  secrets = {};
  sessionStorage.removeItem(KEPT);
  look();
}

// The status and the object of an answer.
async function ask(path, body) {
  const how = {};
  if (body) {
    Object.assign(how, { method: "POST", headers: { "Content-Type": "application/json" }, body: JSON.stringify(body) });
    if (utf8(how.body).length > BODY_MAX) {
      return { status: 413, told: { reason: "this is more than a request may have" } };
    }
  }
  if (!await isHere()) return { status: 0, told: {} };
  try {
    const { status, text } = await fetched(path, how);
    return { status, told: text ? JSON.parse(text) : {} };
  } catch {
    await isHere();
    return { status: 0, told: {} };
  }
}

// A refusal in the daemon's words.
function refusal({ status, told }) {
  if (told.code) return "refused " + told.code + ": " + told.reason;
  if (told.reason) return "refused: " + told.reason;
  if (status === 0) return gone || "macaroond didn't answer.";
  return "refused " + status;
}

// ---- Texts

function make(kind, name, ...parts) {
  const made = document.createElement(kind);
  if (name) made.className = name;
  made.append(...parts);
  return made;
}

function soft(...parts) {
  return make("p", "soft", ...parts);
}

function button(words, label, act, name = "quiet") {
  const made = make("button", name, words);
  made.type = "button";
  if (label) made.setAttribute("aria-label", label);
  made.onclick = act;
  return made;
}

const HIDDEN = /[\p{C}\p{Zl}\p{Zp}]|(?! )\p{Zs}|\p{M}{3,}/u;
const ODD = new RegExp("(" + HIDDEN.source + "|^ +| +$|  +)", "u");

// A text as it is, apart from what stands around it. Characters that don't show, or that turn others
// around, stand as marked escapes; so do spaces that one doesn't see.
function shown(text, most = Infinity) {
  const front = text.length > most ? [...text].slice(0, most).join("") : text;
  const parts = front.split(ODD).map((part, at) => at % 2 ? make("span", "escape", escaped(part)) : part);
  const whole = make("bdi", "", ...parts);
  if (text === "") whole.append(make("span", "soft", "(empty)"));
  if (front !== text) whole.append(" ...");
  return whole;
}

function escaped(text) {
  return [...text].map((it) => "\\u{" + it.codePointAt(0).toString(16) + "}").join("");
}

// Each byte: a printable one of ASCII as it is, another and each of `others` as `odd` makes it.
function spelled(bytes, odd, others = "") {
  return [...bytes].map((it) => {
    const letter = String.fromCharCode(it);
    return it > 31 && it < 127 && !others.includes(letter) ? letter : odd("\\x" + hex([it]));
  });
}

// What an inspect tells as a text, or as bytes where it is none.
function field(told, text, bytes) {
  if (told[text] !== undefined) return { text: told[text], bytes: utf8(told[text]) };
  return { text: null, bytes: bytesOf(told[bytes]) };
}

function shownField({ text, bytes }, most = Infinity) {
  if (text !== null) return shown(text, most);
  const parts = spelled(bytes.slice(0, most), (it) => make("span", "escape", it));
  return make("bdi", "", ...parts, bytes.length > most ? " ..." : "");
}

// As the command line prints bytes of a token.
function printed(bytes) {
  return spelled(bytes, (it) => it, "\\").join("");
}

function utf8(text) {
  return new TextEncoder().encode(text);
}

function hex(bytes) {
  return [...bytes].map((it) => it.toString(16).padStart(2, "0")).join("");
}

function bytesOf(base64) {
  const text = atob(base64.replace(/-/g, "+").replace(/_/g, "/"));
  return Uint8Array.from(text, (it) => it.charCodeAt(0));
}

function base64Of(bytes) {
  const text = btoa(Array.from(bytes, (it) => String.fromCharCode(it)).join(""));
  return text.replace(/[+]/g, "-").replace(/[/]/g, "_").replace(/=/g, "");
}

function counted(count, one) {
  return count.toLocaleString("en") + " " + one + (count === 1 ? "" : "s");
}

// ---- Time

const dates = new Intl.DateTimeFormat("en-GB", { weekday: "short", year: "numeric", month: "short", day: "numeric",
  hour: "2-digit", minute: "2-digit", second: "2-digit", timeZoneName: "short" });
const spans = new Intl.RelativeTimeFormat("en", { numeric: "always" });
const UNITS = [["year", 31556952], ["month", 2629746], ["day", 86400], ["hour", 3600], ["minute", 60], ["second", 1]];

function dated(seconds) {
  const date = new Date(seconds * 1000);
  const told = make("time", "", dates.format(date));
  told.dateTime = date.toISOString();
  return told;
}

// How far a moment is from now: `in 3 hours`, `119 minutes ago`.
function away(seconds) {
  const from = seconds - now();
  const [unit, size] = UNITS.find(([, size]) => Math.abs(from) >= 2 * size) || UNITS[5];
  return spans.format(Math.trunc(from / size), unit);
}

// The second of a bound of time, and whether it is an upper one; null where the text is none. This draws the line of
// time alone: whether a caveat holds, the daemon says.
function boundOf(text) {
  const found = /^time (<|>=) (\d{4})-(\d\d)-(\d\d)T(\d\d):(\d\d)(?::(\d\d))?Z?$/.exec(text || "");
  if (!found) return null;
  const [year, month, day, hour, minute, second] = found.slice(2).map((it) => Number(it || 0));
  const date = new Date(0);
  date.setUTCFullYear(year, month - 1, day);
  if (date.getUTCMonth() !== month - 1 || date.getUTCDate() !== day) return null;
  if (hour > 23 || minute > 59 || second > 59) return null;
  return { isEnd: found[1] === "<", at: date.getTime() / 1000 + hour * 3600 + minute * 60 + second };
}

function seemsBound(text) {
  return /^time ?[<>]/.test(text) && !boundOf(text);
}

// A moment as the command line takes it; past the year 9999 that is its number.
function timed(seconds) {
  const text = new Date(seconds * 1000).toISOString().replace(".000Z", "Z");
  return text.length > 20 ? String(seconds) : text;
}

// ---- The token that was pasted

// The token without what often stands around it, where it begins, and what was left out.
function tokenIn(text) {
  const front = /^\s*(?:authorization\s*:\s*)?(?:(?:bearer|macaroon)\s+)?/i.exec(text)[0];
  let token = text.slice(front.length).trimEnd();
  const left = [];
  if (front.trim()) left.push(front.trim());
  if (front !== front.trimEnd() && !front.trim() || text !== text.trimEnd()) left.push("white space");
  if (/^hex:(?:[0-9a-f]{2})+$/i.test(token)) {
    token = base64Of(token.slice(4).match(/../g).map((it) => parseInt(it, 16)));
    return { text, token, left };
  }
  return { text, token, start: front.length, left };
}

function isBare(token) {
  return "0{\u0002".includes(token[0]);
}

async function look() {
  const turn = ++turns.look;
  ++turns.check;
  ++turns.narrow;
  said = null;
  pasted = tokenIn($("token").value);
  $("clear").hidden = pasted.text === "";
  $("example").hidden = !$("clear").hidden;
  const size = utf8(pasted.token).length;
  const reply = gone ? { status: 0, told: {} } : pasted.token === "" ? null : size > TOKEN_MAX
    ? { status: 400, told: { code: 22, reason: "the token passes a limit" } }
    : await ask("/inspect", { token: pasted.token });
  if (turn !== turns.look) return;
  said = reply && reply.status === 200 ? reply.told : null;
  document.body.className = !reply ? "empty" : said ? "" : "refused";
  $("note").replaceChildren();
  if (reply) {
    $("note").append(counted(size, "byte") + (isBare(pasted.token) ? "" : " of base64") + ". ");
    if (pasted.left.length) $("note").append("Left out around it: ", shown(pasted.left.join(", ")));
  }
  showPlace(reply && !said ? reply.told.code : 0);
  bounds = said ? said.caveats.map((it) => boundOf(it.text)) : [];
  picked = null;
  if (said) {
    showParts();
    showCaveats();
    check();
    narrow();
  } else {
    showRefusal(reply);
  }
}

function showParts() {
  const form = { "v1-text": "V1 packets", "v2-text": "V2 binary", "v2-json": "V2 JSON" }[said.form];
  const rows = [
    ["Form", form + (isBare(pasted.token) ? " as it is" : " in base64")],
    ["Location", shown(said.location)],
    ["Identifier", long(field(said, "identifier", "identifier64"))],
    ["Signature", make("code", "", said.signature)],
  ];
  $("says").replaceChildren(...rows.flatMap(([name, value]) => [make("dt", "", name), make("dd", "", value)]));
}

// A field in short, and behind it the whole.
function long(told) {
  const size = told.text === null ? told.bytes.length : told.text.length;
  if (size <= 300) return make("span", "mono", shownField(told));
  const whole = make("details", "", make("summary", "", "All " + counted(told.bytes.length, "byte")), shownField(told));
  return make("span", "mono", shownField(told, 200), whole);
}

// ---- Where reading stopped

// The first character that isn't base64 text's, and why.
function base64Stop(text) {
  const end = text.indexOf("=") < 0 ? text.length : text.indexOf("=");
  const [strange, plain, safe] = [/[^\w+/=-]/, /[+/]/, /[-_]/].map((it) => text.search(it));
  if (/^eyJ[\w-]*[.][\w-]+[.]/.test(text)) return [strange, "this looks like a JWT, and not like a macaroon"];
  if (strange >= 0) return [strange, "no base64 alphabet has this character"];
  if (plain >= 0 && safe >= 0) return [Math.max(plain, safe), "here the letters of both base64 alphabets meet"];
  if (/=[^=]/.test(text)) return [end, "padding stands before the end"];
  if (end % 4 === 1) return [end - 1, "one letter is left over at the end: the text was cut, or lacks some"];
  if (end < text.length && text.length - end !== (4 - end % 4) % 4) return [end, "this isn't the padding that is due"];
  return [end - 1, "the last letter has bits that no byte uses: the text was cut, or lacks some"];
}

// The place where a text stops to be JSON; -1 where it is JSON.
function jsonStop(text) {
  let at = 0;
  const take = (pattern) => {
    pattern.lastIndex = at;
    const found = pattern.test(text);
    if (found) at = pattern.lastIndex;
    return found;
  };
  const blanks = () => take(/[ \t\n\r]*/y);
  const need = (pattern) => {
    if (!take(pattern)) throw at;
    blanks();
  };
  const string = () => {
    if (!take(/"/y)) throw at;
    take(/(?:[^"\\\u0000-\u001f]|\\(?:["\\/bfnrt]|u[0-9a-fA-F]{4}))*/y);
    need(/"/y);
  };
  const listed = (end, member) => {
    blanks();
    if (!take(end)) {
      do {
        blanks();
        member();
      } while (take(/,/y));
      need(end);
    }
    blanks();
  };
  const value = () => {
    if (take(/[{]/y)) listed(/[}]/y, () => { string(); need(/:/y); value(); });
    else if (take(/\[/y)) listed(/\]/y, value);
    else if (text[at] === '"') string();
    else need(/-?(?:0|[1-9]\d*)(?:[.]\d+)?(?:[eE][+-]?\d+)?|true|false|null/y);
  };
  try {
    value();
    return at === text.length ? -1 : at;
  } catch (stopped) {
    return typeof stopped === "number" ? stopped : -1;
  }
}

// Where reading stopped: words, and the text and place where there is one.
function stopOf(code) {
  const { token } = pasted;
  if (code === 19 && !isBare(token)) {
    const [at, words] = base64Stop(token);
    return { text: token, at, words, inPasted: true };
  }
  if (code !== 20) return null;
  let [text, within] = [token, ""];
  if (!isBare(token)) {
    const bytes = bytesOf(token);
    const form = { 48: "V1 packets", 2: "V2 binary", 123: "" }[bytes[0]];
    if (form === undefined) return { words: "The base64 is good, but its first byte is 0x" + hex([bytes[0]]) +
      ", and no form of a token begins so (V1 does with 0x30, V2 with 0x02, JSON with 0x7b)." };
    if (form) return { words: "The base64 is good. Reading stopped within the " + counted(bytes.length, "byte") +
      " that it stands for, which begin as " + form + " do." };
    text = new TextDecoder().decode(bytes);
    within = " of the JSON that the base64 stands for";
  }
  if (text[0] !== "{") return { words: "Reading stopped within the bytes." };
  const at = jsonStop(text);
  if (at >= 0) return { text, at, within, inPasted: !within, words: "JSON stops here" };
  return { words: "It is JSON, but no token: a member is missing, or has a value that no token has there." };
}

const HINTS = {
  21: "One of its caveats is to be discharged by a third party. macaroond takes first-party caveats alone.",
  22: "A token has at most 32,768 bytes as it is written, 128 caveats of 4,096 bytes each, an identifier of 4,096 " +
    "bytes and a location of 1,024.",
  26: "One of its caveats names a location, as those for a third party do. macaroond takes none with one.",
};

function showPlace(code) {
  const stop = stopOf(code) || (HINTS[code] ? { words: HINTS[code] } : null);
  $("place").hidden = !stop;
  const hasPlace = Boolean(stop) && stop.at !== undefined;
  $("go").hidden = !hasPlace || !stop.inPasted || pasted.start === undefined;
  $("excerpt").hidden = !hasPlace;
  $("place-words").textContent = stop ? stop.words : "";
  if (!hasPlace) return;
  const { text, at, within = "", words } = stop;
  const before = text.slice(0, at);
  const char = at < text.length ? String.fromCodePoint(text.codePointAt(at)) : "";
  const row = before.split("\n").length;
  const where = "character " + ([...before].length + 1) + (row > 1 ? " (in line " + row + ")" : "");
  $("place-words").textContent = "Reading stopped at " + where + within + ": " + words + ".";
  const mark = make("mark", "", char === "" ? "the end" : /[\p{C}\p{Z}]/u.test(char) ? escaped(char) : char);
  const front = [...before].slice(-20).join("");
  const rest = text.slice(at + char.length);
  $("excerpt").replaceChildren(before.length > front.length ? "... " : "", front ? shown(front) : "", mark,
    rest ? shown(rest, 20) : "");
  $("go").onclick = () => {
    $("token").focus();
    $("token").setSelectionRange(pasted.start + at, pasted.start + at + Math.max(char.length, 1));
  };
}

// ---- Caveats, and whether they hold

function showCaveats() {
  const rows = said.caveats.map((told, at) => {
    const caveat = field(told, "text", "bytes64");
    const row = make("li", "", make("span", "number", String(at)), make("span", "text", long(caveat)),
      make("span", "badge"));
    if (bounds[at]) {
      row.append(soft(bounds[at].isEnd ? "Holds before " : "Holds from ", dated(bounds[at].at), make("span", "away")),
        make("p", "soft times"));
    }
    if (seemsBound(caveat.text)) {
      row.append(make("p", "warning", "Begins as a bound of time does and is none: it holds only as a fact."));
    }
    if (caveat.text === null) {
      row.append(soft("Its bytes are no UTF-8: no fact that is written in JSON equals it."));
    } else if (!bounds[at]) {
      row.append(make("p", "warning near"), button("Take it as a fact", "Take caveat " + at + " as a fact", () => {
        addTo(facts, caveat.text);
        $("fact").focus();
      }, "quiet take"));
    }
    return row;
  });
  $("caveats").replaceChildren(...rows);
  $("caveats").hidden = rows.length === 0;
  $("time").hidden = !bounds.some(Boolean);
}

async function check() {
  if (!said) return;
  const turn = ++turns.check;
  asOf = now();
  showLine();
  showWords();
  const { token } = pasted;
  const name = $("name").value;
  const moment = picked === null ? asOf : picked;
  const [atNow, atPicked, verified] = await Promise.all([
    ask("/check", { token, facts, moment: asOf }),
    picked === null ? null : ask("/check", { token, facts, moment }),
    name ? ask("/verify/" + encodeURIComponent(name), { token, facts, moment }) : null,
  ]);
  if (turn !== turns.check) return;
  const then = atPicked || atNow;
  for (const reply of [atNow, then]) {
    if (reply.status !== 200) return showRefusal(reply, true);
  }
  showHolding(atNow.told.holds, then.told.holds);
  showVerdict(then.told.holds, name, verified);
}

function showHolding(atNow, then) {
  const alike = (text) => text.toLowerCase().replace(/[\s"']/g, "");
  const rows = $("caveats").children;
  said.caveats.forEach(({ text }, at) => {
    const row = rows[at];
    row.dataset.state = then[at] ? "holds" : "fails";
    row.querySelector(".badge").textContent = then[at] ? "\u2713 holds" : "\u2717 fails";
    if (bounds[at]) {
      row.querySelector(".away").textContent = ", " + away(bounds[at].at);
      const tell = (holds) => holds ? "holds" : "does not hold";
      row.querySelector(".times").textContent = "Now it " + tell(atNow[at]) +
        (picked === null ? "." : "; at the moment that is picked it " + tell(then[at]) + ".");
    }
    if (text === undefined || bounds[at]) return;
    row.querySelector(".take").hidden = then[at] || facts.includes(text);
    const near = !then[at] && facts.some((fact) => alike(fact) === alike(text));
    row.querySelector(".near").textContent = near ? "A fact differs from it in spaces, quotes or case alone." : "";
  });
  const fails = then.filter((it) => !it).length;
  $("tally").textContent = then.length === 0 ? "It has none: whoever holds it may do all that its key allows."
    : then.length - fails + " of " + then.length + " hold";
}

// ---- The verdict

function tellVerdict(state, headline, ...parts) {
  const words = $("verdict-words");
  const next = make("div", "", make("p", "headline", headline), ...parts);
  $("verdict").dataset.state = state;
  // A reader is told what is new, and nothing twice.
  if (words.firstChild && words.firstChild.isEqualNode(next)) return;
  words.replaceChildren(next);
}

function told(...parts) {
  return make("p", "told", make("code", "", ...parts));
}

function showRefusal(reply, isCheck) {
  $("choice").hidden = true;
  if (!reply) return tellVerdict("none", "No token yet");
  if (reply.status === 0) return tellVerdict("bad", refusal(reply));
  if (isCheck || !reply.told.code) return tellVerdict("bad", "This can't be checked", told(refusal(reply)));
  tellVerdict("bad", "No verify takes this", told(refusal(reply)),
    soft("A gateway that asks over HTTP is answered 401, whatever the facts and the moment are."));
}

function showVerdict(holds, name, verified) {
  $("choice").hidden = names.length === 0;
  const first = holds.indexOf(false);
  const when = picked === null ? " now" : " at the moment that is picked";
  const key = make("b", "", shown(name));
  const header = make("code", "", "Macaroon-Reason: 24 " + first);
  const { granted, code } = verified ? verified.told : {};
  const help = names.length ? " Choose a key to see whether it did." : " To see it, start the page with --keys FILE.";
  if (granted) {
    return tellVerdict("good", "Granted" + when, told("granted"),
      soft("A key of the name ", key, " signed it, and every caveat holds. Over HTTP that is 200."));
  }
  if (code === 23) {
    return tellVerdict("bad", "The signature is not by this key", told(refusal(verified)),
      soft("Another secret signed the token, or somebody changed it. Over HTTP that is 401."));
  }
  if (verified && code !== 24) return tellVerdict("bad", "Refused", told(refusal(verified)));
  if (first < 0) {
    return tellVerdict("good", holds.length ? "Every caveat holds" + when : "There is no caveat to hold",
      soft("It is granted if a key of the name signed it. Where a service answers 401, none did." + help));
  }
  const rest = holds.filter((it) => !it).length - 1;
  tellVerdict("bad", "Caveat " + first + " is not satisfied",
    told("refused 24: caveat " + first + " is not satisfied: ", printed(caveatBytes(first))),
    soft("It is number " + (first + 1) + " of " + holds.length + ", as the daemon counts from 0. " +
      (rest ? counted(rest, "more caveat") + " behind it fail" + (rest === 1 ? "s." : ".") : "")),
    verified ? soft("A key of the name ", key, " signed it. Over HTTP that is 403, with ", header, ".")
      : soft("Over HTTP that is 403, with ", header, ". Where it is 401, no key of the name signed it." + help));
}

function caveatBytes(at) {
  return field(said.caveats[at], "text", "bytes64").bytes;
}

// ---- The line of time

// The bounds and now, each pair as far from another as the logarithm of what lies between them: so a bound that passed
// a minute ago and one in a hundred years have room on one line.
function showLine() {
  const ends = bounds.filter((it) => it && it.at >= 0);
  const marks = [...new Set([asOf, ...ends.map((it) => it.at)])].sort((a, b) => a - b);
  const pad = Math.max(3600, Math.ceil((marks[marks.length - 1] - marks[0]) / 10));
  const moments = [...new Set([Math.max(0, marks[0] - pad), ...marks, marks[marks.length - 1] + pad])];
  const places = [0];
  for (let at = 1; at < moments.length; at += 1) {
    places.push(places[at - 1] + Math.log(2 + moments[at] - moments[at - 1]));
  }
  line = { moments, places: places.map((it) => it / places[places.length - 1] * 1000) };
  const x = (moment) => placeOf(moment) / 10 + "%";
  const from = Math.max(moments[0], ...bounds.filter((it) => it && !it.isEnd).map((it) => it.at));
  const to = Math.min(moments[moments.length - 1], ...bounds.filter((it) => it && it.isEnd).map((it) => it.at));
  const parts = [drawn("rect", "rail", { x: 0, y: 30, width: "100%", height: 8, rx: 4 })];
  if (from < to) {
    const width = (placeOf(to) - placeOf(from)) / 10 + "%";
    parts.push(drawn("rect", "window", { x: x(from), y: 30, width, height: 8 }));
  }
  parts.push(drawn("line", "now", { x1: x(asOf), x2: x(asOf), y1: 24, y2: 50 }));
  parts.push(drawn("text", "now", { x: x(asOf), y: 8 }, "now"));
  const labels = new Map();
  bounds.forEach((it, at) => it && it.at >= 0 && labels.set(it.at, [...(labels.get(it.at) || []), at]));
  for (const [moment, numbers] of labels) {
    parts.push(drawn("line", "bound", { x1: x(moment), x2: x(moment), y1: 24, y2: 50 }));
    const front = labels.size < 4 ? "caveat " : "";
    parts.push(drawn("text", "", { x: x(moment), y: 21 }, front + numbers.slice(0, 3) + (numbers[3] ? ".." : "")));
  }
  $("line").replaceChildren(...parts);
  if (picked === null || document.activeElement !== $("moment")) {
    $("moment").value = Math.round(placeOf(picked === null ? asOf : picked));
  }
}

function drawn(kind, name, settings, text = "") {
  const part = document.createElementNS("http://www.w3.org/2000/svg", kind);
  if (name) part.setAttribute("class", name);
  for (const [key, value] of Object.entries(settings)) part.setAttribute(key, value);
  part.textContent = text;
  return part;
}

// A moment's place on the line, from 0 to 1,000.
function placeOf(moment) {
  return between(line.moments, line.places, moment);
}

// The moment at a place of the line; close to a mark it is the mark's.
function momentAt(place) {
  const near = line.places.findIndex((it) => Math.abs(it - place) < 3);
  return near >= 0 ? line.moments[near] : Math.round(between(line.places, line.moments, place));
}

// What lies in one list of numbers as far as `it` does in the other.
function between(from, to, it) {
  const at = Math.max(1, from.findIndex((end) => end >= it));
  return to[at - 1] + (to[at] - to[at - 1]) * (it - from[at - 1]) / (from[at] - from[at - 1]);
}

function pick(moment) {
  picked = moment;
  check();
}

function showWords() {
  const moment = picked === null ? asOf : picked;
  const front = picked === null ? "Now: " : "Picked: ";
  const words = make("span", "", front, dated(moment), picked === null ? "" : ", " + away(moment));
  $("moment-words").replaceChildren(words);
  $("moment").setAttribute("aria-valuetext", words.textContent);
  $("back").disabled = picked === null;
  if (document.activeElement !== $("exact")) {
    const date = new Date(moment * 1000);
    const local = new Date(moment * 1000 - date.getTimezoneOffset() * 60000);
    $("exact").value = local.toISOString().slice(0, 19);
  }
  showCommands();
}

// ---- Facts, and caveats to add

function addTo(list, text) {
  if (text !== "" && !list.includes(text)) list.push(text);
  showChips();
  return list === facts ? check() : narrow();
}

function showChips() {
  for (const [list, id, kind] of [[facts, "facts", "fact"], [added, "added", "caveat"]]) {
    $(id).replaceChildren(...list.map((text, at) => {
      const drop = button("\u00d7", "Remove " + kind + " " + shown(text, 200).textContent, () => {
        list.splice(at, 1);
        showChips();
        const rest = $(id).querySelectorAll("button");
        (rest[Math.min(at, rest.length - 1)] || $(kind)).focus();
        list === facts ? check() : narrow();
      }, "");
      return make("li", "", make("code", "", shown(text, 200)), drop);
    }));
  }
}

// What is told of new caveats that can hardly hold: what the daemon says, and which time limits have passed.
function doubtsOf(told, caveats) {
  const passed = caveats.map(boundOf).flatMap((it, caveat) => !it || !it.isEnd || it.at > now() ? []
    : [{ caveat, reason: "a caveat is a time limit that has passed, and holds only as a fact" }]);
  return [...(told.warnings || []), ...passed]
    .map((it) => "A" + it.reason.slice(1) + ": " + printed(utf8(caveats[it.caveat])));
}

const FORMS = [["v1-text", "V1, base64"], ["v2-text", "V2, base64"], ["v2-json", "V2 JSON, base64url"]];

async function narrow() {
  if (!said) return;
  const turn = ++turns.narrow;
  $("follow").disabled = true;
  const caveats = [...added];
  const replies = caveats.length === 0 ? []
    : await Promise.all(FORMS.map(([form]) => ask("/attenuate", { token: pasted.token, caveats, form })));
  if (turn !== turns.narrow) return;
  made = null;
  const first = replies.find((reply) => reply.status === 200);
  $("caveat-warning").textContent = first ? doubtsOf(first.told, caveats).join(" ") : "";
  const rows = replies.map((reply, at) => {
    if (reply.status !== 200) {
      return make("li", "", make("span", "soft", FORMS[at][1]), make("code", "", refusal(reply)));
    }
    if (FORMS[at][0] === said.form || !made) made = reply.told.token;
    return copied(FORMS[at][1], reply.told.token);
  });
  if (replies[2] && replies[2].status === 200) {
    rows.push(copied("V2 JSON as it is", new TextDecoder().decode(bytesOf(replies[2].told.token))));
  }
  $("copies").replaceChildren(...rows);
  $("new").hidden = rows.length === 0;
  $("follow").disabled = !made;
  const binary = replies[1] && replies[1].status === 200 ? bytesOf(replies[1].told.token) : null;
  showChain(caveats, binary && hex(binary.slice(-32)));
  showCommands();
}

// A row with a text to copy.
function copied(name, text, kind = "short") {
  const code = make("code", kind, shown(text));
  const copy = button("Copy", "Copy " + name, async () => {
    try {
      await navigator.clipboard.writeText(text);
      $("spoken").textContent = "Copied: " + name;
      copy.textContent = "Copied";
      setTimeout(() => { copy.textContent = "Copy"; }, 2000);
    } catch {
      $("spoken").textContent = "The browser doesn't allow to copy; the text is selected";
      getSelection().selectAllChildren(code);
    }
  });
  return make("li", "", make("span", "soft", name), code, copy);
}

// A word for a shell: between quotation marks, or with escapes where a character doesn't show.
function quoted(text) {
  if (!HIDDEN.test(text)) return "'" + text.replace(/'/g, "'\\''") + "'";
  return "$'" + spelled(utf8(text), (it) => it, "'\\").join("") + "'";
}

function option(name, text) {
  return text.startsWith("-") ? " --" + name + "=" + quoted(text) : " --" + name + " " + quoted(text);
}

function showCommands() {
  const verify = "macaroond verify --keys FILE --key " + ($("name").value || "NAME") +
    facts.map((it) => option("fact", it)).join("") + (picked === null ? "" : " --at " + timed(picked)) + " -";
  const rows = [copied("Verify it", verify, "whole")];
  if (added.length) {
    const attenuate = "macaroond attenuate" + added.map((it) => option("caveat", it)).join("") + " -";
    rows.unshift(copied("Narrow it", attenuate, "whole"));
  }
  rows.push(copied("Look at it", "macaroond inspect -", "whole"));
  const codes = (parts) => [...parts].map((it) => it.querySelector("code").textContent).join("\n");
  if (codes($("commands").children) !== codes(rows)) $("commands").replaceChildren(...rows);
}

// ---- The chain

function showChain(caveats, signature) {
  const point = (name, ...parts) => make("li", name, make("span", "dot"), ...parts);
  const step = (name, what, told) => {
    const front = told.bytes.slice(0, 6);
    const digits = hex(front).replace(/..(?=.)/g, "$& ") + (told.bytes.length > 6 ? " .." : "");
    return make("li", "step" + name, make("div", "", make("b", "", "HMAC"), " with " + what + " ",
      make("span", "mono", shownField(told, 28)), make("small", "mono", digits)));
  };
  const lost = () => point("secret", make("small", "", "a signature that the token no longer has"));
  const known = (digits, what) => point("known", make("code", "", digits.slice(0, 16) + ".."), " " + what);
  const steps = [step("", "the identifier", field(said, "identifier", "identifier64")),
    ...said.caveats.map((it, at) => step("", "caveat " + at, field(it, "text", "bytes64")))];
  const parts = [point("key secret", "the root key ", make("small", "", "which only who mints has"))];
  steps.forEach((it, at) => {
    const isMiddle = steps.length > 9 && at > 3 && at < steps.length - 4;
    if (isMiddle && at === 4) {
      parts.push(make("li", "step", make("div", "", counted(steps.length - 8, "more step"))), lost());
    }
    if (!isMiddle) parts.push(it, at < steps.length - 1 ? lost() : known(said.signature, "the signature"));
  });
  if (signature) {
    caveats.forEach((text, at) => {
      const isLast = at === caveats.length - 1;
      parts.push(step(" more", "your caveat", { text, bytes: utf8(text) }));
      parts.push(isLast ? known(signature, "the new signature") : lost());
    });
  }
  $("chain").replaceChildren(...parts);
}

// ---- Minting

async function mint() {
  const body = { identifier: $("identifier").value, location: $("location").value, form: $("mint-form-of").value };
  body.caveats = $("mint-caveats").value.split("\n").filter(Boolean);
  const reply = await ask("/mint/" + encodeURIComponent($("mint-name").value), body);
  if (reply.status !== 200) return $("minted").replaceChildren(told(refusal(reply)));
  const { token } = reply.told;
  const doubts = doubtsOf(reply.told, body.caveats).map((it) => make("p", "warning", it));
  $("minted").replaceChildren(...doubts, make("ul", "copies", copied("The token that was minted", token)),
    make("p", "row", button("Look at it", "", () => paste(token))));
}

// ---- What the reader does

function paste(text) {
  $("token").value = text;
  added = [];
  showChips();
  $("token").focus();
  scrollTo(0, 0);
  look();
}

function soon(act) {
  let timer = 0;
  return () => {
    clearTimeout(timer);
    timer = setTimeout(act, 120);
  };
}

$("token").addEventListener("input", soon(look));
$("example").onclick = () => paste(EXAMPLE);
$("clear").onclick = () => paste("");
$("follow").onclick = () => paste(made);
$("name").onchange = check;
$("back").onclick = () => {
  pick(null);
  $("moment").focus();
};
const checkSoon = soon(check);
$("moment").addEventListener("input", () => {
  picked = momentAt(Number($("moment").value));
  showWords();
  checkSoon();
});
$("exact").addEventListener("input", () => {
  const seconds = Math.floor(new Date($("exact").value).getTime() / 1000);
  if (seconds >= 0) pick(seconds);
});
for (const [id, field, list] of [["fact-form", "fact", () => facts], ["caveat-form", "caveat", () => added]]) {
  $(id).onsubmit = (event) => {
    event.preventDefault();
    addTo(list(), $(field).value);
    $(field).value = "";
    $(field).focus();
  };
}
for (const button of document.querySelectorAll("[data-ends]")) {
  button.onclick = () => addTo(added, "time < " + timed(now() + Number(button.dataset.ends)));
}
$("mint-form").onsubmit = (event) => {
  event.preventDefault();
  mint();
};
// A bound that passes while one looks turns its caveat over.
setInterval(() => {
  if (said && !gone && bounds.some((it) => it && it.at > asOf && it.at <= now())) check();
}, 1000);

// Where the daemon ends, the page says so without being asked.
setInterval(() => document.hidden || isHere(), 3000);
// The address of another daemon was opened in this tab.
addEventListener("hashchange", () => location.reload());

if (!secrets.ours) end("This page is to be opened at the whole address that `macaroond page` printed.");
(async () => {
  const reply = await ask("/names");
  names = reply.status === 200 ? reply.told.names : [];
  $("mint").hidden = names.length === 0;
  const options = () => names.map((it) => make("option", "", it));
  const none = make("option", "", "none");
  none.value = "";
  $("name").replaceChildren(none, ...options());
  $("mint-name").replaceChildren(...options());
  $("choice").hidden = names.length === 0 || !said;
})();
look();
"#;
