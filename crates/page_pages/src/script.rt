//! The script that pages fetch. All of a page works without it, but for handing in a file.

/// The script of the owner's and the print room's page, `/page.js`. The form to print has its texts.
pub const PAGE_SCRIPT: &str =
    "// What a page does beyond showing. It hands in a file as it is, does acts where they are asked for, and loads
// itself anew without taking anything from who is at work.
'use strict';
const LONGEST = 16777216, LOOKED_AT = 65536, LONGEST_NAME = 255, LONGEST_PASSWORD = 32, MOST_COPIES = 999;
const BEGINNINGS = [[37, 80, 68, 70, 45], [37, 33], [255, 216, 255], [82, 97, 83, 50], [85, 78, 73, 82, 65, 83, 84, 0]];
const main = document.getElementById('main');
const form = document.getElementById('print');
const read = (text) => new DOMParser().parseFromString(text, 'text/html');
const bytesOf = (text) => new TextEncoder().encode(text).length;
const make = (name, set) => Object.assign(document.createElement(name), set);
// Without the name and password that the page's own address may have.
const ask = (place, how) => fetch(location.origin + place, { cache: 'no-store', ...how });
const post = (of, act) => ask(of.getAttribute('action'), { method: 'POST', body: new URLSearchParams({ act }) });

// ---- what is said, and read aloud

const aloud = make('div', { className: 'unseen' });
aloud.setAttribute('role', 'status');
document.body.append(aloud);

// What a page that came says first: what came of an act, or why it was refused.
const noteOf = (page) => page.querySelector('.note') ?? page.querySelector('.sheet');
const textOf = (note) => [...note?.querySelectorAll('h1, p:not(:has(a))') ?? []].map((part) => part.textContent.trim()).join(' ');

// Shows the texts above all else, or nothing, and has them read aloud.
function tell(texts, isGood) {
  main.querySelector('.note')?.remove();
  if (texts.length) {
    const note = make('div', { className: isGood ? 'note good' : 'note' });
    texts.forEach((text) => note.append(make('p', { textContent: text })));
    main.prepend(note);
  }
  setTimeout(() => { aloud.textContent = texts.join(' '); }, 100);
}

// ---- times and the chart, as they came, are shown to who reads

const LANGUAGE = document.documentElement.lang;
const CLOCK = new Intl.DateTimeFormat(LANGUAGE, { day: 'numeric', month: 'short', year: 'numeric', hour: '2-digit', minute: '2-digit', hourCycle: 'h23',
  timeZoneName: 'short' });

// Puts times into the zone of who reads, and says which that is. A time that names no zone is in UTC.
function putTimes(part) {
  part.querySelectorAll('time').forEach((time) => {
    const at = new Date(time.dateTime);
    if (Number.isNaN(at.getTime()) || at.getTimezoneOffset() === 0) return;
    const told = Object.fromEntries(CLOCK.formatToParts(at).map((one) => [one.type, one.value]));
    time.textContent = told.day + ' ' + told.month + ' ' + told.year + ', ' + told.hour + ':' + told.minute + ' ';
    time.append(make('small', { textContent: told.timeZoneName }));
    if (time.nextSibling?.nodeType === 3) time.nextSibling.textContent = time.nextSibling.textContent.replace(/^ UTC/, '');
  });
}

// The least number of one digit, with zeros behind, that has room for this many. Half of it is as short.
const round = (units) => {
  const zeros = 10 ** Math.floor(Math.log10(units));
  return [1, 2, 3, 4, 5, 6, 8, 10].map((digit) => digit * zeros).find((number) => number >= units);
};

function draw(name, set, text) {
  const part = document.createElementNS('http://www.w3.org/2000/svg', name);
  Object.entries(set).forEach(([key, value]) => part.setAttribute(key, value));
  part.textContent = text;
  return part;
}

// Draws the bars of the month again, by an axis. A bar is cut, and tells its number, where its day has over five times what is usual.
function drawChart() {
  const figure = main.querySelector('.chart');
  const days = [...figure?.parentElement.querySelectorAll('.days td') ?? []].map((cell) => Number(cell.textContent));
  const some = days.filter((units) => units > 0).sort((one, other) => other - one);
  if (!some.length) return;
  const usual = some[Math.floor(some.length / 2)];
  const top = round(some.find((units) => units <= 5 * usual));
  figure.querySelectorAll('.scale, .gap').forEach((old) => old.remove());
  const scale = draw('svg', { class: 'scale', 'aria-hidden': true }, '');
  const write = (units, places) => scale.append(draw('text', places, units.toLocaleString(LANGUAGE)));
  [0, top / 2, top].filter(Number.isInteger).forEach((units) => {
    const y = 100 - 100 * units / top + '%';
    scale.append(draw('line', { x2: '100%', y1: y, y2: y }, ''));
    write(units, { class: 'tick', x: '-8', y });
  });
  figure.querySelectorAll('.charged').forEach((bar, day) => {
    const height = Math.min(1000, 1000 * days[day] / top);
    bar.setAttribute('y', 1000 - height);
    bar.setAttribute('height', height);
    if (days[day] <= top) return;
    write(days[day], { class: 'cut', x: 100 * (day + .5) / days.length + '%', y: '-12' });
    bar.parentElement.append(draw('line', { class: 'gap', x1: day, x2: day + 1, y1: 90, y2: 90 }, ''));
  });
  figure.append(scale);
}

// ---- a page takes the place of what is here

const isField = (part) => part?.matches('input, textarea, select');
const isChanged = (field) => field.type === 'checkbox' ? field.checked : field.value !== field.defaultValue;
// Somebody types there, or has typed or chosen something.
const isInUse = (part) => part.contains(form)
  || (isField(document.activeElement) && part.contains(document.activeElement) && document.activeElement.type !== 'checkbox')
  || [...part.querySelectorAll('input:not([type=checkbox])')].some(isChanged);
const nameOf = (part, index, parts) => {
  const name = part.getAttribute('aria-labelledby') ?? part.className;
  return name + ' ' + parts.slice(0, index).filter((other) => (other.getAttribute('aria-labelledby') ?? other.className) === name).length;
};

// What has the focus, told so that it is found in another page: a button by its form, a link by where it leads, a box by its name.
function focused() {
  const part = document.activeElement;
  const of = part?.closest('form')?.getAttribute('action');
  return { of, act: part?.value, link: part?.getAttribute('href'), box: part?.getAttribute('aria-label'), isOpen: part?.matches('summary'),
    isOfMany: part?.closest('.chosen') !== null, top: part?.getBoundingClientRect().top };
}

function focus({ of, act, link, box, isOpen, isOfMany, top }) {
  const buttons = of ? [...main.querySelectorAll('form[action=\"' + CSS.escape(of) + '\"] button')] : [];
  const alike = (name, value) => value ? [...main.querySelectorAll('[' + name + ']')].find((part) => part.getAttribute(name) === value) : null;
  const part = buttons.find((button) => button.value === act) ?? buttons[0] ?? alike('href', link) ?? alike('aria-label', box)
    ?? (isOpen ? main.querySelector('summary') : null) ?? (isOfMany ? main.querySelector('.chosen button:enabled') : null)
    ?? (isOfMany || box || of?.match(/[/][0-9]+$/) ? document.getElementById('waiting') : null);
  if (!part) return;
  if (!part.matches('a, button, summary')) part.tabIndex = -1;
  part.focus({ preventScroll: true });
  if (top !== undefined) window.scrollBy(0, part.getBoundingClientRect().top - top);
}

function show(page) {
  const parts = [...main.children].filter((part) => !part.matches('.note'));
  const old = new Map(parts.map((part, index) => [nameOf(part, index, parts), part]));
  const came = [...page.getElementById('main').children].filter((part) => !part.matches('.note'));
  const was = focused(), isHere = main.contains(document.activeElement);
  let last = null;
  came.forEach((part, index) => {
    const name = nameOf(part, index, came), before = old.get(name);
    old.delete(name);
    if (before && isInUse(before)) { last = before; return; }
    const mine = document.adoptNode(part);
    putTimes(mine);
    mine.querySelectorAll('details').forEach((box, place) => { box.open = before?.querySelectorAll('details')[place]?.open ?? false; });
    if (before) before.replaceWith(mine); else if (last) last.after(mine); else main.prepend(mine);
    last = mine;
  });
  old.forEach((part) => { if (!isInUse(part)) part.remove(); });
  choose();
  drawChart();
  pointToForm();
  if (isHere && !main.contains(document.activeElement)) focus(was);
}

// ---- the page loads itself anew, as it would without a script

const again = (page) => page.querySelector('noscript.again');
const isAtWork = () => document.hidden || form?.classList.contains('busy') || main.querySelector('input:checked') !== null;
let next = again(document), timer = null, turn = 0;

function wait() {
  clearTimeout(timer);
  const seconds = /content=\"([0-9]+)/.exec(next?.textContent ?? '');
  if (seconds) timer = setTimeout(load, 1000 * seconds[1]);
}

// What was asked for before an act is older than what the act showed.
function goOn(page) {
  turn += 1;
  next = again(page);
  show(page);
  wait();
}

async function load() {
  const mine = turn;
  try {
    if (isAtWork()) return;
    const reply = await ask(location.pathname + (form ? '' : location.search), {});
    const page = read(await reply.text());
    if (!reply.ok || !page.getElementById('main')) throw new Error(reply.status);
    if (turn === mine && !isAtWork()) goOn(page);
  } catch (fault) {
    if (!main.querySelector('.stale')) main.append(make('p', { className: 'quiet stale', textContent: next.dataset.stale }));
  } finally { if (turn === mine) wait(); }
}

// ---- acts, where they are asked for

let isActing = false;

// Does each act, one behind the other, and gives what came of it: whether it was done, what was said, and the page.
async function doEach(acts) {
  const told = [];
  for (const [of, what] of acts) {
    try {
      const reply = await post(of, what), page = read(await reply.text());
      const isDone = reply.ok && new URL(reply.url).search.startsWith('?done=');
      told.push({ isDone, text: textOf(noteOf(page)) || form.dataset.broken, page: reply.ok ? page : null });
    } catch (fault) { told.push({ isDone: false, text: form.dataset.broken, page: null }); }
    if (!told.at(-1).page) break;
  }
  return told;
}

async function act(acts) {
  if (isActing) return;
  isActing = true;
  const told = await doEach(acts);
  isActing = false;
  main.querySelectorAll('input:checked').forEach((box) => { box.checked = false; });
  const last = told.findLast((one) => one.page);
  if (last) goOn(last.page);
  const done = told.filter((one) => one.isDone), refused = told.filter((one) => !one.isDone).map((one) => one.text);
  tell(acts.length > 1 ? [form.dataset.done + ' ' + done.length + '.', ...refused] : told.map((one) => one.text), refused.length === 0);
}

document.addEventListener('submit', (event) => {
  if (!event.target.closest('.acts') || !event.submitter?.value) return;
  event.preventDefault();
  act([[event.target, event.submitter.value]]);
});

// ---- several jobs at once

function choose() {
  const card = main.querySelector('[aria-labelledby=waiting]');
  if (!card || !form) return;
  const rows = [...card.querySelectorAll('tbody tr')].filter((row) => row.querySelector('.acts button'));
  if (rows.length < 2 || card.querySelector('.chosen')) return;
  const bar = make('p', { className: 'chosen' });
  const count = make('span', {});
  const boxes = rows.map((row) => {
    const box = make('input', { type: 'checkbox' });
    box.setAttribute('aria-label', form.dataset.choose + ' ' + row.querySelector('.number').textContent.trim());
    row.querySelector('.number').prepend(box);
    return box;
  });
  const all = make('button', { type: 'button', textContent: form.dataset.all });
  const formsWith = (what) => rows.filter((row, place) => boxes[place].checked && row.querySelector('button[value=' + what + ']'))
    .map((row) => [row.querySelector('.acts form'), what]);
  const release = make('button', { type: 'button' }), cancel = make('button', { type: 'button' });
  let isSure = false;
  const look = () => {
    count.textContent = form.dataset.chosen + ' ' + boxes.filter((box) => box.checked).length;
    release.textContent = form.dataset.release;
    release.disabled = formsWith('release').length === 0;
    cancel.textContent = isSure ? form.dataset.sure + ' ' + formsWith('cancel').length : form.dataset.cancel;
    cancel.disabled = formsWith('cancel').length === 0;
  };
  const doubt = () => { isSure = false; look(); };
  release.addEventListener('click', () => act(formsWith('release')));
  // What is canceled does not come back: it is asked for twice.
  cancel.addEventListener('click', () => {
    if (isSure) { act(formsWith('cancel')); return; }
    isSure = true;
    look();
  });
  cancel.addEventListener('blur', doubt);
  all.addEventListener('click', () => {
    const checks = boxes.some((box) => !box.checked);
    boxes.forEach((box) => { box.checked = checks; });
    doubt();
  });
  boxes.forEach((box) => box.addEventListener('change', doubt));
  bar.append(all, release, cancel, count);
  card.querySelector('header').append(bar);
  look();
}

// ---- the form to print

// Leads from the head of the page to the form, which stands below all that waits.
function pointToForm() {
  const head = document.getElementById('hand-in'), title = main.querySelector('.title');
  if (form && !title.querySelector('[href=\"#hand-in\"]')) title.append(make('a', { href: '#hand-in', textContent: head.textContent }));
}

// At which field a refusal is said, by its word or its status.
const FIELDS = { 'password-too-long': 'password', 'job-name-too-long': 'file', 'document-format': 'file', 'document-too-large': 'file', template: 'copies',
  413: 'file', 415: 'file' };

// Says at a field what is wrong with it, or with no text that nothing is.
function complain(field, text) {
  const place = field.closest('div');
  let wrong = place.querySelector('.wrong');
  if (!wrong) {
    wrong = make('small', { className: 'wrong', id: field.id + '-wrong' });
    place.append(wrong);
    field.setAttribute('aria-describedby', ((field.getAttribute('aria-describedby') ?? '') + ' ' + wrong.id).trim());
  }
  wrong.textContent = text;
  field.setAttribute('aria-invalid', text !== '');
}

const isCount = (text, most) => /^[0-9]{1,8}$/.test(text) && Number(text) >= 1 && Number(text) <= most;
const isText = (bytes) => bytes.every((byte) => byte > 31 ? byte !== 127 : [9, 10, 12, 13].includes(byte));
const isKnown = (bytes) => isText(bytes) || BEGINNINGS.some((start) => start.every((byte, place) => bytes[place] === byte));

// What is wrong with the fields, each with the text that says so: what the server would refuse.
async function wrongs() {
  const { file, copies, pages, password } = form.elements, data = form.dataset, found = [];
  const given = file.files[0];
  if (!given || given.size === 0) found.push([file, data.empty]);
  else if (given.size > LONGEST) found.push([file, data.large]);
  else if (bytesOf(given.name) > LONGEST_NAME) found.push([file, data.name]);
  else if (!isKnown(new Uint8Array(await given.slice(0, LOOKED_AT).arrayBuffer()))) found.push([file, data.kind]);
  if (!isCount(copies.value, MOST_COPIES)) found.push([copies, data.copies]);
  if (pages.value !== '' && !isCount(pages.value, 99999999)) found.push([pages, data.pages]);
  if (bytesOf(password.value) > LONGEST_PASSWORD) found.push([password, data.password]);
  else if (password.required && password.value === '') found.push([password, data.duty]);
  return found;
}

// Sends the file. Gives what was refused at a field, and says all else.
async function handIn() {
  const found = await wrongs();
  if (found.length) return found;
  const file = form.elements.file.files[0];
  const query = new URLSearchParams({ name: file.name });
  for (const field of ['copies', 'pages']) query.set(field, form.elements[field].value);
  const secret = encodeURIComponent(form.elements.password.value);
  const headers = { 'Content-Type': 'application/octet-stream', 'Job-Password': secret };
  say(form.dataset.sending);
  const reply = await ask(form.getAttribute('action') + '?' + query, { method: 'POST', body: file, headers });
  const came = new URL(reply.url).searchParams, page = read(await reply.text());
  const said = textOf(noteOf(page)) || form.dataset.refused;
  say('');
  if (reply.ok && came.get('done') === 'print') {
    form.reset();
    goOn(page);
    tell([said], true);
    lead(document.getElementById('job-' + came.get('job')));
    return [];
  }
  const field = form.elements[FIELDS[came.get('why')] ?? FIELDS[reply.status]];
  if (field) return [[field, said]];
  say(said);
  return [];
}

// Leads to the row of a job that came. Its name has the focus, and no button, which would be pressed by mistake.
function lead(name) {
  if (!name) return;
  name.tabIndex = -1;
  name.focus({ preventScroll: true });
  name.scrollIntoView({ block: 'center' });
}

function say(text) { document.getElementById('sent').textContent = text; }

if (form) {
  form.noValidate = true;
  form.querySelector('button').disabled = false;
  form.addEventListener('input', (event) => complain(event.target, ''));
  form.addEventListener('submit', async (event) => {
    event.preventDefault();
    if (form.classList.contains('busy')) return;
    form.classList.add('busy');
    try {
      const found = await handIn();
      found.forEach(([field, text]) => complain(field, text));
      found[0]?.[0].focus();
    } catch (fault) { say(form.dataset.broken); }
    form.classList.remove('busy');
  });
}
// What came of an act stays in view until somebody does the next thing.
for (const does of ['pointerdown', 'keydown']) {
  document.addEventListener(does, () => { main.querySelector('.note')?.classList.add('seen'); }, true);
}
// A page that was loaded behind an act says what came of it above.
setTimeout(() => { aloud.textContent = textOf(main.querySelector('.note')); }, 100);
document.addEventListener('visibilitychange', () => { if (!document.hidden && next) load(); });
putTimes(main);
choose();
drawChart();
pointToForm();
wait();
";
