//! The script that the pages of the desk fetch behind `PAGE_SCRIPT`, whose words it uses. All of the
//! desk works without it, but for granting by a file.

/// The script of the desk's pages. The form of a file has its texts.
pub const DESK_SCRIPT: &str =
    "// What a page of the desk does beyond showing: it sends a form where it stands, and grants what a file says, a form for each record.
'use strict';
{
const MOST_ROWS = 100000, COLUMNS = ['account', 'month', 'units'];

// Sends the values of a form, and gives whether it was done, and what was said. What is no page of the desk throws.
async function send(values) {
  const reply = await ask('/line.html', { method: 'POST', body: values }), page = read(await reply.text()), card = page.querySelector('.sheet');
  if (!card) throw new Error(reply.status);
  const texts = [...card.querySelectorAll('h1, p:not(.quiet):not(:has(a))')].map((part) => part.textContent.trim());
  return { isDone: reply.ok && card.matches('.good'), isRefusal: !reply.ok, texts };
}

// By which month units are given back next.
const monthBack = (page) => page.querySelector('[aria-labelledby=give-back] input[name=month]');

// The page as it is now, in the place of what is here. A form in which somebody types stays, but for that month.
async function showAnew() {
  const reply = await ask(location.pathname + location.search, {});
  const page = read(await reply.text());
  if (!reply.ok || !page.getElementById('main')) return;
  const month = monthBack(page)?.value;
  goOn(page);
  if (month && monthBack(document)) monthBack(document).value = month;
}

let isSending = false;

// Before the script of all pages, which knows the forms of an owner.
document.addEventListener('submit', async (event) => {
  const form = event.target;
  if (!form.matches('[data-line], #file-form')) return;
  event.stopImmediatePropagation();
  event.preventDefault();
  if (isSending) return;
  if (form.id === 'file-form') { grantFile(form); return; }
  isSending = true;
  try {
    const told = await send(new URLSearchParams(new FormData(form, event.submitter)));
    if (told.isDone) form.reset();
    await showAnew();
    tell([told.isDone ? told.texts.slice(1).join(' ') : told.texts.join(': ')], told.isDone);
  } catch (fault) { tell([document.getElementById('desk').dataset.broken], false); }
  isSending = false;
}, true);

// ---- a file of grants

// The records of a text, each with the number of its line: fields between commas, semicolons or tabs, in quotes or not (RFC 4180).
function recordsOf(text) {
  const mark = [',', ';', '\\t'].find((one) => text.split(/\\r?\\n/).some((line) => line.split(one).length >= 3)) ?? ',';
  const records = [];
  let fields = [''], line = 1, begun = 1, isQuoted = false;
  const end = () => {
    const trimmed = fields.map((field) => field.trim());
    if (trimmed.some((field) => field)) records.push([begun, trimmed]);
    fields = [''];
  };
  for (let place = 0; place < text.length; place += 1) {
    const letter = text[place];
    if (letter === '\\n') line += 1;
    if (letter === '\"' && isQuoted && text[place + 1] === '\"') { fields[fields.length - 1] += '\"'; place += 1; }
    else if (letter === '\"') isQuoted = !isQuoted;
    else if (isQuoted) fields[fields.length - 1] += letter;
    else if (letter === mark) fields.push('');
    else if (letter === '\\n') { end(); begun = line; }
    else fields[fields.length - 1] += letter;
  }
  end();
  const head = records[0]?.[1].map((field) => field.toLowerCase());
  return head && head[0] === 'account' && head[1] === 'month' ? records.slice(1) : records;
}

const isWord = (field) => /^[!-~]+$/.test(field);

// A row for each record, with what it came to.
function tableFor(data) {
  const table = make('table', { className: 'dense' }), body = make('tbody', {}), head = make('tr', {});
  for (const text of [data.row, data.line, data.came]) head.append(make('th', { scope: 'col', textContent: text }));
  const top = make('thead', {});
  top.append(head);
  table.append(top, body);
  return [table, (number, fields, text) => {
    const row = make('tr', {});
    row.append(make('td', { textContent: number }), make('td', { textContent: fields.join(' ') }), make('td', { textContent: text }));
    body.append(row);
  }];
}

// Sends each record, one behind the other, and tells what it came to.
async function grantAll(form, say) {
  const data = form.dataset, given = form.querySelector('input').files[0];
  const records = given ? recordsOf(await given.text()) : [];
  if (records.length === 0 || records.length > MOST_ROWS) { say(data.empty); return; }
  form.parentElement.querySelector('table')?.remove();
  const [table, add] = tableFor(data);
  form.after(table);
  let done = 0, at = 0;
  for (const [number, fields] of records) {
    at += 1;
    if (at % 10 === 1) say(data.sending + ' ' + at + ' / ' + records.length);
    if (fields.length !== 3 || !fields.every(isWord)) { add(number, fields, data.bad); continue; }
    const values = new URLSearchParams({ act: 'grant' });
    fields.forEach((field, place) => values.set(COLUMNS[place], field));
    try {
      const told = await send(values);
      done += told.isDone ? 1 : 0;
      add(number, fields, told.texts.slice(told.isRefusal ? 0 : 1).join(' '));
      if (told.isRefusal) break;
    } catch (fault) { add(number, fields, data.broken); break; }
  }
  say(data.done + ' ' + done + ' / ' + records.length);
}

// The form may have come anew, with the page.
function enable() {
  const button = document.querySelector('#file-form button');
  if (button) button.disabled = isSending;
}

async function grantFile(form) {
  isSending = true;
  enable();
  await grantAll(form, (text) => { form.querySelector('#sent').textContent = text; });
  isSending = false;
  enable();
}

new MutationObserver(enable).observe(main, { childList: true, subtree: true });
enable();
}
";
