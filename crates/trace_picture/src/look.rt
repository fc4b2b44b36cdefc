//! The looks of a page, and its script.

/// The head of a page, up to its end: the picture's pane above, the steps' below, each scrolled by itself.
pub const LOOK: &str = "<!DOCTYPE html>
<html lang='en'>
<head>
<meta charset='utf-8'>
<meta name='viewport' content='width=device-width'>
<title>A run, drawn by usbtrace</title>
<style>
:root { color-scheme: light dark; }
html, body { height: 100%; margin: 0; }
body { display: flex; flex-direction: column; background: #ffffff; color: #222a33; }
#picture { flex: 0 1 auto; min-height: 30%; overflow: auto; border-bottom: 1px solid #c8cfd8; }
#picture svg { display: block; margin: 0 auto; }
#steps { flex: 1 1 30%; min-height: 30%; overflow: auto; }
table { border-collapse: collapse; margin: 0 auto; font: 13px/1.6 ui-monospace, 'DejaVu Sans Mono', Consolas, monospace; }
th { position: sticky; top: 0; padding: 6px 14px; background: #ffffff; color: #6d7886; font-weight: normal; text-align: left; }
td { padding: 0 14px; vertical-align: top; overflow-wrap: anywhere; }
td:first-child, th:first-child { text-align: right; color: #6d7886; }
td:nth-child(2) { min-width: 16em; max-width: 40em; }
td:nth-child(3) { min-width: 16em; max-width: 50em; }
tr { outline: none; scroll-margin: 34px 0 12px; }
tr.lit { background: #dfeaf6; }
.step { cursor: default; }
@media (prefers-color-scheme: dark) {
body, th { background: #14181d; color: #d5dce5; }
#picture { border-color: #39424d; }
th, td:first-child, th:first-child { color: #8d99a8; }
tr.lit { background: #23364b; }
}
@media print {
html, body { height: auto; }
body { display: block; }
#picture, #steps { overflow: visible; }
}
</style>
";

/// The script of a page, and its end: a line and the marks of its step light one another, and either brings the other into view. The keys up
/// and down go from line to line.
pub const SCRIPT: &str = "<script>
'use strict';
let lit = '';
const parts = (number) => ['b', 's', 'l'].map((kind) => document.getElementById(kind + number));
function light(number) {
  for (const part of parts(lit)) part?.classList.remove('lit');
  for (const part of parts(number)) part?.classList.add('lit');
  lit = number;
}
function follow(event) {
  const place = event.target.closest?.('.band, .step, tbody tr');
  if (!place || place.id.slice(1) === lit) return;
  const number = place.id.slice(1);
  light(number);
  const other = place.id[0] === 'l' ? 'b' : 'l';
  document.getElementById(other + number).scrollIntoView({ block: 'nearest', inline: 'nearest' });
}
function move(event) {
  const line = document.activeElement.closest('tbody tr');
  const next = { ArrowDown: line?.nextElementSibling, ArrowUp: line?.previousElementSibling }[event.key];
  if (!next) return;
  event.preventDefault();
  next.focus();
}
document.addEventListener('pointerover', follow);
document.addEventListener('focusin', follow);
document.addEventListener('keydown', move);
</script>
</body>
</html>
";
