//! The parts of a page that are the same in each: its style, its legend and its script.

/// What stands before the drawing.
pub(crate) const BEGINNING: &str = r##"<!DOCTYPE html>
<html lang="en">
<head>
<meta charset="utf-8">
<meta name="viewport" content="width=device-width">
<title>A journal</title>
<style>
:root { color-scheme: light dark; --back: #ffffff; --front: #1b1b1b; --faint: #6a6a6a; --rule: #d8d8d8; --raised: #f3f3f3;
  --k0: #0072b2; --k1: #e69f00; --k2: #009e73; --k3: #cc79a7; --k4: #56b4e9; --k5: #d55e00; --k6: #b8a800; --k7: #7a7a7a; }
@media (prefers-color-scheme: dark) { :root { --back: #16181c; --front: #eceff2; --faint: #a3a9b0; --rule: #3a3f46; --raised: #22262c;
  --k0: #4aa3df; --k6: #f0e442; --k7: #b5b5b5; } }
body { margin: 1.2rem; background: var(--back); color: var(--front); font: 15px/1.45 system-ui, sans-serif; }
h1 { font-size: 1.35rem; margin: 0 0 .4rem; }
p { margin: .3rem 0; max-width: 75rem; }
.verdict { font-weight: 600; border-left: 5px solid var(--k2); padding-left: .6rem; }
p.broken { border-color: var(--k5); }
.table { display: inline-grid; grid-template-columns: repeat(8, auto); margin: .6rem 0; border-top: 1px solid var(--rule); }
.table span { padding: .15rem .8rem .15rem 0; border-bottom: 1px solid var(--rule); }
.number { text-align: right; font-variant-numeric: tabular-nums; }
.tools, .legend { display: flex; flex-wrap: wrap; gap: .4rem 1.1rem; align-items: center; margin: .5rem 0; color: var(--faint); font-size: .88rem; }
.tools { color: var(--front); }
.legend svg { width: 26px; height: 18px; vertical-align: middle; margin-right: .3rem; }
input, button { font: inherit; color: inherit; background: var(--raised); border: 1px solid var(--faint); border-radius: 4px; padding: .15rem .5rem; }
.frame { display: flex; overflow-x: auto; border: 1px solid var(--rule); }
.margin { position: sticky; left: 0; flex: none; background: var(--back); border-right: 1px solid var(--rule); z-index: 1; }
.canvas { flex: none; }
.overview { display: block; margin: .4rem 0; border: 1px solid var(--rule); }
svg text { font: 12px system-ui, sans-serif; fill: var(--front); }
.margin .head, .margin .lane { font-weight: 600; }
.margin .slot, text.tick { fill: var(--faint); }
path.tick { stroke: var(--rule); stroke-width: 1; fill: none; }
text.tick { font-size: 11px; }
.k0 { --own: var(--k0); } .k1 { --own: var(--k1); } .k2 { --own: var(--k2); } .k3 { --own: var(--k3); }
.k4 { --own: var(--k4); } .k5 { --own: var(--k5); } .k6 { --own: var(--k6); } .k7 { --own: var(--k7); } .none { --own: var(--faint); }
.bar, .run { fill: var(--own); fill-opacity: .38; stroke: var(--own); stroke-width: 1; }
.bar { cursor: pointer; rx: 2px; }
.run { stroke-opacity: .6; }
.call { fill: var(--back); stroke: var(--own); stroke-width: 2; }
.fault { fill: var(--k5); stroke: var(--back); stroke-width: .5; }
.lock { fill: var(--front); pointer-events: none; }
.displaced { fill: var(--k5); } .dependent { fill: var(--back); stroke: var(--front); stroke-width: 1.3; } .unloaded { fill: var(--front); }
.in { pointer-events: none; font-size: 11px; transform-box: fill-box; }
text.in { translate: 4px 0; }
.small { display: none; }
.level { fill: none; stroke: var(--front); stroke-width: 1.4; pointer-events: stroke; }
path.broken { fill: var(--k5); } text.broken { fill: var(--k5); font-weight: 700; translate: 8px 0; }
.loads { fill: var(--k0); } .steps { fill: var(--k1); } .shown { fill: var(--front); fill-opacity: .13; stroke: var(--front); }
.holding .bar:not(.held), .holding .run:not(.held), .holding .call:not(.held), .holding .end, .holding .in { opacity: .22; }
.held { stroke: var(--front); stroke-width: 2; fill-opacity: .75; }
.bar:focus { outline: none; stroke: var(--front); stroke-width: 3; }
.told { position: sticky; bottom: 0; min-height: 1.5em; margin: 0; padding: .4rem .6rem; background: var(--raised); border: 1px solid var(--rule); max-width: none; z-index: 2; }
.lives { margin: .4rem 0 0; padding-left: 1.4rem; }
</style>
</head>
<body>
<h1>A journal</h1>
"##;

/// What stands behind it.
pub(crate) const END: &str = r##"
<p class="told" role="status">Rest on a shape to be told what it is. A click on a bar holds all lives of its descriptor.</p>
<ol class="lives"></ol>
<div class="legend">
<span><svg><rect class="bar none" x="1" y="2" width="24" height="14"></rect></svg>a descriptor in a slot of its cache, from its load on</span>
<span><svg><rect class="lock" x="1" y="12" width="24" height="3"></rect></svg>locked</span>
<span><svg><path class="displaced" d="M16 1v16l-7-8z"></path></svg>displaced: its slot was wanted for another one</span>
<span><svg><path class="dependent" d="M9 5h6v8h-6z"></path></svg>left with what it depends on</span>
<span><svg><path class="unloaded" d="M12 1h3v16h-3z"></path></svg>unloaded by a call</span>
<span><svg><rect class="run none" x="4" y="1" width="16" height="16"></rect></svg>steps of a thread</span>
<span><svg><path class="call none" d="M7 9l5-5 5 5-5 5z"></path></svg>a completed call</span>
<span><svg><path class="fault" transform="translate(6 0)" d="M0 3l6 6-6 6 2 2 6-6 6 6 2-2-6-6 6-6-2-2-6 6-6-6z"></path></svg>a fault</span>
<span><svg><polyline class="level" points="1,16 8,16 8,9 16,9 16,4 25,4"></polyline></svg>how many are loaded</span>
</div>
<div class="legend owners">Colours are those of the kernel that owns it:
<span class="k0"><svg><rect class="bar" x="1" y="2" width="24" height="14"></rect></svg>0</span>
<span class="k1"><svg><rect class="bar" x="1" y="2" width="24" height="14"></rect></svg>1</span>
<span class="k2"><svg><rect class="bar" x="1" y="2" width="24" height="14"></rect></svg>2</span>
<span class="k3"><svg><rect class="bar" x="1" y="2" width="24" height="14"></rect></svg>3</span>
<span class="k4"><svg><rect class="bar" x="1" y="2" width="24" height="14"></rect></svg>4</span>
<span class="k5"><svg><rect class="bar" x="1" y="2" width="24" height="14"></rect></svg>5</span>
<span class="k6"><svg><rect class="bar" x="1" y="2" width="24" height="14"></rect></svg>6</span>
<span class="k7"><svg><rect class="bar" x="1" y="2" width="24" height="14"></rect></svg>7</span>
and so on from 8 on.</div>
<script>
'use strict';
(function () {
  const one = s => document.querySelector(s);
  const canvas = one('svg.canvas'), frame = one('.frame'), told = one('.told'), lives = one('.lives');
  const first = +canvas.dataset.from, last = +canvas.dataset.to, places = Math.max(1, last - first);
  const shapes = Array.from(canvas.querySelectorAll('[data-from]'));
  const lines = Array.from(canvas.querySelectorAll('polyline[data-counts]'));
  const bars = Array.from(canvas.querySelectorAll('.bar'));
  const pairs = text => (text || '').trim().split(' ').filter(Boolean).map(p => p.split(':').map(Number));

  // the steps before each place
  const steps = new Float64Array(places + 1);
  for (const [place, count] of pairs(canvas.dataset.counts)) steps[place - first + 1] += count;
  for (let i = 1; i <= places; i++) steps[i] += steps[i - 1];

  let unit = +canvas.dataset.step, bySteps = false;
  function x(place) {
    const i = Math.min(Math.max(place - first, 0), places);
    if (!bySteps || steps[places] === 0) return i * unit;
    const width = places * unit;
    return width * (0.25 * i / places + 0.75 * steps[i] / steps[places]);
  }
  function lay() {
    for (const s of shapes) {
      const left = x(+s.dataset.from);
      if (s.tagName === 'rect') {
        s.setAttribute('x', left);
        s.setAttribute('width', Math.max(x(+s.dataset.to) - left, 1));
      } else {
        s.setAttribute('transform', 'translate(' + left + ',' + s.dataset.y + ')');
        if (s.dataset.to) s.style.display = x(+s.dataset.to) - left < 6.3 * s.textContent.length + 5 ? 'none' : 'inline';
      }
    }
    let shown = -1e9;
    for (const s of canvas.querySelectorAll('text.tick')) {
      const at = x(+s.dataset.from), show = at - shown >= 34;
      if (show) shown = at;
      s.style.display = show ? '' : 'none';
      s.previousElementSibling.style.display = show ? '' : 'none';
    }
    for (const line of lines) {
      const bottom = +line.dataset.y, step = +line.dataset.step;
      let before = bottom, text = '';
      for (const [place, count] of pairs(line.dataset.counts)) {
        const at = x(place), here = bottom - count * step / 100;
        text += at + ',' + before + ' ' + at + ',' + here + ' ';
        before = here;
      }
      line.setAttribute('points', text + x(last) + ',' + before);
    }
    canvas.setAttribute('width', x(last) + 60);
  }

  // ---- words
  const words = s => { const t = s.querySelector && s.querySelector('title'); return t ? t.textContent : ''; };
  const idle = told.textContent;
  const tell = s => { told.textContent = words(s) || idle; };
  document.addEventListener('mouseover', e => { if (words(e.target)) tell(e.target); });

  // ---- holding
  function hold(found, name) {
    for (const s of canvas.querySelectorAll('.held')) s.classList.remove('held');
    lives.textContent = '';
    canvas.classList.toggle('holding', found.length > 0);
    for (const s of found) {
      s.classList.add('held');
      if (!s.classList.contains('bar')) continue;
      const item = document.createElement('li');
      item.textContent = words(s);
      lives.appendChild(item);
    }
    const count = lives.children.length;
    if (name) told.textContent = found.length ? name + ': ' + count + (count === 1 ? ' life' : ' lives') + ', below' : name + ' is not here';
  }
  const named = name => Array.from(canvas.querySelectorAll('[data-name="' + CSS.escape(name) + '"]'));
  const holdBar = bar => hold(named(bar.dataset.name), bar.dataset.name);
  canvas.addEventListener('click', e => {
    const bar = e.target.closest('.bar');
    if (bar) holdBar(bar); else { hold([]); told.textContent = idle; }
  });
  document.addEventListener('keydown', e => {
    if (e.key === 'Escape') { hold([]); told.textContent = idle; }
    if ((e.key === 'Enter' || e.key === ' ') && e.target.classList && e.target.classList.contains('bar')) { e.preventDefault(); holdBar(e.target); }
  });
  for (const bar of bars.slice(0, 2000)) {
    bar.setAttribute('tabindex', '0');
    bar.setAttribute('aria-label', words(bar));
    bar.addEventListener('focus', () => tell(bar));
  }

  // ---- tools
  const tools = document.createElement('div');
  tools.className = 'tools';
  const search = document.createElement('input');
  search.type = 'search'; search.placeholder = 'thread 0, row 700 16, T0.2';
  search.setAttribute('aria-label', 'search for a name or an identifier');
  search.addEventListener('keydown', e => {
    if (e.key !== 'Enter') return;
    const text = search.value.trim();
    const bar = bars.find(b => b.dataset.ident.toLowerCase() === text.toLowerCase());
    const name = bar ? bar.dataset.name : text.toLowerCase();
    const found = text ? named(name) : [];
    hold(found, text ? name : '');
    if (found.length) { const at = x(+found[found.length - 1].dataset.from); frame.scrollLeft = Math.max(0, at - 200); }
  });
  const button = (text, act) => { const b = document.createElement('button'); b.type = 'button'; b.textContent = text; b.addEventListener('click', () => act(b)); return b; };
  tools.append('Search ', search,
    button('time by steps', b => { bySteps = !bySteps; b.textContent = bySteps ? 'time by entries' : 'time by steps'; lay(); }),
    button('wider', () => { unit *= 1.5; lay(); }),
    button('narrower', () => { unit = Math.max(unit / 1.5, 0.02); lay(); }));
  frame.before(tools);
  for (const s of document.querySelectorAll('.owners span')) if (!canvas.querySelector('.' + s.className)) s.remove();
  lay();
})();
</script>
</body>
</html>
"##;
