//! The style sheet that pages fetch, and the policy of what a browser may load for them.

/// The style sheet of all pages, `/style.css`.
pub const STYLE_SHEET: &str =
    "/* The pages' one style sheet: light and dark, a telephone, paper. Nothing comes from elsewhere. */
:root{color-scheme:light dark;
--ground:#f5f5f0;--card:#fff;--rule:#dddfd6;--edge:#767f78;--ink:#161f1a;--quiet:#4d5851;
--juniper:#17594a;--deep:#0e4236;--on:#fff;--soft:#5a9a89;--rest:#e5e8e1;
--serif:Charter,'Bitstream Charter',Georgia,'Noto Serif','DejaVu Serif',serif;
--sans:system-ui,-apple-system,'Segoe UI',Roboto,'Noto Sans','Liberation Sans',sans-serif}
@media (prefers-color-scheme:dark){:root{
--ground:#0f1412;--card:#181f1c;--rule:#323b37;--edge:#7f8b85;--ink:#e8eeea;--quiet:#a9b5af;
--juniper:#82d2b8;--deep:#a8e4d0;--on:#0a1d17;--soft:#457a6c;--rest:#29322e}}
*{box-sizing:border-box}
html{text-size-adjust:100%;-webkit-text-size-adjust:100%}
body{margin:0;background:var(--ground);color:var(--ink);font:1rem/1.5 var(--sans)}
h1,h2,p,dl,dd,ul,figure{margin:0}
h1,h2,.brand,.big{font-family:var(--serif);font-weight:700;line-height:1.2}
h1{font-size:1.875rem;overflow-wrap:anywhere}
h2{font-size:1.25rem}
a{color:var(--juniper);text-underline-offset:.16em}
a:hover{color:var(--deep);text-decoration-thickness:2px}
:focus-visible{outline:3px solid var(--juniper);outline-offset:2px;border-radius:4px}
small,.quiet{font-size:.8125rem;line-height:1.45;color:var(--quiet)}
code{font:.9375em ui-monospace,Menlo,Consolas,'DejaVu Sans Mono',monospace;overflow-wrap:anywhere}
bdi{overflow-wrap:anywhere}
/* a long name is cut behind four lines, but not on paper */
.jobs bdi{display:-webkit-box;-webkit-box-orient:vertical;-webkit-line-clamp:4;overflow:hidden;text-align:left}
.unseen{position:absolute;width:1px;height:1px;overflow:hidden;clip-path:inset(50%);white-space:nowrap}
.skip{position:absolute;left:-99em;z-index:1;padding:.5rem 1rem;background:var(--card)}
.skip:focus{left:1rem;top:.5rem}
.sign{flex:none;width:1.0625em;height:1.0625em;fill:none;stroke:currentColor;stroke-width:1.75;
stroke-linecap:round;stroke-linejoin:round}
/* the frame */
.banner{background:var(--card);border-top:4px solid var(--juniper);border-bottom:1px solid var(--rule)}
.banner>div,main,.foot{max-width:74rem;margin:0 auto;padding-inline:1.5rem}
.banner>div{display:flex;flex-wrap:wrap;align-items:center;gap:.25rem 1.5rem;padding-block:.75rem}
.brand{display:flex;align-items:center;gap:.5rem;font-size:1.25rem}
.brand .sign{width:1.625rem;height:1.625rem;color:var(--juniper);stroke-width:1.5}
.banner .quiet{margin-left:auto;font-size:1rem}
main{display:grid;grid-template-columns:minmax(0,1fr);gap:1.5rem;padding-block:2rem}
.title{display:flex;flex-wrap:wrap;align-items:end;justify-content:space-between;gap:1rem 1.5rem}
.card{min-width:0;padding:1.5rem;background:var(--card);border:1px solid var(--rule);border-radius:10px}
.card>header{display:flex;flex-wrap:wrap;align-items:baseline;justify-content:space-between;
gap:.25rem 1.5rem;margin-bottom:1rem}
.card>h1~p{max-width:46rem;margin-top:.75rem;text-wrap:pretty}
.pair{display:grid;grid-template-columns:repeat(auto-fit,minmax(min(100%,27rem),1fr));gap:1.5rem}
.foot{padding-bottom:3rem}
.foot p{max-width:48rem}
.foot a{white-space:nowrap}
/* what came of an act */
.note{display:flex;gap:.75rem;padding:1rem 1.5rem;background:var(--card);border:2px solid var(--ink);
border-radius:10px}
.note .sign{width:1.5rem;height:1.5rem}
.note p{max-width:46rem}
/* it is seen from the row that it is of */
.note:not(.seen){position:sticky;top:.5rem;z-index:1;max-height:50vh;overflow:auto}
tr:has(>:target),tr:has(>th:focus){background:var(--rest)}
.good{border-color:var(--juniper)}
.good .sign{color:var(--juniper)}
/* what is left */
.balance{display:grid;grid-template-columns:fit-content(20rem) minmax(0,1fr);gap:1rem 3rem;align-items:center}
.big{font-size:3rem;line-height:1.1;overflow-wrap:anywhere;font-variant-numeric:tabular-nums}
/* each part stands out 3 to 1 from the next, and from the card */
.bar{display:block;width:100%;height:1.125rem;border:1px solid var(--edge);border-radius:5px;background:var(--card)}
.charged{fill:var(--deep)}
.reserved{fill:var(--soft)}
.facts{display:flex;flex-wrap:wrap;gap:.5rem 2rem;margin-top:.875rem}
.facts>div{display:flex;align-items:baseline;gap:.5rem}
dt{font-size:.8125rem;color:var(--quiet)}
dd{font-weight:600;font-variant-numeric:tabular-nums;overflow-wrap:anywhere}
.key::before{content:'';display:inline-block;width:.75rem;height:.75rem;margin-right:.4375rem;
border:1px solid var(--edge);border-radius:3px;background:var(--card);vertical-align:-1px}
.key-charged::before{background:var(--deep);border-color:var(--deep)}
.key-reserved::before{background:var(--soft);border-color:var(--soft)}
.tiles{display:grid;grid-template-columns:repeat(auto-fit,minmax(9rem,1fr));gap:1.5rem}
/* the numbers of a row stand on one line */
.tiles>div{display:flex;flex-direction:column;justify-content:space-between;gap:.375rem}
.tiles dd{font:700 1.875rem/1.2 var(--serif)}
.devices{display:grid;grid-template-columns:repeat(auto-fill,minmax(min(100%,15rem),1fr));gap:.75rem;
padding:0;list-style:none}
.devices li{display:flex;flex-wrap:wrap;align-items:center;justify-content:space-between;gap:.25rem 1rem;
padding:.75rem 1rem;border:1px solid var(--rule);border-radius:8px}
.devices b{width:100%;overflow-wrap:anywhere}
.devices .off{border-style:dashed;border-color:var(--edge)}
/* tables */
table{width:100%;border-collapse:collapse}
th{padding:0 .5rem .5rem;font-size:.8125rem;font-weight:600;color:var(--quiet);text-align:left;
vertical-align:bottom;border-bottom:1px solid var(--edge)}
td,tbody th{padding:.875rem .5rem;vertical-align:top;border-bottom:1px solid var(--rule)}
tbody th{font-size:1rem;color:var(--ink);overflow-wrap:anywhere}
tr>:first-child{padding-left:0}
tr>:last-child{padding-right:0}
tbody tr:last-child>*{border-bottom:0}
.count{text-align:right}
.count,.when,.number{font-variant-numeric:tabular-nums}
.when{white-space:nowrap}
td{overflow-wrap:anywhere}
td.count{min-width:3.25rem;overflow-wrap:normal}
td.count small{overflow-wrap:anywhere}
.dense td.count{min-width:5rem}
.jobs:not(.dense) :is(td,th):nth-child(4){min-width:5.75rem}
.jobs:not(.dense) :is(td,th):nth-child(5){min-width:5.75rem}
.state{white-space:nowrap}
.number{width:3.75rem}
td.number{font-size:.8125rem;line-height:1.5rem;color:var(--quiet)}
.state{display:inline-flex;align-items:center;gap:.5rem;font-weight:600}
td small,th small{display:block;font-weight:400;text-wrap:pretty}
.jobs:not(.dense) th[scope=row]{min-width:9.5rem}
.jobs:not(.dense) :is(td,th):nth-child(9){min-width:5.5rem}
.jobs:not(.dense) :is(td,th):nth-child(3){min-width:10.5rem}
.jobs .acts{overflow-wrap:normal}
.acts button{padding-inline:.875rem}
td.acts{padding-block:.5625rem}
.acts form{display:flex;flex-wrap:wrap;gap:.5rem;justify-content:flex-end}
.dense td,.dense tbody th{padding-block:.5rem}
.dense td .bar{height:.5rem;margin-block:.5rem;min-width:6rem}
.sum th{font-weight:400}
.sum tfoot th{font-weight:700}
tfoot th,tfoot td{padding-block:.5rem;font-size:1rem;font-weight:700;color:var(--ink);border:0;
border-top:1px solid var(--edge)}
/* forms */
button{min-height:2.5rem;padding:.375rem 1rem;font:inherit;font-weight:600;color:var(--ink);
background:var(--card);border:1px solid var(--edge);border-radius:7px;cursor:pointer}
button:hover{color:var(--juniper);border-color:var(--juniper)}
.first{color:var(--on);background:var(--juniper);border-color:var(--juniper)}
.first:hover{color:var(--on);background:var(--deep);border-color:var(--deep)}
button:disabled{color:var(--quiet);background:var(--rest);border-color:var(--rule);cursor:default}
label{display:block;margin-bottom:.25rem;font-weight:600}
input{width:100%;min-height:2.75rem;padding:.5rem .75rem;font:inherit;color:inherit;
background:var(--card);border:1px solid var(--edge);border-radius:7px}
input[type=file]{padding:.3125rem}
::file-selector-button{min-height:2rem;margin-right:.75rem;padding:0 .75rem;font:inherit;
font-weight:600;color:var(--ink);background:var(--rest);border:1px solid var(--edge);border-radius:5px}
input[type=checkbox]{width:1.25rem;min-height:1.25rem;height:1.25rem;margin:0 .5rem 0 0;vertical-align:middle;accent-color:var(--juniper)}
[aria-invalid=true]{border:2px solid var(--ink)}
.wrong{font-weight:600;color:var(--ink)}
.chosen{display:flex;flex-wrap:wrap;align-items:center;gap:.5rem 1rem}
.fields{display:grid;grid-template-columns:repeat(3,minmax(0,1fr));gap:1.5rem}
.fields small{display:block;margin-top:.25rem}
.wide{grid-column:1/-1}
.fields~p,noscript p{margin-top:1rem}
.find{display:flex;gap:.5rem;align-items:end}
.find button{min-height:2.75rem}
.pair .fields{grid-template-columns:repeat(2,minmax(0,1fr))}
.acts>div{display:flex;flex-wrap:wrap;gap:.5rem 1rem;justify-content:flex-end}
.acts .few{width:5rem;min-height:2.5rem}
.acts>div form{flex-wrap:nowrap}
code{overflow-wrap:anywhere}
summary{padding:.5rem 0;font-weight:600;color:var(--juniper);cursor:pointer}
/* the month */
.chart svg{display:block;width:100%;height:12rem;border-block:1px solid var(--edge);border-top:1px dashed var(--rule)}
/* the script's axis: numbers at their heights, and above a bar that is cut */
.chart{position:relative;isolation:isolate}
.chart:has(.scale){padding:1.75rem 0 0 4rem}
.chart .scale{position:absolute;z-index:-1;top:1.75rem;left:4rem;right:0;width:calc(100% - 4rem);border:0;overflow:visible;
pointer-events:none;font-size:.8125rem;fill:currentColor;color:var(--quiet);font-variant-numeric:tabular-nums}
.scale line{stroke:var(--rule)}
.gap{stroke:var(--card);stroke-width:30}
.tick{text-anchor:end;dominant-baseline:middle}
.cut{text-anchor:middle;font-weight:600}
.chart figcaption{display:flex;justify-content:space-between;margin-top:.25rem}
.days{columns:13rem;column-gap:2rem}
.pager{display:flex;flex-wrap:wrap;gap:.5rem 1.5rem}
nav.pager{margin-top:1rem}
/* the zone of a time */
time small{white-space:nowrap}
.jobs.dense time small,.title time small{display:inline}
/* a narrow window: each row is a card */
@media screen and (max-width:72em){
.jobs thead{position:absolute;width:1px;height:1px;overflow:hidden;clip-path:inset(50%)}
.jobs,.jobs tbody{display:block}
.jobs tr{display:grid;grid-template-columns:repeat(3,minmax(0,1fr));gap:.5rem .75rem;
padding:1rem 0;border-bottom:1px solid var(--rule)}
.jobs tr:first-child{padding-top:0}
.jobs tr:last-child{padding-bottom:0;border:0}
.jobs.jobs tr>*{width:auto;min-width:0;padding:0;border:0;grid-column:1/-1}
.jobs.jobs tr>.count{grid-column:auto;text-align:left}
.jobs tr>.number{margin-bottom:-.5rem}
.jobs [data-label]::before{content:attr(data-label) ' ';font-size:.8125rem;font-weight:400;color:var(--quiet)}
.jobs .count::before{display:block}
.jobs.dense tr{display:flex;flex-wrap:wrap;gap:.125rem 1.25rem}
.jobs.dense tr>:is(th,.number){flex-basis:100%}
.jobs.dense .count::before{display:inline}
.jobs .acts:not(:has(button)){display:none}
.jobs time small{display:inline}
}
@media screen and (min-width:36em) and (max-width:72em){
.jobs:not(.dense) tr{grid-template-columns:repeat(6,minmax(0,1fr))}
.jobs.jobs:not(.dense) tr>:is(th,:nth-child(3)){grid-column:span 3}
.jobs.jobs:not(.dense) tr>:nth-child(4){grid-column:auto}
.jobs.jobs:not(.dense) tr>.when{grid-column:span 2}
.jobs:not(.dense) td:not(.number)::before{display:block}
}
@media screen and (max-width:36em){
.banner>div,main,.foot{padding-inline:1rem}
main{gap:1rem;padding-block:1.5rem}
.card,.note{padding:1rem}
.pair{gap:1rem}
.tiles{gap:1rem}
.balance,.fields,.pair .fields{grid-template-columns:minmax(0,1fr)}
button{min-height:2.75rem}
.acts form>*{flex:1}
.fields button,.find{width:100%}
.find div{flex:1}
}
@media (forced-colors:active){
.bar,.key::before{forced-color-adjust:none;border-color:CanvasText}
.chart .charged{forced-color-adjust:none;fill:CanvasText}
.gap{stroke:Canvas}
}
/* paper */
.sheet{width:100%;max-width:56rem;margin-inline:auto}
.foot.sheet{max-width:59rem}
.sheet section{margin-top:2rem}
.sheet h2{margin-bottom:.5rem}
.sheet p.quiet{margin-bottom:.75rem}
@page{margin:18mm 16mm}
@media print{
:root{color-scheme:light;--ground:#fff;--card:#fff;--rule:#bbb;--edge:#444;--ink:#000;--quiet:#333;
--juniper:#000;--deep:#000;--soft:#888;--rest:#eee}
html{font-size:10pt}
.banner{border-top:0}
.banner>div,main,.foot{max-width:none;padding-inline:0}
main,.pair{display:block}
main>*,.pair>*{margin-bottom:1.5rem}
.card{padding:0;border:0;border-radius:0}
.sheet,.foot.sheet{max-width:none}
td,tbody th{padding-block:.5rem}
.foot{padding-bottom:0}
form,.acts,.skip,.note,.chosen,input,.screen,.foot a,.title>a,details:not([open]){display:none!important}
tr{break-inside:avoid}
.jobs bdi{-webkit-line-clamp:none}
h2{break-after:avoid}
a{color:inherit;text-decoration:none}
.bar,.chart svg,.key::before{print-color-adjust:exact;-webkit-print-color-adjust:exact}
}
";

/// What a browser may load and send for a page: its Content-Security-Policy. `connect-src` is for
/// the script.
pub const PAGE_POLICY: &str = "default-src 'none'; style-src 'self'; script-src 'self'; \
    img-src 'self' data:; connect-src 'self'; form-action 'self'; frame-ancestors 'none'";
