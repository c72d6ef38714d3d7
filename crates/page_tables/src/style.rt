// Made by conformance/page_style.py.

/// The style sheet of pages: view.css, which ends in a line feed.
pub const STYLE: &str =
    r#":root{color-scheme:light dark;--ink:#1b1f24;--soft:#647082;--rule:#dce1e8;--back:#fff;--warn:#b42318}
@media (prefers-color-scheme:dark){:root{--ink:#e7eaee;--soft:#99a4b3;--rule:#343b45;--back:#15181c;--warn:#ff8a7a}}
*{box-sizing:border-box;margin:0;padding:0}
body{max-width:62rem;margin:0 auto;padding:3rem 2rem;background:var(--back);color:var(--ink);font:1rem/1.5 system-ui,-apple-system,"Segoe UI",Roboto,"Helvetica Neue",Arial,sans-serif;overflow-wrap:anywhere}
bdi{white-space:pre-line}
.n *,[title*=" date"]{white-space:nowrap}
header{display:flex;flex-wrap:wrap;justify-content:space-between;align-items:flex-end;gap:1rem 2rem;padding-bottom:1.5rem;border-bottom:2px solid}
h1,header b{font-size:1.9em;line-height:1.2;font-weight:300}
h1 bdi,header b,.name{font-weight:650}
header p{color:var(--soft);text-align:right}
header b{display:block;color:var(--ink);font-variant-numeric:tabular-nums}
section{margin-top:2.25rem}
h2{margin-bottom:.5rem;font-size:.8em;font-weight:600;letter-spacing:.06em;text-transform:uppercase}
h2,dt,i,th,footer,[title*="scheme of"],[title*="reason code"],[title*="subject code"]{color:var(--soft)}
i{font-style:normal}
dl{display:grid;grid-template-columns:11rem 1fr;gap:0 1rem;font-size:.9em}
p+dl{margin-top:.5rem}
.facts,.side{display:grid;grid-template-columns:repeat(auto-fill,minmax(12.5rem,1fr));gap:1rem 2rem}
.side{grid-template-columns:repeat(auto-fit,minmax(min(100%,22rem),1fr));gap:0 3rem;align-items:start}
.facts{margin-top:1.5rem}
.side dl{grid-template-columns:9.5rem 1fr}
.facts dl{display:block;font-size:1em}
.facts dt,.side td,td p,th,footer{font-size:.9em}
.side td p,td .name,.n p:first-child{font-size:1em}
td dl{display:inline-block;margin:0 1.25rem 0 0}
td dt,td dd{display:inline}
td dd{margin-left:.4em}
table{width:100%;border-collapse:collapse}
th,td{padding:.55rem 0 .55rem 1.25rem;text-align:left;vertical-align:baseline;border-bottom:1px solid var(--rule)}
th{padding-top:0;font-weight:400;white-space:nowrap;border-color:var(--soft)}
th:first-child,td:first-child{padding-left:0}
.n,.sums dd,.differ dd{text-align:right;white-space:nowrap;font-variant-numeric:tabular-nums}
.lines,.extras,.tax{overflow-x:auto}
.lines th:nth-child(2){width:50%}
.sums dl,.differ dl{grid-template-columns:1fr auto;padding:.2rem 0}
.sums dl:last-child{margin-top:.4rem;padding-top:.6rem;border-top:2px solid;font-size:1.15em;font-weight:650}
.sums dl:last-child dt{color:inherit}
.differ{padding-left:1rem;border-left:3px solid var(--warn)}
.differ h2{color:var(--warn)}
a{color:inherit}
footer{margin-top:3rem;padding-top:1rem;border-top:1px solid var(--rule)}
@media (max-width:44rem){
body{padding:1.5rem 1.1rem}
header p{text-align:left}
.facts{grid-template-columns:1fr 1fr}
dl,.side dl{grid-template-columns:8.5rem 1fr}
.tax th{white-space:normal;vertical-align:bottom}
.tax th,.tax td{padding-left:.6rem}
.tax th:first-child,.tax td:first-child{padding-left:0}
.lines thead,.extras thead{display:none}
.lines tr,.extras tr{display:flex;flex-wrap:wrap;gap:.2rem .8rem;padding:.7rem 0;border-bottom:1px solid var(--rule)}
.lines td,.extras td{padding:0;border:0}
td:empty{display:none}
.lines td:nth-child(2){flex:1 1 80%}
.n p{display:inline}
.lines td:nth-child(4):before{content:"× "}
.lines td:nth-child(5):before,.extras td:nth-child(4):before{content:"VAT "}
.lines td:last-child,.extras td:last-child{margin-left:auto;font-weight:650}
}
@media print{
:root{--ink:#000;--soft:#555;--rule:#ccc;--back:#fff}
@page{margin:16mm}
html{font-size:9.5pt}
body{max-width:none;padding:0}
section{margin-top:1.75rem}
tr,.side section,.differ{break-inside:avoid}
h2{break-after:avoid}
}
"#;
