//! The page's style.

/// The style, for light and dark, for the screen and for paper.
pub(crate) const STYLE: &str = ":root{color-scheme:light dark;
--ground:#f7f6f2;--card:#ffffff;--ink:#1c1e21;--muted:#5a5f68;--rule:#d8d5cc;--link:#174ea6;--line:#8b8f97;--arrow:#3d4451;
--alarm:#b3121d;--alarm-ground:#fde8e6;--warn:#7a4b00;--warn-ground:#fdf0d2;--good:#1c6234;--good-ground:#e2f3e6;
--init:#e4e2da;--send:#cfe1fb;--recv:#cdeed6;--timer:#fae7b5;--checkpoint:#e3d8f8;--other:#e9e9e9;--bare:#ffffff}
@media (prefers-color-scheme:dark){:root{
--ground:#15171a;--card:#1e2125;--ink:#eceae4;--muted:#a7abb3;--rule:#373b41;--link:#93bbff;--line:#7d828b;--arrow:#c3c8d0;
--alarm:#ff8a80;--alarm-ground:#43191a;--warn:#f5c668;--warn-ground:#3d2f10;--good:#8fd6a3;--good-ground:#173322;
--init:#3a3a36;--send:#1f3f6d;--recv:#1d4d2f;--timer:#5a4512;--checkpoint:#44336a;--other:#34373c;--bare:#1e2125}}
*{box-sizing:border-box}
body{margin:0;background:var(--ground);color:var(--ink);font:16px/1.5 system-ui,-apple-system,\"Segoe UI\",\"DejaVu Sans\",sans-serif}
header,main{max-width:82rem;margin:0 auto;padding:0 1.25rem}
header{padding-top:1.5rem}
h1{font-size:1.6rem;line-height:1.2;margin:0 0 .25rem}
h2{font-size:1.2rem;line-height:1.3;margin:0 0 .6rem;display:flex;flex-wrap:wrap;gap:.6rem;align-items:center}
.summary{margin:0 0 .9rem;color:var(--muted)}
.basis{display:grid;grid-template-columns:max-content 1fr;gap:.1rem .9rem;margin:0 0 .9rem;font-size:.85rem;color:var(--muted)}
.basis dd{margin:0;overflow-wrap:anywhere}
.lines{white-space:pre-wrap;overflow-wrap:anywhere;font-size:.75rem}
.fold>summary{font-size:1.05rem;margin:0 0 1rem}
@media (max-width:40rem){.basis{grid-template-columns:1fr}}
a{color:var(--link)}
a:focus-visible,.scroll:focus-visible,summary:focus-visible{outline:3px solid var(--link);outline-offset:2px}
section{background:var(--card);border:1px solid var(--rule);border-radius:8px;padding:1rem 1.2rem;margin:0 0 1rem}
.nodes,.legend{list-style:none;display:flex;flex-wrap:wrap;gap:.5rem;margin:0 0 1rem;padding:0}
.nodes a,.badge{display:inline-block;border:1px solid currentColor;border-radius:1rem;padding:.1rem .7rem;text-decoration:none;font-size:.95rem;font-weight:400}
.badge{font-weight:700}
.nodes a:hover{text-decoration:underline}
.exposed a,.badge.exposed{color:var(--alarm);background:var(--alarm-ground)}
.suspected a,.badge.suspected{color:var(--warn);background:var(--warn-ground)}
.trusted a,.badge.trusted{color:var(--good);background:var(--good-ground)}
.legend{gap:.35rem 1.1rem;font-size:.85rem;color:var(--muted);margin-bottom:.6rem}
.legend li{display:flex;align-items:center;gap:.4rem}
.legend svg{flex:none}
.scroll{overflow-x:auto}
.strip{display:flex;position:relative;width:max-content;min-width:100%}
.strip>svg{display:block;flex:none}
.strip>.logs{min-width:100%;margin-left:-96px}
.names{position:sticky;left:0;z-index:1}
.start{position:absolute;top:0;left:0;display:flex;visibility:hidden}
.start svg{flex:none}
.here{scroll-initial-target:nearest;width:184px;height:1px;flex:none}
.more{position:sticky;right:0;flex:none;width:1.5rem;margin-left:-1.5rem;background:linear-gradient(to right,transparent,var(--ground));pointer-events:none}
.sentences{margin:0 0 .6rem;padding-left:1.2rem}
.sentences li{margin:.15rem 0;overflow-wrap:anywhere;white-space:pre-wrap}
li:target,tr:target{background:var(--warn-ground)}
.mark{font-size:.85rem;white-space:nowrap;margin-left:.35rem}
.cut{margin:.5rem 0 0;font-size:.9rem;color:var(--muted)}
details{margin-top:.4rem}
summary{cursor:pointer;color:var(--muted);font-size:.9rem}
table{border-collapse:collapse;font-size:.85rem;margin-top:.4rem;min-width:100%}
th,td{text-align:left;padding:.25rem .7rem .25rem 0;border-bottom:1px solid var(--rule);vertical-align:top}
thead th{white-space:nowrap;color:var(--muted);font-weight:600}
td.content{overflow-wrap:anywhere;min-width:10rem;white-space:pre-wrap}
td.hash code{font-size:.78rem;color:var(--muted);overflow-wrap:anywhere}
tr.marked td,tr.marked th{background:var(--alarm-ground)}
td.sign{white-space:nowrap}
.rest{display:none}
.whole[open]+.scroll .rest{display:inline}
tr.marked a{color:var(--alarm);font-weight:700}
svg text{font-family:inherit;fill:var(--ink)}
.name{font-size:15px;font-weight:700;dominant-baseline:middle}
.nothing,.gap{font-size:13px;fill:var(--muted);dominant-baseline:middle}
.gap{font-size:22px;text-anchor:middle}
.number,.kind,svg .sign{text-anchor:middle}
.number{font-size:16px;font-weight:700}
.kind{font-size:10px;letter-spacing:.03em}
.band{fill:var(--ground)}
.box{stroke:var(--line);stroke-width:1.2;fill:var(--other)}
.init .box{fill:var(--init)}.send .box{fill:var(--send)}.recv .box{fill:var(--recv)}.timer .box{fill:var(--timer)}
.checkpoint .box{fill:var(--checkpoint)}.bare .box,.unknown .box{fill:var(--bare)}
.signed .box{stroke-dasharray:5 3}
.absent .box{stroke-dasharray:2 4}
.marked .box{stroke:var(--alarm);stroke-width:3}
.flag{fill:var(--alarm);stroke:var(--card);stroke-width:2}
svg .sign{fill:var(--card);font-size:13px;font-weight:700}
.entry:target .box{stroke:var(--link);stroke-width:4}
a:hover .box{stroke:var(--link)}
.chain{fill:none;stroke:var(--line);stroke-width:2}
.arrow{fill:none;stroke:var(--arrow);stroke-width:1.6;stroke-linejoin:round}
.head{fill:var(--arrow)}
@media screen{td.hash code{white-space:nowrap}}
@page{size:A4 landscape;margin:12mm}
@media print{:root{color-scheme:light;font-size:12px;
--ground:#fff;--card:#fff;--ink:#000;--muted:#333;--rule:#999;--link:#000;--line:#555;--arrow:#222;
--alarm:#a3000b;--alarm-ground:#fbe4e2;--warn:#6b4100;--warn-ground:#fbf0d8;--good:#14522a;--good-ground:#e6f3e9;
--init:#e4e2da;--send:#cfe1fb;--recv:#cdeed6;--timer:#fae7b5;--checkpoint:#e3d8f8;--other:#e9e9e9;--bare:#fff}
body{font-size:9.5pt;line-height:1.4}
header,main{max-width:none;padding:0}
section{border:0;border-top:1px solid var(--rule);border-radius:0;padding:.6rem 0;margin:0}
.scroll{overflow:visible}
.strip>.names,.more,.start,.whole{display:none}
.strip{display:block;width:auto}
.strip>.logs{min-width:0;max-width:100%;max-height:175mm;height:auto;margin:0}
.rest{display:inline}
*{-webkit-print-color-adjust:exact;print-color-adjust:exact}
h2,summary{break-after:avoid}tr,li,svg{break-inside:avoid}}
";
