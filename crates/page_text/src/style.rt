//! The style of a page.

ghost use Rattle.std.specs.Prelude.{◌≡◌};
ghost use Rattle.page_text.specs.Style.{style};

const STYLE: &[u8] = b"\
:root{color-scheme:light dark;--page:#f6f5f2;--card:#fff;--ink:#1c2127;--dim:#5a636d;\n\
--line:#dcdfe3;--have:#aab4bf;--short:#d55e00;--over:#56b4e9;--off:#eceef0}\n\
@media(prefers-color-scheme:dark){:root{--page:#121519;--card:#1b2026;--ink:#e9ebee;\n\
--dim:#9fa8b2;--line:#363d46;--have:#66727f;--short:#e8762b;--off:#272d35}}\n\
*{box-sizing:border-box}\n\
body{margin:0;background:var(--page);color:var(--ink);\n\
font:15px/1.5 system-ui,'Segoe UI',Roboto,'Helvetica Neue','DejaVu Sans',Arial,sans-serif}\n\
main{width:fit-content;min-width:min(100%,44rem);max-width:100%;margin:0 auto;\n\
padding:2rem 1.25rem 3rem}\n\
h1{font-size:1.6rem;line-height:1.2;margin:0}\n\
h2{font-size:1.05rem;margin:0 0 .6rem}\n\
header p{margin:.3rem 0 1.2rem;font-size:1.05rem;color:var(--dim)}\n\
dl{display:flex;flex-wrap:wrap;gap:.75rem;margin:0 0 1.25rem}\n\
dl div{background:var(--card);border:1px solid var(--line);border-radius:10px;\n\
padding:.55rem 1rem .6rem;min-width:7rem}\n\
dt{color:var(--dim);font-size:.82rem;white-space:nowrap}\n\
dd{margin:0;font-size:1.35rem;font-weight:600;font-variant-numeric:tabular-nums}\n\
section{background:var(--card);border:1px solid var(--line);border-radius:12px;\n\
padding:1.1rem 1.25rem 1.2rem;margin:0 0 1.25rem}\n\
figure{margin:0}\n\
figcaption{font-size:.9rem;color:var(--dim)}\n\
figure+figure{margin-top:1rem}\n\
.legend{display:flex;flex-wrap:wrap;gap:.35rem 1.1rem;list-style:none;margin:0 0 .8rem;\n\
padding:0;font-size:.85rem;color:var(--dim)}\n\
.legend li{display:flex;align-items:center;gap:.45rem}\n\
.chip{display:inline-block;min-width:1.5em;padding:0 .35em;border-radius:4px;text-align:center;\n\
font:600 .85rem/1.5 ui-monospace,'DejaVu Sans Mono',Menlo,Consolas,monospace;\n\
background:var(--c);color:var(--t)}\n\
.key{display:inline-block;width:1.3em;height:.85em;border-radius:2px}\n\
.key.have{background:var(--have)}.key.short{background:var(--short)}\n\
.key.over{background:var(--over)}\n\
.key.need{height:0;border-top:2px solid var(--ink);border-radius:0}\n\
.key.floor{height:0;border-top:2px dashed #009e73;border-radius:0}\n\
.key.ceiling{height:0;border-top:2px dotted #cc79a7;border-radius:0}\n\
svg{display:block;height:auto}\n\
.scroll{overflow-x:auto}\n\
svg text{font:12px system-ui,'Segoe UI',Roboto,'DejaVu Sans',Arial,sans-serif;fill:var(--ink)}\n\
rect{fill:var(--c)}\n\
.w0{--c:#0072b2;--t:#fff}.w1{--c:#e69f00;--t:#111}.w2{--c:#009e73;--t:#111}\n\
.w3{--c:#cc79a7;--t:#111}\n\
.w4{--c:#56b4e9;--t:#111}.w5{--c:#d55e00;--t:#111}.w6{--c:#f0e442;--t:#111}\n\
.w7{--c:#7b5ea7;--t:#fff}\n\
.i0{--c:var(--off);--t:var(--dim)}.i1{--c:#c3c9d0;--t:#111}.i2{--c:#98a2ad;--t:#111}\n\
.i3{--c:#6d7782;--t:#fff}.i4{--c:#454d56;--t:#fff}\n\
svg text[class^=w],svg text[class^=i]{fill:var(--t);text-anchor:middle;\n\
font:600 11px ui-monospace,'DejaVu Sans Mono',Menlo,Consolas,monospace}\n\
svg text.tick{text-anchor:middle;fill:var(--dim);font-size:11px}\n\
svg text.name{text-anchor:end;font-family:ui-monospace,'DejaVu Sans Mono',Menlo,Consolas,monospace}\n\
svg text.price{text-anchor:end;font-size:11px;font-variant-numeric:tabular-nums}\n\
svg text.times{text-anchor:end;fill:var(--dim);font-weight:600}\n\
svg text.mark{text-anchor:end;fill:var(--dim);font-size:11px}\n\
.hit{fill:transparent;rx:6px}\n\
.row{cursor:default;outline:none}\n\
.row:hover .hit,.row:focus .hit{fill:var(--off)}\n\
.row:focus-visible .hit{stroke:var(--ink);stroke-width:2}\n\
rect.have{fill:var(--have)}rect.short{fill:var(--short)}rect.over{fill:var(--over)}\n\
rect.grid{fill:var(--line)}\n\
path{fill:none;stroke:var(--ink);stroke-width:2}\n\
path.floor{stroke:#009e73;stroke-dasharray:6 3}\n\
path.ceiling{stroke:#cc79a7;stroke-dasharray:2 3}\n\
.hint{margin:.7rem 0 0;font-size:.85rem;color:var(--dim)}\n\
table{border-collapse:collapse;font-size:.9rem;font-variant-numeric:tabular-nums}\n\
th,td{text-align:left;padding:.25rem 1.2rem .25rem 0;border-bottom:1px solid var(--line)}\n\
th,td{white-space:nowrap}th{color:var(--dim);font-weight:600}\n\
.lists{display:flex;flex-wrap:wrap;gap:1.25rem;align-items:flex-start;margin:0 0 1.25rem}\n\
.lists section{margin:0;max-width:100%}\n\
footer{font-size:.85rem;color:var(--dim)}footer p{margin:0 0 .4rem}\n\
footer pre{margin:0;overflow-x:auto;font:12px/1.45 ui-monospace,'DejaVu Sans Mono',Menlo,Consolas,monospace}\n\
td.word{font-family:ui-monospace,'DejaVu Sans Mono',Menlo,Consolas,monospace}\n\
.legend .chip+span:empty{display:none}\n\
.derivations>h2{display:none}\n\
.derivation{display:none;position:fixed;right:1rem;bottom:1rem;left:1rem;max-width:60rem;\n\
max-height:90vh;margin:0 auto;padding:.9rem 1.2rem;overflow:auto;columns:11rem;\n\
white-space:pre-wrap;overflow-wrap:anywhere;\n\
column-rule:1px solid var(--line);pointer-events:none;background:var(--card);color:var(--ink);\n\
border:1px solid var(--dim);border-radius:10px;box-shadow:0 8px 30px #0005;\n\
font:12px/1.45 ui-monospace,'DejaVu Sans Mono',Menlo,Consolas,monospace}\n\
body:has(.row:focus) .derivation{pointer-events:auto}\n\
@page{size:A4;margin:10mm}\n\
@media print{:root{font-size:12px;--page:#fff;--card:#fff;--ink:#000;--dim:#444;--line:#bbb;\n\
--have:#aab4bf;\n\
--short:#d55e00;--over:#56b4e9;--off:#eceef0}\n\
*{print-color-adjust:exact;-webkit-print-color-adjust:exact}\n\
body{font-size:11px}\n\
main{width:auto;padding:0 1px}\n\
h1{font-size:18px}header p{font-size:12px;margin:.1rem 0 .5rem}\n\
dl{gap:.4rem;margin:0 0 .5rem}dl div{padding:.2rem .6rem;min-width:0}dd{font-size:14px}\n\
section{padding:.5rem .6rem;margin:0 0 .5rem;break-inside:avoid}\n\
.legend{margin:0 0 .4rem}\n\
svg{max-width:100%}.scroll{overflow:visible}\n\
svg.roster{max-height:120mm}\n\
.charts:has(figure:nth-child(4)){display:grid;grid-template-columns:repeat(2,minmax(0,1fr));\n\
gap:.4rem}\n\
figure+figure{margin-top:0}\n\
.charts svg{max-height:32mm}\n\
.lists{break-before:page;gap:.5rem}table{font-size:9px}th,td{padding:.1rem .6rem .1rem 0}\n\
.hint{display:none}\n\
.derivations{display:none}footer pre{font-size:9px}}\n\
";

/// Returns the style of a page.
#[tactic(auto, unfolding(crate::specs::Style::style))]
pub(crate) fn style() -> &'static [u8]
    ensures { result.now ≡ style }
{
    STYLE
}
