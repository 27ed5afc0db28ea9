//! The style sheet of a page, and its script, which shows the figures under the pointer.

/// The style sheet. Nothing in it is read from elsewhere.
pub const STYLE: &str = "\n\
    :root{color-scheme:light;--ink:#15202b;--soft:#52606d;--line:#d5dbe1;--a:#0b5cad;\
    --b:#b35900;--bad:#b00020;--ok:#0a6b3d;--wash:#f5f7f9}\n\
    *{box-sizing:border-box}\n\
    body{margin:0 auto;padding:24px;max-width:1180px;color:var(--ink);background:#fff;\
    font:15px/1.45 system-ui,-apple-system,\"Segoe UI\",Roboto,\"Liberation Sans\",Arial,\
    sans-serif}\n\
    h1{font-size:27px;line-height:1.15;margin:0 0 2px}h2{font-size:17px;margin:30px 0 8px}\n\
    .sub{color:var(--soft);margin:0 0 14px}\n\
    .verdict{display:flex;gap:16px;align-items:center;border:2px solid;border-radius:8px;\
    padding:12px 16px;margin:0 0 6px}\n\
    .verdict b{font-size:26px;letter-spacing:.04em}.verdict p{margin:0}\
    .verdict p+p{color:var(--soft)}\n\
    .pass{border-color:var(--ok)}.pass b{color:var(--ok)}.fail{border-color:var(--bad)}\
    .fail b{color:var(--bad)}\n\
    table{border-collapse:collapse;width:100%;font-variant-numeric:tabular-nums}\n\
    th{font-weight:600;text-align:left;border-bottom:2px solid var(--ink);padding:3px 8px}\n\
    td{border-bottom:1px solid var(--line);padding:3px 8px;vertical-align:top}\n\
    h2 .key{font-size:.8em;font-weight:400;color:var(--bad);margin-left:10px}\n\
    .n{text-align:right;white-space:nowrap}.w{white-space:nowrap}\n\
    tr.bad td{background:#fdecee}tr.bad td:first-child{box-shadow:inset 4px 0 var(--bad)}\n\
    .bar{width:130px;min-width:90px}.bar svg{display:block;width:100%;height:14px}\n\
    figure{margin:0;break-inside:avoid}figcaption{font-weight:600;margin:0 0 2px}\
    figcaption span{font-weight:400;color:var(--soft)}\n\
    .charts{display:grid;grid-template-columns:repeat(auto-fit,minmax(min(100%,500px),1fr));\
    gap:20px 28px}\n\
    .charts svg{width:100%;height:auto;display:block}\n\
    svg text{font:12px system-ui,-apple-system,\"Segoe UI\",Roboto,\"Liberation Sans\",\
    Arial,sans-serif;fill:var(--soft)}\n\
    svg text.v{fill:var(--ink);font-weight:600;paint-order:stroke;stroke:#fff;\
    stroke-width:3px;stroke-linejoin:round}svg text.lim{fill:var(--bad);paint-order:stroke;\
    stroke:#fff;stroke-width:3px;stroke-linejoin:round}\n\
    .grid{stroke:var(--line)}.zero{stroke:#8a97a3}.limit{stroke:var(--bad);stroke-width:1.6;\
    stroke-dasharray:7 4;fill:none}.beyond{fill:var(--bad);opacity:.07}\n\
    .a,.b,.c{fill:none;stroke-width:2;stroke-linejoin:round}.a{stroke:var(--a)}\
    .b{stroke:var(--b);stroke-dasharray:2 0}.c{stroke:#6b7785;stroke-width:1.4}\n\
    .ta{fill:var(--a)!important}.tb{fill:var(--b)!important}.worst{fill:#fff;\
    stroke:var(--ink);stroke-width:2}.bandfill{fill:var(--a);opacity:.16}\n\
    .stripok{fill:#cfe8da}.stripbad{fill:var(--bad)}\n\
    .cross{stroke:var(--ink);stroke-width:1;visibility:hidden}\n\
    #tip{position:sticky;bottom:0;background:var(--ink);color:#fff;padding:6px 12px;\
    border-radius:6px 6px 0 0;font-variant-numeric:tabular-nums;visibility:hidden;\
    font-size:14px}\n\
    code{font:13px ui-monospace,Menlo,Consolas,\"Liberation Mono\",monospace;\
    overflow-wrap:anywhere}\n\
    dl{display:grid;grid-template-columns:max-content 1fr;gap:2px 14px;margin:0}\
    dt{color:var(--soft)}dd{margin:0}\n\
    .notes{columns:2;column-gap:32px}.notes p{margin:0 0 8px;break-inside:avoid}\n\
    @media (max-width:700px){body{padding:12px}.notes{columns:1}.opt{display:none}td,\
    th{padding:3px 5px}}\n\
    @media print{@page{size:A4;margin:13mm}body{padding:0;max-width:none;font-size:10.5px}\
    h1{font-size:20px}h2{font-size:13px;margin:14px 0 5px;break-after:avoid}\n\
    \u{20}.charts{grid-template-columns:minmax(0,1fr) minmax(0,1fr);gap:10px 16px}.charts td,\
    .charts th{padding:1px 3px;font-size:9px}td,th{padding:1.5px 6px}#tip{display:none}\
    .verdict b{font-size:19px}.verdict{padding:7px 12px}code{font-size:8.5px}\n\
    \u{20}tr,figure{break-inside:avoid}*{print-color-adjust:exact;\
    -webkit-print-color-adjust:exact}}\n\
    ";

/// The script.
pub const SCRIPT: &str = "\n\
    (function(){var d=JSON.parse(document.getElementById('rows').textContent),\
    t=document.getElementById('tip'),f=document.querySelectorAll('svg.run');\n\
    function at(k){var a=0,b=d.rows.length-1;while(a<b){var m=(a+b)>>1;\
    d.rows[m][0]<k?a=m+1:b=m}if(a>0&&k-d.rows[a-1][0]<d.rows[a][0]-k)a--;return d.rows[a]}\n\
    f.forEach(function(s){s.addEventListener('pointermove',\
    function(e){var r=s.getBoundingClientRect(),x=(e.clientX-r.left)*620/r.width,\n\
    k=Math.max(0,Math.min(d.last,Math.round((x-54)*d.last/520))),w=at(k),\
    p=54+(d.last?w[0]*520/d.last:0);\n\
    f.forEach(function(o){var l=o.querySelector('.cross');l.setAttribute('x1',p);\
    l.setAttribute('x2',p);l.style.visibility='visible'});\n\
    t.style.visibility='visible';t.textContent='step '+w[0]+' '+w[1]+'   \
    '+d.names.map(function(n,i){return n+' '+w[i+2]}).join('   ')})})})();\n\
    ";
