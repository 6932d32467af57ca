//! The whole report.
ghost use Rattle.std.specs.Prelude.{◌≡◌, ◌-◌, length, true};
ghost use Rattle.failures.specs.Failures.{IsSmallest, IsTransversal};
ghost use Rattle.show_failures.specs.Used.{used_system};

use crate::groups::push_groups;
use crate::summary::{Borne, push_summary};
use crate::tables::{push_certificate, push_quorums, push_voters};
use certificate::Weights;
use coterie_file::Named;
use quorum_set::Coterie;
use show_failures::{resilience_of, used_coterie};
use show_figures::{
    Totals, losses_of, quorum_figures, slack_of, totals_of, voter_figures, weight_figures,
};
use show_plans::load_picture;
use std::alloc::{AllocError, Global};

/// The beginning of the document.
const BEGINNING: &str = "<!DOCTYPE html>
<html lang=\"en\" xmlns=\"http://www.w3.org/1999/xhtml\">
<head>
<meta charset=\"utf-8\"/>
<meta name=\"viewport\" content=\"width=device-width, initial-scale=1\"/>
";

/// The styles, and the end of the head.
const STYLES: &str = "<style>
:root{color-scheme:light dark;--ink:#1d1f23;--paper:#ffffff;--soft:#f2f4f7;--line:#d3d9e0;--quiet:#59626d;--mark:#2b65a5;--cover:var(--paper)}
@media (prefers-color-scheme:dark){:root{--ink:#e6e8eb;--paper:#16191d;--soft:#20252b;--line:#3a424c;--quiet:#a3adb8;--mark:#83b4e8}}
*{box-sizing:border-box}
body{margin:0 auto;max-width:62rem;padding:1rem;font:1rem/1.5 system-ui,sans-serif;color:var(--ink);background:var(--paper)}
h1{margin:.5rem 0 1rem;font-size:1.6rem;line-height:1.25}
h2{margin:2rem 0 .5rem;font-size:1.2rem}
dl{display:grid;grid-template-columns:repeat(auto-fit,minmax(15rem,1fr));gap:.75rem;margin:0}
dl div{padding:.75rem 1rem;background:var(--soft);border:1px solid var(--line);border-radius:.5rem}
dt,th{font-size:.85rem;font-weight:normal;color:var(--quiet)}
dd{margin:0;overflow-wrap:anywhere}
dd b{font-size:1.25rem;color:var(--mark)}
.wide{max-height:34rem;overflow:auto}
.wide,figure{background:linear-gradient(var(--cover) 30%,transparent) center top/100% 2.5rem local,linear-gradient(transparent,var(--cover) 70%) center bottom/100% 2.5rem local,linear-gradient(var(--line),transparent) center top/100% .75rem scroll,linear-gradient(transparent,var(--line)) center bottom/100% .75rem scroll,var(--cover);background-repeat:no-repeat}
table{border-collapse:collapse;font-variant-numeric:tabular-nums}
th,td{padding:.25rem 1rem .25rem 0;text-align:left;vertical-align:top;border-bottom:1px solid var(--line)}
th.n,td.n{text-align:right}
td{white-space:nowrap}
td:nth-child(4):last-child{min-width:10rem;white-space:normal}
meter{width:7rem;margin-right:.5rem}
@media (max-width:36rem){th,td{padding-right:.75rem}td:nth-last-child(5){min-width:3.5rem;white-space:normal;overflow-wrap:anywhere}meter{width:2.5rem}}
figure{--cover:#ffffff;margin:0;padding:.5rem;overflow-x:auto;border:1px solid var(--line);border-radius:.5rem}
figure svg{display:block}
ol{padding-left:1.25rem}
@media print{.wide{max-height:none;overflow:visible}}
</style>
</head>
<body>
";

/// Appends the head, with the title that a browser shows.
fn push_head(text: &mut String, totals: &Totals) -> Result<(), AllocError> {
    text.push_str(BEGINNING)?;
    text.push_str(if totals.is_plan() {
        "<title>A plan for quorums</title>\n"
    } else {
        "<title>Weights for quorums</title>\n"
    })?;
    text.push_str(STYLES)
}

/// Appends the picture.
fn push_picture(text: &mut String, picture: &str) -> Result<(), AllocError> {
    write!(
        text,
        "<h2>The same as a picture</h2>\n<figure>\n{picture}</figure>\n"
    )
}

/// Returns how many failures the coterie of weights bears, and how many the quorums that a cycle uses.
fn borne_by(weights: &Weights, used: &Coterie) -> Borne
    requires { used.now ≡ used_system weights.now }
    ensures of_all { IsTransversal weights.now.system result.of_all.blocking }
    ensures all_borne { result.of_all.borne ≡ length result.of_all.blocking - 1 }
    ensures all_smallest { result.of_all.is_smallest ≡ true → IsSmallest weights.now.system.quorums result.of_all.blocking }
    ensures of_plan { IsTransversal used.now result.of_plan.blocking }
    ensures borne { result.of_plan.borne ≡ length result.of_plan.blocking - 1 }
    ensures smallest { result.of_plan.is_smallest ≡ true → IsSmallest used.now.quorums result.of_plan.blocking }
{
    Borne {
        of_all: resilience_of(weights.coterie()),
        of_plan: resilience_of(used),
    }
}

/// Returns a report of a plan, or of other weights, as one HTML document, without a script and without an
/// outside file: its load, or its throughput if some capacity is not 1, how many failures its coterie and
/// its own quorums bear, how even it is, whom to ask how often, how busy each voter is, what the loss of
/// each group of voters does, a picture, and the certificate. A load above its bound is marked. The weights
/// are of the named coterie. The title has the name of the file that the coterie comes from, if there is
/// one. Fails only if memory runs out.
pub fn report_page(
    alloc: Global,
    named: &Named,
    weights: &Weights,
    file: Option<&str>,
) -> Result<String, AllocError> {
    let totals = totals_of(weights);
    let used = used_coterie(alloc, weights)?;
    let borne = borne_by(weights, &used);
    let losses = losses_of(alloc, named)?;
    let slack = slack_of(alloc, weights)?;
    let quorums = quorum_figures(alloc, weights)?;
    let voters = voter_figures(alloc, weights)?;
    let weighing = weight_figures(alloc, weights)?;
    let picture = load_picture(alloc, named, weights)?;
    let mut text = String::new(alloc);
    push_head(&mut text, &totals)?;
    push_summary(&mut text, named, &totals, &borne, slack, file)?;
    push_quorums(&mut text, named, weights, quorums.as_slice())?;
    push_voters(&mut text, named, &totals, voters.as_slice())?;
    push_groups(&mut text, named, &used, losses.as_slice(), &totals)?;
    push_picture(&mut text, picture.text())?;
    push_certificate(&mut text, named, &totals, weighing.as_slice())?;
    text.push_str("</body>\n</html>\n")?;
    Ok(text)
}
