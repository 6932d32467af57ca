//! What a coterie bears: how many voters may fail, and which groups of them.
ghost use Rattle.std.specs.Prelude.{◌≡◌, ◌<◌, ◌≤◌, ◌-◌, ◌++◌, ℕ, All, IfOk, IfSome, List, MatchOption, None, OnOk, Some, length, string_bytes, true};
ghost use Rattle.std.specs.List.{flat_map};
ghost use Rattle.numbers.specs.Sets.{IsSet};
ghost use Rattle.failures.specs.Failures.{Bears, IsSmallest, IsTransversal};
ghost use Rattle.show_failures.specs.Resilience.{IsResiliencePage, SaysBorne, SaysPlan, answer_words, are_plain, blocking_words, borne_words, group_text, group_words, groups_text, most_words, owner_words, resilience_text, search_words, set_words, used_text};
ghost use Rattle.show_failures.specs.Used.{used_system};
ghost use Rattle.show_failures.specs.Without.{is_borne};

use crate::groups::groups_of;
use crate::names::names_text;
use crate::used::used_coterie;
use certificate::Weights;
use coterie_file::Named;
use failures::{bears, transversal_of};
use quorum_set::{Coterie, QSet};
use std::alloc::{AllocError, Global};

/// The most steps of the search for a smallest set whose failure leaves no quorum.
const STEPS: u64 = 1_000_000;

/// How many voters may fail.
#[derive(Drop)]
pub struct Resilience {
    /// Voters without which no quorum is left.
    pub blocking: QSet,
    /// Whether the search for them came to its end, so that no fewer voters leave no quorum.
    pub is_smallest: bool,
    /// How many voters may fail, whichever they are, if the search came to its end. Otherwise it is at
    /// most this number.
    pub borne: usize,
}

/// Returns how many voters of a coterie may fail. The search has a million steps.
#[tactic(auto, using(crate::proofs::ResilienceLemmas::few_are_borne))]
pub fn resilience_of(coterie: &Coterie) -> Resilience
    ensures meets { IsTransversal coterie.now result.blocking }
    ensures smallest { result.is_smallest ≡ true → IsSmallest coterie.now.quorums result.blocking }
    ensures borne { result.borne ≡ length result.blocking - 1 }
    ensures bears { result.is_smallest ≡ true → (failed : List ℕ) → IsSet failed → length failed ≤ result.borne
        → Bears coterie.now.quorums failed }
{
    // Called for its contract alone: some quorum is there.
    let _ = coterie.count();
    let found = transversal_of(coterie, STEPS);
    let borne = found.voters.len().saturating_sub(1);
    Resilience {
        blocking: found.voters,
        is_smallest: found.is_smallest,
        borne,
    }
}

/// Which quorums a part of a page is about.
#[derive(Clone, Copy)]
pub(crate) enum Quorums {
    /// All quorums of a coterie.
    OfCoterie,
    /// Those that a plan, or other weights, use.
    OfPlan,
}

/// Returns the words for the voters that may fail.
fn borne_words(quorums: Quorums) -> &'static str
    ensures { result.now ≡ borne_words quorums }
{
    match quorums {
        Quorums::OfCoterie => "voters that may fail, whichever they are",
        Quorums::OfPlan => "voters that may fail before all of these are lost, whichever they are",
    }
}

/// Returns the words for what the failure of a blocking set leaves.
fn blocking_words(quorums: Quorums) -> &'static str
    ensures { result.now ≡ blocking_words quorums }
{
    match quorums {
        Quorums::OfCoterie => "whose failure leaves no quorum",
        Quorums::OfPlan => "whose failure leaves none of these",
    }
}

/// Returns the words for what is said of each group.
fn group_words(quorums: Quorums) -> &'static str
    ensures { result.now ≡ group_words quorums }
{
    match quorums {
        Quorums::OfCoterie => "groups by name, and whether all of a group may fail",
        Quorums::OfPlan => {
            "groups by name, and whether some of these are left when all of a group fails"
        }
    }
}

/// Returns what is before a number that is exact, or an upper bound.
fn most_words(is_smallest: bool) -> &'static str
    ensures { result.now ≡ most_words is_smallest }
{
    if is_smallest { "" } else { "at most " }
}

/// Returns how a blocking set is called.
fn set_words(is_smallest: bool) -> &'static str
    ensures { result.now ≡ set_words is_smallest }
{
    if is_smallest {
        "a smallest set"
    } else {
        "a set"
    }
}

/// Returns what is said of the search for a smallest set.
fn search_words(is_smallest: bool) -> &'static str
    ensures { result.now ≡ search_words is_smallest }
{
    if is_smallest {
        ""
    } else {
        " (the search for a smallest one did not end)"
    }
}

/// Appends how many voters may fail, and the set whose failure leaves no quorum.
fn push_resilience(
    alloc: Global,
    text: &mut String,
    named: &Named,
    found: &Resilience,
    quorums: Quorums,
) -> Result<(), AllocError>
    requires { All (λ i. i < named.now.system.voters) found.now.blocking }
    ensures { OnOk result (string_bytes text.new
        ≡ string_bytes text.old ++ resilience_text quorums named.now.names found.now) }
{
    let borne = borne_words(quorums);
    let blocking = blocking_words(quorums);
    let most = most_words(found.is_smallest);
    let set = set_words(found.is_smallest);
    let search = search_words(found.is_smallest);
    let count = found.borne;
    let names = names_text(alloc, named, &found.blocking)?;
    write!(
        text,
        "{borne}: {most}{count}\n{set} {blocking}{search}: {names}\n"
    )
}

/// Returns whether some quorum is left, as a word.
fn answer_for(coterie: &Coterie, group: &QSet) -> &'static str
    ensures { result.now ≡ answer_words (is_borne coterie.now.quorums group.now) }
{
    if bears(coterie, group) { "yes" } else { "no " }
}

/// Appends whether some quorum is left when all of a group fails, and its voters.
fn push_group(
    alloc: Global,
    text: &mut String,
    named: &Named,
    coterie: &Coterie,
    group: &QSet,
) -> Result<(), AllocError>
    requires { All (λ i. i < named.now.system.voters) group.now }
    ensures { OnOk result (string_bytes text.new
        ≡ string_bytes text.old ++ group_text named.now.names coterie.now.quorums group.now) }
{
    let names = names_text(alloc, named, group)?;
    let answer = answer_for(coterie, group);
    write!(text, "  {answer}  {names}\n")
}

/// Appends this for each of these groups.
fn push_each(
    alloc: Global,
    text: &mut String,
    named: &Named,
    coterie: &Coterie,
    groups: &[QSet],
) -> Result<(), AllocError>
    requires { All (λ g. All (λ i. i < named.now.system.voters) g) groups.now }
    ensures { OnOk result (string_bytes text.new
        ≡ string_bytes text.old ++ flat_map (group_text named.now.names coterie.now.quorums) groups.now) }
{
    for group in groups {
        push_group(alloc, text, named, coterie, group)?;
    }
    Ok(())
}

/// Returns whether groups say nothing: there is but one, or each voter is its own.
fn are_plain(groups: &[QSet], voters: usize) -> bool
    ensures { result ≡ are_plain groups.now voters }
{
    groups.len() < 2 || voters <= groups.len()
}

/// Appends for each of these groups whether some quorum is left when all of it fails, and its voters,
/// if there are several groups and one has several voters.
fn push_groups(
    alloc: Global,
    text: &mut String,
    named: &Named,
    coterie: &Coterie,
    groups: &[QSet],
    quorums: Quorums,
) -> Result<(), AllocError>
    requires groups { All (λ g. All (λ i. i < named.now.system.voters) g) groups.now }
    ensures { OnOk result (string_bytes text.new
        ≡ string_bytes text.old ++ groups_text quorums named.now.names coterie.now groups.now) }
{
    if are_plain(groups, coterie.voters()) {
        return Ok(());
    }
    let title = group_words(quorums);
    write!(text, "{title}:\n")?;
    push_each(alloc, text, named, coterie, groups)
}

/// Returns what some quorums of a coterie bear. The coterie has the named voters.
fn borne_text(
    alloc: Global,
    named: &Named,
    coterie: &Coterie,
    quorums: Quorums,
) -> Result<String, AllocError>
    requires { coterie.now.voters ≡ named.now.system.voters }
    ensures { IfOk result (λ text. SaysBorne quorums named.now.names coterie.now (string_bytes text)) }
{
    let found = resilience_of(coterie);
    let groups = groups_of(alloc, named)?;
    let mut text = String::new(alloc);
    push_resilience(alloc, &mut text, named, &found, quorums)?;
    push_groups(alloc, &mut text, named, coterie, &groups, quorums)?;
    Ok(text)
}

/// Returns whose the quorums are that a cycle uses: a plan's if the load is the bound, else the weights'.
fn owner_words(weights: &Weights) -> &'static str
    ensures { result.now ≡ owner_words weights.now }
{
    if weights.load() == weights.bound() {
        "the plan's"
    } else {
        "the weights'"
    }
}

/// Appends how many of all quorums a plan, or other weights, use.
fn push_used(text: &mut String, weights: &Weights, used: &Coterie) -> Result<(), AllocError>
    requires { used.now ≡ used_system weights.now }
    ensures { OnOk result (string_bytes text.new ≡ string_bytes text.old ++ used_text weights.now) }
{
    let owner = owner_words(weights);
    let count = used.count();
    let all = weights.coterie().count();
    write!(
        text,
        "\n{owner} own quorums: {count} of {all}, those of positive weight\n"
    )
}

/// Returns what the quorums bear that a plan, or other weights, use.
fn plan_text(alloc: Global, named: &Named, weights: &Weights) -> Result<String, AllocError>
    requires { weights.now.system ≡ named.now.system }
    ensures { IfOk result (λ text. SaysPlan named.now.names weights.now (string_bytes text)) }
{
    let used = used_coterie(alloc, weights)?;
    let rest = borne_text(alloc, named, &used, Quorums::OfPlan)?;
    let mut text = String::new(alloc);
    push_used(&mut text, weights, &used)?;
    text.push_str(rest.as_str())?;
    Ok(text)
}

/// Returns what all quorums bear, and those that a plan, or other weights, use.
fn both_texts(alloc: Global, named: &Named, weights: &Weights) -> Result<String, AllocError>
    requires { weights.now.system ≡ named.now.system }
    ensures { IfOk result (λ page. IsResiliencePage named.now (Some weights.now) (string_bytes page)) }
{
    let mut text = borne_text(alloc, named, named.coterie(), Quorums::OfCoterie)?;
    let second = plan_text(alloc, named, weights)?;
    text.push_str(second.as_str())?;
    Ok(text)
}

/// Returns how many voters may fail whichever they are, a set whose failure leaves no quorum, and
/// for each group of voters whether all of it may fail. The names of a group differ only in the
/// digits at their ends, and in marks right before these: `a1`, `a2` and `a3`.
///
/// With a plan or other weights of the coterie a second part says the same of the plan's own quorums, those
/// of positive weight. When all of these are lost, the plan deals no quorum that can be taken, though
/// another plan may.
///
/// Each set is a smallest one if the search for it ends within a million steps. Otherwise the page
/// says so, and the number is an upper bound. Fails only if it runs out of memory.
pub fn resilience_page(
    alloc: Global,
    named: &Named,
    weights: Option<&Weights>,
) -> Result<String, AllocError>
    requires weights { IfSome weights (λ w. w.now.system ≡ named.now.system) }
    // An upper bound is called one, and the second part is about the quorums that the weights use.
    ensures said { IfOk result (λ page.
        MatchOption weights.entry (IsResiliencePage named.now None (string_bytes page))
        (λ w. IsResiliencePage named.now (Some w.now) (string_bytes page))) }
{
    match weights {
        None => borne_text(alloc, named, named.coterie(), Quorums::OfCoterie),
        Some(weights) => both_texts(alloc, named, weights),
    }
}
