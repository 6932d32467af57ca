//! The command line: which command its words name.
ghost use Rattle.std.specs.Prelude.{◌≡◌, ◌⊎◌, ℕ, ◌++◌, ◌∷◌, Option, false, true, IfErr, IfOk, IfSome, None, OnOk, Vec, codes, map, string_bytes};
ghost use Rattle.std.specs.declared.alloc.Global.{Global};
ghost use Rattle.clap.specs.Words.{all_of, app_of, found_of, rows_of, rule_of, subcommand_rows_of};
ghost use Rattle.command_line.specs.Words.{IsLocal, used_as};
ghost use Rattle.command_line.specs.declared.usage.Usage.TheVariants.{Arguments, OutOfMemory};
ghost use Rattle.show_command_line.specs.Commands.{IsShown};
ghost use Rattle.show_command_line.specs.declared.command.Picture.{Picture};
ghost use Rattle.show_command_line.specs.Words.{HasFlag, HasTexts, IsForm, IsNearForm, MayHaveCapacities, capacity_rule, coterie_app, planners_app, IsNamedBy, IsTicketForm, MayHaveNumber, Names, Refuses, RefusesUse, compare_app, coteries_app, explain_app, fault_app, files_rule, flag_rule, near_app, near_above_rule, near_cycle_rule, near_deal_rule, near_down_rule, optional_rule, pages_app, plan_app, picture_app, picture_word, qlock_words, resilience_app, round_rule, show_app, tickets_app, waiting_app, waiting_dead_rule, waiting_down_rule, without_app, words_rule};

use crate::command::{Dealing, Form, NearForm, NearPage, Picture, ShowCommand, TicketForm};
use clap::builder::ValueParser;
use clap::{Arg, ArgAction, ArgMatches};
use command_line::{
    VERSION, bare_command, number_argument, number_of, read_matches, sizes_argument, sizes_given,
    text_at, text_of, texts_of, tickets_argument, tickets_of, used_in, with_argument, with_command,
    without_commands, word_argument,
};
use commands::{Command, Usage, read_words};
use numbers::{MAX_CLIENTS, MAX_CYCLE, MAX_DEALT, MAX_VOTERS};
use show_coteries::{shape_of, widened};
use show_faults::explanation_of;
use show_waiting::Waiting;
use std::alloc::{AllocError, Global};

/// The most files of `compare`.
const MOST_FILES: usize = 64;

/// The greatest capacity of a voter.
const MOST_CAPACITY: u64 = 1_000;

/// The most clients of `waiting`.
const MOST_CLIENTS: u64 = MAX_CLIENTS as u64;

/// The most voters of `waiting`.
const MOST_VOTERS: u64 = MAX_VOTERS as u64;

/// The most withdrawals of `waiting`.
const MOST_WITHDRAWALS: u64 = 1_000_000;

/// The longest round of `waiting`, in seconds: a day.
const LONGEST_ROUND: u64 = 86_400;

/// How many voters weights may have to bear the loss of.
const MOST_DOWN: u64 = 2;

/// By how many percent the load of weights that bear a loss may be above the smallest one.
const MOST_ABOVE: u64 = 100;

/// Returns a flag.
fn flag_argument<'a>(alloc: Global, name: &'a str, help: &'a str) -> Arg<'a>
    ensures rule { rule_of result ≡ flag_rule name.now }
    ensures local { result.global ≡ false }
{
    Arg::new(alloc, name)
        .help(help)
        .long(name)
        .action(ArgAction::SetTrue)
}

/// Returns the flag `--json`.
fn json_argument<'a>(alloc: Global) -> Arg<'a>
    ensures rule { rule_of result ≡ flag_rule (codes "json") }
    ensures local { result.global ≡ false }
{
    flag_argument(alloc, "json", "Write JSON, for programs")
}

/// Returns the subcommand `plan`, with the flag `--json`.
fn plan_command<'a>(alloc: Global) -> Result<clap::Command<'a>, AllocError>
    ensures app { IfOk result (λ c. app_of c ≡ plan_app) }
    ensures local { IfOk result IsLocal }
{
    bare_command(
        alloc,
        "plan",
        "Show a plan: whom to ask how often, and why no plan is better: a coterie, a line %%, and a plan or weights",
    )
    .arg(json_argument(alloc))
}

/// Returns an argument that has to be there: one word or more.
fn words_argument<'a>(alloc: Global, name: &'a str, help: &'a str) -> Arg<'a>
    ensures rule { rule_of result ≡ words_rule name.now }
    ensures local { result.global ≡ false }
{
    word_argument(alloc, name, help).num_args(1..)
}

/// Returns the subcommand `deal N`, with the flags `--even`, `--names` and `--json`.
fn deal_command<'a>(alloc: Global) -> Result<clap::Command<'a>, AllocError>
    ensures app { IfOk result (λ c. app_of c ≡ tickets_app) }
    ensures local { IfOk result IsLocal }
{
    let command = bare_command(
        alloc,
        "deal",
        "Deal tickets with the names of the voters to ask: a coterie, a line %%, and a plan or weights",
    );
    let even = flag_argument(
        alloc,
        "even",
        "Deal in the order that is even from the first ticket, as is always done by weights that are no plan",
    );
    let names = flag_argument(
        alloc,
        "names",
        "Write the names of the voters to ask alone, a line for each ticket",
    );
    let command = with_argument(Ok(command), tickets_argument(alloc));
    let command = with_argument(command, even);
    let command = with_argument(command, names);
    with_argument(command, json_argument(alloc))
}

/// Returns the subcommand `without NAMES..`.
fn without_command<'a>(alloc: Global) -> Result<clap::Command<'a>, AllocError>
    ensures app { IfOk result (λ c. app_of c ≡ without_app) }
    ensures local { IfOk result IsLocal }
{
    bare_command(
        alloc,
        "without",
        "Write the coterie that is left when these voters fail, for qlock plan: a coterie",
    )
    .arg(words_argument(alloc, "NAMES", "The names of the voters that fail"))
}

/// Returns the subcommand `resilience`, with the flag `--json`.
fn resilience_command<'a>(alloc: Global) -> Result<clap::Command<'a>, AllocError>
    ensures app { IfOk result (λ c. app_of c ≡ resilience_app) }
    ensures local { IfOk result IsLocal }
{
    bare_command(
        alloc,
        "resilience",
        "Show how many voters may fail, and which groups of them: a coterie, or a coterie, a line %%, and a plan or weights",
    )
    .arg(json_argument(alloc))
}

/// Returns the argument FILES of `compare`.
fn files_argument<'a>(alloc: Global) -> Arg<'a>
    ensures rule { rule_of result ≡ files_rule }
    ensures local { result.global ≡ false }
{
    word_argument(
        alloc,
        "FILES",
        "The names of 1 to 64 files with a coterie each",
    )
    .num_args(1..=MOST_FILES)
}

/// Returns the subcommand `compare FILES..`, with the flag `--json`.
fn compare_command<'a>(alloc: Global) -> Result<clap::Command<'a>, AllocError>
    ensures app { IfOk result (λ c. app_of c ≡ compare_app) }
    ensures local { IfOk result IsLocal }
{
    let command = bare_command(
        alloc,
        "compare",
        "Show the coteries in these files side by side: sizes, loads, failures borne, and loads without each group of voters",
    );
    let command = with_argument(Ok(command), files_argument(alloc));
    with_argument(command, json_argument(alloc))
}

/// Returns an argument that may be left out: a number from `least` to `most`.
fn optional_argument<'a>(
    alloc: Global,
    name: &'a str,
    help: &'a str,
    least: u64,
    most: u64,
) -> Arg<'a>
    ensures rule { rule_of result ≡ optional_rule name.now least most }
    ensures local { result.global ≡ false }
{
    number_argument(alloc, name, help, least, most).required(false)
}

/// Returns the option `--deal N` of `near`.
fn near_deal_argument<'a>(alloc: Global) -> Arg<'a>
    ensures rule { rule_of result ≡ near_deal_rule }
    ensures local { result.global ≡ false }
{
    optional_argument(
        alloc,
        "deal",
        "Deal this many tickets by these weights, 0 to 100000",
        0,
        MAX_DEALT,
    )
    .long("deal")
    .value_name("N")
}

/// Returns the option `--cycle N` of `near`.
fn near_cycle_argument<'a>(alloc: Global) -> Arg<'a>
    ensures rule { rule_of result ≡ near_cycle_rule }
    ensures local { result.global ≡ false }
{
    optional_argument(
        alloc,
        "cycle",
        "How many tickets a cycle has at most, 1 to 1000000; without it 1000",
        1,
        MAX_CYCLE,
    )
    .long("cycle")
    .value_name("N")
}

/// Returns the option `--down N` of `near`.
fn near_down_argument<'a>(alloc: Global) -> Arg<'a>
    ensures rule { rule_of result ≡ near_down_rule }
    ensures local { result.global ≡ false }
{
    optional_argument(
        alloc,
        "down",
        "Find weights whose load stays small when up to so many voters are down, 1 or 2",
        1,
        MOST_DOWN,
    )
    .long("down")
    .value_name("N")
}

/// Returns the option `--above PERCENT` of `near`.
fn near_above_argument<'a>(alloc: Global) -> Arg<'a>
    ensures rule { rule_of result ≡ near_above_rule }
    ensures local { result.global ≡ false }
{
    optional_argument(
        alloc,
        "above",
        "With --down, by how many percent the load may be above the smallest one, 0 to 100; without it 2",
        0,
        MOST_ABOVE,
    )
    .long("above")
    .value_name("PERCENT")
}

/// Returns the subcommand `near`, with the options `--cycle`, `--deal`, `--down` and `--above` and the flags
/// `--text` and `--json`.
fn near_command<'a>(alloc: Global) -> Result<clap::Command<'a>, AllocError>
    ensures app { IfOk result (λ c. app_of c ≡ near_app) }
    ensures local { IfOk result IsLocal }
{
    let command = bare_command(
        alloc,
        "near",
        "Find weights near the best where qlock plan finds no plan, with a bound below which no plan's load is: a coterie",
    );
    let text = flag_argument(
        alloc,
        "text",
        "Write the text of the weights, for check, plan, deal, report, resilience and picture load",
    );
    let command = with_argument(Ok(command), near_cycle_argument(alloc));
    let command = with_argument(command, near_deal_argument(alloc));
    let command = with_argument(command, near_down_argument(alloc));
    let command = with_argument(command, near_above_argument(alloc));
    let command = with_argument(command, text);
    with_argument(command, json_argument(alloc))
}

/// Returns the option `--capacity NUMBERS..` of `coterie`.
fn capacity_argument<'a>(alloc: Global) -> Arg<'a>
    ensures rule { rule_of result ≡ capacity_rule }
    ensures local { result.global ≡ false }
{
    Arg::new(alloc, "capacity")
        .help("The capacity of each voter, 1 to 1000; without it each voter has capacity 1")
        .long("capacity")
        .num_args(1..)
        .value_parser(ValueParser::unsigned(1, MOST_CAPACITY))
        .value_name("NUMBERS")
}

/// Returns the subcommand `coterie SHAPE NUMBERS..`, with the option `--capacity`.
fn coterie_command<'a>(alloc: Global) -> Result<clap::Command<'a>, AllocError>
    ensures app { IfOk result (λ c. app_of c ≡ coterie_app) }
    ensures local { IfOk result IsLocal }
{
    let command = bare_command(
        alloc,
        "coterie",
        "Write a coterie of racks, centres, votes or any sets of one size, for qlock plan; standard input is not read",
    );
    let shape = word_argument(
        alloc,
        "SHAPE",
        "racks RACKS VOTERS, centres VOTERS.., votes VOTES.. or any SIZE VOTERS",
    );
    let command = with_argument(Ok(command), shape);
    let command = with_argument(command, sizes_argument(alloc));
    with_argument(command, capacity_argument(alloc))
}

/// Returns the option `--round SECONDS`.
fn round_argument<'a>(alloc: Global) -> Arg<'a>
    ensures rule { rule_of result ≡ round_rule }
    ensures local { result.global ≡ false }
{
    optional_argument(
        alloc,
        "round",
        "How many seconds a fair round takes, 1 to 86400",
        1,
        LONGEST_ROUND,
    )
    .long("round")
    .value_name("SECONDS")
}

/// Returns the option `--down VOTERS` of `waiting`.
fn waiting_down_argument<'a>(alloc: Global) -> Arg<'a>
    ensures rule { rule_of result ≡ waiting_down_rule }
    ensures local { result.global ≡ false }
{
    optional_argument(
        alloc,
        "down",
        "How many voters are down, 1 to 64: the page is about live rounds then",
        1,
        MOST_VOTERS,
    )
    .long("down")
    .value_name("VOTERS")
}

/// Returns the option `--dead CLIENTS` of `waiting`.
fn waiting_dead_argument<'a>(alloc: Global) -> Arg<'a>
    ensures rule { rule_of result ≡ waiting_dead_rule }
    ensures local { result.global ≡ false }
{
    optional_argument(
        alloc,
        "dead",
        "How many of the clients are dead, or idle for good, fewer than there are: the page is about live rounds then",
        1,
        MOST_CLIENTS,
    )
    .long("dead")
    .value_name("CLIENTS")
}

/// Returns the subcommand `waiting CLIENTS [WITHDRAWALS]`, with the options `--round`, `--down` and `--dead`.
fn waiting_command<'a>(alloc: Global) -> Result<clap::Command<'a>, AllocError>
    ensures app { IfOk result (λ c. app_of c ≡ waiting_app) }
    ensures local { IfOk result IsLocal }
{
    let command = bare_command(
        alloc,
        "waiting",
        "Show how long a client waits at most until it is inside, in fair rounds; standard input is not read",
    );
    let clients = number_argument(
        alloc,
        "CLIENTS",
        "How many clients there are, 1 to 64",
        1,
        MOST_CLIENTS,
    );
    let withdrawals = optional_argument(
        alloc,
        "WITHDRAWALS",
        "How many others give up while one waits, 0 to 1000000; 0 if it is left out",
        0,
        MOST_WITHDRAWALS,
    );
    let command = with_argument(Ok(command), clients);
    let command = with_argument(command, withdrawals);
    let command = with_argument(command, round_argument(alloc));
    let command = with_argument(command, waiting_down_argument(alloc));
    with_argument(command, waiting_dead_argument(alloc))
}

/// Returns the subcommand `explain CODE`, of which the code may be left out.
fn explain_command<'a>(alloc: Global) -> Result<clap::Command<'a>, AllocError>
    ensures app { IfOk result (λ c. app_of c ≡ explain_app) }
    ensures local { IfOk result IsLocal }
{
    let code = Arg::new(alloc, "CODE").help(
        "The code of a fault, such as E7, or all; without it the faults are listed",
    );
    bare_command(
        alloc,
        "explain",
        "Explain a fault: what it means, an example, and what usually leads to it",
    )
    .arg(code)
}

/// Returns the subcommand `fault WORDS..`.
fn fault_command<'a>(alloc: Global) -> Result<clap::Command<'a>, AllocError>
    ensures app { IfOk result (λ c. app_of c ≡ fault_app) }
    ensures local { IfOk result IsLocal }
{
    bare_command(
        alloc,
        "fault",
        "Show where an input is wrong: the input that qlock refused, with its words behind",
    )
    .arg(words_argument(
        alloc,
        "WORDS",
        "The words behind qlock, such as deal 5; plan for a coterie alone, check for one with a plan",
    ))
}

/// Returns the subcommand `picture KIND`.
fn picture_command<'a>(alloc: Global) -> Result<clap::Command<'a>, AllocError>
    ensures app { IfOk result (λ c. app_of c ≡ picture_app) }
    ensures local { IfOk result IsLocal }
{
    bare_command(alloc, "picture", "Draw a picture, as SVG").arg(word_argument(
        alloc,
        "KIND",
        "load (a coterie, a line %%, a plan or weights), or world (a coterie, a plan and a script)",
    ))
}

/// Returns the command line with `plan`, `check`, `deal`, `world` and `report`.
fn pages_command<'a>(alloc: Global) -> Result<clap::Command<'a>, AllocError>
    ensures { IfOk result (λ c. app_of c ≡ pages_app) }
{
    let parser = without_commands(
        alloc,
        "qlock-show",
        "Show plans, coteries, faults and scripts of qlock, with names, in words and as pictures",
        VERSION,
    );
    let check = bare_command(
        alloc,
        "check",
        "Check a plan or weights, and write the load and the bound: a coterie, a line %%, and a plan or weights",
    );
    let world = bare_command(
        alloc,
        "world",
        "Tell a script in words: a coterie, a line %%, a plan, a line %%, and a script, or for an exchange two coteries with their plans and a script",
    );
    let report = bare_command(
        alloc,
        "report",
        "Report on a plan as one HTML page: load, quorums, failures borne, evenness, certificate: a coterie, a line %%, and a plan or weights",
    );
    let parser = with_command(Ok(parser), plan_command(alloc));
    let parser = with_command(parser, Ok(check));
    let parser = with_command(parser, deal_command(alloc));
    let parser = with_command(parser, Ok(world));
    with_command(parser, Ok(report))
}

/// Returns the command line with `without`, `resilience` and `bridge` too.
fn coteries_command<'a>(alloc: Global) -> Result<clap::Command<'a>, AllocError>
    ensures { IfOk result (λ c. app_of c ≡ coteries_app) }
{
    let bridge = bare_command(
        alloc,
        "bridge",
        "Show whether each quorum of one coterie meets each of another: a coterie, a line %%, and a coterie",
    );
    let parser = with_command(pages_command(alloc), without_command(alloc));
    let parser = with_command(parser, resilience_command(alloc));
    with_command(parser, Ok(bridge))
}

/// Returns the command line with `near`, `compare`, `coterie` and `waiting` too.
fn planners_command<'a>(alloc: Global) -> Result<clap::Command<'a>, AllocError>
    ensures { IfOk result (λ c. app_of c ≡ planners_app) }
{
    let parser = with_command(coteries_command(alloc), near_command(alloc));
    let parser = with_command(parser, compare_command(alloc));
    let parser = with_command(parser, coterie_command(alloc));
    with_command(parser, waiting_command(alloc))
}

/// Returns the whole command line.
fn show_command<'a>(alloc: Global) -> Result<clap::Command<'a>, AllocError>
    ensures { IfOk result (λ c. app_of c ≡ show_app) }
{
    let parser = with_command(planners_command(alloc), explain_command(alloc));
    let parser = with_command(parser, fault_command(alloc));
    with_command(parser, picture_command(alloc))
}

/// Returns whether a flag with this value is there.
fn is_set(value: &str) -> bool
    ensures set { result ≡ true → value.now ≡ codes "true" }
    ensures unset { result ≡ false → ¬ (value.now ≡ codes "true") }
{
    match value {
        "true" => true,
        _ => false,
    }
}

/// Returns whether the flag with this name is there.
fn has_flag(used: &ArgMatches, name: &str) -> bool
    ensures flag { HasFlag name.now (rows_of (found_of used.now)) result }
{
    match text_of(used, name) {
        Some(value) => is_set(value),
        None => false,
    }
}

/// Returns how a page is written: as JSON with `--json`, else in words.
fn form_of(used: &ArgMatches) -> Form
    ensures form { IsForm (rows_of (found_of used.now)) result }
{
    if has_flag(used, "json") {
        Form::Json
    } else {
        Form::Words
    }
}

/// Returns how tickets are written: as JSON with `--json`, as names with `--names`, else in words.
fn ticket_form_of(used: &ArgMatches) -> TicketForm
    ensures form { IsTicketForm (rows_of (found_of used.now)) result }
{
    if has_flag(used, "json") {
        TicketForm::Json
    } else if has_flag(used, "names") {
        TicketForm::Names
    } else {
        TicketForm::Words
    }
}

/// Returns how weights are written: as JSON with `--json`, as a text with `--text`, else in words.
fn near_form_of(used: &ArgMatches) -> NearForm
    ensures form { IsNearForm (rows_of (found_of used.now)) result }
{
    if has_flag(used, "json") {
        NearForm::Json
    } else if has_flag(used, "text") {
        NearForm::Text
    } else {
        NearForm::Words
    }
}

/// Returns `deal` with its number of tickets, and in the order and the form that its flags say.
fn deal_of(used: &ArgMatches) -> Result<ShowCommand, Usage>
    ensures named { IfOk result (IsNamedBy (used_as (codes "deal") used.now)) }
    ensures refused { IfErr result (RefusesUse (used_as (codes "deal") used.now)) }
    ensures memory { IfErr result (λ usage. usage ≡ Arguments) }
    ensures shown { IfOk result IsShown }
{
    let Some(count) = tickets_of(used) else {
        return Err(Usage::Arguments);
    };
    Ok(ShowCommand::Deal(Dealing {
        count,
        is_even: has_flag(used, "even"),
        form: ticket_form_of(used),
    }))
}

/// Returns the number that an argument is, if it is there and in range; or that it was left out.
fn number_if_given(
    used: &ArgMatches,
    name: &str,
    least: u64,
    most: u64,
) -> Result<Option<u64>, Usage>
    ensures given { IfOk result (MayHaveNumber name.now least most (rows_of (found_of used.now))) }
    ensures refused { IfErr result (λ usage. (usage ≡ Arguments)
        × ((number : Option ℕ) → ¬ MayHaveNumber name.now least most (rows_of (found_of used.now)) number)) }
{
    match text_of(used, name) {
        None => Ok(None),
        Some(_) => match number_of(used, name, least, most) {
            Some(number) => Ok(Some(number)),
            None => Err(Usage::Arguments),
        },
    }
}

/// Returns `near` with how long a cycle is at most, how many tickets are dealt, how many voters may be down,
/// and how much that may cost, if these were said, and the form that its flags say.
fn near_of(used: &ArgMatches) -> Result<ShowCommand, Usage>
    ensures named { IfOk result (IsNamedBy (used_as (codes "near") used.now)) }
    ensures refused { IfErr result (RefusesUse (used_as (codes "near") used.now)) }
    ensures memory { IfErr result (λ usage. usage ≡ Arguments) }
    ensures shown { IfOk result IsShown }
{
    let cycle = match number_if_given(used, "cycle", 1, MAX_CYCLE) {
        Ok(cycle) => cycle,
        Err(usage) => return Err(usage),
    };
    let tickets = match number_if_given(used, "deal", 0, MAX_DEALT) {
        Ok(tickets) => tickets,
        Err(usage) => return Err(usage),
    };
    let down = match number_if_given(used, "down", 1, MOST_DOWN) {
        Ok(down) => down,
        Err(usage) => return Err(usage),
    };
    let above = match number_if_given(used, "above", 0, MOST_ABOVE) {
        Ok(above) => above,
        Err(usage) => return Err(usage),
    };
    Ok(ShowCommand::Near(NearPage {
        form: near_form_of(used),
        cycle,
        tickets,
        down,
        above,
    }))
}

/// Returns `waiting` with its numbers.
fn waiting_of(used: &ArgMatches) -> Result<ShowCommand, Usage>
    ensures named { IfOk result (IsNamedBy (used_as (codes "waiting") used.now)) }
    ensures refused { IfErr result (RefusesUse (used_as (codes "waiting") used.now)) }
    ensures memory { IfErr result (λ usage. usage ≡ Arguments) }
    ensures shown { IfOk result IsShown }
{
    let Some(clients) = number_of(used, "CLIENTS", 1, MOST_CLIENTS) else {
        return Err(Usage::Arguments);
    };
    let withdrawals = match number_if_given(used, "WITHDRAWALS", 0, MOST_WITHDRAWALS) {
        Ok(withdrawals) => withdrawals,
        Err(usage) => return Err(usage),
    };
    let round = match number_if_given(used, "round", 1, LONGEST_ROUND) {
        Ok(round) => round,
        Err(usage) => return Err(usage),
    };
    let down = match number_if_given(used, "down", 1, MOST_VOTERS) {
        Ok(down) => down,
        Err(usage) => return Err(usage),
    };
    let dead = match number_if_given(used, "dead", 1, MOST_CLIENTS) {
        Ok(dead) => dead,
        Err(usage) => return Err(usage),
    };
    if dead.is_some_and(|dead| dead >= clients) {
        return Err(Usage::Arguments);
    }
    Ok(ShowCommand::Waiting(Waiting {
        clients,
        withdrawals,
        round,
        down,
        dead,
    }))
}

/// Returns `explain` with the fault that its word names, or that explains or lists all faults.
fn explain_of(used: &ArgMatches) -> Result<ShowCommand, Usage>
    ensures named { IfOk result (IsNamedBy (used_as (codes "explain") used.now)) }
    ensures refused { IfErr result (RefusesUse (used_as (codes "explain") used.now)) }
    ensures memory { IfErr result (λ usage. usage ≡ Arguments) }
    ensures shown { IfOk result IsShown }
{
    let Some(code) = text_of(used, "CODE") else {
        return Ok(ShowCommand::ListFaults);
    };
    if code == "all" {
        return Ok(ShowCommand::ExplainAll);
    }
    match explanation_of(code) {
        Some(explanation) => Ok(ShowCommand::Explain(explanation)),
        None => Err(Usage::Arguments),
    }
}

/// Returns the picture with this name, if there is one.
fn picture_named(kind: &str) -> Option<Picture>
    ensures some { IfSome result (λ picture. kind.now ≡ picture_word picture) }
    ensures none { result ≡ None → (picture : Picture) → ¬ (kind.now ≡ picture_word picture) }
{
    match kind {
        "load" => Some(Picture::Load),
        "world" => Some(Picture::World),
        _ => None,
    }
}

/// Returns `picture` with the picture that its word names.
fn picture_of(used: &ArgMatches) -> Result<ShowCommand, Usage>
    ensures named { IfOk result (IsNamedBy (used_as (codes "picture") used.now)) }
    ensures refused { IfErr result (RefusesUse (used_as (codes "picture") used.now)) }
    ensures memory { IfErr result (λ usage. usage ≡ Arguments) }
    ensures shown { IfOk result IsShown }
{
    let Some(kind) = text_of(used, "KIND") else {
        return Err(Usage::Arguments);
    };
    match picture_named(kind) {
        Some(picture) => Ok(ShowCommand::Picture(picture)),
        None => Err(Usage::Arguments),
    }
}

/// Appends these texts to a list.
fn push_texts(alloc: Global, words: &mut Vec<String>, texts: &[&str]) -> Result<(), AllocError>
    ensures { OnOk result (map string_bytes words.new.items
        ≡ map string_bytes words.old.items ++ map (λ t. t.now) texts.now) }
{
    for i in 0..texts.len() {
        words.push(String::from_str(alloc, text_at(texts, i))?)?;
    }
    Ok(())
}

/// Returns the values of an argument, if there are any.
fn texts_given(alloc: Global, used: &ArgMatches, name: &str) -> Result<Vec<String>, Usage>
    ensures given { IfOk result (λ texts. HasTexts name.now (rows_of (found_of used.now)) texts.items) }
    ensures missing { IfErr result (λ usage. usage ≡ Arguments → None ≡ all_of name.now (rows_of (found_of used.now))) }
    ensures memory { IfErr result (λ usage. (usage ≡ Arguments) ⊎ (usage ≡ OutOfMemory)) }
{
    let Some(texts) = texts_of(used, name) else {
        return Err(Usage::Arguments);
    };
    let mut words = Vec::new(alloc);
    push_texts(alloc, &mut words, texts)?;
    Ok(words)
}

/// Returns the capacities that `--capacity` has, if it is there.
fn capacities_of(alloc: Global, used: &ArgMatches) -> Result<Option<Vec<u64>>, Usage>
    ensures given { IfOk result (MayHaveCapacities (rows_of (found_of used.now))) }
    ensures refused { IfErr result (λ usage. usage ≡ Arguments
        → (list : Option (Vec ℕ Global)) → ¬ MayHaveCapacities (rows_of (found_of used.now)) list) }
    ensures memory { IfErr result (λ usage. (usage ≡ Arguments) ⊎ (usage ≡ OutOfMemory)) }
{
    if texts_of(used, "capacity").is_none() {
        return Ok(None);
    }
    match sizes_given(alloc, used, "capacity")? {
        Some(capacities) => Ok(Some(widened(alloc, &capacities)?)),
        None => Err(Usage::Arguments),
    }
}

/// Returns `coterie` with its shape and its capacities.
fn coterie_of(alloc: Global, used: &ArgMatches) -> Result<ShowCommand, Usage>
    ensures named { IfOk result (IsNamedBy (used_as (codes "coterie") used.now)) }
    ensures refused { IfErr result (RefusesUse (used_as (codes "coterie") used.now)) }
    ensures shown { IfOk result IsShown }
{
    let Some(name) = text_of(used, "SHAPE") else {
        return Err(Usage::Arguments);
    };
    let Some(sizes) = sizes_given(alloc, used, "NUMBERS")? else {
        return Err(Usage::Arguments);
    };
    let Some(shape) = shape_of(alloc, name, &sizes)? else {
        return Err(Usage::Arguments);
    };
    match capacities_of(alloc, used) {
        Ok(capacities) => Ok(ShowCommand::Coterie(shape, capacities)),
        Err(usage) => Err(usage),
    }
}

/// Returns `compare` with the names of its files, and the form that its flag says.
fn compare_of(alloc: Global, used: &ArgMatches) -> Result<ShowCommand, Usage>
    ensures named { IfOk result (IsNamedBy (used_as (codes "compare") used.now)) }
    ensures refused { IfErr result (RefusesUse (used_as (codes "compare") used.now)) }
    ensures shown { IfOk result IsShown }
{
    match texts_given(alloc, used, "FILES") {
        Ok(files) if files.len() <= MOST_FILES => Ok(ShowCommand::Compare(files, form_of(used))),
        Ok(_) => Err(Usage::Arguments),
        Err(usage) => Err(usage),
    }
}

/// Returns `without` with the names that its words are.
fn without_of(alloc: Global, used: &ArgMatches) -> Result<ShowCommand, Usage>
    ensures named { IfOk result (IsNamedBy (used_as (codes "without") used.now)) }
    ensures refused { IfErr result (RefusesUse (used_as (codes "without") used.now)) }
    ensures shown { IfOk result IsShown }
{
    match texts_given(alloc, used, "NAMES") {
        Ok(names) => Ok(ShowCommand::Without(names)),
        Err(usage) => Err(usage),
    }
}

/// Returns a command line of `qlock` with these words behind its name.
fn qlock_line(alloc: Global, texts: &[&str]) -> Result<Vec<String>, AllocError>
    ensures { IfOk result (λ words. map string_bytes words.items ≡ codes "qlock" ∷ map (λ t. t.now) texts.now) }
{
    let mut words = Vec::new(alloc);
    words.push(String::from_str(alloc, "qlock")?)?;
    push_texts(alloc, &mut words, texts)?;
    Ok(words)
}

/// Returns the command line of `qlock` whose words are those behind `fault`.
fn words_behind(alloc: Global, used: &ArgMatches) -> Result<Vec<String>, AllocError>
    ensures { IfOk result (λ words. map string_bytes words.items ≡ qlock_words (rows_of (found_of used.now))) }
{
    match texts_of(used, "WORDS") {
        Some(texts) => qlock_line(alloc, texts),
        None => qlock_line(alloc, &[]),
    }
}

/// Returns `fault` with the command of `qlock` that its words name.
fn fault_of(alloc: Global, used: &ArgMatches) -> Result<ShowCommand, Usage>
    ensures named { IfOk result (IsNamedBy (used_as (codes "fault") used.now)) }
    ensures refused { IfErr result (RefusesUse (used_as (codes "fault") used.now)) }
    ensures shown { IfOk result IsShown }
{
    let words = words_behind(alloc, used)?;
    match read_words(alloc, words.as_slice()) {
        Ok(command) => Ok(ShowCommand::Fault(command)),
        Err(usage) => Err(usage),
    }
}

/// Returns the command that a subcommand and its values name.
fn command_named(alloc: Global, name: &str, used: &ArgMatches) -> Result<ShowCommand, Usage>
    ensures named { IfOk result (IsNamedBy (used_as name.now used.now)) }
    ensures refused { IfErr result (RefusesUse (used_as name.now used.now)) }
    ensures shown { IfOk result IsShown }
{
    match name {
        "plan" => Ok(ShowCommand::Plan(form_of(used))),
        "check" => Ok(ShowCommand::Check),
        "world" => Ok(ShowCommand::World),
        "report" => Ok(ShowCommand::Report),
        "resilience" => Ok(ShowCommand::Resilience(form_of(used))),
        "bridge" => Ok(ShowCommand::Bridge),
        "near" => near_of(used),
        "compare" => compare_of(alloc, used),
        "coterie" => coterie_of(alloc, used),
        "without" => without_of(alloc, used),
        "deal" => deal_of(used),
        "waiting" => waiting_of(used),
        "explain" => explain_of(used),
        "fault" => fault_of(alloc, used),
        "picture" => picture_of(used),
        _ => Err(Usage::Arguments),
    }
}

/// Returns the command that the used subcommand and its values name.
fn command_of(alloc: Global, matches: &ArgMatches) -> Result<ShowCommand, Usage>
    ensures named { IfOk result (IsNamedBy (subcommand_rows_of matches.now)) }
    ensures refused { IfErr result (RefusesUse (subcommand_rows_of matches.now)) }
    ensures shown { IfOk result IsShown }
{
    match used_in(matches) {
        Some((name, used)) => command_named(alloc, name, used),
        None => Err(Usage::Arguments),
    }
}

/// Returns the command that the words name. The first word is the program's own name.
///
/// Fails with `Refused` if clap finds a fault, in the words or in those behind `fault`, or a request
/// for help or for the version. Fails with `Arguments` if the words still name no command: the code
/// of `explain` or the kind of a picture is unknown, or the words behind `fault` name no command of
/// `qlock`. May fail with `OutOfMemory` for any words.
pub fn read_show_words(alloc: Global, words: &[String]) -> Result<ShowCommand, Usage>
    // The command is the one that the words name.
    ensures named { IfOk result (Names (map string_bytes words.now)) }
    // Words are refused only for what clap finds in them, or because they name no command.
    ensures refused { IfErr result (Refuses (map string_bytes words.now)) }
    // The command's numbers are in range.
    ensures shown { IfOk result IsShown }
{
    match read_matches(show_command(alloc)?, words) {
        Ok(matches) => command_of(alloc, &matches),
        Err(usage) => Err(usage),
    }
}
