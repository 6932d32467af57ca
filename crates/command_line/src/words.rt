//! The command line: which command its words name.
ghost use Rattle.std.specs.Prelude.{◌≡◌, ◌≢◌, ◌≤◌, ℕ, List, [], false, IfErr, IfOk, IfSome, None, codes, map, string_bytes};
ghost use Rattle.clap.specs.Words.{app_of, found_of, rows_of, rule_of, subcommand_rows_of};
ghost use Rattle.command_line.specs.declared.command.Shape.{Shape};
ghost use Rattle.command_line.specs.Words.{AreSizes, IsLocal, IsNamedBy, IsNumber, IsShapeOf, Names, Refuses, RefusesUse, deal_app, make_app, qlock_app, run_app, size_texts, sizes_rule, used_as};

use crate::arguments::{
    bare_command, number_argument, tickets_argument, with_argument, with_command, without_commands,
    word_argument,
};
use crate::command::{Command, Shape};
use crate::usage::Usage;
use crate::values::{number_of, read_matches, text_at, text_of, texts_of, tickets_of, used_in};
use clap::builder::ValueParser;
use clap::{Arg, ArgMatches};
use numbers::MAX_CLIENTS;
use std::alloc::{AllocError, Global};

/// The version of the programs, as in `CHANGELOG.md`.
pub const VERSION: &str = "0.2.0";

/// The greatest number of clients that run.
const MOST_CLIENTS: u64 = MAX_CLIENTS as u64;

/// The greatest number of passes of each client that runs.
const MOST_PASSES: u64 = 1_000;

/// The greatest number of turns that a client has for all its passes.
const MOST_TURNS: u64 = 1_000_000_000_000;

/// The greatest size of a shape that the command line takes.
const LARGEST_SIZE: u64 = 9_999;

/// Returns the argument NUMBERS: any count of numbers. How many there have to be depends on the
/// shape.
pub fn sizes_argument<'a>(alloc: Global) -> Arg<'a>
    ensures rule { rule_of result ≡ sizes_rule }
    ensures local { result.global ≡ false }
{
    Arg::new(alloc, "NUMBERS")
        .help("The sizes of the shape, 0 to 9999")
        .num_args(0..)
        .value_parser(ValueParser::unsigned(0, LARGEST_SIZE))
}

/// Returns the subcommand `make SHAPE NUMBERS..`.
fn make_command<'a>(alloc: Global) -> Result<clap::Command<'a>, AllocError>
    ensures app { IfOk result (λ c. app_of c ≡ make_app) }
    ensures local { IfOk result IsLocal }
{
    let command = bare_command(
        alloc,
        "make",
        "Write a coterie of a known shape; standard input is not read",
    );
    let shape = word_argument(
        alloc,
        "SHAPE",
        "grid ROWS COLUMNS, majority VOTERS, tree HEIGHT, wheel RIMS or cyclic VOTERS BASE..",
    );
    let command = with_argument(Ok(command), shape);
    with_argument(command, sizes_argument(alloc))
}

/// Returns the subcommand `deal N`.
fn deal_command<'a>(alloc: Global) -> Result<clap::Command<'a>, AllocError>
    ensures app { IfOk result (λ c. app_of c ≡ deal_app) }
    ensures local { IfOk result IsLocal }
{
    bare_command(
        alloc,
        "deal",
        "Deal tickets by a plan: standard input has the coterie, a line %%, and the plan",
    )
    .arg(tickets_argument(alloc))
}

/// Returns the subcommand `run CLIENTS PASSES TURNS`.
fn run_command<'a>(alloc: Global) -> Result<clap::Command<'a>, AllocError>
    ensures app { IfOk result (λ c. app_of c ≡ run_app) }
    ensures local { IfOk result IsLocal }
{
    let command = bare_command(
        alloc,
        "run",
        "Run clients in threads, and write their record: standard input has the coterie, a line %%, and the plan",
    );
    let clients = number_argument(
        alloc,
        "CLIENTS",
        "How many clients there are, 1 to 64",
        1,
        MOST_CLIENTS,
    );
    let passes = number_argument(
        alloc,
        "PASSES",
        "How often each client passes, 0 to 1000",
        0,
        MOST_PASSES,
    );
    let turns = number_argument(
        alloc,
        "TURNS",
        "How many turns each client has for all its passes, 0 to 1000000000000",
        0,
        MOST_TURNS,
    );
    let command = with_argument(Ok(command), clients);
    let command = with_argument(command, passes);
    with_argument(command, turns)
}

/// Returns the whole command line.
fn qlock_command<'a>(alloc: Global) -> Result<clap::Command<'a>, AllocError>
    ensures { IfOk result (λ c. app_of c ≡ qlock_app) }
{
    let parser = without_commands(
        alloc,
        "qlock",
        "Plan quorums whose busiest voter is as idle as possible, and run the lock that they guard",
        VERSION,
    );
    let plan = bare_command(alloc, "plan", "Find a plan: standard input has a coterie");
    let check = bare_command(
        alloc,
        "check",
        "Check a plan: standard input has the coterie, a line %%, and the plan",
    );
    let world = bare_command(
        alloc,
        "world",
        "Run a script of clients and voters: standard input has the coterie, a line %%, the plan, a line %%, and the script",
    );
    let replay = bare_command(
        alloc,
        "replay",
        "Check the record of a run: standard input has the coterie, a line %%, the plan, a line %%, and the record",
    );
    let parser = with_command(Ok(parser), make_command(alloc));
    let parser = with_command(parser, Ok(plan));
    let parser = with_command(parser, Ok(check));
    let parser = with_command(parser, deal_command(alloc));
    let parser = with_command(parser, Ok(world));
    let parser = with_command(parser, run_command(alloc));
    with_command(parser, Ok(replay))
}

/// Returns the size that a text is, or `None` if it is not a number or too large.
fn size_of(text: &str) -> Option<u32>
    ensures some { IfSome result (λ size. IsNumber text.now size × (size ≤ 9999)) }
    ensures none { result ≡ None → (size : ℕ) → IsNumber text.now size → ¬ (size ≤ 9999) }
{
    match text.parse::<u32>() {
        Ok(size) if u64::from(size) <= LARGEST_SIZE => Some(size),
        _ => None,
    }
}

/// Returns the sizes that the texts are, or `None` if one is not a number or too large.
fn sizes_of(alloc: Global, texts: &[&str]) -> Result<Option<Vec<u32>>, AllocError>
    ensures some { IfOk result (λ o. IfSome o (λ sizes. AreSizes (map (λ t. t.now) texts.now) sizes.items)) }
    ensures none { IfOk result (λ o. o ≡ None → (sizes : List ℕ) → ¬ AreSizes (map (λ t. t.now) texts.now) sizes) }
{
    let mut sizes = Vec::with_capacity(alloc, texts.len())?;
    for i in 0..texts.len() {
        let Some(size) = size_of(text_at(texts, i)) else {
            return Ok(None);
        };
        sizes.push(size)?;
    }
    Ok(Some(sizes))
}

/// Returns the numbers that an argument has on the command line, or `None` if one is not a number or
/// above 9999.
pub fn sizes_given(
    alloc: Global,
    used: &ArgMatches,
    name: &str,
) -> Result<Option<Vec<u32>>, AllocError>
    ensures some { IfOk result (λ o.
        IfSome o (λ sizes. AreSizes (size_texts name.now (rows_of (found_of used.now))) sizes.items)) }
    ensures none { IfOk result (λ o.
        o ≡ None → (sizes : List ℕ) → ¬ AreSizes (size_texts name.now (rows_of (found_of used.now))) sizes) }
{
    match texts_of(used, name) {
        Some(texts) => sizes_of(alloc, texts),
        None => sizes_of(alloc, &[]),
    }
}

/// Returns the cyclic shape with these sizes: the number of voters, and after it the base. Returns
/// `None` if there are no sizes.
fn cyclic_shape(mut sizes: Vec<u32>) -> Option<Shape>
    ensures some { IfSome result (IsShapeOf (codes "cyclic") sizes.items) }
    ensures none { result ≡ None → sizes.items ≡ [] }
{
    if sizes.is_empty() {
        return None;
    }
    let voters = sizes.remove(0);
    Some(Shape::Cyclic(voters, sizes))
}

/// Returns the shape with this name and these sizes, or `None` if there is none or it is cyclic.
fn fixed_shape(name: &str, sizes: &[u32]) -> Option<Shape>
    ensures some { IfSome result (IsShapeOf name.now sizes.now) }
    ensures none { result ≡ None → name.now ≢ codes "cyclic" → (shape : Shape) → ¬ IsShapeOf name.now sizes.now shape }
{
    match (name, sizes) {
        ("grid", [rows, columns]) => Some(Shape::Grid(*rows, *columns)),
        ("majority", [voters]) => Some(Shape::Majority(*voters)),
        ("tree", [height]) => Some(Shape::Tree(*height)),
        ("wheel", [rims]) => Some(Shape::Wheel(*rims)),
        _ => None,
    }
}

/// Returns the shape with this name and these sizes, or `None` if there is none.
fn shape_of(name: &str, sizes: Vec<u32>) -> Option<Shape>
    ensures some { IfSome result (IsShapeOf name.now sizes.items) }
    ensures none { result ≡ None → (shape : Shape) → ¬ IsShapeOf name.now sizes.items shape }
{
    if name == "cyclic" {
        cyclic_shape(sizes)
    } else {
        fixed_shape(name, &sizes)
    }
}

/// Returns `make` with its shape.
fn make_of(alloc: Global, used: &ArgMatches) -> Result<Command, Usage>
    ensures named { IfOk result (IsNamedBy (used_as (codes "make") used.now)) }
    ensures refused { IfErr result (RefusesUse (used_as (codes "make") used.now)) }
{
    let Some(name) = text_of(used, "SHAPE") else {
        return Err(Usage::Arguments);
    };
    let Some(sizes) = sizes_given(alloc, used, "NUMBERS")? else {
        return Err(Usage::Arguments);
    };
    match shape_of(name, sizes) {
        Some(shape) => Ok(Command::Make(shape)),
        None => Err(Usage::Arguments),
    }
}

/// Returns `deal` with its number of tickets.
fn deal_of(used: &ArgMatches) -> Result<Command, Usage>
    ensures named { IfOk result (IsNamedBy (used_as (codes "deal") used.now)) }
    ensures refused { IfErr result (RefusesUse (used_as (codes "deal") used.now)) }
{
    match tickets_of(used) {
        Some(tickets) => Ok(Command::Deal(tickets)),
        None => Err(Usage::Arguments),
    }
}

/// Returns `run` with its numbers.
fn run_of(used: &ArgMatches) -> Result<Command, Usage>
    ensures named { IfOk result (IsNamedBy (used_as (codes "run") used.now)) }
    ensures refused { IfErr result (RefusesUse (used_as (codes "run") used.now)) }
{
    let clients = number_of(used, "CLIENTS", 1, MOST_CLIENTS);
    let passes = number_of(used, "PASSES", 0, MOST_PASSES);
    let turns = number_of(used, "TURNS", 0, MOST_TURNS);
    match (clients, passes, turns) {
        (Some(clients), Some(passes), Some(turns)) => Ok(Command::Run {
            clients: clients as u8,
            passes,
            turns,
        }),
        _ => Err(Usage::Arguments),
    }
}

/// Returns the command that a subcommand and its values name.
fn command_named(alloc: Global, name: &str, used: &ArgMatches) -> Result<Command, Usage>
    ensures named { IfOk result (IsNamedBy (used_as name.now used.now)) }
    ensures refused { IfErr result (RefusesUse (used_as name.now used.now)) }
{
    match name {
        "plan" => Ok(Command::Plan),
        "check" => Ok(Command::Check),
        "world" => Ok(Command::World),
        "replay" => Ok(Command::Replay),
        "make" => make_of(alloc, used),
        "deal" => deal_of(used),
        "run" => run_of(used),
        _ => Err(Usage::Arguments),
    }
}

/// Returns the command that the used subcommand and its values name.
fn command_of(alloc: Global, matches: &ArgMatches) -> Result<Command, Usage>
    ensures named { IfOk result (IsNamedBy (subcommand_rows_of matches.now)) }
    ensures refused { IfErr result (RefusesUse (subcommand_rows_of matches.now)) }
{
    match used_in(matches) {
        Some((name, used)) => command_named(alloc, name, used),
        None => Err(Usage::Arguments),
    }
}

/// Returns the command that the words name. The first word is the program's own name.
///
/// Fails with `Refused` if clap finds a fault: a number out of range, a word that is missing, extra
/// or unknown, or a request for help. Fails with `Arguments` if clap finds none and the words still
/// name no command: the shape of `make` is unknown, or has too few or too many numbers. May fail
/// with `OutOfMemory` for any words.
pub fn read_words(alloc: Global, words: &[String]) -> Result<Command, Usage>
    ensures named { IfOk result (Names (map string_bytes words.now)) }
    ensures refused { IfErr result (Refuses (map string_bytes words.now)) }
{
    match read_matches(qlock_command(alloc)?, words) {
        Ok(matches) => command_of(alloc, &matches),
        Err(usage) => Err(usage),
    }
}
