//! Subcommands and arguments as both programs declare them.
ghost use Rattle.std.specs.Prelude.{◌≡◌, false, IfOk};
ghost use Rattle.clap.specs.Words.{App, Rule, app_of, new_app, rule_of, with_rule, with_subcommand};
ghost use Rattle.command_line.specs.Words.{IsLocal, number_rule, required_subcommand, tickets_rule, with_version, word_rule};

use clap::Arg;
use clap::builder::ValueParser;
use numbers::MAX_DEALT;
use std::alloc::{AllocError, Global};

/// Returns a subcommand without arguments.
pub fn bare_command<'a>(alloc: Global, name: &'a str, about: &'a str) -> clap::Command<'a>
    ensures app { app_of result ≡ new_app name.now }
    ensures local { IsLocal result }
{
    clap::Command::new(alloc, name).about(about)
}

/// Returns an argument that has to be there: any word.
pub fn word_argument<'a>(alloc: Global, name: &'a str, help: &'a str) -> Arg<'a>
    ensures rule { rule_of result ≡ word_rule name.now }
    ensures local { result.global ≡ false }
{
    Arg::new(alloc, name).help(help).required(true)
}

/// Returns an argument that has to be there: a number from `least` to `most`.
pub fn number_argument<'a>(
    alloc: Global,
    name: &'a str,
    help: &'a str,
    least: u64,
    most: u64,
) -> Arg<'a>
    ensures rule { rule_of result ≡ number_rule name.now least most }
    ensures local { result.global ≡ false }
{
    word_argument(alloc, name, help).value_parser(ValueParser::unsigned(least, most))
}

/// Returns the argument N of `deal`: 0 to 100,000.
pub fn tickets_argument<'a>(alloc: Global) -> Arg<'a>
    ensures rule { rule_of result ≡ tickets_rule }
    ensures local { result.global ≡ false }
{
    number_argument(
        alloc,
        "N",
        "How many tickets to deal, 0 to 100000",
        0,
        MAX_DEALT,
    )
}

/// Returns a subcommand with one more argument. Fails if memory runs out, or if it ran out as the
/// subcommand was made.
pub fn with_argument<'a>(
    command: Result<clap::Command<'a>, AllocError>,
    arg: Arg<'a>,
) -> Result<clap::Command<'a>, AllocError>
    ensures app { (app : App) (rule : Rule) → IfOk command.entry (λ c. app_of c ≡ app)
        → rule_of arg.entry ≡ rule → arg.entry.global ≡ false
        → IfOk result (λ c. app_of c ≡ with_rule app rule) }
    ensures local { IfOk command.entry IsLocal → arg.entry.global ≡ false → IfOk result IsLocal }
{
    command?.arg(arg)
}

/// Returns a command line with one more subcommand. Fails if memory runs out, or if it ran out as
/// one of the two was made.
pub fn with_command<'a>(
    parser: Result<clap::Command<'a>, AllocError>,
    added: Result<clap::Command<'a>, AllocError>,
) -> Result<clap::Command<'a>, AllocError>
    ensures { (app more : App) → IfOk parser.entry (λ c. app_of c ≡ app)
        → IfOk added.entry (λ c. app_of c ≡ more) → IfOk added.entry IsLocal
        → IfOk result (λ c. app_of c ≡ with_subcommand app more.top) }
{
    parser?.subcommand(added?)
}

/// Returns a command line that has a version and needs a subcommand, but has none yet.
pub fn without_commands<'a>(
    alloc: Global,
    name: &'a str,
    about: &'a str,
    version: &'a str,
) -> clap::Command<'a>
    ensures { app_of result ≡ required_subcommand (with_version (new_app name.now)) }
{
    bare_command(alloc, name, about)
        .version(version)
        .subcommand_required(true)
}
