//! What clap finds in the words, and the values of arguments.
ghost use Rattle.std.specs.Prelude.{◌≡◌, ◌<◌, ℕ, [], length, slice_index_or, true, IfErr, IfOk, IfSome, None, codes, map, option_map, string_bytes};
ghost use Rattle.numbers.specs.Bounds.{max_dealt};
ghost use Rattle.clap.specs.Words.{all_of, app_of, first_of, found_of, is_simple_and_free, rows_of, subcommand_rows_of};
ghost use Rattle.command_line.specs.Words.{HasMatches, HasNumber, RefusesByClap};

use crate::usage::Usage;
use clap::ArgMatches;
use numbers::MAX_DEALT;

/// Returns what clap finds in the words. The first word is the program's own name.
pub fn read_matches<'a>(
    command: clap::Command<'a>,
    words: &'a [String],
) -> Result<ArgMatches<'a>, Usage>
    requires free { is_simple_and_free (app_of command) ≡ true }
    ensures found { IfOk result (HasMatches (app_of command.entry) (map string_bytes words.now)) }
    ensures refused { IfErr result (RefusesByClap (app_of command.entry) (map string_bytes words.now)) }
{
    Ok(command.try_get_matches_from(words)?)
}

/// Returns the name of the used subcommand, and what clap found for it.
pub fn used_in<'b, 'a>(matches: &'b ArgMatches<'a>) -> Option<(&'a str, &'b ArgMatches<'a>)>
    ensures { option_map (λ used. (used.0.now, rows_of (found_of used.1.now))) result ≡ subcommand_rows_of matches.now }
{
    matches.subcommand()
}

/// Returns the value of an argument, or the first of several.
pub fn text_of<'a>(used: &ArgMatches<'a>, name: &str) -> Option<&'a str>
    ensures { option_map (λ text. text.now) result ≡ first_of name.now (rows_of (found_of used.now)) }
{
    used.get_str(name)
}

/// Returns all values of an argument.
pub fn texts_of<'b, 'a>(used: &'b ArgMatches<'a>, name: &str) -> Option<&'b [&'a str]>
    ensures { option_map (λ texts. map (λ text. text.now) texts.now) result ≡ all_of name.now (rows_of (found_of used.now)) }
{
    used.get_strs(name)
}

/// Returns the text at a place.
pub fn text_at<'a>(texts: &[&'a str], i: usize) -> &'a str
    requires { i < length texts.now }
    ensures { result.now ≡ slice_index_or (map (λ t. t.now) texts.now) i [] }
{
    texts[i]
}

/// Returns the number that an argument is, if it is at least `least` and at most `most`.
pub fn number_of(used: &ArgMatches, name: &str, least: u64, most: u64) -> Option<u64>
    ensures some { IfSome result (HasNumber name.now least most (rows_of (found_of used.now))) }
    ensures none { result ≡ None → (number : ℕ) → ¬ HasNumber name.now least most (rows_of (found_of used.now)) number }
{
    let Some(text) = text_of(used, name) else {
        return None;
    };
    match text.parse::<u64>() {
        Ok(number) if least <= number && number <= most => Some(number),
        _ => None,
    }
}

/// Returns how many tickets to deal, or `None` if the argument is no number or too large.
pub fn tickets_of(used: &ArgMatches) -> Option<u32>
    ensures some { IfSome result (HasNumber (codes "N") 0 max_dealt (rows_of (found_of used.now))) }
    ensures none { result ≡ None → (number : ℕ) → ¬ HasNumber (codes "N") 0 max_dealt (rows_of (found_of used.now)) number }
{
    match number_of(used, "N", 0, MAX_DEALT) {
        Some(tickets) => Some(tickets as u32),
        None => None,
    }
}
