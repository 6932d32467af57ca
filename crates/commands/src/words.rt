//! Which command the words of a command line name.
ghost use Rattle.std.specs.Prelude.{IfErr, IfOk, map, string_bytes};
ghost use Rattle.command_line.specs.Words.{Names, Refuses};
ghost use Rattle.commands.specs.Commands.{IsInRange};

use crate::laws::named_commands_are_in_range;
use command_line::{Command, Usage};
use std::alloc::Global;

/// Returns the command that the words name, with its numbers in range. It fails as
/// [`command_line::read_words`] does, which it calls.
pub fn read_words(alloc: Global, words: &[String]) -> Result<Command, Usage>
    ensures named { IfOk result (Names (map string_bytes words.now)) }
    ensures refused { IfErr result (Refuses (map string_bytes words.now)) }
    ensures in_range { IfOk result IsInRange }
{
    named_commands_are_in_range();
    command_line::read_words(alloc, words)
}
