//! Laws of the definitions.
ghost use Rattle.std.specs.Prelude.{◌≡◌, ℕ, List, Option, true, IfSome};
ghost use Rattle.command_line.specs.Words.{IsNamedBy, Row, Text};
ghost use Rattle.command_line.specs.declared.command.Command.{Command};
ghost use Rattle.commands.specs.Commands.{ComesOf, IsInRange, IsRefusedBy, IsShortFor, reads_input};
ghost use Rattle.commands.specs.Devices.{IsOwn};
ghost use Rattle.commands.specs.declared.fault.Fault.{Fault};

/// A command that words name has its numbers in range.
pub fn named_commands_are_in_range()
    ensures { (used : Option (Text × List Row)) (command : Command) → IsNamedBy used command → IsInRange command }
{}

/// A fault with which a command refuses what it read comes of the known bytes. What a command does
/// not read makes no difference.
pub fn refusals_come_of_the_input()
    ensures { (command : Command) (bytes : Option (List ℕ)) (input : List ℕ) (fault : Fault)
        → (reads_input command ≡ true → IfSome bytes (λ known. input ≡ known))
        → IsOwn fault → IsShortFor command input → IsRefusedBy command input fault
        → IfSome bytes (λ known. ComesOf command known fault) }
{}
