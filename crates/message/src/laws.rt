//! Laws: what is proved about the definitions.
ghost use Rattle.std.specs.Prelude.{◌≡◌, ◌++◌, ◌∷◌, ℕ, List, []};
ghost use Rattle.message.specs.declared.message.Message.{Message};
ghost use Rattle.message.specs.Lines.{HasLine, message_line};

use crate::message::Message;
use texts::lines_are_read_in_one_way;

/// No message's line, with its newline, is the beginning of another one that is longer.
pub fn lines_end()
    ensures { (m n : Message) (more : List ℕ) → HasLine m → HasLine n
        → message_line m ++ 10 ∷ more ≡ message_line n ++ 10 ∷ [] → more ≡ [] }
{
    lines_are_read_in_one_way::<Message>();
}
