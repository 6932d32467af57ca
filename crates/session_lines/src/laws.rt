//! Laws: what is proved about lines of control.
ghost use Rattle.std.specs.Prelude.{◌≡◌, ◌++◌, codes, ℕ, List, Some};
ghost use Rattle.texts.specs.Cuts.{cut_at};
ghost use Rattle.line_words.specs.Lines.{control_line};
ghost use Rattle.session_lines.specs.Control.{ClientWordFits, SaysFits, client_line, says_line};
ghost use Rattle.session_lines.specs.declared.control.ClientWord.{ClientWord};
ghost use Rattle.session_lines.specs.declared.control.VoterSays.{VoterSays};

/// A text that begins with a line of control is cut at its first newline into a dot, a space and the words
/// of the line, and what is behind it. So what is written in front of any lines is read back.
pub fn control_lines_are_cut()
    ensures clients { (w : ClientWord) (rest : List ℕ) → ClientWordFits w
        → cut_at 10 (control_line (client_line w) ++ rest) ≡ Some (codes ". " ++ client_line w, rest) }
    ensures voters { (s : VoterSays) (rest : List ℕ) → SaysFits s
        → cut_at 10 (control_line (says_line s) ++ rest) ≡ Some (codes ". " ++ says_line s, rest) }
{}
