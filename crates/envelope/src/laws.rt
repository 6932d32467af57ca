//! Laws: what is proved about headers, and about lines with the name of a lock.
ghost use Rattle.std.specs.Prelude.{◌≡◌, ◌≤◌, ◌++◌, [], codes, ℕ, List, length};
ghost use Rattle.envelope.specs.declared.locks.LockSays.{LockSays};
ghost use Rattle.envelope.specs.LockLines.{AreLinePlaces, HasNoNewline, IsFirstLine, IsLineName, IsLockName, LockSaysFits, lock_at, lock_says_line, named_line};
ghost use Rattle.envelope.specs.Headers.{ArePlaces, Head, HasLine, IsMessage, head_line, part};
ghost use Rattle.line_words.specs.Lines.{control_line};

use crate::lock_lines::first_line;
use crate::reading::read_header;

/// The line of a header and any lines are a message with this header, these lines and no ignored word. So
/// what is written is read back.
pub fn headers_are_read_back()
    ensures { (h : Head) (lines : List ℕ) → HasLine h → IsMessage (head_line h ++ lines) h [] lines }
{}

/// The line of a header has at most 297 bytes.
pub fn headers_fit()
    ensures { (h : Head) → HasLine h → length (head_line h) ≤ 297 }
{}

/// A message has one header, one list of ignored words, and one text of lines.
pub fn a_message_has_one_header(message: &[u8])
    ensures { (h k : Head) (ignored lines others more : List ℕ) → IsMessage message.now h ignored lines → IsMessage message.now k others more
        → (h ≡ k) × (ignored ≡ others) × (lines ≡ more) }
{
    let _ = read_header(message);
}

/// In a message the names of the header are where [`name_at`](crate::name_at) and the lengths of the others say, and the lines behind it
/// are its end.
pub fn names_have_places()
    ensures { (text : List ℕ) (h : Head) (ignored lines : List ℕ) → IsMessage text h ignored lines → ArePlaces text h lines }
{}

/// A line with a lock's name, or with the dot of control, is the first line of any text that begins with it. So
/// what is written in front of any lines is cut off again.
pub fn lines_are_cut_off()
    ensures lines { (name line rest : List ℕ) → IsLineName name → HasNoNewline line → IsFirstLine (named_line name line ++ rest) name line rest }
    ensures says { (lock : List ℕ) (s : LockSays) (rest : List ℕ) → IsLockName lock → LockSaysFits s
        → IsFirstLine (control_line (lock_says_line lock s) ++ rest) (codes ".") (lock_says_line lock s) rest }
{}

/// A text begins with one line at most: there is one name, one rest of the line, and one text behind it.
pub fn a_text_has_one_first_line(text: &[u8])
    ensures { (name line rest other more behind : List ℕ) → IsFirstLine text.now name line rest → IsFirstLine text.now other more behind
        → (name ≡ other) × (line ≡ more) × (rest ≡ behind) }
{
    let _ = first_line(text);
}

/// In a text the parts of its first line are where their lengths say. In what a voter says of a lock the lock's name is behind
/// its word.
pub fn lines_have_places()
    ensures lines { (text name line rest : List ℕ) → IsFirstLine text name line rest → AreLinePlaces text name line rest }
    ensures says { (lock : List ℕ) (s : LockSays) → part lock_at (length lock) (lock_says_line lock s) ≡ lock }
{}
