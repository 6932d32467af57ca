//! Laws of the definitions.
ghost use Rattle.std.specs.Prelude.{◌≡◌, ◌≢◌, ◌++◌, ◌∷◌, ℕ, List, []};
ghost use Rattle.replay.specs.Records.{Entries};
ghost use Rattle.replay.specs.RecordTexts as record_texts;
ghost use Rattle.replay.specs.RecordTexts.{HasText, record_text};
ghost use Rattle.replay.specs.Scripts.{IsFirstBad, IsLine, IsScript, Script, script_text};

use texts::Line;

/// States that no line of a script, with its newline, begins a longer line of a script.
pub fn lines_end<L: Line>()
    ensures { (line other more : List ℕ) → IsLine L.form line → IsLine L.form other
        → line ++ 10 ∷ more ≡ other ++ 10 ∷ [] → more ≡ [] }
{}

/// States that a text belongs to at most one script and has at most one first bad line, and never
/// both.
pub fn texts_are_read_in_one_way<L: Line>()
    ensures script { (s t : Script L.Value) → IsScript L.form s → IsScript L.form t
        → script_text L.form s ≡ script_text L.form t → s ≡ t }
    ensures line { (text : List ℕ) (m n : ℕ) → IsFirstBad L.form text m → IsFirstBad L.form text n → m ≡ n }
    ensures never_both { (text : List ℕ) (line : ℕ) (s : Script L.Value)
        → IsFirstBad L.form text line → IsScript L.form s → text ≢ script_text L.form s }
{}

/// States that a text belongs to at most one record and has at most one first bad line, and never
/// both. No record's text begins a longer one.
pub fn records_are_read_in_one_way()
    ensures record { (a b : Entries) → HasText a → HasText b → record_text a ≡ record_text b → a ≡ b }
    ensures end { (a b : Entries) (more : List ℕ) → HasText a → HasText b
        → record_text a ++ more ≡ record_text b → more ≡ [] }
    ensures line { (text : List ℕ) (m n : ℕ) → record_texts.IsFirstBad text m → record_texts.IsFirstBad text n → m ≡ n }
    ensures never_both { (text : List ℕ) (line : ℕ) (e : Entries)
        → record_texts.IsFirstBad text line → HasText e → text ≢ record_text e }
{}
