//! Kinds of lines.
ghost use Rattle.std.specs.Prelude.{◌≡◌, IfSome};
ghost use Rattle.texts.specs.Forms.{Form, IsForm, IsLineOf};

/// A kind of line: a word, and numbers after it. Each value has exactly one.
pub trait Line {
    /// What a line says.
    type Value: Copy;

    /// The word and the numbers of each value, and which values have a line.
    ghost form: { Form Self.Value };

    /// Returns the value with this word and these numbers.
    fn value_of(word: &[u8], numbers: &[u64]) -> Option<Self::Value>
        // What is returned has this word and these numbers.
        ensures text { IfSome result (λ x. IsLineOf form x word.now numbers.now) }
        // What has this word and these numbers is returned.
        ensures read { (x : Self.Value) → IsLineOf form x word.now numbers.now → result ≡ Some x };

    /// A word is a word, there are few numbers, and they belong to one value.
    ghost is_form: { IsForm form };
}
