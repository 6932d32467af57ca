//! A finished picture.
ghost use Rattle.std.specs.Prelude.{◌≡◌, ◌++◌, IfOk, string_bytes};
ghost use Rattle.show_svg.specs.Pictures.{IsEnded, last_line};

use std::alloc::AllocError;
use std::marker::Model;

/// A finished picture: a text whose last line is `</svg>`.
#[derive(Drop)]
pub struct Drawing {
    text: String,
}

impl Model for Drawing {
    ghost use Rattle.std.specs.Prelude.{ℕ, List, string_bytes};
    ghost use Rattle.show_svg.specs.Pictures.{IsEnded};

    ghost Value = { List ℕ };

    ghost view = { λ d. string_bytes d.text };

    ghost invariant = { λ d. IsEnded (string_bytes d.text) };
}

impl Drawing {
    /// Ends a picture: appends its last line, `</svg>`. Fails only if memory runs out.
    pub fn finish(text: String) -> Result<Drawing, AllocError>
        ensures { IfOk result (λ drawing. drawing ≡ string_bytes text ++ last_line) }
    {
        let mut text = text;
        text.push_str("</svg>\n")?;
        Ok(Drawing { text })
    }

    /// Returns the text of the picture.
    pub fn text(&self) -> &str
        ensures value { result.now ≡ self.now }
        ensures ended { IsEnded self.now }
    {
        self.text.as_str()
    }

    /// Returns the text of the picture, without a copy.
    pub fn into_text(self) -> String
        ensures value { string_bytes result ≡ self }
        ensures ended { IsEnded self }
    {
        self.text
    }
}
