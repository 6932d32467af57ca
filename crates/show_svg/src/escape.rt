//! Texts inside SVG: signs that have a meaning in XML are written as their names.
use std::alloc::AllocError;

/// Appends a character, written so that XML reads it as itself.
fn push_escaped_char(out: &mut String, character: char) -> Result<(), AllocError> {
    match character {
        '&' => out.push_str("&amp;"),
        '<' => out.push_str("&lt;"),
        '>' => out.push_str("&gt;"),
        '"' => out.push_str("&quot;"),
        _ => out.push(character),
    }
}

/// Appends a text, written so that XML reads it as itself.
pub fn push_escaped(out: &mut String, text: &str) -> Result<(), AllocError> {
    for character in text.chars() {
        push_escaped_char(out, character)?;
    }
    Ok(())
}
