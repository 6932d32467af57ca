//! Cutting a text at a byte.
ghost use Rattle.std.specs.Prelude.{◌≡◌, ◌==◌, option_map, position};
ghost use Rattle.texts.specs.Cuts.{cut_at};

/// Returns the place of the first byte that is the mark.
fn place_of(bytes: &[u8], mark: u8) -> Option<usize>
    ensures { result ≡ position (λ b. b == mark) bytes.now }
{
    bytes.iter().position(|b| *b == mark)
}

/// Returns the bytes before and after the first byte that is the mark, or `None` if there is none.
pub fn cut_at(bytes: &[u8], mark: u8) -> Option<(&[u8], &[u8])>
    ensures { option_map (λ x. (x.0.now, x.1.now)) result ≡ cut_at mark bytes.now }
{
    match place_of(bytes, mark) {
        Some(place) => Some((&bytes[..place], &bytes[place + 1..])),
        None => None,
    }
}
