//! Parts of a whole, rounded.
ghost use Rattle.std.specs.Prelude.{◌≡◌, ◌<◌, ◌≤◌, ◌+◌, ◌*◌, ◌/◌, ◌^◌};
ghost use Rattle.show_tables.specs.Shares.{parts_above, share_of, tenths_of};

/// Returns the part of the whole in units of which `scale` are the whole, rounded to the nearest.
/// The whole is 1 to 2^32 - 1, the part at most the whole, and the scale below 2^16.
fn scaled(part: u64, whole: u64, scale: u64) -> u64
    requires some { 0 < whole }
    requires part { part ≤ whole }
    requires whole { whole < 2 ^ 32 }
    requires scale { scale < 2 ^ 16 }
    ensures nearest { result ≡ (part * scale + whole / 2) / whole }
    ensures most { result ≤ scale }
{
    (part * scale + whole / 2) / whole
}

/// Returns the part of the whole in units of which `scale` are the whole, rounded to the nearest. The
/// whole counts as 1 at least and as 2^32 - 1 at most, and a part that is greater as the whole. The scale is
/// below 2^16.
pub fn share(part: u64, whole: u64, scale: u64) -> u64
    requires { scale < 2 ^ 16 }
    ensures value { result ≡ share_of scale part whole }
    ensures most { result ≤ scale }
{
    let whole = whole.clamp(1, u64::from(u32::MAX));
    scaled(part.min(whole), whole, scale)
}

/// Returns a quotient in tenths, rounded to the nearest. Both numbers count as 2^32 - 1 at most, and
/// a divisor of 0 as 1.
pub fn tenths(part: u64, whole: u64) -> u64
    ensures { result ≡ tenths_of part whole }
{
    let most = u64::from(u32::MAX);
    let whole = whole.clamp(1, most);
    (part.min(most) * 10 + whole / 2) / whole
}

/// Returns by how many parts a load is above a bound, where `scale` parts are the bound, rounded up. Both
/// are numerators and denominators. What doesn't fit into 128 bits counts as the greatest number that
/// does, and a bound of 0 as the smallest one above.
pub fn parts_above(load: (u64, u64), bound: (u64, u64), scale: u64) -> u128
    ensures { result ≡ parts_above load bound scale }
{
    let least = u128::from(bound.0) * u128::from(load.1);
    let own = u128::from(load.0) * u128::from(bound.1);
    let parts = own.saturating_sub(least).saturating_mul(u128::from(scale));
    parts.div_ceil(least.max(1))
}
