//! Values as JSON with no spaces: each has one text.
ghost use Rattle.std.specs.Prelude.{◌≡◌, IfOk, decimal, map, string_bytes};
ghost use Rattle.show_json.specs.Values.{fraction_text, list_text, member_of, member_text, object_text, quoted, truth_text};

use serde_json::Value;
use std::alloc::{AllocError, Global};

/// A member of an object.
#[derive(Drop)]
pub(crate) struct Member {
    /// Its key.
    pub(crate) key: &'static str,
    /// Its value, as JSON.
    pub(crate) value: String,
}

impl Member {
    /// Returns a member with this key and this value, which is JSON.
    pub(crate) fn of(key: &'static str, value: String) -> Member
        ensures { member_of result ≡ (key.now, string_bytes value) }
    {
        Member { key, value }
    }
}

/// Returns a text in quotes, with escapes.
pub(crate) fn quoted(alloc: Global, text: &str) -> Result<String, AllocError>
    ensures { IfOk result (λ json. string_bytes json ≡ quoted text.now) }
{
    let value = Value::String(String::from_str(alloc, text)?);
    value.to_string(alloc)
}

/// Returns a number.
pub(crate) fn number_text(alloc: Global, number: u64) -> Result<String, AllocError>
    ensures { IfOk result (λ json. string_bytes json ≡ decimal number) }
{
    let json = format!(in alloc; "{number}")?;
    Ok(json)
}

/// Returns `true` or `false`.
pub(crate) fn truth_text(alloc: Global, truth: bool) -> Result<String, AllocError>
    ensures { IfOk result (λ json. string_bytes json ≡ truth_text truth) }
{
    String::from_str(alloc, if truth { "true" } else { "false" })
}

/// Returns a list of these values.
pub(crate) fn list_text(alloc: Global, values: &[String]) -> Result<String, AllocError>
    ensures { IfOk result (λ json. string_bytes json ≡ list_text (map string_bytes values.now)) }
{
    let inside = values.join(alloc, ",")?;
    let json = format!(in alloc; "[{inside}]")?;
    Ok(json)
}

/// Returns a member: its key and its value.
fn member_text(alloc: Global, member: &Member) -> Result<String, AllocError>
    ensures { IfOk result (λ json. string_bytes json ≡ member_text (member_of member.now)) }
{
    let key = quoted(alloc, member.key)?;
    let value = member.value.as_str();
    let json = format!(in alloc; "{key}:{value}")?;
    Ok(json)
}

/// Returns the members, each as a text.
fn member_texts(alloc: Global, members: &[Member]) -> Result<Vec<String>, AllocError>
    ensures { IfOk result (λ v. map string_bytes v.items ≡ map (λ m. member_text (member_of m)) members.now) }
{
    let mut texts = Vec::with_capacity(alloc, members.len())?;
    for member in members {
        texts.push(member_text(alloc, member)?)?;
    }
    Ok(texts)
}

/// Returns an object of these members, in order.
pub(crate) fn object_text(alloc: Global, members: &[Member]) -> Result<String, AllocError>
    ensures { IfOk result (λ json. string_bytes json ≡ object_text (map member_of members.now)) }
{
    let inside = member_texts(alloc, members)?.join(alloc, ",")?;
    let json = format!(in alloc; "{{{inside}}}")?;
    Ok(json)
}

/// Returns a fraction: its numerator and its denominator.
pub(crate) fn fraction_text(alloc: Global, fraction: (u64, u64)) -> Result<String, AllocError>
    ensures { IfOk result (λ json. string_bytes json ≡ fraction_text fraction) }
{
    let mut members = Vec::new(alloc);
    members.push(Member::of("numerator", number_text(alloc, fraction.0)?))?;
    members.push(Member::of("denominator", number_text(alloc, fraction.1)?))?;
    object_text(alloc, members.as_slice())
}
