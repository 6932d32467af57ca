//! The names and capacities that a TOML text lists.
ghost use Rattle.std.specs.Prelude.{◌≡◌, Err, IfErr, IfOk, map, option_map, ok_or, string_bytes};
ghost use Rattle.toml.specs.Data.{no_members};
ghost use Rattle.toml.specs.Errors.{IsBlank};
ghost use Rattle.toml.specs.View.{table_view, items_view};
ghost use Rattle.quorum_set.specs.Capacities.{unit_capacities};
ghost use Rattle.coterie_file.specs.Answers.{Gives};
ghost use Rattle.coterie_file.specs.Lists.{table_at, texts_of, text_lists_of, or_zero, numbers_of, items_at, has_capacities, wanted_keys, capacities_at, name_lists, lists_in, lists_at};
ghost use Rattle.coterie_file.specs.declared.fault.FileFault.TheVariants.{Keys, OutOfMemory};

use crate::fault::FileFault;
use std::alloc::{AllocError, Global};
use toml::{Table, Value};

/// The names and the capacities of the voters, and for each quorum the names of its members, in the
/// order of the text. They need not describe a coterie.
#[derive(Drop)]
pub struct NameLists {
    /// The names of the voters.
    pub names: Vec<String>,
    /// For each quorum the names of its members.
    pub quorums: Vec<Vec<String>>,
    /// The capacities of the voters, 0 for a negative number.
    pub capacities: Vec<u64>,
}

/// Returns the table that a text describes.
fn table_of(alloc: Global, text: &str) -> Result<Table, FileFault>
    ensures exact { Gives table_view result (table_at text.now) }
    ensures memory { IfErr result (λ fault. fault ≡ OutOfMemory → ¬ IsBlank text.now) }
{
    match toml::table_from_str(alloc, text) {
        Ok(table) => Ok(table),
        Err(error) => {
            if error.is_memory() {
                Err(FileFault::OutOfMemory)
            } else {
                Err(FileFault::NotToml)
            }
        }
    }
}

/// Returns the items of the array at a key, if there is one.
fn array_at<'a>(table: &'a Table, key: &str) -> Option<&'a [Value]>
    ensures { option_map (λ a. items_view a.now) result ≡ items_at key.now (table_view table.now) }
{
    match table.get(key) {
        Some(value) => match value.as_array() {
            Some(array) => Some(array.as_slice()),
            None => None,
        },
        None => None,
    }
}

/// Returns the texts of an array of strings, or `Keys` if an item is not a string.
fn texts_of(alloc: Global, values: &[Value]) -> Result<Vec<String>, FileFault>
    ensures { Gives (λ v. map string_bytes v.items) result (ok_or (texts_of (items_view values.now)) Keys) }
{
    let mut texts = Vec::new(alloc);
    for value in values {
        let Some(text) = value.as_str() else {
            return Err(FileFault::Keys);
        };
        texts.push(String::from_str(alloc, text)?)?;
    }
    Ok(texts)
}

/// Returns the texts of an array of arrays of strings, or `Keys` if an item is not such an array.
fn text_lists_of(alloc: Global, values: &[Value]) -> Result<Vec<Vec<String>>, FileFault>
    ensures { Gives (λ v. map (λ q. map string_bytes q.items) v.items) result
        (ok_or (text_lists_of (items_view values.now)) Keys) }
{
    let mut lists = Vec::new(alloc);
    for value in values {
        let Some(items) = value.as_array() else {
            return Err(FileFault::Keys);
        };
        lists.push(texts_of(alloc, items.as_slice())?)?;
    }
    Ok(lists)
}

/// Returns the integer, or 0 if it is negative. 0 is no capacity either.
fn or_zero(integer: i64) -> u64
    ensures { result ≡ or_zero integer }
{
    if integer < 0 {
        0
    } else {
        integer.unsigned_abs()
    }
}

/// Returns the numbers of an array of integers, or `Keys` if an item is not an integer.
fn numbers_of(alloc: Global, values: &[Value]) -> Result<Vec<u64>, FileFault>
    ensures { Gives (λ v. v.items) result (ok_or (numbers_of (items_view values.now)) Keys) }
{
    let mut numbers = Vec::new(alloc);
    for value in values {
        let Some(integer) = value.as_integer() else {
            return Err(FileFault::Keys);
        };
        numbers.push(or_zero(integer))?;
    }
    Ok(numbers)
}

/// Returns capacity 1 for each of the voters.
#[tactic(auto, using(crate::proofs::CapacityLemmas::one_more_unit))]
fn units(alloc: Global, voters: usize) -> Result<Vec<u64>, AllocError>
    ensures { IfOk result (λ v. v.items ≡ unit_capacities voters) }
{
    let mut units = Vec::with_capacity(alloc, voters)?;
    for _ in 0..voters {
        units.push(1)?;
    }
    Ok(units)
}

/// Returns whether the table has the key `capacity`.
fn has_capacities(table: &Table) -> bool
    ensures { result ≡ has_capacities (table_view table.now) }
{
    table.get("capacity").is_some()
}

/// Returns the numbers at the key `capacity`, or capacity 1 for each of the voters if there is no
/// such key. Fails with `Keys` if the value is not an array of integers.
fn capacities_at(alloc: Global, voters: usize, table: &Table) -> Result<Vec<u64>, FileFault>
    ensures { Gives (λ v. v.items) result (ok_or (capacities_at voters (table_view table.now)) Keys) }
{
    if !has_capacities(table) {
        return Ok(units(alloc, voters)?);
    }
    let Some(values) = array_at(table, "capacity") else {
        return Err(FileFault::Keys);
    };
    numbers_of(alloc, values)
}

/// Returns how many keys the table has to have: the key `capacity` may be left out.
fn wanted_keys(table: &Table) -> usize
    ensures { result ≡ wanted_keys (table_view table.now) }
{
    if has_capacities(table) { 3 } else { 2 }
}

/// Returns the lists of a table that has the keys `voters` and `quorums`, may have `capacity`, and
/// has no other key. Any other table is `Keys`.
fn lists_in(alloc: Global, table: &Table) -> Result<NameLists, FileFault>
    ensures exact { Gives (λ l. name_lists l.names.items l.quorums.items l.capacities.items) result
        (lists_in (table_view table.now)) }
    ensures empty { table_view table.now ≡ no_members → result ≡ Err Keys }
{
    if table.len() != wanted_keys(table) {
        return Err(FileFault::Keys);
    }
    let Some(names) = array_at(table, "voters") else {
        return Err(FileFault::Keys);
    };
    let names = texts_of(alloc, names)?;
    let Some(quorums) = array_at(table, "quorums") else {
        return Err(FileFault::Keys);
    };
    let quorums = text_lists_of(alloc, quorums)?;
    let capacities = capacities_at(alloc, names.len(), table)?;
    Ok(NameLists {
        names,
        quorums,
        capacities,
    })
}

impl NameLists {
    /// Returns the lists that a text describes, whether or not they describe a coterie. Fails with
    /// `NotToml` or `Keys` if there are no such lists, or with `OutOfMemory`.
    pub fn of(alloc: Global, text: &str) -> Result<NameLists, FileFault>
        ensures exact { Gives (λ l. name_lists l.names.items l.quorums.items l.capacities.items) result
            (lists_at text.now) }
        ensures blank { IsBlank text.now → result ≡ Err Keys }
    {
        let table = table_of(alloc, text)?;
        lists_in(alloc, &table)
    }
}
