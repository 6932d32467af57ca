//! Coteries side by side.
ghost use Rattle.std.specs.Prelude.{◌≡◌, ◌+◌, ◌≤◌, IfErr, IfOk, length, map, string_bytes};
ghost use Rattle.commands.specs.Commands.{Gives, Refuses};
ghost use Rattle.commands.specs.Devices.{IsOwn};
ghost use Rattle.show_cli.specs.Failures.{IsCompared, IsComparedAs, coteries_in, file_name, file_names, files_in};

use commands::{Fault, coterie_of, split_part};
use coterie_file::Named;
use show_command_line::Form;
use show_compare::{Candidate, compare_page};
use show_json::compare_json;
use std::alloc::{AllocError, Global};

/// Returns the coteries in an input with so many lines `%%`. Its first part has this number.
#[tactic(auto, unfolding(crate::specs::Failures::coteries_in), using(crate::proofs::CompareLemmas::one_more))]
fn coteries_of(
    alloc: Global,
    lines: usize,
    number: usize,
    input: &[u8],
) -> Result<Vec<Named>, Fault>
    requires { lines + number ≤ 1000 }
    ensures exact { Gives (λ v. v.items) result (coteries_in lines number input.now) }
    ensures own { IfErr result IsOwn }
{
    if lines == 0 {
        return match coterie_of(alloc, input) {
            Ok(named) => Ok(vec![in alloc; named]?),
            Err(fault) => Err(fault),
        };
    }
    let (first, others) = match split_part(input, number + 1) {
        Ok(parts) => parts,
        Err(fault) => return Err(fault),
    };
    let first = match coterie_of(alloc, first) {
        Ok(named) => named,
        Err(fault) => return Err(fault),
    };
    match coteries_of(alloc, lines - 1, number + 1, others) {
        Ok(mut coteries) => {
            coteries.insert(0, first)?;
            Ok(coteries)
        }
        Err(fault) => Err(fault),
    }
}

/// Returns the name of the file at this place, or no name if there is none.
fn name_at(alloc: Global, files: &[String], place: usize) -> Result<String, AllocError>
    ensures { IfOk result (λ name. string_bytes name ≡ file_name (map string_bytes files.now) place) }
{
    match files.get(place) {
        Some(file) => String::from_str(alloc, file.as_str()),
        None => Ok(String::new(alloc)),
    }
}

/// Returns the coteries with the names of their files.
fn named_as(
    alloc: Global,
    files: &[String],
    coteries: Vec<Named>,
) -> Result<Vec<Candidate>, AllocError>
    ensures coteries { IfOk result (λ v. map (λ c. c.named) v.items ≡ coteries.items) }
    ensures names { IfOk result (λ v. map (λ c. string_bytes c.name) v.items
        ≡ file_names (length v.items) (map string_bytes files.now)) }
{
    let mut candidates = Vec::with_capacity(alloc, coteries.len())?;
    for named in coteries {
        let name = name_at(alloc, files, candidates.len())?;
        candidates.push(Candidate { name, named })?;
    }
    Ok(candidates)
}

/// Returns the coteries in an input, one for each of these files, with the names of the files.
fn candidates_of(alloc: Global, files: &[String], input: &[u8]) -> Result<Vec<Candidate>, Fault>
    requires { length files.now ≤ 64 }
    ensures exact { Gives (λ v. map (λ c. c.named) v.items) result (files_in (length files.now) input.now) }
    ensures names { IfOk result (λ v. map (λ c. string_bytes c.name) v.items
        ≡ file_names (length v.items) (map string_bytes files.now)) }
    ensures own { IfErr result IsOwn }
{
    let coteries = match coteries_of(alloc, files.len().saturating_sub(1), 1, input) {
        Ok(coteries) => coteries,
        Err(fault) => return Err(fault),
    };
    match named_as(alloc, files, coteries) {
        Ok(candidates) => Ok(candidates),
        Err(_) => Err(Fault::OutOfMemory),
    }
}

/// Returns candidates side by side, in words or as JSON.
fn shown(alloc: Global, form: Form, candidates: &[Candidate]) -> Result<String, AllocError>
    ensures { IfOk result (λ page. IsComparedAs form candidates.now (string_bytes page)) }
{
    match form {
        Form::Words => compare_page(alloc, candidates),
        Form::Json => compare_json(alloc, candidates),
    }
}

/// Returns the page of the coteries in an input, one for each of these files.
pub(crate) fn compared_page(
    alloc: Global,
    files: &[String],
    form: Form,
    input: &[u8],
) -> Result<String, Fault>
    requires { length files.now ≤ 64 }
    ensures page { IfOk result (λ page. IsCompared form (map string_bytes files.now) input.now (string_bytes page)) }
    ensures refused { IfErr result (λ fault. Refuses fault (files_in (length files.now) input.now)) }
    ensures own { IfErr result IsOwn }
{
    let candidates = match candidates_of(alloc, files, input) {
        Ok(candidates) => candidates,
        Err(fault) => return Err(fault),
    };
    match shown(alloc, form, candidates.as_slice()) {
        Ok(page) => Ok(page),
        Err(_) => Err(Fault::OutOfMemory),
    }
}
