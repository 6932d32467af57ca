//! The lines that commands write.
ghost use Rattle.std.specs.Prelude.{◌≡◌, ◌++◌, length, IfOk, OnOk, string_bytes};
ghost use Rattle.std.specs.List.{flat_map};
ghost use Rattle.coterie_file.specs.Named.{IsNamed};
ghost use Rattle.commands.specs.Commands.{account_text, busiest_line, drawn_line, load_line, ratio_part, receipt_line, record_lines, register_line, voter_line, voter_lines};

use coterie_file::Named;
use dealer::{Account, Receipt};
use quorum_set::are_unit;
use std::alloc::{AllocError, Global};
use texts::{push_field, push_number};

/// Adds the line `TICKET QUORUM`.
fn push_receipt(text: &mut String, receipt: &Receipt) -> Result<(), AllocError>
    ensures { OnOk result (string_bytes text.new ≡ string_bytes text.old ++ receipt_line receipt.now) }
{
    push_number(text, receipt.ticket)?;
    push_field(text, receipt.quorum as u64)?;
    text.push('\n')
}

/// Adds the line `voter NAME COUNT`.
fn push_voter(text: &mut String, name: &str, count: u64) -> Result<(), AllocError>
    ensures { OnOk result (string_bytes text.new ≡ string_bytes text.old ++ voter_line name.now count) }
{
    write!(text, "voter {name} {count}\n")
}

/// Adds the line `busiest COUNT`.
fn push_busiest(text: &mut String, count: u64) -> Result<(), AllocError>
    ensures { OnOk result (string_bytes text.new ≡ string_bytes text.old ++ busiest_line count) }
{
    write!(text, "busiest {count}\n")
}

/// Adds the line `drawn COUNT`.
fn push_drawn(text: &mut String, count: u64) -> Result<(), AllocError>
    ensures { OnOk result (string_bytes text.new ≡ string_bytes text.old ++ drawn_line count) }
{
    write!(text, "drawn {count}\n")
}

/// Adds the line `register NUMBER`.
fn push_register(text: &mut String, number: u64) -> Result<(), AllocError>
    ensures { OnOk result (string_bytes text.new ≡ string_bytes text.old ++ register_line number) }
{
    write!(text, "register {number}\n")
}

/// Returns the line `load P/Q cycle D`.
pub fn load_line_of(alloc: Global, load: (u64, u64), cycle_len: u64) -> Result<String, AllocError>
    ensures { IfOk result (λ line. string_bytes line ≡ load_line load cycle_len) }
{
    let (busiest, cycle) = load;
    format!(in alloc; "load {busiest}/{cycle} cycle {cycle_len}\n")
}

/// Adds a line for each receipt to the text.
fn push_receipts(text: &mut String, receipts: &[Receipt]) -> Result<(), AllocError>
    ensures { OnOk result (string_bytes text.new
        ≡ string_bytes text.old ++ flat_map receipt_line receipts.now) }
{
    for receipt in receipts {
        push_receipt(text, receipt)?;
    }
    Ok(())
}

/// Adds a line for each voter to the text, with how often it was used.
fn push_voters(text: &mut String, named: &Named, counts: &[u64]) -> Result<(), AllocError>
    requires named { IsNamed named.now }
    requires one_each { length counts.now ≡ named.now.system.voters }
    ensures { OnOk result (string_bytes text.new ≡ string_bytes text.old ++ voter_lines named.now.names counts.now) }
{
    for (i, count) in counts.iter().enumerate() {
        push_voter(text, named.name(i), *count)?;
    }
    Ok(())
}

/// Adds the lines of an account to the text.
pub fn push_account(text: &mut String, named: &Named, account: &Account) -> Result<(), AllocError>
    requires named { IsNamed named.now }
    requires one_each { length account.now.voters ≡ named.now.system.voters }
    ensures { OnOk result (string_bytes text.new ≡ string_bytes text.old ++ account_text named.now.names account.now) }
{
    push_voters(text, named, account.voters.as_slice())?;
    push_busiest(text, account.busiest)
}

/// Adds the line `ratio P/Q` of an account to the text, if some capacity is not 1.
pub fn push_ratio(
    text: &mut String,
    capacities: &[u64],
    account: &Account,
) -> Result<(), AllocError>
    ensures { OnOk result (string_bytes text.new ≡ string_bytes text.old ++ ratio_part capacities.now account.now) }
{
    if are_unit(capacities) {
        return Ok(());
    }
    let (count, capacity) = account.ratio;
    write!(text, "ratio {count}/{capacity}\n")
}

/// Returns the lines of a deal: those of its receipts, of its account, and of its ratio.
pub fn deal_lines_of(
    alloc: Global,
    named: &Named,
    receipts: &[Receipt],
    account: &Account,
) -> Result<String, AllocError>
    requires named { IsNamed named.now }
    requires one_each { length account.now.voters ≡ named.now.system.voters }
    ensures { IfOk result (λ text. string_bytes text ≡ flat_map receipt_line receipts.now
        ++ (account_text named.now.names account.now ++ ratio_part named.now.capacities account.now)) }
{
    // a line of a ticket below 100,000 has 12 bytes at most
    let mut text = String::with_capacity(alloc, receipts.len().saturating_mul(12))?;
    push_receipts(&mut text, receipts)?;
    push_account(&mut text, named, account)?;
    push_ratio(&mut text, named.capacities(), account)?;
    Ok(text)
}

/// Returns the lines of a record: how many tickets were drawn, their account, and the register.
pub fn record_lines_of(
    alloc: Global,
    named: &Named,
    account: &Account,
    register: u64,
) -> Result<String, AllocError>
    requires named { IsNamed named.now }
    requires one_each { length account.now.voters ≡ named.now.system.voters }
    ensures { IfOk result (λ text. string_bytes text ≡ record_lines named.now account.now register) }
{
    let mut text = String::new(alloc);
    push_drawn(&mut text, account.drawn)?;
    push_account(&mut text, named, account)?;
    push_register(&mut text, register)?;
    Ok(text)
}
