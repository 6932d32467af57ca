//! What each command writes for its input.
ghost use Rattle.std.specs.Prelude.{◌≡◌, ◌≤◌, ◌⊎◌, length, IfErr, IfOk, string_bytes};
ghost use Rattle.numbers.specs.Bounds.{max_tickets};
ghost use Rattle.construct.specs.Answers as construct_answers;
ghost use Rattle.certificate.specs.Certificates.{cycle_len};
ghost use Rattle.dealer.specs.Accounts.{account_of};
ghost use Rattle.replay.specs.Records.{IsFirstFault, IsSoundRecord, entries_of, tickets_of};
ghost use Rattle.plan_inputs.specs.Inputs.{parts_of, weighed_parts};
ghost use Rattle.commands.specs.Commands.{Gives, IsAnswered, IsBadRecordText, IsReplayedText, IsServed, check_answer_of, check_text, coterie_part, deal_answer_of, deal_text, make_answer_of, numbered_text, planned_in, planned_parts, shape_at, staged_in, weighed_from, weighed_in};
ghost use Rattle.commands.specs.Devices.{IsOwn};
ghost use Rattle.commands.specs.Faults.{IsBeforeScript, IsOfFile};

use crate::dealing::dealt;
use crate::fault::Fault;
use crate::lines::{deal_lines_of, load_line_of, record_lines_of};
use crate::parts::split_part;
use certificate::Plan;
use command_line::{Command, Shape};
use construct::{ConstructFault, cyclic, grid, majority, tree, wheel};
use coterie_file::{Named, write_coterie};
use dealer::Account;
use plan_inputs::{Planned, Weighed, plan_text_of};
use quorum_set::{Coterie, Side};
use replay::{ReplayFault, check_record, read_record, run_script};
use run_outcome::RunRecord;
use std::alloc::{AllocError, Global};

/// Returns the coterie that a part describes. A part that is not UTF-8 fails with `NotToml`.
pub fn coterie_of(alloc: Global, part: &[u8]) -> Result<Named, Fault>
    ensures exact { Gives (λ n. n) result (coterie_part part.now) }
    ensures own { IfErr result IsOwn }
    ensures file { IfErr result IsOfFile }
    ensures before { IfErr result IsBeforeScript }
{
    match plan_inputs::coterie_of(alloc, part) {
        Ok(named) => Ok(named),
        Err(fault) => Err(Fault::from(fault)),
    }
}

/// Returns what two parts describe: a coterie, and a plan of it.
fn planned_parts(alloc: Global, coterie: &[u8], plan: &[u8]) -> Result<Planned, Fault>
    ensures exact { Gives parts_of result (planned_parts coterie.now plan.now) }
    ensures own { IfErr result IsOwn }
    ensures before { IfErr result IsBeforeScript }
{
    match plan_inputs::planned_of(alloc, coterie, plan) {
        Ok(planned) => Ok(planned),
        Err(fault) => Err(Fault::from(fault)),
    }
}

/// Returns what an input of two parts describes: a coterie, and a plan of it.
#[tactic(auto, unfolding(crate::specs::Commands::planned_in))]
pub fn planned_of(alloc: Global, input: &[u8]) -> Result<Planned, Fault>
    ensures exact { Gives parts_of result (planned_in input.now) }
    ensures own { IfErr result IsOwn }
    ensures before { IfErr result IsBeforeScript }
{
    match split_part(input, 2) {
        Ok((coterie, plan)) => planned_parts(alloc, coterie, plan),
        Err(fault) => Err(fault),
    }
}

/// Returns what two parts describe: a coterie, and weights of it, which may be a plan's.
fn weighed_from(alloc: Global, coterie: &[u8], weights: &[u8]) -> Result<Weighed, Fault>
    ensures exact { Gives weighed_parts result (weighed_from coterie.now weights.now) }
    ensures own { IfErr result IsOwn }
{
    match plan_inputs::weighed_of(alloc, coterie, weights) {
        Ok(weighed) => Ok(weighed),
        Err(fault) => Err(Fault::from(fault)),
    }
}

/// Returns what an input of two parts describes: a coterie, and weights of it, which may be a plan's. No
/// command of `qlock` reads such an input.
#[tactic(auto, unfolding(crate::specs::Commands::weighed_in))]
pub fn weighed_of(alloc: Global, input: &[u8]) -> Result<Weighed, Fault>
    ensures exact { Gives weighed_parts result (weighed_in input.now) }
    ensures own { IfErr result IsOwn }
{
    match split_part(input, 2) {
        Ok((coterie, weights)) => weighed_from(alloc, coterie, weights),
        Err(fault) => Err(fault),
    }
}

/// Returns what an input of three parts describes: a coterie, a plan of it, and a text after them.
#[tactic(auto, unfolding(crate::specs::Commands::staged_in))]
pub fn staged_of(alloc: Global, input: &[u8]) -> Result<(Planned, &[u8]), Fault>
    ensures exact { Gives (λ x. (parts_of x.0, x.1.now)) result (staged_in input.now) }
    ensures own { IfErr result IsOwn }
    ensures before { IfErr result IsBeforeScript }
{
    let (coterie, rest) = match split_part(input, 2) {
        Ok(parts) => parts,
        Err(fault) => return Err(fault),
    };
    let (plan, text) = match split_part(rest, 3) {
        Ok(parts) => parts,
        Err(fault) => return Err(fault),
    };
    match planned_parts(alloc, coterie, plan) {
        Ok(planned) => Ok((planned, text)),
        Err(fault) => Err(fault),
    }
}

/// Returns what `check` writes.
#[tactic(auto, unfolding(crate::specs::Commands::check_text))]
fn check_text_of(alloc: Global, planned: &Planned) -> Result<String, AllocError>
    ensures { IfOk result (λ text. string_bytes text ≡ check_text (parts_of planned.now)) }
{
    load_line_of(alloc, planned.plan.load(), planned.plan.cycle_len())
}

/// Returns what `deal` writes for the tickets below `count`: the receipts for them from an office
/// with that quota, and its account.
#[tactic(auto, unfolding(crate::specs::Commands::deal_text))]
fn deal_text_of(alloc: Global, planned: Planned, count: u64) -> Result<String, AllocError>
    requires count { count ≤ max_tickets }
    ensures { IfOk result (λ text. string_bytes text ≡ deal_text (parts_of planned) count) }
{
    let Planned { named, plan } = planned;
    let (account, receipts) = dealt(alloc, plan, count)?;
    // Called for its contract alone: each voter has a name.
    let _ = named.coterie();
    deal_lines_of(alloc, &named, &receipts, &account)
}

/// Returns the coterie of a shape and its sizes.
fn shape_coterie(alloc: Global, shape: &Shape) -> Result<Coterie, ConstructFault>
    ensures { construct_answers.Gives result (shape_at shape.now) }
{
    match shape {
        Shape::Grid(rows, columns) => grid(alloc, *rows, *columns),
        Shape::Majority(voters) => majority(alloc, *voters),
        Shape::Tree(height) => tree(alloc, *height),
        Shape::Wheel(rims) => wheel(alloc, *rims),
        Shape::Cyclic(voters, base) => cyclic(alloc, *voters, base.as_slice()),
    }
}

/// Returns the text of a coterie whose voters have numbered names.
fn numbered_text_of(alloc: Global, coterie: Coterie) -> Result<String, AllocError>
    ensures { IfOk result (λ text. string_bytes text ≡ numbered_text coterie) }
{
    let named = Named::numbered(alloc, coterie)?;
    write_coterie(alloc, &named)
}

/// Returns what `make` writes.
fn make_answer(alloc: Global, shape: &Shape) -> Result<String, Fault>
    ensures exact { Gives string_bytes result (make_answer_of shape.now) }
    ensures own { IfErr result IsOwn }
{
    let coterie = match shape_coterie(alloc, shape) {
        Ok(coterie) => coterie,
        Err(fault) => return Err(Fault::from(fault)),
    };
    match numbered_text_of(alloc, coterie) {
        Ok(text) => Ok(text),
        Err(_) => Err(Fault::OutOfMemory),
    }
}

/// Returns what `plan` writes for an input: the text of a plan of the coterie that the input
/// describes.
#[tactic(auto, using(crate::proofs::CommandLemmas::planning_refused))]
fn plan_answer(alloc: Global, input: &[u8]) -> Result<String, Fault>
    ensures exact { IsAnswered string_bytes Command.Plan input.now result }
    ensures own { IfErr result IsOwn }
{
    match plan_text_of(alloc, input) {
        Ok(text) => Ok(text),
        Err(fault) => Err(Fault::from(fault)),
    }
}

/// Returns what `check` writes for an input.
fn check_answer(alloc: Global, input: &[u8]) -> Result<String, Fault>
    ensures exact { Gives string_bytes result (check_answer_of input.now) }
    ensures own { IfErr result IsOwn }
{
    let planned = match planned_of(alloc, input) {
        Ok(planned) => planned,
        Err(fault) => return Err(fault),
    };
    match check_text_of(alloc, &planned) {
        Ok(text) => Ok(text),
        Err(_) => Err(Fault::OutOfMemory),
    }
}

/// Returns what `deal` writes for an input.
fn deal_answer(alloc: Global, count: u32, input: &[u8]) -> Result<String, Fault>
    ensures exact { Gives string_bytes result (deal_answer_of count input.now) }
    ensures own { IfErr result IsOwn }
{
    let planned = match planned_of(alloc, input) {
        Ok(planned) => planned,
        Err(fault) => return Err(fault),
    };
    match deal_text_of(alloc, planned, u64::from(count)) {
        Ok(text) => Ok(text),
        Err(_) => Err(Fault::OutOfMemory),
    }
}

/// Returns what `world` writes for an input: the output of the script in its third part.
fn world_answer(alloc: Global, input: &[u8]) -> Result<String, Fault>
    ensures exact { IsAnswered string_bytes Command.World input.now result }
    ensures own { IfErr result IsOwn }
{
    let (planned, script) = match staged_of(alloc, input) {
        Ok(staged) => staged,
        Err(fault) => return Err(fault),
    };
    match run_script(alloc, planned.plan, script) {
        Ok(output) => Ok(output),
        Err(fault) => Err(Fault::from(fault)),
    }
}

/// Returns the account of a sound record by a plan, or the record's first fault.
fn account_of_record(alloc: Global, plan: &Plan, run: &RunRecord) -> Result<Account, ReplayFault>
    ensures account { IfOk result (λ account. account ≡ account_of plan.now (tickets_of run.now.draws.items)) }
    ensures one_each { IfOk result (λ account. length account.voters ≡ plan.now.system.voters) }
    ensures sound { IfOk result (λ _. IsSoundRecord plan.now (entries_of run.now)) }
    ensures fault { IfErr result (IsFirstFault plan.now (entries_of run.now)) }
{
    check_record(alloc, plan, Side::First, run)
}

/// Returns what the text of a record says by a plan.
fn replayed(alloc: Global, planned: &Planned, text: &[u8]) -> Result<String, ReplayFault>
    ensures said { IfOk result (λ page. IsReplayedText (parts_of planned.now) text.now (string_bytes page)) }
    ensures bad { IfErr result (λ fault. (fault ≡ ReplayFault.OutOfMemory)
        ⊎ IsBadRecordText planned.now.plan text.now fault) }
{
    let run = read_record(alloc, text)?;
    let account = account_of_record(alloc, &planned.plan, &run)?;
    // Called for its contract alone: each voter has a name.
    let _ = planned.named.coterie();
    match record_lines_of(alloc, &planned.named, &account, run.register) {
        Ok(page) => Ok(page),
        Err(error) => Err(ReplayFault::from(error)),
    }
}

/// Returns what `replay` writes for an input: what the record in its third part says.
fn replay_answer(alloc: Global, input: &[u8]) -> Result<String, Fault>
    ensures exact { IsAnswered string_bytes Command.Replay input.now result }
    ensures own { IfErr result IsOwn }
{
    let (planned, text) = match staged_of(alloc, input) {
        Ok(staged) => staged,
        Err(fault) => return Err(fault),
    };
    match replayed(alloc, &planned, text) {
        Ok(page) => Ok(page),
        Err(fault) => Err(Fault::from(fault)),
    }
}

/// Returns what the command writes for an input.
pub fn answer(alloc: Global, command: &Command, input: &[u8]) -> Result<String, Fault>
    requires served { IsServed command.now }
    ensures exact { IsAnswered string_bytes command.now input.now result }
    ensures own { IfErr result IsOwn }
{
    match command {
        Command::Make(shape) => make_answer(alloc, shape),
        Command::Plan => plan_answer(alloc, input),
        Command::Check => check_answer(alloc, input),
        Command::Deal(count) => deal_answer(alloc, *count, input),
        Command::World => world_answer(alloc, input),
        Command::Run { .. } => unreachable!(),
        Command::Replay => replay_answer(alloc, input),
    }
}
