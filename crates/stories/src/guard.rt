//! The guard of a story, and the passes that clients show to it.
ghost use Rattle.std.specs.Prelude.{◌≡◌, ◌<◌, ℕ, IfNone, IfOk, IfSome, None, Some, false, length, option_map, replicate, slice_set, true};
ghost use Rattle.numbers.specs.Bounds.{max_clients, max_voters};
ghost use Rattle.fence.specs.Passes.{Admits, is_not_older};
ghost use Rattle.stories.specs.Guards.{first_older, guard_after, guard_after_by, guard_did, guard_did_by, is_newer, is_spent, late_of};
ghost use Rattle.stories.specs.Plays.{guard_of, pass_at};

use crate::happening::{Happening, Late};
use fence::{Fence, Pass};
use numbers::{MAX_CLIENTS, MAX_VOTERS};
use std::alloc::{AllocError, Global};

/// Returns a list with no pass for any client.
pub fn no_passes(alloc: Global) -> Result<Vec<Option<Pass>>, AllocError>
    ensures { IfOk result (λ passes. passes.items ≡ replicate max_clients None) }
{
    let mut passes = Vec::new(alloc);
    for client in 0..MAX_CLIENTS {
        passes.push(None)?;
    }
    Ok(passes)
}

/// Returns the pass of a client, if it was inside.
pub fn pass_at(passes: &[Option<Pass>], client: u8) -> Option<&Pass>
    ensures { option_map (λ p. p.now) result ≡ pass_at passes.now client }
{
    match passes.get(usize::from(client)) {
        Some(Some(pass)) => Some(pass),
        Some(None) => None,
        None => None,
    }
}

/// Notes the pass of a client.
pub fn set_pass(passes: &mut Vec<Option<Pass>>, client: u8, pass: Pass)
    ensures { passes.new.items ≡ slice_set passes.old.items client (Some pass) }
{
    if usize::from(client) < passes.len() {
        passes[usize::from(client)] = Some(pass);
    }
}

/// Returns whether a pass shows no grant of a voter, or one that is at least what was seen.
fn is_not_older(seen: &[u64; MAX_VOTERS], grants: &[u64; MAX_VOTERS], voter: usize) -> bool
    requires { voter < max_voters }
    ensures { result ≡ is_not_older seen.now grants.now voter }
{
    grants[voter] == 0 || seen[voter] <= grants[voter]
}

/// Returns the first voter whose grant in a pass is older than was seen, if there is one.
fn find_older(seen: &[u64; MAX_VOTERS], grants: &[u64; MAX_VOTERS]) -> Option<u8>
    ensures older { IfSome result (λ v. (v < max_voters) × (is_not_older seen.now grants.now v ≡ false)) }
    ensures first { IfSome result (λ v. (u : ℕ) → u < v → is_not_older seen.now grants.now u ≡ true) }
    ensures none { IfNone result (Admits seen.now grants.now) }
{
    for voter in 0..MAX_VOTERS {
        if !is_not_older(seen, grants, voter) {
            return Some(voter as u8);
        }
    }
    None
}

/// Returns the first voter whose grant in a pass is older than was seen, as the definition has it.
fn first_older(seen: &[u64; MAX_VOTERS], grants: &[u64; MAX_VOTERS]) -> Option<u8>
    ensures value { result ≡ first_older seen.now grants.now }
    ensures older { IfSome result (λ v. v < max_voters) }
    ensures none { IfNone result (Admits seen.now grants.now) }
{
    find_older(seen, grants)
}

/// Returns why the guard would refuse a pass for an older grant, if it would.
pub fn refusal(fence: &Fence, pass: &Pass) -> Option<Late>
    ensures value { result ≡ late_of fence.now.seen pass.now }
    ensures none { IfNone result (Admits fence.now.seen pass.now) }
{
    let grants = pass.grants();
    match first_older(&fence.seen, grants) {
        Some(voter) => Some(Late {
            voter,
            shown: grants[usize::from(voter)],
            seen: fence.seen[usize::from(voter)],
        }),
        None => None,
    }
}

/// Says that a guard has seen a number of each voter that there can be.
fn sees_all_voters(seen: &[u64; MAX_VOTERS])
    ensures { length seen.now ≡ max_voters }
{}

/// Shows a pass to the guard that it admits, if a turn is left for it.
fn admit(fence: &mut Fence, pass: &Pass) -> Happening
    requires { Admits fence.old.seen pass.now }
    ensures did { result ≡ guard_did_by None (is_newer fence.old.seen pass.now) (is_spent (guard_of fence.old)) (guard_of fence.old) }
    ensures after { guard_of fence.new
        ≡ guard_after_by None (is_newer fence.old.seen pass.now) (is_spent (guard_of fence.old)) (guard_of fence.old) pass.now }
{
    let admitted = fence.admit(pass);
    sees_all_voters(&fence.seen);
    match admitted {
        Ok(turn) => Happening::Admitted(turn),
        Err(_) => Happening::NoTurn,
    }
}

/// Shows a pass to the guard, and returns what it did.
pub fn show(fence: &mut Fence, pass: &Pass) -> Happening
    ensures did { result ≡ guard_did (guard_of fence.old) pass.now }
    ensures after { guard_of fence.new ≡ guard_after (guard_of fence.old) pass.now }
{
    match refusal(fence, pass) {
        Some(late) => Happening::Late(late),
        None => admit(fence, pass),
    }
}
