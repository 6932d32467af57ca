//! Offices: worked examples.
ghost use Rattle.std.specs.Prelude.{◌≡◌, ◌≤◌, ◌^◌, IfSome};

use dealer::{Account, Clerk, Cycle, DealFault, Office, OfficeFault, Receipt};
use std::alloc::Global;
use test_plans::majority_plan;

/// Returns an office of the majorities of three voters with this quota, and its clerk.
fn office_of(alloc: Global, quota: u64) -> Option<(Office, Clerk)>
    requires { quota ≤ 2 ^ 63 }
    ensures { IfSome result (λ pair. (pair.1.office ≡ pair.0.name) × (pair.1.rest ≡ quota)) }
{
    let cycle = Cycle::of(alloc, majority_plan(alloc)?).ok()?;
    Office::new(alloc, cycle, quota).ok()
}

/// Returns whether an account is that of ticket 0 alone.
fn is_of_one(account: Account) -> bool {
    let voters = account.voters.into_vec();
    (account.drawn == 1)
        & (account.busiest == 1)
        & (account.quorums.as_slice() == [1u64, 0, 0].as_slice())
        & (voters.as_slice() == [1u64, 1, 0].as_slice())
}

/// Returns whether an office closes with the account and the receipt of ticket 0 alone.
fn closes(alloc: Global, office: Office, clerk: Clerk) -> bool
    requires { clerk.office ≡ office.name }
{
    match office.close(alloc, clerk) {
        Ok((account, receipts)) => is_of_one(account) & (receipts.len() == 1),
        Err(_) => false,
    }
}

/// Returns why an office does not close, and how many receipts come back.
fn refusal(alloc: Global, office: Office, clerk: Clerk) -> Option<(usize, OfficeFault)>
    requires { clerk.office ≡ office.name }
{
    match office.close(alloc, clerk) {
        Ok(_) => None,
        Err(unclosed) => Some((unclosed.receipts.len(), unclosed.fault)),
    }
}

/// Returns whether a clerk with one ticket draws ticket 0 for quorum 0, and no other.
fn draws_one(office: &Office, clerk: &mut Clerk) -> bool
    requires { clerk.old.office ≡ office.now.name }
    ensures { clerk.new.office ≡ office.now.name }
{
    let first = office.draw(clerk);
    let second = office.draw(clerk);
    let receipt = Receipt {
        ticket: 0,
        quorum: 0,
    };
    (first == Ok(receipt)) & (second == Err(DealFault::QuotaSpent)) & (clerk.receipts().len() == 1)
}

/// Returns whether an office closes without a clerk's tickets as it has to.
fn is_refused(alloc: Global, office: Office, root: Clerk, out: u64) -> bool
    requires { root.office ≡ office.name }
{
    refusal(alloc, office, root) == Some((0, OfficeFault::ClerksOut(out)))
}

/// What becomes of a clerk that is split off.
#[derive(Clone, Copy)]
enum Share {
    /// It draws its one ticket, and is out when the office closes.
    IsOut,
    /// It draws its one ticket and joins.
    Joins,
    /// It is lost, with 5 tickets.
    IsLost,
}

/// Returns whether an office closes as it has to, after this became of a clerk.
fn ends(alloc: Global, office: Office, mut root: Clerk, share: Share) -> bool
    requires root { root.office ≡ office.name }
    requires quota { 5 ≤ root.rest }
{
    match share {
        Share::IsOut => {
            let mut clerk = root.split(&office, 1);
            let drawn = draws_one(&office, &mut clerk);
            drawn & is_refused(alloc, office, root, 1)
        }
        Share::Joins => {
            let mut clerk = root.split(&office, 1);
            let drawn = draws_one(&office, &mut clerk);
            let joined = root.join(&office, clerk).is_ok();
            drawn & joined & closes(alloc, office, root)
        }
        Share::IsLost => {
            drop(root.split(&office, 5));
            is_refused(alloc, office, root, 5)
        }
    }
}

/// Returns the same of an office of the majorities of three voters that deals 8 tickets.
fn ends_well(alloc: Global, share: Share) -> bool {
    match office_of(alloc, 8) {
        Some((office, root)) => ends(alloc, office, root, share),
        None => false,
    }
}

#[test]
fn clerks_have_to_join_before_the_account(rt: HostRuntime) {
    for share in [Share::IsOut, Share::Joins, Share::IsLost] {
        assert!(rt; ends_well(rt.alloc(), share));
    }
}
