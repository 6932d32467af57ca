//! Drawing tickets from an office, for the command `deal`.
ghost use Rattle.std.specs.Prelude.{◌≡◌, ◌<◌, ◌≤◌, ◌-◌, ◌++◌, [], ◌∷◌, length, map, IfOk};
ghost use Rattle.std.specs.List.{range_with_len};
ghost use Rattle.numbers.specs.Bounds.{max_tickets};
ghost use Rattle.dealer.specs.Accounts.{account_of};
ghost use Rattle.dealer.specs.Offices.{receipt_of, share_of, tickets_of};
ghost use Rattle.commands.specs.Dealing.{after_draws};

use certificate::Plan;
use dealer::{Account, Clerk, Cycle, Office, Receipt};
use std::alloc::{AllocError, Global};

/// Returns an office of a cycle with this quota, and the clerk that may draw all of it.
fn office_of(alloc: Global, cycle: Cycle, quota: u64) -> Result<(Office, Clerk), AllocError>
    requires { quota ≤ max_tickets }
    ensures cycle { IfOk result (λ made. made.0.name.cycle ≡ cycle) }
    ensures quota { IfOk result (λ made. made.0.quota ≡ quota) }
    ensures clerk { IfOk result (λ made. made.1 ≡ after_draws made.0.name quota 0) }
{
    match Office::new(alloc, cycle, quota) {
        Ok(made) => Ok(made),
        Err((_, error)) => Err(error),
    }
}

/// Draws the next ticket. The clerk has the office's whole quota, and has not drawn all of it. Only
/// fails if memory runs out.
fn draw_next(office: &Office, clerk: &mut Clerk) -> Result<(), AllocError>
    requires office { clerk.old.office ≡ office.now.name }
    requires share { share_of clerk.old ≡ office.now.quota }
    requires rest { 0 < clerk.old.rest }
    ensures { IfOk result (λ _. clerk.new ≡ record clerk.old {
      rest = clerk.old.rest - 1;
      receipts = clerk.old.receipts
          ++ receipt_of office.now.name.cycle (length clerk.old.receipts) ∷ [];
    }) }
{
    match office.draw(clerk) {
        Ok(_) => Ok(()),
        // The quota is not spent, so memory ran out.
        Err(_) => Err(AllocError),
    }
}

/// Draws all tickets of an office, with a clerk that may draw them all. Returns the clerk.
fn draw_all(office: &Office, clerk: Clerk, quota: u64) -> Result<Clerk, AllocError>
    requires quota { office.now.quota ≡ quota }
    requires clerk { clerk ≡ after_draws office.now.name quota 0 }
    ensures { IfOk result (λ drawn. drawn ≡ after_draws office.now.name quota quota) }
{
    let mut drawing = clerk;
    for ticket in 0..quota {
        draw_next(office, &mut drawing)?;
    }
    Ok(drawing)
}

/// Closes an office with a clerk that has its whole quota. Only fails if memory runs out.
fn closed(
    alloc: Global,
    office: Office,
    clerk: Clerk,
) -> Result<(Account, Vec<Receipt>), AllocError>
    requires office { clerk.office ≡ office.name }
    requires share { share_of clerk ≡ office.quota }
    ensures account { IfOk result (λ closed.
        closed.0 ≡ account_of office.name.cycle (tickets_of clerk.receipts)) }
    ensures receipts { IfOk result (λ closed. closed.1.items ≡ clerk.receipts) }
{
    match office.close(alloc, clerk) {
        Ok(closed) => Ok(closed),
        // No other clerk has a share, so memory ran out.
        Err(_) => Err(AllocError),
    }
}

/// Deals `count` tickets of a plan, from an office with that quota. Returns their account, and
/// their receipts in order.
pub fn dealt(alloc: Global, plan: Plan, count: u64) -> Result<(Account, Vec<Receipt>), AllocError>
    requires { count ≤ max_tickets }
    ensures account { IfOk result (λ dealt. dealt.0 ≡ account_of plan (range_with_len 0 count)) }
    ensures receipts { IfOk result (λ dealt. dealt.1.items ≡ map (receipt_of plan) (range_with_len 0 count)) }
    ensures one_each { IfOk result (λ dealt. length dealt.0.voters ≡ plan.system.voters) }
{
    let cycle = Cycle::from_plan(alloc, plan)?;
    let (office, clerk) = office_of(alloc, cycle, count)?;
    let clerk = draw_all(&office, clerk, count)?;
    closed(alloc, office, clerk)
}
