//! The pass of a client.
ghost use Rattle.std.specs.Option.{SomeIff};
ghost use Rattle.std.specs.Prelude.{◌≡◌, length, true};
ghost use Rattle.numbers.specs.Bounds.{max_voters};
ghost use Rattle.requester.specs.Words.{held_of, is_inside};

use crate::pass::Pass;
use numbers::MAX_VOTERS;
use requester::{Phase, Requester};

/// Returns the pass of a client that is inside: for each voter the number of the grant by which the
/// client has its vote, 0 for none. Returns `None` if the client is not inside.
///
/// It is what the client shows to [`Fence::admit`](crate::Fence::admit).
pub fn pass_of(client: &Requester) -> Option<Pass>
    ensures { SomeIff result (is_inside client.now.phase ≡ true) client.now.held }
{
    match client.phase() {
        Phase::Idle | Phase::Asking => None,
        Phase::Inside => Pass::of(grants_of(client)),
    }
}

/// Returns the number of the grant by which the client has the vote of each voter, 0 for none.
fn grants_of(client: &Requester) -> [u64; MAX_VOTERS]
    requires { length client.now.held ≡ max_voters }
    ensures { result ≡ client.now.held }
{
    let mut grants = [0; MAX_VOTERS];
    for voter in 0..MAX_VOTERS {
        grants[voter] = grant_of(client, voter as u8);
    }
    grants
}

#[tactic(auto, using(crate::proofs::GrantLemmas::some_grant, crate::proofs::GrantLemmas::no_grant))]
fn grant_of(client: &Requester, voter: u8) -> u64
    ensures { result ≡ held_of client.now voter }
{
    match client.held(voter) {
        Some(grant) => grant,
        None => 0,
    }
}
