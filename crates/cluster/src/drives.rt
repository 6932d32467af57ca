//! Drives: members that work in threads of their own.
ghost use Rattle.std.specs.Prelude.{◌≡◌, ◌+◌, ◌*◌, ◌<◌, ◌≤◌, [], ◌∷◌, ◌++◌, List, true, None, IfOk, IfErr, MatchResult};
ghost use Rattle.std.specs.List.{AllZip};
ghost use Rattle.requester.specs.Words.{is_idle, is_inside};
ghost use Rattle.members.specs.Members.{AreIdle, MemberState};
ghost use Rattle.members.specs.Losses.{LosesAtLeast};
ghost use Rattle.cluster.specs.Drives.{EndsWait, HasEndedOn, HasServed, HasServedOn, IsBack, IsLeastFault, IsLeastOf, KeepsWork, LeavesTurns, next_plan, on, Stops, TookTurns, WasLet, Worked};
ghost use Rattle.cluster.specs.Patience.{most_starved};

use crate::gate::Gate;
use crate::patience::Patience;
use crate::turns::Turns;
use members::{Cluster, ClusterFault, ClusterName, Member};
use requester::{Phase, Seen};
use std::sync::Wait;
use std::thread;
use std::thread::Threads;
use std::time::{Clock, Duration};

/// How many times a member that ended its request repeats what it sent, if a message was lost.
const MOST_REPEATS: u64 = 5;

/// How many milliseconds pass before each repeat.
const PAUSE: u64 = 1;

/// All members of a drive, and the fault of one whose work ended early.
#[derive(Drop)]
pub struct Driven<N: ClusterName> {
    /// All members, in the order in which they were handed in. Each is idle.
    pub members: Vec<Member<N>>,
    /// The fault of the smallest client whose work ended early.
    pub fault: ClusterFault,
}

/// Has a member pump until it is inside, at one turn for each pump. Fails if and only if its turns are
/// spent before, or several reminders in a row found no memory for a message.
fn enter<N: ClusterName, R: Wait + Clock>(
    rt: &R,
    cluster: &Cluster<N>,
    member: &mut Member<N>,
    turns: &mut Turns,
    patience: &mut Patience,
) -> Result<(), ClusterFault>
    ensures entered { IfOk result (λ _. is_inside member.new.requester.phase ≡ true) }
    ensures fewer { IfOk result (λ _. turns.new < turns.old) }
    ensures no_more { turns.new ≤ turns.old }
    ensures ended { IfErr result (EndsWait member.old.requester.id turns.new patience.new.starved) }
    ensures spared { IfOk result (λ _. patience.new.starved < most_starved) }
    ensures lost { LosesAtLeast patience.new.starved member.old.lost member.new.lost }
    ensures kept { KeepsWork member.old member.new }
{
    patience.begin();
    'looks: while turns.take() {
        patience.wait(rt, cluster, member);
        if patience.is_starved() {
            return Err(ClusterFault::OutOfMemory);
        }
        match member.pump(rt, cluster) {
            Some(Seen::Entered) => {
                patience.count_anew();
                return Ok(());
            }
            Some(_) => patience.count_anew(),
            None => patience.found_nothing(),
        }
    }
    Err(ClusterFault::TurnsSpent(member.client()))
}

/// Asks the gate until the client may pass, at one turn for each question. Fails if and only if its
/// turns are spent before.
fn wait_at<G: Gate>(gate: &G, client: u8, turns: &mut Turns) -> Result<(), ClusterFault>
    ensures let_pass { IfOk result (λ _. G.lets gate.now client ≡ true) }
    ensures fewer { IfOk result (λ _. turns.new < turns.old) }
    ensures spent { IfErr result (λ fault. (fault ≡ ClusterFault.TurnsSpent client) × (turns.new ≡ 0)) }
{
    'questions: while turns.take() {
        if gate.may_pass(client) {
            return Ok(());
        }
        thread::yield_now();
    }
    Err(ClusterFault::TurnsSpent(client))
}

/// Repeats what a member sent last, after a pause: five times at most, and no more once each message
/// found memory.
///
/// A member that ended its request repeats its RELEASEs if a message was lost. Nobody else sends them
/// again, and others may wait for the votes.
fn repeat<N: ClusterName, R: Wait + Clock>(rt: &R, cluster: &Cluster<N>, member: &mut Member<N>)
    ensures same { member.new ≡ record member.old { lost = member.new.lost } }
    ensures lost { member.old.lost ≤ member.new.lost }
{
    for _ in 0..MOST_REPEATS {
        thread::sleep(rt, Duration::from_millis(PAUSE));
        if member.repeat(rt, cluster) == 0 {
            return;
        }
    }
}

/// Ends a member's request, if it has one: it leaves, or gives up.
fn end<N: ClusterName, R: Wait + Clock>(rt: &R, cluster: &Cluster<N>, member: &mut Member<N>)
    ensures idle { is_idle member.new.requester.phase ≡ true }
    ensures kept { KeepsWork member.old member.new }
{
    let lost = member.lost();
    match member.phase() {
        Phase::Idle => return,
        Phase::Asking => {
            let _ = member.give_up(rt, cluster);
        }
        Phase::Inside => {
            let _ = member.leave(rt, cluster);
        }
    }
    if member.lost() > lost {
        repeat(rt, cluster, member);
    }
}

/// Has a member ask, pass and leave once, or get as far as it can. Fails by a fault of one of its
/// calls, if its turns are spent, or if several reminders in a row found no memory for a message.
fn pass_once<N: ClusterName, R: Wait + Clock, G: Gate>(
    rt: &R,
    cluster: &Cluster<N>,
    member: &mut Member<N>,
    turns: &mut Turns,
    patience: &mut Patience,
    gate: &G,
) -> Result<(), ClusterFault>
    requires idle { is_idle member.old.requester.phase ≡ true }
    ensures passed { IfOk result (λ _. Worked (λ plan. on member.old.clerks.side plan 1) 1 member.old member.new
        × (member.new.clerks.side ≡ member.old.clerks.side) × (is_idle member.new.requester.phase ≡ true)) }
    ensures stopped { IfErr result (Stops member.old member.new) }
    ensures let_pass { IfOk result (λ _. G.lets gate.now member.old.requester.id ≡ true) }
    ensures in_turns { IfOk result (λ _. turns.new + 2 ≤ turns.old) }
    ensures fewer { turns.new ≤ turns.old }
    ensures spent { IfErr result (LeavesTurns turns.new) }
    ensures fault { member.new.fault ≡ member.old.fault }
{
    let client = member.client();
    gate.before(client);
    member.ask(rt, cluster)?;
    gate.drawn(client);
    match enter(rt, cluster, member, turns, patience) {
        Ok(()) => {}
        Err(ended) => return Err(ended),
    }
    wait_at(gate, client, turns)?;
    match member.pass(cluster) {
        Ok(_) => {}
        Err(fault) => return Err(fault),
    }
    end(rt, cluster, member);
    Ok(())
}

/// Has a member make `passes` passes by the plan in use. If its work ends early, the member keeps the
/// fault, and this fails by it.
fn serve_on<N: ClusterName, R: Wait + Clock, G: Gate>(
    rt: &R,
    cluster: &Cluster<N>,
    member: &mut Member<N>,
    passes: u64,
    turns: &mut Turns,
    patience: &mut Patience,
    gate: &G,
) -> Result<(), ClusterFault>
    requires idle { is_idle member.old.requester.phase ≡ true }
    ensures served { IfOk result (λ _. HasServedOn passes member.old member.new) }
    ensures ended { IfErr result (λ fault. HasEndedOn passes fault member.old member.new) }
    ensures client { member.new.requester.id ≡ member.old.requester.id }
    ensures left { IfOk result (λ _. turns.new + 2 * passes ≤ turns.old) }
    ensures spent { IfErr result (LeavesTurns turns.new) }
    ensures let_pass { WasLet (G.lets gate.now) member.old member.new }
    ensures in_turns { TookTurns turns.old member.old member.new }
{
    member.ends_by(None);
    for _ in 0..passes {
        match pass_once(rt, cluster, member, turns, patience, gate) {
            Ok(()) => {}
            Err(fault) => {
                end(rt, cluster, member);
                member.ends_by(Some(fault));
                return Err(fault);
            }
        }
    }
    Ok(())
}

/// Exchanges a member's plan, if there is another one that it does not use yet.
fn exchange<N: ClusterName>(member: &mut Member<N>)
    ensures { member.new ≡ record member.old { clerks = next_plan member.old.clerks } }
{
    let _ = member.exchange();
}

/// Has a member make `passes` passes. If there is another plan, the member exchanges its plan after
/// half of them. If its work ends early, the member keeps the fault.
fn serve<N: ClusterName, R: Wait + Clock, G: Gate>(
    rt: &R,
    cluster: &Cluster<N>,
    member: &mut Member<N>,
    passes: u64,
    turns: u64,
    gate: &G,
)
    requires idle { is_idle member.old.requester.phase ≡ true }
    ensures back { IsBack passes member.old member.new }
    ensures let_pass { WasLet (G.lets gate.now) member.old member.new }
    ensures in_turns { TookTurns turns member.old member.new }
{
    let half = passes / 2;
    let mut turns = Turns::new(turns);
    let mut patience = Patience::new();
    match serve_on(rt, cluster, member, half, &mut turns, &mut patience, gate) {
        Ok(()) => {}
        Err(_) => return,
    }
    exchange(member);
    let _ = serve_on(
        rt,
        cluster,
        member,
        passes - half,
        &mut turns,
        &mut patience,
        gate,
    );
}

/// Returns the smallest client whose work ended early and its fault, taking one more member into
/// account.
fn least_with<N: ClusterName>(
    least: Option<(u8, ClusterFault)>,
    member: &Member<N>,
) -> Option<(u8, ClusterFault)>
    ensures { (members : List MemberState) → IsLeastOf members least → IsLeastOf (members ++ member.now ∷ []) result }
{
    let Some(fault) = member.fault() else {
        return least;
    };
    let here = Some((member.client(), fault));
    match least {
        None => here,
        Some((client, _)) if member.client() < client => here,
        Some(_) => least,
    }
}

/// Returns the smallest client whose work ended early, and its fault. Returns `None` if no member's
/// did.
fn least_of<N: ClusterName>(members: &[Member<N>]) -> Option<(u8, ClusterFault)>
    ensures { IsLeastOf members.now result }
{
    let mut least = None;
    for member in members {
        least = least_with(least, member);
    }
    least
}

/// Has each member make `passes` passes, in a thread of its own if the system gives one.
fn serve_all<N: ClusterName + Send + Sync, R: Threads + Wait + Clock + Sync, G: Gate>(
    rt: &R,
    cluster: &Cluster<N>,
    members: &mut [Member<N>],
    passes: u64,
    turns: u64,
    gate: &G,
)
    requires idle { AreIdle members.old }
    ensures back { AllZip (IsBack passes) members.old members.new }
    ensures let_pass { AllZip (WasLet (G.lets gate.now)) members.old members.new }
    ensures in_turns { AllZip (TookTurns turns) members.old members.new }
    ensures idle { AreIdle members.new }
{
    let threads = members.len();
    if threads == 0 {
        return;
    }
    thread::for_each_mut(
        rt,
        members,
        threads,
        &|_, member: &mut Member<N>|
            requires { is_idle member.old.requester.phase ≡ true }
            ensures back { IsBack passes member.old member.new }
            ensures let_pass { WasLet (G.lets gate.entry.now) member.old member.new }
            ensures in_turns { TookTurns turns member.old member.new }
        {
            serve(rt, cluster, member, passes, turns, gate);
        },
    );
}

/// Has each member make `passes` passes, in a thread of its own. For each pass a member asks, pumps
/// until it is inside, passes and leaves. If the system gives no threads, the members work one
/// after the other.
///
/// All members must be idle. An empty list returns at once.
///
/// If the cluster has a second plan, each member that does not use it yet exchanges its plan after
/// half of `passes` passes, rounded down. Its first passes use the first plan and the others the
/// second.
///
/// Each pump and each question to the gate whether the member may pass is a turn. Each member has
/// `turns` turns for all its passes, and a pass takes at least two. After 16 empty pumps in a row a
/// member yields its thread before each further one, and after 500 it sleeps before every 32nd. It
/// sleeps sooner if other programs kept it waiting when it yielded; the clock is read for this. A
/// sleep ends when a message comes, or after a millisecond. After 1,000 empty pumps in a row a member
/// reminds, and counts anew. That takes some 20 milliseconds at first. While the same request goes on,
/// a member sleeps twice as often after each reminder, until it sleeps before each pump.
///
/// If its turns are spent or one of its calls fails, a member ends its work: it leaves or gives up,
/// and keeps the fault ([`Member::fault`]). It also does so, by `OutOfMemory`, once five reminders in
/// a row each lost a message because memory ran out.
///
/// Returns all members, in order and idle. If the work of some ended early, returns them in
/// [`Driven`], with the fault of the smallest such client. A client that the gate never lets pass
/// makes no pass.
pub fn drive<N: ClusterName + Send + Sync, R: Threads + Wait + Clock + Sync, G: Gate>(
    rt: &R,
    cluster: &Cluster<N>,
    mut members: Vec<Member<N>>,
    passes: u64,
    turns: u64,
    gate: &G,
) -> Result<Vec<Member<N>>, Driven<N>>
    requires idle { AreIdle members.items }
    ensures served { IfOk result (λ driven. AllZip (HasServed passes) members.items driven.items) }
    ensures back { IfErr result (λ driven. AllZip (IsBack passes) members.items driven.members.items) }
    ensures least { IfErr result (λ driven. IsLeastFault driven.members.items driven.fault) }
    ensures let_pass { MatchResult result (λ driven. AllZip (WasLet (G.lets gate.now)) members.items driven.items)
        (λ driven. AllZip (WasLet (G.lets gate.now)) members.items driven.members.items) }
    ensures in_turns { MatchResult result (λ driven. AllZip (TookTurns turns) members.items driven.items)
        (λ driven. AllZip (TookTurns turns) members.items driven.members.items) }
    ensures idle { MatchResult result (λ driven. AreIdle driven.items) (λ driven. AreIdle driven.members.items) }
{
    serve_all(rt, cluster, members.as_mut_slice(), passes, turns, gate);
    match least_of(members.as_slice()) {
        Some((_, fault)) => Err(Driven { members, fault }),
        None => Ok(members),
    }
}
