//! The calls of one member: how many messages each kind of call loses, and how many calls find no memory.
ghost use Rattle.std.specs.Prelude.{◌≡◌};

use cluster::{Blank, Cluster, ClusterFault, ClusterName, Member};
use dealer::Plans;
use std::alloc::Global;
use std::marker::Brand;
use std::sync::Wait;
use test_plans::whole_plan;

/// A call of a member.
#[derive(Clone, Copy)]
enum Call {
    Ask,
    /// Pumps until the mailbox is empty.
    Pump,
    Remind,
    Pass,
    Leave,
    GiveUp,
}

/// The calls of one member that asks all three voters. It gives two requests up, and passes by two. Of
/// each of these two it reminds, so that it enters if one message was lost.
const CALLS: [Call; 21] = [
    Call::Ask,
    Call::Remind,
    Call::GiveUp,
    Call::Pump,
    Call::Ask,
    Call::Remind,
    Call::GiveUp,
    Call::Pump,
    Call::Ask,
    Call::Remind,
    Call::Pump,
    Call::Remind,
    Call::Pump,
    Call::Pass,
    Call::Leave,
    Call::Ask,
    Call::Pump,
    Call::Remind,
    Call::Pump,
    Call::Pass,
    Call::Leave,
];

/// The most messages that wait in the mailbox at once.
const MOST_MESSAGES: u32 = 16;

/// How many messages the calls of each kind lost, and how many calls found no memory.
#[derive(Clone, Copy)]
struct Counts {
    ask: u64,
    pump: u64,
    remind: u64,
    leave: u64,
    give_up: u64,
    refused: u64,
}

/// Makes a call. Returns whether it failed because it found no memory.
fn makes<N: ClusterName>(
    rt: &impl Wait,
    cluster: &Cluster<N>,
    member: &mut Member<N>,
    call: Call,
) -> bool {
    match call {
        Call::Ask => matches!(member.ask(rt, cluster), Err(ClusterFault::Deal(_))),
        Call::Pump => {
            for _ in 0..MOST_MESSAGES {
                let _ = member.pump(rt, cluster);
            }
            false
        }
        Call::Remind => {
            member.remind(rt, cluster);
            false
        }
        Call::Pass => matches!(member.pass(cluster), Err(ClusterFault::Board(_))),
        Call::Leave => {
            let _ = member.leave(rt, cluster);
            false
        }
        Call::GiveUp => {
            let _ = member.give_up(rt, cluster);
            false
        }
    }
}

impl Counts {
    /// Adds the messages that a call lost. A pass sends none.
    fn add(&mut self, call: Call, lost: u64) {
        let kind = match call {
            Call::Ask => &mut self.ask,
            Call::Pump => &mut self.pump,
            Call::Remind => &mut self.remind,
            Call::Leave => &mut self.leave,
            Call::GiveUp => &mut self.give_up,
            Call::Pass => return,
        };
        *kind = kind.saturating_add(lost);
    }
}

/// Makes all calls of a member, and one that found no memory once more. Returns the counts.
fn counts_of<N: ClusterName>(
    rt: &impl Wait,
    cluster: &Cluster<N>,
    member: &mut Member<N>,
) -> Counts {
    let mut counts = Counts {
        ask: 0,
        pump: 0,
        remind: 0,
        leave: 0,
        give_up: 0,
        refused: 0,
    };
    for call in CALLS {
        let before = member.lost();
        if makes(rt, cluster, member, call) {
            counts.refused = counts.refused.saturating_add(1);
            let _ = makes(rt, cluster, member, call);
        }
        counts.add(call, member.lost().saturating_sub(before));
    }
    counts
}

/// Opens a cluster of one client, and makes its member's calls. Returns the counts and the number of
/// passes.
fn opened<N: ClusterName>(rt: &impl Wait, alloc: Global, blank: Blank) -> Option<(Counts, usize)>
    requires { blank ≡ N.cluster }
{
    let (cluster, mut members) = blank.open::<N>(alloc).ok()?;
    let member = members.first_mut()?;
    let counts = counts_of(rt, &cluster, member);
    Some((counts, member.passes().len()))
}

/// Returns a line with the number of passes and the counts, or `None` if memory ran out for more than
/// messages.
pub(crate) fn line_of(rt: &impl Wait, alloc: Global) -> Option<String> {
    let plan = whole_plan(alloc)?;
    let blank = Blank::new(alloc, Plans::single(plan), 1, 4).ok()?;
    let (counts, passes) = opened::<Brand>(rt, alloc, blank)?;
    let Counts {
        ask,
        pump,
        remind,
        leave,
        give_up,
        refused,
    } = counts;
    format!(in alloc;
        "{passes} passes, ask {ask}, pump {pump}, remind {remind}, leave {leave}, give_up {give_up}, refused {refused}"
    ).ok()
}
