//! The calls of the start of a voter: what others keep of it, and which grants it may give.
ghost use Rattle.std.specs.Prelude.{◌≡◌, ◌≢◌};
ghost use Rattle.starts.specs.Starts.{begins, hears, is_kept_by, renews};
ghost use Rattle.blocks.specs.Numbers.{done};
ghost use Rattle.blocks.specs.RowSteps.{is_yes, named};
ghost use Rattle.blocks.specs.StartSteps.{PeerEnds, PeerIsClean, PeerLearns, PeerMeets, StartDoes, StartHears, StartIsMade, StartNeeds, StartTurns, known_if};

use blocks::{number_of, places};
use starts::{Answers, identity_of};

/// Keeps the process of the second peer, which started in the place of the first one, or refuses
/// it.
#[unsafe(no_mangle)]
pub extern "C" fn qlock_peer_meet(peer: &mut [u8], now: &[u8]) -> i32
    // A call that is refused writes nothing.
    ensures refused { result ≢ done → peer.new ≡ peer.old }
    ensures meets { PeerMeets peer.old now.now peer.new result }
{
    number_of(places::meet(peer, now))
}

/// Keeps the later one of two peers of a place, with the greater ceiling of both.
#[unsafe(no_mangle)]
pub extern "C" fn qlock_peer_learn(peer: &mut [u8], other: &[u8]) -> i32
    ensures refused { result ≢ done → peer.new ≡ peer.old }
    ensures learns { PeerLearns peer.old other.now peer.new result }
{
    number_of(places::learn(peer, other))
}

/// Keeps how often the state of the voter was saved when it ended, if it is the one that is known.
#[unsafe(no_mangle)]
pub extern "C" fn qlock_peer_end(
    peer: &mut [u8],
    upper: u64,
    lower: u64,
    start: u64,
    saves: u64,
) -> i32
    ensures refused { result ≢ done → peer.new ≡ peer.old }
    ensures ends { PeerEnds peer.old (named upper lower) start saves peer.new result }
{
    number_of(places::end(peer, identity_of(upper, lower), start, saves))
}

/// Writes 1 if the last run of the voter is known to have ended cleanly, with so many saves, and 0
/// if not.
#[unsafe(no_mangle)]
pub extern "C" fn qlock_peer_is_clean(
    peer: &[u8],
    upper: u64,
    lower: u64,
    saves: u64,
    yes: &mut u32,
) -> i32
    ensures refused { result ≢ done → yes.new ≡ yes.old }
    ensures clean { PeerIsClean peer.now (named upper lower) saves yes.new result }
{
    number_of(places::is_clean(peer, identity_of(upper, lower), saves, yes))
}

/// Makes the start of a process in 80 bytes, from a state that asked for this ceiling last, 0 if
/// for none.
#[unsafe(no_mangle)]
pub extern "C" fn qlock_start_new(ceiling: u64, first: u64, start: &mut [u8]) -> i32
    ensures refused { result ≢ done → start.new ≡ start.old }
    ensures made { StartIsMade ceiling first start.old start.new result }
{
    number_of(places::new(ceiling, first, start))
}

/// Notes which ceiling a voter says that it knew, and whether the last run is known to have ended
/// cleanly.
#[unsafe(no_mangle)]
pub extern "C" fn qlock_start_hear(start: &mut [u8], voter: u8, ceiling: u64, is_clean: u32) -> i32
    ensures refused { result ≢ done → start.new ≡ start.old }
    ensures hears { StartHears voter (λ s. hears s voter ceiling (is_yes is_clean)) start.old start.new result }
{
    number_of(places::hears(start, voter, ceiling, is_clean != 0))
}

/// Asks for the first ceiling, above all that is known, if so many answered that it may.
#[unsafe(no_mangle)]
pub extern "C" fn qlock_start_begin(
    start: &mut [u8],
    others: u64,
    have_silent_quorum: u32,
    have_quorums: u32,
    is_patient: u32,
) -> i32
    ensures refused { result ≢ done → start.new ≡ start.old }
    ensures begins { StartDoes (λ s. begins s (record {
      others = others;
      have_silent_quorum = is_yes have_silent_quorum;
      have_quorums = is_yes have_quorums;
      is_patient = is_yes is_patient;
    })) start.old start.new result }
{
    let answers = Answers {
        others,
        have_silent_quorum: have_silent_quorum != 0,
        have_quorums: have_quorums != 0,
        is_patient: is_patient != 0,
    };
    number_of(places::begins(start, &answers))
}

/// Notes that a voter keeps this ceiling, and which one it knew, if it says so.
#[unsafe(no_mangle)]
pub extern "C" fn qlock_start_keep(
    start: &mut [u8],
    voter: u8,
    ceiling: u64,
    says: u32,
    known: u64,
) -> i32
    ensures refused { result ≢ done → start.new ≡ start.old }
    ensures keeps { StartHears voter (λ s. is_kept_by s voter ceiling (known_if says known)) start.old start.new result }
{
    let knew = if says == 0 { None } else { Some(known) };
    number_of(places::is_kept_by(start, voter, ceiling, knew))
}

/// Raises the ceiling if the voters that keep it, and this one, contain a quorum of each plan.
/// Writes what comes of it.
#[unsafe(no_mangle)]
pub extern "C" fn qlock_start_turn(start: &mut [u8], have_quorums: u32, turn: &mut u32) -> i32
    ensures refused { result ≢ done → (start.new ≡ start.old) × (turn.new ≡ turn.old) }
    ensures turns { StartTurns start.old (is_yes have_quorums) start.new turn.new result }
{
    number_of(places::turns(start, have_quorums != 0, turn))
}

/// Asks for the next ceiling if half of the last block is used, once the grant of this number was
/// given.
#[unsafe(no_mangle)]
pub extern "C" fn qlock_start_need(start: &mut [u8], number: u64) -> i32
    ensures refused { result ≢ done → start.new ≡ start.old }
    ensures needs { StartNeeds start.old number start.new result }
{
    number_of(places::needs(start, number))
}

/// Forgets who keeps the ceiling: the plans changed.
#[unsafe(no_mangle)]
pub extern "C" fn qlock_start_renew(start: &mut [u8]) -> i32
    ensures refused { result ≢ done → start.new ≡ start.old }
    ensures renews { StartDoes renews start.old start.new result }
{
    number_of(places::renews(start))
}
