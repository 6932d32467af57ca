//! What a voter keeps of the voter of a place, and the start of a voter, as bytes, and what their
//! calls do.
ghost use Rattle.std.specs.Prelude.{◌≡◌, IfErr, IfOk, IfSome, OnErr, Some, length};
ghost use Rattle.starts.specs.declared.peer.Peer.{Peer};
ghost use Rattle.starts.specs.declared.start.Start.{Start};
ghost use Rattle.starts.specs.Saved.{peer_words, start_words};
ghost use Rattle.starts.specs.Starts.{begins, hears, is_kept_by, renews};
ghost use Rattle.blocks.specs.Bytes.{IsNoPeer, IsNoStart, IsPeer, IsStart};
ghost use Rattle.blocks.specs.Numbers.{returned};
ghost use Rattle.blocks.specs.StartSteps.{PeerEnds, PeerIsClean, PeerLearns, PeerMeets, StartDoes, StartHears, StartIsMade, StartNeeds, StartTurns, turn_number};

use crate::refusal::Refusal;
use arrayvec::ArrayVec;
use starts::{Answers, PEER_WORDS, Peer, START_WORDS, Start, Turn};
use words::{read_words, write_words};

/// How many bytes a saved peer has.
pub const PEER_BYTES: usize = 56;

/// How many bytes a saved start has.
pub const START_BYTES: usize = 80;

/// How many voters there may be.
const VOTERS: u8 = 64;

/// Returns the peer that was saved as these bytes. Fails with `BadState` if there is none.
fn load_peer(bytes: &[u8]) -> Result<Peer, Refusal>
    ensures loaded { IfOk result (IsPeer bytes.now) }
    // It is the only one.
    ensures only { IfOk result (λ p. (q : Peer) → IsPeer bytes.now q → q ≡ p) }
    ensures len { IfOk result (λ _. length bytes.now ≡ 56) }
    ensures refused { IfErr result (λ r. (r ≡ Refusal.BadState) × IsNoPeer bytes.now) }
{
    if bytes.len() != PEER_BYTES {
        return Err(Refusal::BadState);
    }
    let mut words = ArrayVec::<u64, PEER_WORDS>::new();
    read_words(bytes, &mut words);
    Ok(peer_of(words.as_slice()))
}

/// Returns the peer with these numbers.
fn peer_of(words: &[u64]) -> Peer
    requires { length words.now ≡ 7 }
    ensures text { words.now ≡ peer_words result }
    ensures read { (p : Peer) → words.now ≡ peer_words p → result ≡ p }
{
    let mut numbers = [0; PEER_WORDS];
    numbers.copy_from_slice(words);
    Peer::restore(&numbers)
}

/// Writes the bytes of a peer.
fn store_peer(peer: &Peer, bytes: &mut [u8])
    requires { length bytes.old ≡ 56 }
    ensures { IsPeer bytes.new peer.now }
{
    write_words(&peer.save(), bytes);
}

/// Keeps the process of another peer, which started in the place, or refuses it.
pub fn meet(peer: &mut [u8], now: &[u8]) -> Result<(), Refusal>
    ensures meets { PeerMeets peer.old now.now peer.new (returned result) }
    ensures refused { OnErr result (peer.new ≡ peer.old) }
{
    let known = load_peer(peer)?;
    let it = load_peer(now)?;
    let next = known.meets(&it)?;
    store_peer(&next, peer);
    Ok(())
}

/// Keeps the later one of two peers of a place.
pub fn learn(peer: &mut [u8], other: &[u8]) -> Result<(), Refusal>
    ensures learns { PeerLearns peer.old other.now peer.new (returned result) }
    ensures refused { OnErr result (peer.new ≡ peer.old) }
{
    let known = load_peer(peer)?;
    let it = load_peer(other)?;
    store_peer(&known.later_of(&it), peer);
    Ok(())
}

/// Keeps how often the state of the voter was saved when it ended, if it is the one that is known.
pub fn end(peer: &mut [u8], identity: u128, start: u64, saves: u64) -> Result<(), Refusal>
    ensures ends { PeerEnds peer.old identity start saves peer.new (returned result) }
    ensures refused { OnErr result (peer.new ≡ peer.old) }
{
    let known = load_peer(peer)?;
    store_peer(&known.ended_with(identity, start, saves), peer);
    Ok(())
}

/// Writes 1 if the last run of the voter is known to have ended cleanly, with so many saves, and 0
/// if not.
pub fn is_clean(peer: &[u8], identity: u128, saves: u64, yes: &mut u32) -> Result<(), Refusal>
    ensures clean { PeerIsClean peer.now identity saves yes.new (returned result) }
    ensures refused { OnErr result (yes.new ≡ yes.old) }
{
    let known = load_peer(peer)?;
    *yes = u32::from(known.is_clean(identity, saves));
    Ok(())
}

/// Returns the start that was saved as these bytes. Fails with `BadState` if there is none.
fn load_start(bytes: &[u8]) -> Result<Start, Refusal>
    ensures loaded { IfOk result (IsStart bytes.now) }
    // It is the only one.
    ensures only { IfOk result (λ s. (t : Start) → IsStart bytes.now t → t ≡ s) }
    ensures len { IfOk result (λ _. length bytes.now ≡ 80) }
    ensures refused { IfErr result (λ r. (r ≡ Refusal.BadState) × IsNoStart bytes.now) }
{
    if bytes.len() != START_BYTES {
        return Err(Refusal::BadState);
    }
    let mut words = ArrayVec::<u64, START_WORDS>::new();
    read_words(bytes, &mut words);
    match start_of(words.as_slice()) {
        Some(start) => Ok(start),
        None => Err(Refusal::BadState),
    }
}

/// Returns the start with these numbers. `None` if they are not those of a start.
fn start_of(words: &[u64]) -> Option<Start>
    requires { length words.now ≡ 10 }
    ensures text { IfSome result (λ s. words.now ≡ start_words s) }
    ensures read { (s : Start) → words.now ≡ start_words s → result ≡ Some s }
{
    let mut numbers = [0; START_WORDS];
    numbers.copy_from_slice(words);
    Start::restore(&numbers)
}

/// Writes the bytes of a start.
fn store_start(start: &Start, bytes: &mut [u8])
    requires { length bytes.old ≡ 80 }
    ensures { IsStart bytes.new start.now }
{
    write_words(&start.save(), bytes);
}

/// Makes the start of a process, from a state that asked for this ceiling last, 0 if for none.
pub fn new(ceiling: u64, first: u64, start: &mut [u8]) -> Result<(), Refusal>
    ensures made { StartIsMade ceiling first start.old start.new (returned result) }
    ensures refused { OnErr result (start.new ≡ start.old) }
{
    if start.len() != START_BYTES {
        return Err(Refusal::BadState);
    }
    store_start(&Start::new(ceiling, first), start);
    Ok(())
}

/// Notes what a voter says that it knew.
pub fn hears(start: &mut [u8], voter: u8, ceiling: u64, is_clean: bool) -> Result<(), Refusal>
    ensures hears { StartHears voter (λ s. hears s voter ceiling is_clean) start.old start.new (returned result) }
    ensures refused { OnErr result (start.new ≡ start.old) }
{
    if voter >= VOTERS {
        return Err(Refusal::BadArgument);
    }
    let mut it = load_start(start)?;
    it.hears(voter, ceiling, is_clean);
    store_start(&it, start);
    Ok(())
}

/// Asks for the first ceiling, if so many answered that it may.
pub fn begins(start: &mut [u8], answers: &Answers) -> Result<(), Refusal>
    ensures begins { StartDoes (λ s. begins s answers.now) start.old start.new (returned result) }
    ensures refused { OnErr result (start.new ≡ start.old) }
{
    let mut it = load_start(start)?;
    it.begins(answers);
    store_start(&it, start);
    Ok(())
}

/// Notes that a voter keeps a ceiling.
pub fn is_kept_by(
    start: &mut [u8],
    voter: u8,
    ceiling: u64,
    knew: Option<u64>,
) -> Result<(), Refusal>
    ensures kept { StartHears voter (λ s. is_kept_by s voter ceiling knew) start.old start.new (returned result) }
    ensures refused { OnErr result (start.new ≡ start.old) }
{
    if voter >= VOTERS {
        return Err(Refusal::BadArgument);
    }
    let mut it = load_start(start)?;
    it.is_kept_by(voter, ceiling, knew);
    store_start(&it, start);
    Ok(())
}

/// Returns the number of a turn.
fn number_of_turn(turn: Turn) -> u32
    ensures { result ≡ turn_number turn }
{
    match turn {
        Turn::Waits => 0,
        Turn::AsksAgain => 1,
        Turn::Serves => 2,
        Turn::ServesQuietly => 3,
        Turn::Raises => 4,
    }
}

/// Raises the ceiling if the voters that keep it, and this one, contain a quorum of each plan.
/// Writes the number of what comes of it.
pub fn turns(start: &mut [u8], have_quorums: bool, turn: &mut u32) -> Result<(), Refusal>
    ensures turns { StartTurns start.old have_quorums start.new turn.new (returned result) }
    ensures refused { OnErr result ((start.new ≡ start.old) × (turn.new ≡ turn.old)) }
{
    let mut it = load_start(start)?;
    *turn = number_of_turn(it.turns(have_quorums));
    store_start(&it, start);
    Ok(())
}

/// Asks for the next ceiling if half of the last block is used.
#[tactic(auto, using(crate::proofs::BlockLemmas::needed))]
pub fn needs(start: &mut [u8], number: u64) -> Result<(), Refusal>
    ensures needs { StartNeeds start.old number start.new (returned result) }
    ensures refused { OnErr result (start.new ≡ start.old) }
{
    let mut it = load_start(start)?;
    it.needs(number);
    store_start(&it, start);
    Ok(())
}

/// Forgets who keeps the ceiling.
pub fn renews(start: &mut [u8]) -> Result<(), Refusal>
    ensures renews { StartDoes renews start.old start.new (returned result) }
    ensures refused { OnErr result (start.new ≡ start.old) }
{
    let mut it = load_start(start)?;
    it.renews();
    store_start(&it, start);
    Ok(())
}
