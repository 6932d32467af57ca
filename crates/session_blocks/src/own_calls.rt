//! The calls of a process for a lock as bytes, and what is done with them.
ghost use Rattle.std.specs.Prelude.{◌≡◌, IfErr, IfOk, IfSome, None, OnErr, Some, if◌then◌else◌, length};
ghost use Rattle.callers.specs.Calls.{closed, emptied, words_of};
ghost use Rattle.callers.specs.declared.calls.Calls.{Calls};
ghost use Rattle.session_blocks.specs.Bytes.{AreCalls, AreNoCalls};
ghost use Rattle.session_blocks.specs.SessionSteps.{CallComes, CallGoes, CallUnlocks, CallsAreMade, CallsEnd, CallsShowEnd, CallsShowNext, CallsShowSpoiled, LockIsHanded, LockMayBeLost, TriesAreRefused, fault_number, next_number, phase_of, unlock_number};
ghost use Rattle.blocks.specs.Numbers.{returned};

use arrayvec::ArrayVec;
use blocks::Refusal;
use callers::{CallFault, Calls, Next, Phase, SAVED_WORDS};
use words::{read_words, write_words};

/// How many bytes calls have.
pub const CALLS_BYTES: usize = 56;

/// Returns the calls that were saved as these bytes. Fails with `BadState` if there are none.
pub fn load_calls(bytes: &[u8]) -> Result<Calls, Refusal>
    ensures loaded { IfOk result (AreCalls bytes.now) }
    // They are the only ones.
    ensures only { IfOk result (λ c. (d : Calls) → AreCalls bytes.now d → d ≡ c) }
    ensures len { IfOk result (λ _. length bytes.now ≡ 56) }
    ensures refused { IfErr result (λ r. (r ≡ Refusal.BadState) × AreNoCalls bytes.now) }
{
    if bytes.len() != CALLS_BYTES {
        return Err(Refusal::BadState);
    }
    let mut words = ArrayVec::<u64, SAVED_WORDS>::new();
    read_words(bytes, &mut words);
    match calls_of(words.as_slice()) {
        Some(calls) => Ok(calls),
        None => Err(Refusal::BadState),
    }
}

/// Returns the calls with these numbers. `None` if they are not those of any.
fn calls_of(words: &[u64]) -> Option<Calls>
    requires { length words.now ≡ 7 }
    ensures text { IfSome result (λ c. words.now ≡ words_of c) }
    ensures read { (c : Calls) → words.now ≡ words_of c → result ≡ Some c }
{
    let mut numbers = [0; SAVED_WORDS];
    numbers.copy_from_slice(words);
    Calls::restore(&numbers)
}

/// Writes the bytes of calls.
pub fn store_calls(calls: &Calls, bytes: &mut [u8])
    requires { length bytes.old ≡ 56 }
    ensures { AreCalls bytes.new calls.now }
{
    write_words(&calls.save(), bytes);
}

/// Returns the phase with this number. Fails with `BadArgument` if there is none.
fn read_phase(phase: u32, request: u64) -> Result<Phase, Refusal>
    ensures read { IfOk result (λ p. phase_of phase request ≡ Some p) }
    ensures refused { IfErr result (λ r. (r ≡ Refusal.BadArgument) × (phase_of phase request ≡ None)) }
{
    match phase {
        0 => Ok(Phase::Idle),
        1 => Ok(Phase::Asking),
        2 => Ok(Phase::Inside(request)),
        _ => Err(Refusal::BadArgument),
    }
}

/// Returns why a call was refused, as a number, and 0 if it was taken.
pub fn number_of_fault(fault: Option<CallFault>) -> u32
    ensures { result ≡ fault_number fault }
{
    match fault {
        None => 0,
        Some(CallFault::Closed) => 1,
        Some(CallFault::Held) => 2,
        Some(CallFault::TooMany) => 3,
    }
}

/// Returns what is next, as a number.
pub fn number_of_next(next: Next) -> u32
    ensures { result ≡ next_number next }
{
    match next {
        Next::Nothing => 0,
        Next::Ask => 1,
        Next::GiveUp => 2,
        Next::Leave => 3,
        Next::Hand => 4,
        Next::Lose => 5,
    }
}

/// Returns how a call gave the lock back, as a number.
fn number_of_unlock(lost: Option<bool>) -> u32
    ensures { result ≡ unlock_number lost }
{
    match lost {
        None => 0,
        Some(false) => 1,
        Some(true) => 2,
    }
}

/// Makes the calls for a lock that nobody wants yet. The stamps of its requests are above this one.
pub fn new(used: u64, calls: &mut [u8]) -> Result<(), Refusal>
    ensures made { CallsAreMade used calls.old calls.new (returned result) }
    ensures refused { OnErr result (calls.new ≡ calls.old) }
{
    if calls.len() != CALLS_BYTES {
        return Err(Refusal::BadState);
    }
    store_calls(&Calls::new(used), calls);
    Ok(())
}

/// Takes a call that comes. Writes 0 if it is taken, and else why it is refused: then nothing changes.
pub fn wants(
    calls: &mut [u8],
    phase: u32,
    request: u64,
    tries: bool,
    why: &mut u32,
) -> Result<(), Refusal>
    ensures comes { CallComes phase request tries calls.old calls.new why.new (returned result) }
    ensures refused { OnErr result ((calls.new ≡ calls.old) × (why.new ≡ why.old)) }
{
    let mut it = load_calls(calls)?;
    let phase = read_phase(phase, request)?;
    *why = number_of_fault(it.wants(phase, tries).err());
    store_calls(&it, calls);
    Ok(())
}

/// Notes that a call does not wait any more, which only tried or did not.
pub fn unwants(calls: &mut [u8], tries: bool) -> Result<(), Refusal>
    ensures goes { CallGoes tries calls.old calls.new (returned result) }
    ensures refused { OnErr result (calls.new ≡ calls.old) }
{
    let mut it = load_calls(calls)?;
    it.unwants(tries);
    store_calls(&it, calls);
    Ok(())
}

/// Notes that somebody else has the lock. Writes 1 if that ends a call that only tries, and 0 if not.
pub fn refuses_tries(
    calls: &mut [u8],
    phase: u32,
    request: u64,
    yes: &mut u32,
) -> Result<(), Refusal>
    ensures are { TriesAreRefused phase request calls.old calls.new yes.new (returned result) }
    ensures refused { OnErr result ((calls.new ≡ calls.old) × (yes.new ≡ yes.old)) }
{
    let mut it = load_calls(calls)?;
    let phase = read_phase(phase, request)?;
    *yes = u32::from(it.refuses_tries(phase));
    store_calls(&it, calls);
    Ok(())
}

/// Hands the lock to the first call that waits, if that may have it. Writes 1 if it has it now, and 0 if not: then nothing changes.
pub fn hands(
    calls: &mut [u8],
    phase: u32,
    request: u64,
    counts: bool,
    yes: &mut u32,
) -> Result<(), Refusal>
    ensures handed { LockIsHanded phase request counts calls.old calls.new yes.new (returned result) }
    ensures refused { OnErr result ((calls.new ≡ calls.old) × (yes.new ≡ yes.old)) }
{
    let mut it = load_calls(calls)?;
    let phase = read_phase(phase, request)?;
    *yes = u32::from(it.hands(phase, counts));
    store_calls(&it, calls);
    Ok(())
}

/// Takes the lock back from the call that has it under this request. Writes 1 if it is given back, 2 if the call was told before that
/// it may be lost, and 0 if no call has it under this request: then nothing changes.
pub fn unlocks(calls: &mut [u8], request: u64, how: &mut u32) -> Result<(), Refusal>
    ensures unlocks { CallUnlocks request calls.old calls.new how.new (returned result) }
    ensures refused { OnErr result ((calls.new ≡ calls.old) × (how.new ≡ how.old)) }
{
    let mut it = load_calls(calls)?;
    *how = number_of_unlock(it.unlocks(request));
    store_calls(&it, calls);
    Ok(())
}

/// Notes that the lock may be lost. Writes 1 if the call that has it has to be told, and 0 if not.
pub fn loses(calls: &mut [u8], yes: &mut u32) -> Result<(), Refusal>
    ensures loses { LockMayBeLost calls.old calls.new yes.new (returned result) }
    ensures refused { OnErr result ((calls.new ≡ calls.old) × (yes.new ≡ yes.old)) }
{
    let mut it = load_calls(calls)?;
    *yes = u32::from(it.loses());
    store_calls(&it, calls);
    Ok(())
}

/// Notes that no call waits any more, and, if the session closes, that none is taken from now on.
pub fn ends(calls: &mut [u8], closes: bool) -> Result<(), Refusal>
    ensures end { CallsEnd closes calls.old calls.new (returned result) }
    ensures refused { OnErr result (calls.new ≡ calls.old) }
{
    let mut it = load_calls(calls)?;
    end(&mut it, closes);
    store_calls(&it, calls);
    Ok(())
}

/// Ends all calls that wait.
fn end(calls: &mut Calls, closes: bool)
    ensures { calls.new ≡ (if closes then closed calls.old else emptied calls.old) }
{
    if closes {
        calls.closes();
    } else {
        calls.empties();
    }
}

/// Writes what the session has to do next.
pub fn next(
    calls: &[u8],
    phase: u32,
    request: u64,
    counts: bool,
    is_doubtful: bool,
    next: &mut u32,
) -> Result<(), Refusal>
    ensures shows { CallsShowNext phase request counts is_doubtful calls.now next.new (returned result) }
    ensures refused { OnErr result (next.new ≡ next.old) }
{
    let it = load_calls(calls)?;
    let phase = read_phase(phase, request)?;
    *next = number_of_next(it.next(phase, counts, is_doubtful));
    Ok(())
}

/// Writes what the session has to do if a vote may be somebody else's.
pub fn spoiled(calls: &[u8], phase: u32, request: u64, next: &mut u32) -> Result<(), Refusal>
    ensures shows { CallsShowSpoiled phase request calls.now next.new (returned result) }
    ensures refused { OnErr result (next.new ≡ next.old) }
{
    let it = load_calls(calls)?;
    let phase = read_phase(phase, request)?;
    *next = number_of_next(it.spoiled(phase));
    Ok(())
}

/// Writes 1 if the session may end its request of this stamp, as no call has the lock under it, and 0 if not.
pub fn may_end(calls: &[u8], request: u64, yes: &mut u32) -> Result<(), Refusal>
    ensures shows { CallsShowEnd request calls.now yes.new (returned result) }
    ensures refused { OnErr result (yes.new ≡ yes.old) }
{
    let it = load_calls(calls)?;
    *yes = u32::from(it.may_end(request));
    Ok(())
}
