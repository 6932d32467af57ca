//! The calls of one process for one lock.
ghost use Rattle.std.specs.Prelude.{◌≡◌, IfSome, Some, None, Option, Bool, OnOk, IfErr};
ghost use Rattle.callers.specs.Calls.{begun, call_fault, closed, emptied, ends_try, bool_word, handed, holder_words, is_new_loss, lost, lost_of, may_end, may_hand, next, somebody_waits, spoiled, tries_refused, unlocked, unwanted, wanted, words_of};
ghost use Rattle.callers.specs.declared.calls.Calls.{Calls};
ghost use Rattle.callers.specs.declared.calls.Holder.{Holder as HolderSpec};

use crate::fault::CallFault;

/// How many numbers saved calls have.
pub const SAVED_WORDS: usize = 7;

/// What the session does about the lock, as its client of the lock shows it.
#[derive(Clone, Copy, Debug, PartialEq, Eq)]
pub enum Phase {
    /// It does not ask for the lock.
    Idle,
    /// It asks for it.
    Asking,
    /// It has all votes of a quorum, for the request of this stamp.
    Inside(u64),
}

/// What the session has to do next.
#[derive(Clone, Copy, Debug, PartialEq, Eq)]
pub enum Next {
    /// Nothing, until something comes.
    Nothing,
    /// It asks for the lock with a new request.
    Ask,
    /// It gives up the request by which it asks.
    GiveUp,
    /// It ends the request by which it is inside.
    Leave,
    /// It hands the lock to the first call that waits.
    Hand,
    /// It tells the call that has the lock that the lock may be lost.
    Lose,
}

/// The call that has the lock.
#[derive(Clone, Copy, Debug, PartialEq, Eq)]
pub struct Holder {
    /// The stamp of the request under which it has the lock.
    pub request: u64,
    /// Whether it was told that the lock may be lost.
    pub is_lost: bool,
}

/// The calls of one process for one lock: those that wait, first come, first served, and the one that has the lock.
#[derive(Clone, Copy, Debug, PartialEq, Eq)]
pub struct Calls {
    /// How many calls wait for the lock, whoever has it.
    pub waiting: u64,
    /// Whether a call waits that only tries. It waits for votes alone, and before all others.
    pub is_tried: bool,
    /// The call that has the lock.
    pub holder: Option<Holder>,
    /// The greatest stamp of a request under which a call had the lock, or that was used before.
    pub used: u64,
    /// Whether no call is taken any more.
    pub is_closed: bool,
}

impl Calls {
    /// Returns the calls for a lock that nobody wants yet. The stamps of its requests are above this one.
    pub fn new(used: u64) -> Self
        ensures { result ≡ begun used }
    {
        Calls {
            waiting: 0,
            is_tried: false,
            holder: None,
            used,
            is_closed: false,
        }
    }

    /// Returns whether a call waits.
    pub fn is_wanted(&self) -> bool
        ensures { result ≡ somebody_waits self.now }
    {
        self.is_tried || self.waiting > 0
    }

    /// Takes a call that comes, behind all that wait. One that only tries is refused unless it can be the first. Fails with
    /// `Closed` if the session is closed, else with `Held` if the call only tries and the lock is asked for, had or waited
    /// for, else with `TooMany` if the call waits and 2^64 - 1 do so already.
    pub fn wants(&mut self, phase: Phase, tries: bool) -> Result<(), CallFault>
        ensures wanted { self.new ≡ wanted self.old phase tries }
        ensures taken { OnOk result (call_fault self.old phase tries ≡ None) }
        ensures refused { IfErr result (λ fault. call_fault self.old phase tries ≡ Some fault) }
    {
        if self.is_closed {
            return Err(CallFault::Closed);
        }
        if tries {
            if phase != Phase::Idle || self.holder.is_some() || self.is_wanted() {
                return Err(CallFault::Held);
            }
            self.is_tried = true;
            return Ok(());
        }
        let Some(waiting) = self.waiting.checked_add(1) else {
            return Err(CallFault::TooMany);
        };
        self.waiting = waiting;
        Ok(())
    }

    /// Notes that a call does not wait any more, which only tried or did not.
    pub fn unwants(&mut self, tries: bool)
        ensures { self.new ≡ unwanted self.old tries }
    {
        if tries {
            self.is_tried = false;
        } else {
            self.waiting = self.waiting.saturating_sub(1);
        }
    }

    /// Notes that somebody else has the lock. Returns whether that ends a call that only tries. Once the session is inside
    /// it ends none: the lock is handed to that call.
    pub fn refuses_tries(&mut self, phase: Phase) -> bool
        ensures refused { self.new ≡ tries_refused self.old phase }
        ensures ends { result ≡ ends_try self.old phase }
    {
        let ends = self.is_tried
            && match phase {
                Phase::Inside(_) => false,
                _ => true,
            };
        if ends {
            self.is_tried = false;
        }
        ends
    }

    /// Hands the lock to the first call that waits, if it may have it: the session is inside, by a request under which no
    /// call had the lock before, no call has it now, and the votes count. Returns whether it has it now.
    pub fn hands(&mut self, phase: Phase, counts: bool) -> bool
        ensures handed { self.new ≡ handed self.old phase counts }
        ensures may { result ≡ may_hand self.old phase counts }
    {
        let Phase::Inside(request) = phase else {
            return false;
        };
        let may = counts && self.holder.is_none() && self.is_wanted() && self.used < request;
        if may {
            self.unwants(self.is_tried);
            self.used = request;
            self.holder = Some(Holder {
                request,
                is_lost: false,
            });
        }
        may
    }

    /// Takes the lock back from the call that has it under this request. Returns whether that call was told before that the
    /// lock may be lost. `None` if no call has it under this request: then nothing changes.
    pub fn unlocks(&mut self, request: u64) -> Option<bool>
        ensures unlocked { self.new ≡ unlocked self.old request }
        ensures lost { result ≡ lost_of self.old request }
    {
        let holder = self.holder?;
        if holder.request != request {
            return None;
        }
        self.holder = None;
        Some(holder.is_lost)
    }

    /// Returns whether the session may end its request of this stamp: no call has the lock under it. It gives up, and leaves,
    /// only then. While any call has the lock, it gives no vote back.
    pub fn may_end(&self, request: u64) -> bool
        ensures { result ≡ may_end self.now request }
    {
        match self.holder {
            None => true,
            Some(holder) => holder.request != request,
        }
    }

    /// Notes that the lock may be lost. Returns whether the call that has it has to be told: it was not told before.
    pub fn loses(&mut self) -> bool
        ensures lost { self.new ≡ lost self.old }
        ensures is_new { result ≡ is_new_loss self.old }
    {
        let Some(holder) = self.holder else {
            return false;
        };
        self.holder = Some(Holder {
            request: holder.request,
            is_lost: true,
        });
        !holder.is_lost
    }

    /// Notes that no call waits any more: they all failed.
    pub fn empties(&mut self)
        ensures { self.new ≡ emptied self.old }
    {
        self.waiting = 0;
        self.is_tried = false;
    }

    /// Closes: no call waits any more, and none is taken from now on. The call that has the lock has it on.
    pub fn closes(&mut self)
        ensures { self.new ≡ closed self.old }
    {
        self.empties();
        self.is_closed = true;
    }

    /// Returns what the session has to do next, in this phase. `counts` is whether all votes of the quorum count now, and
    /// `is_doubtful` whether it has a vote that does not count any more.
    pub fn next(&self, phase: Phase, counts: bool, is_doubtful: bool) -> Next
        ensures { result ≡ next self.now phase counts is_doubtful }
    {
        if self.holder.is_some() {
            return Next::Nothing;
        }
        let is_wanted = self.is_wanted();
        match phase {
            Phase::Idle if is_wanted => Next::Ask,
            Phase::Idle => Next::Nothing,
            Phase::Asking if is_wanted => Next::Nothing,
            Phase::Asking => Next::GiveUp,
            Phase::Inside(request) if !is_wanted || request <= self.used => Next::Leave,
            Phase::Inside(_) if counts => Next::Hand,
            Phase::Inside(_) if is_doubtful => Next::Leave,
            Phase::Inside(_) => Next::Nothing,
        }
    }

    /// Returns what the session has to do if a vote that it has may be somebody else's. A call that has the lock is told so
    /// once, and keeps its request until it gives the lock back.
    pub fn spoiled(&self, phase: Phase) -> Next
        ensures { result ≡ spoiled self.now phase }
    {
        match self.holder {
            Some(holder) if holder.is_lost => Next::Nothing,
            Some(_) => Next::Lose,
            None => match phase {
                Phase::Idle => Next::Nothing,
                Phase::Asking => Next::GiveUp,
                Phase::Inside(_) => Next::Leave,
            },
        }
    }

    /// Returns the numbers of the calls.
    pub fn save(&self) -> [u64; SAVED_WORDS]
        ensures { result ≡ words_of self.now }
    {
        let [has_lock, request, is_lost] = words_of_holder(self.holder);
        [
            self.waiting,
            u64::from(self.is_tried),
            has_lock,
            request,
            is_lost,
            self.used,
            u64::from(self.is_closed),
        ]
    }

    /// Returns the calls that were saved as these numbers. `None` if they are not those of any.
    pub fn restore(words: &[u64; SAVED_WORDS]) -> Option<Calls>
        // They are saved as exactly these numbers.
        ensures text { IfSome result (λ c. words.now ≡ words_of c) }
        // What was saved is restored as it was.
        ensures read { (c : Calls) → words.now ≡ words_of c → result ≡ Some c }
    {
        let [
            waiting,
            is_tried,
            has_lock,
            request,
            is_lost,
            used,
            is_closed,
        ] = *words;
        Some(Calls {
            waiting,
            is_tried: bool_of(is_tried)?,
            holder: holder_of(&[has_lock, request, is_lost])?,
            used,
            is_closed: bool_of(is_closed)?,
        })
    }
}

/// Returns the truth that is this number. `None` if it is neither 0 nor 1.
fn bool_of(number: u64) -> Option<bool>
    ensures text { IfSome result (λ b. number ≡ bool_word b) }
    ensures read { (b : Bool) → number ≡ bool_word b → result ≡ Some b }
{
    match number {
        0 => Some(false),
        1 => Some(true),
        _ => None,
    }
}

/// Returns the call that may have the lock, with these three numbers. `None` if they are not those of one.
fn holder_of(words: &[u64; 3]) -> Option<Option<Holder>>
    ensures text { IfSome result (λ h. words.now ≡ holder_words h) }
    ensures read { (h : Option HolderSpec) → words.now ≡ holder_words h → result ≡ Some h }
{
    let [has_lock, request, is_lost] = *words;
    match (has_lock, request, is_lost) {
        (0, 0, 0) => Some(None),
        (1, request, is_lost) => Some(Some(Holder {
            request,
            is_lost: bool_of(is_lost)?,
        })),
        _ => None,
    }
}

/// Returns the three numbers of the call that may have the lock.
fn words_of_holder(holder: Option<Holder>) -> [u64; 3]
    ensures { result ≡ holder_words holder }
{
    match holder {
        None => [0, 0, 0],
        Some(holder) => [1, holder.request, u64::from(holder.is_lost)],
    }
}
