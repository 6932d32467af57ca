//! What a voter keeps of the voter of a place.
ghost use Rattle.std.specs.Prelude.{◌≡◌};
ghost use Rattle.starts.specs.Peers.{ended_with, is_clean, is_later, is_same_process, later_of, meets, raised_to, taken};

use crate::fault::StartFault;

/// What a voter keeps of the voter of a place, for good.
#[derive(Clone, Copy, Debug, Default, PartialEq, Eq)]
pub struct Peer {
    /// The identity of its state, 0 if nobody is known.
    pub identity: u128,
    /// How often it was made again, after its state was lost.
    pub run: u64,
    /// How often its process started.
    pub start: u64,
    /// A word of the process that started last, which that made up.
    pub process: u64,
    /// No grant of it has a greater number.
    pub ceiling: u64,
    /// How often its state was saved when it ended, 0 unless it said so.
    pub ended: u64,
}

impl Peer {
    /// Returns what is to be kept from now on, if this is known of a place where the process `now`
    /// started: the process, with the greater one of both ceilings. A process that says so again
    /// does not change what is known of its end.
    ///
    /// Fails with `Place` if another voter is known, unless this one was made again more often, and
    /// with `Older` if another process of the voter is known that started as often, or more often.
    pub fn meets(&self, now: &Peer) -> Result<Peer, StartFault>
        ensures { result ≡ meets self.now now.now }
    {
        if self.identity == 0 {
            return Ok(self.taken(now, now.ended));
        }
        if now.identity != self.identity {
            if now.run > self.run {
                return Ok(self.taken(now, now.ended));
            }
            return Err(StartFault::Place);
        }
        if now.start == self.start && now.process == self.process {
            return Ok(self.taken(now, self.ended));
        }
        if now.run == self.run && now.start > self.start {
            return Ok(self.taken(now, now.ended));
        }
        Err(StartFault::Older)
    }

    /// Returns the process `now`, with the greater one of both ceilings.
    fn taken(&self, now: &Peer, ended: u64) -> Peer
        ensures { result ≡ taken self.now now.now ended }
    {
        Peer {
            identity: now.identity,
            run: now.run,
            start: now.start,
            process: now.process,
            ceiling: now.ceiling.max(self.ceiling),
            ended,
        }
    }

    /// Returns whether the other one is the later process.
    fn is_before(&self, other: &Peer) -> bool
        ensures { result ≡ is_later self.now other.now }
    {
        self.run < other.run || other.run == self.run && self.start < other.start
    }

    /// Returns the later one of two that were in a place, with the greater ceiling of both. Nobody
    /// is never the later one, and this one is if neither is.
    pub fn later_of(&self, other: &Peer) -> Peer
        ensures { result ≡ later_of self.now other.now }
    {
        if self.is_before(other) || other.run == self.run && self.identity == 0 {
            other.raised_to(self.ceiling)
        } else {
            self.raised_to(other.ceiling)
        }
    }

    fn raised_to(&self, ceiling: u64) -> Peer
        ensures { result ≡ raised_to self.now ceiling }
    {
        let mut raised = *self;
        raised.ceiling = self.ceiling.max(ceiling);
        raised
    }

    /// Returns what is to be kept if the voter of this identity says, in this start, that it ended
    /// when its state was saved so often. Nothing changes unless it is the one that is known.
    pub fn ended_with(&self, identity: u128, start: u64, saves: u64) -> Peer
        ensures { result ≡ ended_with self.now identity start saves }
    {
        let mut after = *self;
        if self.identity == identity && self.start == start {
            after.ended = saves;
        }
        after
    }

    /// Returns whether the last run of the voter of this identity is known to have ended cleanly,
    /// with just so many saves.
    pub fn is_clean(&self, identity: u128, saves: u64) -> bool
        ensures { result ≡ is_clean self.now identity saves }
    {
        self.identity == identity && self.ended > 0 && self.ended == saves
    }
}
