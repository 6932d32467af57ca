//! The row of a client number.
ghost use Rattle.std.specs.Prelude.{◌≡◌, ◌<◌, ◌≤◌, IfErr, IfSome, OnOk, OnErr, Ok, Err, Some, None, Option, ℕ, max, min, nat_le, is_none, true};
ghost use Rattle.numbers.specs.Bounds.{max_limit};
ghost use Rattle.sessions.specs.Rows.{Row, dropped, has_number, is_name, is_new, is_taken, reserved};
ghost use Rattle.session_rows.specs.Calls.{allowed_stamp, are_two, claim_fault, claim_of, close_of, evict_of, floor_row, followed_by, gives_way, is_split, learn_of, new_claim, raised_by, reserve_of, take_back_of};
ghost use Rattle.session_rows.specs.Saved.{IsBounded, words_of};

use crate::claim::{Bounds, Claim, Heard};
use crate::fault::RowFault;
use crate::saved::{SAVED_WORDS, session_of_words, words_of_session};
use numbers::MAX_LIMIT;
use std::marker::Model;

/// The most by which a claim's epoch may be above the row's.
const MOST_EPOCHS: u64 = 1 << 20;

/// The most stamps that come with a claim.
const MOST_CLAIMED: u64 = 1 << 12;

/// The row of one client number at one voter: its newest epoch, the session that has it, if any does, and
/// between which stamps that session's are. If the session took its claim back, the epoch may be claimed again.
///
/// Contracts see it as a `Row` of `sessions`.
#[derive(Drop)]
pub struct SessionRow {
    epoch: u64,
    session: Option<u128>,
    base: u64,
    reserved: u64,
    again: bool,
}

impl Model for SessionRow {
    ghost use Rattle.sessions.specs.Rows.{Row};
    ghost use Rattle.session_rows.specs.Saved.{IsBounded};

    ghost Value = { Row };

    ghost view = { λ r. record { epoch = r.epoch; session = r.session; base = r.base; reserved = r.reserved; again = r.again } };

    ghost invariant = { λ r. IsBounded (record { epoch = r.epoch; session = r.session; base = r.base; reserved = r.reserved; again = r.again }) };
}

/// Returns whether this is the name of the session.
fn is_name(name: Option<u128>, session: u128) -> bool
    ensures { result ≡ is_name name session }
{
    match name {
        Some(name) => name == session,
        None => false,
    }
}

/// Returns whether these are two sessions.
fn are_two(session: Option<u128>, other: Option<u128>) -> bool
    ensures { result ≡ are_two session other }
{
    match (session, other) {
        (Some(session), Some(other)) => session != other,
        (Some(_), None) | (None, _) => false,
    }
}

/// Returns the highest stamp that a session may reserve, if it wants this one.
fn allowed_stamp(stamp: u64, most: u64) -> u64
    ensures value { result ≡ allowed_stamp stamp most }
    ensures few { result ≤ max_limit }
{
    stamp.min(most.min(MAX_LIMIT))
}

impl SessionRow {
    /// Returns the row of a number that nobody has. Its epochs and its stamps are above this floor.
    pub fn new(epoch: u64, stamp: u64) -> Self
        requires { stamp ≤ max_limit }
        ensures { result ≡ floor_row epoch stamp }
    {
        SessionRow {
            epoch,
            session: None,
            base: stamp,
            reserved: stamp,
            again: false,
        }
    }

    /// Returns the newest epoch of the number.
    pub fn epoch(&self) -> u64
        ensures { result ≡ self.now.epoch }
    {
        self.epoch
    }

    /// Returns the session that has the number, if any does.
    pub fn session(&self) -> Option<u128>
        ensures { result ≡ self.now.session }
    {
        self.session
    }

    /// Returns whether the epoch may be claimed again: its session took the claim back.
    pub fn again(&self) -> bool
        ensures { result ≡ self.now.again }
    {
        self.again
    }

    /// Returns the stamp above which all stamps of the session are.
    pub fn base(&self) -> u64
        ensures { result ≡ self.now.base }
    {
        self.base
    }

    /// Returns the highest stamp that is reserved.
    pub fn reserved(&self) -> u64
        ensures value { result ≡ self.now.reserved }
        ensures bounded { IsBounded self.now }
    {
        self.reserved
    }

    /// Returns the numbers of the row. Restored from them, it is the same row.
    pub fn save(&self) -> [u64; SAVED_WORDS]
        ensures words { result ≡ words_of self.now }
        // So it can be restored, whatever calls led to it.
        ensures bounded { IsBounded self.now }
    {
        let [held, upper, lower] = words_of_session(self.session, self.again);
        [self.epoch, self.base, self.reserved, held, upper, lower]
    }

    /// Returns the row that was saved as these numbers. `None` if they are not those of a row.
    pub fn restore(words: &[u64; SAVED_WORDS]) -> Option<SessionRow>
        ensures bounded { IfSome result IsBounded }
        // It is saved as exactly these numbers.
        ensures text { IfSome result (λ r. words.now ≡ words_of r) }
        // A saved row is restored as it was.
        ensures read { (r : Row) → IsBounded r → words.now ≡ words_of r → result ≡ Some r }
    {
        let [epoch, base, reserved, held, upper, lower] = *words;
        if base > reserved || reserved > MAX_LIMIT {
            return None;
        }
        let (session, again) = session_of_words(held, upper, lower)?;
        Some(SessionRow {
            epoch,
            session,
            base,
            reserved,
            again,
        })
    }

    /// Returns whether the number is the session's, under this epoch.
    pub fn owns(&self, session: u128, epoch: u64) -> bool
        ensures { result ≡ has_number self.now session epoch }
    {
        self.epoch == epoch && is_name(self.session, session)
    }

    /// Returns whether the voter takes a REQUEST of the session, under this epoch and stamp: the number is
    /// the session's, and the stamp is one of its own.
    pub fn takes(&self, session: u128, epoch: u64, stamp: u64) -> bool
        ensures { result ≡ is_taken self.now session epoch stamp }
    {
        self.owns(session, epoch) && self.base < stamp && stamp <= self.reserved
    }

    /// Returns whether a stamp is of an earlier session than the one that has the number.
    pub fn is_before(&self, stamp: u64) -> bool
        ensures { result ≡ nat_le stamp self.now.base }
    {
        stamp <= self.base
    }

    /// Gives the number to a session that claims it, with its first stamps. The claim of the session that
    /// has it changes nothing. The caller says whether the session that has it was silent for long enough.
    ///
    /// Fails with `OldEpoch` if the epoch is not above the row's, nor is the row's and may be claimed again, with
    /// `FarEpoch` if it is too far above it, and with `InUse` if a session has the number and is not silent, in
    /// this order.
    pub fn claim(&mut self, claim: Claim, is_silent: bool, bounds: Bounds) -> Result<(), RowFault>
        ensures claimed { OnOk result (Ok self.new ≡ claim_of self.old claim is_silent bounds) }
        ensures refused { IfErr result (λ fault. Err fault ≡ claim_of self.old claim is_silent bounds) }
        ensures unchanged { OnErr result (self.new ≡ self.old) }
    {
        if self.owns(claim.session, claim.epoch) {
            return Ok(());
        }
        match self.claim_fault(claim.epoch, is_silent, bounds.epochs) {
            Some(fault) => Err(fault),
            None => {
                self.begin(claim, bounds.stamp);
                Ok(())
            }
        }
    }

    /// Returns why a new claim is refused, if it is.
    fn claim_fault(&self, epoch: u64, is_silent: bool, epochs: u64) -> Option<RowFault>
        ensures { result ≡ claim_fault self.now epoch is_silent epochs }
    {
        if !self.is_new(epoch) {
            Some(RowFault::OldEpoch)
        } else if epoch - self.epoch > epochs.min(MOST_EPOCHS) {
            Some(RowFault::FarEpoch)
        } else if self.session.is_none() || is_silent {
            None
        } else {
            Some(RowFault::InUse)
        }
    }

    /// Returns whether a session may claim this epoch: it is newer, or the row is free and its epoch may be claimed
    /// again.
    pub fn is_new(&self, epoch: u64) -> bool
        ensures new { result ≡ is_new self.now epoch }
        ensures below { result ≡ true → self.now.epoch ≤ epoch }
    {
        self.epoch < epoch || self.epoch == epoch && self.again && self.session.is_none()
    }

    /// Begins the session of a claim.
    fn begin(&mut self, claim: Claim, most: u64)
        requires { is_new self.old claim.epoch ≡ true }
        ensures { self.new ≡ new_claim self.old claim most }
    {
        let spent = self.reserved;
        self.epoch = claim.epoch;
        self.session = Some(claim.session);
        self.base = spent;
        self.again = false;
        self.reserved = spent.max(allowed_stamp(spent + claim.stamps.min(MOST_CLAIMED), most));
    }

    /// Reserves stamps up to this one for the session that has the number. It reserves none above `most`,
    /// and none above 2^62.
    ///
    /// Fails with `NotOwner` if and only if the number is not the session's under this epoch.
    pub fn reserve(
        &mut self,
        session: u128,
        epoch: u64,
        stamp: u64,
        most: u64,
    ) -> Result<(), RowFault>
        ensures reserved { OnOk result (Ok self.new ≡ reserve_of self.old session epoch stamp most) }
        ensures refused { IfErr result (λ fault. Err fault ≡ reserve_of self.old session epoch stamp most) }
        ensures unchanged { OnErr result (self.new ≡ self.old) }
    {
        if !self.owns(session, epoch) {
            return Err(RowFault::NotOwner);
        }
        self.reserved = self.reserved.max(allowed_stamp(stamp, most));
        Ok(())
    }

    /// Frees the number, which its session gives back. The epoch stays.
    ///
    /// Fails with `NotOwner` if and only if the number is not the session's under this epoch.
    pub fn close(&mut self, session: u128, epoch: u64) -> Result<(), RowFault>
        ensures closed { OnOk result (Ok self.new ≡ close_of self.old session epoch) }
        ensures refused { IfErr result (λ fault. Err fault ≡ close_of self.old session epoch) }
        ensures unchanged { OnErr result (self.new ≡ self.old) }
    {
        if self.owns(session, epoch) {
            self.vacate(false);
            Ok(())
        } else {
            Err(RowFault::NotOwner)
        }
    }

    /// Frees the number, as the session takes its claim back: no quorum granted it. The epoch may be claimed again.
    /// The caller's sessions see to it that one which did so claims and uses this epoch never again.
    ///
    /// Fails with `NotOwner` if and only if the number is not the session's under this epoch.
    pub fn take_back(&mut self, session: u128, epoch: u64) -> Result<(), RowFault>
        ensures back { OnOk result (Ok self.new ≡ take_back_of self.old session epoch) }
        ensures refused { IfErr result (λ fault. Err fault ≡ take_back_of self.old session epoch) }
        ensures unchanged { OnErr result (self.new ≡ self.old) }
    {
        if self.owns(session, epoch) {
            self.vacate(true);
            Ok(())
        } else {
            Err(RowFault::NotOwner)
        }
    }

    /// Leaves the number to nobody. `again` says whether the epoch may be claimed again.
    fn vacate(&mut self, again: bool)
        ensures { self.new ≡ record { epoch = self.old.epoch; session = None; base = self.old.base; reserved = self.old.reserved; again = again } }
    {
        self.session = None;
        self.again = again;
    }

    /// Drops the row: the number is nobody's, and its epochs and stamps are above this floor, and above what
    /// the row had. An epoch that may be claimed again still may, if the floor has no newer one.
    pub fn drop_to(&mut self, epoch: u64, stamp: u64)
        requires { stamp ≤ max_limit }
        ensures { self.new ≡ dropped self.old epoch stamp }
    {
        self.again = epoch <= self.epoch && self.again && self.session.is_none();
        self.epoch = self.epoch.max(epoch);
        self.session = None;
        self.reserved = self.reserved.max(stamp);
        self.base = self.reserved;
    }

    /// Ends the session that has the number, if any does: the number is nobody's, under the next epoch. No
    /// message of an earlier epoch counts any more.
    ///
    /// Fails with `EpochsSpent` if and only if there is no next epoch.
    pub fn evict(&mut self) -> Result<(), RowFault>
        ensures evicted { OnOk result (Ok self.new ≡ evict_of self.old) }
        ensures refused { IfErr result (λ fault. Err fault ≡ evict_of self.old) }
        ensures unchanged { OnErr result (self.new ≡ self.old) }
    {
        let Some(next) = self.epoch.checked_add(1) else {
            return Err(RowFault::EpochsSpent);
        };
        self.drop_to(next, 0);
        Ok(())
    }

    /// Learns another voter's row of the number. The row follows a newer one whose session was heard, or if
    /// its own was not. It is nobody's if two sessions that were heard have its epoch. What is reserved there
    /// is reserved here.
    pub fn learn(&mut self, other: &SessionRow, heard: Heard)
        ensures { self.new ≡ learn_of self.old other.now heard }
    {
        if self.gives_way(other, heard) {
            self.follow(other);
        } else if self.is_split(other, heard) {
            self.drop_to(self.epoch, other.reserved);
        } else {
            self.raise(other.reserved);
        }
    }

    /// Returns whether the other row is newer, and its session was heard, or the one here was not.
    pub fn gives_way(&self, other: &SessionRow, heard: Heard) -> bool
        ensures way { result ≡ gives_way self.now other.now heard }
        ensures newer { result ≡ true → self.now.epoch < other.now.epoch }
    {
        self.epoch < other.epoch && (heard.there || !heard.here)
    }

    /// Returns whether two sessions that were heard have the number under one epoch.
    pub fn is_split(&self, other: &SessionRow, heard: Heard) -> bool
        ensures { result ≡ is_split self.now other.now heard }
    {
        self.epoch == other.epoch
            && are_two(self.session, other.session)
            && heard.here
            && heard.there
    }

    /// Follows a newer row.
    fn follow(&mut self, other: &SessionRow)
        requires { self.old.epoch < other.now.epoch }
        ensures { self.new ≡ followed_by self.old other.now other.now.session }
    {
        match other.session {
            None if other.again => self.drop_to(other.epoch - 1, other.reserved),
            None => self.drop_to(other.epoch, other.reserved),
            Some(session) => {
                self.epoch = other.epoch;
                self.session = Some(session);
                self.base = self.reserved.max(other.base);
                self.reserved = self.base.max(other.reserved);
                self.again = false;
            }
        }
    }

    /// Reserves stamps up to this one, whoever has the number.
    fn raise(&mut self, stamp: u64)
        requires { stamp ≤ max_limit }
        ensures { self.new ≡ raised_by self.old stamp self.old.session }
    {
        match self.session {
            None => self.drop_to(0, stamp),
            Some(_) => self.reserved = self.reserved.max(stamp),
        }
    }
}
