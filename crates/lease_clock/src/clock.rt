//! The lease clock.
ghost use Rattle.std.specs.Prelude.{◌≡◌, ◌≤◌, ◌+◌, ℕ, Some, None, IfSome, if◌then◌else◌};
ghost use Rattle.arrayvec.specs.ArrayVec.{array_vec_len};
ghost use Rattle.lease_clock.specs.Clocks.{Clock, IsSound, at, begun, is_due, is_silent, leaves, lost, reading, returned};
ghost use Rattle.lease_clock.specs.Saved.{words_of};

use crate::marker::{Marker, Markers, add, find};
use crate::saved::{
    HEAD_WORDS, SAVED_WORDS, SavedWords, are_in_order, are_slots_of, markers_in, slots_of,
};
use arrayvec::ArrayVec;
use std::marker::Model;

/// The lease clock of a voter, which goes on only while the voter can hear. Times are nanoseconds
/// of one clock of the caller.
///
/// Contracts see it as a `Clock`.
#[derive(Drop)]
pub struct LeaseClock {
    period: u64,
    skipped: u64,
    away: Markers,
    last: Marker,
    back: Marker,
}

impl Model for LeaseClock {
    ghost use Rattle.lease_clock.specs.Clocks.{Clock, IsSound};

    ghost Value = { Clock };

    ghost view = { λ c. record { period = c.period; skipped = c.skipped; away = c.away.items; last = c.last; back = c.back } };

    ghost invariant = { λ c. IsSound (record { period = c.period; skipped = c.skipped; away = c.away.items; last = c.last; back = c.back }) };
}

impl LeaseClock {
    /// Returns a clock that begins now, of which a marker leaves each period.
    pub fn new(period: u64, now: u64) -> Self
        ensures { result ≡ begun period now }
    {
        let begin = Marker {
            number: 0,
            left: now,
        };
        LeaseClock {
            period,
            skipped: 0,
            away: ArrayVec::new(),
            last: begin,
            back: begin,
        }
    }

    /// Returns whether it is time for a marker: none left yet, or a period has passed since the
    /// last one did. None leaves after that with the number 2^64 - 1.
    pub fn is_due(&self, now: u64) -> bool
        ensures { result ≡ is_due self.now now }
    {
        self.last.number < u64::MAX
            && (self.last.number == 0 || now.saturating_sub(self.last.left) >= self.period)
    }

    /// Notes that a marker leaves now, and returns its number. `None` if it is not time for one.
    /// The caller sends it.
    pub fn send(&mut self, now: u64) -> Option<u64>
        ensures leaves { self.new ≡ leaves self.old now }
        ensures number { result ≡ (if is_due self.old now then Some (self.old.last.number + 1) else None) }
    {
        if !self.is_due(now) {
            return None;
        }
        let next = Marker {
            number: self.last.number + 1,
            left: now.max(self.last.left),
        };
        add(next, &mut self.away);
        self.last = next;
        Some(next.number)
    }

    /// Notes that the marker of this number came back. One that is not under way changes nothing.
    pub fn returns(&mut self, number: u64)
        ensures { self.new ≡ returned self.old number }
    {
        let Some(found) = find(number, self.away.as_slice()) else {
            return;
        };
        self.skipped += self.lost(&found.marker);
        self.away = found.later;
        self.back = found.marker;
    }

    /// Returns for how long nobody could be heard before a marker left that comes back now.
    fn lost(&self, marker: &Marker) -> u64
        requires { self.now.back.left ≤ marker.now.left }
        ensures { result ≡ lost self.now marker.now }
    {
        let gap = marker.left - self.back.left;
        if self.back.number.checked_add(1) == Some(marker.number) {
            gap.saturating_sub(self.period).saturating_sub(self.period)
        } else {
            gap
        }
    }

    /// Returns the reading at which a session is heard that is heard now.
    pub fn at(&self, now: u64) -> u64
        ensures { result ≡ at self.now now }
    {
        now.max(self.last.left) - self.skipped
    }

    /// Returns the reading up to which all that was sent was heard.
    pub fn reading(&self) -> u64
        ensures value { result ≡ reading self.now }
        ensures sound { IsSound self.now }
    {
        self.back.left - self.skipped
    }

    /// Returns when the newest marker left that came back.
    pub fn newest_left(&self) -> u64
        ensures { result ≡ self.now.back.left }
    {
        self.back.left
    }

    /// Returns whether a session that was heard at this reading is silent for a TTL.
    pub fn is_silent(&self, heard: u64, ttl: u64) -> bool
        ensures { result ≡ is_silent self.now heard ttl }
    {
        let reading = self.reading();
        match heard.checked_add(ttl) {
            Some(end) => end <= reading,
            None => false,
        }
    }

    /// Writes the numbers of the clock. Restored from them, it is the same clock.
    pub fn save(&self, words: &mut SavedWords)
        ensures words { words.new.items ≡ words_of self.now }
        ensures len { array_vec_len words.new ≡ 38 }
        // So it can be restored, whatever calls led to it.
        ensures sound { IsSound self.now }
    {
        words.clear();
        words.push(self.period);
        words.push(self.skipped);
        words.push(self.last.number);
        words.push(self.last.left);
        words.push(self.back.number);
        words.push(self.back.left);
        let slots = slots_of(self.away.as_slice());
        let _ = words.try_extend_from_slice(slots.as_slice());
    }

    /// Returns the clock that was saved as these numbers. `None` if they are not those of a clock.
    pub fn restore(words: &[u64]) -> Option<LeaseClock>
        ensures sound { IfSome result IsSound }
        // It is saved as exactly these numbers.
        ensures text { IfSome result (λ c. words.now ≡ words_of c) }
        // A saved clock is restored as it was.
        ensures read { (c : Clock) → IsSound c → words.now ≡ words_of c → result ≡ Some c }
    {
        if words.len() != SAVED_WORDS {
            return None;
        }
        let last = Marker {
            number: words[2],
            left: words[3],
        };
        let back = Marker {
            number: words[4],
            left: words[5],
        };
        let away = markers_in(&words[HEAD_WORDS..]);
        if words[1] > back.left
            || !are_in_order(back, away.as_slice(), last)
            || !are_slots_of(&words[HEAD_WORDS..], away.as_slice())
        {
            return None;
        }
        Some(LeaseClock {
            period: words[0],
            skipped: words[1],
            away,
            last,
            back,
        })
    }
}
