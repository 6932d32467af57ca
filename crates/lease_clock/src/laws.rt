//! Laws of lease clocks, and of a lease by time.
ghost use Rattle.std.specs.Prelude.{◌≡◌, ◌≤◌, ◌+◌, ◌*◌, ◌++◌, ℕ, List, true, false};
ghost use Rattle.std.specs.List.{AllByRecursion};
ghost use Rattle.lease_clock.specs.Clocks.{Clock, at, begun, is_silent, reading, time_of};
ghost use Rattle.lease_clock.specs.Leases.{AreInTurn, Event, IsRated, Tick, after_all, all_count, all_ticked, begins, is_working};
ghost use Rattle.lease_clock.specs.Example.{is_let_go, works};

/// A lease clock is never ahead of the clock, whatever comes: markers leave at any times, and come
/// back in any order, again, late, or never. What it skipped never falls, and it shows no more than
/// what is heard now is heard at. So a session that was heard at some time is silent for a TTL only
/// if a TTL has passed since.
pub fn clocks_are_never_ahead()
    ensures skips { (period begin : ℕ) (before since : List Tick)
        → (all_ticked (begun period begin) before).skipped ≤ (all_ticked (all_ticked (begun period begin) before) since).skipped }
    ensures behind { (period begin now : ℕ) (ticks : List Tick)
        → reading (all_ticked (begun period begin) ticks) ≤ at (all_ticked (begun period begin) ticks) now }
    // `heard` is when the session was heard, and `now` is no earlier than when the last marker
    // left.
    ensures silent { (period begin heard now ttl : ℕ) (before since : List Tick)
        → (all_ticked (all_ticked (begun period begin) before) since).last.left ≤ now
        → is_silent (all_ticked (all_ticked (begun period begin) before) since) (at (all_ticked (begun period begin) before) heard) ttl ≡ true
        → heard + ttl ≤ now }
{}

/// What a lease clock shows grows by exactly what counts: for each marker that came back and is the
/// next one after the newest that came back before it, the time between their leavings, and at most
/// two periods. So a session is silent for a TTL only if so much counted since it was heard.
pub fn silence_is_counted()
    ensures shows { (period begin : ℕ) (before since : List Tick)
        → reading (all_ticked (all_ticked (begun period begin) before) since)
        ≡ reading (all_ticked (begun period begin) before) + all_count (all_ticked (begun period begin) before) since }
    ensures stay { (period begin heard ttl : ℕ) (before since : List Tick)
        → is_silent (all_ticked (all_ticked (begun period begin) before) since) (at (all_ticked (begun period begin) before) heard) ttl ≡ true
        → ttl ≤ all_count (all_ticked (begun period begin) before) since }
{}

/// A dead session is silent once this much has passed since it was heard: a TTL, what the clock skipped since, and the
/// age of the newest marker that came back. Then its grants may be let go. Nothing is skipped while markers come back one after the other, and none leaves more than two periods after the
/// one before it.
pub fn dead_sessions_are_silent()
    // `heard` is when the session was heard last, no earlier than when the last marker left; `skipped` is the most that
    // was skipped since, and `delay` how long ago, at most, the newest marker left that came back.
    ensures silent { (period begin heard skipped delay now ttl : ℕ) (before since : List Tick)
        → (all_ticked (begun period begin) before).last.left ≤ heard
        → (all_ticked (all_ticked (begun period begin) before) since).skipped ≤ (all_ticked (begun period begin) before).skipped + skipped
        → now ≤ (all_ticked (all_ticked (begun period begin) before) since).back.left + delay
        → heard + ttl + skipped + delay ≤ now
        → is_silent (all_ticked (all_ticked (begun period begin) before) since) (at (all_ticked (begun period begin) before) heard) ttl ≡ true }
    ensures skips_nothing { (period begin : ℕ) (before since : List Tick)
        → AreInTurn (all_ticked (begun period begin) before) since
        → (all_ticked (all_ticked (begun period begin) before) since).skipped ≡ (all_ticked (begun period begin) before).skipped }
{}

/// Who works has its grant: if the voter let the grant go the client does not work, whatever is
/// late, lost, repeated or out of order, and whenever the voter crashes and restarts from what it
/// saved.
///
/// The bound is b * (lease + stop) ≤ a * ttl. By the voter's clock, `ttl` is for how long nothing
/// of the session came when the voter lets the grant go. By the client's clock, `lease` is for how
/// long a heartbeat counts after it left, if it was acknowledged, and `stop` is how long the client
/// takes to stop after that. While any time passes, the voter's clock is at most b/a times as fast
/// as the client's.
pub fn who_works_has_its_grant()
    ensures { (a b ttl lease stop period voter client : ℕ) (events : List Event)
        → 1 ≤ b → AllByRecursion (IsRated a b) events → b * (lease + stop) ≤ a * ttl
        → is_working lease stop (after_all ttl (begins period voter client) events) ≡ true
        → (after_all ttl (begins period voter client) events).is_gone ≡ false }
{}

/// What the law asks for can be had: a client works, and later the voter lets its grant go.
pub fn a_client_works_and_is_let_go()
    ensures rates { AllByRecursion (IsRated 9 10) (works ++ is_let_go) }
    ensures bound { 10 * (80 + 10) ≤ 9 * 100 }
    ensures works { is_working 80 10 (after_all 100 (begins 25 100 100) works) ≡ true }
    ensures has { (after_all 100 (begins 25 100 100) works).is_gone ≡ false }
    ensures gone { (after_all 100 (begins 25 100 100) (works ++ is_let_go)).is_gone ≡ true }
    ensures stopped { is_working 80 10 (after_all 100 (begins 25 100 100) (works ++ is_let_go)) ≡ false }
{}
