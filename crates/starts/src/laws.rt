//! Laws: what holds of the processes of one place, whatever happens to them and to the voters that
//! keep it.
ghost use Rattle.std.specs.Prelude.{◌≡◌, ◌≢◌, ◌≤◌, ◌<◌, ◌⊎◌, ◌++◌, ◌∷◌, [], ℕ, List, Contains, map, true, false};
ghost use Rattle.starts.specs.declared.peer.Peer.{Peer};
ghost use Rattle.starts.specs.Example.{blocks, ceilings, first_serves, second_serves, who};
ghost use Rattle.starts.specs.Peers.{is_later};
ghost use Rattle.starts.specs.Starts.{has_voter};
ghost use Rattle.starts.specs.Worlds.{AreProcesses, Event, Given, IsCounted, IsRefused, IsTakenBy, SaysItKeeps, world_after};

/// A process gives above each earlier one, if some voter says so to both: it keeps the ceiling of
/// the earlier one, and said to the later one which ceiling it knew, before that served. This holds
/// whatever copies of the state they start from, however often each raises its ceiling, and while
/// both run.
pub fn later_processes_give_above()
    // The later one's grants are above this ceiling of the earlier one.
    ensures floor { (who : ℕ → Peer) (ceilings blocks : ℕ → ℕ) (events : List Event) (v p q ceiling : ℕ) → AreProcesses who
        → is_later (who p) (who q) ≡ true
        → SaysItKeeps (world_after who ceilings blocks events) v p ceiling
        → IsCounted (world_after who ceilings blocks events) v q
        → ((world_after who ceilings blocks events).starts q).serves ≡ true
        → ceiling ≤ ((world_after who ceilings blocks events).starts q).floor }
    ensures above { (who : ℕ → Peer) (ceilings blocks : ℕ → ℕ) (events : List Event) (v : ℕ) (g h : Given) → AreProcesses who
        → Contains (world_after who ceilings blocks events).given g → Contains (world_after who ceilings blocks events).given h
        → is_later (who g.process) (who h.process) ≡ true
        → SaysItKeeps (world_after who ceilings blocks events) v g.process g.ceiling
        → IsCounted (world_after who ceilings blocks events) v h.process
        → g.number < h.number }
{}

/// No number of a grant is given by two processes, if some voter keeps the ceilings under which
/// both give, and said to both which ceiling it knew, before they served.
pub fn no_grant_is_given_by_two_processes()
    ensures { (who : ℕ → Peer) (ceilings blocks : ℕ → ℕ) (events : List Event) (v : ℕ) (g h : Given) → AreProcesses who
        → Contains (world_after who ceilings blocks events).given g → Contains (world_after who ceilings blocks events).given h
        → g.process ≢ h.process
        → SaysItKeeps (world_after who ceilings blocks events) v g.process g.ceiling
        → SaysItKeeps (world_after who ceilings blocks events) v h.process h.ceiling
        → IsCounted (world_after who ceilings blocks events) v g.process
        → IsCounted (world_after who ceilings blocks events) v h.process
        → g.number ≢ h.number }
{}

/// A voter that took a process refuses each other one that did not start later, from then on, also
/// after a crash. So of two processes of which neither is later (states made again equally often, that
/// started equally often) it never takes both.
pub fn older_processes_are_refused()
    ensures refused { (who : ℕ → Peer) (ceilings blocks : ℕ → ℕ) (events : List Event) (v p q : ℕ) → AreProcesses who
        → IsTakenBy (world_after who ceilings blocks events) v p → p ≢ q → is_later (who p) (who q) ≡ false
        → IsRefused ((world_after who ceilings blocks events).peers v) (who q) }
    ensures saved { (who : ℕ → Peer) (ceilings blocks : ℕ → ℕ) (events : List Event) (v p q : ℕ) → AreProcesses who
        → IsTakenBy (world_after who ceilings blocks events) v p → p ≢ q → is_later (who p) (who q) ≡ false
        → IsRefused ((world_after who ceilings blocks events).saved v) (who q) }
    ensures once { (who : ℕ → Peer) (ceilings blocks : ℕ → ℕ) (events : List Event) (v p q : ℕ) → AreProcesses who
        → IsTakenBy (world_after who ceilings blocks events) v p → IsTakenBy (world_after who ceilings blocks events) v q
        → p ≢ q → is_later (who p) (who q) ≡ false → is_later (who q) (who p) ≡ true }
{}

/// The sets of a process have the voters of which the laws speak: those that keep the ceiling that it
/// asked for last said so, and, until it serves, those that answered count as voters whose ceiling it
/// knows. So a host that serves by these sets meets what the laws ask for.
pub fn sets_have_who_said_so()
    ensures kept { (who : ℕ → Peer) (ceilings blocks : ℕ → ℕ) (events : List Event) (v p : ℕ)
        → has_voter ((world_after who ceilings blocks events).starts p).kept v ≡ true
        → SaysItKeeps (world_after who ceilings blocks events) v p ((world_after who ceilings blocks events).starts p).asked }
    ensures answered { (who : ℕ → Peer) (ceilings blocks : ℕ → ℕ) (events : List Event) (v p : ℕ)
        → ((world_after who ceilings blocks events).starts p).serves ≡ false
        → has_voter ((world_after who ceilings blocks events).starts p).answered v ≡ true
        → IsCounted (world_after who ceilings blocks events) v p }
{}

/// What the laws ask for can be had: a process serves, and then another one, from an older copy of
/// its state. The voter 1 keeps the ceilings of both, and both hear of it which ceiling it knew.
pub fn an_older_copy_serves_above()
    ensures processes { AreProcesses who }
    ensures later { is_later (who 0) (who 1) ≡ true }
    ensures first { (world_after who ceilings blocks first_serves).given ≡ record { process = 0; number = 100; ceiling = 100 } ∷ [] }
    ensures second { (world_after who ceilings blocks (first_serves ++ second_serves)).given
        ≡ record { process = 1; number = 101; ceiling = 200 } ∷ record { process = 0; number = 100; ceiling = 100 } ∷ [] }
    ensures keeps_first { SaysItKeeps (world_after who ceilings blocks (first_serves ++ second_serves)) 1 0 100 }
    ensures keeps_second { SaysItKeeps (world_after who ceilings blocks (first_serves ++ second_serves)) 1 1 200 }
    ensures counts_first { IsCounted (world_after who ceilings blocks (first_serves ++ second_serves)) 1 0 }
    ensures counts_second { IsCounted (world_after who ceilings blocks (first_serves ++ second_serves)) 1 1 }
{}
