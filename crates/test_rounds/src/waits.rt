//! How long a client waits, in fair rounds.
ghost use Rattle.std.specs.Prelude.{◌≤◌};

use show_waiting::{bound, live_bound};

/// How many schedules there are for each number of clients.
pub const SCHEDULES: u64 = 150;

/// The wait of a request.
#[derive(Clone, Copy, Default)]
pub struct Wait {
    /// The request's stamp, 0 if the client does not ask.
    pub stamp: u64,
    /// How many whole rounds have passed since the client asked.
    pub rounds: u64,
    /// How many withdrawals there were in these rounds.
    give_ups: u64,
    /// How many REQUESTs came late in these rounds.
    late: u64,
}

impl Wait {
    /// Returns the wait of a request under this stamp, in the round in which it began.
    pub fn of(stamp: u64) -> Wait {
        Wait {
            stamp,
            ..Wait::default()
        }
    }

    /// Counts a whole round, with its withdrawals and late REQUESTs. In the first one no REQUEST is
    /// late.
    pub fn pass(&mut self, give_ups: u64, late: u64) {
        if self.rounds > 0 {
            self.late = self.late.saturating_add(late);
        }
        self.rounds = self.rounds.saturating_add(1);
        self.give_ups = self.give_ups.saturating_add(give_ups);
    }

    /// Returns whether the client has to be inside by now: whether as many rounds have passed as the
    /// proved bound says, for all clients and those that are live. Each REQUEST that came late adds a block.
    pub fn is_over(&self, clients: u8, live: u8, is_struck: bool) -> bool
        requires few { clients ≤ 64 }
    {
        let clients = u64::from(clients);
        let give_ups = self.give_ups.min(1_000_000);
        let late = self.late.saturating_mul(clients + 9);
        let most = if is_struck {
            live_bound(clients, u64::from(live).min(clients), give_ups)
        } else {
            bound(clients, give_ups)
        };
        self.rounds >= most.saturating_add(late)
    }
}
