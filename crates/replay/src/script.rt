//! A script.
ghost use Rattle.std.specs.Prelude.{◌≡◌};
ghost use Rattle.replay.specs.Scripts.{IsScript};

use std::marker::Model;
use texts::Line;

/// A script: how large a world is, and the steps that happen in it, each on a line of this kind.
/// Contracts see a `Script` of the specs.
#[derive(Drop)]
pub struct Script<L: Line> {
    clients: u8,
    limit: u64,
    steps: Vec<L::Value>,
}

impl<L: Line> Model for Script<L> {
    ghost use Rattle.replay.specs.Scripts as scripts;

    ghost Value = { scripts.Script L.Value };

    ghost view = { λ s. record { clients = s.clients; limit = s.limit; steps = s.steps.items } };

    ghost invariant = { λ s.
        scripts.IsScript L.form (record { clients = s.clients; limit = s.limit; steps = s.steps.items }) };
}

impl<L: Line> Script<L> {
    /// Creates the script of these parts. Allocates no memory.
    pub(crate) fn of(clients: u8, limit: u64, steps: Vec<L::Value>) -> Script<L>
        requires { IsScript L.form (record { clients = clients; limit = limit; steps = steps.items }) }
        ensures { result ≡ record { clients = clients; limit = limit; steps = steps.items } }
    {
        Script {
            clients,
            limit,
            steps,
        }
    }

    /// Returns how many clients the world has: 1 to 64.
    pub fn clients(&self) -> u8
        ensures value { result ≡ self.now.clients }
        ensures script { IsScript L.form self.now }
    {
        self.clients
    }

    /// Returns the highest stamp, which is also the highest grant: 1 to 2^40.
    pub fn limit(&self) -> u64
        ensures value { result ≡ self.now.limit }
        ensures script { IsScript L.form self.now }
    {
        self.limit
    }

    /// Returns the steps, in order.
    pub fn steps(&self) -> &[L::Value]
        ensures value { result.now ≡ self.now.steps }
        ensures script { IsScript L.form self.now }
    {
        &self.steps
    }
}
