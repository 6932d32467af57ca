//! Coteries whose voters have names and capacities.
ghost use Rattle.std.specs.Prelude.{◌≡◌, ◌<◌, None, Some, IfOk, map, slice_get, string_bytes, vec_len};
ghost use Rattle.quorum_set.specs.Capacities.{AreCapacities, unit_capacities};
ghost use Rattle.coterie_file.specs.Named.{IsNamed, with_names, with_capacities, numbered_names};
ghost use Rattle.coterie_file.specs.Names.{AreNames};

use crate::capacities::{capacities_fault, kept, units};
use crate::fault::FileFault;
use crate::names::names_fault;
use arrayvec::ArrayVec;
use numbers::MAX_VOTERS;
use quorum_set::Coterie;
use std::alloc::{AllocError, Global};
use std::marker::Model;

/// A coterie with a name and a capacity for each voter. A name has 1 to 64 bytes out of `A-Z`,
/// `a-z`, `0-9`, `_`, `-`, `.` and `:`. No two voters have the same name. A capacity is 1 to 1000.
#[derive(Drop)]
pub struct Named {
    coterie: Coterie,
    names: Vec<String>,
    capacities: ArrayVec<u64, MAX_VOTERS>,
}

impl Model for Named {
    ghost use Rattle.std.specs.Prelude.{map, string_bytes};
    ghost use Rattle.coterie_file.specs.Named.{NamedSystem, IsNamed};

    ghost Value = { NamedSystem };

    ghost view = { λ n.
        record { system = n.coterie; names = map string_bytes n.names.items; capacities = n.capacities.items } };

    ghost invariant = { λ n. IsNamed
        (record { system = n.coterie; names = map string_bytes n.names.items; capacities = n.capacities.items }) };
}

impl Named {
    /// Returns the coterie with these names, one for each voter. Each voter has capacity 1. Fails
    /// with `BadName` for the first text that is not a name; then with `RepeatedName` for the first
    /// name that an earlier voter has. Allocates nothing. A fault drops the coterie and the names.
    pub fn of(coterie: Coterie, names: Vec<String>) -> Result<Named, FileFault>
        requires one_each { vec_len names ≡ coterie.voters }
        ensures exact { result ≡ with_names coterie (map string_bytes names.items) }
    {
        match names_fault(&names) {
            Some(fault) => Err(fault),
            None => Ok(Named::with_units(coterie, names)),
        }
    }

    /// Returns the coterie with names and capacities that are known to have no fault.
    pub(crate) fn with(
        coterie: Coterie,
        names: Vec<String>,
        capacities: ArrayVec<u64, MAX_VOTERS>,
    ) -> Named
        requires one_each { vec_len names ≡ coterie.voters }
        requires names { AreNames (map string_bytes names.items) }
        requires capacities { AreCapacities capacities.items coterie.voters }
        ensures { result ≡
            record { system = coterie; names = map string_bytes names.items; capacities = capacities.items } }
    {
        prove!(names.len() == coterie.voters());
        Named {
            coterie,
            names,
            capacities,
        }
    }

    /// Returns the coterie with names that are known to have no fault, and capacity 1 for each voter.
    fn with_units(coterie: Coterie, names: Vec<String>) -> Named
        requires one_each { vec_len names ≡ coterie.voters }
        requires names { AreNames (map string_bytes names.items) }
        ensures { result ≡ record
            { system = coterie; names = map string_bytes names.items; capacities = unit_capacities coterie.voters } }
    {
        let capacities = units(coterie.voters());
        Named::with(coterie, names, capacities)
    }

    /// Returns the coterie with the names `v0`, `v1` and so on, unless it runs out of memory. Each
    /// voter has capacity 1.
    pub fn numbered(alloc: Global, coterie: Coterie) -> Result<Named, AllocError>
        ensures exact { IfOk result (λ n. n ≡ record {
          system = coterie;
          names = numbered_names coterie.voters;
          capacities = unit_capacities coterie.voters;
        }) }
    {
        let mut names = Vec::with_capacity(alloc, coterie.voters())?;
        for i in 0..coterie.voters() {
            names.push(format!(in alloc; "v{i}")?)?;
        }
        Ok(Named::with_units(coterie, names))
    }

    /// Returns the same coterie with these capacities, one for each voter. Fails with
    /// `CapacityCount` if there are more or fewer numbers than voters; then with `BadCapacity` for
    /// the first number that is not in 1 to 1000. Allocates nothing. Drops the numbers, and a fault
    /// also drops the coterie.
    pub fn with_capacities(self, capacities: Vec<u64>) -> Result<Named, FileFault>
        ensures exact { result ≡ with_capacities self capacities.items }
    {
        if let Some(fault) = capacities_fault(self.coterie.voters(), &capacities) {
            return Err(fault);
        }
        let capacities = kept(&capacities);
        Ok(Named { capacities, ..self })
    }

    /// Returns the coterie.
    pub fn coterie(&self) -> &Coterie
        ensures value { result.now ≡ self.now.system }
        ensures named { IsNamed self.now }
    {
        &self.coterie
    }

    /// Returns the name of the voter with this number, which has to be below the number of voters.
    pub fn name(&self, voter: usize) -> &str
        requires { voter < self.now.system.voters }
        ensures value { slice_get self.now.names voter ≡ Some result.now }
        ensures named { IsNamed self.now }
    {
        self.names[voter].as_str()
    }

    /// Returns the capacities of the voters, by number.
    pub fn capacities(&self) -> &[u64]
        ensures value { result.now ≡ self.now.capacities }
        ensures named { IsNamed self.now }
    {
        self.capacities.as_slice()
    }

    /// Returns the names of the voters, by number.
    pub(crate) fn names(&self) -> &[String]
        ensures value { map string_bytes result.now ≡ self.now.names }
        ensures named { IsNamed self.now }
    {
        self.names.as_slice()
    }
}
