//! The state of the simplex method between two pivots.
ghost use Rattle.std.specs.Prelude.{◌≡◌, ◌+◌, ◌<◌, ◌≤◌, ◌^◌, length, vec_len, IfOk, IfSome, OnOk, OnErr};
ghost use Rattle.std.specs.List.{All};
ghost use Rattle.numbers.specs.Bounds.{max_voters, max_quorums};
ghost use Rattle.quorum_set.specs.Capacities.{AreCapacities};

use crate::tableau::Tableau;
use fraction::FracFault;
use quorum_set::Coterie;
use std::alloc::{AllocError, Global};
use std::cmp::Ordering;

/// The row that gives way to a column.
#[derive(Clone, Copy)]
pub(crate) struct Exit {
    /// The row's number.
    pub(crate) row: usize,
    /// The column that the row is solved for.
    basis: usize,
    /// The row's entry in the column.
    entry: i128,
    /// The row's right side.
    pub(crate) right: i128,
}

/// A tableau, with what its columns are sums of. Columns are numbered: first the quorums', then the
/// slacks'.
#[derive(Drop)]
pub(crate) struct Method<'a> {
    coterie: &'a Coterie,
    /// For each column, the columns of the tableau that it is the sum of.
    columns: Vec<Vec<usize>>,
    tableau: Tableau,
    /// The column that each voter's row is solved for: a quorum's number, or after the quorums a
    /// voter's slack.
    basis: Vec<usize>,
    /// How many pivots were made.
    made: u32,
    ghost voters: { tableau.voters ≡ coterie.now.voters },
    ghost listed: { vec_len columns ≡ length coterie.now.quorums + coterie.now.voters },
    ghost in_range: { All (λ list. All (λ j. j < coterie.now.voters + 3) list.items) columns.items },
    ghost based: { vec_len basis ≡ coterie.now.voters },
}

/// Returns the product, or `Overflow` if it does not fit.
pub(crate) fn product(a: i128, b: i128) -> Result<i128, FracFault> {
    match a.checked_mul(b) {
        Some(product) => Ok(product),
        None => Err(FracFault::Overflow),
    }
}

/// Returns whether a row gives way before another: the one with the smaller ratio of its right side
/// to its entry, and on ties the one with the smaller basis column. Entries are positive.
fn gives_way(exit: &Exit, best: &Option<Exit>) -> Result<bool, FracFault> {
    let Some(best) = best else {
        return Ok(true);
    };
    let own = product(exit.right, best.entry)?;
    Ok(match own.cmp(&product(best.right, exit.entry)?) {
        Ordering::Less => true,
        Ordering::Equal => exit.basis < best.basis,
        Ordering::Greater => false,
    })
}

/// Returns the columns of the members' slacks and of the unit.
fn summands(alloc: Global, members: &[u8], voters: usize) -> Result<Vec<usize>, AllocError>
    requires members { All (λ i. i < voters) members.now }
    requires voters { voters ≤ max_voters }
    ensures { IfOk result (λ v. All (λ j. j < voters + 3) v.items) }
{
    let mut columns = Vec::with_capacity(alloc, members.len() + 1)?;
    columns.push(voters + 1)?;
    for voter in members {
        columns.push(usize::from(*voter))?;
    }
    Ok(columns)
}

/// Returns the summands of each quorum's column.
fn quorum_summands(alloc: Global, coterie: &Coterie) -> Result<Vec<Vec<usize>>, AllocError>
    ensures count { IfOk result (λ v. vec_len v ≡ length coterie.now.quorums) }
    ensures in_range { IfOk result (λ v. All (λ list. All (λ j. j < coterie.now.voters + 3) list.items) v.items) }
{
    let mut columns = Vec::with_capacity(alloc, coterie.count() + coterie.voters())?;
    for quorum in 0..coterie.count() {
        let members = coterie.quorum(quorum).members();
        columns.push(summands(alloc, members.as_slice(), coterie.voters())?)?;
    }
    Ok(columns)
}

/// Returns the one summand of a slack's column.
fn only(alloc: Global, voter: usize, voters: usize) -> Result<Vec<usize>, AllocError>
    requires { voter < voters }
    ensures { IfOk result (λ v. All (λ j. j < voters + 3) v.items) }
{
    let mut columns = Vec::with_capacity(alloc, 1)?;
    columns.push(voter)?;
    Ok(columns)
}

/// Returns the summands of all columns.
fn all_summands(alloc: Global, coterie: &Coterie) -> Result<Vec<Vec<usize>>, AllocError>
    ensures count { IfOk result (λ v. vec_len v ≡ length coterie.now.quorums + coterie.now.voters) }
    ensures in_range { IfOk result (λ v. All (λ list. All (λ j. j < coterie.now.voters + 3) list.items) v.items) }
{
    let mut columns = quorum_summands(alloc, coterie)?;
    for voter in 0..coterie.voters() {
        columns.push(only(alloc, voter, coterie.voters())?)?;
    }
    Ok(columns)
}

/// Returns the numbers of the slacks' columns.
fn slacks(alloc: Global, quorums: usize, voters: usize) -> Result<Vec<usize>, AllocError>
    requires voters { voters ≤ max_voters }
    requires quorums { quorums ≤ max_quorums }
    ensures { IfOk result (λ v. vec_len v ≡ voters) }
{
    let mut columns = Vec::with_capacity(alloc, voters)?;
    for voter in 0..voters {
        columns.push(quorums + voter)?;
    }
    Ok(columns)
}

impl<'a> Method<'a> {
    /// Returns the method before the first pivot.
    pub(crate) fn of(
        alloc: Global,
        coterie: &'a Coterie,
        capacities: &[u64],
    ) -> Result<Method<'a>, AllocError>
        requires { AreCapacities capacities.now coterie.now.voters }
        ensures coterie { IfOk result (λ m. m.coterie.now ≡ coterie.now) }
        ensures none { IfOk result (λ m. m.made ≡ 0) }
    {
        let columns = all_summands(alloc, coterie)?;
        let basis = slacks(alloc, coterie.count(), coterie.voters())?;
        let tableau = Tableau::of(alloc, capacities)?;
        Ok(Method {
            coterie,
            columns,
            tableau,
            basis,
            made: 0,
        })
    }

    /// Returns the tableau.
    pub(crate) fn tableau(&self) -> &Tableau
        ensures value { result.now ≡ self.now.tableau }
        ensures voters { result.now.voters ≡ self.now.coterie.now.voters }
    {
        &self.tableau
    }

    /// Returns how many pivots were made.
    pub(crate) fn made(&self) -> u32
        ensures { result ≡ self.now.made }
    {
        self.made
    }

    /// Returns the number of columns.
    pub(crate) fn columns(&self) -> usize
        ensures { result ≡ length self.now.coterie.now.quorums + self.now.coterie.now.voters }
    {
        self.coterie.count() + self.coterie.voters()
    }

    /// Returns the column that a voter's row is solved for.
    pub(crate) fn basis(&self, row: usize) -> usize
        requires { row < self.now.coterie.now.voters }
    {
        self.basis[row]
    }

    /// Returns the price of a column: by how much a unit of it improves the solution.
    pub(crate) fn price(&self, column: usize) -> Result<i128, FracFault>
        requires { column < length self.now.coterie.now.quorums + self.now.coterie.now.voters }
    {
        self.tableau.price(self.columns[column].as_slice())
    }

    /// Makes a column the one that enters.
    pub(crate) fn enter(&mut self, column: usize) -> Result<(), FracFault>
        requires { column < length self.old.coterie.now.quorums + self.old.coterie.now.voters }
        ensures coterie { self.new.coterie ≡ self.old.coterie }
        ensures made { self.new.made ≡ self.old.made }
    {
        self.tableau.enter(self.columns[column].as_slice())
    }

    /// Returns the row that limits the column that enters, if there is one. Of the rows with a
    /// positive entry it is the one with the smallest ratio of the right side to the entry. On ties
    /// it is the one that is solved for the lowest column.
    pub(crate) fn leaving(&self) -> Result<Option<Exit>, FracFault>
        ensures { IfOk result (λ o. IfSome o (λ e. e.row < self.now.coterie.now.voters)) }
    {
        let mut best: Option<Exit> = None;
        for row in 0..self.tableau.voters() {
            let entry = self.tableau.entering(row);
            if entry > 0 {
                let exit = Exit {
                    row,
                    basis: self.basis[row],
                    entry,
                    right: self.tableau.right_side(row),
                };
                if gives_way(&exit, &best)? {
                    best = Some(exit);
                }
            }
        }
        Ok(best)
    }

    /// Solves a row for the column that enters, whose number is `column`.
    pub(crate) fn pivot(&mut self, row: usize, column: usize) -> Result<(), FracFault>
        requires row { row < self.old.coterie.now.voters }
        requires made { self.old.made + 1 < 2 ^ 32 }
        ensures coterie { self.new.coterie ≡ self.old.coterie }
        ensures counted { OnOk result (self.new.made ≡ self.old.made + 1) }
        ensures same { OnErr result (self.new.made ≡ self.old.made) }
    {
        self.tableau.pivot(row)?;
        self.basis[row] = column;
        self.made += 1;
        Ok(())
    }
}
