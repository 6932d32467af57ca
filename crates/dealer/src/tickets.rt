//! The atomic word of an office's tickets: its rule, and the steps on it. Nothing else touches the
//! word.
ghost use Rattle.std.specs.Prelude.{◌≡◌, ◌+◌, ◌-◌, ◌<◌, ◌≤◌, [], ◌∷◌, ◌++◌, length};
ghost use Rattle.std.specs.List.{All};
ghost use Rattle.numbers.specs.Bounds.{max_tickets};
ghost use Rattle.dealer.specs.Tickets.{hand, join_hands, Ends};

use crate::cycle::Cycle;
use atomic_table::{Join, Play, Seat, Split, Table, TableRule};
use std::alloc::Global;
use std::collections::LinkedList;
use std::marker::{Brand, PhantomData};

/// What a seat at the word knows: the office's cycle, how many tickets it may still draw, and those
/// that it drew. Only proofs use this type: no value of it is ever made.
pub struct Hand {
    pub cycle: Cycle,
    pub rest: u64,
    pub drawn: LinkedList<u64>,
}

/// The cycle and the quota of an office.
#[derive(Drop)]
pub struct Sheet {
    /// The cycle of its tickets.
    pub cycle: Cycle,
    /// How many tickets may be drawn in all: at most 2^63.
    pub quota: u64,
}

/// The rule of the word.
pub struct Tickets;

impl TableRule<(), Hand, Sheet> for Tickets {
    ghost use Rattle.std.specs.Prelude.{[]};
    ghost use Rattle.dealer.specs.Tickets.{Dealt, hand};

    ghost holds = { Dealt };

    ghost first = { λ sheet. hand sheet.cycle sheet.quota [] };
}

/// The table with the word.
pub type TicketTable = Table<(), Hand, Sheet, Tickets, Global>;

/// A number that a call chooses for a step.
pub trait Amount {
    ghost use Rattle.std.specs.Prelude.{ℕ};

    ghost amount: { ℕ };
}

impl Amount for Brand {
    ghost amount = { 0 };
}

/// A draw from an office with this quota.
struct Draw<Q: Amount> {
    of: PhantomData<Q>,
}

impl<Q: Amount> Play<(), Hand> for Draw<Q> {
    ghost use Rattle.dealer.specs.Tickets.{Draws};

    ghost then = { Draws Q.amount };
}

/// A read of the word, which shows that a seat's rest is in range.
struct Look;

impl Play<(), Hand> for Look {
    ghost use Rattle.dealer.specs.Tickets.{Looks};

    ghost then = { Looks };
}

/// A part of what a seat may draw goes to a new seat.
struct Cut<Q: Amount> {
    of: PhantomData<Q>,
}

impl<Q: Amount> Split<Hand> for Cut<Q> {
    ghost use Rattle.std.specs.Prelude.{◌-◌, []};
    ghost use Rattle.dealer.specs.Tickets.{hand};

    ghost left = { λ v. hand v.cycle (v.rest - Q.amount) v.drawn };

    ghost right = { λ v. hand v.cycle Q.amount [] };
}

/// A seat joins another.
struct Merge;

impl Join<Hand> for Merge {
    ghost use Rattle.std.specs.Prelude.{[]};
    ghost use Rattle.dealer.specs.Tickets.{join_hands, empty_hand};

    ghost both = { join_hands };

    ghost spent = { empty_hand };
}

/// Draws the next ticket by one atomic addition to the word, and returns it.
pub(crate) fn take_ticket<Q: Amount>(table: &TicketTable, seat: &mut Seat<(), Hand>) -> u64
    requires quota { table.now.shared.key.quota ≡ Q.amount }
    requires table { seat.old.table_id ≡ table.now.shared.table_id }
    requires word { 0 < table.now.shared.table_id.words }
    requires rest { 0 < seat.old.me.0.rest }
    ensures drawn { seat.new.me ≡ (
      hand seat.old.me.0.cycle (seat.old.me.0.rest - 1)
          (seat.old.me.0.drawn ++ result ∷ []),
      seat.old.me.1,
    ) }
    ensures above { All (λ t. t < result) seat.old.me.0.drawn }
    ensures below { result < table.now.shared.key.quota }
    ensures next { length seat.old.me.0.drawn + seat.old.me.0.rest ≡ table.now.shared.key.quota →
        result ≡ length seat.old.me.0.drawn }
    ensures table { seat.new.table_id ≡ seat.old.table_id }
{
    table.shared.fetch_add::<Draw<Q>>(seat, 0, 1)
}

/// Splits off a new seat, which may draw `amount` of what this one might have drawn.
pub(crate) fn split_off<Q: Amount>(
    table: &TicketTable,
    seat: &mut Seat<(), Hand>,
    amount: u64,
) -> Seat<(), Hand>
    requires amount { amount ≡ Q.amount }
    requires table { seat.old.table_id ≡ table.now.shared.table_id }
    requires word { 0 < table.now.shared.table_id.words }
    requires rest { amount ≤ seat.old.me.0.rest }
    ensures kept { seat.new.me ≡ (
      hand seat.old.me.0.cycle (seat.old.me.0.rest - amount)
          seat.old.me.0.drawn,
      seat.old.me.1,
    ) }
    ensures given { result.me ≡ (hand seat.old.me.0.cycle amount [], []) }
    ensures table { seat.new.table_id ≡ seat.old.table_id }
    ensures given_table { result.table_id ≡ seat.old.table_id }
{
    table.shared.split_seat::<Cut<Q>>(seat)
}

/// Joins another seat to this one. The read afterwards shows that the sum of the rests is in range.
pub(crate) fn take_in(table: &TicketTable, seat: &mut Seat<(), Hand>, other: Seat<(), Hand>)
    requires table { seat.old.table_id ≡ table.now.shared.table_id }
    requires other_table { other.table_id ≡ table.now.shared.table_id }
    requires word { 0 < table.now.shared.table_id.words }
    requires no_slot { other.me.1 ≡ [] }
    ensures both { seat.new.me ≡ (join_hands seat.old.me.0 other.me.0, seat.old.me.1) }
    ensures fits { seat.old.me.0.rest + other.me.0.rest ≤ max_tickets }
    ensures table { seat.new.table_id ≡ seat.old.table_id }
{
    table.shared.join_seat::<Merge>(seat, other);
    table.shared.load::<Look>(seat, 0);
}

/// Ends the table, with a seat that knows what it drew and may draw.
pub(crate) fn end(table: TicketTable, seat: Seat<(), Hand>)
    requires table { seat.table_id ≡ table.shared.table_id }
    requires no_slots { table.shared.table_id.slots ≡ 0 }
    ensures { Ends table.shared.key seat.me.0 }
{
    table.close_with(seat).free();
}
