//! Laws: what holds of a voter's process of many locks.
ghost use Rattle.std.specs.Prelude.{◌≡◌, ℕ, List, Option, map};
ghost use Rattle.message.specs.declared.message.ClientBody.TheVariants as to_client;
ghost use Rattle.message.specs.declared.message.ToClient.{ToClient};
ghost use Rattle.sessions.specs.Rows.{IsOneOf, Row, Use, begin};
ghost use Rattle.session_rows.specs.Runs.{after_turns};
ghost use Rattle.voter.specs.declared.state.Grant.{Grant};
ghost use Rattle.voter_node.specs.Lives.{node_after, says};
ghost use Rattle.lock_node.specs.Example.{new_voter};
ghost use Rattle.lock_node.specs.Letters.{Letter, heard, letters_of};
ghost use Rattle.lock_node.specs.Locks.{Begins, Event, LockNode, all_happen, all_leave, life_at, turns_of};

use voter::voters_meet_the_contract;

/// Each LOCKED that ever leaves goes to a session from which this voter took a REQUEST for that lock, of that number
/// and stamp, and saved that. This holds whatever sessions say, and whenever the voter saves and crashes.
pub fn letters_reach_who_asked()
    ensures { (n : LockNode) (events : List Event) (l : Letter) (stamp grant : ℕ) → Begins n
        → IsOneOf l (all_leave n events) → l.message.body ≡ to_client.Locked stamp grant
        → (epoch : ℕ) × IsOneOf (record { session = l.session; epoch = epoch; stamp = stamp })
        (after_turns (begin (n.rows l.message.client)) (turns_of l.lock l.message.client events)).kept }
{
    voters_meet_the_contract();
}

/// The node of each lock is, at any time, that of a voter alone after the life that it has here.
pub fn locks_run_as_nodes()
    ensures { (n : LockNode) (events : List Event) (lock : ℕ)
        → (all_happen n events).locks lock ≡ node_after (n.locks lock) (life_at lock n events) }
{}

/// Each letter that leaves has a message that the node of its lock sends in this life: once what led to it was saved.
pub fn letters_are_given_out()
    ensures { (n : LockNode) (events : List Event) (l : Letter) → Begins n
        → IsOneOf l (all_leave n events) → IsOneOf l.message (says (n.locks l.lock) (life_at l.lock n events)) }
{}

/// The letters with what a vote says have the messages that somebody hears ([`hears`](crate::hears)), in order.
pub fn letters_have_what_is_heard()
    ensures { (rows : ℕ → Row) (lock : ℕ) (held : Option Grant) (messages : List ToClient)
        → map (λ (l : Letter). l.message) (letters_of rows lock held messages) ≡ heard rows held messages }
{}

/// A new voter begins as the laws ask.
pub fn new_voters_begin()
    ensures { (id limit : ℕ) → Begins (new_voter id limit) }
{}
