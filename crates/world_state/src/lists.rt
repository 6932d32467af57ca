//! Lists that grow within reserved memory.
ghost use Rattle.std.specs.Prelude.{◌≡◌, ◌+◌, ◌<◌, ◌≤◌, ◌++◌, ◌∷◌, [], length, map, vec_capacity, vec_len};
ghost use Rattle.message.specs.declared.message.Message.TheVariants as kinds;
ghost use Rattle.world_state.specs.Steps.{events};

use crate::step::Event;
use message::{Message, ToClient, ToVoter};
use requester::Seen;

/// Appends these messages to voters to the sent ones.
pub fn send_to_voters(sent: &mut Vec<Message>, messages: &[ToVoter])
    requires { vec_len sent.old + length messages.now ≤ vec_capacity sent.old }
    ensures { sent.new.items ≡ sent.old.items ++ map kinds.ToVoter messages.now }
{
    for message in messages {
        sent.push_reserved(Message::ToVoter(*message));
    }
}

/// Appends these messages to clients to the sent ones.
pub fn send_to_clients(sent: &mut Vec<Message>, messages: &[ToClient])
    requires { vec_len sent.old + length messages.now ≤ vec_capacity sent.old }
    ensures { sent.new.items ≡ sent.old.items ++ map kinds.ToClient messages.now }
{
    for message in messages {
        sent.push_reserved(Message::ToClient(*message));
    }
}

/// Draws the next ticket for this client.
pub fn draw(draws: &mut Vec<(u8, u64)>, client: u8)
    requires { vec_len draws.old < vec_capacity draws.old }
    ensures { draws.new.items ≡ draws.old.items ++ (client, length draws.old.items) ∷ [] }
{
    let ticket = draws.len() as u64;
    draws.push_reserved((client, ticket));
}

/// Appends the event, if this client entered or left.
pub fn note(visible: &mut Vec<Event>, client: u8, seen: Seen)
    requires { vec_len visible.old < vec_capacity visible.old }
    ensures { visible.new.items ≡ visible.old.items ++ events client seen }
{
    let entered = match seen {
        Seen::Nothing => return,
        Seen::Entered => true,
        Seen::Left => false,
    };
    visible.push_reserved(Event { client, entered });
}
