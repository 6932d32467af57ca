//! What a mailroom is made of: nodes, lines and mailboxes.
ghost use Rattle.std.specs.Prelude.{◌≡◌, ℕ, ◌+◌, ◌≤◌, false, IfOk, length, nat_lt, slice_index_or};
ghost use Rattle.numbers.specs.Bounds.{max_clients, max_voters};
ghost use Rattle.mailroom.specs.Rooms.{AreNumbered};

use crate::line::Line;
use board::{Board, BoardRoot};
use node::{ClusterName, Node, Postbox};
use std::alloc::{AllocError, Global};
use std::sync::Mutex;

/// Creates a node for each voter, with the voter's seat from the root.
pub(crate) fn nodes_of<N: ClusterName>(
    alloc: Global,
    board: &Board,
    root: &mut BoardRoot,
    voters: u8,
) -> Result<Vec<Mutex<Node<N>>>, AllocError>
    requires board { board.now ≡ N.cluster.board }
    requires few_voters { voters ≤ max_voters }
    requires few_clients { N.cluster.board.clients ≤ max_clients }
    requires voters { voters ≡ N.cluster.board.voters }
    requires table { root.old.table ≡ board.now.table }
    requires there { (v : ℕ) → slice_index_or root.old.voters v false ≡ nat_lt v voters }
    requires seats { voters ≤ root.old.seats }
    ensures len { IfOk result (λ nodes. length nodes.items ≡ voters) }
    ensures seats { IfOk result (λ _. root.new.seats + voters ≡ root.old.seats) }
    ensures same { IfOk result (λ _. (root.new.clients ≡ root.old.clients) × (root.new.passes ≡ root.old.passes)) }
    ensures table { root.new.table ≡ root.old.table }
{
    let mut nodes = Vec::with_capacity(alloc, usize::from(voters))?;
    for voter in 0..voters {
        let seat = root.voter(board, voter);
        nodes.push(Mutex::new(Node::new(alloc, seat)))?;
    }
    Ok(nodes)
}

/// Creates a line for each voter, in order.
pub(crate) fn lines_of(alloc: Global, voters: u8) -> Result<Vec<Line>, AllocError>
    ensures len { IfOk result (λ lines. length lines.items ≡ voters) }
    ensures each { IfOk result (λ lines. AreNumbered lines.items) }
{
    let mut lines = Vec::with_capacity(alloc, usize::from(voters))?;
    for voter in 0..voters {
        lines.push(Line::new(voter))?;
    }
    Ok(lines)
}

/// Creates a mailbox for each client, in order.
pub(crate) fn mailboxes_of<N: ClusterName>(
    alloc: Global,
    clients: u8,
) -> Result<Vec<Postbox<N>>, AllocError>
    ensures len { IfOk result (λ mailboxes. length mailboxes.items ≡ clients) }
    ensures each { IfOk result (λ mailboxes. AreNumbered mailboxes.items) }
{
    let mut mailboxes = Vec::with_capacity(alloc, usize::from(clients))?;
    for client in 0..clients {
        mailboxes.push(Postbox::new(alloc, client))?;
    }
    Ok(mailboxes)
}
