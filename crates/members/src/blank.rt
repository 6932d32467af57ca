//! A cluster before it has a name.
ghost use Rattle.std.specs.Prelude.{◌≡◌, ℕ, ◌+◌, ◌*◌, ◌≤◌, ◌++◌, [], false, IfOk, IfSome, length, map, nat_lt, option_map, slice_index_or};
ghost use Rattle.std.specs.List.{range_with_len};
ghost use Rattle.numbers.specs.Bounds.{max_clients, max_tickets};
ghost use Rattle.board.specs.Roots.{IsNewBoard};
ghost use Rattle.dealer.specs.Plans.{coteries_of};
ghost use Rattle.clerks.specs.Clerks.{fresh_clerks, office_names, plan_quorums};
ghost use Rattle.members.specs.Clusters.{ClusterState, IsBlank, IsCluster, names_in};
ghost use Rattle.members.specs.Members.{AreIdle, fresh_member};

use crate::cluster::{Cluster, Left};
use crate::member::Member;
use board::{Board, BoardRoot};
use certificate::Plan;
use clerks::{Clerks, Offices, open_offices};
use dealer::Plans;
use mailroom::Mailroom;
use node::ClusterName;
use numbers::MAX_TICKETS;
use quorum_set::Bridge;
use std::alloc::{AllocError, Global};
use std::marker::{Model, PhantomData};
use std::sync::Mutex;

/// A cluster that was created and has no name yet. Contracts see which cluster it is.
#[derive(Drop)]
pub struct Blank {
    board: Board,
    root: BoardRoot,
    offices: Offices,
    clerks: Clerks,
    voters: u8,
    clients: u8,
    quota: u64,
}

impl Model for Blank {
    ghost use Rattle.std.specs.Prelude.{option_map};
    ghost use Rattle.members.specs.Clusters.{ClusterState, IsBlank};

    ghost Value = { ClusterState };

    ghost view = { λ b. record {
      board = b.board;
      office = b.offices.first.name;
      second = option_map (λ o. o.name) b.offices.second;
      quota = b.quota;
    } };

    ghost invariant = { λ b. IsBlank
        (record {
          board = b.board;
          office = b.offices.first.name;
          second = option_map (λ o. o.name) b.offices.second;
          quota = b.quota;
        })
        b.offices b.root b.clerks b.voters b.clients };
}

/// Creates a member for each client, with the client's seat from the root and with `quota` of each
/// clerk's tickets.
fn members_of<N: ClusterName>(
    alloc: Global,
    board: &Board,
    root: &mut BoardRoot,
    offices: &Offices,
    clerks: &mut Clerks,
    clients: u8,
    quota: u64,
) -> Result<Vec<Member<N>>, AllocError>
    requires board { board.now ≡ N.cluster.board }
    requires offices { office_names offices.now ≡ names_in N.cluster }
    requires quota { quota ≡ N.cluster.quota }
    requires clients { (clients ≡ N.cluster.board.clients) × (clients ≤ max_clients) }
    requires table { root.old.table ≡ board.now.table }
    requires there { (c : ℕ) → slice_index_or root.old.clients c false ≡ nat_lt c clients }
    requires seats { root.old.seats ≡ clients }
    requires clerks { clerks.old ≡ fresh_clerks (names_in N.cluster) (clients * quota) }
    ensures members { IfOk result (λ members. members.items ≡ map (fresh_member N.cluster) (range_with_len 0 clients)) }
    ensures seats { IfOk result (λ _. (root.new.seats ≡ 0) × (root.new.passes ≡ root.old.passes)) }
    ensures clerks { IfOk result (λ _. clerks.new ≡ fresh_clerks (names_in N.cluster) 0) }
    ensures table { root.new.table ≡ root.old.table }
{
    let mut members = Vec::with_capacity(alloc, usize::from(clients))?;
    for client in 0..clients {
        let seat = root.client(board, client);
        let part = clerks.split(offices, quota);
        members.push(Member::new(seat, part))?;
    }
    Ok(members)
}

/// Creates the mailroom and the members of a cluster. They get all seats of the root and all tickets of the
/// clerks.
fn parts_of<N: ClusterName>(
    alloc: Global,
    board: Board,
    root: &mut BoardRoot,
    offices: &Offices,
    clerks: &mut Clerks,
    voters: u8,
    clients: u8,
    quota: u64,
) -> Result<(Mailroom<N>, Vec<Member<N>>), AllocError>
    requires board { board ≡ N.cluster.board }
    requires quota { quota ≡ N.cluster.quota }
    requires blank { IsBlank N.cluster offices.now root.old clerks.old voters clients }
    ensures members { IfOk result (λ parts. parts.1.items ≡ map (fresh_member N.cluster) (range_with_len 0 clients)) }
    ensures seats { IfOk result (λ _. (root.new.seats ≡ 0) × (root.new.passes ≡ [])) }
    ensures clerks { IfOk result (λ _. clerks.new ≡ fresh_clerks (names_in N.cluster) 0) }
    ensures table { root.new.table ≡ root.old.table }
{
    let mailroom = Mailroom::new(alloc, board, root, voters, clients)?;
    let members = members_of(
        alloc,
        mailroom.board(),
        root,
        offices,
        clerks,
        clients,
        quota,
    )?;
    Ok((mailroom, members))
}

/// Creates the board of one plan's coterie, or of two plans' coteries, and its root.
fn board_of(
    alloc: Global,
    first: &Plan,
    second: &Option<(Plan, Bridge)>,
    clients: u8,
) -> Result<(Board, BoardRoot), AllocError>
    requires some_client { 1 ≤ clients }
    requires few_clients { clients ≤ max_clients }
    requires bridge { IfSome second.now (λ s. s.1 ≡ coteries_of first.now s.0) }
    ensures { IfOk result (IsNewBoard first.now.system.voters
        (first.now.system.quorums ++ plan_quorums (option_map (λ s. s.0) second.now))
        (length first.now.system.quorums) clients max_tickets) }
{
    match second {
        Some((_, bridge)) => Board::bridged(alloc, bridge, clients, MAX_TICKETS),
        None => Board::new(alloc, first.coterie(), clients, MAX_TICKETS),
    }
}

/// Returns the second plan without its bridge, if there is one.
fn plan_of(second: Option<(Plan, Bridge)>) -> Option<Plan>
    ensures { result ≡ option_map (λ s. s.0) second }
{
    let (plan, _) = second?;
    Some(plan)
}

impl Blank {
    /// Creates a cluster of the voters of one or two plans and of 1 to 64 clients. The first plan is
    /// in use, and each member may exchange it for the second. Each client may draw `quota` tickets
    /// of each plan; all clients together may draw at most 2^63. Consumes the plans. Fails only if
    /// it runs out of memory.
    pub fn new(alloc: Global, plans: Plans, clients: u8, quota: u64) -> Result<Blank, AllocError>
        requires some_client { 1 ≤ clients }
        requires few_clients { clients ≤ max_clients }
        requires quota { clients * quota ≤ max_tickets }
        ensures first { IfOk result (λ blank. blank.office.cycle ≡ plans.first) }
        ensures second { IfOk result (λ blank. option_map (λ o. o.cycle) blank.second ≡ plans.second) }
        ensures clients { IfOk result (λ blank. blank.board.clients ≡ clients) }
        ensures quota { IfOk result (λ blank. blank.quota ≡ quota) }
        ensures cluster { IfOk result IsCluster }
    {
        let (first, second) = plans.into_parts();
        let voters = first.coterie().voters() as u8;
        let (board, root) = board_of(alloc, &first, &second, clients)?;
        let (offices, clerks) = open_offices(
            alloc,
            first,
            plan_of(second),
            u64::from(clients) * quota,
        )?;
        Ok(Blank {
            board,
            root,
            offices,
            clerks,
            voters,
            clients,
            quota,
        })
    }

    /// Opens the cluster under a name. Returns the running cluster, and a member for each client,
    /// in order. Each member is idle, with the quota of the blank and with no receipts, votes or
    /// pass numbers. It uses the first plan. Fails only if it runs out of memory.
    pub fn open<N: ClusterName>(
        self,
        alloc: Global,
    ) -> Result<(Cluster<N>, Vec<Member<N>>), AllocError>
        requires { self ≡ N.cluster }
        ensures members { IfOk result (λ opened.
            opened.1.items ≡ map (fresh_member N.cluster) (range_with_len 0 N.cluster.board.clients)) }
        ensures idle { IfOk result (λ opened. AreIdle opened.1.items) }
    {
        let Blank {
            board,
            mut root,
            offices,
            mut clerks,
            voters,
            clients,
            quota,
        } = self;
        let (mailroom, members) = parts_of(
            alloc,
            board,
            &mut root,
            &offices,
            &mut clerks,
            voters,
            clients,
            quota,
        )?;
        let left = Left {
            root,
            clerks,
            of: PhantomData,
        };
        let cluster = Cluster {
            mailroom,
            offices,
            left: Mutex::new(left),
        };
        Ok((cluster, members))
    }
}
