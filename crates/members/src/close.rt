//! The end of a cluster, and its record.
ghost use Rattle.std.specs.Prelude.{◌≡◌, ℕ, ◌+◌, ◌-◌, ◌*◌, ◌^◌, ◌<◌, ◌≤◌, ◌++◌, IfOk, IfErr, IfNone, IfSome, IsPermutation, length, map, min};
ghost use Rattle.std.specs.List.{All, sum_by};
ghost use Rattle.std.specs.List.Sorted.{IsNonDecreasingBy};
ghost use Rattle.numbers.specs.Sums.{AreAllBelow};
ghost use Rattle.quorum_set.specs.declared.bridge.Side.{Side};
ghost use Rattle.quorum_set.specs.declared.bridge.Side.TheVariants.{First, Second};
ghost use Rattle.dealer.specs.Offices.{tickets_of};
ghost use Rattle.clerks.specs.Clerks.{HasShare, joined_each, names_of, office_names, receipts_of};
ghost use Rattle.members.specs.Clusters.{names_in};
ghost use Rattle.members.specs.Closes.{RefusesClose};
ghost use Rattle.members.specs.declared.close.CloseFault.{CloseFault};
ghost use Rattle.members.specs.Records.{IsDraw, IsLoss, IsRecordOf, all_draws, all_passes, all_receipts, draws_of, idle_count, passes_of};

use crate::cluster::{Cluster, Left};
use crate::member::Member;
use board::{Board, BoardFault, BoardRoot, Total};
use clerks::{Clerks, Offices};
use node::{ClusterName, Node};
use quorum_set::Side;
use requester::Phase;
use run_outcome::{ClusterFault, Draw, Pass, RunRecord};
use std::alloc::{AllocError, Global};
use std::fmt;
use std::sync::Mutex;

/// The reason why a cluster was not closed.
#[derive(Drop)]
pub enum CloseFault<N: ClusterName> {
    /// Some of its members are missing or not idle. Contains the cluster and the members that were
    /// handed in.
    Unready {
        /// The cluster, as it was.
        cluster: Cluster<N>,
        /// The members, as they were handed in.
        members: Vec<Member<N>>,
        /// How many are missing or not idle, at least 1.
        missing: u64,
    },
    /// The vote of a voter is out, or memory ran out. Cluster and members are lost.
    Lost(ClusterFault),
}

impl<N: ClusterName> fmt::Display for CloseFault<N> {
    fn fmt<W: fmt::Write>(&self, f: &mut fmt::Formatter<W>) -> fmt::Result {
        match self {
            CloseFault::Unready { missing, .. } => write!(f, "K3 MembersOut {missing}"),
            CloseFault::Lost(fault) => write!(f, "{fault}"),
        }
    }
}

/// Returns how many members are idle.
fn count_idle<N: ClusterName>(members: &[Member<N>]) -> u64
    ensures value { result ≡ idle_count members.now }
    ensures within { result ≤ length members.now }
{
    let mut idle: u64 = 0;
    for member in members {
        if member.phase() == Phase::Idle {
            idle += 1;
        }
    }
    idle
}

/// Returns how many of a cluster's members are missing among these or not idle, or `None` if all
/// are back and idle. It only reads, so a cluster that can't be closed yet stays as it was.
fn missing<N: ClusterName>(cluster: &Cluster<N>, members: &[Member<N>]) -> Option<u64>
    ensures some { IfSome result (λ missing.
        (0 < missing) × (idle_count members.now + missing ≡ N.cluster.board.clients)) }
    ensures none { IfNone result (N.cluster.board.clients ≤ idle_count members.now) }
    ensures all { IfNone result (N.cluster.board.clients ≤ length members.now) }
{
    let clients = u64::from(cluster.mailroom.board().clients());
    let idle = count_idle(members);
    if idle < clients {
        Some(clients - idle)
    } else {
        None
    }
}

/// Returns how many messages the members lost, all together. The sum stays at its greatest value,
/// 2^64 - 1.
fn lost_by<N: ClusterName>(members: &[Member<N>]) -> u64
    ensures { result ≡ min (sum_by (λ m. m.lost) members.now) (2 ^ 64 - 1) }
{
    let mut lost: u64 = 0;
    for member in members {
        lost = lost.saturating_add(member.lost());
    }
    lost
}

/// Appends a member's draws of one plan to the others.
fn push_draws<N: ClusterName>(
    draws: &mut Vec<Draw>,
    member: &Member<N>,
    side: Side,
) -> Result<(), AllocError>
    ensures added { IfOk result (λ _. draws.new.items ≡ draws.old.items ++ draws_of side member.now) }
    ensures each { IfOk result (λ _. All (IsDraw N.cluster side) (draws_of side member.now)) }
{
    let client = member.client();
    for receipt in member.receipts(side) {
        draws.push((client, receipt.ticket, receipt.quorum))?;
    }
    Ok(())
}

/// Returns the draws of one plan of all members, one member after the other.
fn collect_draws<N: ClusterName>(
    alloc: Global,
    members: &[Member<N>],
    side: Side,
) -> Result<Vec<Draw>, AllocError>
    ensures value { IfOk result (λ draws. draws.items ≡ all_draws side members.now) }
    ensures each { IfOk result (λ draws. All (IsDraw N.cluster side) draws.items) }
{
    let mut draws = Vec::new(alloc);
    for member in members {
        push_draws(&mut draws, member, side)?;
    }
    Ok(draws)
}

/// Returns the draws of both plans of all members, one member after the other.
fn collect_both<N: ClusterName>(
    alloc: Global,
    members: &[Member<N>],
) -> Result<(Vec<Draw>, Vec<Draw>), AllocError>
    ensures first { IfOk result (λ draws. draws.0.items ≡ all_draws First members.now) }
    ensures second { IfOk result (λ draws. draws.1.items ≡ all_draws Second members.now) }
    ensures each { IfOk result (λ draws. All (IsDraw N.cluster First) draws.0.items) }
    ensures each2 { IfOk result (λ draws. All (IsDraw N.cluster Second) draws.1.items) }
{
    let first = collect_draws(alloc, members, Side::First)?;
    let second = collect_draws(alloc, members, Side::Second)?;
    Ok((first, second))
}

/// Returns the draws in the order of their tickets.
fn by_ticket(mut draws: Vec<Draw>) -> Vec<Draw>
    ensures same { IsPermutation draws.items result.items }
    ensures ascending { IsNonDecreasingBy (λ d. d.1) result.items }
{
    draws.sort_unstable_by_key(|draw| draw.1);
    draws
}

/// Returns the passes in the order of their numbers.
fn by_number(mut passes: Vec<Pass>) -> Vec<Pass>
    ensures same { IsPermutation passes.items result.items }
    ensures ascending { IsNonDecreasingBy (λ p. p.1) result.items }
{
    passes.sort_unstable_by_key(|pass| pass.1);
    passes
}

/// Joins a member's clerks to the last clerks, and its seat to the root.
fn join_member<N: ClusterName>(
    board: &Board,
    offices: &Offices,
    root: &mut BoardRoot,
    clerks: &mut Clerks,
    member: Member<N>,
) -> Result<(), BoardFault>
    requires board { board.now ≡ N.cluster.board }
    requires offices { office_names offices.now ≡ names_in N.cluster }
    requires table { root.old.table ≡ N.cluster.board.table }
    requires clerks { names_of clerks.old ≡ names_in N.cluster }
    ensures seats { IfOk result (λ _. root.new.seats ≡ root.old.seats + 1) }
    ensures passes { IfOk result (λ _. root.new.passes ≡ root.old.passes ++ passes_of member) }
    ensures each { IfOk result (λ _. All (λ p. p.0 < N.cluster.board.clients) (passes_of member)) }
    ensures joined { IfOk result (λ _. clerks.new ≡ joined_each clerks.old member.clerks) }
    ensures own { IfOk result (λ _. names_of member.clerks ≡ names_in N.cluster) }
    ensures share { IfOk result (λ _. HasShare member.clerks N.cluster.quota) }
    ensures table { root.new.table ≡ root.old.table }
    ensures names { names_of clerks.new ≡ names_of clerks.old }
    ensures lost { IfErr result (IsLoss N.cluster) }
{
    let Member {
        seat,
        clerks: own,
        ..
    } = member;
    match clerks.join(offices, own) {
        Ok(()) => {}
        Err(_) => return Err(BoardFault::OutOfMemory),
    }
    match root.join_client(board, seat) {
        Ok(()) => {}
        Err((_, fault)) => return Err(fault),
    }
    Ok(())
}

/// Joins all members' clerks and seats.
fn join_members<N: ClusterName>(
    board: &Board,
    offices: &Offices,
    root: &mut BoardRoot,
    clerks: &mut Clerks,
    members: Vec<Member<N>>,
) -> Result<(), BoardFault>
    requires board { board.now ≡ N.cluster.board }
    requires offices { office_names offices.now ≡ names_in N.cluster }
    requires table { root.old.table ≡ N.cluster.board.table }
    requires clerks { names_of clerks.old ≡ names_in N.cluster }
    ensures seats { IfOk result (λ _. root.new.seats ≡ root.old.seats + length members.items) }
    ensures passes { IfOk result (λ _. root.new.passes ≡ root.old.passes ++ all_passes members.items) }
    ensures each { IfOk result (λ _. All (λ p. p.0 < N.cluster.board.clients) (all_passes members.items)) }
    ensures receipts { IfOk result (λ _. (side : Side) →
        receipts_of clerks.new side ≡ receipts_of clerks.old side ++ all_receipts side members.items) }
    ensures share { IfOk result (λ _. (n : ℕ) → HasShare clerks.old n →
        HasShare clerks.new (n + length members.items * N.cluster.quota)) }
    ensures table { root.new.table ≡ root.old.table }
    ensures names { names_of clerks.new ≡ names_of clerks.old }
    ensures lost { IfErr result (IsLoss N.cluster) }
{
    for member in members {
        join_member(board, offices, root, clerks, member)?;
    }
    Ok(())
}

/// Settles the current grant of each node, and joins its seat to the root.
fn join_nodes<N: ClusterName>(
    board: &Board,
    root: &mut BoardRoot,
    nodes: Vec<Mutex<Node<N>>>,
) -> Result<(), BoardFault>
    requires board { board.now ≡ N.cluster.board }
    requires table { root.old.table ≡ N.cluster.board.table }
    ensures seats { IfOk result (λ _. root.new.seats ≡ root.old.seats + length nodes.items) }
    ensures passes { IfOk result (λ _. root.new.passes ≡ root.old.passes) }
    ensures table { root.new.table ≡ root.old.table }
    ensures out { IfErr result (λ fault. (v : ℕ) × (fault ≡ BoardFault.VoteOut v) × (v < N.cluster.board.voters)) }
{
    for node in nodes {
        let seat = node.into_inner().into_seat(board);
        match root.join_voter(board, seat) {
            Ok(()) => {}
            Err((_, fault)) => return Err(fault),
        }
    }
    Ok(())
}

/// Joins all members' clerks and seats, and then the seats of all nodes.
fn join_all<N: ClusterName>(
    board: &Board,
    offices: &Offices,
    root: &mut BoardRoot,
    clerks: &mut Clerks,
    members: Vec<Member<N>>,
    nodes: Vec<Mutex<Node<N>>>,
) -> Result<(), BoardFault>
    requires board { board.now ≡ N.cluster.board }
    requires offices { office_names offices.now ≡ names_in N.cluster }
    requires table { root.old.table ≡ N.cluster.board.table }
    requires clerks { names_of clerks.old ≡ names_in N.cluster }
    ensures seats { IfOk result (λ _. root.new.seats ≡ root.old.seats + length members.items + length nodes.items) }
    ensures passes { IfOk result (λ _. root.new.passes ≡ root.old.passes ++ all_passes members.items) }
    ensures each { IfOk result (λ _. All (λ p. p.0 < N.cluster.board.clients) (all_passes members.items)) }
    ensures receipts { IfOk result (λ _. (side : Side) →
        receipts_of clerks.new side ≡ receipts_of clerks.old side ++ all_receipts side members.items) }
    ensures share { IfOk result (λ _. (n : ℕ) → HasShare clerks.old n →
        HasShare clerks.new (n + length members.items * N.cluster.quota)) }
    ensures table { root.new.table ≡ root.old.table }
    ensures names { names_of clerks.new ≡ names_of clerks.old }
    ensures lost { IfErr result (IsLoss N.cluster) }
{
    join_members(board, offices, root, clerks, members)?;
    join_nodes(board, root, nodes)?;
    Ok(())
}

/// Returns the fault of a close that lost cluster and members by this fault of the board: a vote that
/// is out stays a vote that is out.
fn lost_by_board<N: ClusterName>(fault: BoardFault) -> CloseFault<N>
    ensures { result ≡ CloseFault.Lost (ClusterFault.Board fault) }
{
    CloseFault::Lost(ClusterFault::Board(fault))
}

impl<N: ClusterName> Cluster<N> {
    /// Closes the cluster with its members, and returns the record of its run:
    ///
    /// - who drew which ticket and received which quorum, for each plan in the order of tickets;
    /// - who passed by which number, in the order of numbers;
    /// - the register;
    /// - how many messages were lost.
    ///
    /// Each client's member must be back and idle. Otherwise fails with `Unready`, which contains
    /// cluster and members as they are, and how many are missing or not idle. If a vote is out or
    /// memory runs out, fails with `Lost`, and all is lost. That no vote is out when all members
    /// are back and idle is tested, and not proved.
    pub fn close(self, alloc: Global, members: Vec<Member<N>>) -> Result<RunRecord, CloseFault<N>>
        ensures ready { IfOk result (λ _. N.cluster.board.clients ≤ idle_count members.items) }
        ensures record { IfOk result (IsRecordOf N.cluster members.items) }
        ensures refused { IfErr result (RefusesClose N.cluster members.items) }
    {
        if let Some(missing) = missing(&self, &members) {
            return Err(CloseFault::Unready {
                cluster: self,
                members,
                missing,
            });
        }
        match self.end(alloc, members) {
            Ok(record) => Ok(record),
            Err(fault) => Err(lost_by_board(fault)),
        }
    }

    /// Returns the record of a run. Each client's member must be back.
    fn end(self, alloc: Global, members: Vec<Member<N>>) -> Result<RunRecord, BoardFault>
        requires { N.cluster.board.clients ≤ length members.items }
        ensures record { IfOk result (IsRecordOf N.cluster members.items) }
        ensures lost { IfErr result (IsLoss N.cluster) }
    {
        let lost = lost_by(&members);
        let (draws, draws2) = match collect_both(alloc, &members) {
            Ok(draws) => draws,
            Err(_) => return Err(BoardFault::OutOfMemory),
        };
        let total = self.join(members)?;
        Ok(RunRecord {
            draws: by_ticket(draws),
            draws2: by_ticket(draws2),
            passes: by_number(total.passes),
            register: total.register,
            lost,
        })
    }

    /// Joins all seats and clerks, and closes the board and the offices. Returns the board's total.
    /// Each client's member must be back.
    fn join(self, members: Vec<Member<N>>) -> Result<Total, BoardFault>
        requires { N.cluster.board.clients ≤ length members.items }
        ensures passes { IfOk result (λ total. total.passes.items ≡ all_passes members.items) }
        ensures each { IfOk result (λ _. All (λ p. p.0 < N.cluster.board.clients) (all_passes members.items)) }
        ensures once { IfOk result (λ total. AreAllBelow (map (λ p. p.1) (all_passes members.items)) total.register) }
        ensures register { IfOk result (λ total. total.register ≡ length (all_passes members.items)) }
        ensures tickets { IfOk result (λ _. (side : Side) →
            AreAllBelow (tickets_of (all_receipts side members.items)) (length (all_receipts side members.items))) }
        ensures lost { IfErr result (IsLoss N.cluster) }
    {
        let Cluster {
            mailroom,
            offices,
            left,
        } = self;
        let (board, nodes) = mailroom.into_parts();
        let Left {
            mut root,
            mut clerks,
            of: _,
        } = left.into_inner();
        join_all(&board, &offices, &mut root, &mut clerks, members, nodes)?;
        offices.end(clerks);
        let Ok(total) = board.close(root) else {
            unreachable!()
        };
        Ok(total)
    }
}
