//! Laws: a host that saves less than all, and letters that do leave.
ghost use Rattle.std.specs.Prelude.{◌≡◌, ◌<◌, ◌≤◌, ◌+◌, ◌∷◌, ◌++◌, [], ℕ, List, None, Option, Some, map, slice_index, true};
ghost use Rattle.std.specs.List.{AllByRecursion};
ghost use Rattle.message.specs.declared.message.ClientBody.TheVariants as to_client;
ghost use Rattle.message.specs.declared.message.ToVoter.{ToVoter};
ghost use Rattle.message.specs.declared.message.VoterBody.TheVariants as asks;
ghost use Rattle.numbers.specs.Bounds.{max_limit};
ghost use Rattle.sessions.specs.Rows.{IsOneOf, Row, Use, begin, is_taken};
ghost use Rattle.session_rows.specs.Runs as rows;
ghost use Rattle.voter.specs.declared.state.Grant.{Grant};
ghost use Rattle.voter.specs.Steps.{IsSound};
ghost use Rattle.voter_node.specs.LeftOut.{HaveSameLeast};
ghost use Rattle.voter_node.specs.Lives.{node_after, says};
ghost use Rattle.voter_node.specs.Nodes.{has_room};
ghost use Rattle.lock_node.specs.Example.{new_voter};
ghost use Rattle.lock_node.specs.Leaving.{AreSound, IsTold, KeepsLetters, locked_letter};
ghost use Rattle.lock_node.specs.Letters.{Letter, hearer};
ghost use Rattle.lock_node.specs.Locks.{Begins, Event, LockNode, Saves, Speaks, all_happen, all_leave, happens, life_at, turns_of};
ghost use Rattle.lock_node.specs.Thrift.{Befalls, HandsOut, HostTurn, IsLike, KeepLeast, LeaveOut, MayLeaveOut, events_in, host_after, host_sent, life_by};

/// A host may leave a save out for the letters of each lock whose vote has the same least as on the disk. Whatever comes,
/// and whenever it saves, hands letters out with no save, and crashes:
///
/// - each LOCKED that leaves goes to a session from which this voter took a REQUEST for that lock, of that number and
///   stamp, and that is on the disk;
/// - each letter has a message that the node of its lock sends in this life;
/// - lock by lock the vote is that of a node after its life, and what is on the disk has the same least as what that node has
///   saved.
pub fn processes_may_leave_saves_out()
    ensures asked { (n : LockNode) (turns : List HostTurn) (l : Letter) (stamp grant : ℕ) → Begins n → LeaveOut n turns
        → IsOneOf l (host_sent n turns) → l.message.body ≡ to_client.Locked stamp grant
        → (epoch : ℕ) × IsOneOf (record { session = l.session; epoch = epoch; stamp = stamp })
        (rows.after_turns (begin (n.rows l.message.client)) (turns_of l.lock l.message.client (events_in turns))).kept }
    ensures given_out { (n : LockNode) (turns : List HostTurn) (l : Letter) → Begins n → LeaveOut n turns
        → IsOneOf l (host_sent n turns) → IsOneOf l.message (says (n.locks l.lock) (life_by l.lock n turns)) }
    ensures lives { (n : LockNode) (turns : List HostTurn) (lock : ℕ) → LeaveOut n turns
        → IsLike ((host_after n turns).locks lock) (node_after (n.locks lock) (life_by lock n turns)) }
{}

/// A host may go by what each call shows: if no turn since a save or a start changed the least of a vote, it is that on the
/// disk. So the letters of its lock may leave with no save.
pub fn unchanged_votes_need_no_save()
    ensures { (n : LockNode) (turns : List HostTurn) (lock : ℕ) → HaveSameLeast (n.locks lock).saved (n.locks lock).live
        → KeepLeast lock n turns → MayLeaveOut (host_after n turns) (HandsOut lock) }
{}

/// A host that leaves no save out is such a host: all letters leave by its saves, and each lock has the life that it has
/// without one.
pub fn hosts_may_save_all()
    ensures ends { (n : LockNode) (events : List Event) → host_after n (map Befalls events) ≡ all_happen n events }
    ensures may { (n : LockNode) (events : List Event) → LeaveOut n (map Befalls events) }
    ensures events { (events : List Event) → events_in (map Befalls events) ≡ events }
    ensures letters { (n : LockNode) (events : List Event) → host_sent n (map Befalls events) ≡ all_leave n events }
    ensures lives { (n : LockNode) (events : List Event) (lock : ℕ) → life_by lock n (map Befalls events) ≡ life_at lock n events }
{}

/// Each vote stays sound, whatever the host does, and so does what is on its disk: so the next laws hold at any time.
pub fn votes_stay_sound()
    ensures first { (id limit : ℕ) → limit ≤ max_limit → AreSound (new_voter id limit) }
    ensures turns { (n : LockNode) (turns : List HostTurn) → AreSound n → AreSound (host_after n turns) }
{}

/// Whoever gets the vote is told: if an event gives it to a request under a new grant, the LOCKED leaves with the next save or
/// before, for the session that has the number, if the stamp is above its base. This holds whatever comes before that
/// save, unless the process crashes or the lock is forgotten.
pub fn new_grants_are_told()
    ensures { (n : LockNode) (e : Event) (turns : List HostTurn) (lock session : ℕ) (g : Grant) → IsSound (n.locks lock).live
        → ((happens n e).locks lock).live.held ≡ Some g → (n.locks lock).live.granted < g.grant
        → hearer (n.rows g.client) g.stamp ≡ Some session → AllByRecursion (KeepsLetters lock) (Befalls e ∷ turns)
        → IsTold (host_sent n (Befalls e ∷ turns ++ (Befalls Saves ∷ []))) lock session g }
{}

/// A new REQUEST (above the finished stamp) that the row takes, of a free vote, gets it, if a grant and room are left, and is
/// answered: the LOCKED leaves with the next save or before, for the session that said it. This holds whatever comes before that
/// save, unless the process crashes or the lock is forgotten.
pub fn granted_requests_are_told()
    ensures { (n : LockNode) (lock session epoch stamp : ℕ) (m : ToVoter) (turns : List HostTurn) → m.body ≡ asks.Request stamp
        → is_taken (n.rows m.client) session epoch stamp ≡ true → IsSound (n.locks lock).live → (n.locks lock).live.held ≡ None
        → slice_index (n.locks lock).live.finished m.client < stamp → (n.locks lock).live.granted < (n.locks lock).live.limit
        → has_room (n.locks lock) ≡ true → AllByRecursion (KeepsLetters lock) turns
        → IsOneOf (locked_letter (n.locks lock).live lock session m.client stamp ((n.locks lock).live.granted + 1))
        (host_sent n (Befalls (Speaks lock session epoch m) ∷ turns ++ (Befalls Saves ∷ []))) }
{}

/// A REQUEST of who has the vote is answered with no save, if the node has room and the vote the same least as on the disk.
pub fn repeated_requests_need_no_save()
    ensures { (n : LockNode) (lock session epoch stamp grant : ℕ) (m : ToVoter) → m.body ≡ asks.Request stamp
        → is_taken (n.rows m.client) session epoch stamp ≡ true → IsSound (n.locks lock).live
        → (n.locks lock).live.held ≡ Some (record { client = m.client; stamp = stamp; grant = grant })
        → slice_index (n.locks lock).live.finished m.client < stamp → has_room (n.locks lock) ≡ true
        → HaveSameLeast (n.locks lock).saved (n.locks lock).live
        → LeaveOut n (Befalls (Speaks lock session epoch m) ∷ HandsOut lock ∷ [])
        × IsOneOf (locked_letter (n.locks lock).live lock session m.client stamp grant)
        (host_sent n (Befalls (Speaks lock session epoch m) ∷ HandsOut lock ∷ [])) }
{}
