//! Laws of the definitions: what the rule that each step keeps means for voters and clients.
ghost use Rattle.board.specs.VotesKept.{OneInside, VotesAreKept};

/// States that the words, the register and all seats agree between any two steps:
///
/// - A voter's word is free if and only if the voter has no current grant. Otherwise it names that
///   grant.
/// - A client holds a vote under a grant if and only if the voter's word says so.
/// - No two seats hold one vote.
/// - A reading that counts is the register's number, and its seat holds the quorum that it read
///   for.
/// - The numbers of all passes are those below the register, each once.
pub fn votes_are_kept()
    ensures { VotesAreKept }
{}

/// States that if any two quorums meet, at most one seat holds the vote of every member of a quorum
/// between any two steps: **one client is inside at a time**.
pub fn one_client_inside()
    ensures { OneInside }
{}
