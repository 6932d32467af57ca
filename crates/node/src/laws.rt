//! What is proved of voters and clients, as nodes and votes rely on it.
ghost use Rattle.node.specs.PartLaws.{AreClientLaws, AreVoterLaws};

use requester::{messages_move_votes, phases_show_votes};
use voter::{
    grants_are_numbered, replies_carry_what_was_seen, voters_meet_the_contract, voters_stay_sound,
};

/// What voters keep over their messages.
pub(crate) fn voters_keep_their_laws()
    ensures { AreVoterLaws }
{
    grants_are_numbered();
    voters_meet_the_contract();
    voters_stay_sound();
    replies_carry_what_was_seen();
}

/// How messages move the votes of clients.
pub(crate) fn clients_keep_their_laws()
    ensures { AreClientLaws }
{
    messages_move_votes();
    phases_show_votes();
}
