//! Voters and clients that are bytes between two steps, as in the library for C.
ghost use Rattle.std.specs.Prelude.{◌≡◌};

use arrayvec::ArrayVec;
use requester::Requester;
use voter::Voter;
use words::{read_words, write_words};

/// Saves a voter as bytes, and restores it from them.
pub fn voter_by_bytes(voter: &mut Voter)
    ensures { voter.new.id ≡ voter.old.id }
{
    let id = voter.id();
    let mut bytes = [0; 1104];
    let mut words = ArrayVec::new();
    voter.save(&mut words);
    write_words(words.as_slice(), &mut bytes);
    read_words(&bytes, &mut words);
    match Voter::restore(words.as_slice()) {
        Some(restored) if restored.id() == id => *voter = restored,
        _ => {}
    }
}

/// Saves a client as bytes, and restores it from them.
pub fn client_by_bytes(client: &mut Requester)
    ensures { client.new.id ≡ client.old.id }
{
    let id = client.id();
    let mut bytes = [0; 1104];
    let mut words = ArrayVec::new();
    client.save(&mut words);
    write_words(words.as_slice(), &mut bytes);
    read_words(&bytes, &mut words);
    match Requester::restore(words.as_slice()) {
        Some(restored) if restored.id() == id => *client = restored,
        _ => {}
    }
}
