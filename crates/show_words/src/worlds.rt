//! A story in words: who asks whom, who gets which vote, and who waits for whom.
ghost use Rattle.std.specs.Prelude.{◌≡◌, ◌<◌, ◌≤◌, ℕ, IfNone, IfSome, OnOk};
ghost use Rattle.world_state.specs.declared.step.Step.TheVariants.{Deliver};
ghost use Rattle.stories.specs.Plays.{play, world_after};

use crate::names::push_names;
use coterie_file::Named;
use dealer::Plans;
use incidents::IncidentWorld;
use message::{ClientBody, Message, ToClient, ToVoter, VoterBody};
use numbers::MAX_VOTERS;
use requester::{Phase, Requester, Seen};
use show_figures::name_of;
use std::alloc::{AllocError, Global};
use stories::{Happening, Late, Player, StoryScript, Turn};
use voter::{Grant, Voter};
use ways::WayIn;
use world::{Step, World};

/// Returns the client that has the vote of a voter, if there is one.
fn holder_of(voter: Option<&Voter>) -> Option<u8> {
    match voter {
        Some(voter) => match voter.held() {
            Some(grant) => Some(grant.client),
            None => None,
        },
        None => None,
    }
}

/// Appends what a client says to a voter.
fn push_to_voter(text: &mut String, named: &Named, message: &ToVoter) -> Result<(), AllocError> {
    let client = message.client;
    let name = name_of(named, message.voter);
    match message.body {
        VoterBody::Request { stamp } => write!(
            text,
            "client {client} asks {name} for its vote (stamp {stamp})"
        ),
        VoterBody::Relinquish { grant } => write!(
            text,
            "client {client} gives {name} its vote back and goes on waiting (grant {grant})"
        ),
        VoterBody::Release { stamp } => {
            write!(text, "client {client} releases {name} (stamp {stamp})")
        }
    }
}

/// Appends what a voter says to a client.
fn push_to_client(text: &mut String, named: &Named, message: &ToClient) -> Result<(), AllocError> {
    let client = message.client;
    let name = name_of(named, message.voter);
    match message.body {
        ClientBody::Locked { stamp, grant } => write!(
            text,
            "{name} gives client {client} its vote (stamp {stamp}, grant {grant})"
        ),
        ClientBody::Fail { stamp } => write!(
            text,
            "{name} tells client {client} that another request comes first (stamp {stamp})"
        ),
        ClientBody::Inquire { grant } => write!(
            text,
            "{name} asks client {client} whether it can still win (grant {grant})"
        ),
    }
}

/// Appends what a message says.
pub fn push_message_words(
    text: &mut String,
    named: &Named,
    message: &Message,
) -> Result<(), AllocError> {
    match message {
        Message::ToVoter(message) => push_to_voter(text, named, message),
        Message::ToClient(message) => push_to_client(text, named, message),
    }
}

/// Appends who has the vote for which a client has to wait, if a message says that it has to.
fn push_wait(text: &mut String, player: &Player, message: &Message) -> Result<(), AllocError> {
    let Message::ToClient(message) = message else {
        return Ok(());
    };
    let ClientBody::Fail { .. } = message.body else {
        return Ok(());
    };
    match holder_of(player.world().voter(message.voter)) {
        Some(holder) => write!(text, "; client {holder} has the vote"),
        None => Ok(()),
    }
}

/// Appends the line of a message that a step sent.
fn push_sent(
    text: &mut String,
    named: &Named,
    player: &Player,
    number: usize,
) -> Result<(), AllocError> {
    let world = player.world();
    if number >= world.sent() {
        return Ok(());
    }
    let message = world.message(number);
    write!(text, "    m {number}: ")?;
    push_message_words(text, named, &message)?;
    push_wait(text, player, &message)?;
    text.push('\n')
}

/// Appends the line of a client that entered or left, if one did.
fn push_seen(text: &mut String, player: &Player, seen: Seen) -> Result<(), AllocError> {
    let Some(event) = player.world().visible().last() else {
        return Ok(());
    };
    let client = event.client;
    match seen {
        Seen::Nothing => Ok(()),
        Seen::Entered if player.is_calm() => {
            write!(text, "    client {client} is inside: it has the lock\n")
        }
        Seen::Entered => write!(
            text,
            "    client {client} is inside: it believes that it has the lock\n"
        ),
        Seen::Left => write!(text, "    client {client} is no longer inside\n"),
    }
}

/// Appends what arrives when the message with this number is delivered, if it was sent.
fn push_arrival(
    text: &mut String,
    named: &Named,
    number: u64,
    message: Option<Message>,
) -> Result<(), AllocError> {
    match message {
        Some(message) => {
            write!(text, "message {number} arrives: ")?;
            push_message_words(text, named, &message)
        }
        None => write!(text, "message {number} should arrive"),
    }
}

/// Appends a step, before it is made, with the message that arrives in it, if one does.
fn push_step(
    text: &mut String,
    named: &Named,
    step: Step,
    message: Option<Message>,
) -> Result<(), AllocError> {
    match step {
        Step::Ask(client) => write!(text, "client {client} wants the lock"),
        Step::Deliver(number) => push_arrival(text, named, number, message),
        Step::Leave(client) => write!(text, "client {client} leaves"),
        Step::GiveUp(client) => write!(text, "client {client} gives up"),
        Step::RemindClient(client) => write!(text, "client {client} says again what it waits for"),
        Step::RemindVoter(voter) => {
            let name = name_of(named, voter);
            write!(text, "{name} says again who has its vote")
        }
        Step::Exchange => text.push_str("later requests use the second plan"),
    }
}

/// Returns the number of the message that a step delivers, if it is one of the first `sent` ones.
fn delivered(step: Step, sent: usize) -> Option<usize>
    ensures number { IfSome result (λ number. (step ≡ Deliver number) × (number < sent)) }
    ensures none { IfNone result ((number : ℕ) → step ≡ Deliver number → sent ≤ number) }
{
    match step {
        Step::Deliver(number) if number < sent as u64 => Some(number as usize),
        _ => None,
    }
}

/// Returns the message that arrives in a step of a story, if one does.
fn arrival(world: &IncidentWorld, step: Step) -> Option<Message> {
    let number = delivered(step, world.sent())?;
    Some(world.message(number))
}

/// Appends a turn, before it is made.
fn push_turn(
    text: &mut String,
    named: &Named,
    world: &IncidentWorld,
    turn: Turn,
) -> Result<(), AllocError> {
    match turn {
        Turn::Step(step) => push_step(text, named, step, arrival(world, step)),
        Turn::CrashClient(client) => write!(
            text,
            "client {client} crashes, and restarts from what it saved"
        ),
        Turn::CrashVoter(voter) => {
            let name = name_of(named, voter);
            write!(text, "{name} crashes, and restarts from what it saved")
        }
        Turn::Evict(voter) => {
            let name = name_of(named, voter);
            write!(text, "{name} lets its grant go, without asking")
        }
        Turn::RebornVoter(voter) => {
            let name = name_of(named, voter);
            write!(text, "{name} lost its state, and is reborn")
        }
        Turn::AnewClient(client) => {
            write!(text, "client {client} lost its state, and starts anew")
        }
        Turn::Show(client) => write!(text, "client {client} shows its pass to the guard"),
    }
}

/// Appends the line of how many messages were forgotten in a crash.
fn push_forgotten(text: &mut String, messages: usize) -> Result<(), AllocError> {
    match messages {
        0 => text.push_str("    it forgets nothing\n"),
        1 => text.push_str("    it forgets the last message that it received\n"),
        _ => write!(
            text,
            "    it forgets the last {messages} messages that it received\n"
        ),
    }
}

/// Appends the line of a grant that a voter let go.
fn push_evicted(text: &mut String, grant: Grant) -> Result<(), AllocError> {
    let client = grant.client;
    let number = grant.grant;
    write!(
        text,
        "    client {client} had the vote by it (grant {number}), and is not told\n"
    )
}

/// Appends why the guard refuses a pass.
fn push_late(text: &mut String, named: &Named, late: Late) -> Result<(), AllocError> {
    let name = name_of(named, late.voter);
    let shown = late.shown;
    let seen = late.seen;
    write!(
        text,
        "the guard refuses it: it shows grant {shown} of {name}, and the guard saw grant {seen}\n"
    )
}

/// Appends the lines of the messages that were sent from a number on.
fn push_all_sent(
    text: &mut String,
    named: &Named,
    player: &Player,
    first: usize,
    sent: usize,
) -> Result<(), AllocError> {
    for number in first..first.saturating_add(sent) {
        push_sent(text, named, player, number)?;
    }
    Ok(())
}

/// Appends what befell a voter or a client beyond a step or a crash.
fn push_incident(
    text: &mut String,
    named: &Named,
    player: &Player,
    happening: Happening,
) -> Result<(), AllocError> {
    match happening {
        Happening::Evicted { grant, first, sent } => {
            push_evicted(text, grant)?;
            push_all_sent(text, named, player, first, sent)
        }
        Happening::NoGrant(voter) => {
            let name = name_of(named, voter);
            write!(text, "    refused: {name} has given no grant\n")
        }
        Happening::Reborn(granted) => {
            let next = granted.saturating_add(1);
            write!(text, "    its next grant has number {next}\n")
        }
        Happening::Anew { clock, seen } => {
            write!(text, "    its clock is at its last stamp, {clock}\n")?;
            push_seen(text, player, seen)
        }
        _ => Ok(()),
    }
}

/// Appends what the guard did with a pass.
fn push_guarded(text: &mut String, named: &Named, happening: Happening) -> Result<(), AllocError> {
    match happening {
        Happening::Admitted(turn) => write!(text, "    the guard admits it: turn {turn}\n"),
        Happening::Late(late) => {
            text.push_str("    ")?;
            push_late(text, named, late)
        }
        Happening::NoTurn => text.push_str("    the guard refuses it: no turn is left\n"),
        Happening::NoPass(client) => {
            write!(text, "    refused: client {client} was never inside\n")
        }
        _ => Ok(()),
    }
}

/// Appends what a turn did.
fn push_happening(
    text: &mut String,
    named: &Named,
    player: &Player,
    happening: Happening,
) -> Result<(), AllocError> {
    match happening {
        Happening::Refused(fault) => write!(text, "    refused: {fault}\n"),
        Happening::Crashed(messages) => push_forgotten(text, messages),
        Happening::Done { first, sent, seen } => {
            push_all_sent(text, named, player, first, sent)?;
            push_seen(text, player, seen)
        }
        Happening::Evicted { .. }
        | Happening::NoGrant(_)
        | Happening::Reborn(_)
        | Happening::Anew { .. } => push_incident(text, named, player, happening),
        Happening::Admitted(_) | Happening::Late(_) | Happening::NoTurn | Happening::NoPass(_) =>
            push_guarded(text, named, happening),
    }
}

/// Makes a turn, and appends its lines. `place` is the turn's place, from 1.
fn push_moment(
    text: &mut String,
    named: &Named,
    player: &mut Player,
    place: usize,
    turn: Turn,
) -> Result<(), AllocError>
    ensures { OnOk result (player.new ≡ play player.old turn) }
{
    write!(text, "{place}. ")?;
    push_turn(text, named, player.world(), turn)?;
    text.push('\n')?;
    let happening = player.play(turn)?;
    push_happening(text, named, player, happening)
}

/// Appends the vote that a client waits for, with who has it.
fn push_missing(
    text: &mut String,
    named: &Named,
    world: &IncidentWorld,
    client: u8,
    voter: u8,
) -> Result<(), AllocError> {
    let name = name_of(named, voter);
    match holder_of(world.voter(voter)) {
        Some(holder) if holder == client => write!(text, " {name} (given, but not arrived)"),
        Some(holder) => write!(text, " {name} (client {holder} has it)"),
        None => write!(text, " {name} (nobody has it)"),
    }
}

/// Appends the votes that a client waits for.
fn push_waiting(
    text: &mut String,
    named: &Named,
    world: &IncidentWorld,
    client: &Requester,
) -> Result<(), AllocError> {
    let mut between = "";
    for voter in client.quorum() {
        if client.held(*voter).is_none() {
            text.push_str(between)?;
            push_missing(text, named, world, client.id(), *voter)?;
            between = ",";
        }
    }
    text.push('\n')
}

/// Appends what a client does at the end.
fn push_client(
    text: &mut String,
    named: &Named,
    world: &IncidentWorld,
    client: &Requester,
) -> Result<(), AllocError> {
    let number = client.id();
    match client.phase() {
        Phase::Idle => write!(text, "  client {number} wants nothing\n"),
        Phase::Inside => {
            write!(text, "  client {number} is inside, with the votes of ")?;
            push_names(text, named, client.quorum(), ", ")?;
            text.push('\n')
        }
        Phase::Asking => {
            write!(text, "  client {number} waits for the vote of")?;
            push_waiting(text, named, world, client)
        }
    }
}

/// Returns a line for each turn of a story, and for each message that it sends. Makes the turns.
fn turns_words(
    alloc: Global,
    named: &Named,
    player: &mut Player,
    turns: &[Turn],
) -> Result<String, AllocError>
    ensures { OnOk result (player.new.world ≡ world_after turns.now player.old.world) }
{
    let mut text = String::new(alloc);
    let mut place: usize = 0;
    for turn in turns {
        place = place.saturating_add(1);
        push_moment(&mut text, named, player, place, *turn)?;
    }
    Ok(text)
}

/// Returns what each client does at the end.
fn clients_words(
    alloc: Global,
    named: &Named,
    world: &IncidentWorld,
    clients: u8,
) -> Result<String, AllocError> {
    let mut text = String::new(alloc);
    for number in 0..clients {
        match world.client(number) {
            Some(client) => push_client(&mut text, named, world, client)?,
            None => {}
        }
    }
    Ok(text)
}

/// Appends the line of a vote that is out for a request that is over, so that only a reminder of its
/// voter frees it. Appends nothing for any other vote.
fn push_stale_vote(
    text: &mut String,
    named: &Named,
    world: &IncidentWorld,
    number: u8,
) -> Result<(), AllocError> {
    let Some(grant) = world.voter(number).and_then(Voter::held) else {
        return Ok(());
    };
    let Some(holder) = world.client(grant.client) else {
        return Ok(());
    };
    let name = name_of(named, number);
    let client = grant.client;
    if holder.phase() == Phase::Idle {
        write!(
            text,
            "  {name}: client {client} has its vote, and wants nothing: remind {name}\n"
        )
    } else if holder.stamp() != grant.stamp {
        write!(
            text,
            "  {name}: client {client} has its vote by an older request: remind {name}\n"
        )
    } else {
        Ok(())
    }
}

/// Returns the message that arrives in a step of a way in, if one does.
fn arrival_on_way(world: &World, step: Step) -> Option<Message> {
    let number = delivered(step, world.sent())?;
    Some(world.message(number))
}

/// Appends a way by which a client gets in: who is reminded, and which messages arrive. The world is
/// that after its steps.
fn push_way_in(
    text: &mut String,
    named: &Named,
    way: &WayIn,
    world: &World,
) -> Result<(), AllocError> {
    let client = way.client;
    write!(text, "\nA way for client {client} to get in:\n")?;
    for step in &way.steps {
        text.push_str("  ")?;
        push_step(text, named, *step, arrival_on_way(world, *step))?;
        text.push('\n')?;
    }
    Ok(())
}

/// Appends the line of a client that is inside by a grant that its voter let go, if it is.
fn push_let_go(
    text: &mut String,
    named: &Named,
    world: &IncidentWorld,
    client: &Requester,
    voter: u8,
) -> Result<(), AllocError> {
    let Some(grant) = client.held(voter) else {
        return Ok(());
    };
    let current = world.voter(voter).and_then(Voter::held);
    if current.is_some_and(|held| held.grant == grant) {
        return Ok(());
    }
    let number = client.id();
    let name = name_of(named, voter);
    write!(text, "  client {number}: {name} let its grant {grant} go\n")
}

/// Appends which grants of a client that is inside were let go, and why the guard refuses its pass, if it
/// does.
fn push_guard_end(
    text: &mut String,
    named: &Named,
    player: &Player,
    client: &Requester,
) -> Result<(), AllocError> {
    if client.phase() != Phase::Inside {
        return Ok(());
    }
    for voter in client.quorum() {
        push_let_go(text, named, player.world(), client, *voter)?;
    }
    let number = client.id();
    match player.refusal(number) {
        Some(late) => {
            write!(text, "  client {number}: ")?;
            push_late(text, named, late)
        }
        None => Ok(()),
    }
}

/// Returns what is so at the end: what each client does, whom the guard refuses, and which votes are out
/// for nothing.
fn ending_words(
    alloc: Global,
    named: &Named,
    player: &Player,
    clients: u8,
) -> Result<String, AllocError> {
    let world = player.world();
    let mut text = clients_words(alloc, named, world, clients)?;
    for number in 0..clients {
        match world.client(number) {
            Some(client) => push_guard_end(&mut text, named, player, client)?,
            None => {}
        }
    }
    for voter in 0..MAX_VOTERS as u8 {
        push_stale_vote(&mut text, named, world, voter)?;
    }
    Ok(text)
}

/// Returns the words of a way in from the end of a story, if there is one.
fn way_words(alloc: Global, named: &Named, player: Player) -> Result<String, AllocError> {
    let mut text = String::new(alloc);
    if let Some((way, world)) = player.into_way(alloc)? {
        push_way_in(&mut text, named, &way, &world)?;
    }
    Ok(text)
}

/// Returns a story in words: a line for each turn, a line for each message that it sends, and at the
/// end what each client does, whom it waits for, and whom the guard refuses. If clients wait while nobody
/// is inside, a way in follows. The plans are of coteries with these names. Fails only if memory runs out.
pub fn world_words(
    alloc: Global,
    named: &Named,
    plans: Plans,
    script: &StoryScript,
) -> Result<String, AllocError> {
    let mut player = Player::new(alloc, plans, script)?;
    let turns = turns_words(alloc, named, &mut player, script.steps())?;
    let ending = ending_words(alloc, named, &player, script.clients())?;
    let way = way_words(alloc, named, player)?;
    let page = format!(in alloc; "{turns}\nAt the end:\n{ending}{way}")?;
    Ok(page)
}
