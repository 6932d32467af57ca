//! The rows of a world's picture: what each turn is, and who is inside.
use crate::chart::{Chart, Node, maker_of, shown_moments};
use coterie_file::Named;
use incidents::IncidentWorld;
use message::Message;
use requester::Seen;
use show_figures::name_of;
use show_svg::{
    Area, Point, circle, close_group, close_text, close_title, line, open_text, open_titled,
    push_escaped, rect,
};
use std::alloc::AllocError;
use stories::{Happening, Late, Moment, Story, Turn};
use world::{Step, WorldFault};

/// How far the words of a row are from the left edge.
const LEFT: u64 = 20;

/// The style of a bar where a client is inside.
pub const INSIDE: &str = "fill=\"#f2c14e\" stroke=\"#8a6d1f\"";

/// The style of a dot where a client or a voter acts by itself.
pub const MAKER: &str = "fill=\"#222222\"";

/// The style of a square where a client or a voter crashes.
pub const CRASH: &str = "fill=\"#b22222\"";

/// The style of a ring where a voter lets its grant go.
const EVICTION: &str = "fill=\"#ffffff\" stroke=\"#b22222\" stroke-width=\"2\"";

/// The style of a square where a voter or a client comes back without its state.
const REBIRTH: &str = "fill=\"#ffffff\" stroke=\"#b22222\" stroke-width=\"1.5\"";

/// The style of a dot where a client shows a pass that the guard admits.
const PASS: &str = "fill=\"#1b7a3d\"";

/// The style of a dot where a client shows a pass that the guard refuses.
const LATE: &str = "fill=\"#b22222\"";

/// Where the faint line of a row begins.
const GUIDE: u64 = 145;

/// Appends a step, as a script has it.
fn push_step(out: &mut String, step: Step) -> Result<(), AllocError> {
    match step {
        Step::Ask(client) => write!(out, "ask {client}"),
        Step::Deliver(number) => write!(out, "deliver {number}"),
        Step::Leave(client) => write!(out, "leave {client}"),
        Step::GiveUp(client) => write!(out, "give-up {client}"),
        Step::RemindClient(client) => write!(out, "remind-client {client}"),
        Step::RemindVoter(voter) => write!(out, "remind-voter {voter}"),
        Step::Exchange => out.push_str("exchange"),
    }
}

/// Appends a turn, as a script has it.
fn push_turn(out: &mut String, turn: Turn) -> Result<(), AllocError> {
    match turn {
        Turn::Step(step) => push_step(out, step),
        Turn::CrashClient(client) => write!(out, "crash-client {client}"),
        Turn::CrashVoter(voter) => write!(out, "crash-voter {voter}"),
        Turn::Evict(voter) => write!(out, "evict {voter}"),
        Turn::RebornVoter(voter) => write!(out, "reborn-voter {voter}"),
        Turn::AnewClient(client) => write!(out, "anew-client {client}"),
        Turn::Show(client) => write!(out, "show {client}"),
    }
}

/// The style of the words below a row of what was refused.
const REFUSED: &str = "font-size=\"9\" font-weight=\"bold\" fill=\"#b22222\"";

/// The style of the words below a row of a pass that was admitted.
const ADMITTED: &str = "font-size=\"9\" font-weight=\"bold\" fill=\"#1b7a3d\"";

/// Returns where the words below a row are.
fn below(y: u64) -> Point {
    Point::at(LEFT + 18, y.saturating_add(13))
}

/// Appends the sign of a refused step, and why it was refused.
fn push_refusal(out: &mut String, y: u64, fault: WorldFault) -> Result<(), AllocError> {
    open_text(out, below(y), REFUSED)?;
    write!(out, "&#215; refused: {fault}")?;
    close_text(out)
}

/// Appends why the guard refused a pass.
fn push_late(out: &mut String, named: &Named, y: u64, late: Late) -> Result<(), AllocError> {
    let shown = late.shown;
    let seen = late.seen;
    open_text(out, below(y), REFUSED)?;
    out.push_str("&#215; refused: ")?;
    push_escaped(out, name_of(named, late.voter))?;
    write!(out, " {shown} &lt; {seen}")?;
    close_text(out)
}

/// Appends the turn that the guard gave to a pass.
fn push_admitted(out: &mut String, y: u64, turn: u64) -> Result<(), AllocError> {
    open_text(out, below(y), ADMITTED)?;
    write!(out, "admitted: turn {turn}")?;
    close_text(out)
}

/// Appends why a turn was refused that the world knows no fault for.
fn push_none(out: &mut String, y: u64, why: &str) -> Result<(), AllocError> {
    open_text(out, below(y), REFUSED)?;
    out.push_str("&#215; refused: ")?;
    out.push_str(why)?;
    close_text(out)
}

/// Appends a square at a place, for a crash.
pub fn push_crash(out: &mut String, place: Point) -> Result<(), AllocError> {
    let area = Area {
        x: place.x.saturating_sub(4),
        y: place.y.saturating_sub(4),
        width: 8,
        height: 8,
    };
    rect(out, area, CRASH)
}

/// Appends a ring at a place, for a grant that is let go.
pub fn push_eviction(out: &mut String, place: Point) -> Result<(), AllocError> {
    circle(out, place, 50, EVICTION)
}

/// Appends an empty square at a place, for one that comes back without its state.
pub fn push_rebirth(out: &mut String, place: Point) -> Result<(), AllocError> {
    let area = Area {
        x: place.x.saturating_sub(4),
        y: place.y.saturating_sub(4),
        width: 8,
        height: 8,
    };
    rect(out, area, REBIRTH)
}

/// Appends a mark at the column of the client or the voter that does this by itself, if one does: a
/// square for a crash, else a dot.
fn push_maker(out: &mut String, chart: &Chart, y: u64, moment: &Moment) -> Result<(), AllocError> {
    let Some(node) = maker_of(moment.turn) else {
        return Ok(());
    };
    let place = Point::at(chart.lanes.node(node), y);
    match moment.happening {
        Happening::Done { .. } => circle(out, place, 35, MAKER),
        Happening::Crashed(_) => push_crash(out, place),
        Happening::Evicted { .. } => push_eviction(out, place),
        Happening::Reborn(_) | Happening::Anew { .. } => push_rebirth(out, place),
        Happening::Admitted(_) => circle(out, place, 50, PASS),
        Happening::Late(_) | Happening::NoTurn => circle(out, place, 50, LATE),
        Happening::Refused(_) | Happening::NoGrant(_) | Happening::NoPass(_) => Ok(()),
    }
}

/// Appends the words of a row, and a faint line from them to the columns.
fn push_words(out: &mut String, chart: &Chart, row: u64, turn: Turn) -> Result<(), AllocError> {
    let y = chart.row(row);
    let to = Point::at(chart.lanes.right(), y);
    line(out, Point::at(GUIDE, y), to, "stroke=\"#e8e8e8\"")?;
    open_text(out, Point::at(LEFT, y.saturating_add(3)), "")?;
    let place = row.saturating_add(1);
    write!(out, "{place}. ")?;
    push_turn(out, turn)?;
    close_text(out)
}

/// Appends the row of a turn: its words, why it was refused if it was, and what the guard did with a pass.
fn push_row(
    out: &mut String,
    named: &Named,
    chart: &Chart,
    row: u64,
    moment: &Moment,
) -> Result<(), AllocError> {
    push_words(out, chart, row, moment.turn)?;
    let y = chart.row(row);
    match moment.happening {
        Happening::Refused(fault) => push_refusal(out, y, fault),
        Happening::Admitted(turn) => push_admitted(out, y, turn),
        Happening::Late(late) => push_late(out, named, y, late),
        Happening::NoTurn => push_none(out, y, "no turn is left"),
        Happening::NoGrant(_) => push_none(out, y, "no grant is given"),
        Happening::NoPass(_) => push_none(out, y, "no pass"),
        Happening::Done { .. }
        | Happening::Crashed(_)
        | Happening::Evicted { .. }
        | Happening::Reborn(_)
        | Happening::Anew { .. } => Ok(()),
    }
}

/// Appends a row for each turn.
pub fn push_rows(
    out: &mut String,
    named: &Named,
    story: &Story,
    chart: &Chart,
) -> Result<(), AllocError> {
    for (row, moment) in shown_moments(story).iter().enumerate() {
        push_row(out, named, chart, row as u64, moment)?;
    }
    Ok(())
}

/// Appends a mark for each turn that a client or a voter makes by itself.
pub fn push_makers(out: &mut String, story: &Story, chart: &Chart) -> Result<(), AllocError> {
    for (row, moment) in shown_moments(story).iter().enumerate() {
        push_maker(out, chart, chart.row(row as u64), moment)?;
    }
    Ok(())
}

/// Returns the client that a message came to in a turn, or the client that made the turn.
fn client_of(world: &IncidentWorld, turn: Turn) -> Option<u8> {
    match (turn, maker_of(turn)) {
        (Turn::Step(Step::Deliver(number)), _) => receiver_of(world, number as usize),
        (_, Some(Node::Client(client))) => Some(client),
        _ => None,
    }
}

/// Returns the client that receives a message, if a client does.
fn receiver_of(world: &IncidentWorld, number: usize) -> Option<u8> {
    if number >= world.sent() {
        return None;
    }
    match world.message(number) {
        Message::ToClient(message) => Some(message.client),
        Message::ToVoter(_) => None,
    }
}

/// Returns whether a client entered or left in a turn.
fn seen_in(moment: &Moment) -> Seen {
    match moment.happening {
        Happening::Done { seen, .. } | Happening::Anew { seen, .. } => seen,
        _ => Seen::Nothing,
    }
}

/// Returns where a client that is inside after this row leaves: how far that row is from the upper
/// edge, or how far the end of all rows is if the client does not leave.
fn leave_height(chart: &Chart, story: &Story, row: usize, client: u8) -> u64 {
    let moments = shown_moments(story);
    for (later, moment) in moments.iter().enumerate() {
        if later > row
            && seen_in(moment) == Seen::Left
            && client_of(&story.world, moment.turn) == Some(client)
        {
            return chart.row(later as u64);
        }
    }
    chart.foot(moments.len())
}

/// Appends the bar of a client that enters in a row, down to where it leaves.
fn push_bar(
    out: &mut String,
    chart: &Chart,
    client: u8,
    row: usize,
    foot: u64,
) -> Result<(), AllocError> {
    let top = chart.row(row as u64);
    let area = Area {
        x: chart.lanes.client(client).saturating_sub(6),
        y: top,
        width: 12,
        height: foot.saturating_sub(top),
    };
    let step = row.saturating_add(1);
    open_titled(out)?;
    write!(out, "client {client} is inside from step {step} on")?;
    close_title(out)?;
    rect(out, area, INSIDE)?;
    close_group(out)
}

/// Appends the bar of the client that enters in a row, if one does.
fn push_entry(
    out: &mut String,
    story: &Story,
    chart: &Chart,
    row: usize,
    moment: &Moment,
) -> Result<(), AllocError> {
    if seen_in(moment) != Seen::Entered {
        return Ok(());
    }
    match client_of(&story.world, moment.turn) {
        Some(client) => {
            let foot = leave_height(chart, story, row, client);
            push_bar(out, chart, client, row, foot)
        }
        None => Ok(()),
    }
}

/// Appends a bar for each time that a client is inside.
pub fn push_bars(out: &mut String, story: &Story, chart: &Chart) -> Result<(), AllocError> {
    for (row, moment) in shown_moments(story).iter().enumerate() {
        push_entry(out, story, chart, row, moment)?;
    }
    Ok(())
}
