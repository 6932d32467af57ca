//! The page of how long a client waits at most.
ghost use Rattle.std.specs.Prelude.{◌≡◌, ◌≤◌, ◌++◌, ◌*◌, IfOk, OnOk, string_bytes, unwrap_or};
ghost use Rattle.numbers.specs.Bounds.{max_clients};
ghost use Rattle.show_waiting.specs.Waiting.{IsInRange, are_all_live, bound_in_seconds, clients_text, dead_text, down_text, fair_rounds_text, head_text, live_bound, live_clients, live_rounds_text, longest_in_seconds, longest_wait, patience_text, patient_rounds, premises_text, rounds_of, rounds_text, rounds_with, seconds_text, tested, waiting_text, withdrawals_of, withdrawals_text};
ghost use Rattle.world.specs.Waiting.{bound};

use std::alloc::{AllocError, Global};

/// The most clients with which tests were made.
const TESTED: u64 = 5;

/// What a fair round is, and what the bound takes for granted.
const PREMISES: &str =
    "In a round everybody is reminded, the messages of the reminders arrive, what is sent on their arrival arrives too, and whoever was inside at its beginning leaves. All else may be lost, late or repeated, but no REQUEST arrives later than in the round after that in which it was sent. Nobody crashes, whoever waits does not give up, and each voter has a grant left at the end. Timers and the network make the rounds: that they do is not proved.\n";

/// What a live round is, and what its bound takes for granted.
const LIVE_PREMISES: &str =
    "In a live round everybody who is live is reminded, what is sent between live ones at a reminder arrives, and so does what is sent on its arrival. Who of them was inside at its beginning leaves, and who of them waits for a voter that is down ends the request. A live voter drops the request of a client that is not live, if that has its vote. Such a client is dead and does nothing, or it is idle and does not ask. All else may be lost, late or repeated, but no REQUEST arrives later than in the round after that in which it was sent. Nobody who is live crashes, whoever waits does not give up, and each live voter has a grant left at the end. Timers and the network make the rounds: that they do is not proved.\n";

/// A question: how long does a client wait at most?
#[derive(Clone, Copy)]
pub struct Waiting {
    /// How many clients there are: 1 to 64.
    pub clients: u64,
    /// How many others give up meanwhile, 0 to 1,000,000. None do, if it is not said.
    pub withdrawals: Option<u64>,
    /// How many seconds a round takes: at most 86,400. If it is not said, the page is in rounds alone.
    pub round: Option<u64>,
    /// How many of the voters are down, 1 to 64. None are, if it is not said.
    pub down: Option<u64>,
    /// How many of the clients are dead, or idle for good: fewer than there are clients. None are, if it is not said.
    pub dead: Option<u64>,
}

/// Returns whether everybody is live.
fn are_all_live(waiting: &Waiting) -> bool
    ensures { result ≡ are_all_live waiting.now }
{
    waiting.down.is_none() && waiting.dead.is_none()
}

/// Returns how many clients are live.
fn live_clients(waiting: &Waiting) -> u64
    ensures value { result ≡ live_clients waiting.now }
    ensures few { result ≤ waiting.now.clients }
{
    waiting.clients.saturating_sub(waiting.dead.unwrap_or(0))
}

/// Returns how many others give up.
fn withdrawals_of(waiting: &Waiting) -> u64
    requires { IsInRange waiting.now }
    ensures value { result ≡ withdrawals_of waiting.now }
    ensures few { result ≤ 1000000 }
{
    waiting.withdrawals.unwrap_or(0)
}

/// Returns after how many fair rounds a client that asks has entered, for a number of withdrawals of
/// others, if no REQUEST comes late.
pub fn bound(clients: u64, withdrawals: u64) -> u64
    requires clients { clients ≤ max_clients }
    requires few { withdrawals ≤ 1000000 }
    ensures value { result ≡ bound clients withdrawals }
    ensures small { result ≤ 144013824 }
{
    (clients + 8) * (3 * clients + 2 * withdrawals)
}

/// Returns after how many live rounds a live client that asks has entered: the number of all clients, of those that
/// are live, and of withdrawals of others, if no REQUEST comes late.
pub fn live_bound(clients: u64, live: u64, withdrawals: u64) -> u64
    requires clients { clients ≤ max_clients }
    requires live { live ≤ clients }
    requires few { withdrawals ≤ 1000000 }
    ensures value { result ≡ live_bound clients live withdrawals }
    ensures small { result ≤ 146014016 }
{
    (clients + 9) * (3 * live + 2 * withdrawals)
}

/// Returns after how many rounds a client has entered, for a question and a number of withdrawals.
fn rounds_with(waiting: &Waiting, withdrawals: u64) -> u64
    requires range { IsInRange waiting.now }
    requires few { withdrawals ≤ 1000000 }
    ensures value { result ≡ rounds_with waiting.now withdrawals }
    ensures small { result ≤ 146014016 }
{
    if are_all_live(waiting) {
        bound(waiting.clients, withdrawals)
    } else {
        live_bound(waiting.clients, live_clients(waiting), withdrawals)
    }
}

/// Returns after how many rounds a client has entered, for a question.
fn rounds_of(waiting: &Waiting) -> u64
    requires { IsInRange waiting.now }
    ensures value { result ≡ rounds_of waiting.now }
    ensures small { result ≤ 146014016 }
{
    rounds_with(waiting, withdrawals_of(waiting))
}

/// Returns the same if each request runs for two whole rounds before it is given up.
fn patient_rounds(waiting: &Waiting) -> u64
    requires { IsInRange waiting.now }
    ensures value { result ≡ patient_rounds waiting.now }
    ensures small { result ≤ 146014016 }
{
    rounds_with(waiting, 0)
}

/// Returns the number of clients, or the most with which tests were made.
fn tested(clients: u64) -> u64
    ensures { result ≡ tested clients }
{
    clients.min(TESTED)
}

/// Returns the longest wait in tests with so many clients, in fair rounds: in schedules without
/// withdrawals and late REQUESTs. Tests were made with up to 5 clients.
pub fn longest_wait(clients: u64) -> u64
    requires { 1 ≤ clients }
    ensures value { result ≡ longest_wait clients }
    ensures small { result ≤ 15 }
{
    match clients {
        1 => 1,
        2 => 6,
        3 => 9,
        4 => 12,
        _ => 15,
    }
}

/// Appends how many voters are down, if it was said.
fn push_down(text: &mut String, down: Option<u64>) -> Result<(), AllocError>
    ensures { OnOk result (string_bytes text.new ≡ string_bytes text.old ++ down_text down) }
{
    match down {
        Some(down) => write!(text, "voters that are down: {down}\n"),
        None => Ok(()),
    }
}

/// Appends how many clients are dead, if it was said.
fn push_dead(text: &mut String, dead: Option<u64>) -> Result<(), AllocError>
    ensures { OnOk result (string_bytes text.new ≡ string_bytes text.old ++ dead_text dead) }
{
    match dead {
        Some(dead) => write!(text, "of these clients dead or idle: {dead}\n"),
        None => Ok(()),
    }
}

/// Appends how many clients there are.
fn push_clients(text: &mut String, clients: u64) -> Result<(), AllocError>
    ensures { OnOk result (string_bytes text.new ≡ string_bytes text.old ++ clients_text clients) }
{
    write!(text, "clients: {clients}\n")
}

/// Appends how many others give up.
fn push_withdrawals(text: &mut String, waiting: &Waiting) -> Result<(), AllocError>
    requires { IsInRange waiting.now }
    ensures { OnOk result (string_bytes text.new ≡ string_bytes text.old ++ withdrawals_text waiting.now) }
{
    let withdrawals = withdrawals_of(waiting);
    write!(
        text,
        "withdrawals of others while one waits: {withdrawals}\n"
    )
}

/// Appends what was asked.
fn push_head(text: &mut String, waiting: &Waiting) -> Result<(), AllocError>
    requires { IsInRange waiting.now }
    ensures { OnOk result (string_bytes text.new ≡ string_bytes text.old ++ head_text waiting.now) }
{
    push_clients(text, waiting.clients)?;
    push_dead(text, waiting.dead)?;
    push_down(text, waiting.down)?;
    push_withdrawals(text, waiting)
}

/// Appends the bound in fair rounds, and the longest wait in tests.
fn push_fair_rounds(text: &mut String, waiting: &Waiting) -> Result<(), AllocError>
    requires { IsInRange waiting.now }
    ensures { OnOk result (string_bytes text.new ≡ string_bytes text.old ++ fair_rounds_text waiting.now) }
{
    let rounds = rounds_of(waiting);
    let longest = longest_wait(waiting.clients);
    let tested = tested(waiting.clients);
    write!(
        text,
        "rounds until a client that asks is inside: at most {rounds} (proved), far above the longest wait in tests: {longest} (clients: {tested}, withdrawals: 0)\n"
    )
}

/// Appends the bound in live rounds.
fn push_live_rounds(text: &mut String, waiting: &Waiting) -> Result<(), AllocError>
    requires { IsInRange waiting.now }
    ensures { OnOk result (string_bytes text.new ≡ string_bytes text.old ++ live_rounds_text waiting.now) }
{
    let rounds = rounds_of(waiting);
    write!(
        text,
        "live rounds until a live client that asks is inside: at most {rounds} (proved)\n"
    )
}

/// Appends the bound in rounds if clients are patient.
fn push_patience(text: &mut String, waiting: &Waiting) -> Result<(), AllocError>
    requires { IsInRange waiting.now }
    ensures { OnOk result (string_bytes text.new ≡ string_bytes text.old ++ patience_text waiting.now) }
{
    let rounds = patient_rounds(waiting);
    write!(
        text,
        "rounds if each request runs for two whole rounds before it is given up: at most {rounds} (proved), however many give up\n"
    )
}

/// Appends the same in seconds.
fn push_seconds(text: &mut String, waiting: &Waiting, seconds: u64) -> Result<(), AllocError>
    requires range { IsInRange waiting.now }
    requires day { seconds ≤ 86400 }
    ensures { OnOk result (string_bytes text.new ≡ string_bytes text.old ++ bound_in_seconds waiting.now seconds) }
{
    let most = seconds * rounds_of(waiting);
    let patient = seconds * patient_rounds(waiting);
    write!(
        text,
        "seconds, if a round takes {seconds}: at most {most}, and {patient} if each request does that (proved)"
    )
}

/// Appends the longest wait in tests, in seconds.
fn push_longest(text: &mut String, waiting: &Waiting, seconds: u64) -> Result<(), AllocError>
    requires range { IsInRange waiting.now }
    requires day { seconds ≤ 86400 }
    ensures { OnOk result (string_bytes text.new ≡ string_bytes text.old ++ longest_in_seconds waiting.now seconds) }
{
    let longest = seconds * longest_wait(waiting.clients);
    write!(text, ", far above the longest wait in tests: {longest}")
}

/// Appends the bound in seconds, if it was said how long a round takes.
fn push_time(text: &mut String, waiting: &Waiting) -> Result<(), AllocError>
    requires { IsInRange waiting.now }
    ensures { OnOk result (string_bytes text.new ≡ string_bytes text.old ++ seconds_text waiting.now waiting.now.round) }
{
    let Some(seconds) = waiting.round else {
        return Ok(());
    };
    push_seconds(text, waiting, seconds)?;
    if are_all_live(waiting) {
        push_longest(text, waiting, seconds)?;
    }
    text.push('\n')
}

/// Appends the bounds in rounds.
fn push_rounds(text: &mut String, waiting: &Waiting) -> Result<(), AllocError>
    requires { IsInRange waiting.now }
    ensures { OnOk result (string_bytes text.new ≡ string_bytes text.old ++ rounds_text waiting.now) }
{
    if are_all_live(waiting) {
        push_fair_rounds(text, waiting)
    } else {
        push_live_rounds(text, waiting)
    }
}

/// Appends what a round is, and what the bound takes for granted.
fn push_premises(text: &mut String, waiting: &Waiting) -> Result<(), AllocError>
    ensures { OnOk result (string_bytes text.new ≡ string_bytes text.old ++ premises_text waiting.now) }
{
    if are_all_live(waiting) {
        text.push_str(PREMISES)
    } else {
        text.push_str(LIVE_PREMISES)
    }
}

/// Returns the page of how long a client waits at most until it is inside: in fair rounds, or in live rounds if voters
/// are down or clients are dead, and in seconds if it was said how long a round takes. If everybody is live, the
/// longest wait in tests is beside it.
///
/// Fails only if it runs out of memory.
pub fn waiting_page(alloc: Global, waiting: &Waiting) -> Result<String, AllocError>
    requires { IsInRange waiting.now }
    ensures { IfOk result (λ page. string_bytes page ≡ waiting_text waiting.now) }
{
    let mut text = String::new(alloc);
    push_head(&mut text, waiting)?;
    push_rounds(&mut text, waiting)?;
    push_patience(&mut text, waiting)?;
    push_time(&mut text, waiting)?;
    push_premises(&mut text, waiting)?;
    Ok(text)
}
