//! The commands of the program.
use commands::Command;
use show_coteries::CoterieShape;
use show_faults::Explanation;
use show_waiting::Waiting;

/// What a picture shows.
#[derive(Clone, Copy)]
pub enum Picture {
    /// How often a plan, or other weights, use each voter and each quorum.
    Load,
    /// The messages of a script.
    World,
}

/// How a page is written.
#[derive(Clone, Copy)]
pub enum Form {
    /// In words, for people.
    Words,
    /// As JSON, for programs.
    Json,
}

/// How dealt tickets are written.
#[derive(Clone, Copy)]
pub enum TicketForm {
    /// In words, with an account of the tickets.
    Words,
    /// The names of the voters to ask, a line for each ticket.
    Names,
    /// As JSON, for programs.
    Json,
}

/// Tickets to deal.
#[derive(Clone, Copy)]
pub struct Dealing {
    /// How many, 0 to 100,000.
    pub count: u32,
    /// Whether in the order that is even from the first ticket.
    pub is_even: bool,
    /// How they are written.
    pub form: TicketForm,
}

/// How weights that were found are written.
#[derive(Clone, Copy)]
pub enum NearForm {
    /// In words, for people.
    Words,
    /// As their text, which other commands read.
    Text,
    /// As JSON, for programs.
    Json,
}

/// What is shown of weights that are near the best.
#[derive(Clone, Copy)]
pub struct NearPage {
    /// How they are written.
    pub form: NearForm,
    /// How many tickets a cycle has at most, 1 to 1,000,000, if a length was asked for.
    pub cycle: Option<u64>,
    /// How many tickets are dealt by them, 0 to 100,000, in place of a page about them. Their text has no
    /// tickets.
    pub tickets: Option<u64>,
    /// How many voters may be down at most, 1 or 2, if the weights have to bear that.
    pub down: Option<u64>,
    /// By how many percent the load of such weights may be above the smallest one, 0 to 100, if this was
    /// said.
    pub above: Option<u64>,
}

/// A command, with the words and numbers from the command line.
#[derive(Drop)]
pub enum ShowCommand {
    /// Show a plan, or other weights: whom to ask how often, and why no plan is better.
    Plan(Form),
    /// Check a plan, or other weights, and write their load and its bound.
    Check,
    /// Report on a plan, or on other weights, as one HTML document.
    Report,
    /// Deal tickets, with the names of the voters to ask.
    Deal(Dealing),
    /// Find weights near the best for a coterie, with a bound of every plan's load.
    Near(NearPage),
    /// Write the coterie of a shape, with these capacities, if there are any.
    Coterie(CoterieShape, Option<Vec<u64>>),
    /// Show coteries side by side: those of files with these names.
    Compare(Vec<String>, Form),
    /// Write the coterie that is left when the voters with these names fail.
    Without(Vec<String>),
    /// Show how many voters may fail, and which groups of them.
    Resilience(Form),
    /// Show whether each quorum of one coterie meets each quorum of another.
    Bridge,
    /// Tell a script's run in words.
    World,
    /// Show how long a client waits at most until it is inside.
    Waiting(Waiting),
    /// Explain a fault.
    Explain(&'static Explanation),
    /// Explain all faults, in Markdown.
    ExplainAll,
    /// List the lines of all faults.
    ListFaults,
    /// Show where an input has the fault for which this command of `qlock` refuses it.
    Fault(Command),
    /// Draw a picture.
    Picture(Picture),
}
