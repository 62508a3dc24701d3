//! What an apply reports.

use crate::diagnostic::Diagnostic;
use tf_provider::Journal;
use tf_state_data::State;
use tf_walk_action::{Excuse, Outcome};

/// The outcome of a plan that was carried out. What was created may be known from here alone, so a report can be
/// neither copied nor dropped. A pattern that names each of its fields takes it apart.
pub struct Report {
    /// The state after the apply.
    pub state: State,
    /// The outcome of each action, in action order.
    pub outcomes: Vec<Outcome>,
    /// What went wrong with actions, in action order, and then with outputs, by name.
    pub diagnostics: Vec<Diagnostic>,
    /// The calls that were made, in their order.
    pub journal: Journal,
    /// The excuses of the actions for which memory ran out or that were left because of a stop, in action order, and
    /// then those of the outputs for which memory ran out, by name.
    pub excused: Vec<Excuse>,
    /// How many creates, updates and destroys are good. Replacements count as creates.
    pub good: (u32, u32, u32),
}

/// A report, with or without a journal that can be relied on. It can be neither copied nor dropped: `into_report`
/// returns the report.
pub enum Walked {
    /// The journal holds exactly the calls that were made, each once, no call before one that it depends on.
    Whole(Report),
    /// State, outcomes and diagnostics hold, and the journal is withheld.
    Torn(Report),
}

impl Walked {
    ghost use Rattle.std.specs.Prelude.{◌≡◌};
    ghost use Rattle.tf_walk_report.specs.Report.{report_of};

    /// Returns the report, torn or not.
    pub fn report(&self) -> &Report
        ensures { result.now ≡ report_of self.now }
    {
        match self {
            Walked::Whole(report) => report,
            Walked::Torn(report) => report,
        }
    }

    /// Returns the report, torn or not, to be taken apart.
    pub fn into_report(self) -> Report
        ensures { result ≡ report_of self }
    {
        match self {
            Walked::Whole(report) => report,
            Walked::Torn(report) => report,
        }
    }
}
