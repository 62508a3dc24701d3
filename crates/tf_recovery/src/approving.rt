//! The question whether a plan may be carried out, and the colours of a plan.

use std::env;
use std::io::{Input, IsTerminal};
use tf_cli_files::ProgramInput;
use tf_cli_lines::save;
use tf_cli_program::Approval;
use tf_plan_diff::Colours;

const QUESTION: &str =
    "\nDo you want to perform these actions?\n  Only 'yes' will be accepted to approve.\n\n  Enter a value: ";

/// Returns the colours for standard output: none if it isn't a terminal, or if the environment has a variable `NO_COLOR` that
/// isn't empty.
pub(crate) fn colours(rt: &HostRuntime) -> Colours {
    if !rt.stdout().is_terminal() {
        return Colours::Plain;
    }
    match env::var(rt, "NO_COLOR") {
        Ok(value) if !value.is_empty() => Colours::Plain,
        _ => Colours::Ansi,
    }
}

/// Asks for approval if standard input and standard output are terminals, unless the options say that nobody is asked.
#[derive(Drop)]
pub(crate) struct AtTerminal {
    rt: HostRuntime,
    auto_approve: bool,
}

impl AtTerminal {
    /// Returns the approval that the options ask for.
    pub(crate) fn new(rt: &HostRuntime, given: &ProgramInput) -> AtTerminal {
        AtTerminal {
            rt: *rt,
            auto_approve: given.options.auto_approve,
        }
    }
}

impl Approval for AtTerminal {
    fn colours(&self) -> Colours {
        colours(&self.rt)
    }

    fn is_asked(&self) -> bool {
        !self.auto_approve && self.rt.stdin().is_terminal() && self.rt.stdout().is_terminal()
    }

    fn approves(&self) -> bool {
        let mut err = self.rt.stderr();
        let _ = save(&mut err, QUESTION);
        let mut line = String::new(self.rt.alloc());
        let is_approved = self.rt.stdin().read_line(&mut line).is_ok()
            && line.as_str().trim() == "yes";
        let _ = save(
            &mut err,
            if is_approved {
                "\n"
            } else {
                "\nApply cancelled.\n"
            },
        );
        is_approved
    }
}
