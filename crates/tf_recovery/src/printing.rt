//! The plan of an apply with providers outside the program, before the first call.

ghost use Rattle.std.specs.Prelude.{IfOk, map};
ghost use Rattle.tf_cli.specs.Applies.{MayStart};
ghost use Rattle.tf_walk_action.specs.Words.{plan_of};

use crate::approving::{AtTerminal, colours};
use std::io::Write;
use std::process::ExitCode;
use tf_cli::{SaveFault, save};
use tf_cli_files::ProgramInput;
use tf_cli_program::{Approval, plan_given, refuse, shown_text};
use tf_plan_data::Planned;
use tf_provider::Provider;

/// A plan that was printed.
pub(crate) struct PrintedPlan {
    /// The plan.
    pub(crate) planned: Planned,
    /// Whether printing succeeded.
    pub(crate) printed: Result<(), SaveFault>,
}

/// Prints the plan of what was given, and asks for approval if it has actions. Returns the program's status if the plan is refused or
/// not approved. The plan may be carried out with these providers.
pub(crate) fn approved_plan<O: Write, E: Write>(
    rt: &HostRuntime,
    given: &ProgramInput,
    providers: &[Box<dyn Provider + Sync>],
    out: &mut O,
    err: &mut E,
) -> Result<PrintedPlan, ExitCode>
    ensures { IfOk result (λ plan. MayStart (map meaning providers.now) (plan_of plan.planned)) }
{
    let planned = match plan_given(rt.alloc(), given, providers) {
        Ok(planned) => planned,
        Err(refused) => return Err(refuse(&refused, err)),
    };
    let text = match shown_text(rt.alloc(), &given.options, colours(rt), &planned) {
        Ok(text) => text,
        Err(refused) => return Err(refuse(&refused, err)),
    };
    let printed = save(out, text.as_str());
    let approval = AtTerminal::new(rt, given);
    if !planned.plan.actions.is_empty() && approval.is_asked() && !approval.approves() {
        return Err(ExitCode::FAILURE);
    }
    Ok(PrintedPlan { planned, printed })
}
