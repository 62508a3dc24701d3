//! What the programs `plan` and `apply` do with the files that they were given, and how they recover an unfinished apply.
//!
//! The log of an unfinished apply says what it did. To recover its state, the same texts are applied again with providers that
//! answer from the log, so nothing is called.
#![tactic(auto)]

mod applying;
mod approval;
mod laws;
mod logging;
mod planning;
mod recovering;
mod recovery_status;
mod taking;
mod work;

pub use applying::{carry_out_logged, end_apply, refuse};
pub use approval::{Approval, Unasked};
pub use laws::{
    what_a_cut_log_leaves_is_recovered, what_is_recovered_is_applied,
    what_lines_are_kept_is_recovered,
};
pub use logging::{
    ask_for_results, finish_recovery, is_inspected, preview_recovery, start as start_log,
};
pub use planning::plan_given;
pub use recovery_status::is_state;
pub use taking::Recovered;
pub use work::{print_plan, shown_text};
