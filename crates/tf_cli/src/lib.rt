//! The engine as a library call, from texts to texts, and the lines that the programs print of its answers.
#![tactic(auto)]

mod applying;
mod planning;

pub use applying::{apply_one, apply_text, carry_out, carry_out_one};
pub use planning::{InputTexts, plan_of_texts, plan_text, text_of};
pub use tf_cli_files::keep;
pub use tf_cli_lines::{SaveFault, save, save_all};
pub use tf_cli_options::{GraphForm, Options, Program, options};
pub use tf_cli_text::{Applied, print, print_refused, show, show_rest, state_to_write};
pub use tf_config_refusal::Refusal;
pub use tf_plan_planner::Refused;
pub use tf_walk_action::Stop;
pub use tf_walk_report::{Report, Walked};
