//! Progress lines for the calls of a provider.
#![tactic(auto)]

mod clean;
mod elapsed;
mod lines;
mod progress;
mod screen;
mod shared;
mod status;

pub use elapsed::Watch;
pub use lines::{begun_line, ended_line, ended_well};
pub use progress::Progress;
pub use screen::Screen;
pub use shared::progress_is_shared;
pub use status::StatusLine;
