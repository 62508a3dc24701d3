//! The options on the command line.
//!
//! | Option | Meaning | Default |
//! |---|---|---|
//! | `--config FILE` | the configuration | `main.tf.json` |
//! | `--vars FILE` | a file with values of variables; may be given several times | none |
//! | `--var NAME=VALUE` | the value of a variable; may be given several times | none |
//! | `--state FILE` | the state; a file that doesn't exist is no state | `terraform.tfstate` |
//! | `--lineage TEXT` | the lineage of a new state | `00000000-0000-0000-0000-000000000000` |
//! | `--parallelism N` | how many workers, 1 to 64 | 10 |
//! | `--stop-after N` | after how many calls to stop, 0 to 2,000 | doesn't stop |
//! | `--explain` | show where an error is and what is wrong, even if standard error is not a terminal | only at a terminal |
//! | `--diff` | print the plan with the old values next to the new ones | only the new ones |
//! | `--json` | print JSON, in the forms of Terraform: `plan` the plan, `apply` what happens, one event a line | text |
//! | `--provider DIR` | the folder of a provider outside the program; may be given several times | none |
//! | `--graph dot` | `plan` only: print the order for Graphviz, in place of the plan's text | the text |
//! | `--detailed-exitcode` | `plan` only: exit with 2 if the plan has changes | 0 |
//! | `--progress` | `apply` only: print progress even if standard error is not a terminal | only at a terminal |
//! | `--auto-approve` | `apply` only: don't ask for approval of the plan at a terminal | asks at a terminal |
//! | `--stop-file FILE` | `apply` only: begin no further call once this file exists | doesn't stop |
//! | `--in-flight FILE` | `apply` only: the results of the calls that were in flight when an apply ended; `retry` if they weren't made | exits with 2 if there are such calls |

/// A program of the engine. Each has options of its own in addition to the shared ones.
#[derive(Clone, Copy, Debug, PartialEq, Eq)]
pub enum Program {
    /// Prints a plan.
    Plan,
    /// Carries a plan out.
    Apply,
}

/// The language in which the order of a plan is drawn.
#[derive(Clone, Copy, Debug, PartialEq, Eq)]
pub enum GraphForm {
    /// Graphviz's DOT.
    Dot,
}

/// Where values of variables come from.
#[derive(Debug, Drop)]
pub enum VariableSource {
    /// A variables file, by its name.
    File(String),
    /// The value of one variable, as `NAME=VALUE`. The text may lack the `=`.
    Assignment(String),
}

/// The options of the programs.
#[derive(Debug, Drop)]
pub struct Options {
    /// The file of the configuration.
    pub config: String,
    /// Where the values of variables come from, in the order of the command line. The last value of a name counts.
    pub variables: Vec<VariableSource>,
    /// The file of the state, which is read, and written if the state changes.
    pub state: String,
    /// The lineage of a new state.
    pub lineage: String,
    /// How many workers carry out a plan, 1 to 64.
    pub parallelism: usize,
    /// After how many calls of providers the walk stops, 0 to 2,000; `None` doesn't stop it.
    pub stop_after: Option<usize>,
    /// In which language to print the order of the plan in place of its text, if requested. Only `plan` has it.
    pub graph: Option<GraphForm>,
    /// Whether to print JSON in place of text: `plan` the plan, `apply` what happens.
    pub json: bool,
    /// Whether to exit with 2 if the plan has changes. Only `plan` has it.
    pub detailed_exitcode: bool,
    /// Whether to print progress even if standard error is not a terminal. Only `apply` has it.
    pub progress: bool,
    /// Whether to carry out a plan at a terminal without asking for approval. Only `apply` has it.
    pub auto_approve: bool,
    /// The file that stops an apply: once it exists, no further call begins. Only `apply` has it.
    pub stop_file: Option<String>,
    /// The file with the results of the calls that were in flight when an apply ended, or `retry` if these calls weren't made. Only
    /// `apply` has it.
    pub in_flight: Option<String>,
    /// Whether to explain refusals and diagnostics even if standard error is not a terminal.
    pub explain: bool,
    /// Whether to print the plan with the old values next to the new ones.
    pub diff: bool,
    /// The folders of the providers outside the program, in the order in which they are asked for a type.
    pub providers: Vec<String>,
}
