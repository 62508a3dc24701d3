ghost use Rattle.tf_config_refusal.specs.declared.refusal.Refusal.TheVariants.{OutOfMemory};
ghost use Rattle.std.specs.Prelude.{◌≡◌, Some};

use crate::code::Code;
use crate::names::NameList;
use std::alloc::{AllocError, AllocFailed};
use std::fmt;
use tf_expr_syntax::EvalFault;

/// Why no provider was called: something was wrong with the user's input or with the machine.
#[derive(Debug, Drop)]
pub enum Refusal {
    /// An allocation failed: code 15.
    OutOfMemory,
    /// The number of workers isn't 1 to 64: code 14.
    Workers,
    /// Anything else that is refused.
    Fault {
        /// What is refused.
        code: Code,
        /// Where the fault is: a whole file's name, a path of property names and array positions joined
        /// by dots, or an address.
        place: String,
        /// The detail after the refusal's name in its text.
        detail: Detail,
    },
}

/// The detail after a refusal's name.
#[derive(Debug, Drop)]
pub enum Detail {
    /// Nothing.
    Bare,
    /// The byte offset at which a text isn't a template.
    At(usize),
    /// The names of locals and resources in a cycle, in byte order.
    Names(Vec<String>),
    /// How an evaluation failed.
    Kind(EvalFault),
}

impl From<AllocError> for Refusal {
    ghost from_gives = { λ _ refusal. refusal ≡ OutOfMemory };

    fn from(_error: AllocError) -> Refusal {
        Refusal::OutOfMemory
    }
}

impl<T: Drop> From<AllocFailed<T>> for Refusal {
    ghost from_gives = { λ _ refusal. refusal ≡ OutOfMemory };

    fn from(_error: AllocFailed<T>) -> Refusal {
        Refusal::OutOfMemory
    }
}

/// Writes `error CODE at PLACE: NAME` and the detail, without a newline.
impl fmt::Display for Refusal {
    ghost use Rattle.tf_config_refusal.specs.Refusal.{refusal_of};
    ghost use Rattle.tf_config_refusal.specs.Text.{refusal_text};

    ghost output = { λ refusal. Some (refusal_text (refusal_of refusal)) };

    fn fmt<W: fmt::Write>(&self, f: &mut fmt::Formatter<W>) -> fmt::Result {
        match self {
            Refusal::OutOfMemory => write!(f, "error 15 at memory: OutOfMemory"),
            Refusal::Workers => write!(f, "error 14 at workers: Limit"),
            Refusal::Fault {
                code,
                place,
                detail,
            } => {
                let number = code.number();
                let name = code.name();
                write!(f, "error {number} at {place}: {name}{detail}")
            }
        }
    }
}

/// Writes what follows a refusal's name: nothing, or the detail in parentheses.
impl fmt::Display for Detail {
    ghost use Rattle.tf_config_refusal.specs.Refusal.{detail_of};
    ghost use Rattle.tf_config_refusal.specs.Text.{detail_text};

    ghost output = { λ detail. Some (detail_text (detail_of detail)) };

    fn fmt<W: fmt::Write>(&self, f: &mut fmt::Formatter<W>) -> fmt::Result {
        match self {
            Detail::Bare => Ok(()),
            Detail::At(offset) => write!(f, "({offset})"),
            Detail::Names(names) => {
                let list = NameList {
                    names: names.as_slice(),
                };
                write!(f, "({list})")
            }
            Detail::Kind(fault) => write!(f, "({fault})"),
        }
    }
}
