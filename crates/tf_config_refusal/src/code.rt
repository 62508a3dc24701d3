//! The codes of refusals and diagnostics.

ghost use Rattle.std.specs.Prelude.{◌≡◌};
ghost use Rattle.tf_config_refusal.specs.Code.{name_of, number_of};

/// The code of a refusal, or of a diagnostic about an action or an output. Each code has a number and a name.
#[derive(Clone, Copy, Debug, PartialEq, Eq)]
pub enum Code {
    /// A file isn't JSON.
    NotJson,
    /// A property, a block or a name that the format doesn't allow.
    BadShape,
    /// A text isn't a template.
    BadTemplate,
    /// A name that isn't declared, or a function that doesn't exist.
    UnknownName,
    /// Locals or resources that need themselves.
    Cycle,
    /// `count` isn't a whole number of 0 or more.
    BadCount,
    /// `for_each` is neither a map nor a set of texts.
    BadForEach,
    /// `count` or `for_each` isn't known yet.
    UnknownInstances,
    /// An evaluation has a fault.
    Evaluate,
    /// An argument is missing, not in the schema, or of the wrong kind.
    BadArgument,
    /// No provider has the type.
    NoProvider,
    /// An object with `prevent_destroy` would be destroyed.
    PreventDestroy,
    /// A state isn't in the format.
    BadState,
    /// A limit is exceeded.
    Limit,
    /// Memory ran out before any call.
    OutOfMemory,
    /// A provider failed.
    Failed,
    /// A reply contradicts what was planned.
    Contradiction,
    /// A reply isn't an object of the type.
    Malformed,
    /// The request for a provider, or an output, has a fault.
    ArgumentFault,
    /// Memory ran out for an action or an output.
    NoMemory,
    /// An action wasn't begun because of a stop.
    Left,
}

impl Code {
    /// Returns the number that refusals and diagnostics print.
    pub fn number(self) -> u8
        ensures { result ≡ number_of self }
    {
        self.row().0
    }

    /// Returns the name that refusals print.
    pub fn name(self) -> &'static str
        ensures { result.now ≡ name_of self }
    {
        self.row().1
    }

    /// Returns the number and the name.
    fn row(self) -> (u8, &'static str)
        ensures number { result.0 ≡ number_of self }
        ensures name { result.1.now ≡ name_of self }
    {
        match self {
            Code::NotJson => (1, "NotJson"),
            Code::BadShape => (2, "BadShape"),
            Code::BadTemplate => (3, "BadTemplate"),
            Code::UnknownName => (4, "UnknownName"),
            Code::Cycle => (5, "Cycle"),
            Code::BadCount => (6, "BadCount"),
            Code::BadForEach => (7, "BadForEach"),
            Code::UnknownInstances => (8, "UnknownInstances"),
            Code::Evaluate => (9, "Evaluate"),
            Code::BadArgument => (10, "BadArgument"),
            Code::NoProvider => (11, "NoProvider"),
            Code::PreventDestroy => (12, "PreventDestroy"),
            Code::BadState => (13, "BadState"),
            Code::Limit => (14, "Limit"),
            Code::OutOfMemory => (15, "OutOfMemory"),
            Code::Failed => (21, "Failed"),
            Code::Contradiction => (22, "Contradiction"),
            Code::Malformed => (23, "Malformed"),
            Code::ArgumentFault => (24, "ArgumentFault"),
            Code::NoMemory => (26, "NoMemory"),
            Code::Left => (27, "Left"),
        }
    }
}
