//! The input of a program.

ghost use Rattle.std.specs.Prelude.{◌≡◌, option_map};

use tf_cli_options::Options;

/// The input of a program: its options, and the files that they name.
#[derive(Drop)]
pub struct ProgramInput {
    /// The options on the command line.
    pub options: Options,
    /// The bytes of the configuration.
    pub config: Vec<u8>,
    /// The text of the variables' values, if there is one: the bytes of the variables file if it is the only source, or else the
    /// merged text of all sources.
    pub vars: Option<Vec<u8>>,
    /// What this text is called: the name of the file that has it, or `the merged variables`.
    pub vars_name: Option<String>,
    /// The bytes of the state file, if there is one.
    pub state: Option<Vec<u8>>,
}

impl ProgramInput {
    /// Returns the text of the variables' values, if there is one.
    pub fn vars_bytes(&self) -> Option<&[u8]>
        ensures { option_map (λ bytes. bytes.now) result ≡ option_map (λ bytes. bytes.items) self.now.vars }
    {
        self.vars.as_ref().map(|vars| vars.as_slice())
    }

    /// Returns the bytes of the state file, if there is one.
    pub fn state_bytes(&self) -> Option<&[u8]>
        ensures { option_map (λ bytes. bytes.now) result ≡ option_map (λ bytes. bytes.items) self.now.state }
    {
        self.state.as_ref().map(|state| state.as_slice())
    }
}
