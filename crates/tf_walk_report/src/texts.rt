//! The memory that the report on an output needs.

ghost use Rattle.std.specs.Prelude.{◌≡◌, ◌≤◌, [], string_bytes, string_capacity};

/// The texts that an output's diagnostic needs.
#[derive(Drop)]
pub struct OutputTexts {
    /// `output.NAME`
    pub place: String,
    /// An empty text, with capacity for each message.
    pub message: String,
    pub ghost blank: { string_bytes message ≡ [] },
    pub ghost long: { 21 ≤ string_capacity message },
}
