//! Messages of providers, in one line.
ghost use Rattle.std.specs.Prelude.{◌≡◌, string_bytes};
ghost use Rattle.tf_walk_report.specs.Diagnostics.{blanked, in_one_line};

/// Replaces each character below U+0020 in a message by a space. Takes no memory.
pub fn one_line(message: String) -> String
    ensures { string_bytes result ≡ in_one_line (string_bytes message) }
{
    let _text = message.as_str();
    let mut bytes = message.into_bytes();
    blank_controls(&mut bytes);
    match String::from_utf8(bytes) {
        Ok(text) => text,
        Err(_) => unreachable!(),
    }
}

fn blank_controls(bytes: &mut [u8])
    ensures { bytes.new ≡ in_one_line bytes.old }
{
    for byte in bytes.iter_mut() {
        *byte = blanked(*byte);
    }
}

fn blanked(byte: u8) -> u8
    ensures { result ≡ blanked byte }
{
    if byte < 32 { 32 } else { byte }
}
