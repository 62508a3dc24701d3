ghost use Rattle.std.specs.List.{prefix_len};
ghost use Rattle.std.specs.Prelude.{◌≡◌, ◌<◌, ◌≤◌, ◌+◌, drop, take, length, slice_index};
ghost use Rattle.std.specs.Str.{IsCharBoundary};
ghost use Rattle.tf_config_address.specs.Name.{starts_name, continues_name};
ghost use Rattle.tf_expr_template.specs.Bytes.{is_space, is_digit, is_plain};

/// The rest of a text.
#[derive(Clone, Copy)]
pub(crate) struct Remainder<'a> {
    pub(crate) text: &'a str,
}

/// Returns the byte at an index, or 0 past the end.
pub(crate) fn byte_at(text: &str, place: usize) -> u8
    ensures { result ≡ slice_index text.now place }
{
    text.as_bytes().get(place).copied().unwrap_or(0)
}

/// Returns the text after the byte at an index, which is ASCII.
pub(crate) fn after(text: &str, place: usize) -> &str
    requires within { place < length text.now }
    requires ascii { slice_index text.now place < 128 }
    ensures { result.now ≡ drop (place + 1) text.now }
{
    &text[place + 1..]
}

/// Splits the text at an index.
pub(crate) fn cut(text: &str, place: usize) -> (&str, &str)
    requires { IsCharBoundary text.now place }
    ensures front { result.0.now ≡ take place text.now }
    ensures back { result.1.now ≡ drop place text.now }
{
    (&text[..place], &text[place..])
}

/// Returns how many bytes of space a text begins with.
pub(crate) fn space_len(text: &str) -> usize
    ensures { result ≡ prefix_len is_space text.now }
{
    text.as_bytes()
        .iter()
        .take_while(|byte| is_space(**byte))
        .count()
}

/// Returns how many bytes from the front on may continue a name.
pub(crate) fn name_len(text: &str) -> usize
    ensures { result ≡ prefix_len continues_name text.now }
{
    text.as_bytes()
        .iter()
        .take_while(|byte| continues_name(**byte))
        .count()
}

/// Returns how many digits a text begins with.
pub(crate) fn digit_len(text: &str) -> usize
    ensures { result ≡ prefix_len is_digit text.now }
{
    text.as_bytes()
        .iter()
        .take_while(|byte| is_digit(**byte))
        .count()
}

/// Returns how many bytes from the front on mean themselves in any literal, whatever follows.
pub(crate) fn plain_len(text: &str) -> usize
    ensures { result ≡ prefix_len is_plain text.now }
{
    text.as_bytes()
        .iter()
        .take_while(|byte| is_plain(**byte))
        .count()
}

fn is_space(byte: u8) -> bool
    ensures { result ≡ is_space byte }
{
    byte == b' ' || byte == b'\t' || byte == b'\n' || byte == b'\r'
}

pub(crate) fn is_digit(byte: u8) -> bool
    ensures { result ≡ is_digit byte }
{
    b'0' <= byte && byte <= b'9'
}

pub(crate) fn starts_name(byte: u8) -> bool
    ensures { result ≡ starts_name byte }
{
    byte == b'_' || byte.is_ascii_alphabetic()
}

fn continues_name(byte: u8) -> bool
    ensures { result ≡ continues_name byte }
{
    starts_name(byte) || byte.is_ascii_digit() || byte == b'-'
}

fn is_plain(byte: u8) -> bool
    ensures { result ≡ is_plain byte }
{
    !(byte == b'$' || byte == b'%' || byte == b'"' || byte == b'\\' || byte == b'\n')
}
