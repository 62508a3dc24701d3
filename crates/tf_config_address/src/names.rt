ghost use Rattle.std.specs.List.{list_all};
ghost use Rattle.std.specs.Prelude.{◌≡◌};
ghost use Rattle.tf_config_address.specs.Name.{is_name, starts_name, continues_name};

/// Checks whether a text is a name: an ASCII letter or `_`, followed by ASCII letters, digits, `_` and `-`. So `web-1`
/// is one name, and the empty text is not a name.
pub fn is_name(text: &str) -> bool
    ensures { result ≡ is_name text.now }
{
    match text.as_bytes() {
        [] => false,
        [first, others @ ..] => starts_name(*first) && all_continue(others),
    }
}

fn starts_name(byte: u8) -> bool
    ensures { result ≡ starts_name byte }
{
    byte == b'_' || byte.is_ascii_alphabetic()
}

fn continues_name(byte: u8) -> bool
    ensures { result ≡ continues_name byte }
{
    starts_name(byte) || byte.is_ascii_digit() || byte == b'-'
}

fn all_continue(bytes: &[u8]) -> bool
    ensures { result ≡ list_all continues_name bytes.now }
{
    bytes.iter().all(|byte| continues_name(*byte))
}
