//! Permissions, named by a text.

ghost use Rattle.std.specs.Prelude.{◌≡◌};
ghost use Rattle.tf_provider_local.specs.Mode.{is_octal, mode_by, mode_of};

/// Returns the bits of the permissions that a text names: three octal digits, with or without a 0 before them.
pub fn mode_of(text: &str) -> Option<u32>
    ensures { result ≡ mode_of text.now }
{
    match text.as_bytes() {
        [owner, group, others] => mode_by(*owner, *group, *others),
        [b'0', owner, group, others] => mode_by(*owner, *group, *others),
        _ => None,
    }
}

/// Returns the bits of the permissions that three digits name: the owner's, the group's and the others'.
fn mode_by(owner: u8, group: u8, others: u8) -> Option<u32>
    ensures { result ≡ mode_by owner group others }
{
    if is_octal(owner) && is_octal(group) && is_octal(others) {
        Some(u32::from(owner - b'0') * 64 + u32::from(group - b'0') * 8 + u32::from(others - b'0'))
    } else {
        None
    }
}

/// Returns whether a byte is an octal digit.
fn is_octal(byte: u8) -> bool
    ensures { result ≡ is_octal byte }
{
    byte >= b'0' && byte <= b'7'
}
