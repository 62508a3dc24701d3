//! What a request wants at a name: a file, or no file.

ghost use Rattle.std.specs.Prelude.{◌≡◌, option_map, MatchResult};
ghost use Rattle.tf_provider_local.specs.Wanted.{content_in, file_in, gone_in, mode_in, text_in, wanted, wanted_view};
ghost use Rattle.tf_provider_protocol.specs.Meaning.{asked};
ghost use Rattle.tf_value_data.specs.Tree.{tree_of, part_at};

use crate::mode::mode_of;
use tf_provider_protocol::{Op, Request};
use tf_value_data::Value;

/// The default permissions: everyone may do everything, less what the process takes away (umask).
const ALL: u32 = 0o777;

/// Whether a request wants a file of this name, and which.
#[derive(Drop)]
pub enum Wanted<'a> {
    /// A file.
    File(WantedFile<'a>),
    /// No file.
    NoFile(UnwantedFile<'a>),
}

/// A wanted file.
#[derive(Drop)]
pub struct WantedFile<'a> {
    /// Its name.
    pub name: &'a str,
    /// Its content.
    pub content: &'a str,
    /// Its permissions, as the bits of a file's mode.
    pub mode: u32,
    /// The requested object.
    pub object: &'a Value,
}

/// The file of an object that is destroyed.
#[derive(Drop)]
pub struct UnwantedFile<'a> {
    /// Its name.
    pub name: &'a str,
    /// The SHA-256 of what was written to it, in hexadecimal, if its object has it.
    pub sha256: Option<&'a str>,
}

/// Why a request can't be fulfilled.
#[derive(Clone, Copy, Debug, PartialEq, Eq)]
pub enum LocalFault {
    /// The type is not `local_file`.
    UnknownType,
    /// There is no object, or it has no name or a content that is no text.
    Malformed,
    /// The permissions aren't three octal digits.
    BadPermission,
}

/// Returns what a request wants. A destroy wants no file at the name of the prior object, any other request a file.
pub fn wants(request: &Request) -> Result<Wanted<'_>, LocalFault>
    ensures { MatchResult result
        (λ found. wanted (asked request.now) ≡ Ok (wanted_view found))
        (λ fault. wanted (asked request.now) ≡ Err fault) }
{
    if request.type_name.as_str() != "local_file" {
        return Err(LocalFault::UnknownType);
    }
    if request.op == Op::Destroy {
        match &request.prior {
            Some(prior) => gone_in(prior),
            None => Err(LocalFault::Malformed),
        }
    } else {
        match &request.object {
            Some(object) => file_in(object),
            None => Err(LocalFault::Malformed),
        }
    }
}

/// Returns that no file is wanted at an object's name.
fn gone_in(prior: &Value) -> Result<Wanted<'_>, LocalFault>
    ensures { MatchResult result
        (λ found. gone_in (tree_of prior.now) ≡ Ok (wanted_view found))
        (λ fault. gone_in (tree_of prior.now) ≡ Err fault) }
{
    match text_at(prior, "filename") {
        Some(name) => Ok(Wanted::NoFile(UnwantedFile {
            name,
            sha256: text_at(prior, "content_sha256"),
        })),
        None => Err(LocalFault::Malformed),
    }
}

/// Returns the file that an object describes.
fn file_in(object: &Value) -> Result<Wanted<'_>, LocalFault>
    ensures { MatchResult result
        (λ found. file_in (tree_of object.now) ≡ Ok (wanted_view found))
        (λ fault. file_in (tree_of object.now) ≡ Err fault) }
{
    let Some(name) = text_at(object, "filename") else {
        return Err(LocalFault::Malformed);
    };
    let Some(content) = content_in(object.get("content")) else {
        return Err(LocalFault::Malformed);
    };
    let Some(mode) = mode_in(object.get("file_permission")) else {
        return Err(LocalFault::BadPermission);
    };
    Ok(Wanted::File(WantedFile {
        name,
        content,
        mode,
        object,
    }))
}

/// Returns the text at a key, if there is one.
fn text_at<'a>(value: &'a Value, key: &str) -> Option<&'a str>
    ensures { option_map (λ t. t.now) result ≡ text_in (part_at key.now (tree_of value.now)) }
{
    match value.get(key) {
        Some(Value::Text(text)) => Some(text.as_str()),
        _ => None,
    }
}

/// Returns the content that a value gives: a text itself, and for null the empty text.
fn content_in(value: Option<&Value>) -> Option<&str>
    ensures { option_map (λ t. t.now) result ≡ content_in (option_map (λ v. tree_of v.now) value.entry) }
{
    match value {
        Some(Value::Text(text)) => Some(text.as_str()),
        Some(Value::Null) => Some(""),
        _ => None,
    }
}

/// Returns the permissions that a value gives: those that a text names, and for null all.
fn mode_in(value: Option<&Value>) -> Option<u32>
    ensures { result ≡ mode_in (option_map (λ v. tree_of v.now) value.entry) }
{
    match value {
        Some(Value::Text(text)) => mode_of(text.as_str()),
        Some(Value::Null) => Some(ALL),
        _ => None,
    }
}
