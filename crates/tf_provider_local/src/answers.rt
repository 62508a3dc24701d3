//! The answers to requests.

ghost use Rattle.std.specs.Prelude.{◌≡◌, IfOk, string_bytes};
ghost use Rattle.base64.specs.Engines.{standard};
ghost use Rattle.base64.specs.GeneralPurpose.{encode_of};
ghost use Rattle.hex.specs.Hex.{encode_lower};
ghost use Rattle.md5.specs.Md5.{md5};
ghost use Rattle.sha1.specs.Sha1.{sha1};
ghost use Rattle.sha2.specs.Sha256.{sha256};
ghost use Rattle.tf_provider_local.specs.Answers.{answer_to, described, message_of, with_text};
ghost use Rattle.tf_provider_local.specs.Wanted.{wanted_view};
ghost use Rattle.tf_provider_protocol.specs.Meaning.{answered, failed};
ghost use Rattle.tf_value_data.specs.Tree.{tree_of};

use crate::wanted::{LocalFault, Wanted};
use base64::engine::general_purpose::STANDARD;
use md5::{Digest as _, Md5};
use sha1::Sha1;
use sha2::{Digest as _, Sha256};
use std::alloc::{AllocError, Global};
use tf_provider_protocol::Reply;
use tf_value_data::{Value, copy};

/// Returns the answer after the wanted file is written or removed.
pub fn answer(alloc: Global, wanted: &Wanted<'_>) -> Result<Reply, AllocError>
    ensures { IfOk result (λ reply. answered reply ≡ Some (answer_to (wanted_view wanted.now))) }
{
    match wanted {
        Wanted::File(file) => Ok(Reply::Object(described(alloc, file.content, file.object)?)),
        Wanted::NoFile(_) => Ok(Reply::Gone),
    }
}

/// Returns the answer to a request that can't be fulfilled: a failure without an object.
pub fn refusal(alloc: Global, fault: LocalFault) -> Result<Reply, AllocError>
    ensures { IfOk result (λ reply. answered reply ≡ Some (failed (message_of fault) None)) }
{
    let message = match fault {
        LocalFault::UnknownType => "unknown type",
        LocalFault::Malformed => "malformed request",
        LocalFault::BadPermission => "file_permission is not three octal digits",
    };
    Ok(Reply::Failed {
        message: String::from_str(alloc, message)?,
        object: None,
    })
}

/// Returns an object with the digests of its file's content.
fn described(alloc: Global, content: &str, object: &Value) -> Result<Value, AllocError>
    ensures { IfOk result (λ v. tree_of v ≡ described content.now (tree_of object.now)) }
{
    let value = copy(object)?;
    let value = with_text(alloc, value, "id", sha1_of(alloc, content)?)?;
    let value = with_text(alloc, value, "content_sha1", sha1_of(alloc, content)?)?;
    let value = with_text(alloc, value, "content_md5", md5_of(alloc, content)?)?;
    let value = with_text(alloc, value, "content_sha256", sha256_of(alloc, content)?)?;
    let base64 = STANDARD.encode(alloc, &Sha256::digest(content))?;
    with_text(alloc, value, "content_base64sha256", base64)
}

/// Returns the SHA-1 of a text, in hexadecimal.
pub fn sha1_of(alloc: Global, text: &str) -> Result<String, AllocError>
    ensures { IfOk result (λ t. string_bytes t ≡ encode_lower (sha1 text.now)) }
{
    hex::encode(alloc, Sha1::digest(text.as_bytes()))
}

/// Returns the MD5 of a text, in hexadecimal.
fn md5_of(alloc: Global, text: &str) -> Result<String, AllocError>
    ensures { IfOk result (λ t. string_bytes t ≡ encode_lower (md5 text.now)) }
{
    hex::encode(alloc, Md5::digest(text))
}

/// Returns the SHA-256 of a text, in hexadecimal.
fn sha256_of(alloc: Global, text: &str) -> Result<String, AllocError>
    ensures { IfOk result (λ t. string_bytes t ≡ encode_lower (sha256 text.now)) }
{
    hex::encode(alloc, Sha256::digest(text))
}

/// Puts a text at a key of a map. Returns any other value unchanged.
fn with_text(alloc: Global, value: Value, key: &str, text: String) -> Result<Value, AllocError>
    ensures { IfOk result (λ v. tree_of v ≡ with_text key.now (string_bytes text) (tree_of value)) }
{
    match value {
        Value::Map(mut entries) => {
            let key = String::from_str(alloc, key)?;
            drop(entries.insert(key, Value::Text(text))?);
            Ok(Value::Map(entries))
        }
        other => Ok(other),
    }
}
