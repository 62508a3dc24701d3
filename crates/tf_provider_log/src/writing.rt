//! Writing a log's lines.

ghost use Rattle.std.specs.Prelude.{◌≡◌, ◌≤◌, ◌&&◌, true, IfOk, IfErr, OnOk, string_bytes};
ghost use Rattle.serde_json.specs.Data.{depth};
ghost use Rattle.serde_json.specs.Read.{max_depth};
ghost use Rattle.serde_json.specs.View.{view};
ghost use Rattle.tf_provider_log.specs.LogEntry.{begun, replied};
ghost use Rattle.tf_provider_log.specs.Fit.{request_fits, answer_fits, IsUnwritten};
ghost use Rattle.tf_provider_log.specs.Line.{IsEntryLine, IsHeaderLine};
ghost use Rattle.tf_provider_log.specs.Text.{IsSimple, IsTreeLine};
ghost use Rattle.tf_provider_protocol.specs.Meaning.{asked, answered};

use crate::entry::Header;
use crate::fault::Unwritten;
use crate::fit::{both_fit, request_fits};
use crate::forms::{answered_form, begun_form, header_form};
use serde_json::Value as Json;
use std::alloc::{AllocError, Global};
use tf_provider_protocol::{Reply, Request};

/// Builds the first line of a log, with its newline. Fails only if memory runs out.
#[tactic(auto, using(crate::proofs::ReadBack::header_is_line))]
pub fn header_line(alloc: Global, header: &Header) -> Result<String, AllocError>
    ensures { IfOk result (λ text. IsHeaderLine header.now (string_bytes text)) }
{
    let form = header_form(alloc, header)?;
    let line = line_of(alloc, &form)?;
    Ok(line)
}

/// Builds the line that says that a request is begun, with its newline. Fails with `Unfit` exactly if a value of the
/// request holds a set or is more than 100 deep, and otherwise only if memory runs out.
pub fn begun_line(alloc: Global, request: &Request) -> Result<String, Unwritten>
    ensures ok { IfOk result (λ text. IsEntryLine (begun (asked request.now)) (string_bytes text)) }
    ensures fits { OnOk result (request_fits (asked request.now) ≡ true) }
    ensures err { IfErr result (IsUnwritten (request_fits (asked request.now))) }
{
    if !request_fits(request) {
        return Err(Unwritten::Unfit);
    }
    let form = begun_form(alloc, request)?;
    let line = line_of(alloc, &form)?;
    Ok(line)
}

/// Builds the line that says the answer to a request, with its newline. Fails with `Unfit` exactly if a value of the
/// request or of the reply holds a set or is more than 100 deep, and otherwise only if memory runs out.
pub fn answered_line(alloc: Global, request: &Request, reply: &Reply) -> Result<String, Unwritten>
    ensures ok { IfOk result (λ text. IsEntryLine (replied (asked request.now) (answered reply.now)) (string_bytes text)) }
    ensures fits { OnOk result ((request_fits (asked request.now) && answer_fits (answered reply.now)) ≡ true) }
    ensures err { IfErr result (IsUnwritten (request_fits (asked request.now) && answer_fits (answered reply.now))) }
{
    if !both_fit(request, reply) {
        return Err(Unwritten::Unfit);
    }
    let form = answered_form(alloc, request, reply)?;
    let line = line_of(alloc, &form)?;
    Ok(line)
}

// Builds the line of a JSON tree, with its newline.
fn line_of(alloc: Global, tree: &Json) -> Result<String, AllocError>
    ensures { IfOk result (λ text. IsSimple (view tree.now) → depth (view tree.now) ≤ max_depth → IsTreeLine (view tree.now) (string_bytes text)) }
{
    let mut text = tree.to_string(alloc)?;
    text.push('\n')?;
    Ok(text)
}
