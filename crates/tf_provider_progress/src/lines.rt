//! The progress lines of a call.

ghost use Rattle.std.specs.List.{list_all};
ghost use Rattle.std.specs.Prelude.{◌≡◌, ◌++◌, IfOk, OnOk, option_map, string_bytes};
ghost use Rattle.tf_provider_protocol.specs.Meaning.{answered, asked};
ghost use Rattle.tf_value_data.specs.Tree.{tree_of};
ghost use Rattle.tf_provider_progress.specs.Lines.{after, begin_word, begun_line, duration, end_word, ended_line, ended_well, id_of, id_suffix, in_brackets, in_still, is_plain, is_printable, name, object_after, still_head, still_id, still_id_of, still_line, still_word};

use std::alloc::{AllocError, Global};
use tf_provider_protocol::{Op, Reply, Request};
use tf_value_data::Value;

/// The longest id that is shown, in bytes.
const LONGEST: usize = 80;

/// Returns the line of a call that begins: `sim_net.a: Creating...`. If there is a prior object, the line has its id,
/// as in `sim_net.a: Destroying... [id=net-x]`.
pub fn begun_line(alloc: Global, request: &Request) -> Result<String, AllocError>
    ensures { IfOk result (λ line. string_bytes line ≡ begun_line (asked request.now)) }
{
    let mut line = String::new(alloc);
    push_name(&mut line, request)?;
    line.push_str(begin_word(request.op))?;
    push_id(&mut line, &request.prior)?;
    line.push('\n')?;
    Ok(line)
}

/// Returns the line of a call that ended: `sim_net.a: Creation complete after 0s [id=net-x]`, with the id of the
/// object in the reply, and with the seconds if the clock could be read. If the reply isn't what was asked for, the
/// line is `sim_net.a: Creation errored after 0s`.
pub fn ended_line(
    alloc: Global,
    request: &Request,
    reply: &Reply,
    seconds: Option<u64>,
) -> Result<String, AllocError>
    ensures { IfOk result (λ line. string_bytes line ≡ ended_line (asked request.now) (answered reply.now) seconds) }
{
    let mut line = String::new(alloc);
    push_name(&mut line, request)?;
    line.push_str(end_word(request.op))?;
    let is_well = ended_well(request.op, reply);
    line.push_str(if is_well { " complete" } else { " errored" })?;
    push_after(&mut line, seconds)?;
    push_object_id(&mut line, is_well, reply)?;
    line.push('\n')?;
    Ok(line)
}

/// Returns the beginning of the line of a call that is still running: `sim_net.a: Still creating... [`. If there is a
/// prior object, its id follows, as in `sim_net.a: Still destroying... [id=net-x, `.
pub(crate) fn still_head(alloc: Global, request: &Request) -> Result<String, AllocError>
    ensures { IfOk result (λ line. string_bytes line ≡ still_head (asked request.now)) }
{
    let mut line = String::new(alloc);
    push_name(&mut line, request)?;
    line.push_str(still_word(request.op))?;
    push_still_id(&mut line, &request.prior)?;
    Ok(line)
}

/// Appends the line of a call that is still running after these seconds: `sim_net.a: Still creating... [10s elapsed]`.
pub(crate) fn push_still(line: &mut String, head: &str, seconds: u64) -> Result<(), AllocError>
    ensures { OnOk result (string_bytes line.new ≡ string_bytes line.old ++ still_line head.now seconds) }
{
    line.push_str(head)?;
    push_duration(line, seconds)?;
    line.push_str(" elapsed]\n")
}

/// Appends the address, and the key of a deposed object.
pub(crate) fn push_name(line: &mut String, request: &Request) -> Result<(), AllocError>
    ensures { OnOk result (string_bytes line.new ≡ string_bytes line.old ++ name (asked request.now)) }
{
    line.push_str(request.address.as_str())?;
    match &request.deposed {
        Some(key) => write!(line, " (deposed {key})"),
        None => Ok(()),
    }
}

fn begin_word(op: Op) -> &'static str
    ensures { result.now ≡ begin_word op }
{
    match op {
        Op::Create => ": Creating...",
        Op::Update => ": Modifying...",
        Op::Destroy => ": Destroying...",
    }
}

fn end_word(op: Op) -> &'static str
    ensures { result.now ≡ end_word op }
{
    match op {
        Op::Create => ": Creation",
        Op::Update => ": Modifications",
        Op::Destroy => ": Destruction",
    }
}

fn still_word(op: Op) -> &'static str
    ensures { result.now ≡ still_word op }
{
    match op {
        Op::Create => ": Still creating... [",
        Op::Update => ": Still modifying... [",
        Op::Destroy => ": Still destroying... [",
    }
}

/// Returns whether a reply is what was asked for: an object for a create or an update, and no object for a destroy.
pub fn ended_well(op: Op, reply: &Reply) -> bool
    ensures { result ≡ ended_well op (answered reply.now) }
{
    match (reply, op) {
        (Reply::Object(_), Op::Create | Op::Update) | (Reply::Gone, Op::Destroy) => true,
        _ => false,
    }
}

/// Appends how long a call took, if that is known.
fn push_after(line: &mut String, seconds: Option<u64>) -> Result<(), AllocError>
    ensures { OnOk result (string_bytes line.new ≡ string_bytes line.old ++ after seconds) }
{
    match seconds {
        Some(seconds) => {
            line.push_str(" after ")?;
            push_duration(line, seconds)
        }
        None => Ok(()),
    }
}

/// Appends seconds, as in `5s`, `1m5s` and `2h1m5s`.
pub(crate) fn push_duration(line: &mut String, seconds: u64) -> Result<(), AllocError>
    ensures { OnOk result (string_bytes line.new ≡ string_bytes line.old ++ duration seconds) }
{
    let hours = seconds / 3600;
    let minutes = seconds / 60 % 60;
    let rest = seconds % 60;
    if seconds < 60 {
        write!(line, "{rest}s")
    } else if seconds < 3600 {
        write!(line, "{minutes}m{rest}s")
    } else {
        write!(line, "{hours}h{minutes}m{rest}s")
    }
}

/// Appends the id of the object in the reply, if the call ended well.
fn push_object_id(line: &mut String, is_well: bool, reply: &Reply) -> Result<(), AllocError>
    ensures { OnOk result (string_bytes line.new ≡ string_bytes line.old ++ id_suffix (object_after is_well (answered reply.now))) }
{
    match reply {
        Reply::Object(object) if is_well => push_id_of(line, object),
        _ => Ok(()),
    }
}

/// Appends the id of an object, if there is one.
fn push_id(line: &mut String, object: &Option<Value>) -> Result<(), AllocError>
    ensures { OnOk result (string_bytes line.new ≡ string_bytes line.old ++ id_suffix (option_map tree_of object.now)) }
{
    match object {
        Some(object) => push_id_of(line, object),
        None => Ok(()),
    }
}

fn push_id_of(line: &mut String, object: &Value) -> Result<(), AllocError>
    ensures { OnOk result (string_bytes line.new ≡ string_bytes line.old ++ id_of (tree_of object.now)) }
{
    match object.get("id") {
        Some(Value::Text(id)) => push_plain(line, id.as_str()),
        _ => Ok(()),
    }
}

/// Appends a text in brackets, if a terminal shows it unchanged.
fn push_plain(line: &mut String, id: &str) -> Result<(), AllocError>
    ensures { OnOk result (string_bytes line.new ≡ string_bytes line.old ++ in_brackets id.now) }
{
    if is_plain(id) {
        write!(line, " [id={id}]")
    } else {
        Ok(())
    }
}

/// Appends the id of an object and a comma, if there is one.
fn push_still_id(line: &mut String, object: &Option<Value>) -> Result<(), AllocError>
    ensures { OnOk result (string_bytes line.new ≡ string_bytes line.old ++ still_id (option_map tree_of object.now)) }
{
    match object {
        Some(object) => push_still_id_of(line, object),
        None => Ok(()),
    }
}

fn push_still_id_of(line: &mut String, object: &Value) -> Result<(), AllocError>
    ensures { OnOk result (string_bytes line.new ≡ string_bytes line.old ++ still_id_of (tree_of object.now)) }
{
    match object.get("id") {
        Some(Value::Text(id)) => push_still_plain(line, id.as_str()),
        _ => Ok(()),
    }
}

/// Appends an id and a comma, if a terminal shows the id unchanged.
fn push_still_plain(line: &mut String, id: &str) -> Result<(), AllocError>
    ensures { OnOk result (string_bytes line.new ≡ string_bytes line.old ++ in_still id.now) }
{
    if is_plain(id) {
        write!(line, "id={id}, ")
    } else {
        Ok(())
    }
}

/// Returns whether a text is short and has only printable ASCII characters.
fn is_plain(text: &str) -> bool
    ensures { result ≡ is_plain text.now }
{
    text.len() <= LONGEST && are_printable(text.as_bytes())
}

fn are_printable(bytes: &[u8]) -> bool
    ensures { result ≡ list_all is_printable bytes.now }
{
    for byte in bytes {
        if !is_printable(*byte) {
            return false;
        }
    }
    true
}

fn is_printable(byte: u8) -> bool
    ensures { result ≡ is_printable byte }
{
    byte >= 32 && byte < 127
}
