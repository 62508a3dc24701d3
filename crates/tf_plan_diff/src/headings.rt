//! The first lines of a change.

ghost use Rattle.std.specs.Prelude.{◌≡◌, ◌++◌, ◌∷◌, [], OnOk, IfOk, string_bytes, option_map};
ghost use Rattle.tf_config_address.specs.ObjectId.{instance_key_of};
ghost use Rattle.tf_config_address.specs.ResourceAddr.{addr_of};
ghost use Rattle.tf_plan_changes.specs.Views.{change_view, kind_view};
ghost use Rattle.tf_plan_data.specs.Address.{address_text};
ghost use Rattle.tf_plan_diff.specs.Diff.{address_words, heading, is_tainted, taint_note, taint_words};
ghost use Rattle.tf_plan_diff.specs.Safe.{line};
ghost use Rattle.tf_plan_diff.specs.Symbols.{ansi_symbol, plain_symbol, symbol};

use crate::safe::push_line;
use std::alloc::{AllocError, Global};
use tf_plan_changes::{Change, ChangeKind};
use tf_plan_data::address_text;

/// The colours of a text.
#[derive(Clone, Copy, Debug, PartialEq, Eq)]
pub enum Colours {
    /// None.
    Plain,
    /// The symbols are green (`+`), yellow (`~`) and red (`-`), by ANSI escape sequences.
    Ansi,
}

/// Shows the lines above a change's attributes: why it is made, if the object is tainted, and the symbol and the
/// address.
pub(crate) fn show_heading(
    alloc: Global,
    text: &mut String,
    change: &Change<'_>,
    colours: Colours,
) -> Result<(), AllocError>
    ensures { OnOk result (string_bytes text.new ≡ string_bytes text.old ++ heading colours (change_view change.now)) }
{
    let address = address_text(alloc, change.addr, change.key)?;
    show_note(alloc, text, change.kind, address.as_str())?;
    text.push_str(symbol(colours, change.kind))?;
    show_address(alloc, text, address.as_str(), change.deposed)
}

fn show_note(
    alloc: Global,
    text: &mut String,
    kind: ChangeKind<'_>,
    address: &str,
) -> Result<(), AllocError>
    ensures { OnOk result (string_bytes text.new ≡ string_bytes text.old ++ taint_note (kind_view kind.entry) address.now) }
{
    if !is_tainted(kind) {
        return Ok(());
    }
    let words = taint_words(alloc, address)?;
    push_line(text, words.as_str())
}

/// Returns the reason for the replace of a tainted object.
fn taint_words(alloc: Global, address: &str) -> Result<String, AllocError>
    ensures { IfOk result (λ words. string_bytes words ≡ taint_words address.now) }
{
    let mut words = String::new(alloc);
    write!(words, "# {address} is tainted, so it is replaced")?;
    Ok(words)
}

/// Checks whether an object is replaced because it is tainted.
fn is_tainted(kind: ChangeKind<'_>) -> bool
    ensures { result ≡ is_tainted (kind_view kind.entry) }
{
    match kind {
        ChangeKind::Replace(names) | ChangeKind::LateReplace(names) => names.is_empty(),
        ChangeKind::Create | ChangeKind::Update | ChangeKind::Destroy => false,
    }
}

fn show_address(
    alloc: Global,
    text: &mut String,
    address: &str,
    deposed: Option<&String>,
) -> Result<(), AllocError>
    ensures { OnOk result (string_bytes text.new ≡ string_bytes text.old ++ line (address_words address.now (option_map (λ s. string_bytes s.now) deposed.entry))) }
{
    let words = address_words(alloc, address, deposed)?;
    push_line(text, words.as_str())
}

/// Returns the text after the symbol: the address, and the key of the object if it is deposed.
fn address_words(
    alloc: Global,
    address: &str,
    deposed: Option<&String>,
) -> Result<String, AllocError>
    ensures { IfOk result (λ words. string_bytes words ≡ address_words address.now (option_map (λ s. string_bytes s.now) deposed.entry)) }
{
    let mut words = String::new(alloc);
    push_words(&mut words, address, deposed)?;
    Ok(words)
}

fn push_words(words: &mut String, address: &str, deposed: Option<&String>) -> Result<(), AllocError>
    ensures { OnOk result (string_bytes words.new ≡ string_bytes words.old ++ address_words address.now (option_map (λ s. string_bytes s.now) deposed.entry)) }
{
    match deposed {
        None => write!(words, " {address}"),
        Some(key) => write!(words, " {address} (deposed {key})"),
    }
}

fn symbol(colours: Colours, kind: ChangeKind<'_>) -> &'static str
    ensures { result.now ≡ symbol colours (kind_view kind.entry) }
{
    match colours {
        Colours::Plain => plain_symbol(kind),
        Colours::Ansi => ansi_symbol(kind),
    }
}

fn plain_symbol(kind: ChangeKind<'_>) -> &'static str
    ensures { result.now ≡ plain_symbol (kind_view kind.entry) }
{
    match kind {
        ChangeKind::Create => "+",
        ChangeKind::Update => "~",
        ChangeKind::Replace(_) => "-/+",
        ChangeKind::LateReplace(_) => "+/-",
        ChangeKind::Destroy => "-",
    }
}

fn ansi_symbol(kind: ChangeKind<'_>) -> &'static str
    ensures { result.now ≡ ansi_symbol (kind_view kind.entry) }
{
    match kind {
        ChangeKind::Create => "\x1b[32m+\x1b[0m",
        ChangeKind::Update => "\x1b[33m~\x1b[0m",
        ChangeKind::Replace(_) => "\x1b[31m-\x1b[0m/\x1b[32m+\x1b[0m",
        ChangeKind::LateReplace(_) => "\x1b[32m+\x1b[0m/\x1b[31m-\x1b[0m",
        ChangeKind::Destroy => "\x1b[31m-\x1b[0m",
    }
}
