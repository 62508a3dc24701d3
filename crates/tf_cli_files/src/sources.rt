//! Reading and merging the sources of variables' values.

ghost use Rattle.std.specs.Fn.{FnReturnsAt};
ghost use Rattle.std.specs.Prelude.{◌≡◌, ◌∷◌, ◌++◌, [], IfErr, IfOk, Ok, OnOk, option_map};
ghost use Rattle.tf_cli_files.specs.Program.{IsFailure, MayFailReading};
ghost use Rattle.tf_cli_files.specs.Sources.{EachRead, ReadsSource};
ghost use Rattle.tf_cli_variables.specs.Choice.{AreVariables};

use crate::ending::Ending;
use crate::messages::{print_assignment, print_no_memory};
use crate::reading::read_file;
use std::alloc::{AllocError, Global};
use std::io;
use std::io::Write;
use std::process::ExitCode;
use tf_cli_options::VariableSource;
use tf_cli_variables::{MergeFault, Source, Variables, variables_of};

/// What a text that is merged of several sources is called.
const MERGED: &str = "the merged variables";

/// Reads sources of variables' values, in their order. If one can't be read, prints that.
pub(crate) fn read_sources<F: Fn(&str) -> io::Result<Vec<u8>>, E: Write>(
    alloc: Global,
    names: &[VariableSource],
    read: &F,
    err: &mut E,
) -> Result<Vec<Source>, Ending>
    requires { F.IsAlwaysCallable read.now }
    ensures status { IfErr result (MayFailReading (FnReturnsAt F.Fn read.now)) }
    ensures read { IfOk result (λ sources. EachRead (FnReturnsAt F.Fn read.now) names.now sources.items) }
{
    let mut sources = Vec::new(alloc);
    for name in names {
        let source = read_source(name, read, err)?;
        if add(&mut sources, source).is_err() {
            return Err(Ending::from(print_no_memory(err)));
        }
    }
    Ok(sources)
}

/// Adds a source at the end.
fn add(sources: &mut Vec<Source>, source: Source) -> Result<(), AllocError>
    ensures { OnOk result (sources.new.items ≡ sources.old.items ++ source ∷ []) }
{
    sources.push(source)?;
    Ok(())
}

/// Reads a source of variables' values. If it can't be read, prints that.
fn read_source<F: Fn(&str) -> io::Result<Vec<u8>>, E: Write>(
    name: &VariableSource,
    read: &F,
    err: &mut E,
) -> Result<Source, Ending>
    requires { F.IsAlwaysCallable read.now }
    ensures status { IfErr result (MayFailReading (FnReturnsAt F.Fn read.now)) }
    ensures read { IfOk result (ReadsSource (FnReturnsAt F.Fn read.now) name.now) }
{
    match name {
        VariableSource::File(file) => {
            let bytes = read_file(file.as_str(), read, err)?;
            Ok(Source::File(bytes))
        }
        VariableSource::Assignment(text) => match text.clone() {
            Ok(text) => Ok(Source::Assignment(text)),
            Err(_) => Err(Ending::from(print_no_memory(err))),
        },
    }
}

/// Returns the text of the variables' values that sources give together. If an assignment gives no value, prints that.
pub(crate) fn merged<E: Write>(
    alloc: Global,
    config: &[u8],
    names: &[VariableSource],
    sources: Vec<Source>,
    err: &mut E,
) -> Result<Variables, ExitCode>
    ensures status { IfErr result IsFailure }
    ensures text { IfOk result (λ variables. AreVariables config.now sources.items (option_map (λ bytes. bytes.items) variables.bytes)) }
{
    match variables_of(alloc, config, sources) {
        Ok(variables) => Ok(variables),
        Err(MergeFault::BadSource(position, cause)) => match names.get(position) {
            Some(VariableSource::Assignment(text)) => {
                Err(print_assignment(text.as_str(), cause, err))
            }
            _ => Err(print_no_memory(err)),
        },
        Err(_) => Err(print_no_memory(err)),
    }
}

/// Returns what the text of the variables' values is called, if there is one.
pub(crate) fn named<E: Write>(
    alloc: Global,
    names: &[VariableSource],
    variables: &Variables,
    err: &mut E,
) -> Result<Option<String>, ExitCode>
    ensures { IfErr result IsFailure }
{
    if variables.bytes.is_none() {
        return Ok(None);
    }
    match String::from_str(alloc, name_at(names, variables.position)) {
        Ok(name) => Ok(Some(name)),
        Err(_) => Err(print_no_memory(err)),
    }
}

/// Returns the name of the file at a position. Without a position the text is merged.
fn name_at(names: &[VariableSource], position: Option<usize>) -> &str {
    match names.get(position.unwrap_or(names.len())) {
        Some(VariableSource::File(name)) => name.as_str(),
        _ => MERGED,
    }
}
