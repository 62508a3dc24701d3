//! The work of `plan`.

use crate::approving::colours;
use crate::explaining::{end_early, explain_missing, explains, lacks_configuration, sources, warn};
use crate::recovering::preview;
use std::io;
use std::io::Write;
use std::process::ExitCode;
use tf_cli_files::{Loaded, Place, ProgramInput, load};
use tf_cli_options::Options;
use tf_cli_program::print_plan;
use tf_explain::Explained;
use tf_provider::Provider;
use tf_provider_local::LocalFile;
use tf_provider_sim::Sim;
use tf_session::read_types;

/// Prints the plan from the state file, or from the state that an unfinished apply left, and returns the program's status.
///
/// # Errors
///
/// Fails only if memory runs out.
pub fn plan<O: Write, E: Write>(
    rt: &HostRuntime,
    mut options: Options,
    out: &mut O,
    err: &mut E,
) -> io::Result<ExitCode> {
    if let Err(status) = check_forms(&options, err) {
        return Ok(status);
    }
    options.explain = explains(rt, &options);
    let is_explained = options.explain;
    let types = match read_types(rt, &options.providers, err) {
        Ok(types) => types,
        Err(ending) => return Ok(end_early(ending, is_explained, err)),
    };
    let is_missing = lacks_configuration(rt, &options);
    let loaded = match load(rt, options, err) {
        Ok(loaded) => loaded,
        Err(ending) if is_missing => return Ok(explain_missing(ending, err).status),
        Err(ending) => return Ok(end_early(ending, is_explained, err)),
    };
    let Loaded {
        mut given,
        place,
        unfinished,
    } = loaded;
    if let Err(status) = preview(rt, &types, &place, &mut given, unfinished, err)? {
        return Ok(status);
    }
    let alloc = rt.alloc();
    let mut providers: Vec<Box<dyn Provider + Sync>> = Vec::new(alloc);
    providers.push(Box::new(alloc, types)?)?;
    providers.push(Box::new(alloc, Sim::new(alloc)?)?)?;
    providers.push(Box::new(alloc, LocalFile::new(alloc, *rt)?)?)?;
    Ok(print_given(rt, &place, &given, &providers, out, err))
}

/// Checks that the options ask for one form of the plan. If they ask for two, prints that, and returns the program's status, 1.
pub(crate) fn check_forms<E: Write>(options: &Options, err: &mut E) -> Result<(), ExitCode> {
    let forms = [
        (options.graph.is_some(), "--graph"),
        (options.json, "--json"),
        (options.diff, "--diff"),
    ];
    let mut first = None;
    for (is_given, name) in forms {
        if !is_given {
            continue;
        }
        if let Some(first) = first {
            let _ = writeln!(err, "error: {name} cannot be used with {first}");
            return Err(ExitCode::FAILURE);
        }
        first = Some(name);
    }
    Ok(())
}

/// Prints the warnings, and the plan with these providers in the form that the options ask for.
fn print_given<O: Write, E: Write>(
    rt: &HostRuntime,
    place: &Place,
    given: &ProgramInput,
    providers: &[Box<dyn Provider + Sync>],
    out: &mut O,
    err: &mut E,
) -> ExitCode {
    let files = sources(given, place, providers);
    warn(rt, given, files, err);
    let mut err = Explained::new(rt.alloc(), err, given.options.explain, files);
    let status = print_plan(rt.alloc(), given, colours(rt), providers, out, &mut err);
    ExitCode::from(status)
}
