//! The sources of the variables' values.

ghost use Rattle.std.specs.Prelude.{◌≡◌, ◌++◌, IfOk, OnOk, map, string_bytes};
ghost use Rattle.std.specs.Vec.Iter.{into_iter_items};
ghost use Rattle.clap.specs.Words.{found_of, rows_of};
ghost use Rattle.tf_cli_options.specs.Reads.{assignments_given, assignments_in, files_given, files_in};

use crate::texts::texts_of;
use crate::words::VariableSource;
use clap::ArgMatches;
use std::alloc::{AllocError, Global};
use std::vec::IntoIter;

/// Returns the files of `--vars` and the assignments of `--var`, in their order on the command line.
pub(crate) fn sources_in(
    alloc: Global,
    matches: &ArgMatches<'_>,
) -> Result<Vec<VariableSource>, AllocError>
    ensures files { IfOk result (λ sources. files_in sources.items ≡ files_given (rows_of (found_of matches.now))) }
    ensures assignments { IfOk result (λ sources. assignments_in sources.items ≡ assignments_given (rows_of (found_of matches.now))) }
{
    let files = texts_of(alloc, matches, "vars")?;
    let assignments = texts_of(alloc, matches, "var")?;
    let file_places = matches.indices_of("vars").unwrap_or(&[]);
    let assignment_places = matches.indices_of("var").unwrap_or(&[]);
    in_order(alloc, files, file_places, assignments, assignment_places)
}

/// Returns files and assignments as sources, in the order of their places. Both are in the order of their own places already.
fn in_order(
    alloc: Global,
    files: Vec<String>,
    file_places: &[usize],
    assignments: Vec<String>,
    assignment_places: &[usize],
) -> Result<Vec<VariableSource>, AllocError>
    ensures files { IfOk result (λ sources. files_in sources.items ≡ map (λ t. string_bytes t) files.items) }
    ensures assignments { IfOk result (λ sources. assignments_in sources.items ≡ map (λ t. string_bytes t) assignments.items) }
{
    let mut sources = Vec::new(alloc);
    let mut rest = assignments.into_iter();
    let mut places = file_places.iter();
    let mut taken = 0;
    for file in files {
        let before = count_before(assignment_places, places.next());
        push_assignments(&mut sources, &mut rest, before.saturating_sub(taken))?;
        taken = before.max(taken);
        sources.push(VariableSource::File(file))?;
    }
    for assignment in rest {
        sources.push(VariableSource::Assignment(assignment))?;
    }
    Ok(sources)
}

/// Returns how many of the places are before another one.
fn count_before(places: &[usize], limit: Option<&usize>) -> usize {
    match limit {
        Some(limit) => places.partition_point(|place| *place < *limit),
        None => 0,
    }
}

/// Adds the given number of assignments to sources, or as many as are left.
fn push_assignments(
    sources: &mut Vec<VariableSource>,
    rest: &mut IntoIter<String>,
    count: usize,
) -> Result<(), AllocError>
    ensures files { OnOk result (files_in sources.new.items ≡ files_in sources.old.items) }
    ensures assignments { OnOk result (assignments_in sources.new.items ++ map (λ t. string_bytes t) (into_iter_items rest.new) ≡ assignments_in sources.old.items ++ map (λ t. string_bytes t) (into_iter_items rest.old)) }
{
    for _number in 0..count {
        let Some(assignment) = rest.next() else {
            return Ok(());
        };
        sources.push(VariableSource::Assignment(assignment))?;
    }
    Ok(())
}
