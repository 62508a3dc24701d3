//! The schemas of the providers outside the program.

use std::alloc::{AllocError, Global};
use std::io::Write;
use std::process::ExitCode;
use std::{fs, io};
use tf_cli_files::{Ending, print_no_memory, print_unread};
use tf_provider_remote::{RemoteType, RemoteTypes, SchemasFault, read_schemas};

/// Reads the schemas of the providers in these folders, in their order. If a file can't be read, or isn't of schemas,
/// prints that and returns the program's end.
pub fn read_types<E: Write>(
    rt: &HostRuntime,
    folders: &[String],
    err: &mut E,
) -> Result<RemoteTypes, Ending> {
    match types_in(rt, folders, err) {
        Ok(Ok(types)) => Ok(types),
        Ok(Err(ending)) => Err(ending),
        Err(AllocError) => Err(Ending::from(print_no_memory(err))),
    }
}

/// Reads the schemas in each folder.
fn types_in<E: Write>(
    rt: &HostRuntime,
    folders: &[String],
    err: &mut E,
) -> Result<Result<RemoteTypes, Ending>, AllocError> {
    let alloc = rt.alloc();
    let mut types = Vec::new(alloc);
    for (provider, folder) in folders.iter().enumerate() {
        let name = file_in(alloc, folder.as_str(), "schemas.json")?;
        match read_file(rt, provider, name.as_str(), err) {
            Ok(own) => add_all(&mut types, own)?,
            Err(ending) => return Ok(Err(ending)),
        }
    }
    Ok(Ok(RemoteTypes::new(alloc, types)?))
}

/// Reads a file of schemas.
fn read_file<E: Write>(
    rt: &HostRuntime,
    provider: usize,
    name: &str,
    err: &mut E,
) -> Result<Vec<RemoteType>, Ending> {
    let text = match fs::read(rt, name) {
        Ok(text) => text,
        Err(error) => return Err(unread(name, error, err)),
    };
    match read_schemas(rt.alloc(), provider, text.as_slice()) {
        Ok(types) => Ok(types),
        Err(SchemasFault::OutOfMemory) => Err(Ending::from(print_no_memory(err))),
        Err(fault) => {
            let _ = writeln!(err, "error: {name}: {fault}");
            Err(Ending::from(ExitCode::FAILURE))
        }
    }
}

/// Adds types at the end.
fn add_all(types: &mut Vec<RemoteType>, own: Vec<RemoteType>) -> Result<(), AllocError> {
    for known in own {
        types.push(known)?;
    }
    Ok(())
}

/// Returns the name of a file in a folder.
pub(crate) fn file_in(alloc: Global, folder: &str, file: &str) -> Result<String, AllocError> {
    let mut name = String::from_str(alloc, folder)?;
    name.push('/')?;
    name.push_str(file)?;
    Ok(name)
}

/// Prints that a file can't be read, and returns the program's end, with the error of the system.
pub(crate) fn unread<E: Write>(name: &str, error: io::Error, err: &mut E) -> Ending {
    Ending {
        status: print_unread(name, err),
        cause: Some(error),
    }
}
