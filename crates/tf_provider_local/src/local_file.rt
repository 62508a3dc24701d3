//! The provider: its schema, and the law that it keeps.

ghost use Rattle.std.specs.Prelude.{◌≡◌, IfOk};
ghost use Rattle.tf_provider_local.specs.Answers.{file_meaning};
ghost use Rattle.tf_provider_local.specs.Schema.{file_schema};

use crate::answers::{answer, refusal};
use crate::attributes::file_schema;
use crate::disk::{Ending, fulfil};
use crate::wanted::{Wanted, wants};
use std::alloc::{AllocError, Global};
use std::io;
use std::rt::Files;
use tf_provider_protocol::{Provider, Reply, Request, Schema};

/// The provider `local_file`, for the files of a runtime.
#[derive(Drop)]
pub struct LocalFile<R: Files + Eprint + Drop> {
    alloc: Global,
    rt: R,
    schema: Schema,
    reserved: Vec<String>,
    ghost schema_is: { schema ≡ file_schema },
}

impl<R: Files + Eprint + Drop> LocalFile<R> {
    /// Returns the provider with its schema. Fails only if memory runs out.
    pub fn new(alloc: Global, rt: R) -> Result<LocalFile<R>, AllocError>
        ensures { IfOk result (λ provider. ⟦<LocalFile<R> as Provider>⟧.meaning provider ≡ file_meaning) }
    {
        LocalFile::with_reserved(alloc, rt, Vec::new(alloc))
    }

    /// Like [`LocalFile::new`], but never writes a file of one of the reserved names, which are those of the program's own files.
    pub fn with_reserved(
        alloc: Global,
        rt: R,
        reserved: Vec<String>,
    ) -> Result<LocalFile<R>, AllocError>
        ensures { IfOk result (λ provider. ⟦<LocalFile<R> as Provider>⟧.meaning provider ≡ file_meaning) }
    {
        let schema = file_schema(alloc)?;
        Ok(LocalFile {
            alloc,
            rt,
            schema,
            reserved,
        })
    }

    /// Writes or removes the wanted file, and returns whether that succeeded. Prints on standard error which file of which
    /// resource the disk refused and why, which name is reserved, and which file a destroy kept.
    fn is_fulfilled(&self, request: &Request, wanted: &Wanted<'_>) -> bool {
        let address = request.address.as_str();
        match fulfil(self.alloc, &self.rt, &self.reserved, address, wanted) {
            Ok(Ending::Wanted) => true,
            Ok(Ending::Kept) => {
                let _ = print_kept(&self.rt, address, wanted);
                true
            }
            Ok(Ending::Reserved) => {
                let _ = print_reserved(&self.rt, address, wanted);
                false
            }
            Err(error) => {
                let _ = print_error(&self.rt, address, wanted, &error);
                false
            }
        }
    }
}

impl<R: Files + Eprint + Drop> Provider for LocalFile<R> {
    ghost use Rattle.tf_provider_local.specs.Answers.{file_meaning};

    ghost meaning = { λ _. file_meaning };

    fn schema(&self, type_name: &str) -> Option<&Schema> {
        if type_name == "local_file" {
            Some(&self.schema)
        } else {
            None
        }
    }

    fn apply(&self, request: &Request) -> Reply {
        let reply = match wants(request) {
            Ok(wanted) => match answer(self.alloc, &wanted) {
                Ok(reply) if self.is_fulfilled(request, &wanted) => Ok(reply),
                _ => Err(AllocError),
            },
            Err(fault) => refusal(self.alloc, fault),
        };
        match reply {
            Ok(reply) => reply,
            Err(AllocError) => Reply::NoMemory,
        }
    }
}

/// Prints on standard error that the file of the resource at the address can't be written or removed, and why.
fn print_error<R: Eprint>(
    rt: &R,
    address: &str,
    wanted: &Wanted<'_>,
    error: &io::Error,
) -> io::Result<()> {
    match wanted {
        Wanted::File(file) => eprintln!(rt;
            "error: {address}: cannot write {:?}: {error}",
            file.name
        ),
        Wanted::NoFile(file) => eprintln!(rt;
            "error: {address}: cannot remove {:?}: {error}",
            file.name
        ),
    }
}

/// Prints on standard error that the file of the resource at the address isn't written, since it is a file of the program.
fn print_reserved<R: Eprint>(rt: &R, address: &str, wanted: &Wanted<'_>) -> io::Result<()> {
    match wanted {
        Wanted::File(file) => eprintln!(rt;
            "error: {address}: cannot write {:?}: it is a file of this apply",
            file.name
        ),
        Wanted::NoFile(_) => Ok(()),
    }
}

/// Prints on standard error that a destroy left the file at its name, since that isn't the file of the object at the address.
fn print_kept<R: Eprint>(rt: &R, address: &str, wanted: &Wanted<'_>) -> io::Result<()> {
    match wanted {
        Wanted::File(_) => Ok(()),
        Wanted::NoFile(file) => eprintln!(rt;
            "warning: kept {:?}: the destroyed object of {address} had another content",
            file.name
        ),
    }
}
