//! The files of a state: the file that its name leads to, and the files next to it.

use std::alloc::{AllocError, Global};
use std::path::Path;
use std::rt::Files;
use std::{fs, io};
use tf_cli_options::{Options, VariableSource};

/// The least number of links in a row that is refused, after Linux's limit of 40.
const MOST_LINKS: usize = 40;

/// The names of the files of a state. If its own name is a link, those of the file that the link leads to.
#[derive(Drop)]
pub struct Place {
    /// The file of the state.
    pub state: String,
    /// The new file that replaces it.
    pub new: String,
    /// The previous state.
    pub backup: String,
    /// The new file that replaces the backup.
    pub new_backup: String,
    /// The log of an apply.
    pub log: String,
}

impl Place {
    /// Returns the names of the files of the state with this name.
    ///
    /// # Errors
    ///
    /// Fails if the name is empty, if 40 or more links follow one another, if a link's target isn't UTF-8, or if memory
    /// runs out.
    pub fn of<R: Files + AllocGlobal>(rt: &R, file: &str) -> io::Result<Place> {
        if file.is_empty() {
            return Err(io::Error::from(io::ErrorKind::InvalidInput));
        }
        let alloc = rt.alloc();
        let state = end_of_links(rt, file)?;
        Ok(Place {
            new: format!(in alloc; "{state}.new")?,
            backup: format!(in alloc; "{state}.backup")?,
            new_backup: format!(in alloc; "{state}.backup.new")?,
            log: format!(in alloc; "{state}.log")?,
            state,
        })
    }

    /// Returns the names of these files, and of the configuration and the variables files that the options name. No provider may
    /// write to them.
    ///
    /// # Errors
    ///
    /// Only if memory runs out.
    pub fn own_files(&self, alloc: Global, options: &Options) -> Result<Vec<String>, AllocError> {
        let mut names = Vec::new(alloc);
        for name in [
            &self.state,
            &self.new,
            &self.backup,
            &self.new_backup,
            &self.log,
            &options.config,
        ] {
            names.push(String::from_str(alloc, name.as_str())?)?;
        }
        for source in &options.variables {
            if let VariableSource::File(name) = source {
                names.push(String::from_str(alloc, name.as_str())?)?;
            }
        }
        Ok(names)
    }

    /// Returns the folder of these files.
    pub fn folder(&self) -> &str {
        match Path::new(self.state.as_str()).parent() {
            Some(folder) => match folder.to_str() {
                Some("") | None => ".",
                Some(folder) => folder,
            },
            None => ".",
        }
    }
}

/// Returns the name that links lead to from this one, or the name itself if it isn't a link.
fn end_of_links<R: Files + AllocGlobal>(rt: &R, file: &str) -> io::Result<String> {
    let mut name = String::from_str(rt.alloc(), file)?;
    for _ in 0..MOST_LINKS {
        match next_link(rt, name.as_str())? {
            Some(next) => name = next,
            None => return Ok(name),
        }
    }
    Err(io::Error::from(io::ErrorKind::Other))
}

/// Returns the name that a link leads to, relative to the link's folder; `None` if the name is no link.
fn next_link<R: Files + AllocGlobal>(rt: &R, name: &str) -> io::Result<Option<String>> {
    let Ok(target) = fs::read_link(rt, name) else {
        return Ok(None);
    };
    let Some(target) = target.to_str() else {
        return Err(io::Error::from(io::ErrorKind::InvalidData));
    };
    match Path::new(name).parent() {
        Some(folder) => {
            let joined = folder.join(rt.alloc(), target)?;
            match joined.to_str() {
                Some(joined) => Ok(Some(String::from_str(rt.alloc(), joined)?)),
                None => Err(io::Error::from(io::ErrorKind::InvalidData)),
            }
        }
        None => Ok(None),
    }
}
