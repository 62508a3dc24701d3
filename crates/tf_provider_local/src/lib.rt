//! The provider `local_file`, whose objects are files, modelled on HashiCorp's provider `local`.
//!
//! It has one type, of schema version 0.
//!
//! | Attribute | Kind | What it is |
//! |---|---|---|
//! | `filename` | String, required, force-new | The file's name, relative to the current directory. |
//! | `content` | String, optional, force-new | The file's content; null is an empty file. |
//! | `file_permission` | String, optional, force-new | Three octal digits, with or without a 0 before them: who may do what with the file, less what the process takes away (umask). Null is `0777`. |
//! | `id`, `content_sha1` | String, computed | The SHA-1 of the content, in hexadecimal. |
//! | `content_md5`, `content_sha256` | String, computed | Its MD5 and its SHA-256, in hexadecimal. |
//! | `content_base64sha256` | String, computed | Its SHA-256, in Base64. |
//!
//! A create writes the file, with the folders that it needs, or replaces an existing file. A destroy removes the file if its
//! SHA-256 is the object's, and succeeds if there is no file. Any other file stays, and standard error names it. If the disk
//! refuses, or if the name is reserved for a file of the program, the answer is `NoMemory`, and standard error reports which
//! file it was and why. So an answer depends only on the
//! request, apart from `NoMemory`.
#![tactic(auto)]

mod answers;
mod attributes;
mod disk;
mod folders;
mod local_file;
mod mode;
mod own;
mod reserved;
mod wanted;

pub use local_file::LocalFile;
