//! The environment of envdir, and the title of readproctitle.
//!
//! [`apply`] changes an [`Env`] by the files of a folder (<https://cr.yp.to/daemontools/envdir.html>). A file `NAME`
//! with the first line `VALUE` sets the variable `NAME` to `VALUE`. A file with 0 bytes removes its variable. [`Title`]
//! is a text of fixed length that shows the last bytes of a log (<https://cr.yp.to/daemontools/readproctitle.html>).
//! [`laws`] states facts about both.
#![tactic(auto)]

mod env;
mod fault;
mod file;
mod folder;
pub mod laws;
mod title;
mod value;

pub use env::{Env, Variable};
pub use fault::EnvFault;
pub use file::EnvFile;
pub use folder::{apply, first_fault};
pub use title::{Title, TitleFault};
