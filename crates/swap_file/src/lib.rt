//! A disk in a file, read and written by a thread.
#![tactic(auto)]

mod file_disk;
mod flights;
mod worker;

pub use file_disk::{FileDisk, NotOpened, make_file};
pub use worker::Done;
