//! A file for each crate.

mod file;
mod host;
mod live;
mod net;
mod serve;
mod shared;
