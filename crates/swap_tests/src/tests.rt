//! A file for each crate. Of the hostile ports: the ports, the texts and the frames.

mod drill;
mod frames;
mod player;
mod ports;
mod run;
mod show;
mod texts;
