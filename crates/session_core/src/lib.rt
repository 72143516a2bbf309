//! One session: requests as bytes in, answers as bytes out, over any reader, writer and kernel.
#![tactic(auto)]

pub mod answer;
mod asking;
mod closing;
pub mod connection;
mod desk;
pub mod end;
pub mod gate;
pub mod laws;
pub mod memory;
pub mod note;
mod output;
pub mod serve;
mod stage;
pub mod starter;
mod threads;
pub mod told;
mod turns;
