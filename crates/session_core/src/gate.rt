//! What is asked before an answer is written.

pub use logged_streams::gate::{Gate, OpenGate};
