//! The thread of a session that reads: bytes in, requests into a ring. It rings for whoever takes them out, and waits only where its bell does.
#![tactic(auto)]

pub mod bell;
pub mod inlet;
pub mod pump;
pub mod pumped;
