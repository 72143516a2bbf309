//! The ring that takes the records of a run to the thread that writes its trace. A record is put into it without waiting and
//! without memory, and leaves it at its reading end, which is given away once.
#![tactic(auto)]

pub mod trace_ring;
