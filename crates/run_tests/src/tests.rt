//! Tests of sessions that go on side by side, and of closed runs, by their seats.
mod closing;
mod overlap;
