//! Tests of connections that are lost, of pumps, of starters, and of requests that are answered in one thread.
mod answers;
mod lost;
mod pumps;
mod starters;
