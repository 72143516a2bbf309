//! What is rung for whoever takes requests out of a ring.

ghost use Rattle.std.specs.Prelude.{◌≡◌};
ghost use Rattle.request_pump.specs.Bells.{asked_for_room, rung_for_piece};

use std::marker::Model;

/// What is rung as requests are pushed. It counts how often it was.
pub trait Bell: Drop {
    ghost use Rattle.request_pump.specs.Bells.{BellState};

    // how often it was rung
    ghost rings: { Self → BellState };

    /// The ring is full: whoever answers may make room at once. No answer has to be written for that.
    fn make_room(&mut self)
        ensures { rings self.new ≡ asked_for_room (rings self.old) };

    /// A piece of the stream is decoded, and its requests are in the ring; those before its first fault, where it has one.
    fn end_of_piece(&mut self)
        ensures { rings self.new ≡ rung_for_piece (rings self.old) };
}

/// How often a bell was rung, up to the greatest number that can be told. Who rings a bell for others counts in it.
#[derive(Debug, Drop)]
pub struct RingCount {
    rooms: u64,
    pieces: u64,
}

impl Model for RingCount {
    ghost use Rattle.request_pump.specs.Bells.{BellState};

    ghost Value = { BellState };

    ghost view = { λ s. record { rooms = s.rooms; pieces = s.pieces } };
}

impl RingCount {
    /// Not rung yet.
    pub fn new() -> Self
        ensures { result ≡ record { rooms = 0; pieces = 0 } }
    {
        RingCount {
            rooms: 0,
            pieces: 0,
        }
    }

    /// Counts that room was asked for.
    pub fn add_room(&mut self)
        ensures { self.new ≡ asked_for_room self.old }
    {
        self.rooms = self.rooms.saturating_add(1);
    }

    /// Counts that the end of a piece was rung.
    pub fn add_piece(&mut self)
        ensures { self.new ≡ rung_for_piece self.old }
    {
        self.pieces = self.pieces.saturating_add(1);
    }

    /// How often room was asked for.
    pub fn rooms(&self) -> u64
        ensures { result ≡ self.now.rooms }
    {
        self.rooms
    }

    /// How often the end of a piece was rung.
    pub fn pieces(&self) -> u64
        ensures { result ≡ self.now.pieces }
    {
        self.pieces
    }
}
