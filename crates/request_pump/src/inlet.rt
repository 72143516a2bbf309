//! The end of a ring into which requests are pushed, and what the ring gave back.

ghost use Rattle.std.specs.Prelude.{◌≡◌, ◌<◌, [], ◌∷◌, ◌++◌, OnOk, OnErr, IfErr};
ghost use Rattle.rtrb.specs.Ring.{sent, producer_capacity, SameProducer};
ghost use Rattle.request_pump.specs.Bells.{rung_for_piece};
ghost use Rattle.request_pump.specs.Pushes.{none_back, went_in, given_back};
ghost use Rattle.request_pump.specs.Proved.Pushing.{HandsBack, HandsOneBack, AsksAsGivenBack};

use crate::bell::Bell;
use call_types::request::Request;
use rtrb::{Producer, PushError};
use std::marker::Model;

/// What a ring gave back. Only an inlet that pushes counts in it.
#[derive(Debug, Drop)]
pub struct PushLog {
    requests: u64,
    in_a_row: u32,
}

impl Model for PushLog {
    ghost use Rattle.request_pump.specs.Pushes.{PushState};

    ghost Value = { PushState };

    ghost view = { λ log. record { requests = log.requests; in_a_row = log.in_a_row } };
}

impl PushLog {
    /// Nothing was pushed yet.
    pub fn new() -> Self
        ensures { result ≡ none_back }
    {
        PushLog {
            requests: 0,
            in_a_row: 0,
        }
    }

    /// How many requests were given back, each once or more often.
    pub fn requests(&self) -> u64
        ensures { result ≡ self.now.requests }
    {
        self.requests
    }

    /// How many times in a row the request that comes next was given back, up to now.
    pub fn in_a_row(&self) -> u32
        ensures { result ≡ self.now.in_a_row }
    {
        self.in_a_row
    }

    /// A request went in.
    fn note_in(&mut self)
        ensures { self.new ≡ went_in self.old }
    {
        self.in_a_row = 0;
    }

    /// A request was given back.
    fn note_back(&mut self)
        requires { self.old.in_a_row < 2 }
        ensures { self.new ≡ given_back self.old }
    {
        if self.in_a_row == 0 {
            self.requests = self.requests.saturating_add(1);
        }
        self.in_a_row += 1;
    }
}

/// The end of a ring that pushes requests, what it gave back, and what is rung for the thread at the other end.
#[derive(Drop)]
pub(crate) struct Inlet<B: Bell> {
    producer: Producer<Request>,
    pushes: PushLog,
    bell: B,
}

impl<B: Bell> Inlet<B> {
    /// An inlet that has pushed nothing.
    pub(crate) fn new(producer: Producer<Request>, bell: B) -> Self
        ensures producer { result.producer ≡ producer }
        ensures pushes { result.pushes ≡ none_back }
        ensures bell { result.bell ≡ bell }
    {
        Inlet {
            producer,
            pushes: PushLog::new(),
            bell,
        }
    }

    /// The end of the ring, what it gave back, and the bell.
    pub(crate) fn into_parts(self) -> (Producer<Request>, PushLog, B)
        ensures producer { result.0 ≡ self.producer }
        ensures pushes { result.1 ≡ self.pushes }
        ensures bell { result.2 ≡ self.bell }
    {
        (self.producer, self.pushes, self.bell)
    }

    /// Rings that a piece is decoded, and its requests are pushed.
    pub(crate) fn end_of_piece(&mut self)
        ensures producer { self.new.producer ≡ self.old.producer }
        ensures pushes { self.new.pushes ≡ self.old.pushes }
        ensures rings { B.rings self.new.bell ≡ rung_for_piece (B.rings self.old.bell) }
    {
        self.bell.end_of_piece();
    }

    /// Pushes a request, or hands it back where the ring is full.
    #[tactic(auto, using(crate::proofs::PushLemmas::full_ring))]
    fn push_once(&mut self, request: Request) -> Result<(), Request>
        requires { self.old.pushes.in_a_row < 2 }
        ensures ring { SameProducer self.old.producer self.new.producer }
        ensures ok { OnOk result (sent self.new.producer ≡ sent self.old.producer ++ request ∷ []) }
        ensures full { IfErr result (λ back. HandsOneBack (producer_capacity self.new.producer) (sent self.old.producer) (sent self.new.producer) request back) }
        ensures went_in { OnOk result (self.new.pushes ≡ went_in self.old.pushes) }
        ensures given_back { OnErr result (self.new.pushes ≡ given_back self.old.pushes) }
        ensures bell { self.new.bell ≡ self.old.bell }
    {
        match self.producer.push(request) {
            Ok(()) => {
                self.pushes.note_in();
                Ok(())
            }
            Err(PushError::Full(back)) => {
                self.pushes.note_back();
                Err(back)
            }
        }
    }

    /// The same. Where the ring is full it asks for room, and tries once more.
    pub(crate) fn push(&mut self, request: Request) -> Result<(), Request>
        requires { self.old.pushes.in_a_row ≡ 0 }
        ensures ring { SameProducer self.old.producer self.new.producer }
        ensures ok { OnOk result (sent self.new.producer ≡ sent self.old.producer ++ request ∷ []) }
        ensures full { IfErr result (λ back. HandsOneBack (producer_capacity self.new.producer) (sent self.old.producer) (sent self.new.producer) request back) }
        ensures in_a_row { (OnOk result (self.new.pushes.in_a_row ≡ 0)) × (OnErr result (self.new.pushes.in_a_row ≡ 2)) }
        ensures asks { AsksAsGivenBack self.old.pushes self.new.pushes (B.rings self.old.bell) (B.rings self.new.bell) }
    {
        match self.push_once(request) {
            Ok(()) => Ok(()),
            Err(back) => {
                self.bell.make_room();
                self.push_once(back)
            }
        }
    }

    /// Pushes requests in their order, up to the first for which there is no room. That one is handed back.
    pub(crate) fn push_all(&mut self, requests: Vec<Request>) -> Result<(), Request>
        requires { self.old.pushes.in_a_row ≡ 0 }
        ensures ring { SameProducer self.old.producer self.new.producer }
        ensures ok { OnOk result (sent self.new.producer ≡ sent self.old.producer ++ requests.items) }
        ensures full { IfErr result (λ back. HandsBack (producer_capacity self.new.producer) (sent self.old.producer) (sent self.new.producer) requests.items back) }
        ensures in_a_row { (OnOk result (self.new.pushes.in_a_row ≡ 0)) × (OnErr result (self.new.pushes.in_a_row ≡ 2)) }
        ensures asks { AsksAsGivenBack self.old.pushes self.new.pushes (B.rings self.old.bell) (B.rings self.new.bell) }
    {
        for request in requests {
            match self.push(request) {
                Ok(()) => {}
                Err(back) => return Err(back),
            }
        }
        Ok(())
    }
}
