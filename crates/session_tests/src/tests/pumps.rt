//! How far a pump goes ahead of whoever takes its requests.

ghost use Rattle.std.specs.Prelude.{◌≡◌};

use call_types::call::Call;
use call_types::request::Request;
use frame_codec::encode::encode_request;
use frame_codec::fault::EncodeFault;
use request_pump::bell::{Bell, RingCount};
use request_pump::pump::pump;
use request_pump::pumped::{PumpEnd, Pumped};
use rtrb::{Consumer, RingBuffer};
use session_core::memory::{Manner, MemoryReader};
use std::alloc::Global;
use std::test::Fail;

/// How many requests the ring has room for.
const ROOM: usize = 16;

/// How many requests are taken at once at most: more than a ring has room for.
const TAKEN_MOST: u32 = 100;

/// The frames of a join and of so many forks.
fn join_and_forks(alloc: Global, forks: u32) -> Result<Vec<u8>, EncodeFault> {
    let mut bytes = Vec::new(alloc);
    encode_request(&mut bytes, &Request::Join)?;
    for _ in 0..forks {
        encode_request(&mut bytes, &Request::Call(Call::Fork))?;
    }
    Ok(bytes)
}

/// The end of a ring at which requests are taken, and how many were.
#[derive(Drop)]
struct Taken {
    consumer: Consumer<Request>,
    count: usize,
}

impl Taken {
    /// Whether a request is the one that comes next: the first of all is a join, and each other one a fork.
    fn is_next(&self, request: &Request) -> bool {
        match request {
            Request::Join => self.count == 0,
            Request::Call(Call::Fork) => self.count > 0,
            _ => false,
        }
    }

    /// Takes what is there, up to a request that is not the next one. That one is not counted.
    fn take(&mut self) {
        for _ in 0..TAKEN_MOST {
            let request = match self.consumer.pop() {
                Ok(request) => request,
                Err(_) => return,
            };
            if !self.is_next(&request) {
                return;
            }
            self.count = self.count.saturating_add(1);
        }
    }
}

/// Who answers a bell: nobody, or somebody who takes the requests.
#[derive(Drop)]
struct Listener {
    is_awake: bool,
    taken: Taken,
    rings: RingCount,
}

impl Listener {
    /// Takes what is there, if it is awake.
    fn hear(&mut self)
        ensures { self.new.rings ≡ self.old.rings }
    {
        if self.is_awake {
            self.taken.take();
        }
    }
}

impl Bell for Listener {
    ghost rings = { λ listener. listener.rings };

    fn make_room(&mut self) {
        self.hear();
        self.rings.add_room();
    }

    fn end_of_piece(&mut self) {
        self.hear();
        self.rings.add_piece();
    }
}

/// What a pump has come to.
#[derive(Clone, Copy, Debug, PartialEq, Eq)]
struct Outcome {
    end: PumpEnd,
    /// How many of its requests came out of its ring in their order.
    taken: usize,
    /// How many requests the ring gave back, and how many times in a row at the end.
    back: (u64, u32),
    /// How often room was asked for, and how often the end of a piece was rung.
    rings: (u64, u64),
}

/// What a pump of a join and so many forks comes to, in reads of at most so many bytes.
fn pumped(alloc: Global, forks: u32, most: usize, is_awake: bool) -> Result<Outcome, EncodeFault> {
    let manner = Manner {
        most,
        fails_at: None,
        interruptions: 0,
        flush_fails_at: None,
    };
    let reader = MemoryReader::new(join_and_forks(alloc, forks)?, manner);
    let (producer, consumer) = RingBuffer::new(alloc, ROOM)?;
    let bell = Listener {
        is_awake,
        taken: Taken { consumer, count: 0 },
        rings: RingCount::new(),
    };
    let Pumped {
        end,
        pushes,
        bell,
        ..
    } = pump(alloc, reader, producer, bell);
    let Listener {
        mut taken,
        rings,
        ..
    } = bell;
    taken.take();
    Ok(Outcome {
        end,
        taken: taken.count,
        back: (pushes.requests(), pushes.in_a_row()),
        rings: (rings.rooms(), rings.pieces()),
    })
}

#[test]
fn pump_goes_ahead_by_as_many_as_the_ring_has_room_for(rt: HostRuntime) -> Result<(), Fail> {
    assert_eq!(rt;
        pumped(rt.alloc(), 15, 65_536, false)?,
        Outcome {
            end: PumpEnd::Closed,
            taken: 16,
            back: (0, 0),
            rings: (0, 1)
        }
    );
    assert_eq!(rt;
        pumped(rt.alloc(), 16, 65_536, false)?,
        Outcome {
            end: PumpEnd::Ahead,
            taken: 16,
            back: (1, 2),
            rings: (1, 0)
        }
    );
    Ok(())
}

#[test]
fn pump_goes_on_while_its_requests_are_taken(rt: HostRuntime) -> Result<(), Fail> {
    // a frame has five bytes
    assert_eq!(rt;
        pumped(rt.alloc(), 40, 5, true)?,
        Outcome {
            end: PumpEnd::Closed,
            taken: 41,
            back: (0, 0),
            rings: (0, 41)
        }
    );
    assert_eq!(rt;
        pumped(rt.alloc(), 40, 65_536, true)?,
        Outcome {
            end: PumpEnd::Closed,
            taken: 41,
            back: (2, 0),
            rings: (2, 1)
        }
    );
    Ok(())
}
