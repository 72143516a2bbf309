ghost use Rattle.std.specs.Prelude.{◌≡◌};

use std::alloc::AllocError;
use std::marker::Model;

/// The number of an entry, and the key under which it is looked for first. Contracts see the number alone: a key is
/// never believed without a look, so a wrong one costs time and changes no answer.
#[derive(Drop)]
pub struct Ticket {
    number: usize,
    key: usize,
}

impl Model for Ticket {
    ghost use Rattle.std.specs.Prelude.{ℕ};
    ghost use Rattle.std.specs.Coded.{coded_ℕ};

    ghost Value = { ℕ };

    ghost coded = { coded_ℕ };

    ghost view = { λ ticket. ticket.number };
}

impl Ticket {
    /// A number, and the key to look under first.
    #[inline(always)]
    pub fn new(number: usize, key: usize) -> Self
        ensures { result ≡ number }
    {
        Ticket { number, key }
    }

    /// The number.
    #[inline(always)]
    pub fn number(&self) -> usize
        ensures { result ≡ self.now }
    {
        self.number
    }

    /// The key to look under first. No contract speaks of it.
    #[inline(always)]
    pub fn key(&self) -> usize {
        self.key
    }

    /// The same ticket once more.
    #[inline(always)]
    pub fn again(&self) -> Self
        ensures { result ≡ self.now }
    {
        Ticket {
            number: self.number,
            key: self.key,
        }
    }
}

impl Clone for Ticket {
    ghost is_clone = { λ old new. new ≡ old };

    fn clone(&self) -> Result<Self, AllocError> {
        Ok(self.again())
    }
}
