ghost use Rattle.std.specs.Prelude.{⊤, ◌≡◌, [], ◌∷◌, codes};
ghost use Rattle.call_types.specs.Flags.{has};

use bitflags::{Flag, Flags, bitflag_items};

/// How a file is opened (page of open): one bit for each flag, as in a request frame.
#[derive(Clone, Copy, PartialEq, Eq, Debug)]
pub struct OpenFlags(u8);

bitflag_items! {
    impl OpenFlags: u8 {
        const READ = 1;
        const WRITE = 2;
        const CREAT = 4;
        const EXCL = 8;
        const TRUNC = 16;
        const APPEND = 32;
        const NONBLOCK = 64;
    }
}

impl Flags for OpenFlags {
    type Bits = u8;

    ghost exact = { ⊤ };

    ghost table = { (codes "READ", 1) ∷ (codes "WRITE", 2) ∷ (codes "CREAT", 4) ∷ (codes "EXCL", 8) ∷ (codes "TRUNC", 16) ∷ (codes "APPEND", 32) ∷ (codes "NONBLOCK", 64) ∷ [] };

    ghost set_of = { λ flags. flags.0 };

    fn flags<'a>() -> &'a [Flag<OpenFlags>] {
        OpenFlags::FLAGS
    }

    fn bits(&self) -> u8 {
        self.0
    }

    fn from_bits_retain(bits: u8) -> OpenFlags {
        OpenFlags(bits)
    }
}

impl OpenFlags {
    /// Whether each bit of `flag` is set.
    pub fn has(self, flag: OpenFlags) -> bool
        ensures { result ≡ has self flag.0 }
    {
        self.contains(flag)
    }
}
