//! What holds of writes. Each function does nothing; its contract is the law.

ghost use Rattle.std.specs.Prelude.{ℕ, ◌+◌, List, Option, drop};
ghost use Rattle.logged_streams.specs.Streams.{SomeWritten, WritesFront};

/// Where a front of bytes was written, and then a front of the rest, a longer front was written.
pub fn fronts_grow()
    ensures { (old mid new : Option (List ℕ)) (bytes : List ℕ) (count more : ℕ) → WritesFront old mid bytes count → SomeWritten mid new (drop count bytes) more → WritesFront old new bytes (count + more) }
{}
