//! Room in vectors, and zeros at their ends.
ghost use Rattle.std.specs.Prelude.{◌≡◌, ◌+◌, ◌≤◌, ◌++◌, replicate, vec_len, vec_capacity, OnOk};

use posix_model::contents::pad;
use std::alloc::AllocError;

/// Makes room for `len` items in all, of at most `most`. Once half of `most` is exceeded, it makes room for all.
#[cold]
#[inline(never)]
pub(crate) fn grow<T>(items: &mut Vec<T>, len: usize, most: usize) -> Result<(), AllocError>
    ensures items { items.new.items ≡ items.old.items }
    ensures room { OnOk result (len ≤ vec_capacity items.new) }
    ensures kept { vec_capacity items.old ≤ vec_capacity items.new }
{
    let here = items.len();
    if len <= here {
        return Ok(());
    }
    if len <= most / 2 {
        items.reserve(len - here)
    } else {
        items.reserve_exact(most.max(len) - here)
    }
}

/// Appends so many zeros.
pub(crate) fn append_zeros(out: &mut Vec<u8>, count: usize)
    requires { vec_len out.old + count ≤ vec_capacity out.old }
    ensures items { out.new.items ≡ out.old.items ++ replicate count 0 }
    ensures len { vec_len out.new ≡ vec_len out.old + count }
    ensures capacity { vec_capacity out.old ≤ vec_capacity out.new }
{
    if count > 0 {
        let end = out.len() + count;
        pad(out, end);
    }
}
