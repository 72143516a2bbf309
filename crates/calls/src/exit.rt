ghost use Rattle.std.specs.Prelude.{◌≡◌};
ghost use Rattle.posix_model.specs.Exit.{exit, close_run};

use call_types::outcome::Reply;
use posix_model::change::{Decided, ProcessEdit, acts};

/// What an exit comes to: the process is gone. It takes no memory.
pub fn decide_exit(process: usize) -> Decided
    ensures { result ≡ exit process }
{
    acts(Reply::Done, ProcessEdit::Exit { process })
}

/// What the closing comes to: there is no new process after it. It takes no memory.
pub fn decide_close_run() -> Decided
    ensures { result ≡ close_run }
{
    acts(Reply::Done, ProcessEdit::Close)
}
