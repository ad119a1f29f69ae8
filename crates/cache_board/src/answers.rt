//! What calls of the board answer, as answers of operations.

ghost use Rattle.std.specs.Prelude.{◌≡◌};
ghost use Rattle.cache_board.specs.Drive.{answer_if_done, answer_if_loaded, answer_if_made};

use board_commits::{Answer, Refused};
use cache_ident::{Ident, NoMemory};

/// That of a call that has nothing to tell.
pub(crate) fn did(called: Result<(), Refused>) -> Answer
    ensures { result ≡ answer_if_done called }
{
    match called {
        Ok(()) => Answer::Did,
        Err(refused) => Answer::Refused(refused),
    }
}

/// That of a load.
pub(crate) fn loaded(called: Result<Ident, Refused>) -> Answer
    ensures { result ≡ answer_if_loaded called }
{
    match called {
        Ok(ident) => Answer::Loaded(ident),
        Err(refused) => Answer::Refused(refused),
    }
}

/// That of a call which nothing but want of memory refuses.
pub(crate) fn made(called: Result<(), NoMemory>) -> Answer
    ensures { result ≡ answer_if_made called }
{
    match called {
        Ok(()) => Answer::Did,
        Err(_) => Answer::Refused(Refused::NoMemory),
    }
}
