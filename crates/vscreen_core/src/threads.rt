//! A film may move to another thread. docs/ARCHITECTURE.md, "Threads", has the reason.
ghost use denote.Param.Send.{IsSend};
ghost use Rattle.vscreen_core.specs.contracts.film.Film.{the_row as film_row};

use crate::film::Film;

/// Takes only a type whose values may move to another thread.
fn moves<T: Send>()
    ensures { IsSend T.row }
{}

/// A film may move to another thread.
pub fn film_moves()
    ensures { IsSend film_row }
{
    moves::<Film>();
}
