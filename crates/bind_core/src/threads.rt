//! Events and rings of them may move to another thread. docs/ARCHITECTURE.md, "Threads", has the reason.
ghost use denote.Param.Send.{IsSend};
ghost use Rattle.bind_core.specs.contracts.posted.Posted.{the_row as posted_row};
ghost use Rattle.bind_core.specs.contracts.ring.Ring.{the_row as ring_row};

use crate::posted::Posted;
use crate::ring::Ring;

/// Takes only a type whose values may move to another thread.
fn moves<T: Send>()
    ensures { IsSend T.row }
{}

/// An event may move to another thread.
pub fn posted_moves()
    ensures { IsSend posted_row }
{
    moves::<Posted>();
}

/// A ring may move to another thread.
pub fn ring_moves()
    ensures { IsSend ring_row }
{
    moves::<Ring>();
}
