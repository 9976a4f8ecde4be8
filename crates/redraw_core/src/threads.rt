//! What is left to draw may move to another thread. docs/ARCHITECTURE.md, "Threads", has the reason.
ghost use denote.Param.Send.{IsSend};
ghost use Rattle.redraw_core.specs.contracts.queue.Queue.{the_row as queue_row};
ghost use Rattle.redraw_core.specs.contracts.store.Store.{the_row as store_row};
ghost use Rattle.redraw_core.specs.contracts.overflow.Overflow.{the_row as overflow_row};

use crate::overflow::Overflow;
use crate::queue::Queue;
use crate::store::Store;

/// Takes only a type whose values may move to another thread.
fn moves<T: Send>()
    ensures { IsSend T.row }
{}

/// A queue may move to another thread.
pub fn queue_moves()
    ensures { IsSend queue_row }
{
    moves::<Queue>();
}

/// Dirt may move to another thread.
pub fn store_moves()
    ensures { IsSend store_row }
{
    moves::<Store>();
}

/// A map of dirt may move to another thread.
pub fn overflow_moves()
    ensures { IsSend overflow_row }
{
    moves::<Overflow>();
}
