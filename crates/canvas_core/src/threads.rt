//! A screen may move to another thread. docs/ARCHITECTURE.md, "Threads", has the reason.
ghost use denote.Param.Send.{IsSend};
ghost use Rattle.canvas_core.specs.contracts.canvas.Canvas.{the_row as canvas_row};

use crate::canvas::Canvas;

/// Takes only a type whose values may move to another thread.
fn moves<T: Send>()
    ensures { IsSend T.row }
{}

/// A screen may move to another thread.
pub fn canvas_moves()
    ensures { IsSend canvas_row }
{
    moves::<Canvas>();
}
