//! A rectangle may move to another thread. docs/ARCHITECTURE.md, "Threads", has the reason.
ghost use denote.Param.Send.{IsSend};
ghost use Rattle.geom_core.specs.contracts.rectangle.Rect.{the_row as rect_row};

use crate::rectangle::Rect;

/// Takes only a type whose values may move to another thread.
fn moves<T: Send>()
    ensures { IsSend T.row }
{}

/// A rectangle may move to another thread.
pub fn rect_moves()
    ensures { IsSend rect_row }
{
    moves::<Rect>();
}
