//! A framer may move to another thread. docs/ARCHITECTURE.md, "Threads", has the reason.
ghost use denote.Param.Send.{IsSend};
ghost use Rattle.wire_link.specs.contracts.framer.Framer.{the_row as framer_row};

use crate::framer::Framer;

/// Takes only a type whose values may move to another thread.
fn moves<T: Send>()
    ensures { IsSend T.row }
{}

/// A framer may move to another thread.
pub fn framer_moves()
    ensures { IsSend framer_row }
{
    moves::<Framer>();
}
