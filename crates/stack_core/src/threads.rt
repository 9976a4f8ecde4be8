//! A stack may move to another thread. docs/ARCHITECTURE.md, "Threads", has the reason.
ghost use denote.Param.Send.{IsSend};
ghost use Rattle.stack_core.specs.contracts.order.Stack.{the_row as stack_row};

use crate::order::Stack;

/// Takes only a type whose values may move to another thread.
fn moves<T: Send>()
    ensures { IsSend T.row }
{}

/// A stack may move to another thread.
pub fn stack_moves()
    ensures { IsSend stack_row }
{
    moves::<Stack>();
}
