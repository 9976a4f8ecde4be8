//! The tree and the pointer may move to another thread. docs/ARCHITECTURE.md, "Threads", has the reason.
ghost use denote.Param.Send.{IsSend};
ghost use Rattle.tree_core.specs.contracts.id.Id.{the_row as id_row};
ghost use Rattle.tree_core.specs.contracts.pointer.Pointer.{the_row as pointer_row};
ghost use Rattle.tree_core.specs.contracts.tree.Tree.{the_row as tree_row};

use crate::id::Id;
use crate::pointer::Pointer;
use crate::tree::Tree;

/// Takes only a type whose values may move to another thread.
fn moves<T: Send>()
    ensures { IsSend T.row }
{}

/// A widget's number may move to another thread.
pub fn id_moves()
    ensures { IsSend id_row }
{
    moves::<Id>();
}

/// The pointer may move to another thread.
pub fn pointer_moves()
    ensures { IsSend pointer_row }
{
    moves::<Pointer>();
}

/// The tree may move to another thread.
pub fn tree_moves()
    ensures { IsSend tree_row }
{
    moves::<Tree>();
}
