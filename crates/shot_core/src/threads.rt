//! Shots may move to another thread. docs/ARCHITECTURE.md, "Threads", has the reason.
ghost use denote.Param.Send.{IsSend};
ghost use Rattle.shot_core.specs.contracts.spot.Spot.{the_row as spot_row};
ghost use Rattle.shot_core.specs.contracts.shot.Shot.{the_row as shot_row};
ghost use Rattle.shot_core.specs.contracts.touched.Touched.{the_row as touched_row};

use crate::shot::Shot;
use crate::spot::Spot;
use crate::touched::Touched;

/// Takes only a type whose values may move to another thread.
fn moves<T: Send>()
    ensures { IsSend T.row }
{}

/// A spot may move to another thread.
pub fn spot_moves()
    ensures { IsSend spot_row }
{
    moves::<Spot>();
}

/// A shot may move to another thread.
pub fn shot_moves()
    ensures { IsSend shot_row }
{
    moves::<Shot>();
}

/// A list of touched rows may move to another thread.
pub fn touched_moves()
    ensures { IsSend touched_row }
{
    moves::<Touched>();
}
