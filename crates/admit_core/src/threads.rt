//! A roster may move to another thread. docs/ARCHITECTURE.md, "Threads", has the reason.
ghost use denote.Param.Send.{IsSend};
ghost use Rattle.admit_core.specs.contracts.roster.Roster.{the_row as roster_row};

use crate::roster::Roster;

/// Takes only a type whose values may move to another thread.
fn moves<T: Send>()
    ensures { IsSend T.row }
{}

/// A roster may move to another thread.
pub fn roster_moves()
    ensures { IsSend roster_row }
{
    moves::<Roster>();
}
