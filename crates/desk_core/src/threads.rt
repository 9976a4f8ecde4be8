//! The desk and its clients may move to another thread. docs/ARCHITECTURE.md, "Threads", has the reason.
ghost use denote.Param.Send.{IsSend};
ghost use Rattle.desk_core.specs.contracts.member.Member.{the_row as member_row};
ghost use Rattle.desk_core.specs.contracts.clients.Clients.{the_row as clients_row};
ghost use Rattle.desk_core.specs.contracts.desk.Desk.{the_row as desk_row};

use crate::clients::Clients;
use crate::desk::Desk;
use crate::member::Member;

/// Takes only a type whose values may move to another thread.
fn moves<T: Send>()
    ensures { IsSend T.row }
{}

/// A client with its events may move to another thread.
pub fn member_moves()
    ensures { IsSend member_row }
{
    moves::<Member>();
}

/// The clients may move to another thread.
pub fn clients_moves()
    ensures { IsSend clients_row }
{
    moves::<Clients>();
}

/// The desk may move to another thread.
pub fn desk_moves()
    ensures { IsSend desk_row }
{
    moves::<Desk>();
}
