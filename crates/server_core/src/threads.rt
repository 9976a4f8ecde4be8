//! The server may move to another thread. docs/ARCHITECTURE.md, "Threads", has the reason.
ghost use denote.Param.Send.{IsSend};
ghost use Rattle.server_core.specs.contracts.server.Server.{the_row as server_row};

use crate::server::Server;

/// Takes only a type whose values may move to another thread.
fn moves<T: Send>()
    ensures { IsSend T.row }
{}

/// The server may move to another thread.
pub fn server_moves()
    ensures { IsSend server_row }
{
    moves::<Server>();
}
