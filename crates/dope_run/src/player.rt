//! What `play` performs a script's lines on.
ghost use Rattle.std.specs.Prelude.{◌≡◌};
ghost use Rattle.dope_run.specs.Playing.{playing};
ghost use Rattle.dope_run.specs.Lawfully.{lawful};

use crate::obeying::obey;
use outside_io::{Failed, Outbox, Sink};
use script_walk::{Order, Performer};
use server_core::Server;

/// A server, on which the lines of a script are played.
pub struct Player {
    pub server: Server,
}

impl Drop for Player {
    fn drop(self) {
        let Player { server: _ } = self;
    }
}

impl Player {
    /// The server, where the script is done.
    pub fn into_server(self) -> Server
        ensures { result ≡ self.server }
    {
        let Player { server } = self;
        server
    }
}

impl Performer for Player {
    ghost rules = { playing };

    ghost state = { λ player. player.server.state };

    fn perform<K: Sink>(
        &mut self,
        order: &Order,
        _line: &[u8],
        payload: &[u8],
        out: &mut Outbox,
        sink: &mut K,
    ) -> Result<(), Failed> {
        obey(order, payload, &mut self.server, out, sink)
    }

    ghost lawful = { lawful };
}
