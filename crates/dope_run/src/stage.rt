//! What a run works with.
ghost use Rattle.std.specs.Prelude.{◌≡◌, [], IfOk};
ghost use Rattle.scene_model.specs.Shapes.{IsShape};
ghost use Rattle.machine_model.specs.State.{IsState, opening};

use crate::player::Player;
use outside_io::Outbox;
use script_walk::Walker;
use server_core::{NoMemory, Server, Shape};
use std::alloc::Global;

/// What a run over a script works with: its player, the walker over its lines, and its output.
pub struct Stage {
    pub player: Player,
    pub walker: Walker,
    pub out: Outbox,
}

impl Drop for Stage {
    fn drop(self) {
        let Stage {
            player: _,
            walker: _,
            out: _,
        } = self;
    }
}

impl Stage {
    /// A stage at the beginning of a script, with a server of this shape. `NoMemory` comes only for want of memory.
    pub fn open(alloc: Global, shape: Shape) -> Result<Stage, NoMemory>
        requires { IsShape shape }
        ensures opens { IfOk result (λ stage. stage.player.server.state ≡ opening shape) }
        ensures valid { IfOk result (λ stage. IsState stage.player.server.state) }
        ensures written { IfOk result (λ stage. stage.out ≡ []) }
    {
        let server = match Server::new(alloc, shape) {
            Ok(server) => server,
            Err(NoMemory) => return Err(NoMemory),
        };
        let walker = match Walker::new(alloc) {
            Ok(walker) => walker,
            Err(_) => return Err(NoMemory),
        };
        match Outbox::new(alloc) {
            Ok(out) => Ok(Stage {
                player: Player { server },
                walker,
                out,
            }),
            Err(_) => Err(NoMemory),
        }
    }

    /// The server, where the script is done.
    pub fn into_server(self) -> Server
        ensures { result ≡ self.player.server }
    {
        let Stage {
            player,
            walker: _,
            out: _,
        } = self;
        player.into_server()
    }
}
