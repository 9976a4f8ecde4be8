//! How a client comes to the desk.

ghost use Rattle.std.specs.Prelude.{◌≡◌, ◌≤◌, ◌++◌, ◌∷◌, [], false, OnOk, OnErr};
ghost use Rattle.widget_model.specs.Clients.{is_joined};
ghost use Rattle.widget_model.specs.Forest.{IsWidgets};
ghost use Rattle.widget_model.specs.Widgets.{joined};
ghost use Rattle.desk_core.specs.ClientList.{clients_of, ring_for};

use crate::clients::Clients;
use bind_core::{NoMemory, Ring};
use std::alloc::Global;
use tree_core::Tree;

/// Adds a client, 1 to 16, that isn't there, with no event and no widget. NoMemory leaves the clients and the tree as they
/// were.
pub(crate) fn join(
    clients: &mut Clients,
    tree: &mut Tree,
    alloc: Global,
    client: u32,
) -> Result<(), NoMemory>
    requires low { 1 ≤ client }
    requires high { client ≤ 16 }
    requires valid { IsWidgets tree.old }
    requires clients { clients_of clients.old ≡ tree.old.clients }
    requires new_client { is_joined (clients_of clients.old) client ≡ false }
    ensures ok { OnOk result ((clients.new ≡ clients.old ++ ring_for client ∷ []) × (tree.new ≡ joined client tree.old)) }
    ensures err { OnErr result ((clients.new ≡ clients.old) × (tree.new ≡ tree.old)) }
    ensures valid { IsWidgets tree.new }
{
    let events = match Ring::new(alloc) {
        Ok(events) => events,
        Err(_) => return Err(NoMemory),
    };
    match clients.join(client, events) {
        Ok(()) => {}
        Err(_) => return Err(NoMemory),
    }
    match tree.join_client(client) {
        Ok(()) => Ok(()),
        Err(_) => {
            clients.leave(client);
            Err(NoMemory)
        }
    }
}
