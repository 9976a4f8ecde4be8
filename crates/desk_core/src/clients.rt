ghost use Rattle.std.specs.Prelude.{◌≡◌, ◌≤◌, ◌∷◌, ◌++◌, [], length, true, false, not, nat_eq, slice_get, Some, IfOk, IfSome, MatchOption, OnOk, OnErr};
ghost use Rattle.std.specs.List.{filter, list_any};
ghost use Rattle.std.specs.Option.{option_map};
ghost use Rattle.bind_core.specs.Ring.{event_of};
ghost use Rattle.bind_core.specs.Polling.{poll_answer, after_poll};
ghost use Rattle.bind_core.specs.Posting.{after_post};
ghost use Rattle.desk_model.specs.Clients.{free_client};
ghost use Rattle.desk_model.specs.Polling.{ring_of, with_ring};
ghost use Rattle.widget_model.specs.Clients.{is_joined};
ghost use Rattle.desk_core.specs.ClientList.{clients_of, rings_of, IsJoined};

use crate::member::Member;
use bind_core::{NoMemory, Polled, Posted, Ring};
use std::alloc::{AllocError, Global};
use std::marker::Model;

/// The connected clients, 1 to 16, in the order in which they came, each with the events that are kept for it. Contracts
/// see the list of rings, each with its client.
pub(crate) struct Clients {
    members: Vec<Member>,
}

impl Model for Clients {
    ghost use Rattle.std.specs.Prelude.{List};
    ghost use Rattle.desk_model.specs.Desk.{Ring};
    ghost use Rattle.desk_core.specs.ClientList.{rings_of, clients_of, IsJoined};

    ghost Value = { List Ring };

    ghost view = { λ c. rings_of c.members.items };

    ghost invariant = { λ c. IsJoined (clients_of (rings_of c.members.items)) };
}

impl Drop for Clients {
    fn drop(self) {
        let Clients { members: _ } = self;
    }
}

impl Clients {
    /// No clients.
    pub(crate) fn new(alloc: Global) -> Clients
        ensures { result ≡ [] }
    {
        Clients {
            members: Vec::new(alloc),
        }
    }

    /// The same clients in the same order, with the same events. NoMemory comes only for want of memory, and nothing of
    /// the copy is left behind then.
    pub(crate) fn copy(&self) -> Result<Clients, NoMemory>
        ensures { IfOk result (λ copy. copy ≡ self.now) }
    {
        match copy_members(&self.members) {
            Ok(members) => Ok(Clients { members }),
            Err(_) => Err(NoMemory),
        }
    }

    /// Whether the client is connected.
    pub(crate) fn has(&self, client: u32) -> bool
        ensures { result ≡ is_joined (clients_of self.now) client }
    {
        is_joined(self.members.as_slice(), client)
    }

    /// The least number of a client that isn't connected.
    #[tactic(auto, unfolding(desk_model::specs::Clients::free_client))]
    pub(crate) fn free(&self) -> Option<u32>
        ensures free { result ≡ free_client (clients_of self.now) }
        ensures low { IfSome result (λ client. 1 ≤ client) }
        ensures high { IfSome result (λ client. client ≤ 16) }
        ensures new_client { IfSome result (λ client. is_joined (clients_of self.now) client ≡ false) }
    {
        let members = self.members.as_slice();
        for client in 1..17 {
            if !is_joined(members, client) {
                return Some(client);
            }
        }
        None
    }

    /// Adds a client that isn't there, as the last one, with a ring for its events. NoMemory leaves the clients as they
    /// were.
    pub(crate) fn join(&mut self, client: u32, events: Ring) -> Result<(), NoMemory>
        requires low { 1 ≤ client }
        requires high { client ≤ 16 }
        requires new_client { is_joined (clients_of self.old) client ≡ false }
        ensures ok { OnOk result (self.new ≡ self.old ++ record { client = client; events = events } ∷ []) }
        ensures err { OnErr result (self.new ≡ self.old) }
    {
        match push_member(&mut self.members, client, events) {
            Ok(()) => Ok(()),
            Err(_) => Err(NoMemory),
        }
    }

    /// Takes the client out, with its events; the others keep their order.
    pub(crate) fn leave(&mut self, client: u32)
        ensures left { self.new ≡ filter (λ ring. not (nat_eq client ring.client)) self.old }
    {
        take_out(&mut self.members, client);
    }

    /// Answers how many of the client's events were lost, where some were; else its oldest kept event, which is kept no
    /// longer; else that there is none. It takes no memory.
    pub(crate) fn poll(&mut self, client: u32) -> Polled
        requires { is_joined (clients_of self.old) client ≡ true }
        ensures answer { result ≡ poll_answer (ring_of self.old client) }
        ensures rings { self.new ≡ with_ring client after_poll self.old }
    {
        poll_member(&mut self.members, client)
    }

    /// Keeps the event as the latest of the client's, where it is connected. It takes no memory.
    pub(crate) fn post(&mut self, client: u32, posted: Posted)
        ensures { self.new ≡ with_ring client (λ ring. after_post ring (event_of posted)) self.old }
    {
        post_member(&mut self.members, client, posted);
    }

    /// How many there are, at most 16.
    pub(crate) fn len(&self) -> u32
        ensures many { result ≡ length self.now }
        ensures few { result ≤ 16 }
    {
        self.members.len() as u32
    }
}

/// The same members in the same order.
fn copy_members(members: &Vec<Member>) -> Result<Vec<Member>, AllocError>
    ensures { IfOk result (λ copy. copy.items ≡ members.now.items) }
{
    members.clone()
}

/// Whether the client is one of these.
fn is_joined(members: &[Member], client: u32) -> bool
    ensures { result ≡ list_any (λ member. nat_eq client member.client) members.now }
{
    members.iter().any(|member| client == member.client)
}

/// Adds a client that isn't there, as the last one. NoMemory leaves the members as they were.
fn push_member(members: &mut Vec<Member>, client: u32, events: Ring) -> Result<(), NoMemory>
    requires joined { IsJoined (clients_of (rings_of members.old.items)) }
    requires low { 1 ≤ client }
    requires high { client ≤ 16 }
    requires new_client { is_joined (clients_of (rings_of members.old.items)) client ≡ false }
    ensures ok { OnOk result (rings_of members.new.items ≡ rings_of members.old.items ++ record { client = client; events = events } ∷ []) }
    ensures err { OnErr result (members.new.items ≡ members.old.items) }
    ensures joined { IsJoined (clients_of (rings_of members.new.items)) }
{
    match members.push(Member { client, events }) {
        Ok(()) => {}
        Err(_) => return Err(NoMemory),
    }
    Ok(())
}

/// Leaves the other clients alone.
fn take_out(members: &mut Vec<Member>, client: u32)
    ensures { rings_of members.new.items ≡ filter (λ ring. not (nat_eq client ring.client)) (rings_of members.old.items) }
{
    members.retain(|member| client != member.client);
}

/// The index of the client, or None where it isn't there.
fn index_of(members: &[Member], client: u32) -> Option<usize>
    ensures { MatchOption result (is_joined (clients_of (rings_of members.now)) client ≡ false)
        (λ index. option_map (λ member. member.client) (slice_get members.now index) ≡ Some client) }
{
    for (index, member) in members.iter().enumerate() {
        if member.client == client {
            return Some(index);
        }
    }
    None
}

/// Polls the client's events.
fn poll_member(members: &mut Vec<Member>, client: u32) -> Polled
    requires joined { IsJoined (clients_of (rings_of members.old.items)) }
    requires there { is_joined (clients_of (rings_of members.old.items)) client ≡ true }
    ensures answer { result ≡ poll_answer (ring_of (rings_of members.old.items) client) }
    ensures rings { rings_of members.new.items ≡ with_ring client after_poll (rings_of members.old.items) }
{
    let index = match index_of(members.as_slice(), client) {
        Some(index) => index,
        None => unreachable!(),
    };
    match members.get_mut(index) {
        Some(member) => member.events.poll(),
        None => unreachable!(),
    }
}

/// Keeps the event for the client, where it is there.
fn post_member(members: &mut Vec<Member>, client: u32, posted: Posted)
    requires { IsJoined (clients_of (rings_of members.old.items)) }
    ensures { rings_of members.new.items ≡ with_ring client (λ ring. after_post ring (event_of posted)) (rings_of members.old.items) }
{
    let index = match index_of(members.as_slice(), client) {
        Some(index) => index,
        None => return,
    };
    match members.get_mut(index) {
        Some(member) => member.events.post(posted),
        None => unreachable!(),
    }
}
