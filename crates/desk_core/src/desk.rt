ghost use Rattle.std.specs.Prelude.{◌≡◌, ◌<◌, ◌≤◌, ◌↔◌, ◌&&◌, IsSome, IfOk, IfSome, MatchOption, OnOk, OnErr, Some, true, false, not, [], length, slice_get, All, map};
ghost use Rattle.std.specs.Bool.{OnTrue};
ghost use Rattle.std.specs.Option.{option_map};
ghost use Rattle.bind_core.specs.Polling.{poll_answer, after_poll};
ghost use Rattle.desk_model.specs.Desk.{opening_desk, is_connected};
ghost use Rattle.desk_model.specs.DeskFacts.{IsDesk};
ghost use Rattle.desk_model.specs.Clients.{free_client, step_bye, step_connect, step_hello, with_client};
ghost use Rattle.desk_model.specs.Polling.{poll_reply, ring_of, with_ring};
ghost use Rattle.scene_model.specs.Shapes.{IsShape};
ghost use Rattle.desk_model.specs.Commands.{IsPayload, step};
ghost use Rattle.desk_model.specs.Feeding.{step_feed};
ghost use Rattle.desk_model.specs.Beat.{bands_next};
ghost use Rattle.desk_model.specs.Beat as beats;
ghost use Rattle.widget_model.specs.Widgets.{IsLive};
ghost use Rattle.desk_commands.specs.Beating.{bands_named, bands_keyed};
ghost use Rattle.desk_model.specs.OwnPart.{LeavesOthers};
ghost use Rattle.desk_layout.specs.Numbers.{KeepsNumbers};
ghost use Rattle.desk_layout.specs.Placed.{HaveDuePlaces};
ghost use Rattle.desk_core.specs.View.{StaysUnlessChanged, StaysUnlessMoved, TellsChange, is_refused};
ghost use Rattle.desk_moves.specs.Stays.{moves};
ghost use Rattle.desk_core.specs.Asking.{only_asks, IsAnswer, StaysAsItWas};
ghost use Rattle.desk_core.specs.Visits.{IsVisit};
ghost use Rattle.desk_core.specs.Touching.{TellsTouched};
ghost use Rattle.desk_model.specs.Seen as seen;
ghost use Rattle.scene_core.specs.View.{scene_of, IsView, KeepsPlaces};
ghost use Rattle.desk_model.specs.Refusals.{is_memory};

use crate::asking::answer_to;
use crate::clients::Clients;
use crate::copying::{copy_touched, copy_tree};
use crate::feeding::{asked_on, carry_out};
use crate::joining::join;
use crate::polling::poll_reply;
use crate::touching::{forget, view_of};
use crate::watching::keep_watched;
use admit_core::Roster;
use arrayvec::ArrayVec;
use bind_core::NoMemory;
use cmd_words::{Command, Input, Refusal, Reply};
use desk_commands::{beat, close_windows, dismiss, is_poll, let_go, obey};
use desk_layout::settle;
use desk_moves::{may_move, moves};
use scene_core::View;
use scene_model::Shape;
use shot_core::Touched;
use stack_core::Stack;
use std::alloc::Global;
use std::marker::Model;
use touch_rules::{keep_before, shown_anew, tell_touched};
use tree_core::{Grab, Id, Pointer, Tree};
use vscreen_core::Band;

/// Whether something may have moved: the command may move something, and the reply doesn't refuse it.
fn has_moved(reply: &Reply, moves: bool) -> bool
    ensures { result ≡ (not (is_refused reply.now) && moves) }
{
    match reply {
        Reply::Refused(_) => false,
        _ => moves,
    }
}

/// The desk: the connected clients, their widgets, the order of the open windows and the pointer. It answers each
/// client's command, and keeps the places of the widgets. Contracts see the record `DeskView`: the desk of desk_model,
/// whether the last call changed it and moved something, the numbered widgets with their places, the numbers of the open
/// windows, and those whose look the last call touched. See docs/MACHINE.md, "The desk".
pub struct Desk {
    shape: Shape,
    pointer: Pointer,
    alloc: Global,
    clients: Clients,
    tree: Tree,
    windows: Stack,
    roster: Roster,
    changed: bool,
    moved: bool,
    touched: Touched,
}

impl Model for Desk {
    ghost use Rattle.desk_commands.specs.Parts.{desk_of, stage_of};
    ghost use Rattle.desk_core.specs.Kept.{IsKept};
    ghost use Rattle.desk_core.specs.View.{DeskView};

    ghost Value = { DeskView };

    ghost view = { λ d. record { desk = desk_of (stage_of d.shape d.roster d.clients d.tree d.pointer) d.tree d.windows; changed = d.changed; moved = d.moved; widgets = d.tree; windows = d.windows; touched = d.touched.looks.items } };

    ghost invariant = { λ d. IsKept d.shape d.pointer d.clients d.tree d.windows d.roster };
}

impl Drop for Desk {
    fn drop(self) {
        let Desk {
            shape: _,
            pointer: _,
            alloc: _,
            clients: _,
            tree: _,
            windows: _,
            roster: _,
            changed: _,
            moved: _,
            touched: Touched { looks: _ },
        } = self;
    }
}

impl Desk {
    /// A desk of this shape, whose numbers are in range, with no clients. See docs/MACHINE.md, "The desk".
    pub fn new(alloc: Global, shape: Shape) -> Desk
        requires { IsShape shape }
        ensures opening { result.desk ≡ opening_desk shape }
        ensures valid { IsDesk result.desk }
        ensures changed { result.changed ≡ false }
        ensures unmoved { result.moved ≡ false }
        ensures untouched { result.touched ≡ [] }
    {
        let pointer = Pointer {
            x: 0,
            y: 0,
            down: false,
            grab: Grab::Nothing,
            focus: None,
        };
        Desk {
            shape,
            pointer,
            alloc,
            clients: Clients::new(alloc),
            tree: Tree::new(alloc),
            windows: Stack::new(),
            roster: Roster::new(shape.budget - shape.spare),
            changed: false,
            moved: false,
            touched: Touched {
                looks: ArrayVec::new(),
            },
        }
    }

    /// Leaves the desk as it is: the call changes, moves and touches nothing.
    fn stay(&mut self)
        ensures put { StaysAsItWas self.old self.new }
        ensures valid { IsDesk self.new.desk }
        ensures visit { IsVisit self.old self.new }
    {
        self.changed = false;
        self.moved = false;
        forget(&mut self.touched);
    }

    /// Whether the client is connected.
    fn has(&self, client: u32) -> bool
        ensures { result ≡ is_connected self.now.desk client }
    {
        self.clients.has(client)
    }

    /// The least number of a client that isn't connected.
    fn free(&self) -> Option<u32>
        ensures free { result ≡ free_client self.now.desk.clients }
        ensures low { IfSome result (λ client. 1 ≤ client) }
        ensures high { IfSome result (λ client. client ≤ 16) }
        ensures new_client { IfSome result (λ client. is_connected self.now.desk client ≡ false) }
    {
        self.clients.free()
    }

    /// Lets a client in, 1 to 16, that isn't connected. NoMemory leaves the desk as it was. Either way the widgets and the
    /// open windows stay.
    fn let_in(&mut self, client: u32) -> Result<(), NoMemory>
        requires low { 1 ≤ client }
        requires high { client ≤ 16 }
        requires new_client { is_connected self.old.desk client ≡ false }
        ensures ok { OnOk result (self.new.desk ≡ with_client client self.old.desk) }
        ensures err { OnErr result (self.new.desk ≡ self.old.desk) }
        ensures valid { IsDesk self.new.desk }
        ensures visit { IsVisit self.old self.new }
    {
        self.changed = false;
        self.moved = false;
        forget(&mut self.touched);
        join(&mut self.clients, &mut self.tree, self.alloc, client)
    }

    /// The answer to a command that only asks; None where it isn't one.
    fn answer(&self, client: u32, command: &Command) -> Option<Reply>
        ensures { MatchOption result (only_asks command.now ≡ false) (λ reply. IsAnswer self.now.desk.rows client command.now reply) }
    {
        answer_to(&self.tree, client, command)
    }

    /// What a connected client that polls is told. Its kept events change, and nothing else.
    fn poll(&mut self, client: u32) -> Reply
        requires { is_connected self.old.desk client ≡ true }
        ensures reply { result ≡ poll_reply (poll_answer (ring_of self.old.desk.rings client)) }
        ensures desk { self.new.desk ≡ record self.old.desk { rings = with_ring client after_poll self.old.desk.rings } }
        ensures valid { IsDesk self.new.desk }
        ensures visit { IsVisit self.old self.new }
    {
        self.changed = false;
        self.moved = false;
        forget(&mut self.touched);
        poll_reply(self.clients.poll(client))
    }

    /// Connects a client, 1 to 16, and answers Done. Refuses Connected where it is connected, and else Memory
    /// where there is none. See docs/GUIDE.md, "Commands".
    #[tactic(auto, using(crate::proofs::Visits::visit_numbers, crate::proofs::Visits::visit_touched, crate::proofs::Visits::visit_still, crate::proofs::Visits::visit_changed))]
    pub fn connect(&mut self, client: u32) -> Reply
        requires low { 1 ≤ client }
        requires high { client ≤ 16 }
        ensures step { (result, self.new.desk) ≡ step_connect self.old.desk client (is_memory result) }
        ensures others { LeavesOthers client self.old.desk self.new.desk }
        ensures valid { IsDesk self.new.desk }
        ensures changed { TellsChange self.old self.new }
        ensures unchanged { self.new.changed ≡ false }
        ensures still { StaysUnlessMoved self.old self.new }
        ensures unmoved { self.new.moved ≡ false }
        ensures numbered { KeepsNumbers self.old.widgets.entries self.new.widgets.entries }
        ensures touched { TellsTouched self.old self.new }
    {
        if self.has(client) {
            self.stay();
            return Reply::Refused(Refusal::Connected);
        }
        match self.let_in(client) {
            Ok(()) => {}
            Err(_) => return Reply::Refused(Refusal::Memory),
        }
        Reply::Done
    }

    /// Connects the least client, 1 to 16, that isn't connected, and answers its number. Refuses Full with 16
    /// where all are connected, and else Memory where there is none. See docs/GUIDE.md, "Commands".
    #[tactic(auto, using(crate::proofs::Visits::visit_numbers, crate::proofs::Visits::visit_touched, crate::proofs::Visits::visit_still, crate::proofs::Visits::visit_changed))]
    pub fn hello(&mut self) -> Reply
        ensures step { (result, self.new.desk) ≡ step_hello self.old.desk (is_memory result) }
        ensures others { IfSome (free_client self.old.desk.clients) (λ client. LeavesOthers client self.old.desk self.new.desk) }
        ensures valid { IsDesk self.new.desk }
        ensures changed { TellsChange self.old self.new }
        ensures unchanged { self.new.changed ≡ false }
        ensures still { StaysUnlessMoved self.old self.new }
        ensures unmoved { self.new.moved ≡ false }
        ensures numbered { KeepsNumbers self.old.widgets.entries self.new.widgets.entries }
        ensures touched { TellsTouched self.old self.new }
    {
        let client = match self.free() {
            Some(client) => client,
            None => {
                self.stay();
                return Reply::Refused(Refusal::Full { limit: 16 });
            }
        };
        match self.let_in(client) {
            Ok(()) => {}
            Err(_) => return Reply::Refused(Refusal::Memory),
        }
        Reply::Number(client as i32)
    }

    /// Carries out a client's command, of a client from 1 to 16, and answers it: a Number or Words where it is
    /// `get`, a kept event, none, or how many were lost where it is `poll`, else Done. Refuses NotConnected where the
    /// client isn't connected; else each command has its own refusals, and the first that holds is the answer.
    /// `payload` has the bytes that come with the command: those of a frame, else none. See docs/GUIDE.md, "Commands".
    #[tactic(auto, using(crate::proofs::Visits::visit_numbers, crate::proofs::Visits::visit_touched, crate::proofs::Visits::visit_still, crate::proofs::Visits::visit_changed))]
    pub fn step(&mut self, client: u32, command: &Command, payload: &[u8]) -> Reply
        requires low { 1 ≤ client }
        requires high { client ≤ 16 }
        requires payload { IsPayload command.now payload.now }
        ensures changed { TellsChange self.old self.new }
        ensures step { (result, self.new.desk) ≡ step self.old.desk client command.now payload.now (is_memory result) }
        ensures others { LeavesOthers client self.old.desk self.new.desk }
        ensures valid { IsDesk self.new.desk }
        ensures numbered { KeepsNumbers self.old.widgets.entries self.new.widgets.entries }
        ensures touched { TellsTouched self.old self.new }
        ensures still { StaysUnlessMoved self.old self.new }
        ensures told { self.new.moved ≡ (not (is_refused result) && moves self.old.desk.rows client command.now) }
        ensures asking { OnTrue (only_asks command.now) (StaysAsItWas self.old self.new) }
    {
        if !self.has(client) {
            self.stay();
            return Reply::Refused(Refusal::NotConnected);
        }
        match self.answer(client, command) {
            Some(reply) => {
                self.stay();
                return reply;
            }
            None => {}
        }
        if is_poll(command) {
            return self.poll(client);
        }
        let lays = may_move(&self.tree, client, command);
        let moves = moves(&self.tree, client, command);
        let shown = view_of(&self.tree, &self.windows, &self.pointer, self.shape);
        let before = keep_before(&shown, client, command);
        let anew = shown_anew(&shown, client, command, payload);
        let answer = obey(
            self.alloc,
            &mut self.tree,
            &mut self.windows,
            &mut self.roster,
            client,
            command,
            payload,
        );
        settle(&mut self.tree, client, answer.changed, lays);
        let_go(&self.tree, &self.windows, &mut self.pointer);
        let shows = view_of(&self.tree, &self.windows, &self.pointer, self.shape);
        tell_touched(&shows, &before, anew, &answer.reply, &mut self.touched);
        self.changed = answer.changed;
        self.moved = has_moved(&answer.reply, moves);
        answer.reply
    }

    /// A client, 1 to 16, leaves with its windows, widgets, admissions and events, and is answered Done. Refuses NotConnected where
    /// it isn't connected. See docs/GUIDE.md, "Commands".
    #[tactic(auto, using(crate::proofs::Visits::visit_numbers, crate::proofs::Visits::visit_touched, crate::proofs::Visits::visit_still, crate::proofs::Visits::visit_changed))]
    pub fn bye(&mut self, client: u32) -> Reply
        requires low { 1 ≤ client }
        requires high { client ≤ 16 }
        ensures step { (result, self.new.desk) ≡ step_bye self.old.desk client }
        ensures others { LeavesOthers client self.old.desk self.new.desk }
        ensures changed { TellsChange self.old self.new }
        ensures still { StaysUnlessMoved self.old self.new }
        ensures valid { IsDesk self.new.desk }
        ensures numbered { KeepsNumbers self.old.widgets.entries self.new.widgets.entries }
        ensures touched { TellsTouched self.old self.new }
    {
        if !self.has(client) {
            self.stay();
            return Reply::Refused(Refusal::NotConnected);
        }
        forget(&mut self.touched);
        let count = self.tree.count(client);
        close_windows(&self.tree, &mut self.windows, client);
        let pointer = &mut self.pointer;
        let_go(&self.tree, &self.windows, pointer);
        dismiss(&self.tree, &mut self.roster, client);
        self.tree.drop_client(client);
        self.clients.leave(client);
        self.changed = count > 0;
        self.moved = true;
        Reply::Done
    }

    /// Carries out what an input asks for: it can't be refused. The call says that it changed nothing only where the rows
    /// and the open windows are as they were. See docs/MACHINE.md, "Input".
    pub fn feed(&mut self, input: Input)
        ensures step { self.new.desk ≡ step_feed self.old.desk input }
        ensures valid { IsDesk self.new.desk }
        ensures numbered { KeepsNumbers self.old.widgets.entries self.new.widgets.entries }
        ensures unchanged { StaysUnlessChanged self.old self.new }
        ensures still { StaysUnlessMoved self.old self.new }
        ensures touched { TellsTouched self.old self.new }
    {
        let effects = asked_on(&self.tree, &self.windows, &self.pointer, self.shape, input);
        let shown = view_of(&self.tree, &self.windows, &self.pointer, self.shape);
        let before = keep_watched(&shown, &effects);
        let carried = carry_out(
            &mut self.tree,
            &mut self.windows,
            &mut self.pointer,
            &mut self.clients,
            &effects,
        );
        let shows = view_of(&self.tree, &self.windows, &self.pointer, self.shape);
        before.tell_changed(&shows, &mut self.touched);
        self.changed = carried.changed;
        self.moved = carried.moved;
    }

    /// Takes the desk to its beat: the film of each admitted VScreen draws its band and goes on to its next phase.
    /// Answers the bands, in pixels of their films, each with its VScreen, in the order of admission. It takes no memory,
    /// and what the last call changed and touched is forgotten. See docs/MACHINE.md, "A tick".
    pub fn beat(&mut self) -> ArrayVec<(Id, Band), 128>
        ensures beat { self.new.desk ≡ beats.beat self.old.desk }
        ensures bands { bands_named self.new.widgets.entries result.items ≡ bands_keyed (bands_next self.old.desk) }
        ensures live { All (λ entry. IsLive self.new.widgets entry.0.key) result.items }
        ensures valid { IsDesk self.new.desk }
        ensures numbered { KeepsNumbers self.old.widgets.entries self.new.widgets.entries }
        ensures numbers { map (λ entry. entry.0) self.new.widgets.entries ≡ map (λ entry. entry.0) self.old.widgets.entries }
        ensures places { self.new.widgets.places ≡ self.old.widgets.places }
        ensures windows { self.new.windows ≡ self.old.windows }
        ensures unchanged { self.new.changed ≡ false }
        ensures unmoved { self.new.moved ≡ false }
        ensures untouched { self.new.touched ≡ [] }
    {
        self.changed = false;
        self.moved = false;
        forget(&mut self.touched);
        beat(&mut self.tree, &self.roster)
    }

    /// Another desk that equals this one in all: the same clients with the same kept events, the same widgets under the
    /// same numbers with their films and places, the same open windows, roster and pointer, and what the last call
    /// changed. Each later call answers on both alike. `NoMemory` comes only for want of memory, and nothing of the copy
    /// is left behind then. See docs/MACHINE.md, "Copies".
    pub fn copy(&self) -> Result<Desk, NoMemory>
        ensures same { IfOk result (λ desk. desk ≡ self.now) }
        ensures valid { IsDesk self.now.desk }
    {
        let tree = copy_tree(&self.tree)?;
        let clients = self.clients.copy()?;
        Ok(Desk {
            shape: self.shape,
            pointer: self.pointer,
            alloc: self.alloc,
            clients,
            tree,
            windows: self.windows.copy(),
            roster: self.roster.copy(),
            changed: self.changed,
            moved: self.moved,
            touched: copy_touched(&self.touched),
        })
    }

    /// What the desk shows, lent for a look: the widgets by their numbers with the places that are kept of them, the
    /// numbers of the open windows, the pointer and the screen's size. The kept place of each Window and of each widget
    /// under one is its place, in pixels of the screen; no other widget has one. See docs/MACHINE.md, "Layout".
    pub fn view(&self) -> View<'_>
        ensures scene { scene_of result ≡ seen.scene_of self.now.desk }
        ensures tree { result.tree.now ≡ self.now.widgets }
        ensures stack { result.stack.now ≡ self.now.windows }
        ensures placed { HaveDuePlaces self.now.widgets }
        ensures kept { KeepsPlaces self.now.widgets self.now.windows }
        ensures view { IsView result }
    {
        view_of(&self.tree, &self.windows, &self.pointer, self.shape)
    }

    /// Whether the last call of `connect`, `hello`, `step` or `bye` changed the rows, the open windows or their
    /// order; after `feed`, false only where it changed none of them; false before the first and after a `beat`. See
    /// docs/MACHINE.md, "Commands".
    pub fn changed(&self) -> bool
        ensures { result ≡ self.now.changed }
    {
        self.changed
    }

    /// Whether the last call of `connect`, `hello`, `step`, `feed` or `bye` may have changed what is where on the screen; false
    /// before the first and after a `beat`. Where it is false, no widget came, went, hangs elsewhere or has another place, and
    /// no window opened, closed or rose, so what the screen shows is where it was. See docs/MACHINE.md, "The reach of a
    /// change".
    pub fn moved(&self) -> bool
        ensures { result ≡ self.now.moved }
    {
        self.moved
    }

    /// The numbers of the widgets that were shown before the last call of `connect`, `hello`, `step`, `feed` or `bye`, are
    /// shown after it and look different, but for width and height; none before the first and after a `beat`. See
    /// docs/MACHINE.md, "The reach of a change".
    pub fn touched(&self) -> &Touched
        ensures { result.now.looks.items ≡ self.now.touched }
    {
        &self.touched
    }

    /// Whether the client is connected. See docs/MACHINE.md, "The desk".
    pub fn is_connected(&self, client: u32) -> bool
        ensures { result ≡ is_connected self.now.desk client }
    {
        self.has(client)
    }

    /// How many clients are connected, 0 to 16. See docs/MACHINE.md, "The desk".
    pub fn live(&self) -> u32
        ensures live { result ≡ length self.now.desk.clients }
        ensures few { result ≤ 16 }
        ensures valid { IsDesk self.now.desk }
    {
        self.clients.len()
    }
}
