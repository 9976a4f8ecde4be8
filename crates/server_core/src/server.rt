ghost use Rattle.std.specs.Prelude.{◌≡◌, ◌+◌, ◌-◌, ◌≤◌, length, IfOk};
ghost use Rattle.canvas_core.specs.Screen.{risen};
ghost use Rattle.scene_model.specs.Shapes.{IsShape};
ghost use Rattle.desk_model.specs.Seen.{picture};
ghost use Rattle.cmd_words.specs.declared.replies.Reply.TheVariants.{Done};
ghost use Rattle.desk_model.specs.Commands.{IsPayload};
ghost use Rattle.machine_model.specs.State.{IsState, dirty_count, opening};
ghost use Rattle.machine_model.specs.Events.Event.{Connect, Hello, Bye, Ask, Feed, Tick};
ghost use Rattle.machine_model.specs.Events.Answer.{Replied, Drawn};
ghost use Rattle.machine_model.specs.Step.{Step};
ghost use Rattle.machine_model.specs.Chosen.{lost_marks, TickedWith};

use crate::following::follow_call;
use crate::no_memory::NoMemory;
use canvas_core::Canvas;
use cmd_words::{Command, Drew, Input, Reply};
use desk_core::{Desk, only_asks};
use drawing_core::{draw, draw_bands};
use kind_core::Shape;
use redraw_core::Queue;
use shot_core::Shot;
use std::alloc::Global;
use std::marker::Model;
use view_shots::shot;

/// The server: a desk, its screen, and which pixels of it are dirty.
///
/// Contracts see the record `Serving`: the machine's state, and the bytes of the screen and the spans written, both
/// since the last tick began and of all time. Only a tick writes. Between any two calls each pixel is dirty or has the
/// picture's colour. docs/MACHINE.md has the rules.
pub struct Server {
    shape: Shape,
    desk: Desk,
    // what the desk shows now, and room for what it shows after the next call on it
    shown: Shot,
    other: Shot,
    canvas: Canvas,
    queue: Queue,
}

impl Model for Server {
    ghost use Rattle.server_core.specs.Serving.{Serving, IsServing, ShowsDesk, state_of};

    ghost Value = { Serving };

    ghost view = { λ s. record {
      state = state_of s.desk.desk s.canvas.bytes s.queue.marks;
      writes = s.canvas.writes;
      spans = s.canvas.spans;
      all_writes = s.canvas.all_writes;
      all_spans = s.canvas.all_spans;
    } };

    ghost invariant = { λ s. IsServing s.shape s.desk.desk s.canvas s.queue × ShowsDesk s.desk s.shown };
}

impl Drop for Server {
    fn drop(self) {
        let Server {
            shape: _,
            desk: _,
            shown: _,
            other: _,
            canvas: _,
            queue: _,
        } = self;
    }
}

impl Server {
    /// A server with these numbers: nobody is connected, each pixel has the desk's colour, and none is dirty.
    /// `NoMemory` comes only for want of memory. docs/MACHINE.md, "The desk".
    pub fn new(alloc: Global, shape: Shape) -> Result<Server, NoMemory>
        requires { IsShape shape }
        ensures opens { IfOk result (λ server. server.state ≡ opening shape) }
        ensures unwritten { IfOk result (λ server. server.writes ≡ 0) }
        ensures spans { IfOk result (λ server. server.spans ≡ 0) }
        ensures all_unwritten { IfOk result (λ server. server.all_writes ≡ 0) }
        ensures all_spans { IfOk result (λ server. server.all_spans ≡ 0) }
        ensures valid { IfOk result (λ server. IsState server.state) }
    {
        let canvas = match Canvas::new(alloc, shape.width, shape.height) {
            Ok(canvas) => canvas,
            Err(_) => return Err(NoMemory),
        };
        let queue = match Queue::new(alloc, shape.width, shape.height) {
            Ok(queue) => queue,
            Err(_) => return Err(NoMemory),
        };
        let mut shown = new_shot(alloc)?;
        let other = new_shot(alloc)?;
        let desk = Desk::new(alloc, shape);
        shot(&desk.view(), &mut shown);
        Ok(Server {
            shape,
            desk,
            shown,
            other,
            canvas,
            queue,
        })
    }

    /// Connects a client, 1 to 16. docs/GUIDE.md, "Commands".
    pub fn connect(&mut self, client: u32) -> Reply
        requires low { 1 ≤ client }
        requires high { client ≤ 16 }
        ensures step { Step self.old.state (Connect client) (Replied result) self.new.state }
        ensures unwritten { self.new.writes ≡ self.old.writes }
        ensures spans { self.new.spans ≡ self.old.spans }
        ensures all_unwritten { self.new.all_writes ≡ self.old.all_writes }
        ensures all_spans { self.new.all_spans ≡ self.old.all_spans }
        ensures valid { IsState self.new.state }
    {
        let reply = self.desk.connect(client);
        follow_call(
            &self.desk,
            &mut self.shown,
            &mut self.other,
            &mut self.queue,
        );
        reply
    }

    /// Connects a client under the least free number, and answers that. docs/GUIDE.md, "Commands".
    pub fn hello(&mut self) -> Reply
        ensures step { Step self.old.state Hello (Replied result) self.new.state }
        ensures unwritten { self.new.writes ≡ self.old.writes }
        ensures spans { self.new.spans ≡ self.old.spans }
        ensures all_unwritten { self.new.all_writes ≡ self.old.all_writes }
        ensures all_spans { self.new.all_spans ≡ self.old.all_spans }
        ensures valid { IsState self.new.state }
    {
        let reply = self.desk.hello();
        follow_call(
            &self.desk,
            &mut self.shown,
            &mut self.other,
            &mut self.queue,
        );
        reply
    }

    /// A client's command, with the bytes that come with it: with `frame` as many as it says, at most 65,536, with any
    /// other command none. What the change reaches becomes dirty, and nothing is written. docs/GUIDE.md, "Commands".
    pub fn command(&mut self, client: u32, command: &Command, payload: &[u8]) -> Reply
        requires low { 1 ≤ client }
        requires high { client ≤ 16 }
        requires payload { IsPayload command.now payload.now }
        ensures step { Step self.old.state (Ask client command.now payload.now) (Replied result) self.new.state }
        ensures unwritten { self.new.writes ≡ self.old.writes }
        ensures spans { self.new.spans ≡ self.old.spans }
        ensures all_unwritten { self.new.all_writes ≡ self.old.all_writes }
        ensures all_spans { self.new.all_spans ≡ self.old.all_spans }
        ensures valid { IsState self.new.state }
    {
        if only_asks(command) {
            return self.desk.step(client, command, payload);
        }
        let reply = self.desk.step(client, command, payload);
        follow_call(
            &self.desk,
            &mut self.shown,
            &mut self.other,
            &mut self.queue,
        );
        reply
    }

    /// A client leaves with all that it made. docs/GUIDE.md, "Commands".
    pub fn bye(&mut self, client: u32) -> Reply
        requires low { 1 ≤ client }
        requires high { client ≤ 16 }
        ensures step { Step self.old.state (Bye client) (Replied result) self.new.state }
        ensures unwritten { self.new.writes ≡ self.old.writes }
        ensures spans { self.new.spans ≡ self.old.spans }
        ensures all_unwritten { self.new.all_writes ≡ self.old.all_writes }
        ensures all_spans { self.new.all_spans ≡ self.old.all_spans }
        ensures valid { IsState self.new.state }
    {
        let reply = self.desk.bye(client);
        follow_call(
            &self.desk,
            &mut self.shown,
            &mut self.other,
            &mut self.queue,
        );
        reply
    }

    /// An input: a motion of the pointer, a press, a release or a key. It can't be refused. What the change reaches
    /// becomes dirty, and nothing is written. docs/MACHINE.md, "Input".
    pub fn feed(&mut self, input: Input)
        ensures step { Step self.old.state (Feed input) (Replied Done) self.new.state }
        ensures unwritten { self.new.writes ≡ self.old.writes }
        ensures spans { self.new.spans ≡ self.old.spans }
        ensures all_unwritten { self.new.all_writes ≡ self.old.all_writes }
        ensures all_spans { self.new.all_spans ≡ self.old.all_spans }
        ensures valid { IsState self.new.state }
    {
        self.desk.feed(input);
        follow_call(
            &self.desk,
            &mut self.shown,
            &mut self.other,
            &mut self.queue,
        );
    }

    /// One tick: draws the bands of the admitted VScreens' films, and then dirty pixels, as many as the budget has left
    /// beside the bands, and says how many it drew of each and how many stay dirty. A pixel that a band drew stays dirty
    /// where it was. As many bytes are written as it drew pixels, by the count of all time too. docs/MACHINE.md, "A tick".
    pub fn tick(&mut self) -> Drew
        ensures step { Step self.old.state Tick (Drawn result) self.new.state }
        ensures chosen { TickedWith (lost_marks self.old.state.dirt self.new.state.dirt)
            self.old.state result self.new.state }
        ensures writes { self.new.writes ≡ result.bands + result.queue }
        ensures all_writes { self.new.all_writes ≡ risen self.old.all_writes (result.bands + result.queue) }
        ensures spans { self.new.spans ≤ self.new.writes }
        ensures all_spans { self.new.all_spans ≡ risen self.old.all_spans self.new.spans }
        ensures within_budget { self.new.writes ≤ self.old.state.desk.shape.budget }
        ensures fewer { dirty_count self.new.state
            ≤ dirty_count self.old.state - self.old.state.desk.shape.spare }
        ensures right { dirty_count self.new.state ≡ 0
            → self.new.state.screen ≡ picture self.new.state.desk }
        ensures valid { IsState self.new.state }
    {
        let beaten = self.desk.beat();
        self.canvas.start_count();
        let view = self.desk.view();
        let bands = draw_bands(&view, beaten.as_slice(), &mut self.canvas);
        let room = self.shape.budget - bands;
        let queue = draw(&view, &mut self.queue, &mut self.canvas, room);
        Drew {
            bands,
            queue,
            left: self.queue.count(),
        }
    }

    /// The screen: a palette number for each pixel, row after row from the top.
    pub fn picture(&self) -> &[u8]
        ensures screen { result.now ≡ self.now.state.screen }
        ensures valid { IsState self.now.state }
    {
        self.canvas.bytes()
    }

    /// How many pixels are dirty.
    pub fn dirty(&self) -> u32
        ensures count { result ≡ dirty_count self.now.state }
        ensures valid { IsState self.now.state }
    {
        self.queue.count()
    }

    /// How many spans the last tick wrote, each a part of a row at once; 0 before the first. They are at most its pixels.
    pub fn spans(&self) -> u32
        ensures count { result ≡ self.now.spans }
        ensures within { result ≤ self.now.writes }
        ensures valid { IsState self.now.state }
    {
        self.canvas.spans()
    }

    /// The desk of the server's state, lent. It takes no memory. docs/MACHINE.md, "Copies".
    pub fn desk(&self) -> &Desk
        ensures desk { result.now.desk ≡ self.now.state.desk }
        ensures valid { IsState self.now.state }
    {
        &self.desk
    }

    /// The server's fixed numbers.
    pub fn shape(&self) -> Shape
        ensures shape { result ≡ self.now.state.desk.shape }
        ensures valid { IsState self.now.state }
    {
        self.shape
    }

    /// How many clients are connected.
    pub fn live(&self) -> u32
        ensures count { result ≡ length self.now.state.desk.clients }
        ensures valid { IsState self.now.state }
    {
        self.desk.live()
    }
}

// A shot with nothing in it.
fn new_shot(alloc: Global) -> Result<Shot, NoMemory> {
    match Shot::new(alloc) {
        Ok(shot) => Ok(shot),
        Err(_) => Err(NoMemory),
    }
}
