//! What lines of a script are performed on.
ghost use Rattle.std.specs.Prelude.{◌≡◌, ◌≤◌, MatchResult, OnOk, OnErr};
ghost use Rattle.outside_io.specs.Count.{Rose};
ghost use Rattle.outside_io.specs.Outbox.{output};
ghost use Rattle.script_lines.specs.Lines.{asks};
ghost use Rattle.script_walk.specs.declared.end.End.TheVariants.{Done, WriteFault};
ghost use Rattle.script_walk.specs.Framing.{IsItem, item};
ghost use Rattle.script_walk.specs.Rules.{Rules};
ghost use Rattle.script_walk.specs.Performing.{Performed, Lawful};

use outside_io::{Failed, Outbox, Sink};
use script_lines::Order;

/// What the lines of a script are performed on, one after another. A command that works through a script is a type with
/// this trait: `rules` says what a line may come to and what is written for it, and `perform` does it.
/// docs/MACHINE.md, "The walk over a script", has the rules.
pub trait Performer {
    /// Its states, what happens at a moment, and what a line may come to.
    ghost rules: { Rules };

    /// The state that it is in.
    ghost state: { Self → rules.State };

    /// Performs the order that a line of at most 520 bytes asks for, with the raw bytes that follow the line, and puts
    /// its text. `Failed` comes only where the sink's count of faults rose in this call; then a front of the text was
    /// written, and the state is one in the midst of the order.
    fn perform<K: Sink>(
        &mut self,
        order: &Order,
        line: &[u8],
        payload: &[u8],
        out: &mut Outbox,
        sink: &mut K,
    ) -> Result<(), Failed>
        requires valid { rules.valid (state self.old) }
        requires is_item { IsItem (item line.now payload.now) }
        requires asked { asks line.now order.now }
        ensures told { MatchResult result
            (λ _. Performed rules Done (state self.old) order.now (item line.now payload.now) (state self.new) (output (K.held sink.old) out.old) (output (K.held sink.new) out.new))
            (λ _. Performed rules WriteFault (state self.old) order.now (item line.now payload.now) (state self.new) (output (K.held sink.old) out.old) (output (K.held sink.new) out.new)) }
        ensures still_valid { rules.valid (state self.new) }
        ensures later { K.faults sink.old ≤ K.faults sink.new }
        ensures cause { OnErr result (Rose (K.faults sink.old) (K.faults sink.new)) }
        ensures steady { OnOk result (K.faults sink.new ≡ K.faults sink.old) };

    /// A comment comes to nothing, each line to something, and what holds of every state is kept.
    ghost lawful: { Lawful rules };
}
