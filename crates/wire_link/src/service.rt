//! What a session's lines are carried out by.
ghost use Rattle.std.specs.Prelude.{◌≡◌, ℕ, ◌≤◌, Bool, true, false, List, Option};
ghost use Rattle.desk_model.specs.Commands.{IsPayload};
ghost use Rattle.wire_link.specs.Calls.{Call, Kept, Called, ledger, is_number, ticked};
ghost use Rattle.wire_link.specs.Calls.Answer.{Replied};

use cmd_text::{Command, Drew, Input, Refusal, Reply};
use std::sync::Wait;

/// What a session's lines are carried out by. A call may wait; what is said of it holds if it returns. Each call is
/// kept with its answer; or it is answered error 1, for want of memory, isn't kept, and raises the count of refusals,
/// which never falls. docs/MACHINE.md, "The lines of a connection", has the rules.
pub trait Service {
    /// Whether the session has a client: from a `hello` on that was answered with a number, up to a `bye`.
    ghost has_client: { Self → Bool };

    /// The calls that were kept with their answers, in order, where the service tells them.
    ghost kept: { Self → Option (List Kept) };

    /// How many calls were refused; the count stays at 18,446,744,073,709,551,615 once it is there.
    ghost refusals: { Self → ℕ };

    /// The session asks for a client. Its number is answered, or a refusal.
    fn hello<R: Wait>(&mut self, rt: &R) -> Reply
        requires { has_client self.old ≡ false }
        ensures called { Called (ledger (kept self.old) (refusals self.old)) (ledger (kept self.new) (refusals self.new)) Call.Hello (Replied result) }
        ensures client { has_client self.new ≡ is_number result }
        ensures later { refusals self.old ≤ refusals self.new };

    /// The client gives a command, with the bytes that come with it.
    fn ask<R: Wait>(&mut self, rt: &R, command: Command, payload: &[u8]) -> Reply
        requires client { has_client self.old ≡ true }
        requires payload { IsPayload command payload.now }
        ensures called { Called (ledger (kept self.old) (refusals self.old)) (ledger (kept self.new) (refusals self.new)) (Call.Ask command payload.now) (Replied result) }
        ensures client { has_client self.new ≡ has_client self.old }
        ensures later { refusals self.old ≤ refusals self.new };

    /// The pointer or the keyboard does something.
    fn feed<R: Wait>(&mut self, rt: &R, input: Input) -> Reply
        ensures called { Called (ledger (kept self.old) (refusals self.old)) (ledger (kept self.new) (refusals self.new)) (Call.Feed input) (Replied result) }
        ensures client { has_client self.new ≡ has_client self.old }
        ensures later { refusals self.old ≤ refusals self.new };

    /// Time goes on by one tick: what it drew, or a refusal.
    fn tick<R: Wait>(&mut self, rt: &R) -> Result<Drew, Refusal>
        ensures called { Called (ledger (kept self.old) (refusals self.old)) (ledger (kept self.new) (refusals self.new)) Call.Tick (ticked result) }
        ensures client { has_client self.new ≡ has_client self.old }
        ensures later { refusals self.old ≤ refusals self.new };

    /// The client leaves.
    fn bye<R: Wait>(&mut self, rt: &R) -> Reply
        requires { has_client self.old ≡ true }
        ensures called { Called (ledger (kept self.old) (refusals self.old)) (ledger (kept self.new) (refusals self.new)) Call.Bye (Replied result) }
        ensures client { has_client self.new ≡ false }
        ensures later { refusals self.old ≤ refusals self.new };
}
