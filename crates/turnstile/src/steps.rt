//! The steps of a pass on the words: 0 is the next ticket, 1 whose turn it is, 2 how many entries
//! there are. The value lies in slot 0.
ghost use Rattle.std.specs.Prelude.{◌≡◌, ℕ, ◌+◌, ◌%◌, ◌^◌, ◌<◌, [], ◌∷◌, length, drop, Some, None};
ghost use Rattle.turnstile.specs.declared.view.Stage.TheVariants.{Out, Waits, Inside};
ghost use Rattle.turnstile.specs.Entries.{StartsWith, AllCarry};
ghost use Rattle.turnstile.specs.Views.{at_stage, arrived, gained, joint, handed, kept_back};
ghost use Rattle.turnstile.specs.Steps.{Enters, Learns};

use crate::kept::Kept;
use crate::plays::{Draws, HandsOut, Looks, Passes, Publishes, TakesIn};
use crate::rule::{Place, Words};
use crossbeam_utils::Backoff;
use std::sync::Wait;

const NEXT: usize = 0;

const TURN: usize = 1;

const LENGTH: usize = 2;

const VALUE: usize = 0;

// Draws the next ticket.
fn draw<V: Kept>(words: &Words<V>, seat: &mut Place<V>) -> u64
    requires table { (seat.old.table_id ≡ words.now.table_id) × (words.now.table_id.words ≡ 3) }
    requires outside { seat.old.me.0.stage ≡ Out }
    ensures table { seat.new.table_id ≡ seat.old.table_id }
    ensures waits { (t : ℕ) × (result ≡ t % 2 ^ 64) × (seat.new.me ≡ (at_stage (Waits t) seat.old.me.0, seat.old.me.1)) }
{
    words.fetch_add::<Draws>(seat, NEXT, 1)
}

// Waits until it is this ticket's turn. Who doesn't come to it soon gives its processor away.
fn wait_for_turn<V: Kept, R: Wait>(rt: &R, words: &Words<V>, seat: &mut Place<V>, ticket: u64)
    requires table { (seat.old.table_id ≡ words.now.table_id) × (words.now.table_id.words ≡ 3) × (words.now.key.made < 2 ^ 32) }
    requires waits { (t : ℕ) × (seat.old.me.0.stage ≡ Waits t) × (ticket ≡ t % 2 ^ 64) }
    ensures table { seat.new.table_id ≡ seat.old.table_id }
    ensures inside { (t : ℕ) × Enters V.entries V.number t seat.old.me seat.new.me }
{
    let backoff = Backoff::new();
    for _ in rt.forever() {
        let turn = words.load::<Looks>(seat, TURN);
        if turn == ticket {
            return;
        }
        if backoff.is_completed() {
            words.park(rt, TURN, (turn % 4_294_967_296) as u32);
        } else {
            backoff.snooze();
        }
    }
    unreachable!()
}

/// Draws a ticket, waits for its turn, and takes the value out of its slot.
pub(crate) fn come_in<V: Kept, R: Wait>(rt: &R, words: &Words<V>, seat: &mut Place<V>) -> V
    requires table { (seat.old.table_id ≡ words.now.table_id) × (words.now.table_id.words ≡ 3) × (words.now.key.made < 2 ^ 32) }
    requires outside { (seat.old.me.0.stage ≡ Out) × (seat.old.me.1 ≡ []) }
    ensures table { seat.new.table_id ≡ seat.old.table_id }
    ensures inside { (t : ℕ) × (seat.new.me ≡ (arrived t (V.entries result) seat.old.me.0, (0, None) ∷ [])) }
    ensures learns { Learns V.number seat.old.me.0 (V.entries result) }
{
    let ticket = draw(words, seat);
    wait_for_turn(rt, words, seat, ticket);
    match words.exchange(seat, VALUE, None) {
        Some(value) => value,
        None => unreachable!(),
    }
}

/// Puts the value back, publishes its new entries, which are `new` in number (modulo 2^64), passes
/// the turn on, and wakes those who wait.
pub(crate) fn go_out<V: Kept>(words: &Words<V>, seat: &mut Place<V>, value: V, new: u64)
    requires table { (seat.old.table_id ≡ words.now.table_id) × (words.now.table_id.words ≡ 3) }
    requires inside { (t : ℕ) × (seat.old.me.0.stage ≡ Inside t) }
    requires empty { seat.old.me.1 ≡ (0, None) ∷ [] }
    requires starts { StartsWith (V.entries value) seat.old.me.0.own.seen }
    requires carry { AllCarry V.number seat.old.me.0.own.number (drop (length seat.old.me.0.own.seen) (V.entries value)) }
    requires counts { (length seat.old.me.0.own.seen % 2 ^ 64 + new) % 2 ^ 64 ≡ length (V.entries value) % 2 ^ 64 }
    ensures table { seat.new.table_id ≡ seat.old.table_id }
    ensures outside { seat.new.me ≡ (at_stage Out (gained (V.entries value) seat.old.me.0), []) }
{
    let _empty = words.exchange(seat, VALUE, Some(value));
    words.fetch_add::<Publishes>(seat, LENGTH, new);
    let turn = words.fetch_add::<Passes>(seat, TURN, 1);
    if words.peek(NEXT) != turn.wrapping_add(1) {
        words.wake_all(TURN);
    }
}

/// Splits off a pass with the first part, and keeps the others.
pub(crate) fn split<V: Kept>(words: &Words<V>, seat: &mut Place<V>) -> Place<V>
    requires table { (seat.old.table_id ≡ words.now.table_id) × (words.now.table_id.words ≡ 3) }
    requires outside { seat.old.me.0.stage ≡ Out }
    requires second { (q : _) × (ps : _) × (seat.old.me.0.joined ≡ q ∷ ps) }
    ensures table { (seat.new.table_id ≡ seat.old.table_id) × (result.table_id ≡ seat.old.table_id) }
    ensures kept { seat.new.me ≡ (kept_back seat.old.me.0, seat.old.me.1) }
    ensures handed { result.me ≡ (handed seat.old.me.0, []) }
{
    words.split_seat::<HandsOut>(seat)
}

/// Joins another pass into this one.
pub(crate) fn join<V: Kept>(words: &Words<V>, seat: &mut Place<V>, other: Place<V>)
    requires table { (seat.old.table_id ≡ words.now.table_id) × (other.table_id ≡ words.now.table_id) × (words.now.table_id.words ≡ 3) }
    requires outside { (seat.old.me.0.stage ≡ Out) × (other.me.0.stage ≡ Out) × (other.me.1 ≡ []) }
    ensures table { seat.new.table_id ≡ seat.old.table_id }
    ensures joint { seat.new.me ≡ (joint seat.old.me.0 other.me.0, seat.old.me.1) }
{
    words.join_seat::<TakesIn>(seat, other);
}
