//! The calls of a turnstile.
ghost use Rattle.std.specs.Prelude.{◌≡◌, ◌+◌, ◌<◌, ◌≤◌, [], ◌∷◌, ◌++◌, map, length, drop, nat_lt, vec_len, IfOk, IfErr, OnOk};
ghost use Rattle.std.specs.List.{All, range_with_len};
ghost use Rattle.turnstile.specs.Entries.{StartsWith, AllCarry, Tallies, HaveAll, added, carrying};
ghost use Rattle.turnstile.specs.Making.{IsMaker};
ghost use Rattle.turnstile.specs.Passes.{IsPassOf, IsSamePass, IsOut, IsInside, IsNew, number_of, seen, mine, opening, parts_of, parts_together, made_of};

use crate::kept::Kept;
use crate::missing::Missing;
use crate::no_memory::NoMemory;
use crate::pass::Pass;
use crate::rule::{Gate, Start};
use crate::short::Short;
use crate::steps::{come_in, go_out, join, split};
use crate::turnstile::Turnstile;
use std::alloc::Global;
use std::snapshot::Snapshot;
use std::sync::Wait;

impl<V: Kept> Turnstile<V> {
    /// A turnstile round `value`, and as many passes as are asked for, at least one, with the
    /// numbers from 0 on in order. `NoMemory` comes only for want of memory.
    pub fn new(
        alloc: Global,
        value: V,
        passes: u32,
    ) -> Result<(Turnstile<V>, Vec<Pass<V>>), NoMemory>
        requires some { 0 < passes }
        ensures made { IfOk result (λ r. made_of r.0 ≡ passes) }
        ensures new { IfOk result (λ r. All (IsNew V.entries r.0 (V.entries value)) r.1.items) }
        ensures numbers { IfOk result (λ r. map number_of r.1.items ≡ range_with_len 0 passes) }
    {
        match Turnstile::first_pass(alloc, value, passes) {
            Ok((gate, maker)) => match gate.split_all(alloc, maker) {
                Ok(passes) => Ok((gate, passes)),
                Err(NoMemory) => Err(NoMemory),
            },
            Err(NoMemory) => Err(NoMemory),
        }
    }

    // The turnstile, and the pass from which all others are split off.
    fn first_pass(alloc: Global, value: V, passes: u32) -> Result<(Turnstile<V>, Pass<V>), NoMemory>
        requires some { 0 < passes }
        ensures made { IfOk result (λ r. made_of r.0 ≡ passes) }
        ensures maker { IfOk result (λ r. IsMaker V.entries r.0 (V.entries value) r.1) }
        ensures number { IfOk result (λ r. number_of r.1 ≡ 0) }
    {
        let about = Start {
            made: passes,
            value: Snapshot::of(&value),
        };
        let words = [0, 0, value.len()];
        let mut slots = Vec::new(alloc);
        if slots.push(Some(value)).is_err() {
            return Err(NoMemory);
        }
        match Gate::new(alloc, &words, slots, &about) {
            Ok((table, seat)) => {
                let gate = Turnstile {
                    table,
                    made: passes,
                };
                let maker = Pass {
                    seat,
                    number: 0,
                    len: 0,
                };
                Ok((gate, maker))
            }
            Err(_) => Err(NoMemory),
        }
    }

    // Splits off the pass with the maker's number; the maker has the next one.
    fn split_one(&self, maker: &mut Pass<V>) -> Pass<V>
        requires maker { IsMaker V.entries self.now (seen maker.old) maker.old }
        requires more { number_of maker.old + 1 < made_of self.now }
        ensures maker { IsMaker V.entries self.now (seen maker.old) maker.new }
        ensures same { seen maker.new ≡ seen maker.old }
        ensures next { number_of maker.new ≡ number_of maker.old + 1 }
        ensures new { IsNew V.entries self.now (seen maker.old) result }
        ensures number { number_of result ≡ number_of maker.old }
    {
        let number = maker.number;
        let seat = split(&self.table.shared, &mut maker.seat);
        maker.number = number + 1;
        Pass {
            seat,
            number,
            len: 0,
        }
    }

    fn split_all(&self, alloc: Global, maker: Pass<V>) -> Result<Vec<Pass<V>>, NoMemory>
        requires maker { IsMaker V.entries self.now (seen maker) maker }
        requires first { number_of maker ≡ 0 }
        ensures new { IfOk result (λ v. All (IsNew V.entries self.now (seen maker)) v.items) }
        ensures numbers { IfOk result (λ v. map number_of v.items ≡ range_with_len 0 (made_of self.now)) }
    {
        let mut maker = maker;
        let mut passes = Vec::new(alloc);
        for _next in 1..self.made {
            let pass = self.split_one(&mut maker);
            if passes.push(pass).is_err() {
                return Err(NoMemory);
            }
        }
        match passes.push(maker) {
            Ok(()) => Ok(passes),
            Err(_) => Err(NoMemory),
        }
    }

    /// Waits for the pass's turn, and hands the value out.
    ///
    /// Its entries begin with those that the pass saw last, and of those behind the opening ones
    /// just the pass's own carry its number. A pass into which all others were gathered has all of
    /// them.
    pub fn enter<R: Wait>(&self, rt: &R, pass: &mut Pass<V>) -> V
        requires own { IsPassOf V.entries self.now pass.old }
        requires outside { IsOut pass.old }
        ensures own { IsPassOf V.entries self.now pass.new }
        ensures inside { IsInside pass.new }
        ensures same { IsSamePass pass.old pass.new }
        ensures seen { seen pass.new ≡ V.entries result }
        ensures mine { mine pass.new ≡ mine pass.old }
        ensures begins { StartsWith (V.entries result) (seen pass.old) }
        ensures added { added V.number (opening pass.old) (number_of pass.old) (V.entries result) ≡ mine pass.old }
        ensures added_before { added V.number (opening pass.old) (number_of pass.old) (seen pass.old) ≡ mine pass.old }
        ensures none_between { carrying V.number (number_of pass.old) (drop (length (seen pass.old)) (V.entries result)) ≡ [] }
        ensures tallies { All (Tallies V.number (opening pass.old) (V.entries result)) (parts_of pass.old) }
        ensures whole { made_of self.now ≤ length (parts_of pass.old) → HaveAll (opening pass.old) (V.entries result) (parts_of pass.old) }
    {
        let value = come_in(rt, &self.table.shared, &mut pass.seat);
        pass.len = value.len();
        value
    }

    /// Gives the value back, which may have new entries with the pass's number, and passes the turn
    /// on.
    pub fn leave(&self, pass: &mut Pass<V>, value: V)
        requires own { IsPassOf V.entries self.now pass.old }
        requires inside { IsInside pass.old }
        requires begins { StartsWith (V.entries value) (seen pass.old) }
        requires carry { AllCarry V.number (number_of pass.old) (drop (length (seen pass.old)) (V.entries value)) }
        ensures own { IsPassOf V.entries self.now pass.new }
        ensures outside { IsOut pass.new }
        ensures same { IsSamePass pass.old pass.new }
        ensures seen { seen pass.new ≡ V.entries value }
        ensures mine { mine pass.new ≡ mine pass.old ++ drop (length (seen pass.old)) (V.entries value) }
    {
        let new = value.len().wrapping_sub(pass.len);
        go_out(&self.table.shared, &mut pass.seat, value, new);
    }

    // Whether fewer passes are given than were made.
    fn lacks(&self, given: usize) -> bool
        ensures { result ≡ nat_lt given (made_of self.now) }
    {
        given < self.made as usize
    }

    // Joins these passes, at least one, into the last of them.
    fn join_all(&self, passes: Vec<Pass<V>>) -> Pass<V>
        requires some { 0 < vec_len passes }
        requires own { All (IsPassOf V.entries self.now) passes.items }
        requires outside { All IsOut passes.items }
        ensures own { IsPassOf V.entries self.now result }
        ensures outside { IsOut result }
        ensures parts { parts_of result ≡ parts_together passes.items }
    {
        let mut passes = passes;
        let mut all = match passes.pop() {
            Some(pass) => pass,
            None => unreachable!(),
        };
        while let Some(other) = passes.pop() {
            self.join_one(&mut all, other);
        }
        all
    }

    fn join_one(&self, all: &mut Pass<V>, other: Pass<V>)
        requires own { IsPassOf V.entries self.now all.old × IsPassOf V.entries self.now other }
        requires outside { IsOut all.old × IsOut other }
        ensures own { IsPassOf V.entries self.now all.new }
        ensures outside { IsOut all.new }
        ensures parts { parts_of all.new ≡ parts_of all.old ++ parts_of other }
    {
        join(&self.table.shared, &mut all.seat, other.into_seat());
    }

    /// Joins all passes into one, which has the number of the last one and keeps the number and the
    /// entries of each. It takes no memory. `Short` comes exactly where fewer passes are given than
    /// were made; they come back. A pass that was gathered counts as one.
    pub fn gather(&self, passes: Vec<Pass<V>>) -> Result<Pass<V>, Short<V>>
        requires own { All (IsPassOf V.entries self.now) passes.items }
        requires outside { All IsOut passes.items }
        ensures own { IfOk result (λ p. IsPassOf V.entries self.now p × IsOut p) }
        ensures parts { IfOk result (λ p. parts_of p ≡ parts_together passes.items) }
        ensures whole { IfOk result (λ p. made_of self.now ≤ length (parts_of p)) }
        ensures enough { OnOk result (made_of self.now ≤ vec_len passes) }
        ensures short { IfErr result (λ s. vec_len passes < made_of self.now) }
        ensures told { IfErr result (λ s. (s.given ≡ vec_len passes) × (s.made ≡ made_of self.now)) }
        ensures back { IfErr result (λ s. s.passes ≡ passes) }
    {
        let given = passes.len();
        if self.lacks(given) {
            return Err(Short {
                passes,
                given: given as u32,
                made: self.made,
            });
        }
        Ok(self.join_all(passes))
    }

    /// Takes the turnstile down, and hands the value back. `Missing` comes exactly where fewer
    /// passes are given than were made; all comes back.
    pub fn close(self, passes: Vec<Pass<V>>) -> Result<V, Missing<V>>
        requires own { All (IsPassOf V.entries self) passes.items }
        requires outside { All IsOut passes.items }
        ensures tallies { IfOk result (λ v. All (λ p. All (Tallies V.number (opening p) (V.entries v)) (parts_of p)) passes.items) }
        ensures whole { IfOk result (λ v. All (λ p. HaveAll (opening p) (V.entries v) (parts_together passes.items)) passes.items) }
        ensures enough { OnOk result (made_of self ≤ vec_len passes) }
        ensures missing { IfErr result (λ m. vec_len passes < made_of self) }
        ensures told { IfErr result (λ m. (m.given ≡ vec_len passes) × (m.made ≡ made_of self)) }
        ensures back { IfErr result (λ m. (m.gate ≡ self) × (m.passes ≡ passes)) }
    {
        let given = passes.len();
        if self.lacks(given) {
            let (given, made) = (given as u32, self.made);
            return Err(Missing {
                gate: self,
                passes,
                given,
                made,
            });
        }
        let all = self.join_all(passes);
        Ok(self.into_value(all))
    }

    // The value, once all passes are joined into one.
    fn into_value(self, all: Pass<V>) -> V
        requires own { IsPassOf V.entries self all }
        requires outside { IsOut all }
        requires whole { made_of self ≤ length (parts_of all) }
        ensures tallies { All (Tallies V.number (opening all) (V.entries result)) (parts_of all) }
        ensures whole { HaveAll (opening all) (V.entries result) (parts_of all) }
    {
        let mut closed = self.into_table().close_with(all.into_seat());
        let value = closed.take(0);
        closed.free();
        match value {
            Some(value) => value,
            None => unreachable!(),
        }
    }
}
