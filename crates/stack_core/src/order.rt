ghost use Rattle.std.specs.Prelude.{◌≡◌, ◌<◌, ◌↔◌, List, [], ◌∷◌, length, false, slice_get, IsErr, OnOk, OnErr, MatchOption};
ghost use Rattle.std.specs.Bool.{OnTrue, OnFalse};
ghost use Rattle.stack_core.specs.Stack.{holds_key, without, most_keys, IsStack};

use arrayvec::ArrayVec;
use std::marker::Model;

/// The stack has 128 keys already, and was not changed.
#[derive(Clone, Copy, Debug, PartialEq, Eq)]
pub struct StackFull;

/// At most 128 keys in an order from top to bottom, no key twice.
///
/// A contract sees the list of the keys, the top one first. docs/MACHINE.md has the rule.
#[derive(Debug, Drop)]
pub struct Stack {
    keys: ArrayVec<u32, 128>,
}

impl Model for Stack {
    ghost use Rattle.std.specs.Prelude.{ℕ, List};
    ghost use Rattle.stack_core.specs.Stack.{IsStack};

    ghost Value = { List ℕ };

    ghost view = { λ s. s.keys.items };

    ghost invariant = { λ s. IsStack s.keys.items };
}

impl Stack {
    /// A stack with no key. docs/MACHINE.md has the rule.
    pub fn new() -> Stack
        ensures empty { result ≡ [] }
        ensures valid { IsStack result }
    {
        Stack {
            keys: ArrayVec::new(),
        }
    }

    /// Another stack with the same keys in the same order. It takes no memory. docs/MACHINE.md has the rule.
    pub fn copy(&self) -> Stack
        ensures same { result ≡ self.now }
        ensures valid { IsStack self.now }
    {
        let mut keys = ArrayVec::new();
        match keys.try_extend_from_slice(self.keys.as_slice()) {
            Ok(()) => {}
            Err(_) => unreachable!(),
        }
        Stack { keys }
    }

    /// Puts a key that is not there on top.
    ///
    /// Answers StackFull exactly where the stack has 128 keys, and then changes nothing.
    /// docs/MACHINE.md has the rule.
    pub fn push_top(&mut self, key: u32) -> Result<(), StackFull>
        requires { holds_key self.old key ≡ false }
        ensures ok { OnOk result (self.new ≡ key ∷ self.old) }
        ensures full { IsErr result ↔ (length self.old ≡ most_keys) }
        ensures err { OnErr result (self.new ≡ self.old) }
        ensures valid { IsStack self.new }
    {
        if self.keys.is_full() {
            return Err(StackFull);
        }
        self.keys.insert(0, key);
        Ok(())
    }

    /// Takes the key out, and answers whether it was there; the others keep their order.
    ///
    /// Where it was not there nothing changes. docs/MACHINE.md has the rule.
    pub fn remove(&mut self, key: u32) -> bool
        ensures found { result ≡ holds_key self.old key }
        ensures others { self.new ≡ without self.old key }
        ensures unchanged { OnFalse result (self.new ≡ self.old) }
        ensures valid { IsStack self.new }
    {
        match place_of(self.keys.as_slice(), key) {
            Some(place) => {
                self.keys.remove(place);
                true
            }
            None => false,
        }
    }

    /// Puts a key that is there on top, and answers whether it was there; the others keep their
    /// order below it.
    ///
    /// Where it was not there nothing changes. docs/MACHINE.md has the rule.
    pub fn raise(&mut self, key: u32) -> bool
        ensures found { result ≡ holds_key self.old key }
        ensures raised { OnTrue result (self.new ≡ key ∷ without self.old key) }
        ensures unchanged { OnFalse result (self.new ≡ self.old) }
        ensures valid { IsStack self.new }
    {
        match place_of(self.keys.as_slice(), key) {
            Some(from) => {
                let raised = self.keys.remove(from);
                self.keys.insert(0, raised);
                true
            }
            None => false,
        }
    }

    /// Whether the key is there. docs/MACHINE.md has the rule.
    pub fn holds(&self, key: u32) -> bool
        ensures found { result ≡ holds_key self.now key }
        ensures valid { IsStack self.now }
    {
        place_of(self.keys.as_slice(), key).is_some()
    }

    /// The key at an index counted from 0 at the top, or None at and past the number of keys.
    /// docs/MACHINE.md has the rule.
    pub fn at(&self, index: usize) -> Option<u32>
        ensures key { result ≡ slice_get self.now index }
        ensures valid { IsStack self.now }
    {
        self.keys.as_slice().get(index).copied()
    }

    /// How many keys there are, at most 128. docs/MACHINE.md has the rule.
    pub fn len(&self) -> usize
        ensures count { result ≡ length self.now }
        ensures valid { IsStack self.now }
    {
        self.keys.len()
    }
}

/// The index of a key, or None where it is not there.
fn place_of(keys: &[u32], key: u32) -> Option<usize>
    ensures { MatchOption result (holds_key keys.now key ≡ false)
        (λ place. slice_get keys.now place ≡ Some key) }
{
    for (place, other) in keys.iter().enumerate() {
        if *other == key {
            return Some(place);
        }
    }
    None
}
