ghost use Rattle.std.specs.Prelude.{◌≡◌, ◌<◌, ◌≤◌, ◌==◌, [], ◌∷◌, ◌++◌, length, nat_eq};

use arrayvec::ArrayVec;
use std::marker::Model;

/// The options of one command, in the order in which they are written, at most 8. Contracts see the list.
#[derive(Debug, Drop)]
pub struct Options<T> {
    items: ArrayVec<T, 8>,
}

impl<T> Model for Options<T> {
    ghost use Rattle.std.specs.Prelude.{List, ◌≤◌, length};
    ghost use Rattle.std.specs.Coded.{coded_list};

    ghost Value = { List T };

    ghost coded = { coded_list T.code };

    ghost view = { λ o. o.items.items };

    ghost invariant = { λ o. length o.items.items ≤ 8 };
}

impl<T: Default> Options<T> {
    /// No options.
    pub fn new() -> Self
        ensures { result ≡ [] }
    {
        Options {
            items: ArrayVec::new(),
        }
    }
}

impl<T> Options<T> {
    /// The options, in order.
    pub fn as_slice(&self) -> &[T]
        ensures items { result.now ≡ self.now }
        ensures few { length self.now ≤ 8 }
    {
        self.items.as_slice()
    }

    /// Whether there are 8.
    pub fn is_full(&self) -> bool
        ensures full { result ≡ (length self.now == 8) }
        ensures few { length self.now ≤ 8 }
    {
        self.items.is_full()
    }
}

impl<T: Drop> Options<T> {
    /// Adds an option at the end.
    pub fn push(&mut self, option: T)
        requires { length self.old < 8 }
        ensures { self.new ≡ self.old ++ option ∷ [] }
    {
        self.items.push(option);
    }
}

impl<T: PartialEq> PartialEq for Options<T> {
    ghost use Rattle.std.specs.Cmp.Lexicographic.{pointwise};
    ghost use Rattle.std.specs.Cmp.Rules.{comparing};
    ghost use Rattle.std.proofs.Common.{rules};

    ghost eq = { λ a b. pointwise T.eq a b };

    ghost laws = { Prim.search (comparing, rules) };

    /// Whether the options are the same, in the same order.
    fn eq(&self, other: &Self) -> bool {
        self.as_slice() == other.as_slice()
    }
}
