ghost use Rattle.std.specs.Prelude.{◌≡◌, ◌≤◌, ℕ, length, map, nat_eq};
ghost use Rattle.std.specs.List.{list_any};
ghost use Rattle.std.specs.Option.{option_map};
ghost use Rattle.look_data.specs.Watched.{AreWatched, has_changed};
ghost use Rattle.scene_core.specs.View.{scene_of};
ghost use Rattle.widget_model.specs.Forest.{IsWidgets};

use crate::data::LookData;
use crate::watching::{linkable, linked_looks, named_looks, tell_looks};
use arrayvec::ArrayVec;
use scene_core::View;
use shot_core::Touched;
use std::marker::Model;
use tree_core::Id;

/// The looks of the watched widgets that are shown at one moment, but for films' bytes, so that it can be told later which
/// of them have changed. Contracts see a list of numbers, each with its look. See docs/MACHINE.md, "The reach of a change".
#[derive(Drop)]
pub struct WatchedLooks {
    named: ArrayVec<(u32, LookData), 8>,
    linked: Option<ArrayVec<(u32, LookData), 128>>,
}

impl Model for WatchedLooks {
    ghost use Rattle.std.specs.Prelude.{◌++◌, ℕ, List, map};
    ghost use Rattle.look_core.specs.Seen.{Seen};
    ghost use Rattle.look_data.specs.Looks.{items_in, seen_one};

    ghost Value = { List (ℕ × Seen) };

    ghost view = { λ kept. map seen_one kept.named.items ++ map seen_one (items_in kept.linked) };
}

impl WatchedLooks {
    /// The looks in the view of these widgets, at most 8, and of the widgets that are linked to the Variable, as far as they
    /// are shown. A number that names no widget has none. It asks each of the named ones for its root and its look, and with
    /// a Variable each of its client's 128 numbers for its link.
    pub fn keep(view: &View<'_>, named: &[Id], variable: Option<Id>) -> WatchedLooks
        requires widgets { IsWidgets view.now.tree.now }
        requires few { length named.now ≤ 8 }
        ensures { AreWatched (map (λ id. id.key) named.now) (option_map (λ id. id.key) variable) view.now.tree.now view.now.stack.now (scene_of view.now) result }
    {
        match linkable(view.tree, variable) {
            Some(variable) => WatchedLooks {
                named: named_looks(view, named),
                linked: Some(linked_looks(view, variable)),
            },
            None => WatchedLooks {
                named: named_looks(view, named),
                linked: None,
            },
        }
    }

    /// Tells which of the widgets have a kept look, are shown in the view and look different there, in place of what was
    /// told before.
    pub fn tell_changed(&self, view: &View<'_>, touched: &mut Touched)
        requires widgets { IsWidgets view.now.tree.now }
        ensures told { (id : ℕ) → list_any (nat_eq id) touched.new.looks.items ≡ has_changed self.now view.now.tree.now view.now.stack.now (scene_of view.now) id }
        ensures few { length touched.new.looks.items ≤ 136 }
    {
        touched.looks.clear();
        tell_looks(self.named.as_slice(), view, &mut touched.looks);
        match &self.linked {
            Some(linked) => tell_looks(linked.as_slice(), view, &mut touched.looks),
            None => {}
        }
    }
}
