ghost use Rattle.std.specs.Prelude.{◌≡◌, ◌≤◌, ◌<◌, IfSome};
ghost use Rattle.std.specs.Option.{option_map};
ghost use Rattle.geom_core.specs.Rect.{IsInRange};
ghost use Rattle.widget_model.specs.Widgets.{IsLive, rows_of};
ghost use Rattle.widget_model.specs.Forest.{IsWidgets};
ghost use Rattle.desk_model.specs.Inputs.{effects_of};
ghost use Rattle.tree_core.specs.Holds.{pointer_seen};
ghost use Rattle.input_core.specs.Seen.{effects_seen, hit_seen};
ghost use Rattle.input_core.specs.Live.{AreLive, HoldsLive};

use crate::effects::Effects;
use crate::hit::Hit;
use crate::key::on_key;
use crate::motion::on_motion;
use crate::press::on_press;
use crate::release::on_release;
use cmd_words::Input;
use geom_core::Rect;
use tree_core::{Pointer, Tree};

/// What the input asks of the desk (docs/MACHINE.md, "Input"). `hit` is the top widget at the pointer's pixel with its
/// place, None where there is none; `held` is the place of the widget that the pointer has grabbed. Places are in
/// pixels of the screen, which is `width` by `height` of them, and the pointer is on it. Nothing is changed and nothing
/// is refused; it takes no memory. It costs a few look-ups in hash maps.
#[tactic(auto, unfolding(desk_model::specs::Inputs::effects_of))]
pub fn route(
    tree: &Tree,
    pointer: &Pointer,
    hit: Option<Hit>,
    held: Option<Rect>,
    width: u32,
    height: u32,
    input: Input,
) -> Effects
    requires widgets { IsWidgets tree.now }
    requires holds { HoldsLive tree.now pointer.now }
    requires hit { IfSome hit (λ hit. IsLive tree.now hit.id.key) }
    requires place { IfSome hit (λ hit. IsInRange hit.place) }
    requires held { IfSome held IsInRange }
    requires width { width ≤ 1024 }
    requires height { height ≤ 768 }
    requires x { pointer.now.x < width }
    requires y { pointer.now.y < height }
    ensures effects { effects_seen tree.now.entries result ≡ effects_of (rows_of tree.now) (pointer_seen tree.now.entries pointer.now) (option_map (hit_seen tree.now.entries) hit) held width height input }
    ensures live { AreLive tree.now result }
{
    match input {
        Input::Motion { x, y } => on_motion(tree, pointer, held, width, height, x, y),
        Input::Press => on_press(tree, pointer, hit),
        Input::Release => on_release(tree, pointer, hit, held),
        Input::Key { byte } => on_key(tree, pointer, byte),
    }
}
