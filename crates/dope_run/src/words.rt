//! What the words of a command line order.
ghost use Rattle.std.specs.Prelude.{◌≡◌, map, string_bytes, IfOk, IfErr};
ghost use Rattle.kind_core.specs.declared.shapes.Shape.{Shape};
ghost use Rattle.scene_model.specs.Shapes.{IsShape};
ghost use Rattle.command_line.specs.declared.order.Order.{Order};
ghost use Rattle.command_line.specs.Law.{Orders};

use command_line::{Order, Unread, read};
use kind_core::Shape;
use std::alloc::Global;

/// The shape of the screen on which the words order a script to be played. `Usage` comes only where they order none:
/// the other commands of the table aren't built yet. See docs/GUIDE.md, "The words".
pub fn play_shape(alloc: Global, words: &[String]) -> Result<Shape, Unread>
    ensures ordered { IfOk result (λ shape. Orders (map string_bytes words.now) (Order.Play shape)) }
    ensures within { IfOk result IsShape }
    ensures usage { IfErr result (λ e. e ≡ Unread.Usage → (shape : Shape) → ¬ Orders (map string_bytes words.now) (Order.Play shape)) }
{
    match read(alloc, words) {
        Ok(Order::Play(shape)) => Ok(shape),
        Ok(_) => Err(Unread::Usage),
        Err(error) => Err(error),
    }
}
