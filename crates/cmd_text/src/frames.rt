//! Frame lines.
ghost use Rattle.std.specs.Prelude.{◌↔◌, IsTrue};
ghost use Rattle.cmd_text.specs.FrameLine.{IsFrameLine};

use crate::fronts::frame_front;

/// Whether the line begins as a `frame` command does, so that the bytes of a frame follow it
/// (docs/GUIDE.md, "Frame lines"). What is behind the `(` doesn't matter.
pub fn is_frame_line(line: &[u8]) -> bool
    ensures frame { IsTrue result ↔ IsFrameLine line.now }
{
    frame_front(line).is_ok()
}
