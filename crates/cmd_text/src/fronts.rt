//! The front of a frame line.
ghost use Rattle.std.specs.Prelude.{◌≡◌};
ghost use Rattle.cmd_text.specs.ReadingLines.{frame_front_at};

use crate::reading::{expect, name, skip};

/// Reads the front of a frame line: a name, `.`, `frame` and `(`, with or without spaces between them.
#[tactic(auto, unfolding(crate::specs::ReadingLines::frame_front_at))]
pub(crate) fn frame_front(bytes: &[u8]) -> Result<(), usize>
    ensures { result ≡ frame_front_at bytes.now }
{
    match name(skip(bytes)) {
        Ok((_, rest)) => {
            let rest = expect(b".", skip(rest))?;
            let rest = expect(b"frame", skip(rest))?;
            expect(b"(", skip(rest))?;
            Ok(())
        }
        Err(left) => Err(left),
    }
}
