//! The parts of a line.
ghost use Rattle.std.specs.Prelude.{◌≡◌, ◌<◌, ◌==◌, length, option_map, IfSome};
ghost use Rattle.std.specs.Option.{option_copied};
ghost use Rattle.script_lines.specs.Reading.{after, space_in, parted};

/// What follows `start`, where the line begins with it.
#[tactic(auto, unfolding(crate::specs::Reading::after))]
pub(crate) fn after<'a>(start: &[u8], line: &'a [u8]) -> Option<&'a [u8]>
    ensures { option_copied result ≡ after start.now line.now }
{
    line.strip_prefix(start)
}

/// The index of the first space.
fn space_in(text: &[u8]) -> Option<usize>
    ensures index { result ≡ space_in text.now }
    ensures within { IfSome result (λ index. index < length text.now) }
{
    text.iter().position(|byte| *byte == b' ')
}

/// What stands before the first space, and what stands behind it.
#[tactic(auto, unfolding(crate::specs::Reading::parted))]
pub(crate) fn parted(text: &[u8]) -> Option<(&[u8], &[u8])>
    ensures { option_map (λ parts. (parts.0.now, parts.1.now)) result ≡ parted text.now }
{
    let index = space_in(text)?;
    Some((&text[..index], &text[index + 1..]))
}
