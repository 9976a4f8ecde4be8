//! Numbers that stand alone.
ghost use Rattle.std.specs.Prelude.{◌≡◌, Some, None, if◌then◌else◌};
ghost use Rattle.cmd_words.specs.Productions.{are_digits, number_of};

use crate::reading::count;

/// The number that the bytes write, where they are 1 to 7 digits; else None.
#[tactic(auto, using(crate::proofs::WholeCounts::count_alone, crate::proofs::WholeCounts::count_more, crate::proofs::WholeCounts::count_none))]
pub fn count_from(bytes: &[u8]) -> Option<u32>
    ensures { result ≡ (if are_digits bytes.now then Some (number_of bytes.now) else None) }
{
    match count(bytes) {
        Ok((number, rest)) if rest.is_empty() => Some(number),
        Ok(_) | Err(_) => None,
    }
}
