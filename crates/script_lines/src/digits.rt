//! Numbers in a range, and clients.
ghost use Rattle.std.specs.Prelude.{◌≡◌, ℕ, ◌≤◌, Option, IfSome};
ghost use Rattle.script_lines.specs.Numbers.{IsClient};
ghost use Rattle.script_lines.specs.Reading.{number_at, begins_with_zero, client_at};

use cmd_text::count_from;

/// The number that the bytes write, where they are 1 to 7 digits and it is from `least` to `most`.
#[tactic(auto, unfolding(crate::specs::Reading::number_at))]
pub(crate) fn number_at(least: u32, most: u32, bytes: &[u8]) -> Option<u32>
    ensures number { result ≡ number_at least most bytes.now }
    ensures within { IfSome result (λ n. (least ≤ n) × (n ≤ most)) }
{
    let number = count_from(bytes)?;
    if number < least || most < number {
        return None;
    }
    Some(number)
}

/// Whether the first byte is `0`.
fn begins_with_zero(bytes: &[u8]) -> bool
    ensures { result ≡ begins_with_zero bytes.now }
{
    match bytes {
        [first, ..] => *first == b'0',
        [] => false,
    }
}

/// The client whose number the bytes are.
#[tactic(auto, unfolding(crate::specs::Reading::client_at))]
pub(crate) fn client_at(bytes: &[u8]) -> Option<u32>
    ensures client { result ≡ client_at bytes.now }
    ensures within { IfSome result IsClient }
{
    if begins_with_zero(bytes) {
        return None;
    }
    number_at(1, 16, bytes)
}
