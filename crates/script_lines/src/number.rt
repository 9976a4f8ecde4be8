//! Numbers in the lines of a script and in the words of a command line.
ghost use Rattle.std.specs.Prelude.{◌≡◌, ℕ, Some, IfSome};
ghost use Rattle.script_lines.specs.Numbers.{number_from};

use crate::digits::number_at;

/// The number that the bytes write, where they are 1 to 7 digits and it is from `least` to `most`; else None.
/// See docs/MACHINE.md, "Scripts".
pub fn number_in(least: u32, most: u32, bytes: &[u8]) -> Option<u32>
    // What is read is such a number.
    ensures found { IfSome result (λ n. number_from least most bytes.now n) }

    // Each such number is read.
    ensures all { (n : ℕ) → number_from least most bytes.now n → result ≡ Some n }
{
    number_at(least, most, bytes)
}
