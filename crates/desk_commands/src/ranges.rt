ghost use Rattle.std.specs.Prelude.{◌≡◌};
ghost use Rattle.desk_model.specs.PlaceOptions.{unless_within};

use cmd_words::Refusal;

/// The refusal of a number outside its range.
pub(crate) fn unless_within(least: i32, greatest: i32, n: i32) -> Option<Refusal>
    ensures { result ≡ unless_within least greatest n }
{
    if least <= n && n <= greatest {
        None
    } else {
        Some(Refusal::BadValue { least, greatest })
    }
}
