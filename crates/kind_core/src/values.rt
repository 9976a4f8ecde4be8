ghost use Rattle.std.specs.Prelude.{◌≡◌, pos};
ghost use Rattle.kind_core.specs.declared.values.Value.TheVariants.{Number};

use crate::texts::Text;

/// The value of an attribute.
#[derive(Clone, Copy, Debug, PartialEq, Eq)]
pub enum Value {
    Number(i32),
    Words(Text),
}

impl Default for Value {
    ghost is_default = { λ value. value ≡ Number (pos 0) };

    /// The number 0: what lies in an unused place of a list of fixed capacity.
    fn default() -> Self {
        Value::Number(0)
    }
}

/// Why an attribute can't have a value.
#[derive(Clone, Copy, Debug, PartialEq, Eq)]
pub enum AttrRefusal {
    /// The kind has no such attribute, or the attribute has the other type.
    NotOfKind,
    /// The number is outside the attribute's range, which goes from `least` to `greatest`.
    OutOfRange { least: i32, greatest: i32 },
}
