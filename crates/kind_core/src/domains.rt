/// What an attribute of a kind takes.
#[derive(Clone, Copy)]
pub(crate) enum Domain {
    /// Numbers from `least` to `greatest`, at first `default`.
    Numbers {
        least: i32,
        greatest: i32,
        default: i32,
    },
    /// Texts, at first the empty one.
    Texts,
    /// The kind has no such attribute.
    Absent,
}
