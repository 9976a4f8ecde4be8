ghost use Rattle.std.specs.Prelude.{◌≡◌, ℕ, List, length, ◌%◌, ◌^◌};

/// A value that keeps a list of entries, each with a number, as a journal does.
/// A turn may put entries behind those that are there, and changes none of them.
pub trait Kept: Drop {
    /// What an entry is. No value of it is made here.
    type Entry;

    // the entries, oldest first
    ghost entries: { Self → List Self.Entry };

    // the number of the pass that an entry belongs to
    ghost number: { Self.Entry → ℕ };

    /// How many entries there are, modulo 2^64.
    fn len(&self) -> u64
        ensures { result ≡ length (entries self.now) % 2 ^ 64 };
}
