//! What is known already, by number: least sizes, and tracks of Grids.
ghost use Rattle.std.specs.Prelude.{◌≡◌, ◌%◌, ℕ, Some, None, IfSome, slice_index_or, slice_set};

use crate::size::Size;
use crate::tracks::BothTracks;

/// The tracks of the Grid with that number.
#[derive(Clone, Copy)]
pub(crate) struct KeptTracks {
    pub(crate) key: u32,
    pub(crate) tracks: BothTracks,
}

/// The least size of each number, 0 to 2,047, none where it isn't known yet, and the tracks of some Grids, each in the
/// slot that is its number modulo 16: a later Grid of that slot takes its place.
#[derive(Drop)]
pub(crate) struct Known {
    sizes: [Option<Size>; 2048],
    tracks: [Option<KeptTracks>; 16],
}

impl Known {
    /// Nothing is known.
    pub(crate) fn new() -> Known
        ensures sizes { (id : ℕ) → slice_index_or result.sizes id None ≡ None }
        ensures tracks { (slot : ℕ) → slice_index_or result.tracks slot None ≡ None }
    {
        Known {
            sizes: [None; 2048],
            tracks: [None; 16],
        }
    }

    /// The size of the number.
    pub(crate) fn get(&self, key: u32) -> Option<Size>
        ensures { result ≡ slice_index_or self.now.sizes key None }
    {
        match self.sizes.get(key as usize) {
            Some(size) => *size,
            None => None,
        }
    }

    /// Keeps the size of the number.
    pub(crate) fn put(&mut self, key: u32, size: Size)
        ensures sizes { self.new.sizes ≡ slice_set self.old.sizes key (Some size) }
        ensures tracks { self.new.tracks ≡ self.old.tracks }
    {
        if (key as usize) < self.sizes.len() {
            self.sizes[key as usize] = Some(size);
        }
    }

    /// The tracks of the Grid with that number, none where they aren't kept.
    pub(crate) fn tracks(&self, key: u32) -> Option<KeptTracks>
        ensures { IfSome result (λ kept. (kept.key ≡ key) × (slice_index_or self.now.tracks (key % 16) None ≡ Some kept)) }
    {
        match self.tracks[key as usize % 16] {
            Some(kept) => {
                if kept.key == key {
                    return Some(kept);
                }
                None
            }
            None => None,
        }
    }

    /// Keeps the tracks of the Grid with that number.
    pub(crate) fn put_tracks(&mut self, key: u32, tracks: BothTracks)
        ensures sizes { self.new.sizes ≡ self.old.sizes }
        ensures tracks { self.new.tracks ≡ slice_set self.old.tracks (key % 16) (Some (record { key = key; tracks = tracks })) }
    {
        self.tracks[key as usize % 16] = Some(KeptTracks { key, tracks });
    }
}
