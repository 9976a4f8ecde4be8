ghost use Rattle.std.specs.Prelude.{◌≡◌, ◌<◌, ◌≤◌, ◌+◌, ◌*◌, ◌-◌, [], None, OnOk, IfOk, length, slice_set, slice_index_or};
ghost use Rattle.widget_model.specs.KeptPlaces.{most_numbers, no_places, place_in, placed, emptied, unplaced};
ghost use Rattle.row_store.specs.KeptSlots.{filled_up, kept_of};

use geom_core::Rect;
use std::alloc::{AllocError, Global};
use std::marker::Model;

/// How many numbers each client has, with a slot for each.
const CLIENT_NUMBERS: usize = 128;

/// The place that is kept of each widget, in a slot at its number. Contracts see the slots of all 2,048 numbers, and
/// how many of them are made, from the lowest on. See docs/MACHINE.md, "Widgets".
pub struct KeptPlaces {
    places: Vec<Option<Rect>>,
}

impl Model for KeptPlaces {
    ghost use Rattle.std.specs.Prelude.{◌≤◌, length};
    ghost use Rattle.widget_model.specs.KeptPlaces.{most_numbers};
    ghost use Rattle.row_store.specs.KeptSlots.{Kept, kept_of};

    ghost Value = { Kept };

    ghost view = { λ k. kept_of k.places.items };

    ghost invariant = { λ k. length k.places.items ≤ most_numbers };
}

impl Drop for KeptPlaces {
    fn drop(self) {
        let KeptPlaces { places: _ } = self;
    }
}

impl KeptPlaces {
    /// No places, and no slots. It takes no memory yet.
    pub fn new(alloc: Global) -> KeptPlaces
        ensures slots { result.slots ≡ no_places }
        ensures made { result.made ≡ 0 }
    {
        KeptPlaces {
            places: Vec::new(alloc),
        }
    }

    /// The same places in the same slots, in one move. An error, which is want of memory, leaves nothing behind.
    pub fn copy(&self) -> Result<KeptPlaces, AllocError>
        ensures { IfOk result (λ copy. copy ≡ self.now) }
    {
        Ok(KeptPlaces {
            places: Vec::from_slice(*self.places.allocator(), &self.places)?,
        })
    }

    /// Makes the slots of the client's numbers, client 1 to 16, and of all lower ones. An error, which is want of
    /// memory, leaves each place as it was.
    pub fn grow(&mut self, client: u32) -> Result<(), AllocError>
        requires { client ≤ 16 }
        ensures slots { self.new.slots ≡ self.old.slots }
        ensures longer { self.old.made ≤ self.new.made }
        ensures reach { OnOk result (128 * client ≤ self.new.made) }
    {
        make_slots(&mut self.places, CLIENT_NUMBERS * client as usize)
    }

    /// The place in the slot of the number, None exactly where it is empty.
    pub fn at(&self, id: u32) -> Option<Rect>
        ensures { result ≡ place_in self.now.slots id }
    {
        place_at(&self.places, id as usize)
    }

    /// Puts a place into the slot of the number, which is made, or empties it.
    pub fn put(&mut self, id: u32, place: Option<Rect>)
        requires { id < self.old.made }
        ensures slots { self.new.slots ≡ placed id place self.old.slots }
        ensures made { self.new.made ≡ self.old.made }
    {
        self.places[id as usize] = place;
    }

    /// Empties the slots of the client's numbers, client 1 to 16, which are made, and no others.
    pub fn clear(&mut self, client: u32)
        requires low { 1 ≤ client }
        requires high { client ≤ 16 }
        requires made { 128 * client ≤ self.old.made }
        ensures slots { self.new.slots ≡ unplaced client self.old.slots }
        ensures made { self.new.made ≡ self.old.made }
    {
        let end = CLIENT_NUMBERS * client as usize;
        empty_slots(&mut self.places, end - CLIENT_NUMBERS, CLIENT_NUMBERS);
    }
}

fn make_slots(places: &mut Vec<Option<Rect>>, len: usize) -> Result<(), AllocError>
    requires old { length places.old.items ≤ most_numbers }
    requires new { len ≤ most_numbers }
    ensures slots { filled_up most_numbers places.new.items ≡ filled_up most_numbers places.old.items }
    ensures most { length places.new.items ≤ most_numbers }
    ensures longer { length places.old.items ≤ length places.new.items }
    ensures reach { OnOk result (len ≤ length places.new.items) }
{
    for slot in places.len()..len {
        places.push(None)?;
    }
    Ok(())
}

fn place_at(places: &[Option<Rect>], slot: usize) -> Option<Rect>
    ensures { result ≡ slice_index_or places.now slot None }
{
    match places.get(slot) {
        Some(place) => *place,
        None => None,
    }
}

fn empty_slots(places: &mut Vec<Option<Rect>>, first: usize, count: usize)
    requires { first + count ≤ length places.old.items }
    ensures emptied { places.new.items ≡ emptied count first places.old.items }
    ensures length { length places.new.items ≡ length places.old.items }
{
    for slot in 0..count {
        places[first + slot] = None;
    }
}
