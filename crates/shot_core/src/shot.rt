//! What the screen shows at one moment, by numbers.
ghost use Rattle.std.specs.Prelude.{◌≡◌, ◌<◌, ◌++◌, ◌∷◌, [], ℕ, false, length, nat_eq, Some, None, IfOk, slice_get, slice_index_or, slice_set};
ghost use Rattle.std.specs.List.{list_any};
ghost use Rattle.shot_core.specs.Shot.{AreListed, IsShot, IsBare, most_numbers, spot_at, windows_in};

use crate::no_memory::NoMemory;
use crate::spot::Spot;
use arrayvec::ArrayVec;
use geom_core::Rect;
use std::alloc::Global;
use std::marker::Model;

/// What the screen shows at one moment: the open windows from top to bottom, each with its place, and for each number
/// below 2,048 the spot of the shown row that has it. It lists the numbers that have one, so that the work of a shot goes
/// by the rows that are shown. See docs/MACHINE.md, "The reach of a change".
pub struct Shot {
    windows: ArrayVec<(u32, Rect), 128>,
    spots: Vec<Option<Spot>>,
    numbers: ArrayVec<u32, 2048>,
}

impl Model for Shot {
    ghost use Rattle.shot_core.specs.Shot.{Seen, IsShot};

    ghost Value = { Seen };

    ghost view = { λ s. record { windows = s.windows.items; spots = s.spots.items; numbers = s.numbers.items } };

    ghost invariant = { λ s. IsShot (record { windows = s.windows.items; spots = s.spots.items; numbers = s.numbers.items }) };
}

impl Drop for Shot {
    fn drop(self) {
        let Shot {
            windows: _,
            spots: _,
            numbers: _,
        } = self;
    }
}

impl Shot {
    /// A shot with no windows and no spots. `NoMemory` comes only for want of memory.
    pub fn new(alloc: Global) -> Result<Shot, NoMemory>
        ensures bare { IfOk result (λ shot. IsBare shot) }
        ensures valid { IfOk result (λ shot. IsShot shot) }
    {
        let spots = no_spots(alloc, 2048)?;
        Ok(Shot {
            windows: ArrayVec::new(),
            spots,
            numbers: ArrayVec::new(),
        })
    }

    /// Takes all windows and spots out. It goes over the numbers that have a spot, and no others.
    pub fn clear(&mut self)
        ensures bare { IsBare self.new }
        ensures valid { IsShot self.new }
    {
        self.windows.clear();
        clear_spots(&mut self.spots, self.numbers.as_slice());
        self.numbers.clear();
    }

    /// Puts an open window, which isn't there yet, with its place below the others. At most 128 are open.
    pub fn put_window(&mut self, window: u32, place: Rect)
        requires few { length self.old.windows < 128 }
        requires absent { list_any (nat_eq window) (windows_in self.old) ≡ false }
        ensures windows { self.new.windows ≡ self.old.windows ++ (window, place) ∷ [] }
        ensures spots { self.new.spots ≡ self.old.spots }
        ensures valid { IsShot self.new }
    {
        self.windows.push((window, place));
    }

    /// Gives the number, which is below 2,048 as the window's is, this spot.
    #[tactic(auto, unfolding(crate::specs::Shot::most_numbers))]
    pub fn put_spot(&mut self, key: u32, spot: Spot)
        requires key { key < most_numbers }
        requires window { spot.window < most_numbers }
        ensures spots { self.new.spots ≡ slice_set self.old.spots key (Some spot) }
        ensures windows { self.new.windows ≡ self.old.windows }
        ensures valid { IsShot self.new }
    {
        let is_new = self.spots[key as usize].is_none();
        self.spots[key as usize] = Some(spot);
        if is_new {
            self.numbers.push(key);
        }
    }

    /// The open window at that index, from 0 at the top, and its place; `None` exactly where the index is at or past
    /// the number of windows.
    pub fn window(&self, index: usize) -> Option<(u32, Rect)>
        ensures window { result ≡ slice_get self.now.windows index }
        ensures valid { IsShot self.now }
    {
        self.windows.get(index).copied()
    }

    /// All open windows from top to bottom, each with its place.
    pub fn windows(&self) -> &[(u32, Rect)]
        ensures windows { result.now ≡ self.now.windows }
        ensures valid { IsShot self.now }
    {
        self.windows.as_slice()
    }

    /// The spot of the shown row with that number, which is below 2,048; `None` exactly where no shown row has it.
    #[tactic(auto, unfolding(crate::specs::Shot::most_numbers))]
    pub fn spot(&self, key: u32) -> Option<Spot>
        requires { key < most_numbers }
        ensures spot { result ≡ spot_at self.now key }
        ensures valid { IsShot self.now }
    {
        self.spots[key as usize]
    }

    /// The numbers that have a spot, each one once, in no order that a caller may rely on.
    pub fn numbers(&self) -> &[u32]
        ensures numbers { result.now ≡ self.now.numbers }
        ensures valid { IsShot self.now }
    {
        self.numbers.as_slice()
    }
}

// So many places without a spot.
fn no_spots(alloc: Global, count: usize) -> Result<Vec<Option<Spot>>, NoMemory>
    ensures len { IfOk result (λ spots. length spots.items ≡ count) }
    ensures none { IfOk result (λ spots. (key : ℕ) → slice_index_or spots.items key None ≡ None) }
{
    let mut spots = Vec::new(alloc);
    for _i in 0..count {
        match spots.push(None) {
            Ok(()) => {}
            Err(_) => return Err(NoMemory),
        }
    }
    Ok(spots)
}

// Takes all spots out, where these are the numbers that have one.
fn clear_spots(spots: &mut [Option<Spot>], numbers: &[u32])
    requires { AreListed spots.old numbers.now }
    ensures len { length spots.new ≡ length spots.old }
    ensures none { (key : ℕ) → slice_index_or spots.new key None ≡ None }
{
    for number in numbers {
        spots[*number as usize] = None;
    }
}
