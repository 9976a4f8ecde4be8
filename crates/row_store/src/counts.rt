ghost use Rattle.std.specs.Prelude.{◌≡◌, ◌<◌, Some, None, true};
ghost use Rattle.widget_model.specs.Kinds.{counts_with};
ghost use Rattle.row_store.specs.Counts.{no_count, no_counts, number_alike, one_more, one_less, count_in, gained, lost, forgotten};

use crate::count::Count;
use kind_core::Kind;
use std::marker::Model;

/// How many widgets each client, 1 to 16, has, and where the search for its next number begins. Contracts see
/// the list of the counts alone, with slots 0 to 16. See docs/MACHINE.md, "Widgets".
pub struct Counts {
    counts: [Count; 17],
    starts: [u32; 17],
}

impl Model for Counts {
    ghost use Rattle.std.specs.Prelude.{List};
    ghost use Rattle.row_store.specs.declared.count.Count.{Count};

    ghost Value = { List Count };

    ghost view = { λ c. c.counts };
}

impl Drop for Counts {
    fn drop(self) {
        let Counts {
            counts: _,
            starts: _,
        } = self;
    }
}

/// The count of a client without widgets.
fn no_count() -> Count
    ensures { result ≡ no_count }
{
    Count {
        widgets: 0,
        windows: 0,
        screens: 0,
    }
}

/// How many are counted: all widgets, or those that are counted with a kind.
fn number_alike(count: Count, alike: Option<Kind>) -> u32
    ensures { result ≡ number_alike alike count }
{
    match alike {
        None => count.widgets,
        Some(Kind::Window) => count.windows,
        Some(Kind::VScreen) => count.screens,
        Some(_) => 0,
    }
}

/// The count with one more widget of the kind.
fn one_more(count: Count, kind: Kind) -> Count
    requires room { number_alike None count < 128 }
    requires alike { number_alike (Some kind) count < 8 }
    ensures { result ≡ one_more kind count }
{
    let mut count = count;
    count.widgets += 1;
    match kind {
        Kind::Window => count.windows += 1,
        Kind::VScreen => count.screens += 1,
        _ => {}
    }
    count
}

/// The count with one widget of the kind less.
fn one_less(count: Count, kind: Kind) -> Count
    requires any { 0 < number_alike None count }
    requires alike { counts_with kind kind ≡ true → 0 < number_alike (Some kind) count }
    ensures { result ≡ one_less kind count }
{
    let mut count = count;
    count.widgets -= 1;
    match kind {
        Kind::Window => count.windows -= 1,
        Kind::VScreen => count.screens -= 1,
        _ => {}
    }
    count
}

impl Counts {
    /// No client has a widget.
    pub fn new() -> Counts
        ensures { result ≡ no_counts }
    {
        Counts {
            counts: [no_count(); 17],
            starts: [0; 17],
        }
    }

    /// The same counts, and the search for each client's next number begins where it does here. It takes no memory.
    pub fn copy(&self) -> Counts
        ensures { result ≡ self.now }
    {
        Counts {
            counts: self.counts,
            starts: self.starts,
        }
    }

    /// How many widgets the client, 0 to 16, has: all of them, or those that are counted with a kind. Windows
    /// are counted with Windows and VScreens with VScreens; no others are counted with a kind.
    pub fn has(&self, client: u32, alike: Option<Kind>) -> u32
        requires { client < 17 }
        ensures { result ≡ number_alike alike (count_in self.now client) }
    {
        number_alike(self.counts[client as usize], alike)
    }

    /// Where the search for the client's next number begins, from 0 at the client's first number.
    pub fn start(&self, client: u32) -> u32
        requires { client < 17 }
        ensures { result < 128 }
    {
        self.starts[client as usize] % 128
    }

    /// Counts a new widget of the client. The search for the next number begins after this one's.
    pub fn gain(&mut self, client: u32, kind: Kind, id: u32)
        requires client { client < 17 }
        requires room { number_alike None (count_in self.old client) < 128 }
        requires alike { number_alike (Some kind) (count_in self.old client) < 8 }
        ensures { self.new ≡ gained client kind self.old }
    {
        let slot = client as usize;
        self.counts[slot] = one_more(self.counts[slot], kind);
        self.starts[slot] = id % 128 + 1;
    }

    /// Counts a widget of the client no more.
    pub fn lose(&mut self, client: u32, kind: Kind)
        requires client { client < 17 }
        requires any { 0 < number_alike None (count_in self.old client) }
        requires alike { counts_with kind kind ≡ true → 0 < number_alike (Some kind) (count_in self.old client) }
        ensures { self.new ≡ lost client kind self.old }
    {
        let slot = client as usize;
        self.counts[slot] = one_less(self.counts[slot], kind);
    }

    /// Counts no widget of the client.
    pub fn forget(&mut self, client: u32)
        requires { client < 17 }
        ensures { self.new ≡ forgotten client self.old }
    {
        let slot = client as usize;
        self.counts[slot] = no_count();
        self.starts[slot] = 0;
    }
}
