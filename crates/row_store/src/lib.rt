//! The storage under the tree of widgets: numbered rows in the order of making, the numbers under clients'
//! names, the table of children, and the counts of each client. How widgets hang in one another is said above.
#![tactic(auto)]

mod cells;
mod change;
mod count;
mod counts;
mod kept_places;
mod names;
mod row;
mod slots;
mod store;
pub mod threads;

pub use cells::Cells;
pub use change::Change;
pub use count::Count;
pub use counts::Counts;
pub use kept_places::KeptPlaces;
pub use names::{Names, drop_names, number_of, put_new, take_out};
pub use row::Row;
pub use store::{Store, drop_rows};
