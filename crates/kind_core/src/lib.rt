//! The vocabulary of widgets: their kinds, attributes, events, names and texts, and the tables that say
//! which kind has what. Nothing here takes memory.
#![tactic(auto)]

mod domains;
mod kinds;
mod names;
mod room;
mod shapes;
mod table;
mod texts;
pub mod threads;
mod values;

pub use kinds::{Attr, EventKind, Kind};
pub use names::{Name, name_from};
pub use shapes::{Cell, Shape};
pub use table::{check, default_of, gives};
pub use texts::{Text, text_from};
pub use values::{AttrRefusal, Value};
