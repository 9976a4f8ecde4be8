//! The tree of widgets: rows under their clients' names, with the numbers by which callers name them, and how
//! they hang in one another. The rows themselves lie in row_store.
#![tactic(auto)]

mod add;
mod going_down;
mod going_up;
mod hanging;
mod id;
mod kinds;
mod links;
mod pointer;
mod refusal;
mod removing;
pub mod threads;
mod tree;

pub use id::Id;
pub use kinds::{can_be_child, has_children};
pub use pointer::{Grab, Pointer};
pub use refusal::{AddRefusal, AttachRefusal, InUse, NoMemory};
pub use tree::Tree;
