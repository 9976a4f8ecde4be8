//! What each command of a client does to the parts of a desk: the tree of widgets and the order of the open windows.
#![tactic(auto)]

mod admission;
mod answer;
mod beating;
mod bindings;
mod commands;
mod kinds;
mod links;
mod lookup;
mod place_options;
mod placement;
mod pointer;
mod ranges;
mod rule_options;
mod screens;
mod tracks;
mod widgets;
mod windows;

pub use admission::dismiss;
pub use answer::Answer;
pub use beating::beat;
pub use commands::{is_poll, obey};
pub use kinds::is_variable;
pub use pointer::let_go;
pub use widgets::get;
pub use windows::close_windows;
