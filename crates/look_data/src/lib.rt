//! What a widget looks like, kept by value: two looks, of one widget before and after a change, can be compared, and so
//! can those of the widgets that an event may change.
#![tactic(auto)]

mod data;
mod held;
mod keeping;
mod looks;
mod reading;
mod same;
mod watched_looks;
mod watching;

pub use data::LookData;
pub use held::{has_focus, is_held};
pub use keeping::is_shown;
pub use looks::look_data;
pub use reading::{count_of, is_vertical, linked_value, scale_value, scrollbar_value, text_of};
pub use same::label_text;
pub use watched_looks::WatchedLooks;
