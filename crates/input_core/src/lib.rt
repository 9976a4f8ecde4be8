//! What the pointer and the keyboard do: the effects of an input on the widgets, the pointer and the events that are
//! posted. Nothing here takes memory or changes a widget: the caller brings the effects about.
#![tactic(auto)]

mod edits;
mod effects;
mod hit;
mod key;
mod motion;
mod pixel;
mod posts;
mod press;
mod reading;
mod release;
mod routing;
mod trough;
mod values;

pub use effects::Effects;
pub use hit::Hit;
pub use posts::{Post, Posts};
pub use routing::route;
