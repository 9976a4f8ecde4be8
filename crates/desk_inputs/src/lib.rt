//! What an input asks for is carried out on the parts of a desk: values of widgets, the order of the open windows, and
//! the events of clients. Nothing here takes memory, and nothing is refused.
#![tactic(auto)]

mod asking;
mod moving;
mod posting;
mod raising;
mod values;

pub use asking::asked;
pub use moving::effects_move;
pub use posting::posted_of;
pub use raising::raise;
pub use values::set_values;
