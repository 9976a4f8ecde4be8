//! A ticket lock: one value, and passes that come to it one at a time, in the order in which they
//! drew their tickets. Each pass keeps what it saw last and what it added itself.
#![tactic(auto)]

mod calls;
mod kept;
mod missing;
mod no_memory;
mod pass;
mod plays;
mod rule;
mod short;
mod steps;
mod turnstile;
mod view;

pub use kept::Kept;
pub use missing::Missing;
pub use no_memory::NoMemory;
pub use pass::Pass;
pub use short::Short;
pub use turnstile::Turnstile;
pub use view::{Part, Stage, View};
