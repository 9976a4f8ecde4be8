ghost use Rattle.std.specs.Prelude.{◌≡◌};

use bind_core::Ring;
use std::alloc::AllocError;

/// A connected client, 1 to 16, and the events that are kept for it until it polls them.
pub(crate) struct Member {
    pub client: u32,
    pub events: Ring,
}

impl Drop for Member {
    fn drop(self) {
        let Member {
            client: _,
            events: _,
        } = self;
    }
}

impl Clone for Member {
    ghost is_clone = { λ member copy. copy ≡ member };

    fn clone(&self) -> Result<Member, AllocError> {
        match self.events.copy() {
            Ok(events) => Ok(Member {
                client: self.client,
                events,
            }),
            Err(_) => Err(AllocError),
        }
    }
}
