//! What a client that polls is told.

ghost use Rattle.std.specs.Prelude.{◌≡◌};
ghost use Rattle.desk_model.specs.Polling.{poll_reply};

use bind_core::Polled;
use cmd_words::Reply;

/// The reply with what a ring answers.
pub(crate) fn poll_reply(polled: Polled) -> Reply
    ensures { result ≡ poll_reply polled }
{
    match polled {
        Polled::Lost(count) => Reply::Lost(count),
        Polled::One(posted) => Reply::Event {
            tag: posted.tag,
            event: posted.event,
            a: posted.a,
            b: posted.b,
        },
        Polled::Empty => Reply::NoEvent,
    }
}
