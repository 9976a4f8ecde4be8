ghost use Rattle.std.specs.Prelude.{◌≡◌, false};
ghost use Rattle.cmd_words.specs.declared.replies.Reply.TheVariants.{Refused, Done};

use cmd_words::{Refusal, Reply};

/// What a command is answered, and whether it changed the rows, the open windows or their order. A refusal changes
/// nothing. See docs/MACHINE.md, "Commands".
#[derive(Clone, Copy)]
pub struct Answer {
    pub reply: Reply,
    pub changed: bool,
}

impl Answer {
    /// A refusal, which changes nothing.
    pub(crate) fn refused(refusal: Refusal) -> Answer
        ensures reply { result.reply ≡ Refused refusal }
        ensures changed { result.changed ≡ false }
    {
        Answer {
            reply: Reply::Refused(refusal),
            changed: false,
        }
    }

    /// Done, with or without a change.
    pub(crate) fn done(changed: bool) -> Answer
        ensures reply { result.reply ≡ Done }
        ensures changed { result.changed ≡ changed }
    {
        Answer {
            reply: Reply::Done,
            changed,
        }
    }
}
