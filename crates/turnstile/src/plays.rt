//! What each kind of step tells the pass that makes it, how a pass is split off, and how two are joined.
use crate::kept::Kept;
use crate::view::View;
use atomic_table::{Join, Play, Split};

/// Draws a ticket.
pub(crate) struct Draws;

impl<V: Kept> Play<Option<V>, View<V::Entry>> for Draws {
    ghost use Rattle.turnstile.specs.Steps.{drew};

    ghost then = { drew };
}

/// Looks whose turn it is.
pub(crate) struct Looks;

impl<V: Kept> Play<Option<V>, View<V::Entry>> for Looks {
    ghost use Rattle.turnstile.specs.Steps.{looked};

    ghost then = { looked V.entries V.number };
}

/// Publishes the new entries.
pub(crate) struct Publishes;

impl<V: Kept> Play<Option<V>, View<V::Entry>> for Publishes {
    ghost use Rattle.turnstile.specs.Steps.{published};

    ghost then = { published V.entries };
}

/// Passes the turn on.
pub(crate) struct Passes;

impl<V: Kept> Play<Option<V>, View<V::Entry>> for Passes {
    ghost use Rattle.turnstile.specs.Steps.{passed};

    ghost then = { passed };
}

/// Hands out the first part.
pub(crate) struct HandsOut;

impl<E> Split<View<E>> for HandsOut {
    ghost use Rattle.turnstile.specs.Views.{kept_back, handed};

    ghost left = { kept_back };

    ghost right = { handed };
}

/// Takes in another pass.
pub(crate) struct TakesIn;

impl<E> Join<View<E>> for TakesIn {
    ghost use Rattle.turnstile.specs.Views.{joint, spent};

    ghost both = { joint };

    ghost spent = { spent };
}
