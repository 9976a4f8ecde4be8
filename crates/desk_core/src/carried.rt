ghost use Rattle.std.specs.Prelude.{◌≡◌, ◌||◌};

/// What an input did: whether it may have changed the rows, the open windows or their order, and whether it may have moved
/// something on the screen.
#[derive(Clone, Copy)]
pub(crate) struct Carried {
    pub changed: bool,
    pub moved: bool,
}

/// What is told of an input: whether it raised a window, whether it gave values, and whether these may have moved something.
pub(crate) fn told_by(raised: bool, gives: bool, moves: bool) -> Carried
    ensures changed { result.changed ≡ (raised || gives) }
    ensures moved { result.moved ≡ (raised || moves) }
{
    Carried {
        changed: raised || gives,
        moved: raised || moves,
    }
}
