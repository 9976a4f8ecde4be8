//! Copies of the parts of a desk.
ghost use Rattle.std.specs.Prelude.{◌≡◌, IfOk};

use arrayvec::ArrayVec;
use bind_core::NoMemory;
use shot_core::Touched;
use tree_core::Tree;

/// Another tree that equals this one. NoMemory comes only for want of memory.
pub(crate) fn copy_tree(tree: &Tree) -> Result<Tree, NoMemory>
    ensures { IfOk result (λ copy. copy ≡ tree.now) }
{
    match tree.copy() {
        Ok(copy) => Ok(copy),
        Err(_) => Err(NoMemory),
    }
}

/// The same touched numbers, in one move.
pub(crate) fn copy_touched(touched: &Touched) -> Touched
    ensures { result.looks.items ≡ touched.now.looks.items }
{
    let mut looks = ArrayVec::new();
    match looks.try_extend_from_slice(touched.looks.as_slice()) {
        Ok(()) => {}
        Err(_) => unreachable!(),
    }
    Touched { looks }
}
