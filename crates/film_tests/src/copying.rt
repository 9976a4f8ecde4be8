//! Copies of films, which go on as the films do.
use crate::filming::goes_on;
use std::test::Fail;
use vscreen_core::Film;

// One beat into a period the three pictures differ.
const BEFORE: &str = "
commit abcdefghijkl | ok
begin 3 | from phase 0
period now | 3
beats 1 | 0 4
commit ABCDEFGHIJKL | ok
row 0 | abcd
row 1 | ....
";

const AFTER: &str = "
period now | 3
row 0 | abcd
row 1 | ....
beats 1 | 4 4
row 1 | efgh
row 2 | ....
beats 1 | 8 4
row 2 | ijkl
beats 1 | 0 4
row 0 | ABCD
row 1 | efgh
settle now | not admitted
row 2 | IJKL
";

// Both are played to the end, one after the other: neither changes what the other has.
#[test]
fn a_copy_goes_on_in_the_midst_of_a_period(rt: HostRuntime) -> Result<(), Fail> {
    let alloc = rt.alloc();
    let mut film = Film::new(alloc, 4, 3)?;
    goes_on(&rt, alloc, &mut film, BEFORE)?;
    let mut copy = film.copy()?;
    assert_eq!(rt; (copy.width(), copy.height()), (4, 3));
    goes_on(&rt, alloc, &mut film, AFTER)?;
    goes_on(&rt, alloc, &mut copy, AFTER)
}
