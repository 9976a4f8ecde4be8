//! Films ask for their shares of what a tick may draw.
use crate::admitting::asks;
use std::test::Fail;

// With a budget of 100 and a spare of 10: three films of 10 by 10, one of 10 by 1 and one of 11 by 1.
const SHARES: &str = "
admit a 10 10 3 | ok
admit b 10 10 3 | ok
admit c 10 10 3 | 34 22
all of it | a 34, b 34
admit e 11 1 1 | ok
admit d 10 1 1 | ok
all of it | a 34, b 34, e 11, d 10
admit c 10 10 64 | 2 1
# the old share of one that is admitted again isn't counted, and it goes last
admit a 10 10 3 | ok
all of it | b 34, e 11, d 10, a 34
leave c | false
all of it | b 34, e 11, d 10, a 34
leave e | true
all of it | b 34, d 10, a 34
admit c 10 10 64 | ok
all of it | b 34, d 10, a 34, c 2
";

#[test]
fn shares_come_to_the_limit_and_no_further(rt: HostRuntime) -> Result<(), Fail> {
    asks(&rt, 90, SHARES)
}

// Exactly the limit is admitted, and one more isn't.
const EXACT: &str = "
admit a 10 10 3 | ok
admit b 10 10 5 | ok
admit c 6 6 1 | ok
admit d 1 1 64 | 1 0
admit c 37 1 1 | 37 36
all of it | a 34, b 20, c 36
";

#[test]
fn a_share_that_reaches_the_limit_is_admitted(rt: HostRuntime) -> Result<(), Fail> {
    asks(&rt, 90, EXACT)
}
