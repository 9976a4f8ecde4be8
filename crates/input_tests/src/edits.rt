//! The four edits of an Entry at each end of a text of 0, 1 and 64 bytes.
use crate::wanted::plays;
use std::test::Fail;

const ENTRIES: &str = "
add e Entry
bind e key t
bind e change t
add b Entry
bind b key t
text b a
add c Entry
bind c key t
bind c change t
text c a
set c caret 1
add f Entry
text f abcdefghabcdefghabcdefghabcdefghabcdefghabcdefghabcdefghabcdefgh
add g Entry
bind g key t
bind g change t
text g abcdefghabcdefghabcdefghabcdefghabcdefghabcdefghabcdefghabcdefgh
set g caret 64
";

const EMPTY: &str = "
at 0 0 up free keys e nothing away key 65 => at 0 0 up free keys e ; text e A, caret e 1, post e key 65 0, post e change 1 0
at 0 0 up free keys e nothing away key 8 => at 0 0 up free keys e ; post e key 8 0
at 0 0 up free keys e nothing away key 2 => at 0 0 up free keys e ; post e key 2 0
at 0 0 up free keys e nothing away key 6 => at 0 0 up free keys e ; post e key 6 0
at 0 0 up free keys e nothing away key 126 => at 0 0 up free keys e ; text e ~, caret e 1, post e key 126 0, post e change 1 0
at 0 0 up free keys e nothing away key 127 => at 0 0 up free keys e ; post e key 127 0
at 0 0 up free keys e nothing away key 31 => at 0 0 up free keys e ; post e key 31 0
";

/// Before the only byte, and behind it.
const ONE: &str = "
at 0 0 up free keys b nothing away key 98 => at 0 0 up free keys b ; text b ba, caret b 1, post b key 98 0
at 0 0 up free keys b nothing away key 8 => at 0 0 up free keys b ; post b key 8 0
at 0 0 up free keys b nothing away key 2 => at 0 0 up free keys b ; post b key 2 0
at 0 0 up free keys b nothing away key 6 => at 0 0 up free keys b ; caret b 1, post b key 6 0
at 0 0 up free keys c nothing away key 98 => at 0 0 up free keys c ; text c ab, caret c 2, post c key 98 0, post c change 2 0
at 0 0 up free keys c nothing away key 8 => at 0 0 up free keys c ; text c ., caret c 0, post c key 8 0, post c change 0 0
at 0 0 up free keys c nothing away key 2 => at 0 0 up free keys c ; caret c 0, post c key 2 0
at 0 0 up free keys c nothing away key 6 => at 0 0 up free keys c ; post c key 6 0
";

/// Before the first of 64 bytes, and behind the last.
const FULL: &str = "
at 0 0 up free keys f nothing away key 98 => at 0 0 up free keys f ;
at 0 0 up free keys f nothing away key 8 => at 0 0 up free keys f ;
at 0 0 up free keys f nothing away key 2 => at 0 0 up free keys f ;
at 0 0 up free keys f nothing away key 6 => at 0 0 up free keys f ; caret f 1
at 0 0 up free keys g nothing away key 98 => at 0 0 up free keys g ; post g key 98 0
at 0 0 up free keys g nothing away key 8 => at 0 0 up free keys g ; text g abcdefghabcdefghabcdefghabcdefghabcdefghabcdefghabcdefghabcdefg, caret g 63, post g key 8 0, post g change 63 0
at 0 0 up free keys g nothing away key 2 => at 0 0 up free keys g ; caret g 63, post g key 2 0
at 0 0 up free keys g nothing away key 6 => at 0 0 up free keys g ; post g key 6 0
";

#[test]
fn an_empty_text_is_edited(rt: HostRuntime) -> Result<(), Fail> {
    plays(&rt, rt.alloc(), ENTRIES, EMPTY)
}

#[test]
fn a_text_of_one_byte_is_edited_at_each_end(rt: HostRuntime) -> Result<(), Fail> {
    plays(&rt, rt.alloc(), ENTRIES, ONE)
}

#[test]
fn a_full_text_is_edited_at_each_end(rt: HostRuntime) -> Result<(), Fail> {
    plays(&rt, rt.alloc(), ENTRIES, FULL)
}
