//! Which bytes are names, and which are texts.
use crate::tables::rows;
use kind_core::{Text, name_from, text_from};
use std::process::Abort;
use std::test::Fail;

const NAMES: &str = "
a_1
abcdefghijklmnop
";

fn are_names(rt: &impl Abort, table: &str) -> Result<(), Fail> {
    for row in rows(rt, table) {
        let name = name_from(row.as_bytes()).ok_or("no name")?;
        assert_eq!(rt; name.as_slice(), row.as_bytes(), "at {row}");
    }
    Ok(())
}

#[test]
fn a_name_has_up_to_16_letters(rt: HostRuntime) -> Result<(), Fail> {
    are_names(&rt, NAMES)
}

const NO_NAMES: &str = "
abcdefghijklmnopq
1a
a-
";

fn are_no_names(rt: &impl Abort, table: &str) {
    assert!(rt; name_from(b"").is_none());
    for row in rows(rt, table) {
        assert!(rt; name_from(row.as_bytes()).is_none(), "at {row}");
    }
}

#[test]
fn other_bytes_are_no_name(rt: HostRuntime) {
    are_no_names(&rt, NO_NAMES);
}

/// These bytes are a text, or none.
fn is_text(rt: &impl Abort, bytes: &[u8], good: bool) {
    match text_from(bytes) {
        Some(text) => {
            assert!(rt; good);
            assert_eq!(rt; text.as_slice(), bytes);
        }
        None => assert!(rt; !good),
    }
}

#[test]
fn a_text_has_up_to_64_printable_bytes(rt: HostRuntime) {
    is_text(&rt, b"a \"~", true);
    is_text(&rt, &[b'x'; 64], true);
    is_text(&rt, &[b'x'; 65], false);
    is_text(&rt, b"a\n", false);
}

#[test]
fn no_bytes_are_the_empty_text(rt: HostRuntime) {
    assert_eq!(rt; text_from(b""), Some(Text::empty()));
}
