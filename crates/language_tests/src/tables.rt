//! Tables of lines: one row a line, whose parts each end in a bar.
use std::process::Abort;
use std::str::Lines;
use std::test::Fail;

/// The rows of a table, which has at least one.
pub fn rows<'a>(rt: &impl Abort, table: &'a str) -> Lines<'a> {
    let table = table.trim();
    assert!(rt; !table.is_empty(), "a table has no rows");
    table.lines()
}

/// The first part of a row, and those behind it.
pub fn part(row: &str) -> Result<(&str, &str), Fail> {
    match row.split_once('|') {
        Some(parts) => Ok(parts),
        None => Err("a row has too few parts".into()),
    }
}
