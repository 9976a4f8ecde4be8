//! Tables of calls, played on a tree. A row is `CALL WORDS | ANSWER` for a call that changes the tree, and
//! `has CALL WORDS | yes` or `| no` for what the tree then has.
ghost use Rattle.std.specs.Prelude.{◌≡◌, true, false, OnOk};
ghost use Rattle.widget_model.specs.Clients.{is_joined};

use crate::asking::has;
use crate::changing::change;
use crate::tables::word;
use std::alloc::Global;
use std::process::Abort;
use std::test::Fail;
use tree_core::Tree;

/// What the row's call answers; where it reads the tree, `yes` or `no`.
fn answer(tree: &mut Tree, said: &str) -> Result<&'static str, Fail>
    requires { is_joined tree.old.clients 1 ≡ true }
    ensures { is_joined tree.new.clients 1 ≡ true }
{
    let mut words = said.split_whitespace();
    let call = word(&mut words)?;
    if call != "has" {
        return change(tree, call, &mut words);
    }
    let call = word(&mut words)?;
    if has(tree, call, &mut words)? {
        return Ok("yes");
    }
    Ok("no")
}

/// The row is answered by its text.
fn is_answered(rt: &impl Abort, tree: &mut Tree, row: &str) -> Result<(), Fail>
    requires { is_joined tree.old.clients 1 ≡ true }
    ensures { is_joined tree.new.clients 1 ≡ true }
{
    let (said, wanted) = row.split_once(" | ").ok_or("a row has no answer")?;
    let answered = answer(tree, said)?;
    assert_eq!(rt; answered, wanted, "at {row}");
    Ok(())
}

/// Each row of the table is answered by its text. The table has a row at least.
pub fn play(rt: &impl Abort, tree: &mut Tree, table: &str) -> Result<(), Fail>
    requires { is_joined tree.old.clients 1 ≡ true }
    ensures { is_joined tree.new.clients 1 ≡ true }
{
    let table = table.trim();
    if table.is_empty() {
        return Err("a table has no rows".into());
    }
    for row in table.lines() {
        is_answered(rt, tree, row)?;
    }
    Ok(())
}

/// Client 1 joins a tree that it isn't in.
pub fn join(tree: &mut Tree) -> Result<(), Fail>
    requires { is_joined tree.old.clients 1 ≡ false }
    ensures { OnOk result (is_joined tree.new.clients 1 ≡ true) }
{
    match tree.join_client(1) {
        Ok(()) => Ok(()),
        Err(_) => Err("there is no memory".into()),
    }
}

/// Client 1 joins, and the table is played.
pub fn begin(rt: &impl Abort, tree: &mut Tree, table: &str) -> Result<(), Fail>
    requires { is_joined tree.old.clients 1 ≡ false }
    ensures { OnOk result (is_joined tree.new.clients 1 ≡ true) }
{
    join(tree)?;
    play(rt, tree, table)
}

/// Plays the table on a new tree that client 1 alone joined.
pub fn plays(rt: &impl Abort, alloc: Global, table: &str) -> Result<(), Fail> {
    begin(rt, &mut Tree::new(alloc), table)
}
