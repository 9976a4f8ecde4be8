//! What a line of a script asks for.
use crate::commands::command;
use crate::tables::{part, rows};
use script_lines::{Input, Order, line_order, payload_of};
use std::process::Abort;
use std::test::Fail;

/// An input as a word and two numbers, which are 0 where it has none.
fn fed(input: &Input) -> (&'static str, u32, u32) {
    match input {
        Input::Motion { x, y } => ("motion", *x, *y),
        Input::Press => ("press", 0, 0),
        Input::Release => ("release", 0, 0),
        Input::Key { byte } => ("key", u32::from(*byte), 0),
    }
}

/// An order as a word and two numbers, which are 0 where it has none. A command's second number is that of the raw
/// bytes that follow its line.
fn told(order: &Order) -> (&'static str, u32, u32) {
    match order {
        Order::Nothing => ("nothing", 0, 0),
        Order::Connect { client } => ("connect", *client, 0),
        Order::Bye { client } => ("bye", *client, 0),
        Order::Ask { client, command: _ } => ("ask", *client, payload_of(order)),
        Order::Misread { client, place } => ("misread", *client, *place),
        Order::Feed { input } => fed(input),
        Order::Ticks { count } => ("ticks", *count, 0),
        Order::Dirty => ("dirty", 0, 0),
        Order::Pixel { x, y } => ("pixel", *x, *y),
        Order::Dump => ("dump", 0, 0),
    }
}

/// What the line asks for, so told, or `none` where it is off the grammar.
fn asked(line: &[u8]) -> (&'static str, u32, u32) {
    match line_order(line) {
        Some(order) => told(&order),
        None => ("none", 0, 0),
    }
}

/// A line, and what it asks for.
const LINES: &str = r#"
|nothing|0|0|
# connect 1|nothing|0|0|
connect 1|connect|1|0|
connect 16|connect|16|0|
bye 9|bye|9|0|
tick|ticks|1|0|
tick 007|ticks|7|0|
tick 1000|ticks|1000|0|
dirty|dirty|0|0|
dump|dump|0|0|
pixel 0 0|pixel|0|0|
pixel 9999 0000012|pixel|9999|12|
1 |misread|1|0|
1 b = new Windo()|misread|1|13|
1 w.open(|misread|1|7|
10 hello|misread|10|5|
1 1|misread|1|0|
3 # nothing|misread|3|0|
4 tick|misread|4|4|
connect 17|none|0|0|
connect 01|none|0|0|
connect  1|none|0|0|
connect|none|0|0|
connect 1 |none|0|0|
bye 0|none|0|0|
1|none|0|0|
01 w.open()|none|0|0|
17 w.open()|none|0|0|
 1 w.open()|none|0|0|
tick |none|0|0|
tick 0|none|0|0|
tick 1001|none|0|0|
tick 00000001|none|0|0|
Tick|none|0|0|
dirty |none|0|0|
dump 1|none|0|0|
pixel 1|none|0|0|
pixel 1 |none|0|0|
pixel 10000 1|none|0|0|
pixel 1 10000|none|0|0|
pixel 1  1|none|0|0|
1 v.mode(10, 10)|ask|1|0|
1 v.admit(4)|ask|1|0|
1 v.leave()|ask|1|0|
1 poll()|ask|1|0|
1 v.frame(0)|ask|1|0|
2 v . frame ( 0000010 )|ask|2|10|
1 v.frame(65536)|ask|1|65536|
1 v.frame(65537)|none|0|0|
1 v.frame(70000)|none|0|0|
1 v.frame(|none|0|0|
1 v.frame(-1)|none|0|0|
1 v.frame(10) x|none|0|0|
1 v.frames(|misread|1|7|
motion 0 9999|motion|0|9999|
motion 0000001 2|motion|1|2|
motion 1 10000|none|0|0|
motion 1|none|0|0|
motion  1 1|none|0|0|
motion -1 1|none|0|0|
press|press|0|0|
press |none|0|0|
release|release|0|0|
releas|none|0|0|
key 0|key|0|0|
key 255|key|255|0|
key 0000065|key|65|0|
key 256|none|0|0|
key|none|0|0|
key a|none|0|0|
hello|none|0|0|
"#;

fn ask_for(rt: &impl Abort, table: &str) -> Result<(), Fail> {
    for row in rows(rt, table) {
        let (line, rest) = part(row)?;
        let (word, rest) = part(rest)?;
        let (first, rest) = part(rest)?;
        let (second, _) = part(rest)?;
        let wanted = (word, first.parse()?, second.parse()?);
        assert_eq!(rt; asked(line.as_bytes()), wanted, "at {row}");
    }
    Ok(())
}

#[test]
fn a_line_asks_for_what_the_table_says(rt: HostRuntime) -> Result<(), Fail> {
    ask_for(&rt, LINES)
}

/// A line, and the client and the command that it has.
const ASKED: &str = r##"
1 w.open()|1|w.open()|
1  w.open()|1|w.open()|
16 b = new Button()|16|b = new Button()|
2 w.set(-title "# 1 ")|2|w.set(-title "# 1 ")|
"##;

/// Whether the line asks for the client's command.
fn asks(line: &str, client: u32, text: &str) -> Result<bool, Fail> {
    let order = Order::Ask {
        client,
        command: command(text)?,
    };
    Ok(line_order(line.as_bytes()) == Some(order))
}

fn have_commands(rt: &impl Abort, table: &str) -> Result<(), Fail> {
    for row in rows(rt, table) {
        let (line, rest) = part(row)?;
        let (client, rest) = part(rest)?;
        let (text, _) = part(rest)?;
        assert!(rt; asks(line, client.parse()?, text)?, "at {row}");
    }
    Ok(())
}

#[test]
fn a_clients_line_has_its_command(rt: HostRuntime) -> Result<(), Fail> {
    have_commands(&rt, ASKED)
}

/// A command of 512 bytes is read, and one of 513 is not.
#[test]
fn the_longest_command(rt: HostRuntime) {
    let mut line = [b' '; 515];
    line[0] = b'1';
    assert_eq!(rt; asked(&line[..514]), ("misread", 1, 512));
    assert_eq!(rt; asked(&line), ("none", 0, 0));
}
