//! Which lines are commands, and how commands are printed.
use crate::tables::{part, rows};
use arrayvec::ArrayString;
use cmd_text::{BadLine, Command, is_frame_line, parse, print};
use std::process::Abort;
use std::test::Fail;

/// The command of the line.
pub fn command(line: &str) -> Result<Command, Fail> {
    if line.len() > 512 {
        return Err("the line is too long".into());
    }
    Ok(parse(line.as_bytes())?)
}

/// The printed form of the line's command.
fn printed(line: &str) -> Result<ArrayString<1536>, Fail> {
    Ok(print(&command(line)?))
}

/// Whether both lines are the same command.
fn are_one(line: &str, other: &str) -> Result<bool, Fail> {
    Ok(command(line)? == command(other)?)
}

/// Each command in its printed form, and with other spaces, zeros or signs. A text of 64 bytes is the longest.
const COMMANDS: &str = r#"
w = new Window()|  w=new   Window ( )  |
w.set(-title "a\"b\\" -x -5)|w . set(  -title   "a\"b\\"   -x  -0005 ) |
w.get(title)| w.get( title )|
w.place(g)|w.place (g )|
g.place(l, -column 1 -row 2 -pad 3)|g.place(l,-column 01   -row 2 -pad  3)|
w.lift(g)|w . lift ( g ) |
g.columnconfig(1, -size 20 -weight 1)|g.columnconfig ( 1,-size 20 -weight 0000001 )|
g.rowconfig(16, -weight 1)|g.rowconfig( 16 ,  -weight 1)|
l.link(a)| l . link ( a ) |
l.unlink()|l.unlink( )|
b.bind(click, ok)|b.bind(click,ok)|
b.unbind(click)|b.unbind( click)|
w.open()|w.  open  ()|
w.close()|w  .close( )|
w.top()|w.top ( )|
v.mode(64, 40)|v.mode(64,40)|
v.admit(4)|v.admit( 0004 )|
v.leave()|v.leave(  )|
v.frame(70000)|v.frame( 0070000)|
v.drop()|v.drop( ) |
poll()|poll ( ) |
w.set(-title "xxxxxxxxxxxxxxxxxxxxxxxxxxxxxxxxxxxxxxxxxxxxxxxxxxxxxxxxxxxxxxxx")|w.set(-title "xxxxxxxxxxxxxxxxxxxxxxxxxxxxxxxxxxxxxxxxxxxxxxxxxxxxxxxxxxxxxxxx")|
"#;

fn are_read_and_printed(rt: &impl Abort, table: &str) -> Result<(), Fail> {
    for row in rows(rt, table) {
        let (form, rest) = part(row)?;
        let (other, _) = part(rest)?;
        assert_eq!(rt; printed(form)?.as_str(), form);
        assert!(rt; are_one(form, other)?, "at {row}");
    }
    Ok(())
}

#[test]
fn each_command_is_read_and_printed(rt: HostRuntime) -> Result<(), Fail> {
    are_read_and_printed(&rt, COMMANDS)
}

/// Where a line's longest front ends that begins a command, and the line. The last text has 65 bytes.
const BAD_LINES: &str = r#"
13|b = new Windo()|
7|w.open(|
8|v.frame(-1)|
0||
5|hello|
6|hello console|
2|W.Open()|
4|pole()|
21|abcdefghijklmnop.open)|
16|abcdefghijklmnopq.open()|
15|v.admit(12345678)|
15|w.set(-text "a\b")|
10|w.set(-x 1-y 2)|
46|w.set(-x 1 -x 2 -x 3 -x 4 -x 5 -x 6 -x 7 -x 8 -x 9)|
9|w.open() x|
7|w = newWindow()|
10|g.place(l,)|
78|w.set(-title "xxxxxxxxxxxxxxxxxxxxxxxxxxxxxxxxxxxxxxxxxxxxxxxxxxxxxxxxxxxxxxxxx)|
"#;

/// Whether the line is no command from that place on.
fn is_bad_at(line: &str, place: u32) -> Result<bool, Fail> {
    if line.len() > 512 {
        return Err("the line is too long".into());
    }
    Ok(parse(line.as_bytes()) == Err(BadLine { place }))
}

fn are_bad(rt: &impl Abort, table: &str) -> Result<(), Fail> {
    for row in rows(rt, table) {
        let (place, rest) = part(row)?;
        let (line, _) = part(rest)?;
        assert!(rt; is_bad_at(line, place.parse()?)?, "at {row}");
    }
    Ok(())
}

#[test]
fn a_bad_line_tells_its_place(rt: HostRuntime) -> Result<(), Fail> {
    are_bad(&rt, BAD_LINES)
}

/// A line, and whether a payload comes behind it.
const FRAME_LINES: &str = "
v.frame(100)|true|
  v . frame (-1|true|
v.frames(1)|false|
frame(1)|false|
v.frame|false|
";

fn are_frame_lines(rt: &impl Abort, table: &str) -> Result<(), Fail> {
    for row in rows(rt, table) {
        let (line, rest) = part(row)?;
        let (answer, _) = part(rest)?;
        assert_eq!(rt;
            is_frame_line(line.as_bytes()),
            answer == "true",
            "at {row}"
        );
    }
    Ok(())
}

#[test]
fn a_frame_line_begins_with_a_name_and_frame(rt: HostRuntime) -> Result<(), Fail> {
    are_frame_lines(&rt, FRAME_LINES)
}
