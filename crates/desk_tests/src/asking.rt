//! A desk that is asked by lines of text. A row of a table is `CLIENT LINE | TEXT`, where the line is a command, or
//! `connect`, `bye` or `hello`; a command that comes with raw bytes, at most 128, gets so many of the letter A. A row
//! `input INPUT | BOOL` gives the desk `motion X Y`, `press`, `release` or `key BYTE`, and tells whether it changed. Or a row
//! tells of the desk: `desk live | NUMBER`, `desk changed | BOOL`,
//! `desk top X Y | CLIENT` or `| none`, whose widget is on top at a pixel, and the kept place of a client's widget, by
//! `desk place CLIENT NAME | X Y W H` or `| none`. Of the VScreens of client 1 a row `beat NAME | FROM TO` tells the band of a beat, which is the
//! only one, and a row `desk pixel NAME NUMBER | BYTE` a pixel that is shown.
ghost use Rattle.std.specs.Prelude.{◌≤◌};

use arrayvec::ArrayString;
use cmd_text::{Reply, parse, print_reply};
use cmd_words::Input;
use desk_core::Desk;
use kind_core::{Shape, name_from};
use scene_core::top_at;
use script_lines::payload_size;
use std::alloc::Global;
use std::process::Abort;
use std::str::SplitWhitespace;
use std::test::Fail;

/// A desk on a screen of 32 by 32 pixels, with no clients.
pub fn new_desk(alloc: Global) -> Desk {
    Desk::new(
        alloc,
        Shape {
            width: 32,
            height: 32,
            budget: 100,
            spare: 10,
        },
    )
}

/// The reply to a command's line, and a Fail where it is none that the desk answers.
fn command(desk: &mut Desk, client: u32, line: &str) -> Result<Reply, Fail>
    requires low { 1 ≤ client }
    requires high { client ≤ 16 }
{
    if line.len() > 512 {
        return Err("the line is too long".into());
    }
    match parse(line.as_bytes()) {
        Ok(command) => {
            let bytes = [b'A'; 128];
            let size = payload_size(&command) as usize;
            if size > 128 {
                return Err("the command comes with too many raw bytes".into());
            }
            Ok(desk.step(client, &command, &bytes[..size]))
        }
        Err(_) => Err("the line is no command".into()),
    }
}

/// The text of the reply to a client's line. Whose line a `hello` is says nothing.
fn ask(desk: &mut Desk, client: u32, line: &str) -> Result<ArrayString<256>, Fail> {
    if client < 1 || client > 16 {
        return Err("a client is 1 to 16".into());
    }
    let reply = match line {
        "connect" => desk.connect(client),
        "bye" => desk.bye(client),
        "hello" => desk.hello(),
        _ => command(desk, client, line)?,
    };
    Ok(print_reply(&reply))
}

/// A number of a window's place.
fn number(words: &mut SplitWhitespace<'_>) -> Result<i32, Fail> {
    match words.next() {
        Some(word) => Ok(word.parse()?),
        None => Err("a window has four numbers".into()),
    }
}

/// A window's place, which is written `X Y W H`, or none, which is written `none`.
fn place(text: &str) -> Result<Option<(i32, i32, u32, u32)>, Fail> {
    if text == "none" {
        return Ok(None);
    }
    let mut words = text.split_whitespace();
    let x = number(&mut words)?;
    let y = number(&mut words)?;
    let w = number(&mut words)?;
    let h = number(&mut words)?;
    Ok(Some((x, y, w.max(0) as u32, h.max(0) as u32)))
}

/// The kept place of the widget that is written `CLIENT NAME`.
fn kept_place(desk: &Desk, said: &str) -> Result<Option<(i32, i32, u32, u32)>, Fail> {
    let (client, name) = said
        .split_once(' ')
        .ok_or("a widget has a client and a name")?;
    let name = name_from(name.as_bytes()).ok_or("it is no name")?;
    let tree = desk.view().tree;
    let id = tree
        .find(client.parse()?, &name)
        .ok_or("no widget has the name")?;
    match tree.place_of(id) {
        Some(place) => Ok(Some((place.x, place.y, place.w, place.h))),
        None => Ok(None),
    }
}

/// The client whose widget is on top at the pixel, which is written `X Y`; none where no widget is.
fn client_on_top(desk: &Desk, pixel: &str) -> Result<Option<u32>, Fail> {
    let (x, y) = pixel.split_once(' ').ok_or("a pixel has two numbers")?;
    let view = desk.view();
    match top_at(&view, x.parse()?, y.parse()?) {
        Some(id) => Ok(Some(view.tree.owner(id))),
        None => Ok(None),
    }
}

/// Whether the client on top is the one that is written, or `none`.
fn is_on_top(desk: &Desk, pixel: &str, wanted: &str) -> Result<bool, Fail> {
    match client_on_top(desk, pixel)? {
        Some(client) => Ok(wanted != "none" && client == wanted.parse::<u32>()?),
        None => Ok(wanted == "none"),
    }
}

/// Whether a beat draws one band, which is the VScreen's and has the pixels `FROM TO`.
fn beats(desk: &mut Desk, name: &str, wanted: &str) -> Result<bool, Fail> {
    let name = name_from(name.as_bytes()).ok_or("it is no name")?;
    let screen = desk.view().tree.find(1, &name);
    let (from, to) = wanted.split_once(' ').ok_or("a band has two numbers")?;
    let from: u32 = from.parse()?;
    let to: u32 = to.parse()?;
    let bands = desk.beat();
    match bands.as_slice() {
        [(beaten, band)] => Ok(Some(*beaten) == screen && band.from == from && band.to == to),
        _ => Ok(false),
    }
}

/// The byte of a VScreen's pixel that is shown, which is written `NAME NUMBER`.
fn shown_pixel(desk: &Desk, said: &str) -> Result<Option<u8>, Fail> {
    let (name, number) = said
        .split_once(' ')
        .ok_or("a pixel has a name and a number")?;
    let name = name_from(name.as_bytes()).ok_or("it is no name")?;
    let number: usize = number.parse()?;
    let tree = desk.view().tree;
    let id = tree.find(1, &name).ok_or("no widget has the name")?;
    let film = tree.film(id).ok_or("there is no film")?;
    Ok(film.shown().get(number).copied())
}

/// The input that is written so.
fn input(said: &str) -> Result<Input, Fail> {
    match said {
        "press" => return Ok(Input::Press),
        "release" => return Ok(Input::Release),
        _ => {}
    }
    let mut words = said.split_whitespace();
    let first = words.next();
    let x = number(&mut words)?.max(0) as u32;
    match first {
        Some("motion") => Ok(Input::Motion {
            x,
            y: number(&mut words)?.max(0) as u32,
        }),
        Some("key") => Ok(Input::Key {
            byte: x.min(255) as u8,
        }),
        _ => Err("it is no input".into()),
    }
}

/// Whether the desk is as the row says.
fn is_so(desk: &Desk, said: &str, wanted: &str) -> Result<bool, Fail> {
    match said.split_once(' ') {
        Some(("place", widget)) => return Ok(kept_place(desk, widget)? == place(wanted)?),
        Some(("top", pixel)) => return is_on_top(desk, pixel, wanted),
        Some(("pixel", pixel)) => return Ok(shown_pixel(desk, pixel)? == Some(wanted.parse()?)),
        _ => {}
    }
    match said {
        "live" => Ok(desk.live() == wanted.parse::<u32>()?),
        "changed" => Ok(desk.changed() == (wanted == "true")),
        _ => Err("a row tells of nothing".into()),
    }
}

/// The client's line is answered by that text, and where it is refused nothing changes.
fn is_answered(
    rt: &impl Abort,
    desk: &mut Desk,
    client: u32,
    line: &str,
    wanted: &str,
) -> Result<(), Fail> {
    let reply = ask(desk, client, line)?;
    assert_eq!(rt; reply.as_str(), wanted, "at {client} {line}");
    assert!(rt;
        !wanted.starts_with("error") || !desk.changed(),
        "at {client} {line}"
    );
    Ok(())
}

/// The row holds.
fn holds(rt: &impl Abort, desk: &mut Desk, row: &str) -> Result<(), Fail> {
    let (said, wanted) = row.split_once(" | ").ok_or("a row has no answer")?;
    let (first, line) = said.split_once(' ').ok_or("a row has one word")?;
    if first == "input" {
        desk.feed(input(line)?);
        assert!(rt; desk.changed() == (wanted == "true"), "at {row}");
        return Ok(());
    }
    if first == "beat" {
        assert!(rt; beats(desk, line, wanted)?, "at {row}");
        return Ok(());
    }
    if first == "desk" {
        assert!(rt; is_so(desk, line, wanted)?, "at {row}");
        return Ok(());
    }
    is_answered(rt, desk, first.parse()?, line, wanted)
}

/// Each row of the table holds. The table has a row at least; what begins with `#` is none.
pub fn ask_all(rt: &impl Abort, desk: &mut Desk, table: &str) -> Result<(), Fail> {
    let table = table.trim();
    if table.is_empty() {
        return Err("a table has no rows".into());
    }
    for row in table.lines() {
        if !row.starts_with('#') {
            holds(rt, desk, row)?;
        }
    }
    Ok(())
}

/// Asks a new desk.
pub fn asked_anew(rt: &impl Abort, alloc: Global, table: &str) -> Result<(), Fail> {
    ask_all(rt, &mut new_desk(alloc), table)
}
