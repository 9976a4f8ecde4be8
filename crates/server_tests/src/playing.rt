//! Tables of lines, played on a server. A row is
//! - `CLIENT LINE | TEXT`: the client's command, or `connect`, `bye` or `hello`, and its reply;
//! - `tick | QUEUE LEFT`: the pixels that the tick draws, of which none is in a band, and those that stay dirty;
//! - `dirty | NUMBER`, `live | NUMBER` or `spans | NUMBER`: the dirty pixels, the connected clients, or the spans that the
//!   last tick wrote;
//! - `pixel X Y | BYTE`: what the screen has there; or `plain | BYTE`: what it has in each pixel.
ghost use Rattle.std.specs.Prelude.{◌≡◌, ◌≤◌};
ghost use Rattle.scene_model.specs.Shapes.{IsShape};

use arrayvec::ArrayString;
use cmd_text::{Reply, parse, print_reply};
use script_lines::payload_size;
use server_core::{Drew, Server, Shape};
use std::alloc::Global;
use std::process::Abort;
use std::test::Fail;

/// A square screen, of which a tick draws at most 500 pixels.
pub fn square(side: u32) -> Shape
    requires least { 16 ≤ side }
    requires greatest { side ≤ 768 }
    ensures { IsShape result }
{
    Shape {
        width: side,
        height: side,
        budget: 500,
        spare: 10,
    }
}

/// The reply to a command's line, and a Fail where it is none that the server answers.
fn command(server: &mut Server, client: u32, line: &str) -> Result<Reply, Fail>
    requires low { 1 ≤ client }
    requires high { client ≤ 16 }
{
    if line.len() > 512 {
        return Err("the line is too long".into());
    }
    match parse(line.as_bytes()) {
        Ok(command) => {
            if payload_size(&command) == 0 {
                return Ok(server.command(client, &command, &[]));
            }
            Err("the command comes with raw bytes".into())
        }
        Err(_) => Err("the line is no command".into()),
    }
}

/// The text of the reply to a client's line. Whose line a `hello` is says nothing.
fn ask(server: &mut Server, client: u32, line: &str) -> Result<ArrayString<256>, Fail> {
    if client < 1 || client > 16 {
        return Err("a client is 1 to 16".into());
    }
    let reply = match line {
        "connect" => server.connect(client),
        "bye" => server.bye(client),
        "hello" => server.hello(),
        _ => command(server, client, line)?,
    };
    Ok(print_reply(&reply))
}

/// Whether a tick draws so many pixels and leaves so many dirty.
fn ticks(server: &mut Server, wanted: &str) -> Result<bool, Fail> {
    let (queue, left) = wanted.split_once(' ').ok_or("a tick has two numbers")?;
    let drew = Drew {
        bands: 0,
        queue: queue.parse()?,
        left: left.parse()?,
    };
    Ok(server.tick() == drew)
}

/// The byte of the pixel, which is written `X Y`.
fn pixel(server: &Server, place: &str) -> Result<Option<u8>, Fail> {
    let (x, y) = place.split_once(' ').ok_or("a pixel has two numbers")?;
    let column: usize = x.parse()?;
    let row: usize = y.parse()?;
    let width = server.shape().width as usize;
    if column >= width || row >= 768 {
        return Err("the pixel is off the screen".into());
    }
    Ok(server.picture().get(row * width + column).copied())
}

/// Whether each pixel has the byte.
pub fn is_plain(server: &Server, byte: u8) -> bool {
    server.picture().iter().all(|other| *other == byte)
}

/// Whether the row holds: its word, the words behind that, and what is wanted.
fn holds(server: &mut Server, word: &str, words: &str, wanted: &str) -> Result<bool, Fail> {
    match word {
        "tick" => ticks(server, wanted),
        "dirty" => Ok(server.dirty() == wanted.parse::<u32>()?),
        "live" => Ok(server.live() == wanted.parse::<u32>()?),
        "spans" => Ok(server.spans() == wanted.parse::<u32>()?),
        "pixel" => Ok(pixel(server, words)? == Some(wanted.parse()?)),
        "plain" => Ok(is_plain(server, wanted.parse()?)),
        _ => Ok(ask(server, word.parse()?, words)?.as_str() == wanted),
    }
}

/// The row holds.
fn is_so(rt: &impl Abort, server: &mut Server, row: &str) -> Result<(), Fail> {
    let (said, wanted) = row.split_once(" | ").ok_or("a row has no answer")?;
    let (word, words) = said.split_once(' ').unwrap_or((said, ""));
    let so = holds(server, word, words, wanted)?;
    assert!(rt; so, "at {row}");
    Ok(())
}

/// Each row of the table holds. The table has a row at least.
pub fn play(rt: &impl Abort, server: &mut Server, table: &str) -> Result<(), Fail> {
    let table = table.trim();
    if table.is_empty() {
        return Err("a table has no rows".into());
    }
    for row in table.lines() {
        is_so(rt, server, row)?;
    }
    Ok(())
}

/// Plays the table on a new server with a square screen.
pub fn plays(rt: &impl Abort, alloc: Global, side: u32, table: &str) -> Result<(), Fail>
    requires least { 16 ≤ side }
    requires greatest { side ≤ 768 }
{
    play(rt, &mut Server::new(alloc, square(side))?, table)
}
