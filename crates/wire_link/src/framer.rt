//! Cutting the bytes of a connection into lines and payloads.
ghost use Rattle.std.specs.Prelude.{◌≡◌, ◌+◌, ◌<◌, ◌≤◌, [], ◌∷◌, ◌++◌, false, length, take, IfOk, MatchOption};
ghost use Rattle.cmd_words.specs.Grammar.{command_line};
ghost use Rattle.cmd_text.specs.FrameLine.{IsFrameLine};
ghost use Rattle.script_lines.specs.Sayings.{command_limit, frame_limit};
ghost use Rattle.wire_link.specs.Framing.{Framed, IsLine, IsPartial, Gives, has_feed};
ghost use Rattle.wire_link.specs.Framer.{Fits, FitsOpen, IsFirstFeed, waiting_of};

use crate::cut::Cut;
use crate::gathered::Gathered;
use crate::no_memory::NoMemory;
use crate::stage::Stage;
use cmd_text::{Command, is_frame_line, parse};
use memchr::memchr;
use script_lines::payload_size;
use std::alloc::Global;
use std::marker::Model;
use std::mem;

/// The bytes of a line that are kept at most: one more than a line may have, by which it is found too long.
const LINE_ROOM: usize = 513;

/// The bytes that come with a command at most.
const FRAME_ROOM: usize = 65536;

/// Cuts the bytes of a connection into lines, each with its payload, however they come in.
///
/// Contracts see the record `Framed`: the bytes that are in and not yet given out, and the last line that was, with
/// its payload. Memory is taken in `new` alone. docs/MACHINE.md, "The lines of a connection", has the rules.
#[derive(Debug)]
pub struct Framer {
    line: Gathered<LINE_ROOM>,
    payload: Gathered<FRAME_ROOM>,
    stage: Stage,
    last_line: Gathered<LINE_ROOM>,
    last_payload: Gathered<FRAME_ROOM>,
}

impl Model for Framer {
    ghost use Rattle.wire_link.specs.Framing.{Framed};
    ghost use Rattle.wire_link.specs.Framer.{Fits, framed};

    ghost Value = { Framed };

    ghost view = { λ f. framed f.stage f.line f.payload f.last_line f.last_payload };

    ghost invariant = { λ f. Fits f.stage f.line f.payload };
}

/// Takes the bytes of a line up to the first line feed and with it, or all where there is none, but no more than show
/// that the line is too long; answers their number, and how far the line has come in.
fn feed_line(line: &mut Gathered<LINE_ROOM>, piece: &[u8]) -> (usize, Stage)
    requires fits { FitsOpen line.old [] }
    ensures front { result.0 ≤ length piece.now }
    ensures fits { Fits result.1 line.new [] }
    ensures waiting { waiting_of result.1 line.new [] ≡ line.old ++ take result.0 piece.now }
    ensures some { length line.old ≤ command_limit → 0 < length piece.now → 0 < result.0 }
{
    let room = piece.len().min(LINE_ROOM - line.len());
    let front = &piece[..room];
    match feed_in(front) {
        None => {
            line.push(front);
            (room, Stage::Open)
        }
        Some(at) => {
            line.push(&front[..at]);
            (at + 1, stage_of(line.as_slice()))
        }
    }
}

/// Takes payload bytes, as many as are still missing, and answers their number.
fn feed_payload(payload: &mut Gathered<FRAME_ROOM>, size: usize, piece: &[u8]) -> usize
    requires few { size ≤ frame_limit }
    requires within { length payload.old ≤ size }
    ensures front { result ≤ length piece.now }
    ensures payload { payload.new ≡ payload.old ++ take result piece.now }
    ensures within { length payload.new ≤ size }
    ensures some { length payload.old < size → 0 < length piece.now → 0 < result }
{
    let count = piece.len().min(size - payload.len());
    payload.push(&piece[..count]);
    count
}

/// What came in becomes what was given out, and nothing is in.
fn give<const ROOM: usize>(next: &mut Gathered<ROOM>, last: &mut Gathered<ROOM>)
    ensures last { last.new ≡ next.old }
    ensures next { next.new ≡ [] }
{
    mem::swap(next, last);
    next.clear();
}

/// Room for two lines.
fn lines(alloc: Global) -> Result<(Gathered<LINE_ROOM>, Gathered<LINE_ROOM>), NoMemory>
    ensures empty { IfOk result (λ rooms. (rooms.0 ≡ []) × (rooms.1 ≡ [])) }
{
    match Gathered::new(alloc) {
        Ok(first) => match Gathered::new(alloc) {
            Ok(second) => Ok((first, second)),
            Err(NoMemory) => Err(NoMemory),
        },
        Err(NoMemory) => Err(NoMemory),
    }
}

/// Room for two payloads.
fn payloads(alloc: Global) -> Result<(Gathered<FRAME_ROOM>, Gathered<FRAME_ROOM>), NoMemory>
    ensures empty { IfOk result (λ rooms. (rooms.0 ≡ []) × (rooms.1 ≡ [])) }
{
    match Gathered::new(alloc) {
        Ok(first) => match Gathered::new(alloc) {
            Ok(second) => Ok((first, second)),
            Err(NoMemory) => Err(NoMemory),
        },
        Err(NoMemory) => Err(NoMemory),
    }
}

impl Framer {
    /// A framer that nothing was fed to. `NoMemory` comes only for want of memory.
    pub fn new(alloc: Global) -> Result<Framer, NoMemory>
        ensures waiting { IfOk result (λ f. f.waiting ≡ []) }
        ensures line { IfOk result (λ f. f.line ≡ []) }
        ensures payload { IfOk result (λ f. f.payload ≡ []) }
    {
        let (line, last_line) = match lines(alloc) {
            Ok(lines) => lines,
            Err(NoMemory) => return Err(NoMemory),
        };
        match payloads(alloc) {
            Ok((payload, last_payload)) => Ok(Framer {
                line,
                payload,
                stage: Stage::Open,
                last_line,
                last_payload,
            }),
            Err(NoMemory) => Err(NoMemory),
        }
    }

    /// Takes a front of the piece in, and answers how many bytes that are. They are more than none where the piece has
    /// some and `next` would answer `More`. The last line and its payload stay.
    pub fn feed(&mut self, piece: &[u8]) -> usize
        ensures front { result ≤ length piece.now }
        ensures waiting { self.new.waiting ≡ self.old.waiting ++ take result piece.now }
        ensures line { self.new.line ≡ self.old.line }
        ensures payload { self.new.payload ≡ self.old.payload }
        ensures some { IsPartial self.old.waiting → 0 < length piece.now → 0 < result }
    {
        match self.stage {
            Stage::Open => {
                let (count, stage) = feed_line(&mut self.line, piece);
                self.stage = stage;
                count
            }
            Stage::Filling { size } => feed_payload(&mut self.payload, size as usize, piece),
            Stage::Whole => 0,
            Stage::Bad { .. } => 0,
        }
    }

    /// What comes next: a whole line or a frame line with its payload is given out, and `line` and `payload` lend it
    /// from then on. With every other answer all stays as it is, so that after `TooLong` and `BadFrame` every later
    /// call answers the same.
    pub fn next(&mut self) -> Cut
        ensures { Gives self.old result self.new }
    {
        match self.stage {
            Stage::Open => {
                if self.line.len() == LINE_ROOM {
                    return Cut::TooLong;
                }
                Cut::More
            }
            Stage::Whole => {
                give(&mut self.line, &mut self.last_line);
                give(&mut self.payload, &mut self.last_payload);
                self.stage = Stage::Open;
                Cut::Line
            }
            Stage::Filling { size } => {
                if self.payload.len() < size as usize {
                    return Cut::More;
                }
                give(&mut self.line, &mut self.last_line);
                give(&mut self.payload, &mut self.last_payload);
                self.stage = Stage::Open;
                Cut::Payload
            }
            Stage::Bad { place } => Cut::BadFrame { place },
        }
    }

    /// The last line that was given out, without its line feed; empty before the first.
    pub fn line(&self) -> &[u8]
        ensures { result.now ≡ self.now.line }
    {
        self.last_line.as_slice()
    }

    /// The payload of the last line that was given out; empty where none follows it, and before the first.
    pub fn payload(&self) -> &[u8]
        ensures { result.now ≡ self.now.payload }
    {
        self.last_payload.as_slice()
    }
}

impl Drop for Framer {
    fn drop(self) {
        let Framer {
            line: _,
            payload: _,
            stage: _,
            last_line: _,
            last_payload: _,
        } = self;
    }
}

/// The index, from 0, of the first line feed among the bytes. None: they have none.
fn feed_in(bytes: &[u8]) -> Option<usize>
    ensures { MatchOption result (has_feed bytes.now ≡ false) (IsFirstFeed bytes.now) }
{
    memchr(b'\n', bytes)
}

/// How far a frame line has come in whose line feed was the last byte and which stands for a command.
fn filling(line: &[u8], command: &Command) -> Stage
    requires line { IsLine line.now }
    requires frame { IsFrameLine line.now }
    requires stands { command_line line.now command.now }
    ensures fits { Fits result line.now [] }
    ensures waiting { waiting_of result line.now [] ≡ line.now ++ 10 ∷ [] }
{
    let size = payload_size(command);
    if size as usize > FRAME_ROOM {
        return Stage::Bad {
            place: line.len() as u32,
        };
    }
    Stage::Filling { size }
}

/// How far a line has come in whose line feed was the last byte.
fn stage_of(line: &[u8]) -> Stage
    requires { IsLine line.now }
    ensures fits { Fits result line.now [] }
    ensures waiting { waiting_of result line.now [] ≡ line.now ++ 10 ∷ [] }
{
    if !is_frame_line(line) {
        return Stage::Whole;
    }
    match parse(line) {
        Ok(command) => filling(line, &command),
        Err(bad) => Stage::Bad { place: bad.place },
    }
}
