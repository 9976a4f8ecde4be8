//! Working through a script, a stretch of bytes at a time. A line that raw bytes follow waits for them before it is
//! performed.
ghost use Rattle.std.specs.Prelude.{◌≡◌, ◌≢◌, ◌+◌, ◌<◌, ◌≤◌, ◌^◌, ◌∷◌, ◌++◌, [], false, length, MatchResult, OnOk};
ghost use Rattle.script_walk.specs.Cutting.{ending};
ghost use Rattle.script_walk.specs.declared.end.End.TheVariants.{Done, WriteFault};
ghost use Rattle.script_walk.specs.Framing.{Wants, IsLine, has_feed};
ghost use Rattle.script_walk.specs.Reading.{item_of, kept};
ghost use Rattle.script_walk.specs.Points.{IsReady, ItemDone, Fed, FrontFed, LastLine, point};

use crate::cut::Cut;
use crate::performer::Performer;
use crate::reader::{LINE_LIMIT, Reader, feed_in, is_silent};
use arrayvec::ArrayVec;
use outside_io::{Outbox, Sink};
use script_lines::{line_order, payload_of};
use std::mem;

impl Reader {
    /// Reads a whole line, which is given without its line feed. It is performed; where raw bytes are to follow, it is
    /// kept instead. No bytes are kept before.
    fn obey_line<P: Performer, K: Sink>(
        &mut self,
        line: &[u8],
        performer: &mut P,
        out: &mut Outbox,
        sink: &mut K,
    ) -> Result<(), Cut>
        requires ready { IsReady P.rules (point P.rules self.old (P.state performer.old) (K.held sink.old) out.old (K.faults sink.old)) }
        requires no_line { self.old.line.items ≡ [] }
        requires no_wants { self.old.wants ≡ 0 }
        requires is_line { IsLine line.now }
        requires room { self.old.lines + 1 < 2 ^ 64 }
        ensures { Fed P.rules (ending result)
            (point P.rules self.old (P.state performer.old) (K.held sink.old) out.old (K.faults sink.old)) (line.now ++ 10 ∷ [])
            (point P.rules self.new (P.state performer.new) (K.held sink.new) out.new (K.faults sink.new)) }
    {
        match line_order(line) {
            None => Err(Cut::Unread {
                line: self.lines + 1,
            }),
            Some(order) => {
                let wants = payload_of(&order) as usize;
                if wants > 0 {
                    self.keep_line(line, wants);
                    return Ok(());
                }
                self.lines += 1;
                match performer.perform(&order, line, &[], out, sink) {
                    Ok(()) => Ok(()),
                    Err(_) => Err(Cut::Unwritten),
                }
            }
        }
    }

    /// Works through a whole line, which is given without its line feed. No bytes are kept before. A silent line is not
    /// read, since reading makes room for a command.
    fn carry_out<P: Performer, K: Sink>(
        &mut self,
        line: &[u8],
        performer: &mut P,
        out: &mut Outbox,
        sink: &mut K,
    ) -> Result<(), Cut>
        requires ready { IsReady P.rules (point P.rules self.old (P.state performer.old) (K.held sink.old) out.old (K.faults sink.old)) }
        requires no_line { self.old.line.items ≡ [] }
        requires no_wants { self.old.wants ≡ 0 }
        requires is_line { IsLine line.now }
        requires room { self.old.lines + 1 < 2 ^ 64 }
        ensures { Fed P.rules (ending result)
            (point P.rules self.old (P.state performer.old) (K.held sink.old) out.old (K.faults sink.old)) (line.now ++ 10 ∷ [])
            (point P.rules self.new (P.state performer.new) (K.held sink.new) out.new (K.faults sink.new)) }
    {
        if is_silent(line) {
            self.lines += 1;
            return Ok(());
        }
        self.obey_line(line, performer, out, sink)
    }

    /// The line feed has come behind the bytes that are kept of a line, which are whole with it.
    fn end_line<P: Performer, K: Sink>(
        &mut self,
        performer: &mut P,
        out: &mut Outbox,
        sink: &mut K,
    ) -> Result<(), Cut>
        requires ready { IsReady P.rules (point P.rules self.old (P.state performer.old) (K.held sink.old) out.old (K.faults sink.old)) }
        requires no_wants { self.old.wants ≡ 0 }
        requires room { self.old.lines + 1 < 2 ^ 64 }
        ensures { Fed P.rules (ending result)
            (point P.rules self.old (P.state performer.old) (K.held sink.old) out.old (K.faults sink.old)) (10 ∷ [])
            (point P.rules self.new (P.state performer.new) (K.held sink.new) out.new (K.faults sink.new)) }
    {
        let line = mem::replace(&mut self.line, ArrayVec::new());
        match self.carry_out(line.as_slice(), performer, out, sink) {
            Ok(()) => Ok(()),
            Err(cut) => Err(cut),
        }
    }

    /// Takes bytes that have no line feed, and the line feed behind them, which ends a line. A line of which nothing
    /// is kept from before is worked through where it stands, with no copy.
    fn end_of_line<P: Performer, K: Sink>(
        &mut self,
        bytes: &[u8],
        performer: &mut P,
        out: &mut Outbox,
        sink: &mut K,
    ) -> Result<(), Cut>
        requires ready { IsReady P.rules (point P.rules self.old (P.state performer.old) (K.held sink.old) out.old (K.faults sink.old)) }
        requires no_wants { self.old.wants ≡ 0 }
        requires no_feed { has_feed bytes.now ≡ false }
        requires room { self.old.lines + 1 < 2 ^ 64 }
        ensures { Fed P.rules (ending result)
            (point P.rules self.old (P.state performer.old) (K.held sink.old) out.old (K.faults sink.old)) (bytes.now ++ 10 ∷ [])
            (point P.rules self.new (P.state performer.new) (K.held sink.new) out.new (K.faults sink.new)) }
    {
        if self.line.is_empty() && bytes.len() <= LINE_LIMIT {
            return self.carry_out(bytes, performer, out, sink);
        }
        if !self.stretch(bytes) {
            return Err(Cut::Unread {
                line: self.lines + 1,
            });
        }
        match self.end_line(performer, out, sink) {
            Ok(()) => Ok(()),
            Err(cut) => Err(cut),
        }
    }

    /// Takes the bytes of a line up to the first line feed and with it, or all where there is none, and answers their
    /// number.
    fn line_front<P: Performer, K: Sink>(
        &mut self,
        bytes: &[u8],
        performer: &mut P,
        out: &mut Outbox,
        sink: &mut K,
    ) -> Result<usize, Cut>
        requires ready { IsReady P.rules (point P.rules self.old (P.state performer.old) (K.held sink.old) out.old (K.faults sink.old)) }
        requires no_wants { self.old.wants ≡ 0 }
        requires some { 1 ≤ length bytes.now }
        requires room { self.old.lines + length bytes.now < 2 ^ 64 }
        ensures { FrontFed P.rules result
            (point P.rules self.old (P.state performer.old) (K.held sink.old) out.old (K.faults sink.old)) bytes.now
            (point P.rules self.new (P.state performer.new) (K.held sink.new) out.new (K.faults sink.new)) }
    {
        match feed_in(bytes) {
            Some(feed) => match self.end_of_line(&bytes[..feed], performer, out, sink) {
                Ok(()) => Ok(feed + 1),
                Err(cut) => Err(cut),
            },
            None => {
                if !self.stretch(bytes) {
                    return Err(Cut::Unread {
                        line: self.lines + 1,
                    });
                }
                Ok(bytes.len())
            }
        }
    }

    /// All the raw bytes of the line that is kept have come: it is performed with them, and nothing is kept.
    fn end_payload<P: Performer, K: Sink>(
        &mut self,
        performer: &mut P,
        out: &mut Outbox,
        sink: &mut K,
    ) -> Result<(), Cut>
        requires valid { P.rules.valid (P.state performer.old) }
        requires is_line { IsLine self.old.line.items }
        requires wanted { Wants self.old.line.items (length self.old.payload) }
        requires room { self.old.lines + 1 < 2 ^ 64 }
        ensures { MatchResult result
            (λ _. ItemDone P.rules Done (item_of self.old)
            (point P.rules self.old (P.state performer.old) (K.held sink.old) out.old (K.faults sink.old))
            (point P.rules self.new (P.state performer.new) (K.held sink.new) out.new (K.faults sink.new)))
            (λ cut. (cut ≡ Cut.Unwritten) × ItemDone P.rules WriteFault (item_of self.old)
            (point P.rules self.old (P.state performer.old) (K.held sink.old) out.old (K.faults sink.old))
            (point P.rules self.new (P.state performer.new) (K.held sink.new) out.new (K.faults sink.new))) }
    {
        let line = mem::replace(&mut self.line, ArrayVec::new());
        self.wants = 0;
        match line_order(line.as_slice()) {
            None => Err(Cut::Unread {
                line: self.lines + 1,
            }),
            Some(order) => {
                self.lines += 1;
                match performer.perform(
                    &order,
                    line.as_slice(),
                    self.payload.as_slice(),
                    out,
                    sink,
                ) {
                    Ok(()) => {
                        self.payload.clear();
                        Ok(())
                    }
                    Err(_) => Err(Cut::Unwritten),
                }
            }
        }
    }

    /// Takes raw bytes of the line that waits for them, as many as there are, and answers their number. With the last
    /// of them the line is performed.
    fn fill<P: Performer, K: Sink>(
        &mut self,
        bytes: &[u8],
        performer: &mut P,
        out: &mut Outbox,
        sink: &mut K,
    ) -> Result<usize, Cut>
        requires ready { IsReady P.rules (point P.rules self.old (P.state performer.old) (K.held sink.old) out.old (K.faults sink.old)) }
        requires waits { 0 < self.old.wants }
        requires some { 1 ≤ length bytes.now }
        requires room { self.old.lines + length bytes.now < 2 ^ 64 }
        ensures { FrontFed P.rules result
            (point P.rules self.old (P.state performer.old) (K.held sink.old) out.old (K.faults sink.old)) bytes.now
            (point P.rules self.new (P.state performer.new) (K.held sink.new) out.new (K.faults sink.new)) }
    {
        let count = bytes.len().min(self.wants - self.payload.len());
        self.payload.push(&bytes[..count]);
        if self.payload.len() < self.wants {
            return Ok(count);
        }
        match self.end_payload(performer, out, sink) {
            Ok(()) => Ok(count),
            Err(cut) => Err(cut),
        }
    }

    /// Takes some of the bytes, from the first on, and answers their number: raw bytes of the line that waits for them,
    /// or those of a line up to its line feed.
    fn front<P: Performer, K: Sink>(
        &mut self,
        bytes: &[u8],
        performer: &mut P,
        out: &mut Outbox,
        sink: &mut K,
    ) -> Result<usize, Cut>
        requires ready { IsReady P.rules (point P.rules self.old (P.state performer.old) (K.held sink.old) out.old (K.faults sink.old)) }
        requires some { 1 ≤ length bytes.now }
        requires room { self.old.lines + length bytes.now < 2 ^ 64 }
        ensures { FrontFed P.rules result
            (point P.rules self.old (P.state performer.old) (K.held sink.old) out.old (K.faults sink.old)) bytes.now
            (point P.rules self.new (P.state performer.new) (K.held sink.new) out.new (K.faults sink.new)) }
    {
        if self.wants > 0 {
            self.fill(bytes, performer, out, sink)
        } else {
            self.line_front(bytes, performer, out, sink)
        }
    }

    /// Takes bytes of the script, in order, up to the first at which the walk is cut off.
    fn piece<P: Performer, K: Sink>(
        &mut self,
        bytes: &[u8],
        performer: &mut P,
        out: &mut Outbox,
        sink: &mut K,
    ) -> Result<(), Cut>
        requires ready { IsReady P.rules (point P.rules self.old (P.state performer.old) (K.held sink.old) out.old (K.faults sink.old)) }
        requires room { self.old.lines + length bytes.now < 2 ^ 63 }
        ensures { Fed P.rules (ending result)
            (point P.rules self.old (P.state performer.old) (K.held sink.old) out.old (K.faults sink.old)) bytes.now
            (point P.rules self.new (P.state performer.new) (K.held sink.new) out.new (K.faults sink.new)) }
    {
        let mut taken = 0;
        while taken < bytes.len() {
            match self.front(&bytes[taken..], performer, out, sink) {
                Ok(count) => taken += count,
                Err(cut) => return Err(cut),
            }
        }
        Ok(())
    }

    /// Takes the bytes of one read, in order, up to the first at which the walk is cut off, and writes their output.
    /// Output that can't be written cuts the walk off as well, also before a line off the grammar.
    pub fn take<P: Performer, K: Sink>(
        &mut self,
        bytes: &[u8],
        performer: &mut P,
        out: &mut Outbox,
        sink: &mut K,
    ) -> Result<(), Cut>
        requires ready { IsReady P.rules (point P.rules self.old (P.state performer.old) (K.held sink.old) [] (K.faults sink.old)) }
        requires room { self.old.lines + length bytes.now < 2 ^ 63 }
        requires written { out.old ≡ [] }
        ensures told { Fed P.rules (ending result)
            (point P.rules self.old (P.state performer.old) (K.held sink.old) [] (K.faults sink.old)) bytes.now
            (point P.rules self.new (P.state performer.new) (K.held sink.new) [] (K.faults sink.new)) }
        ensures still_written { OnOk result (out.new ≡ []) }
    {
        match self.piece(bytes, performer, out, sink) {
            Ok(()) => match out.flush(sink) {
                Ok(()) => Ok(()),
                Err(_) => Err(Cut::Unwritten),
            },
            Err(Cut::Unread { line }) => match out.flush(sink) {
                Ok(()) => Err(Cut::Unread { line }),
                Err(_) => Err(Cut::Unwritten),
            },
            Err(Cut::Unwritten) => Err(Cut::Unwritten),
        }
    }

    /// The script is at its end, with bytes that are kept: they are a last line without its line feed, which is
    /// performed, or off the grammar, as where raw bytes are missing.
    pub fn end_script<P: Performer, K: Sink>(
        &mut self,
        performer: &mut P,
        out: &mut Outbox,
        sink: &mut K,
    ) -> Result<(), Cut>
        requires ready { IsReady P.rules (point P.rules self.old (P.state performer.old) (K.held sink.old) out.old (K.faults sink.old)) }
        requires some { kept self.old ≢ [] }
        requires room { self.old.lines + 1 < 2 ^ 64 }
        ensures { LastLine P.rules result
            (point P.rules self.old (P.state performer.old) (K.held sink.old) out.old (K.faults sink.old))
            (point P.rules self.new (P.state performer.new) (K.held sink.new) out.new (K.faults sink.new)) }
    {
        if self.wants > 0 {
            return Err(Cut::Unread {
                line: self.lines + 1,
            });
        }
        let line = mem::replace(&mut self.line, ArrayVec::new());
        match line_order(line.as_slice()) {
            None => Err(Cut::Unread {
                line: self.lines + 1,
            }),
            Some(order) => {
                if payload_of(&order) > 0 {
                    return Err(Cut::Unread {
                        line: self.lines + 1,
                    });
                }
                self.lines += 1;
                match performer.perform(&order, line.as_slice(), &[], out, sink) {
                    Ok(()) => Ok(()),
                    Err(_) => Err(Cut::Unwritten),
                }
            }
        }
    }
}
