//! A film that is played by rows of text.
ghost use Rattle.std.specs.Prelude.{◌≤◌};

use std::alloc::Global;
use std::process::Abort;
use std::test::Fail;
use vscreen_core::{Band, Film, WrongSize, share};

/// Two numbers with a space between them.
pub fn pair(text: &str) -> Result<(u32, u32), Fail> {
    let (first, second) = text.split_once(' ').ok_or("two numbers are wanted")?;
    Ok((first.parse()?, second.parse()?))
}

/// So many beats draw runs of this length one after the other, from this pixel on. `plan` is first pixel and
/// length.
fn beats(rt: &impl Abort, film: &mut Film, count: u32, plan: &str) -> Result<(), Fail> {
    let (mut from, length) = pair(plan)?;
    for _i in 0..count {
        assert!(rt; film.period() >= 1);
        let to = from.saturating_add(length);
        assert_eq!(rt; film.beat(), Band { from, to }, "at {plan}");
        from = to;
    }
    Ok(())
}

/// A frame is taken (`ok`), or refused with the bytes that are wanted and those that came.
fn commits(rt: &impl Abort, film: &mut Film, frame: &[u8], answer: &str) -> Result<(), Fail> {
    if frame.len() > 65536 {
        return Err("the frame is too long".into());
    }
    let wanted = match answer {
        "ok" => Ok(()),
        _ => {
            let (want, got) = pair(answer)?;
            Err(WrongSize { want, got })
        }
    };
    assert_eq!(rt; film.commit(frame), wanted, "at {answer}");
    Ok(())
}

/// A frame of so many bytes of one value, written as `100 A`.
fn fills(
    rt: &impl Abort,
    alloc: Global,
    film: &mut Film,
    fill: &str,
    answer: &str,
) -> Result<(), Fail> {
    let (size, letter) = fill.split_once(' ').ok_or("a fill is a size and a letter")?;
    let size: usize = size.parse()?;
    let byte = letter
        .as_bytes()
        .first()
        .copied()
        .ok_or("a fill has a letter")?;
    let frame = vec![in alloc; byte; size]?;
    commits(rt, film, frame.as_slice(), answer)
}

/// The row's bytes are those of the text, in which `.` stands for 0.
fn shows(rt: &impl Abort, film: &Film, y: u32, wanted: &str) {
    assert!(rt; y < film.height());
    let row = film.shown_row(y);
    assert_eq!(rt; row.len(), wanted.len());
    for (byte, letter) in row.iter().zip(wanted.as_bytes()) {
        let seen = if *byte == 0 { b'.' } else { *byte };
        assert_eq!(rt; seen, *letter, "row {y}");
    }
}

/// Begins a period of 1 to 64 ticks.
fn begins(film: &mut Film, period: u32) -> Result<(), Fail> {
    if period < 1 || period > 64 {
        return Err("a period is 1 to 64 ticks".into());
    }
    film.begin(period);
    Ok(())
}

/// The film tells this period.
fn has_period(rt: &impl Abort, film: &Film, period: &str) -> Result<(), Fail> {
    let period: u32 = period.parse()?;
    assert_eq!(rt; film.period(), period);
    Ok(())
}

/// One row, as `beats 3 | 0 34`: what is done, and what comes of it.
fn row(rt: &impl Abort, alloc: Global, film: &mut Film, text: &str) -> Result<(), Fail> {
    let (done, answer) = text.split_once(" | ").ok_or("a row has no answer")?;
    let (word, rest) = done.split_once(' ').ok_or("a row has one word")?;
    match word {
        "begin" => begins(film, rest.parse()?),
        "settle" => {
            film.settle();
            Ok(())
        }
        "period" => has_period(rt, film, answer),
        "beats" => beats(rt, film, rest.parse()?, answer),
        "commit" => commits(rt, film, rest.as_bytes(), answer),
        "fill" => fills(rt, alloc, film, rest, answer),
        "row" => {
            shows(rt, film, rest.parse()?, answer);
            Ok(())
        }
        _ => Err("a row's word is none of these".into()),
    }
}

/// A new film of `w` by `h` pixels is played by the rows of the table. Empty rows, and those that begin with `#`,
/// say nothing.
pub fn plays(rt: &impl Abort, alloc: Global, w: u32, h: u32, table: &str) -> Result<(), Fail>
    requires some_width { 1 ≤ w }
    requires width { w ≤ 256 }
    requires some_height { 1 ≤ h }
    requires height { h ≤ 256 }
{
    let mut film = Film::new(alloc, w, h)?;
    assert_eq!(rt; (film.width(), film.height(), film.period()), (w, h, 0));
    goes_on(rt, alloc, &mut film, table)
}

/// The film is played on by the rows of the table.
pub fn goes_on(rt: &impl Abort, alloc: Global, film: &mut Film, table: &str) -> Result<(), Fail> {
    for text in table.lines() {
        if text.is_empty() || text.starts_with('#') {
            continue;
        }
        row(rt, alloc, film, text)?;
    }
    Ok(())
}

/// The share of a film of `w` by `h` pixels under each period of the table, whose rows are a period and a share.
pub fn shares(rt: &impl Abort, w: u32, h: u32, table: &str) -> Result<(), Fail>
    requires width { w ≤ 256 }
    requires height { h ≤ 256 }
{
    for text in table.lines() {
        if text.is_empty() {
            continue;
        }
        let (period, pixels) = pair(text)?;
        assert!(rt; period >= 1, "at {text}");
        assert_eq!(rt; share(w, h, period), pixels, "at {text}");
    }
    Ok(())
}
