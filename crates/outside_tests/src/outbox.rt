//! Gathered output.
use crate::calls::is_done;
use outside_io::{Failed, MemSink, Outbox};
use std::alloc::Global;
use std::process::Abort;
use std::test::Fail;

/// Does what a row says: `put` with a text, `fill` with a number of bytes `x`, or `flush`.
fn act(
    alloc: Global,
    out: &mut Outbox,
    sink: &mut MemSink,
    act: &str,
    text: &str,
) -> Result<Result<(), Failed>, Fail> {
    Ok(match act {
        "put" => out.put(text.as_bytes(), sink),
        "fill" => {
            let bytes = Vec::from_elem(alloc, b'x', text.parse()?)?;
            out.put(bytes.as_slice(), sink)
        }
        _ => out.flush(sink),
    })
}

/// Follows the rows of a table: what is done and with what, the answer, and how many bytes the sink holds then.
fn follows(
    rt: &impl Abort,
    alloc: Global,
    out: &mut Outbox,
    sink: &mut MemSink,
    table: &str,
) -> Result<(), Fail> {
    for row in table.lines() {
        let (what, rest) = row.split_once(' ').ok_or("a row has no text")?;
        let (text, rest) = rest.split_once(' ').ok_or("a row has no answer")?;
        let (wanted, held) = rest.split_once(' ').ok_or("a row has no count")?;
        let is_so = is_done(act(alloc, out, sink, what, text)?, wanted);
        assert!(rt; is_so, "at {row}");
        let count: usize = held.parse()?;
        assert_eq!(rt; sink.held().len(), count, "at {row}");
    }
    Ok(())
}

/// Follows a table over an outbox and a sink in memory whose writes of these numbers fail; then the sink's bytes
/// begin and end so.
fn gathers(
    rt: &impl Abort,
    alloc: Global,
    fail_at: &[u64],
    table: &str,
    first: &str,
    last: &str,
) -> Result<(), Fail> {
    let mut sink = MemSink::new(alloc, 10000, fail_at.to_vec(alloc)?)?;
    let mut out = Outbox::new(alloc)?;
    follows(rt, alloc, &mut out, &mut sink, table)?;
    let held = sink.held();
    assert!(rt;
        held.starts_with(first.as_bytes()) && held.ends_with(last.as_bytes()),
        "at {table}"
    );
    Ok(())
}

#[test]
fn an_outbox_writes_what_waits_in_order_and_once(rt: HostRuntime) -> Result<(), Fail> {
    // The sink is asked for the first time where there is no room, so its third write is that of `lost`.
    gathers(
        &rt,
        rt.alloc(),
        &[3],
        "flush - ok 0\nput one, ok 0\nput two, ok 0\nfill 4096 ok 8\nflush - ok 4104\nflush - ok 4104\nput lost ok 4104\nflush - failed 4104\nput four ok 4104\nflush - ok 4108",
        "one,two,xx",
        "xxfour",
    )
}

#[test]
fn what_an_outbox_has_no_room_for_is_written_at_once(rt: HostRuntime) -> Result<(), Fail> {
    gathers(
        &rt,
        rt.alloc(),
        &[3],
        "put head ok 0\nfill 4097 ok 4101\nfill 4097 failed 4101\nput tail ok 4101\nflush - ok 4105",
        "headxx",
        "xxtail",
    )
}
