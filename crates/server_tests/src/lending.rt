//! The desk that a server lends, and a copy of it.
use crate::playing::{play, square};
use desk_core::Desk;
use scene_core::top_at;
use server_core::Server;
use std::process::Abort;
use std::test::Fail;

const OPENED: &str = "
1 connect | ok
1 w = new Window() | ok
1 w.set(-x 4 -y 3 -w 20 -h 20) | ok
1 w.open() | ok
2 connect | ok
";

const LATER: &str = "
1 bye | ok
live | 1
";

/// Whether a widget is on top at the last pixel of the window, and none beside it.
fn shows_the_window(desk: &Desk) -> bool {
    let view = desk.view();
    top_at(&view, 23, 22).is_some() && top_at(&view, 24, 22).is_none()
}

/// The desk that is lent is the server's, and its copy stays as the desk was.
fn lends_its_desk(rt: &impl Abort, server: &mut Server) -> Result<(), Fail> {
    play(rt, server, OPENED)?;
    assert_eq!(rt; server.desk().live(), 2);
    assert!(rt; shows_the_window(server.desk()));
    let copy = match server.desk().copy() {
        Ok(copy) => copy,
        Err(_) => return Err("there is no memory".into()),
    };
    play(rt, server, LATER)?;
    assert_eq!(rt; server.desk().live(), 1);
    assert!(rt; !shows_the_window(server.desk()));
    assert_eq!(rt; copy.live(), 2);
    assert!(rt; shows_the_window(&copy));
    Ok(())
}

#[test]
fn a_server_lends_its_desk(rt: HostRuntime) -> Result<(), Fail> {
    lends_its_desk(&rt, &mut Server::new(rt.alloc(), square(32))?)
}
