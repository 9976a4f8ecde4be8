//! What is dirty, and what ticks draw.
use crate::playing::{is_plain, plays, square};
use server_core::Server;
use std::process::Abort;
use std::test::Fail;

/// The server is new: nobody is there, nothing is dirty, and each pixel has the desk's colour.
fn is_new(rt: &impl Abort, server: &Server) {
    assert_eq!(rt; server.shape(), square(16));
    assert_eq!(rt; server.live(), 0);
    assert_eq!(rt; server.dirty(), 0);
    assert_eq!(rt; server.picture().len(), 256);
    assert!(rt; is_plain(server, 2));
}

#[test]
fn a_new_server_is_clean_and_has_the_desks_colour(rt: HostRuntime) -> Result<(), Fail> {
    is_new(&rt, &Server::new(rt.alloc(), square(16))?);
    Ok(())
}

const SLICES: &str = "
1 connect | ok
1 hello | ok 2
live | 2
1 under = new Window() | ok
1 under.set(-x 0 -y 0 -w 20 -h 20) | ok
1 under.open() | ok
dirty | 400
2 over = new Window() | ok
2 over.set(-x 10 -y 10 -w 20 -h 20) | ok
2 over.open() | ok
dirty | 700
tick | 500 200
tick | 200 0
pixel 0 0 | 4
pixel 1 1 | 5
pixel 1 12 | 3
pixel 9 9 | 5
pixel 10 10 | 4
pixel 11 11 | 5
pixel 11 22 | 3
pixel 30 30 | 2
";

#[test]
fn two_windows_are_drawn_in_slices(rt: HostRuntime) -> Result<(), Fail> {
    plays(&rt, rt.alloc(), 64, SLICES)
}

const SHOWN: &str = "
1 connect | ok
1 w = new Window() | ok
1 w.set(-x -8 -y 12 -w 20 -h 20) | ok
1 w.open() | ok
dirty | 48
";

#[test]
fn a_window_dirties_what_it_shows_of_the_screen(rt: HostRuntime) -> Result<(), Fail> {
    plays(&rt, rt.alloc(), 16, SHOWN)
}

const CHANGES: &str = "
1 connect | ok
1 w = new Window() | ok
1 w.set(-x 0 -y 0 -w 20 -h 20) | ok
1 w.open() | ok
tick | 400 0
1 w.set(-x 0 -y 0 -w 20 -h 20) | ok
1 w.get(w) | ok 20
2 w.set(-x 0 -y 0 -w 20 -h 20) | error 20
2 bye | error 20
2 connect | ok
dirty | 0
1 w.set(-x 30 -y 0 -w 20 -h 20) | ok
dirty | 800
";

/// What is there already, what is asked, and what is refused change nothing. A window that moves dirties where it
/// was and where it is.
#[test]
fn only_a_change_dirties(rt: HostRuntime) -> Result<(), Fail> {
    plays(&rt, rt.alloc(), 64, CHANGES)
}

const LEAVING: &str = "
3 connect | ok
3 w = new Window() | ok
3 w.set(-x 0 -y 0 -w 20 -h 20) | ok
3 w.open() | ok
tick | 400 0
3 bye | ok
live | 0
dirty | 400
tick | 400 0
plain | 2
";

#[test]
fn a_client_that_leaves_takes_its_windows_along(rt: HostRuntime) -> Result<(), Fail> {
    plays(&rt, rt.alloc(), 32, LEAVING)
}

const ROWS: &str = "
1 connect | ok
1 w = new Window() | ok
1 w.set(-w 20 -h 20) | ok
1 w.open() | ok
spans | 0
tick | 400 0
spans | 20
tick | 0 0
spans | 0
";

#[test]
fn a_window_is_drawn_by_whole_rows(rt: HostRuntime) -> Result<(), Fail> {
    plays(&rt, rt.alloc(), 32, ROWS)
}
