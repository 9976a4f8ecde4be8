//! Clients come and go.
use crate::asking::asked_anew;
use std::test::Fail;

const COMING: &str = "
desk live | 0
1 connect | ok
1 hello | ok 2
desk live | 2
1 bye | ok
desk live | 1
";

#[test]
fn clients_come_and_go(rt: HostRuntime) -> Result<(), Fail> {
    asked_anew(&rt, rt.alloc(), COMING)
}

const OPENING: &str = "
1 connect | ok
1 w = new Window() | ok
desk top 0 0 | none
1 w.open() | ok
desk changed | true
desk top 0 0 | 1
desk top 31 31 | 1
desk place 1 w | 0 0 160 120
";

#[test]
fn a_window_opens_where_its_attributes_say(rt: HostRuntime) -> Result<(), Fail> {
    asked_anew(&rt, rt.alloc(), OPENING)
}

const HELLOS: &str = "
1 hello | ok 1
1 hello | ok 2
1 hello | ok 3
1 hello | ok 4
1 hello | ok 5
1 hello | ok 6
1 hello | ok 7
1 hello | ok 8
1 hello | ok 9
1 hello | ok 10
1 hello | ok 11
1 hello | ok 12
1 hello | ok 13
1 hello | ok 14
1 hello | ok 15
1 hello | ok 16
1 hello | error 7 16
3 bye | ok
3 bye | error 20
9 bye | ok
1 hello | ok 3
3 connect | error 22
1 hello | ok 9
1 hello | error 7 16
";

#[test]
fn hello_gives_the_least_free_client(rt: HostRuntime) -> Result<(), Fail> {
    asked_anew(&rt, rt.alloc(), HELLOS)
}

const LEAVING: &str = "
1 connect | ok
2 connect | ok
1 w = new Window() | ok
2 w = new Window() | ok
2 w.set(-x 7) | ok
2 w.open() | ok
1 w.open() | ok
1 bye | ok
1 w.get(x) | error 20
1 connect | ok
1 w.get(x) | error 4
2 w.get(x) | ok 7
2 w.open() | error 12
desk top 6 0 | none
desk top 7 0 | 2
desk place 2 w | 7 0 160 120
";

#[test]
fn a_client_that_leaves_takes_its_widgets_with_it(rt: HostRuntime) -> Result<(), Fail> {
    asked_anew(&rt, rt.alloc(), LEAVING)
}

const LINKS: &str = "
1 connect | ok
1 a = new Variable() | ok
1 l = new Label() | ok
1 l.link(a) | ok
1 a.drop() | error 19
2 connect | ok
2 x = new Label() | ok
2 x.link(a) | error 4
1 l.unlink() | ok
1 a.drop() | ok
";

#[test]
fn a_link_leads_to_a_variable_of_its_client(rt: HostRuntime) -> Result<(), Fail> {
    asked_anew(&rt, rt.alloc(), LINKS)
}
