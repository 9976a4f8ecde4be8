//! Widgets are made, counted, set and read.
use crate::asking::{ask_all, asked_anew, new_desk};
use cmd_text::{Command, Reply};
use desk_core::Desk;
use kind_core::{Kind, name_from};
use std::process::Abort;
use std::test::Fail;

const KINDS: &str = "
1 connect | ok
1 k1 = new Window() | ok
1 k2 = new Grid() | ok
1 k3 = new Frame() | ok
1 k4 = new Button() | ok
1 k5 = new Label() | ok
1 k6 = new Entry() | ok
1 k7 = new Scale() | ok
1 k8 = new Scrollbar() | ok
1 k9 = new Variable() | ok
1 k10 = new VScreen() | ok
1 connect | error 22
2 k1.drop() | error 20
1 k1 = new Label() | error 3
";

#[test]
fn there_is_a_widget_of_each_kind(rt: HostRuntime) -> Result<(), Fail> {
    asked_anew(&rt, rt.alloc(), KINDS)
}

/// Client 1 makes so many widgets of a kind, each of which is answered that it is done. Their names are a letter and
/// two others, from `aa` on.
fn make_many(desk: &mut Desk, letter: u8, count: u8, kind: Kind) -> Result<(), Fail> {
    for number in 0..count {
        let bytes = [letter, b'a' + number / 16, b'a' + number % 16];
        let name = name_from(&bytes).ok_or("a name")?;
        if desk.step(1, &Command::New { name, kind }, &[]) != Reply::Done {
            return Err("a widget isn't made".into());
        }
    }
    Ok(())
}

fn fills(rt: &impl Abort, desk: &mut Desk) -> Result<(), Fail> {
    ask_all(rt, desk, "1 connect | ok")?;
    make_many(desk, b'a', 128, Kind::Label)?;
    ask_all(rt, desk, "1 more = new Label() | error 7 128")
}

#[test]
fn a_client_has_128_widgets(rt: HostRuntime) -> Result<(), Fail> {
    fills(&rt, &mut new_desk(rt.alloc()))
}

/// Client 1 has 8 Windows and 8 VScreens.
const EIGHT: &str = "
1 w8 = new Window() | error 7 8
1 v8 = new VScreen() | error 7 8
1 g8 = new Grid() | ok
";

fn fills_twice(rt: &impl Abort, desk: &mut Desk) -> Result<(), Fail> {
    ask_all(rt, desk, "1 connect | ok")?;
    make_many(desk, b'w', 8, Kind::Window)?;
    make_many(desk, b'v', 8, Kind::VScreen)?;
    ask_all(rt, desk, EIGHT)
}

#[test]
fn a_client_has_8_windows_and_8_screens(rt: HostRuntime) -> Result<(), Fail> {
    fills_twice(&rt, &mut new_desk(rt.alloc()))
}

/// Client 1 has 8 Windows from waa on, and 128 widgets with the Labels from laa on.
const FULL: &str = "
1 more = new Label() | error 7 128
# a taken name comes before the count of widgets, and that before the count of Windows
1 laa = new Label() | error 3
1 more = new Window() | error 7 128
2 more = new Label() | ok
1 laa.drop() | ok
1 more = new Window() | error 7 8
1 waa = new Window() | error 3
1 more = new Label() | ok
";

fn is_full(rt: &impl Abort, desk: &mut Desk) -> Result<(), Fail> {
    ask_all(rt, desk, "1 connect | ok\n2 connect | ok")?;
    make_many(desk, b'w', 8, Kind::Window)?;
    make_many(desk, b'l', 120, Kind::Label)?;
    ask_all(rt, desk, FULL)
}

#[test]
fn new_is_refused_in_its_order(rt: HostRuntime) -> Result<(), Fail> {
    is_full(&rt, &mut new_desk(rt.alloc()))
}

const VALUES: &str = r#"
1 connect | ok
1 w = new Window() | ok
1 w.set(-x 5 -w 9) | error 6 16 1024
1 w.get(x) | ok 0
1 w.set(-x 1025) | error 6 -1024 1024
1 w.set(-text "a") | error 5
1 w.set( -title   "a\"b" ) | ok
1 w.get(title) | ok "a\"b"
1 u.open() | error 4
# an option that is repeated counts by its last, after each was checked
1 w.set(-w 20 -w 30 -w 40) | ok
1 w.get(w) | ok 40
1 w.set(-w 9 -w 20) | error 6 16 1024
1 w.get(w) | ok 40
"#;

#[test]
fn values_are_checked_before_any_is_set(rt: HostRuntime) -> Result<(), Fail> {
    asked_anew(&rt, rt.alloc(), VALUES)
}
