//! Commands in their printed form.
ghost use Rattle.std.specs.Prelude.{◌≡◌, ◌+◌, ◌*◌, ◌≤◌, [], ◌++◌, length, codes};
ghost use Rattle.std.specs.List.{flat_map};
ghost use Rattle.std.specs.Fmt.{decimal, signed_decimal};
ghost use Rattle.arrayvec.specs.ArrayString.{array_string_len};
ghost use Rattle.cmd_words.specs.declared.commands.Command.TheVariants as command;
ghost use Rattle.cmd_words.specs.Words.{kind_word, event_word};
ghost use Rattle.cmd_print.specs.Printed.{printed_value, printed_set, printed_place, printed_config, printed_options, printed};

use crate::putting::{put_count, put_name, put_number, put_quoted, put_word};
use arrayvec::ArrayString;
use cmd_words::{Command, ConfigOption, Options, PlaceOption, Word};
use kind_core::{Attr, EventKind, Kind, Name, Value};

/// A value of an attribute.
fn put_value(text: &mut ArrayString<1536>, value: &Value)
    requires { array_string_len text.old + 130 ≤ 1536 }
    ensures bytes { text.new.bytes ≡ text.old.bytes ++ printed_value value.now }
    ensures len { array_string_len text.new ≤ array_string_len text.old + 130 }
{
    match value {
        Value::Number(n) => put_number(text, *n),
        Value::Words(words) => put_quoted(text, words),
    }
}

/// An option that is printed as a `-`, a word, a space and a value, in at most 144 bytes.
trait Printable: Copy {
    ghost use Rattle.std.specs.Prelude.{◌≡◌, ◌+◌, ◌≤◌, ◌++◌, List, ℕ};
    ghost use Rattle.arrayvec.specs.ArrayString.{array_string_len};

    ghost form: { Self → List ℕ };

    fn put(&self, text: &mut ArrayString<1536>)
        requires { array_string_len text.old + 144 ≤ 1536 }
        ensures bytes { text.new.bytes ≡ text.old.bytes ++ form self.now }
        ensures len { array_string_len text.new ≤ array_string_len text.old + 144 };
}

impl Printable for (Attr, Value) {
    ghost form = { printed_set };

    fn put(&self, text: &mut ArrayString<1536>) {
        text.push_str("-");
        put_word(text, self.0);
        text.push_str(" ");
        put_value(text, &self.1);
    }
}

impl Printable for (PlaceOption, i32) {
    ghost form = { printed_place };

    fn put(&self, text: &mut ArrayString<1536>) {
        text.push_str("-");
        put_word(text, self.0);
        text.push_str(" ");
        put_number(text, self.1);
    }
}

impl Printable for (ConfigOption, i32) {
    ghost form = { printed_config };

    fn put(&self, text: &mut ArrayString<1536>) {
        text.push_str("-");
        put_word(text, self.0);
        text.push_str(" ");
        put_number(text, self.1);
    }
}

/// Options, each after a space.
fn put_others<T: Printable>(text: &mut ArrayString<1536>, others: &[T])
    requires { array_string_len text.old + 145 * length others.now ≤ 1536 }
    ensures bytes { text.new.bytes ≡ text.old.bytes ++ flat_map (λ p. codes " " ++ T.form p) others.now }
    ensures len { array_string_len text.new ≤ array_string_len text.old + 145 * length others.now }
{
    for option in others {
        text.push_str(" ");
        option.put(text);
    }
}

/// The options of a command, one space between them.
fn put_options<T: Printable>(text: &mut ArrayString<1536>, options: &[T])
    requires few { length options.now ≤ 8 }
    requires room { array_string_len text.old + 1160 ≤ 1536 }
    ensures bytes { text.new.bytes ≡ text.old.bytes ++ printed_options T.form options.now }
    ensures len { array_string_len text.new ≤ array_string_len text.old + 1160 }
{
    match options {
        [] => {}
        [first, others @ ..] => {
            first.put(text);
            put_others(text, others);
        }
    }
}

/// A name, and a literal of at most 16 bytes.
fn front(name: Name, call: &str) -> ArrayString<1536>
    requires { length call.now ≤ 16 }
    ensures bytes { result.bytes ≡ name ++ call.now }
    ensures len { array_string_len result ≤ 32 }
{
    let mut text = ArrayString::new();
    put_name(&mut text, name);
    text.push_str(call);
    text
}

/// A call with a name.
fn of_name(name: Name, call: &str, argument: Name) -> ArrayString<1536>
    requires { length call.now ≤ 16 }
    ensures { result.bytes ≡ name ++ call.now ++ argument ++ codes ")" }
{
    let mut text = front(name, call);
    put_name(&mut text, argument);
    text.push_str(")");
    text
}

/// A call with a word.
fn of_word<W: Word>(name: Name, call: &str, argument: W) -> ArrayString<1536>
    requires { length call.now ≤ 16 }
    ensures { result.bytes ≡ name ++ call.now ++ W.spelling argument ++ codes ")" }
{
    let mut text = front(name, call);
    put_word(&mut text, argument);
    text.push_str(")");
    text
}

/// A call with a number.
fn of_number(name: Name, call: &str, argument: i32) -> ArrayString<1536>
    requires { length call.now ≤ 16 }
    ensures { result.bytes ≡ name ++ call.now ++ signed_decimal argument ++ codes ")" }
{
    let mut text = front(name, call);
    put_number(&mut text, argument);
    text.push_str(")");
    text
}

/// `frame`.
fn of_frame(name: Name, size: u32) -> ArrayString<1536>
    ensures { result.bytes ≡ name ++ codes ".frame(" ++ decimal size ++ codes ")" }
{
    let mut text = front(name, ".frame(");
    put_count(&mut text, size);
    text.push_str(")");
    text
}

/// `new`.
fn of_new(name: Name, kind: Kind) -> ArrayString<1536>
    ensures { result.bytes ≡ name ++ codes " = new " ++ kind_word kind ++ codes "()" }
{
    let mut text = front(name, " = new ");
    put_word(&mut text, kind);
    text.push_str("()");
    text
}

/// `mode`.
fn of_mode(name: Name, w: i32, h: i32) -> ArrayString<1536>
    ensures { result.bytes ≡ name ++ codes ".mode(" ++ signed_decimal w ++ codes ", " ++ signed_decimal h ++ codes ")" }
{
    let mut text = front(name, ".mode(");
    put_number(&mut text, w);
    text.push_str(", ");
    put_number(&mut text, h);
    text.push_str(")");
    text
}

/// `bind`.
fn of_bind(name: Name, event: EventKind, tag: Name) -> ArrayString<1536>
    ensures { result.bytes ≡ name ++ codes ".bind(" ++ event_word event ++ codes ", " ++ tag ++ codes ")" }
{
    let mut text = front(name, ".bind(");
    put_word(&mut text, event);
    text.push_str(", ");
    put_name(&mut text, tag);
    text.push_str(")");
    text
}

/// `set`.
fn of_set(name: Name, options: &[(Attr, Value)]) -> ArrayString<1536>
    requires { length options.now ≤ 8 }
    ensures { result.bytes ≡ name ++ codes ".set(" ++ printed_options printed_set options.now ++ codes ")" }
{
    let mut text = front(name, ".set(");
    put_options(&mut text, options);
    text.push_str(")");
    text
}

/// `columnconfig` and `rowconfig`.
fn of_config(
    name: Name,
    call: &str,
    index: i32,
    options: &[(ConfigOption, i32)],
) -> ArrayString<1536>
    requires call { length call.now ≤ 16 }
    requires few { length options.now ≤ 8 }
    ensures { result.bytes ≡ name ++ call.now ++ signed_decimal index ++ codes ", " ++ printed_options printed_config options.now ++ codes ")" }
{
    let mut text = front(name, call);
    put_number(&mut text, index);
    text.push_str(", ");
    put_options(&mut text, options);
    text.push_str(")");
    text
}

/// `place` with options.
fn of_place(name: Name, child: Name, options: &[(PlaceOption, i32)]) -> ArrayString<1536>
    requires { length options.now ≤ 8 }
    ensures { result.bytes ≡ name ++ codes ".place(" ++ child ++ codes ", " ++ printed_options printed_place options.now ++ codes ")" }
{
    let mut text = front(name, ".place(");
    put_name(&mut text, child);
    text.push_str(", ");
    put_options(&mut text, options);
    text.push_str(")");
    text
}

/// `place` with or without options.
#[tactic(auto, unfolding(crate::specs::Printed::printed))]
fn of_any_place(name: Name, child: Name, options: &Options<(PlaceOption, i32)>) -> ArrayString<1536>
    ensures { result.bytes ≡ printed (command.Place name child options.now) }
{
    let options = options.as_slice();
    match options {
        [] => of_name(name, ".place(", child),
        [_, ..] => of_place(name, child, options),
    }
}

/// `poll`.
fn of_poll() -> ArrayString<1536>
    ensures { result.bytes ≡ codes "poll()" }
{
    let mut text = ArrayString::new();
    text.push_str("poll()");
    text
}

/// The command in its printed form (docs/GUIDE.md, "Printed form"): one space on both sides of `=`, after
/// each comma, after `new`, between options and between an option's word and its value, and no other space.
/// `parse` reads it back where it has at most 512 bytes and the command has a line at all.
#[tactic(auto, unfolding(crate::specs::Printed::printed))]
pub fn print(command: &Command) -> ArrayString<1536>
    ensures { result.bytes ≡ printed command.now }
{
    match command {
        Command::New { name, kind } => of_new(*name, *kind),
        Command::Set { name, options } => of_set(*name, options.as_slice()),
        Command::Get { name, attr } => of_word(*name, ".get(", *attr),
        Command::Place {
            parent,
            child,
            options,
        } => of_any_place(*parent, *child, options),
        Command::Lift { parent, child } => of_name(*parent, ".lift(", *child),
        Command::ColumnConfig {
            name,
            index,
            options,
        } => of_config(*name, ".columnconfig(", *index, options.as_slice()),
        Command::RowConfig {
            name,
            index,
            options,
        } => of_config(*name, ".rowconfig(", *index, options.as_slice()),
        Command::Link { name, variable } => of_name(*name, ".link(", *variable),
        Command::Unlink { name } => front(*name, ".unlink()"),
        Command::Bind { name, event, tag } => of_bind(*name, *event, *tag),
        Command::Unbind { name, event } => of_word(*name, ".unbind(", *event),
        Command::OpenWindow { name } => front(*name, ".open()"),
        Command::CloseWindow { name } => front(*name, ".close()"),
        Command::TopWindow { name } => front(*name, ".top()"),
        Command::Mode { name, w, h } => of_mode(*name, *w, *h),
        Command::Admit { name, period } => of_number(*name, ".admit(", *period),
        Command::Leave { name } => front(*name, ".leave()"),
        Command::SendFrame { name, size } => of_frame(*name, *size),
        Command::DropWidget { name } => front(*name, ".drop()"),
        Command::Poll => of_poll(),
    }
}
