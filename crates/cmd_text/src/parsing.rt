//! Lines are read from left to right, in one pass.
ghost use Rattle.std.specs.Prelude.{◌≡◌, ◌-◌, [], length, codes, Ok, Err};
ghost use Rattle.std.specs.Str.{bytes_eq};
ghost use Rattle.cmd_text.specs.Reading.{Gives};
ghost use Rattle.cmd_text.specs.ReadingLines.{open_at, comma_at, end_at, finish_at, close_at, place_rest_at, arguments_at, called_at, made_at, body_at, line_at};
ghost use Rattle.cmd_words.specs.declared.methods.Method.TheVariants as method;

use crate::optioning::options;
use crate::picking::{attr, event, kind, method};
use crate::reading::{begins, count, expect, name, number, skip, skip_some};
use cmd_words::{Command, Method, Options};
use kind_core::Name;

/// `(` with the spaces before and after it.
#[tactic(auto, unfolding(crate::specs::ReadingLines::open_at))]
fn open(bytes: &[u8]) -> Result<&[u8], usize>
    ensures { Gives (λ x. x.now) result (open_at bytes.now) }
{
    let rest = expect(b"(", skip(bytes))?;
    Ok(skip(rest))
}

/// `,` with the spaces before and after it.
#[tactic(auto, unfolding(crate::specs::ReadingLines::comma_at))]
fn comma(bytes: &[u8]) -> Result<&[u8], usize>
    ensures { Gives (λ x. x.now) result (comma_at bytes.now) }
{
    let rest = expect(b",", skip(bytes))?;
    Ok(skip(rest))
}

/// The command, where only spaces are left.
#[tactic(auto, unfolding(crate::specs::ReadingLines::end_at))]
fn end(command: Command, bytes: &[u8]) -> Result<Command, usize>
    ensures { result ≡ end_at command bytes.now }
{
    match skip(bytes) {
        [] => Ok(command),
        rest => Err(rest.len()),
    }
}

/// The command, where `)` and the end of the line follow.
#[tactic(auto, unfolding(crate::specs::ReadingLines::finish_at))]
fn finish(command: Command, bytes: &[u8]) -> Result<Command, usize>
    ensures { result ≡ finish_at command bytes.now }
{
    let rest = expect(b")", bytes)?;
    end(command, rest)
}

/// The same with spaces before the `)`.
#[tactic(auto, unfolding(crate::specs::ReadingLines::close_at))]
fn close(command: Command, bytes: &[u8]) -> Result<Command, usize>
    ensures { result ≡ close_at command bytes.now }
{
    finish(command, skip(bytes))
}

#[tactic(auto, unfolding(crate::specs::ReadingLines::arguments_at))]
fn set(name: Name, bytes: &[u8]) -> Result<Command, usize>
    ensures { result ≡ arguments_at name method.Set bytes.now }
{
    let (options, rest) = options(bytes)?;
    finish(Command::Set { name, options }, rest)
}

#[tactic(auto, unfolding(crate::specs::ReadingLines::arguments_at))]
fn get(name: Name, bytes: &[u8]) -> Result<Command, usize>
    ensures { result ≡ arguments_at name method.Get bytes.now }
{
    let (attr, rest) = attr(bytes)?;
    close(Command::Get { name, attr }, rest)
}

/// What follows the child's name in `place`.
#[tactic(auto, unfolding(crate::specs::ReadingLines::place_rest_at))]
fn place_rest(parent: Name, child: Name, bytes: &[u8]) -> Result<Command, usize>
    ensures { result ≡ place_rest_at parent child bytes.now }
{
    if begins(b',', bytes) {
        let rest = expect(b",", bytes)?;
        let (options, rest) = options(skip(rest))?;
        let command = Command::Place {
            parent,
            child,
            options,
        };
        finish(command, rest)
    } else {
        let options = Options::new();
        let command = Command::Place {
            parent,
            child,
            options,
        };
        finish(command, bytes)
    }
}

#[tactic(auto, unfolding(crate::specs::ReadingLines::arguments_at))]
fn place(parent: Name, bytes: &[u8]) -> Result<Command, usize>
    ensures { result ≡ arguments_at parent method.Place bytes.now }
{
    match name(bytes) {
        Ok((child, rest)) => place_rest(parent, child, skip(rest)),
        Err(left) => Err(left),
    }
}

#[tactic(auto, unfolding(crate::specs::ReadingLines::arguments_at))]
fn lift(parent: Name, bytes: &[u8]) -> Result<Command, usize>
    ensures { result ≡ arguments_at parent method.Lift bytes.now }
{
    match name(bytes) {
        Ok((child, rest)) => close(Command::Lift { parent, child }, rest),
        Err(left) => Err(left),
    }
}

#[tactic(auto, unfolding(crate::specs::ReadingLines::arguments_at))]
fn column_config(name: Name, bytes: &[u8]) -> Result<Command, usize>
    ensures { result ≡ arguments_at name method.ColumnConfig bytes.now }
{
    let (index, rest) = number(bytes)?;
    let rest = comma(rest)?;
    let (options, rest) = options(rest)?;
    let command = Command::ColumnConfig {
        name,
        index,
        options,
    };
    finish(command, rest)
}

#[tactic(auto, unfolding(crate::specs::ReadingLines::arguments_at))]
fn row_config(name: Name, bytes: &[u8]) -> Result<Command, usize>
    ensures { result ≡ arguments_at name method.RowConfig bytes.now }
{
    let (index, rest) = number(bytes)?;
    let rest = comma(rest)?;
    let (options, rest) = options(rest)?;
    let command = Command::RowConfig {
        name,
        index,
        options,
    };
    finish(command, rest)
}

#[tactic(auto, unfolding(crate::specs::ReadingLines::arguments_at))]
fn link(widget: Name, bytes: &[u8]) -> Result<Command, usize>
    ensures { result ≡ arguments_at widget method.Link bytes.now }
{
    match name(bytes) {
        Ok((variable, rest)) => {
            let command = Command::Link {
                name: widget,
                variable,
            };
            close(command, rest)
        }
        Err(left) => Err(left),
    }
}

#[tactic(auto, unfolding(crate::specs::ReadingLines::arguments_at))]
fn bind(widget: Name, bytes: &[u8]) -> Result<Command, usize>
    ensures { result ≡ arguments_at widget method.Bind bytes.now }
{
    let (event, rest) = event(bytes)?;
    let rest = comma(rest)?;
    match name(rest) {
        Ok((tag, rest)) => {
            let command = Command::Bind {
                name: widget,
                event,
                tag,
            };
            close(command, rest)
        }
        Err(left) => Err(left),
    }
}

#[tactic(auto, unfolding(crate::specs::ReadingLines::arguments_at))]
fn unbind(name: Name, bytes: &[u8]) -> Result<Command, usize>
    ensures { result ≡ arguments_at name method.Unbind bytes.now }
{
    let (event, rest) = event(bytes)?;
    close(Command::Unbind { name, event }, rest)
}

#[tactic(auto, unfolding(crate::specs::ReadingLines::arguments_at))]
fn mode(name: Name, bytes: &[u8]) -> Result<Command, usize>
    ensures { result ≡ arguments_at name method.Mode bytes.now }
{
    let (w, rest) = number(bytes)?;
    let rest = comma(rest)?;
    let (h, rest) = number(rest)?;
    close(Command::Mode { name, w, h }, rest)
}

#[tactic(auto, unfolding(crate::specs::ReadingLines::arguments_at))]
fn admit(name: Name, bytes: &[u8]) -> Result<Command, usize>
    ensures { result ≡ arguments_at name method.Admit bytes.now }
{
    let (period, rest) = number(bytes)?;
    close(Command::Admit { name, period }, rest)
}

#[tactic(auto, unfolding(crate::specs::ReadingLines::arguments_at))]
fn send_frame(name: Name, bytes: &[u8]) -> Result<Command, usize>
    ensures { result ≡ arguments_at name method.Frame bytes.now }
{
    let (size, rest) = count(bytes)?;
    close(Command::SendFrame { name, size }, rest)
}

/// What is between the `(` of a method and the end of the line.
#[tactic(auto, unfolding(crate::specs::ReadingLines::arguments_at))]
fn arguments(name: Name, method: Method, bytes: &[u8]) -> Result<Command, usize>
    ensures { result ≡ arguments_at name method bytes.now }
{
    match method {
        Method::Set => set(name, bytes),
        Method::Get => get(name, bytes),
        Method::Place => place(name, bytes),
        Method::Lift => lift(name, bytes),
        Method::ColumnConfig => column_config(name, bytes),
        Method::RowConfig => row_config(name, bytes),
        Method::Link => link(name, bytes),
        Method::Unlink => finish(Command::Unlink { name }, bytes),
        Method::Bind => bind(name, bytes),
        Method::Unbind => unbind(name, bytes),
        Method::Open => finish(Command::OpenWindow { name }, bytes),
        Method::Close => finish(Command::CloseWindow { name }, bytes),
        Method::Top => finish(Command::TopWindow { name }, bytes),
        Method::Mode => mode(name, bytes),
        Method::Admit => admit(name, bytes),
        Method::Leave => finish(Command::Leave { name }, bytes),
        Method::Frame => send_frame(name, bytes),
        Method::Drop => finish(Command::DropWidget { name }, bytes),
    }
}

/// What follows a name and `.`.
#[tactic(auto, unfolding(crate::specs::ReadingLines::called_at))]
fn called(name: Name, bytes: &[u8]) -> Result<Command, usize>
    ensures { result ≡ called_at name bytes.now }
{
    let (word, rest) = method(skip(bytes))?;
    let rest = open(rest)?;
    arguments(name, word, rest)
}

/// What follows a name and `=`.
#[tactic(auto, unfolding(crate::specs::ReadingLines::made_at))]
fn made(name: Name, bytes: &[u8]) -> Result<Command, usize>
    ensures { result ≡ made_at name bytes.now }
{
    let rest = expect(b"new", skip(bytes))?;
    let rest = skip_some(rest)?;
    let (kind, rest) = kind(rest)?;
    let rest = open(rest)?;
    finish(Command::New { name, kind }, rest)
}

/// Whether the name is `poll`.
fn is_poll(name: Name) -> bool
    ensures { result ≡ bytes_eq name (codes "poll") }
{
    name.as_slice() == b"poll".as_slice()
}

/// What follows the first name of a line.
#[tactic(auto, unfolding(crate::specs::ReadingLines::body_at))]
fn body(name: Name, bytes: &[u8]) -> Result<Command, usize>
    ensures { result ≡ body_at name bytes.now }
{
    if begins(b'=', bytes) {
        let rest = expect(b"=", bytes)?;
        made(name, rest)
    } else if is_poll(name) && begins(b'(', bytes) {
        let rest = expect(b"(", bytes)?;
        finish(Command::Poll, skip(rest))
    } else {
        let rest = expect(b".", bytes)?;
        called(name, rest)
    }
}

/// The command of a line, or how many bytes are left after its longest front that begins some line.
#[tactic(auto, unfolding(crate::specs::ReadingLines::line_at))]
pub(crate) fn read_line(bytes: &[u8]) -> Result<Command, usize>
    ensures { result ≡ line_at bytes.now }
{
    match name(skip(bytes)) {
        Ok((name, rest)) => body(name, skip(rest)),
        Err(left) => Err(left),
    }
}
