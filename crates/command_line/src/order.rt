//! What words order.
ghost use Rattle.std.specs.Prelude.{◌≡◌};
ghost use Rattle.command_line.specs.Orders.{gen_of, order_of, render_of, serve_of, shape_of};
ghost use Rattle.command_line.specs.Values.{call_of};

use crate::matched::Matched;
use kind_core::Shape;

/// What the words of a command line order, with all their numbers. See docs/GUIDE.md, "The words".
///
/// - `Play`, `Stream` and `Record` play the script of standard input on a screen of this shape.
/// - `Gen` plays a script that it makes from a number, of so many rounds.
/// - `Serve` serves so many sessions at a port of this machine.
/// - `View` and `Check` read what `Stream` and `Record` write.
/// - `Render` plays a script and draws its pictures by so many workers.
#[derive(Clone, Copy, Debug, PartialEq, Eq)]
pub enum Order {
    Play(Shape),
    Gen {
        number: u32,
        rounds: u32,
    },
    Serve {
        port: u32,
        sessions: u32,
        shape: Shape,
    },
    Stream(Shape),
    View,
    Record(Shape),
    Check,
    Render {
        workers: u32,
        shape: Shape,
    },
}

/// The shape of four numbers, where the spare is at most the budget.
fn shape_of(numbers: &[u32]) -> Option<Shape>
    ensures { result ≡ shape_of numbers.now }
{
    match numbers {
        [width, height, budget, spare] if *spare <= *budget => Some(Shape {
            width: *width,
            height: *height,
            budget: *budget,
            spare: *spare,
        }),
        _ => None,
    }
}

fn gen_of(numbers: &[u32]) -> Option<Order>
    ensures { result ≡ gen_of numbers.now }
{
    match numbers {
        [number, rounds] => Some(Order::Gen {
            number: *number,
            rounds: *rounds,
        }),
        _ => None,
    }
}

fn serve_of(numbers: &[u32]) -> Option<Order>
    ensures { result ≡ serve_of numbers.now }
{
    match numbers {
        [port, sessions, rest @ ..] => match shape_of(rest) {
            Some(shape) => Some(Order::Serve {
                port: *port,
                sessions: *sessions,
                shape,
            }),
            None => None,
        },
        _ => None,
    }
}

fn render_of(numbers: &[u32]) -> Option<Order>
    ensures { result ≡ render_of numbers.now }
{
    match numbers {
        [workers, rest @ ..] => match shape_of(rest) {
            Some(shape) => Some(Order::Render {
                workers: *workers,
                shape,
            }),
            None => None,
        },
        [] => None,
    }
}

/// The order that a command of the table is with its numbers; None where its spare is above its budget.
pub(crate) fn order_of(matched: &Matched) -> Option<Order>
    ensures { result ≡ order_of (call_of matched.now) }
{
    let numbers = matched.numbers.as_slice();
    if matched.name == "play" {
        return match shape_of(numbers) {
            Some(shape) => Some(Order::Play(shape)),
            None => None,
        };
    }
    if matched.name == "gen" {
        return gen_of(numbers);
    }
    if matched.name == "serve" {
        return serve_of(numbers);
    }
    if matched.name == "stream" {
        return match shape_of(numbers) {
            Some(shape) => Some(Order::Stream(shape)),
            None => None,
        };
    }
    if matched.name == "view" {
        return Some(Order::View);
    }
    if matched.name == "record" {
        return match shape_of(numbers) {
            Some(shape) => Some(Order::Record(shape)),
            None => None,
        };
    }
    if matched.name == "check" {
        return Some(Order::Check);
    }
    if matched.name == "render" {
        return render_of(numbers);
    }
    None
}
