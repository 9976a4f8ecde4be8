//! Every line but that in which a client says something.
ghost use Rattle.std.specs.Prelude.{◌≡◌, ◌==◌};
ghost use Rattle.script_lines.specs.Reading.{is_silent, word_order, tick_order, place_at, pixel_order, button_order, motion_order, key_order, connect_order, bye_order, screen_order, input_order, coming_order, plain_order};

use crate::digits::{client_at, number_at};
use crate::order::Order;
use crate::parts::{after, parted};
use cmd_text::Input;

/// Whether the line is empty or a comment.
#[tactic(auto, unfolding(crate::specs::Reading::is_silent))]
fn is_silent(line: &[u8]) -> bool
    ensures { result ≡ is_silent line.now }
{
    match line {
        [first, ..] => *first == b'#',
        [] => true,
    }
}

#[tactic(auto, unfolding(crate::specs::Reading::word_order))]
fn word_order(line: &[u8]) -> Option<Order>
    ensures { result ≡ word_order line.now }
{
    if line == b"tick".as_slice() {
        return Some(Order::Ticks { count: 1 });
    }
    if line == b"dirty".as_slice() {
        return Some(Order::Dirty);
    }
    if line == b"dump".as_slice() {
        return Some(Order::Dump);
    }
    None
}

#[tactic(auto, unfolding(crate::specs::Reading::tick_order))]
fn tick_order(line: &[u8]) -> Option<Order>
    ensures { result ≡ tick_order line.now }
{
    let digits = after(b"tick ", line)?;
    let count = number_at(1, 1000, digits)?;
    Some(Order::Ticks { count })
}

/// The pixel of two numbers, x and y.
#[tactic(auto, unfolding(crate::specs::Reading::place_at))]
fn place_at(text: &[u8]) -> Option<(u32, u32)>
    ensures { result ≡ place_at text.now }
{
    let (left, top) = parted(text)?;
    let x = number_at(0, 9999, left)?;
    let y = number_at(0, 9999, top)?;
    Some((x, y))
}

#[tactic(auto, unfolding(crate::specs::Reading::pixel_order))]
fn pixel_order(line: &[u8]) -> Option<Order>
    ensures { result ≡ pixel_order line.now }
{
    let text = after(b"pixel ", line)?;
    let (x, y) = place_at(text)?;
    Some(Order::Pixel { x, y })
}

#[tactic(auto, unfolding(crate::specs::Reading::button_order))]
fn button_order(line: &[u8]) -> Option<Order>
    ensures { result ≡ button_order line.now }
{
    if line == b"press".as_slice() {
        return Some(Order::Feed {
            input: Input::Press,
        });
    }
    if line == b"release".as_slice() {
        return Some(Order::Feed {
            input: Input::Release,
        });
    }
    None
}

#[tactic(auto, unfolding(crate::specs::Reading::motion_order))]
fn motion_order(line: &[u8]) -> Option<Order>
    ensures { result ≡ motion_order line.now }
{
    let text = after(b"motion ", line)?;
    let (x, y) = place_at(text)?;
    Some(Order::Feed {
        input: Input::Motion { x, y },
    })
}

#[tactic(auto, unfolding(crate::specs::Reading::key_order))]
fn key_order(line: &[u8]) -> Option<Order>
    ensures { result ≡ key_order line.now }
{
    let digits = after(b"key ", line)?;
    let byte = number_at(0, 255, digits)?;
    Some(Order::Feed {
        input: Input::Key { byte: byte as u8 },
    })
}

#[tactic(auto, unfolding(crate::specs::Reading::connect_order))]
fn connect_order(line: &[u8]) -> Option<Order>
    ensures { result ≡ connect_order line.now }
{
    let digits = after(b"connect ", line)?;
    let client = client_at(digits)?;
    Some(Order::Connect { client })
}

#[tactic(auto, unfolding(crate::specs::Reading::bye_order))]
fn bye_order(line: &[u8]) -> Option<Order>
    ensures { result ≡ bye_order line.now }
{
    let digits = after(b"bye ", line)?;
    let client = client_at(digits)?;
    Some(Order::Bye { client })
}

/// What the line of a screen asks for.
#[tactic(auto, unfolding(crate::specs::Reading::screen_order))]
fn screen_order(line: &[u8]) -> Option<Order>
    ensures { result ≡ screen_order line.now }
{
    match word_order(line) {
        Some(order) => Some(order),
        None => match tick_order(line) {
            Some(order) => Some(order),
            None => pixel_order(line),
        },
    }
}

/// What the line of a pointer or a keyboard asks for.
#[tactic(auto, unfolding(crate::specs::Reading::input_order))]
fn input_order(line: &[u8]) -> Option<Order>
    ensures { result ≡ input_order line.now }
{
    match button_order(line) {
        Some(order) => Some(order),
        None => match motion_order(line) {
            Some(order) => Some(order),
            None => key_order(line),
        },
    }
}

/// What a line asks for by which a client comes or goes.
#[tactic(auto, unfolding(crate::specs::Reading::coming_order))]
fn coming_order(line: &[u8]) -> Option<Order>
    ensures { result ≡ coming_order line.now }
{
    match connect_order(line) {
        Some(order) => Some(order),
        None => bye_order(line),
    }
}

/// What a line asks for in which no client says something.
#[tactic(auto, unfolding(crate::specs::Reading::plain_order))]
pub(crate) fn plain_order(line: &[u8]) -> Option<Order>
    ensures { result ≡ plain_order line.now }
{
    if is_silent(line) {
        return Some(Order::Nothing);
    }
    match screen_order(line) {
        Some(order) => Some(order),
        None => match input_order(line) {
            Some(order) => Some(order),
            None => coming_order(line),
        },
    }
}
