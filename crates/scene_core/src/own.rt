//! What a widget needs by itself.
ghost use Rattle.std.specs.Prelude.{◌≡◌, ◌≤◌, length};
ghost use Rattle.std.specs.Fmt.{signed_decimal};
ghost use Rattle.widget_model.specs.Widgets.{IsLive, rows_of};
ghost use Rattle.scene_model.specs.Least.{own_size, bar_size};
ghost use Rattle.scene_model.specs.Values.{count_of, label_of, is_vertical};
ghost use Rattle.widget_model.specs.Forest.{IsWidgets};
ghost use Rattle.scene_core.specs.Children.{row_for, film_size};

use crate::reading::{linked_value, number_of, text_length};
use crate::size::Size;
use itoa::Buffer;
use kind_core::{Attr, Kind};
use tree_core::{Id, Tree};

/// How many bytes the number has in decimal.
fn digits(number: i32) -> usize
    ensures count { result ≡ length (signed_decimal number) }
    ensures few { result ≤ 11 }
{
    let mut buffer = Buffer::new();
    buffer.format(number).len()
}

/// How many bytes a Label shows.
fn label_length(tree: &Tree, id: Id) -> usize
    requires valid { IsWidgets tree.now }
    requires live { IsLive tree.now id.key }
    ensures count { result ≡ length (label_of (rows_of tree.now) (row_for tree.now id.key)) }
    ensures few { result ≤ 72 }
{
    let own = text_length(tree, id, Attr::Text);
    match linked_value(tree, id) {
        Some(value) => own + digits(value),
        None => own,
    }
}

/// The number that the attribute is, without its sign.
pub(crate) fn count_of(tree: &Tree, id: Id, attr: Attr) -> u32
    requires { IsLive tree.now id.key }
    ensures { result ≡ count_of attr (row_for tree.now id.key) }
{
    number_of(tree, id, attr).unsigned_abs()
}

/// The size of a Scale or Scrollbar.
fn bar_size(tree: &Tree, id: Id) -> Size
    requires { IsLive tree.now id.key }
    ensures w { result.w ≡ (bar_size (is_vertical (row_for tree.now id.key))).0 }
    ensures h { result.h ≡ (bar_size (is_vertical (row_for tree.now id.key))).1 }
{
    if number_of(tree, id, Attr::Vert) > 0 {
        return Size { w: 12, h: 64 };
    }
    Size { w: 64, h: 12 }
}

/// The size of a VScreen's film, 16 by 16 without one.
fn film_size(tree: &Tree, id: Id) -> Size
    requires { IsLive tree.now id.key }
    ensures w { result.w ≡ (film_size (row_for tree.now id.key).film).0 }
    ensures h { result.h ≡ (film_size (row_for tree.now id.key).film).1 }
{
    match tree.film(id) {
        Some(film) => Size {
            w: film.width(),
            h: film.height(),
        },
        None => Size { w: 16, h: 16 },
    }
}

/// What a widget of the kind needs by itself.
pub(crate) fn own_size(tree: &Tree, id: Id, kind: Kind) -> Size
    requires valid { IsWidgets tree.now }
    requires live { IsLive tree.now id.key }
    requires kind { kind ≡ (row_for tree.now id.key).kind }
    ensures w { result.w ≡ (own_size kind (rows_of tree.now) (row_for tree.now id.key)).0 }
    ensures h { result.h ≡ (own_size kind (rows_of tree.now) (row_for tree.now id.key)).1 }
{
    match kind {
        Kind::Label => Size {
            w: 6 * label_length(tree, id) as u32 + 4,
            h: 12,
        },
        Kind::Button => Size {
            w: 6 * text_length(tree, id, Attr::Text) as u32 + 8,
            h: 16,
        },
        Kind::Entry => Size {
            w: 6 * count_of(tree, id, Attr::Cols) + 4,
            h: 12,
        },
        Kind::Scale | Kind::Scrollbar => bar_size(tree, id),
        Kind::VScreen => film_size(tree, id),
        Kind::Frame => Size { w: 16, h: 16 },
        Kind::Window => Size {
            w: count_of(tree, id, Attr::W),
            h: count_of(tree, id, Attr::H),
        },
        Kind::Grid | Kind::Variable => Size { w: 0, h: 0 },
    }
}
