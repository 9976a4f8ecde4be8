//! The looks of widgets, drawn row by row.
ghost use Rattle.std.specs.Prelude.{◌≡◌, ◌<◌, ◌≤◌, ℕ, ◌+ℤ◌, ◌≤ℤ◌, pos, length, slice_index, IfSome};
ghost use Rattle.geom_core.specs.Rect.{IsEnclosed, IsInside};
ghost use Rattle.kind_core.specs.declared.kinds.Kind.TheVariants.{Window as WindowKind, Button as ButtonKind, Label as LabelKind, Entry as EntryKind, Scale as ScaleKind, Scrollbar as ScrollbarKind, VScreen as VScreenKind};
ghost use Rattle.look_core.specs.Seen.{Seen, film, in_row};
ghost use Rattle.painter_core.specs.Lines.{IsLine, ShowsLook};
ghost use Rattle.painter_core.specs.Stage.{layers_of, IsPaintable, IsThere};
ghost use Rattle.scene_core.specs.Children.{row_for};
ghost use Rattle.scene_core.specs.View.{scene_of};
ghost use Rattle.scene_model.specs.LookOf.{look_of};

use crate::line::Line;
use crate::slots::place;
use canvas_core::DESK_COLOUR;
use geom_core::Rect;
use kind_core::{Attr, Kind};
use look_core::{Look, row_span};
use look_data::{
    count_of, has_focus, is_held, is_vertical, label_text, linked_value, scale_value,
    scrollbar_value, text_of,
};
use scene_core::View;
use tree_core::Id;
use vscreen_core::Film;

/// Draws a part of a row of a Window.
fn draw_window(view: &View<'_>, id: u32, at: Line, out: &mut [u8])
    requires stage { IsPaintable view.now }
    requires there { IsThere view.now id }
    requires kind { (row_for view.now.tree.now id).kind ≡ WindowKind }
    requires line { IsLine at (length out.old) }
    ensures { ShowsLook (look_of (scene_of view.now) (row_for view.now.tree.now id)) at out.new }
{
    let title = text_of(view.tree, Id { key: id }, Attr::Title);
    let look = Look::WindowLook { title: &title };
    row_span(&look, at.w, at.h, at.y, at.from, at.to, out);
}

/// Draws a part of a row of a Button.
fn draw_button(view: &View<'_>, id: u32, at: Line, out: &mut [u8])
    requires stage { IsPaintable view.now }
    requires there { IsThere view.now id }
    requires kind { (row_for view.now.tree.now id).kind ≡ ButtonKind }
    requires line { IsLine at (length out.old) }
    ensures { ShowsLook (look_of (scene_of view.now) (row_for view.now.tree.now id)) at out.new }
{
    let text = text_of(view.tree, Id { key: id }, Attr::Text);
    let look = Look::ButtonLook {
        text: &text,
        held: is_held(view, Id { key: id }),
    };
    row_span(&look, at.w, at.h, at.y, at.from, at.to, out);
}

/// Draws a part of a row of a Label.
fn draw_label(view: &View<'_>, id: u32, at: Line, out: &mut [u8])
    requires stage { IsPaintable view.now }
    requires there { IsThere view.now id }
    requires kind { (row_for view.now.tree.now id).kind ≡ LabelKind }
    requires line { IsLine at (length out.old) }
    ensures { ShowsLook (look_of (scene_of view.now) (row_for view.now.tree.now id)) at out.new }
{
    let text = text_of(view.tree, Id { key: id }, Attr::Text);
    let shown = label_text(&text, linked_value(view.tree, Id { key: id }));
    let look = Look::LabelLook {
        shown: shown.as_slice(),
    };
    row_span(&look, at.w, at.h, at.y, at.from, at.to, out);
}

/// Draws a part of a row of an Entry.
fn draw_entry(view: &View<'_>, id: u32, at: Line, out: &mut [u8])
    requires stage { IsPaintable view.now }
    requires there { IsThere view.now id }
    requires kind { (row_for view.now.tree.now id).kind ≡ EntryKind }
    requires line { IsLine at (length out.old) }
    ensures { ShowsLook (look_of (scene_of view.now) (row_for view.now.tree.now id)) at out.new }
{
    let text = text_of(view.tree, Id { key: id }, Attr::Text);
    let caret = count_of(view.tree, Id { key: id }, Attr::Caret);
    let look = Look::EntryLook {
        text: &text,
        caret: caret.min(text.as_slice().len() as u32),
        focus: has_focus(view, Id { key: id }),
    };
    row_span(&look, at.w, at.h, at.y, at.from, at.to, out);
}

/// Draws a part of a row of a Scale.
fn draw_scale(view: &View<'_>, id: u32, at: Line, out: &mut [u8])
    requires stage { IsPaintable view.now }
    requires there { IsThere view.now id }
    requires kind { (row_for view.now.tree.now id).kind ≡ ScaleKind }
    requires line { IsLine at (length out.old) }
    ensures { ShowsLook (look_of (scene_of view.now) (row_for view.now.tree.now id)) at out.new }
{
    let look = Look::ScaleLook {
        value: scale_value(view.tree, Id { key: id }),
        max: count_of(view.tree, Id { key: id }, Attr::Max),
        vert: is_vertical(view.tree, Id { key: id }),
        held: is_held(view, Id { key: id }),
    };
    row_span(&look, at.w, at.h, at.y, at.from, at.to, out);
}

/// Draws a part of a row of a Scrollbar.
fn draw_scrollbar(view: &View<'_>, id: u32, at: Line, out: &mut [u8])
    requires stage { IsPaintable view.now }
    requires there { IsThere view.now id }
    requires kind { (row_for view.now.tree.now id).kind ≡ ScrollbarKind }
    requires line { IsLine at (length out.old) }
    ensures { ShowsLook (look_of (scene_of view.now) (row_for view.now.tree.now id)) at out.new }
{
    let look = Look::ScrollLook {
        value: scrollbar_value(view.tree, Id { key: id }),
        real: count_of(view.tree, Id { key: id }, Attr::Real),
        view: count_of(view.tree, Id { key: id }, Attr::View),
        vert: is_vertical(view.tree, Id { key: id }),
        held: is_held(view, Id { key: id }),
    };
    row_span(&look, at.w, at.h, at.y, at.from, at.to, out);
}

/// Draws a part of a row of a film, from the bytes of that row.
fn draw_film_row(w: u32, h: u32, row: &[u8], at: Line, out: &mut [u8])
    requires line { IsLine at (length out.old) }
    requires bytes { at.y < h → w ≤ length row.now }
    ensures { (look : Seen) → in_row at.y look ≡ film w h row.now → ShowsLook look at out.new }
{
    let look = Look::FilmLook { w, h, row };
    row_span(&look, at.w, at.h, at.y, at.from, at.to, out);
}

/// Draws a part of a row of a film: its shown row is lent, not copied.
fn draw_film(shown: &Film, at: Line, out: &mut [u8])
    requires { IsLine at (length out.old) }
    ensures { ShowsLook (film shown.now.width shown.now.height shown.now.shown) at out.new }
{
    let w = shown.width();
    let h = shown.height();
    if at.y < h {
        draw_film_row(w, h, shown.shown_row(at.y), at, out);
    } else {
        draw_film_row(w, h, &[], at, out);
    }
}

/// Draws a part of a row of a VScreen.
fn draw_vscreen(view: &View<'_>, id: u32, at: Line, out: &mut [u8])
    requires stage { IsPaintable view.now }
    requires there { IsThere view.now id }
    requires kind { (row_for view.now.tree.now id).kind ≡ VScreenKind }
    requires line { IsLine at (length out.old) }
    ensures { ShowsLook (look_of (scene_of view.now) (row_for view.now.tree.now id)) at out.new }
{
    match view.tree.film(Id { key: id }) {
        Some(shown) => draw_film(shown, at, out),
        None => row_span(&Look::NoFilm, at.w, at.h, at.y, at.from, at.to, out),
    }
}

/// Draws a part of a row of a widget.
fn draw_look(view: &View<'_>, id: u32, at: Line, out: &mut [u8])
    requires stage { IsPaintable view.now }
    requires there { IsThere view.now id }
    requires line { IsLine at (length out.old) }
    ensures { ShowsLook (look_of (scene_of view.now) (row_for view.now.tree.now id)) at out.new }
{
    match view.tree.kind(Id { key: id }) {
        Kind::Window => draw_window(view, id, at, out),
        Kind::Grid => row_span(&Look::GridLook, at.w, at.h, at.y, at.from, at.to, out),
        Kind::Frame => row_span(&Look::FrameLook, at.w, at.h, at.y, at.from, at.to, out),
        Kind::Button => draw_button(view, id, at, out),
        Kind::Label => draw_label(view, id, at, out),
        Kind::Entry => draw_entry(view, id, at, out),
        Kind::Scale => draw_scale(view, id, at, out),
        Kind::Scrollbar => draw_scrollbar(view, id, at, out),
        Kind::VScreen => draw_vscreen(view, id, at, out),
        Kind::Variable => row_span(&Look::NoFilm, at.w, at.h, at.y, at.from, at.to, out),
    }
}

/// How far the pixel is behind the start.
fn offset(start: i32, p: i32) -> u32
    requires { start ≤ℤ p }
    ensures { start +ℤ pos result ≡ p }
{
    (i64::from(p) - i64::from(start)) as u32
}

/// The part of the widget's row that a line of the screen is.
fn line_in(place: Rect, line: Rect) -> Line
    requires inside { IsEnclosed line place }
    requires one_row { line.h ≡ 1 }
    requires wide { place.w ≤ 4128 }
    requires high { place.h ≤ 4128 }
    ensures line { IsLine result line.w }
    ensures w { result.w ≡ place.w }
    ensures h { result.h ≡ place.h }
    ensures from { place.x +ℤ pos result.from ≡ line.x }
    ensures y { place.y +ℤ pos result.y ≡ line.y }
{
    let from = offset(place.x, line.x);
    Line {
        w: place.w,
        h: place.h,
        y: offset(place.y, line.y),
        from,
        to: from + line.w,
    }
}

/// Gives all bytes the desk's own colour.
fn lay_desk(out: &mut [u8])
    ensures { (i : ℕ) → i < length out.new → slice_index out.new i ≡ 2 }
{
    out.fill(DESK_COLOUR);
}

/// Writes the colours of the pixels of a part of one row, which the widget shows, or none does.
pub fn draw_row(view: &View<'_>, under: Option<u32>, line: Rect, out: &mut [u8])
    requires stage { IsPaintable view.now }
    requires there { IfSome under (IsThere view.now) }
    requires inside { IfSome under (λ id. IsInside line ((layers_of view.now).rect id)) }
    requires one_row { line.h ≡ 1 }
    requires filled { 0 < line.w }
    requires room { length out.old ≡ line.w }
    ensures { (i : ℕ) → i < length out.new → slice_index out.new i ≡ (layers_of view.now).colour under (line.x +ℤ pos i) line.y }
{
    match under {
        None => lay_desk(out),
        Some(id) => {
            let at = line_in(place(view, id), line);
            draw_look(view, id, at, out);
        }
    }
}
