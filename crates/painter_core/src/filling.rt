ghost use Rattle.std.specs.Prelude.{◌≡◌, ◌+◌, ◌*◌, ◌^◌, ◌<◌, ◌≤ℤ◌, ℤ, pos, [], IfSome};
ghost use Rattle.canvas_core.specs.Screen.{IsScreen};
ghost use Rattle.geom_core.specs.Rect.{area_of, in_rect, IsEnclosed, IsInRange, IsInside};
ghost use Rattle.geom_core.specs.Splits.{row_at};
ghost use Rattle.geom_core.specs.Count.{screen_of};
ghost use Rattle.painter_core.specs.Painted.{Painted, Filled, Paints};
ghost use Rattle.painter_core.specs.Stage.{layers_of, IsPaintable, IsThere};
ghost use Rattle.painter_core.specs.Trail.{is_wanted};

use crate::looks::draw_row;
use canvas_core::Canvas;
use geom_core::Rect;
use scene_core::View;

/// The column and the row of the screen at which the line begins.
fn start_of(line: Rect) -> (u32, u32)
    requires column { pos 0 ≤ℤ line.x }
    requires row { pos 0 ≤ℤ line.y }
    ensures column { pos result.0 ≡ line.x }
    ensures row { pos result.1 ≡ line.y }
{
    (line.x as u32, line.y as u32)
}

/// The row of the piece with that index, from 0 at its top.
fn row_of(piece: Rect, row: u32) -> Rect
    requires in_range { IsInRange piece }
    requires within { row < piece.h }
    ensures { result ≡ row_at piece row }
{
    Rect {
        y: piece.y + row as i32,
        h: 1,
        ..piece
    }
}

/// Paints a part of one row, all of whose pixels the widget shows, or none does.
fn fill_row(view: &View<'_>, under: Option<u32>, line: Rect, canvas: &mut Canvas)
    requires stage { IsPaintable view.now }
    requires there { IfSome under (IsThere view.now) }
    requires inside { IfSome under (λ id. IsInside line ((layers_of view.now).rect id)) }
    requires one_row { line.h ≡ 1 }
    requires filled { 0 < line.w }
    requires on_screen { IsEnclosed line (screen_of canvas.old.width canvas.old.height) }
    requires valid { IsScreen canvas.old }
    requires count_fits { canvas.old.writes + line.w < 2 ^ 32 }
    ensures { Filled ((layers_of view.now).colour under) line canvas.old canvas.new }
{
    let (x, y) = start_of(line);
    draw_row(view, under, line, canvas.row_for(x, y, line.w));
}

/// Paints the piece, all of whose pixels the widget shows, or none does.
fn fill(view: &View<'_>, under: Option<u32>, piece: Rect, canvas: &mut Canvas)
    requires stage { IsPaintable view.now }
    requires there { IfSome under (IsThere view.now) }
    requires inside { IfSome under (λ id. IsInside piece ((layers_of view.now).rect id)) }
    requires filled { 0 < area_of piece }
    requires on_screen { IsEnclosed piece (screen_of canvas.old.width canvas.old.height) }
    requires valid { IsScreen canvas.old }
    requires count_fits { canvas.old.writes + area_of piece < 2 ^ 32 }
    ensures { Filled ((layers_of view.now).colour under) piece canvas.old canvas.new }
{
    for row in 0..piece.h {
        fill_row(view, under, row_of(piece, row), canvas);
    }
}

/// Whether the pixels of this widget are painted: those of all where `only` is none.
fn is_wanted(only: Option<u32>, top: Option<u32>) -> bool
    ensures { result ≡ is_wanted only top }
{
    match (only, top) {
        (None, _) => true,
        (Some(_), None) => false,
        (Some(id), Some(top)) => id == top,
    }
}

/// Paints the piece, all of whose pixels the widget shows, or none does, where it is wanted, and answers how many
/// pixels were painted.
pub fn fill_wanted(
    view: &View<'_>,
    only: Option<u32>,
    under: Option<u32>,
    piece: Rect,
    canvas: &mut Canvas,
) -> u32
    requires stage { IsPaintable view.now }
    requires there { IfSome under (IsThere view.now) }
    requires inside { IfSome under (λ id. IsInside piece ((layers_of view.now).rect id)) }
    requires filled { 0 < area_of piece }
    requires on_screen { IsEnclosed piece (screen_of canvas.old.width canvas.old.height) }
    requires valid { IsScreen canvas.old }
    requires count_fits { canvas.old.writes + area_of piece < 2 ^ 32 }
    ensures { Paints (layers_of view.now) only under (λ x y. []) piece result canvas.old canvas.new }
{
    if !is_wanted(only, under) {
        return 0;
    }
    fill(view, under, piece, canvas);
    piece.w * piece.h
}
