// Dirt added: what is in no kept rectangle yet.
ghost use Rattle.std.specs.Prelude.{◌≤◌, length, take};
ghost use Rattle.geom_core.specs.Rect.{in_rect};
ghost use Rattle.redraw_core.specs.Stored.{IsPiece, IsApart};
ghost use Rattle.redraw_core.specs.Stores.{IsStore, HasGrown, HasAdded};

use crate::joining::join_all;
use crate::keeping::put;
use crate::pairs::meets;
use crate::store::Store;
use geom_core::{Rect, cut, meet};

/// The index of the first rectangle from `from` on that may share a pixel with the part, or their number.
fn first_meeting(kept: &[Rect], part: Rect, from: usize) -> usize
    requires within { from ≤ length kept.now }
    requires apart { IsApart part (take from kept.now) }
    ensures least { from ≤ result }
    ensures within { result ≤ length kept.now }
    ensures apart { IsApart part (take result kept.now) }
{
    for k in from..kept.len() {
        if meets(kept[k], part) {
            return k;
        }
    }
    kept.len()
}

/// Makes the pixels of the part dirty that are in no kept rectangle from index `from` on: it has none of those before.
pub fn add_part(store: &mut Store, part: Rect, from: usize)
    requires valid { IsStore store.old }
    requires piece { IsPiece part store.old.map }
    requires within { from ≤ length store.old.kept.items }
    requires apart { IsApart part (take from store.old.kept.items) }
    ensures { HasGrown (in_rect part) store.old store.new }
{
    let at = first_meeting(&store.kept, part, from);
    if at == store.kept.len() {
        put(store, part);
        return;
    }
    let pieces = cut(part, store.kept[at]);
    for piece in pieces.as_slice() {
        add_part(store, *piece, at + 1);
    }
}

/// Makes the pixels of the rectangle dirty that are on the screen. What continues the last rectangles is joined
/// to them.
pub fn add(store: &mut Store, rect: Rect)
    requires { IsStore store.old }
    ensures { HasAdded (in_rect rect) store.old store.new }
{
    let screen = Rect {
        x: 0,
        y: 0,
        w: store.map.width(),
        h: store.map.height(),
    };
    let part = meet(screen, rect);
    if part.w == 0 || part.h == 0 {
        return;
    }
    add_part(store, part, 0);
    join_all(store);
}
