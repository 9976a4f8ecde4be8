//! The values that this crate makes may move to another thread. docs/ARCHITECTURE.md, "Threads", has the reason.
ghost use denote.Param.Send.{IsSend};
ghost use Rattle.kind_core.specs.contracts.names.Name.{the_row as name_row};
ghost use Rattle.kind_core.specs.contracts.texts.Text.{the_row as text_row};
ghost use Rattle.kind_core.specs.contracts.values.Value.{the_row as value_row};
ghost use Rattle.kind_core.specs.contracts.kinds.Kind.{the_row as kind_row};
ghost use Rattle.kind_core.specs.contracts.kinds.EventKind.{the_row as event_kind_row};
ghost use Rattle.kind_core.specs.contracts.shapes.Cell.{the_row as cell_row};
ghost use Rattle.kind_core.specs.contracts.shapes.Shape.{the_row as shape_row};

use crate::kinds::{EventKind, Kind};
use crate::names::Name;
use crate::shapes::{Cell, Shape};
use crate::texts::Text;
use crate::values::Value;

/// Takes only a type whose values may move to another thread.
fn moves<T: Send>()
    ensures { IsSend T.row }
{}

/// A name may move to another thread.
pub fn name_moves()
    ensures { IsSend name_row }
{
    moves::<Name>();
}

/// A text may move to another thread.
pub fn text_moves()
    ensures { IsSend text_row }
{
    moves::<Text>();
}

/// An attribute's value may move to another thread.
pub fn value_moves()
    ensures { IsSend value_row }
{
    moves::<Value>();
}

/// A kind of widget may move to another thread.
pub fn kind_moves()
    ensures { IsSend kind_row }
{
    moves::<Kind>();
}

/// A kind of event may move to another thread.
pub fn event_kind_moves()
    ensures { IsSend event_kind_row }
{
    moves::<EventKind>();
}

/// A cell of a Grid may move to another thread.
pub fn cell_moves()
    ensures { IsSend cell_row }
{
    moves::<Cell>();
}

/// A screen's shape may move to another thread.
pub fn shape_moves()
    ensures { IsSend shape_row }
{
    moves::<Shape>();
}
