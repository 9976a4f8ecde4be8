//! The storage under the tree may move to another thread. docs/ARCHITECTURE.md, "Threads", has the reason.
ghost use denote.Param.Send.{IsSend};
ghost use Rattle.row_store.specs.contracts.row.Row.{the_row as row_row};
ghost use Rattle.row_store.specs.contracts.store.Store.{the_row as store_row};
ghost use Rattle.row_store.specs.contracts.names.Names.{the_row as names_row};
ghost use Rattle.row_store.specs.contracts.cells.Cells.{the_row as cells_row};
ghost use Rattle.row_store.specs.contracts.counts.Counts.{the_row as counts_row};
ghost use Rattle.row_store.specs.contracts.kept_places.KeptPlaces.{the_row as kept_places_row};

use crate::cells::Cells;
use crate::counts::Counts;
use crate::kept_places::KeptPlaces;
use crate::names::Names;
use crate::row::Row;
use crate::store::Store;

/// Takes only a type whose values may move to another thread.
fn moves<T: Send>()
    ensures { IsSend T.row }
{}

/// A row may move to another thread.
pub fn row_moves()
    ensures { IsSend row_row }
{
    moves::<Row>();
}

/// The rows may move to another thread.
pub fn store_moves()
    ensures { IsSend store_row }
{
    moves::<Store>();
}

/// The index of names may move to another thread.
pub fn names_moves()
    ensures { IsSend names_row }
{
    moves::<Names>();
}

/// The table of cells may move to another thread.
pub fn cells_moves()
    ensures { IsSend cells_row }
{
    moves::<Cells>();
}

/// The counts may move to another thread.
pub fn counts_moves()
    ensures { IsSend counts_row }
{
    moves::<Counts>();
}

/// The kept places may move to another thread.
pub fn kept_places_moves()
    ensures { IsSend kept_places_row }
{
    moves::<KeptPlaces>();
}
