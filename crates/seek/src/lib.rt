// Looking things up on a table that is known to be sound: the tile at a cell, a tile's neighbours, the first solid of an area, its tiles in the
// directed order, and its tiles in no special order.
//
// `Forms t.now` and `SizeRight t.now` stand in most contracts, since a struct cannot hold the words with them: a ghost field's fact has to be a proposition,
// which `Forms` is not found to be, and a struct that borrows is not Copy with a Model.
#![tactic(auto)]

mod area;
mod cell;
mod directed;
mod first;
mod neighbours;
mod queue;
mod rect;
mod rows;
mod side;

pub use area::Area;
pub use cell::find;
pub use directed::{count_area, list_area};
pub use first::{first_used, start};
pub use neighbours::{count_side, list_side};
pub use queue::{gather, named};
pub use rect::Rect;
pub use rows::{Met, search};
