// Saved layouts: a table's solids as bytes, and back. Why `Forms` and `SizeRight` stand as clauses is said in seek's src/lib.rt.
#![tactic(auto)]

mod bytes;
mod saving;

pub use bytes::{SAVED, Saved, read_saved};
pub use saving::save;
