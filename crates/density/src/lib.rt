// The density report: how much of each window of an area is metal. Why `Forms` and `SizeRight` stand as clauses is said in seek's src/lib.rt.
#![tactic(auto)]

mod counts;
mod reporting;
mod shares;
mod spread;
mod windows;

pub use reporting::report_all;
pub use shares::Density;
pub use windows::{Report, Windows};
