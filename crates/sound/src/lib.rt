// The soundness check, exact, and linear on a sound table: no record is held against every other. Why `SizeRight` and what the passes find stand as
// clauses is said in seek's src/lib.rt.
#![tactic(auto)]

ghost use Rattle.std.specs.Prelude.{◌↔◌, T};
ghost use Rattle.table.specs.Sound.{SizeRight};
ghost use Rattle.sound.specs.Links.{Ready};
ghost use Rattle.sound.specs.Verdict.{Checks, Measured, LaidIs};

mod records;
mod sides;
mod stitches;
mod touching;

use records::Sums;
use table::numbers::{HIGH, LOW};

// The plane's cells.
const AREA: u64 = (HIGH - LOW) * (HIGH - LOW);

// As many cells as the plane has, and no more solids than the table takes.
fn measured(t: &[i32], area: u64, solids: usize) -> bool
    requires { SizeRight t.now }
    ensures { T result ↔ Measured t.now area solids }
{
    area == AREA && solids <= table::capacity(t)
}

// How the tiles lie: left column, right sides, what is above.
fn laid(t: &[i32]) -> bool
    requires { Ready t.now }
    ensures { LaidIs t.now result }
{
    sides::left_column(t) && sides::all_beside(t)
}

// How many solids a sound table has; none where the table is not sound.
pub fn check(t: &[i32]) -> Option<usize>
    requires { SizeRight t.now }
    ensures { Checks t.now result }
{
    let Sums { area, solids } = records::tally(t)?;
    if measured(t, area, solids) && laid(t) {
        Some(solids)
    } else {
        None
    }
}
