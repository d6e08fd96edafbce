// The neighbours of a tile on a side: how many there are, and the list of them. The side is a number, since a narrower type would ask more of callers; it becomes
// a `Side` at once.
ghost use Rattle.std.specs.Prelude.{length};
ghost use Rattle.table.specs.Sound.{SizeRight, UsedIn};
ghost use Rattle.table.specs.Forms.{Forms};
ghost use Rattle.seek.specs.Neighbours.{side_of};
ghost use Rattle.seek.specs.Listing.{Counts, Fits, Lists};

use crate::side::{Side, along};

// How many neighbours. The walk is no iterator (`Walk`), so its steps are counted here.
pub fn count_side(t: &[i32], i: usize, side: usize) -> usize
    requires forms { Forms t.now }
    requires size_right { SizeRight t.now }
    requires used_in { UsedIn t.now i }
    ensures { Counts t.now (side_of side) i result }
{
    let mut w = along(t, i, Side::from(side));
    let mut n: usize = 0;
    while let Some(_) = w.at {
        w = w.step(t);
        n += 1;
    }
    n
}

// The record numbers of the neighbours are written to `out`, which is long enough.
pub fn list_side(t: &[i32], i: usize, side: usize, out: &mut [i32])
    requires forms { Forms t.now }
    requires size_right { SizeRight t.now }
    requires used_in { UsedIn t.now i }
    requires fits { Fits t.now (side_of side) i (length out.old) }
    ensures { Lists t.now (side_of side) i out.old out.new }
{
    let mut w = along(t, i, Side::from(side));
    for entry in out {
        let Some(k) = w.at else {
            return;
        };
        *entry = ruler::count(k as u64);
        w = w.step(t);
    }
}
