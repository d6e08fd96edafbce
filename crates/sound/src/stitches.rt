// The stitches of a record: each names the tile that holds its cell.
ghost use Rattle.std.specs.Prelude.{◌↔◌, ◌<◌, ◌^◌, T};
ghost use Rattle.geometry.specs.Picture.{Has};
ghost use Rattle.table.specs.Words.{WIDTH, num, records_of, tile_of};
ghost use Rattle.table.specs.Sound.{SizeRight, Names};
ghost use Rattle.sound.specs.Records.{Well, AllWell};
ghost use Rattle.sound.specs.Links.{Linked};

use table::Record;
use table::numbers::{BL, BOTTOM, FREE, LB, LEFT, NONE, RIGHT, RT, TOP, TR};

// Record i holds the cell (x, y). A cell is two numbers and no struct, as `Has` and `InPlane` state it: each is compared with a word of its own.
pub(crate) fn holds(t: &[i32], i: usize, x: u64, y: u64) -> bool
    requires i_bound { i < records_of t.now }
    requires x_bound { (x < 2 ^ 32) × (y < 2 ^ 32) }
    ensures { T result ↔ Has (tile_of t.now i) x y }
{
    !table::under_word(t, x, i, LEFT)
        && !table::under_word(t, y, i, BOTTOM)
        && table::under_word(t, x, i, RIGHT)
        && table::under_word(t, y, i, TOP)
}

// A right stitch, the word s of record i: it names the tile that holds its cell (x, y), and is -1 where the cell lies outside the plane. The record
// that it numbers is asked first: where all records are well, one that holds a cell is used, and its cell is of the plane.
fn names(t: &[i32], i: usize, s: usize, x: u64, y: u64) -> bool
    requires size_right { SizeRight t.now × ((i < records_of t.now) × (s < WIDTH)) }
    requires x_bound { (x < 2 ^ 32) × (y < 2 ^ 32) }
    ensures { AllWell t.now → T result ↔ Names t.now (num t.now i s) x y }
{
    let k = table::follow(t, i, s);
    if k < table::records(t) {
        holds(t, k, x, y)
    } else {
        !table::in_plane(x, y) && table::word(t, i, s) == NONE
    }
}

// The four stitches of record i, if it is used.
pub(crate) fn linked(t: &[i32], i: usize) -> bool
    requires { SizeRight t.now × ((i < records_of t.now) × Well t.now i) }
    ensures { AllWell t.now → T result ↔ Linked t.now i }
{
    let Record {
        left,
        bottom,
        right,
        top,
        kind,
        ..
    } = table::read(t, i);
    kind == FREE
        || (names(t, i, TR, right, top - 1)
            && names(t, i, RT, right - 1, top)
            && names(t, i, BL, left - 1, bottom)
            && names(t, i, LB, left, bottom - 1))
}
