// The first pass: each record by itself, its stitches, and the sums over all.
ghost use Rattle.std.specs.Prelude.{◌↔◌, ◌<◌, T};
ghost use Rattle.geometry.specs.Plane.{Formed};
ghost use Rattle.table.specs.Words.{records_of};
ghost use Rattle.table.specs.Sound.{SizeRight, Zeros};
ghost use Rattle.table.specs.Forms.{plane_in};
ghost use Rattle.sound.specs.Records.{KindRight, Well};
ghost use Rattle.sound.specs.Links.{Tested};
ghost use Rattle.sound.specs.Tally.{CellsAre, OneIs, Tallies};

use crate::stitches;
use table::Record;
use table::numbers::{FREE, HIGH, KIND, LOW, RIGHT, SOLID, SPACE, TOP, WIDTH, ZERO};

// Ten zeros.
fn blank(t: &[i32], i: usize) -> bool
    requires { i < records_of t.now }
    ensures { T result ↔ Zeros t.now i }
{
    (0..WIDTH).all(|k| table::word(t, i, k) == ZERO)
}

// A rectangle of the plane: `seek::Rect` asks the same of four numbers, and `sound` does not rest on `seek`.
fn formed(t: &[i32], i: usize) -> bool
    requires { i < records_of t.now }
    ensures { T result ↔ Formed (plane_in t.now) i }
{
    let Record {
        left,
        bottom,
        right,
        top,
        ..
    } = table::read(t, i);
    LOW <= left && left < right && right <= HIGH && LOW <= bottom && bottom < top && top <= HIGH
}

// Kind and label go together.
fn kind_right(t: &[i32], i: usize) -> bool
    requires { i < records_of t.now }
    ensures { T result ↔ KindRight t.now i }
{
    let Record { kind, label, .. } = table::read(t, i);
    match kind {
        SPACE => label == ZERO,
        SOLID => ZERO < label,
        _ => false,
    }
}

fn well(t: &[i32], i: usize) -> bool
    requires { i < records_of t.now }
    ensures { T result ↔ Well t.now i }
{
    if table::word(t, i, KIND) == FREE {
        blank(t, i)
    } else {
        formed(t, i) && kind_right(t, i)
    }
}

// Record i by itself, and its stitches.
fn tested(t: &[i32], i: usize) -> bool
    requires { SizeRight t.now × (i < records_of t.now) }
    ensures { Tested t.now i result }
{
    well(t, i) && stitches::linked(t, i)
}

// The cells that record i takes: a free one is ten zeros and takes none.
fn cells(t: &[i32], i: usize) -> u64
    requires { (i < records_of t.now) × Well t.now i }
    ensures { CellsAre t.now i result }
{
    let Record {
        left,
        bottom,
        right,
        top,
        ..
    } = table::read(t, i);
    (right - left) * (top - bottom)
}

// 1 where record i is a solid.
fn one(t: &[i32], i: usize) -> usize
    requires { i < records_of t.now }
    ensures { OneIs t.now i result }
{
    usize::from(table::word(t, i, KIND) == SOLID)
}

#[derive(Clone, Copy)]
pub(crate) struct Sums {
    pub(crate) area: u64,
    pub(crate) solids: usize,
}

// The first pass.
pub(crate) fn tally(t: &[i32]) -> Option<Sums>
    requires { SizeRight t.now }
    ensures { Tallies t.now result }
{
    let mut area = 0;
    let mut solids = 0;
    for i in 0..table::records(t) {
        if !tested(t, i) {
            return None;
        }
        area += cells(t, i);
        solids += one(t, i);
    }
    Some(Sums { area, solids })
}
