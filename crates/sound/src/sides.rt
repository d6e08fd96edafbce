// The second pass: the plane's left column, the right side of each tile, and what lies above each space tile.
ghost use Rattle.std.specs.Prelude.{◌≡◌, ◌↔◌, ◌<◌, ◌≤◌, ◌^◌, T};
ghost use Rattle.geometry.specs.Picture.{LOW, SPACE};
ghost use Rattle.table.specs.Words.{KIND, num, records_of};
ghost use Rattle.table.specs.Sound.{UsedIn};
ghost use Rattle.sound.specs.Links.{Ready};
ghost use Rattle.sound.specs.Columns.{Fit, Column};
ghost use Rattle.sound.specs.Passed.{Twin, Unstacked};
ghost use Rattle.sound.specs.Sides.{Corners, LeftColumn, Side, Beside, AllBeside};

use crate::stitches;
use table::Record;
use table::numbers::{BOTTOM, FREE, HIGH, KIND, LB, LOW, RT, SOLID, SPACE, TR};

// Tile k begins at x, and is solid where the kind of what ends at x, `of`, is space.
fn fits(t: &[i32], k: usize, x: u64, of: u64) -> bool
    requires { k < records_of t.now }
    ensures { T result ↔ Fit t.now x of k }
{
    let Record { left, kind, .. } = table::read(t, k);
    left == x && (of != SPACE || kind == SOLID)
}

// From tile k down column x by lb, until a tile reaches the floor: each begins at x.
fn column(t: &[i32], k: usize, x: u64, of: u64, floor: u64) -> bool
    requires { Ready t.now × (UsedIn t.now k × ((LOW ≤ floor) × (floor < 2 ^ 32))) }
    ensures { Column t.now k x of floor result }
{
    let mut at = k;
    while fits(t, at, x, of) {
        if table::under_word(t, floor, at, BOTTOM) {
            at = table::follow(t, at, LB);
        } else {
            return true;
        }
    }
    false
}

// The first record that holds the plane's upper left cell.
fn corner(t: &[i32]) -> Option<usize>
    requires { Ready t.now }
    ensures { Corners t.now result }
{
    (0..table::records(t)).find(|i| stitches::holds(t, *i, LOW, HIGH - 1))
}

// The left column: the plane's edge counts as a solid.
pub(crate) fn left_column(t: &[i32]) -> bool
    requires { Ready t.now }
    ensures { LeftColumn t.now result }
{
    match corner(t) {
        Some(k) => column(t, k, LOW, SOLID, LOW),
        None => false,
    }
}

// The right side of tile i: what touches it begins there, and is solid where i is space.
fn side(t: &[i32], i: usize) -> bool
    requires { Ready t.now × UsedIn t.now i }
    ensures { Side t.now i result }
{
    let Record {
        bottom,
        right,
        kind,
        ..
    } = table::read(t, i);
    HIGH <= right || column(t, table::follow(t, i, TR), right, kind, bottom)
}

// Record k is a space tile of this span.
fn twin(t: &[i32], k: usize, from: u64, to: u64) -> bool
    requires { k < records_of t.now }
    ensures { T result ↔ Twin t.now k from to }
{
    let Record {
        left,
        right,
        kind,
        ..
    } = table::read(t, k);
    kind == SPACE && left == from && right == to
}

// No space tile of the same span directly above the space tile i.
fn unstacked(t: &[i32], i: usize) -> bool
    requires { Ready t.now × (UsedIn t.now i × (num t.now i KIND ≡ SPACE)) }
    ensures { T result ↔ Unstacked t.now i }
{
    let Record {
        left,
        right,
        top,
        ..
    } = table::read(t, i);
    HIGH <= top || !twin(t, table::follow(t, i, RT), left, right)
}

// Record i: a tile, with what lies at its right and, if it is space, above it.
fn beside(t: &[i32], i: usize) -> bool
    requires { Ready t.now × (i < records_of t.now) }
    ensures { Beside t.now i result }
{
    match table::word(t, i, KIND) {
        FREE => true,
        SPACE => side(t, i) && unstacked(t, i),
        _ => side(t, i),
    }
}

// The second pass, along all tiles.
pub(crate) fn all_beside(t: &[i32]) -> bool
    requires { Ready t.now }
    ensures { AllBeside t.now result }
{
    (0..table::records(t)).all(|i| beside(t, i))
}
