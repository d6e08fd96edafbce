// The tile that holds a cell, from any tile: up or down to the cell's row, then left or right along it.
ghost use Rattle.std.specs.Prelude.{◌<◌, ◌≤◌};
ghost use Rattle.geometry.specs.Picture.{LOW, HIGH, InPlane};
ghost use Rattle.table.specs.Sound.{SizeRight, UsedIn};
ghost use Rattle.table.specs.Forms.{Forms};
ghost use Rattle.seek.specs.Find.{IsIn, Row, From, Finds};
ghost use Rattle.seek.specs.Legs.{Climbed, Descended};

use table::follow;
use table::numbers::{BL, BOTTOM, LB, LEFT, RIGHT, RT, TOP, TR};

// Upwards, to a tile that ends over the row y.
fn climb(t: &[i32], from: usize, y: u64) -> usize
    requires forms { Forms t.now }
    requires size_right { SizeRight t.now }
    requires is_in { IsIn t.now from }
    requires y_bound { y < HIGH }
    ensures { Climbed t.now from y result }
{
    let mut k = from;
    while table::word(t, k, TOP) <= y {
        k = follow(t, k, RT);
    }
    k
}

// Downwards, to a tile that does not begin over the row y.
fn descend(t: &[i32], from: usize, y: u64) -> usize
    requires forms { Forms t.now }
    requires size_right { SizeRight t.now }
    requires is_in { IsIn t.now from }
    requires le_y { LOW ≤ y }
    ensures { Descended t.now from y result }
{
    let mut k = from;
    while y < table::word(t, k, BOTTOM) {
        k = follow(t, k, LB);
    }
    k
}

// Leftwards in the row, to a tile that does not begin right of the column x: the first tile at a left side, then up to the row.
fn to_column_left(t: &[i32], from: usize, x: u64, y: u64) -> usize
    requires forms { Forms t.now }
    requires size_right { SizeRight t.now }
    requires row { Row t.now from y }
    requires le_x { LOW ≤ x }
    ensures { From t.now result x y }
{
    let mut k = from;
    while x < table::word(t, k, LEFT) {
        k = climb(t, follow(t, k, BL), y);
    }
    k
}

// Rightwards in the row, to the tile that has the column x: the first tile at a right side, then down to the row.
fn to_column_right(t: &[i32], from: usize, x: u64, y: u64) -> usize
    requires forms { Forms t.now }
    requires size_right { SizeRight t.now }
    requires from { From t.now from x y }
    requires x_bound { x < HIGH }
    ensures { Finds t.now x y result }
{
    let mut k = from;
    while table::word(t, k, RIGHT) <= x {
        k = descend(t, follow(t, k, TR), y);
    }
    k
}

// The tile that holds the cell (x, y), sought from the tile `from`. Left comes before right, and each asks for what the one before it leaves, so that the two
// are no one function of a side. A cell is two numbers, as `Has` states it.
pub fn find(t: &[i32], from: usize, x: u64, y: u64) -> usize
    requires forms { Forms t.now }
    requires size_right { SizeRight t.now }
    requires used_in { UsedIn t.now from }
    requires in_plane { InPlane x y }
    ensures { Finds t.now x y result }
{
    let up = climb(t, from, y);
    let row = descend(t, up, y);
    let near = to_column_left(t, row, x, y);
    to_column_right(t, near, x, y)
}
