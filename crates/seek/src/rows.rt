// The first occupied cell of an area: row after row along its left edge, from the top down.
ghost use Rattle.std.specs.Prelude.{◌<◌, ◌≤◌};
ghost use Rattle.geometry.specs.Picture.{HIGH, InPlane};
ghost use Rattle.table.specs.Sound.{SizeRight, UsedIn};
ghost use Rattle.table.specs.Forms.{Forms};
ghost use Rattle.seek.specs.Meaning.{RectRight};
ghost use Rattle.seek.specs.Enumerate.{area_of};
ghost use Rattle.seek.specs.Search.{Searches, InRow};

use crate::area::Area;
use crate::cell::find;
use table::numbers::{BOTTOM, KIND, RIGHT, SOLID};

// The solid that holds the area's first occupied cell, and that cell.
#[derive(Clone, Copy)]
pub struct Met {
    pub tile: usize,
    pub x: u64,
    pub y: u64,
}

// The row y from the column left to the column right: the tile that lies under all of it, or the first solid there. The tile beside is sought in this
// row: the tile's own tr may lie over the area.
fn in_row(t: &[i32], from: usize, left: u64, right: u64, y: u64) -> Result<usize, Met>
    requires forms { Forms t.now }
    requires size_right { SizeRight t.now }
    requires used_in { UsedIn t.now from }
    requires in_plane { InPlane left y }
    requires left_lt_right { left < right }
    requires right_bound { right ≤ HIGH }
    ensures { InRow t.now left right y result }
{
    let k = find(t, from, left, y);
    if table::word(t, k, KIND) == SOLID {
        return Err(Met {
            tile: k,
            x: left,
            y,
        });
    }
    let x = table::word(t, k, RIGHT);
    if x < right {
        let beside = find(t, k, x, y);
        return Err(Met { tile: beside, x, y });
    }
    Ok(k)
}

// The tile that the search met last, where no solid holds a cell of the area.
// The walk down the area's left edge stands here, in list_area and in put_roots: what is done with the tile met differs, and with it each law. Its rows are not
// counted by one: each tile met tells the next.
pub fn search(t: &[i32], from: usize, area: Area) -> Result<usize, Met>
    requires forms { Forms t.now }
    requires size_right { SizeRight t.now }
    requires used_in { UsedIn t.now from }
    requires rect_right { RectRight (area_of area) }
    ensures { Searches t.now (area_of area) result }
{
    let Area {
        left,
        bottom,
        right,
        top,
    } = area;
    let mut k = from;
    let mut y = top;
    while bottom < y {
        k = in_row(t, k, left, right, y - 1)?;
        y = table::word(t, k, BOTTOM);
    }
    Ok(k)
}
