// The cells of the solids that meet a rectangle, added to its windows.
ghost use Rattle.std.specs.Prelude.{◌≡◌, ◌/◌, ◌≤◌, ◌<◌, ◌^◌, length};
ghost use Rattle.table.specs.Words.{records_of};
ghost use Rattle.table.specs.Forms.{Forms};
ghost use Rattle.seek.specs.Meaning.{Meets};
ghost use Rattle.seek.specs.Each.{Each};
ghost use Rattle.seek.specs.Enumerate.{area_of};
ghost use Rattle.seek.specs.Queue.{named};
ghost use Rattle.density.specs.Meaning.{columns_of, windows_of};
ghost use Rattle.density.specs.Row.{RowFits, AddsRow};
ghost use Rattle.density.specs.Parts.{PartFits, AddsPart};
ghost use Rattle.density.specs.Cover.{part_of, box_of};
ghost use Rattle.density.specs.Spreading.{AddsTile, Spreads};

use crate::counts::add;
use crate::windows::Windows;
use seek::Area;
use table::numbers::{BOTTOM, KIND, LEFT, RIGHT, SOLID, TOP};

// One row of windows. From window n on, which begins at the column `edge`, each gets its part of the columns from left to right, so many rows high.
fn add_row(out: &mut [f64], n: usize, edge: u64, w: u64, left: u64, right: u64, rows: u64)
    requires { RowFits (length out.old) n edge w left right rows }
    ensures { AddsRow out.old out.new n edge w left right rows }
{
    // A counter of its own: as `enumerate` of the steps the window's number would be a sum at each use.
    let mut i = n;
    for start in (edge..right).step_by(w as usize) {
        let columns = right.min(start + w) - left.max(start);
        add(out, i, columns * rows);
        i += 1;
    }
}

// How many whole steps of w lie in the length d. The first step needs no division, and one of 32 bits takes half the time of one of 64.
fn steps_in(d: u64, w: u64) -> u64
    requires d_bound { d ≤ 2 ^ 25 }
    requires le_w { (1 ≤ w) × (w ≤ 2 ^ 25) }
    ensures { result ≡ d / w }
{
    if d < w {
        0
    } else {
        u64::from(d as u32 / w as u32)
    }
}

// The cells of a part of the rectangle, row by row of windows from the top down. A row has so many columns of windows.
fn add_part(out: &mut [f64], windows: Windows, columns: u64, part: Area)
    requires part_fits { PartFits (area_of windows.rect.area) (area_of part) }
    requires columns_value { columns ≡ columns_of (area_of windows.rect.area) windows.width }
    requires h_in_bounds { windows_of (area_of windows.rect.area) windows.width windows.height ≤ length out.old }
    ensures { AddsPart out.old out.new (area_of windows.rect.area) windows.width windows.height (area_of part) }
{
    let Windows {
        rect,
        width: w,
        height: h,
    } = windows;
    let Area {
        left,
        bottom,
        right,
        top,
    } = part;
    let column = steps_in(left - rect.area.left, w);
    let edge = rect.area.left + column * w;
    // how far the part's edges lie under the rectangle's top
    let upper = rect.area.top - top;
    let lower = rect.area.top - bottom;
    let row = steps_in(upper, h);
    let mut n = row * columns + column;
    for depth in (row * h..lower).step_by(h as usize) {
        let rows = lower.min(depth + h) - upper.max(depth);
        add_row(out, n as usize, edge, w, left, right, rows);
        n += columns;
    }
}

// The part of tile k in the area.
fn part_of(t: &[i32], k: usize, area: Area) -> Area
    requires { k < records_of t.now }
    ensures { area_of result ≡ part_of (area_of area) (box_of t.now k) }
{
    Area {
        left: table::word(t, k, LEFT).max(area.left),
        bottom: table::word(t, k, BOTTOM).max(area.bottom),
        right: table::word(t, k, RIGHT).min(area.right),
        top: table::word(t, k, TOP).min(area.top),
    }
}

// The covered cells that tile k, which meets the rectangle, has in it: none if it is space.
fn add_tile(t: &[i32], k: usize, out: &mut [f64], windows: Windows, columns: u64)
    requires forms { Forms t.now }
    requires columns_value { columns ≡ columns_of (area_of windows.rect.area) windows.width }
    requires meets { Meets t.now (area_of windows.rect.area) k }
    requires h_in_bounds { windows_of (area_of windows.rect.area) windows.width windows.height ≤ length out.old }
    ensures { AddsTile out.old out.new t.now (area_of windows.rect.area) windows.width windows.height k }
{
    if table::word(t, k, KIND) == SOLID {
        add_part(out, windows, columns, part_of(t, k, windows.rect.area));
    }
}

// The covered cells of all tiles that meet the rectangle, which stand each once in the list: where the list's first entries were zeros, they are the
// windows' counts.
pub(crate) fn spread(t: &[i32], list: &[i32], out: &mut [f64], windows: Windows)
    requires forms { Forms t.now }
    requires each { Each (Meets t.now (area_of windows.rect.area)) (length list.now) (named list.now) }
    requires h_in_bounds { windows_of (area_of windows.rect.area) windows.width windows.height ≤ length out.old }
    ensures { Spreads out.old out.new t.now (area_of windows.rect.area) windows.width windows.height }
{
    let columns = windows.columns();
    // `seek::named` reads entry j.
    for j in 0..list.len() {
        let k = seek::named(list, j);
        add_tile(t, k, out, windows, columns);
    }
}
