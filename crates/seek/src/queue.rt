// The tiles of an area, each once, in the order of a queue: where nobody asks for the directed order this takes less time, and no recursion.
ghost use Rattle.std.specs.Prelude.{◌≡◌, ◌+◌, ◌<◌, length};
ghost use Rattle.geometry.specs.Picture.{ZERO};
ghost use Rattle.table.specs.Words.{records_of};
ghost use Rattle.table.specs.Sound.{SizeRight, UsedIn};
ghost use Rattle.table.specs.Forms.{Forms};
ghost use Rattle.seek.specs.Meaning.{RectRight};
ghost use Rattle.seek.specs.Enumerate.{area_of};
ghost use Rattle.seek.specs.Queue.{named, put, Queue, Gathers};

use crate::area::Area;
use crate::cell::find;
use crate::directed::{floor, next};
use crate::rect::Rect;
use crate::side::{Side, along};
use table::numbers::{BOTTOM, RIGHT};

// The record that an entry names.
pub fn named(list: &[i32], n: usize) -> usize
    requires { n < length list.now }
    ensures { result ≡ named list.now n }
{
    ruler::bits(list[n]) as usize
}

fn put(list: &mut [i32], n: usize, k: usize)
    requires n_in_bounds { n < length list.old }
    requires k_bound { k < ZERO }
    ensures { list.new ≡ put list.old n k }
{
    list[n] = ruler::count(k as u64);
}

// The tiles along the area's left edge, from the top down, as in `search`. How many there are. The list is no struct with its length: an entry behind the end is
// written before it counts.
fn put_roots(t: &[i32], list: &mut [i32], from: usize, rect: Rect) -> usize
    requires forms { Forms t.now }
    requires size_right { SizeRight t.now }
    requires used_in { UsedIn t.now from }
    requires t_in_bounds { records_of t.now < length list.old }
    ensures { Queue t.now (area_of rect.area) list.new 0 result }
{
    let Area {
        left,
        bottom,
        top,
        ..
    } = rect.area;
    let mut n: usize = 0;
    let mut k = from;
    let mut y = top;
    while bottom < y {
        k = find(t, k, left, y - 1);
        put(list, n, k);
        n += 1;
        y = table::word(t, k, BOTTOM);
    }
    n
}

// The tiles that hang under entry i, behind the first n entries. How many entries there are then. Each tile that the walk meets is written, and counts
// only if it hangs under the entry: the machine need not guess which.
fn put_hanging(t: &[i32], list: &mut [i32], i: usize, n: usize, area: Area) -> usize
    requires forms { Forms t.now }
    requires size_right { SizeRight t.now }
    requires queue { Queue t.now (area_of area) list.old i n }
    requires i_lt_n { i < n }
    ensures { Queue t.now (area_of area) list.new (i + 1) result }
{
    let p = named(list, i);
    if table::word(t, p, RIGHT) >= area.right {
        return n;
    }
    let lowest = floor(t, p, area.bottom);
    let mut m = n;
    let mut w = along(t, p, Side::Right);
    while let Some(k) = w.at {
        let low = table::word(t, k, BOTTOM);
        put(list, m, k);
        if (lowest..area.top).contains(&low) {
            m += 1;
        }
        w = next(w, t, area.bottom);
    }
    m
}

// The tiles of the area, each once. How many there are. The list has room for every record and one more. The end of the loop moves as tiles are found, so
// it is no range.
pub fn gather(t: &[i32], list: &mut [i32], from: usize, area: Area) -> usize
    requires forms { Forms t.now }
    requires size_right { SizeRight t.now }
    requires used_in { UsedIn t.now from }
    requires rect_right { RectRight (area_of area) }
    requires t_in_bounds { records_of t.now < length list.old }
    ensures { Gathers t.now (area_of area) list.new result }
{
    let mut n = put_roots(t, list, from, Rect { area });
    let mut i: usize = 0;
    while i < n {
        n = put_hanging(t, list, i, n, area);
        i += 1;
    }
    n
}
