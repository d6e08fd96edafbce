// The directed order of the tiles of an area: each tile, then the tiles that hang under it, top to bottom, each with all that hangs under it.
ghost use Rattle.std.specs.Prelude.{◌≡◌, ◌∷◌, [], ◌<◌};
ghost use Rattle.geometry.specs.Picture.{ZERO};
ghost use Rattle.table.specs.Words.{records_of};
ghost use Rattle.table.specs.Sound.{SizeRight, UsedIn};
ghost use Rattle.table.specs.Forms.{Forms};
ghost use Rattle.seek.specs.Meaning.{RectRight, Meets};
ghost use Rattle.seek.specs.Walk.{Goes};
ghost use Rattle.seek.specs.Writing.{over, words};
ghost use Rattle.seek.specs.RightSide.{Floor, Follows};
ghost use Rattle.seek.specs.Enumerate.{area_of, WritesTree, WritesArea, CountsArea};

use crate::area::Area;
use crate::cell::find;
use crate::side::{Side, Walk, along};
use table::numbers::{BOTTOM, LOW, RIGHT};

// The lowest row in which a tile at p's right side can begin and hang under p. Where p reaches down to the area's bottom that is any row, since
// the area cuts what begins under it.
pub(crate) fn floor(t: &[i32], p: usize, bottom: u64) -> u64
    requires { p < records_of t.now }
    ensures { Floor t.now p bottom result }
{
    let base = table::word(t, p, BOTTOM);
    if base <= bottom { LOW } else { base }
}

// The record number of a tile to the front of a list, if there is room.
fn put_first(out: &mut [i32], p: usize)
    requires { p < ZERO }
    ensures { out.new ≡ over (words (p ∷ [])) out.old }
{
    if let [first, ..] = out {
        *first = ruler::count(p as u64);
    }
}

// The walk's next tile, or its end where all that follow lie under the area.
pub(crate) fn next(w: Walk, t: &[i32], bottom: u64) -> Walk
    requires forms { Forms t.now }
    requires size_right { SizeRight t.now }
    requires goes { Goes t.now w }
    ensures { Follows t.now bottom w result }
{
    let Some(k) = w.at else {
        return w;
    };
    if table::word(t, k, BOTTOM) <= bottom {
        return Walk { at: None, ..w };
    }
    w.step(t)
}

// The tree of tile p, as much of it as the list has room for. How many tiles it has. A tile that begins under the floor hangs under another tile,
// and is the last at p's side. What is handed on as it came is copied through memory at each call: so the area is lent, and the table is lent on as a
// part of itself.
fn subtree(t: &[i32], out: &mut [i32], p: usize, area: &Area) -> usize
    requires forms { Forms t.now }
    requires size_right { SizeRight t.now }
    requires meets { Meets t.now (area_of area.now) p }
    ensures { WritesTree t.now (area_of area.now) p out.old out.new result }
{
    put_first(out, p);
    if table::word(t, p, RIGHT) >= area.right {
        return 1;
    }
    let lowest = floor(t, p, area.bottom);
    let mut n: usize = 1;
    let mut w = along(t, p, Side::Right);
    while let Some(k) = w.at {
        let low = table::word(t, k, BOTTOM);
        if low < lowest {
            return n;
        }
        if low < area.top {
            let at = n.min(out.len());
            let c = subtree(&t[..], &mut out[at..], k, area);
            n += c;
        }
        w = next(w, t, area.bottom);
    }
    n
}

// The tiles of the area in directed order, as many as the list has room for. How many there are. Down the left edge as in `search`, with a law of its own.
pub fn list_area(t: &[i32], out: &mut [i32], from: usize, area: Area) -> usize
    requires forms { Forms t.now }
    requires size_right { SizeRight t.now }
    requires used_in { UsedIn t.now from }
    requires rect_right { RectRight (area_of area) }
    ensures { WritesArea t.now (area_of area) out.old out.new result }
{
    let mut n: usize = 0;
    let mut k = from;
    let mut y = area.top;
    while area.bottom < y {
        k = find(t, k, area.left, y - 1);
        let at = n.min(out.len());
        let c = subtree(t, &mut out[at..], k, &area);
        n += c;
        y = table::word(t, k, BOTTOM);
    }
    n
}

// How many tiles the area has: nothing is written where there is no room.
pub fn count_area(t: &[i32], from: usize, area: Area) -> usize
    requires forms { Forms t.now }
    requires size_right { SizeRight t.now }
    requires used_in { UsedIn t.now from }
    requires rect_right { RectRight (area_of area) }
    ensures { CountsArea t.now (area_of area) result }
{
    list_area(t, &mut [], from, area)
}
