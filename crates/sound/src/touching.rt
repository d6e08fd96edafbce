// The last pass, over a table that passed the others: solids that touch have one label. Any two that touch are compared by way of a tile with a corner
// where they meet, through its stitches. Only what lies diagonally up and right of a solid takes a walk, and no space tile is walked along twice.
ghost use Rattle.std.specs.Prelude.{◌↔◌, ◌<◌, T};
ghost use Rattle.geometry.specs.Picture.{HIGH, Joined};
ghost use Rattle.table.specs.Words.{RIGHT, num, records_of};
ghost use Rattle.table.specs.Sound.{UsedIn};
ghost use Rattle.table.specs.Forms.{Forms, solid_set};
ghost use Rattle.sound.specs.Touching.{AgreeIn, LastRight, CornerAgrees, Ahead, LooksAt};

use table::Record;
use table::numbers::{BL, BOTTOM, FREE, HIGH, KIND, LABEL, LB, RIGHT, RT, SOLID, TR, ZERO};

// i and j are not two solids of different labels. A number past the records is no solid, and a record's label is 0 exactly where it is none.
fn agree(t: &[i32], i: usize, j: usize) -> bool
    requires { Forms t.now }
    ensures { T result ↔ AgreeIn t.now i j }
{
    let n = table::records(t);
    if n <= i || n <= j {
        return true;
    }
    let a = table::word(t, i, LABEL);
    let b = table::word(t, j, LABEL);
    a == ZERO || b == ZERO || a == b
}

// The last tile down the right side of a; `sound` does not rest on `seek`, which goes the same way.
fn last_right(t: &[i32], a: usize) -> usize
    requires forms { Forms t.now }
    requires used_in { UsedIn t.now a }
    requires a_bound { num t.now a RIGHT < HIGH }
    ensures { LastRight t.now a result }
{
    let y = table::word(t, a, BOTTOM);
    let mut k = table::follow(t, a, TR);
    while y < table::word(t, k, BOTTOM) {
        k = table::follow(t, k, LB);
    }
    k
}

// Tile i and the one diagonally up and right of it, where no other look compares them: the tile over i's last column is space and ends where i ends.
fn corner_agrees(t: &[i32], i: usize) -> bool
    requires forms { Forms t.now }
    requires used_in { UsedIn t.now i }
    ensures { T result ↔ CornerAgrees t.now i }
{
    let x = table::word(t, i, RIGHT);
    let over = table::follow(t, i, RT);
    if HIGH <= x || table::records(t) <= over {
        return true;
    }
    let Record { right, kind, .. } = table::read(t, over);
    if right != x || kind == SOLID {
        return true;
    }
    agree(t, i, last_right(t, over))
}

// Tile i and what lies at its upper right corner.
fn ahead(t: &[i32], i: usize) -> bool
    requires forms { Forms t.now }
    requires used_in { UsedIn t.now i }
    ensures { T result ↔ Ahead t.now i }
{
    agree(t, i, table::follow(t, i, TR))
        && agree(t, i, table::follow(t, i, RT))
        && corner_agrees(t, i)
}

// The looks of record i, if it is used: what meets at its lower left corner, and, if it is solid, what lies ahead.
fn looks(t: &[i32], i: usize) -> bool
    requires forms { Forms t.now }
    requires i_bound { i < records_of t.now }
    ensures { T result ↔ LooksAt t.now i }
{
    let kind = table::word(t, i, KIND);
    kind == FREE
        || (agree(t, table::follow(t, i, BL), table::follow(t, i, LB))
            && (kind != SOLID || ahead(t, i)))
}

// The last pass.
pub(crate) fn joined(t: &[i32]) -> bool
    requires { Forms t.now }
    ensures { T result ↔ Joined (solid_set t.now) }
{
    (0..table::records(t)).all(|i| looks(t, i))
}
