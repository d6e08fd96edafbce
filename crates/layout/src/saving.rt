// Saving: the solids' keys, sorted, and the records that they name written in that order.
ghost use Rattle.std.specs.Prelude.{◌≡◌, ◌++◌, ℕ, ◌*◌, ◌≤◌, ◌<◌, length, get_or, drop};
ghost use Rattle.table.specs.Words.{records_of};
ghost use Rattle.table.specs.Sound.{SizeRight, solids_in, SolidIn};
ghost use Rattle.table.specs.Forms.{Forms};
ghost use Rattle.layout.specs.Bytes.{file_bytes, SAVED};
ghost use Rattle.layout.specs.Order.{Saves};
ghost use Rattle.sorting.specs.Keys.{record_of};
ghost use Rattle.layout.specs.Keys.{key, CollectsKeys};
ghost use Rattle.layout.specs.Saving.{SavedFrom, saved_by};

use crate::bytes::{SAVED, Saved, put_saved};
use sorting::sort;
use table::numbers::{BOTTOM, HIGH, KIND, LABEL, LEFT, LOW, RIGHT, SOLID, TOP};

// The width of the plane, and a number above all record numbers.
const WIDE: u64 = 33554432;

const RECORDS: u64 = 4096;

// How many solids a small table takes, and the largest.
const FEW: usize = 128;

const MOST: usize = 1000;

// A solid's key: keys rise in the order of a saved layout. One number and no struct of three, since `sorting::sort` takes numbers.
fn key(t: &[i32], i: usize) -> u64
    requires forms { Forms t.now }
    requires size_right { SizeRight t.now }
    requires solid_in { SolidIn t.now i }
    ensures { result ≡ key t.now i }
{
    let down = HIGH - table::word(t, i, TOP);
    let right = table::word(t, i, LEFT) - LOW;
    (down * WIDE + right) * RECORDS + i as u64
}

// The keys of all solids, in the order of their records, and how many there are: n counts solids, not records.
fn collect(t: &[i32], keys: &mut [u64]) -> usize
    requires forms { Forms t.now }
    requires size_right { SizeRight t.now }
    requires t_in_bounds { solids_in t.now ≤ length keys.old }
    ensures { CollectsKeys t.now keys.new result }
{
    let mut n: usize = 0;
    for i in 0..table::records(t) {
        if table::word(t, i, KIND) == SOLID {
            keys[n] = key(t, i);
            n += 1;
        }
    }
    n
}

// A conversion from a whole `table::Record` would name the same five fields twice.
fn saved_of(t: &[i32], i: usize) -> Saved
    requires { i < records_of t.now }
    ensures { SavedFrom t.now i result }
{
    Saved {
        left: table::word(t, i, LEFT),
        bottom: table::word(t, i, BOTTOM),
        right: table::word(t, i, RIGHT),
        top: table::word(t, i, TOP),
        label: table::word(t, i, LABEL),
    }
}

// The records that the keys name, one after another.
fn write_all(t: &[i32], keys: &[u64], out: &mut [u8]) -> usize
    requires keys_in_bounds { SAVED * length keys.now ≤ length out.old }
    requires by_index { (n : ℕ) → n < length keys.now → record_of (get_or keys.now n 0) < records_of t.now }
    ensures value { result ≡ SAVED * length keys.now }
    ensures out_after { out.new ≡ file_bytes (saved_by t.now keys.now) ++ drop (SAVED * length keys.now) out.old }
{
    for (k, key) in keys.iter().enumerate() {
        let i = (*key % RECORDS) as usize;
        put_saved(out, k, saved_of(t, i));
    }
    SAVED * keys.len()
}

// What save does, given room for the keys.
fn save_by(t: &[i32], keys: &mut [u64], out: &mut [u8]) -> usize
    requires forms { Forms t.now }
    requires size_right { SizeRight t.now }
    requires t_in_bounds { solids_in t.now ≤ length keys.old }
    requires t_in_bounds_2 { SAVED * solids_in t.now ≤ length out.old }
    ensures { Saves t.now out.old out.new result }
{
    let n = collect(t, keys);
    let found = &mut keys[..n];
    sort(found);
    write_all(t, found, out)
}

// Save, with room for the keys of ROOM solids: on the stack, since nothing here takes memory from a heap.
fn save_in<const ROOM: usize>(t: &[i32], out: &mut [u8]) -> usize
    requires forms { Forms t.now }
    requires size_right { SizeRight t.now }
    requires room { ROOM ≤ 1000 }
    requires t_bound { solids_in t.now ≤ ROOM }
    requires t_in_bounds { SAVED * solids_in t.now ≤ length out.old }
    ensures { Saves t.now out.old out.new result }
{
    let mut keys = [0u64; ROOM];
    save_by(t, &mut keys, out)
}

// The solids of a table as a saved layout, at the start of the lent bytes, and how many bytes that takes.
// Room for the keys of the largest table takes longer to clear than a small table to save.
pub fn save(t: &[i32], out: &mut [u8]) -> usize
    requires forms { Forms t.now }
    requires size_right { SizeRight t.now }
    requires t_in_bounds { SAVED * solids_in t.now ≤ length out.old }
    ensures { Saves t.now out.old out.new result }
{
    if table::capacity(t) <= FEW {
        save_in::<FEW>(t, out)
    } else {
        save_in::<MOST>(t, out)
    }
}
