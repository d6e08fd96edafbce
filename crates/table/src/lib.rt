// The lent words as numbered tiles: the only crate that knows where a record's words lie. An arena of numbers, since the table is lent, and of a fixed size.
#![tactic(auto)]

ghost use Rattle.std.specs.Prelude.{◌≡◌, ◌↔◌, ℕ, MatchOption, ◌+◌, ◌*◌, ◌≤◌, ◌<◌, ◌^◌, T, pos, ◌++◌, length, drop, replicate};
ghost use Rattle.geometry.specs.Picture.{InPlane};
ghost use Rattle.table.specs.Fresh.{whole_plane, fresh_table};
ghost use Rattle.table.specs.Sound.{SizeRight, capacity};
ghost use Rattle.table.specs.View.{Numbers, Places};
ghost use Rattle.table.specs.Words.{WIDTH, records_of, num};
ghost use Rattle.table.specs.Reading.{WordIs, Reads, write};
ghost use Rattle.table.specs.Forms.{none, link};

pub mod numbers;

use numbers::{
    BL, BOTTOM, HIGH, KIND, LABEL, LB, LEAST, LEFT, LOW, MOST, RIGHT, RT, TOP, TR, WIDTH, WORDS,
    ZERO,
};

// Whether a cell is of the plane. A cell is two numbers here, as in `InPlane`.
pub fn in_plane(x: u64, y: u64) -> bool
    ensures { T result ↔ InPlane x y }
{
    (LOW..HIGH).contains(&x) && (LOW..HIGH).contains(&y)
}

// A record's ten words as numbers on the ruler.
#[derive(Clone, Copy)]
pub struct Record {
    pub left: u64,
    pub bottom: u64,
    pub right: u64,
    pub top: u64,
    pub tr: u64,
    pub rt: u64,
    pub bl: u64,
    pub lb: u64,
    pub kind: u64,
    pub label: u64,
}

// How many records the words make.
pub fn records(t: &[i32]) -> usize
    ensures { result ≡ records_of t.now }
{
    t.len() / WIDTH
}

// How many solids a table of the right size takes.
pub fn capacity(t: &[i32]) -> usize
    requires { SizeRight t.now }
    ensures { result ≡ capacity (records_of t.now) }
{
    (records(t) - 16) / 4
}

// The number of word k of record i.
pub fn word(t: &[i32], i: usize, k: usize) -> u64
    requires { WIDTH * i + k < length t.now }
    ensures { WordIs t.now i k result }
{
    ruler::at(t[WIDTH * i + k])
}

// The tile that the stitch in word k of record i names: a record's number, or a number past every record. A number and no Option: where a walk goes, the stitch
// names a record, and each step would unwrap it; at the rim the number is compared with the records once.
pub fn follow(t: &[i32], i: usize, k: usize) -> usize
    requires { WIDTH * i + k < length t.now }
    ensures { result ≡ link (num t.now i k) }
{
    ruler::bits(t[WIDTH * i + k]) as usize
}

// The word that names the tile k, or that names none.
pub fn name(k: usize) -> u64
    requires { k ≤ none }
    ensures fits { result < 2 ^ 32 }
    ensures names { link result ≡ k }
{
    let n = k as u64;
    (n + ZERO) % WORDS
}

// Whether n is less than the number of word k of record i. The words are compared as they lie, without the ruler's shift.
pub fn under_word(t: &[i32], n: u64, i: usize, k: usize) -> bool
    requires { (WIDTH * i + k < length t.now) × (n < 2 ^ 32) }
    ensures { T result ↔ (n < num t.now i k) }
{
    let w = ruler::word_at(n);
    w < t[WIDTH * i + k]
}

pub fn read(t: &[i32], i: usize) -> Record
    requires { i < records_of t.now }
    ensures { Reads t.now i result }
{
    Record {
        left: word(t, i, LEFT),
        bottom: word(t, i, BOTTOM),
        right: word(t, i, RIGHT),
        top: word(t, i, TOP),
        tr: word(t, i, TR),
        rt: word(t, i, RT),
        bl: word(t, i, BL),
        lb: word(t, i, LB),
        kind: word(t, i, KIND),
        label: word(t, i, LABEL),
    }
}

pub fn set_word(t: &mut [i32], i: usize, k: usize, n: u64)
    requires { (WIDTH * i + k < length t.old) × (n < 2 ^ 32) }
    ensures { t.new ≡ write t.old i k n }
{
    t[WIDTH * i + k] = ruler::word_at(n);
}

// Whether the words are a whole number of records, and as many as a table may have.
pub fn size_right(t: &[i32]) -> bool
    ensures { T result ↔ SizeRight t.now }
{
    let n = records(t);
    t.len() % WIDTH == 0 && (LEAST..=MOST).contains(&n)
}

// The whole plane as one space tile whose four stitches are -1.
const PLANE: [i32; WIDTH] = [
    -16777216, -16777216, 16777216, 16777216, -1, -1, -1, -1, 1, 0,
];

// The fresh plane: one space tile, in record 0.
pub fn fresh(t: &mut [i32])
    requires { WIDTH ≤ length t.old }
    ensures { t.new ≡ fresh_table (length t.old) }
{
    t.fill(0);
    t[..WIDTH].copy_from_slice(&PLANE);
}

// Where the words of a record lie: the first of them, and how many there are. The C interface (`ush_view`): a slice cannot be returned to C.
#[repr(C)]
#[derive(Clone, Copy)]
pub struct Part {
    pub at: usize,
    pub len: usize,
}

// The record that a word numbers, if the table has the right size and has that record: any table and any number is answered.
fn numbered(t: &[i32], index: i32) -> Option<usize>
    ensures { MatchOption result ((i : ℕ) → Numbers t.now index i → ⊥) (Numbers t.now index) }
{
    let i = usize::try_from(index).ok()?;
    (size_right(t) && i < records(t)).then_some(i)
}

// The place of the record that a word numbers, or an empty one.
pub fn place(t: &[i32], index: i32) -> Part
    ensures { Places t.now index result.at result.len }
{
    match numbered(t, index) {
        Some(i) => Part {
            at: WIDTH * i,
            len: WIDTH,
        },
        None => Part { at: 0, len: 0 },
    }
}
