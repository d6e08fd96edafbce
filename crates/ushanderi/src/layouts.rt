// The calls on saved layouts: save and load.
ghost use Rattle.std.specs.Prelude.{◌≡◌, ◌+◌, ◌*◌, ◌%◌, ◌≤◌, ◌<◌, ◌^◌, pos, length};
ghost use Rattle.table.specs.Sound.{SizeRight, UsedIn, solids_in};
ghost use Rattle.layout.specs.Bytes.{saved_at, SAVED};
ghost use Rattle.ushanderi.specs.Promises.{Fit, SaveSays, area_in, LoadSays};
ghost use Rattle.ushanderi.specs.Editing.{CreateEnds};
ghost use Rattle.ushanderi.specs.Answers.{without_cell};

use crate::answer::{Answer, MetAnswer, Refusal, done, refused_with};
use crate::editing::create_one;
use crate::entry::admit;
use layout::SAVED;
use seek::Area;

// 10, then the save: the table is sound and has so many solids.
fn save_in(t: &[i32], out: &mut [u8], solids: usize) -> Answer
    requires fit { Fit t.now }
    requires solids_value { solids ≡ solids_in t.now }
    ensures { SaveSays t.now out.old out.new result }
{
    let need = SAVED * solids;
    if out.len() < need {
        return refused_with(Refusal::Short, need as u64);
    }
    let written = layout::save(t, out);
    done(written as u64)
}

pub fn save(t: &[i32], out: &mut [u8]) -> Answer
    ensures { SaveSays t.now out.old out.new result }
{
    match admit(t) {
        Ok(solids) => save_in(t, out, solids),
        Err(refusal) => Answer::from(refusal),
    }
}

// The create for record n of a file, on a table that holds the n records before it.
fn load_one(t: &mut [i32], bytes: &[u8], from: usize, n: usize) -> Result<usize, MetAnswer>
    requires fit { Fit t.old }
    requires used_in { UsedIn t.old from }
    requires n_value { n ≡ solids_in t.old }
    requires n_in_bounds { SAVED * n + SAVED ≤ length bytes.now }
    ensures { CreateEnds t.old (area_in bytes.now n) (saved_at bytes.now n).label t.new result }
{
    let s = layout::read_saved(bytes, n);
    let area = Area {
        left: s.left,
        bottom: s.bottom,
        right: s.right,
        top: s.top,
    };
    create_one(t, from, area, s.label, n)
}

// The refusal of the create for record n as load gives it: its number and the index, and no cell, since the plane is fresh again.
fn stopped(refusal: MetAnswer, n: u64) -> MetAnswer
    requires { n < 2 ^ 31 }
    ensures { result ≡ without_cell (record { number = refusal.number; value = pos n }) }
{
    MetAnswer {
        value: ruler::count(n),
        x: 0,
        y: 0,
        ..refusal
    }
}

// The creates for all records of a file, on a fresh plane; where one is refused the plane is fresh again.
fn load_all(t: &mut [i32], bytes: &[u8]) -> MetAnswer
    requires size_right { SizeRight t.old }
    requires bytes_len { length bytes.now % SAVED ≡ 0 }
    ensures { LoadSays t.old bytes.now t.new result }
{
    table::fresh(t);
    let count = bytes.len() / SAVED;
    let mut from: usize = 0;
    for n in 0..count {
        match load_one(t, bytes, from, n) {
            Ok(k) => from = k,
            Err(refusal) => {
                table::fresh(t);
                return stopped(refusal, n as u64);
            }
        }
    }
    MetAnswer::from(done(count as u64))
}

pub fn load(t: &mut [i32], bytes: &[u8]) -> MetAnswer
    ensures { LoadSays t.old bytes.now t.new result }
{
    if !table::size_right(t) {
        return MetAnswer::from(Refusal::Size);
    }
    if bytes.len() % SAVED != 0 {
        return MetAnswer::from(Refusal::File);
    }
    load_all(t, bytes)
}
