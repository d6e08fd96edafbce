// Find, again and again.
ghost use Rattle.seek.specs.Find.{Finds};
ghost use Rattle.repeated.specs.Entry.{Fit};
ghost use Rattle.repeated.specs.Answers.{answer_of};
ghost use Rattle.repeated.specs.Says.{FindSays};

use crate::answer::{Answer, Refusal};
use crate::cell::Cell;
use crate::entry::enter;
use crate::often::often;

// One find, from the record that the hint names.
pub(crate) fn find_from(t: &[i32], hint: u64, cell: Cell) -> usize
    requires { Fit t.now }
    ensures { Finds t.now cell.x cell.y result }
{
    let from = seek::start(t, hint);
    seek::find(t, from, cell.x, cell.y)
}

fn find_often(t: &[i32], cell: Cell, from: u32, times: u32) -> usize
    requires { Fit t.now }
    ensures { Finds t.now cell.x cell.y result }
{
    let mut run = |hint| find_from(t, hint, cell);
    often(from, times, &mut run)
}

fn found(t: &[i32], x: u64, y: u64, from: u32, times: u32) -> Result<u64, Refusal>
    ensures { FindSays t.now x y (answer_of result) }
{
    enter(t)?;
    let Some(cell) = Cell::new(x, y) else {
        return Err(Refusal::Point);
    };
    let k = find_often(t, cell, from, times);
    Ok(k as u64)
}

#[unsafe(no_mangle)]
pub extern "C" fn rep_find(t: &[i32], x: u64, y: u64, from: u32, times: u32) -> Answer
    ensures { FindSays t.now x y result }
{
    found(t, x, y, from, times).into()
}
