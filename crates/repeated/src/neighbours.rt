// A tile's neighbours, again and again: the tile is found, they are counted, and where there is room they are listed.
ghost use Rattle.repeated.specs.Entry.{Fit};
ghost use Rattle.repeated.specs.Answers.{answer_of};
ghost use Rattle.repeated.specs.Says.{NeighboursSays, SideListed};

use crate::answer::{Answer, Refusal};
use crate::cell::Cell;
use crate::entry::enter;
use crate::find::find_from;
use crate::often::often;

fn list_from(t: &[i32], hint: u64, cell: Cell, side: usize, list: &mut [i32]) -> usize
    requires { Fit t.now }
    ensures { SideListed t.now cell.x cell.y side list.old list.new result }
{
    let i = find_from(t, hint, cell);
    let n = seek::count_side(t, i, side);
    if n <= list.len() {
        seek::list_side(t, i, side, list);
    }
    n
}

fn list_often(t: &[i32], cell: Cell, side: usize, list: &mut [i32], times: u32) -> usize
    requires { Fit t.now }
    ensures { SideListed t.now cell.x cell.y side list.old list.new result }
{
    let mut run = |hint| list_from(t, hint, cell, side, list);
    often(0, times, &mut run)
}

// Where the list is too short, that is seen after the runs, which have left it as it was.
fn listed(
    t: &[i32],
    x: u64,
    y: u64,
    side: usize,
    list: &mut [i32],
    times: u32,
) -> Result<u64, Refusal>
    ensures { NeighboursSays t.now x y side list.old list.new (answer_of result) }
{
    enter(t)?;
    if side > 3 {
        return Err(Refusal::Side);
    }
    let Some(cell) = Cell::new(x, y) else {
        return Err(Refusal::Point);
    };
    let room = list.len();
    let n = list_often(t, cell, side, list, times);
    if room < n {
        return Err(Refusal::Short(n as u64));
    }
    Ok(n as u64)
}

#[unsafe(no_mangle)]
pub extern "C" fn rep_neighbours(
    t: &[i32],
    x: u64,
    y: u64,
    side: usize,
    list: &mut [i32],
    times: u32,
) -> Answer
    ensures { NeighboursSays t.now x y side list.old list.new result }
{
    listed(t, x, y, side, list, times).into()
}
