// The directed order, again and again: where the list has not room for every record the tiles are counted, and where it has room for them they are listed.
ghost use Rattle.seek.specs.Enumerate.{area_of};
ghost use Rattle.repeated.specs.Entry.{Fit};
ghost use Rattle.repeated.specs.Answers.{answer_of};
ghost use Rattle.repeated.specs.Says.{EnumerateSays, AreaListed};

use crate::answer::{Answer, Refusal};
use crate::entry::enter;
use crate::often::often;
use seek::{Area, Rect};

fn area_from(t: &[i32], hint: u64, rect: Rect, list: &mut [i32]) -> usize
    requires { Fit t.now }
    ensures { AreaListed t.now (area_of rect.area) list.old list.new result }
{
    let from = seek::start(t, hint);
    if list.len() < table::records(t) {
        let n = seek::count_area(t, from, rect.area);
        if list.len() < n {
            return n;
        }
    }
    seek::list_area(t, list, from, rect.area)
}

fn area_often(t: &[i32], rect: Rect, list: &mut [i32], times: u32) -> usize
    requires { Fit t.now }
    ensures { AreaListed t.now (area_of rect.area) list.old list.new result }
{
    let mut run = |hint| area_from(t, hint, rect, list);
    often(0, times, &mut run)
}

// Where the list is too short, that is seen after the runs, which have left it as it was.
fn enumerated(t: &[i32], area: Area, list: &mut [i32], times: u32) -> Result<u64, Refusal>
    ensures { EnumerateSays t.now (area_of area) list.old list.new (answer_of result) }
{
    enter(t)?;
    let Some(rect) = Rect::new(area) else {
        return Err(Refusal::Rect);
    };
    let room = list.len();
    let n = area_often(t, rect, list, times);
    if room < n {
        return Err(Refusal::Short(n as u64));
    }
    Ok(n as u64)
}

#[unsafe(no_mangle)]
pub extern "C" fn rep_enumerate(
    t: &[i32],
    left: u64,
    bottom: u64,
    right: u64,
    top: u64,
    list: &mut [i32],
    times: u32,
) -> Answer
    ensures { EnumerateSays t.now (record { left = left; bottom = bottom; right = right; top = top }) list.old list.new result }
{
    let area = Area {
        left,
        bottom,
        right,
        top,
    };
    enumerated(t, area, list, times).into()
}
