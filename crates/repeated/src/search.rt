// Area search, again and again.
ghost use Rattle.seek.specs.Enumerate.{area_of};
ghost use Rattle.seek.specs.Search.{Searches};
ghost use Rattle.repeated.specs.Entry.{Fit};
ghost use Rattle.repeated.specs.Answers.{answer_of};
ghost use Rattle.repeated.specs.Says.{SearchSays};

use crate::answer::{Answer, Refusal};
use crate::entry::enter;
use crate::often::often;
use seek::{Area, Met, Rect};

// One search, from the record that the hint names.
pub(crate) fn search_from(t: &[i32], hint: u64, rect: Rect) -> Result<usize, Met>
    requires { Fit t.now }
    ensures { Searches t.now (area_of rect.area) result }
{
    let from = seek::start(t, hint);
    seek::search(t, from, rect.area)
}

fn search_often(t: &[i32], rect: Rect, from: u32, times: u32) -> Result<usize, Met>
    requires { Fit t.now }
    ensures { Searches t.now (area_of rect.area) result }
{
    let mut run = |hint| search_from(t, hint, rect);
    often(from, times, &mut run)
}

// Where nothing is met, C is told the number of the records.
fn searched(t: &[i32], area: Area, from: u32, times: u32) -> Result<u64, Refusal>
    ensures { SearchSays t.now (area_of area) (answer_of result) }
{
    enter(t)?;
    let Some(rect) = Rect::new(area) else {
        return Err(Refusal::Rect);
    };
    match search_often(t, rect, from, times) {
        Ok(_) => Ok(table::records(t) as u64),
        Err(met) => Ok(met.tile as u64),
    }
}

#[unsafe(no_mangle)]
pub extern "C" fn rep_search(
    t: &[i32],
    left: u64,
    bottom: u64,
    right: u64,
    top: u64,
    from: u32,
    times: u32,
) -> Answer
    ensures { SearchSays t.now (record { left = left; bottom = bottom; right = right; top = top }) result }
{
    let area = Area {
        left,
        bottom,
        right,
        top,
    };
    searched(t, area, from, times).into()
}
