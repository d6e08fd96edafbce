// What the calls check first: 1 and 2 every call but fresh, view and load; then 4 the calls on a rectangle.
ghost use Rattle.std.specs.Prelude.{◌≡◌};
ghost use Rattle.seek.specs.Enumerate.{area_of};
ghost use Rattle.ushanderi.specs.Answers.{ruler_area};
ghost use Rattle.ushanderi.specs.Entry.{Admits, AdmitsRect};

use crate::answer::Refusal;
use seek::{Area, Rect};

// How many solids the table has, or what keeps it from being worked on.
pub(crate) fn admit(t: &[i32]) -> Result<usize, Refusal>
    ensures { Admits t.now result }
{
    if table::size_right(t) {
        sound::check(t).ok_or(Refusal::Unsound)
    } else {
        Err(Refusal::Size)
    }
}

// Four words as an area: four, since C and the promises hand them on so.
pub(crate) fn area(left: i32, bottom: i32, right: i32, top: i32) -> Area
    ensures { area_of result ≡ ruler_area left bottom right top }
{
    Area {
        left: ruler::at(left),
        bottom: ruler::at(bottom),
        right: ruler::at(right),
        top: ruler::at(top),
    }
}

// The rectangle to work on, on a table that can be worked on.
pub(crate) fn admit_rect(
    t: &[i32],
    left: i32,
    bottom: i32,
    right: i32,
    top: i32,
) -> Result<Rect, Refusal>
    ensures { AdmitsRect t.now (ruler_area left bottom right top) result }
{
    admit(t)?;
    Rect::new(area(left, bottom, right, top)).ok_or(Refusal::Rect)
}
