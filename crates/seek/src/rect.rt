// An area that RECT lets pass.
ghost use Rattle.seek.specs.Meaning.{RectRight};
ghost use Rattle.seek.specs.Enumerate.{area_of};

use crate::area::Area;
use table::numbers::{HIGH, LOW};

#[derive(Clone, Copy)]
pub struct Rect {
    pub area: Area,
    pub ghost right: { RectRight (area_of area) },
}

impl Rect {
    ghost use Rattle.seek.specs.Passing.{Passes};

    pub fn new(area: Area) -> Option<Rect>
        ensures { Passes (area_of area) result }
    {
        let Area {
            left,
            bottom,
            right,
            top,
        } = area;
        let is_right = left < right
            && bottom < top
            && LOW <= left
            && right <= HIGH
            && LOW <= bottom
            && top <= HIGH;
        if is_right { Some(Rect { area }) } else { None }
    }
}
