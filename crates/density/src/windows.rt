// The windows of a rectangle, all of one size, row under row; and what a report tells of them.
ghost use Rattle.std.specs.Prelude.{◌≡◌, ◌*◌, ◌≤◌, ◌^◌, MatchOption};
ghost use Rattle.seek.specs.Enumerate.{area_of};
ghost use Rattle.density.specs.Meaning.{Steps, columns_of, windows_of};

use seek::Rect;

// The lowest and the highest share of a window, and how many cells are covered in all.
#[derive(Clone, Copy)]
pub struct Report {
    pub lowest: f64,
    pub highest: f64,
    pub covered: u64,
}

// Windows that divide the rectangle's sides.
#[derive(Clone, Copy)]
pub struct Windows {
    pub rect: Rect,
    pub width: u64,
    pub height: u64,
    pub ghost divides: { Steps (area_of rect.area) width height },
}

impl Windows {
    pub fn new(rect: Rect, width: u64, height: u64) -> Option<Windows>
        ensures { MatchOption result (Steps (area_of rect.area) width height → ⊥) (λ v. (v.rect ≡ rect) × (v.width ≡ width) × (v.height ≡ height)) }
    {
        let divides = width >= 1
            && height >= 1
            && (rect.area.right - rect.area.left) % width == 0
            && (rect.area.top - rect.area.bottom) % height == 0;
        if divides {
            Some(Windows {
                rect,
                width,
                height,
            })
        } else {
            None
        }
    }

    // How many windows there are.
    pub fn count(self) -> u64
        ensures { result ≡ windows_of (area_of self.rect.area) self.width self.height }
    {
        (self.rect.area.top - self.rect.area.bottom) / self.height * self.columns()
    }

    // How many windows stand side by side.
    pub(crate) fn columns(self) -> u64
        ensures { result ≡ columns_of (area_of self.rect.area) self.width }
    {
        (self.rect.area.right - self.rect.area.left) / self.width
    }

    // How many cells a window has.
    pub(crate) fn cells(self) -> u64
        ensures value { result ≡ self.width * self.height }
        ensures small { result ≤ 2 ^ 50 }
    {
        self.width * self.height
    }
}
