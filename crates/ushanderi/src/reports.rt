// The calls that report on a plane: density, how much of each window of an area is metal.
ghost use Rattle.std.specs.Prelude.{◌≡◌, ◌<◌, ◌^◌, pos};
ghost use Rattle.ruler.specs.Ruler.{length_of};
ghost use Rattle.seek.specs.Enumerate.{area_of};
ghost use Rattle.ushanderi.specs.Answers.{answered, number_of, refused, ruler_area, reported, unreported};
ghost use Rattle.ushanderi.specs.Promises.{Fit, DensitySays};

use crate::answer::{DONE, Refusal};
use crate::entry::admit_rect;
use density::{Report, Windows};
use seek::Rect;

// The report with 02's number and value: the number of windows, which may need 64 bits.
#[repr(C)]
#[derive(Clone, Copy)]
pub struct DensityAnswer {
    pub number: i32,
    pub value: i64,
    pub lowest: f64,
    pub highest: f64,
    pub covered: i64,
}

// A refused report has both shares 0.0 and no covered cells.
fn refused_with(refusal: Refusal, value: u64) -> DensityAnswer
    requires { value < 2 ^ 63 }
    ensures { result ≡ unreported (answered (number_of refusal) value) }
{
    DensityAnswer {
        number: refusal.number(),
        value: ruler::long_count(value),
        lowest: 0.0,
        highest: 0.0,
        covered: 0,
    }
}

impl From<Refusal> for DensityAnswer {
    ghost from_gives = { λ r a. a ≡ unreported (refused (number_of r)) };

    fn from(refusal: Refusal) -> DensityAnswer {
        refused_with(refusal, 0)
    }
}

fn done(windows: u64, report: Report) -> DensityAnswer
    requires windows_bound { windows < 2 ^ 63 }
    requires covered_bound { report.covered < 2 ^ 63 }
    ensures { result ≡ reported windows report }
{
    DensityAnswer {
        number: DONE,
        value: ruler::long_count(windows),
        lowest: report.lowest,
        highest: report.highest,
        covered: ruler::long_count(report.covered),
    }
}

// 13 and 10, then the report: the table passed the checks 1 and 2, and the rectangle 4.
fn density_in(t: &[i32], rect: Rect, w: u64, h: u64, out: &mut [f64]) -> DensityAnswer
    requires { Fit t.now }
    ensures { DensitySays t.now (area_of rect.area) w h out.old out.new result }
{
    let Some(windows) = Windows::new(rect, w, h) else {
        return DensityAnswer::from(Refusal::Step);
    };
    let count = windows.count();
    if (out.len() as u64) < count {
        return refused_with(Refusal::Short, count);
    }
    let from = seek::first_used(t);
    let report = density::report_all(t, out, from, windows);
    done(count, report)
}

pub fn density(
    t: &[i32],
    left: i32,
    bottom: i32,
    right: i32,
    top: i32,
    width: i32,
    height: i32,
    out: &mut [f64],
) -> DensityAnswer
    ensures { DensitySays t.now (ruler_area left bottom right top) (length_of width) (length_of height) out.old out.new result }
{
    match admit_rect(t, left, bottom, right, top) {
        Ok(rect) => density_in(t, rect, ruler::length(width), ruler::length(height), out),
        Err(refusal) => DensityAnswer::from(refusal),
    }
}
