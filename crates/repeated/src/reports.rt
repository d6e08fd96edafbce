// The density report, again and again.
ghost use Rattle.std.specs.Prelude.{◌≤◌, length};
ghost use Rattle.seek.specs.Enumerate.{area_of};
ghost use Rattle.density.specs.Meaning.{windows_of};
ghost use Rattle.density.specs.Report.{Reports};
ghost use Rattle.repeated.specs.Entry.{Fit};
ghost use Rattle.repeated.specs.Answers.{answer_of};
ghost use Rattle.repeated.specs.Says.{DensitySays};

use crate::answer::{Answer, Refusal};
use crate::entry::enter;
use crate::often::often;
use density::{Report, Windows};
use seek::{Area, Rect};

// One report, from the record that the hint names.
fn density_from(t: &[i32], hint: u64, out: &mut [f64], windows: Windows) -> Report
    requires fit { Fit t.now }
    requires windows_in_bounds { windows_of (area_of windows.rect.area) windows.width windows.height ≤ length out.old }
    ensures { Reports t.now (area_of windows.rect.area) windows.width windows.height out.old out.new result }
{
    let from = seek::start(t, hint);
    density::report_all(t, out, from, windows)
}

fn density_often(t: &[i32], out: &mut [f64], windows: Windows, times: u32) -> Report
    requires fit { Fit t.now }
    requires windows_in_bounds { windows_of (area_of windows.rect.area) windows.width windows.height ≤ length out.old }
    ensures { Reports t.now (area_of windows.rect.area) windows.width windows.height out.old out.new result }
{
    let mut run = |hint| density_from(t, hint, out, windows);
    often(0, times, &mut run)
}

// Where the slice is too short, that is seen before the runs.
fn reported(
    t: &[i32],
    area: Area,
    w: u64,
    h: u64,
    out: &mut [f64],
    times: u32,
) -> Result<u64, Refusal>
    ensures { DensitySays t.now (area_of area) w h out.old out.new (answer_of result) }
{
    enter(t)?;
    let Some(rect) = Rect::new(area) else {
        return Err(Refusal::Rect);
    };
    let Some(windows) = Windows::new(rect, w, h) else {
        return Err(Refusal::Step);
    };
    let count = windows.count();
    if (out.len() as u64) < count {
        return Err(Refusal::Short(count));
    }
    density_often(t, out, windows, times);
    Ok(count)
}

#[unsafe(no_mangle)]
pub extern "C" fn rep_density(
    t: &[i32],
    left: u64,
    bottom: u64,
    right: u64,
    top: u64,
    w: u64,
    h: u64,
    out: &mut [f64],
    times: u32,
) -> Answer
    ensures { DensitySays t.now (record { left = left; bottom = bottom; right = right; top = top }) w h out.old out.new result }
{
    let area = Area {
        left,
        bottom,
        right,
        top,
    };
    reported(t, area, w, h, out, times).into()
}
