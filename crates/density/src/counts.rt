// Covered cells window by window, counted in the lent list of floats itself, and the shares that they become.
ghost use Rattle.std.specs.Prelude.{◌≡◌, ◌≤◌, ◌<◌, ◌^◌, length, get_or, set};
ghost use Rattle.std.specs.Float.Ieee as Ieee;
ghost use Rattle.std.specs.Float.{binary64};
ghost use Rattle.seek.specs.Enumerate.{area_of};
ghost use Rattle.density.specs.Meaning.{windows_of};
ghost use Rattle.density.specs.Shares.{float};
ghost use Rattle.density.specs.Counts.{Counts, Counted};
ghost use Rattle.density.specs.Report.{Reports};

use crate::shares::share;
use crate::windows::{Report, Windows};

// The first n entries become 0.0.
pub(crate) fn clear(out: &mut [f64], n: usize)
    requires { n ≤ length out.old }
    ensures { Counts out.old out.new n (λ m. 0) }
{
    out[..n].fill(0.0);
}

// So many cells more at entry n.
pub(crate) fn add(out: &mut [f64], n: usize, cells: u64)
    requires n_in_bounds { n < length out.old }
    requires cells_bound { cells ≤ 2 ^ 50 }
    ensures { out.new ≡ set out.old n (Ieee.add binary64 (get_or out.old n (float 0)) (float cells)) }
{
    out[n] += cells as f64;
}

// Each window's count becomes its share; `t` only states the contract. Lowest starts at a window's cells and highest at 0: no count lies
// outside, and there is at least one window.
pub(crate) fn tally(t: &[i32], out: &mut [f64], windows: Windows) -> Report
    requires h_in_bounds { windows_of (area_of windows.rect.area) windows.width windows.height ≤ length out.old }
    requires counted { Counted t.now (area_of windows.rect.area) windows.width windows.height out.old }
    ensures { Reports t.now (area_of windows.rect.area) windows.width windows.height out.old out.new result }
{
    let cells = windows.cells();
    let count = windows.count() as usize;
    let mut lowest = cells;
    let mut highest: u64 = 0;
    let mut covered = 0;
    for entry in &mut out[..count] {
        let c = *entry as u64;
        *entry = share(c, cells);
        lowest = lowest.min(c);
        highest = highest.max(c);
        covered += c;
    }
    Report {
        lowest: share(lowest, cells),
        highest: share(highest, cells),
        covered,
    }
}
