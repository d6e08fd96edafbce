// The report: every window's share, the lowest and the highest, and the covered cells in all.
ghost use Rattle.std.specs.Prelude.{◌≤◌, length};
ghost use Rattle.table.specs.Sound.{SizeRight, UsedIn};
ghost use Rattle.table.specs.Forms.{Forms};
ghost use Rattle.seek.specs.Enumerate.{area_of};
ghost use Rattle.density.specs.Meaning.{windows_of};
ghost use Rattle.density.specs.Report.{Reports};

use crate::counts::{clear, tally};
use crate::spread::spread;
use crate::windows::{Report, Windows};
use seek::gather;
use table::numbers::MOST;

// The most tiles that a table has, and one entry more.
const ROOM: usize = MOST + 1;

// The rectangle's tiles are gathered once, from the tile `from` on; each solid's cells are counted in the lent list, window by window, and then each count
// becomes its share.
pub fn report_all(t: &[i32], out: &mut [f64], from: usize, windows: Windows) -> Report
    requires forms { Forms t.now }
    requires size_right { SizeRight t.now }
    requires used_in { UsedIn t.now from }
    requires h_in_bounds { windows_of (area_of windows.rect.area) windows.width windows.height ≤ length out.old }
    ensures { Reports t.now (area_of windows.rect.area) windows.width windows.height out.old out.new result }
{
    clear(out, windows.count() as usize);
    let mut list = [0i32; ROOM];
    let n = gather(t, &mut list, from, windows.rect.area);
    spread(t, &list[..n], out, windows);
    tally(t, out, windows)
}
