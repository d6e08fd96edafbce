// The calls of the server for C: each export is the function of its name in `ushanderi::host`, and its contract is that function's.
#![tactic(auto)]

ghost use Rattle.ruler.specs.Ruler.{length_of, ruler};
ghost use Rattle.table.specs.View.{Places};
ghost use Rattle.ushanderi.specs.Promises.{FreshSays, CheckSays, FindSays, NeighboursSays, SearchSays, EnumerateSays, DensitySays, CreateSays, DeleteSays, SaveSays, LoadSays};
ghost use Rattle.ushanderi.specs.Answers.{ruler_area};

use table::Part;
use ushanderi::answer::{Answer, MetAnswer};
use ushanderi::host;
use ushanderi::reports::DensityAnswer;

#[unsafe(no_mangle)]
pub extern "C" fn ush_fresh(t: &mut [i32]) -> Answer
    ensures { FreshSays t.old t.new result }
{
    host::ush_fresh(t)
}

#[unsafe(no_mangle)]
pub extern "C" fn ush_check(t: &[i32]) -> Answer
    ensures { CheckSays t.now result }
{
    host::ush_check(t)
}

// A slice cannot be handed to C, so this gives the place of the part that `view` returns.
#[unsafe(no_mangle)]
pub extern "C" fn ush_view(t: &[i32], index: i32) -> Part
    ensures { Places t.now index result.at result.len }
{
    host::ush_view(t, index)
}

#[unsafe(no_mangle)]
pub extern "C" fn ush_find(t: &[i32], x: i32, y: i32, hint: i32) -> Answer
    ensures { FindSays t.now (ruler x) (ruler y) result }
{
    host::ush_find(t, x, y, hint)
}

#[unsafe(no_mangle)]
pub extern "C" fn ush_neighbours(t: &[i32], x: i32, y: i32, side: i32, out: &mut [i32]) -> Answer
    ensures { NeighboursSays t.now (ruler x) (ruler y) side out.old out.new result }
{
    host::ush_neighbours(t, x, y, side, out)
}

#[unsafe(no_mangle)]
pub extern "C" fn ush_search(t: &[i32], left: i32, bottom: i32, right: i32, top: i32) -> MetAnswer
    ensures { SearchSays t.now (ruler_area left bottom right top) result }
{
    host::ush_search(t, left, bottom, right, top)
}

#[unsafe(no_mangle)]
pub extern "C" fn ush_enumerate(
    t: &[i32],
    left: i32,
    bottom: i32,
    right: i32,
    top: i32,
    out: &mut [i32],
) -> Answer
    ensures { EnumerateSays t.now (ruler_area left bottom right top) out.old out.new result }
{
    host::ush_enumerate(t, left, bottom, right, top, out)
}

#[unsafe(no_mangle)]
pub extern "C" fn ush_density(
    t: &[i32],
    left: i32,
    bottom: i32,
    right: i32,
    top: i32,
    width: i32,
    height: i32,
    out: &mut [f64],
) -> DensityAnswer
    ensures { DensitySays t.now (ruler_area left bottom right top) (length_of width) (length_of height) out.old out.new result }
{
    host::ush_density(t, left, bottom, right, top, width, height, out)
}

#[unsafe(no_mangle)]
pub extern "C" fn ush_create(
    t: &mut [i32],
    left: i32,
    bottom: i32,
    right: i32,
    top: i32,
    label: i32,
) -> MetAnswer
    ensures { CreateSays t.old (ruler_area left bottom right top) (ruler label) t.new result }
{
    host::ush_create(t, left, bottom, right, top, label)
}

#[unsafe(no_mangle)]
pub extern "C" fn ush_delete(t: &mut [i32], x: i32, y: i32) -> Answer
    ensures { DeleteSays t.old (ruler x) (ruler y) t.new result }
{
    host::ush_delete(t, x, y)
}

#[unsafe(no_mangle)]
pub extern "C" fn ush_save(t: &[i32], out: &mut [u8]) -> Answer
    ensures { SaveSays t.now out.old out.new result }
{
    host::ush_save(t, out)
}

#[unsafe(no_mangle)]
pub extern "C" fn ush_load(t: &mut [i32], bytes: &[u8]) -> MetAnswer
    ensures { LoadSays t.old bytes.now t.new result }
{
    host::ush_load(t, bytes)
}
