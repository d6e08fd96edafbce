// The same calls by C names: each does what the call of its name does, and its contract is that call's promise. The crate `ushanderi_c` exports them, since no
// crate can rest on one that exports.
ghost use Rattle.ruler.specs.Ruler.{length_of, ruler};
ghost use Rattle.table.specs.View.{Places};
ghost use Rattle.ushanderi.specs.Promises.{FreshSays, CheckSays, FindSays, NeighboursSays, SearchSays, EnumerateSays, DensitySays, CreateSays, DeleteSays, SaveSays, LoadSays};
ghost use Rattle.ushanderi.specs.Answers.{ruler_area};

use crate::answer::{Answer, MetAnswer, answer_of};
use crate::reports::DensityAnswer;
use crate::{editing, layouts, plane, reading, reports};
use table::Part;

pub fn ush_fresh(t: &mut [i32]) -> Answer
    ensures { FreshSays t.old t.new result }
{
    plane::fresh(t)
}

pub fn ush_check(t: &[i32]) -> Answer
    ensures { CheckSays t.now result }
{
    plane::check(t)
}

// A slice cannot be handed to C, so this gives the place of the part that `view` returns.
pub fn ush_view(t: &[i32], index: i32) -> Part
    ensures { Places t.now index result.at result.len }
{
    table::place(t, index)
}

pub fn ush_find(t: &[i32], x: i32, y: i32, hint: i32) -> Answer
    ensures { FindSays t.now (ruler x) (ruler y) result }
{
    answer_of(reading::find(t, x, y, hint))
}

pub fn ush_neighbours(t: &[i32], x: i32, y: i32, side: i32, out: &mut [i32]) -> Answer
    ensures { NeighboursSays t.now (ruler x) (ruler y) side out.old out.new result }
{
    reading::neighbours(t, x, y, side, out)
}

pub fn ush_search(t: &[i32], left: i32, bottom: i32, right: i32, top: i32) -> MetAnswer
    ensures { SearchSays t.now (ruler_area left bottom right top) result }
{
    reading::search(t, left, bottom, right, top)
}

pub fn ush_enumerate(
    t: &[i32],
    left: i32,
    bottom: i32,
    right: i32,
    top: i32,
    out: &mut [i32],
) -> Answer
    ensures { EnumerateSays t.now (ruler_area left bottom right top) out.old out.new result }
{
    reading::enumerate(t, left, bottom, right, top, out)
}

pub fn ush_density(
    t: &[i32],
    left: i32,
    bottom: i32,
    right: i32,
    top: i32,
    width: i32,
    height: i32,
    out: &mut [f64],
) -> DensityAnswer
    ensures { DensitySays t.now (ruler_area left bottom right top) (length_of width) (length_of height) out.old out.new result }
{
    reports::density(t, left, bottom, right, top, width, height, out)
}

pub fn ush_create(
    t: &mut [i32],
    left: i32,
    bottom: i32,
    right: i32,
    top: i32,
    label: i32,
) -> MetAnswer
    ensures { CreateSays t.old (ruler_area left bottom right top) (ruler label) t.new result }
{
    editing::create(t, left, bottom, right, top, label)
}

pub fn ush_delete(t: &mut [i32], x: i32, y: i32) -> Answer
    ensures { DeleteSays t.old (ruler x) (ruler y) t.new result }
{
    editing::delete(t, x, y)
}

pub fn ush_save(t: &[i32], out: &mut [u8]) -> Answer
    ensures { SaveSays t.now out.old out.new result }
{
    layouts::save(t, out)
}

pub fn ush_load(t: &mut [i32], bytes: &[u8]) -> MetAnswer
    ensures { LoadSays t.old bytes.now t.new result }
{
    layouts::load(t, bytes)
}
