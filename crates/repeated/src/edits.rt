// Create, and delete what was created, again and again.
ghost use Rattle.std.specs.Prelude.{MatchResult, Err};
ghost use Rattle.repeated.specs.Answers.{answer_of};
ghost use Rattle.repeated.specs.Says.{EditSays};
ghost use Rattle.repeated.specs.Edit.{CanEdit, Edited};

use crate::answer::{Answer, Refusal};
use crate::entry::enter;
use crate::often::often;
use crate::search::search_from;
use edit::create::create;
use edit::delete::delete;
use geometry::Paint;
use seek::{Area, Rect};
use table::numbers::{SOLID, WORDS, ZERO};

// Whether the solid can be created.
fn may_edit(t: &[i32], area: Area, label: u64) -> Result<(), Refusal>
    ensures { MatchResult result
        (λ _. CanEdit t.now area.left area.bottom area.right area.top label)
        (λ why. EditSays t.now area.left area.bottom area.right area.top label t.now (answer_of (Err why))) }
{
    let solids = enter(t)?;
    let Some(rect) = Rect::new(area) else {
        return Err(Refusal::Rect);
    };
    if label <= ZERO || label >= WORDS {
        return Err(Refusal::Label);
    }
    let Ok(_) = search_from(t, ZERO, rect) else {
        return Err(Refusal::Occupied);
    };
    if solids < table::capacity(t) {
        Ok(())
    } else {
        Err(Refusal::Full)
    }
}

fn edit_from(t: &mut [i32], hint: u64, area: Area, label: u64) -> usize
    requires { CanEdit t.old area.left area.bottom area.right area.top label }
    ensures { Edited t.old t.new area.left area.bottom area.right area.top label result }
{
    let from = seek::start(t, hint);
    let ink = Paint { kind: SOLID, label };
    let k = create(t, from, from, area, ink);
    delete(t, k);
    k
}

fn edit_often(t: &mut [i32], area: Area, label: u64, times: u32) -> usize
    requires { CanEdit t.old area.left area.bottom area.right area.top label }
    ensures { Edited t.old t.new area.left area.bottom area.right area.top label result }
{
    let mut run = |hint| edit_from(t, hint, area, label);
    often(0, times, &mut run)
}

fn edited(t: &mut [i32], area: Area, label: u64, times: u32) -> Result<u64, Refusal>
    ensures { EditSays t.old area.left area.bottom area.right area.top label t.new (answer_of result) }
{
    may_edit(t, area, label)?;
    let k = edit_often(t, area, label, times);
    Ok(k as u64)
}

#[unsafe(no_mangle)]
pub extern "C" fn rep_edit(
    t: &mut [i32],
    left: u64,
    bottom: u64,
    right: u64,
    top: u64,
    label: u64,
    times: u32,
) -> Answer
    ensures { EditSays t.old left bottom right top label t.new result }
{
    let area = Area {
        left,
        bottom,
        right,
        top,
    };
    edited(t, area, label, times).into()
}
