// The calls that change a plane: create and delete. Each decides first, which only reads, and then acts.
ghost use Rattle.std.specs.Prelude.{◌<◌, ◌^◌};
ghost use Rattle.ruler.specs.Ruler.{ruler};
ghost use Rattle.table.specs.Sound.{UsedIn, SolidIn};
ghost use Rattle.seek.specs.Enumerate.{area_of};
ghost use Rattle.ushanderi.specs.Promises.{Fit, CreateAllows, CreateDone, CreateSays, DeleteSays};
ghost use Rattle.ushanderi.specs.Editing.{CreateDecides, CreateEnds, DeleteDecides, Ready, Taken};
ghost use Rattle.ushanderi.specs.Answers.{ruler_area};

use crate::answer::{Answer, MetAnswer, Refusal, answer_of, done, refused_with, with_cell};
use crate::entry::{admit, area};
use crate::reading::find;
use geometry::Paint;
use seek::{Area, Rect};
use table::numbers;

// The decision on a table that is known to be sound and to have so many solids: 4, 5, 6, 7. The tile at which the search ended, where the new solid
// begins, or the refusal as it goes out. The search starts at the tile `from`. Area and label stay two values, as the promises name them.
fn may_create(
    t: &[i32],
    from: usize,
    area: Area,
    label: u64,
    solids: usize,
) -> Result<usize, MetAnswer>
    requires { Ready t.now from label solids }
    ensures { CreateDecides t.now (area_of area) label result }
{
    let rect = Rect::new(area).ok_or(Refusal::Rect)?;
    if label <= numbers::ZERO {
        return Err(MetAnswer::from(Refusal::Label));
    }
    match seek::search(t, from, rect.area) {
        Err(met) => Err(with_cell(
            refused_with(Refusal::Occupied, met.tile as u64),
            met.x,
            met.y,
        )),
        Ok(last) => {
            if solids < table::capacity(t) {
                Ok(last)
            } else {
                Err(MetAnswer::from(Refusal::Full))
            }
        }
    }
}

// The act, where the decision lets it go on: the new solid's record. Free records are sought near the record `near`.
fn draw(t: &mut [i32], near: usize, from: usize, area: Area, label: u64) -> usize
    requires used_in { UsedIn t.old from }
    requires label_bound { label < 2 ^ 32 }
    requires create_allows { CreateAllows t.old (area_of area) label }
    ensures { CreateDone t.old (area_of area) label t.new result }
{
    edit::create::create(
        t,
        near,
        from,
        area,
        Paint {
            kind: numbers::SOLID,
            label,
        },
    )
}

// One create on a table that is known to be sound and to have so many solids: the decision, then the act. The new solid's record.
pub(crate) fn create_one(
    t: &mut [i32],
    from: usize,
    area: Area,
    label: u64,
    solids: usize,
) -> Result<usize, MetAnswer>
    requires { Ready t.old from label solids }
    ensures { CreateEnds t.old (area_of area) label t.new result }
{
    let last = may_create(t, from, area, label, solids)?;
    Ok(draw(t, from, last, area, label))
}

// A create on any table: the new solid's record, or the refusal as it goes out.
fn create_any(
    t: &mut [i32],
    left: i32,
    bottom: i32,
    right: i32,
    top: i32,
    label: i32,
) -> Result<usize, MetAnswer>
    ensures { CreateEnds t.old (ruler_area left bottom right top) (ruler label) t.new result }
{
    let solids = admit(t)?;
    let from = seek::first_used(t);
    create_one(
        t,
        from,
        area(left, bottom, right, top),
        ruler::at(label),
        solids,
    )
}

pub fn create(t: &mut [i32], left: i32, bottom: i32, right: i32, top: i32, label: i32) -> MetAnswer
    ensures { CreateSays t.old (ruler_area left bottom right top) (ruler label) t.new result }
{
    match create_any(t, left, bottom, right, top, label) {
        Ok(k) => MetAnswer::from(done(k as u64)),
        Err(refusal) => refusal,
    }
}

// The decision: 1, 2, 3, 8. 12 never holds: a sound table has a free record. The solid to take away, or the refusal as it goes out.
fn may_delete(t: &[i32], x: i32, y: i32) -> Result<usize, Answer>
    ensures { DeleteDecides t.now (ruler x) (ruler y) result }
{
    let f = find(t, x, y, 0);
    let Ok(i) = f else {
        return Err(answer_of(f));
    };
    if table::word(t, i, numbers::KIND) == numbers::SOLID {
        Ok(i)
    } else {
        Err(Answer::from(Refusal::Space))
    }
}

// The act: the label of the solid taken away.
fn remove(t: &mut [i32], i: usize) -> u64
    requires fit { Fit t.old }
    requires solid_in { SolidIn t.old i }
    ensures { Taken t.old i t.new result }
{
    let label = table::word(t, i, numbers::LABEL);
    edit::delete::delete(t, i);
    label - numbers::ZERO
}

pub fn delete(t: &mut [i32], x: i32, y: i32) -> Answer
    ensures { DeleteSays t.old (ruler x) (ruler y) t.new result }
{
    match may_delete(t, x, y) {
        Ok(i) => done(remove(t, i)),
        Err(refusal) => refusal,
    }
}
