// The calls that read a plane: find, neighbours, area search and enumeration.
ghost use Rattle.std.specs.Prelude.{◌≡◌, ◌↔◌, T};
ghost use Rattle.ruler.specs.Ruler.{ruler};
ghost use Rattle.table.specs.Sound.{UsedIn};
ghost use Rattle.seek.specs.Enumerate.{area_of};
ghost use Rattle.ushanderi.specs.Promises.{Fit, FindSays, NeighboursSays, SearchSays, EnumerateSays};
ghost use Rattle.ushanderi.specs.ReadingSides.{SideNumber, SideSays};
ghost use Rattle.ushanderi.specs.Answers.{answer_of, ruler_area};

use crate::answer::{
    Answer, DONE, MetAnswer, NOTHING, Refusal, answer_of, done, refused_with, with_cell,
};
use crate::entry::{admit, admit_rect};
use seek::Rect;
use table::numbers::ZERO;

// Find on a table that passed the checks 1 and 2.
fn find_in(t: &[i32], x: u64, y: u64, hint: u64) -> Result<usize, Refusal>
    requires { Fit t.now }
    ensures { FindSays t.now x y (answer_of result) }
{
    if table::in_plane(x, y) {
        let from = seek::start(t, hint);
        Ok(seek::find(t, from, x, y))
    } else {
        Err(Refusal::Point)
    }
}

// The record that holds the cell, or why there is none.
pub fn find(t: &[i32], x: i32, y: i32, hint: i32) -> Result<usize, Refusal>
    ensures { FindSays t.now (ruler x) (ruler y) (answer_of result) }
{
    admit(t)?;
    find_in(t, ruler::at(x), ruler::at(y), ruler::at(hint))
}

// Whether the number of a word is that of a side.
fn is_side(side: u64) -> bool
    ensures { T result ↔ SideNumber side }
{
    ZERO <= side && side < ZERO + 4
}

// The neighbours of tile i on a side, if the list has room for them.
fn list_side(t: &[i32], i: usize, side: usize, out: &mut [i32]) -> Answer
    requires fit { Fit t.now }
    requires used_in { UsedIn t.now i }
    ensures { SideSays t.now side i out.old out.new result }
{
    let n = seek::count_side(t, i, side);
    if out.len() < n {
        return refused_with(Refusal::Short, n as u64);
    }
    seek::list_side(t, i, side, out);
    done(n as u64)
}

pub fn neighbours(t: &[i32], x: i32, y: i32, side: i32, out: &mut [i32]) -> Answer
    ensures { NeighboursSays t.now (ruler x) (ruler y) side out.old out.new result }
{
    let f = find(t, x, y, 0);
    let Ok(i) = f else {
        return answer_of(f);
    };
    let s = ruler::at(side);
    if is_side(s) {
        list_side(t, i, (s - ZERO) as usize, out)
    } else {
        Answer::from(Refusal::Side)
    }
}

// The solid at an area's first occupied cell, and that cell, on a table that passed the checks 1 and 2.
fn search_in(t: &[i32], rect: Rect) -> MetAnswer
    requires { Fit t.now }
    ensures { SearchSays t.now (area_of rect.area) result }
{
    let from = seek::first_used(t);
    match seek::search(t, from, rect.area) {
        Ok(_) => MetAnswer::from(Answer {
            number: DONE,
            value: NOTHING,
        }),
        Err(met) => with_cell(done(met.tile as u64), met.x, met.y),
    }
}

pub fn search(t: &[i32], left: i32, bottom: i32, right: i32, top: i32) -> MetAnswer
    ensures { SearchSays t.now (ruler_area left bottom right top) result }
{
    match admit_rect(t, left, bottom, right, top) {
        Ok(rect) => search_in(t, rect),
        Err(refusal) => MetAnswer::from(refusal),
    }
}

// The tiles of an area, if the list has room for them. They are at most the records, so that they are counted first only where a list is shorter.
fn enumerate_in(t: &[i32], rect: Rect, out: &mut [i32]) -> Answer
    requires { Fit t.now }
    ensures { EnumerateSays t.now (area_of rect.area) out.old out.new result }
{
    let from = seek::first_used(t);
    if out.len() < table::records(t) {
        let needed = seek::count_area(t, from, rect.area);
        if out.len() < needed {
            return refused_with(Refusal::Short, needed as u64);
        }
    }
    let written = seek::list_area(t, out, from, rect.area);
    done(written as u64)
}

pub fn enumerate(t: &[i32], left: i32, bottom: i32, right: i32, top: i32, out: &mut [i32]) -> Answer
    ensures { EnumerateSays t.now (ruler_area left bottom right top) out.old out.new result }
{
    match admit_rect(t, left, bottom, right, top) {
        Ok(rect) => enumerate_in(t, rect, out),
        Err(refusal) => Answer::from(refusal),
    }
}
