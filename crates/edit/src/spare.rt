// Where an edit finds a free record: those that it freed itself, the last one first, and then the records from a place on.
ghost use Rattle.edit.specs.Steps.{FreeIn};
ghost use Rattle.edit.specs.Free.{HasFree, FirstFree, Fewer};

use crate::steps::is_kind;
use table::numbers::{FREE, KIND};

// `next` is where the search among all records goes on. `freed` is a ring of records freed in this edit: the last one is at `top`, the others before
// it. Nothing is promised of them: every record is asked before it is taken.
#[derive(Drop)]
pub(crate) struct Spare {
    next: usize,
    freed: [Option<usize>; KEPT],
    top: usize,
}

// How many records freed are kept. With these moved up and down in the array, and no ring, a create and a delete took up to a fifth longer.
const KEPT: usize = 4;

// The first free record from `from` on.
fn free_from(t: &[i32], from: usize) -> Option<usize>
    ensures { FirstFree t.now from result }
{
    for k in from..table::records(t) {
        if table::word(t, k, KIND) == FREE {
            return Some(k);
        }
    }
    None
}

impl Spare {
    // No record freed yet; all records are searched from `next` on.
    pub(crate) fn new(next: usize) -> Spare {
        Spare {
            next,
            freed: [None; KEPT],
            top: 0,
        }
    }

    // Where record k is free, it is the last one freed; the first of KEPT + 1 is forgotten.
    pub(crate) fn give(&mut self, t: &[i32], k: usize) {
        if is_kind(t, k, FREE) {
            let i = (self.top % KEPT + 1) % KEPT;
            self.freed[i] = Some(k);
            self.top = i;
        }
    }

    // The last one freed, which is then kept no longer.
    fn last(&mut self) -> Option<usize>
        ensures { Fewer self.old.freed self.new.freed result }
    {
        let i = self.top % KEPT;
        let k = self.freed[i];
        self.freed[i] = None;
        self.top = (i + KEPT - 1) % KEPT;
        k
    }

    // A free record: one freed in this edit, or else the first from `next` on, or else the first of all. The next search goes on from there.
    pub(crate) fn take(&mut self, t: &[i32]) -> usize
        requires { HasFree t.now }
        ensures { FreeIn t.now result }
    {
        while let Some(k) = self.last() {
            if is_kind(t, k, FREE) {
                return k;
            }
        }
        let k = match free_from(t, self.next) {
            Some(k) => k,
            None => free_from(t, 0).unwrap(),
        };
        self.next = k;
        k
    }
}
