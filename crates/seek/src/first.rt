// A tile to start a search from.
ghost use Rattle.table.specs.Forms.{Forms};
ghost use Rattle.seek.specs.Start.{FirstUsed, Starts};

use table::numbers::{FREE, KIND, ZERO};

pub fn first_used(t: &[i32]) -> usize
    requires { Forms t.now }
    ensures { FirstUsed t.now result }
{
    for i in 0..table::records(t) {
        if table::word(t, i, KIND) != FREE {
            return i;
        }
    }
    unreachable!()
}

// The record that a hint, a word's number, names, where that is a used one; else the first used record.
pub fn start(t: &[i32], hint: u64) -> usize
    requires { Forms t.now }
    ensures { Starts t.now hint result }
{
    if hint >= ZERO {
        let i = (hint - ZERO) as usize;
        if i < table::records(t) && table::word(t, i, KIND) != FREE {
            return i;
        }
    }
    first_used(t)
}
