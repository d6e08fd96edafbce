// What is asked once, before the work: that the table is sound.
ghost use Rattle.repeated.specs.Entry.{Enters};

use crate::answer::Refusal;

// How many solids the table has, or what is wrong with it. The server's `admit` says as much: this crate does not rest on the calls that it measures.
pub(crate) fn enter(t: &[i32]) -> Result<usize, Refusal>
    ensures { Enters t.now result }
{
    if !table::size_right(t) {
        return Err(Refusal::Size);
    }
    sound::check(t).ok_or(Refusal::Unsound)
}
