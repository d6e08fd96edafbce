// Fresh, check and view, each with its promise as its whole contract.
ghost use Rattle.ushanderi.specs.Promises.{FreshSays, CheckSays, ViewSays};

use crate::answer::{Answer, Refusal, answer_of, done};
use crate::entry::admit;

pub fn fresh(t: &mut [i32]) -> Answer
    ensures { FreshSays t.old t.new result }
{
    if table::size_right(t) {
        table::fresh(t);
        done(0)
    } else {
        Answer::from(Refusal::Size)
    }
}

pub fn check(t: &[i32]) -> Answer
    ensures { CheckSays t.now result }
{
    answer_of(admit(t))
}

pub fn view(t: &[i32], index: i32) -> &[i32]
    ensures { ViewSays t.entry index result }
{
    let p = table::place(t, index);
    let at = p.at;
    let end = at + p.len;
    &t[at..end]
}
