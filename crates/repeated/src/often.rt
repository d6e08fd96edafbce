// The same work again and again, each time from another hint.
ghost use Rattle.std.specs.Prelude.{◌+◌, Some};
ghost use Rattle.geometry.specs.Picture.{ZERO};
ghost use Rattle.repeated.specs.Often.{Often};

use table::numbers::ZERO;

// The step 1 + `times` times, the first from the record `from` and each from the next: what the last run gives.
pub(crate) fn often<R: Copy, F: FnMut(u64) -> R>(from: u32, times: u32, step: &mut F) -> R
    requires { F.IsAlwaysCallable step.old }
    ensures { Often (λ f h r g. F.step f h r g) (from + ZERO) step.old (from + ZERO + 1 + times) (Some result) step.new }
{
    let first = from as u64 + ZERO;
    let mut last = None;
    for hint in first..first + 1 + times as u64 {
        last = Some(step(hint));
    }
    last.unwrap()
}
