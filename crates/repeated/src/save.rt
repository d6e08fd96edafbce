// Save, again and again.
ghost use Rattle.std.specs.Prelude.{◌*◌, ◌≤◌, length};
ghost use Rattle.table.specs.Sound.{solids_in};
ghost use Rattle.layout.specs.Order.{Saves};
ghost use Rattle.layout.specs.Bytes.{SAVED};
ghost use Rattle.repeated.specs.Entry.{Fit};
ghost use Rattle.repeated.specs.Answers.{answer_of};
ghost use Rattle.repeated.specs.Says.{SaveSays};

use crate::answer::{Answer, Refusal};
use crate::entry::enter;
use crate::often::often;
use layout::SAVED;

fn save_often(t: &[i32], bytes: &mut [u8], times: u32) -> usize
    requires fit { Fit t.now }
    requires t_in_bounds { SAVED * solids_in t.now ≤ length bytes.old }
    ensures { Saves t.now bytes.old bytes.new result }
{
    let mut run = |_| layout::save(t, bytes);
    often(0, times, &mut run)
}

fn saved(t: &[i32], bytes: &mut [u8], times: u32) -> Result<u64, Refusal>
    ensures { SaveSays t.now bytes.old bytes.new (answer_of result) }
{
    let solids = enter(t)?;
    // C is told no number of bytes here (`SaveSays`).
    if bytes.len() / SAVED < solids {
        return Err(Refusal::Short(0));
    }
    let n = save_often(t, bytes, times);
    Ok(n as u64)
}

#[unsafe(no_mangle)]
pub extern "C" fn rep_save(t: &[i32], bytes: &mut [u8], times: u32) -> Answer
    ensures { SaveSays t.now bytes.old bytes.new result }
{
    saved(t, bytes, times).into()
}
