// The lister's input: the bytes of a saved layout, or that they cannot be read.
ghost use Rattle.std.specs.Prelude.{◌≡◌, IfSome, length};
ghost use Rattle.lister.specs.Sizes.{BYTES, Within, Reads};

use std::io;
use std::io::Read;

// Reads until the lent bytes are full or the input ends: how many bytes came. A read that fails is no end of the input.
pub(crate) fn read_layout<I: Read>(input: &mut I, bytes: &mut [u8]) -> io::Result<usize>
    requires { length bytes.old ≡ BYTES }
    ensures within { Within result bytes.new }
    ensures reads { IfSome (I.remaining input.old) (Reads result bytes.new) }
{
    let mut done = 0;
    while done < bytes.len() {
        let more = input.read(&mut bytes[done..])?;
        if more == 0 {
            return Ok(done);
        }
        done += more;
    }
    Ok(done)
}
