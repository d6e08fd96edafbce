// Words and saved records as bytes: 32-bit two's complement, low byte first.
ghost use Rattle.std.specs.Prelude.{◌≡◌, ◌+◌, ◌*◌, ◌%◌, ◌≤◌, ◌<◌, ◌^◌, length};
ghost use Rattle.layout.specs.Bytes.{bytes_of, record_bytes, WordAt, SavedIs, SavedFits, SAVED};
ghost use Rattle.layout.specs.Patch.{patch};

use table::numbers::{WORDS, ZERO};

// The bytes of a saved record.
pub const SAVED: usize = 20;

// A saved record's five words as numbers on the ruler. That they fit is no ghost field: `saved_at` of specs/Bytes.antt,
// a reader's page, makes one of five numbers.
#[derive(Clone, Copy)]
pub struct Saved {
    pub left: u64,
    pub bottom: u64,
    pub right: u64,
    pub top: u64,
    pub label: u64,
}

// The word at byte `at`. The shift by ZERO is written out, as in `WordAt` and `bytes_of`, which speak of numbers and of no signed word.
fn word_at(bytes: &[u8], at: usize) -> u64
    requires { at + 4 ≤ length bytes.now }
    ensures { WordAt bytes.now at result }
{
    let w = u32::from_le_bytes([bytes[at], bytes[at + 1], bytes[at + 2], bytes[at + 3]]);
    (u64::from(w) + ZERO) % WORDS
}

// At a place, as `patch` states it.
fn put_word(out: &mut [u8], at: usize, w: u64)
    requires at_in_bounds { at + 4 ≤ length out.old }
    requires w_bound { w < 2 ^ 32 }
    ensures { out.new ≡ patch out.old at (bytes_of w) }
{
    let u = ((w + ZERO) % WORDS) as u32;
    out[at..at + 4].copy_from_slice(&u.to_le_bytes());
}

// Record n of a file.
pub fn read_saved(bytes: &[u8], n: usize) -> Saved
    requires { SAVED * n + SAVED ≤ length bytes.now }
    ensures { SavedIs bytes.now n result }
{
    let at = SAVED * n;
    Saved {
        left: word_at(bytes, at),
        bottom: word_at(bytes, at + 4),
        right: word_at(bytes, at + 8),
        top: word_at(bytes, at + 12),
        label: word_at(bytes, at + 16),
    }
}

pub(crate) fn put_saved(out: &mut [u8], n: usize, s: Saved)
    requires n_in_bounds { SAVED * n + SAVED ≤ length out.old }
    requires saved_fits { SavedFits s }
    ensures { out.new ≡ patch out.old (SAVED * n) (record_bytes s) }
{
    let at = SAVED * n;
    put_word(out, at, s.left);
    put_word(out, at + 4, s.bottom);
    put_word(out, at + 8, s.right);
    put_word(out, at + 12, s.top);
    put_word(out, at + 16, s.label);
}
