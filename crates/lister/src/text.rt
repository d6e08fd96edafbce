// The lister's lines: words and numbers in decimal, put one behind the other into lent bytes.
// A line is no `Display`: a `fmt` promises its text only where it returns Ok, and `Lists` promises the text of every input.
ghost use Rattle.std.specs.Prelude.{◌≡◌, ◌+◌, ◌*◌, ◌≤◌, ◌<◌, ◌^◌, length};
ghost use Rattle.std.specs.List.{All};
ghost use Rattle.table.specs.Reading.{Fits};
ghost use Rattle.lister.specs.Sizes.{LINE};
ghost use Rattle.lister.specs.Text.{kind_text, spaced, line_of, refused_line};
ghost use Rattle.lister.specs.TextLaws.{Adds, row, tile};

use itoa::Buffer;
use table::Record;
use table::numbers::SOLID;

// Lent bytes, and how many of them are written.
#[derive(Drop)]
pub(crate) struct Text<'a> {
    out: &'a mut [u8],
    at: usize,
}

// The word of a kind: every one but a solid's is space.
fn kind_name(kind: u64) -> &'static [u8]
    ensures name { result.now ≡ kind_text kind }
    ensures bound { length result.now ≤ 7 }
{
    if kind == SOLID { b"solid" } else { b"space" }
}

impl<'a> Text<'a> {
    pub(crate) fn new(out: &'a mut [u8]) -> Text<'a>
        ensures same_reference { result.out.ghost_name ≡ out.entry.ghost_name }
        ensures bytes { result.out.now ≡ out.old }
        ensures empty { result.at ≡ 0 }
    {
        Text { out, at: 0 }
    }

    pub(crate) fn len(&self) -> usize
        ensures { result ≡ self.now.at }
    {
        self.at
    }

    fn put(&mut self, piece: &[u8])
        requires { self.old.at + length piece.now ≤ length self.old.out.now }
        ensures { Adds self.old piece.now self.new }
    {
        let end = self.at + piece.len();
        self.out[self.at..end].copy_from_slice(piece);
        self.at = end;
    }

    // A space, and the signed word whose ruler number is w.
    fn put_spaced(&mut self, w: u64)
        requires room { self.old.at + 12 ≤ length self.old.out.now }
        requires w_bound { w < 2 ^ 32 }
        ensures puts { Adds self.old (spaced w) self.new }
        ensures upper_bound { self.new.at ≤ self.old.at + 12 }
    {
        self.put(b" ");
        self.put(Buffer::new().format(ruler::word_at(w)).as_bytes());
    }

    // A line: a name, and words on the ruler.
    fn put_row(&mut self, name: &[u8], words: &[u64])
        requires name_bound { length name.now ≤ 7 }
        requires words_bound { All (λ w. w < 2 ^ 32) words.now }
        requires room { self.old.at + 8 + 12 * length words.now ≤ length self.old.out.now }
        ensures puts { Adds self.old (row name.now words.now) self.new }
        ensures upper_bound { self.new.at ≤ self.old.at + 8 + 12 * length words.now }
    {
        self.put(name);
        for w in words {
            self.put_spaced(*w);
        }
        self.put(b"\n");
    }

    // A tile's line.
    pub(crate) fn put_line(&mut self, v: Record)
        requires room { self.old.at + LINE ≤ length self.old.out.now }
        requires v_bound { Fits v }
        ensures puts { Adds self.old (line_of (tile v)) self.new }
        ensures upper_bound { self.new.at ≤ self.old.at + LINE }
    {
        let words = [v.label, v.left, v.bottom, v.right, v.top];
        self.put_row(kind_name(v.kind), &words);
    }

    // The line of a refused load: number and value are words on the ruler.
    pub(crate) fn put_refused(&mut self, number: u64, value: u64)
        requires room { self.old.at + LINE ≤ length self.old.out.now }
        requires number_bound { (number < 2 ^ 32) × (value < 2 ^ 32) }
        ensures puts { Adds self.old (refused_line number value) self.new }
        ensures upper_bound { self.new.at ≤ self.old.at + LINE }
    {
        self.put_row(b"refused", &[number, value]);
    }
}
