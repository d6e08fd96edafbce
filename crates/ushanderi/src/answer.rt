// Answers: 01's numbers by name, each once, the value beside them, and the cell that some calls name.
ghost use Rattle.std.specs.Prelude.{◌≡◌, ◌<◌, ◌^◌, pos};
ghost use Rattle.ushanderi.specs.Answers.{accepted, answer_of, answered, refused, number_of, with_cell, without_cell};
ghost use Rattle.ushanderi.specs.Reading.{Low};

// C's two words.
#[repr(C)]
#[derive(Clone, Copy)]
pub struct Answer {
    pub number: i32,
    pub value: i32,
}

// An answer that also names a cell: the first occupied one, where a search or a create was stopped by it. C has it as four words, so it is no Answer with a cell beside it.
#[repr(C)]
#[derive(Clone, Copy)]
pub struct MetAnswer {
    pub number: i32,
    pub value: i32,
    pub x: i32,
    pub y: i32,
}

// C's number of an accepted call: no case of `Refusal`, which is why a call did not go on.
pub const DONE: i32 = 0;

// Area search's value where the rectangle is free: C's answer has one word for it and for a record's number.
pub(crate) const NOTHING: i32 = -1;

// Why a call is refused: 01's and 02's names and numbers. 12 is never answered: a sound table has a free record.
#[derive(Clone, Copy, Debug, PartialEq, Eq)]
pub enum Refusal {
    Size = 1,
    Unsound = 2,
    Point = 3,
    Rect = 4,
    Label = 5,
    Occupied = 6,
    Full = 7,
    Space = 8,
    Side = 9,
    Short = 10,
    File = 11,
    Step = 13,
}

impl Refusal {
    pub fn number(self) -> i32
        ensures { result ≡ pos (number_of self) }
    {
        self as i32
    }
}

// The value of a refusal is 0 unless said.
impl From<Refusal> for Answer {
    ghost from_gives = { λ r a. a ≡ refused (number_of r) };

    fn from(refusal: Refusal) -> Answer {
        Answer {
            number: refusal.number(),
            value: 0,
        }
    }
}

// An answer that names no cell has 0 and 0.
impl From<Answer> for MetAnswer {
    ghost from_gives = { λ a m. m ≡ without_cell a };

    fn from(a: Answer) -> MetAnswer {
        MetAnswer {
            number: a.number,
            value: a.value,
            x: 0,
            y: 0,
        }
    }
}

impl From<Refusal> for MetAnswer {
    ghost from_gives = { λ r m. m ≡ without_cell (refused (number_of r)) };

    fn from(refusal: Refusal) -> MetAnswer {
        MetAnswer::from(Answer::from(refusal))
    }
}

// A refusal that says a count, or a record's number.
pub(crate) fn refused_with(refusal: Refusal, value: u64) -> Answer
    requires { value < 2 ^ 31 }
    ensures { result ≡ answered (number_of refusal) value }
{
    Answer {
        number: refusal.number(),
        value: ruler::count(value),
    }
}

// The value is a count, or a record's number. A report, with other words in C, has its own `done` and `refused_with`.
pub(crate) fn done(value: u64) -> Answer
    requires { value < 2 ^ 31 }
    ensures { result ≡ accepted value }
{
    Answer {
        number: DONE,
        value: ruler::count(value),
    }
}

// A result by its number and value.
pub(crate) fn answer_of(r: Result<usize, Refusal>) -> Answer
    requires { Low r }
    ensures { result ≡ answer_of r }
{
    match r {
        Ok(value) => done(value as u64),
        Err(refusal) => Answer::from(refusal),
    }
}

// The cell of a search, from the ruler.
pub(crate) fn with_cell(a: Answer, x: u64, y: u64) -> MetAnswer
    requires x_bound { x < 2 ^ 32 }
    requires y_bound { y < 2 ^ 32 }
    ensures { result ≡ with_cell a x y }
{
    MetAnswer {
        number: a.number,
        value: a.value,
        x: ruler::word_at(x),
        y: ruler::word_at(y),
    }
}
