// Answers: what the last run gave or why there was none, and the two words by which C is told.
ghost use Rattle.std.specs.Prelude.{◌≡◌};
ghost use Rattle.repeated.specs.Answers.{answer_of};

// Why the work is not done. The server has a `Refusal` of its own, whose values stand in its answers: this crate does not rest on it.
#[derive(Clone, Copy, Debug, PartialEq, Eq)]
pub enum Refusal {
    Size,
    Unsound,
    Point,
    Rect,
    Label,
    Occupied,
    Full,
    Side,
    // So many places are needed, where that is told.
    Short(u64),
    Step,
}

// 01's number, and the value beside it.
#[repr(C)]
#[derive(Clone, Copy)]
pub struct Answer {
    pub number: u64,
    pub value: u64,
}

impl From<Result<u64, Refusal>> for Answer {
    ghost from_gives = { λ found answer. answer ≡ answer_of found };

    fn from(found: Result<u64, Refusal>) -> Answer {
        let (number, value) = match found {
            Ok(value) => (0, value),
            Err(Refusal::Size) => (1, 0),
            Err(Refusal::Unsound) => (2, 0),
            Err(Refusal::Point) => (3, 0),
            Err(Refusal::Rect) => (4, 0),
            Err(Refusal::Label) => (5, 0),
            Err(Refusal::Occupied) => (6, 0),
            Err(Refusal::Full) => (7, 0),
            Err(Refusal::Side) => (9, 0),
            Err(Refusal::Short(places)) => (10, places),
            Err(Refusal::Step) => (13, 0),
        };
        Answer { number, value }
    }
}
