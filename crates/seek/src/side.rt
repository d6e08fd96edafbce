// The sides of a tile, and the walk along one: it meets the tile's neighbours there, each once, in 01's order.
ghost use Rattle.std.specs.Prelude.{◌≡◌, ◌+◌, ◌*◌, ◌<◌, length};
ghost use Rattle.table.specs.Words.{WIDTH, num};
ghost use Rattle.table.specs.Sound.{SizeRight, UsedIn};
ghost use Rattle.table.specs.Forms.{Forms};
ghost use Rattle.seek.specs.Neighbours.{side_of};
ghost use Rattle.seek.specs.Walk.{side_in, words_of, seen_at, Begins, Goes, Steps};

use table::follow;
use table::numbers::{BL, BOTTOM, HIGH, LB, LEFT, LOW, RIGHT, RT, TOP, TR};

// The sum of the plane's two ends: a number and the same seen from the other side add up to it.
const TURN: u64 = LOW + HIGH;

// A tile's sides in 01's order.
#[derive(Clone, Copy)]
pub(crate) enum Side {
    Right,
    Left,
    Top,
    Bottom,
}

// The side with 01's number; every number has one, so that a caller need not ask first.
impl From<usize> for Side {
    ghost from_gives = { λ n s. side_in s ≡ side_of n };

    #[tactic(auto, using(crate::specs::Walk::last_side), unfolding(crate::specs::Neighbours::side_of))]
    fn from(n: usize) -> Side {
        match n {
            0 => Side::Right,
            1 => Side::Left,
            2 => Side::Top,
            _ => Side::Bottom,
        }
    }
}

// The words that a walk along one side reads: the stitch that it starts with, the one that it goes on by, the number that it compares with
// where to stop, and the tile's own edge. On two sides the numbers rise along the walk: a bool, since `seen_at` of specs/Walk states it so.
#[derive(Clone, Copy)]
pub(crate) struct SideWords {
    pub start: usize,
    pub next: usize,
    pub edge: usize,
    pub rim: usize,
    pub rises: bool,
}

impl Side {
    fn words(self) -> SideWords
        ensures { result ≡ words_of (side_in self) }
    {
        match self {
            Side::Right => SideWords {
                start: TR,
                next: LB,
                edge: BOTTOM,
                rim: RIGHT,
                rises: false,
            },
            Side::Left => SideWords {
                start: BL,
                next: RT,
                edge: TOP,
                rim: LEFT,
                rises: true,
            },
            Side::Top => SideWords {
                start: RT,
                next: BL,
                edge: LEFT,
                rim: TOP,
                rises: false,
            },
            Side::Bottom => SideWords {
                start: LB,
                next: TR,
                edge: RIGHT,
                rim: BOTTOM,
                rises: true,
            },
        }
    }
}

// Word k of record i as a number that falls along the walk.
fn seen(t: &[i32], i: usize, k: usize, rises: bool) -> u64
    requires { WIDTH * i + k < length t.now }
    ensures { result ≡ seen_at rises (num t.now i k) }
{
    let n = table::word(t, i, k);
    if rises { TURN - n } else { n }
}

// A walk: it stands at the neighbour `at`, or has come to its end. It stops where a tile reaches the number `stop`. By 01's forms by place it is a struct
// whose step takes mut self, and so no iterator.
#[derive(Clone, Copy)]
pub(crate) struct Walk {
    pub at: Option<usize>,
    pub stop: u64,
    pub next: usize,
    pub edge: usize,
    pub rises: bool,
}

// The walk along a side of tile i, at its first neighbour.
pub(crate) fn along(t: &[i32], i: usize, side: Side) -> Walk
    requires forms { Forms t.now }
    requires size_right { SizeRight t.now }
    requires used_in { UsedIn t.now i }
    ensures { Begins t.now (side_in side) i result }
{
    let SideWords {
        start,
        next,
        edge,
        rim,
        rises,
    } = side.words();
    let ended = Walk {
        at: None,
        stop: seen(t, i, edge, rises),
        next,
        edge,
        rises,
    };
    if seen(t, i, rim, rises) >= HIGH {
        return ended;
    }
    Walk {
        at: Some(follow(t, i, start)),
        ..ended
    }
}

impl Walk {
    // To the next neighbour, or to the end.
    pub fn step(mut self, t: &[i32]) -> Walk
        requires forms { Forms t.now }
        requires size_right { SizeRight t.now }
        requires goes { Goes t.now self }
        ensures { Steps t.now self result }
    {
        let Some(k) = self.at else {
            return self;
        };
        self.at = if seen(t, k, self.edge, self.rises) <= self.stop {
            None
        } else {
            Some(follow(t, k, self.next))
        };
        self
    }
}
