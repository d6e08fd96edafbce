// The numbers of a table, all on the ruler: the plane's ends, the words of a kind, the place of each word in a record.

// How many numbers a word has.
pub const WORDS: u64 = 4294967296;

// The words 0 and -1.
pub const ZERO: u64 = 2147483648;

pub const NONE: u64 = ZERO - 1;

// The plane is every cell (x, y) with LOW <= x < HIGH and LOW <= y < HIGH.
pub const LOW: u64 = ZERO - 16777216;

pub const HIGH: u64 = ZERO + 16777216;

// The kinds are numbers and no enum: they are the words of the lent table, and `Tile` of geometry's specs/Picture and `Forms` state them as those words.
pub const FREE: u64 = ZERO;

pub const SPACE: u64 = ZERO + 1;

pub const SOLID: u64 = ZERO + 2;

// How many records a table may have.
pub const LEAST: usize = 20;

pub const MOST: usize = 4016;

// The words of a record, and the place of each.
pub const WIDTH: usize = 10;

pub const LEFT: usize = 0;

pub const BOTTOM: usize = 1;

pub const RIGHT: usize = 2;

pub const TOP: usize = 3;

pub const TR: usize = 4;

pub const RT: usize = 5;

pub const BL: usize = 6;

pub const LB: usize = 7;

pub const KIND: usize = 8;

pub const LABEL: usize = 9;
