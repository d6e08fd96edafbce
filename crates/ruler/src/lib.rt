// The ruler: a word, an i32, as the natural number that is 2^31 more. Functions and no `From`: both types are the language's own.
#![tactic(auto)]

ghost use Rattle.std.specs.Prelude.{◌≡◌, ◌<◌, ◌^◌, pos};
ghost use Rattle.ruler.specs.Ruler.{AtIs, bits, length_of, ruler, word};

pub fn at(x: i32) -> u64
    ensures { AtIs x result }
{
    let wide = x as i64;
    (wide + 2147483648) as u64
}

// A word's 32 bits as a number without a sign: 0 and the positive words are themselves, and the negative ones come after them.
pub fn bits(x: i32) -> u64
    ensures { result ≡ bits (ruler x) }
{
    x.cast_unsigned() as u64
}

pub fn word_at(n: u64) -> i32
    requires { n < 2 ^ 32 }
    ensures { result ≡ word n }
{
    let wide = n as i64;
    (wide - 2147483648) as i32
}

// A count as a word.
pub fn count(n: u64) -> i32
    requires { n < 2 ^ 31 }
    ensures { result ≡ pos n }
{
    n as i32
}

// A count as a word of 64 bits. A cast names its type, so that one function for both would need a trait of casts.
pub fn long_count(n: u64) -> i64
    requires { n < 2 ^ 63 }
    ensures { result ≡ pos n }
{
    n as i64
}

// A word as a length.
pub fn length(x: i32) -> u64
    ensures { result ≡ length_of x }
{
    at(x).saturating_sub(2147483648)
}
