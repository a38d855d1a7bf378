// Tokens whose columns are known between two ends, and how many choices of columns that leaves.
#![tactic(auto)]

ghost use Rattle.std.specs.Prelude.{◌≡◌};
ghost use Rattle.column_ranges.specs.Ranges.{columns};
ghost use Rattle.column_ranges.specs.RangeSentences.{ranges_of, EndsOrdered, Spread};
ghost use Rattle.column_ranges.specs.RangeSentences.{CountsChoices};

use grammar::{Column, Line};

// A terminal on a line, its column known between two ends.
#[derive(Clone, Copy)]
pub struct RangeToken {
    pub terminal: u8,
    pub line: Line,
    pub low: Column,
    pub high: Column,
}

// The first `count` of the tokens.
#[derive(Clone, Copy)]
pub struct RangeSentence {
    pub tokens: [RangeToken; 64],
    pub count: usize,
}

// How many columns the ends allow.
pub fn columns(t: RangeToken) -> usize
    requires { EndsOrdered t }
    ensures { result ≡ columns t }
{
    let low = t.low.0;
    let high = t.high.0;
    (high - low) as usize + 1
}

// How many choices the ends allow; above the limit of 65,536 the product is left as it is.
pub fn count(r: RangeSentence) -> usize
    requires { Spread r }
    ensures { CountsChoices (ranges_of r) result }
{
    let mut m: usize = 1;
    for i in (0..r.count).rev() {
        let t = r.tokens[i];
        m = m * columns(t);
        if 65536 < m {
            return m;
        }
    }
    m
}
