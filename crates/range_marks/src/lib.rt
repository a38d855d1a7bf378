// What a span of ranges leaves to a rule: what may hold of some columns within the ends. With the
// ends exchanged it is what must hold of all of them, and where each token has one column, what
// holds.
#![tactic(auto)]

ghost use Rattle.std.specs.Prelude.{◌≡◌, ◌≤◌, ◌<◌, length};
ghost use Rattle.sets.specs.Says.{Says};
ghost use Rattle.column_ranges.specs.RangeSentences.{ranges_of};
ghost use Rattle.range_marks.specs.RangeMarks.{Overlap, first_of, Stretched, exchanged};
ghost use Rattle.range_marks.specs.RangeMarks.{exchanged_all};

use column_ranges::{RangeSentence, RangeToken};
use grammar::column_before;
use marks::{SpanMarks, first_marks, included, with_next};
use narrowing::{high_token, low_token};

// The marks of one token.
pub fn first_of(t: RangeToken) -> SpanMarks
    ensures { result ≡ first_of t }
{
    first_marks(t.terminal, t.low)
}

// Is a column within the ends of both?
fn overlap(a: RangeToken, b: RangeToken) -> bool
    ensures { Says result (Overlap a b) }
{
    !column_before(b.high, a.low) && !column_before(a.high, b.low)
}

// The marks of `left` tokens from `a` to `z`, with the token `t` after them: the first token in its
// lowest column, the others in their highest; align may hold where two tokens share a column.
pub fn stretched(
    k: SpanMarks,
    a: RangeToken,
    z: RangeToken,
    t: RangeToken,
    left: usize,
) -> SpanMarks
    requires { left < 64 }
    ensures { Stretched k a z t left result }
{
    let x = low_token(a);
    let y = high_token(z);
    let v = high_token(t);
    let m = with_next(k, x, y, v, left, 0, 1);
    SpanMarks {
        align: included(k.align, left, overlap(a, t)),
        ..m
    }
}

// The token with its ends exchanged.
fn exchange(t: RangeToken) -> RangeToken
    ensures { result ≡ exchanged t }
{
    RangeToken {
        low: t.high,
        high: t.low,
        ..t
    }
}

// The ranges with their ends exchanged.
pub fn exchanged_ends(r: RangeSentence) -> RangeSentence
    requires { (r.count ≤ 64) × (length (ranges_of r) ≡ r.count) }
    ensures { (result.count ≡ r.count) × (ranges_of result ≡ exchanged_all (ranges_of r)) }
{
    let mut tokens = r.tokens;
    for i in 0..r.count {
        tokens[i] = exchange(r.tokens[i]);
    }
    RangeSentence { tokens, ..r }
}
