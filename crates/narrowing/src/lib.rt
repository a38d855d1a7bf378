// Ranges that are narrowed, a token at a time, until one choice of columns is left.
#![tactic(auto)]

ghost use Rattle.std.specs.Prelude.{◌≡◌, ◌⊎◌, ◌≤◌, ◌<◌, length, Some, IfSome};
ghost use Rattle.sets.specs.Says.{Says};
ghost use Rattle.grammar.specs.Sentences.{spelled};
ghost use Rattle.column_ranges.specs.Ranges.{columns as columnsOf};
ghost use Rattle.column_ranges.specs.RangeSentences.{range, ranges_of, Spread};
ghost use Rattle.narrowing.specs.Narrowing.{standing, low_token, high_token, lowest, MayRise};
ghost use Rattle.narrowing.specs.Narrowing.{Picks, SinglesFrom, PicksFirst, PicksLast};
ghost use Rattle.narrowing.specs.Narrowing.{Narrows};

use column_ranges::{RangeSentence, RangeToken, columns};
use grammar::{Column, Line, Sentence, Token, Width};
use sheets::comes_after;

// The token in the column.
fn put(t: RangeToken, column: Column) -> Token
    ensures { result ≡ standing t column.0 }
{
    let line = t.line;
    Token {
        terminal: t.terminal,
        line,
        column,
        width: Width(1),
    }
}

// The token in its lowest column.
pub fn low_token(t: RangeToken) -> Token
    ensures { result ≡ low_token t }
{
    let low = t.low;
    put(t, low)
}

// The token in its highest column.
pub fn high_token(t: RangeToken) -> Token
    ensures { result ≡ high_token t }
{
    let high = t.high;
    put(t, high)
}

// Can each token come after the one before, the one in its lowest column and the other in its
// highest?
pub fn may_rise(r: RangeSentence) -> bool
    requires { Spread r }
    ensures { Says result (MayRise (ranges_of r)) }
{
    for k in 1..r.count {
        let a = low_token(r.tokens[k - 1]);
        let b = high_token(r.tokens[k]);
        if !comes_after(a, b) {
            return false;
        }
    }
    true
}

// In how many of n tokens' spans is the token at k?
fn spans_over(n: usize, k: usize) -> usize
    requires { (n < 65) × (k < n) }
{
    (k + 1) * (n - k)
}

// Of `best`, if there is one, and k, the one in more spans.
fn wider(n: usize, best: Option<usize>, k: usize) -> usize
    requires { (n < 65) × (k < n) × IfSome best (λ b. b < n) }
    ensures { (result ≡ k) ⊎ (best ≡ Some result) }
{
    match best {
        None => k,
        Some(b) => {
            if spans_over(n, b) < spans_over(n, k) {
                k
            } else {
                b
            }
        }
    }
}

// So many columns are several.
const SEVERAL: usize = 2;

// The token to narrow next, of those with several columns: the one in most spans, so that the one
// in the fewest is narrowed last and moves from choice to choice.
pub fn next_token(r: RangeSentence) -> Option<usize>
    requires { Spread r }
    ensures { Picks (ranges_of r) result }
{
    let n = r.count;
    let mut best = None;
    for k in 0..n {
        if columns(r.tokens[k]) < SEVERAL {
            continue;
        }
        best = Some(wider(n, best, k));
    }
    best
}

// The last token with several columns, which stands before `to`.
pub fn last_token(r: RangeSentence, to: usize) -> Option<usize>
    requires spread { Spread r × (to ≤ r.count) }
    requires singles_from { SinglesFrom (ranges_of r) to }
    ensures { PicksLast (ranges_of r) to result }
{
    for k in (0..to).rev() {
        if 1 < columns(r.tokens[k]) {
            return Some(k);
        }
    }
    None
}

// The first token with several columns.
pub fn first_token(r: RangeSentence) -> Option<usize>
    requires { Spread r }
    ensures { PicksFirst (ranges_of r) result }
{
    for k in 0..r.count {
        if 1 < columns(r.tokens[k]) {
            return Some(k);
        }
    }
    None
}

// The ranges with the token at t in the column that stands c past its lower end.
pub fn narrowed(r: RangeSentence, t: usize, c: usize) -> RangeSentence
    requires spread { Spread r × (t < r.count) }
    requires c_bound { c < columnsOf (range (ranges_of r) t) }
    ensures { Narrows r t c result }
{
    let a = r.tokens[t];
    let line = a.line;
    let x = a.low.0 + c as u16;
    let mut tokens = r.tokens;
    tokens[t] = RangeToken {
        terminal: a.terminal,
        line,
        low: Column(x),
        high: Column(x),
    };
    let count = r.count;
    RangeSentence { tokens, count }
}

// Token places of nothing.
fn no_tokens() -> [Token; 64]
    ensures { length result ≡ 64 }
{
    [Token {
        terminal: 0,
        line: Line(0),
        column: Column(0),
        width: Width(0),
    }; 64]
}

// The tokens in their lowest columns.
pub fn lowest_sentence(r: RangeSentence) -> Sentence
    requires { Spread r }
    ensures { (result.count ≡ r.count) × (spelled result ≡ lowest (ranges_of r)) }
{
    let mut tokens = no_tokens();
    for i in 0..r.count {
        tokens[i] = low_token(r.tokens[i]);
    }
    let count = r.count;
    Sentence { tokens, count }
}
