// The choices of a nonterminal at a span, read off its span sheet in their order.
#![tactic(auto)]

ghost use Rattle.std.specs.Prelude.{◌≡◌, ◌+◌, ◌-◌, ◌≤◌, ◌<◌};
ghost use Rattle.sets.specs.Says.{Says};
ghost use Rattle.grammar.specs.declared.Clause.TheVariants as Kind;
ghost use Rattle.grammar.specs.Content.{rules_of, SmallClause, SmallRule, Formed};
ghost use Rattle.grammar.specs.SpanSheet.{part, SpanSheet};
ghost use Rattle.tables.specs.Tables.{One, by_marks, Fits, lefts, Room};
ghost use Rattle.choices.specs.Choosing.{NextChoice};
ghost use Rattle.choices.specs.Searches.{FirstSplit, FirstPick};
ghost use Rattle.grammar.specs.Sentences.{spelled};

use grammar::{BinaryMark, Clause, Grammar, Rule, Sentence, UnaryMark};
use marks::{Draft, SpanMarks, allows_atom, allows_binary, allows_unary, span_marks};
use spans::in_first;

// Does a unary clause fit the span?
fn fits_unary(
    words: &[u64],
    n: usize,
    b: u8,
    m: UnaryMark,
    start: usize,
    len: usize,
    left: usize,
    k: SpanMarks,
) -> bool
    requires room { Room words.now n start len }
    requires b_bound { b < 64 }
    ensures { Says result (Fits (One words.now n) (by_marks k len) start len
        (Kind.Unary b m) left) }
{
    if left != 0 {
        return false;
    }
    if !in_first(words, n, start, len, b) {
        return false;
    }
    allows_unary(k, m)
}

// Does a binary clause fit the span, with `left` tokens on its left?
fn fits_binary(
    words: &[u64],
    n: usize,
    b: u8,
    e: u8,
    m: BinaryMark,
    start: usize,
    len: usize,
    left: usize,
    k: SpanMarks,
) -> bool
    requires room { Room words.now n start len }
    requires b_bound { (b < 64) × (e < 64) }
    ensures { Says result (Fits (One words.now n) (by_marks k len) start len
        (Kind.Binary b e m) left) }
{
    if len < left {
        return false;
    }
    if !in_first(words, n, start, left, b) {
        return false;
    }
    if !in_first(words, n, start + left, len - left, e) {
        return false;
    }
    allows_binary(k, m, left, len)
}

// Does the clause fit the span, with `left` tokens on its left?
pub fn clause_fits(
    words: &[u64],
    n: usize,
    c: Clause,
    start: usize,
    len: usize,
    left: usize,
    k: SpanMarks,
) -> bool
    requires room { Room words.now n start len }
    requires small_clause { SmallClause c }
    ensures { Says result (Fits (One words.now n) (by_marks k len) start len c left) }
{
    match c {
        Clause::Empty => { if len == 0 { left == 0 } else { false } }
        Clause::Atom(a, b) => {
            if len != 1 {
                return false;
            }
            if left != 0 {
                return false;
            }
            allows_atom(k, a, b)
        }
        Clause::Unary(b, m) => fits_unary(words, n, b, m, start, len, left, k),
        Clause::Binary(b, e, m) => fits_binary(words, n, b, e, m, start, len, left, k),
    }
}

// The longest left word that the clause can have over `len` tokens.
pub fn last_left(c: Clause, len: usize) -> usize
    ensures { result ≡ lefts c len }
{
    match c {
        Clause::Empty => 0,
        Clause::Atom(_, _) => 0,
        Clause::Unary(_, _) => 0,
        Clause::Binary(_, _, _) => len,
    }
}

// A choice: the rule's place in the sheet, counted from 0, and the length of the left word.
#[derive(Clone, Copy, PartialEq, Eq)]
pub struct Pick {
    pub rule: usize,
    pub left: usize,
}

// No choice is before this one.
pub const FIRST: Pick = Pick { rule: 0, left: 0 };

// The first left length from `from` on with which the rule stands over the span for `a`.
fn next_split(
    words: &[u64],
    n: usize,
    a: u8,
    r: Rule,
    start: usize,
    len: usize,
    k: SpanMarks,
    from: usize,
) -> Option<usize>
    requires room { Room words.now n start len }
    requires small_rule { SmallRule r }
    ensures { FirstSplit words.now n start len k a r from result }
{
    if r.left != a {
        return None;
    }
    let c = r.clause;
    let last = last_left(c, len);
    for left in from..=last {
        if clause_fits(words, n, c, start, len, left, k) {
            return Some(left);
        }
    }
    None
}

// The first rule that stands over the span for `a`, with the fewest tokens on its left, that is not
// before `from`.
fn next_rule(
    words: &[u64],
    n: usize,
    g: Grammar,
    a: u8,
    start: usize,
    len: usize,
    k: SpanMarks,
    from: Pick,
) -> Option<Pick>
    requires room { Room words.now n start len }
    requires formed { Formed g }
    ensures { FirstPick words.now g n start len k a from.rule from.left result }
{
    let mut least = from.left;
    for rule in from.rule..g.count {
        let r = g.rules[rule];
        if let Some(left) = next_split(words, n, a, r, start, len, k, least) {
            return Some(Pick { rule, left });
        }
        least = 0;
    }
    None
}

// The first choice of `a` at the span of `len` tokens from `start` on that is not before `from`.
pub fn next_choice(
    words: &[u64],
    s: Sentence,
    g: Grammar,
    a: u8,
    start: usize,
    len: usize,
    from: Pick,
) -> Option<Pick>
    requires count_bound { (s.count ≤ 64) × (start + len ≤ s.count) }
    requires formed { Formed g }
    requires span_sheet { SpanSheet (rules_of g) (spelled s) words.now }
    ensures { NextChoice (rules_of g) a (part (spelled s) start len) from.rule from.left result }
{
    let n = s.count;
    let tokens = s.tokens;
    let d = Draft {
        tokens,
        count: n,
        known: n,
    };
    let k = span_marks(d, start, len);
    next_rule(words, n, g, a, start, len, k, from)
}
