// The pair of the empty word or of a token: what stands by itself, then passes over the rules, with
// the whole span on one side.
#![tactic(auto)]

ghost use Rattle.std.specs.Prelude.{◌⊎◌, ◌≡◌, ◌<◌};
ghost use Rattle.sets.specs.Sets.{In};
ghost use Rattle.grammar.specs.Content.{SmallRule};
ghost use Rattle.marks.specs.Marked.{UnaryBy};
ghost use Rattle.joins.specs.Passes.{Doubles, Found, Took};
ghost use Rattle.joins.specs.Passes.{no_tally};
ghost use Rattle.joins.specs.Passes.{LeafFits, Beside};

use cuts::Pair;
use grammar::{Clause, Rule, UnaryMark};
use marks::{SpanMarks, allows_atom, allows_unary};
use sets::{has, with};

// What a pass over the rules of a span has found: the nonterminals for which a rule stands, and the
// span's two sets with what the pass adds.
#[derive(Clone, Copy)]
pub struct Tally {
    pub seen: u64,
    pub one: u64,
    pub two: u64,
}

// The nonterminals that have two trees, with a rule for `a` besides: where `again` says so, or
// where it meets another.
fn doubled(t: Tally, a: u8, again: bool) -> u64
    requires { a < 64 }
    ensures { Doubles t a again result }
{
    if again || has(t.seen, a) {
        with(t.two, a)
    } else {
        t.two
    }
}

// The tally with a rule for `a` besides; `again` says that a word below has two trees.
fn found(t: Tally, a: u8, again: bool) -> Tally
    requires { a < 64 }
    ensures { Found t a again result }
{
    Tally {
        seen: with(t.seen, a),
        one: with(t.one, a),
        two: doubled(t, a, again),
    }
}

// Try a binary clause `b` `e` for `a` over two words that have these pairs.
fn try_join(t: Tally, a: u8, b: u8, e: u8, left: Pair, right: Pair) -> Tally
    requires { (a < 64) × (b < 64) × (e < 64) }
    ensures { Took (In left.one b × In right.one e)
        (In left.two b ⊎ In right.two e) a t result }
{
    if !has(left.one, b) {
        return t;
    }
    if !has(right.one, e) {
        return t;
    }
    if has(left.two, b) {
        return found(t, a, true);
    }
    found(t, a, has(right.two, e))
}

// The tally before any rule.
pub fn blank() -> Tally
    ensures { result ≡ no_tally }
{
    Tally {
        seen: 0,
        one: 0,
        two: 0,
    }
}

// Try a rule for no token or one.
pub fn try_leaf(t: Tally, r: Rule, k: SpanMarks, len: usize) -> Tally
    requires { SmallRule r }
    ensures { Took (LeafFits k len r.clause) ⊥ r.left t result }
{
    match r.clause {
        Clause::Empty => { if len == 0 { found(t, r.left, false) } else { t } }
        Clause::Atom(a, b) => {
            if len == 1 && allows_atom(k, a, b) {
                found(t, r.left, false)
            } else {
                t
            }
        }
        Clause::Unary(_, _) | Clause::Binary(_, _, _) => t,
    }
}

// Try a unary clause `b` for `a` over the span that the tally is of.
pub fn try_unary(t: Tally, a: u8, b: u8, m: UnaryMark, k: SpanMarks) -> Tally
    requires { (a < 64) × (b < 64) }
    ensures { Took (In t.one b × UnaryBy k m) (In t.two b) a t result }
{
    if !has(t.one, b) {
        return t;
    }
    if !allows_unary(k, m) {
        return t;
    }
    found(t, a, has(t.two, b))
}

// Try a binary clause over the span and the empty word, whose pair is `empty`; the span is of `len`
// tokens.
pub fn try_beside(t: Tally, a: u8, b: u8, e: u8, empty: Pair, len: usize) -> Tally
    requires { (a < 64) × (b < 64) × (e < 64) }
    ensures { Beside empty.one empty.two len a b e t result }
{
    let whole = Pair {
        one: t.one,
        two: t.two,
    };
    if len == 0 {
        return try_join(t, a, b, e, whole, whole);
    }
    let u = try_join(t, a, b, e, empty, whole);
    let grown = Pair {
        one: u.one,
        two: u.two,
    };
    try_join(u, a, b, e, grown, empty)
}
