// Which lengths 0 to 7 each nonterminal can have when all marks are ignored, kept true rule by
// rule.
#![tactic(auto)]

ghost use Rattle.std.specs.Prelude.{◌≡◌, [], ◌+◌, ◌<◌};
ghost use Rattle.sets.specs.Says.{Says};
ghost use Rattle.grammar.specs.Content.{rules_of, Formed, SmallClause, SmallRule};
ghost use Rattle.lengths.specs.Indexes.{Shaped, Exact};
ghost use Rattle.lengths.specs.Books.{Booked, Appended};
ghost use Rattle.lengths.specs.Passes.{SumTo, Has, first_of, second_of, Makes, Sound};
ghost use Rattle.lengths.specs.Passes.{LengthsPassed};
ghost use Rattle.lengths.specs.Passes.{Held, Named, Open, Widens};

use grammar::{Clause, Grammar, Rule};
use sets::{has, with};

// For each nonterminal the set of its lengths.
#[derive(Clone, Copy)]
pub struct Index {
    pub sets: [u64; 64],
}

// No nonterminal has any length: the index of no rules.
pub fn no_lengths() -> Index
    ensures { Exact [] result }
{
    Index { sets: [0; 64] }
}

// The set r with the lengths besides that are i more than a member of t, if i is a member of s.
fn joined(r: u64, s: u64, t: u64, i: u8) -> u64
    requires { (i < 8) × (t < 256) × Has (SumTo s t i) r }
    ensures { Has (SumTo s t (i + 1)) result }
{
    if has(s, i) {
        return r | ((t << i) % 256);
    }
    r
}

// The lengths 0 to 7 that are a member of s and one of t.
fn sums(s: u64, t: u64) -> u64
    requires { t < 256 }
    ensures { Has (SumTo s t 8) result }
{
    let mut r: u64 = 0;
    for i in 0u8..8 {
        r = joined(r, s, t, i);
    }
    r
}

// The first nonterminal of a clause, 0 where it has none.
fn first_of(k: Clause) -> u8
    ensures { result ≡ first_of k }
{
    match k {
        Clause::Empty => 0,
        Clause::Atom(_, _) => 0,
        Clause::Unary(b, _) => b,
        Clause::Binary(b, _, _) => b,
    }
}

// The second nonterminal of a clause, 0 where it has none.
fn second_of(k: Clause) -> u8
    ensures { result ≡ second_of k }
{
    match k {
        Clause::Empty => 0,
        Clause::Atom(_, _) => 0,
        Clause::Unary(_, _) => 0,
        Clause::Binary(_, c, _) => c,
    }
}

// The lengths that a clause gives, by those of its nonterminals.
fn given(k: Clause, s: u64, t: u64) -> u64
    requires { (s < 256) × (t < 256) }
    ensures { Has (Makes s t k) result }
{
    match k {
        Clause::Empty => 1,
        Clause::Atom(a, b) => if a <= b { 2 } else { 0 },
        Clause::Unary(_, _) => s,
        Clause::Binary(_, _, _) => sums(s, t),
    }
}

// An index, and the nonterminals whose sets have grown in it.
#[derive(Clone, Copy)]
pub struct Growth {
    pub index: Index,
    pub grown: u64,
}

// The index with what the rule gives besides.
fn grow(w: Growth, r: Rule) -> Growth
    requires { Shaped w.index × SmallRule r }
    ensures { Widens w r result }
{
    let mut x = w.index;
    let k = r.clause;
    let b = first_of(k) as usize;
    let c = second_of(k) as usize;
    let s = given(k, x.sets[b], x.sets[c]);
    let a = r.left as usize;
    let old = x.sets[a];
    if (old | s) == old {
        return w;
    }
    x.sets[a] = old | s;
    Growth {
        index: x,
        grown: with(w.grown, r.left),
    }
}

// Does the clause name a member?
fn names(set: u64, k: Clause) -> bool
    requires { SmallClause k }
    ensures { Says result (Named set k) }
{
    if has(set, first_of(k)) {
        return true;
    }
    has(set, second_of(k))
}

// One pass over the rules that name a nonterminal whose set is new, or has grown in this pass.
fn pass(g: Grammar, x: Index, new: u64) -> Growth
    requires { Held g × Sound (rules_of g) x × Open (rules_of g) x new }
    ensures { LengthsPassed (rules_of g) g.count x result.index result.grown }
{
    let mut w = Growth { index: x, grown: 0 };
    for p in 0..g.count {
        let r = g.rules[p];
        if !names(new | w.grown, r.clause) {
            continue;
        }
        w = grow(w, r);
    }
    w
}

// The index of the rules, from one that is true as far as it goes: passes until one adds nothing.
// Rules that name no member of `from` give it nothing.
fn completed(g: Grammar, x: Index, from: u64) -> Index
    requires { Held g × Sound (rules_of g) x × Open (rules_of g) x from }
    ensures { Exact (rules_of g) result }
{
    let mut known = x;
    let mut new = from;
    loop {
        let w = pass(g, known, new);
        known = w.index;
        new = w.grown;
        if new == 0 {
            return known;
        }
    }
}

// The index of the rules of a grammar. At first E and A rules alone give something: they name
// nothing, which counts as 0.
pub fn index_of(g: Grammar) -> Index
    requires { Formed g }
    ensures { Exact (rules_of g) result }
{
    completed(g, no_lengths(), 1)
}

// Rules with their index.
#[derive(Clone, Copy)]
pub struct Book {
    pub grammar: Grammar,
    pub index: Index,
}

// Places for 128 rules.
pub fn no_rules() -> [Rule; 128] {
    [Rule {
        left: 0,
        clause: Clause::Empty,
    }; 128]
}

// The book of no rules.
pub fn no_book() -> Book
    ensures { Booked result × (result.grammar.count ≡ 0) }
{
    let rules = no_rules();
    let index = no_lengths();
    Book {
        grammar: Grammar { rules, count: 0 },
        index,
    }
}

// The book with one rule more, its index true again: the same one, if the rule gives it nothing
// new.
pub fn append(b: Book, r: Rule) -> Book
    requires { Booked b × (b.grammar.count < 128) × SmallRule r }
    ensures { Appended b r result }
{
    let mut g = b.grammar;
    let n = g.count;
    g.rules[n] = r;
    g.count = n + 1;
    let x = b.index;
    let w = grow(Growth { index: x, grown: 0 }, r);
    let y = w.index;
    if w.grown == 0 {
        return Book {
            grammar: g,
            index: y,
        };
    }
    let index = completed(g, y, w.grown);
    Book { grammar: g, index }
}
