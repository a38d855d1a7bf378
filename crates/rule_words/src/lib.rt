// A rule as a word, so that rules can stand in lent words.
#![tactic(auto)]

ghost use Rattle.std.specs.Prelude.{◌≡◌, ℕ};
ghost use Rattle.grammar.specs.declared.Clause.TheVariants as Clause;
ghost use Rattle.rule_words.specs.Words.{clause_of_of, word_rule};

use grammar::{BinaryMark, Clause, Rule, UnaryMark};

// The kind of a U rule with a mark.
fn unary_kind(m: UnaryMark) -> u8
    ensures { (a b : ℕ) → clause_of_of result a b ≡ Clause.Unary a m }
{
    match m {
        UnaryMark::None => 2,
        UnaryMark::Offside => 3,
        UnaryMark::Offalign => 4,
        UnaryMark::Single => 5,
    }
}

// The kind of a B rule with a mark.
fn binary_kind(m: BinaryMark) -> u8
    ensures { (a b : ℕ) → clause_of_of result a b ≡ Clause.Binary a b m }
{
    match m {
        BinaryMark::None => 6,
        BinaryMark::Align => 7,
        BinaryMark::Indent => 8,
    }
}

// The word with these four bytes, the first the lowest.
fn joined(left: u8, kind: u8, first: u8, second: u8) -> u64
    ensures { word_rule result ≡ record { left = left; clause = clause_of_of kind first second } }
{
    left as u64 + 256 * (kind as u64) + 65536 * (first as u64) + 16777216 * (second as u64)
}

// A rule's word.
pub fn word_of(rule: Rule) -> u64
    ensures { word_rule result ≡ rule }
{
    let left = rule.left;
    let k = rule.clause;
    match k {
        Clause::Empty => joined(left, 0, 0, 0),
        Clause::Atom(a, b) => joined(left, 1, a, b),
        Clause::Unary(a, m) => joined(left, unary_kind(m), a, 0),
        Clause::Binary(a, b, m) => joined(left, binary_kind(m), a, b),
    }
}

// The clause of a kind, with its first and its second number.
fn clause_of(kind: u64, a: u8, b: u8) -> Clause
    ensures { result ≡ clause_of_of kind a b }
{
    match kind {
        0 => Clause::Empty,
        1 => Clause::Atom(a, b),
        2 => Clause::Unary(a, UnaryMark::None),
        3 => Clause::Unary(a, UnaryMark::Offside),
        4 => Clause::Unary(a, UnaryMark::Offalign),
        5 => Clause::Unary(a, UnaryMark::Single),
        6 => Clause::Binary(a, b, BinaryMark::None),
        7 => Clause::Binary(a, b, BinaryMark::Align),
        _ => Clause::Binary(a, b, BinaryMark::Indent),
    }
}

// The left of a word's rule.
pub fn left_of(w: u64) -> u8
    ensures { result ≡ (word_rule w).left }
{
    (w % 256) as u8
}

// A word's rule.
pub fn rule_of(w: u64) -> Rule
    ensures { result ≡ word_rule w }
{
    let clause = clause_of(
        w / 256 % 256,
        (w / 65536 % 256) as u8,
        (w / 16777216 % 256) as u8,
    );
    Rule {
        left: left_of(w),
        clause,
    }
}
