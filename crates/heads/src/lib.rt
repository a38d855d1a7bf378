// What the shapes of rules look like, by the rule's place and by which of its children have tokens.
#![tactic(auto)]

ghost use Rattle.std.specs.Prelude.{◌≡◌, ◌<◌};
ghost use Rattle.grammar.specs.Cycles.{Nullable};
ghost use Rattle.grammar.specs.Content.{rules_of, SmallClause, Formed};
ghost use Rattle.acyclic.specs.Exact.{Exactly};
ghost use Rattle.pairs.specs.Survey.{Productive};
ghost use Rattle.survey.specs.Closing.{LevelsOf};
ghost use Rattle.heads.specs.Forms.{AllForm, Alone, AloneForm, FormBy, SaysForm};
ghost use Rattle.heads.specs.Forms.{ShapedAs, kind_numbered, shape_by};

use grammar::{BinaryMark, Clause, Grammar, UnaryMark};
use sets::has;
use survey::{Levels, level_of};

// The shapes of a rule: all of its children have tokens, or of two the first alone or the second
// alone.
#[derive(Clone, Copy, PartialEq, Eq)]
pub enum Kind {
    All,
    First,
    Second,
}

// A leaf's first and last terminal; one child that has tokens, with two marks of the word; two,
// with the mark between them and that of the word.
#[derive(Clone, Copy)]
pub enum Looks {
    Tip(u8, u8),
    One(u8, UnaryMark, UnaryMark),
    Two(u8, u8, BinaryMark, UnaryMark),
}

// A shape's nonterminal, and what its nodes look like, if it has any.
#[derive(Clone, Copy)]
pub struct Shaped {
    pub sort: u8,
    pub looks: Option<Looks>,
}

impl Kind {
    // The kind with this number, from 0 on.
    pub fn numbered(n: usize) -> Kind
        ensures { result ≡ kind_numbered n }
    {
        match n {
            0 => Kind::All,
            1 => Kind::First,
            _ => Kind::Second,
        }
    }
}

// All children have tokens.
fn all_of(prods: u64, l: UnaryMark, c: Clause) -> Option<Looks>
    requires { SmallClause c }
    ensures { SaysForm result (AllForm prods l c) }
{
    match c {
        Clause::Empty => None,
        Clause::Atom(a, b) => Some(Looks::Tip(a, b)),
        Clause::Unary(d, m) => {
            if has(prods, d) {
                return Some(Looks::One(d, l, m));
            }
            None
        }
        Clause::Binary(d, e, m) => {
            if has(prods, d) && has(prods, e) {
                return Some(Looks::Two(d, e, m, l));
            }
            None
        }
    }
}

// Of two children `d` has tokens, and the other is empty.
fn alone(nulls: u64, prods: u64, l: UnaryMark, d: u8, other: u8) -> Option<Looks>
    requires { (d < 64) × (other < 64) }
    ensures { SaysForm result (Alone nulls prods l d other) }
{
    if has(prods, d) && has(nulls, other) {
        return Some(Looks::One(d, l, UnaryMark::None));
    }
    None
}

// Of two children one has tokens, and the other is empty: by the flag the first or the second.
fn alone_of(first: bool, nulls: u64, prods: u64, l: UnaryMark, c: Clause) -> Option<Looks>
    requires { SmallClause c }
    ensures { SaysForm result (AloneForm first nulls prods l c) }
{
    match c {
        Clause::Empty => None,
        Clause::Atom(_, _) => None,
        Clause::Unary(_, _) => None,
        Clause::Binary(d, e, _) => {
            if first {
                return alone(nulls, prods, l, d, e);
            }
            alone(nulls, prods, l, e, d)
        }
    }
}

// What a clause gives by the kind of the shape.
fn form_by(kind: Kind, nulls: u64, prods: u64, l: UnaryMark, c: Clause) -> Option<Looks>
    requires { SmallClause c }
    ensures { SaysForm result (FormBy kind nulls prods l c) }
{
    match kind {
        Kind::All => all_of(prods, l, c),
        Kind::First => alone_of(true, nulls, prods, l, c),
        Kind::Second => alone_of(false, nulls, prods, l, c),
    }
}

// The shape of this kind of the rule at p.
pub fn head_of(g: Grammar, nulls: u64, prods: u64, levels: Levels, kind: Kind, p: usize) -> Shaped
    requires formed { Formed g × (p < g.count) }
    requires exactly { Exactly nulls (Nullable (rules_of g))
        × Exactly prods (Productive (rules_of g))
        × LevelsOf (rules_of g) levels }
    ensures { ShapedAs (rules_of g) (shape_by kind p) result }
{
    let rule = g.rules[p];
    let sort = rule.left;
    let c = rule.clause;
    let looks = match level_of(levels, sort) {
        None => None,
        Some(l) => form_by(kind, nulls, prods, l, c),
    };
    Shaped { sort, looks }
}
