// A tree's rows and its pending nodes as bytes: the leaves of the tree writer.
#![tactic(auto)]

ghost use Rattle.std.specs.Prelude.{◌≡◌, ◌++◌, ◌+◌, ◌-◌, ◌≤◌, ◌<◌, length, take};
ghost use Rattle.std.specs.Prelude.{replicate};
ghost use Rattle.std.proofs.Math.Option.{some};
ghost use Rattle.std.proofs.Math.ListN.{get_elem?};
ghost use Rattle.grammar.specs.declared.Rule.{Rule};
ghost use Rattle.grammar.specs.Rows.{start_of};
ghost use Rattle.rows.specs.Bytes.{splice};
ghost use Rattle.rows.specs.Steps.{kids_of, clause_kind, step_of_clause, entries_of, Branches};
ghost use Rattle.rows.specs.Steps.{Branched};

use grammar::{Clause, Grammar};

// A node and what stands beneath it: the nonterminals of its children, and of two children the
// length of the left word. Of a closed node nothing beneath is shown.
#[derive(Clone, Copy)]
pub enum Kind {
    Empty,
    Atom,
    Unary(u8),
    Binary(u8, u8, u8),
    Closed,
}

// The byte for its kind in a node's row: 0 E, 1 A, 2 U, 3 B, 4 closed.
impl From<Kind> for u8 {
    ghost use Rattle.std.specs.Prelude.{◌≡◌};
    ghost use Rattle.rows.specs.Steps.{kind_byte};

    ghost from_gives = { λ kind byte. byte ≡ kind_byte kind };

    fn from(kind: Kind) -> u8 {
        match kind {
            Kind::Empty => 0,
            Kind::Atom => 1,
            Kind::Unary(_) => 2,
            Kind::Binary(_, _, _) => 3,
            Kind::Closed => 4,
        }
    }
}

// What the writer has to know of a node, and whether the node at which the second tree parts from
// the first is still to come.
#[derive(Clone, Copy)]
pub struct Step {
    pub kind: Kind,
    pub seeking: bool,
}

// Four bytes at a place.
pub fn put(out: &mut [u8], at: usize, four: [u8; 4])
    requires { at + 4 ≤ length out.old }
    ensures { out.new ≡ splice out.old at four }
{
    out[at..at + 4].copy_from_slice(&four);
}

// Zeros from a place to the end.
pub fn clear(out: &mut [u8], from: usize)
    requires { from ≤ length out.old }
    ensures { out.new ≡ take from out.old
        ++ replicate (length out.old - from) 0 }
{
    out[from..].fill(0);
}

// How many children of the node are shown.
pub fn kids(kind: Kind) -> usize
    ensures { result ≡ kids_of kind }
{
    match kind {
        Kind::Unary(_) => 1,
        Kind::Binary(_, _, _) => 2,
        Kind::Empty | Kind::Atom | Kind::Closed => 0,
    }
}

// The start in a row: an empty word has start 0.
pub fn start_of(i: u8, n: u8) -> u8
    ensures { result ≡ start_of i n }
{
    if n == 0 { 0 } else { i }
}

// The node of a clause, with a left word of k tokens.
fn clause_kind(c: Clause, k: usize) -> Kind
    requires { k ≤ 64 }
    ensures { result ≡ clause_kind c k }
{
    match c {
        Clause::Empty => Kind::Empty,
        Clause::Atom(_, _) => Kind::Atom,
        Clause::Unary(b, _) => Kind::Unary(b),
        Clause::Binary(b, e, _) => Kind::Binary(b, e, k as u8),
    }
}

// The step of the rule at a place, with a left word of k tokens.
pub fn step_of(g: Grammar, p: usize, k: usize, seeking: bool) -> Step
    requires { (p < 128) × (k ≤ 64) }
    ensures { (x : Rule) → get_elem? g.rules p ≡ some x
        → result ≡ step_of_clause x.clause k seeking }
{
    let rule = g.rules[p];
    Step {
        kind: clause_kind(rule.clause, k),
        seeking,
    }
}

// The children's pending entries right below place top, the left child's first; the new top.
pub fn branch(out: &mut [u8], top: usize, i: u8, n: u8, kind: Kind) -> usize
    requires { Branches out.old top i n kind }
    ensures { Branched out.old out.new top result (kids_of kind) (entries_of kind i n) }
{
    match kind {
        Kind::Unary(b) => {
            put(out, 4 * (top - 1), [b, i, n, 0]);
            top - 1
        }
        Kind::Binary(b, e, split) => {
            put(out, 4 * (top - 1), [e, i + split, n - split, 0]);
            put(out, 4 * (top - 2), [b, i, split, 0]);
            top - 2
        }
        Kind::Empty | Kind::Atom | Kind::Closed => top,
    }
}
