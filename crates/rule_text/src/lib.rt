// The lines of a rule sheet, put into a lent buffer.
#![tactic(auto)]

ghost use Rattle.std.specs.Prelude.{◌∷◌, ◌++◌, ◌+◌, ◌*◌, ◌≤◌, length};
ghost use Rattle.grammar.specs.declared.UnaryMark.TheVariants as UnaryMark;
ghost use Rattle.grammar.specs.Content.{rules_of as rulesOf};
ghost use Rattle.printing.specs.Printing.{Wrote, field};
ghost use Rattle.rule_text.specs.RuleText.{dash, unary_lay_of, binary_lay_of, last_terminal_of};
ghost use Rattle.rule_text.specs.RuleText.{clause_text, rule_text_of, rules_text};

use grammar::{BinaryMark, Clause, Grammar, Rule, UnaryMark};
use printing::{put_bytes, put_ended};

// The lay of a U rule and the line's end.
fn put_unary(out: &mut [u8], at: usize, m: UnaryMark) -> usize
    requires { at + 9 ≤ length out.old }
    ensures wrote { Wrote out.old out.new at (unary_lay_of m) result }
    ensures upper_bound { result ≤ at + 9 }
{
    match m {
        UnaryMark::None => put_bytes(out, at, b"none\n"),
        UnaryMark::Offside => put_bytes(out, at, b"offside\n"),
        UnaryMark::Offalign => put_bytes(out, at, b"offalign\n"),
        UnaryMark::Single => put_bytes(out, at, b"single\n"),
    }
}

// The lay of a B rule and the line's end.
fn put_binary(out: &mut [u8], at: usize, m: BinaryMark) -> usize
    requires { at + 9 ≤ length out.old }
    ensures wrote { Wrote out.old out.new at (binary_lay_of m) result }
    ensures upper_bound { result ≤ at + 9 }
{
    match m {
        BinaryMark::None => put_bytes(out, at, b"none\n"),
        BinaryMark::Align => put_bytes(out, at, b"align\n"),
        BinaryMark::Indent => put_bytes(out, at, b"indent\n"),
    }
}

// The last terminal of an A rule, or `-`.
fn put_last(out: &mut [u8], at: usize, a: u8, b: u8) -> usize
    requires { at + 6 ≤ length out.old }
    ensures wrote { Wrote out.old out.new at (last_terminal_of a b) result }
    ensures upper_bound { result ≤ at + 6 }
{
    if a == b {
        return put_bytes(out, at, b"- ");
    }
    put_ended(out, at, b as u32, 32)
}

// An A rule's kind, terminals and lay.
fn put_atom(out: &mut [u8], at: usize, a: u8, b: u8) -> usize
    requires { at + 23 ≤ length out.old }
    ensures wrote { Wrote out.old out.new at
        (65 ∷ 32 ∷ (field a ++ (last_terminal_of a b ++ unary_lay_of UnaryMark.None))) result }
    ensures upper_bound { result ≤ at + 23 }
{
    let p = put_bytes(out, at, b"A ");
    let q = put_ended(out, p, a as u32, 32);
    let s = put_last(out, q, a, b);
    put_unary(out, s, UnaryMark::None)
}

// A U rule's kind, nonterminal and lay.
fn put_over(out: &mut [u8], at: usize, a: u8, m: UnaryMark) -> usize
    requires { at + 23 ≤ length out.old }
    ensures wrote { Wrote out.old out.new at
        (85 ∷ 32 ∷ (field a ++ (dash ++ unary_lay_of m))) result }
    ensures upper_bound { result ≤ at + 23 }
{
    let p = put_bytes(out, at, b"U ");
    let q = put_ended(out, p, a as u32, 32);
    let s = put_bytes(out, q, b"- ");
    put_unary(out, s, m)
}

// A B rule's kind, nonterminals and lay.
fn put_pair(out: &mut [u8], at: usize, a: u8, b: u8, m: BinaryMark) -> usize
    requires { at + 23 ≤ length out.old }
    ensures wrote { Wrote out.old out.new at
        (66 ∷ 32 ∷ (field a ++ (field b ++ binary_lay_of m))) result }
    ensures upper_bound { result ≤ at + 23 }
{
    let p = put_bytes(out, at, b"B ");
    let q = put_ended(out, p, a as u32, 32);
    let s = put_ended(out, q, b as u32, 32);
    put_binary(out, s, m)
}

// Kind, first, second and lay.
fn put_clause(out: &mut [u8], at: usize, k: Clause) -> usize
    requires { at + 23 ≤ length out.old }
    ensures wrote { Wrote out.old out.new at (clause_text k) result }
    ensures upper_bound { result ≤ at + 23 }
{
    match k {
        Clause::Empty => put_bytes(out, at, b"E - - none\n"),
        Clause::Atom(a, b) => put_atom(out, at, a, b),
        Clause::Unary(a, m) => put_over(out, at, a, m),
        Clause::Binary(a, b, m) => put_pair(out, at, a, b, m),
    }
}

// A rule's line.
fn put_rule(out: &mut [u8], at: usize, rule: Rule) -> usize
    requires { at + 29 ≤ length out.old }
    ensures wrote { Wrote out.old out.new at (rule_text_of rule) result }
    ensures upper_bound { result ≤ at + 29 }
{
    let next = put_ended(out, at, rule.left as u32, 32);
    let k = rule.clause;
    put_clause(out, next, k)
}

// The lines of a grammar's rules.
pub fn put_rules(out: &mut [u8], at: usize, g: Grammar) -> usize
    requires count_bound { g.count ≤ 128 }
    requires count_in_bounds { at + 29 * g.count ≤ length out.old }
    ensures wrote { Wrote out.old out.new at (rules_text (rulesOf g)) result }
    ensures upper_bound { result ≤ at + 29 * g.count }
{
    let mut next = at;
    for i in 0..g.count {
        let x = g.rules[i];
        next = put_rule(out, next, x);
    }
    next
}
