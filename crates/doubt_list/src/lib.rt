// The list of a sheet's doubts in lent bytes, in the order of the nonterminals, the rules and the
// kinds.
#![tactic(auto)]

ghost use Rattle.std.specs.Prelude.{[], ◌+◌, ◌≤◌, ◌<◌, length};
ghost use Rattle.sets.specs.Says.{Says};
ghost use Rattle.grammar.specs.Cycles.{Nullable};
ghost use Rattle.grammar.specs.Choices.{Choice};
ghost use Rattle.grammar.specs.Content.{rules_of, Formed};
ghost use Rattle.acyclic.specs.Exact.{Exactly};
ghost use Rattle.pairs.specs.Survey.{Occurs};
ghost use Rattle.doubt_list.specs.Given.{DoubtsGiven};
ghost use Rattle.doubt_list.specs.Marks.{Bit, RuleOf, EmptyTwice, Ground};
ghost use Rattle.doubt_list.specs.Steps.{at, four, Lists, PutIf};

use acyclic::ready;
use grammar::Grammar;
use lists::{Listing, begin, finish, put};
use sets::has;

// The nullable nonterminals, and those that stand in trees of 0.
#[derive(Clone, Copy)]
pub struct Sets {
    pub nulls: u64,
    pub occurring: u64,
}

// Why there is doubt, as a byte of an entry: two rules may have a word with tokens, a rule may part
// one at two cuts, two rules have the empty word.
#[derive(Clone, Copy)]
enum Why {
    Rules,
    Cuts,
    Empty,
}

// Is the bit of two rules set?
fn marked(marks: &[u64], p: usize, q: usize) -> bool
    requires { (256 ≤ length marks.now) × (p < 128) × (q < 128) }
    ensures { Says result (Bit marks.now p q) }
{
    let word = marks[2 * p + q / 64];
    has(word, (q % 64) as u8)
}

// Has the rule at p this left?
fn of_left(g: Grammar, a: u8, p: usize) -> bool
    requires { Formed g × (p < g.count) }
    ensures { Says result (RuleOf (rules_of g) p a) }
{
    let rule = g.rules[p];
    rule.left == a
}

// Has the rule at p, of this left, the empty word?
fn empty_by(g: Grammar, nulls: u64, a: u8, p: usize) -> bool
    requires { Formed g × Exactly nulls (Nullable (rules_of g)) × (p < g.count) }
    ensures { Says result (Choice (rules_of g) a [] p 0) }
{
    let rule = g.rules[p];
    let c = rule.clause;
    if rule.left == a {
        return ready(nulls, c);
    }
    false
}

// Does `a` occur, and have two rules the empty word?
fn both_empty(g: Grammar, s: Sets, a: u8, p: usize, q: usize) -> bool
    requires formed { Formed g × Exactly s.nulls (Nullable (rules_of g))
        × Exactly s.occurring (Occurs (rules_of g)) }
    requires a_bound { (a < 64) × (p < g.count) × (q < g.count) }
    ensures { Says result (EmptyTwice (rules_of g) a p q) }
{
    if !has(s.occurring, a) {
        return false;
    }
    if !empty_by(g, s.nulls, a, p) {
        return false;
    }
    empty_by(g, s.nulls, a, q)
}

// Put an entry where the test said yes.
fn put_if(yes: bool, a: u8, p: usize, q: usize, why: u8, list: &mut [u8], l: Listing) -> Listing
    requires { (l.count ≤ l.at) × (p < 128) × (q < 128) }
    ensures { PutIf yes (four a p q why) list.old list.new l result }
{
    if !yes {
        return l;
    }
    let e = [a, (p + 1) as u8, (q + 1) as u8, why];
    put(list, l, &e, 1)
}

// The entries of two rules.
fn list_pair(
    g: Grammar,
    s: Sets,
    marks: &[u64],
    a: u8,
    p: usize,
    q: usize,
    list: &mut [u8],
    l: Listing,
) -> Listing
    requires grounded { Ground g s marks.now }
    requires a_bound { (a < 64) × (p < q) × (q < g.count) × RuleOf (rules_of g) p a }
    requires count_le_at { l.count ≤ l.at }
    ensures { Lists (rules_of g) list.old list.new l result (at a p q 0)
        (at a p (q + 1) 0) }
{
    let two = marked(marks, p, q);
    let k = put_if(two, a, p, q, Why::Rules as u8, list, l);
    let empty = both_empty(g, s, a, p, q);
    put_if(empty, a, p, q, Why::Empty as u8, list, k)
}

// The entry of a rule that may part a word at two places.
fn list_same(
    g: Grammar,
    s: Sets,
    marks: &[u64],
    a: u8,
    p: usize,
    list: &mut [u8],
    l: Listing,
) -> Listing
    requires grounded { Ground g s marks.now }
    requires p_lt_count { (p < g.count) × RuleOf (rules_of g) p a }
    requires count_le_at { l.count ≤ l.at }
    ensures { Lists (rules_of g) list.old list.new l result (at a p 0 0)
        (at a p (p + 1) 0) }
{
    let two = marked(marks, p, p);
    put_if(two, a, p, p, Why::Cuts as u8, list, l)
}

// The entries of a rule and each rule behind it.
fn list_behind(
    g: Grammar,
    s: Sets,
    marks: &[u64],
    a: u8,
    p: usize,
    list: &mut [u8],
    l: Listing,
) -> Listing
    requires grounded { Ground g s marks.now }
    requires a_bound { (a < 64) × (p < g.count) × RuleOf (rules_of g) p a }
    requires count_le_at { l.count ≤ l.at }
    ensures { Lists (rules_of g) list.old list.new l result (at a p (p + 1) 0)
        (at a (p + 1) 0 0) }
{
    let count = g.count;
    let mut k = l;
    for q in p + 1..count {
        k = list_pair(g, s, marks, a, p, q, list, k);
    }
    k
}

// The entries of a rule, by itself and with each rule behind it.
fn list_rule(
    g: Grammar,
    s: Sets,
    marks: &[u64],
    a: u8,
    p: usize,
    list: &mut [u8],
    l: Listing,
) -> Listing
    requires grounded { Ground g s marks.now }
    requires a_bound { (a < 64) × (p < g.count) × RuleOf (rules_of g) p a }
    requires count_le_at { l.count ≤ l.at }
    ensures { Lists (rules_of g) list.old list.new l result (at a p 0 0)
        (at a (p + 1) 0 0) }
{
    let k = list_same(g, s, marks, a, p, list, l);
    list_behind(g, s, marks, a, p, list, k)
}

// The entries of a nonterminal.
fn list_left(g: Grammar, s: Sets, marks: &[u64], a: u8, list: &mut [u8], l: Listing) -> Listing
    requires grounded { Ground g s marks.now }
    requires a_bound { a < 64 }
    requires count_le_at { l.count ≤ l.at }
    ensures { Lists (rules_of g) list.old list.new l result (at a 0 0 0)
        (at (a + 1) 0 0 0) }
{
    let count = g.count;
    let mut k = l;
    for p in 0..count {
        if !of_left(g, a, p) {
            continue;
        }
        k = list_rule(g, s, marks, a, p, list, k);
    }
    k
}

// The entries of all nonterminals.
fn list_all(g: Grammar, s: Sets, marks: &[u64], list: &mut [u8], l: Listing) -> Listing
    requires grounded { Ground g s marks.now }
    requires count_le_at { l.count ≤ l.at }
    ensures { Lists (rules_of g) list.old list.new l result (at 0 0 0 0)
        (at 64 0 0 0) }
{
    let mut k = l;
    for a in 0u8..64 {
        k = list_left(g, s, marks, a, list, k);
    }
    k
}

// The list of the doubts in the lent bytes, with 0 after it; all 0 where it does not fit.
pub fn list_doubts(g: Grammar, s: Sets, marks: &[u64], list: &mut [u8]) -> Option<usize>
    requires { Ground g s marks.now }
    ensures { DoubtsGiven (rules_of g) list.old list.new result }
{
    let l = list_all(g, s, marks, list, begin());
    finish(list, l)
}
