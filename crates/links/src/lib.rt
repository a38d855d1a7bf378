// What stands over no token or one by itself, and passes over the rules that have the whole of a
// span on one side.
#![tactic(auto)]

ghost use Rattle.std.specs.Prelude.{length};
ghost use Rattle.sets.specs.Says.{Says};
ghost use Rattle.grammar.specs.Content.{rules_of, SmallClause, SmallRule, Formed};
ghost use Rattle.joins.specs.Passes.{Leaves, WholeSide, Pass, Saturated};
ghost use Rattle.links.specs.LinkRules.{Idle, Ruled, LinkRules};

use cuts::Pair;
use grammar::{Clause, Grammar, Rule};
use joins::{Tally, blank, try_beside, try_leaf, try_unary};
use marks::SpanMarks;
use sets::has;

// What stands over no token or one by itself.
pub fn leaves(g: Grammar, k: SpanMarks, len: usize) -> Tally
    requires { Ruled g }
    ensures { Leaves k len (rules_of g) (length (rules_of g)) result }
{
    let mut t = blank();
    for i in 0..g.count {
        let r = g.rules[i];
        t = try_leaf(t, r, k, len);
    }
    t
}

// Does a rule never have a span on one side, `one` having a tree of the empty word?
fn one_sided(c: Clause, one: u64) -> bool
    requires { SmallClause c }
    ensures { Says result (Idle one c) }
{
    match c {
        Clause::Empty | Clause::Atom(_, _) => true,
        Clause::Unary(_, _) => false,
        Clause::Binary(b, d, _) => !has(one, b) && !has(one, d),
    }
}

// The rules that may, in their order.
pub fn link_rules(g: Grammar, one: u64) -> Grammar
    requires { Formed g }
    ensures { LinkRules one g result }
{
    let mut rules = g.rules;
    let mut m: usize = 0;
    for i in 0..g.count {
        let r = g.rules[i];
        if one_sided(r.clause, one) {
            continue;
        }
        rules[m] = r;
        m += 1;
    }
    Grammar { rules, count: m }
}

// Try a rule where it has the whole span on one side; the empty word's pair is `e`.
fn try_link(t: Tally, r: Rule, k: SpanMarks, e: Pair, len: usize) -> Tally
    requires { SmallRule r }
    ensures { WholeSide e.one e.two k len r.left r.clause t result }
{
    match r.clause {
        Clause::Empty | Clause::Atom(_, _) => t,
        Clause::Unary(b, m) => try_unary(t, r.left, b, m, k),
        Clause::Binary(b, d, _) => try_beside(t, r.left, b, d, e, len),
    }
}

// A pass over the rules, the last one first: it reads what it adds.
fn pass(t: Tally, w: Grammar, k: SpanMarks, e: Pair, len: usize) -> Tally
    requires { Ruled w }
    ensures { Pass e.one e.two k len (rules_of w) t 0 result }
{
    let mut u = t;
    for i in (0..w.count).rev() {
        let r = w.rules[i];
        u = try_link(u, r, k, e, len);
    }
    u
}

// Passes from the inner tally `b` on, until one adds nothing.
fn passes(b: Tally, w: Grammar, k: SpanMarks, e: Pair, len: usize) -> Tally
    requires { Ruled w }
    ensures { Saturated e.one e.two k len (rules_of w) b result }
{
    let mut t = b;
    loop {
        let s = Tally {
            seen: b.seen,
            one: t.one,
            two: t.two,
        };
        let u = pass(s, w, k, e, len);
        if u.one == t.one && u.two == t.two {
            return t;
        }
        t = u;
    }
}

// The same, but where nothing stands at first: then nothing ever does.
pub fn saturated(b: Tally, w: Grammar, k: SpanMarks, e: Pair, len: usize) -> Tally
    requires { Ruled w }
    ensures { Saturated e.one e.two k len (rules_of w) b result }
{
    if b.one == 0 {
        return b;
    }
    passes(b, w, k, e, len)
}
