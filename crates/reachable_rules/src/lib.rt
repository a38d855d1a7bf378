// The rules that nonterminal 0 reaches: no tree of it has others, so that a sweep leaves those out.
#![tactic(auto)]

ghost use Rattle.acyclic.specs.Exact.{Exactly};
ghost use Rattle.acyclic.specs.Passes.{Extended};
ghost use Rattle.grammar.specs.Content.{rules_of, SmallClause, SmallRule, Formed};
ghost use Rattle.reachable_rules.specs.Reach.{Reached, Trimmed};
ghost use Rattle.reachable_rules.specs.Sound.{reach_sound};
ghost use Rattle.reachable_rules.specs.Steps.{HasPart, AddsParts, Picked};

use acyclic::{Adding, closed};
use grammar::{Clause, Grammar, Rule};
use sets::{has, with};

// The set with the nonterminals besides that the clause has.
fn with_parts(set: u64, c: Clause) -> u64
    requires { SmallClause c }
    ensures { Extended (HasPart c) set result }
{
    match c {
        Clause::Empty => set,
        Clause::Atom(_, _) => set,
        Clause::Unary(b, _) => with(set, b),
        Clause::Binary(b, d, _) => {
            let s = with(set, b);
            with(s, d)
        }
    }
}

// The same where the rule's left is 0 or a member.
fn spread(set: u64, r: Rule) -> u64
    requires { SmallRule r }
    ensures { Extended (AddsParts set r) set result }
{
    let left = r.left;
    let c = r.clause;
    if left == 0 {
        return with_parts(set, c);
    }
    if has(set, left) {
        return with_parts(set, c);
    }
    set
}

// Towards the nonterminals that 0 reaches.
#[derive(Clone, Copy)]
struct Reaching;

impl Adding for Reaching {
    ghost adds = { λ x. AddsParts };

    ghost aim = { λ x. Reached };

    ghost fits = { λ x g. Unit {0} };

    ghost sound = { λ x g f. reach_sound };

    fn with_rule(&self, set: u64, r: Rule) -> u64 {
        spread(set, r)
    }
}

// The nonterminals that 0 reaches.
fn reached(g: Grammar) -> u64
    requires { Formed g }
    ensures { Exactly result (Reached (rules_of g)) }
{
    with(closed(g, &Reaching), 0)
}

// The rules whose left is in the set, in their order.
fn pick(g: Grammar, set: u64) -> Grammar
    requires { Formed g }
    ensures { Picked (rules_of g) set g.count (rules_of result) × Formed result }
{
    let mut rules = g.rules;
    let mut m: usize = 0;
    for i in 0..g.count {
        let r = g.rules[i];
        if !has(set, r.left) {
            continue;
        }
        rules[m] = r;
        m += 1;
    }
    Grammar { rules, count: m }
}

// The rules whose left 0 reaches, in their order.
pub fn reachable(g: Grammar) -> Grammar
    requires { Formed g }
    ensures { Trimmed (rules_of g) (rules_of result) × Formed result }
{
    let set = reached(g);
    pick(g, set)
}
