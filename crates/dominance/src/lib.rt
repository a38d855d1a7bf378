// Terminals that the sweep need not try: where a smaller terminal has every left of one, whatever
// has two trees with the one has two with the other, and comes first.
#![tactic(auto)]

ghost use Rattle.std.specs.Prelude.{◌≡◌, true, ◌+◌, ◌<◌};
ghost use Rattle.grammar.specs.Content.{rules_of, SmallRule, Formed};
ghost use Rattle.dominance.specs.Dominance.{add_left, Lefts, Subset, Serves, Replaced, Spares};
ghost use Rattle.dominance.specs.Dominance.{Spared};

use grammar::{Clause, Grammar, Rule};
use sets::{has, with};

// The set with the rule's left besides, if it is an A rule that covers `a`.
fn with_left(set: u64, r: Rule, a: u8) -> u64
    requires { SmallRule r }
    ensures { result ≡ add_left set r a }
{
    match r.clause {
        Clause::Empty => set,
        Clause::Atom(b, e) => {
            if b <= a && a <= e {
                with(set, r.left)
            } else {
                set
            }
        }
        Clause::Unary(_, _) => set,
        Clause::Binary(_, _, _) => set,
    }
}

// The lefts of the A rules that cover `a`.
fn lefts(g: Grammar, a: u8) -> u64
    requires { Formed g }
    ensures { Lefts (rules_of g) a result }
{
    let mut set: u64 = 0;
    for r in &g.rules[..g.count] {
        set = with_left(set, *r, a);
    }
    set
}

// Is each member of s one of t?
fn within(s: u64, t: u64) -> bool
    ensures { result ≡ true → Subset s t }
{
    s | t == t
}

// Is y one of the terminals kept, and has it all the lefts in s?
fn serves(g: Grammar, kept: u64, s: u64, y: u8) -> bool
    requires formed { Formed g }
    requires y_bound { y < 64 }
    ensures { result ≡ true → Serves (rules_of g) kept s y }
{
    if !has(kept, y) {
        return false;
    }
    let t = lefts(g, y);
    within(s, t)
}

// Has a smaller one of the terminals kept all the lefts of x?
fn replaced(g: Grammar, kept: u64, x: u8) -> bool
    requires formed { Formed g }
    requires x_bound { x < 64 }
    ensures { result ≡ true → Replaced (rules_of g) kept x }
{
    let s = lefts(g, x);
    for y in 0..x {
        if serves(g, kept, s, y) {
            return true;
        }
    }
    false
}

// The terminals kept, with x besides if it is one of the set and no smaller one replaces it.
fn with_needed(g: Grammar, set: u64, kept: u64, x: u8) -> u64
    requires formed { Formed g }
    requires x_bound { x < 64 }
    requires spares { Spares (rules_of g) set x kept }
    ensures { Spares (rules_of g) set (x + 1) result }
{
    if !has(set, x) {
        return kept;
    }
    if replaced(g, kept, x) {
        return kept;
    }
    with(kept, x)
}

// The terminals of the set but those that a smaller one of it replaces.
pub fn needed(g: Grammar, set: u64) -> u64
    requires { Formed g }
    ensures { Spared (rules_of g) set result }
{
    let mut kept: u64 = 0;
    for x in 0u8..64 {
        kept = with_needed(g, set, kept, x);
    }
    kept
}
