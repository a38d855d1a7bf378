// Refusal 8: is a sheet of rules cyclic? First the nullable nonterminals, then what chains reach
// from each nonterminal.
#![tactic(auto)]

ghost use Rattle.sets.specs.Sets.{In};
ghost use Rattle.sets.specs.Says.{Says};
ghost use Rattle.grammar.specs.Cycles.{Nullable, Chain, Cyclic};
ghost use Rattle.grammar.specs.Content.{rules_of, SmallClause, SmallRule, Formed};
ghost use Rattle.std.specs.Prelude.{◌≡◌, ◌<◌, ℕ};
ghost use mathlib.Core.List.{Memᴰ};
ghost use Rattle.grammar.specs.Trees.{Rules};
ghost use Rattle.grammar.specs.declared.Rule.{Rule};
ghost use Rattle.acyclic.specs.Exact.{Exactly};
ghost use Rattle.acyclic.specs.Passes.{Extended, RulesPassed, Closed, Ready, AddsLeft, LeadsTo};
ghost use Rattle.acyclic.specs.Passes.{AddsTargets};
ghost use Rattle.acyclic.specs.Sound.{null_sound, chain_sound};

use grammar::{Clause, Grammar, Rule};

// What a rule adds to a set of nonterminals, on the way to those with a property.
pub trait Adding {
    // The rule adds a nonterminal to the set.
    ghost adds: { Self → ℕ → Rule → ℕ → Type 0 };

    // The property that nonterminals have by the rules.
    ghost aim: { Self → Rules → ℕ → Type 0 };

    // What is known of the rules.
    ghost fits: { Self → Rules → Type 0 };

    // The set with what the rule adds besides.
    fn with_rule(&self, set: u64, r: Rule) -> u64
        requires { SmallRule r }
        ensures { Extended (adds self.now set r) set result };

    // What is added to a set whose members have the property has it.
    ghost sound: { (x : Self) (g : Rules) → fits x g → (s : ℕ) → ((Y : ℕ) → In s Y → aim x g Y)
        → (r : Rule) → Memᴰ r g → (Y : ℕ) → adds x s r Y → aim x g Y };
}

// One pass over the rules.
fn pass<A: Adding>(g: Grammar, x: &A, set: u64) -> u64
    requires { Formed g × A.fits x.now (rules_of g) }
    ensures { RulesPassed (A.adds x.now) (A.aim x.now (rules_of g)) (rules_of g) g.count set
        result }
{
    let mut next = set;
    for p in 0..g.count {
        next = x.with_rule(next, g.rules[p]);
    }
    next
}

// The set to which no rule adds, from the empty one: passes until one adds nothing.
pub fn closed<A: Adding>(g: Grammar, x: &A) -> u64
    requires { Formed g × A.fits x.now (rules_of g) }
    ensures { Closed (A.adds x.now) (A.aim x.now (rules_of g)) (rules_of g) result }
{
    let mut set: u64 = 0;
    loop {
        let next = pass(g, x, set);
        if next == set {
            return set;
        }
        set = next;
    }
}

// Do members of the set make the clause's word empty?
pub fn ready(set: u64, c: Clause) -> bool
    requires { SmallClause c }
    ensures { Says result (Ready set c) }
{
    match c {
        Clause::Empty => true,
        Clause::Atom(_, _) => false,
        Clause::Unary(b, _) => sets::has(set, b),
        Clause::Binary(b, d, _) => {
            if sets::has(set, b) {
                return sets::has(set, d);
            }
            false
        }
    }
}

// The set with the rule's left besides, where members make its clause's word empty.
fn with_left(set: u64, r: Rule) -> u64
    requires { SmallRule r }
    ensures { Extended (AddsLeft set r) set result }
{
    let left = r.left;
    let c = r.clause;
    if ready(set, c) {
        return sets::with(set, left);
    }
    set
}

// Towards the nullable nonterminals.
#[derive(Clone, Copy)]
struct Empties;

impl Adding for Empties {
    ghost adds = { λ x. AddsLeft };

    ghost aim = { λ x g. Nullable g };

    ghost fits = { λ x g. Unit {0} };

    ghost sound = { λ x g f. null_sound };

    fn with_rule(&self, set: u64, r: Rule) -> u64 {
        with_left(set, r)
    }
}

// The nullable nonterminals.
pub fn nullables(g: Grammar) -> u64
    requires { Formed g }
    ensures { Exactly result (Nullable (rules_of g)) }
{
    closed(g, &Empties)
}

// The set with b besides, where d is nullable.
fn beside(nulls: u64, d: u8, set: u64, b: u8) -> u64
    requires { (d < 64) × (b < 64) }
    ensures { Extended (λ y. (b ≡ y) × In nulls d) set result }
{
    if sets::has(nulls, d) {
        return sets::with(set, b);
    }
    set
}

// The set with the nonterminals besides that a rule with this clause has edges to.
fn with_targets(nulls: u64, set: u64, c: Clause) -> u64
    requires { SmallClause c }
    ensures { Extended (LeadsTo nulls c) set result }
{
    match c {
        Clause::Empty => set,
        Clause::Atom(_, _) => set,
        Clause::Unary(b, _) => sets::with(set, b),
        Clause::Binary(b, d, _) => {
            let left = beside(nulls, d, set, b);
            beside(nulls, b, left, d)
        }
    }
}

// The set with those that the rule has edges to besides, where its left is a or a member.
fn spread(nulls: u64, a: u8, set: u64, r: Rule) -> u64
    requires { SmallRule r }
    ensures { Extended (AddsTargets nulls a set r) set result }
{
    let left = r.left;
    let c = r.clause;
    if left == a {
        return with_targets(nulls, set, c);
    }
    if sets::has(set, left) {
        return with_targets(nulls, set, c);
    }
    set
}

// Towards what chains from a nonterminal reach; `nulls` are the nullable ones.
#[derive(Clone, Copy)]
struct Chained {
    nulls: u64,
    from: u8,
}

impl Adding for Chained {
    ghost adds = { λ x. AddsTargets x.nulls x.from };

    ghost aim = { λ x g. Chain g x.from };

    ghost fits = { λ x g. Exactly x.nulls (Nullable g) };

    ghost sound = { λ x g f. chain_sound f x.from };

    fn with_rule(&self, set: u64, r: Rule) -> u64 {
        spread(self.nulls, self.from, set, r)
    }
}

// The nonterminals that chains from a reach.
fn reach(g: Grammar, nulls: u64, a: u8) -> u64
    requires { Formed g × Exactly nulls (Nullable (rules_of g)) }
    ensures { Exactly result (Chain (rules_of g) a) }
{
    closed(g, &Chained { nulls, from: a })
}

// Does some chain of edges return to where it began?
pub fn cyclic(g: Grammar) -> bool
    requires { Formed g }
    ensures { Says result (Cyclic (rules_of g)) }
{
    let nulls = nullables(g);
    for a in 0u8..64 {
        let reached = reach(g, nulls, a);
        if sets::has(reached, a) {
            return true;
        }
    }
    false
}
