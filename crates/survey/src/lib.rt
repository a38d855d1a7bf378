// What is known of nonterminals before any pair of nodes is looked at: those with words that have
// tokens, those that stand below 0, the levels, the first terminals.
#![tactic(auto)]

ghost use Rattle.std.specs.Prelude.{◌≡◌, true, ◌&&◌, ◌<◌};
ghost use Rattle.sets.specs.Says.{Says};
ghost use Rattle.grammar.specs.Trees.{Covers};
ghost use Rattle.grammar.specs.Cycles.{Nullable};
ghost use Rattle.grammar.specs.Content.{rules_of, SmallClause, SmallRule, Formed};
ghost use Rattle.acyclic.specs.Exact.{Exactly};
ghost use Rattle.acyclic.specs.Passes.{Extended, RulesPassed};
ghost use Rattle.pairs.specs.Survey.{Productive, Occurs, CanBegin};
ghost use Rattle.pairs.specs.Strength.{rank};
ghost use Rattle.survey.specs.Sources.{Worded, Under, OnePart, Filled, AddsFilled, Begins};
ghost use Rattle.survey.specs.Sources.{AddsBegins};
ghost use Rattle.survey.specs.Sources.{BothStand, Stands, AddsStands};
ghost use Rattle.survey.specs.Sources.{ChildHeads, PairHeads, Heads, AddsFront, PairFollows};
ghost use Rattle.survey.specs.Sources.{Follows, AddsFollow, AddsHeads};
ghost use Rattle.survey.specs.Closing.{AtMost, Aimed, AddsBy, HelpsRank, Prepared, Shut};
ghost use Rattle.survey.specs.Closing.{LevelsOf, LevelIs};

use grammar::{Clause, Grammar, Rule, UnaryMark};
use sets::either;

// The sets of nonterminals that are looked for: with words that have tokens, with words that begin
// with a terminal, that stand below 0, that inherit a mark of rank at most the first number (the
// other is a set of those that inherit a mark other than single).
#[derive(Clone, Copy)]
pub enum Aim {
    Filled,
    Begins(u8),
    Stands,
    Heads(u8, u64),
}

// Has the nonterminal a word?
fn worded(nulls: u64, prods: u64, a: u8) -> bool
    requires { a < 64 }
    ensures { Says result (Worded nulls prods a) }
{
    let empty = sets::has(nulls, a);
    let some = sets::has(prods, a);
    either(empty, some)
}

// Is it 0, or a member?
fn under(set: u64, a: u8) -> bool
    requires { a < 64 }
    ensures { Says result (Under set a) }
{
    let member = sets::has(set, a);
    if a == 0 {
        return true;
    }
    member
}

// Is the first child a member and has the second a word, or is the first empty and the second a
// member?
fn one_part(nulls: u64, prods: u64, set: u64, b: u8, d: u8) -> bool
    requires { (b < 64) × (d < 64) }
    ensures { Says result (OnePart nulls prods set b d) }
{
    let first = sets::has(set, b);
    let rest = worded(nulls, prods, d);
    let empty = sets::has(nulls, b);
    let second = sets::has(set, d);
    let one = first & rest;
    let other = empty & second;
    either(one, other)
}

// Has the clause a word with tokens, where the members have?
fn filled(nulls: u64, set: u64, c: Clause) -> bool
    requires { SmallClause c }
    ensures { Says result (Filled nulls set c) }
{
    match c {
        Clause::Empty => false,
        Clause::Atom(a, b) => a <= b,
        Clause::Unary(b, _) => sets::has(set, b),
        Clause::Binary(b, d, _) => one_part(nulls, set, set, b, d),
    }
}

// Is x one of the terminals from a to b?
fn covers(a: u8, b: u8, x: u8) -> bool
    ensures { Says result (Covers a b x) }
{
    a <= x && x <= b
}

// Has the clause a word that begins with x, where the members have?
fn begins(nulls: u64, prods: u64, x: u8, set: u64, c: Clause) -> bool
    requires { SmallClause c }
    ensures { Says result (Begins nulls prods x set c) }
{
    match c {
        Clause::Empty => false,
        Clause::Atom(a, b) => covers(a, b, x),
        Clause::Unary(b, _) => sets::has(set, b),
        Clause::Binary(b, d, _) => one_part(nulls, prods, set, b, d),
    }
}

// The set with a besides, where the test said yes.
fn with_if(yes: bool, set: u64, a: u8) -> u64
    requires { a < 64 }
    ensures { Extended (λ y. (yes ≡ true) × (a ≡ y)) set result }
{
    if yes {
        return sets::with(set, a);
    }
    set
}

// The set with both besides, where both have words.
fn with_both(nulls: u64, prods: u64, set: u64, b: u8, d: u8) -> u64
    requires { (b < 64) × (d < 64) }
    ensures { Extended (BothStand nulls prods b d) set result }
{
    let first = worded(nulls, prods, b);
    let second = worded(nulls, prods, d);
    let yes = first & second;
    let one = with_if(yes, set, b);
    with_if(yes, one, d)
}

// The set with the nonterminals of the clause besides, where all of them have words.
fn with_parts(nulls: u64, prods: u64, set: u64, c: Clause) -> u64
    requires { SmallClause c }
    ensures { Extended (Stands nulls prods c) set result }
{
    match c {
        Clause::Empty => set,
        Clause::Atom(_, _) => set,
        Clause::Unary(b, _) => {
            let yes = worded(nulls, prods, b);
            with_if(yes, set, b)
        }
        Clause::Binary(b, d, _) => with_both(nulls, prods, set, b, d),
    }
}

// A mark's rank.
fn rank_of(m: UnaryMark) -> u8
    ensures { result ≡ rank m }
{
    match m {
        UnaryMark::None => 0,
        UnaryMark::Offalign => 1,
        UnaryMark::Offside => 2,
        UnaryMark::Single => 3,
    }
}

// The set with a child besides that is all of the word, where it has tokens and the mark is no
// stronger than k.
fn with_child(prods: u64, k: u8, set: u64, b: u8, m: UnaryMark) -> u64
    requires { b < 64 }
    ensures { Extended (ChildHeads prods k b m) set result }
{
    let rank = rank_of(m);
    let some = sets::has(prods, b);
    let weak = rank <= k;
    let yes = some & weak;
    with_if(yes, set, b)
}

// The set with the children besides that may begin the word.
fn with_front(nulls: u64, prods: u64, set: u64, b: u8, d: u8) -> u64
    requires { (b < 64) × (d < 64) }
    ensures { Extended (PairHeads nulls prods b d) set result }
{
    let some = sets::has(prods, b);
    let rest = worded(nulls, prods, d);
    let empty = sets::has(nulls, b);
    let second = sets::has(prods, d);
    let begins = some & rest;
    let alone = empty & second;
    let one = with_if(begins, set, b);
    with_if(alone, one, d)
}

// The set with the children besides that may begin the clause's word and have its mark.
fn with_heads(nulls: u64, prods: u64, k: u8, set: u64, c: Clause) -> u64
    requires { SmallClause c }
    ensures { Extended (Heads nulls prods k c) set result }
{
    match c {
        Clause::Empty => set,
        Clause::Atom(_, _) => set,
        Clause::Unary(b, m) => with_child(prods, k, set, b, m),
        Clause::Binary(b, d, _) => with_front(nulls, prods, set, b, d),
    }
}

// The set with the second child besides, where both have tokens.
fn with_second(prods: u64, set: u64, b: u8, d: u8) -> u64
    requires { (b < 64) × (d < 64) }
    ensures { Extended (PairFollows prods b d) set result }
{
    let first = sets::has(prods, b);
    let second = sets::has(prods, d);
    let yes = first & second;
    with_if(yes, set, d)
}

fn with_followers(prods: u64, set: u64, c: Clause) -> u64
    requires { SmallClause c }
    ensures { Extended (Follows prods c) set result }
{
    match c {
        Clause::Empty => set,
        Clause::Atom(_, _) => set,
        Clause::Unary(_, _) => set,
        Clause::Binary(b, d, _) => with_second(prods, set, b, d),
    }
}

// What a rule adds, for each of the sets that are looked for.
fn grow_filled(nulls: u64, set: u64, r: Rule) -> u64
    requires { SmallRule r }
    ensures { Extended (AddsFilled nulls set r) set result }
{
    let c = r.clause;
    let yes = filled(nulls, set, c);
    with_if(yes, set, r.left)
}

fn grow_begins(nulls: u64, prods: u64, x: u8, set: u64, r: Rule) -> u64
    requires { SmallRule r }
    ensures { Extended (AddsBegins nulls prods x set r) set result }
{
    let c = r.clause;
    let yes = begins(nulls, prods, x, set, c);
    with_if(yes, set, r.left)
}

fn grow_stands(nulls: u64, prods: u64, set: u64, r: Rule) -> u64
    requires { SmallRule r }
    ensures { Extended (AddsStands nulls prods set r) set result }
{
    let c = r.clause;
    if under(set, r.left) {
        return with_parts(nulls, prods, set, c);
    }
    set
}

// The set with what begins the rule's word, where its left is 0 or a member.
fn grow_front(nulls: u64, prods: u64, k: u8, set: u64, r: Rule) -> u64
    requires { SmallRule r }
    ensures { Extended (AddsFront nulls prods k set r) set result }
{
    let c = r.clause;
    if under(set, r.left) {
        return with_heads(nulls, prods, k, set, c);
    }
    set
}

// The set `next` with what follows in the rule's word, where its left is 0, a member of `set` or
// one of `loose`.
fn grow_follow(prods: u64, loose: u64, set: u64, next: u64, r: Rule) -> u64
    requires { SmallRule r }
    ensures { Extended (AddsFollow prods loose set r) next result }
{
    let c = r.clause;
    let member = under(set, r.left);
    let wide = sets::has(loose, r.left);
    if either(member, wide) {
        return with_followers(prods, next, c);
    }
    next
}

fn grow_heads(nulls: u64, prods: u64, k: u8, loose: u64, set: u64, r: Rule) -> u64
    requires { SmallRule r }
    ensures { Extended (AddsHeads nulls prods k loose set r) set result }
{
    let next = grow_front(nulls, prods, k, set, r);
    grow_follow(prods, loose, set, next, r)
}

fn grow(aim: Aim, nulls: u64, prods: u64, set: u64, r: Rule) -> u64
    requires { SmallRule r }
    ensures { Extended (AddsBy aim nulls prods set r) set result }
{
    match aim {
        Aim::Filled => grow_filled(nulls, set, r),
        Aim::Begins(x) => grow_begins(nulls, prods, x, set, r),
        Aim::Stands => grow_stands(nulls, prods, set, r),
        Aim::Heads(k, loose) => grow_heads(nulls, prods, k, loose, set, r),
    }
}

// One pass over the rules.
fn pass(g: Grammar, aim: Aim, nulls: u64, prods: u64, set: u64) -> u64
    requires { Formed g × Exactly nulls (Nullable (rules_of g)) × Prepared (rules_of g) aim prods }
    ensures { RulesPassed (AddsBy aim nulls prods) (Aimed (rules_of g) aim) (rules_of g) g.count
        set
        result }
{
    let count = g.count;
    let mut next = set;
    for p in 0..count {
        let rule = g.rules[p];
        next = grow(aim, nulls, prods, next, rule);
    }
    next
}

// Passes until one adds nothing.
// Kept: `acyclic::closed` would ask that the laws of all four aims, 300 lines, stand in specs/.
fn close(g: Grammar, aim: Aim, nulls: u64, prods: u64) -> u64
    requires { Formed g × Exactly nulls (Nullable (rules_of g)) × Prepared (rules_of g) aim prods }
    ensures { Shut (AddsBy aim nulls prods) (Aimed (rules_of g) aim) (rules_of g) result }
{
    let mut set: u64 = 0;
    loop {
        let next = pass(g, aim, nulls, prods, set);
        if next == set {
            return set;
        }
        set = next;
    }
}

// The nonterminals that have words with tokens.
pub fn productives(g: Grammar, nulls: u64) -> u64
    requires { Formed g × Exactly nulls (Nullable (rules_of g)) }
    ensures { Exactly result (Productive (rules_of g)) }
{
    let aim = Aim::Filled;
    close(g, aim, nulls, 0)
}

// The nonterminals whose words may begin with x.
pub fn beginning(g: Grammar, nulls: u64, prods: u64, x: u8) -> u64
    requires { Formed g × Exactly nulls (Nullable (rules_of g))
        × Exactly prods (Productive (rules_of g)) }
    ensures { Exactly result (λ A. CanBegin (rules_of g) A x) }
{
    let aim = Aim::Begins(x);
    close(g, aim, nulls, prods)
}

// The nonterminals that stand in trees of 0.
pub fn occurring(g: Grammar, nulls: u64, prods: u64) -> u64
    requires { Formed g × Exactly nulls (Nullable (rules_of g))
        × Exactly prods (Productive (rules_of g)) }
    ensures { Exactly result (Occurs (rules_of g)) }
{
    let aim = Aim::Stands;
    let set = close(g, aim, nulls, prods);
    sets::with(set, 0)
}

// The nonterminals that inherit a mark of rank at most k.
fn at_most(g: Grammar, nulls: u64, prods: u64, k: u8, loose: u64) -> u64
    requires { Formed g × Exactly nulls (Nullable (rules_of g))
        × Exactly prods (Productive (rules_of g)) × HelpsRank (rules_of g) k loose }
    ensures { Exactly result (AtMost (rules_of g) k) }
{
    let aim = Aim::Heads(k, loose);
    let set = close(g, aim, nulls, prods);
    sets::with(set, 0)
}

// The nonterminals that inherit a mark: one of rank 0, at most 1, at most 2, any.
#[derive(Clone, Copy)]
pub struct Levels {
    pub unmarked: u64,
    pub offalign: u64,
    pub offside: u64,
    pub single: u64,
}

pub fn inherited(g: Grammar, nulls: u64, prods: u64) -> Levels
    requires { Formed g × Exactly nulls (Nullable (rules_of g))
        × Exactly prods (Productive (rules_of g)) }
    ensures { LevelsOf (rules_of g) result }
{
    let single = at_most(g, nulls, prods, 3, 0);
    let offside = at_most(g, nulls, prods, 2, 0);
    let offalign = at_most(g, nulls, prods, 1, offside);
    let unmarked = at_most(g, nulls, prods, 0, offside);
    Levels {
        unmarked: unmarked,
        offalign: offalign,
        offside: offside,
        single: single,
    }
}

// The weakest mark that a nonterminal inherits, if it inherits one.
pub fn level_of(l: Levels, a: u8) -> Option<UnaryMark>
    requires { a < 64 }
    ensures { LevelIs l a result }
{
    if sets::has(l.unmarked, a) {
        return Some(UnaryMark::None);
    }
    if sets::has(l.offalign, a) {
        return Some(UnaryMark::Offalign);
    }
    if sets::has(l.offside, a) {
        return Some(UnaryMark::Offside);
    }
    if sets::has(l.single, a) {
        return Some(UnaryMark::Single);
    }
    None
}
