// The table of chains, made once for the rules: what follows over a span from each nonterminal
// alone, by rules that have the whole span on one side (links). A span's level says which unary
// marks hold of it.
#![tactic(auto)]

ghost use Rattle.std.specs.Prelude.{◌≡◌, true, ◌+◌, ◌<◌, length};
ghost use Rattle.sets.specs.Says.{Says};
ghost use Rattle.sets.specs.Sets.{In};
ghost use Rattle.grammar.specs.Content.{rules_of, SmallRule, Formed};
ghost use Rattle.cuts.specs.Joining.{Joins};
ghost use Rattle.chains.specs.Reaching.{Has, Selves, Met, LinkCounted, RuleCounted, Branches};
ghost use Rattle.chains.specs.Reaching.{Through, Closes, Gathers, Turned};
ghost use Rattle.chains.specs.Chains.{rank, HoldsAt, Leveled, Upto, Level, Chains, Ranked};
ghost use Rattle.chains.specs.Chains.{Unranked, Stored, Copied};

use cuts::{Pair, members_of, put_pair};
use grammar::{Clause, Grammar, Rule, UnaryMark};
use marks::{SpanMarks, allows_unary};
use sets::{has, with};
use spans::clear;

// The level of a span: 3 where all of its tokens stand on one line, 2 where offside holds, 1 where
// offalign does, else 0.
// Kept: a number, as the table's entries of a level stand at 128 times it.
pub fn level_of(k: SpanMarks) -> usize
    ensures { Leveled k result }
{
    if k.single {
        return 3;
    }
    if allows_unary(k, UnaryMark::Offside) {
        return 2;
    }
    if allows_unary(k, UnaryMark::Offalign) {
        return 1;
    }
    0
}

// The least level at which the mark holds.
fn rank(m: UnaryMark) -> usize
    ensures { result ≡ rank m }
{
    match m {
        UnaryMark::None => 0,
        UnaryMark::Offalign => 1,
        UnaryMark::Offside => 2,
        UnaryMark::Single => 3,
    }
}

// Is the clause unary with such a mark?
fn ranked(c: Clause, l: usize) -> bool
    ensures { Says result (Ranked l c) }
{
    match c {
        Clause::Unary(_, m) => rank(m) == l,
        Clause::Empty | Clause::Atom(_, _) | Clause::Binary(_, _, _) => false,
    }
}

// Is no rule so? Then the level has the entries of the one below.
fn unranked(g: Grammar, l: usize) -> bool
    requires { Formed g }
    ensures { result ≡ true → Unranked l (rules_of g) g.count }
{
    for i in 0..g.count {
        if ranked(g.rules[i].clause, l) {
            return false;
        }
    }
    true
}

// Does the mark hold at the level?
fn holds_at(m: UnaryMark, l: usize) -> bool
    ensures { Says result (HoldsAt l m) }
{
    rank(m) <= l
}

// Each word gets its own bit, and no other.
fn selves(words: &mut [u64])
    requires { length words.old ≡ 64 }
    ensures { Selves 64 words.new }
{
    for a in 0u8..64 {
        words[a as usize] = with(0, a);
    }
}

// Put a set into the word of `a`.
fn add_set(words: &mut [u64], a: u8, set: u64)
    requires { a < length words.old }
    ensures { Joins (λ q B. (q ≡ a) × In set B) words.old words.new }
{
    let at = a as usize;
    words[at] = words[at] | set;
}

// What a further way doubles: all of its set where it counts twice, else what was seen before.
fn met(set: u64, seen: u64, again: bool) -> u64
    ensures { Met set seen again result }
{
    if again { set } else { set & seen }
}

// Count a link of `a` over `b`, if there is one: `a` has what `b` has. `again` says that the
// link counts twice.
fn count(seen: &mut [u64], twice: &mut [u64], base: &[u64], a: u8, b: u8, when: bool, again: bool)
    requires a_bound { (a < 64) × (b < 64) }
    requires seen_len { (length seen.old ≡ 64) × (length twice.old ≡ 64) × (length base.now ≡ 64) }
    ensures { LinkCounted (when ≡ true) (again ≡ true) base.now a b
        seen.old seen.new twice.old twice.new }
{
    if !when {
        return;
    }
    let set = base[b as usize];
    let old = seen[a as usize];
    add_set(twice, a, met(set, old, again));
    add_set(seen, a, set);
}

// Count the links of a rule at the level; `e` is the pair of the empty word.
fn count_rule(seen: &mut [u64], twice: &mut [u64], base: &[u64], r: Rule, e: Pair, l: usize)
    requires small_rule { SmallRule r }
    requires seen_len { (length seen.old ≡ 64) × (length twice.old ≡ 64) × (length base.now ≡ 64) }
    ensures { RuleCounted (HoldsAt l) e.one e.two base.now r.left
        r.clause seen.old seen.new twice.old
        twice.new }
{
    match r.clause {
        Clause::Empty | Clause::Atom(_, _) => {}
        Clause::Unary(b, m) => count(seen, twice, base, r.left, b, holds_at(m, l), false),
        Clause::Binary(b, d, _) => {
            count(seen, twice, base, r.left, d, has(e.one, b), has(e.two, b));
            count(seen, twice, base, r.left, b, has(e.one, d), has(e.two, d));
        }
    }
}

// Count the links of all rules.
fn counts(seen: &mut [u64], twice: &mut [u64], base: &[u64], g: Grammar, e: Pair, l: usize)
    requires formed { Formed g }
    requires seen_len { (length seen.old ≡ 64) × (length twice.old ≡ 64) × (length base.now ≡ 64) }
    ensures { Branches (rules_of g) (HoldsAt l) e base.now g.count
        seen.new twice.new }
{
    selves(seen);
    clear(twice, 64);
    for i in 0..g.count {
        let r = g.rules[i];
        count_rule(seen, twice, base, r, e, l);
    }
}

// Put a set into the word of `a`, if that has `k`.
fn add_if(words: &mut [u64], a: u8, k: u8, set: u64)
    requires { (a < 64) × (k < 64) × (length words.old ≡ 64) }
    ensures { Joins (λ q B. (q ≡ a) × Has words.old a k × In set B)
        words.old words.new }
{
    if !has(words[a as usize], k) {
        return;
    }
    add_set(words, a, set);
}

// What the word of `k` has is put in wherever `k` is.
fn through(words: &mut [u64], k: u8)
    requires { (k < 64) × (length words.old ≡ 64) }
    ensures { Through k words.old 64 words.new }
{
    let set = words[k as usize];
    if set == with(0, k) {
        return;
    }
    for a in 0u8..64 {
        add_if(words, a, k, set);
    }
}

// Links of links, until there is no more.
fn close(words: &mut [u64])
    requires { length words.old ≡ 64 }
    ensures { Closes words.old 64 words.new }
{
    for k in 0u8..64 {
        through(words, k);
    }
}

// The words of the members, put together.
fn gather(words: &[u64], set: u64) -> u64
    requires { length words.now ≡ 64 }
    ensures { Gathers words.now (In set) result }
{
    let mut r: u64 = 0;
    for c in members_of(set) {
        r = r | words[c as usize];
    }
    r
}

// The entries of a level: what follows from each nonterminal, and what does in two ways.
fn turn(ups: &mut [u64], seen: &[u64], twice: &[u64])
    requires { (length ups.old ≡ 128) × (length seen.now ≡ 64) × (length twice.now ≡ 64) }
    ensures { Turned seen.now twice.now 64 ups.new }
{
    clear(ups, 128);
    for a in 0u8..64 {
        let one = seen[a as usize];
        let two = gather(twice, one);
        put_pair(ups, 0, Pair { one, two }, a);
    }
}

// The same from the rules.
fn level(ups: &mut [u64], g: Grammar, e: Pair, l: usize)
    requires ups_len { length ups.old ≡ 128 }
    requires formed { Formed g }
    ensures { Level (rules_of g) e l ups.new }
{
    let mut base = [0u64; 64];
    let mut seen = [0u64; 64];
    let mut twice = [0u64; 64];
    selves(&mut base);
    counts(&mut seen, &mut twice, &base, g, e, l);
    close(&mut seen);
    counts(&mut base, &mut twice, &seen, g, e, l);
    turn(ups, &base, &twice);
}

// Store the entries of a level.
fn store(table: &mut [u64], ups: &[u64], l: usize)
    requires { (l < 4) × (length table.old ≡ 512) × (length ups.now ≡ 128) }
    ensures { Stored ups.now table.old table.new l 128 }
{
    let at = 128 * l;
    table[at..at + 128].copy_from_slice(ups);
}

// Put the entries of a level into the table.
fn put_level(table: &mut [u64], g: Grammar, e: Pair, l: usize)
    requires l_bound { l < 4 }
    requires formed { Formed g }
    requires upto { Upto (rules_of g) e table.old l }
    ensures { Upto (rules_of g) e table.new (l + 1) }
{
    let mut ups = [0u64; 128];
    level(&mut ups, g, e, l);
    store(table, &ups, l);
}

// The entries of the level `l` once more, for the level past it.
fn copy_level(table: &mut [u64], l: usize)
    requires { (l < 3) × (length table.old ≡ 512) }
    ensures { Copied table.old table.new l 128 }
{
    let at = 128 * l;
    table.copy_within(at..at + 128, at + 128);
}

// The entries of a level, one way or the other.
fn next_level(table: &mut [u64], g: Grammar, e: Pair, l: usize)
    requires l_bound { l < 4 }
    requires formed { Formed g }
    requires upto { Upto (rules_of g) e table.old l }
    ensures { Upto (rules_of g) e table.new (l + 1) }
{
    if 0 < l && unranked(g, l) {
        copy_level(table, l - 1);
    } else {
        put_level(table, g, e, l);
    }
}

// Fill the table of chains; `e` is the pair of the empty word.
pub fn chains(table: &mut [u64], g: Grammar, e: Pair)
    requires table_len { length table.old ≡ 512 }
    requires formed { Formed g }
    ensures { Chains (rules_of g) e table.new }
{
    for l in 0usize..4 {
        next_level(table, g, e, l);
    }
}
