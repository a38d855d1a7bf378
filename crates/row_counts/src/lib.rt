// How many rows the first and the second tree have, without writing them: a walk along the nodes
// that have tokens. A tree over the empty word can be astronomically large, so its rows are counted
// once a nonterminal, in a table.
#![tactic(auto)]

ghost use Rattle.std.specs.Prelude.{◌≡◌, true, ℕ, ◌+◌, ◌≤◌, ◌<◌, length, get_or};
ghost use Rattle.grammar.specs.Trees.{Tree};
ghost use Rattle.grammar.specs.Choices.{FirstTree, SecondTree};
ghost use Rattle.grammar.specs.Cycles.{Cyclic};
ghost use Rattle.grammar.specs.Rows.{row_count};
ghost use Rattle.grammar.specs.Content.{rules_of};
ghost use Rattle.grammar.specs.SpanSheet.{part};
ghost use Rattle.tree_choices.specs.Wanted.{Charted, Ready, Wanted};
ghost use Rattle.row_counts.specs.Capped.{capped};
ghost use Rattle.row_counts.specs.RowCounts.{Tells};
ghost use Rattle.row_counts.specs.Telling.{SecondCounted, RowsTold};
ghost use Rattle.row_counts.specs.Nulls.{HasFirsts, Nulls, Sound, null_size, NullsTried};
ghost use Rattle.row_counts.specs.Walks.{Own, Down, FirstThere};
ghost use Rattle.rows.specs.Steps.{KidsSmall, LeftWithin};
ghost use Rattle.row_counts.specs.Seconds.{Parted, PartedThere, Onto, Onward, BesideThere};
ghost use Rattle.row_counts.specs.Seconds.{Beside};
ghost use Rattle.grammar.specs.Sentences.{spelled};

use acyclic::cyclic;
use grammar::{Grammar, Sentence};
use heights::{HEIGHTS, heights};
use rows::{Kind, Step};
use sets::either;
use spans::{in_first, in_second};
use tree_choices::choose;

// The least count that is not told.
const LIMIT: u64 = 4294967296;

// The sum of two counts, at most the limit, which says that there are more.
fn add(a: u64, b: u64) -> u64
    requires { (a ≤ 4294967296) × (b ≤ 4294967296) }
    ensures { result ≡ capped (a + b) }
{
    (a + b).min(LIMIT)
}

// The rows of a tree over the empty word, by the kind of its top and the counts of its children; 0
// where one of those is not known.
// Kept: no tree has 0 rows, so 0 in the table is a count not known yet, as `zeros` counts them.
fn null_size(z: &[u64], kind: Kind) -> u64
    requires z_len { length z.now ≡ 64 }
    requires by_index { (A : ℕ) → get_or z.now A 0 ≤ 4294967296 }
    requires small { KidsSmall kind }
    ensures { result ≡ null_size z.now kind }
{
    match kind {
        Kind::Unary(b) => {
            let x = z[b as usize];
            if x == 0 { 0 } else { add(1, x) }
        }
        Kind::Binary(b, e, _) => {
            let x = z[b as usize];
            if x == 0 {
                return 0;
            }
            let y = z[e as usize];
            if y == 0 { 0 } else { add(1, add(x, y)) }
        }
        Kind::Empty | Kind::Atom | Kind::Closed => 1,
    }
}

// Try to count the first tree of `a` over the empty word.
fn null_try(z: &mut [u64], words: &[u64], hs: &[u16], s: Sentence, g: Grammar, a: u8) -> bool
    requires ready { Ready g s words.now hs.now × (a < 64) }
    requires has_firsts { HasFirsts (rules_of g) }
    requires sound { Sound (rules_of g) z.old }
    ensures { NullsTried (rules_of g) (λ B. B ≡ a) z.old z.new result }
{
    let at = a as usize;
    if z[at] != 0 {
        return false;
    }
    if !in_first(words, s.count, 0, 0, a) {
        return false;
    }
    let st = choose(words, hs, s, g, a, 0, 0, false);
    let n = null_size(z, st.kind);
    if n == 0 {
        return false;
    }
    z[at] = n;
    true
}

// Try all of them.
fn null_pass(z: &mut [u64], words: &[u64], hs: &[u16], s: Sentence, g: Grammar) -> bool
    requires ready { Ready g s words.now hs.now }
    requires has_firsts { HasFirsts (rules_of g) }
    requires sound { Sound (rules_of g) z.old }
    ensures { NullsTried (rules_of g) (λ B. B < 64) z.old z.new result }
{
    let mut more = false;
    for a in 0u8..64 {
        let found = null_try(z, words, hs, s, g, a);
        more = either(more, found);
    }
    more
}

// The rows of the first trees over the empty word, a number a nonterminal, into 64 numbers that are
// all 0.
fn null_counts(z: &mut [u64], words: &[u64], hs: &[u16], s: Sentence, g: Grammar)
    requires ready { Ready g s words.now hs.now }
    requires has_firsts { HasFirsts (rules_of g) }
    requires sound { Sound (rules_of g) z.old }
    ensures { Nulls (rules_of g) z.new }
{
    loop {
        let more = null_pass(z, words, hs, s, g);
        if !more {
            return;
        }
    }
}

// A child that has tokens: its nonterminal and how many they are.
#[derive(Clone, Copy)]
pub struct Child {
    pub name: u8,
    pub long: u8,
}

// What lies beneath a node over some tokens: its first child that has tokens, and the right one
// where that has tokens too.
#[derive(Clone, Copy)]
pub struct Below {
    pub first: Child,
    pub right: Option<Child>,
}

// The rows of a node over `l` tokens by itself, with those of a child over the empty word.
fn own(z: &[u64], kind: Kind, l: u8) -> u64
    requires z_len { length z.now ≡ 64 }
    requires by_index { (A : ℕ) → get_or z.now A 0 ≤ 4294967296 }
    requires small { KidsSmall kind }
    ensures { Own z.now kind l result }
{
    match kind {
        Kind::Binary(b, e, split) => {
            if split == 0 {
                add(1, z[b as usize])
            } else if split == l {
                add(1, z[e as usize])
            } else {
                1
            }
        }
        Kind::Empty | Kind::Atom | Kind::Unary(_) | Kind::Closed => 1,
    }
}

// What lies beneath a node over `l` tokens; nothing beneath a leaf.
fn down(kind: Kind, l: u8) -> Option<Below>
    requires { LeftWithin kind l }
    ensures { Down kind l result }
{
    match kind {
        Kind::Unary(b) => Some(Below {
            first: Child { name: b, long: l },
            right: None,
        }),
        Kind::Binary(b, e, split) => {
            let left = Child {
                name: b,
                long: split,
            };
            let right = Child {
                name: e,
                long: l - split,
            };
            if split == 0 {
                return Some(Below {
                    first: right,
                    right: None,
                });
            }
            if split == l {
                return Some(Below {
                    first: left,
                    right: None,
                });
            }
            Some(Below {
                first: left,
                right: Some(right),
            })
        }
        Kind::Empty | Kind::Atom | Kind::Closed => None,
    }
}

// The rows of the first tree of `b` over the span of `n` tokens from `j` on. A right child that
// waits stands in `waits` by its start: what follows the leaf at `i` begins at `i` + 1.
fn walk(words: &[u64], hs: &[u16], s: Sentence, g: Grammar, z: &[u64], b: u8, j: u8, n: u8) -> u64
    requires ready { Ready g s words.now hs.now × (0 < n) × (j + n ≤ s.count) }
    requires nulls { Nulls (rules_of g) z.now }
    requires first_there { FirstThere (rules_of g) b (part (spelled s) j n) }
    ensures { (t : Tree) → FirstTree (rules_of g) b (part (spelled s) j n) t
        → result ≡ capped (row_count t) }
{
    let end = j + n;
    let mut waits = [Child { name: 0, long: 0 }; 65];
    let mut a = b;
    let mut i = j;
    let mut l = n;
    let mut total = 0;
    // Kept: a turn goes on to the next node, and how many there are is what is counted.
    while total < LIMIT {
        let st = choose(words, hs, s, g, a, i, l, false);
        total = add(total, own(z, st.kind, l));
        let Some(d) = down(st.kind, l) else {
            i += 1;
            if i == end {
                return total;
            }
            let next = waits[i as usize];
            a = next.name;
            l = next.long;
            continue;
        };
        if let Some(right) = d.right {
            waits[i as usize + d.first.long as usize] = right;
        }
        a = d.first.name;
        l = d.first.long;
    }
    total
}

// The rows of the first tree of `a` over the span of `l` tokens from `i` on; those over the empty
// word stand in the table.
fn count_first(
    words: &[u64],
    hs: &[u16],
    s: Sentence,
    g: Grammar,
    z: &[u64],
    a: u8,
    i: u8,
    l: u8,
) -> u64
    requires ready { Ready g s words.now hs.now × (a < 64) × (i + l ≤ s.count) }
    requires nulls { Nulls (rules_of g) z.now }
    requires first_there { FirstThere (rules_of g) a (part (spelled s) i l) }
    ensures { (t : Tree) → FirstTree (rules_of g) a (part (spelled s) i l) t
        → result ≡ capped (row_count t) }
{
    if l == 0 {
        return z[a as usize];
    }
    walk(words, hs, s, g, z, a, i, l)
}

// The rows of a node with first trees beneath: of the second tree, where it parts from the first.
fn under(
    words: &[u64],
    hs: &[u16],
    s: Sentence,
    g: Grammar,
    z: &[u64],
    st: Step,
    i: u8,
    l: u8,
) -> u64
    requires ready { Ready g s words.now hs.now × (i + l ≤ s.count) }
    requires nulls { Nulls (rules_of g) z.now }
    requires parted_there { PartedThere (rules_of g) (spelled s) st i l }
    ensures { (u : Tree) → Parted (rules_of g) (spelled s) st i l u
        → result ≡ capped (row_count u) }
{
    match st.kind {
        Kind::Unary(b) => add(1, count_first(words, hs, s, g, z, b, i, l)),
        Kind::Binary(b, e, split) => {
            let x = count_first(words, hs, s, g, z, b, i, split);
            let y = count_first(words, hs, s, g, z, e, i + split, l - split);
            add(1, add(x, y))
        }
        Kind::Empty | Kind::Atom | Kind::Closed => 1,
    }
}

// A nonterminal over the span of `long` tokens from `start` on.
#[derive(Clone, Copy)]
pub struct Part {
    pub name: u8,
    pub start: u8,
    pub long: u8,
}

// Where the second tree goes on below a node that has one choice only, and the child beside it,
// where there is one.
#[derive(Clone, Copy)]
pub struct Way {
    pub on: Part,
    pub beside: Option<Part>,
}

// It goes on in the first child that has two trees.
fn onward(words: &[u64], n: usize, kind: Kind, i: u8, l: u8) -> Way
    requires { Onto words.now n kind i l }
    ensures { Onward words.now n kind i l result }
{
    match kind {
        Kind::Unary(b) => Way {
            on: Part {
                name: b,
                start: i,
                long: l,
            },
            beside: None,
        },
        Kind::Binary(b, e, split) => {
            let left = Part {
                name: b,
                start: i,
                long: split,
            };
            let right = Part {
                name: e,
                start: i + split,
                long: l - split,
            };
            if in_second(words, n, i as usize, split as usize, b) {
                return Way {
                    on: left,
                    beside: Some(right),
                };
            }
            Way {
                on: right,
                beside: Some(left),
            }
        }
        Kind::Empty | Kind::Atom | Kind::Closed => unreachable!(),
    }
}

// The rows of such a node and of the first tree beside the way.
fn beside(words: &[u64], hs: &[u16], s: Sentence, g: Grammar, z: &[u64], other: Option<Part>) -> u64
    requires ready { Ready g s words.now hs.now }
    requires nulls { Nulls (rules_of g) z.now }
    requires beside_there { BesideThere (rules_of g) (spelled s) other }
    ensures { Beside (rules_of g) (spelled s) other result }
{
    match other {
        Some(p) => add(1, count_first(words, hs, s, g, z, p.name, p.start, p.long)),
        None => 1,
    }
}

// The rows of the second tree: one way down to the node where it parts from the first.
fn walk_second(words: &[u64], hs: &[u16], s: Sentence, g: Grammar, z: &[u64]) -> u64
    requires ready { Ready g s words.now hs.now }
    requires nulls { Nulls (rules_of g) z.now }
    requires wanted { Wanted (rules_of g) 0 (spelled s) true }
    ensures { (u : Tree) → SecondTree (rules_of g) 0 (spelled s) u
        → result ≡ capped (row_count u) }
{
    let n = s.count;
    let mut a: u8 = 0;
    let mut i: u8 = 0;
    let mut l = n as u8;
    let mut total = 0;
    // Kept: a turn goes one node down, until the trees part.
    while total < LIMIT {
        let st = choose(words, hs, s, g, a, i, l, true);
        if !st.seeking {
            return add(total, under(words, hs, s, g, z, st, i, l));
        }
        let d = onward(words, n, st.kind, i, l);
        total = add(total, beside(words, hs, s, g, z, d.beside));
        a = d.on.name;
        i = d.on.start;
        l = d.on.long;
    }
    total
}

// How many rows each tree has, up to 4,294,967,295; none where it has more.
#[derive(Clone, Copy)]
pub struct RowCounts {
    pub first: Option<u32>,
    pub second: Option<u32>,
}

// A capped count as an answer.
fn told(n: u64) -> Option<u32>
    requires { n ≤ 4294967296 }
    ensures { (c : ℕ) → n ≡ capped c → Tells result c }
{
    if n < LIMIT { Some(n as u32) } else { None }
}

// The rows of the second tree, where there are two; else none.
fn count_second(words: &[u64], hs: &[u16], s: Sentence, g: Grammar, z: &[u64], two: bool) -> u64
    requires ready { Ready g s words.now hs.now }
    requires nulls { Nulls (rules_of g) z.now }
    requires wanted { Wanted (rules_of g) 0 (spelled s) two }
    ensures { SecondCounted (rules_of g) (spelled s) two result }
{
    if two {
        return walk_second(words, hs, s, g, z);
    }
    0
}

// The rows of each tree that is there, by the heights that are lent.
fn count_by(words: &[u64], hs: &[u16], s: Sentence, g: Grammar, two: bool) -> RowCounts
    requires ready { Ready g s words.now hs.now }
    requires has_firsts { HasFirsts (rules_of g) }
    requires wanted { Wanted (rules_of g) 0 (spelled s) two }
    ensures { RowsTold (rules_of g) (spelled s) two result }
{
    let n = s.count;
    let mut z = [0u64; 64];
    null_counts(&mut z, words, hs, s, g);
    let a = count_first(words, hs, s, g, &z, 0, 0, n as u8);
    let b = count_second(words, hs, s, g, &z, two);
    let first = told(a);
    let second = told(b);
    RowCounts { first, second }
}

// The same on a looping sheet. Its least heights stand in a local array, which this function alone
// makes: 266 KB of stack.
fn count_low(words: &[u64], s: Sentence, g: Grammar, two: bool) -> RowCounts
    requires charted { Charted g s words.now }
    requires has_firsts { HasFirsts (rules_of g) }
    requires wanted { Wanted (rules_of g) 0 (spelled s) two }
    requires cyclic { Cyclic (rules_of g) }
    ensures { RowsTold (rules_of g) (spelled s) two result }
{
    let mut hs = [65535u16; HEIGHTS];
    heights(&mut hs, s, g);
    count_by(words, &hs, s, g, two)
}

// The rows of the first tree and, where the verdict is two, of the second.
pub fn count_rows(words: &[u64], s: Sentence, g: Grammar, two: bool) -> RowCounts
    requires charted { Charted g s words.now }
    requires has_firsts { HasFirsts (rules_of g) }
    requires wanted { Wanted (rules_of g) 0 (spelled s) two }
    ensures { RowsTold (rules_of g) (spelled s) two result }
{
    if cyclic(g) {
        return count_low(words, s, g, two);
    }
    let hs = [0u16; 1];
    count_by(words, &hs[..0], s, g, two)
}
