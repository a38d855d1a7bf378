// What the first and the second tree take at a node, and what is shown of it.
#![tactic(auto)]

ghost use Rattle.std.specs.Prelude.{◌≡◌, true, false, ◌+◌, ◌-◌, ◌≤◌, ◌<◌};
ghost use Rattle.grammar.specs.Choices.{FirstChoice, LowChoice, Preferred};
ghost use Rattle.grammar.specs.Content.{rules_of};
ghost use Rattle.grammar.specs.SpanSheet.{part};
ghost use Rattle.tree_choices.specs.Wanted.{Charted, Ready};
ghost use Rattle.tree_choices.specs.Lows.{height_by, Inside};
ghost use Rattle.tree_choices.specs.Picks.{HasChoice, PickedStep, Passes, Looked};
ghost use Rattle.heights.specs.Least.{HeightSheet};
ghost use Rattle.rows.specs.Steps.{closed_step};
ghost use Rattle.grammar.specs.Sentences.{spelled};
ghost use Rattle.tree_view.specs.Members.{member};

use choices::{FIRST, Pick, next_choice};
use grammar::{Grammar, Sentence};
use heights::high;
use rows::{Kind, Step, step_of};
use sets::{has, wide};
use spans::in_second;

// How high a tree stands whose top is of this kind and whose children are as low as can be.
fn height_of(hs: &[u16], n: usize, kind: Kind, start: usize, len: usize) -> usize
    requires { Inside hs.now n kind start len }
    ensures { result ≡ height_by hs.now n kind start len }
{
    match kind {
        Kind::Unary(b) => 1 + high(hs, n, start, len, b) as usize,
        Kind::Binary(b, e, split) => {
            let k = wide(split);
            let x = high(hs, n, start, k, b);
            let y = high(hs, n, start + k, len - k, e);
            1 + x.max(y) as usize
        }
        Kind::Empty | Kind::Atom | Kind::Closed => 1,
    }
}

// On a looping sheet: the earliest choice of `a` at the span that gives the least height.
fn low_choice(
    words: &[u64],
    hs: &[u16],
    s: Sentence,
    g: Grammar,
    a: u8,
    start: usize,
    len: usize,
) -> Pick
    requires ready { Ready g s words.now hs.now × (start + len ≤ s.count) × (a < 64) }
    requires height_sheet { HeightSheet (rules_of g) (spelled s) hs.now }
    requires has_choice { HasChoice (rules_of g) a (part (spelled s) start len) }
    ensures { LowChoice (rules_of g) a (part (spelled s) start len) result.rule result.left }
{
    let n = s.count;
    let least = high(hs, n, start, len, a) as usize;
    let mut from = FIRST;
    'search: loop {
        let found = next_choice(words, s, g, a, start, len, from).unwrap();
        let st = step_of(g, found.rule, found.left, false);
        if height_of(hs, n, st.kind, start, len) <= least {
            return found;
        }
        from = Pick {
            rule: found.rule,
            left: found.left + 1,
        };
    }
}

// The choice that the first tree takes at a node. Where no heights are lent the sheet has no loop.
fn preferred(
    words: &[u64],
    hs: &[u16],
    s: Sentence,
    g: Grammar,
    a: u8,
    start: usize,
    len: usize,
) -> Pick
    requires ready { Ready g s words.now hs.now × (start + len ≤ s.count) }
    requires has_choice { HasChoice (rules_of g) a (part (spelled s) start len) }
    ensures { Preferred (rules_of g) a (part (spelled s) start len) result.rule result.left }
{
    if hs.is_empty() {
        return next_choice(words, s, g, a, start, len, FIRST).unwrap();
    }
    low_choice(words, hs, s, g, a, start, len)
}

// While seeking, at a node whose first choice of all is `taken`, which the first tree takes: the
// second, where there is one, and the seeking ends.
fn after(
    words: &[u64],
    s: Sentence,
    g: Grammar,
    a: u8,
    start: usize,
    len: usize,
    taken: Pick,
) -> Step
    requires charted { Charted g s words.now × (start + len ≤ s.count) }
    requires first_choice { FirstChoice (rules_of g) a (part (spelled s) start len)
        taken.rule taken.left }
    requires preferred { Preferred (rules_of g) a (part (spelled s) start len)
        taken.rule taken.left }
    ensures { PickedStep (rules_of g) a (part (spelled s) start len) true result }
{
    let from = Pick {
        rule: taken.rule,
        left: taken.left + 1,
    };
    match next_choice(words, s, g, a, start, len, from) {
        Some(other) => step_of(g, other.rule, other.left, false),
        None => step_of(g, taken.rule, taken.left, true),
    }
}

// While seeking, at a node where the first tree takes `taken`: the earliest choice that is another,
// where there is one.
fn other_choice(
    words: &[u64],
    s: Sentence,
    g: Grammar,
    a: u8,
    start: usize,
    len: usize,
    taken: Pick,
) -> Step
    requires charted { Charted g s words.now × (start + len ≤ s.count) }
    requires preferred { Preferred (rules_of g) a (part (spelled s) start len)
        taken.rule taken.left }
    ensures { PickedStep (rules_of g) a (part (spelled s) start len) true result }
{
    let first = next_choice(words, s, g, a, start, len, FIRST).unwrap();
    if first != taken {
        return step_of(g, first.rule, first.left, false);
    }
    after(words, s, g, a, start, len, taken)
}

// What is taken at a node: what the first tree takes; while seeking, another choice where there is
// one.
pub fn choose(
    words: &[u64],
    hs: &[u16],
    s: Sentence,
    g: Grammar,
    a: u8,
    i: u8,
    n: u8,
    seeking: bool,
) -> Step
    requires ready { Ready g s words.now hs.now × (i + n ≤ s.count) }
    requires has_choice { HasChoice (rules_of g) a (part (spelled s) i n) }
    ensures { PickedStep (rules_of g) a (part (spelled s) i n) seeking result }
{
    let start = wide(i);
    let len = wide(n);
    let taken = preferred(words, hs, s, g, a, start, len);
    if seeking {
        return other_choice(words, s, g, a, start, len, taken);
    }
    step_of(g, taken.rule, taken.left, false)
}

// The step of a closed node: nothing beneath it is written. Seeking ends there where the
// nonterminal has two trees over the span.
fn pass(words: &[u64], s: Sentence, g: Grammar, a: u8, i: u8, n: u8, seeking: bool) -> Step
    requires charted { Charted g s words.now × (i + n ≤ s.count) }
    requires a_bound { a < 64 }
    ensures { (result ≡ closed_step result.seeking) × Passes (rules_of g) a (part (spelled s) i n)
        seeking result.seeking }
{
    let mut more = seeking;
    if seeking && in_second(words, s.count, wide(i), wide(n), a) {
        more = false;
    }
    Step {
        kind: Kind::Closed,
        seeking: more,
    }
}

// What is shown of a node: what is taken there or, where the nonterminal is not in the set, a
// closed node.
pub fn look(
    words: &[u64],
    hs: &[u16],
    s: Sentence,
    g: Grammar,
    sees: u64,
    a: u8,
    i: u8,
    n: u8,
    seeking: bool,
) -> Step
    requires ready { Ready g s words.now hs.now × (i + n ≤ s.count) }
    requires has_choice { HasChoice (rules_of g) a (part (spelled s) i n) }
    ensures { Looked (member sees) (rules_of g) a (part (spelled s) i n) seeking result }
{
    if has(sees, a) {
        return choose(words, hs, s, g, a, i, n, seeking);
    }
    pass(words, s, g, a, i, n, seeking)
}
