// The first and the second tree of a sentence, written as rows into lent bytes.
#![tactic(auto)]

ghost use Rattle.std.specs.Prelude.{◌+◌, ◌*◌, ◌-◌, ◌<◌};
ghost use Rattle.std.proofs.Math.Option.{Option, none, some};
ghost use Rattle.grammar.specs.Trees.{Tree};
ghost use Rattle.grammar.specs.Choices.{FirstTree};
ghost use Rattle.grammar.specs.Cycles.{Cyclic};
ghost use Rattle.grammar.specs.Content.{rules_of};
ghost use Rattle.tree_choices.specs.Wanted.{Charted, Ready, Goal, Wanted};
ghost use Rattle.tree_writer.specs.RowsWritten.{RowsWritten};
ghost use Rattle.grammar.specs.Sentences.{spelled};
ghost use Rattle.tree_view.specs.Members.{member};
ghost use Rattle.tree_writer.specs.Written.{Display, seen_by};
ghost use Rattle.tree_writer.specs.Memories.{SecondIf, Written};

use acyclic::cyclic;
use grammar::{Grammar, Sentence};
use heights::{HEIGHTS, heights};
use rows::{branch, clear, kids, put, start_of};
use tree_choices::look;

// How many rows each tree has, 0 for one that is not written.
#[derive(Clone, Copy)]
pub struct Counts {
    pub first: usize,
    pub second: usize,
}

// The rows of the first tree or, seeking, of the second, with zeros after them; their number. Zeros
// and none where they do not fit. A node outside the set `sees` is one row of kind 4. `hs` is the
// least heights where the sheet loops, and empty where it does not. Rows grow from the front,
// pending nodes stand at the end, one place each: together they are at most the rows that are due.
pub fn write(
    words: &[u64],
    hs: &[u16],
    s: Sentence,
    g: Grammar,
    sees: u64,
    out: &mut [u8],
    seeking: bool,
) -> Option<usize>
    requires ready { Ready g s words.now hs.now }
    requires wanted { Wanted (rules_of g) 0 (spelled s) seeking }
    ensures { (u : Tree) → Goal (rules_of g) 0 (spelled s) seeking u
        → RowsWritten (member sees) u out.old out.new result }
{
    let places = out.len() / 4;
    if places == 0 {
        clear(out, 0);
        return None;
    }
    let mut n: usize = 0;
    let mut top = places - 1;
    let mut seek = seeking;
    put(out, 4 * top, [0, 0, s.count as u8, 0]);
    // Kept: a turn writes a row, but how many there are shows only once no node is pending.
    while top < places {
        let a = out[4 * top];
        let i = out[4 * top + 1];
        let l = out[4 * top + 2];
        let st = look(words, hs, s, g, sees, a, i, l, seek);
        let more = kids(st.kind);
        if top < n + more {
            clear(out, 0);
            return None;
        }
        let kind = u8::from(st.kind);
        put(out, 4 * n, [a, kind, start_of(i, l), l]);
        top = branch(out, top + 1, i, l, st.kind);
        n += 1;
        seek = st.seeking;
    }
    clear(out, 4 * n);
    Some(n)
}

// The verdict is none: neither tree.
pub fn write_none(first: &mut [u8], second: &mut [u8]) -> Option<Counts>
    ensures { (dis : Display)
        → Written dis none none first.old second.old first.new
        second.new result }
{
    clear(first, 0);
    clear(second, 0);
    Some(Counts {
        first: 0,
        second: 0,
    })
}

// The first tree and, where there are `two`, the second, as they are shown, by the heights that are
// lent. None where a tree of the answer has more rows than its memory has places (refusal 22).
fn trees_by(
    words: &[u64],
    hs: &[u16],
    s: Sentence,
    g: Grammar,
    sees: u64,
    first: &mut [u8],
    second: &mut [u8],
    two: bool,
) -> Option<Counts>
    requires ready { Ready g s words.now hs.now }
    requires wanted { Wanted (rules_of g) 0 (spelled s) two }
    ensures { (t : Tree) (u : Option Tree) → FirstTree (rules_of g) 0 (spelled s) t
        → SecondIf (rules_of g) 0 (spelled s) two u
        → Written (seen_by (member sees)) (some t) u first.old second.old
        first.new second.new result }
{
    let Some(n) = write(words, hs, s, g, sees, first, false) else {
        clear(second, 0);
        return None;
    };
    if !two {
        clear(second, 0);
        return Some(Counts {
            first: n,
            second: 0,
        });
    }
    let Some(m) = write(words, hs, s, g, sees, second, true) else {
        clear(first, 0);
        return None;
    };
    Some(Counts {
        first: n,
        second: m,
    })
}

// The same on a looping sheet. Its least heights stand in a local array, which this function alone
// makes: 266 KB of stack.
fn trees_low(
    words: &[u64],
    s: Sentence,
    g: Grammar,
    sees: u64,
    first: &mut [u8],
    second: &mut [u8],
    two: bool,
) -> Option<Counts>
    requires charted { Charted g s words.now }
    requires wanted { Wanted (rules_of g) 0 (spelled s) two }
    requires cyclic { Cyclic (rules_of g) }
    ensures { (t : Tree) (u : Option Tree) → FirstTree (rules_of g) 0 (spelled s) t
        → SecondIf (rules_of g) 0 (spelled s) two u
        → Written (seen_by (member sees)) (some t) u first.old second.old
        first.new second.new result }
{
    let mut hs = [65535u16; HEIGHTS];
    heights(&mut hs, s, g);
    trees_by(words, &hs, s, g, sees, first, second, two)
}

// The verdict is one or `two`: the first tree, or both, as they are shown.
pub fn write_trees(
    words: &[u64],
    s: Sentence,
    g: Grammar,
    sees: u64,
    first: &mut [u8],
    second: &mut [u8],
    two: bool,
) -> Option<Counts>
    requires charted { Charted g s words.now }
    requires wanted { Wanted (rules_of g) 0 (spelled s) two }
    ensures { (t : Tree) (u : Option Tree) → FirstTree (rules_of g) 0 (spelled s) t
        → SecondIf (rules_of g) 0 (spelled s) two u
        → Written (seen_by (member sees)) (some t) u first.old second.old
        first.new second.new result }
{
    if cyclic(g) {
        return trees_low(words, s, g, sees, first, second, two);
    }
    let hs = [0u16; 1];
    trees_by(words, &hs[..0], s, g, sees, first, second, two)
}
