// Refuting a block of candidates: terminals first, from the last token backward, then positions. A
// candidate may be passed over if an earlier one that has its first h cells has two trees where it
// has.
#![tactic(auto)]

ghost use Rattle.std.specs.Prelude.{◌≡◌, true, false, ◌+◌, ◌*◌, ◌≤◌, ◌<◌, length};
ghost use Rattle.sets.specs.Says.{Says};
ghost use Rattle.grammar.specs.Trees.{TwoTrees};
ghost use Rattle.grammar.specs.SpanSheet.{pairs};
ghost use Rattle.spans.specs.Changes.{Past};
ghost use Rattle.grammar.specs.Candidates.{sentence};
ghost use Rattle.grammar.specs.Candidates as Of;
ghost use Rattle.candidates.specs.Terminals.{Among};
ghost use Rattle.marks.specs.Drafts.{drafted};
ghost use Rattle.candidates.specs.Arrays.{cells};
ghost use Rattle.candidates.specs.Spelling.{LowSteps};
ghost use Rattle.chart.specs.Leaves.{EmptyPair};
ghost use Rattle.equivalents.specs.Twins.{Renames, Replaceable};
ghost use Rattle.pruning.specs.Tables.{Small, Slot, LeavesPut, Gathered, Tabled};
ghost use Rattle.pruning.specs.Refuting.{PositionsFilled, Moved, Rises, terminal_at_of};
ghost use Rattle.pruning.specs.Refuting.{TerminalChanged, TerminalOpen};
ghost use Rattle.pruning.specs.Refuting.{TerminalsFilled, PositionTried, PositionsSearched};
ghost use Rattle.pruning.specs.Refuting.{AllPositionsSearched, TerminalTried, Done};
ghost use Rattle.grammar.specs.Content.{rules_of, Formed};
ghost use Rattle.refilling.specs.Kept.{Mirrored};

use candidates::Candidate;
use cuts::Pair;
use equivalents::earlier_twin;
use filling::{empty_pair, leaf_pair};
use grammar::{Cell, Grammar};
use marks::Draft;
use refilling::{no_two, put_empty, put_leaf, refill};
use sets::has;
use spans::{in_second, write};

// Two words for each of 64 terminals, for any terminal and for the empty word.
pub const TABLE: usize = 132;

// The candidate's sentence of n tokens, of which the first `known` count.
fn draft(c: Candidate, n: usize, known: usize) -> Draft<7>
    requires { (n ≤ 7) × LowSteps (cells c 0 n) }
    ensures { (drafted result ≡ sentence (cells c 0 n)) × (result.count ≡ n)
        × (result.known ≡ known) }
{
    Draft {
        tokens: c.tokens(n),
        count: n,
        known,
    }
}

// The candidate with the k-th position at i: the line step k / n and the column k % n + 1.
fn moved(c: Candidate, n: usize, i: usize, k: usize) -> Candidate
    requires n_bound { (n ≤ 7) × (i < n) × (k < 3 * n) }
    requires low_steps { LowSteps (cells c 0 n) }
    ensures { Moved n i k (cells c 0 n) (cells result 0 n) × LowSteps (cells result 0 n) }
{
    let step = (k / n) as u8;
    let column = (k % n + 1) as u16;
    c.with(
        i,
        Cell {
            step,
            column,
            ..c.cell(i)
        },
    )
}

// Does the cell at i come after the one before?
fn rises(c: Candidate, n: usize, i: usize) -> bool
    requires { (n ≤ 7) × (i < n) }
    ensures { result ≡ false → Rises (cells c 0 n) i → ⊥ }
{
    let d = c.cell(i);
    if d.step == 0 {
        return c.column_before(i) < d.column;
    }
    i != 0
}

// Try the position at i of the candidate c: is it refuted? If not, the words are filled with it.
fn try_position(
    g: Grammar,
    c: Candidate,
    n: usize,
    i: usize,
    h: usize,
    words: &mut [u64],
    cuts: &mut [u64],
) -> bool
    requires n_bound { (n ≤ 7) × (i < n) × LowSteps (cells c 0 n) × (h ≤ i) }
    requires formed { Formed g }
    requires n_in_bounds { 2 * pairs n ≤ length words.old }
    requires positions_filled { PositionsFilled (rules_of g) n i (cells c 0 n) words.old }
    requires mirrored { Mirrored (rules_of g) n words.old cuts.old }
    ensures position_tried { PositionTried result (rules_of g) n h i (cells c 0 n) words.old
        words.new }
    ensures mirrored_2 { Mirrored (rules_of g) n words.new cuts.new }
{
    if !rises(c, n, i) {
        return true;
    }
    if earlier_twin(c, n, i + 1, h) {
        return true;
    }
    let d = draft(c, n, i + 1);
    no_two(words, cuts, d, g, i, n)
}

// Has a candidate that shares the first i cells of c, and has its terminals, perhaps two trees and
// no twin?
fn try_positions(
    g: Grammar,
    c: Candidate,
    n: usize,
    i: usize,
    h: usize,
    words: &mut [u64],
    cuts: &mut [u64],
) -> bool
    requires n_bound { (n ≤ 7) × (i ≤ n) × LowSteps (cells c 0 n) × (h ≤ i) }
    requires formed { Formed g }
    requires n_in_bounds { 2 * pairs n ≤ length words.old }
    requires positions_filled { PositionsFilled (rules_of g) n i (cells c 0 n) words.old }
    requires mirrored { Mirrored (rules_of g) n words.old cuts.old }
    ensures positions_searched { PositionsSearched result (rules_of g) n h i (cells c 0 n) words.old
        words.new }
    ensures mirrored_2 { Mirrored (rules_of g) n words.new cuts.new }
{
    if i == n {
        return true;
    }
    for k in 0..3 * n {
        let m = moved(c, n, i, k);
        if try_position(g, m, n, i, h, words, cuts) {
            continue;
        }
        if try_positions(g, m, n, i + 1, h, words, cuts) {
            return true;
        }
    }
    false
}

// The positions of c, all its terminals being fixed: the same, and where all are refuted the spans
// of tokens from b on are filled for open positions again.
fn positions(
    g: Grammar,
    c: Candidate,
    n: usize,
    b: usize,
    h: usize,
    words: &mut [u64],
    cuts: &mut [u64],
) -> bool
    requires n_bound { (n ≤ 7) × (b ≤ n) × LowSteps (cells c 0 n) × (h ≤ b) }
    requires formed { Formed g }
    requires n_in_bounds { 2 * pairs n ≤ length words.old }
    requires positions_filled { PositionsFilled (rules_of g) n b (cells c 0 n) words.old }
    requires mirrored { Mirrored (rules_of g) n words.old cuts.old }
    ensures all_positions_searched { AllPositionsSearched result (rules_of g) n h b (cells c 0 n)
        words.old
        words.new }
    ensures mirrored_2 { Mirrored (rules_of g) n words.new cuts.new }
{
    if try_positions(g, c, n, b, h, words, cuts) {
        return true;
    }
    let d = draft(c, n, b);
    no_two(words, cuts, d, g, b, n);
    false
}

// The candidate with the terminal x at j.
fn with_terminal(c: Candidate, n: usize, j: usize, x: u8) -> Candidate
    requires n_bound { (n ≤ 7) × (j < n) }
    requires low_steps { LowSteps (cells c 0 n) }
    ensures { TerminalChanged j x (cells c 0 n) (cells result 0 n) × LowSteps (cells result 0 n) }
{
    c.with(
        j,
        Cell {
            terminal: x,
            ..c.cell(j)
        },
    )
}

// Try the terminal x of c at j, whose pair the table has: is it refuted? The words are filled with
// it.
fn try_terminal(
    g: Grammar,
    set: u64,
    table: &[u64],
    c: Candidate,
    n: usize,
    b: usize,
    j: usize,
    x: u8,
    words: &mut [u64],
    cuts: &mut [u64],
) -> bool
    requires n_bound { (n ≤ 7) × (b ≤ j) × (j < n) × LowSteps (cells c 0 n) }
    requires formed { Formed g }
    requires n_in_bounds { 2 * pairs n ≤ length words.old }
    requires tabled { Tabled (rules_of g) set table.now × Among set x
        × (terminal_at_of (cells c 0 n) j ≡ x) }
    requires terminal_open { TerminalOpen (rules_of g) set n b j (cells c 0 n) words.old }
    requires mirrored { Mirrored (rules_of g) n words.old cuts.old }
    ensures terminal_tried { TerminalTried result (rules_of g) set n b j (cells c 0 n) words.old
        words.new }
    ensures mirrored_2 { Mirrored (rules_of g) n words.new cuts.new }
{
    let at = 2 * (x as usize);
    put_leaf(words, cuts, g, n, j, table[at], table[at + 1]);
    let d = draft(c, n, b);
    no_two(words, cuts, d, g, b, j + 1)
}

// Has a candidate that shares the first b cells of c, and has its terminals from j on, perhaps two
// trees and no twin?
fn try_terminals(
    g: Grammar,
    set: u64,
    kept: u64,
    table: &[u64],
    c: Candidate,
    n: usize,
    b: usize,
    h: usize,
    j: usize,
    words: &mut [u64],
    cuts: &mut [u64],
) -> bool
    requires n_bound { (n ≤ 7) × (b ≤ j) × (j ≤ n) × LowSteps (cells c 0 n) × (h ≤ b)
        × Renames (rules_of g) set kept }
    requires formed { Formed g }
    requires n_in_bounds { 2 * pairs n ≤ length words.old }
    requires tabled { Tabled (rules_of g) set table.now }
    requires terminals_filled { TerminalsFilled (rules_of g) set n b j (cells c 0 n) words.old }
    requires mirrored { Mirrored (rules_of g) n words.old cuts.old }
    ensures done { Done result (rules_of g) set n h b j (cells c 0 n) words.old
        words.new }
    ensures mirrored_2 { Mirrored (rules_of g) n words.new cuts.new }
{
    if j == b {
        return positions(g, c, n, b, h, words, cuts);
    }
    let i = j - 1;
    for x in 0u8..64 {
        if !has(kept, x) {
            continue;
        }
        let m = with_terminal(c, n, i, x);
        if try_terminal(g, set, table, m, n, b, i, x, words, cuts) {
            continue;
        }
        if try_terminals(g, set, kept, table, m, n, b, h, i, words, cuts) {
            return true;
        }
    }
    put_leaf(words, cuts, g, n, i, table[128], table[129]);
    false
}

// The place in the table of the pair that the token at i is given at first: that of its terminal,
// if it is one of the first b, else that of a token that may have any.
fn slot(c: Candidate, b: usize, n: usize, i: usize) -> usize
    requires { (n ≤ 7) × (i < n) }
    ensures { Slot (cells c 0 n) b i result }
{
    if i < b { c.terminals[i] as usize } else { 64 }
}

// Give all tokens and the empty word their first pairs.
fn put_leaves(
    g: Grammar,
    table: &[u64],
    c: Candidate,
    n: usize,
    b: usize,
    words: &mut [u64],
    cuts: &mut [u64],
)
    requires n_bound { (n ≤ 7) × Small (cells c 0 n) b }
    requires n_in_bounds { 2 * pairs n ≤ length words.old }
    requires table_len { length table.now ≡ 132 }
    requires mirrored { Mirrored (rules_of g) n words.old cuts.old }
    ensures leaves_put { LeavesPut table.now (cells c 0 n) n b words.old
        words.new }
    ensures mirrored_2 { Mirrored (rules_of g) n words.new cuts.new }
{
    for i in 0..n {
        let at = 2 * slot(c, b, n, i);
        put_leaf(words, cuts, g, n, i, table[at], table[at + 1]);
    }
    put_empty(words, cuts, g, n, table[130], table[131]);
}

// Fill the words for the candidate's first b cells, all others being open.
fn begin(
    g: Grammar,
    set: u64,
    table: &[u64],
    c: Candidate,
    n: usize,
    b: usize,
    words: &mut [u64],
    cuts: &mut [u64],
)
    requires n_bound { (n ≤ 7) × (b ≤ n) × Of.Candidate (Among set) n (cells c 0 n) }
    requires formed { Formed g }
    requires n_in_bounds { 2 * pairs n ≤ length words.old }
    requires tabled { Tabled (rules_of g) set table.now }
    requires mirrored { Mirrored (rules_of g) n words.old cuts.old }
    ensures terminals_filled { TerminalsFilled (rules_of g) set n b n (cells c 0 n) words.new }
    ensures past { Past (2 * pairs n) words.old words.new }
    ensures mirrored_2 { Mirrored (rules_of g) n words.new cuts.new }
{
    put_leaves(g, table, c, n, b, words, cuts);
    let d = draft(c, n, b);
    refill(words, cuts, d, g, 0, n);
}

// Has each candidate that shares the first b cells of c and has two trees a twin that has its first
// h cells? (Where the answer is no, one may have none.) Of the terminals past the first b cells
// those that are kept are tried.
pub fn twinned(
    g: Grammar,
    set: u64,
    kept: u64,
    table: &[u64],
    c: Candidate,
    n: usize,
    b: usize,
    h: usize,
    words: &mut [u64],
    cuts: &mut [u64],
) -> bool
    requires n_bound { (n ≤ 7) × (b ≤ n) × Of.Candidate (Among set) n (cells c 0 n) × (h ≤ b)
        × Renames (rules_of g) set kept }
    requires formed { Formed g }
    requires n_in_bounds { 2 * pairs n ≤ length words.old }
    requires tabled { Tabled (rules_of g) set table.now }
    requires mirrored { Mirrored (rules_of g) n words.old cuts.old }
    ensures replaceable { (result ≡ true → Replaceable (rules_of g) set n b h (cells c 0 n))
        × Past (2 * pairs n) words.old words.new }
    ensures mirrored_2 { Mirrored (rules_of g) n words.new cuts.new }
{
    begin(g, set, table, c, n, b, words, cuts);
    !try_terminals(g, set, kept, table, c, n, b, h, n, words, cuts)
}

// Is no candidate that shares the first b cells of c the first with two trees? (Where the answer is
// no, one may be.)
pub fn refutes(
    g: Grammar,
    set: u64,
    table: &[u64],
    c: Candidate,
    n: usize,
    b: usize,
    words: &mut [u64],
    cuts: &mut [u64],
) -> bool
    requires n_bound { (n ≤ 7) × (b ≤ n) × Of.Candidate (Among set) n (cells c 0 n) }
    requires formed { Formed g }
    requires n_in_bounds { 2 * pairs n ≤ length words.old }
    requires tabled { Tabled (rules_of g) set table.now }
    requires mirrored { Mirrored (rules_of g) n words.old cuts.old }
    ensures replaceable { (result ≡ true → Replaceable (rules_of g) set n b 0 (cells c 0 n))
        × Past (2 * pairs n) words.old words.new }
    ensures mirrored_2 { Mirrored (rules_of g) n words.new cuts.new }
{
    twinned(g, set, set, table, c, n, b, 0, words, cuts)
}

// Has the candidate two trees?
pub fn has_two(
    g: Grammar,
    set: u64,
    table: &[u64],
    c: Candidate,
    n: usize,
    words: &mut [u64],
    cuts: &mut [u64],
) -> bool
    requires n_bound { (n ≤ 7) × Of.Candidate (Among set) n (cells c 0 n) }
    requires formed { Formed g }
    requires n_in_bounds { 2 * pairs n ≤ length words.old }
    requires tabled { Tabled (rules_of g) set table.now }
    requires mirrored { Mirrored (rules_of g) n words.old cuts.old }
    ensures says { Says result (TwoTrees (rules_of g) 0 (sentence (cells c 0 n)))
        × Past (2 * pairs n) words.old words.new }
    ensures mirrored_2 { Mirrored (rules_of g) n words.new cuts.new }
{
    begin(g, set, table, c, n, n, words, cuts);
    in_second(words, n, 0, n, 0)
}

// Fill the table with the pair of each terminal of the set, that of x at 2 x, and answer their
// union: the pair of a token that may have any of them. The empty word's pair is `one` and `two`.
fn leaves(g: Grammar, set: u64, one: u64, two: u64, table: &mut [u64]) -> Pair
    requires formed { Formed g }
    requires empty_pair { EmptyPair (rules_of g) one two }
    requires table_len { length table.old ≡ 132 }
    ensures { Gathered (rules_of g) set 64 table.old table.new result.one
        result.two }
{
    let mut any: u64 = 0;
    let mut twice: u64 = 0;
    for x in 0u8..64 {
        if !has(set, x) {
            continue;
        }
        let l = leaf_pair(g, x, one, two);
        write(table, x as usize, l.one, l.two);
        any |= l.one;
        twice |= l.two;
    }
    Pair {
        one: any,
        two: twice,
    }
}

// Fill the table of the pairs that the search gives: at 2 x that of the terminal x, where the set
// has it; at 128 that of a token that may have any terminal of the set; at 130 that of the empty
// word.
pub fn fill_table(g: Grammar, set: u64, table: &mut [u64])
    requires formed { Formed g }
    requires table_len { length table.old ≡ 132 }
    ensures { Tabled (rules_of g) set table.new }
{
    let e = empty_pair(g);
    let w = leaves(g, set, e.one, e.two, table);
    write(table, 64, w.one, w.two);
    write(table, 65, e.one, e.two);
}
