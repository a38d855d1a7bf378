// The search: steps of all pairs of nodes over all frames, until no step adds to the table.
#![tactic(auto)]

ghost use Rattle.std.specs.Prelude.{◌≡◌, ◌+◌, ◌*◌, ◌≤◌, ◌<◌, length};
ghost use Rattle.pair_tables.specs.Reading.{Small};
ghost use Rattle.pair_nodes.specs.Slots.{node_at, Present};
ghost use Rattle.pair_entries.specs.Entries.{search_words};
ghost use Rattle.pair_search.specs.Filling.{FilledTable};
ghost use Rattle.pair_search.specs.Running.{Apt, Ready, EntryRan};
ghost use Rattle.pair_search.specs.Running.{MetRan, CellRan, RowRan, RowsRan};
ghost use Rattle.pair_search.specs.Running.{SomeRan, Quick, Rested, BothSettled};
ghost use Rattle.pair_search.specs.Running.{Round, Searched};

use pair_entries::WORDS;
use pair_hints::HINTS;
use pair_steps::{ENTRIES, Node, SHAPES, Words};

// What changed in a pass: the nonterminals with which the words of each shape and of each
// nonterminal did, and the last node at which those of a nonterminal did.
#[derive(Clone, Copy)]
struct Changes {
    shapes: [u64; SHAPES],
    sorts: [u64; 64],
    lasts: [u64; 64],
}

// What the quick passes go by: hints, and what changed in this pass and in the one before.
#[derive(Clone, Copy)]
struct Guess {
    hints: [u64; HINTS],
    now: Changes,
    before: Changes,
}

// A step of two nodes over the frame of an entry, if it suits them. Had the table all? The flag
// says that it is first asked whether there is anything to put; a hint has said so otherwise.
#[inline(always)]
fn step_entry<const ASK: bool>(
    words: &mut [u64],
    k: usize,
    n: usize,
    x: Node,
    y: Node,
    i: usize,
    j: usize,
) -> bool
    requires { Ready words.old n × (k < n) × Apt x × Apt y × (i < 384) × (j < 384) }
    ensures { EntryRan x y i j k words.old words.new result }
{
    let kinds = words[ENTRIES + 1 + 4 * k];
    if sets::has(kinds, 4 * x.kids + y.kids) {
        let f = pair_frames::frame_at(words[ENTRIES + 4 * k] as usize);
        let from = words[ENTRIES + 2 + 4 * k] as usize;
        let end = words[ENTRIES + 3 + 4 * k] as usize;
        if ASK {
            return pair_tables::step(words, f, x, y, i, j, from, end);
        }
        return pair_tables::add(words, f, x, y, i, j, from, end);
    }
    true
}

// Steps of two nodes over the frames of all entries. Had the table all?
fn meet(words: &mut [u64], n: usize, x: Node, y: Node, i: usize, j: usize) -> bool
    requires { Ready words.old n × Apt x × Apt y × (i < 384) × (j < 384) }
    ensures { MetRan x y i j n words.old words.new result }
{
    let mut still = true;
    for k in 0..n {
        let had = step_entry::<true>(words, k, n, x, y, i, j);
        still &= had;
    }
    still
}

// Steps of the node `x` with the number `i` and the node `j`, if there is one. Had the table all?
fn cell(nodes: &[u64], words: &mut [u64], n: usize, x: Node, i: usize, j: usize) -> bool
    requires ready { Ready words.old n × (1536 ≤ length nodes.now) × (i < 384) × (j < 384) }
    requires present { Present nodes.now i × (x ≡ node_at nodes.now i) × Small x }
    ensures { CellRan nodes.now i j n words.old words.new
        result }
{
    if pair_nodes::present(nodes, j) {
        let y = pair_nodes::node_at(nodes, j);
        return meet(words, n, x, y, i, j);
    }
    true
}

// Steps of the node `x` with the number `i` and all nodes, the last first: mostly a child's rules
// stand behind its parent's. Had the table all?
fn cells(nodes: &[u64], words: &mut [u64], n: usize, x: Node, i: usize) -> bool
    requires ready { Ready words.old n × (1536 ≤ length nodes.now) × (i < 384) }
    requires present { Present nodes.now i × (x ≡ node_at nodes.now i) × Small x }
    ensures { RowRan nodes.now i n words.old words.new result }
{
    let mut still = true;
    for j in (0..SHAPES).rev() {
        let had = cell(nodes, words, n, x, i, j);
        still &= had;
    }
    still
}

// Steps of the node `i`, if there is one, with all nodes. Had the table all?
fn row(nodes: &[u64], words: &mut [u64], n: usize, i: usize) -> bool
    requires { Ready words.old n × (1536 ≤ length nodes.now) × (i < 384) }
    ensures { RowRan nodes.now i n words.old words.new result }
{
    if pair_nodes::present(nodes, i) {
        let x = pair_nodes::node_at(nodes, i);
        return cells(nodes, words, n, x, i);
    }
    true
}

// Steps of all nodes with all, over the frames of the entries. Had the table all?
fn pass(nodes: &[u64], words: &mut [u64], n: usize) -> bool
    requires { Ready words.old n × (1536 ≤ length nodes.now) }
    ensures { RowsRan nodes.now n words.old words.new result }
{
    let mut still = true;
    for k in (0..SHAPES).rev() {
        let had = row(nodes, words, n, k);
        still &= had;
    }
    still
}

// The nonterminals of a node's children with tokens; all if it has none.
fn kid_bits(x: Node) -> u64
    requires { Small x }
{
    if x.kids == 0 {
        return u64::MAX;
    }
    let one = sets::with(0, x.first);
    if x.kids == 1 {
        return one;
    }
    sets::with(one, x.second)
}

// The nonterminals with which the words of a shape `j` of the nonterminal `a` changed in this pass,
// or in the one before at the node `i` or after it.
fn changed(g: &Guess, j: usize, a: u8, i: usize) -> u64
    requires { (j < 384) × (a < 64) }
{
    if g.before.lasts[a as usize] <= i as u64 {
        return g.now.shapes[j] | g.before.shapes[j];
    }
    g.now.shapes[j]
}

// The same of the nonterminal's own words.
fn changed_sort(g: &Guess, a: u8, i: usize) -> u64
    requires { a < 64 }
{
    if g.before.lasts[a as usize] <= i as u64 {
        return g.now.sorts[a as usize] | g.before.sorts[a as usize];
    }
    g.now.sorts[a as usize]
}

// Has a word changed that steps of the nodes `i` and `j` read, since they were made?
fn touched(g: &Guess, x: Node, y: Node, i: usize, j: usize) -> bool
    requires { Small x × Small y × (i < 384) × (j < 384) }
{
    let kx = kid_bits(x);
    let ky = kid_bits(y);
    let a = changed(g, i, x.sort, i) | changed_sort(g, x.sort, i);
    let b = changed(g, j, y.sort, i) | changed_sort(g, y.sort, i);
    let c = changed_sort(g, x.first, i) | changed_sort(g, x.second, i);
    ((a | c) & ky) | (b & kx) != 0
}

// Marks the words of the shape `j` and its nonterminal `a` with the nonterminal `b`, at the node
// `i`.
fn mark(g: &mut Guess, j: usize, a: u8, b: u8, i: usize)
    requires { (j < 384) × (a < 64) × (b < 64) × (i < 384) }
{
    g.now.shapes[j] = sets::with(g.now.shapes[j], b);
    g.now.sorts[a as usize] = sets::with(g.now.sorts[a as usize], b);
    g.now.lasts[a as usize] = i as u64;
}

// These changes of all shapes and nonterminals, at the first node.
fn all_changed(with: u64) -> Changes {
    Changes {
        shapes: [with; SHAPES],
        sorts: [with; 64],
        lasts: [0; 64],
    }
}

// Steps of two nodes over the frame of an entry, and with the nodes exchanged over that of another.
// Had the table all?
fn step_both(
    words: &mut [u64],
    k: usize,
    l: usize,
    n: usize,
    x: Node,
    y: Node,
    i: usize,
    j: usize,
) -> bool
    requires ready { Ready words.old n × Apt x × Apt y × (i < 384) × (j < 384) }
    requires k_lt_n { (k < n) × (l < n) }
    ensures { SomeRan x y i j words.old words.new result }
{
    let one = step_entry::<false>(words, k, n, x, y, i, j);
    let two = step_entry::<false>(words, l, n, y, x, j, i);
    one & two
}

// The same for the entries of a hint, if it says that they might add something.
fn hinted(
    words: &mut [u64],
    n: usize,
    x: Node,
    y: Node,
    i: usize,
    j: usize,
    w: Words,
    places: u64,
    flags: u64,
) -> bool
    requires { Ready words.old n × Apt x × Apt y × (i < 384) × (j < 384) }
    ensures { SomeRan x y i j words.old words.new result }
{
    let k = (places >> 48) as usize % 256;
    let l = (places >> 56) as usize;
    if k < n && l < n && pair_hints::might_add(words, x, y, i, j, w, places, flags) {
        return step_both(words, k, l, n, x, y, i, j);
    }
    true
}

// Steps of two nodes, both ways round, over those frames where they might add something. Had the
// table all?
fn quick_meet(
    words: &mut [u64],
    hints: &[u64; HINTS],
    n: usize,
    x: Node,
    y: Node,
    i: usize,
    j: usize,
) -> bool
    requires { Ready words.old n × Apt x × Apt y × (i < 384) × (j < 384) }
    ensures { SomeRan x y i j words.old words.new result }
{
    let w = pair_hints::open_words(pair_tables::words_of(words, x, y, i, j));
    let kind = 4 * x.kids + y.kids;
    let end = pair_hints::hints_end(hints, kind);
    let mut still = true;
    let mut at = pair_hints::next_hint(hints, w, pair_hints::hints_from(hints, kind), end);
    while at < end {
        let had = hinted(words, n, x, y, i, j, w, hints[at], hints[at + 1]);
        still &= had;
        at = pair_hints::next_hint(hints, w, at + 2, end);
    }
    still
}

// Steps of the node `x` with the number `i` and the node `j`, both ways round, if there is one and
// they read a word that has changed. Had the table all?
fn quick_cell(
    nodes: &[u64],
    words: &mut [u64],
    g: &mut Guess,
    n: usize,
    x: Node,
    i: usize,
    j: usize,
) -> bool
    requires ready { Ready words.old n × (1536 ≤ length nodes.now) × (i < 384) × (j < 384) }
    requires present { Present nodes.now i × (x ≡ node_at nodes.now i) × Small x }
    ensures { Quick nodes.now words.old words.new result }
{
    if !pair_nodes::present(nodes, j) {
        return true;
    }
    let y = pair_nodes::node_at(nodes, j);
    if !touched(g, x, y, i, j) {
        return true;
    }
    if quick_meet(words, &g.hints, n, x, y, i, j) {
        return true;
    }
    mark(g, i, x.sort, y.sort, i);
    mark(g, j, y.sort, x.sort, i);
    false
}

// The same of the node `x` and the nodes up to it, the last first.
fn quick_cells(nodes: &[u64], words: &mut [u64], g: &mut Guess, n: usize, x: Node, i: usize) -> bool
    requires ready { Ready words.old n × (1536 ≤ length nodes.now) × (i < 384) }
    requires present { Present nodes.now i × (x ≡ node_at nodes.now i) × Small x }
    ensures { Quick nodes.now words.old words.new result }
{
    let mut still = true;
    for j in (0..i + 1).rev() {
        let had = quick_cell(nodes, words, g, n, x, i, j);
        still &= had;
    }
    still
}

// The same of the node `i`, if there is one.
fn quick_row(nodes: &[u64], words: &mut [u64], g: &mut Guess, n: usize, i: usize) -> bool
    requires { Ready words.old n × (1536 ≤ length nodes.now) × (i < 384) }
    ensures { Quick nodes.now words.old words.new result }
{
    if pair_nodes::present(nodes, i) {
        let x = pair_nodes::node_at(nodes, i);
        return quick_cells(nodes, words, g, n, x, i);
    }
    true
}

// A pass over each two nodes once that leaves out those that read no word that has changed.
fn quick_pass(nodes: &[u64], words: &mut [u64], g: &mut Guess, n: usize) -> bool
    requires { Ready words.old n × (1536 ≤ length nodes.now) }
    ensures { Quick nodes.now words.old words.new result }
{
    let mut still = true;
    for i in (0..SHAPES).rev() {
        let had = quick_row(nodes, words, g, n, i);
        still &= had;
    }
    still
}

// Such passes, until one adds nothing. Had the table all that they could add?
fn quick(nodes: &[u64], words: &mut [u64], n: usize) -> bool
    requires { Ready words.old n × (1536 ≤ length nodes.now) }
    ensures { Quick nodes.now words.old words.new result }
{
    let mut g = Guess {
        hints: [0; HINTS],
        now: all_changed(0),
        before: all_changed(u64::MAX),
    };
    pair_hints::list_hints(words, n, &mut g.hints);
    let mut still = true;
    loop {
        let had = quick_pass(nodes, words, &mut g, n);
        if had {
            return still;
        }
        still = false;
        g.before = g.now;
        g.now = all_changed(0);
    }
}

// Passes, until one adds nothing. Had the table all at first?
fn passes(nodes: &[u64], words: &mut [u64], n: usize) -> bool
    requires { Ready words.old n × (1536 ≤ length nodes.now) }
    ensures { Rested nodes.now n words.old words.new result }
{
    let mut still = true;
    loop {
        if pass(nodes, words, n) {
            return still;
        }
        still = false;
    }
}

// Quick passes, then passes over all nodes, until one adds nothing. Had the table all at first?
fn settle(nodes: &[u64], words: &mut [u64], n: usize) -> bool
    requires { Ready words.old n × (1536 ≤ length nodes.now) }
    ensures { Rested nodes.now n words.old words.new result }
{
    let one = quick(nodes, words, n);
    let two = passes(nodes, words, n);
    one & two
}

// Is the table settled for the frames entered up to now? With the first of them it is; with others
// if they added nothing to it.
fn both_settled(p: usize, still: bool, had: bool) -> bool
    ensures { BothSettled p still had result }
{
    if p == 0 {
        return true;
    }
    still & had
}

// Settles the table for all frames, entered as many at a time as there is room for. Is it?
fn round(nodes: &[u64], words: &mut [u64]) -> bool
    requires { (search_words ≤ length words.old) × (1536 ≤ length nodes.now) }
    ensures { Round nodes.now 46656 words.old words.new result }
{
    let mut still = true;
    let mut p: usize = 0;
    while p < 1296 {
        let s = pair_entries::prepare(words, p);
        let had = settle(nodes, words, s.entries);
        still = both_settled(p, still, had);
        p = s.starts;
    }
    still
}

// Rounds, until one leaves the table settled.
fn search(nodes: &[u64], words: &mut [u64])
    requires { (search_words ≤ length words.old) × (1536 ≤ length nodes.now) }
    ensures { Searched nodes.now words.old words.new }
{
    loop {
        if round(nodes, words) {
            return;
        }
    }
}

// The table of the nodes.
pub fn fill_table(nodes: &[u64], words: &mut [u64])
    requires { (search_words ≤ length words.old) × (1536 ≤ length nodes.now) }
    ensures { FilledTable nodes.now words.old words.new }
{
    spans::clear(words, WORDS);
    search(nodes, words);
}
