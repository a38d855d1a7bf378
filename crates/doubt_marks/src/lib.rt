// The pairs of rules that may read one word: which shapes of a nonterminal that is seen may stand
// over one span, by the nodes and the table of the search.
#![tactic(auto)]

ghost use Rattle.std.specs.Prelude.{List, ℕ, ◌≡◌, ◌+◌, ◌*◌, ◌≤◌, ◌<◌, length};
ghost use Rattle.sets.specs.Says.{Says};
ghost use Rattle.grammar.specs.Cycles.{Nullable};
ghost use Rattle.grammar.specs.Content.{rules_of, Formed};
ghost use Rattle.acyclic.specs.Exact.{Exactly};
ghost use Rattle.acyclic.specs.Passes.{Extended};
ghost use Rattle.pairs.specs.Survey.{Productive};
ghost use Rattle.spans.specs.Changes.{Past};
ghost use Rattle.doubt_list.specs.Marks.{Ground};
ghost use Rattle.pair_offsets.specs.declared.Frame.{Frame};
ghost use Rattle.pair_offsets.specs.Lists.{ListsEvens};
ghost use Rattle.pair_tables.specs.Reading.{Room, Small};
ghost use Rattle.doubt_marks.specs.Standing.{span_frame, StandsBy, MayOver};
ghost use Rattle.doubt_marks.specs.Growing.{Grows, Upto, OneBit};
ghost use Rattle.doubt_marks.specs.Marking.{ByFrame, SelfOver, AddsSeen, SeenBy};
ghost use Rattle.doubt_marks.specs.Marking.{SeenPass, PairOver, RowOver};
ghost use Rattle.doubt_marks.specs.Marking.{MarksFor, MarksFilled};

use acyclic::nullables;
use doubt_list::Sets;
use grammar::Grammar;
use pair_entries::WORDS;
use pair_nodes::NODE_WORDS;
use pair_offsets::{Frame, ONE_START};
use pair_steps::{Node, SHAPES};
use survey::{occurring, productives};

// The nodes of a sheet's shapes, and the table of the search.
#[derive(Clone, Copy)]
struct Tables<'a> {
    nodes: &'a [u64],
    table: &'a [u64],
    ghost long: { 1536 ≤ length nodes.now },
    ghost room: { 65536 ≤ length table.now },
}

// What is looked for over one span: which bits a shape sets besides over a frame, in so many words
// at least.
trait Search {
    ghost bits: { Self → List ℕ → List ℕ → Frame → ℕ → ℕ → ℕ → Type 0 };

    ghost words: { ℕ };

    fn shape(self, t: Tables, f: Frame, list: &[u64], i: usize, out: &mut [u64])
        requires evens { ListsEvens f list.now 0 (length list.now) }
        requires in_bounds { (i < 384) × (words ≤ length out.old) }
        ensures { Grows (bits self t.entry.nodes.now t.entry.table.now f i) out.old out.new };
}

// The shapes that may stand with themselves: each sets a bit of its own row.
#[derive(Clone, Copy)]
struct Selves;

// The pairs of shapes of nonterminals that are seen: each sets the bit of its rules.
#[derive(Clone, Copy)]
struct Pairs {
    seen: u64,
}

// The frame of two nodes over one span, by number.
fn span_frame(k: usize) -> Frame
    requires { k < 16 }
    ensures { result ≡ span_frame k }
{
    Frame {
        start: 0,
        cut: (k / 4) as u8,
        stop: 4,
        begin: 0,
        split: (k % 4) as u8,
        end: 4,
    }
}

// Does a step find two nodes over a frame?
fn stands(table: &[u64], f: Frame, x: Node, y: Node, i: usize, j: usize, list: &[u64]) -> bool
    requires room { Room table.now × Small x × Small y × (i < 384) × (j < 384) }
    requires evens { ListsEvens f list.now 0 (length list.now) }
    ensures { Says result (StandsBy table.now f x y i j) }
{
    let w = pair_tables::words_of(table, x, y, i, j);
    if pair_steps::offsets_found(f, x, y, w, list, 0, list.len()) == 0 {
        return false;
    }
    let n = pair_tables::nexts_of(table, f, x, y);
    if pair_steps::tokens_found(f, x, y, n) == 0 {
        return false;
    }
    true
}

// May the nodes of two shapes stand over it?
fn may(t: Tables, f: Frame, list: &[u64], i: usize, j: usize) -> bool
    requires evens { ListsEvens f list.now 0 (length list.now) }
    requires in_bounds { (i < 384) × (j < 384) }
    ensures { Says result (MayOver t.entry.nodes.now t.entry.table.now f i j) }
{
    if !pair_nodes::present(t.nodes, i) {
        return false;
    }
    if !pair_nodes::present(t.nodes, j) {
        return false;
    }
    let x = pair_nodes::node_at(t.nodes, i);
    let y = pair_nodes::node_at(t.nodes, j);
    if x.sort != y.sort {
        return false;
    }
    if !pair_frames::suits(f, x.kids, y.kids) {
        return false;
    }
    stands(t.table, f, x, y, i, j, list)
}

// Sets bit q of the two words of row p.
fn set_bit(t: &mut [u64], p: usize, q: usize)
    requires { (q < 128) × (2 * p + 1 < length t.old) }
    ensures { Grows (OneBit p q) t.old t.new }
{
    let at = 2 * p + q / 64;
    let word = t[at];
    t[at] = sets::with(word, (q % 64) as u8);
}

impl Search for Selves {
    ghost bits = { λ s ns t f. SelfOver ns t f };

    ghost words = { 768 };

    fn shape(self, t: Tables, f: Frame, list: &[u64], i: usize, out: &mut [u64]) {
        if may(t, f, list, i, i) {
            set_bit(out, i, 0);
        }
    }
}

// Sets the bit of the rules of two shapes, if they differ in shape or cut and may stand over the
// frame.
#[tactic(auto, using(crate::proofs::GrowLaws::pair_still))]
fn mark_pair(t: Tables, f: Frame, list: &[u64], i: usize, j: usize, marks: &mut [u64])
    requires evens { ListsEvens f list.now 0 (length list.now) }
    requires in_bounds { (i < 384) × (j < 384) × (256 ≤ length marks.old) }
    ensures { Grows (PairOver t.entry.nodes.now t.entry.table.now f i j) marks.old marks.new }
{
    let p = i % 128;
    let q = j % 128;
    if q < p {
        return;
    }
    if i == j {
        if f.cut == f.split {
            return;
        }
    }
    if may(t, f, list, i, j) {
        set_bit(marks, p, q);
    }
}

impl Search for Pairs {
    ghost bits = { λ s ns t f. RowOver ns t s.seen f };

    ghost words = { 256 };

    fn shape(self, t: Tables, f: Frame, list: &[u64], i: usize, out: &mut [u64]) {
        if !pair_nodes::present(t.nodes, i) {
            return;
        }
        let x = pair_nodes::node_at(t.nodes, i);
        if !sets::has(self.seen, x.sort) {
            return;
        }
        for j in 0..SHAPES {
            mark_pair(t, f, list, i, j, out);
        }
    }
}

// The bits of all shapes over a frame.
fn over_frame<S: Search + Copy>(s: S, t: Tables, f: Frame, list: &[u64], out: &mut [u64])
    requires evens { ListsEvens f list.now 0 (length list.now) }
    requires in_bounds { S.words ≤ length out.old }
    ensures { Grows (Upto 384 (S.bits s t.entry.nodes.now t.entry.table.now f)) out.old out.new }
{
    for i in 0..SHAPES {
        s.shape(t, f, list, i, out);
    }
}

// The same over the frame with this number, if its points are numbered by rank.
fn by_number<S: Search + Copy>(s: S, t: Tables, k: usize, out: &mut [u64])
    requires { (k < 16) × (S.words ≤ length out.old) }
    ensures { Grows (ByFrame (λ f. Upto 384 (S.bits s t.entry.nodes.now t.entry.table.now f)) k)
        out.old out.new }
{
    let f = span_frame(k);
    if !pair_frames::ranked(f) {
        return;
    }
    let mut list = [0u64; ONE_START];
    let end = pair_offsets::list_from_one(f, &mut list, 0);
    over_frame(s, t, f, &list[..end], out);
}

// The same over all frames of one span.
fn over_span<S: Search + Copy>(s: S, t: Tables, out: &mut [u64])
    requires { S.words ≤ length out.old }
    ensures { Grows
        (Upto 16 (ByFrame (λ f. Upto 384 (S.bits s t.entry.nodes.now t.entry.table.now f))))
        out.old out.new }
{
    for k in 0..16 {
        by_number(s, t, k, out);
    }
}

// The nonterminals seen, with the children of the shape's nodes besides, if it may stand with
// itself and its nonterminal is seen.
fn with_children(nodes: &[u64], own: &[u64], i: usize, seen: u64) -> u64
    requires { (1536 ≤ length nodes.now) × (768 ≤ length own.now) × (i < 384) }
    ensures { Extended (AddsSeen nodes.now own.now seen i) seen result }
{
    if !pair_nodes::present(nodes, i) {
        return seen;
    }
    if !sets::has(own[2 * i], 0) {
        return seen;
    }
    let x = pair_nodes::node_at(nodes, i);
    if !sets::has(seen, x.sort) {
        return seen;
    }
    if x.kids == 0 {
        return seen;
    }
    let one = sets::with(seen, x.first);
    if x.kids == 1 {
        return one;
    }
    sets::with(one, x.second)
}

// One pass over the shapes.
fn seen_pass(nodes: &[u64], own: &[u64], seen: u64) -> u64
    requires { (1536 ≤ length nodes.now) × (768 ≤ length own.now) }
    ensures { SeenPass nodes.now own.now 384 seen result }
{
    let mut next = seen;
    for i in 0..SHAPES {
        next = with_children(nodes, own, i, next);
    }
    next
}

// The nonterminals seen: passes from 0 until one adds nothing.
fn seen_by(nodes: &[u64], own: &[u64]) -> u64
    requires { (1536 ≤ length nodes.now) × (768 ≤ length own.now) }
    ensures { Exactly result (SeenBy nodes.now own.now) }
{
    let mut seen: u64 = 1;
    loop {
        let next = seen_pass(nodes, own, seen);
        if next == seen {
            return seen;
        }
        seen = next;
    }
}

// The marks of the sheet whose nodes and table these are.
fn mark_doubts(t: Tables, marks: &mut [u64])
    requires { 256 ≤ length marks.old }
    ensures { MarksFor t.entry.nodes.now t.entry.table.now marks.old marks.new }
{
    let mut own = [0u64; 2 * SHAPES];
    over_span(Selves, t, &mut own);
    let seen = seen_by(t.nodes, &own);
    spans::clear(marks, 256);
    over_span(Pairs { seen }, t, marks);
}

// The marks of a sheet; the search needs the first 73728 of the words.
pub fn fill_marks(g: Grammar, nulls: u64, prods: u64, words: &mut [u64], marks: &mut [u64])
    requires formed { Formed g × Exactly nulls (Nullable (rules_of g))
        × Exactly prods (Productive (rules_of g)) }
    requires in_bounds { (73728 ≤ length words.old) × (256 ≤ length marks.old) }
    ensures { MarksFilled (rules_of g) words.old words.new
        marks.old marks.new }
{
    let mut nodes = [0u64; NODE_WORDS];
    pair_nodes::fill_nodes(g, nulls, prods, &mut nodes);
    pair_search::fill_table(&nodes, words);
    let t = Tables {
        nodes: &nodes,
        table: words,
    };
    mark_doubts(t, marks);
}

// The sets and the marks by which the doubts of rules are listed, by tables in the lent words.
pub fn weigh(g: Grammar, words: &mut [u64], marks: &mut [u64]) -> Sets
    requires { Formed g × (73728 ≤ length words.old) × (256 ≤ length marks.old) }
    ensures grounded { Ground g result marks.new }
    ensures past { Past 73728 words.old words.new }
{
    let nulls = nullables(g);
    let prods = productives(g, nulls);
    let occurs = occurring(g, nulls, prods);
    fill_marks(g, nulls, prods, words, marks);
    Sets {
        nulls,
        occurring: occurs,
    }
}

// The same in words of its own, which are given back before anything is listed.
pub fn weigh_alone(g: Grammar, marks: &mut [u64]) -> Sets
    requires { Formed g × (256 ≤ length marks.old) }
    ensures { Ground g result marks.new }
{
    let mut words = [0u64; WORDS];
    weigh(g, &mut words, marks)
}
