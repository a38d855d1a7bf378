// The nodes of the search: what each shape of the rules looks like under the weakest mark, in four
// words for each shape's number.
#![tactic(auto)]

ghost use Rattle.std.specs.Prelude.{◌≡◌, ◌≤◌, ◌<◌, length};
ghost use Rattle.sets.specs.Says.{Says};
ghost use Rattle.grammar.specs.Trees.{Covers};
ghost use Rattle.grammar.specs.Cycles.{Nullable};
ghost use Rattle.grammar.specs.Content.{rules_of, Formed};
ghost use Rattle.acyclic.specs.Exact.{Exactly};
ghost use Rattle.pairs.specs.Survey.{Productive};
ghost use Rattle.pairs.specs.Shapes.{tip, one, two};
ghost use Rattle.survey.specs.Closing.{LevelsOf};
ghost use Rattle.heads.specs.Forms.{form_of};
ghost use Rattle.firsts.specs.Rows.{ByNonterminal};
ghost use Rattle.pair_steps.specs.Nodes.{SetOf};
ghost use Rattle.pair_tables.specs.Reading.{Small};
ghost use Rattle.pair_nodes.specs.Slots.{node_at, Present};
ghost use Rattle.pair_nodes.specs.Putting.{Fits, Describes, Stored, Cleared, SmallLooks};
ghost use Rattle.pair_nodes.specs.Putting.{SmallIfAny};
ghost use Rattle.pair_nodes.specs.Putting.{Slotted, SlotPut, NodesMade};

use grammar::{BinaryMark, Grammar, UnaryMark};
use heads::{Kind, Looks};
use pair_steps::{Node, SHAPES};
use survey::Levels;

// How many words the nodes of all shapes take.
pub const NODE_WORDS: usize = 4 * SHAPES;

// A node's first word is no less.
const NODE: u64 = 1 << 20;

// Has the shape with this number a node?
pub fn present(nodes: &[u64], i: usize) -> bool
    requires { (1536 ≤ length nodes.now) × (i < 384) }
    ensures { Says result (Present nodes.now i) }
{
    NODE <= nodes[4 * i]
}

// Its node.
pub fn node_at(nodes: &[u64], i: usize) -> Node
    requires { (1536 ≤ length nodes.now) × (i < 384) }
    ensures { (result ≡ node_at nodes.now i) × Small result }
{
    let w = nodes[4 * i];
    let m = nodes[4 * i + 1];
    let begin = nodes[4 * i + 2];
    let next = nodes[4 * i + 3];
    Node {
        kids: (w % 4) as u8,
        sort: (w / 4 % 64) as u8,
        first: (w / 256 % 64) as u8,
        second: (w / 16384 % 64) as u8,
        keep: m % 16,
        join: m / 16 % 16,
        apart: m / 256 % 16,
        begin: begin,
        next: next,
    }
}

// The terminals from `a` to `b`.
fn range(a: u8, b: u8) -> u64
    requires { b < 64 }
    ensures { SetOf result (Covers a b) }
{
    let mut set: u64 = 0;
    for x in a..=b {
        set = sets::with(set, x);
    }
    set
}

// A leaf of `sort` with the terminals from `a` to `b`.
fn tip_node(begins: &[u64], sort: u8, a: u8, b: u8) -> Node
    requires { (sort < 64) × (b < 64) }
    ensures { Describes begins.now sort (tip a b) result }
{
    let begin = range(a, b);
    Node {
        kids: 0,
        sort: sort,
        first: 0,
        second: 0,
        keep: 15,
        join: 15,
        apart: 15,
        begin: begin,
        next: 0,
    }
}

// A node over one child that has tokens, with two marks of its word.
fn one_node(begins: &[u64], sort: u8, c: u8, l: UnaryMark, k: UnaryMark) -> Node
    requires { (64 ≤ length begins.now) × (sort < 64) × (c < 64) }
    ensures { Describes begins.now sort (one c l k) result }
{
    let inherited = pair_steps::keep_mask(l);
    let own = pair_steps::keep_mask(k);
    let begin = begins[c as usize];
    Node {
        kids: 1,
        sort: sort,
        first: c,
        second: 0,
        keep: inherited & own & 15,
        join: 15,
        apart: 15,
        begin: begin,
        next: 0,
    }
}

// A node over two, with the mark between them and that of its word.
fn two_node(begins: &[u64], sort: u8, c: u8, d: u8, m: BinaryMark, l: UnaryMark) -> Node
    requires { (64 ≤ length begins.now) × (sort < 64) × (c < 64) × (d < 64) }
    ensures { Describes begins.now sort (two c d m l) result }
{
    let keep = pair_steps::keep_mask(l);
    let join = pair_steps::join_mask(m);
    let apart = pair_steps::part_mask(m);
    let begin = begins[c as usize];
    let next = begins[d as usize];
    Node {
        kids: 2,
        sort: sort,
        first: c,
        second: d,
        keep: keep & 15,
        join: join & 15,
        apart: apart & 15,
        begin: begin,
        next: next,
    }
}

// Puts a node into the words of `i`.
fn put_node(v: Node, i: usize, out: &mut [u64])
    requires { Fits v × (1536 ≤ length out.old) × (i < 384) }
    ensures { Stored out.old out.new i v }
{
    let sorts = 4 * (v.sort as u64) + 256 * (v.first as u64) + 16384 * (v.second as u64);
    out[4 * i] = v.kids as u64 + sorts + NODE;
    out[4 * i + 1] = v.keep + 16 * v.join + 256 * v.apart;
    out[4 * i + 2] = v.begin;
    out[4 * i + 3] = v.next;
}

// Says that the shape with the number `i` has none.
fn clear_node(i: usize, out: &mut [u64])
    requires { (1536 ≤ length out.old) × (i < 384) }
    ensures { Cleared out.old out.new i }
{
    out[4 * i] = 0;
}

// A node of `sort` that looks so.
fn node_of(begins: &[u64], sort: u8, looks: Looks) -> Node
    requires { (64 ≤ length begins.now) × (sort < 64) × SmallLooks looks }
    ensures { Describes begins.now sort (form_of looks) result }
{
    match looks {
        Looks::Tip(a, b) => tip_node(begins, sort, a, b),
        Looks::One(c, l, k) => one_node(begins, sort, c, l, k),
        Looks::Two(c, d, m, l) => two_node(begins, sort, c, d, m, l),
    }
}

// Puts what a shape looks like.
fn put_looks(begins: &[u64], sort: u8, looks: Option<Looks>, i: usize, out: &mut [u64])
    requires in_bounds { (64 ≤ length begins.now) × (sort < 64) × SmallIfAny looks }
    requires in_bounds_2 { (1536 ≤ length out.old) × (i < 384) }
    ensures { Slotted begins.now sort looks out.old out.new
        i }
{
    match looks {
        None => clear_node(i, out),
        Some(z) => put_node(node_of(begins, sort, z), i, out),
    }
}

// Puts the node of the shape with the number `i`, if there is one.
fn put_shape(
    g: Grammar,
    nulls: u64,
    prods: u64,
    levels: Levels,
    begins: &[u64],
    i: usize,
    out: &mut [u64],
)
    requires formed { Formed g × Exactly nulls (Nullable (rules_of g))
        × Exactly prods (Productive (rules_of g)) × LevelsOf (rules_of g) levels }
    requires in_bounds { (64 ≤ length begins.now) × ByNonterminal (rules_of g) 64 begins.now }
    requires in_bounds_2 { (1536 ≤ length out.old) × (i < 384) }
    ensures { SlotPut (rules_of g) out.old out.new i }
{
    let p = i % 128;
    if p < g.count {
        let kind = Kind::numbered(i / 128);
        let s = heads::head_of(g, nulls, prods, levels, kind, p);
        put_looks(begins, s.sort, s.looks, i, out);
        return;
    }
    clear_node(i, out);
}

// The nodes of all shapes.
pub fn fill_nodes(g: Grammar, nulls: u64, prods: u64, out: &mut [u64])
    requires formed { Formed g × Exactly nulls (Nullable (rules_of g))
        × Exactly prods (Productive (rules_of g)) }
    requires in_bounds { 1536 ≤ length out.old }
    ensures { NodesMade (rules_of g) out.new }
{
    let levels = survey::inherited(g, nulls, prods);
    let mut begins = [0u64; 64];
    firsts::fill_firsts(g, nulls, prods, &mut begins);
    for i in 0..SHAPES {
        put_shape(g, nulls, prods, levels, &begins, i, out);
    }
}
