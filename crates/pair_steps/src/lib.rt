// One step of the search: what two nodes over a frame can be, by what is known of their children.
#![tactic(auto)]

ghost use Rattle.std.specs.Prelude.{◌+◌, ◌≤◌, ◌<◌, ◌≡◌, length};
ghost use Rattle.pairs.specs.Settings.{AllowsOffset};
ghost use Rattle.pair_steps.specs.Nodes.{Mask, Joint, Parted};
ghost use Rattle.pair_steps.specs.Leaving.{Coded, Narrowed, Narrows, AskedInside, InFront};
ghost use Rattle.pair_steps.specs.Leaving.{StartsLeave, StartCutLeave, CutStartLeave};
ghost use Rattle.pair_steps.specs.Leaving.{CutsLeave, OwnLeave, first_stop_of, second_stop};
ghost use Rattle.pair_steps.specs.Leaving.{StartsMost, OffsetsFound};
ghost use Rattle.pair_steps.specs.Tokens.{all_terminals, AtPlace, AtCut, AtStop, BeginsLeave};
ghost use Rattle.pair_steps.specs.Tokens.{NodesLeave, KidsLeave, TokensLeave, TokensMost};
ghost use Rattle.pair_steps.specs.Tokens.{TokensFound};

use grammar::{BinaryMark, UnaryMark};
use pair_offsets::{Frame, Masks};

// How many shapes have numbers: for each of 128 rules the three kinds.
pub const SHAPES: usize = 384;

// The table of the search: for each shape a word for each of 64 nonterminals, then a word for each
// two nonterminals, then nine words of terminals for each two. The entries stand behind it.
pub const SORT_WORDS: usize = 64 * SHAPES;

pub const NEXT_WORDS: usize = SORT_WORDS + 64 * 64;

pub const ENTRIES: usize = NEXT_WORDS + 9 * 64 * 64;

// A node that has tokens: how many children with tokens it has, its nonterminal and theirs; the
// offsets that it allows its start and a start inside, its start and its cut, and a start before
// its cut and the cut; the terminals that may stand at its start, and at its cut if it has two
// children.
// Kept: `kids` is a number, since two of them make the bit of an entry's word, 4 kids + kids.
#[derive(Clone, Copy)]
pub struct Node {
    pub kids: u8,
    pub sort: u8,
    pub first: u8,
    pub second: u8,
    pub keep: u64,
    pub join: u64,
    pub apart: u64,
    pub begin: u64,
    pub next: u64,
}

// The words of relations of two nodes: the second node against the children of the first, the first
// against those of the second, and children against children.
#[derive(Clone, Copy)]
pub struct Words {
    pub yc: u64,
    pub yd: u64,
    pub xc: u64,
    pub xd: u64,
    pub cc: u64,
    pub cd: u64,
    pub dc: u64,
    pub dd: u64,
}

// The offsets that a unary mark allows a word's first token and one behind it.
pub fn keep_mask(m: UnaryMark) -> u64
    ensures { Mask result (AllowsOffset m) }
{
    match m {
        UnaryMark::None => 15,
        UnaryMark::Offside => 9,
        UnaryMark::Offalign => 13,
        UnaryMark::Single => 1,
    }
}

// The offsets that a binary mark allows the first tokens of its two words.
pub fn join_mask(m: BinaryMark) -> u64
    ensures { Mask result (Joint m) }
{
    match m {
        BinaryMark::None => 15,
        BinaryMark::Align => 4,
        BinaryMark::Indent => 8,
    }
}

// The offsets that it allows any token before the second word and the second word's first.
pub fn part_mask(m: BinaryMark) -> u64
    ensures { Mask result (Parted m) }
{
    match m {
        BinaryMark::None => 15,
        BinaryMark::Align => 15,
        BinaryMark::Indent => 14,
    }
}

// The order of two numbers: 0 less, 1 equal, 2 more.
pub fn order_code(m: u8, n: u8) -> u64
    ensures { Coded m n result }
{
    if m < n {
        return 0;
    }
    if n < m {
        return 2;
    }
    1
}

// The offsets of `m` that are left to the starts of two pieces, from `a` to `b` and from `c` to
// `d`, whose relations are among those of the word.
fn pair(m: u64, a: u8, b: u8, c: u8, d: u8, word: u64) -> u64
    ensures { Narrowed m (Narrows a b c d word) result }
{
    if a < d {
        if c < b {
            let o = order_code(a, c);
            let p = order_code(b, d);
            let at = 12 * o + 4 * p;
            return m & (word >> at);
        }
    }
    m
}

// The offsets of `m` that are left to the tokens at `i` and at `c`, where `c` stands inside from
// `i` to `j`: those of the mask.
fn inside(m: u64, i: u8, j: u8, c: u8, mask: u64) -> u64
    ensures { Narrowed m (AskedInside i j c mask) result }
{
    if i < c {
        if c < j {
            return m & mask;
        }
    }
    m
}

// The offsets of `m` left to the tokens at `a` and at `b`, where `a` is before: those of the mask.
fn ahead(m: u64, a: u8, b: u8, mask: u64) -> u64
    ensures { Narrowed m (InFront a b mask) result }
{
    if a < b {
        return m & mask;
    }
    m
}

// The offsets left to the two starts. The first children stop at `t` and at `v`.
fn starts_left(f: Frame, x: Node, y: Node, t: u8, v: u8, w: Words) -> u64
    ensures { Narrowed 15 (StartsLeave f x y t v w) result }
{
    let m1 = pair(15, f.begin, f.end, f.start, t, w.yc);
    let m2 = pair(m1, f.start, f.stop, f.begin, v, w.xc);
    let m3 = pair(m2, f.start, t, f.begin, v, w.cc);
    let m4 = inside(m3, f.start, f.stop, f.begin, x.keep);
    inside(m4, f.begin, f.end, f.start, y.keep)
}

// The offsets left to the first start and the second cut. The second child of the second node stops
// at `s`.
fn start_cut_left(f: Frame, x: Node, y: Node, t: u8, s: u8, w: Words) -> u64
    ensures { Narrowed 15 (StartCutLeave f x y t s w) result }
{
    let m1 = pair(15, f.start, f.stop, f.split, s, w.xd);
    let m2 = pair(m1, f.start, t, f.split, s, w.cd);
    let m3 = inside(m2, f.start, f.stop, f.split, x.keep);
    ahead(m3, f.start, f.split, y.apart)
}

// The offsets left to the first cut and the second start. The second child of the first node stops
// at `u`.
fn cut_start_left(f: Frame, x: Node, y: Node, u: u8, v: u8, w: Words) -> u64
    ensures { Narrowed 15 (CutStartLeave f x y u v w) result }
{
    let m1 = pair(15, f.begin, f.end, f.cut, u, w.yd);
    let m2 = pair(m1, f.cut, u, f.begin, v, w.dc);
    let m3 = inside(m2, f.begin, f.end, f.cut, y.keep);
    ahead(m3, f.begin, f.cut, x.apart)
}

// The offsets left to the two cuts.
fn cuts_left(f: Frame, x: Node, y: Node, u: u8, s: u8, w: Words) -> u64
    ensures { Narrowed 15 (CutsLeave f x y u s w) result }
{
    let m1 = pair(15, f.cut, u, f.split, s, w.dd);
    let m2 = ahead(m1, f.split, f.cut, x.apart);
    ahead(m2, f.cut, f.split, y.apart)
}

// The offsets left to a node's own start and cut.
fn own_left(i: u8, m: u8, j: u8, x: Node) -> u64
    ensures { Narrowed 15 (OwnLeave i m j x) result }
{
    let m1 = inside(15, i, j, m, x.keep);
    let m2 = m1 & x.join;
    ahead(m2, i, m, x.apart)
}

// Where the first child of a node stops, by how many children with tokens it has; 0 if none.
pub fn first_stop(kids: u8, cut: u8, stop: u8) -> u8
    ensures { result ≡ first_stop_of kids cut stop }
{
    if kids == 0 {
        return 0;
    }
    if kids == 1 {
        return stop;
    }
    cut
}

// Where the second does.
pub fn second_stop(kids: u8, stop: u8) -> u8
    ensures { result ≡ second_stop kids stop }
{
    if kids < 2 {
        return 0;
    }
    stop
}

// The offsets that the two starts can have at most, whatever the other four are.
pub fn starts_most(f: Frame, x: Node, y: Node, w: Words) -> u64
    ensures { StartsMost f x y w result }
{
    let t = first_stop(x.kids, f.cut, f.stop);
    let v = first_stop(y.kids, f.split, f.end);
    starts_left(f, x, y, t, v, w)
}

// The offsets of the two starts that two nodes over a frame can have; the sixes of offsets that can
// stand together over it are listed.
pub fn offsets_found(
    f: Frame,
    x: Node,
    y: Node,
    w: Words,
    list: &[u64],
    from: usize,
    end: usize,
) -> u64
    requires { (from ≤ end) × (end ≤ length list.now) }
    ensures { OffsetsFound f x y w list.now from end result }
{
    let t = first_stop(x.kids, f.cut, f.stop);
    let v = first_stop(y.kids, f.split, f.end);
    let ac = starts_left(f, x, y, t, v, w);
    if ac == 0 {
        return 0;
    }
    let u = second_stop(x.kids, f.stop);
    let s = second_stop(y.kids, f.end);
    let an = start_cut_left(f, x, y, t, s, w);
    if an == 0 {
        return 0;
    }
    let mc = cut_start_left(f, x, y, u, v, w);
    if mc == 0 {
        return 0;
    }
    let mn = cuts_left(f, x, y, u, s, w);
    let am = own_left(f.start, f.cut, f.stop, x);
    let cn = own_left(f.begin, f.split, f.end, y);
    let m = Masks {
        ac: ac,
        an: an,
        mc: mc,
        mn: mn,
        am: am,
        cn: cn,
    };
    pair_offsets::offsets_left(list, from, end, m)
}

// The terminals of `m` left at `r`: those of the set, if `r` is `p`.
fn at_place(m: u64, p: u8, r: u8, set: u64) -> u64
    ensures { Narrowed m (AtPlace p r set) result }
{
    if p == r {
        return m & set;
    }
    m
}

// The same of the cut of a node that has two children.
fn at_cut(m: u64, kids: u8, p: u8, r: u8, set: u64) -> u64
    ensures { Narrowed m (AtCut kids p r set) result }
{
    if kids < 2 {
        return m;
    }
    at_place(m, p, r, set)
}

// The same of the place where one of two pieces that share a token ends and the other goes on.
fn at_stop(m: u64, a: u8, b: u8, c: u8, d: u8, r: u8, set: u64) -> u64
    ensures { Narrowed m (AtStop a b c d r set) result }
{
    if a < d {
        if c < b {
            if b < d {
                return at_place(m, b, r, set);
            }
            if d < b {
                return at_place(m, d, r, set);
            }
        }
    }
    m
}

// The terminals left at `r` by the nodes that start there.
fn begins_left(f: Frame, x: Node, y: Node, r: u8) -> u64
    ensures { Narrowed all_terminals (BeginsLeave f x y r) result }
{
    let m1 = at_place(u64::MAX, f.start, r, x.begin);
    let m2 = at_cut(m1, x.kids, f.cut, r, x.next);
    let m3 = at_place(m2, f.begin, r, y.begin);
    at_cut(m3, y.kids, f.split, r, y.next)
}

// Those of `m` left by a node and a child of the other. The first children stop at `t` and `v`, the
// second at `u` and `s`.
fn nodes_leave(m: u64, f: Frame, t: u8, v: u8, u: u8, s: u8, n: Words, r: u8) -> u64
    ensures { Narrowed m (NodesLeave f t v u s n r) result }
{
    let m1 = at_stop(m, f.begin, f.end, f.start, t, r, n.yc);
    let m2 = at_stop(m1, f.begin, f.end, f.cut, u, r, n.yd);
    let m3 = at_stop(m2, f.start, f.stop, f.begin, v, r, n.xc);
    at_stop(m3, f.start, f.stop, f.split, s, r, n.xd)
}

// Those of `m` left by two children.
fn kids_leave(m: u64, f: Frame, t: u8, v: u8, u: u8, s: u8, n: Words, r: u8) -> u64
    ensures { Narrowed m (KidsLeave f t v u s n r) result }
{
    let m1 = at_stop(m, f.start, t, f.begin, v, r, n.cc);
    let m2 = at_stop(m1, f.start, t, f.split, s, r, n.cd);
    let m3 = at_stop(m2, f.cut, u, f.begin, v, r, n.dc);
    at_stop(m3, f.cut, u, f.split, s, r, n.dd)
}

// The terminals left at `r`.
fn tokens_at(f: Frame, x: Node, y: Node, n: Words, r: u8) -> u64
    ensures { Narrowed all_terminals (TokensLeave f x y n r) result }
{
    let t = first_stop(x.kids, f.cut, f.stop);
    let v = first_stop(y.kids, f.split, f.end);
    let u = second_stop(x.kids, f.stop);
    let s = second_stop(y.kids, f.end);
    let m1 = begins_left(f, x, y, r);
    let m2 = nodes_leave(m1, f, t, v, u, s, n, r);
    kids_leave(m2, f, t, v, u, s, n, r)
}

// The terminals left at the stop that comes first, whatever is left at the other points.
pub fn tokens_most(f: Frame, x: Node, y: Node, n: Words) -> u64
    ensures { TokensMost f x y n result }
{
    if f.stop < f.end {
        return tokens_at(f, x, y, n, f.stop);
    }
    tokens_at(f, x, y, n, f.end)
}

// The terminals left at `r`, where those left at `p` are `m`.
fn tokens_beside(f: Frame, x: Node, y: Node, n: Words, p: u8, m: u64, r: u8) -> u64
    requires { Narrowed all_terminals (TokensLeave f x y n p) m }
    ensures { Narrowed all_terminals (TokensLeave f x y n r) result }
{
    if p == r {
        return m;
    }
    tokens_at(f, x, y, n, r)
}

// The terminals left at the stop that comes first, if one is left at each point; none elsewhere.
pub fn tokens_found(f: Frame, x: Node, y: Node, n: Words) -> u64
    ensures { TokensFound f x y n result }
{
    let a = tokens_at(f, x, y, n, f.start);
    if a == 0 {
        return 0;
    }
    if tokens_beside(f, x, y, n, f.start, a, f.cut) == 0 {
        return 0;
    }
    let b = tokens_beside(f, x, y, n, f.start, a, f.begin);
    if b == 0 {
        return 0;
    }
    if tokens_beside(f, x, y, n, f.begin, b, f.split) == 0 {
        return 0;
    }
    let c = tokens_at(f, x, y, n, f.stop);
    if c == 0 {
        return 0;
    }
    let d = tokens_beside(f, x, y, n, f.stop, c, f.end);
    if d == 0 {
        return 0;
    }
    if f.stop < f.end {
        return c;
    }
    d
}
