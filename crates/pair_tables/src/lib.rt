// The tables of the search: what a step reads of them.
#![tactic(auto)]

ghost use Rattle.std.specs.Prelude.{◌≤◌, ◌<◌, ◌≡◌, length};
ghost use Rattle.pairs.specs.Relations.{order};
ghost use Rattle.pair_steps.specs.Tables.{shape_word, sort_word, next_word, WordsOf, NextsOf};
ghost use Rattle.pair_tables.specs.Reading.{Room, Small};
ghost use Rattle.pair_tables.specs.Stepping.{Joined, Put, relation_bits, next_place};
ghost use Rattle.pair_tables.specs.Stepping.{HasSays, Stepped};

use pair_offsets::Frame;
use pair_steps::{NEXT_WORDS, Node, SORT_WORDS, Words};

// The word of a shape and a nonterminal.
fn shape_word(t: &[u64], i: usize, b: u8) -> u64
    requires { Room t.now × (i < 384) × (b < 64) }
    ensures { result ≡ shape_word t.now i b }
{
    t[64 * i + b as usize]
}

// The word of two nonterminals.
fn sort_word(t: &[u64], a: u8, b: u8) -> u64
    requires { Room t.now × (a < 64) × (b < 64) }
    ensures { result ≡ sort_word t.now a b }
{
    t[SORT_WORDS + (64 * (a as usize) + b as usize)]
}

// The word of terminals of two nonterminals, with pieces from `p` to `q` and from `o` to `e`.
fn next_word(t: &[u64], a: u8, b: u8, p: u8, q: u8, o: u8, e: u8) -> u64
    requires { Room t.now × (a < 64) × (b < 64) }
    ensures { result ≡ next_word t.now a b (order p o) (order q e) }
{
    let c = pair_steps::order_code(p, o) as usize;
    let d = pair_steps::order_code(q, e) as usize;
    t[NEXT_WORDS + (9 * (64 * (a as usize) + b as usize) + (3 * c + d))]
}

// The words of relations of two nodes, whose shapes have the numbers `i` and `j`.
pub fn words_of(t: &[u64], x: Node, y: Node, i: usize, j: usize) -> Words
    requires { Room t.now × Small x × Small y × (i < 384) × (j < 384) }
    ensures { WordsOf t.now x y i j result }
{
    let yc = shape_word(t, j, x.first);
    let yd = shape_word(t, j, x.second);
    let xc = shape_word(t, i, y.first);
    let xd = shape_word(t, i, y.second);
    let cc = sort_word(t, x.first, y.first);
    let cd = sort_word(t, x.first, y.second);
    let dc = sort_word(t, x.second, y.first);
    let dd = sort_word(t, x.second, y.second);
    Words {
        yc: yc,
        yd: yd,
        xc: xc,
        xd: xd,
        cc: cc,
        cd: cd,
        dc: dc,
        dd: dd,
    }
}

// The words of terminals of two nodes over a frame.
pub fn nexts_of(t: &[u64], f: Frame, x: Node, y: Node) -> Words
    requires { Room t.now × Small x × Small y }
    ensures { NextsOf t.now f x y result }
{
    let p = pair_steps::first_stop(x.kids, f.cut, f.stop);
    let q = pair_steps::first_stop(y.kids, f.split, f.end);
    let u = pair_steps::second_stop(x.kids, f.stop);
    let s = pair_steps::second_stop(y.kids, f.end);
    let yc = next_word(t, y.sort, x.first, f.begin, f.end, f.start, p);
    let yd = next_word(t, y.sort, x.second, f.begin, f.end, f.cut, u);
    let xc = next_word(t, x.sort, y.first, f.start, f.stop, f.begin, q);
    let xd = next_word(t, x.sort, y.second, f.start, f.stop, f.split, s);
    let cc = next_word(t, x.first, y.first, f.start, p, f.begin, q);
    let cd = next_word(t, x.first, y.second, f.start, p, f.split, s);
    let dc = next_word(t, x.second, y.first, f.cut, u, f.begin, q);
    let dd = next_word(t, x.second, y.second, f.cut, u, f.split, s);
    Words {
        yc: yc,
        yd: yd,
        xc: xc,
        xd: xd,
        cc: cc,
        cd: cd,
        dc: dc,
        dd: dd,
    }
}

// Puts the members of a set into a word; had it them all?
fn join(t: &mut [u64], at: usize, set: u64) -> bool
    requires { at < length t.old }
    ensures { Joined t.old t.new at set result }
{
    let old = t[at];
    let all = old | set;
    t[at] = all;
    all == old
}

// Puts members into three words; had they them all?
fn put(t: &mut [u64], a: usize, b: usize, c: usize, bits: u64, set: u64) -> bool
    requires { (a < length t.old) × (b < length t.old) × (c < length t.old) }
    ensures { Put t.old t.new a b c bits bits set result }
{
    let x = join(t, a, bits);
    let y = join(t, b, bits);
    let z = join(t, c, set);
    x & y & z
}

// The offsets of the two starts, as bits of the word of relations with these orders.
fn relation_bits(f: Frame, r: u64) -> u64
    ensures { result ≡ relation_bits f r }
{
    let o = pair_steps::order_code(f.start, f.begin);
    let p = pair_steps::order_code(f.stop, f.end);
    (r & 15) << (12 * o + 4 * p)
}

// Where the terminals of two nonterminals with these orders stand.
fn next_place(f: Frame, a: u8, b: u8) -> usize
    requires { (a < 64) × (b < 64) }
    ensures { (result ≡ next_place f a b) × (result < 65536) }
{
    let o = pair_steps::order_code(f.start, f.begin) as usize;
    let p = pair_steps::order_code(f.stop, f.end) as usize;
    NEXT_WORDS + (9 * (64 * (a as usize) + b as usize) + (3 * o + p))
}

// Has the table the offsets `m` of the two starts, and all terminals that may stand at the stop
// that comes first?
fn had_all(t: &[u64], f: Frame, x: Node, y: Node, i: usize, m: u64) -> bool
    requires { Room t.now × Small x × Small y × (i < 384) }
    ensures { HasSays f x y i m t.now result }
{
    let bits = relation_bits(f, m);
    let one = shape_word(t, i, y.sort);
    let two = sort_word(t, x.sort, y.sort);
    if one & two & bits != bits {
        return false;
    }
    let n = nexts_of(t, f, x, y);
    let q = pair_steps::tokens_most(f, x, y, n);
    let c = next_place(f, x.sort, y.sort);
    t[c] & q == q
}

// Puts what two nodes over a frame can be by the table into it; the sixes of offsets that can stand
// together over the frame are listed in the same words. Had it all?
pub fn add(
    t: &mut [u64],
    f: Frame,
    x: Node,
    y: Node,
    i: usize,
    j: usize,
    from: usize,
    end: usize,
) -> bool
    requires room { Room t.old × Small x × Small y × (i < 384) × (j < 384) }
    requires from_le_end { (from ≤ end) × (end ≤ length t.old) }
    ensures { Stepped f x y i j t.old from end t.old t.new
        result }
{
    let w = words_of(t, x, y, i, j);
    let r = pair_steps::offsets_found(f, x, y, w, t, from, end);
    if r == 0 {
        return true;
    }
    let n = nexts_of(t, f, x, y);
    let q = pair_steps::tokens_found(f, x, y, n);
    if q == 0 {
        return true;
    }
    let bits = relation_bits(f, r);
    let c = next_place(f, x.sort, y.sort);
    let a = x.sort as usize;
    let b = y.sort as usize;
    put(t, 64 * i + b, SORT_WORDS + (64 * a + b), c, bits, q)
}

// The same, where it is first asked whether there is anything to put.
pub fn step(
    t: &mut [u64],
    f: Frame,
    x: Node,
    y: Node,
    i: usize,
    j: usize,
    from: usize,
    end: usize,
) -> bool
    requires room { Room t.old × Small x × Small y × (i < 384) × (j < 384) }
    requires from_le_end { (from ≤ end) × (end ≤ length t.old) }
    ensures { Stepped f x y i j t.old from end t.old t.new
        result }
{
    let w = words_of(t, x, y, i, j);
    let m = pair_steps::starts_most(f, x, y, w);
    if m == 0 {
        return true;
    }
    if had_all(t, f, x, y, i, m) {
        return true;
    }
    add(t, f, x, y, i, j, from, end)
}
