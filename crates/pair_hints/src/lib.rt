// A guess at which steps of the search add to the table, for the quick passes to make no others. A
// pass over all steps comes after them, so nothing is promised of the guess.
#![tactic(auto)]

ghost use Rattle.std.specs.Prelude.{◌≤◌, ◌<◌, length};
ghost use Rattle.pair_tables.specs.Reading.{Small};

use pair_offsets::Frame;
use pair_steps::{ENTRIES, NEXT_WORDS, Node, SORT_WORDS, Words};

// Two words for each hint, behind 32 that say where those of each two numbers of children stand.
pub const HINTS: usize = 1024;

// The place of a word that stands for no relation: the pieces share no token.
const APART: u64 = 36;

// Where the first and the second child of two nodes over a frame stop.
#[derive(Clone, Copy)]
struct Stops {
    xc: u8,
    xd: u8,
    yc: u8,
    yd: u8,
}

fn stops_of(f: Frame, kx: u8, ky: u8) -> Stops {
    let xc = pair_steps::first_stop(kx, f.cut, f.stop);
    let xd = pair_steps::second_stop(kx, f.stop);
    let yc = pair_steps::first_stop(ky, f.split, f.end);
    let yd = pair_steps::second_stop(ky, f.end);
    Stops {
        xc: xc,
        xd: xd,
        yc: yc,
        yd: yd,
    }
}

// Where the relations of pieces from `a` to `b` and from `c` to `d` stand in a word.
fn place(a: u8, b: u8, c: u8, d: u8) -> u64 {
    if a < d && c < b {
        let o = pair_steps::order_code(a, c);
        let p = pair_steps::order_code(b, d);
        return 12 * o + 4 * p;
    }
    APART
}

// The places of the relations that a step reads, six bits each.
fn places(f: Frame, s: Stops) -> u64 {
    let yc = place(f.begin, f.end, f.start, s.xc);
    let yd = place(f.begin, f.end, f.cut, s.xd);
    let xc = place(f.start, f.stop, f.begin, s.yc);
    let xd = place(f.start, f.stop, f.split, s.yd);
    let cc = place(f.start, s.xc, f.begin, s.yc);
    let cd = place(f.start, s.xc, f.split, s.yd);
    let dc = place(f.cut, s.xd, f.begin, s.yc);
    let dd = place(f.cut, s.xd, f.split, s.yd);
    yc | yd << 6 | xc << 12 | xd << 18 | cc << 24 | cd << 30 | dc << 36 | dd << 42
}

// 1 if two pieces share a token, and the one that stops first does so at `r`.
fn stop_flag(a: u8, b: u8, c: u8, d: u8, r: u8) -> u64 {
    if a < d && c < b {
        if b < d {
            return u64::from(b == r);
        }
        if d < b {
            return u64::from(d == r);
        }
    }
    0
}

// For each relation that a step reads, whether it says which terminals may stand at `r`.
fn stop_flags(f: Frame, s: Stops, r: u8) -> u64 {
    let yc = stop_flag(f.begin, f.end, f.start, s.xc, r);
    let yd = stop_flag(f.begin, f.end, f.cut, s.xd, r);
    let xc = stop_flag(f.start, f.stop, f.begin, s.yc, r);
    let xd = stop_flag(f.start, f.stop, f.split, s.yd, r);
    let cc = stop_flag(f.start, s.xc, f.begin, s.yc, r);
    let cd = stop_flag(f.start, s.xc, f.split, s.yd, r);
    let dc = stop_flag(f.cut, s.xd, f.begin, s.yc, r);
    let dd = stop_flag(f.cut, s.xd, f.split, s.yd, r);
    yc | yd << 1 | xc << 2 | xd << 3 | cc << 4 | cd << 5 | dc << 6 | dd << 7
}

// 1 if a node with so many children is cut at `r`.
fn cut_flag(kids: u8, p: u8, r: u8) -> u64 {
    if kids < 2 {
        return 0;
    }
    u64::from(p == r)
}

// Whether the nodes start at `r`, or are cut there.
fn begin_flags(f: Frame, kx: u8, ky: u8, r: u8) -> u64 {
    let x = u64::from(f.start == r);
    let m = cut_flag(kx, f.cut, r);
    let y = u64::from(f.begin == r);
    let n = cut_flag(ky, f.split, r);
    x | m << 1 | y << 2 | n << 3
}

// 1 if `p` is after `i` and before `j`.
fn inside_flag(i: u8, p: u8, j: u8) -> u64 {
    u64::from(i < p && p < j)
}

// Whether the second node starts inside the first, the first inside the second, or both at once.
fn start_flags(f: Frame) -> u64 {
    let x = inside_flag(f.start, f.begin, f.stop);
    let y = inside_flag(f.begin, f.start, f.end);
    let same = u64::from(f.start == f.begin);
    x | y << 1 | same << 2
}

// All flags of a frame under nodes with so many children, and the place of their own relation.
fn flags(f: Frame, kx: u8, ky: u8, s: Stops) -> u64 {
    let r = f.stop.min(f.end);
    let own = place(f.start, f.stop, f.begin, f.end);
    let stops = stop_flags(f, s, r);
    let begins = begin_flags(f, kx, ky, r);
    let starts = start_flags(f);
    stops | begins << 8 | starts << 12 | own << 15
}

// The number of the frame with the two nodes exchanged.
fn exchanged(f: Frame) -> u64 {
    let starts = 7776 * (f.begin as u64) + 1296 * (f.split as u64) + 216 * (f.start as u64);
    starts + 36 * (f.cut as u64) + 6 * (f.end as u64) + f.stop as u64
}

// The entry of a frame's number, if there is one.
fn entry_of(words: &[u64], n: usize, code: u64) -> Option<usize>
    requires { (73728 ≤ length words.now) × (n ≤ 256) }
{
    for k in 0..n {
        if words[ENTRIES + 4 * k] == code {
            return Some(k);
        }
    }
    None
}

// Puts the hint of an entry, two words, if there is room: places, the entry and the one with the
// nodes exchanged, or else the first, and flags. The next place.
fn put_hint(words: &[u64], n: usize, k: usize, kind: u8, out: &mut [u64; HINTS], at: usize) -> usize
    requires { (73728 ≤ length words.now) × (n ≤ 256) × (k < n) × (at ≤ 1024) }
    ensures { result ≤ 1024 }
{
    if 1022 < at {
        return at;
    }
    let kx = kind / 4;
    let ky = kind % 4;
    let f = pair_frames::frame_at(words[ENTRIES + 4 * k] as usize);
    let s = stops_of(f, kx, ky);
    let other = entry_of(words, n, exchanged(f)).unwrap_or(0);
    out[at] = places(f, s) | (k as u64) << 48 | (other as u64) << 56;
    out[at + 1] = flags(f, kx, ky, s);
    at + 2
}

// The same, if the entry is one for nodes with `kind / 4` and `kind % 4` children.
fn put_if(words: &[u64], n: usize, k: usize, kind: u8, out: &mut [u64; HINTS], at: usize) -> usize
    requires { (73728 ≤ length words.now) × (n ≤ 256) × (k < n) × (at ≤ 1024) × (kind < 16) }
    ensures { result ≤ 1024 }
{
    if sets::has(words[ENTRIES + 1 + 4 * k], kind) {
        return put_hint(words, n, k, kind, out, at);
    }
    at
}

// The hints of all entries for such nodes.
fn put_kind(words: &[u64], n: usize, kind: u8, out: &mut [u64; HINTS], from: usize) -> usize
    requires { (73728 ≤ length words.now) × (n ≤ 256) × (from ≤ 1024) × (kind < 16) }
    ensures { result ≤ 1024 }
{
    let mut at = from;
    for k in 0..n {
        at = put_if(words, n, k, kind, out, at);
    }
    at
}

// The hints of the entries by the numbers of children, and where those of each two numbers stand.
pub fn list_hints(words: &[u64], n: usize, out: &mut [u64; HINTS])
    requires { (73728 ≤ length words.now) × (n ≤ 256) }
{
    let mut at: usize = 32;
    for kind in 0u8..16 {
        out[2 * (kind as usize)] = at as u64;
        at = put_kind(words, n, kind, out, at);
        out[2 * (kind as usize) + 1] = at as u64;
    }
}

// A place of a hint that stands in the hints themselves.
fn within(at: u64) -> usize
    ensures { result ≤ 1023 }
{
    if at < 1023 {
        return at as usize;
    }
    1023
}

// Where the hints for nodes with `kind / 4` and `kind % 4` children start.
pub fn hints_from(hints: &[u64; HINTS], kind: u8) -> usize
    requires { kind < 16 }
    ensures { result ≤ 1023 }
{
    within(hints[2 * (kind as usize)])
}

// Where they end.
pub fn hints_end(hints: &[u64; HINTS], kind: u8) -> usize
    requires { kind < 16 }
    ensures { result ≤ 1023 }
{
    within(hints[2 * (kind as usize) + 1])
}

// The word with all offsets at the place of no relation.
fn open(w: u64) -> u64 {
    w | 15 << APART
}

pub fn open_words(w: Words) -> Words {
    Words {
        yc: open(w.yc),
        yd: open(w.yd),
        xc: open(w.xc),
        xd: open(w.xd),
        cc: open(w.cc),
        cd: open(w.cd),
        dc: open(w.dc),
        dd: open(w.dd),
    }
}

// The offsets of a word at the place that six bits of `places` say.
fn offsets(w: u64, places: u64, at: u64) -> u64
    requires { at < 64 }
{
    w >> (places >> at) % 64
}

// Do the words leave offsets for all four starts?
fn may_stand(w: Words, places: u64) -> bool {
    let starts = offsets(w.yc, places, 0) & offsets(w.xc, places, 12) & offsets(w.cc, places, 24);
    if starts & 15 == 0 {
        return false;
    }
    if offsets(w.yd, places, 6) & offsets(w.dc, places, 36) & 15 == 0 {
        return false;
    }
    if offsets(w.xd, places, 18) & offsets(w.cd, places, 30) & 15 == 0 {
        return false;
    }
    offsets(w.dd, places, 42) & 15 != 0
}

// The first hint from a place on by which nodes with these words may stand; past the end if there
// is none.
pub fn next_hint(hints: &[u64; HINTS], w: Words, from: usize, end: usize) -> usize
    requires { end ≤ 1023 }
    ensures { from ≤ result }
{
    let mut at = from;
    while at < end {
        if may_stand(w, hints[at]) {
            return at;
        }
        at += 2;
    }
    at
}

// The offsets left to the two starts.
fn starts_left(w: Words, x: Node, y: Node, places: u64, flags: u64) -> u64 {
    let mut m = offsets(w.yc, places, 0) & offsets(w.xc, places, 12) & offsets(w.cc, places, 24);
    if sets::has(flags, 12) {
        m &= x.keep;
    }
    if sets::has(flags, 13) {
        m &= y.keep;
    }
    if sets::has(flags, 14) {
        return m & 1;
    }
    m & 15
}

// The word of terminals of two nonterminals for the place of a relation.
fn next_at(t: &[u64], a: u8, b: u8, place: u64) -> u64
    requires { (73728 ≤ length t.now) × (a < 64) × (b < 64) }
{
    t[NEXT_WORDS + (9 * (64 * (a as usize) + b as usize) + (place / 4 % 16) as usize)]
}

// The terminals of `q` left by a relation, if the flag says that it has a say.
fn narrowed(q: u64, yes: bool, t: &[u64], a: u8, b: u8, places: u64) -> u64
    requires { (73728 ≤ length t.now) × (a < 64) × (b < 64) }
{
    if yes {
        return q & next_at(t, a, b, places);
    }
    q
}

// The terminals left by the nodes that start or are cut at the stop that comes first.
fn begins_left(x: Node, y: Node, flags: u64) -> u64 {
    let mut q: u64 = u64::MAX;
    if sets::has(flags, 8) {
        q &= x.begin;
    }
    if sets::has(flags, 9) {
        q &= x.next;
    }
    if sets::has(flags, 10) {
        q &= y.begin;
    }
    if sets::has(flags, 11) {
        q &= y.next;
    }
    q
}

// The terminals of `q` left there by a node and a child of the other.
fn nodes_left(q: u64, t: &[u64], x: Node, y: Node, z: u64, e: u64) -> u64
    requires { (73728 ≤ length t.now) × Small x × Small y }
{
    let q1 = narrowed(q, sets::has(e, 0), t, y.sort, x.first, z);
    let q2 = narrowed(q1, sets::has(e, 1), t, y.sort, x.second, z >> 6);
    let q3 = narrowed(q2, sets::has(e, 2), t, x.sort, y.first, z >> 12);
    narrowed(q3, sets::has(e, 3), t, x.sort, y.second, z >> 18)
}

// Those left by two children.
fn kids_left(q: u64, t: &[u64], x: Node, y: Node, z: u64, e: u64) -> u64
    requires { (73728 ≤ length t.now) × Small x × Small y }
{
    let q1 = narrowed(q, sets::has(e, 4), t, x.first, y.first, z >> 24);
    let q2 = narrowed(q1, sets::has(e, 5), t, x.first, y.second, z >> 30);
    let q3 = narrowed(q2, sets::has(e, 6), t, x.second, y.first, z >> 36);
    narrowed(q3, sets::has(e, 7), t, x.second, y.second, z >> 42)
}

// The terminals left there by all.
fn tokens_left(t: &[u64], x: Node, y: Node, z: u64, e: u64) -> u64
    requires { (73728 ≤ length t.now) × Small x × Small y }
{
    let q1 = begins_left(x, y, e);
    let q2 = nodes_left(q1, t, x, y, z, e);
    kids_left(q2, t, x, y, z, e)
}

// Has the table the offsets `m` of the starts of the nodes `i` and `j`, both ways round?
fn has_offsets(t: &[u64], x: Node, y: Node, i: usize, j: usize, m: u64, own: u64) -> bool
    requires in_bounds { (73728 ≤ length t.now) × Small x × Small y × (i < 384) × (j < 384) }
    requires own_bound { own ≤ 32 }
{
    let a = x.sort as usize;
    let b = y.sort as usize;
    let bits = m << own;
    if t[64 * i + b] & t[SORT_WORDS + (64 * a + b)] & bits != bits {
        return false;
    }
    let back = m << (32 - own);
    t[64 * j + a] & back == back
}

// Might a step of the nodes `i` and `j`, or one the other way round, add something? By a hint and
// what the table says of their children.
pub fn might_add(
    t: &[u64],
    x: Node,
    y: Node,
    i: usize,
    j: usize,
    w: Words,
    places: u64,
    flags: u64,
) -> bool
    requires { (73728 ≤ length t.now) × Small x × Small y × (i < 384) × (j < 384) }
{
    let m = starts_left(w, x, y, places, flags);
    if m == 0 {
        return false;
    }
    let own = flags >> 15;
    if 32 < own {
        return true;
    }
    if !has_offsets(t, x, y, i, j, m, own) {
        return true;
    }
    let q = tokens_left(t, x, y, places, flags);
    next_at(t, x.sort, y.sort, own) & q != q
}
