// The offsets of the starts of two nodes: which of them can stand together over a frame, and which
// of these are left by masks.
#![tactic(auto)]

ghost use Rattle.std.specs.Prelude.{◌≡◌, ◌+◌, ◌≤◌, ◌<◌, length};
ghost use Rattle.sets.specs.Sets.{In};
ghost use Rattle.sets.specs.Says.{Says};
ghost use Rattle.pair_offsets.specs.Evens.{TriSays, SameSays, SamesSay, TrisSay, TrioSays};
ghost use Rattle.pair_offsets.specs.Evens.{EvenSix};
ghost use Rattle.pair_offsets.specs.Lists.{Held, OffsetAdded, OffsetsLeft, Pushed, Listing};

// How many sixes a frame has at most whose two starts are one.
pub const ONE_START: usize = 1024;

// Where two nodes start, are cut and stop: the first node from `start` to `stop`, the second from
// `begin` to `end`.
#[derive(Clone, Copy)]
pub struct Frame {
    pub start: u8,
    pub cut: u8,
    pub stop: u8,
    pub begin: u8,
    pub split: u8,
    pub end: u8,
}

// Can the offsets of the second of three tokens against the first, of the third against the second
// and of the third against the first stand together? A bit for each three.
fn tri(a: u64, b: u64, c: u64) -> bool
    requires { (a ≤ 3) × (b ≤ 3) × (c ≤ 3) }
    ensures { TriSays a b c result }
{
    let at = 16 * a + 4 * b + c;
    (9865280294883330273u64 >> at) % 2 == 1
}

// If two tokens are one: is their offset 0, and are those against a third one?
fn same(p: u8, q: u8, a: u64, b: u64, c: u64) -> bool
    ensures { SameSays p q a b c result }
{
    if p == q {
        if a == 0 {
            return b == c;
        }
        return false;
    }
    true
}

// The same of each two of three tokens.
fn sames(p: u8, q: u8, r: u8, a: u64, b: u64, c: u64) -> bool
    ensures { SamesSay p q r a b c result }
{
    if same(p, q, a, b, c) {
        if same(q, r, b, a, c) {
            return same(p, r, c, a, b);
        }
    }
    false
}

// Can the offsets of three tokens stand together, if no two are one? By their order.
fn tris(p: u8, q: u8, r: u8, a: u64, b: u64, c: u64) -> bool
    requires { (a ≤ 3) × (b ≤ 3) × (c ≤ 3) }
    ensures { TrisSay p q r a b c result }
{
    if p < q {
        if q < r {
            return tri(a, b, c);
        }
        if p < r {
            if r < q {
                return tri(c, b, a);
            }
            return true;
        }
        if r < p {
            return tri(c, a, b);
        }
        return true;
    }
    if q < p {
        if p < r {
            return tri(a, c, b);
        }
        if q < r {
            if r < p {
                return tri(b, c, a);
            }
            return true;
        }
        if r < q {
            return tri(b, a, c);
        }
    }
    true
}

// Can the offsets `a` of the tokens at `p` and `q`, `b` of those at `q` and `r`, and `c` of those
// at `p` and `r` stand together?
fn fine(p: u8, q: u8, r: u8, a: u64, b: u64, c: u64) -> bool
    requires { (a ≤ 3) × (b ≤ 3) × (c ≤ 3) }
    ensures { TrioSays p q r a b c result }
{
    sames(p, q, r, a, b, c) && tris(p, q, r, a, b, c)
}

// Can the six offsets of `t`, a digit to the base 4 for each, stand together over the frame?
fn even(f: Frame, t: u64) -> bool
    ensures { Says result (EvenSix f t) }
{
    let ac = t % 4;
    let an = t / 4 % 4;
    let mc = t / 16 % 4;
    let mn = t / 64 % 4;
    let am = t / 256 % 4;
    let cn = t / 1024 % 4;
    if fine(f.start, f.cut, f.begin, am, mc, ac) {
        if fine(f.start, f.cut, f.split, am, mn, an) {
            if fine(f.start, f.begin, f.split, ac, cn, an) {
                return fine(f.cut, f.begin, f.split, mc, cn, mn);
            }
        }
    }
    false
}

// Puts the six of offsets `t` at `n`, if they can stand together over the frame; the next place.
fn push_even(f: Frame, out: &mut [u64], n: usize, t: u64) -> usize
    requires { n < length out.old }
    ensures { Pushed f out.old out.new n t result }
{
    if even(f, t) {
        out[n] = t;
        return n + 1;
    }
    n
}

// Lists, from a place on, the sixes of offsets that can stand together over the frame; the place
// past them.
pub fn list_evens(f: Frame, out: &mut [u64], from: usize) -> usize
    requires { from + 4096 ≤ length out.old }
    ensures { Listing f out.old out.new from 4096 result }
{
    let mut n = from;
    for t in 0u64..4096 {
        n = push_even(f, out, n, t);
    }
    n
}

// The same over a frame whose two starts are one: they are beside each other in each six, so that
// there are no more than 1024.
// Kept: one function for both takes the step and the room besides, and is longer than the two.
pub fn list_from_one(f: Frame, out: &mut [u64], from: usize) -> usize
    requires { (from + 1024 ≤ length out.old) × (f.start ≡ f.begin) }
    ensures { Listing f out.old out.new from 4096 result
        × (result ≤ from + 1024) }
{
    let mut n = from;
    for t in 0u64..1024 {
        n = push_even(f, out, n, 4 * t);
    }
    n
}

// The offsets left, for each two starts: the two nodes' starts, the first start and the second cut,
// the first cut and the second start, the two cuts, and each node's own start and cut.
#[derive(Clone, Copy)]
pub struct Masks {
    pub ac: u64,
    pub an: u64,
    pub mc: u64,
    pub mn: u64,
    pub am: u64,
    pub cn: u64,
}

fn member(set: u64, a: u64) -> bool
    requires { a < 64 }
    ensures { Says result (In set a) }
{
    (set >> a) % 2 == 1
}

// Are the six offsets of `t` among those left?
fn held(t: u64, m: Masks) -> bool
    ensures { Says result (Held m t) }
{
    if member(m.ac, t % 4) {
        if member(m.an, t / 4 % 4) {
            if member(m.mc, t / 16 % 4) {
                if member(m.mn, t / 64 % 4) {
                    if member(m.am, t / 256 % 4) {
                        return member(m.cn, t / 1024 % 4);
                    }
                }
            }
        }
    }
    false
}

// The set with the offset of the two starts in `t` besides, if the six are among those left.
fn with_offset(r: u64, t: u64, m: Masks) -> u64
    ensures { OffsetAdded m t r result }
{
    if held(t, m) {
        let a = (t % 4) as u8;
        return sets::with(r, a);
    }
    r
}

// The offsets of the two starts in those of the listed sixes that are among those left. No more
// are looked at once all that are left have been found.
pub fn offsets_left(list: &[u64], from: usize, end: usize, m: Masks) -> u64
    requires { (from ≤ end) × (end ≤ length list.now) }
    ensures { OffsetsLeft list.now from end m result }
{
    let mut r: u64 = 0;
    for i in from..end {
        if r == m.ac {
            return r;
        }
        let t = list[i];
        r = with_offset(r, t, m);
    }
    r
}
