// The frames over which two nodes can stand: which there are, and which suit two nodes.
#![tactic(auto)]

ghost use Rattle.std.specs.Prelude.{◌+◌, ◌≤◌, ◌<◌, ◌≡◌};
ghost use Rattle.sets.specs.Says.{Says};
ghost use Rattle.pair_offsets.specs.Frames.{rank_of};
ghost use Rattle.pair_steps.specs.Ranks.{bump, lower, numbers_of, Ranked};
ghost use Rattle.pair_steps.specs.Suiting.{Placed, Suits};
ghost use Rattle.pair_frames.specs.Numbering.{Amid, NoneAmid, frame_at};

use pair_offsets::Frame;

// Is `p` after `i` and before `j`?
fn amid(i: u8, p: u8, j: u8) -> bool
    ensures { Says result (Amid i p j) }
{
    if i < p {
        return p < j;
    }
    false
}

// Is no point of the frame after `i` and before `j`?
fn none_amid(f: Frame, i: u8, j: u8) -> bool
    ensures { Says result (NoneAmid f i j) }
{
    if amid(i, f.start, j) {
        return false;
    }
    if amid(i, f.cut, j) {
        return false;
    }
    if amid(i, f.begin, j) {
        return false;
    }
    if amid(i, f.split, j) {
        return false;
    }
    if amid(i, f.stop, j) {
        return false;
    }
    if amid(i, f.end, j) {
        return false;
    }
    true
}

// Can a node with so many children that have tokens stand from `i` to `j`, cut at `m`?
fn placed(f: Frame, kids: u8, i: u8, m: u8, j: u8) -> bool
    ensures { Says result (Placed f kids i m j) }
{
    if 1 < kids {
        return amid(i, m, j);
    }
    if i == m {
        if kids == 0 {
            return none_amid(f, i, j);
        }
        return true;
    }
    false
}

// Can nodes with so many children that have tokens stand over the frame, and share a token?
pub fn suits(f: Frame, kx: u8, ky: u8) -> bool
    ensures { Says result (Suits f kx ky) }
{
    if f.stop <= f.start {
        return false;
    }
    if f.end <= f.begin {
        return false;
    }
    if f.end <= f.start {
        return false;
    }
    if f.stop <= f.begin {
        return false;
    }
    if placed(f, kx, f.start, f.cut, f.stop) {
        return placed(f, ky, f.begin, f.split, f.end);
    }
    false
}

// One more than `n`, where the test said yes.
fn one_more(yes: bool, n: u8) -> u8
    requires { n < 255 }
    ensures { (result ≡ bump yes n) × (result ≤ n + 1) }
{
    if yes {
        return n + 1;
    }
    n
}

// How many points of the frame come before `x`.
fn points_before(f: Frame, x: u8) -> u8
    ensures { result ≡ lower (numbers_of (rank_of f)) x }
{
    let a = one_more(f.end < x, 0);
    let b = one_more(f.stop < x, a);
    let c = one_more(f.split < x, b);
    let d = one_more(f.begin < x, c);
    let e = one_more(f.cut < x, d);
    one_more(f.start < x, e)
}

// Is each point of the frame numbered by how many come before it?
pub fn ranked(f: Frame) -> bool
    ensures { Says result (Ranked (rank_of f)) }
{
    if points_before(f, f.start) != f.start {
        return false;
    }
    if points_before(f, f.begin) != f.begin {
        return false;
    }
    if points_before(f, f.cut) != f.cut {
        return false;
    }
    if points_before(f, f.split) != f.split {
        return false;
    }
    if points_before(f, f.stop) != f.stop {
        return false;
    }
    points_before(f, f.end) == f.end
}

// The frame of a number, a digit to the base 6 for each point.
pub fn frame_at(n: usize) -> Frame
    ensures { result ≡ frame_at n }
{
    Frame {
        start: (n / 7776 % 6) as u8,
        cut: (n / 1296 % 6) as u8,
        stop: (n / 6 % 6) as u8,
        begin: (n / 216 % 6) as u8,
        split: (n / 36 % 6) as u8,
        end: (n % 6) as u8,
    }
}
