// A list that a call gives in lent bytes, put piece by piece: its bytes at the front, 0 after them,
// its number of entries; or it does not fit.
#![tactic(auto)]

ghost use Rattle.std.specs.Prelude.{◌≤◌, length};
ghost use Rattle.lists.specs.Lists.{GivesList};
ghost use Rattle.lists.specs.Putting.{Begun, PutMore, AllPut, listed, unfit};

use printing::put_bytes;
use rows::clear;

// A list while it is put: the place behind what was put, the number of entries so far, and whether
// all of it had room.
// Kept: the flag; an Option would be carried through each caller's loops, which go on all the same.
#[derive(Clone, Copy)]
pub struct Listing {
    pub at: usize,
    pub count: usize,
    pub fits: bool,
}

// No entry yet.
pub fn begin() -> Listing
    ensures { Begun result }
{
    Listing {
        at: 0,
        count: 0,
        fits: true,
    }
}

// The bytes of n entries more, where there is room for them.
pub fn put(out: &mut [u8], l: Listing, bytes: &[u8], n: usize) -> Listing
    requires { (l.count ≤ l.at) × (n ≤ length bytes.now) }
    ensures { PutMore bytes.now n out.old out.new l result }
{
    if !l.fits || out.len() < l.at || out.len() - l.at < bytes.len() {
        return Listing { fits: false, ..l };
    }
    let at = put_bytes(out, l.at, bytes);
    Listing {
        at,
        count: l.count + n,
        fits: true,
    }
}

// The end of the list: 0 behind it, and its number of entries; or all 0 if it did not fit.
pub fn finish(out: &mut [u8], l: Listing) -> Option<usize>
    ensures { AllPut out.old out.new l result }
{
    if !l.fits || out.len() < l.at {
        out.fill(0);
        return None;
    }
    clear(out, l.at);
    Some(l.count)
}

// A whole list at once, an entry a byte.
pub fn put_list(out: &mut [u8], bytes: &[u8]) -> Option<usize>
    ensures { GivesList listed unfit bytes.now (length bytes.now)
        out.old out.new result }
{
    let l = put(out, begin(), bytes, bytes.len());
    finish(out, l)
}
