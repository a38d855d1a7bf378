// The frames that the search goes over, each with the list of sixes that can stand over it, laid
// into the words past the table.
#![tactic(auto)]

ghost use Rattle.std.specs.Prelude.{◌+◌, ◌*◌, ◌≤◌, ◌<◌, length};
ghost use Rattle.pair_offsets.specs.Lists.{ListsEvens};
ghost use Rattle.pair_frames.specs.Numbering.{frame_at};
ghost use Rattle.pair_entries.specs.Entries.{search_words, KindsOf};
ghost use Rattle.pair_entries.specs.Entering.{KindAdded, KindsIf, NoneUseful, EntryPut};
ghost use Rattle.pair_entries.specs.Entering.{Entered, StartsAdded, Prepared};

use pair_offsets::Frame;
use pair_steps::ENTRIES;

// The words that the search needs: behind the table those of 256 entries, four each, and from LISTS
// on the lists of sixes, each of at most 4096.
pub const WORDS: usize = 73728;

const LISTS: usize = ENTRIES + 4 * 256;

const LAST_LIST: usize = WORDS - 4096;

// How many four starts there are, and as many frames with each; and the most entries after which
// there is room for so many more.
const STARTS: usize = 1296;

const STOPS: usize = 36;

const FEW: usize = 256 - STOPS;

// How far the frames are entered: the number of the next four starts, how many entries there are,
// and the first free place for a list.
#[derive(Clone, Copy)]
pub struct Stage {
    pub starts: usize,
    pub entries: usize,
    pub free: usize,
}

// The set with `k` besides, if nodes with `k / 4` and `k % 4` children can stand over the frame.
fn with_kind(f: Frame, k: u8, set: u64) -> u64
    requires { k < 16 }
    ensures { KindAdded f k set result }
{
    if pair_frames::suits(f, k / 4, k % 4) {
        return sets::with(set, k);
    }
    set
}

// The numbers of children that two nodes over the frame can have.
fn kinds_of(f: Frame) -> u64
    ensures { KindsOf f result }
{
    let mut set: u64 = 0;
    for k in 0u8..16 {
        set = with_kind(f, k, set);
    }
    set
}

// The same of the frame with the number; none if it is not ranked.
fn useful_kinds(c: usize) -> u64
    ensures { KindsIf c result }
{
    let f = pair_frames::frame_at(c);
    if pair_frames::ranked(f) {
        return kinds_of(f);
    }
    0
}

// Is some frame with these four starts of use? None is where a node is cut before it starts.
fn some_useful(p: usize) -> bool
    requires { p < 1296 }
    ensures { NoneUseful (36 * p) (36 * p + 36) result }
{
    let f = pair_frames::frame_at(STOPS * p);
    if f.cut < f.start {
        return false;
    }
    if f.split < f.begin {
        return false;
    }
    for s in 0..STOPS {
        if useful_kinds(STOPS * p + s) != 0 {
            return true;
        }
    }
    false
}

// Puts an entry behind `n` others.
fn put_entry(words: &mut [u64], n: usize, c: usize, kinds: u64, from: usize, end: usize)
    requires { (search_words ≤ length words.old) × (n < 256) }
    ensures { EntryPut words.old words.new n c kinds from end }
{
    words[ENTRIES + 4 * n] = c as u64;
    words[ENTRIES + 1 + 4 * n] = kinds;
    words[ENTRIES + 2 + 4 * n] = from as u64;
    words[ENTRIES + 3 + 4 * n] = end as u64;
}

// Enters the frame with the number, if it is of use; how many entries there are now.
fn enter(words: &mut [u64], n: usize, c: usize, from: usize, end: usize) -> usize
    requires search_words_in_bounds { (search_words ≤ length words.old) × (n < 256) × (c < 46656) }
    requires lists_evens { ListsEvens (frame_at c) words.old from end × (66560 ≤ from) }
    ensures { Entered words.old words.new n result c (c + 1) end }
{
    let kinds = useful_kinds(c);
    if kinds == 0 {
        return n;
    }
    put_entry(words, n, c, kinds, from, end);
    n + 1
}

// Enters the frames with these four starts, whose list of sixes stands from a place on.
fn enter_all(words: &mut [u64], n: usize, p: usize, from: usize, end: usize) -> usize
    requires search_words_in_bounds { (search_words ≤ length words.old) × (n + 36 ≤ 256)
        × (p < 1296) }
    requires lists_evens { ListsEvens (frame_at (36 * p)) words.old from end × (66560 ≤ from) }
    ensures { Entered words.old words.new n result (36 * p) (36 * p + 36)
        end }
{
    let mut m = n;
    for s in 0..STOPS {
        m = enter(words, m, STOPS * p + s, from, end);
    }
    m
}

// Lists the sixes of the next four starts and enters their frames, if there are any of use.
fn add_starts(words: &mut [u64], s: Stage) -> Stage
    requires search_words_in_bounds { (search_words ≤ length words.old) × (s.starts < 1296)
        × (s.entries ≤ 220) }
    requires le_free { (66560 ≤ s.free) × (s.free ≤ 69632) }
    ensures { StartsAdded words.old words.new s result }
{
    let p = s.starts;
    let from = s.free;
    if some_useful(p) {
        let f = pair_frames::frame_at(STOPS * p);
        let end = pair_offsets::list_evens(f, words, from);
        let n = enter_all(words, s.entries, p, from, end);
        return Stage {
            starts: p + 1,
            entries: n,
            free: end,
        };
    }
    Stage {
        starts: p + 1,
        entries: s.entries,
        free: from,
    }
}

// Enters the frames from some four starts on, as many as there is room for.
pub fn prepare(words: &mut [u64], p: usize) -> Stage
    requires { (search_words ≤ length words.old) × (p < 1296) }
    ensures { Prepared words.old words.new p result }
{
    let mut s = Stage {
        starts: p,
        entries: 0,
        free: LISTS,
    };
    loop {
        s = add_starts(words, s);
        if s.starts == STARTS {
            return s;
        }
        if FEW < s.entries {
            return s;
        }
        if LAST_LIST < s.free {
            return s;
        }
    }
}
