// Words of cuts of a filled span sheet: for one start and a nonterminal the ends up to which it has
// a tree, for each end and a nonterminal the starts from which it has one.
#![tactic(auto)]

ghost use Rattle.std.specs.Prelude.{◌≡◌, ◌+◌, ◌≤◌, ◌<◌, length, replicate};
ghost use Rattle.tables.specs.Tables.{Room};
ghost use Rattle.cuts.specs.Joining.{Joins};
ghost use Rattle.cut_tables.specs.Tables.{SetBits, EndBits, RowBits};
ghost use Rattle.cut_tables.specs.Tables.{Columns, CutTable};

use cuts::members_of;
use sets::with;
use spans::{clear, pair_at};

// Set the bit `c` in the words from `p` on, by the members of the set.
fn load_set(cuts: &mut [u64], p: usize, set: u64, c: u8)
    requires { (c < 64) × (p + 64 ≤ length cuts.old) }
    ensures { Joins (SetBits p set c) cuts.old cuts.new }
{
    for a in members_of(set) {
        let at = p + a as usize;
        cuts[at] = with(cuts[at], c);
    }
}

// Take the trees from `start` on into the columns of their ends.
fn load_ends(words: &[u64], cuts: &mut [u64], n: usize, start: usize)
    requires { Room words.now n start 1 × (length cuts.old ≡ 4160) }
    ensures { Joins (EndBits words.now n start) cuts.old
        cuts.new }
{
    for end in start + 1..=n {
        let at = 2 * pair_at(n, start, end - start);
        load_set(cuts, 64 * end, words[at], start as u8);
    }
}

// Take all trees into the columns of their ends, of words that are 0.
pub fn load_columns(words: &[u64], cuts: &mut [u64], n: usize)
    requires { Room words.now n 0 0 × (cuts.old ≡ replicate 4160 0) }
    ensures { Columns words.now n cuts.new }
{
    for start in 0..n {
        load_ends(words, cuts, n, start);
    }
}

// Take the trees from `start` on into its row, by their ends. Cut 64 has no bit: no part begins
// there.
// Kept: this and `load_ends` differ in the last end, in the words and in the bit.
fn load_row(words: &[u64], cuts: &mut [u64], n: usize, start: usize)
    requires { Room words.now n start 1 × (length cuts.old ≡ 4160) }
    ensures { Joins (RowBits words.now n start) cuts.old
        cuts.new }
{
    for end in start + 1..n {
        let at = 2 * pair_at(n, start, end - start);
        load_set(cuts, 0, words[at], end as u8);
    }
}

// Begin a start: the row is that of `start`.
pub fn begin_row(words: &[u64], cuts: &mut [u64], n: usize, start: usize)
    requires { Room words.now n start 1 × Columns words.now n cuts.old }
    ensures { CutTable words.now n start cuts.new }
{
    clear(cuts, 64);
    load_row(words, cuts, n, start);
}
