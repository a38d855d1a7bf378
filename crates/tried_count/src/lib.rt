// The number of candidates that a sweep tries. It is worked out and not counted along, since the
// search passes over whole blocks of candidates.
#![tactic(auto)]

ghost use Rattle.std.specs.Prelude.{◌≡◌, ◌+◌, ◌-◌, ◌*◌, ◌≤◌, ◌<◌};
ghost use Rattle.std.specs.Int.Count.{ones};
ghost use Rattle.sets.specs.Sets.{In};
ghost use Rattle.counting.specs.Counts.{HowMany};
ghost use Rattle.grammar.specs.Candidates as Of;
ghost use Rattle.candidates.specs.Terminals.{Among};
ghost use Rattle.candidates.specs.Arrays.{cells};
ghost use Rattle.tried_count.specs.Tried.{Sized, Tried};
ghost use Rattle.tried_count.specs.Ways.{sum, ways, lesser, whole_of, rank_from};
ghost use Rattle.tried_count.specs.Rows.{at, Low, OneCellMore, RowOf, Fair, Fairs};
ghost use Rattle.tried_count.specs.Rows.{members_below_of};
ghost use Rattle.tried_count.specs.Rows.{cell_rank};
ghost use Rattle.tried_count.specs.Searched.{Long, answer_of, Hits};

use candidates::{Candidate, members_below, terminal_count};
use grammar::Cell;
use sets::has;

// The ways to go on after a cell, by its column.
#[derive(Clone, Copy)]
struct Row {
    ways: [u64; 8],
}

// The sum over the columns after a, up to b.
fn sum_between(row: Row, a: usize, b: usize) -> u64
    requires { (b ≤ 7) × Low row }
    ensures { result ≡ sum (at row) a (b - a) }
{
    let mut s: u64 = 0;
    for k in a..b {
        s += row.ways[k + 1];
    }
    s
}

// The ways to put a cell with a given terminal after column p, with at most m steps, and to go on.
fn ways_at(row: Row, n: usize, m: u64, p: usize) -> u64
    requires { (n ≤ 7) × (m ≤ 2) × Low row }
    ensures { result ≡ ways (at row) n m p }
{
    sum_between(row, p, n) + m * sum_between(row, 0, n)
}

// The same of the cells with that terminal before step s and column k.
fn lesser_at(row: Row, n: usize, p: usize, s: u64, k: usize) -> u64
    requires { (n ≤ 7) × (s ≤ 2) × (k ≤ n) × (1 ≤ k) × Low row }
    ensures { result ≡ lesser (at row) n p s k }
{
    if s == 0 {
        return sum_between(row, p, k - 1);
    }
    ways_at(row, n, s - 1, p) + sum_between(row, 0, k - 1)
}

// The row with one cell more to come.
fn grown(row: Row, t: u64, n: usize) -> Row
    requires { (n ≤ 7) × (t ≤ 64) × Low row }
    ensures { OneCellMore t n row result }
{
    let mut next = Row { ways: [0; 8] };
    for p in 0..=n {
        next.ways[p] = t * ways_at(row, n, 2, p);
    }
    next
}

// The ways to go on with r cells.
fn row_of(t: u64, n: usize, r: usize) -> Row
    requires { Fair t n × (r < n) }
    ensures { RowOf t n r result }
{
    let mut row = Row { ways: [1; 8] };
    for i in 0..r {
        row = grown(row, t, n);
    }
    row
}

// All candidates of length n.
fn whole(t: u64, n: usize) -> u64
    requires { Fair t n }
    ensures { result ≡ whole_of t n }
{
    let row = row_of(t, n, n - 1);
    t * ways_at(row, n, 0, 0)
}

// The cells before d after a token in column p, each with the ways to go on after it.
fn cell_rank(row: Row, set: u64, n: usize, m: u64, p: usize, d: Cell) -> u64
    requires n_bound { (n ≤ 7) × (m ≤ 2) × Low row }
    requires terminal_bound { (d.terminal < 64) × (d.step ≤ 2) × (1 ≤ d.column) × (d.column ≤ n) }
    ensures { result ≡ cell_rank (members_below_of set) (at row) n m p d }
{
    let b = members_below(set, d.terminal);
    let w = ways_at(row, n, m, p);
    let l = lesser_at(row, n, p, d.step as u64, d.column as usize);
    b * w + l
}

// How many candidates of length n come before c.
fn rank(c: Candidate, set: u64, t: u64, n: usize) -> u64
    requires fair { Fair t n }
    requires candidate { Of.Candidate (Among set) n (cells c 0 n) }
    ensures { result ≡ rank_from (members_below_of set) t n 0 0 (cells c 0 n) }
{
    let mut total: u64 = 0;
    let mut m: u64 = 0;
    let mut p: usize = 0;
    for i in 0..n {
        let row = row_of(t, n, n - 1 - i);
        let d = c.cell(i);
        total += cell_rank(row, set, n, m, p, d);
        m = 2;
        p = d.column as usize;
    }
    total
}

// The candidates of length n, if the set of lengths has n.
fn of_length(lengths: u64, set: u64, n: usize) -> u64
    requires { Fair (ones set) n }
    ensures how_many { HowMany (Long (In lengths) (Among set) n) result }
    ensures upper_bound { result ≤ 5772436045824 }
{
    if has(lengths, n as u8) {
        let t = terminal_count(set);
        return whole(t, n);
    }
    0
}

// The candidates of 1 to k tokens, of lengths in the set.
fn up_to(lengths: u64, set: u64, k: usize) -> u64
    requires { (k ≤ 7) × Fairs (ones set) k }
    ensures how_many { HowMany (Sized (In lengths) (Among set) k) result }
    ensures upper_bound { result ≤ k * 5772436045824 }
{
    let mut total: u64 = 0;
    for n in 1..=k {
        total += of_length(lengths, set, n);
    }
    total
}

// What a search finds: a candidate, and its length.
#[derive(Clone, Copy)]
pub struct Hit {
    pub length: usize,
    pub candidate: Candidate,
}

// The number of candidates tried by a search up to k that found a hit, or nothing.
pub fn tried(lengths: u64, set: u64, k: usize, found: Option<Hit>) -> u64
    requires fair { Fair (ones set) k }
    requires hit { Hits (In lengths) (Among set) k found }
    ensures { HowMany (Tried (In lengths) (Among set) k (answer_of found)) result }
{
    match found {
        None => up_to(lengths, set, k),
        Some(h) => {
            let t = terminal_count(set);
            let shorter = up_to(lengths, set, h.length - 1);
            shorter + rank(h.candidate, set, t, h.length) + 1
        }
    }
}
