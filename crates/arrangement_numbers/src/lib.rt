// The number of an arrangement, and the run of numbers that all arrangements with the same first
// cells have.
#![tactic(auto)]

ghost use Rattle.std.specs.Prelude.{◌≡◌, suc, ◌+◌, ◌≤◌, ◌<◌, take};
ghost use Rattle.std.specs.Int.Count.{ones};
ghost use Rattle.grammar.specs.Candidates.{Ranged};
ghost use Rattle.grammar.specs.Candidates as Of;
ghost use Rattle.grammar.specs.Sweeps.{arrangements};
ghost use Rattle.candidates.specs.Terminals.{Among};
ghost use Rattle.candidates.specs.Arrays.{cells};
ghost use Rattle.candidates.specs.Windows.{largest_step_of};
ghost use Rattle.arrangement_numbers.specs.Numbers.{digit, radix};
ghost use Rattle.arrangement_numbers.specs.Shares.{first_of_share};
ghost use Rattle.arrangement_numbers.specs.Blocks.{place_in, number_in, room, least, Few};

use candidates::{Candidate, members_below};
use grammar::Cell;

// How many line steps the token at i may have.
fn steps_at(i: usize) -> u64
    ensures { result ≡ suc (largest_step_of i) }
{
    Candidate::largest_step(i) as u64 + 1
}

// How many cells the token at i may have.
fn choices_at(set: u64, n: usize, i: usize) -> u64
    requires { n ≤ 7 }
    ensures { result ≡ radix (ones set) (place_in set) n (largest_step_of i) }
{
    let t = u64::count_ones(set) as u64;
    t * steps_at(i) * (n as u64)
}

// A cell's number among those that the token at i may have.
fn cell_number(set: u64, n: usize, i: usize, c: Cell) -> u64
    requires n_bound { n ≤ 7 }
    requires ranged { Ranged (Among set) n (largest_step_of i) c }
    ensures { result ≡ digit (ones set) (place_in set) n (largest_step_of i) c }
{
    let t = members_below(set, c.terminal);
    let s = c.step as u64;
    let k = (c.column - 1) as u64;
    (t * steps_at(i) + s) * (n as u64) + k
}

// The number of a candidate's first b cells.
fn front_number(set: u64, c: Candidate, n: usize, b: usize) -> u64
    requires few { Few set n }
    requires candidate { Of.Candidate (Among set) n (cells c 0 n) }
    requires b_le_n { b ≤ n }
    ensures { result ≡ number_in set n (take b (cells c 0 n)) }
{
    let mut v: u64 = 0;
    for i in 0..b {
        let x = cell_number(set, n, i, c.cell(i));
        v = v * choices_at(set, n, i) + x;
    }
    v
}

// How many arrangements share their first b cells.
fn room_past(set: u64, n: usize, b: usize) -> u64
    requires few { Few set n }
    requires b_le_n { b ≤ n }
    ensures { result ≡ room set n b }
{
    let mut v: u64 = 1;
    for i in (b..n).rev() {
        v *= choices_at(set, n, i);
    }
    v
}

// The numbers of all arrangements that share some first cells: the least of them, and how many.
#[derive(Clone, Copy)]
pub struct Block {
    pub low: u64,
    pub size: u64,
}

// The numbers of those that share a candidate's first b cells.
pub fn block_of(set: u64, c: Candidate, n: usize, b: usize) -> Block
    requires few { Few set n }
    requires candidate { Of.Candidate (Among set) n (cells c 0 n) }
    requires b_le_n { b ≤ n }
    ensures { (result.low ≡ least set n b (cells c 0 n)) × (result.size ≡ room set n b)
        × (result.low + result.size ≤ 4294967296) }
{
    let size = room_past(set, n, b);
    let v = front_number(set, c, n, b);
    Block {
        low: v * size,
        size,
    }
}

// M: how many arrangements of n tokens there are over the set.
pub fn all_numbers(set: u64, n: usize) -> u64
    requires le_n { (1 ≤ n) × (n ≤ 7) }
    requires n_bound { arrangements (ones set) n ≤ 4294967296 }
    ensures { result ≡ arrangements (ones set) n }
{
    let t = u64::count_ones(set);
    if t == 0 {
        return 0;
    }
    room_past(set, n, 0)
}

// The number that share i of p begins with, or past the last, where they end.
pub fn begins_at(m: u64, p: u64, i: u64) -> u64
    requires { (m ≤ 4294967296) × (1 ≤ p) × (i ≤ 64) }
    ensures { result ≡ first_of_share m p i }
{
    let q = m / p;
    let r = m % p;
    if i < r {
        return i * q + i;
    }
    i * q + r
}
