// Candidates that may be passed over: each has an earlier one that reads alike and keeps its first
// h cells. A sweep, which begins with the first candidate, keeps none; a share keeps those that
// hold the earlier one inside it.
#![tactic(auto)]

ghost use Rattle.std.specs.Prelude.{◌≡◌, true, false, ◌≤◌, ◌<◌};
ghost use Rattle.grammar.specs.Candidates as Of;
ghost use Rattle.candidates.specs.Terminals.{Among};
ghost use Rattle.candidates.specs.Arrays.{cells};
ghost use Rattle.equivalents.specs.Twins.{used, lacking, Slack, Passable};

use candidates::Candidate;
use sets::has;

// Is one of the first b cells in column j?
fn uses(c: Candidate, b: usize, j: u16) -> bool
    requires { b ≤ 7 }
    ensures { result ≡ used j (cells c 0 b) }
{
    c.columns[..b].iter().any(|k| *k == j)
}

// How many columns the first b cells leave out right below one of theirs that none of the first h
// cells is in.
fn lacks(c: Candidate, n: usize, b: usize, h: usize) -> usize
    requires { (h ≤ b) × (b ≤ 7) × (n ≤ 7) }
    ensures { result ≡ lacking n false (cells c 0 h) (cells c 0 b) }
{
    let mut w = false;
    let mut v: usize = 0;
    for j in (1..=n as u16).rev() {
        if uses(c, b, j) {
            w = !uses(c, h, j);
        } else if w {
            v += 1;
        }
    }
    v
}

// Has each candidate that shares the first b cells an earlier one that reads alike and has its
// first h cells and all its terminals? So it is where a step of two lines could be one, and where
// the columns leave out more than the cells to come can fill.
pub fn earlier_twin(c: Candidate, n: usize, b: usize, h: usize) -> bool
    requires { (h < b) × (b ≤ n) × (n ≤ 7) }
    ensures { result ≡ true → Slack n b h (cells c 0 n) }
{
    if c.steps[b - 1] == Candidate::LARGEST_STEP {
        return true;
    }
    n - b < lacks(c, n, b, h)
}

// The same, or where a smaller terminal could stand: `kept` has those of the set that none
// replaces. Where no cell is past the h cells, there is none.
pub fn passable(set: u64, kept: u64, c: Candidate, n: usize, b: usize, h: usize) -> bool
    requires b_le_n { (b ≤ n) × (n ≤ 7) }
    requires candidate { Of.Candidate (Among set) n (cells c 0 n) }
    ensures { result ≡ true → Passable set kept n b h (cells c 0 n) }
{
    if b <= h {
        return false;
    }
    if !has(kept, c.terminals[b - 1]) {
        return true;
    }
    earlier_twin(c, n, b, h)
}
