// The sweep's candidates, each worked out from the one before, the terminals they carry, and the
// limit of refusal 24.
#![tactic(auto)]

ghost use Rattle.std.specs.Prelude.{◌≡◌, ◌%◌, ◌^◌, ◌≤◌, ◌<◌};
ghost use Rattle.std.specs.Int.Count.{ones};
ghost use Rattle.sets.specs.Says.{Says};
ghost use Rattle.grammar.specs.Content.{rules_of, Formed, SmallClause};
ghost use Rattle.grammar.specs.Candidates as Of;
ghost use Rattle.grammar.specs.Sweeps.{arrangements};
ghost use Rattle.candidates.specs.Terminals.{Among, Lowest, Terminals, Ranging, Widened};
ghost use Rattle.candidates.specs.Terminals.{CountsOnes};
ghost use Rattle.candidates.specs.Arrays.{cell_at, cells};
ghost use Rattle.candidates.specs.Succession.{First, Succeeds};
ghost use Rattle.candidates.specs.Windows.{Fits, LeastSpot, Room, Advances, largest_step_of};
ghost use Rattle.candidates.specs.Windows.{column_before_of, Changed, Lowered, Filled, Raises};
ghost use Rattle.candidates.specs.Spelling.{LowSteps, Placed, Spells};

use grammar::{Cell, Clause, Column, Grammar, Line, Sentence, Token, Width};
use sets::first_from;

// A line step and a column.
#[derive(Clone, Copy)]
struct Spot {
    step: u8,
    column: u16,
}

// The least line step, at most m, with the least column, at most n, that come after a token in
// column p.
fn least_spot(n: u16, m: u8, p: u16) -> Spot
    requires { Room n m p }
    ensures { LeastSpot n m p result.step result.column }
{
    if p < n {
        Spot {
            step: 0,
            column: p + 1,
        }
    } else {
        Spot { step: 1, column: 1 }
    }
}

// The cell after c, among those that come after a token in column p, if there is one: a column
// further, else a step, else a terminal.
fn advance(set: u64, n: u16, m: u8, p: u16, c: Cell) -> Option<Cell>
    requires room { Room n m p }
    requires fits { Fits (Among set) n m p c }
    ensures { Advances set n m p c result }
{
    let t = c.terminal;
    let s = c.step;
    let k = c.column + 1;
    if k <= n {
        return Some(Cell {
            terminal: t,
            step: s,
            column: k,
        });
    }
    if s < m {
        return Some(Cell {
            terminal: t,
            step: s + 1,
            column: 1,
        });
    }
    let u = first_from(set, t + 1)?;
    let w = least_spot(n, m, p);
    Some(Cell {
        terminal: u,
        step: w.step,
        column: w.column,
    })
}

// A candidate of at most seven tokens: their terminals, line steps and columns.
// Kept: three arrays by value, a form that docs/DECISIONS.md has ("Forms of the code").
#[derive(Clone, Copy)]
pub struct Candidate {
    pub terminals: [u8; 7],
    pub steps: [u8; 7],
    pub columns: [u16; 7],
}

// The next candidate. Of its cells only those from place `upto` - 1 on may differ from the one
// before.
#[derive(Clone, Copy)]
pub struct Stepped {
    pub upto: usize,
    pub to: Candidate,
}

impl Candidate {
    // Each next token is 0, 1 or 2 lines further.
    pub const LARGEST_STEP: u8 = 2;

    // The largest step of the token at i; the first stands on line 1.
    pub fn largest_step(i: usize) -> u8
        ensures { result ≡ largest_step_of i }
    {
        if i == 0 { 0 } else { Self::LARGEST_STEP }
    }

    // The column of the token before i, 0 for the first.
    pub fn column_before(self, i: usize) -> u16
        requires { i ≤ 7 }
        ensures { result ≡ column_before_of self i }
    {
        if i == 0 { 0 } else { self.columns[i - 1] }
    }

    // The cell at i.
    pub fn cell(self, i: usize) -> Cell
        requires { i < 7 }
        ensures { result ≡ cell_at self i }
    {
        Cell {
            terminal: self.terminals[i],
            step: self.steps[i],
            column: self.columns[i],
        }
    }

    // New arrays, with the cell c at i.
    pub fn with(mut self, i: usize, c: Cell) -> Candidate
        requires { i < 7 }
        ensures { Changed self i c result }
    {
        self.terminals[i] = c.terminal;
        self.steps[i] = c.step;
        self.columns[i] = c.column;
        self
    }

    // New arrays, with the least cell at i.
    fn lowered(self, set: u64, low: u8, n: usize, i: usize) -> Candidate
        requires le_n { (1 ≤ n) × (n ≤ 7) × (i < n) }
        requires lowest { Lowest set low }
        ensures { Lowered set n self i result }
    {
        let m = Candidate::largest_step(i);
        let p = self.column_before(i);
        let w = least_spot(n as u16, m, p);
        self.with(
            i,
            Cell {
                terminal: low,
                step: w.step,
                column: w.column,
            },
        )
    }

    // New arrays, with the least cells from `from` on.
    fn filled(self, set: u64, low: u8, n: usize, from: usize) -> Candidate
        requires le_n { (1 ≤ n) × (n ≤ 7) × (from ≤ n) }
        requires lowest { Lowest set low }
        ensures { Filled set n self from result }
    {
        let mut c = self;
        for i in from..n {
            c = c.lowered(set, low, n, i);
        }
        c
    }

    // New arrays, with the next cell at i and the least cells behind it, if there is a next cell.
    fn raised(self, set: u64, low: u8, n: usize, i: usize) -> Option<Stepped>
        requires le_n { (1 ≤ n) × (n ≤ 7) × (i < n) }
        requires lowest { Lowest set low }
        requires fits { Fits (Among set) n (largest_step_of i) (column_before_of self i)
            (cell_at self i) }
        ensures { Raises set n self i result }
    {
        let m = Candidate::largest_step(i);
        let p = self.column_before(i);
        let d = self.cell(i);
        let e = advance(set, n as u16, m, p, d)?;
        let c = self.with(i, e);
        let to = c.filled(set, low, n, i + 1);
        Some(Stepped { upto: i + 1, to })
    }

    // The first candidate of length n, over a set whose least terminal is low.
    pub fn first(set: u64, low: u8, n: usize) -> Candidate
        requires le_n { (1 ≤ n) × (n ≤ 7) }
        requires lowest { Lowest set low }
        ensures { First set n (cells result 0 n) }
    {
        let c = Candidate {
            terminals: [0; 7],
            steps: [0; 7],
            columns: [0; 7],
        };
        c.filled(set, low, n, 0)
    }

    // The least candidate of length n after all that share the first b cells, if there is one: the
    // last of these cells that has a next one takes it.
    pub fn successor(self, set: u64, low: u8, n: usize, b: usize) -> Option<Stepped>
        requires le_n { (1 ≤ n) × (n ≤ 7) × (b ≤ n) }
        requires lowest { Lowest set low }
        requires candidate { Of.Candidate (Among set) n (cells self 0 n) }
        ensures { Succeeds set n b (cells self 0 n) result }
    {
        for i in (0..b).rev() {
            if let Some(r) = self.raised(set, low, n, i) {
                return Some(r);
            }
        }
        None
    }

    // The candidate's tokens, in N places: the first on line 1, each next its step further, all of
    // width 1.
    pub fn tokens<const N: usize>(self, n: usize) -> [Token; N]
        requires { (n ≤ 7) × (n ≤ N) × LowSteps (cells self 0 n) }
        ensures { Placed (cells self 0 n) n N result }
    {
        let mut tokens = [Token {
            terminal: 0,
            line: Line(0),
            column: Column(0),
            width: Width(0),
        }; N];
        let mut line: u16 = 1;
        for i in 0..n {
            let d = self.cell(i);
            line += d.step as u16;
            tokens[i] = Token {
                terminal: d.terminal,
                line: Line(line),
                column: Column(d.column),
                width: Width(1),
            };
        }
        tokens
    }

    // The candidate's sentence.
    pub fn sentence(self, n: usize) -> Sentence
        requires { (n ≤ 7) × LowSteps (cells self 0 n) }
        ensures { Spells (cells self 0 n) n result }
    {
        let tokens = self.tokens(n);
        Sentence { tokens, count: n }
    }
}

// The set with the numbers from a to b besides.
fn with_range(set: u64, a: u8, b: u8) -> u64
    requires { (a < 64) × (b < 64) }
    ensures { Ranging set a b result }
{
    let mut u = set;
    for i in a..=b {
        u = sets::with(u, i);
    }
    u
}

// The set with the terminals of an A clause besides.
fn with_terminal(set: u64, k: Clause) -> u64
    requires { SmallClause k }
    ensures { Widened set k result }
{
    match k {
        Clause::Empty => set,
        Clause::Atom(a, b) => with_range(set, a, b),
        Clause::Unary(_, _) => set,
        Clause::Binary(_, _, _) => set,
    }
}

// The set of the terminals that the sheet's A rules cover.
pub fn terminals(g: Grammar) -> u64
    requires { Formed g }
    ensures { Terminals (rules_of g) result }
{
    let mut set: u64 = 0;
    for r in &g.rules[..g.count] {
        set = with_terminal(set, r.clause);
    }
    set
}

// How many members of the set are below x.
pub fn members_below(set: u64, x: u8) -> u64
    requires { x < 64 }
    ensures { result ≡ ones (set % 2 ^ x) }
{
    u64::count_ones(set % (1u64 << x)) as u64
}

// T: how many terminals the set has.
pub fn terminal_count(set: u64) -> u64
    ensures { CountsOnes set result }
{
    u64::count_ones(set) as u64
}

// The most arrangements that a sweep takes on.
const LIMIT: u64 = 4_294_967_296;

// Is t^k × 3^(k−1) × k^k within the limit? The product is worked out a token at a time and left as
// soon as it is above.
pub fn within_limit(t: u64, k: u64) -> bool
    requires { (t ≤ 64) × (1 ≤ k) × (k ≤ 7) }
    ensures { Says result (arrangements t k ≤ 4294967296) }
{
    let factor = 3 * t * k;
    let mut m: u64 = t * k;
    for i in 1..k {
        if LIMIT < m {
            return false;
        }
        m *= factor;
    }
    m <= LIMIT
}
