// The search for the first candidate that has two trees, and the sweep over all short sentences by
// it.
#![tactic(auto)]

ghost use Rattle.std.specs.Prelude.{◌≡◌, ◌*◌, ◌≤◌, length};
ghost use Rattle.grammar.specs.Candidates as Of;
ghost use Rattle.grammar.specs.Content.{rules_of, Formed};
ghost use Rattle.grammar.specs.SpanSheet.{pairs};
ghost use Rattle.candidates.specs.Arrays.{cells};
ghost use Rattle.candidates.specs.Terminals.{Among, Lowest};
ghost use Rattle.pruning.specs.Tables.{Tabled};
ghost use Rattle.spans.specs.Changes.{Past};
ghost use Rattle.counting.specs.Counts.{HowMany};
ghost use Rattle.lengths.specs.Lengths.{CanHave};
ghost use Rattle.lengths.specs.Indexes.{Exact};
ghost use Rattle.tried_count.specs.Tried.{Tried};
ghost use Rattle.sweeping.specs.Searching.{Looked, Admits, Searched};
ghost use Rattle.sweeping.specs.Swept.{LengthsOf, Bounded, Swept, Found};
ghost use Rattle.refilling.specs.Kept.{kept_for, Prepared, Mirrored};
ghost use Rattle.tried_count.specs.Searched.{answer_of};
ghost use Rattle.sweeping.specs.Cleared.{cleared};

use candidates::{Candidate, terminals};
use dominance::needed;
use equivalents::earlier_twin;
use grammar::{Grammar, Sentence};
use lengths::Index;
use pruning::{TABLE, fill_table, has_two, refutes};
use reachable_rules::reachable;
use refilling::{KEPT_SHORT, open_sheet, prepare};
use sets::{first_from, has};
use spans::{clear, size};
use tried_count::{Hit, tried};

// Is none of the candidates that share the first b cells the first with two trees? Where b is n and
// the answer is no, this one has two.
fn look(
    g: Grammar,
    set: u64,
    table: &[u64],
    c: Candidate,
    n: usize,
    b: usize,
    words: &mut [u64],
    cuts: &mut [u64],
) -> bool
    requires n_bound { (n ≤ 7) × (b ≤ n) × Of.Candidate (Among set) n (cells c 0 n) }
    requires formed { Formed g }
    requires n_in_bounds { 2 * pairs n ≤ length words.old }
    requires tabled { Tabled (rules_of g) set table.now }
    requires mirrored { Mirrored (rules_of g) n words.old cuts.old }
    ensures looked { Looked result (rules_of g) set n b (cells c 0 n)
        × Past (2 * pairs n) words.old words.new }
    ensures mirrored_2 { Mirrored (rules_of g) n words.new cuts.new }
{
    if 0 < b && earlier_twin(c, n, b, 0) {
        return true;
    }
    if b == n {
        return !has_two(g, set, table, c, n, words, cuts);
    }
    refutes(g, set, table, c, n, b, words, cuts)
}

// The first candidate of 1 to k tokens that has two trees, over a set whose least terminal is low.
// A candidate's first b cells are looked at: where they rule it out, the search goes on past all
// that share them, else with a cell more. Lengths that are not in the set `lengths` are passed
// over.
// Kept: both loops in one function, left by a label, a form that docs/DECISIONS.md has.
fn search(
    g: Grammar,
    set: u64,
    table: &[u64],
    low: u8,
    lengths: u64,
    k: usize,
    words: &mut [u64],
    cuts: &mut [u64],
) -> Option<Hit>
    requires le_k { (1 ≤ k) × (k ≤ 7) }
    requires lowest { Lowest set low }
    requires formed { Formed g }
    requires admits { Admits (rules_of g) lengths }
    requires k_in_bounds { 2 * pairs k ≤ length words.old }
    requires tabled { Tabled (rules_of g) set table.now }
    requires k_in_bounds_2 { (kept_for k ≤ length cuts.old) × Prepared (rules_of g) cuts.old }
    ensures searched { Searched (rules_of g) set k result }
    ensures past { Past (2 * pairs k) words.old words.new }
{
    'search: {
        for n in 1..=k {
            if !has(lengths, n as u8) {
                continue;
            }
            open_sheet(words, cuts, g, n);
            let mut c = Candidate::first(set, low, n);
            let mut b: usize = 0;
            loop {
                if look(g, set, table, c, n, b, words, cuts) {
                    let Some(s) = c.successor(set, low, n, b) else {
                        break;
                    };
                    c = s.to;
                    b = s.upto;
                    continue;
                }
                if b == n {
                    break 'search Some(Hit {
                        length: n,
                        candidate: c,
                    });
                }
                b += 1;
            }
        }
        None
    }
}

// The same, the pairs of the set's terminals being worked out first.
fn find_among(
    g: Grammar,
    set: u64,
    low: u8,
    lengths: u64,
    k: usize,
    words: &mut [u64],
) -> Option<Hit>
    requires le_k { (1 ≤ k) × (k ≤ 7) }
    requires lowest { Lowest set low }
    requires formed { Formed g }
    requires admits { Admits (rules_of g) lengths }
    requires k_in_bounds { 2 * pairs k ≤ length words.old }
    ensures searched { Searched (rules_of g) set k result }
    ensures past { Past (2 * pairs k) words.old words.new }
{
    let mut table: [u64; TABLE] = [0; TABLE];
    fill_table(g, set, &mut table[..]);
    let mut cuts = [0u64; KEPT_SHORT];
    prepare(&mut cuts, g);
    search(g, set, &table[..], low, lengths, k, words, &mut cuts)
}

// The first candidate of 1 to k tokens that has two trees, over the terminals of the sheet. It has
// none that a smaller one replaces, so that these need not be tried, nor need lengths outside the
// set; and trees of 0 have no rule that 0 does not reach.
fn find(g: Grammar, lengths: u64, k: usize, words: &mut [u64]) -> Option<Hit>
    requires le_k { (1 ≤ k) × (k ≤ 7) }
    requires formed { Formed g }
    requires admits { Admits (rules_of g) lengths }
    requires k_in_bounds { 2 * pairs k ≤ length words.old }
    ensures found { Found (rules_of g) k result }
    ensures past { Past (2 * pairs k) words.old words.new }
{
    let set = needed(g, terminals(g));
    let low = first_from(set, 0)?;
    let few = reachable(g);
    find_among(few, set, low, lengths, k, words)
}

// How many candidates a search up to k tried that found a hit, or nothing: those over all terminals
// of the sheet, of the lengths in the set.
fn counted(g: Grammar, lengths: u64, k: usize, found: Option<Hit>) -> u64
    requires formed { Formed g }
    requires bounded { Bounded (rules_of g) k }
    requires lengths_of { LengthsOf (rules_of g) lengths }
    requires found { Found (rules_of g) k found }
    ensures { HowMany (Tried (CanHave (rules_of g) 0) (Of.Terminal (rules_of g)) k
        (answer_of found)) result }
{
    let all = terminals(g);
    tried(lengths, all, k, found)
}

// What a sweep gives: the found sentence, if there is one, and how many candidates it tried.
#[derive(Clone, Copy)]
pub struct Sweep {
    pub sentence: Option<Sentence>,
    pub tried: u64,
}

// The sweep up to k over a well-formed grammar with its index: the first candidate that has two
// trees.
pub fn sweep_rules(g: Grammar, x: Index, k: usize, words: &mut [u64]) -> Sweep
    requires bounded { Bounded (rules_of g) k }
    requires formed { Formed g }
    requires exact { Exact (rules_of g) x }
    requires k_in_bounds { 2 * pairs k ≤ length words.old }
    ensures swept { Swept (rules_of g) k result.sentence result.tried }
    ensures words_after { words.new ≡ cleared k words.old }
{
    let lengths = x.sets[0];
    let found = find(g, lengths, k, words);
    let m = size(k);
    clear(words, m);
    let tried = counted(g, lengths, k, found);
    match found {
        None => Sweep {
            sentence: None,
            tried,
        },
        Some(h) => Sweep {
            sentence: Some(h.candidate.sentence(h.length)),
            tried,
        },
    }
}
