// The search inside a share: the lowest number from one to below another whose arrangement rises
// and has two trees.
#![tactic(auto)]

ghost use Rattle.std.specs.Prelude.{◌≡◌, ◌+◌, ◌*◌, ◌≤◌, ◌<◌, length, true, IfSome};
ghost use Rattle.grammar.specs.Candidates as Of;
ghost use Rattle.grammar.specs.Content.{rules_of, Formed};
ghost use Rattle.grammar.specs.SpanSheet.{pairs};
ghost use Rattle.grammar.specs.Sweeps.{arrangements, terminal_count};
ghost use Rattle.candidates.specs.Arrays.{cells};
ghost use Rattle.candidates.specs.Terminals.{Among, Lowest};
ghost use Rattle.pruning.specs.Tables.{Tabled};
ghost use Rattle.equivalents.specs.Twins.{Renames, Replaceable};
ghost use Rattle.spans.specs.Changes.{Past};
ghost use Rattle.arrangement_numbers.specs.Blocks.{Few, least, room};
ghost use Rattle.share_search.specs.Searching.{Looked, Searched};
ghost use Rattle.share_search.specs.Sharing.{Shared, Found};
ghost use Rattle.refilling.specs.Kept.{kept_for, Prepared, Mirrored};
ghost use Rattle.sweeping.specs.Cleared.{cleared};

use arrangement_numbers::block_of;
use candidates::{Candidate, terminals};
use dominance::needed;
use equivalents::passable;
use grammar::{Grammar, Sentence};
use pruning::{TABLE, fill_table, has_two, twinned};
use reachable_rules::reachable;
use refilling::{KEPT_SHORT, open_sheet, prepare};
use sets::first_from;
use spans::{clear, size};

// The fewest of the first b cells such that no arrangement that has them has a number below
// `start`, unless even one that has all b may have.
fn held(set: u64, c: Candidate, n: usize, b: usize, start: u64) -> Option<usize>
    requires few { Few set n }
    requires candidate { Of.Candidate (Among set) n (cells c 0 n) }
    requires b_le_n { b ≤ n }
    ensures { IfSome result (λ h. (h ≤ b) × (start ≤ least set n h (cells c 0 n))) }
{
    for h in 0..=b {
        let k = block_of(set, c, n, h);
        if start <= k.low {
            return Some(h);
        }
    }
    None
}

// Has each candidate that shares the first b cells and has two trees a twin that has its first h
// cells? (Where the answer is no, one may have none.)
fn outdone(
    g: Grammar,
    set: u64,
    kept: u64,
    table: &[u64],
    c: Candidate,
    n: usize,
    b: usize,
    h: usize,
    words: &mut [u64],
    cuts: &mut [u64],
) -> bool
    requires n_bound { (n ≤ 7) × (b ≤ n) × Of.Candidate (Among set) n (cells c 0 n) × (h ≤ b)
        × Renames (rules_of g) set kept }
    requires formed { Formed g }
    requires n_in_bounds { 2 * pairs n ≤ length words.old }
    requires tabled { Tabled (rules_of g) set table.now }
    requires mirrored { Mirrored (rules_of g) n words.old cuts.old }
    ensures replaceable { (result ≡ true → Replaceable (rules_of g) set n b h (cells c 0 n))
        × Past (2 * pairs n) words.old words.new }
    ensures mirrored_2 { Mirrored (rules_of g) n words.new cuts.new }
{
    if passable(set, kept, c, n, b, h) {
        return true;
    }
    twinned(g, set, kept, table, c, n, b, h, words, cuts)
}

// Is the lowest number from `start` on that has two trees none of those of the candidates that
// share the first b cells? These end before `past`. So it is where all are below `start`, and where
// each candidate has a twin whose number is not. A block that goes past the end of the share is not
// refuted but gone into. Where b is n and the answer is no, this one has two trees.
fn look(
    g: Grammar,
    set: u64,
    kept: u64,
    table: &[u64],
    c: Candidate,
    n: usize,
    b: usize,
    start: u64,
    end: u64,
    past: u64,
    words: &mut [u64],
    cuts: &mut [u64],
) -> bool
    requires few { Few set n × (b ≤ n) × Of.Candidate (Among set) n (cells c 0 n)
        × (past ≡ least set n b (cells c 0 n) + room set n b) × Renames (rules_of g) set kept }
    requires formed { Formed g }
    requires n_in_bounds { 2 * pairs n ≤ length words.old }
    requires tabled { Tabled (rules_of g) set table.now }
    requires mirrored { Mirrored (rules_of g) n words.old cuts.old }
    ensures looked { Looked result (rules_of g) set n start b (cells c 0 n)
        × Past (2 * pairs n) words.old words.new }
    ensures mirrored_2 { Mirrored (rules_of g) n words.new cuts.new }
{
    if past <= start {
        return true;
    }
    if b == n {
        return !has_two(g, set, table, c, n, words, cuts);
    }
    if end < past {
        return false;
    }
    let Some(h) = held(set, c, n, b, start) else {
        return false;
    };
    outdone(g, set, kept, table, c, n, b, h, words, cuts)
}

// What the search finds: a candidate and its number.
#[derive(Clone, Copy)]
struct Hit {
    number: u64,
    candidate: Candidate,
}

// The candidate of n tokens with the lowest number from `start` to below `end` that has two trees,
// over a set whose least terminal is low. A candidate's first b cells are looked at: where they
// rule it out, the search goes on past all that share them, else with a cell more; it ends where
// the numbers of those that share them are past the end.
// Kept: beside sweeping::search; one loop for both would lend the words to two closures.
fn search(
    g: Grammar,
    set: u64,
    kept: u64,
    table: &[u64],
    low: u8,
    n: usize,
    start: u64,
    end: u64,
    words: &mut [u64],
    cuts: &mut [u64],
) -> Option<Hit>
    requires few { Few set n × Lowest set low × Renames (rules_of g) set kept }
    requires formed { Formed g }
    requires n_in_bounds { 2 * pairs n ≤ length words.old }
    requires tabled { Tabled (rules_of g) set table.now }
    requires n_in_bounds_2 { (kept_for n ≤ length cuts.old) × Prepared (rules_of g) cuts.old }
    ensures searched { Searched (rules_of g) set n start end result }
    ensures past { Past (2 * pairs n) words.old words.new }
{
    open_sheet(words, cuts, g, n);
    let mut c = Candidate::first(set, low, n);
    let mut b: usize = 0;
    loop {
        let k = block_of(set, c, n, b);
        if end <= k.low {
            return None;
        }
        let past = k.low + k.size;
        if look(g, set, kept, table, c, n, b, start, end, past, words, cuts) {
            let s = c.successor(set, low, n, b)?;
            c = s.to;
            b = s.upto;
            continue;
        }
        if b == n {
            return Some(Hit {
                number: k.low,
                candidate: c,
            });
        }
        b += 1;
    }
}

// The same, the pairs of the set's terminals being worked out first.
fn search_over(
    g: Grammar,
    set: u64,
    kept: u64,
    low: u8,
    n: usize,
    start: u64,
    end: u64,
    words: &mut [u64],
) -> Option<Hit>
    requires few { Few set n × Lowest set low × Renames (rules_of g) set kept }
    requires formed { Formed g }
    requires n_in_bounds { 2 * pairs n ≤ length words.old }
    ensures searched { Searched (rules_of g) set n start end result }
    ensures past { Past (2 * pairs n) words.old words.new }
{
    let mut table: [u64; TABLE] = [0; TABLE];
    fill_table(g, set, &mut table[..]);
    let mut cuts = [0u64; KEPT_SHORT];
    prepare(&mut cuts, g);
    search(
        g,
        set,
        kept,
        &table[..],
        low,
        n,
        start,
        end,
        words,
        &mut cuts,
    )
}

// The lowest number from `start` to below `end` over the terminals of the sheet, by the rules that
// 0 reaches.
fn find(g: Grammar, n: usize, start: u64, end: u64, words: &mut [u64]) -> Option<Hit>
    requires le_n { (1 ≤ n) × (n ≤ 7) }
    requires formed { Formed g }
    requires n_bound { arrangements (terminal_count (rules_of g)) n ≤ 4294967296 }
    requires n_in_bounds { 2 * pairs n ≤ length words.old }
    ensures found { Found (rules_of g) n start end result }
    ensures past { Past (2 * pairs n) words.old words.new }
{
    let set = terminals(g);
    let low = first_from(set, 0)?;
    let kept = needed(g, set);
    let few = reachable(g);
    search_over(few, set, kept, low, n, start, end, words)
}

// What a share reports: the lowest number and its sentence.
#[derive(Clone, Copy)]
pub struct Report {
    pub number: u64,
    pub sentence: Sentence,
}

// The lowest number from `start` to below `end` whose arrangement rises and has two trees, over a
// well-formed grammar.
pub fn share_rules(g: Grammar, n: usize, start: u64, end: u64, words: &mut [u64]) -> Option<Report>
    requires le_n { (1 ≤ n) × (n ≤ 7) }
    requires formed { Formed g }
    requires n_bound { arrangements (terminal_count (rules_of g)) n ≤ 4294967296 }
    requires n_in_bounds { 2 * pairs n ≤ length words.old }
    ensures shared { Shared (rules_of g) n start end result }
    ensures words_after { words.new ≡ cleared n words.old }
{
    let found = find(g, n, start, end, words);
    let m = size(n);
    clear(words, m);
    match found {
        None => None,
        Some(h) => Some(Report {
            number: h.number,
            sentence: h.candidate.sentence(n),
        }),
    }
}
