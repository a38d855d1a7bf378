// The span sheets of words that change a token at a time: rows and columns of cuts are kept beside
// the sheet, and turn over where a pair changes.
#![tactic(auto)]

ghost use Rattle.std.specs.Prelude.{◌≡◌, ◌+◌, ◌*◌, ◌≤◌, ◌<◌, length};
ghost use Rattle.grammar.specs.declared.BinaryMark.{BinaryMark};
ghost use Rattle.grammar.specs.Content.{rules_of, Formed};
ghost use Rattle.grammar.specs.SpanSheet.{pairs, pair_at};
ghost use Rattle.marks.specs.Drafts.{half};
ghost use Rattle.spans.specs.Changes.{Past, WrotePair};
ghost use Rattle.tables.specs.Tables.{Room, rule};
ghost use Rattle.cuts.specs.Cuts.{CutCounts};
ghost use Rattle.cuts.specs.Places.{IsBinary, PlacedAt};
ghost use Rattle.chart.specs.Filling.{Whole, Filled, FilledFrom};
ghost use Rattle.chart.specs.Sheets.{Ready, Charted, Settles};
ghost use Rattle.filling.specs.Closing.{Found, CutJoins};
ghost use Rattle.refilling.specs.Kept.{mark_number, start_rows, end_columns, chains_of};
ghost use Rattle.refilling.specs.Kept.{rule_at_of, column_at, kept_for, KeptRules};
ghost use Rattle.refilling.specs.Kept.{Prepared, Mirrored, Suits};
ghost use Rattle.refilling.specs.Turning.{SetRule, SetRules, Wiped, HasBits, TurnBits};
ghost use Rattle.refilling.specs.Turning.{Turned, TurnedRow, SameRules};

use chains::{chains, level_of};
use cuts::{Masks, Pair, binary_rules, cut_masks, members_of, try_rule, unite};
use filling::empty_pair;
use grammar::{BinaryMark, Clause, Grammar, Rule};
use marks::{Draft, SpanMarks, first_marks, with_next};
use sets::has;
use spans::{clear, in_second, pair_at, size, write};

// The words that are kept for 7 tokens.
pub const KEPT_SHORT: usize = 3074;

// ---- rules as words: four for each B rule

// The number of a mark.
// Kept: by number, as the lent words in which the rules stand hold numbers alone.
fn mark_number(m: BinaryMark) -> u64
    ensures { result ≡ mark_number m }
{
    match m {
        BinaryMark::None => 0,
        BinaryMark::Align => 1,
        BinaryMark::Indent => 2,
    }
}

// The mark of a number.
fn mark_of(x: u64) -> BinaryMark
    ensures { (m : BinaryMark) → x ≡ mark_number m → result ≡ m }
{
    if x == 0 {
        return BinaryMark::None;
    }
    if x == 1 {
        return BinaryMark::Align;
    }
    BinaryMark::Indent
}

// The B rule at i.
fn rule_at(kept: &[u64], g: Grammar, i: usize) -> Rule
    requires formed { Formed g × (i < g.count) × IsBinary (rule (rules_of g) i).clause }
    requires kept_rules { KeptRules (rules_of g) kept.now }
    ensures { result ≡ rule (rules_of g) i }
{
    let at = 514 + 4 * i;
    let m = mark_of(kept[at + 3]);
    let clause = Clause::Binary(kept[at + 1] as u8, kept[at + 2] as u8, m);
    Rule {
        left: kept[at] as u8,
        clause,
    }
}

// Write the words of the rule at i, if it is a B rule.
fn set_rule(kept: &mut [u64], i: usize, r: Rule)
    requires { (i < 128) × (1026 ≤ length kept.old) }
    ensures { SetRule kept.old kept.new (rule_at_of i) r }
{
    let c = r.clause;
    match c {
        Clause::Empty => {}
        Clause::Atom(_, _) => {}
        Clause::Unary(_, _) => {}
        Clause::Binary(b, e, m) => {
            write(kept, 257 + 2 * i, r.left as u64, b as u64);
            write(kept, 258 + 2 * i, e as u64, mark_number(m));
        }
    }
}

// Write those of all B rules.
fn set_rules(kept: &mut [u64], g: Grammar)
    requires formed { Formed g }
    requires in_bounds { 1026 ≤ length kept.old }
    ensures { SetRules (rules_of g) kept.old kept.new g.count }
{
    for i in 0..g.count {
        let r = g.rules[i];
        set_rule(kept, i, r);
    }
}

// Make the kept words for the rules: the table of chains, and the B rules.
pub fn prepare(kept: &mut [u64], g: Grammar)
    requires formed { Formed g }
    requires in_bounds { 1026 ≤ length kept.old }
    ensures { Prepared (rules_of g) kept.new }
{
    let e = empty_pair(g);
    chains(&mut kept[0..512], g, e);
    let b = binary_rules(g);
    write(kept, 256, b.low, b.high);
    set_rules(kept, g);
}

// ---- what stands over a span

// Try the rules at the places of the set, counted from `base`. A rule whose left has two trees
// already adds nothing.
fn try_kept(
    t: Pair,
    g: Grammar,
    base: usize,
    set: u64,
    rows: &[u64],
    kept: &[u64],
    p: usize,
    w: Masks,
) -> Pair
    requires formed { Formed g × (base ≤ 64) × PlacedAt (rules_of g) base 64 set }
    requires kept_rules { KeptRules (rules_of g) kept.now }
    requires in_bounds { (128 ≤ length rows.now) × (p + 128 ≤ length kept.now) }
    requires cut_counts { CutCounts rows.now kept.now p w (rules_of g) base t }
    ensures { CutCounts rows.now kept.now p w (rules_of g) (base + 64)
        result }
{
    let mut u = t;
    for i in members_of(set) {
        let r = rule_at(kept, g, base + i as usize);
        if has(u.two, r.left) {
            continue;
        }
        u = try_rule(u, r, rows, kept, p, w);
    }
    u
}

// What stands over the span from `start` to `end` by two shorter parts.
fn kept_splits(kept: &[u64], g: Grammar, start: usize, end: usize, w: Masks) -> Pair
    requires formed { Formed g × Prepared (rules_of g) kept.now }
    requires start_lt_end { (start < end) × (end ≤ 64) × (kept_for end ≤ length kept.now) }
    ensures { CutCounts (start_rows kept.now start) kept.now
        (column_at end)
        w (rules_of g) g.count result }
{
    let from = 1154 + 256 * start;
    let to = from + 128;
    let rows = &kept[from..to];
    let column = 1026 + 256 * end;
    let none = Pair { one: 0, two: 0 };
    let t = try_kept(none, g, 0, kept[512], rows, kept, column, w);
    try_kept(t, g, 64, kept[513], rows, kept, column, w)
}

// What stands over it, by the table of chains too; `k` are its marks.
fn find(kept: &[u64], g: Grammar, k: SpanMarks, start: usize, len: usize) -> Pair
    requires formed { Formed g × Prepared (rules_of g) kept.now }
    requires len_nonzero { (0 < len) × (start + len ≤ 64)
        × (kept_for (start + len) ≤ length kept.now) }
    ensures { Found (start_rows kept.now start)
        (end_columns kept.now (start + len)) (chains_of kept.now) (rules_of g) k
        start len result }
{
    let m = cut_masks(k, start);
    let p = kept_splits(kept, g, start, start + len, m);
    let l = level_of(k);
    unite(&kept[0..512], 128 * l, p)
}

// ---- rows and columns turned over

// Turn the bit `c` over in the words for the members of the set; the words stand from `p` on, a
// pair for each nonterminal.
fn turn_bits(words: &mut [u64], p: usize, set: u64, c: u8)
    requires { (c < 64) × (p + 127 ≤ length words.old) }
    ensures { TurnBits words.old words.new p set c }
{
    for a in members_of(set) {
        let at = p + 2 * a as usize;
        words[at] = words[at] ^ (1u64 << c);
    }
}

// In the pairs of words from `p` on the bit `c` says what `old` has: let it say what `new` has.
fn turn_pair(words: &mut [u64], p: usize, old: Pair, new: Pair, c: u8)
    requires c_bound { (c < 64) × (p + 128 ≤ length words.old) }
    requires has_bits { HasBits words.old p old c }
    ensures { Turned words.old words.new p new c }
{
    turn_bits(words, p, old.one ^ new.one, c);
    turn_bits(words, p + 1, old.two ^ new.two, c);
}

// The same in rows, at the cut `e`. Cut 64 has no bit: no span begins there.
fn turn_row(words: &mut [u64], p: usize, old: Pair, new: Pair, e: usize)
    requires p_in_bounds { p + 128 ≤ length words.old }
    requires has_bits { e < 64 → HasBits words.old p old e }
    ensures { TurnedRow words.old words.new p new e }
{
    if 64 <= e {
        return;
    }
    turn_pair(words, p, old, new, e as u8);
}

// Give the span of `len` tokens from `start` on the pair `t`.
fn put(words: &mut [u64], kept: &mut [u64], g: Grammar, n: usize, start: usize, len: usize, t: Pair)
    requires n_bound { (n ≤ 64) × Room words.old n start len × (0 < len) }
    requires mirrored { Mirrored (rules_of g) n words.old kept.old }
    ensures wrote_pair { WrotePair words.old words.new (pair_at n start len)
        t.one
        t.two }
    ensures mirrored_2 { Mirrored (rules_of g) n words.new kept.new }
    ensures same_rules { SameRules kept.old kept.new }
{
    let q = pair_at(n, start, len);
    let at = 2 * q;
    let old = Pair {
        one: words[at],
        two: words[at + 1],
    };
    let end = start + len;
    turn_row(kept, 1154 + 256 * start, old, t, end);
    turn_pair(kept, 1026 + 256 * end, old, t, start as u8);
    write(words, q, t.one, t.two);
}

// ---- filling

// Settle the span, whose marks are `k`.
pub fn close(
    words: &mut [u64],
    kept: &mut [u64],
    g: Grammar,
    n: usize,
    k: SpanMarks,
    start: usize,
    len: usize,
)
    requires n_bound { (n ≤ 64) × Room words.old n start len × (0 < len) }
    requires formed { Formed g × Suits (rules_of g) words.old kept.old }
    requires mirrored { Mirrored (rules_of g) n words.old kept.old }
    ensures cut_joins { CutJoins words.old words.new (rules_of g) n start len k }
    ensures suits { Suits (rules_of g) words.new kept.new }
    ensures mirrored_2 { Mirrored (rules_of g) n words.new kept.new }
{
    let t = find(kept, g, k, start, len);
    put(words, kept, g, n, start, len, t);
}

// Settle the spans of two tokens or more that begin at `start` and end past `from`. Their marks are
// carried along, a token at a time.
// Kept: beside those of filling and range_charts, as they share the loop's head and nothing else.
fn fill_start(
    words: &mut [u64],
    kept: &mut [u64],
    d: Draft<7>,
    g: Grammar,
    from: usize,
    start: usize,
)
    requires whole { Whole d × (d.count ≤ 7) × (start < d.count) }
    requires count_in_bounds { 2 * pairs d.count ≤ length words.old }
    requires formed { Formed g × Suits (rules_of g) words.old kept.old }
    requires mirrored { Mirrored (rules_of g) d.count words.old kept.old }
    requires filled { Filled words.old (rules_of g) (half d) d.count from (start + 1)
        (d.count + 1) }
    ensures filled_from { FilledFrom words.old words.new (rules_of g) (half d)
        d.count
        from start }
    ensures suits { Suits (rules_of g) words.new kept.new }
    ensures mirrored_2 { Mirrored (rules_of g) d.count words.new kept.new }
{
    let n = d.count;
    let a = d.tokens[start];
    let mut k = first_marks(a.terminal, a.column);
    for len in 1..n - start {
        let at = start + len;
        let z = d.tokens[at - 1];
        let t = d.tokens[at];
        k = with_next(k, a, z, t, len, at, d.known);
        if at < from {
            continue;
        }
        close(words, kept, g, n, k, start, len + 1);
    }
}

// Set `m` words from `from` on to 0.
fn wipe(words: &mut [u64], from: usize, m: usize)
    requires { from + m ≤ length words.old }
    ensures { Wiped words.old words.new from m }
{
    words[from..from + m].fill(0);
}

// Begin the span sheets of n tokens.
pub fn open_sheet(words: &mut [u64], kept: &mut [u64], g: Grammar, n: usize)
    requires n_bound { n ≤ 64 }
    requires n_in_bounds { 2 * pairs n ≤ length words.old }
    requires n_in_bounds_2 { kept_for n ≤ length kept.old }
    requires prepared { Prepared (rules_of g) kept.old }
    ensures mirrored { Mirrored (rules_of g) n words.new kept.new }
    ensures past { Past (2 * pairs n) words.old words.new }
{
    clear(words, size(n));
    wipe(kept, 1026, 256 * (n + 1));
}

// Give the empty word its pair.
pub fn put_empty(words: &mut [u64], kept: &mut [u64], g: Grammar, n: usize, one: u64, two: u64)
    requires n_bound { n ≤ 64 }
    requires n_in_bounds { 2 * pairs n ≤ length words.old }
    requires mirrored { Mirrored (rules_of g) n words.old kept.old }
    ensures wrote_pair { WrotePair words.old words.new 0 one two }
    ensures mirrored_2 { Mirrored (rules_of g) n words.new kept.new }
{
    write(words, 0, one, two);
}

// Give the token at i a pair.
pub fn put_leaf(
    words: &mut [u64],
    kept: &mut [u64],
    g: Grammar,
    n: usize,
    i: usize,
    one: u64,
    two: u64,
)
    requires n_bound { (n ≤ 64) × (i < n) }
    requires n_in_bounds { 2 * pairs n ≤ length words.old }
    requires mirrored { Mirrored (rules_of g) n words.old kept.old }
    ensures wrote_pair { WrotePair words.old words.new (pair_at n i 1) one two }
    ensures mirrored_2 { Mirrored (rules_of g) n words.new kept.new }
{
    let t = Pair { one, two };
    put(words, kept, g, n, i, 1, t);
}

// Fill the span sheet of the draft anew, but for the spans that end at or before the token `from`
// and those that begin at or past the token `to`: no token of these has changed. The pairs of the
// empty word and of single tokens are given.
pub fn refill(words: &mut [u64], kept: &mut [u64], d: Draft<7>, g: Grammar, from: usize, to: usize)
    requires count_bound { (d.count ≤ 7) × (d.known ≤ d.count) }
    requires count_in_bounds { 2 * pairs d.count ≤ length words.old }
    requires formed { Formed g }
    requires ready { Ready (rules_of g) (half d) d.count words.old from to }
    requires mirrored { Mirrored (rules_of g) d.count words.old kept.old }
    ensures charted { Charted words.old words.new (rules_of g) (half d)
        d.count }
    ensures mirrored_2 { Mirrored (rules_of g) d.count words.new kept.new }
{
    for start in (0..to).rev() {
        fill_start(words, kept, d, g, from, start);
    }
}

// Fill it so. Has no completion of the draft two trees, its open tokens being what their pairs
// allow? (Where all of it is known: has it not?)
pub fn no_two(
    words: &mut [u64],
    kept: &mut [u64],
    d: Draft<7>,
    g: Grammar,
    from: usize,
    to: usize,
) -> bool
    requires count_bound { (d.count ≤ 7) × (d.known ≤ d.count) }
    requires count_in_bounds { 2 * pairs d.count ≤ length words.old }
    requires formed { Formed g }
    requires ready { Ready (rules_of g) (half d) d.count words.old from to }
    requires mirrored { Mirrored (rules_of g) d.count words.old kept.old }
    ensures settles { Settles result (rules_of g) (half d) d.count words.old
        words.new }
    ensures mirrored_2 { Mirrored (rules_of g) d.count words.new kept.new }
{
    let n = d.count;
    refill(words, kept, d, g, from, to);
    !in_second(words, n, 0, n, 0)
}
