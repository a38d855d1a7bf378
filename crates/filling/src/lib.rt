// The span sheet of a grammar and a sentence, each span settled all cuts at once; the verdict by
// it.
#![tactic(auto)]

ghost use Rattle.std.specs.Prelude.{◌≡◌, ◌+◌, ◌*◌, ◌≤◌, ◌<◌, length};
ghost use Rattle.grammar.specs.Content.{rules_of, Formed};
ghost use Rattle.grammar.specs.SpanSheet.{pairs};
ghost use Rattle.grammar.specs.Sentences.{spelled};
ghost use Rattle.marks.specs.Half.{token_at};
ghost use Rattle.marks.specs.Drafts.{half, drafted};
ghost use Rattle.spans.specs.Changes.{Past};
ghost use Rattle.tables.specs.Tables.{Room};
ghost use Rattle.cuts.specs.Cuts.{Mirrors};
ghost use Rattle.cuts.specs.Places.{Placed};
ghost use Rattle.chains.specs.Chains.{Chains};
ghost use Rattle.chart.specs.Filling.{Whole, Filled, FilledFrom};
ghost use Rattle.chart.specs.Leaves.{EmptyPair, Leaf};
ghost use Rattle.chart.specs.Sheets.{Exact, Begun, Ready, Charted, Judged};
ghost use Rattle.filling.specs.Closing.{Leading, Begins, Found, CutJoins, Columns};

use chains::{chains, level_of};
use cuts::{BinaryRules, Pair, binary_rules, cut_masks, put, splits, unite};
use grammar::{Column, Grammar, Sentence, Verdict};
use links::{leaves, link_rules, saturated};
use marks::{Draft, SpanMarks, first_marks, with_next};
use spans::{clear, in_first, in_second, pair_at, write};

// The pair of the empty word.
pub fn empty_pair(g: Grammar) -> Pair
    requires { Formed g }
    ensures { EmptyPair (rules_of g) result.one result.two }
{
    let k = first_marks(0, Column(0));
    let b = leaves(g, k, 0);
    let t = saturated(b, g, k, Pair { one: 0, two: 0 }, 0);
    Pair {
        one: t.one,
        two: t.two,
    }
}

// The pair of a token with the terminal `x` in the column `c`; the empty word's is `e`.
fn token_pair(g: Grammar, x: u8, c: Column, e: Pair) -> Pair
    requires formed { Formed g }
    requires empty_pair { EmptyPair (rules_of g) e.one e.two }
    ensures { Leaf (rules_of g) x result.one result.two }
{
    let k = first_marks(x, c);
    let b = leaves(g, k, 1);
    let w = link_rules(g, e.one);
    let t = saturated(b, w, k, e, 1);
    Pair {
        one: t.one,
        two: t.two,
    }
}

// The same wherever the token stands: no mark fails on one token.
pub fn leaf_pair(g: Grammar, x: u8, one: u64, two: u64) -> Pair
    requires formed { Formed g }
    requires empty_pair { EmptyPair (rules_of g) one two }
    ensures { Leaf (rules_of g) x result.one result.two }
{
    token_pair(g, x, Column(0), Pair { one, two })
}

// The first token that has the terminal of the token at i.
fn first_like(d: Draft<64>, i: usize) -> usize
    requires { (i < d.count) × (d.count ≤ 64) }
    ensures { (result ≤ i) × ((token_at (drafted d) result).terminal
        ≡ (token_at (drafted d) i).terminal) }
{
    let a = d.tokens[i];
    for j in 0..i {
        let t = d.tokens[j];
        if t.terminal == a.terminal {
            return j;
        }
    }
    i
}

// The pair of the token at i, those of the tokens before it being written; the empty word's is `e`.
pub fn leaf_at(words: &[u64], d: Draft<64>, g: Grammar, e: Pair, i: usize) -> Pair
    requires i_lt_count { (i < d.count) × (d.count ≤ 64) }
    requires count_in_bounds { 2 * pairs d.count ≤ length words.now }
    requires formed { Formed g }
    requires empty_pair { EmptyPair (rules_of g) e.one e.two }
    requires leading { Leading (rules_of g) (drafted d) d.count words.now i }
    ensures { Leaf (rules_of g) (token_at (drafted d) i).terminal result.one result.two }
{
    let n = d.count;
    let j = first_like(d, i);
    if j < i {
        let at = 2 * pair_at(n, j, 1);
        return Pair {
            one: words[at],
            two: words[at + 1],
        };
    }
    let t = d.tokens[i];
    token_pair(g, t.terminal, t.column, e)
}

// Write the pairs of the empty word and of each token of the draft.
pub fn fill_leaves(words: &mut [u64], d: Draft<64>, g: Grammar)
    requires count_bound { d.count ≤ 64 }
    requires count_in_bounds { 2 * pairs d.count ≤ length words.old }
    requires formed { Formed g }
    ensures { Begun words.old words.new (rules_of g) (drafted d)
        d.count }
{
    let n = d.count;
    let e = empty_pair(g);
    write(words, 0, e.one, e.two);
    for i in 0..n {
        let l = leaf_at(words, d, g, e, i);
        let p = pair_at(n, i, 1);
        write(words, p, l.one, l.two);
    }
}

// What stands over a span of two tokens or more: by two shorter parts, by the words of cuts; then
// by the table of chains. `b` are the places of the B rules.
fn find(
    rows: &[u64],
    cols: &[u64],
    table: &[u64],
    g: Grammar,
    b: BinaryRules,
    k: SpanMarks,
    start: usize,
    len: usize,
) -> Pair
    requires formed { Formed g × Placed (rules_of g) b }
    requires len_nonzero { (0 < len) × (start + len ≤ 64) }
    requires rows_len { (length rows.now ≡ 128) × (128 * (start + len + 1) ≤ length cols.now) }
    requires table_len { length table.now ≡ 512 }
    ensures { Found rows.now cols.now table.now (rules_of g) k
        start len result }
{
    let m = cut_masks(k, start);
    let p = splits(g, b, rows, cols, 128 * (start + len), m);
    let l = level_of(k);
    unite(table, 128 * l, p)
}

// Settle the span and take it in; `e` is the pair of the empty word.
pub fn close(
    words: &mut [u64],
    rows: &mut [u64],
    cols: &mut [u64],
    table: &[u64],
    n: usize,
    g: Grammar,
    b: BinaryRules,
    e: Pair,
    k: SpanMarks,
    start: usize,
    len: usize,
)
    requires room { Room words.old n start len × (0 < len) }
    requires formed { Formed g × Placed (rules_of g) b }
    requires begins { Begins words.old e × Chains (rules_of g) e table.now }
    requires mirrors { Mirrors words.old n start len rows.old cols.old }
    ensures cut_joins { CutJoins words.old words.new (rules_of g) n start len k }
    ensures mirrors_2 { Mirrors words.new n start (len + 1) rows.new
        cols.new }
{
    let t = find(rows, cols, table, g, b, k, start, len);
    let q = pair_at(n, start, len);
    write(words, q, t.one, t.two);
    put(rows, cols, start, start + len, t);
}

// Take in a span that is settled.
fn load(words: &[u64], rows: &mut [u64], cols: &mut [u64], n: usize, start: usize, len: usize)
    requires room { Room words.now n start len × (0 < len) }
    requires mirrors { Mirrors words.now n start len rows.old cols.old }
    ensures { Mirrors words.now n start (len + 1) rows.new
        cols.new }
{
    let at = 2 * pair_at(n, start, len);
    let p = Pair {
        one: words[at],
        two: words[at + 1],
    };
    put(rows, cols, start, start + len, p);
}

// Begin a start: its rows have its first token.
pub fn begin(words: &[u64], rows: &mut [u64], cols: &mut [u64], n: usize, start: usize)
    requires room { Room words.now n start 1 }
    requires rows_len { length rows.old ≡ 128 }
    requires columns { Columns words.now n (start + 1) cols.old }
    ensures { Mirrors words.now n start 2 rows.new
        cols.new }
{
    clear(rows, 128);
    load(words, rows, cols, n, start, 1);
}

// Settle the spans of two tokens or more that begin at `start` and end past `from`. Their marks,
// and with them the least column on later lines, are carried along, a token at a time.
// Kept: beside those of refilling and range_charts, as they share the loop's head and nothing else.
pub fn fill_start(
    words: &mut [u64],
    rows: &mut [u64],
    cols: &mut [u64],
    table: &[u64],
    d: Draft<64>,
    g: Grammar,
    b: BinaryRules,
    e: Pair,
    from: usize,
    start: usize,
)
    requires whole { Whole d × (start < d.count) }
    requires count_in_bounds { 2 * pairs d.count ≤ length words.old }
    requires formed { Formed g × Placed (rules_of g) b }
    requires begins { Begins words.old e × Chains (rules_of g) e table.now }
    requires rows_len { (length rows.old ≡ 128) × Columns words.old d.count (start + 1)
        cols.old }
    requires filled { Filled words.old (rules_of g) (half d) d.count from (start + 1)
        (d.count + 1) }
    ensures filled_from { FilledFrom words.old words.new (rules_of g) (half d)
        d.count
        from start }
    ensures columns { Columns words.new d.count start cols.new }
    ensures begins_2 { Begins words.new e }
{
    let n = d.count;
    let a = d.tokens[start];
    let mut k = first_marks(a.terminal, a.column);
    begin(words, rows, cols, n, start);
    for len in 1..n - start {
        let at = start + len;
        let z = d.tokens[at - 1];
        let t = d.tokens[at];
        k = with_next(k, a, z, t, len, at, d.known);
        if start + len < from {
            load(words, rows, cols, n, start, len + 1);
            continue;
        }
        close(words, rows, cols, table, n, g, b, e, k, start, len + 1);
    }
}

// Take in the spans of a start, all of them settled.
fn load_start(words: &[u64], rows: &mut [u64], cols: &mut [u64], n: usize, start: usize)
    requires room { Room words.now n start 1 }
    requires rows_len { length rows.old ≡ 128 }
    requires columns { Columns words.now n (start + 1) cols.old }
    ensures { Columns words.now n start cols.new }
{
    begin(words, rows, cols, n, start);
    for len in 2..n - start + 1 {
        load(words, rows, cols, n, start, len);
    }
}

// Those of all starts from `to` on.
fn load_from(words: &[u64], rows: &mut [u64], cols: &mut [u64], n: usize, to: usize)
    requires room { Room words.now n to 0 }
    requires rows_len { length rows.old ≡ 128 }
    requires columns { Columns words.now n n cols.old }
    ensures { Columns words.now n to cols.new }
{
    for start in (to..n).rev() {
        load_start(words, rows, cols, n, start);
    }
}

// Settle the spans of all starts before `to`.
fn fill_starts(
    words: &mut [u64],
    rows: &mut [u64],
    cols: &mut [u64],
    table: &[u64],
    d: Draft<64>,
    g: Grammar,
    b: BinaryRules,
    e: Pair,
    from: usize,
    to: usize,
)
    requires whole { Whole d × (to ≤ d.count) }
    requires count_in_bounds { 2 * pairs d.count ≤ length words.old }
    requires formed { Formed g × Placed (rules_of g) b }
    requires begins { Begins words.old e × Chains (rules_of g) e table.now }
    requires rows_len { (length rows.old ≡ 128) × Columns words.old d.count to cols.old }
    requires filled { Filled words.old (rules_of g) (half d) d.count from to (d.count + 1) }
    ensures { FilledFrom words.old words.new (rules_of g) (half d)
        d.count
        from 0 }
{
    for start in (0..to).rev() {
        fill_start(words, rows, cols, table, d, g, b, e, from, start);
    }
}

// Fill the span sheet of the draft anew, but for the spans that end at or before the token `from`
// and those that begin at or past the token `to`: no token of these has changed. The pairs of the
// empty word and of single tokens are given, and where there is one token at most, that is all.
pub fn fill(words: &mut [u64], d: Draft<64>, g: Grammar, from: usize, to: usize)
    requires count_bound { (d.count ≤ 64) × (d.known ≤ d.count) }
    requires count_in_bounds { 2 * pairs d.count ≤ length words.old }
    requires formed { Formed g }
    requires ready { Ready (rules_of g) (half d) d.count words.old from to }
    ensures { Charted words.old words.new (rules_of g) (half d)
        d.count }
{
    let n = d.count;
    if n < 2 {
        return;
    }
    let e = Pair {
        one: words[0],
        two: words[1],
    };
    let mut table = [0u64; 512];
    chains(&mut table, g, e);
    let b = binary_rules(g);
    let mut rows = [0u64; 128];
    let mut cols = [0u64; 8320];
    load_from(words, &mut rows, &mut cols, n, to);
    fill_starts(words, &mut rows, &mut cols, &table, d, g, b, e, from, to);
}

// Fill all of the span sheet of the draft, which is known.
fn fill_all(words: &mut [u64], d: Draft<64>, g: Grammar)
    requires count_bound { (d.count ≤ 64) × (d.known ≡ d.count) }
    requires count_in_bounds { 2 * pairs d.count ≤ length words.old }
    requires formed { Formed g }
    ensures exact { Exact (rules_of g) (drafted d) d.count words.new d.count }
    ensures past { Past (2 * pairs d.count) words.old words.new }
{
    fill_leaves(words, d, g);
    fill(words, d, g, 0, d.count);
}

// The verdict on the sentence, and its span sheet.
pub fn judge(words: &mut [u64], s: Sentence, g: Grammar) -> Verdict
    requires count_bound { s.count ≤ 64 }
    requires count_in_bounds { 2 * pairs s.count ≤ length words.old }
    requires formed { Formed g }
    ensures { Judged result (rules_of g) (spelled s) s.count words.old
        words.new }
{
    let n = s.count;
    let tokens = s.tokens;
    let d = Draft {
        tokens,
        count: n,
        known: n,
    };
    fill_all(words, d, g);
    if !in_first(words, n, 0, n, 0) {
        return Verdict::None;
    }
    if in_second(words, n, 0, n, 0) {
        return Verdict::Two;
    }
    Verdict::One
}
