// Which verdicts some choice of columns gives. Ranges are narrowed token by token, until one choice
// is left.
#![tactic(auto)]

ghost use Rattle.std.specs.Prelude.{◌≡◌, true, ◌*◌, ◌≤◌, length};
ghost use Rattle.grammar.specs.Content.{rules_of, Formed};
ghost use Rattle.grammar.specs.SpanSheet.{pairs};
ghost use Rattle.grammar.specs.declared.Verdict.{Verdict};
ghost use Rattle.marks.specs.Drafts.{drafted};
ghost use Rattle.spans.specs.Changes.{Past, Cleared};
ghost use Rattle.chart.specs.Sheets.{Begun};
ghost use Rattle.refilling.specs.Kept.{kept_for, Mirrored};
ghost use Rattle.column_ranges.specs.RangeSentences.{ranges_of, Spread};
ghost use Rattle.narrowing.specs.Narrowing.{Singles, SinglesFrom, SinglesBefore, MayRise};
ghost use Rattle.range_charts.specs.RangeCharts.{Leaved, Beside, Behind};
ghost use Rattle.column_search.specs.Answers.{flag, FlagsSay};
ghost use Rattle.column_search.specs.Searching.{With, Leaves, Reads, Foreseen, Idles};
ghost use Rattle.column_search.specs.Searching.{Searched, Opens};

use column_ranges::{RangeSentence, columns, count};
use cuts::Pair;
use filling::{empty_pair, leaf_at};
use grammar::{Grammar, Verdict};
use marks::Draft;
use narrowing::{first_token, last_token, lowest_sentence, may_rise, narrowed, next_token};
use range_charts::{fill_between, fill_ranges};
use range_marks::exchanged_ends;
use refilling::{open_sheet, prepare, put_empty, put_leaf};
use spans::{clear, in_first, in_second, size};

// Of each verdict: does some rising choice give it?
#[derive(Clone, Copy)]
pub struct Flags {
    pub none: bool,
    pub one: bool,
    pub two: bool,
}

// The flags with a verdict besides.
fn with_verdict(f: Flags, v: Verdict) -> Flags
    ensures { With f v result }
{
    match v {
        Verdict::None => Flags { none: true, ..f },
        Verdict::One => Flags { one: true, ..f },
        Verdict::Two => Flags { two: true, ..f },
    }
}

// Are all three set, so that nothing new can come?
fn full(f: Flags) -> bool
    ensures { result ≡ true → (v : Verdict) → flag f v ≡ true }
{
    f.none && f.one && f.two
}

// The verdict by the pair of the whole word.
fn verdict(words: &[u64], n: usize) -> Verdict
    requires { (n ≤ 64) × (2 * pairs n ≤ length words.now) }
    ensures { Reads words.now n result }
{
    if !in_first(words, n, 0, n, 0) {
        return Verdict::None;
    }
    if in_second(words, n, 0, n, 0) {
        return Verdict::Two;
    }
    Verdict::One
}

// The verdict of the one choice that is left, besides those found before. The spans that begin at
// or past `to` and those that end at or before `from` are settled, and so they are left.
fn try_choice(
    g: Grammar,
    r: RangeSentence,
    words: &mut [u64],
    kept: &mut [u64],
    f: Flags,
    from: usize,
    to: usize,
) -> Flags
    requires formed { Formed g }
    requires spread { Spread r × Singles (ranges_of r) × MayRise (ranges_of r) }
    requires count_in_bounds { 2 * pairs r.count ≤ length words.old }
    requires leaved { Leaved (rules_of g) (ranges_of r) r.count words.old }
    requires to_le_count { (to ≤ r.count) × Behind words.old kept.old (rules_of g) (ranges_of r)
        r.count
        from to }
    ensures searched { Searched (rules_of g) (ranges_of r) r.count f words.old
        words.new result }
    ensures behind { Behind words.new kept.new (rules_of g) (ranges_of r)
        r.count from to }
{
    let n = r.count;
    fill_between(words, kept, r, g, from, 0, to);
    let v = verdict(words, n);
    with_verdict(f, v)
}

// The verdicts that some choice may give: none where nothing must have a tree, one where something
// may and need not have two, two where something may.
fn outlook(g: Grammar, r: RangeSentence, words: &mut [u64], kept: &mut [u64]) -> Flags
    requires formed { Formed g }
    requires spread { Spread r }
    requires count_in_bounds { 2 * pairs r.count ≤ length words.old }
    requires leaved { Leaved (rules_of g) (ranges_of r) r.count words.old }
    requires beside { Beside (rules_of g) r.count words.old kept.old }
    ensures foreseen { Foreseen (rules_of g) (ranges_of r) r.count words.old
        words.new result }
    ensures beside_2 { Beside (rules_of g) r.count words.new kept.new }
{
    let n = r.count;
    fill_ranges(words, kept, r, g);
    let may_one = in_first(words, n, 0, n, 0);
    let may_two = in_second(words, n, 0, n, 0);
    let x = exchanged_ends(r);
    fill_ranges(words, kept, x, g);
    let must_one = in_first(words, n, 0, n, 0);
    let must_two = in_second(words, n, 0, n, 0);
    Flags {
        none: !must_one,
        one: may_one && !must_two,
        two: may_two,
    }
}

// Is each flag of o set in f?
fn covered(o: Flags, f: Flags) -> bool
    ensures { result ≡ true → (v : Verdict) → flag o v ≡ true → flag f v ≡ true }
{
    (!o.none || f.none) && (!o.one || f.one) && (!o.two || f.two)
}

// Can nothing new come of the ranges, by what may and what must hold?
fn nothing_new(g: Grammar, r: RangeSentence, words: &mut [u64], kept: &mut [u64], f: Flags) -> bool
    requires formed { Formed g }
    requires spread { Spread r }
    requires count_in_bounds { 2 * pairs r.count ≤ length words.old }
    requires leaved { Leaved (rules_of g) (ranges_of r) r.count words.old }
    requires beside { Beside (rules_of g) r.count words.old kept.old }
    ensures idles { Idles (rules_of g) (ranges_of r) r.count f words.old
        words.new result }
    ensures beside_2 { Beside (rules_of g) r.count words.new kept.new }
{
    let o = outlook(g, r, words, kept);
    covered(o, f)
}

// Can nothing new come of the ranges, all three being found or no choice rising?
fn settled(r: RangeSentence, f: Flags) -> bool
    requires { Spread r }
    ensures { Leaves (ranges_of r) f result }
{
    full(f) || !may_rise(r)
}

// The verdicts of few choices, besides those found before. The last token with several columns goes
// through them, so that the spans behind it are settled once for all of these; it stands before
// `to`, and the spans that begin there or later are settled. So are those that end at or before
// `from`, where no token has several columns.
fn search_few(
    g: Grammar,
    r: RangeSentence,
    words: &mut [u64],
    kept: &mut [u64],
    f: Flags,
    from: usize,
    to: usize,
) -> Flags
    requires formed { Formed g }
    requires spread { Spread r }
    requires count_in_bounds { 2 * pairs r.count ≤ length words.old }
    requires leaved { Leaved (rules_of g) (ranges_of r) r.count words.old }
    requires to_le_count { (to ≤ r.count) × SinglesFrom (ranges_of r) to
        × SinglesBefore (ranges_of r) from }
    requires behind { Behind words.old kept.old (rules_of g) (ranges_of r) r.count from to }
    ensures searched { Searched (rules_of g) (ranges_of r) r.count f words.old
        words.new result }
    ensures behind_2 { Behind words.new kept.new (rules_of g) (ranges_of r)
        r.count from to }
{
    if settled(r, f) {
        return f;
    }
    let Some(t) = last_token(r, to) else {
        return try_choice(g, r, words, kept, f, from, to);
    };
    fill_between(words, kept, r, g, from, t + 1, to);
    let m = columns(r.tokens[t]);
    let mut found = f;
    for i in 0..m {
        let s = narrowed(r, t, i);
        found = search_few(g, s, words, kept, found, from, t + 1);
    }
    found
}

// The same, with the spans before the first token with several columns settled here.
fn search_rest(g: Grammar, r: RangeSentence, words: &mut [u64], kept: &mut [u64], f: Flags) -> Flags
    requires formed { Formed g }
    requires spread { Spread r }
    requires count_in_bounds { 2 * pairs r.count ≤ length words.old }
    requires leaved { Leaved (rules_of g) (ranges_of r) r.count words.old }
    requires beside { Beside (rules_of g) r.count words.old kept.old }
    ensures searched { Searched (rules_of g) (ranges_of r) r.count f words.old
        words.new result }
    ensures beside_2 { Beside (rules_of g) r.count words.new kept.new }
{
    fill_ranges(words, kept, r, g);
    let from = first_token(r).unwrap_or(r.count);
    search_few(g, r, words, kept, f, from, r.count)
}

// The token to narrow next, if 64 choices or more are left.
fn next_of_many(r: RangeSentence) -> Option<usize>
    requires { Spread r }
    ensures { Opens (ranges_of r) result }
{
    if count(r) < 64 { None } else { next_token(r) }
}

// The verdicts of all choices, besides those found before. A token with several columns goes
// through them, until few choices are left.
fn search(g: Grammar, r: RangeSentence, words: &mut [u64], kept: &mut [u64], f: Flags) -> Flags
    requires formed { Formed g }
    requires spread { Spread r }
    requires count_in_bounds { 2 * pairs r.count ≤ length words.old }
    requires leaved { Leaved (rules_of g) (ranges_of r) r.count words.old }
    requires beside { Beside (rules_of g) r.count words.old kept.old }
    ensures searched { Searched (rules_of g) (ranges_of r) r.count f words.old
        words.new result }
    ensures beside_2 { Beside (rules_of g) r.count words.new kept.new }
{
    if settled(r, f) {
        return f;
    }
    let Some(t) = next_of_many(r) else {
        return search_rest(g, r, words, kept, f);
    };
    if nothing_new(g, r, words, kept, f) {
        return f;
    }
    let m = columns(r.tokens[t]);
    let mut found = f;
    for c in 0..m {
        let s = narrowed(r, t, c);
        found = search(g, s, words, kept, found);
    }
    found
}

// Write the pairs of the empty word and of each token of the draft, which do not go by columns.
fn put_leaves(g: Grammar, d: Draft<64>, words: &mut [u64], kept: &mut [u64])
    requires count_bound { d.count ≤ 64 }
    requires count_in_bounds { 2 * pairs d.count ≤ length words.old }
    requires formed { Formed g }
    requires mirrored { Mirrored (rules_of g) d.count words.old kept.old }
    ensures begun { Begun words.old words.new (rules_of g) (drafted d)
        d.count }
    ensures mirrored_2 { Mirrored (rules_of g) d.count words.new kept.new }
{
    let n = d.count;
    let e: Pair = empty_pair(g);
    put_empty(words, kept, g, n, e.one, e.two);
    for i in 0..n {
        let l = leaf_at(words, d, g, e, i);
        put_leaf(words, kept, g, n, i, l.one, l.two);
    }
}

// Begin the span sheet of the ranges, and what is kept beside it from choice to choice.
fn begin(g: Grammar, r: RangeSentence, words: &mut [u64], kept: &mut [u64])
    requires formed { Formed g }
    requires spread { Spread r }
    requires count_in_bounds { 2 * pairs r.count ≤ length words.old }
    requires count_in_bounds_2 { kept_for r.count ≤ length kept.old }
    ensures leaved { Leaved (rules_of g) (ranges_of r) r.count words.new }
    ensures beside { Beside (rules_of g) r.count words.new kept.new }
    ensures past { Past (2 * pairs r.count) words.old words.new }
{
    let s = lowest_sentence(r);
    let tokens = s.tokens;
    let n = r.count;
    let d = Draft {
        tokens,
        count: n,
        known: n,
    };
    prepare(kept, g);
    open_sheet(words, kept, g, n);
    put_leaves(g, d, words, kept);
}

// Which verdicts some rising choice of columns gives.
fn search_all(g: Grammar, r: RangeSentence, words: &mut [u64], kept: &mut [u64]) -> Flags
    requires formed { Formed g }
    requires spread { Spread r }
    requires count_in_bounds { 2 * pairs r.count ≤ length words.old }
    requires count_in_bounds_2 { kept_for r.count ≤ length kept.old }
    ensures flags_say { FlagsSay (rules_of g) (ranges_of r) result }
    ensures past { Past (2 * pairs r.count) words.old words.new }
{
    let nothing = Flags {
        none: false,
        one: false,
        two: false,
    };
    begin(g, r, words, kept);
    search(g, r, words, kept, nothing)
}

// The same; the words that the search needed end 0.
pub fn choose(g: Grammar, r: RangeSentence, words: &mut [u64]) -> Flags
    requires formed { Formed g }
    requires spread { Spread r }
    requires count_in_bounds { 2 * pairs r.count ≤ length words.old }
    ensures flags_say { FlagsSay (rules_of g) (ranges_of r) result }
    ensures cleared { Cleared words.old words.new (2 * pairs r.count) }
{
    let mut kept = [0u64; 17666];
    let f = search_all(g, r, words, &mut kept);
    let m = size(r.count);
    clear(words, m);
    f
}
