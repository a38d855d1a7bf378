// The span sheet of ranges: what may have trees in some columns within the ends; with the ends
// exchanged what must have them in all; where each token has one column, what has them.
#![tactic(auto)]

ghost use Rattle.std.specs.Prelude.{◌+◌, ◌*◌, ◌≤◌, ◌<◌, length};
ghost use Rattle.grammar.specs.Content.{rules_of, Formed};
ghost use Rattle.grammar.specs.SpanSheet.{pairs};
ghost use Rattle.column_ranges.specs.RangeSentences.{ranges_of};
ghost use Rattle.range_charts.specs.RangeCharts.{CountFits, SolvedFrom, Solves, Advances};
ghost use Rattle.range_charts.specs.RangeCharts.{Beside, Behind};

use column_ranges::RangeSentence;
use grammar::Grammar;
use range_marks::{first_of, stretched};
use refilling::close;

// Settle the spans of two tokens or more that begin at `start` and end past `from`. Their marks are
// carried along, a token at a time.
// Kept: beside those of filling and refilling, as they share the loop's head and nothing else.
fn fill_start(
    words: &mut [u64],
    kept: &mut [u64],
    r: RangeSentence,
    g: Grammar,
    from: usize,
    start: usize,
)
    requires count_fits { CountFits r × (start < r.count) }
    requires count_in_bounds { 2 * pairs r.count ≤ length words.old }
    requires formed { Formed g × Beside (rules_of g) r.count words.old kept.old }
    requires solved_from { SolvedFrom words.old (rules_of g) (ranges_of r) r.count from (start + 1)
        (r.count + 1) }
    ensures advances { Advances words.old words.new (rules_of g) (ranges_of r)
        r.count from start }
    ensures beside { Beside (rules_of g) r.count words.new kept.new }
{
    let n = r.count;
    let a = r.tokens[start];
    let mut k = first_of(a);
    for len in 1..n - start {
        let at = start + len;
        let z = r.tokens[at - 1];
        let t = r.tokens[at];
        k = stretched(k, a, z, t, len);
        if at < from {
            continue;
        }
        close(words, kept, g, n, k, start, len + 1);
    }
}

// Settle the spans of the starts from `lo` on, those from `to` on being settled, and so those that
// end at or before `from`. The pairs of the empty word and of single tokens are given: they do not
// go by columns.
pub fn fill_between(
    words: &mut [u64],
    kept: &mut [u64],
    r: RangeSentence,
    g: Grammar,
    from: usize,
    lo: usize,
    to: usize,
)
    requires count_fits { CountFits r × (lo ≤ to) × (to ≤ r.count) }
    requires count_in_bounds { 2 * pairs r.count ≤ length words.old }
    requires formed { Formed g }
    requires behind { Behind words.old kept.old (rules_of g) (ranges_of r) r.count from to }
    ensures advances { Advances words.old words.new (rules_of g) (ranges_of r)
        r.count from lo }
    ensures beside { Beside (rules_of g) r.count words.new kept.new }
{
    for start in (lo..to).rev() {
        fill_start(words, kept, r, g, from, start);
    }
}

// Fill the span sheet of the ranges.
pub fn fill_ranges(words: &mut [u64], kept: &mut [u64], r: RangeSentence, g: Grammar)
    requires count_fits { CountFits r }
    requires count_in_bounds { 2 * pairs r.count ≤ length words.old }
    requires formed { Formed g × Beside (rules_of g) r.count words.old kept.old }
    ensures solves { Solves words.old words.new (rules_of g) (ranges_of r)
        r.count }
    ensures beside { Beside (rules_of g) r.count words.new kept.new }
{
    fill_between(words, kept, r, g, 0, 0, r.count);
}
