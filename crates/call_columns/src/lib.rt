// The public call for columns read off a photograph: which verdicts some choice of columns within
// the ends gives (docs/FORMAT.md, "The range sheet").
#![tactic(auto)]

ghost use Rattle.grammar.specs.Content.{rules_of, Formed};
ghost use Rattle.sheets.specs.RuleSheets.{rule_sheet};
ghost use Rattle.sheets.specs.RefusedLines.{held_by, Hands};
ghost use Rattle.range_sheets.specs.RangeSheets.{range_sheet};
ghost use Rattle.call_columns.specs.Columns.{ColumnsOn, ColumnsOf};
ghost use Rattle.column_ranges.specs.RangeSentences.{ranges_of, Spread};

use column_ranges::RangeSentence;
use column_search::{Flags, choose};
use grammar::Grammar;
use range_sheets::read_ranges;
use sheets::{Fault, Refusal, read_rules, refused_read};
use spans::size;

// The answer on rules and ranges that were read.
fn answered(g: Grammar, r: RangeSentence, words: &mut [u64]) -> Result<Flags, Refusal>
    requires formed { Formed g }
    requires spread { Spread r }
    ensures { ColumnsOn (rules_of g) (ranges_of r) words.old words.new
        result }
{
    let n = r.count;
    if words.len() < size(n) {
        return Err(Fault::FewWords.into());
    }
    Ok(choose(g, r, words))
}

// Of none, one and two: does some choice of columns within the ends give it, with positions
// properly
// rising?
pub fn columns(rules: &[u8], ranges: &[u8], words: &mut [u64]) -> Result<Flags, Refusal>
    ensures { ColumnsOf rules.now ranges.now words.old
        words.new result }
{
    let book = read_rules(rules)?;
    let r = read_ranges(ranges)?;
    answered(book.grammar, r, words)
}

// The refused line of a call with a rule sheet and a range sheet, as a part of the sheet that holds
// it; with no such line, the rule sheet's first zero bytes.
pub fn refused_line<'a>(rules: &'a [u8], ranges: &'a [u8]) -> &'a [u8]
    ensures { Hands rules.entry ranges.entry result
        (held_by (rule_sheet rules.now) (range_sheet ranges.now)) }
{
    let g = read_rules(rules).err();
    let t = read_ranges(ranges).err();
    refused_read(g, t, rules, ranges)
}
