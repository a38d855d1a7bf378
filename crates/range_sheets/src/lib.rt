// The reader of range sheets: tokens whose columns are known between two ends.
#![tactic(auto)]

ghost use Rattle.std.specs.Prelude.{◌≡◌, [], ◌≤◌, length, ltb};
ghost use Rattle.lines.specs.Turns.{turn_of};
ghost use Rattle.sheets.specs.Items.{accepted, step_at_of, items_from};
ghost use Rattle.sheets.specs.Promises.{as_step};
ghost use Rattle.range_sheets.specs.RangeLines.{ends_of, range_of, range_fields};
ghost use Rattle.range_sheets.specs.RangeSheets.{range_says, range_step, few_choices};
ghost use Rattle.range_sheets.specs.RangeSheets.{range_sheet};
ghost use Rattle.range_sheets.specs.Promises.{RangesRead};
ghost use Rattle.fields.specs.Cursors.{pieces_from, bytes_left, fields_left};
ghost use Rattle.column_ranges.specs.RangeSentences.{ranges_of, Spread};

use column_ranges::{RangeSentence, RangeToken, count};
use fields::Cursor;
use grammar::{Column, Line};
use lines::Turn;
use sheets::{Fault, Refusal, behind_names};

// 48: high below low.
fn ends_of(t: u8, l: u16, a: u16, b: u16) -> Result<RangeToken, Fault>
    ensures { result ≡ ends_of t l a b }
{
    if b < a {
        return Err(Fault::RangeEnds);
    }
    Ok(RangeToken {
        terminal: t,
        line: Line(l),
        low: Column(a),
        high: Column(b),
    })
}

// Terminal 0 to 63; line, low and high 1 to 65,535.
fn range_of(t: u32, l: u32, a: u32, b: u32) -> Result<RangeToken, Fault>
    ensures { result ≡ range_of t l a b }
{
    if 63 < t || l == 0 || 65535 < l || a == 0 || 65535 < a || b == 0 || 65535 < b {
        return Err(Fault::TokenRange);
    }
    ends_of(t as u8, l as u16, a as u16, b as u16)
}

// The fields from a cursor on as those of a range line: a token with its column's ends, or the
// first of the conditions 12, 13, 48 that holds of the line.
fn range_line(s: &[u8], c: Cursor) -> Result<RangeToken, Fault>
    requires { c.end ≤ length s.now }
    ensures { result ≡ range_fields (fields_left s.now c) }
{
    let Some((t, l, k, d)) = c.three(s) else {
        return Err(Fault::TokenForm);
    };
    let Some((h, e)) = d.read::<u32>(s) else {
        return Err(Fault::TokenForm);
    };
    if e.at <= e.end {
        return Err(Fault::TokenForm);
    }
    range_of(t, l, k, h)
}

// What the cursor's line gives after n tokens: one more, or the sheet's end.
fn range_step(s: &[u8], c: Cursor, n: usize) -> Result<Option<RangeToken>, Fault>
    requires { (c.at ≤ c.end) × (c.end ≤ length s.now) }
    ensures { as_step result ≡ step_at_of 14 12 (range_says [] (bytes_left s.now c))
        (turn_of 64 n (bytes_left s.now c) (ltb c.end (length s.now))) }
{
    match lines::turn_at(s, c, n, 64) {
        Turn::End => Ok(None),
        Turn::Many => Err(Fault::TokenMany),
        Turn::Open => Err(Fault::TokenForm),
        Turn::Whole => Ok(Some(range_line(s, c)?)),
    }
}

fn no_ranges() -> [RangeToken; 64] {
    [RangeToken {
        terminal: 0,
        line: Line(0),
        low: Column(0),
        high: Column(0),
    }; 64]
}

// The end of a range sheet: refusal 49.
fn finished(s: RangeSentence) -> Result<RangeSentence, Refusal>
    requires { Spread s }
    ensures { RangesRead result (few_choices (accepted (ranges_of s))) }
{
    if 65536 < count(s) {
        return Err(Refusal {
            fault: Fault::ManyChoices,
            line: 0,
        });
    }
    Ok(s)
}

// The lines from a place on.
fn ranges_from(s: &[u8], start: usize) -> Result<RangeSentence, Refusal>
    requires { start ≤ length s.now }
    ensures { RangesRead result (few_choices
        (items_from range_step [] (pieces_from 10 s.now start))) }
{
    let mut tokens = no_ranges();
    let mut n: usize = 0;
    let mut at = start;
    // Kept: no range counts the turns, since a line's end alone says where the next begins.
    loop {
        let c = Cursor::line(s, at);
        match range_step(s, c, n) {
            Ok(Some(t)) => {
                tokens[n] = t;
                n += 1;
                at = c.end + 1;
            }
            Ok(None) => {
                return finished(RangeSentence { tokens, count: n });
            }
            Err(fault) => {
                return Err(Refusal { fault, line: n + 2 });
            }
        }
    }
}

// The range sheet: its tokens, or the first refusal with its line.
pub fn read_ranges(s: &[u8]) -> Result<RangeSentence, Refusal>
    ensures { RangesRead result (range_sheet s.now) }
{
    match behind_names(s, b"term line low high") {
        Some(at) => ranges_from(s, at),
        None => Err(Refusal {
            fault: Fault::TokenNames,
            line: 1,
        }),
    }
}
