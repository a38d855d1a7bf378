// The whole output of the calls on one sentence's trees, in a lent buffer; their sheets are parted
// already.
#![tactic(auto)]

ghost use Rattle.std.specs.Prelude.{[], ◌∷◌, ◌++◌, ◌+◌, ◌*◌, ◌≤◌, length, take};
ghost use Rattle.printing.specs.Printing.{decimal, Wrote};
ghost use Rattle.sheets.specs.Results.{verdict_answer};
ghost use Rattle.text.specs.Printed.{Printed};
ghost use Rattle.text_trees.specs.Places.{place_text, place_lines, places_text, PlacesTextOf};
ghost use Rattle.text_trees.specs.Rows.{count_text, count_lines, RowsTextOf};

use call_places::places;
use call_rows::rows;
use grammar::Verdict;
use printing::{put_byte, put_bytes, put_number};
use sheets::Answer;
use spans::SHEET_WORDS;
use text::put_head;

// A row count: a number, or the word `more`.
fn put_count(out: &mut [u8], at: usize, c: Option<u32>) -> usize
    requires { at + 10 ≤ length out.old }
    ensures wrote { Wrote out.old out.new at (count_text c) result }
    ensures upper_bound { result ≤ at + 10 }
{
    match c {
        Some(n) => put_number(out, at, n as u64),
        None => put_bytes(out, at, b"more"),
    }
}

// The names of the counts, and both counts.
fn put_counts(out: &mut [u8], at: usize, first: Option<u32>, second: Option<u32>) -> usize
    requires { at + 35 ≤ length out.old }
    ensures { Wrote out.old out.new at (count_lines first second) result }
{
    let a = put_bytes(out, at, b"first second\n");
    let b = put_count(out, a, first);
    let c = put_byte(out, b, b' ');
    let d = put_count(out, c, second);
    put_byte(out, d, b'\n')
}

// The whole output of the call `rows`; its length.
pub fn rows_text(rules: &[u8], tokens: &[u8], out: &mut [u8]) -> usize
    requires { 262144 ≤ length out.old }
    ensures { Printed (RowsTextOf rules.now) tokens.now
        out.old out.new result }
{
    let mut words = [0u64; SHEET_WORDS];
    match rows(rules, tokens, &mut words) {
        Ok(r) => {
            let n = put_head(out, r.verdict.into(), 0);
            put_counts(out, n, r.first, r.second)
        }
        Err(e) => put_head(out, Answer::Refused(e.fault), e.line),
    }
}

// A byte as a number, and the byte `end` behind it.
pub fn put_small(out: &mut [u8], at: usize, v: u8, end: u8) -> usize
    requires { at + 4 ≤ length out.old }
    ensures wrote { Wrote out.old out.new at (decimal v ++ (end ∷ [])) result }
    ensures upper_bound { result ≤ at + 4 }
{
    let next = put_number(out, at, v as u64);
    put_byte(out, next, end)
}

// The line of a place.
fn put_place(out: &mut [u8], at: usize, left: u8, start: u8, len: u8) -> usize
    requires { at + 12 ≤ length out.old }
    ensures wrote { Wrote out.old out.new at (place_text left start len) result }
    ensures upper_bound { result ≤ at + 12 }
{
    let a = put_small(out, at, left, 32);
    let b = put_small(out, a, start, 32);
    put_small(out, b, len, 10)
}

// The lines of the first `count` places.
fn put_places(out: &mut [u8], at: usize, list: &[u8], count: usize) -> usize
    requires count_in_bounds { 3 * count ≤ length list.now }
    requires count_in_bounds_2 { at + 12 * count ≤ length out.old }
    ensures { Wrote out.old out.new at
        (place_lines (take (3 * count) list.now)) result }
{
    let mut next = at;
    for i in 0..count {
        let p = 3 * i;
        next = put_place(out, next, list[p], list[p + 1], list[p + 2]);
    }
    next
}

// The names and the lines of the places, where the verdict is two.
fn put_listed(out: &mut [u8], at: usize, v: Verdict, list: &[u8], count: usize) -> usize
    requires count_in_bounds { 3 * count ≤ length list.now }
    requires count_in_bounds_2 { at + 18 + 12 * count ≤ length out.old }
    ensures { Wrote out.old out.new at
        (places_text (verdict_answer v) (take (3 * count) list.now)) result }
{
    match v {
        Verdict::None => at,
        Verdict::One => at,
        Verdict::Two => {
            let next = put_bytes(out, at, b"left start length\n");
            put_places(out, next, list, count)
        }
    }
}

// The whole output of the call `places`; its length.
pub fn places_text(rules: &[u8], tokens: &[u8], out: &mut [u8]) -> usize
    requires { 262144 ≤ length out.old }
    ensures { Printed (PlacesTextOf rules.now) tokens.now
        out.old out.new result }
{
    let mut words = [0u64; SHEET_WORDS];
    let mut list = [0u8; 49152];
    match places(rules, tokens, &mut words, &mut list) {
        Ok(r) => {
            let n = put_head(out, r.verdict.into(), 0);
            put_listed(out, n, r.verdict, &list, r.count)
        }
        Err(e) => put_head(out, Answer::Refused(e.fault), e.line),
    }
}
