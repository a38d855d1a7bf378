// The program `calls`: from its input to its whole output in a lent buffer.
#![tactic(auto)]

ghost use Rattle.std.specs.Prelude.{◌+◌, ◌≤◌, ◌<◌, length, take, drop};
ghost use Rattle.call_sheets.specs.CallSheets.{call_of};
ghost use Rattle.call_sheets.specs.Inside.{Inside, SheetsInside, MarkInside};
ghost use Rattle.text.specs.Printed.{Printed};
ghost use Rattle.calling.specs.Calls.{OnTwoSheets, ShownText, ChangedText, OneText, TwoText};
ghost use Rattle.calling.specs.Calls.{SheetsText, CallText, CallsOf};

use always_text::{always_text, clauses_always_text};
use call_sheets::{Call, OneSheet, Sheets, TwoSheets, call_of};
use clause_text::{clauses_sweep_text, clauses_text, expand_text};
use column_text::columns_text;
use reports::merge_text;
use rights_text::{change_text, show_text};
use share_text::share_text;
use text::{OUTPUT, parting, put_refusal};
use text_trees::{places_text, rows_text};

// The call `show` on a rule sheet and the two sheets behind it, which the first empty line parts.
fn show_call(rules: &[u8], s: &[u8], user: u32, out: &mut [u8]) -> usize
    requires { 262144 ≤ length out.old }
    ensures { Printed (OnTwoSheets (ShownText user rules.now)) s.now
        out.old out.new result }
{
    match parting(s) {
        None => put_refusal(out, 32),
        Some(i) => {
            let j = i + 1;
            show_text(rules, &s[..i], &s[j..], user, out)
        }
    }
}

// The call `change` on a rule sheet and a rights sheet; the new mark stands in the call sheet from
// `at` on.
fn change_call(
    sheet: &[u8],
    rules: &[u8],
    rights: &[u8],
    user: u32,
    rule: u32,
    at: usize,
    out: &mut [u8],
) -> usize
    requires in_bounds { 262144 ≤ length out.old }
    requires at_in_bounds { at < length sheet.now }
    ensures { Printed (ChangedText sheet.now user rule at rules.now)
        rights.now out.old out.new result }
{
    let end = sheet.len() - 1;
    change_text(rules, rights, user, rule, &sheet[at..end], out)
}

// The answer to a call on two sheets.
fn on_two(call: TwoSheets, sheet: &[u8], a: &[u8], b: &[u8], out: &mut [u8]) -> usize
    requires in_bounds { 262144 ≤ length out.old }
    requires mark_inside { MarkInside (length sheet.now) call }
    ensures { Printed (TwoText sheet.now call a.now) b.now
        out.old out.new result }
{
    match call {
        TwoSheets::Clauses => clauses_text(a, b, out),
        TwoSheets::Rows => rows_text(a, b, out),
        TwoSheets::Merge => merge_text(a, b, out),
        TwoSheets::Columns => columns_text(a, b, out),
        TwoSheets::Places => places_text(a, b, out),
        TwoSheets::Show(u) => show_call(a, b, u, out),
        TwoSheets::Change(u, r, at) => change_call(sheet, a, b, u, r, at, out),
    }
}

// The same on what follows the call sheet: the first empty line parts the sheets.
fn on_parted(call: TwoSheets, sheet: &[u8], s: &[u8], out: &mut [u8]) -> usize
    requires in_bounds { 262144 ≤ length out.old }
    requires mark_inside { MarkInside (length sheet.now) call }
    ensures { Printed (OnTwoSheets (TwoText sheet.now call)) s.now
        out.old out.new result }
{
    match parting(s) {
        None => put_refusal(out, 32),
        Some(i) => {
            let j = i + 1;
            on_two(call, sheet, &s[..i], &s[j..], out)
        }
    }
}

// The answer to a call on one sheet.
fn on_one(call: OneSheet, s: &[u8], out: &mut [u8]) -> usize
    requires { 262144 ≤ length out.old }
    ensures { Printed (OneText call) s.now out.old out.new
        result }
{
    match call {
        OneSheet::ClausesSweep(k) => clauses_sweep_text(s, k, out),
        OneSheet::Expand => expand_text(s, out),
        OneSheet::Share(n, p, i) => share_text(s, n, p, i, out),
    }
}

// The answer to a call that is not the test at every length.
#[inline(never)]
fn on_sheets(call: Sheets, sheet: &[u8], s: &[u8], out: &mut [u8]) -> usize
    requires in_bounds { 262144 ≤ length out.old }
    requires sheets_inside { SheetsInside (length sheet.now) call }
    ensures { Printed (SheetsText sheet.now call) s.now
        out.old out.new result }
{
    match call {
        Sheets::One(c) => on_one(c, s, out),
        Sheets::Two(c) => on_parted(c, sheet, s, out),
    }
}

// The answer to the call of a call sheet, on what follows it. The test at every length, which takes
// most memory, is entered from here and not from among the others, so that it does not stand on
// their buffers.
fn answer(call: Option<Call>, sheet: &[u8], s: &[u8], out: &mut [u8]) -> usize
    requires in_bounds { 262144 ≤ length out.old }
    requires inside { Inside (length sheet.now) call }
    ensures { Printed (CallText sheet.now call) s.now
        out.old out.new result }
{
    let Some(known) = call else {
        return put_refusal(out, 32);
    };
    match known {
        Call::Always => always_text(s, out),
        Call::ClausesAlways => clauses_always_text(s, out),
        Call::On(c) => on_sheets(c, sheet, s, out),
    }
}

// The answer to the call that the call sheet before the empty line at i names.
fn answer_at(input: &[u8], i: usize, out: &mut [u8]) -> usize
    requires i_in_bounds { i < length input.now }
    requires in_bounds { 262144 ≤ length out.old }
    ensures { Printed (CallText (take i input.now)
        (call_of (take i input.now))) (drop (i + 1) input.now)
        out.old out.new result }
{
    let j = i + 1;
    let call = call_of(&input[..i]);
    answer(call, &input[..i], &input[j..], out)
}

// The whole output of the program `calls`; its length.
#[tactic(auto, using(crate::proofs::TooLong::too_long))]
pub fn calls_text(input: &[u8], out: &mut [u8; OUTPUT]) -> usize
    ensures { Printed CallsOf input.now out.old out.new result }
{
    if 16384 < input.len() {
        return put_refusal(out, 31);
    }
    match parting(input) {
        None => put_refusal(out, 32),
        Some(i) => answer_at(input, i, out),
    }
}
