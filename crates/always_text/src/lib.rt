// The whole output of the calls for the test at every length, in a lent buffer.
#![tactic(auto)]

ghost use Rattle.std.specs.Prelude.{◌+◌, ◌*◌, ◌≤◌, length, take};
ghost use Rattle.printing.specs.Printing.{Wrote};
ghost use Rattle.grammar.specs.Content.{rules_of, Formed};
ghost use Rattle.sheets.specs.Items.{accepted};
ghost use Rattle.sheets.specs.Promises.{RulesRead};
ghost use Rattle.sheets.specs.Told.{told};
ghost use Rattle.call_always.specs.Always.{always_count};
ghost use Rattle.sheets.specs.RuleSheets.{rule_sheet};
ghost use Rattle.doubt_list.specs.Marks.{Ground};
ghost use Rattle.clause_sheets.specs.ClauseSheets.{clause_sheet};
ghost use Rattle.text.specs.Output.{head};
ghost use Rattle.text.specs.Printed.{Printed};
ghost use Rattle.always_text.specs.Always.{unknown_text, why_text, doubt_text, doubt_lines};
ghost use Rattle.always_text.specs.Always.{told_lines, AlwaysText};

use call_always::{Told, reply};
use clause_sheets::read_clauses;
use doubt_list::{Sets, list_doubts};
use doubt_marks::weigh_alone;
use grammar::Grammar;
use lengths::Book;
use printing::put_bytes;
use sheets::{Answer, Refusal, read_rules};
use text::put_head;
use text_trees::put_small;

// The first two lines for unknown.
fn put_unknown(out: &mut [u8]) -> usize
    requires { 50 ≤ length out.old }
    ensures wrote { Wrote out.old out.new 0 (head unknown_text 0) result }
    ensures upper_bound { result ≤ 50 }
{
    put_bytes(out, 0, b"answer line\nunknown 0\n")
}

// Why, and the byte 10 behind it.
// Kept: a number for why, as the list that the C interface hands over has it (`doubt_bytes`).
fn put_why(out: &mut [u8], at: usize, why: u8) -> usize
    requires { at + 6 ≤ length out.old }
    ensures wrote { Wrote out.old out.new at (why_text why) result }
    ensures upper_bound { result ≤ at + 6 }
{
    match why {
        0 => put_bytes(out, at, b"rules\n"),
        1 => put_bytes(out, at, b"cuts\n"),
        _ => put_bytes(out, at, b"empty\n"),
    }
}

// The line of an entry.
fn put_doubt(out: &mut [u8], at: usize, left: u8, first: u8, second: u8, why: u8) -> usize
    requires { at + 18 ≤ length out.old }
    ensures wrote { Wrote out.old out.new at (doubt_text left first second why)
        result }
    ensures upper_bound { result ≤ at + 18 }
{
    let a = put_small(out, at, left, 32);
    let b = put_small(out, a, first, 32);
    let c = put_small(out, b, second, 32);
    put_why(out, c, why)
}

// The lines of the first `count` entries.
fn put_doubts(out: &mut [u8], at: usize, list: &[u8], count: usize) -> usize
    requires count_in_bounds { 4 * count ≤ length list.now }
    requires count_in_bounds_2 { at + 18 * count ≤ length out.old }
    ensures { Wrote out.old out.new at
        (doubt_lines (take (4 * count) list.now)) result }
{
    let mut next = at;
    for i in 0..count {
        let p = 4 * i;
        next = put_doubt(out, next, list[p], list[p + 1], list[p + 2], list[p + 3]);
    }
    next
}

// The whole output of the test, from the list of the entries.
fn put_told(out: &mut [u8], r: Result<Told, Refusal>, list: &[u8]) -> usize
    requires list_in { 4 * always_count r ≤ length list.now }
    requires in_bounds { 72 + 18 * always_count r ≤ length out.old }
    ensures { Wrote out.old out.new 0 (told_lines r list.now) result }
{
    match r {
        Ok(t) => match t {
            Told::Clear => put_head(out, Answer::Clear, 0),
            Told::Unknown(n) => {
                let a = put_unknown(out);
                let b = put_bytes(out, a, b"left first second why\n");
                put_doubts(out, b, list, n)
            }
        },
        Err(e) => put_head(out, Answer::Refused(e.fault), e.line),
    }
}

// The output where all doubts are to be listed, by the sets and the marks of the rules.
fn weighed_text(g: Grammar, s: Sets, marks: &[u64], out: &mut [u8]) -> usize
    requires grounded { Ground g s marks.now }
    requires in_bounds { 262144 ≤ length out.old }
    ensures { Printed AlwaysText (accepted (rules_of g)) out.old out.new
        result }
{
    let mut list = [0u8; 57600];
    let r = reply(list_doubts(g, s, marks, &mut list));
    put_told(out, r, &list)
}

// The output on rules that were read. The words of the test are given back before the list is made.
fn rules_text(g: Grammar, out: &mut [u8]) -> usize
    requires { Formed g × (262144 ≤ length out.old) }
    ensures { Printed AlwaysText (accepted (rules_of g)) out.old out.new
        result }
{
    let mut marks = [0u64; 256];
    let s = weigh_alone(g, &mut marks);
    weighed_text(g, s, &marks, out)
}

// The output by what a reader of a sheet with rules answered. It is entered once the sheet is read,
// so that the words of the test do not stand beside what the reader needs.
fn read_text(a: Result<Book, Refusal>, out: &mut [u8]) -> usize
    requires rules_read { RulesRead a (told a) }
    requires in_bounds { 262144 ≤ length out.old }
    ensures { Printed AlwaysText (told a) out.old out.new result }
{
    match a {
        Ok(b) => rules_text(b.grammar, out),
        Err(e) => put_head(out, Answer::Refused(e.fault), e.line),
    }
}

// The whole output of the call `always`; its length.
pub fn always_text(sheet: &[u8], out: &mut [u8]) -> usize
    requires { 262144 ≤ length out.old }
    ensures { Printed AlwaysText (rule_sheet sheet.now) out.old
        out.new result }
{
    read_text(read_rules(sheet), out)
}

// The whole output of the call `clauses-always`; its length.
pub fn clauses_always_text(clauses: &[u8], out: &mut [u8]) -> usize
    requires { 262144 ≤ length out.old }
    ensures { Printed AlwaysText (clause_sheet clauses.now) out.old
        out.new result }
{
    read_text(read_clauses(clauses), out)
}
