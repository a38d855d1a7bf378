// The whole output of the program `check`.
#![tactic(auto)]

ghost use Rattle.std.specs.Prelude.{◌+◌, ◌*◌, ◌≤◌, ◌<◌, length, take, drop};
ghost use Rattle.printing.specs.Printing.{Wrote};
ghost use Rattle.answering.specs.Answers.{sheets};
ghost use Rattle.answering.specs.Results.{first_rows, second_rows};
ghost use Rattle.text.specs.Printed.{Printed};
ghost use Rattle.check_text.specs.Answered.{answered_text};
ghost use Rattle.check_text.specs.Check.{TreesText, CheckOf};

use answering::{TreeRows, trees_read};
use sheets::{Answer, Refusal, read_rules};
use spans::SHEET_WORDS;
use text::{OUTPUT, parting, put_head, put_refusal, put_trees};

// The whole output of a call for trees, from the memories that have them.
pub fn put_answered(out: &mut [u8], r: Result<TreeRows, Refusal>, one: &[u8], two: &[u8]) -> usize
    requires first { 4 * first_rows r ≤ length one.now }
    requires second { 4 * second_rows r ≤ length two.now }
    requires in_bounds { 78 + 26 * first_rows r + 26 * second_rows r ≤ length out.old }
    ensures { Wrote out.old out.new 0 (answered_text r one.now two.now) result }
{
    match r {
        Ok(t) => {
            let a = t.verdict.into();
            let n = put_head(out, a, 0);
            put_trees(out, n, a, one, t.first, two, t.second)
        }
        Err(e) => put_head(out, Answer::Refused(e.fault), e.line),
    }
}

// The answer on two sheets and its trees.
fn check_sheets(rules: &[u8], tokens: &[u8], out: &mut [u8]) -> usize
    requires { 262144 ≤ length out.old }
    ensures { Printed TreesText (sheets rules.now tokens.now)
        out.old out.new result }
{
    let mut words = [0u64; SHEET_WORDS];
    let mut one = [0u8; 16384];
    let mut two = [0u8; 16384];
    let r = trees_read(read_rules(rules), tokens, &mut words, &mut one, &mut two);
    put_answered(out, r, &one, &two)
}

// The answer on the two sheets that the empty line at i parts.
fn check_at(input: &[u8], i: usize, out: &mut [u8]) -> usize
    requires i_in_bounds { i < length input.now }
    requires in_bounds { 262144 ≤ length out.old }
    ensures { Printed TreesText
        (sheets (take i input.now) (drop (i + 1) input.now))
        out.old out.new result }
{
    let j = i + 1;
    check_sheets(&input[..i], &input[j..], out)
}

// The whole output of the program `check`; its length.
pub fn check_text(input: &[u8], out: &mut [u8; OUTPUT]) -> usize
    ensures { Printed CheckOf input.now out.old out.new result }
{
    if 16384 < input.len() {
        return put_refusal(out, 31);
    }
    match parting(input) {
        None => put_refusal(out, 32),
        Some(i) => check_at(input, i, out),
    }
}
