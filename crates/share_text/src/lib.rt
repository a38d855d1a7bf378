// The whole output of the call `share`, in a lent buffer; its sheet is parted already.
#![tactic(auto)]

ghost use Rattle.std.specs.Prelude.{[], ◌∷◌, ◌++◌, ◌+◌, ◌≤◌, length, Ok};
ghost use Rattle.sweep_answers.specs.Sweep.{found_or};
ghost use Rattle.printing.specs.Printing.{decimal, Wrote};
ghost use Rattle.text.specs.Printed.{Printed};
ghost use Rattle.share_text.specs.Shares.{number_text, share_lines, report_text, ShareTextOf};

use call_shares::{Report, share};
use printing::{put_byte, put_bytes, put_number};
use sentence_text::put_sentence;
use sheets::Answer;
use text::put_head;

// A number and a blank behind it.
fn put_value(out: &mut [u8], at: usize, v: u64) -> usize
    requires { at + 21 ≤ length out.old }
    ensures wrote { Wrote out.old out.new at (decimal v ++ (32 ∷ [])) result }
    ensures upper_bound { result ≤ at + 21 }
{
    let next = put_number(out, at, v);
    put_byte(out, next, b' ')
}

// The number that was found, or the byte `-`.
fn put_found(out: &mut [u8], at: usize, number: Option<u64>) -> usize
    requires { at + 20 ≤ length out.old }
    ensures wrote { Wrote out.old out.new at (number_text number) result }
    ensures upper_bound { result ≤ at + 20 }
{
    match number {
        Some(n) => put_number(out, at, n),
        None => put_byte(out, at, b'-'),
    }
}

// The names of the three numbers, and the numbers.
fn put_values(
    out: &mut [u8],
    at: usize,
    quotient: u64,
    remainder: u64,
    number: Option<u64>,
) -> usize
    requires { at + 89 ≤ length out.old }
    ensures wrote { Wrote out.old out.new at
        (share_lines quotient remainder number) result }
    ensures upper_bound { result ≤ at + 89 }
{
    let b = put_bytes(out, at, b"quotient remainder number\n");
    let c = put_value(out, b, quotient);
    let d = put_value(out, c, remainder);
    let e = put_found(out, d, number);
    put_byte(out, e, b'\n')
}

// The whole output for a report.
fn put_report(out: &mut [u8], r: Report) -> usize
    requires few { (found_or r.sentence).count ≤ 7 }
    requires in_bounds { 262144 ≤ length out.old }
    ensures { Wrote out.old out.new 0 (report_text (Ok r)) result }
{
    match r.sentence {
        None => {
            let n = put_head(out, Answer::Clear, 0);
            put_values(out, n, r.quotient, r.remainder, None)
        }
        Some(s) => {
            let n = put_head(out, Answer::Two, 0);
            let m = put_values(out, n, r.quotient, r.remainder, Some(r.number));
            put_sentence(out, m, Answer::Two, s)
        }
    }
}

// The whole output of the call `share`; its length.
pub fn share_text(rules: &[u8], size: u32, racks: u32, i: u32, out: &mut [u8]) -> usize
    requires { 262144 ≤ length out.old }
    ensures { Printed (ShareTextOf size racks i) rules.now out.old
        out.new result }
{
    let mut words = [0u64; 58];
    match share(rules, size as usize, racks as usize, i as usize, &mut words) {
        Ok(r) => put_report(out, r),
        Err(e) => put_head(out, Answer::Refused(e.fault), e.line),
    }
}
