// The whole output of the program `sweep`.
#![tactic(auto)]

ghost use Rattle.std.specs.Prelude.{◌≡◌, ◌+◌, ◌*◌, ◌≤◌, ◌<◌, length, take, drop};
ghost use Rattle.printing.specs.Printing.{Wrote};
ghost use Rattle.sheets.specs.RuleSheets.{rule_sheet};
ghost use Rattle.sweep_answers.specs.Sweep.{sweep_sentence};
ghost use Rattle.text.specs.Printed.{Printed};
ghost use Rattle.sweep_text.specs.Answered.{swept_text};
ghost use Rattle.sweep_text.specs.Bound.{bound_of};
ghost use Rattle.sweep_text.specs.Sweep.{SweepText, SweepTextOf};
ghost use Rattle.sweep_text.specs.Swept.{SweptAt};

use fields::numeral;
use sentence_text::put_sentence;
use sheets::{Answer, Refusal, read_rules};
use sweep_answers::{Swept, sweep_read};
use text::{OUTPUT, parting, put_head, put_refusal};

// The bound that stands before the empty line, or none.
fn bound_of(s: &[u8]) -> Option<u32>
    ensures { result ≡ bound_of s.now }
{
    let n = s.len();
    if n < 7 {
        return None;
    }
    if &s[..6] != b"bound\n".as_slice() {
        return None;
    }
    let end = n - 1;
    if s[end] != 10 {
        return None;
    }
    numeral(&s[6..end])
}

// The whole output of a sweep.
pub fn put_swept(out: &mut [u8], r: Result<Swept, Refusal>) -> usize
    requires few { (sweep_sentence r).count ≤ 64 }
    requires in_bounds { 64 + 18 * (sweep_sentence r).count ≤ length out.old }
    ensures { Wrote out.old out.new 0 (swept_text r) result }
{
    match r {
        Ok(s) => match s.found {
            None => put_head(out, Answer::Clear, 0),
            Some(w) => {
                let n = put_head(out, Answer::Two, 0);
                put_sentence(out, n, Answer::Two, w)
            }
        },
        Err(e) => put_head(out, Answer::Refused(e.fault), e.line),
    }
}

// The answer on a rule sheet and a bound.
fn sweep_sheet(rules: &[u8], k: u32, out: &mut [u8]) -> usize
    requires { 262144 ≤ length out.old }
    ensures { Printed (SweepText k) (rule_sheet rules.now) out.old
        out.new result }
{
    let mut words = [0u64; 58];
    let r = sweep_read(read_rules(rules), k as usize, &mut words);
    put_swept(out, r)
}

// The answer on what the empty line at i parts: the bound, then the rule sheet.
fn sweep_at(input: &[u8], i: usize, out: &mut [u8]) -> usize
    requires i_in_bounds { i < length input.now }
    requires in_bounds { 262144 ≤ length out.old }
    ensures { SweptAt (take i input.now) (drop (i + 1) input.now)
        out.old out.new result }
{
    let j = i + 1;
    match bound_of(&input[..i]) {
        None => put_refusal(out, 32),
        Some(k) => sweep_sheet(&input[j..], k, out),
    }
}

// The whole output of the program `sweep`; its length.
pub fn sweep_text(input: &[u8], out: &mut [u8; OUTPUT]) -> usize
    ensures { Printed SweepTextOf input.now out.old out.new
        result }
{
    if 16384 < input.len() {
        return put_refusal(out, 31);
    }
    match parting(input) {
        None => put_refusal(out, 32),
        Some(i) => sweep_at(input, i, out),
    }
}
