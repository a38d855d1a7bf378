// The whole output of the call on columns read off a photograph, in a lent buffer; its sheets are
// parted already.
#![tactic(auto)]

ghost use Rattle.std.specs.Prelude.{[], ◌∷◌, ◌++◌, ◌+◌, ◌≤◌, length};
ghost use Rattle.printing.specs.Printing.{Wrote};
ghost use Rattle.text.specs.Printed.{Printed};
ghost use Rattle.column_text.specs.Columns.{flag_text, flag_lines, ColumnsTextOf};

use call_columns::columns;
use column_search::Flags;
use printing::{put_byte, put_bytes};
use sheets::Answer;
use spans::SHEET_WORDS;
use text::put_head;

// The word `yes` or `no`, and the byte `end` behind it.
fn put_flag(out: &mut [u8], at: usize, b: bool, end: u8) -> usize
    requires { at + 4 ≤ length out.old }
    ensures wrote { Wrote out.old out.new at (flag_text b ++ (end ∷ [])) result }
    ensures upper_bound { result ≤ at + 4 }
{
    let n = if b {
        put_bytes(out, at, b"yes")
    } else {
        put_bytes(out, at, b"no")
    };
    put_byte(out, n, end)
}

// The names of the verdicts, and yes or no for each.
fn put_flags(out: &mut [u8], at: usize, f: Flags) -> usize
    requires { at + 25 ≤ length out.old }
    ensures { Wrote out.old out.new at (flag_lines f) result }
{
    let a = put_bytes(out, at, b"none one two\n");
    let b = put_flag(out, a, f.none, 32);
    let c = put_flag(out, b, f.one, 32);
    put_flag(out, c, f.two, 10)
}

// The whole output of the call `columns`; its length.
pub fn columns_text(rules: &[u8], ranges: &[u8], out: &mut [u8]) -> usize
    requires { 262144 ≤ length out.old }
    ensures { Printed (ColumnsTextOf rules.now) ranges.now
        out.old out.new result }
{
    let mut words = [0u64; SHEET_WORDS];
    match columns(rules, ranges, &mut words) {
        Ok(f) => {
            let n = put_head(out, Answer::Given, 0);
            put_flags(out, n, f)
        }
        Err(e) => put_head(out, Answer::Refused(e.fault), e.line),
    }
}
