// What the programs' texts are made of: where the input parts, and the parts of an output put into
// a lent buffer.
#![tactic(auto)]

ghost use Rattle.std.specs.Prelude.{◌∷◌, ◌++◌, ◌+◌, ◌*◌, ◌≤◌, ◌<◌, length, take};
ghost use Rattle.printing.specs.Printing.{Wrote, last_field, row_lines};
ghost use Rattle.text.specs.Given.{given_count, given_text};
ghost use Rattle.text.specs.Output.{refused_text_of, answer_text, head, tree_names, trees_text};
ghost use Rattle.text.specs.Parting.{Parted};

use printing::{put_byte, put_bytes, put_number, put_rows};
use sheets::{Answer, Refusal};

// The bytes that any answer has room in.
pub const OUTPUT: usize = 262144;

// The place of the first empty line.
pub fn parting(s: &[u8]) -> Option<usize>
    ensures { Parted s.now result }
{
    let mut begins = true;
    for (i, b) in s.iter().enumerate() {
        let ends = *b == b'\n';
        if begins && ends {
            return Some(i);
        }
        begins = ends;
    }
    None
}

// `refused-` and a number of at most two digits.
fn put_refused(out: &mut [u8], at: usize, n: u64) -> usize
    requires n_bound { n < 100 }
    requires at_in_bounds { at + 16 ≤ length out.old }
    ensures wrote { Wrote out.old out.new at (refused_text_of n) result }
    ensures upper_bound { result ≤ at + 10 }
{
    let next = put_bytes(out, at, b"refused-");
    put_number(out, next, n)
}

// The word of an answer.
fn put_answer(out: &mut [u8], at: usize, a: Answer) -> usize
    requires { at + 16 ≤ length out.old }
    ensures wrote { Wrote out.old out.new at (answer_text a) result }
    ensures upper_bound { result ≤ at + 10 }
{
    match a {
        Answer::None => put_bytes(out, at, b"none"),
        Answer::One => put_bytes(out, at, b"one"),
        Answer::Two => put_bytes(out, at, b"two"),
        Answer::Clear => put_bytes(out, at, b"clear"),
        Answer::Given => put_bytes(out, at, b"given"),
        Answer::Refused(f) => put_refused(out, at, f.into()),
    }
}

// A blank, the line's number and the byte 10.
fn put_line(out: &mut [u8], at: usize, line: usize) -> usize
    requires { at + 22 ≤ length out.old }
    ensures wrote { Wrote out.old out.new at (32 ∷ last_field line) result }
    ensures upper_bound { result ≤ at + 22 }
{
    let a = put_byte(out, at, b' ');
    let b = put_number(out, a, line as u64);
    put_byte(out, b, b'\n')
}

// The first two lines of the output.
pub fn put_head(out: &mut [u8], a: Answer, line: usize) -> usize
    requires { 50 ≤ length out.old }
    ensures wrote { Wrote out.old out.new 0 (head (answer_text a) line) result }
    ensures upper_bound { result ≤ 50 }
{
    let n = put_bytes(out, 0, b"answer line\n");
    let m = put_answer(out, n, a);
    put_line(out, m, line)
}

// The whole output of an input that is refused before its sheets are read.
pub fn put_refusal(out: &mut [u8], number: u64) -> usize
    requires number_bound { number < 100 }
    requires in_bounds { 50 ≤ length out.old }
    ensures { Wrote out.old out.new 0 (head (refused_text_of number) 0)
        result }
{
    let n = put_bytes(out, 0, b"answer line\n");
    let m = put_refused(out, n, number);
    put_line(out, m, 0)
}

// The tree lines' names and the lines of the first tree.
fn put_first(out: &mut [u8], at: usize, one: &[u8], m: usize) -> usize
    requires m_in_bounds { 4 * m ≤ length one.now }
    requires m_in_bounds_2 { at + 28 + 26 * m ≤ length out.old }
    ensures wrote { Wrote out.old out.new at
        (tree_names ++ row_lines 1 (take (4 * m) one.now)) result }
    ensures upper_bound { result ≤ at + 28 + 26 * m }
{
    let next = put_bytes(out, at, b"tree left kind start length\n");
    put_rows(out, next, 1, one, m)
}

// The tree lines and their names, where the answer has trees: the first m rows of one memory and
// the first n of the other.
pub fn put_trees(
    out: &mut [u8],
    at: usize,
    a: Answer,
    one: &[u8],
    m: usize,
    two: &[u8],
    n: usize,
) -> usize
    requires m_in_bounds { (4 * m ≤ length one.now) × (4 * n ≤ length two.now) }
    requires n_in_bounds { at + 28 + 26 * m + 26 * n ≤ length out.old }
    ensures { Wrote out.old out.new at
        (trees_text a (take (4 * m) one.now) (take (4 * n) two.now)) result }
{
    match a {
        Answer::None => at,
        Answer::One => put_first(out, at, one, m),
        Answer::Two => {
            let next = put_first(out, at, one, m);
            put_rows(out, next, 2, two, n)
        }
        Answer::Clear => at,
        Answer::Given => at,
        Answer::Refused(_) => at,
    }
}

// The whole output of a call that gives a sheet: its bytes stand at the front of the lent ones.
pub fn put_sheet(out: &mut [u8], r: Result<usize, Refusal>, sheet: &[u8]) -> usize
    requires given { given_count r ≤ length sheet.now }
    requires in_bounds { 50 + given_count r ≤ length out.old }
    ensures { Wrote out.old out.new 0 (given_text r sheet.now) result }
{
    match r {
        Ok(n) => {
            let next = put_head(out, Answer::Given, 0);
            put_bytes(out, next, &sheet[..n])
        }
        Err(e) => put_head(out, Answer::Refused(e.fault), e.line),
    }
}
