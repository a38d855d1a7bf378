// A rule sheet with another mark in one of its rules, given as a list of its bytes; what that sheet
// says, and the law of stricter marks.
#![tactic(auto)]

ghost use Rattle.std.specs.Prelude.{◌≡◌, ◌<◌, length};
ghost use Rattle.fields.specs.Pieces.{pieces};
ghost use Rattle.sheets.specs.RefusedLines.{piece_start};
ghost use Rattle.mark_change.specs.Changed.{line_of, lay_start, lay_end, changed};
ghost use Rattle.lists.specs.Lists.{GivesList};
ghost use Rattle.lists.specs.Putting.{listed, unfit};
ghost use Rattle.mark_change.specs.Relaid.{one_word, two_words, fits_lay};

use fields::{Cursor, Lay};
use grammar::Clause;
use lists::{begin, finish, put};

// Where the lay of a rule begins and ends.
#[derive(Clone, Copy)]
pub struct Field {
    pub start: usize,
    pub end: usize,
}

// Where the piece with n pieces before it begins, the bytes being cut by b.
fn piece_start(s: &[u8], b: u8, n: usize) -> usize
    requires { n < length (pieces b s.now) }
    ensures { result ≡ piece_start (pieces b s.now) n }
{
    let mut left = n;
    for at in 0..s.len() {
        if left == 0 {
            return at;
        }
        if s[at] == b {
            left -= 1;
        }
    }
    s.len()
}

// Where the lay of the rule at place p, counted from 1, begins and ends.
fn lay_at(s: &[u8], p: usize) -> Field
    requires { (p < length (pieces 10 s.now)) × (4 < length (pieces 32 (line_of s.now p))) }
    ensures { (result.start ≡ lay_start s.now p)
        × (result.end ≡ lay_end s.now p) }
{
    let at = piece_start(s, 10, p);
    let c = Cursor::line(s, at);
    let end = c.end;
    let line = &s[at..end];
    let k = piece_start(line, 32, 4);
    Field { start: at + k, end }
}

// May a rule with this clause have the lay?
pub fn lay_fits(c: Clause, y: Lay) -> bool
    ensures { result ≡ fits_lay c y }
{
    match y {
        Lay::None => true,
        Lay::Offside | Lay::Offalign | Lay::Single => is_unary(c),
        Lay::Align | Lay::Indent => is_binary(c),
    }
}

// Has the rule one word below it?
fn is_unary(c: Clause) -> bool
    ensures { result ≡ one_word c }
{
    matches!(c, Clause::Unary(_, _))
}

// Has it two?
fn is_binary(c: Clause) -> bool
    ensures { result ≡ two_words c }
{
    matches!(c, Clause::Binary(_, _, _))
}

// The changed sheet as a list of its bytes: those before the lay, the new lay, and those behind it.
pub fn put_changed(s: &[u8], p: usize, lay: &[u8], out: &mut [u8]) -> Option<usize>
    requires { (p < length (pieces 10 s.now)) × (4 < length (pieces 32 (line_of s.now p))) }
    ensures { GivesList listed unfit (changed s.now p lay.now)
        (length (changed s.now p lay.now)) out.old
        out.new result }
{
    let f = lay_at(s, p);
    let start = f.start;
    let end = f.end;
    let head = &s[..start];
    let tail = &s[end..];
    let a = put(out, begin(), head, head.len());
    let b = put(out, a, lay, lay.len());
    let c = put(out, b, tail, tail.len());
    finish(out, c)
}
