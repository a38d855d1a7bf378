// The call sheet in front of the input of the program `calls`: which call it names, with its
// numbers.
#![tactic(auto)]

ghost use Rattle.std.specs.Prelude.{◌≡◌, ◌+◌, ◌-◌, ◌≤◌, ◌<◌, length, take, drop};
ghost use Rattle.fields.specs.Words.{numeral_of};
ghost use Rattle.call_sheets.specs.CallSheets.{call_of, numbered_call, always_call, with_number};
ghost use Rattle.call_sheets.specs.CallSheets.{share_call_of, change_call_of, sweep_call};
ghost use Rattle.call_sheets.specs.CallSheets.{show_call_of};
ghost use Rattle.call_sheets.specs.OneField.{one_field_of};
ghost use Rattle.call_sheets.specs.CallSheets.{begins_with, values, bound_start, show_start};
ghost use Rattle.fields.specs.Cursors.{fields_left};

use fields::{Cursor, numeral};

// A call on one sheet, with its numbers.
#[derive(Clone, Copy)]
pub enum OneSheet {
    ClausesSweep(u32),
    Expand,
    Share(u32, u32, u32),
}

// A call on two sheets, with its numbers; the second of `Show` is two again. `Change` ends with the
// place in the call sheet where the new mark begins; it ends before the last byte.
#[derive(Clone, Copy)]
pub enum TwoSheets {
    Clauses,
    Rows,
    Merge,
    Columns,
    Places,
    Show(u32),
    Change(u32, u32, usize),
}

// What a call is on.
#[derive(Clone, Copy)]
pub enum Sheets {
    One(OneSheet),
    Two(TwoSheets),
}

// A call: the test at every length, which takes more memory than the others, or another.
#[derive(Clone, Copy)]
pub enum Call {
    Always,
    ClausesAlways,
    On(Sheets),
}

// Does the sheet begin so, and end with a byte 10?
fn begins(s: &[u8], start: &[u8]) -> bool
    ensures { result ≡ begins_with start.now s.now }
{
    let n = start.len();
    let m = s.len();
    n < m && &s[..n] == start && s[m - 1] == b'\n'
}

// Three numbers from a cursor on.
fn share_call(s: &[u8], c: Cursor) -> Option<Call>
    requires { c.end ≤ length s.now }
    ensures { result ≡ share_call_of (fields_left s.now c) }
{
    let (n, p, i, d) = c.three(s)?;
    if d.at <= d.end {
        return None;
    }
    Some(Call::On(Sheets::One(OneSheet::Share(n, p, i))))
}

// Is there neither a blank nor a byte 10?
fn one_field(f: &[u8]) -> bool
    ensures { result ≡ one_field_of f.now }
{
    for b in f {
        if *b == b' ' || *b == b'\n' {
            return false;
        }
    }
    true
}

// User, rule and the new mark's field, from a cursor on whose line ends before the sheet's last
// byte.
fn change_call(s: &[u8], c: Cursor) -> Option<Call>
    requires { c.end + 1 ≡ length s.now }
    ensures { result ≡ change_call_of (length s.now) (fields_left s.now c) }
{
    let (u, d) = c.read(s)?;
    let (r, e) = d.read(s)?;
    let at = e.at;
    let end = e.end;
    if end < at {
        return None;
    }
    if !one_field(&s[at..end]) {
        return None;
    }
    Some(Call::On(Sheets::Two(TwoSheets::Change(u, r, at))))
}

// The number between a place and the last byte.
fn number_from(s: &[u8], at: usize) -> Option<u32>
    requires { at + 1 ≤ length s.now }
    ensures { result ≡ numeral_of (take (length s.now - 1 - at) (drop at s.now)) }
{
    let end = s.len() - 1;
    numeral(&s[at..end])
}

// A sweep of a clause sheet.
fn bound_call(s: &[u8]) -> Option<Call>
    requires { 20 ≤ length s.now }
    ensures { result ≡ with_number (numeral_of (values bound_start s.now))
        sweep_call }
{
    let k = number_from(s, 19)?;
    Some(Call::On(Sheets::One(OneSheet::ClausesSweep(k))))
}

// Trees as shown to a user.
fn show_call(s: &[u8]) -> Option<Call>
    requires { 16 ≤ length s.now }
    ensures { result ≡ with_number (numeral_of (values show_start s.now))
        show_call_of }
{
    let u = number_from(s, 15)?;
    Some(Call::On(Sheets::Two(TwoSheets::Show(u))))
}

// The test at every length.
fn always_call(s: &[u8]) -> Option<Call>
    ensures { result ≡ always_call s.now }
{
    if s == b"call\nalways\n".as_slice() {
        return Some(Call::Always);
    }
    if s == b"call\nclauses-always\n".as_slice() {
        return Some(Call::ClausesAlways);
    }
    None
}

// A call with numbers, or the test at every length.
fn numbered_call(s: &[u8]) -> Option<Call>
    ensures { result ≡ numbered_call s.now }
{
    if begins(s, b"call bound\nclauses ") {
        return bound_call(s);
    }
    if begins(s, b"call user\nshow ") {
        return show_call(s);
    }
    if begins(s, b"call length racks share\nshare ") {
        let end = s.len() - 1;
        return share_call(s, Cursor { at: 30, end });
    }
    if begins(s, b"call user rule lay\nchange ") {
        let end = s.len() - 1;
        return change_call(s, Cursor { at: 26, end });
    }
    always_call(s)
}

// The call that a call sheet names, if it is so written.
pub fn call_of(s: &[u8]) -> Option<Call>
    ensures { result ≡ call_of s.now }
{
    if s == b"call\nclauses\n".as_slice() {
        return Some(Call::On(Sheets::Two(TwoSheets::Clauses)));
    }
    if s == b"call\nexpand\n".as_slice() {
        return Some(Call::On(Sheets::One(OneSheet::Expand)));
    }
    if s == b"call\nrows\n".as_slice() {
        return Some(Call::On(Sheets::Two(TwoSheets::Rows)));
    }
    if s == b"call\ncolumns\n".as_slice() {
        return Some(Call::On(Sheets::Two(TwoSheets::Columns)));
    }
    if s == b"call\nplaces\n".as_slice() {
        return Some(Call::On(Sheets::Two(TwoSheets::Places)));
    }
    if s == b"call\nmerge\n".as_slice() {
        return Some(Call::On(Sheets::Two(TwoSheets::Merge)));
    }
    numbered_call(s)
}
