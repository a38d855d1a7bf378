// The rights sheet: what a user may see and what a user may change, as sets of nonterminals; or
// refusal 50 with its line.
#![tactic(auto)]

ghost use Rattle.std.specs.Prelude.{◌≡◌, ◌&&◌, ◌||◌, ℕ, ◌≤◌, ◌<◌, length, leb, ltb};
ghost use Rattle.rights.specs.RightLines.{right_of_of, right_fields, last_of, may_of};
ghost use Rattle.rights.specs.RightSheets.{right_line_step, items_of, rights_sheet, covers};
ghost use Rattle.sheets.specs.Promises.{as_step};
ghost use Rattle.rights.specs.Answers.{RightsGiven};
ghost use Rattle.fields.specs.Cursors.{bytes_left, fields_left, pieces_from};
ghost use Rattle.tree_view.specs.Members.{member};

use fields::Cursor;
use lines::{Turn, turn_at};
use sets::with;
use sheets::{Fault, Refusal, behind_names};

// A line of a rights sheet: its user, its range of nonterminals, and whether it says `change`,
// which includes seeing.
#[derive(Clone, Copy)]
pub struct Right {
    pub user: u8,
    pub low: u8,
    pub high: u8,
    pub change: bool,
}

// What the sheet gives a user: the sets of nonterminals that the user may see and may change.
#[derive(Clone, Copy)]
pub struct Granted {
    pub sees: u64,
    pub changes: u64,
}

// The last field of a line, `see` or `change`: does it say change?
fn may_at(s: &[u8], c: Cursor) -> Option<bool>
    requires { c.end ≤ length s.now }
    ensures { result ≡ last_of may_of (fields_left s.now c) }
{
    let at = c.at;
    let end = c.end;
    if end < at {
        return None;
    }
    let f = &s[at..end];
    if f == b"see".as_slice() {
        return Some(false);
    }
    if f == b"change".as_slice() {
        return Some(true);
    }
    None
}

// User 0 to 15, a range of nonterminals 0 to 63 that is not reversed.
fn right_of(u: u32, low: u32, high: u32, change: bool) -> Option<Right>
    ensures { result ≡ right_of_of u low high change }
{
    if 15 < u || 63 < high || high < low {
        return None;
    }
    Some(Right {
        user: u as u8,
        low: low as u8,
        high: high as u8,
        change,
    })
}

// The fields from a cursor on as those of a rights line; none, if it is not so written.
fn right_line(s: &[u8], c: Cursor) -> Option<Right>
    requires { c.end ≤ length s.now }
    ensures { result ≡ right_fields (fields_left s.now c) }
{
    let (u, low, high, d) = c.three(s)?;
    let change = may_at(s, d)?;
    right_of(u, low, high, change)
}

// What the cursor's line gives: one more right, refusal 50, or the sheet's end.
fn right_step(s: &[u8], c: Cursor) -> Result<Option<Right>, Fault>
    requires { (c.at ≤ c.end) × (c.end ≤ length s.now) }
    ensures { as_step result ≡ right_line_step (bytes_left s.now c)
        (ltb c.end (length s.now)) }
{
    match turn_at(s, c, 0, 1) {
        Turn::End => Ok(None),
        Turn::Many => Err(Fault::Rights),
        Turn::Open => Err(Fault::Rights),
        Turn::Whole => match right_line(s, c) {
            Some(r) => Ok(Some(r)),
            None => Err(Fault::Rights),
        },
    }
}

// The set with the numbers of a range besides.
fn with_range(set: u64, low: u8, high: u8) -> u64
    requires { (low ≤ high) × (high < 64) }
    ensures { (A : ℕ) → member result A ≡ (member set A || (leb low A && leb A high)) }
{
    let mut out = set;
    for i in low..=high {
        out = with(out, i);
    }
    out
}

// The set with what a line gives the user besides.
fn with_right(set: u64, r: Right, user: usize) -> u64
    requires { (r.low ≤ r.high) × (r.high < 64) }
    ensures { (A : ℕ) → member result A ≡ (member set A || covers r user A) }
{
    if r.user as usize == user {
        return with_range(set, r.low, r.high);
    }
    set
}

// The same where the line says `change`.
fn with_change(set: u64, r: Right, user: usize) -> u64
    requires { (r.low ≤ r.high) × (r.high < 64) }
    ensures { (A : ℕ) → member result A ≡ (member set A || (r.change && covers r user A)) }
{
    if r.change {
        return with_right(set, r, user);
    }
    set
}

// The rights lines from a place on.
fn rights_from(s: &[u8], start: usize, user: usize) -> Result<Granted, Refusal>
    requires { (2 ≤ start) × (start ≤ length s.now) }
    ensures { RightsGiven (items_of (pieces_from 10 s.now start)) user result }
{
    let mut sees: u64 = 0;
    let mut changes: u64 = 0;
    let mut n: usize = 0;
    let mut at = start;
    // Kept: no range counts the turns, since a line's end alone says where the next begins.
    loop {
        let c = Cursor::line(s, at);
        match right_step(s, c) {
            Ok(Some(r)) => {
                sees = with_right(sees, r, user);
                changes = with_change(changes, r, user);
                n += 1;
                at = c.end + 1;
            }
            Ok(None) => {
                return Ok(Granted { sees, changes });
            }
            Err(fault) => {
                return Err(Refusal { fault, line: n + 2 });
            }
        }
    }
}

// The rights sheet: what it lets the user see and change, or refusal 50 with its line.
pub fn read_rights(s: &[u8], user: usize) -> Result<Granted, Refusal>
    ensures { RightsGiven (rights_sheet s.now) user result }
{
    match behind_names(s, b"user low high may") {
        Some(at) => rights_from(s, at, user),
        None => Err(Refusal {
            fault: Fault::Rights,
            line: 1,
        }),
    }
}
