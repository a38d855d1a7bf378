// Reports of shares as texts: read as `share` prints them, and two of them merged.
#![tactic(auto)]

ghost use Rattle.std.specs.Prelude.{◌≡◌, ◌≤◌, length, drop};
ghost use Rattle.sets.specs.Says.{Says};
ghost use Rattle.text.specs.Printed.{Printed};
ghost use Rattle.reports.specs.Reports.{MergeText};
ghost use Rattle.reports.specs.Rests.{TokenAt, Lines, PairAt, ClearRest, TwoTold, OfFault};
ghost use Rattle.reports.specs.Rests.{RefusedRest, TellsOf, less};

use printing::put_bytes;
use scanning::{number_at, starts_at};
use text::put_refusal;

// What a report tells: a refusal; a sentence, by its number of tokens and its own number; or that
// none was found. Of two reports the least is the merged one.
#[derive(Clone, Copy, PartialEq, Eq, PartialOrd, Ord)]
pub enum Told {
    Refused,
    Found(usize, u64),
    Clear,
}

// The place behind the token line at a place.
fn token_end(s: &[u8], at: usize) -> Option<usize>
    requires { at ≤ length s.now }
    ensures { TokenAt s.now at result }
{
    let (_, a) = number_at(s, at, 63, b' ')?;
    let (_, b) = number_at(s, a, 65535, b' ')?;
    let (_, c) = number_at(s, b, 65535, b'\n')?;
    Some(c)
}

// How many token lines there are from a place to the end, 1 to 7, if there is nothing else.
fn token_count(s: &[u8], at: usize) -> Option<usize>
    requires { at ≤ length s.now }
    ensures { Lines (drop at s.now) result }
{
    let mut end = at;
    for n in 0..7 {
        end = token_end(s, end)?;
        if end == s.len() {
            return Some(n + 1);
        }
    }
    None
}

// The place behind two numbers that each have a blank behind them.
fn pair_end(s: &[u8], at: usize) -> Option<usize>
    requires { at ≤ length s.now }
    ensures { PairAt s.now at result }
{
    let (_, a) = number_at(s, at, 4294967296, b' ')?;
    let (_, b) = number_at(s, a, 4294967296, b' ')?;
    Some(b)
}

// Do just these bytes stand from the place on?
fn ends_with(s: &[u8], at: usize, bytes: &[u8]) -> bool
    requires { at ≤ length s.now }
    ensures { Says result (drop at s.now ≡ bytes.now) }
{
    &s[at..] == bytes
}

// Is this what follows the names in a clear report?
fn clear_rest(s: &[u8], at: usize) -> bool
    requires { at ≤ length s.now }
    ensures { Says result (ClearRest (drop at s.now)) }
{
    let Some(a) = pair_end(s, at) else {
        return false;
    };
    ends_with(s, a, b"-\n")
}

// What is told by what follows the names in a report with a sentence.
fn two_rest(s: &[u8], at: usize) -> Option<Told>
    requires { at ≤ length s.now }
    ensures { TwoTold (drop at s.now) result }
{
    let a = pair_end(s, at)?;
    let (number, b) = number_at(s, a, 4294967296, b'\n')?;
    if !starts_at(s, b, b"term line col\n") {
        return None;
    }
    let n = token_count(s, b + 14)?;
    Some(Told::Found(n, number))
}

// Is it the number of a refusal?
fn of_fault(n: u64) -> bool
    ensures { Says result (OfFault n) }
{
    match n {
        1..=7 | 11..=15 | 21..=24 | 41..=51 => true,
        _ => false,
    }
}

// Is this what follows `refused-`?
fn refused_rest(s: &[u8], at: usize) -> bool
    requires { at ≤ length s.now }
    ensures { Says result (RefusedRest (drop at s.now)) }
{
    let Some((n, a)) = number_at(s, at, 51, b' ') else {
        return false;
    };
    if !of_fault(n) {
        return false;
    }
    let Some((_, b)) = number_at(s, a, 4294967296, b'\n') else {
        return false;
    };
    if b == s.len() { true } else { false }
}

// What a text tells, if it is a report.
fn report(s: &[u8]) -> Option<Told>
    ensures { TellsOf s.now result }
{
    if starts_at(s, 0, b"answer line\nclear 0\nquotient remainder number\n") {
        return clear_rest(s, 46).then_some(Told::Clear);
    }
    if starts_at(s, 0, b"answer line\ntwo 0\nquotient remainder number\n") {
        return two_rest(s, 44);
    }
    if starts_at(s, 0, b"answer line\nrefused-") {
        return refused_rest(s, 20).then_some(Told::Refused);
    }
    None
}

// Does a report that tells the one go before a report that tells the other?
fn leads(a: Told, b: Told) -> bool
    ensures { result ≡ less a b }
{
    a < b
}

// The whole output of the call `merge` on two reports; its length.
pub fn merge_text(one: &[u8], two: &[u8], out: &mut [u8]) -> usize
    requires { 262144 ≤ length out.old }
    ensures { Printed (MergeText one.now) two.now out.old
        out.new result }
{
    let (Some(a), Some(b)) = (report(one), report(two)) else {
        return put_refusal(out, 32);
    };
    let merged = if leads(b, a) { two } else { one };
    put_bytes(out, 0, merged)
}
