// The public call for one share of a sweep that is divided among racks, and the merging of their
// reports (docs/FORMAT.md, "Calls and lent memory").
#![tactic(auto)]

ghost use Rattle.std.specs.Prelude.{◌≡◌};
ghost use Rattle.grammar.specs.Content.{rules_of, Formed};
ghost use Rattle.sets.specs.Says.{Says};
ghost use Rattle.call_shares.specs.Merge.{Leads, Merged};
ghost use Rattle.call_shares.specs.Inner.{found_count};
ghost use Rattle.call_shares.specs.Share.{Length, ShareTaken, ShareOn, ShareOf};

use arrangement_numbers::{all_numbers, begins_at};
use candidates::{terminal_count, terminals, within_limit};
use grammar::{Grammar, Sentence};
use share_search::share_rules;
use sheets::{Fault, Refusal, read_rules};
use spans::size;

// The lowest number, M ÷ p and its remainder, and the sentence that can be read in two ways, or
// none:
// clear, with the number 0.
#[derive(Clone, Copy)]
pub struct Report {
    pub number: u64,
    pub quotient: u64,
    pub remainder: u64,
    pub sentence: Option<Sentence>,
}

// An accepted share: its numbers, and what is found among them.
fn taken(g: Grammar, n: usize, p: usize, i: usize, words: &mut [u64]) -> Result<Report, Refusal>
    requires formed { Formed g }
    requires share_taken { ShareTaken (rules_of g) n p i words.old }
    ensures { ShareOn (rules_of g) n p i words.old words.new result }
{
    let set = terminals(g);
    let m = all_numbers(set, n);
    let start = begins_at(m, p as u64, i as u64);
    let end = begins_at(m, p as u64, i as u64 + 1);
    let quotient = m / (p as u64);
    let remainder = m % (p as u64);
    match share_rules(g, n, start, end, words) {
        None => Ok(Report {
            number: 0,
            quotient,
            remainder,
            sentence: None,
        }),
        Some(found) => Ok(Report {
            number: found.number,
            quotient,
            remainder,
            sentence: Some(found.sentence),
        }),
    }
}

// A share of a length that is taken on: 45, 46, 21, else its answer.
fn divided(g: Grammar, n: usize, p: usize, i: usize, words: &mut [u64]) -> Result<Report, Refusal>
    requires formed { Formed g }
    requires length { Length (rules_of g) n }
    ensures { ShareOn (rules_of g) n p i words.old words.new result }
{
    if p == 0 {
        return Err(Fault::BadRacks.into());
    }
    if 64 < p {
        return Err(Fault::BadRacks.into());
    }
    if p <= i {
        return Err(Fault::BadShare.into());
    }
    if words.len() < size(n) {
        return Err(Fault::FewWords.into());
    }
    taken(g, n, p, i, words)
}

// A share on rules that were read: 23, 24, else the share.
fn judged(g: Grammar, n: usize, p: usize, i: usize, words: &mut [u64]) -> Result<Report, Refusal>
    requires { Formed g }
    ensures { ShareOn (rules_of g) n p i words.old words.new result }
{
    if n == 0 {
        return Err(Fault::BadBound.into());
    }
    if 7 < n {
        return Err(Fault::BadBound.into());
    }
    let t = terminal_count(terminals(g));
    if !within_limit(t, n as u64) {
        return Err(Fault::ManyCandidates.into());
    }
    divided(g, n, p, i, words)
}

// The lowest number of share `share` of `racks` whose arrangement of `length` tokens rises and can
// be read in two ways, or clear.
pub fn share(
    rules: &[u8],
    length: usize,
    racks: usize,
    share: usize,
    words: &mut [u64],
) -> Result<Report, Refusal>
    ensures { ShareOf rules.now length racks share words.old
        words.new result }
{
    let book = read_rules(rules)?;
    judged(book.grammar, length, racks, share, words)
}

// Does a report of n tokens and a number come before one of m tokens and another number? One of no
// tokens is clear.
pub fn leads(n: usize, number: u64, m: usize, other: u64) -> bool
    ensures { Says result (Leads n number m other) }
{
    if n == 0 {
        return false;
    }
    if m == 0 {
        return true;
    }
    if n == m {
        return number < other;
    }
    n < m
}

// How many tokens a report's sentence has, 0 where there is none.
fn found_count(s: Option<Sentence>) -> usize
    ensures { result ≡ found_count s }
{
    match s {
        Some(s) => s.count,
        None => 0,
    }
}

// Two reports of shares merged: a refusal, else the one with the lower number of the shorter
// length. Merged one by one, the reports of all shares of the lengths 1 to k come to the sweep's
// answer.
pub fn merge(a: Result<Report, Refusal>, b: Result<Report, Refusal>) -> Result<Report, Refusal>
    ensures { Merged a b result }
{
    let x = a?;
    let y = b?;
    let n = found_count(x.sentence);
    let m = found_count(y.sentence);
    if leads(m, y.number, n, x.number) {
        return b;
    }
    a
}
