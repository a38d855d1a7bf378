// Reads pairs of sheets from standard input and writes what the readers make of each pair. A pair
// is a header of 12 bytes (five digits: the rule sheet's length; a blank; five digits: the token
// sheet's length; byte 10), the rule sheet and the token sheet.
#![tactic(auto)]

ghost use Rattle.std.specs.Prelude.{◌+◌, ◌≤◌, length, IfSome};

use cases::five;
use grammar::{BinaryMark, Clause, Grammar, Rule, Sentence, Token, UnaryMark};
use sheets::{Refusal, read_rules, read_tokens};
use std::io;
use streams::read_full;

fn unary_name(m: UnaryMark) -> &'static str {
    match m {
        UnaryMark::None => "none",
        UnaryMark::Offside => "offside",
        UnaryMark::Offalign => "offalign",
        UnaryMark::Single => "single",
    }
}

fn binary_name(m: BinaryMark) -> &'static str {
    match m {
        BinaryMark::None => "none",
        BinaryMark::Align => "align",
        BinaryMark::Indent => "indent",
    }
}

// A rule as a line of a rule sheet.
fn put_rule<R: Print>(rt: &R, r: Rule) -> io::Result<()> {
    let left = r.left;
    match r.clause {
        Clause::Empty => println!(rt; "{left} E - - none"),
        Clause::Atom(a, b) if a == b => println!(rt; "{left} A {a} - none"),
        Clause::Atom(a, b) => println!(rt; "{left} A {a} {b} none"),
        Clause::Unary(a, m) => {
            let mark = unary_name(m);
            println!(rt; "{left} U {a} - {mark}")
        }
        Clause::Binary(a, b, m) => {
            let mark = binary_name(m);
            println!(rt; "{left} B {a} {b} {mark}")
        }
    }
}

// A token as a line of a token sheet with widths.
fn put_token<R: Print>(rt: &R, t: Token) -> io::Result<()> {
    let terminal = t.terminal;
    let line = t.line.0;
    let column = t.column.0;
    let width = t.width.0;
    println!(rt; "{terminal} {line} {column} {width}")
}

// The line of a refused sheet: the refusal, and the line that it names.
fn put_refused<R: Print>(rt: &R, sheet: &str, e: Refusal) -> io::Result<()> {
    let number = u64::from(e.fault);
    let line = e.line;
    println!(rt; "{sheet} refused-{number} {line}")
}

// The rules of an accepted sheet, with their number in front.
fn put_rules<R: Print>(rt: &R, g: Grammar) -> io::Result<()> {
    let count = g.count;
    println!(rt; "rules accepted {count}")?;
    for r in g.rules.iter().take(count) {
        put_rule(rt, *r)?;
    }
    Ok(())
}

// The tokens of an accepted sheet, with their number in front.
fn put_tokens<R: Print>(rt: &R, s: Sentence) -> io::Result<()> {
    let count = s.count;
    println!(rt; "tokens accepted {count}")?;
    for t in s.tokens.iter().take(count) {
        put_token(rt, *t)?;
    }
    Ok(())
}

// What the readers make of a pair.
fn show<'a, R: Print>(rt: &R, rules: &'a [u8], tokens: &'a [u8]) -> io::Result<()> {
    match read_rules(rules) {
        Ok(book) => put_rules(rt, book.grammar)?,
        Err(e) => put_refused(rt, "rules", e)?,
    }
    match read_tokens(tokens) {
        Ok(s) => put_tokens(rt, s)?,
        Err(e) => put_refused(rt, "tokens", e)?,
    }
    let line = teplonga::refused_line(rules, tokens);
    let length = line.len();
    println!(rt; "line {length}")?;
    rt.write_all(line)?;
    rt.write_all(b"\n")
}

// The two sheets of a pair, and what stands behind them.
#[derive(Clone, Copy)]
struct Pair<'a> {
    rules: &'a [u8],
    tokens: &'a [u8],
    rest: &'a [u8],
}

// The pair at the front, if a whole one stands there.
fn first_pair<'a>(s: &'a [u8]) -> Option<Pair<'a>>
    ensures { IfSome result (λ p. length p.rest.now + 12 ≤ length s.now) }
{
    let (head, sheets) = s.split_at_checked(12)?;
    let (rules, behind) = sheets.split_at_checked(five(head, 0))?;
    let (tokens, rest) = behind.split_at_checked(five(head, 6))?;
    Some(Pair {
        rules,
        tokens,
        rest,
    })
}

// Every pair, one after the other.
fn pairs<R: Print>(rt: &R, s: &[u8]) -> io::Result<()> {
    let mut rest = s;
    while let Some(p) = first_pair(rest) {
        show(rt, p.rules, p.tokens)?;
        rest = p.rest;
    }
    Ok(())
}

fn main(rt: HostRuntime) -> io::Result<()> {
    let mut space = [0u8; 65536];
    let n = read_full(&mut rt.reader(), &mut space)?;
    pairs(&rt, &space[..n])
}
