// Answers each case of standard input and writes the outputs one after the other. A case is a
// letter and what it asks for. `c`, `w` and `a`: an input of the program `check`, `sweep` or
// `calls`.
// `t`: a bound in five digits and a rule sheet, for the number of candidates that the sweep tries.
// The other letters ask for a call itself, with sheets that no input of `calls` can hold: `k`
// clauses, `s` show, `m` change; `l` is for the refused line of a clause sheet and a token sheet,
// which the program does not write.
#![tactic(auto)]

ghost use Rattle.std.specs.Prelude.{◌≡◌, ◌≤◌, length, IfOk, OnErr};

use call_clauses::refused_line;
use calling::calls_text;
use cases::{five, next_case};
use check_text::check_text;
use clause_text::clauses_text;
use rights_text::{change_text, show_text};
use std::io;
use std::io::Read;
use sweep_text::sweep_text;
use teplonga::sweep;
use text::OUTPUT;

// Writes how many candidates are tried.
fn write_tried<R: Print>(rt: &R, asked: &[u8]) -> io::Result<()> {
    let Some((bound, rules)) = asked.split_at_checked(5) else {
        return Ok(());
    };
    let mut words = [0u64; 58];
    let tried = match sweep(rules, five(bound, 0), &mut words) {
        Ok(s) => s.tried,
        Err(_) => 0,
    };
    rt.println(tried)
}

// Writes the length of the refused line, and the line.
fn write_line<'a, R: Print>(rt: &R, clauses: &'a [u8], tokens: &'a [u8]) -> io::Result<()> {
    let line = refused_line(clauses, tokens);
    rt.println(line.len())?;
    rt.write_all(line)?;
    rt.write_all(b"\n")
}

// What a case asks of a call: its letter, the user and the rule, and its three parts.
#[derive(Clone, Copy)]
struct Asked<'a> {
    kind: u8,
    user: u32,
    rule: u32,
    first: &'a [u8],
    second: &'a [u8],
    third: &'a [u8],
}

// The same from the case. In front of the parts stand the call's letter, the user, the rule and the
// lengths of the first two parts, five digits each.
fn read_asked<'a>(case: &'a [u8]) -> Option<Asked<'a>> {
    let (head, parts) = case.split_at_checked(26)?;
    let (first, behind) = parts.split_at_checked(five(head, 14))?;
    let (second, third) = behind.split_at_checked(five(head, 20))?;
    Some(Asked {
        kind: head[0],
        user: five(head, 2) as u32,
        rule: five(head, 8) as u32,
        first,
        second,
        third,
    })
}

// The output of a call on parts of the case, and its length.
fn parts<R: Print>(rt: &R, case: &[u8], out: &mut [u8]) -> io::Result<usize>
    requires { 262144 ≤ length out.old }
    ensures within { IfOk result (λ n. n ≤ length out.new) }
    ensures failed { OnErr result (out.new ≡ out.old) }
{
    let Some(a) = read_asked(case) else {
        return Ok(0);
    };
    match a.kind {
        b'k' => Ok(clauses_text(a.first, a.second, out)),
        b's' => Ok(show_text(a.first, a.second, a.third, a.user, out)),
        b'm' => Ok(change_text(a.first, a.second, a.user, a.rule, a.third, out)),
        b'l' => {
            write_line(rt, a.first, a.second)?;
            Ok(0)
        }
        _ => Ok(0),
    }
}

// The output of a case, and its length; 0 where it is written already.
fn output<R: Print>(rt: &R, case: &[u8], out: &mut [u8; OUTPUT]) -> io::Result<usize>
    ensures within { IfOk result (λ n. n ≤ length out.new) }
    ensures failed { OnErr result (out.new ≡ out.old) }
{
    let Some((kind, input)) = case.split_first() else {
        return Ok(0);
    };
    match *kind {
        b'c' => Ok(check_text(input, out)),
        b'w' => Ok(sweep_text(input, out)),
        b'a' => Ok(calls_text(input, out)),
        b't' => {
            write_tried(rt, input)?;
            Ok(0)
        }
        _ => parts(rt, case, out),
    }
}

// One case; whether there was one.
fn case<R: Print, I: Read>(rt: &R, from: &mut I) -> io::Result<bool> {
    let mut space = [0u8; 100000];
    let Some(n) = next_case(from, &mut space)? else {
        return Ok(false);
    };
    let mut out = [0u8; OUTPUT];
    let r = output(rt, &space[..n], &mut out)?;
    rt.write_all(&out[..r])?;
    Ok(true)
}

fn main(rt: HostRuntime) -> io::Result<()> {
    let mut input = rt.reader();
    for _ in 0..100000u32 {
        if !case(&rt, &mut input)? {
            return Ok(());
        }
    }
    Ok(())
}
