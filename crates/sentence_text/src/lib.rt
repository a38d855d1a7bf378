// The token sheet of a sentence that a call found, put into a lent buffer.
#![tactic(auto)]

ghost use Rattle.std.specs.Prelude.{◌+◌, ◌*◌, ◌≤◌, length};
ghost use Rattle.printing.specs.Printing.{Wrote, token_text_of, token_lines};
ghost use Rattle.text.specs.Output.{sentence_text};
ghost use Rattle.grammar.specs.Sentences.{spelled};

use grammar::{Sentence, Token};
use printing::{put_bytes, put_ended};
use sheets::Answer;

// A token line.
fn put_token(out: &mut [u8], at: usize, t: Token) -> usize
    requires { at + 18 ≤ length out.old }
    ensures wrote { Wrote out.old out.new at (token_text_of t) result }
    ensures upper_bound { result ≤ at + 18 }
{
    let a = put_ended(out, at, t.terminal as u32, 32);
    let b = put_ended(out, a, t.line.0 as u32, 32);
    put_ended(out, b, t.column.0 as u32, 10)
}

// The token lines of a sentence.
fn put_tokens(out: &mut [u8], at: usize, s: Sentence) -> usize
    requires count_bound { s.count ≤ 64 }
    requires count_in_bounds { at + 18 * s.count ≤ length out.old }
    ensures wrote { Wrote out.old out.new at (token_lines (spelled s)) result }
    ensures upper_bound { result ≤ at + 18 * s.count }
{
    let mut next = at;
    for t in &s.tokens[..s.count] {
        next = put_token(out, next, *t);
    }
    next
}

// The token sheet of a found sentence, where there is one.
pub fn put_sentence(out: &mut [u8], at: usize, a: Answer, s: Sentence) -> usize
    requires count_bound { s.count ≤ 64 }
    requires count_in_bounds { at + 14 + 18 * s.count ≤ length out.old }
    ensures { Wrote out.old out.new at (sentence_text a (spelled s))
        result }
{
    match a {
        Answer::None => at,
        Answer::One => at,
        Answer::Two => {
            let next = put_bytes(out, at, b"term line col\n");
            put_tokens(out, next, s)
        }
        Answer::Clear => at,
        Answer::Given => at,
        Answer::Refused(_) => at,
    }
}
