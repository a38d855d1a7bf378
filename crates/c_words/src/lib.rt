// Answers, numbers, row counts and sentences as numbers and put into lent words.
#![tactic(auto)]

ghost use Rattle.std.specs.Prelude.{◌≡◌, [], ◌∷◌, ◌+◌, ◌≤◌, ◌<◌, length, take};
ghost use Rattle.grammar.specs.Layout.{line as line_of, col};
ghost use Rattle.printing.specs.Printing.{Wrote};
ghost use Rattle.sheets.specs.declared.Answer.TheVariants as Answer;
ghost use Rattle.c_words.specs.Codes.{code_of, with_line_of, packed, test_packed};
ghost use Rattle.c_words.specs.Words.{token_words, sentence_words, found_words, AtFront};
ghost use Rattle.c_words.specs.Words.{count_word, count_words, share_words};
ghost use Rattle.c_words.specs.Words.{flag_words};

use call_always::Told;
use column_search::Flags;
use grammar::{Sentence, Token};
use sheets::{Answer, Fault, Refusal};

// The code of an answer.
fn code(a: Answer) -> u64
    ensures value { result ≡ code_of a }
    ensures upper_bound { result < 200 }
{
    match a {
        Answer::None => 0,
        Answer::One => 1,
        Answer::Two => 2,
        Answer::Clear => 3,
        Answer::Given => 4,
        Answer::Refused(f) => 100 + u64::from(f),
    }
}

// A code and a line as one number.
fn with_line(code: u64, line: usize) -> u64
    requires { code < 200 }
    ensures { result ≡ with_line_of code line }
{
    let high = code * 4294967296;
    if line < 4294967295 {
        return high + line as u64;
    }
    high + 4294967295
}

// An answer and its line as one number.
pub fn pack(a: Answer, line: usize) -> u64
    ensures { result ≡ packed a line }
{
    with_line(code(a), line)
}

// A refusal and its line as one number.
pub fn pack_refusal(e: Refusal) -> u64
    ensures { result ≡ packed (Answer.Refused e.fault) e.line }
{
    pack(Answer::Refused(e.fault), e.line)
}

// What the test at every length tells and its line as one number.
pub fn pack_told(t: Result<Told, Fault>, line: usize) -> u64
    ensures { result ≡ test_packed t line }
{
    match t {
        Ok(Told::Clear) => with_line(3, line),
        Ok(Told::Unknown(_)) => with_line(5, line),
        Err(f) => pack(Answer::Refused(f), line),
    }
}

// A row count as a number: 4,294,967,296 where there are more than 4,294,967,295 rows.
// Kept: a number for more, as the C interface hands it over (`count_word`).
pub fn count(c: Option<u32>) -> usize
    ensures { result ≡ count_word c }
{
    match c {
        Some(n) => n as usize,
        None => 4294967296,
    }
}

// One word at a place; the place after it.
pub fn put_word(found: &mut [u64], at: usize, v: u64) -> usize
    requires { at < length found.old }
    ensures { Wrote found.old found.new at (v ∷ []) result }
{
    found[at] = v;
    at + 1
}

// A token's terminal, line and column.
fn put_token(found: &mut [u64], at: usize, t: Token) -> usize
    requires { at + 3 ≤ length found.old }
    ensures { Wrote found.old found.new at
        (t.terminal ∷ line_of t ∷ col t ∷ []) result }
{
    let a = put_word(found, at, t.terminal as u64);
    let b = put_word(found, a, t.line.0 as u64);
    put_word(found, b, t.column.0 as u64)
}

// The places of a sentence's first seven tokens.
fn put_tokens(found: &mut [u64], at: usize, s: Sentence) -> usize
    requires { at + 21 ≤ length found.old }
    ensures { Wrote found.old found.new at
        (token_words (take 7 s.tokens)) result }
{
    let mut next = at;
    for t in &s.tokens[..7] {
        next = put_token(found, next, *t);
    }
    next
}

// A sentence's length and the places of its first seven tokens.
pub fn put_sentence(found: &mut [u64], s: Sentence) -> usize
    requires { 22 ≤ length found.old }
    ensures { Wrote found.old found.new 0 (sentence_words s) result }
{
    let next = put_word(found, 0, s.count as u64);
    put_tokens(found, next, s)
}

// The sentence and the number of candidates tried, where the lent words are enough for them.
pub fn put_found(found: &mut [u64], s: Sentence, tried: u64)
    ensures { AtFront 23 (found_words s tried) found.old found.new }
{
    if 23 <= found.len() {
        let next = put_sentence(found, s);
        put_word(found, next, tried);
    }
}

// Words at the front of the lent ones, where these are enough.
fn put_front<const N: usize>(lent: &mut [u64], words: [u64; N])
    ensures { AtFront N words.entry lent.old lent.new }
{
    if N <= lent.len() {
        lent[..N].copy_from_slice(&words);
    }
}

// A number, where there is a lent word for it.
pub fn put_one(lent: &mut [u64], n: usize)
    ensures { AtFront 1 (n ∷ []) lent.old lent.new }
{
    put_front(lent, [n as u64]);
}

// The row counts of both trees, where the lent words are enough for them.
pub fn put_counts(counts: &mut [u64], first: usize, second: usize)
    ensures { AtFront 2 (count_words first second) counts.old
        counts.new }
{
    put_front(counts, [first as u64, second as u64]);
}

// The sentence, where the lent words are enough for it.
pub fn put_found_sentence(found: &mut [u64], s: Sentence)
    ensures { AtFront 22 (sentence_words s) found.old found.new }
{
    if 22 <= found.len() {
        put_sentence(found, s);
    }
}

// The lowest number, M ÷ p and its remainder, where the lent words are enough for them.
pub fn put_numbers(numbers: &mut [u64], number: u64, quotient: u64, remainder: u64)
    ensures { AtFront 3 (share_words number quotient remainder) numbers.old
        numbers.new }
{
    put_front(numbers, [number, quotient, remainder]);
}

// The three flags, 1 for yes and 0 for no, where the lent words are enough for them.
pub fn put_flags(found: &mut [u64], f: Flags)
    ensures { AtFront 3 (flag_words f) found.old found.new }
{
    put_front(found, [f.none.into(), f.one.into(), f.two.into()]);
}
