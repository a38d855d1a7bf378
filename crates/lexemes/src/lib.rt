// The lexemes of an expression: what stands at a place of its bytes.
#![tactic(auto)]

ghost use Rattle.std.specs.Prelude.{◌≡◌, ◌+◌, ◌≤◌, ◌<◌, length, drop};
ghost use Rattle.lexemes.specs.Lexemes.{starts, front_digits, items, lexeme as found};
ghost use Rattle.fields.specs.Words.{numeral_of};
ghost use Rattle.lexemes.specs.Answers.{lexeme_of, lexed_at, sign_at_of, standing, Numbers};
ghost use Rattle.lexemes.specs.Answers.{NumberAt, Lexes};

use grammar::{BinaryMark, UnaryMark};

// n4, t2, (, ), a bar between blanks, ?, + and +:align, * and *:align, :offside and the like, a
// blank or a binding between blanks; no bytes left; no lexeme.
#[derive(Clone, Copy)]
pub enum Lexeme {
    Nonterminal(u8),
    Terminal(u8),
    Open,
    Close,
    Bar,
    Maybe,
    Plus(BinaryMark),
    Star(BinaryMark),
    Marked(UnaryMark),
    Join(BinaryMark),
    End,
    Not,
}

// A lexeme and the place behind it.
#[derive(Clone, Copy)]
pub struct Lexed {
    pub lexeme: Lexeme,
    pub end: usize,
}

// Do the bytes p stand at a place?
fn starts_with(s: &[u8], at: usize, p: &[u8]) -> bool
    requires { at ≤ length s.now }
    ensures { result ≡ starts p.now (drop at s.now) }
{
    s[at..].starts_with(p)
}

// Where the digits from a place on end.
fn digits_end(s: &[u8], at: usize) -> usize
    requires { at ≤ length s.now }
    ensures { result ≡ at + length (front_digits (drop at s.now)) }
{
    for i in at..s.len() {
        if !s[i].is_ascii_digit() {
            return i;
        }
    }
    s.len()
}

// A number 0 to 63 as in rule sheets.
fn number(f: &[u8]) -> Option<u8>
    ensures { Numbers (numeral_of f.now) result }
{
    match fields::numeral(f) {
        Some(v) if v <= 63 => Some(v as u8),
        _ => None,
    }
}

// The number behind the letter at a place, and where it ends.
fn number_at(s: &[u8], at: usize) -> Option<(u8, usize)>
    requires { at < length s.now }
    ensures { NumberAt s.now at result }
{
    let from = at + 1;
    let e = digits_end(s, from);
    let v = number(&s[from..e])?;
    Some((v, e))
}

// n4, t2.
fn item_at(s: &[u8], at: usize) -> Option<Lexed>
    requires { at ≤ length s.now }
    ensures { result ≡ lexed_at at (items (drop at s.now)) }
{
    if starts_with(s, at, b"n") {
        let (v, end) = number_at(s, at)?;
        return Some(Lexed {
            lexeme: Lexeme::Nonterminal(v),
            end,
        });
    }
    if starts_with(s, at, b"t") {
        let (v, end) = number_at(s, at)?;
        return Some(Lexed {
            lexeme: Lexeme::Terminal(v),
            end,
        });
    }
    None
}

// The bytes of the sign p, 0 if it does not stand at a place.
fn stands(s: &[u8], at: usize, p: &[u8]) -> usize
    requires { at ≤ length s.now }
    ensures { result ≡ standing p.now (drop at s.now) }
{
    if starts_with(s, at, p) {
        return p.len();
    }
    0
}

// The bytes of the sign with the number i, 0 if it does not stand at a place.
fn sign_stands(s: &[u8], at: usize, i: usize) -> usize
    requires { (at ≤ length s.now) × (i < 14) }
    ensures { result ≡ standing (sign_at_of i).bytes (drop at s.now) }
{
    match i {
        0 => stands(s, at, b"("),
        1 => stands(s, at, b")"),
        2 => stands(s, at, b" | "),
        3 => stands(s, at, b" :align: "),
        4 => stands(s, at, b" :indent: "),
        5 => stands(s, at, b" "),
        6 => stands(s, at, b"?"),
        7 => stands(s, at, b"+:align"),
        8 => stands(s, at, b"+"),
        9 => stands(s, at, b"*:align"),
        10 => stands(s, at, b"*"),
        11 => stands(s, at, b":offside"),
        12 => stands(s, at, b":offalign"),
        _ => stands(s, at, b":single"),
    }
}

// The lexeme of the sign with the number i.
fn sign(i: usize) -> Lexeme
    requires { i < 14 }
    ensures { result ≡ lexeme_of (sign_at_of i).lex }
{
    match i {
        0 => Lexeme::Open,
        1 => Lexeme::Close,
        2 => Lexeme::Bar,
        3 => Lexeme::Join(BinaryMark::Align),
        4 => Lexeme::Join(BinaryMark::Indent),
        5 => Lexeme::Join(BinaryMark::None),
        6 => Lexeme::Maybe,
        7 => Lexeme::Plus(BinaryMark::Align),
        8 => Lexeme::Plus(BinaryMark::None),
        9 => Lexeme::Star(BinaryMark::Align),
        10 => Lexeme::Star(BinaryMark::None),
        11 => Lexeme::Marked(UnaryMark::Offside),
        12 => Lexeme::Marked(UnaryMark::Offalign),
        _ => Lexeme::Marked(UnaryMark::Single),
    }
}

// The first of the signs that stands at a place, or an item.
fn sign_at(s: &[u8], at: usize) -> Option<Lexed>
    requires { at ≤ length s.now }
    ensures { result ≡ lexed_at at (found (drop at s.now)) }
{
    for i in 0..14 {
        let k = sign_stands(s, at, i);
        if 0 < k {
            return Some(Lexed {
                lexeme: sign(i),
                end: at + k,
            });
        }
    }
    item_at(s, at)
}

// The lexeme at a place of an expression's bytes.
pub fn lexeme_at(s: &[u8], at: usize) -> Lexed
    requires { at ≤ length s.now }
    ensures { Lexes s.now at result }
{
    if at == s.len() {
        return Lexed {
            lexeme: Lexeme::End,
            end: at,
        };
    }
    sign_at(s, at).unwrap_or(Lexed {
        lexeme: Lexeme::Not,
        end: at,
    })
}
