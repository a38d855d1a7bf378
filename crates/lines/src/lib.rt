// What a line of a rule sheet and a line of a token sheet say by themselves: the rule or the token,
// or what is wrong with it.
#![tactic(auto)]

ghost use Rattle.std.specs.Prelude.{◌≡◌, true, ◌≤◌, length, ltb};
ghost use Rattle.lines.specs.Turns.{turn_of};
ghost use Rattle.lines.specs.Keys.{unary_key, key_of, meets, same_key_of};
ghost use Rattle.lines.specs.RuleLines.{shape, plain_rule, atom_rule, unary_rule};
ghost use Rattle.lines.specs.RuleLines.{binary_rule, lay_rule, rule_of_of, rule_fields};
ghost use Rattle.lines.specs.TokenLines.{sized_of, token_of, after_width, after_column};
ghost use Rattle.lines.specs.TokenLines.{token_fields};
ghost use Rattle.fields.specs.Cursors.{bytes_left, fields_left};

use fields::{Cursor, Kind, Lay, Operand};
use grammar::{BinaryMark, Clause, Column, Line, Rule, Token, UnaryMark, Width, past};

// What is wrong with a rule line: the first of the conditions 2, 3, 4, 44 that holds of it.
#[derive(Clone, Copy)]
pub enum RuleFault {
    Form,
    Range,
    Unfit,
    Reversed,
}

// What is wrong with a token line: the first of the conditions 12, 13, 47 that holds of it.
#[derive(Clone, Copy)]
pub enum TokenFault {
    Form,
    Range,
    Width,
}

// What a line is before its fields are looked at: the sheet's end, one too many, not ended, or a
// whole line.
#[derive(Clone, Copy)]
pub enum Turn {
    End,
    Many,
    Open,
    Whole,
}

// What refusal 5 compares: left, kind, first and second, not the lay.
#[derive(Clone, Copy, PartialEq, Eq)]
pub struct Key {
    pub left: u8,
    pub kind: Kind,
    pub first: u8,
    pub second: u8,
}

// What the cursor's line is, after n items of at most `most`.
pub fn turn_at(s: &[u8], c: Cursor, n: usize, most: usize) -> Turn
    requires { (c.at ≤ c.end) × (c.end ≤ length s.now) }
    ensures { result ≡ turn_of most n (bytes_left s.now c)
        (ltb c.end (length s.now)) }
{
    let at = c.at;
    let end = c.end;
    if end < s.len() {
        if n < most {
            return Turn::Whole;
        }
        return Turn::Many;
    }
    if at == end {
        return Turn::End;
    }
    if n < most {
        return Turn::Open;
    }
    Turn::Many
}

// Width 1 to 255, column plus width at most 65,536.
fn sized(t: u32, l: u32, k: u32, w: u32) -> Result<Token, TokenFault>
    requires { (t ≤ 63) × (l ≤ 65535) × (k ≤ 65535) }
    ensures { result ≡ sized_of t l k w }
{
    if w == 0 {
        return Err(TokenFault::Width);
    }
    if 255 < w {
        return Err(TokenFault::Width);
    }
    let column = Column(k as u16);
    let width = Width(w as u16);
    if 65536 < past(column, width) {
        return Err(TokenFault::Width);
    }
    Ok(Token {
        terminal: t as u8,
        line: Line(l as u16),
        column,
        width,
    })
}

// Terminal 0 to 63, line and column 1 to 65,535, and a width.
fn token_of(t: u32, l: u32, k: u32, w: u32) -> Result<Token, TokenFault>
    ensures { result ≡ token_of t l k w }
{
    if 63 < t || l == 0 || 65535 < l || k == 0 || 65535 < k {
        return Err(TokenFault::Range);
    }
    sized(t, l, k, w)
}

// No field is left behind a token's numbers.
fn token_end(s: &[u8], c: Cursor, t: u32, l: u32, k: u32, w: u32) -> Result<Token, TokenFault>
    requires { c.end ≤ length s.now }
    ensures { result ≡ after_width t l k w (fields_left s.now c) }
{
    if c.at <= c.end {
        return Err(TokenFault::Form);
    }
    token_of(t, l, k, w)
}

// The fields behind a column as a width and the line's end.
fn wide_end(s: &[u8], c: Cursor, t: u32, l: u32, k: u32) -> Result<Token, TokenFault>
    requires { c.end ≤ length s.now }
    ensures { result ≡ after_column true t l k (fields_left s.now c) }
{
    let (w, d) = c.read(s).ok_or(TokenFault::Form)?;
    token_end(s, d, t, l, k, w)
}

// The fields from a cursor on as those of a token line: four if `wide` says so, else three and
// width 1.
pub fn token_line(s: &[u8], c: Cursor, wide: bool) -> Result<Token, TokenFault>
    requires { c.end ≤ length s.now }
    ensures { result ≡ token_fields wide (fields_left s.now c) }
{
    let (t, l, k, d) = c.three(s).ok_or(TokenFault::Form)?;
    if wide {
        wide_end(s, d, t, l, k)
    } else {
        token_end(s, d, t, l, k, 1)
    }
}

// Is `-` where the kind has none, and a number where it has one?
fn shaped(k: Kind, a: Operand, b: Operand) -> bool
    ensures { result ≡ shape k a b }
{
    match k {
        Kind::E => a.is_none() && b.is_none(),
        Kind::A => a.is_some(),
        Kind::U => a.is_some() && b.is_none(),
        Kind::B => a.is_some() && b.is_some(),
    }
}

// A rule of kind E: its lay is none.
fn plain_rule(left: u8, clause: Clause, y: Lay) -> Result<Rule, RuleFault>
    ensures { result ≡ plain_rule left clause y }
{
    match y {
        Lay::None => Ok(Rule { left, clause }),
        _ => Err(RuleFault::Unfit),
    }
}

// A rule of kind A: its lay is none, and its second not below its first.
fn atom_rule(left: u8, a: u8, b: u8, y: Lay) -> Result<Rule, RuleFault>
    ensures { result ≡ atom_rule left a b y }
{
    match y {
        Lay::None if b < a => Err(RuleFault::Reversed),
        Lay::None => Ok(Rule {
            left,
            clause: Clause::Atom(a, b),
        }),
        _ => Err(RuleFault::Unfit),
    }
}

// A rule of kind U: its lay is none, offside, offalign or single.
fn unary_rule(left: u8, a: u8, y: Lay) -> Result<Rule, RuleFault>
    ensures { result ≡ unary_rule left a y }
{
    let mark = match y {
        Lay::None => UnaryMark::None,
        Lay::Offside => UnaryMark::Offside,
        Lay::Offalign => UnaryMark::Offalign,
        Lay::Single => UnaryMark::Single,
        _ => return Err(RuleFault::Unfit),
    };
    Ok(Rule {
        left,
        clause: Clause::Unary(a, mark),
    })
}

// A rule of kind B: its lay is none, align or indent.
fn binary_rule(left: u8, a: u8, b: u8, y: Lay) -> Result<Rule, RuleFault>
    ensures { result ≡ binary_rule left a b y }
{
    let mark = match y {
        Lay::None => BinaryMark::None,
        Lay::Align => BinaryMark::Align,
        Lay::Indent => BinaryMark::Indent,
        _ => return Err(RuleFault::Unfit),
    };
    Ok(Rule {
        left,
        clause: Clause::Binary(a, b, mark),
    })
}

// A rule of each kind, whose lay may be refused.
fn lay_rule(l: u8, k: Kind, a: u8, b: u8, y: Lay) -> Result<Rule, RuleFault>
    ensures { result ≡ lay_rule l k a b y }
{
    match k {
        Kind::E => plain_rule(l, Clause::Empty, y),
        Kind::A => atom_rule(l, a, b, y),
        Kind::U => unary_rule(l, a, y),
        Kind::B => binary_rule(l, a, b, y),
    }
}

// The fields of a rule line: their shape, then their range, then the lay and the order of an A
// rule's numbers.
fn rule_of(l: u32, k: Kind, a: Operand, b: Operand, y: Lay) -> Result<Rule, RuleFault>
    ensures { result ≡ rule_of_of l k a b y }
{
    if !shaped(k, a, b) {
        return Err(RuleFault::Form);
    }
    let first = a.unwrap_or(0);
    let last = b.unwrap_or(first);
    if 63 < l || 63 < first || 63 < last {
        return Err(RuleFault::Range);
    }
    lay_rule(l as u8, k, first as u8, last as u8, y)
}

// The fields from a cursor on as those of a rule line.
pub fn rule_line(s: &[u8], c: Cursor) -> Result<Rule, RuleFault>
    requires { c.end ≤ length s.now }
    ensures { result ≡ rule_fields (fields_left s.now c) }
{
    let (l, c1) = c.read(s).ok_or(RuleFault::Form)?;
    let (k, c2) = c1.read(s).ok_or(RuleFault::Form)?;
    let (a, c3) = c2.read(s).ok_or(RuleFault::Form)?;
    let (b, c4) = c3.read(s).ok_or(RuleFault::Form)?;
    let (y, c5) = c4.read(s).ok_or(RuleFault::Form)?;
    if c5.at <= c5.end {
        return Err(RuleFault::Form);
    }
    rule_of(l, k, a, b, y)
}

// The key of a U rule, under any lay.
fn unary_key(left: u8, a: u8) -> Key
    ensures { result ≡ unary_key left a }
{
    Key {
        left,
        kind: Kind::U,
        first: a,
        second: 0,
    }
}

// A rule's left, kind, first and second, under any lay.
pub fn key_of(r: Rule) -> Key
    ensures { result ≡ key_of r }
{
    let left = r.left;
    let clause = r.clause;
    match clause {
        Clause::Empty => Key {
            left,
            kind: Kind::E,
            first: 0,
            second: 0,
        },
        Clause::Atom(a, b) => Key {
            left,
            kind: Kind::A,
            first: a,
            second: b,
        },
        Clause::Unary(a, _) => unary_key(left, a),
        Clause::Binary(a, b, _) => Key {
            left,
            kind: Kind::B,
            first: a,
            second: b,
        },
    }
}

// Is a terminal in both ranges?
fn meet(a: Key, b: Key) -> bool
    ensures { result ≡ meets a b }
{
    if a.first <= b.second {
        return b.first <= a.second;
    }
    false
}

// Are these the same left and kind, and the same first and second, or of A rules a shared terminal?
pub fn same_key(a: Key, b: Key) -> bool
    ensures { result ≡ same_key_of a b }
{
    match a.kind {
        Kind::A => a.left == b.left && a.kind == b.kind && meet(a, b),
        _ => a == b,
    }
}
