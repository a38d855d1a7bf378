// Layout marks over the spans of a sentence that is known up to some token: what a span's tokens
// leave to a rule.
#![tactic(auto)]

ghost use Rattle.std.specs.Prelude.{◌≡◌, true, ◌+◌, ◌-◌, ◌≤◌, ◌<◌};
ghost use Rattle.sets.specs.Says.{Says};
ghost use Rattle.sets.specs.Sets.{In};
ghost use Rattle.grammar.specs.Layout.{Keeps, Pairs};
ghost use Rattle.grammar.specs.declared.UnaryMark.TheVariants as Unary;
ghost use Rattle.marks.specs.Drafts.{half, SpanFits};
ghost use Rattle.marks.specs.Later.{lesser, Grows, OffsideBy, OffalignBy};
ghost use Rattle.marks.specs.Marked.{AtomBy, UnaryBy, BinaryBy, Included, Joined, opened};
ghost use Rattle.marks.specs.Marked.{Growing, Starting, Marked};

use grammar::{BinaryMark, Column, Token, UnaryMark, column_before, line_before};
use sets::{has, with};

// The first `count` of the tokens, of which the first `known` count and the others are open: an
// open token meets any mark.
#[derive(Clone, Copy)]
pub struct Draft<const N: usize> {
    pub tokens: [Token; N],
    pub count: usize,
    pub known: usize,
}

// What the tokens of a span leave to a rule, as it is carried along while the span grows by a
// token: the first token's column and the least column on later lines, if there is one, by which
// offside and offalign are decided; do all tokens stand on one line; at which left lengths, from 1
// to below the span's length, do align and indent hold (at the others they hold always); and which
// terminal has the first token (asked of a span of one token alone).
#[derive(Clone, Copy)]
pub struct SpanMarks {
    pub first: Column,
    pub least: Option<Column>,
    pub single: bool,
    pub align: u64,
    pub indent: u64,
    pub terminal: u8,
}

// The least column, with the column `c` besides.
fn with_column(v: Option<Column>, c: Column) -> Option<Column>
    ensures { result ≡ lesser v c }
{
    match v {
        None => Some(c),
        Some(d) => {
            if column_before(c, d) {
                Some(c)
            } else {
                Some(d)
            }
        }
    }
}

// The least column of a span that grows by the token `t`; its first token is `a`.
pub fn grow(v: Option<Column>, a: Token, t: Token) -> Option<Column>
    ensures { Grows v a t result }
{
    if line_before(a.line, t.line) {
        with_column(v, t.column)
    } else {
        v
    }
}

// Does offside hold of a span whose first token has the column `c`, `v` being its least column on
// later lines?
pub fn offside(c: Column, v: Option<Column>) -> bool
    ensures { Says result (OffsideBy c v) }
{
    match v {
        None => true,
        Some(l) => column_before(c, l),
    }
}

// Does offalign?
pub fn offalign(c: Column, v: Option<Column>) -> bool
    ensures { Says result (OffalignBy c v) }
{
    match v {
        None => true,
        Some(l) => !column_before(l, c),
    }
}

// Are the columns the same?
fn same_column(a: Column, b: Column) -> bool
    ensures { Says result (a.0 ≡ b.0) }
{
    !column_before(a, b) && !column_before(b, a)
}

// Does the mark hold of a word from `a` to `z` and a word from `b` on?
pub fn pairs(m: BinaryMark, a: Token, z: Token, b: Token) -> bool
    ensures { Says result (Pairs m a z b) }
{
    match m {
        BinaryMark::None => true,
        BinaryMark::Align => same_column(a.column, b.column),
        BinaryMark::Indent => column_before(a.column, b.column) && line_before(z.line, b.line),
    }
}

// Do the tokens so far stand on one line, which `yes` says, and `t` on that of the first token `a`?
fn still(yes: bool, a: Token, t: Token) -> bool
    ensures { Says result ((yes ≡ true) × Keeps Unary.Single a t) }
{
    yes && !line_before(a.line, t.line) && !line_before(t.line, a.line)
}

// The set, with `l` besides if `yes` says so.
pub fn included(set: u64, l: usize, yes: bool) -> u64
    requires { l < 64 }
    ensures { Included set l yes result }
{
    if yes { with(set, l as u8) } else { set }
}

// The marks of `left` tokens from `a` to `z`, with the known token `t` after them.
fn with_known(k: SpanMarks, a: Token, z: Token, t: Token, left: usize) -> SpanMarks
    requires { left < 64 }
    ensures { Joined k left a z t result }
{
    let aligns = pairs(BinaryMark::Align, a, z, t);
    let indents = pairs(BinaryMark::Indent, a, z, t);
    SpanMarks {
        least: grow(k.least, a, t),
        single: still(k.single, a, t),
        align: included(k.align, left, aligns),
        indent: included(k.indent, left, indents),
        ..k
    }
}

// The marks of `left` tokens, with an open token after them: it adds nothing but a left length.
fn with_open(k: SpanMarks, left: usize) -> SpanMarks
    requires { left < 64 }
    ensures { result ≡ opened k left }
{
    SpanMarks {
        align: with(k.align, left as u8),
        indent: with(k.indent, left as u8),
        ..k
    }
}

// The marks of `left` tokens from `a` to `z`, with the token `t`, at `at`, after them.
pub fn with_next(
    k: SpanMarks,
    a: Token,
    z: Token,
    t: Token,
    left: usize,
    at: usize,
    known: usize,
) -> SpanMarks
    requires { left < 64 }
    ensures { Growing k left at known a z t result }
{
    if at < known {
        with_known(k, a, z, t, left)
    } else {
        with_open(k, left)
    }
}

// The marks of one token, which has the terminal and stands in the column, or of no token.
pub fn first_marks(terminal: u8, column: Column) -> SpanMarks
    ensures { Starting terminal column result }
{
    SpanMarks {
        first: column,
        least: None,
        single: true,
        align: 0,
        indent: 0,
        terminal,
    }
}

// What the tokens of the span leave to a rule.
pub fn span_marks(d: Draft<64>, start: usize, len: usize) -> SpanMarks
    requires { SpanFits d start len }
    ensures { Marked (half d) start len result }
{
    if len == 0 {
        return first_marks(0, Column(0));
    }
    let a = d.tokens[start];
    let mut k = first_marks(a.terminal, a.column);
    for left in 1..len {
        let at = start + left;
        let z = d.tokens[at - 1];
        let t = d.tokens[at];
        k = with_next(k, a, z, t, left, at, d.known);
    }
    k
}

// Is the span of one token one of the terminals from `a` to `b`?
pub fn allows_atom(k: SpanMarks, a: u8, b: u8) -> bool
    ensures { Says result (AtomBy k a b) }
{
    a <= k.terminal && k.terminal <= b
}

// Do they leave it to a unary rule with the mark `m`?
pub fn allows_unary(k: SpanMarks, m: UnaryMark) -> bool
    ensures { Says result (UnaryBy k m) }
{
    match m {
        UnaryMark::None => true,
        UnaryMark::Offside => offside(k.first, k.least),
        UnaryMark::Offalign => offalign(k.first, k.least),
        UnaryMark::Single => k.single,
    }
}

// Is `l` 0, or `len`, or in the set?
fn listed(set: u64, l: usize, len: usize) -> bool
    requires { (l ≤ len) × (len ≤ 64) }
    ensures { Says result ((0 < l → l < len → In set l)) }
{
    l == 0 || l == len || has(set, l as u8)
}

// Do they leave the span of `len` tokens to a binary rule with the mark `m` and `l` tokens on its
// left?
pub fn allows_binary(k: SpanMarks, m: BinaryMark, l: usize, len: usize) -> bool
    requires { (l ≤ len) × (len ≤ 64) }
    ensures { Says result (BinaryBy k len m l) }
{
    match m {
        BinaryMark::None => true,
        BinaryMark::Align => listed(k.align, l, len),
        BinaryMark::Indent => listed(k.indent, l, len),
    }
}
