// A grammar in layout-sensitive binary normal form and a sentence with positions, as both sheets
// give them.
#![tactic(auto)]

ghost use Rattle.std.specs.Prelude.{◌≡◌, ◌+◌, ◌≤◌, ◌<◌};
ghost use Rattle.sets.specs.Says.{Says};

// A line and a column are separate units: one is never compared with the other.
#[derive(Clone, Copy, PartialEq, Eq, PartialOrd, Ord)]
pub struct Line(pub u16);

#[derive(Clone, Copy, PartialEq, Eq, PartialOrd, Ord)]
pub struct Column(pub u16);

// Does line `a` come before line `b`? Lines are compared by this function alone.
pub fn line_before(a: Line, b: Line) -> bool
    ensures { Says result (a.0 < b.0) }
{
    a < b
}

// Does column `c` come before column `d`? Columns are compared by this function alone.
pub fn column_before(c: Column, d: Column) -> bool
    ensures { Says result (c.0 < d.0) }
{
    c < d
}

// How many columns a token takes up, from its column on. It is compared with nothing, and `past`
// alone adds it to a column.
#[derive(Clone, Copy)]
pub struct Width(pub u16);

// The first column past a token of this width.
pub fn past(c: Column, w: Width) -> u32
    ensures { result ≡ c.0 + w.0 }
{
    c.0 as u32 + w.0 as u32
}

// Does a token of this width in column `a` leave column `b` free?
pub fn leaves_free(a: Column, w: Width, b: Column) -> bool
    ensures { Says result (a.0 + w.0 ≤ b.0) }
{
    past(a, w) <= b.0 as u32
}

// A terminal with its position and its width.
#[derive(Clone, Copy)]
pub struct Token {
    pub terminal: u8,
    pub line: Line,
    pub column: Column,
    pub width: Width,
}

// The marks that a U rule may have, by the sheets' words: none, offside, offalign, single.
#[derive(Clone, Copy)]
pub enum UnaryMark {
    None,
    Offside,
    Offalign,
    Single,
}

// The marks that a B rule may have, by the sheets' words: none, align, indent.
#[derive(Clone, Copy)]
pub enum BinaryMark {
    None,
    Align,
    Indent,
}

// What stands at the right of a rule, by the sheets' kinds: E, A, U, B. An A rule stands for the
// terminals from its first to its second number.
#[derive(Clone, Copy)]
pub enum Clause {
    Empty,
    Atom(u8, u8),
    Unary(u8, UnaryMark),
    Binary(u8, u8, BinaryMark),
}

#[derive(Clone, Copy)]
pub struct Rule {
    pub left: u8,
    pub clause: Clause,
}

// The first `count` of the rules, in the order of the sheet.
#[derive(Clone, Copy)]
pub struct Grammar {
    pub rules: [Rule; 128],
    pub count: usize,
}

// The first `count` of the tokens.
#[derive(Clone, Copy)]
pub struct Sentence {
    pub tokens: [Token; 64],
    pub count: usize,
}

// A token's place in a candidate of the sweep: its terminal, its line step (lines past the token
// before) and its column.
#[derive(Clone, Copy)]
pub struct Cell {
    pub terminal: u8,
    pub step: u8,
    pub column: u16,
}

// The answer on a sentence: no tree, just one, or at least two.
#[derive(Clone, Copy)]
pub enum Verdict {
    None,
    One,
    Two,
}
