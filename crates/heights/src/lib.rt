// The least heights of all trees of a sentence, one number for a nonterminal and a span: what the
// first tree of a looping sheet goes by. Spans are settled from the shortest on; a span's numbers
// are lowered until no rule stands lower.
#![tactic(auto)]

ghost use Rattle.std.specs.Prelude.{◌≡◌, true, [], ◌∷◌, ◌+◌, ◌-◌, ◌*◌, ◌≤◌, ◌<◌, min, length};
ghost use Rattle.std.specs.Prelude.{replicate};
ghost use Rattle.grammar.specs.declared.Clause.TheVariants as Kind;
ghost use Rattle.grammar.specs.Content.{rules_of, SmallClause, SmallRule, Formed};
ghost use Rattle.grammar.specs.SpanSheet.{pair_at};
ghost use Rattle.tables.specs.Tables.{by_marks};
ghost use Rattle.marks.specs.Drafts.{drafted};
ghost use Rattle.heights.specs.Least.{number_at, HeightSheet};
ghost use Rattle.heights.specs.Tall.{table, by_word, Measured, Lowest, Over, Room};
ghost use Rattle.heights.specs.Falls.{Lowered, Idle, HeightsTried, Between, Inner, Ends};
ghost use Rattle.heights.specs.Falls.{AllEnds};
ghost use Rattle.heights.specs.Falls.{Stopped, Shut};
ghost use Rattle.heights.specs.Filled.{Filled, Whole, Settling};
ghost use Rattle.grammar.specs.Sentences.{spelled};

use grammar::{BinaryMark, Clause, Grammar, Rule, Sentence, UnaryMark};
use marks::{Draft, SpanMarks, allows_atom, allows_binary, allows_unary, span_marks};
use sets::{either, wide};
use spans::{SPANS, pair_at};

// A place for each of 64 nonterminals over each span of 64 tokens.
// Kept: 65535 is no height, as `heights` is lent numbers that are all 65535.
pub const HEIGHTS: usize = 133184;

// Where the number of `a` at the span stands.
pub fn cell(n: usize, start: usize, len: usize, a: u8) -> usize
    requires { (n ≤ 64) × (start + len ≤ n) × (a < 64) }
    ensures { (result ≡ 2081 * a + pair_at n start len) × (result < 133184) }
{
    let p = pair_at(n, start, len);
    SPANS * wide(a) + p
}

// The number of `a` at the span.
pub fn high(hs: &[u16], n: usize, start: usize, len: usize, a: u8) -> u16
    requires { (n ≤ 64) × (start + len ≤ n) × (a < 64) × (length hs.now ≡ 133184) }
    ensures { result ≡ number_at hs.now n start len a }
{
    let at = cell(n, start, len, a);
    hs[at]
}

// The height over two parts that are `a` and `b` high.
fn over(a: u16, b: u16) -> u16
    ensures { Over a b result }
{
    a.max(b).saturating_add(1)
}

// How high a unary clause stands over the span.
fn unary_tall(
    hs: &[u16],
    n: usize,
    b: u8,
    m: UnaryMark,
    start: usize,
    len: usize,
    left: usize,
    k: SpanMarks,
) -> u16
    requires room { Room hs.now n start len }
    requires b_bound { b < 64 }
    ensures { Measured (table hs.now n) (by_marks k len) start len (Kind.Unary b m)
        left result }
{
    if left != 0 {
        return 65535;
    }
    if !allows_unary(k, m) {
        return 65535;
    }
    let h = high(hs, n, start, len, b);
    over(h, h)
}

// How high a binary clause stands over the span, with `left` tokens on its left.
fn binary_tall(
    hs: &[u16],
    n: usize,
    b: u8,
    e: u8,
    m: BinaryMark,
    start: usize,
    len: usize,
    left: usize,
    k: SpanMarks,
) -> u16
    requires room { Room hs.now n start len }
    requires b_bound { (b < 64) × (e < 64) }
    ensures { Measured (table hs.now n) (by_marks k len) start len
        (Kind.Binary b e m) left result }
{
    if len < left {
        return 65535;
    }
    if !allows_binary(k, m, left, len) {
        return 65535;
    }
    let x = high(hs, n, start, left, b);
    let y = high(hs, n, start + left, len - left, e);
    over(x, y)
}

// How high the clause stands over the span, with `left` tokens on its left.
fn tall(hs: &[u16], n: usize, c: Clause, start: usize, len: usize, left: usize, k: SpanMarks) -> u16
    requires room { Room hs.now n start len }
    requires small_clause { SmallClause c }
    ensures { Measured (table hs.now n) (by_marks k len) start len c left result }
{
    match c {
        Clause::Empty => {
            if len != 0 {
                return 65535;
            }
            if left != 0 {
                return 65535;
            }
            1
        }
        Clause::Atom(a, b) => {
            if len != 1 {
                return 65535;
            }
            if left != 0 {
                return 65535;
            }
            if !allows_atom(k, a, b) {
                return 65535;
            }
            1
        }
        Clause::Unary(b, m) => unary_tall(hs, n, b, m, start, len, left, k),
        Clause::Binary(b, e, m) => binary_tall(hs, n, b, e, m, start, len, left, k),
    }
}

// Put the height `h` where it is lower than the number there. Did it fall?
fn put_lower(hs: &mut [u16], at: usize, h: u16) -> bool
    requires { at < length hs.old }
    ensures { Lowered hs.old hs.new at h result }
{
    if h < hs[at] {
        hs[at] = h;
        return true;
    }
    false
}

// Try the rule with `left` tokens on its left: does the number of its left side fall?
fn lower(
    hs: &mut [u16],
    n: usize,
    r: Rule,
    start: usize,
    len: usize,
    left: usize,
    k: SpanMarks,
) -> bool
    requires { Room hs.old n start len × SmallRule r }
    ensures { HeightsTried (r ∷ []) (by_marks k len) n start len
        (Between 0 left (left + 1))
        hs.old hs.new result }
{
    let c = r.clause;
    let h = tall(hs, n, c, start, len, left, k);
    let at = cell(n, start, len, r.left);
    put_lower(hs, at, h)
}

// How high a binary clause stands at least, with a token or more on either side.
fn lowest_cut(
    hs: &[u16],
    n: usize,
    b: u8,
    e: u8,
    m: BinaryMark,
    start: usize,
    len: usize,
    k: SpanMarks,
) -> u16
    requires room { Room hs.now n start len }
    requires b_bound { (b < 64) × (e < 64) }
    ensures { Lowest (table hs.now n) (by_marks k len) start len
        (Kind.Binary b e m) 1 len result }
{
    let mut best: u16 = 65535;
    for left in 1..len {
        let h = binary_tall(hs, n, b, e, m, start, len, left, k);
        best = best.min(h);
    }
    best
}

// Try the rule with a token or more on either side; only a binary rule can stand so.
fn lower_split(hs: &mut [u16], n: usize, r: Rule, start: usize, len: usize, k: SpanMarks) -> bool
    requires { Room hs.old n start len × SmallRule r }
    ensures { HeightsTried (r ∷ []) (by_marks k len) n start len (Between 0 1 len)
        hs.old hs.new result }
{
    let c = r.clause;
    match c {
        Clause::Empty => false,
        Clause::Atom(_, _) => false,
        Clause::Unary(_, _) => false,
        Clause::Binary(b, e, m) => {
            let h = lowest_cut(hs, n, b, e, m, start, len, k);
            let at = cell(n, start, len, r.left);
            put_lower(hs, at, h)
        }
    }
}

// Each rule with a token or more on either side: shorter parts do not change, so once is enough.
fn lower_inner(hs: &mut [u16], n: usize, g: Grammar, start: usize, len: usize, k: SpanMarks) -> bool
    requires { Room hs.old n start len × Formed g }
    ensures { HeightsTried (rules_of g) (by_marks k len) n start len (Inner len g.count)
        hs.old hs.new result }
{
    let mut fell = false;
    for i in 0..g.count {
        let r = g.rules[i];
        let more = lower_split(hs, n, r, start, len, k);
        fell = either(fell, more);
    }
    fell
}

// Is the clause binary, and has neither side a height over the empty word? Then it stands nowhere
// with the empty word on one side.
fn no_empty_side(hs: &[u16], n: usize, c: Clause) -> bool
    requires { (length hs.now ≡ 133184) × SmallClause c }
    ensures { result ≡ true → Idle hs.now n c }
{
    match c {
        Clause::Empty => false,
        Clause::Atom(_, _) => false,
        Clause::Unary(_, _) => false,
        Clause::Binary(b, e, _) => {
            let x = SPANS * wide(b);
            if hs[x] < 65535 {
                return false;
            }
            let y = SPANS * wide(e);
            if hs[y] < 65535 { false } else { true }
        }
    }
}

// Try the rule with the empty word on one side.
fn lower_ends(hs: &mut [u16], n: usize, r: Rule, start: usize, len: usize, k: SpanMarks) -> bool
    requires { Room hs.old n start len × SmallRule r }
    ensures { HeightsTried (r ∷ []) (by_marks k len) n start len (Ends len 0)
        hs.old
        hs.new result }
{
    let c = r.clause;
    if no_empty_side(hs, n, c) {
        return false;
    }
    let a = lower(hs, n, r, start, len, 0, k);
    let b = lower(hs, n, r, start, len, len, k);
    either(a, b)
}

// Each rule with the empty word on one side.
// Kept: one function for this and `lower_inner` would take a closure over `hs`, and be no plainer.
fn lower_all(hs: &mut [u16], n: usize, g: Grammar, start: usize, len: usize, k: SpanMarks) -> bool
    requires { Room hs.old n start len × Formed g }
    ensures { HeightsTried (rules_of g) (by_marks k len) n start len (AllEnds len g.count)
        hs.old hs.new result }
{
    let mut fell = false;
    for i in 0..g.count {
        let r = g.rules[i];
        let more = lower_ends(hs, n, r, start, len, k);
        fell = either(fell, more);
    }
    fell
}

// That, until nothing falls.
fn lower_on(hs: &mut [u16], n: usize, g: Grammar, start: usize, len: usize, k: SpanMarks)
    requires { Room hs.old n start len × Formed g }
    ensures { Stopped (rules_of g) (by_marks k len) n start len (AllEnds len g.count)
        hs.old hs.new }
{
    loop {
        let more = lower_all(hs, n, g, start, len, k);
        if !more {
            return;
        }
    }
}

// Settle the numbers of the span.
fn settle(hs: &mut [u16], d: Draft<64>, g: Grammar, start: usize, len: usize)
    requires { Settling d hs.old start len × Formed g }
    ensures { Shut (rules_of g) (by_word (drafted d) start len) (length (drafted d)) start len
        hs.old hs.new }
{
    let n = d.count;
    let k = span_marks(d, start, len);
    let fell = lower_inner(hs, n, g, start, len, k);
    lower_on(hs, n, g, start, len, k);
}

// Settle all spans of `len` tokens.
fn settle_row(hs: &mut [u16], d: Draft<64>, g: Grammar, len: usize)
    requires whole { Whole d × (0 < len) × (len ≤ d.count) × Formed g }
    requires filled { Filled hs.old (rules_of g) (drafted d) 0 len }
    ensures { Filled hs.new (rules_of g) (drafted d) 0 (len + 1) }
{
    for start in 0..=d.count - len {
        settle(hs, d, g, start, len);
    }
}

// Settle all spans, from the empty word on.
fn settle_all(hs: &mut [u16], d: Draft<64>, g: Grammar)
    requires whole { Whole d × Formed g }
    requires filled { Filled hs.old (rules_of g) (drafted d) 0 0 }
    ensures { HeightSheet (rules_of g) (drafted d) hs.new }
{
    settle(hs, d, g, 0, 0);
    for len in 1..=d.count {
        settle_row(hs, d, g, len);
    }
}

// The least heights of the sentence's trees, into 133,184 numbers that are all 65535.
pub fn heights(hs: &mut [u16], s: Sentence, g: Grammar)
    requires count_bound { s.count ≤ 64 }
    requires formed { Formed g }
    requires hs_value { hs.old ≡ replicate 133184 65535 }
    ensures { HeightSheet (rules_of g) (spelled s) hs.new }
{
    let n = s.count;
    let tokens = s.tokens;
    let d = Draft {
        tokens,
        count: n,
        known: n,
    };
    settle_all(hs, d, g);
}
