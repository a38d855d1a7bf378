// The rules of an expression's parts, written one after the other as long as there is room.
#![tactic(auto)]

ghost use Rattle.std.specs.Prelude.{◌≡◌, List, [], ◌∷◌, ℕ, ◌+◌, ◌≤◌, ◌<◌};
ghost use Rattle.grammar.specs.declared.UnaryMark.TheVariants as UnaryMark;
ghost use Rattle.lexemes.specs.declared.Lexeme.TheVariants as Lexeme;
ghost use Rattle.clauses.specs.Expansion.{U, B};
ghost use Rattle.rule_output.specs.Signs.{heads_of};
ghost use Rattle.rule_output.specs.Emitting.{Pushed, CountsOn, Adds, atom_rules, tail_rules};
ghost use Rattle.rule_output.specs.Emitting.{held, part_held, LeafRead};

use grammar::{BinaryMark, Clause, Rule, UnaryMark};
use lexemes::Lexeme;
use rule_words::word_of;

// What is handed on by value, while the rules stand as words behind a reference: how many there
// are, the next new nonterminal, and whether there was no room for a rule or a nonterminal.
// Kept: the flag; behind a part without room the readers still want its place and its nonterminal.
#[derive(Clone, Copy)]
pub struct Room {
    pub count: usize,
    pub next: u8,
    pub over: bool,
}

// Behind a part: the place, the part's nonterminal, and the room.
#[derive(Clone, Copy)]
pub struct Step {
    pub at: usize,
    pub name: u8,
    pub room: Room,
}

// One rule more.
pub fn push(rules: &mut [u64; 128], out: Room, rule: Rule) -> Room
    ensures { Pushed (held rules.old out) rule (held rules.new result) }
{
    let count = out.count;
    if count < 128 {
        rules[count] = word_of(rule);
        return Room {
            count: count + 1,
            ..out
        };
    }
    Room { over: true, ..out }
}

// One new nonterminal more.
pub fn fresh(out: Room) -> Room
    ensures { (w : List ℕ) → CountsOn (held w out) 1 (held w result) }
{
    if out.next < 64 {
        return Room {
            next: out.next + 1,
            ..out
        };
    }
    Room { over: true, ..out }
}

// How many new nonterminals what stands after an item has.
fn heads(l: Lexeme) -> u8
    ensures { result ≡ heads_of l }
{
    match l {
        Lexeme::Maybe => 1,
        Lexeme::Plus(_) => 2,
        Lexeme::Star(_) => 2,
        Lexeme::Marked(_) => 1,
        _ => 0,
    }
}

// The new nonterminals of what stands after an item: they come before those of the item.
pub fn opened(out: Room, l: Lexeme) -> Room
    ensures { (w : List ℕ) → CountsOn (held w out) (heads_of l) (held w result) }
{
    let k = heads(l);
    if k == 0 {
        return out;
    }
    let o = fresh(out);
    if k == 1 {
        return o;
    }
    fresh(o)
}

// The rules of `?` after item b.
fn optional(rules: &mut [u64; 128], out: Room, n: u8, b: u8) -> Room
    ensures { Adds (held rules.old out) (held rules.new result)
        (tail_rules Lexeme.Maybe n b) 0 }
{
    let p = push(
        rules,
        out,
        Rule {
            left: n,
            clause: Clause::Unary(b, UnaryMark::None),
        },
    );
    push(
        rules,
        p,
        Rule {
            left: n,
            clause: Clause::Empty,
        },
    )
}

// The rules of `+` and `*` after item b but the first: the repeat n goes over to its C, and C is
// the repeat and one item more.
fn again(rules: &mut [u64; 128], out: Room, n: u8, b: u8, m: BinaryMark) -> Room
    requires { n < 255 }
    ensures { Adds (held rules.old out) (held rules.new result)
        (U n (n + 1) UnaryMark.None ∷ B (n + 1) n b m ∷ []) 0 }
{
    let c = n + 1;
    let p = push(
        rules,
        out,
        Rule {
            left: n,
            clause: Clause::Unary(c, UnaryMark::None),
        },
    );
    push(
        rules,
        p,
        Rule {
            left: c,
            clause: Clause::Binary(n, b, m),
        },
    )
}

// The rules of `+`.
fn plus(rules: &mut [u64; 128], out: Room, n: u8, b: u8, m: BinaryMark) -> Room
    requires { n < 255 }
    ensures { Adds (held rules.old out) (held rules.new result)
        (tail_rules (Lexeme.Plus m) n b) 0 }
{
    let p = push(
        rules,
        out,
        Rule {
            left: n,
            clause: Clause::Unary(b, UnaryMark::None),
        },
    );
    again(rules, p, n, b, m)
}

// The rules of `*`.
fn star(rules: &mut [u64; 128], out: Room, n: u8, b: u8, m: BinaryMark) -> Room
    requires { n < 255 }
    ensures { Adds (held rules.old out) (held rules.new result)
        (tail_rules (Lexeme.Star m) n b) 0 }
{
    let p = push(
        rules,
        out,
        Rule {
            left: n,
            clause: Clause::Empty,
        },
    );
    again(rules, p, n, b, m)
}

// The rules of what stands after item b.
pub fn tail(rules: &mut [u64; 128], out: Room, l: Lexeme, n: u8, b: u8) -> Room
    requires { n + heads_of l ≤ 255 }
    ensures { Adds (held rules.old out) (held rules.new result)
        (tail_rules l n b) 0 }
{
    match l {
        Lexeme::Maybe => optional(rules, out, n, b),
        Lexeme::Plus(m) => plus(rules, out, n, b, m),
        Lexeme::Star(m) => star(rules, out, n, b, m),
        Lexeme::Marked(m) => push(
            rules,
            out,
            Rule {
                left: n,
                clause: Clause::Unary(b, m),
            },
        ),
        _ => out,
    }
}

// A terminal's rule.
fn atomic(rules: &mut [u64; 128], out: Room, a: u8) -> Room
    ensures { Adds (held rules.old out) (held rules.new result)
        (atom_rules out.next a) 1 }
{
    let n = out.next;
    let o = fresh(out);
    push(
        rules,
        o,
        Rule {
            left: n,
            clause: Clause::Atom(a, a),
        },
    )
}

// An item that is no group.
pub fn leaf(l: Lexeme, end: usize, rules: &mut [u64; 128], out: Room) -> Step
    ensures { LeafRead l end (held rules.old out)
        (part_held rules.new result) }
{
    let n = out.next;
    match l {
        Lexeme::Nonterminal(a) => Step {
            at: end,
            name: a,
            room: out,
        },
        Lexeme::Terminal(a) => {
            let o = atomic(rules, out, a);
            Step {
                at: end,
                name: n,
                room: o,
            }
        }
        _ => Step {
            at: end,
            name: n,
            room: out,
        },
    }
}
