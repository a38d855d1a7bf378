// The rules of an expression: alternatives, sequence and item readers that call each other while
// the remaining bytes fall. They are for expressions that are known to be so written; of others
// they say nothing but that they end.
#![tactic(auto)]

ghost use Rattle.std.specs.Prelude.{◌≡◌, ◌≤◌, length};
ghost use Rattle.grammar.specs.declared.BinaryMark.{BinaryMark};
ghost use Rattle.lexemes.specs.declared.Lexeme.TheVariants as Lexeme;
ghost use Rattle.rule_output.specs.Signs.{sort_of_of};
ghost use Rattle.clause_rules.specs.Roles.{role_number};
ghost use Rattle.rule_output.specs.Emitting.{held, part_held};
ghost use Rattle.clause_rules.specs.Ends.{GroupEnd, AtomEnd, ItemEnd};
ghost use Rattle.clause_rules.specs.Reading.{AtomRead, ItemRead, RestRead, SequenceRead};
ghost use Rattle.clause_rules.specs.Reading.{AlternativesRead};

use grammar::{BinaryMark, Clause, Rule, UnaryMark};
use lexemes::{Lexeme, lexeme_at};
use rule_output::{Room, Step, fresh, leaf, opened, push, tail};

// What a lexeme is where the readers go by it: n4 or t2, (, ), a bar, what binds two items, what
// stands after an item, no more of them.
#[derive(Clone, Copy)]
enum Role {
    Leaf,
    Open,
    Close,
    Bar,
    Join,
    Suffix,
    End,
}

fn role_of(l: Lexeme) -> Role
    ensures { role_number result ≡ sort_of_of l }
{
    match l {
        Lexeme::Nonterminal(_) | Lexeme::Terminal(_) => Role::Leaf,
        Lexeme::Open => Role::Open,
        Lexeme::Close => Role::Close,
        Lexeme::Bar => Role::Bar,
        Lexeme::Join(_) => Role::Join,
        Lexeme::Maybe | Lexeme::Plus(_) | Lexeme::Star(_) | Lexeme::Marked(_) => Role::Suffix,
        Lexeme::End | Lexeme::Not => Role::End,
    }
}

// What binds two items, if that is what the lexeme does.
fn binding(l: Lexeme) -> BinaryMark
    ensures { (m : BinaryMark) → l ≡ Lexeme.Join m → result ≡ m }
{
    match l {
        Lexeme::Join(m) => m,
        _ => BinaryMark::None,
    }
}

// The place behind the parenthesis that closes the group whose first lexeme stands at a place.
fn group_end(s: &[u8], at: usize) -> usize
    requires { at ≤ length s.now }
    ensures { GroupEnd s.now at result }
{
    let mut i = at;
    let mut deep: usize = 0;
    loop {
        let x = lexeme_at(s, i);
        match role_of(x.lexeme) {
            Role::End => return i,
            Role::Open => {
                deep += 1;
                i = x.end;
                continue;
            }
            Role::Close => {
                if deep == 0 {
                    return x.end;
                }
                deep -= 1;
                i = x.end;
                continue;
            }
            _ => {
                i = x.end;
                continue;
            }
        }
    }
}

// The place behind an item that nothing stands after.
fn atom_end(s: &[u8], at: usize) -> usize
    requires { at ≤ length s.now }
    ensures { AtomEnd s.now at result }
{
    let x = lexeme_at(s, at);
    let l = x.lexeme;
    let end = x.end;
    if let Role::Open = role_of(l) {
        return group_end(s, end);
    }
    end
}

// The place behind an item and what stands after it.
fn item_end(s: &[u8], at: usize) -> usize
    requires { at ≤ length s.now }
    ensures { ItemEnd s.now at result }
{
    let e = atom_end(s, at);
    let x = lexeme_at(s, e);
    let l = x.lexeme;
    if let Role::Suffix = role_of(l) {
        return x.end;
    }
    e
}

// A nonterminal, a terminal or a group.
#[cycle(alternatives_atom_item_rest_sequence)]
fn atom(s: &[u8], at: usize, rules: &mut [u64; 128], out: Room) -> Step
    requires { at ≤ length s.now }
    ensures { AtomRead s.now at (held rules.old out)
        (part_held rules.new result) }
{
    let n = out.next;
    let x = lexeme_at(s, at);
    let l = x.lexeme;
    let end = x.end;
    if let Role::Open = role_of(l) {
        let o = fresh(out);
        let r = alternatives(s, end, n, rules, o);
        let p = r.room;
        let y = lexeme_at(s, r.at);
        return Step {
            at: y.end,
            name: n,
            room: p,
        };
    }
    leaf(l, end, rules, out)
}

// An item with what stands after it.
#[cycle(alternatives_atom_item_rest_sequence)]
fn item(s: &[u8], at: usize, rules: &mut [u64; 128], out: Room) -> Step
    requires { at ≤ length s.now }
    ensures { ItemRead s.now at (held rules.old out)
        (part_held rules.new result) }
{
    let n = out.next;
    let e = atom_end(s, at);
    let x = lexeme_at(s, e);
    let l = x.lexeme;
    if let Role::Suffix = role_of(l) {
        let o = opened(out, l);
        if o.over {
            return Step {
                at,
                name: n,
                room: o,
            };
        }
        let a = atom(s, at, rules, o);
        let p = a.room;
        let q = tail(rules, p, l, n, a.name);
        return Step {
            at: x.end,
            name: n,
            room: q,
        };
    }
    atom(s, at, rules, out)
}

// The items of an alternative, or of a rest of two or more.
#[cycle(alternatives_atom_item_rest_sequence)]
fn sequence(s: &[u8], at: usize, rules: &mut [u64; 128], out: Room) -> Step
    requires { at ≤ length s.now }
    ensures { SequenceRead s.now at (held rules.old out)
        (part_held rules.new result) }
{
    let n = out.next;
    let o = fresh(out);
    let i = item(s, at, rules, o);
    let b = i.name;
    let p = i.room;
    let x = lexeme_at(s, i.at);
    let l = x.lexeme;
    if let Role::Join = role_of(l) {
        let r = rest(s, x.end, rules, p);
        let q = r.room;
        let w = push(
            rules,
            q,
            Rule {
                left: n,
                clause: Clause::Binary(b, r.name, binding(l)),
            },
        );
        return Step {
            at: r.at,
            name: n,
            room: w,
        };
    }
    let w = push(
        rules,
        p,
        Rule {
            left: n,
            clause: Clause::Unary(b, UnaryMark::None),
        },
    );
    Step {
        at: i.at,
        name: n,
        room: w,
    }
}

// What follows the first item of a sequence: one item, which stands for itself, or more.
#[cycle(alternatives_atom_item_rest_sequence)]
fn rest(s: &[u8], at: usize, rules: &mut [u64; 128], out: Room) -> Step
    requires { at ≤ length s.now }
    ensures { RestRead s.now at (held rules.old out)
        (part_held rules.new result) }
{
    if out.over {
        return Step {
            at,
            name: 0,
            room: out,
        };
    }
    let e = item_end(s, at);
    let x = lexeme_at(s, e);
    let l = x.lexeme;
    if let Role::Join = role_of(l) {
        return sequence(s, at, rules, out);
    }
    item(s, at, rules, out)
}

// The alternatives of a line or of a group, whose nonterminal is `left`.
#[cycle(alternatives_atom_item_rest_sequence)]
pub fn alternatives(s: &[u8], at: usize, left: u8, rules: &mut [u64; 128], out: Room) -> Step
    requires { at ≤ length s.now }
    ensures { AlternativesRead s.now at left (held rules.old out)
        (part_held rules.new result) }
{
    if out.over {
        return Step {
            at,
            name: left,
            room: out,
        };
    }
    let n = out.next;
    let a = sequence(s, at, rules, out);
    let p = a.room;
    let q = push(
        rules,
        p,
        Rule {
            left,
            clause: Clause::Unary(n, UnaryMark::None),
        },
    );
    let x = lexeme_at(s, a.at);
    let l = x.lexeme;
    if let Role::Bar = role_of(l) {
        return alternatives(s, x.end, left, rules, q);
    }
    Step {
        at: a.at,
        name: left,
        room: q,
    }
}
