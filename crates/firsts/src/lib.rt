// The terminals that words of each nonterminal may begin with, in a word for each nonterminal.
#![tactic(auto)]

ghost use Rattle.std.specs.Prelude.{◌≤◌, ◌<◌, length};
ghost use Rattle.grammar.specs.Cycles.{Nullable};
ghost use Rattle.grammar.specs.Content.{rules_of, Formed};
ghost use Rattle.acyclic.specs.Exact.{Exactly};
ghost use Rattle.pairs.specs.Survey.{Productive};
ghost use Rattle.firsts.specs.Rows.{ByTerminal, ByNonterminal, RowOf, TakesRows};

use grammar::Grammar;
use sets::{has, with};
use survey::beginning;

// The nonterminals that begin with each terminal.
fn fill_columns(g: Grammar, nulls: u64, prods: u64, out: &mut [u64])
    requires formed { Formed g × Exactly nulls (Nullable (rules_of g))
        × Exactly prods (Productive (rules_of g)) }
    requires in_bounds { 64 ≤ length out.old }
    ensures { ByTerminal (rules_of g) 64 out.new }
{
    for x in 0u8..64 {
        out[x as usize] = beginning(g, nulls, prods, x);
    }
}

// The terminals whose sets have the nonterminal.
fn row(columns: &[u64], a: u8) -> u64
    requires { (a < 64) × (64 ≤ length columns.now) }
    ensures { RowOf columns.now a 64 result }
{
    let mut set: u64 = 0;
    for x in 0u8..64 {
        if has(columns[x as usize], a) {
            set = with(set, x);
        }
    }
    set
}

// The rows of all nonterminals.
fn fill_rows(columns: &[u64], out: &mut [u64])
    requires { (64 ≤ length columns.now) × (64 ≤ length out.old) }
    ensures { TakesRows columns.now 64 out.new }
{
    for a in 0u8..64 {
        out[a as usize] = row(columns, a);
    }
}

// The terminals that words of each nonterminal may begin with.
pub fn fill_firsts(g: Grammar, nulls: u64, prods: u64, out: &mut [u64])
    requires formed { Formed g × Exactly nulls (Nullable (rules_of g))
        × Exactly prods (Productive (rules_of g)) }
    requires in_bounds { 64 ≤ length out.old }
    ensures { ByNonterminal (rules_of g) 64 out.new }
{
    let mut columns = [0u64; 64];
    fill_columns(g, nulls, prods, &mut columns);
    fill_rows(&columns, out);
}
