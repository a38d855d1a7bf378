// The rules of each nonterminal as a list of places.
#![tactic(auto)]

ghost use Rattle.std.specs.Prelude.{◌≡◌, ◌≤◌, length};
ghost use Rattle.std.specs.Option.{unwrap_or};
ghost use Rattle.grammar.specs.Content.{rules_of, Formed};
ghost use Rattle.rule_lists.specs.RuleLists.{FirstOf, Firsts, Listed};

use grammar::Grammar;

// The place of the first rule of `a` from `from` on.
fn rule_from(g: Grammar, a: u8, from: usize) -> Option<usize>
    requires { Formed g × (from ≤ g.count) }
    ensures { FirstOf (rules_of g) a from (unwrap_or result 128) }
{
    for i in from..g.count {
        let r = g.rules[i];
        if r.left == a {
            return Some(i);
        }
    }
    None
}

// Write the place of each nonterminal's first rule, 128 where it has none.
// Kept: `Listed` has numbers in lent words, so 128, past all rules, stands for none.
fn list_firsts(g: Grammar, lists: &mut [u64])
    requires formed { Formed g }
    requires lists_len { length lists.old ≡ 192 }
    ensures { Firsts (rules_of g) 64 lists.new
        × (length lists.new ≡ 192) }
{
    for a in 0u8..64 {
        let r = rule_from(g, a, 0).unwrap_or(128);
        lists[a as usize] = r as u64;
    }
}

// Write the place of the next rule with the same left behind each rule, 128 where there is none.
fn list_nexts(g: Grammar, lists: &mut [u64])
    requires formed { Formed g }
    requires lists_len { (length lists.old ≡ 192) × Firsts (rules_of g) 64 lists.old }
    ensures { Listed (rules_of g) lists.new }
{
    for i in 0..g.count {
        let x = g.rules[i];
        let r = rule_from(g, x.left, i + 1).unwrap_or(128);
        lists[64 + i] = r as u64;
    }
}

// The rules of each nonterminal as a list: at `a` the place of its first rule, at 64 + i that of
// the next behind the rule at i.
pub fn list_rules(g: Grammar, lists: &mut [u64])
    requires formed { Formed g }
    requires lists_len { length lists.old ≡ 192 }
    ensures { Listed (rules_of g) lists.new }
{
    list_firsts(g, lists);
    list_nexts(g, lists);
}
