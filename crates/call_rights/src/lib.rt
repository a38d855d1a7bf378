// The public calls on a shared tour (docs/FORMAT.md, "Closed nodes"): the trees as a user may see
// them, and a rule sheet with a mark that a user may change.
#![tactic(auto)]

ghost use Rattle.std.specs.Prelude.{◌≡◌, ◌≤◌};
ghost use Rattle.grammar.specs.Content.{rules_of, Formed};
ghost use Rattle.sheets.specs.Items.{accepted};
ghost use Rattle.sheets.specs.RuleSheets.{rule_sheet};
ghost use Rattle.call_rights.specs.Show.{ShowOf};
ghost use Rattle.call_rights.specs.Change.{ChangeDone, ChangeOn, ChangeOf};
ghost use Rattle.call_rights.specs.Inner.{Named};
ghost use Rattle.tree_view.specs.Members.{member};

use answering::{TreeRows, shown};
use fields::{Lay, Readable};
use grammar::{Clause, Grammar};
use list_answers::given;
use mark_change::{lay_fits, put_changed};
use rights::read_rights;
use sets::has;
use sheets::{Fault, Refusal, read_rules, read_tokens};

// The verdict on a sentence, and its one or two trees as the user may see them: a node outside the
// user's ranges is one row of kind 4.
pub fn show(
    rules: &[u8],
    tokens: &[u8],
    rights: &[u8],
    user: usize,
    words: &mut [u64],
    first: &mut [u8],
    second: &mut [u8],
) -> Result<TreeRows, Refusal>
    ensures { ShowOf rules.now tokens.now rights.now user
        words.old words.new first.old first.new
        second.old second.new result }
{
    let book = read_rules(rules)?;
    let s = read_tokens(tokens)?;
    let granted = read_rights(rights, user)?;
    shown(words, s, book.grammar, granted.sees, first, second)
}

// The new mark of a rule that may be changed: 2 and 4 in its line, else the changed sheet.
fn marked(
    rules: &[u8],
    c: Clause,
    rule: usize,
    lay: &[u8],
    bytes: &mut [u8],
) -> Result<usize, Refusal>
    requires named { Named rules.now rule c }
    requires rule_bound { rule ≤ 128 }
    ensures { ChangeDone rules.now rule lay.now bytes.old
        bytes.new result }
{
    match Lay::of(lay) {
        None => Err(Refusal {
            fault: Fault::RuleForm,
            line: rule + 1,
        }),
        Some(y) => {
            if lay_fits(c, y) {
                return given(put_changed(rules, rule, lay, bytes));
            }
            Err(Refusal {
                fault: Fault::RuleLay,
                line: rule + 1,
            })
        }
    }
}

// The change of a rule of a sheet that was read: 51 before the new mark is looked at.
fn changed_to(
    rules: &[u8],
    g: Grammar,
    changes: u64,
    rule: usize,
    lay: &[u8],
    bytes: &mut [u8],
) -> Result<usize, Refusal>
    requires formed { Formed g }
    requires rules_value { rule_sheet rules.now ≡ accepted (rules_of g) }
    ensures { ChangeOn (member changes) rules.now (rules_of g) rule
        lay.now bytes.old bytes.new result }
{
    if rule == 0 {
        return Err(Fault::NoRight.into());
    }
    if g.count < rule {
        return Err(Fault::NoRight.into());
    }
    let i = rule - 1;
    let r = g.rules[i];
    if has(changes, r.left) {
        let c = r.clause;
        return marked(rules, c, rule, lay, bytes);
    }
    Err(Fault::NoRight.into())
}

// A rule sheet with another mark in the rule at a place, counted from 1, as a list of its bytes, if
// the user may change that rule.
pub fn change(
    rules: &[u8],
    rights: &[u8],
    user: usize,
    rule: usize,
    lay: &[u8],
    bytes: &mut [u8],
) -> Result<usize, Refusal>
    ensures { ChangeOf rules.now rights.now user rule
        lay.now bytes.old bytes.new result }
{
    let book = read_rules(rules)?;
    let granted = read_rights(rights, user)?;
    changed_to(rules, book.grammar, granted.changes, rule, lay, bytes)
}
