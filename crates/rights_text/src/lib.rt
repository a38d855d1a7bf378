// The output of the calls on a shared tour, from the sheets to the whole output in a lent buffer.
#![tactic(auto)]

ghost use Rattle.std.specs.Prelude.{◌≤◌, length};
ghost use Rattle.text.specs.Printed.{Printed};
ghost use Rattle.rights_text.specs.Texts.{ShowText, ChangeText};

use call_rights::{change, show};
use check_text::put_answered;
use spans::SHEET_WORDS;
use text::put_sheet;

// The answer on a rule sheet and a token sheet, and its trees as the user may see them; its length.
pub fn show_text(rules: &[u8], tokens: &[u8], rights: &[u8], user: u32, out: &mut [u8]) -> usize
    requires { 262144 ≤ length out.old }
    ensures { Printed (ShowText rules.now tokens.now
        rights.now) user out.old out.new result }
{
    let mut words = [0u64; SHEET_WORDS];
    let mut one = [0u8; 16384];
    let mut two = [0u8; 16384];
    let u = user as usize;
    let r = show(rules, tokens, rights, u, &mut words, &mut one, &mut two);
    put_answered(out, r, &one, &two)
}

// The rule sheet with another mark in one of its rules, if the user may change that; its length.
pub fn change_text(
    rules: &[u8],
    rights: &[u8],
    user: u32,
    rule: u32,
    lay: &[u8],
    out: &mut [u8],
) -> usize
    requires { 262144 ≤ length out.old }
    ensures { Printed (ChangeText rules.now rights.now user rule)
        lay.now out.old out.new result }
{
    let mut sheet = [0u8; 16400];
    let u = user as usize;
    let p = rule as usize;
    let r = change(rules, rights, u, p, lay, &mut sheet);
    put_sheet(out, r, &sheet)
}
