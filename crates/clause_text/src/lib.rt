// The output of the calls on clause sheets, from the sheets to the whole output in a lent buffer.
#![tactic(auto)]

ghost use Rattle.std.specs.Prelude.{◌≤◌, length};
ghost use Rattle.clause_sheets.specs.ClauseSheets.{clause_sheet};
ghost use Rattle.call_clauses.specs.Calls.{clause_sheets_of};
ghost use Rattle.check_text.specs.Check.{TreesText};
ghost use Rattle.sweep_text.specs.Sweep.{SweepText};
ghost use Rattle.text.specs.Printed.{Printed};
ghost use Rattle.clause_text.specs.Texts.{ExpandText};

use call_clauses::{expand, sweep, trees};
use check_text::put_answered;
use spans::SHEET_WORDS;
use sweep_text::put_swept;
use text::put_sheet;

// The answer on a clause sheet and a token sheet, and its trees.
pub fn clauses_text(clauses: &[u8], tokens: &[u8], out: &mut [u8]) -> usize
    requires { 262144 ≤ length out.old }
    ensures { Printed TreesText (clause_sheets_of clauses.now tokens.now)
        out.old out.new result }
{
    let mut words = [0u64; SHEET_WORDS];
    let mut one = [0u8; 16384];
    let mut two = [0u8; 16384];
    let r = trees(clauses, tokens, &mut words, &mut one, &mut two);
    put_answered(out, r, &one, &two)
}

// The answer on a clause sheet and a bound, and the found sentence.
pub fn clauses_sweep_text(clauses: &[u8], k: u32, out: &mut [u8]) -> usize
    requires { 262144 ≤ length out.old }
    ensures { Printed (SweepText k) (clause_sheet clauses.now) out.old
        out.new result }
{
    let mut words = [0u64; 58];
    let r = sweep(clauses, k as usize, &mut words);
    put_swept(out, r)
}

// The rule sheet that a clause sheet expands to.
pub fn expand_text(clauses: &[u8], out: &mut [u8]) -> usize
    requires { 262144 ≤ length out.old }
    ensures { Printed ExpandText clauses.now out.old out.new
        result }
{
    let mut sheet = [0u8; 4096];
    let r = expand(clauses, &mut sheet);
    put_sheet(out, r, &sheet)
}
