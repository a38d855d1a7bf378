// The calls for clause sheets: as those for rule sheets, with the rules of the expansion.
#![tactic(auto)]

ghost use Rattle.std.specs.Prelude.{length};
ghost use Rattle.grammar.specs.Content.{rules_of, Formed};
ghost use Rattle.sheets.specs.TokenSheets.{token_sheet};
ghost use Rattle.sheets.specs.RefusedLines.{held_by, Hands};
ghost use Rattle.list_answers.specs.Lists.{ListOn};
ghost use Rattle.clause_sheets.specs.ClauseSheets.{clause_sheet};
ghost use Rattle.call_clauses.specs.Calls.{ClauseVerdict, ClauseTrees, ClauseSweep};
ghost use Rattle.call_clauses.specs.Expand.{sheet_text, ExpandOf};

use answering::{TreeRows, trees_read};
use clause_sheets::read_clauses;
use grammar::{Grammar, Verdict};
use list_answers::given;
use lists::put_list;
use printing::put_bytes;
use rule_text::put_rules;
use sheets::{Refusal, read_tokens, refused_read};
use sweep_answers::{Swept, sweep_read};
use verdict_answers::verdict_read;

// The verdict on a sentence: can it be read in no way, one or two? The span sheet is filled.
pub fn verdict(clauses: &[u8], tokens: &[u8], words: &mut [u64]) -> Result<Verdict, Refusal>
    ensures { ClauseVerdict clauses.now tokens.now words.old
        words.new result }
{
    verdict_read(read_clauses(clauses), tokens, words)
}

// The verdict on a sentence, and its one or two trees as rows in the lent memories.
pub fn trees(
    clauses: &[u8],
    tokens: &[u8],
    words: &mut [u64],
    first: &mut [u8],
    second: &mut [u8],
) -> Result<TreeRows, Refusal>
    ensures { ClauseTrees clauses.now tokens.now words.old
        words.new first.old first.new second.old
        second.new result }
{
    trees_read(read_clauses(clauses), tokens, words, first, second)
}

// Is there a sentence of 1 to `bound` tokens that can be read in two ways? The first candidate that
// has two trees, or clear.
pub fn sweep(clauses: &[u8], bound: usize, words: &mut [u64]) -> Result<Swept, Refusal>
    ensures { ClauseSweep clauses.now bound words.old
        words.new result }
{
    sweep_read(read_clauses(clauses), bound, words)
}

// The rule sheet of rules that were read, given as a list of its bytes. On its own, so that its
// buffer does not take stack beneath the readers, which call each other.
#[inline(never)]
fn expanded(g: Grammar, out: &mut [u8]) -> Result<usize, Refusal>
    requires { Formed g }
    ensures { ListOn (sheet_text (rules_of g)) (length (sheet_text (rules_of g)))
        out.old out.new result }
{
    let mut sheet = [0u8; 4096];
    let n = put_bytes(&mut sheet, 0, b"left kind first second lay\n");
    let m = put_rules(&mut sheet, n, g);
    given(put_list(out, &sheet[..m]))
}

// The rule sheet that a clause sheet expands to, as a list of its bytes.
pub fn expand(clauses: &[u8], out: &mut [u8]) -> Result<usize, Refusal>
    ensures { ExpandOf clauses.now out.old out.new result }
{
    let book = read_clauses(clauses)?;
    expanded(book.grammar, out)
}

// The refused line of a call with a clause sheet and a token sheet, as a part of the sheet that
// holds it; with no such line, the clause sheet's first zero bytes.
pub fn refused_line<'a>(clauses: &'a [u8], tokens: &'a [u8]) -> &'a [u8]
    ensures { Hands clauses.entry tokens.entry result
        (held_by (clause_sheet clauses.now) (token_sheet tokens.now)) }
{
    let g = read_clauses(clauses).err();
    let t = read_tokens(tokens).err();
    refused_read(g, t, clauses, tokens)
}
