// The public calls on a rule sheet: the verdict, the trees, the sweep and the refused line.
#![tactic(auto)]

ghost use Rattle.answering.specs.Verdict.{VerdictOf};
ghost use Rattle.answering.specs.Trees.{TreesOf};
ghost use Rattle.sweep_answers.specs.Sweep.{SweepOf};
ghost use Rattle.sheets.specs.RefusedLines.{refused_line, Hands};

use answering::{TreeRows, trees_read};
use grammar::Verdict;
use sheets::{Refusal, read_rules, read_tokens, refused_read};
use sweep_answers::{Swept, sweep_read};
use verdict_answers::verdict_read;

// The verdict on a sentence: has it no valid tree of nonterminal 0, one, or two? The span sheet is
// filled.
pub fn verdict(rules: &[u8], tokens: &[u8], words: &mut [u64]) -> Result<Verdict, Refusal>
    ensures { VerdictOf rules.now tokens.now words.old
        words.new result }
{
    verdict_read(read_rules(rules), tokens, words)
}

// The verdict on a sentence, and its one or two trees as rows in the lent memories.
pub fn trees(
    rules: &[u8],
    tokens: &[u8],
    words: &mut [u64],
    first: &mut [u8],
    second: &mut [u8],
) -> Result<TreeRows, Refusal>
    ensures { TreesOf rules.now tokens.now words.old
        words.new first.old first.new second.old
        second.new result }
{
    trees_read(read_rules(rules), tokens, words, first, second)
}

// Is there a sentence of 1 to `bound` tokens that can be read in two ways? The first candidate that
// has two trees, or clear.
pub fn sweep(rules: &[u8], bound: usize, words: &mut [u64]) -> Result<Swept, Refusal>
    ensures { SweepOf rules.now bound words.old words.new
        result }
{
    sweep_read(read_rules(rules), bound, words)
}

// The refused line of a call with a rule sheet and a token sheet.
pub fn refused_line<'a>(rules: &'a [u8], tokens: &'a [u8]) -> &'a [u8]
    ensures { Hands rules.entry tokens.entry result
        (refused_line rules.now tokens.now) }
{
    let g = read_rules(rules).err();
    let t = read_tokens(tokens).err();
    refused_read(g, t, rules, tokens)
}
