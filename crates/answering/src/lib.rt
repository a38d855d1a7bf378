// What a call for trees answers on sheets that were read, and the form of that answer.
#![tactic(auto)]

ghost use Rattle.std.specs.Prelude.{◌≡◌};
ghost use Rattle.grammar.specs.Content.{rules_of, Formed, Positioned};
ghost use Rattle.tree_writer.specs.Written.{seen_by};
ghost use Rattle.tree_view.specs.Members.{member};
ghost use Rattle.sheets.specs.Promises.{RulesRead};
ghost use Rattle.sheets.specs.Told.{told};
ghost use Rattle.answering.specs.Answers.{with_rules};
ghost use Rattle.answering.specs.Counted.{counted};
ghost use Rattle.answering.specs.Trees.{TreesOn, TreesBy};
ghost use Rattle.grammar.specs.Sentences.{spelled};

use filling::judge;
use grammar::{Grammar, Sentence, Verdict};
use lengths::Book;
use sheets::{Fault, Refusal, read_tokens};
use spans::size;
use tree_writer::{Counts, write_none, write_trees};

// The verdict, and each tree's row count, 0 for a tree not written.
#[derive(Clone, Copy)]
pub struct TreeRows {
    pub verdict: Verdict,
    pub first: usize,
    pub second: usize,
}

// The answer with a verdict whose trees were written, or did not fit.
pub fn fitted(v: Verdict, c: Option<Counts>) -> Result<TreeRows, Refusal>
    ensures { result ≡ counted v c }
{
    match c {
        Some(c) => Ok(TreeRows {
            verdict: v,
            first: c.first,
            second: c.second,
        }),
        None => Err(Fault::FewRows.into()),
    }
}

// The trees of rules and a sentence that were read, written as far as a user sees them who sees
// these nonterminals.
pub fn shown(
    words: &mut [u64],
    s: Sentence,
    g: Grammar,
    sees: u64,
    first: &mut [u8],
    second: &mut [u8],
) -> Result<TreeRows, Refusal>
    requires formed { Formed g }
    requires positioned { Positioned s }
    ensures { TreesOn (seen_by (member sees)) (rules_of g) (spelled s) words.old
        words.new first.old first.new second.old
        second.new result }
{
    if words.len() < size(s.count) {
        return Err(Fault::FewWords.into());
    }
    let v = judge(words, s, g);
    match v {
        Verdict::None => fitted(v, write_none(first, second)),
        Verdict::One => fitted(v, write_trees(words, s, g, sees, first, second, false)),
        Verdict::Two => fitted(v, write_trees(words, s, g, sees, first, second, true)),
    }
}

// The trees of the rules that were read and a token sheet, with all nonterminals seen.
pub fn trees_read(
    a: Result<Book, Refusal>,
    tokens: &[u8],
    words: &mut [u64],
    first: &mut [u8],
    second: &mut [u8],
) -> Result<TreeRows, Refusal>
    requires { RulesRead a (told a) }
    ensures { TreesBy (with_rules (told a) tokens.now) words.old
        words.new first.old first.new second.old
        second.new result }
{
    let book = a?;
    let s = read_tokens(tokens)?;
    shown(words, s, book.grammar, u64::MAX, first, second)
}
