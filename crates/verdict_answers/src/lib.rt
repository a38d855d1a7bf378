// What a call for the verdict answers on sheets that were read.
#![tactic(auto)]

ghost use Rattle.grammar.specs.Content.{rules_of, Formed, Positioned};
ghost use Rattle.sheets.specs.Promises.{RulesRead};
ghost use Rattle.sheets.specs.Told.{told};
ghost use Rattle.answering.specs.Answers.{with_rules};
ghost use Rattle.answering.specs.Verdict.{VerdictOn, VerdictBy};
ghost use Rattle.grammar.specs.Sentences.{spelled};

use filling::judge;
use grammar::{Grammar, Sentence, Verdict};
use lengths::Book;
use sheets::{Fault, Refusal, read_tokens};
use spans::size;

// The verdict on rules and a sentence that were read.
fn judged(words: &mut [u64], s: Sentence, g: Grammar) -> Result<Verdict, Refusal>
    requires formed { Formed g }
    requires positioned { Positioned s }
    ensures { VerdictOn (rules_of g) (spelled s) words.old words.new
        result }
{
    if words.len() < size(s.count) {
        return Err(Fault::FewWords.into());
    }
    Ok(judge(words, s, g))
}

// The verdict on the rules that were read and a token sheet.
pub fn verdict_read(
    a: Result<Book, Refusal>,
    tokens: &[u8],
    words: &mut [u64],
) -> Result<Verdict, Refusal>
    requires { RulesRead a (told a) }
    ensures { VerdictBy (with_rules (told a) tokens.now) words.old
        words.new result }
{
    let book = a?;
    let s = read_tokens(tokens)?;
    judged(words, s, book.grammar)
}
