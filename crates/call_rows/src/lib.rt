// The public call for row counts: how many rows each tree has, before memory is set aside for them
// (docs/FORMAT.md, "Calls and lent memory").
#![tactic(auto)]

ghost use Rattle.grammar.specs.Content.{rules_of, Formed, Positioned};
ghost use Rattle.call_rows.specs.Rows.{RowsOn, RowsOf};
ghost use Rattle.grammar.specs.Sentences.{spelled};

use filling::judge;
use grammar::{Grammar, Sentence, Verdict};
use row_counts::count_rows;
use sheets::{Fault, Refusal, read_rules, read_tokens};
use spans::size;

// The verdict, and the row count of each tree: 0 for one that the verdict lacks, none for one with
// more than 4,294,967,295 rows.
#[derive(Clone, Copy)]
pub struct CountedRows {
    pub verdict: Verdict,
    pub first: Option<u32>,
    pub second: Option<u32>,
}

// The row counts of rules and a sentence that were read.
fn counted(words: &mut [u64], s: Sentence, g: Grammar) -> Result<CountedRows, Refusal>
    requires formed { Formed g }
    requires positioned { Positioned s }
    ensures { RowsOn (rules_of g) (spelled s) words.old words.new result }
{
    if words.len() < size(s.count) {
        return Err(Fault::FewWords.into());
    }
    let v = judge(words, s, g);
    match v {
        Verdict::None => Ok(CountedRows {
            verdict: v,
            first: Some(0),
            second: Some(0),
        }),
        Verdict::One => {
            let c = count_rows(words, s, g, false);
            Ok(CountedRows {
                verdict: v,
                first: c.first,
                second: c.second,
            })
        }
        Verdict::Two => {
            let c = count_rows(words, s, g, true);
            Ok(CountedRows {
                verdict: v,
                first: c.first,
                second: c.second,
            })
        }
    }
}

// The verdict on a sentence, and how many rows each of its trees has. The span sheet is filled.
pub fn rows(rules: &[u8], tokens: &[u8], words: &mut [u64]) -> Result<CountedRows, Refusal>
    ensures { RowsOf rules.now tokens.now words.old
        words.new result }
{
    let book = read_rules(rules)?;
    let s = read_tokens(tokens)?;
    counted(words, s, book.grammar)
}
