// What a sweep answers on rules that were read, and the form of its answer.
#![tactic(auto)]

ghost use Rattle.std.specs.Prelude.{◌≡◌};
ghost use Rattle.grammar.specs.Content.{rules_of, Formed};
ghost use Rattle.lengths.specs.Indexes.{Exact};
ghost use Rattle.sheets.specs.Promises.{RulesRead};
ghost use Rattle.sheets.specs.Told.{told};
ghost use Rattle.sweep_answers.specs.Sweep.{no_sentence, SweepTaken, SweepBy};
ghost use Rattle.sweep_answers.specs.SweepReplies.{SweepOn};

use candidates::{terminal_count, terminals, within_limit};
use grammar::{Column, Grammar, Line, Sentence, Token, Width};
use lengths::{Book, Index};
use sheets::{Fault, Refusal};
use spans::size;
use sweeping::sweep_rules;

// The found sentence that can be read in two ways, or none: clear; and how many candidates were
// tried.
#[derive(Clone, Copy)]
pub struct Swept {
    pub found: Option<Sentence>,
    pub tried: u64,
}

// The sentence of no tokens.
pub fn nothing() -> Sentence
    ensures { result ≡ no_sentence }
{
    Sentence {
        tokens: [Token {
            terminal: 0,
            line: Line(0),
            column: Column(0),
            width: Width(0),
        }; 64],
        count: 0,
    }
}

// A sweep that is taken on.
fn taken(g: Grammar, x: Index, k: usize, words: &mut [u64]) -> Result<Swept, Refusal>
    requires formed { Formed g }
    requires exact { Exact (rules_of g) x }
    requires sweep_taken { SweepTaken (rules_of g) k words.old }
    ensures { SweepOn (rules_of g) k words.old words.new result }
{
    let s = sweep_rules(g, x, k, words);
    Ok(Swept {
        found: s.sentence,
        tried: s.tried,
    })
}

// The sweep on rules that were read: 23, 24, 21, else its answer.
fn judged(g: Grammar, x: Index, k: usize, words: &mut [u64]) -> Result<Swept, Refusal>
    requires formed { Formed g }
    requires exact { Exact (rules_of g) x }
    ensures { SweepOn (rules_of g) k words.old words.new result }
{
    if k == 0 {
        return Err(Fault::BadBound.into());
    }
    if 7 < k {
        return Err(Fault::BadBound.into());
    }
    let t = terminal_count(terminals(g));
    if !within_limit(t, k as u64) {
        return Err(Fault::ManyCandidates.into());
    }
    if words.len() < size(k) {
        return Err(Fault::FewWords.into());
    }
    taken(g, x, k, words)
}

// The sweep on the rules that were read.
pub fn sweep_read(
    a: Result<Book, Refusal>,
    bound: usize,
    words: &mut [u64],
) -> Result<Swept, Refusal>
    requires { RulesRead a (told a) }
    ensures { SweepBy (told a) bound words.old words.new result }
{
    let book = a?;
    judged(book.grammar, book.index, bound, words)
}
