// The public calls for the test at every length, on rule sheets and on clause sheets: clear, or
// unknown with the list of all doubts.
#![tactic(auto)]

ghost use Rattle.std.specs.Prelude.{◌≡◌, ◌≤◌, length};
ghost use Rattle.grammar.specs.Content.{rules_of, Formed};
ghost use Rattle.sheets.specs.Promises.{RulesRead};
ghost use Rattle.sheets.specs.Told.{told};
ghost use Rattle.doubt_list.specs.Marks.{Ground};
ghost use Rattle.call_always.specs.Always.{emptied};
ghost use Rattle.call_always.specs.Always.{AlwaysOn, AlwaysBy, AlwaysOf};
ghost use Rattle.call_always.specs.Clauses.{ClauseAlways};
ghost use Rattle.call_always.specs.Replying.{replied, DoubtsTold};

use clause_sheets::read_clauses;
use doubt_list::{Sets, list_doubts};
use doubt_marks::weigh;
use grammar::Grammar;
use lengths::Book;
use sheets::{Fault, Refusal, read_rules};
use spans::clear;

// No sentence has two trees, whatever its length; or it is not known, and the list has so many
// entries.
#[derive(Clone, Copy)]
pub enum Told {
    Clear,
    Unknown(usize),
}

// What is told of a list that was given, or did not fit.
pub fn reply(l: Option<usize>) -> Result<Told, Refusal>
    ensures { result ≡ replied l }
{
    match l {
        None => Err(Fault::FewRows.into()),
        Some(0) => Ok(Told::Clear),
        Some(n) => Ok(Told::Unknown(n)),
    }
}

// The list of the doubts of rules that were weighed.
fn list_weighed(g: Grammar, s: Sets, marks: &[u64], list: &mut [u8]) -> Result<Told, Refusal>
    requires { Ground g s marks.now }
    ensures { DoubtsTold (rules_of g) list.old list.new result }
{
    reply(list_doubts(g, s, marks, list))
}

// The doubts of rules, by tables in the lent words, which end 0.
fn tell(g: Grammar, words: &mut [u64], list: &mut [u8]) -> Result<Told, Refusal>
    requires formed { Formed g }
    requires in_bounds { 73728 ≤ length words.old }
    ensures doubts_told { DoubtsTold (rules_of g) list.old list.new result }
    ensures words_after { words.new ≡ emptied words.old }
{
    let mut marks = [0u64; 256];
    let s = weigh(g, words, &mut marks);
    clear(words, 73728);
    list_weighed(g, s, &marks, list)
}

// The answer on rules that were read.
fn answered(g: Grammar, words: &mut [u64], list: &mut [u8]) -> Result<Told, Refusal>
    requires { Formed g }
    ensures { AlwaysOn (rules_of g) words.old words.new
        list.old list.new result }
{
    if words.len() < 73728 {
        return Err(Fault::FewWords.into());
    }
    tell(g, words, list)
}

// The answer by what a reader of a sheet with rules answered.
fn always_read(
    a: Result<Book, Refusal>,
    words: &mut [u64],
    list: &mut [u8],
) -> Result<Told, Refusal>
    requires { RulesRead a (told a) }
    ensures { AlwaysBy (told a) words.old
        words.new list.old list.new result }
{
    let book = a?;
    answered(book.grammar, words, list)
}

// Has no sentence two trees, whatever its length? Clear, or unknown, with all doubts in the lent
// bytes, four bytes an entry.
pub fn always(rules: &[u8], words: &mut [u64], list: &mut [u8]) -> Result<Told, Refusal>
    ensures { AlwaysOf rules.now words.old words.new
        list.old list.new result }
{
    always_read(read_rules(rules), words, list)
}

// Has no sentence two readings, whatever its length? Clear, or unknown, with all doubts about the
// expansion's rules.
pub fn clauses_always(clauses: &[u8], words: &mut [u64], list: &mut [u8]) -> Result<Told, Refusal>
    ensures { ClauseAlways clauses.now words.old words.new
        list.old list.new result }
{
    always_read(read_clauses(clauses), words, list)
}
