// The public call for places: all nonterminals and words at which the readings of a sentence part
// (docs/FORMAT.md, "Calls and lent memory").
#![tactic(auto)]

ghost use Rattle.std.specs.Prelude.{◌≡◌};
ghost use Rattle.grammar.specs.Trees.{TwoTrees};
ghost use Rattle.grammar.specs.Content.{rules_of, Formed, Positioned};
ghost use Rattle.grammar.specs.SpanSheet.{SpanSheet};
ghost use Rattle.place_list.specs.Given.{PlacesGiven};
ghost use Rattle.call_places.specs.Places.{PlacesOn, PlacesOf};
ghost use Rattle.call_places.specs.Replies.{NothingGiven, replied};
ghost use Rattle.grammar.specs.Sentences.{spelled};

use contained_spans::find_places;
use filling::judge;
use grammar::{Grammar, Sentence, Verdict};
use lists::{begin, finish};
use place_list::list_places;
use sheets::{Fault, Refusal, read_rules, read_tokens};
use spans::{SPANS, size};

// The verdict, and the list's number of entries.
#[derive(Clone, Copy)]
pub struct ListedPlaces {
    pub verdict: Verdict,
    pub count: usize,
}

// The answer with a verdict whose list was given, or did not fit.
fn reply(v: Verdict, l: Option<usize>) -> Result<ListedPlaces, Refusal>
    ensures { result ≡ replied v l }
{
    match l {
        Some(count) => Ok(ListedPlaces { verdict: v, count }),
        None => Err(Fault::FewRows.into()),
    }
}

// The empty list: where there are not two trees.
fn list_none(list: &mut [u8]) -> Option<usize>
    ensures { NothingGiven list.old list.new result }
{
    finish(list, begin())
}

// The list of a sentence that has two trees.
fn list_two(words: &[u64], s: Sentence, g: Grammar, list: &mut [u8]) -> Option<usize>
    requires formed { Formed g }
    requires positioned { Positioned s }
    requires span_sheet { SpanSheet (rules_of g) (spelled s) words.now
        × TwoTrees (rules_of g) 0 (spelled s) }
    ensures { PlacesGiven (rules_of g) (spelled s) list.old list.new
        result }
{
    let mut parts = [0u64; SPANS];
    find_places(words, s, g, &mut parts);
    list_places(&parts, s, g, list)
}

// The places of rules and a sentence that were read.
fn listed(
    words: &mut [u64],
    s: Sentence,
    g: Grammar,
    list: &mut [u8],
) -> Result<ListedPlaces, Refusal>
    requires formed { Formed g }
    requires positioned { Positioned s }
    ensures { PlacesOn (rules_of g) (spelled s) words.old words.new
        list.old list.new result }
{
    if words.len() < size(s.count) {
        return Err(Fault::FewWords.into());
    }
    let v = judge(words, s, g);
    match v {
        Verdict::None => reply(v, list_none(list)),
        Verdict::One => reply(v, list_none(list)),
        Verdict::Two => reply(v, list_two(words, s, g, list)),
    }
}

// The verdict on a sentence, and all places at which its readings part, three bytes an entry, in
// the lent bytes. The span sheet is filled.
pub fn places(
    rules: &[u8],
    tokens: &[u8],
    words: &mut [u64],
    list: &mut [u8],
) -> Result<ListedPlaces, Refusal>
    ensures { PlacesOf rules.now tokens.now words.old
        words.new list.old list.new result }
{
    let book = read_rules(rules)?;
    let s = read_tokens(tokens)?;
    listed(words, s, book.grammar, list)
}
