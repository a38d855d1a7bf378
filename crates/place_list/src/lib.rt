// The list of all places at which the readings of a sentence part, in lent bytes.
#![tactic(auto)]

ghost use Rattle.std.specs.Prelude.{◌+◌, ◌-◌, ◌≤◌, ◌<◌, ◌≡◌};
ghost use Rattle.grammar.specs.Content.{rules_of};
ghost use Rattle.grammar.specs.Rows.{start_of};
ghost use Rattle.places.specs.Places.{Place};
ghost use Rattle.place_list.specs.Scene.{Scene};
ghost use Rattle.place_list.specs.Steps.{entry, Lists};
ghost use Rattle.place_list.specs.Given.{PlacesGiven};
ghost use Rattle.grammar.specs.Sentences.{spelled};

use grammar::{Grammar, Sentence};
use lists::{Listing, begin, finish, put};
use sets::has;
use spans::pair_at;

// List `a` over the span, which is a place.
fn list_one(
    s: Sentence,
    g: Grammar,
    a: u8,
    start: usize,
    len: usize,
    list: &mut [u8],
    l: Listing,
) -> Listing
    requires place { Place (rules_of g) (spelled s) a start len × (start + len ≤ 64) }
    requires count_le_at { l.count ≤ l.at }
    ensures { Lists (rules_of g) (spelled s) list.old list.new l result
        (entry a start len) (entry (a + 1) start len) }
{
    let e = [a, start as u8, len as u8];
    put(list, l, &e, 1)
}

// List the places over the span.
fn list_span(
    parts: &[u64],
    s: Sentence,
    g: Grammar,
    start: usize,
    len: usize,
    list: &mut [u8],
    l: Listing,
) -> Listing
    requires scene { Scene g s parts.now }
    requires len_bound { (start + len ≤ s.count) × (start_of start len ≡ start) }
    requires count_le_at { l.count ≤ l.at }
    ensures { Lists (rules_of g) (spelled s) list.old list.new l result
        (entry 0 start len) (entry 64 start len) }
{
    let n = s.count;
    let p = pair_at(n, start, len);
    let set = parts[p];
    let mut k = l;
    for a in 0u8..64 {
        if !has(set, a) {
            continue;
        }
        k = list_one(s, g, a, start, len, list, k);
    }
    k
}

// List the places over the spans of `len` tokens.
fn list_row(
    parts: &[u64],
    s: Sentence,
    g: Grammar,
    len: usize,
    list: &mut [u8],
    l: Listing,
) -> Listing
    requires scene { Scene g s parts.now }
    requires len_nonzero { (0 < len) × (len ≤ s.count) }
    requires count_le_at { l.count ≤ l.at }
    ensures { Lists (rules_of g) (spelled s) list.old list.new l result
        (entry 0 0 len) (entry 0 0 (len - 1)) }
{
    let mut k = l;
    for start in 0..=s.count - len {
        k = list_span(parts, s, g, start, len, list, k);
    }
    k
}

// List all places, the longest words first, the empty word last.
fn list_all(parts: &[u64], s: Sentence, g: Grammar, list: &mut [u8], l: Listing) -> Listing
    requires scene { Scene g s parts.now }
    requires count_le_at { l.count ≤ l.at }
    ensures { Lists (rules_of g) (spelled s) list.old list.new l result
        (entry 0 0 s.count) (entry 64 0 0) }
{
    let mut k = l;
    for len in (1..=s.count).rev() {
        k = list_row(parts, s, g, len, list, k);
    }
    list_span(parts, s, g, 0, 0, list, k)
}

// The list of the places in the lent bytes, with 0 after it; all 0 where it does not fit.
pub fn list_places(parts: &[u64], s: Sentence, g: Grammar, list: &mut [u8]) -> Option<usize>
    requires { Scene g s parts.now }
    ensures { PlacesGiven (rules_of g) (spelled s) list.old list.new result }
{
    let l = list_all(parts, s, g, list, begin());
    finish(list, l)
}
