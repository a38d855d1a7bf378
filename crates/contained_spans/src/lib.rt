// Which nonterminals some whole valid tree contains over which word, and which of them have two
// choices there, read off the span sheet: one word a span, start by start, the longest spans first.
#![tactic(auto)]

ghost use Rattle.std.specs.Prelude.{◌≡◌, ◌+◌, ◌*◌, ◌≤◌, ◌<◌, length};
ghost use Rattle.grammar.specs.declared.Clause.TheVariants as Kind;
ghost use Rattle.sets.specs.Sets.{In};
ghost use Rattle.grammar.specs.Content.{rules_of, SmallClause, Formed};
ghost use Rattle.grammar.specs.Trees.{Derives};
ghost use Rattle.grammar.specs.SpanSheet.{pairs, SpanSheet};
ghost use Rattle.marks.specs.Drafts.{drafted};
ghost use Rattle.tables.specs.Tables.{Room};
ghost use Rattle.rule_lists.specs.RuleLists.{Listed};
ghost use Rattle.cuts.specs.Joining.{Joins};
ghost use Rattle.cut_tables.specs.Tables.{Columns};
ghost use Rattle.contained_spans.specs.PlaceWords.{PlaceWords};
ghost use Rattle.contained_spans.specs.Joining.{Space, Kid, CutKids, Inner, Fresh};
ghost use Rattle.contained_spans.specs.Counting.{CountTells, Plus, Noted};
ghost use Rattle.contained_spans.specs.Seeing.{MaskBy, HitsBy, Unseen, Bounded, SeenAt};
ghost use Rattle.contained_spans.specs.Seeing.{SeenColumns, Ready};
ghost use Rattle.contained_spans.specs.Trying.{TriedLeft, CutsSpread, ClauseSpread};
ghost use Rattle.contained_spans.specs.Trying.{Sides, EndsSpread};
ghost use Rattle.contained_spans.specs.Spreading.{Known, Worked, SpanDone, StartDone};
ghost use Rattle.contained_spans.specs.Spreading.{Begun, Done, AllDone};
ghost use Rattle.grammar.specs.Sentences.{spelled};

use choices::clause_fits;
use cut_tables::{begin_row, load_columns};
use cuts::{cut_masks, members_of};
use grammar::{BinaryMark, Clause, Grammar, Sentence};
use marks::{Draft, SpanMarks, span_marks};
use rule_lists::list_rules;
use sets::{has, wide, with};
use spans::{SPANS, clear, pair_at, size};

// Put `a` into the set at `p`.
fn add(reach: &mut [u64], p: usize, a: u8)
    requires p_in_bounds { p < length reach.old }
    requires a_bound { a < 64 }
    ensures { Joins (λ q B. (q ≡ p) × (B ≡ a)) reach.old reach.new }
{
    reach[p] = with(reach[p], a);
}

// Put in what lies beneath the clause, with `left` tokens on its left.
fn add_kids(reach: &mut [u64], n: usize, c: Clause, start: usize, len: usize, left: usize)
    requires space { Space reach.old n start len × (left ≤ len) }
    requires small_clause { SmallClause c }
    ensures { Joins (Kid n start len c left) reach.old reach.new }
{
    match c {
        Clause::Empty => {}
        Clause::Atom(_, _) => {}
        Clause::Unary(b, _) => {
            let p = pair_at(n, start, len);
            add(reach, p, b);
        }
        Clause::Binary(b, e, _) => {
            let p = pair_at(n, start, left);
            let q = pair_at(n, start + left, len - left);
            add(reach, p, b);
            add(reach, q, e);
        }
    }
}

// Put in what lies beneath the clause, with `left` tokens on its left, where it fits the span so.
// In how many ways does it?
fn try_left(
    words: &[u64],
    reach: &mut [u64],
    n: usize,
    c: Clause,
    start: usize,
    len: usize,
    left: usize,
    k: SpanMarks,
) -> u8
    requires room { Room words.now n start len × Space reach.old n start len × (left ≤ len) }
    requires small_clause { SmallClause c }
    ensures { TriedLeft words.now n start len k c left reach.old
        reach.new result }
{
    if !clause_fits(words, n, c, start, len, left, k) {
        return 0;
    }
    add_kids(reach, n, c, start, len, left);
    1
}

// Put in what lies beneath the clause at each cut of the set.
fn add_cuts(reach: &mut [u64], n: usize, c: Clause, start: usize, len: usize, set: u64)
    requires space { Space reach.old n start len × Inner set start len }
    requires small_clause { SmallClause c }
    ensures { Joins (CutKids n start len c set) reach.old reach.new }
{
    for cut in members_of(set) {
        add_kids(reach, n, c, start, len, cut as usize - start);
    }
}

// The cuts at which the mark holds, over a span from `start` on.
fn mask(k: SpanMarks, m: BinaryMark, start: usize) -> u64
    requires { start < 64 }
    ensures { MaskBy k start m result }
{
    let w = cut_masks(k, start);
    match m {
        BinaryMark::None => 18446744073709551615,
        BinaryMark::Align => w.align,
        BinaryMark::Indent => w.indent,
    }
}

// The cuts at which a B clause stands over the span.
fn hits(cuts: &[u64], b: u8, e: u8, m: BinaryMark, start: usize, len: usize, k: SpanMarks) -> u64
    requires b_bound { (b < 64) × (e < 64) × (length cuts.now ≡ 4160) }
    requires len_nonzero { (0 < len) × (start + len ≤ 64) }
    ensures { HitsBy cuts.now b e m start len k result }
{
    let row = cuts[wide(b)];
    let col = cuts[64 * (start + len) + wide(e)];
    row & col & mask(k, m, start)
}

// Note the cuts in two words, and give those that were not in both.
fn unseen(seen: &mut [u64], p: usize, q: usize, set: u64) -> u64
    requires { (p < length seen.old) × (q < length seen.old) }
    ensures { Unseen seen.old seen.new p q set result }
{
    let both = seen[p] & seen[q];
    seen[p] = seen[p] | set;
    seen[q] = seen[q] | set;
    set & (set ^ both)
}

// Has the set no member, one, or two or more?
fn ways(set: u64) -> u8
    ensures { CountTells (In set) result }
{
    if set == 0 {
        return 0;
    }
    if set & (set - 1) == 0 {
        return 1;
    }
    2
}

// Two such numbers together.
fn plus(a: u8, b: u8) -> u8
    requires { (a ≤ 2) × (b ≤ 2) }
    ensures { Plus a b result }
{
    (a + b).min(2)
}

// Put in `b` at the pair `p` and `e` at `q`, where both have a tree there. In how many ways do
// they?
fn try_sides(words: &[u64], reach: &mut [u64], p: usize, q: usize, b: u8, e: u8) -> u8
    requires b_bound { (b < 64) × (e < 64) × (2 * p < length words.now)
        × (2 * q < length words.now) }
    requires p_in_bounds { (p < length reach.old) × (q < length reach.old) }
    ensures { Sides words.now p q b e reach.old reach.new
        result }
{
    if !has(words[2 * p], b) {
        return 0;
    }
    if !has(words[2 * q], e) {
        return 0;
    }
    add(reach, p, b);
    add(reach, q, e);
    1
}

// Put in what lies beneath a B clause with no token on the left, and with all.
fn try_ends(
    words: &[u64],
    reach: &mut [u64],
    n: usize,
    b: u8,
    e: u8,
    start: usize,
    len: usize,
) -> u8
    requires room { Room words.now n start len × Space reach.old n start len }
    requires b_bound { (b < 64) × (e < 64) }
    ensures { EndsSpread words.now n start len b e reach.old
        reach.new result }
{
    let p = pair_at(n, start, len);
    let none = try_sides(words, reach, 0, p, b, e);
    let all = try_sides(words, reach, p, 0, b, e);
    plus(none, all)
}

// The same: there is nothing to try where neither nonterminal has the empty word.
fn spread_ends(
    words: &[u64],
    reach: &mut [u64],
    n: usize,
    b: u8,
    e: u8,
    start: usize,
    len: usize,
) -> u8
    requires room { Room words.now n start len × Space reach.old n start len }
    requires b_bound { (b < 64) × (e < 64) }
    ensures { EndsSpread words.now n start len b e reach.old
        reach.new result }
{
    let empty = words[0];
    if !has(empty, b) {
        if !has(empty, e) {
            return 0;
        }
    }
    try_ends(words, reach, n, b, e, start, len)
}

// Put in what lies beneath a B clause with a token or more on either side, all cuts at once: what
// `seen` has is there already.
fn spread_cuts(
    cuts: &[u64],
    seen: &mut [u64],
    reach: &mut [u64],
    n: usize,
    b: u8,
    e: u8,
    m: BinaryMark,
    start: usize,
    len: usize,
    k: SpanMarks,
) -> u8
    requires b_bound { (b < 64) × (e < 64) × (0 < len) × Bounded n start cuts.now }
    requires space { Space reach.old n start len × SeenAt n start reach.old seen.old }
    ensures { CutsSpread cuts.now n start len k b e m reach.old
        reach.new seen.new result }
{
    let set = hits(cuts, b, e, m, start, len, k);
    if set == 0 {
        return 0;
    }
    let new = unseen(seen, wide(b), 64 * (start + len) + wide(e), set);
    let c = Clause::Binary(b, e, m);
    add_cuts(reach, n, c, start, len, new);
    ways(set)
}

// Put in what lies beneath a B clause. In how many ways does it stand?
fn spread_binary(
    words: &[u64],
    cuts: &[u64],
    seen: &mut [u64],
    reach: &mut [u64],
    n: usize,
    b: u8,
    e: u8,
    m: BinaryMark,
    start: usize,
    len: usize,
    k: SpanMarks,
) -> u8
    requires room { Room words.now n start len × Space reach.old n start len }
    requires b_bound { (b < 64) × (e < 64) }
    requires ready { Ready words.now n start len cuts.now reach.old seen.old }
    ensures { ClauseSpread words.now n start len k (Kind.Binary b e m)
        reach.old reach.new seen.new result }
{
    if len == 0 {
        let c = Clause::Binary(b, e, m);
        return try_left(words, reach, n, c, start, len, 0, k);
    }
    let some = spread_cuts(cuts, seen, reach, n, b, e, m, start, len, k);
    let ends = spread_ends(words, reach, n, b, e, start, len);
    plus(some, ends)
}

// Put in what lies beneath the clause. In how many ways does it stand?
fn spread_clause(
    words: &[u64],
    cuts: &[u64],
    seen: &mut [u64],
    reach: &mut [u64],
    n: usize,
    c: Clause,
    start: usize,
    len: usize,
    k: SpanMarks,
) -> u8
    requires room { Room words.now n start len × Space reach.old n start len }
    requires small_clause { SmallClause c }
    requires ready { Ready words.now n start len cuts.now reach.old seen.old }
    ensures { ClauseSpread words.now n start len k c reach.old
        reach.new seen.new result }
{
    match c {
        Clause::Binary(b, e, m) => {
            spread_binary(words, cuts, seen, reach, n, b, e, m, start, len, k)
        }
        Clause::Empty | Clause::Atom(_, _) | Clause::Unary(_, _) => {
            try_left(words, reach, n, c, start, len, 0, k)
        }
    }
}

// A member of the set that is not yet done.
fn fresh(set: u64, done: u64) -> Option<u8>
    ensures { Fresh set done result }
{
    let rest = set & (set ^ done);
    if rest == 0 {
        return None;
    }
    Some(u64::trailing_zeros(rest) as u8)
}

// The set, with `a` besides if there are two ways.
fn noted(set: u64, a: u8, count: u8) -> u64
    requires { a < 64 }
    ensures { Noted set a count result }
{
    if 1 < count { with(set, a) } else { set }
}

// Put in what lies beneath all that the span has, rule by rule along the lists of rules, until
// nothing of it is left untried. Which of it has two choices or more?
fn work_off(
    words: &[u64],
    cuts: &[u64],
    seen: &mut [u64],
    reach: &mut [u64],
    n: usize,
    g: Grammar,
    lists: &[u64],
    start: usize,
    len: usize,
    k: SpanMarks,
) -> u64
    requires room { Room words.now n start len × Space reach.old n start len }
    requires formed { Formed g × Listed (rules_of g) lists.now }
    requires ready { Ready words.now n start len cuts.now reach.old seen.old }
    ensures { Worked words.now (rules_of g) n start len k reach.old
        reach.new seen.new result }
{
    let p = pair_at(n, start, len);
    let mut done: u64 = 0;
    let mut parted: u64 = 0;
    let mut a: u8 = 0;
    let mut count: u8 = 0;
    let mut i: usize = 128;
    loop {
        if i < g.count {
            let r = g.rules[i];
            let c = r.clause;
            let more = spread_clause(words, cuts, seen, reach, n, c, start, len, k);
            count = plus(count, more);
            i = lists[64 + i] as usize;
            continue;
        }
        parted = noted(parted, a, count);
        let m = fresh(reach[p], done);
        match m {
            None => {
                return parted;
            }
            Some(b) => {
                done = with(done, b);
                a = b;
                count = 0;
                i = lists[b as usize] as usize;
            }
        }
    }
}

// Work off the span, and write which nonterminals are places there.
fn spread_span(
    words: &[u64],
    cuts: &[u64],
    seen: &mut [u64],
    reach: &mut [u64],
    parts: &mut [u64],
    d: Draft<64>,
    g: Grammar,
    lists: &[u64],
    start: usize,
    len: usize,
)
    requires known { Known words.now (rules_of g) d × Formed g × Listed (rules_of g) lists.now }
    requires space { Space reach.old d.count start len × Space parts.old d.count start len }
    requires ready { Ready words.now d.count start len cuts.now reach.old seen.old }
    ensures { SpanDone (rules_of g) (drafted d) d.count start len reach.old
        reach.new seen.new parts.old parts.new }
{
    let n = d.count;
    let k = span_marks(d, start, len);
    let p = pair_at(n, start, len);
    parts[p] = work_off(words, cuts, seen, reach, n, g, lists, start, len, k);
}

// Work off the spans that begin at `start`, the longest first.
fn spread_start(
    words: &[u64],
    cuts: &mut [u64],
    seen: &mut [u64],
    reach: &mut [u64],
    parts: &mut [u64],
    d: Draft<64>,
    g: Grammar,
    lists: &[u64],
    start: usize,
)
    requires known { Known words.now (rules_of g) d × Formed g × Listed (rules_of g) lists.now }
    requires start_lt_count { (start < d.count) × Columns words.now d.count cuts.old }
    requires seen_columns { SeenColumns d.count reach.old seen.old }
    requires done { Done (rules_of g) (drafted d) d.count start d.count reach.old parts.old }
    ensures { StartDone words.now (rules_of g) (drafted d) d.count start
        cuts.new reach.new seen.new parts.new }
{
    let n = d.count;
    begin_row(words, cuts, n, start);
    clear(seen, 64);
    for len in (1..=n - start).rev() {
        spread_span(words, cuts, seen, reach, parts, d, g, lists, start, len);
    }
}

// Work off all spans, start by start, and the empty word last.
fn spread_all(
    words: &[u64],
    cuts: &mut [u64],
    seen: &mut [u64],
    reach: &mut [u64],
    parts: &mut [u64],
    d: Draft<64>,
    g: Grammar,
    lists: &[u64],
)
    requires known { Known words.now (rules_of g) d × Formed g × Listed (rules_of g) lists.now }
    requires columns { Columns words.now d.count cuts.old
        × SeenColumns d.count reach.old seen.old }
    requires done { Done (rules_of g) (drafted d) d.count 0 d.count reach.old parts.old }
    ensures { AllDone (rules_of g) (drafted d) d.count reach.new
        parts.new }
{
    for start in 0..d.count {
        spread_start(words, cuts, seen, reach, parts, d, g, lists, start);
    }
    spread_span(words, cuts, seen, reach, parts, d, g, lists, 0, 0);
}

// Words for all pairs of `n` tokens, in which only the whole sentence has a member, the start.
fn begin(reach: &mut [u64], n: usize)
    requires n_bound { n ≤ 64 }
    requires n_in_bounds { pairs n ≤ length reach.old }
    ensures { Begun n reach.new }
{
    clear(reach, size(n) / 2);
    let p = pair_at(n, 0, n);
    add(reach, p, 0);
}

// Which nonterminals are places over which span, by the span sheet of the sentence: one word a
// pair, from the first on.
pub fn find_places(words: &[u64], s: Sentence, g: Grammar, parts: &mut [u64])
    requires count_bound { (s.count ≤ 64) × (pairs s.count ≤ length parts.old) }
    requires formed { Formed g }
    requires span_sheet { SpanSheet (rules_of g) (spelled s) words.now
        × Derives (rules_of g) 0 (spelled s) }
    ensures { PlaceWords (rules_of g) (spelled s) parts.new }
{
    let n = s.count;
    let tokens = s.tokens;
    let d = Draft {
        tokens,
        count: n,
        known: n,
    };
    let mut lists = [0u64; 192];
    list_rules(g, &mut lists);
    let mut reach = [0u64; SPANS];
    begin(&mut reach, n);
    let mut cuts = [0u64; 4160];
    load_columns(words, &mut cuts, n);
    let mut seen = [0u64; 4160];
    spread_all(words, &mut cuts, &mut seen, &mut reach, parts, d, g, &lists);
}
