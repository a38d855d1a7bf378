// The calls for C and Rust: numbers and slices alone. Each hands its call over, and puts what the
// reply says into one number and lent words.
#![tactic(auto)]

ghost use Rattle.std.specs.Prelude.{◌≡◌, [], ◌∷◌};
ghost use Rattle.c_words.specs.Codes.{packed, told_packed};
ghost use Rattle.c_words.specs.Words.{AtFront, count_words, found_words};
ghost use Rattle.sheets.specs.Results.{told_line};
ghost use Rattle.sheets.specs.declared.Answer.TheVariants as Answer;
ghost use Rattle.answering.specs.Results.{verdict_told, trees_told, first_rows, second_rows};
ghost use Rattle.sweep_answers.specs.Sweep.{sweep_told, sweep_sentence, sweep_tried};
ghost use Rattle.list_answers.specs.Lists.{list_told, entry_count};
ghost use Rattle.call_always.specs.Always.{always_count};
ghost use Rattle.sheets.specs.RuleSheets.{rule_sheet};
ghost use Rattle.sheets.specs.TokenSheets.{token_sheet};
ghost use Rattle.sheets.specs.RefusedLines.{held_by, Hands, refused_line};
ghost use Rattle.clause_sheets.specs.ClauseSheets.{clause_sheet};
ghost use Rattle.range_sheets.specs.RangeSheets.{range_sheet};
ghost use Rattle.answering.specs.Answers.{sheets};
ghost use Rattle.call_clauses.specs.Calls.{clause_sheets_of};
ghost use Rattle.c_interface.specs.Calls.{VerdictWord, TreesWord, SweepWord};
ghost use Rattle.c_interface.specs.Rows.{RowsWord};
ghost use Rattle.c_interface.specs.Places.{PlacesWord};
ghost use Rattle.c_interface.specs.Expand.{ExpandWord};
ghost use Rattle.c_interface.specs.Rights.{ShowWord, ChangeWord};
ghost use Rattle.c_interface.specs.Shares.{ShareWord};
ghost use Rattle.c_interface.specs.Merge.{MergeWord};
ghost use Rattle.c_interface.specs.Columns.{ColumnsWord};
ghost use Rattle.c_interface.specs.Always.{AlwaysWord};

use answering::TreeRows;
use c_words::{
    count, pack, pack_refusal, pack_told, put_counts, put_flags, put_found, put_found_sentence,
    put_numbers, put_one,
};
use call_always::Told;
use column_search::Flags;
use grammar::Verdict;
use sheets::{Answer, Refusal};
use sweep_answers::{Swept, nothing};

// A verdict as a number.
fn verdict_word(r: Result<Verdict, Refusal>) -> u64
    ensures { result ≡ packed (verdict_told r) (told_line r) }
{
    match r {
        Ok(v) => pack(v.into(), 0),
        Err(e) => pack_refusal(e),
    }
}

// A verdict with trees as a number; `counts` gets their row counts.
fn trees_word(r: Result<TreeRows, Refusal>, counts: &mut [u64]) -> u64
    ensures word { result ≡ packed (trees_told r) (told_line r) }
    ensures rows { AtFront 2 (count_words (first_rows r) (second_rows r)) counts.old counts.new }
{
    match r {
        Ok(t) => {
            put_counts(counts, t.first, t.second);
            pack(t.verdict.into(), 0)
        }
        Err(e) => {
            put_counts(counts, 0, 0);
            pack_refusal(e)
        }
    }
}

// The answer of a sweep as a number; `found` gets its sentence and the number of candidates tried.
fn sweep_word(r: Result<Swept, Refusal>, found: &mut [u64]) -> u64
    ensures word { result ≡ packed (sweep_told r) (told_line r) }
    ensures sentence { AtFront 23 (found_words (sweep_sentence r) (sweep_tried r)) found.old
        found.new }
{
    match r {
        Ok(s) => match s.found {
            Some(w) => {
                put_found(found, w, s.tried);
                pack(Answer::Two, 0)
            }
            None => {
                put_found(found, nothing(), s.tried);
                pack(Answer::Clear, 0)
            }
        },
        Err(e) => {
            put_found(found, nothing(), 0);
            pack_refusal(e)
        }
    }
}

// The refusal of a call that hands over a count, as a number; `count` gets 0.
fn refused_word(e: Refusal, count: &mut [u64]) -> u64
    ensures word { result ≡ packed (Answer.Refused e.fault) e.line }
    ensures entries { AtFront 1 (0 ∷ []) count.old count.new }
{
    put_one(count, 0);
    pack_refusal(e)
}

// The answer of a call that gives a list as a number; `count` gets its number of entries.
fn list_word(r: Result<usize, Refusal>, count: &mut [u64]) -> u64
    ensures word { result ≡ packed (list_told r) (told_line r) }
    ensures entries { AtFront 1 (entry_count r ∷ []) count.old count.new }
{
    match r {
        Ok(n) => {
            put_one(count, n);
            pack(Answer::Given, 0)
        }
        Err(e) => refused_word(e, count),
    }
}

// What the test at every length tells as a number; `count` gets the number of entries.
fn always_word(r: Result<Told, Refusal>, count: &mut [u64]) -> u64
    ensures word { result ≡ told_packed r }
    ensures entries { AtFront 1 (always_count r ∷ []) count.old count.new }
{
    match r {
        Ok(Told::Unknown(n)) => put_one(count, n),
        _ => put_one(count, 0),
    }
    match r {
        Ok(t) => pack_told(Ok(t), 0),
        Err(e) => pack_told(Err(e.fault), e.line),
    }
}

// The verdict: its code times 2^32 plus the line's number. The words get the span sheet.
pub fn teplonga_verdict(rules: &[u8], tokens: &[u8], words: &mut [u64]) -> u64
    ensures { VerdictWord (sheets rules.now tokens.now)
        words.old words.new result }
{
    verdict_word(teplonga::verdict(rules, tokens, words))
}

// The trees: the verdict's code times 2^32 plus the line's number. The words get the span sheet,
// both memories the trees' rows, `counts` the row counts.
pub fn teplonga_trees(
    rules: &[u8],
    tokens: &[u8],
    words: &mut [u64],
    first: &mut [u8],
    second: &mut [u8],
    counts: &mut [u64],
) -> u64
    ensures { TreesWord (sheets rules.now tokens.now)
        words.old words.new first.old first.new
        second.old second.new counts.old counts.new
        result }
{
    let r = teplonga::trees(rules, tokens, words, first, second);
    trees_word(r, counts)
}

// The sweep: its code times 2^32 plus the line's number. `found` gets the answer's sentence and the
// number of candidates tried.
pub fn teplonga_sweep(rules: &[u8], bound: usize, words: &mut [u64], found: &mut [u64]) -> u64
    ensures { SweepWord (rule_sheet rules.now) bound words.old
        words.new found.old found.new result }
{
    sweep_word(teplonga::sweep(rules, bound, words), found)
}

// The refused line itself, as a part of the sheet that holds it. An exported function returns no
// reference, so `line` gets the part.
pub fn teplonga_refused_line<'a>(rules: &'a [u8], tokens: &'a [u8], line: &mut &'a [u8])
    ensures { Hands rules.entry tokens.entry line.new
        (refused_line rules.now tokens.now) }
{
    *line = teplonga::refused_line(rules, tokens);
}

// The row counts: the verdict's code times 2^32 plus the line's number. The words get the span
// sheet, `counts` the row counts.
pub fn teplonga_rows(rules: &[u8], tokens: &[u8], words: &mut [u64], counts: &mut [u64]) -> u64
    ensures { RowsWord rules.now tokens.now words.old
        words.new counts.old counts.new result }
{
    match call_rows::rows(rules, tokens, words) {
        Ok(r) => {
            put_counts(counts, count(r.first), count(r.second));
            pack(r.verdict.into(), 0)
        }
        Err(e) => {
            put_counts(counts, 0, 0);
            pack_refusal(e)
        }
    }
}

// The places: the verdict's code times 2^32 plus the line's number. The words get the span sheet,
// `list` the places, `count` their number.
pub fn teplonga_places(
    rules: &[u8],
    tokens: &[u8],
    words: &mut [u64],
    list: &mut [u8],
    count: &mut [u64],
) -> u64
    ensures { PlacesWord rules.now tokens.now words.old
        words.new list.old list.new count.old
        count.new result }
{
    match call_places::places(rules, tokens, words, list) {
        Ok(r) => {
            put_one(count, r.count);
            pack(r.verdict.into(), 0)
        }
        Err(e) => refused_word(e, count),
    }
}

// The verdict: its code times 2^32 plus the line's number. The words get the span sheet.
pub fn teplonga_clause_verdict(clauses: &[u8], tokens: &[u8], words: &mut [u64]) -> u64
    ensures { VerdictWord (clause_sheets_of clauses.now tokens.now)
        words.old words.new result }
{
    verdict_word(call_clauses::verdict(clauses, tokens, words))
}

// The trees: the verdict's code times 2^32 plus the line's number. The words get the span sheet,
// both memories the trees' rows, `counts` the row counts.
pub fn teplonga_clause_trees(
    clauses: &[u8],
    tokens: &[u8],
    words: &mut [u64],
    first: &mut [u8],
    second: &mut [u8],
    counts: &mut [u64],
) -> u64
    ensures { TreesWord (clause_sheets_of clauses.now tokens.now)
        words.old words.new first.old first.new
        second.old second.new counts.old counts.new
        result }
{
    let r = call_clauses::trees(clauses, tokens, words, first, second);
    trees_word(r, counts)
}

// The sweep: its code times 2^32 plus the line's number. `found` gets the answer's sentence and the
// number of candidates tried.
pub fn teplonga_clause_sweep(
    clauses: &[u8],
    bound: usize,
    words: &mut [u64],
    found: &mut [u64],
) -> u64
    ensures { SweepWord (clause_sheet clauses.now) bound words.old
        words.new found.old found.new result }
{
    sweep_word(call_clauses::sweep(clauses, bound, words), found)
}

// The expanded rule sheet: the code of `given` or of a refusal times 2^32 plus the line's number.
// `sheet` gets its bytes, `count` their number.
pub fn teplonga_expand(clauses: &[u8], sheet: &mut [u8], count: &mut [u64]) -> u64
    ensures { ExpandWord clauses.now sheet.old sheet.new
        count.old count.new result }
{
    list_word(call_clauses::expand(clauses, sheet), count)
}

// The refused line itself, as a part of the sheet that holds it. An exported function returns no
// reference, so `line` gets the part.
pub fn teplonga_clause_refused_line<'a>(clauses: &'a [u8], tokens: &'a [u8], line: &mut &'a [u8])
    ensures { Hands clauses.entry tokens.entry line.new
        (held_by (clause_sheet clauses.now) (token_sheet tokens.now)) }
{
    *line = call_clauses::refused_line(clauses, tokens);
}

// The trees as a user may see them: the verdict's code times 2^32 plus the line's number. The words
// get the span sheet, both memories the rows shown of the trees, `counts` their numbers.
pub fn teplonga_show(
    rules: &[u8],
    tokens: &[u8],
    rights: &[u8],
    user: usize,
    words: &mut [u64],
    first: &mut [u8],
    second: &mut [u8],
    counts: &mut [u64],
) -> u64
    ensures { ShowWord rules.now tokens.now rights.now user
        words.old words.new first.old first.new
        second.old second.new counts.old counts.new
        result }
{
    let r = call_rights::show(rules, tokens, rights, user, words, first, second);
    trees_word(r, counts)
}

// The changed sheet: the answer's code times 2^32 plus the line's number. `bytes` gets the sheet,
// `count` its number of bytes.
pub fn teplonga_change(
    rules: &[u8],
    rights: &[u8],
    user: usize,
    rule: usize,
    lay: &[u8],
    bytes: &mut [u8],
    count: &mut [u64],
) -> u64
    ensures { ChangeWord rules.now rights.now user rule
        lay.now bytes.old bytes.new count.old
        count.new result }
{
    let r = call_rights::change(rules, rights, user, rule, lay, bytes);
    list_word(r, count)
}

// A share: its code times 2^32 plus the line's number. `numbers` gets the lowest number, the
// quotient and the remainder, `found` the answer's sentence.
pub fn teplonga_share(
    rules: &[u8],
    length: usize,
    racks: usize,
    index: usize,
    words: &mut [u64],
    numbers: &mut [u64],
    found: &mut [u64],
) -> u64
    ensures { ShareWord rules.now length racks index words.old
        words.new numbers.old numbers.new found.old
        found.new result }
{
    match call_shares::share(rules, length, racks, index, words) {
        Ok(r) => {
            put_numbers(numbers, r.number, r.quotient, r.remainder);
            match r.sentence {
                Some(s) => {
                    put_found_sentence(found, s);
                    pack(Answer::Two, 0)
                }
                None => {
                    put_found_sentence(found, nothing());
                    pack(Answer::Clear, 0)
                }
            }
        }
        Err(e) => {
            put_numbers(numbers, 0, 0, 0);
            put_found_sentence(found, nothing());
            pack_refusal(e)
        }
    }
}

// Which of two reports is the merged one: 0 the first, 1 the second. A report is what
// `teplonga_share` answers, the lowest number and the length of the sentence.
// Kept: numbers for reports and for the answer, which the C interface has (`MergeWord`).
pub fn teplonga_merge(
    one: u64,
    number: u64,
    length: usize,
    two: u64,
    other: u64,
    size: usize,
) -> u64
    ensures { MergeWord one number length two other size result }
{
    if 100 <= one / 4294967296 {
        return 0;
    }
    if 100 <= two / 4294967296 {
        return 1;
    }
    if call_shares::leads(size, other, length, number) {
        return 1;
    }
    0
}

// The verdicts of some choice of columns: the answer's code times 2^32 plus the line's number.
// `found` gets the three flags, 1 or 0 each; the words that the search needed end 0.
pub fn teplonga_columns(rules: &[u8], ranges: &[u8], words: &mut [u64], found: &mut [u64]) -> u64
    ensures { ColumnsWord rules.now ranges.now words.old
        words.new found.old found.new result }
{
    match call_columns::columns(rules, ranges, words) {
        Ok(f) => {
            put_flags(found, f);
            pack(Answer::Given, 0)
        }
        Err(e) => {
            put_flags(
                found,
                Flags {
                    none: false,
                    one: false,
                    two: false,
                },
            );
            pack_refusal(e)
        }
    }
}

// The refused line itself, as a part of the sheet that holds it. An exported function returns no
// reference, so `line` gets the part.
pub fn teplonga_columns_refused_line<'a>(rules: &'a [u8], ranges: &'a [u8], line: &mut &'a [u8])
    ensures { Hands rules.entry ranges.entry line.new
        (held_by (rule_sheet rules.now) (range_sheet ranges.now)) }
{
    *line = call_columns::refused_line(rules, ranges);
}

// The test: the code of clear, unknown or a refusal times 2^32 plus the line's number. `list` gets
// the entries, `count` their number; the words end 0.
pub fn teplonga_always(rules: &[u8], words: &mut [u64], list: &mut [u8], count: &mut [u64]) -> u64
    ensures { AlwaysWord (rule_sheet rules.now) words.old
        words.new list.old list.new count.old
        count.new result }
{
    always_word(call_always::always(rules, words, list), count)
}

// The same for a clause sheet; the rules of the entries are those of its expansion.
pub fn teplonga_clause_always(
    clauses: &[u8],
    words: &mut [u64],
    list: &mut [u8],
    count: &mut [u64],
) -> u64
    ensures { AlwaysWord (clause_sheet clauses.now) words.old
        words.new list.old list.new count.old
        count.new result }
{
    always_word(call_always::clauses_always(clauses, words, list), count)
}
