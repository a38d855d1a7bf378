// The reader of clause sheets, for any bytes: the grammar of their expansion, or the refusal with
// its line.
#![tactic(auto)]

ghost use Rattle.std.specs.Prelude.{◌≡◌, map, ◌≤◌, length, take};
ghost use Rattle.clauses.specs.Expansion.{rising};
ghost use Rattle.rule_words.specs.Words.{word_rule};
ghost use Rattle.rule_output.specs.Emitting.{held};
ghost use Rattle.sheets.specs.Promises.{RulesRead};
ghost use Rattle.clause_lines.specs.ClauseLines.{clause_line, expression};
ghost use Rattle.clause_sheets.specs.ClauseSheets.{clauses_from, clause_sheet};
ghost use Rattle.clause_sheets.specs.Checks.{line_checked, expression_checked};
ghost use Rattle.clause_sheets.specs.Checks.{LineEmitted, LinesEmitted, RulesTaken};
ghost use Rattle.clause_sheets.specs.Ends.{AllSaid, PassedAs};
ghost use Rattle.fields.specs.Cursors.{pieces_from, bytes_left};

use clause_lines::{ExpressionFault, check};
use clause_rules::alternatives;
use fields::Cursor;
use grammar::Grammar;
use lengths::{Book, index_of, no_rules};
use rule_output::Room;
use rule_words::{left_of, rule_of};
use sheets::{Fault, Refusal, behind_names, finished};

// One past an expression's largest nonterminal, where its line's left is below `least`.
fn expression_check(x: &[u8], least: usize) -> Result<usize, Fault>
    ensures { result ≡ expression_checked least (expression x.now) }
{
    match check(x) {
        Ok(p) => Ok(least.max(p)),
        Err(ExpressionFault::Unwritten) => Err(Fault::ClauseForm),
        Err(ExpressionFault::Deep) => Err(Fault::ClauseDeep),
    }
}

// A clause line by itself: one past its largest nonterminal; 41, then 42.
fn line_check(s: &[u8], c: Cursor) -> Result<usize, Fault>
    requires { (c.at ≤ c.end) × (c.end ≤ length s.now) }
    ensures { result ≡ line_checked (clause_line (bytes_left s.now c)) }
{
    let Some((v, d)) = c.read::<u32>(s) else {
        return Err(Fault::ClauseForm);
    };
    let at = d.at;
    let end = d.end;
    if 63 < v {
        return Err(Fault::ClauseForm);
    }
    if end < at {
        return Err(Fault::ClauseForm);
    }
    expression_check(&s[at..end], v as usize + 1)
}

// The rules of one line, after those written so far.
fn line_emit(s: &[u8], c: Cursor, rules: &mut [u64; 128], out: Room) -> Room
    requires { (c.at ≤ c.end) × (c.end ≤ length s.now) }
    ensures { LineEmitted (bytes_left s.now c) (held rules.old out)
        (held rules.new result) }
{
    let Some((v, d)) = c.read::<u32>(s) else {
        return out;
    };
    let at = d.at;
    let end = d.end;
    if 63 < v {
        return out;
    }
    if end < at {
        return out;
    }
    let r = alternatives(&s[at..end], 0, v as u8, rules, out);
    let o = r.room;
    o
}

// The first walk over the lines from a place on: one past the largest nonterminal, where all are so
// written; 41 and 42, line by line.
fn lines_check(s: &[u8], start: usize) -> Result<usize, Refusal>
    requires { start ≤ length s.now }
    ensures { PassedAs (pieces_from 10 s.now start) result }
{
    let mut n: usize = 0;
    let mut past: usize = 0;
    let mut at = start;
    // Kept: no range counts the turns, since a line's end alone says where the next begins.
    loop {
        let c = Cursor::line(s, at);
        let end = c.end;
        if end < s.len() {
            match line_check(s, c) {
                Ok(p) => {
                    past = past.max(p);
                    n += 1;
                    at = end + 1;
                    continue;
                }
                Err(fault) => {
                    return Err(Refusal { fault, line: n + 2 });
                }
            }
        }
        if c.at == end {
            return Ok(past);
        }
        return Err(Refusal {
            fault: Fault::ClauseForm,
            line: n + 2,
        });
    }
}

// The second walk over the lines from a place on: their rules.
fn lines_emit(s: &[u8], start: usize, rules: &mut [u64; 128], first: Room) -> Room
    requires { start ≤ length s.now }
    ensures { LinesEmitted (pieces_from 10 s.now start)
        (held rules.old first) (held rules.new result) }
{
    let mut out = first;
    let mut at = start;
    // Kept: no range counts the turns, since a line's end alone says where the next begins.
    loop {
        let c = Cursor::line(s, at);
        let end = c.end;
        if end < s.len() {
            out = line_emit(s, c, rules, out);
            at = end + 1;
            continue;
        }
        return out;
    }
}

// The rules of the first n words by rising left, 0 to 63.
fn sorted(words: &[u64; 128], n: usize) -> Grammar
    requires { (n ≤ 128) × (n ≤ length words.now) }
    ensures { RulesTaken (rising 64 (take n (map word_rule words.now))) result }
{
    let mut rules = no_rules();
    let mut count: usize = 0;
    for left in 0u8..64 {
        for i in 0..n {
            let w = words[i];
            if left_of(w) == left {
                if count < 128 {
                    rules[count] = rule_of(w);
                    count += 1;
                }
            }
        }
    }
    Grammar { rules, count }
}

// The end of a clause sheet whose lines are so written: 43, then 7.
#[tactic(auto, using(crate::proofs::Closing::far_read))]
fn expand_from(s: &[u8], start: usize, past: usize) -> Result<Book, Refusal>
    requires start_in_bounds { start ≤ length s.now }
    requires all_said { AllSaid (pieces_from 10 s.now start) past }
    ensures { RulesRead result (clauses_from (pieces_from 10 s.now start)) }
{
    let many = Refusal {
        fault: Fault::ClauseMany,
        line: 0,
    };
    if 64 < past {
        return Err(many);
    }
    let mut rules: [u64; 128] = [0; 128];
    let out = lines_emit(
        s,
        start,
        &mut rules,
        Room {
            count: 0,
            next: past as u8,
            over: false,
        },
    );
    if out.over {
        return Err(many);
    }
    let grammar = sorted(&rules, out.count);
    let index = index_of(grammar);
    finished(Book { grammar, index })
}

// The clause lines from a place on.
fn clauses_from(s: &[u8], start: usize) -> Result<Book, Refusal>
    requires { start ≤ length s.now }
    ensures { RulesRead result (clauses_from (pieces_from 10 s.now start)) }
{
    let past = lines_check(s, start)?;
    expand_from(s, start, past)
}

// The clause sheet: the rules of its expansion with their index, or the first refusal with its
// line.
pub fn read_clauses(s: &[u8]) -> Result<Book, Refusal>
    ensures { RulesRead result (clause_sheet s.now) }
{
    match behind_names(s, b"left clause") {
        Some(at) => clauses_from(s, at),
        None => Err(Refusal {
            fault: Fault::RuleNames,
            line: 1,
        }),
    }
}
