// The readers of the two sheets, for any bytes: a grammar and a sentence, or the refusal with its
// line; and the line that a refusal names.
#![tactic(auto)]

ghost use Rattle.std.specs.Prelude.{◌≡◌, [], ◌≤◌, ◌<◌, length, ltb};
ghost use Rattle.grammar.specs.Content.{rules_of, Formed};
ghost use Rattle.lengths.specs.Indexes.{Exact};
ghost use Rattle.lengths.specs.Books.{Booked};
ghost use Rattle.lines.specs.Turns.{turn_of};
ghost use Rattle.fields.specs.Pieces.{pieces};
ghost use Rattle.sheets.specs.Refusals.{number_of};
ghost use Rattle.sheets.specs.LineFaults.{rule_fault, token_fault};
ghost use Rattle.sheets.specs.Items.{accepted, step_at_of, items_from};
ghost use Rattle.sheets.specs.RuleSheets.{has_key, any_of, is_start, fresh_step, rule_says};
ghost use Rattle.sheets.specs.RuleSheets.{finish, rules_from, rule_sheet};
ghost use Rattle.sheets.specs.Following.{after};
ghost use Rattle.sheets.specs.TokenSheets.{order_step, token_says, token_step, token_sheet};
ghost use Rattle.sheets.specs.RefusedLines.{LinePart, Hands};
ghost use Rattle.sheets.specs.LinesIn.{LineIn, held_of};
ghost use Rattle.sheets.specs.Names.{Behind};
ghost use Rattle.sheets.specs.Results.{verdict_answer};
ghost use Rattle.sheets.specs.Promises.{as_item, as_step, Adds, RulesRead, TokensRead};
ghost use Rattle.fields.specs.Cursors.{line_at, pieces_from, bytes_left};

use fields::Cursor;
use grammar::{Column, Line, Rule, Sentence, Token, Verdict, Width, leaves_free, line_before};
use lengths::{Book, append, no_book};
use lines::{Key, RuleFault, TokenFault, Turn};

// The refusals, in the order in which they are looked for; `number_of` in specs/ has
// their numbers. Many are given by later crates.
#[derive(Clone, Copy)]
pub enum Fault {
    RuleNames,
    RuleMany,
    RuleForm,
    RuleRange,
    RuleLay,
    RuleReversed,
    RuleTwice,
    NoStart,
    ClauseForm,
    ClauseDeep,
    ClauseMany,
    TokenNames,
    TokenMany,
    TokenForm,
    TokenRange,
    TokenWidth,
    TokenOrder,
    RangeEnds,
    ManyChoices,
    Rights,
    NoRight,
    BadBound,
    ManyCandidates,
    BadRacks,
    BadShare,
    FewWords,
    FewRows,
}

// The number of a refusal.
impl From<Fault> for u64 {
    ghost from_gives = { λ f n. n ≡ number_of f };

    fn from(f: Fault) -> u64 {
        match f {
            Fault::RuleNames => 1,
            Fault::RuleMany => 6,
            Fault::RuleForm => 2,
            Fault::RuleRange => 3,
            Fault::RuleLay => 4,
            Fault::RuleReversed => 44,
            Fault::RuleTwice => 5,
            Fault::NoStart => 7,
            Fault::ClauseForm => 41,
            Fault::ClauseDeep => 42,
            Fault::ClauseMany => 43,
            Fault::TokenNames => 11,
            Fault::TokenMany => 14,
            Fault::TokenForm => 12,
            Fault::TokenRange => 13,
            Fault::TokenWidth => 47,
            Fault::TokenOrder => 15,
            Fault::RangeEnds => 48,
            Fault::ManyChoices => 49,
            Fault::Rights => 50,
            Fault::NoRight => 51,
            Fault::BadBound => 23,
            Fault::ManyCandidates => 24,
            Fault::BadRacks => 45,
            Fault::BadShare => 46,
            Fault::FewWords => 21,
            Fault::FewRows => 22,
        }
    }
}

// What is wrong with a rule line, as a refusal.
impl From<RuleFault> for Fault {
    ghost from_gives = { λ e f. f ≡ rule_fault e };

    fn from(e: RuleFault) -> Fault {
        match e {
            RuleFault::Form => Fault::RuleForm,
            RuleFault::Range => Fault::RuleRange,
            RuleFault::Unfit => Fault::RuleLay,
            RuleFault::Reversed => Fault::RuleReversed,
        }
    }
}

// What is wrong with a token line, as a refusal.
impl From<TokenFault> for Fault {
    ghost from_gives = { λ e f. f ≡ token_fault e };

    fn from(e: TokenFault) -> Fault {
        match e {
            TokenFault::Form => Fault::TokenForm,
            TokenFault::Range => Fault::TokenRange,
            TokenFault::Width => Fault::TokenWidth,
        }
    }
}

// The answers of calls: none, one, two, clear, refused-N, and given for what a call gives
// otherwise.
#[derive(Clone, Copy)]
pub enum Answer {
    None,
    One,
    Two,
    Clear,
    Given,
    Refused(Fault),
}

// A refusal, with the line in its sheet, counted from 1, or 0.
#[derive(Clone, Copy)]
pub struct Refusal {
    pub fault: Fault,
    pub line: usize,
}

// A refusal that names no line.
impl From<Fault> for Refusal {
    ghost from_gives = { λ f e. e ≡ record { fault = f; line = 0 } };

    fn from(f: Fault) -> Refusal {
        Refusal { fault: f, line: 0 }
    }
}

// The answer that a verdict is.
impl From<Verdict> for Answer {
    ghost from_gives = { λ v a. a ≡ verdict_answer v };

    fn from(v: Verdict) -> Answer {
        match v {
            Verdict::None => Answer::None,
            Verdict::One => Answer::One,
            Verdict::Two => Answer::Two,
        }
    }
}

// Has the rule the key? Most have another left.
fn has_key(x: Rule, key: Key) -> bool
    ensures { result ≡ has_key key x }
{
    if x.left != key.left {
        return false;
    }
    lines::same_key(lines::key_of(x), key)
}

// Has one of the rules the key?
fn earlier(rules: &[Rule], key: Key) -> bool
    ensures { result ≡ any_of (has_key key) rules.now }
{
    rules.iter().any(|x| has_key(*x, key))
}

// Has one of the rules nonterminal 0 at the left?
fn has_start(rules: &[Rule]) -> bool
    ensures { result ≡ any_of is_start rules.now }
{
    rules.iter().any(|x| x.left == 0)
}

// A rule that no earlier line has, under any lay.
fn fresh(rules: &[Rule], r: Rule) -> Result<Rule, Fault>
    ensures { as_item result ≡ fresh_step rules.now r }
{
    if earlier(rules, lines::key_of(r)) {
        return Err(Fault::RuleTwice);
    }
    Ok(r)
}

// What a whole line says after the rules.
fn rule_said(s: &[u8], c: Cursor, rules: &[Rule]) -> Result<Rule, Fault>
    requires { (c.at ≤ c.end) × (c.end ≤ length s.now) }
    ensures { as_item result ≡ rule_says rules.now (bytes_left s.now c) }
{
    let r = lines::rule_line(s, c)?;
    fresh(rules, r)
}

// What the cursor's line gives after the rules: one more, or the sheet's end.
fn rule_step(s: &[u8], c: Cursor, rules: &[Rule]) -> Result<Option<Rule>, Fault>
    requires { (c.at ≤ c.end) × (c.end ≤ length s.now) }
    ensures { as_step result ≡ step_at_of 6 2
        (rule_says rules.now (bytes_left s.now c))
        (turn_of 128 (length rules.now) (bytes_left s.now c)
        (ltb c.end (length s.now))) }
{
    match lines::turn_at(s, c, rules.len(), 128) {
        Turn::End => Ok(None),
        Turn::Many => Err(Fault::RuleMany),
        Turn::Open => Err(Fault::RuleForm),
        Turn::Whole => Ok(Some(rule_said(s, c, rules)?)),
    }
}

// The end of a rule sheet, with the index of its rules: refusal 7.
pub fn finished(book: Book) -> Result<Book, Refusal>
    requires { Formed book.grammar × Exact (rules_of book.grammar) book.index }
    ensures { RulesRead result (finish (accepted (rules_of book.grammar))) }
{
    if has_start(&book.grammar.rules[..book.grammar.count]) {
        return Ok(book);
    }
    Err(Refusal {
        fault: Fault::NoStart,
        line: 0,
    })
}

// The cursor's line after the rules of a book: its rule is appended, and a line that gives none
// leaves the book as it was.
fn add_line(s: &[u8], c: Cursor, book: &mut Book) -> Result<Option<Rule>, Fault>
    requires { (c.at ≤ c.end) × (c.end ≤ length s.now) × Booked book.old }
    ensures step_value { as_step result ≡ step_at_of 6 2
        (rule_says (rules_of book.old.grammar) (bytes_left s.now c))
        (turn_of 128 book.old.grammar.count (bytes_left s.now c)
        (ltb c.end (length s.now))) }
    ensures adds { Adds book.old result book.new }
{
    let step = rule_step(s, c, &book.grammar.rules[..book.grammar.count])?;
    if let Some(r) = step {
        *book = append(*book, r);
    }
    Ok(step)
}

// The rule lines from a place on.
fn rules_from(s: &[u8], start: usize) -> Result<Book, Refusal>
    requires { start ≤ length s.now }
    ensures { RulesRead result (rules_from (pieces_from 10 s.now start)) }
{
    let mut book = no_book();
    let mut at = start;
    // Kept: no range counts the turns, since a line's end alone says where the next begins.
    loop {
        let c = Cursor::line(s, at);
        match add_line(s, c, &mut book) {
            Ok(Some(_)) => {
                at = c.end + 1;
            }
            Ok(None) => {
                return finished(book);
            }
            Err(fault) => {
                let line = book.grammar.count + 2;
                return Err(Refusal { fault, line });
            }
        }
    }
}

// Where the lines behind the first line, c, begin, if it is these names.
fn behind_line(s: &[u8], c: Cursor, names: &[u8]) -> Option<usize>
    requires { c ≡ line_at s.now 0 }
    ensures { Behind s.now names.now result }
{
    let end = c.end;
    if end < s.len() {
        if &s[..end] == names {
            return Some(end + 1);
        }
    }
    None
}

// Where the lines behind the names begin, if the first line is these names.
pub fn behind_names(s: &[u8], names: &[u8]) -> Option<usize>
    ensures { Behind s.now names.now result }
{
    behind_line(s, Cursor::line(s, 0), names)
}

// The rule sheet: its rules with their index, or the first refusal in their order with its line.
pub fn read_rules(s: &[u8]) -> Result<Book, Refusal>
    ensures { RulesRead result (rule_sheet s.now) }
{
    match behind_names(s, b"left kind first second lay") {
        Some(at) => rules_from(s, at),
        None => Err(Refusal {
            fault: Fault::RuleNames,
            line: 1,
        }),
    }
}

// A later line, or the same line and a column at or past the column plus width.
pub fn comes_after(a: Token, b: Token) -> bool
    ensures { result ≡ after a b }
{
    let la = a.line;
    let lb = b.line;
    if line_before(la, lb) {
        return true;
    }
    if line_before(lb, la) {
        return false;
    }
    let c = a.column;
    let w = a.width;
    let d = b.column;
    leaves_free(c, w, d)
}

// A token that comes after the last of the others.
fn ordered(tokens: &[Token], t: Token) -> Result<Token, Fault>
    ensures { as_item result ≡ order_step tokens.now t }
{
    let n = tokens.len();
    if n == 0 {
        return Ok(t);
    }
    if comes_after(tokens[n - 1], t) {
        return Ok(t);
    }
    Err(Fault::TokenOrder)
}

// What a whole line says after the tokens.
fn token_said(s: &[u8], c: Cursor, tokens: &[Token], wide: bool) -> Result<Token, Fault>
    requires { (c.at ≤ c.end) × (c.end ≤ length s.now) }
    ensures { as_item result ≡ token_says wide tokens.now (bytes_left s.now c) }
{
    let t = lines::token_line(s, c, wide)?;
    ordered(tokens, t)
}

// What the cursor's line gives after the tokens: one more, or the sheet's end.
fn token_step(s: &[u8], c: Cursor, tokens: &[Token], wide: bool) -> Result<Option<Token>, Fault>
    requires { (c.at ≤ c.end) × (c.end ≤ length s.now) }
    ensures { as_step result ≡ step_at_of 14 12
        (token_says wide tokens.now (bytes_left s.now c))
        (turn_of 64 (length tokens.now) (bytes_left s.now c)
        (ltb c.end (length s.now))) }
{
    match lines::turn_at(s, c, tokens.len(), 64) {
        Turn::End => Ok(None),
        Turn::Many => Err(Fault::TokenMany),
        Turn::Open => Err(Fault::TokenForm),
        Turn::Whole => Ok(Some(token_said(s, c, tokens, wide)?)),
    }
}

fn no_tokens() -> [Token; 64] {
    [Token {
        terminal: 0,
        line: Line(0),
        column: Column(0),
        width: Width(0),
    }; 64]
}

// The token lines from a place on, with widths if `wide` says so.
fn tokens_from(s: &[u8], start: usize, wide: bool) -> Result<Sentence, Refusal>
    requires { start ≤ length s.now }
    ensures { TokensRead result (items_from (token_step wide) []
        (pieces_from 10 s.now start)) }
{
    let mut tokens = no_tokens();
    let mut n: usize = 0;
    let mut at = start;
    // Kept: no range counts the turns, since a line's end alone says where the next begins.
    loop {
        let c = Cursor::line(s, at);
        match token_step(s, c, &tokens[..n], wide) {
            Ok(Some(t)) => {
                tokens[n] = t;
                n += 1;
                at = c.end + 1;
            }
            Ok(None) => {
                return Ok(Sentence { tokens, count: n });
            }
            Err(fault) => {
                return Err(Refusal { fault, line: n + 2 });
            }
        }
    }
}

// The token sheet: its tokens, or the first refusal in their order with its line.
pub fn read_tokens(s: &[u8]) -> Result<Sentence, Refusal>
    ensures { TokensRead result (token_sheet s.now) }
{
    let c = Cursor::line(s, 0);
    if let Some(at) = behind_line(s, c, b"term line col") {
        return tokens_from(s, at, false);
    }
    if let Some(at) = behind_line(s, c, b"term line col width") {
        return tokens_from(s, at, true);
    }
    Err(Refusal {
        fault: Fault::TokenNames,
        line: 1,
    })
}

// The line of the sheet with n lines before it, without its byte 10.
fn line_after<'a>(s: &'a [u8], n: usize) -> &'a [u8]
    requires { n < length (pieces 10 s.now) }
    ensures { LinePart s.entry n result }
{
    let mut at = 0;
    for _ in 0..n {
        at = Cursor::line(s, at).end + 1;
    }
    Cursor::line(s, at).bytes(s)
}

// The refused line of a call with two sheets that were refused so: as a part of the sheet that
// holds it; with no such line, the first zero bytes of the sheet with the rules.
pub fn refused_read<'a>(
    o: Option<Refusal>,
    p: Option<Refusal>,
    rules: &'a [u8],
    tokens: &'a [u8],
) -> &'a [u8]
    requires line_in { LineIn rules.now o }
    requires line_in_2 { LineIn tokens.now p }
    ensures { Hands rules.entry tokens.entry result (held_of o p) }
{
    if let Some(e) = o {
        if e.line == 0 {
            return &rules[..0];
        }
        return line_after(rules, e.line - 1);
    }
    if let Some(e) = p {
        if e.line == 0 {
            return &rules[..0];
        }
        return line_after(tokens, e.line - 1);
    }
    &rules[..0]
}
