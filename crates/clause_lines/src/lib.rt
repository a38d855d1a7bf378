// A clause line by itself: is it so written, is it nested too deep, and which nonterminals does it
// write?
#![tactic(auto)]

ghost use Rattle.std.specs.Prelude.{◌≡◌, ◌+◌, ◌<◌, true};
ghost use Rattle.clause_lines.specs.ClauseLines.{expression};
ghost use Rattle.clause_lines.specs.Walks.{is_due_of, takes_repeat, takes_mark, may, stepped};
ghost use Rattle.clause_lines.specs.Walks.{closing, is_end, checked_of};
ghost use Rattle.lexemes.specs.declared.Lexeme.TheVariants as Lexeme;

use lexemes::{Lexeme, lexeme_at};

// What stands just before: an item is due; or n or t, a group, what stands after an item.
#[derive(Clone, Copy)]
pub enum State {
    Due,
    Plain,
    Grouped,
    Suffixed,
}

// The walk over an expression's lexemes: the place, what stands before it, the open parentheses,
// whether there were more than sixteen, one past the largest nonterminal.
#[derive(Clone, Copy)]
pub struct Walk {
    pub at: usize,
    pub state: State,
    pub deep: usize,
    pub over: bool,
    pub past: usize,
}

// What is wrong with an expression: it is not so written, or nested too deep.
#[derive(Clone, Copy)]
pub enum ExpressionFault {
    Unwritten,
    Deep,
}

// Is an item due?
fn is_due(s: State) -> bool
    ensures { result ≡ is_due_of s }
{
    matches!(s, State::Due)
}

// May ? and the like stand?
fn takes_repeat(s: State) -> bool
    ensures { result ≡ takes_repeat s }
{
    matches!(s, State::Plain | State::Grouped)
}

// May :offside and the like stand?
fn takes_mark(s: State) -> bool
    ensures { result ≡ takes_mark s }
{
    matches!(s, State::Grouped)
}

// May a closing parenthesis stand?
fn may_close(s: State, deep: usize) -> bool
    ensures { result ≡ may s deep Lexeme.Close }
{
    deep != 0 && !is_due(s)
}

// May the lexeme stand?
fn fits(s: State, deep: usize, l: Lexeme) -> bool
    ensures { result ≡ may s deep l }
{
    match l {
        Lexeme::Nonterminal(_) | Lexeme::Terminal(_) | Lexeme::Open => is_due(s),
        Lexeme::Close => may_close(s, deep),
        Lexeme::Bar | Lexeme::Join(_) => !is_due(s),
        Lexeme::Maybe | Lexeme::Plus(_) | Lexeme::Star(_) => takes_repeat(s),
        Lexeme::Marked(_) => takes_mark(s),
        Lexeme::End | Lexeme::Not => false,
    }
}

// The walk behind a nonterminal.
fn named(w: Walk, a: u8, end: usize) -> Walk
    ensures { result ≡ stepped w (Lexeme.Nonterminal a) end }
{
    Walk {
        at: end,
        state: State::Plain,
        past: w.past.max(a as usize + 1),
        ..w
    }
}

// The walk behind an opening parenthesis.
fn opened(w: Walk, end: usize) -> Walk
    requires { w.deep < 18446744073709551615 }
    ensures { result ≡ stepped w Lexeme.Open end }
{
    Walk {
        at: end,
        state: State::Due,
        deep: w.deep + 1,
        over: w.over || 16 <= w.deep,
        ..w
    }
}

// The walk behind a lexeme that changes but the state.
fn moved(w: Walk, state: State, end: usize) -> Walk
    ensures { result ≡ record {
      at = end;
      state = state;
      deep = w.deep;
      over = w.over;
      past = w.past;
    } }
{
    Walk {
        at: end,
        state,
        ..w
    }
}

// The walk behind a closing parenthesis.
fn closed(w: Walk, end: usize) -> Walk
    requires { 0 < w.deep }
    ensures { result ≡ stepped w Lexeme.Close end }
{
    Walk {
        at: end,
        state: State::Grouped,
        deep: w.deep - 1,
        ..w
    }
}

// The walk behind a lexeme that may stand.
fn step(w: Walk, l: Lexeme, end: usize) -> Walk
    requires deep_bound { w.deep < 18446744073709551615 }
    requires l_value { may w.state w.deep l ≡ true }
    ensures { result ≡ stepped w l end }
{
    match l {
        Lexeme::Nonterminal(a) => named(w, a, end),
        Lexeme::Open => opened(w, end),
        Lexeme::Close => closed(w, end),
        Lexeme::Terminal(_) => moved(w, State::Plain, end),
        Lexeme::Bar | Lexeme::Join(_) | Lexeme::End | Lexeme::Not => moved(w, State::Due, end),
        Lexeme::Maybe | Lexeme::Plus(_) | Lexeme::Star(_) | Lexeme::Marked(_) => {
            moved(w, State::Suffixed, end)
        }
    }
}

// What the walk says at the end of the expression.
fn finish(w: Walk) -> Result<usize, ExpressionFault>
    ensures { result ≡ closing w }
{
    if is_due(w.state) || w.deep != 0 {
        return Err(ExpressionFault::Unwritten);
    }
    if w.over {
        return Err(ExpressionFault::Deep);
    }
    Ok(w.past)
}

// Are no lexemes left?
fn is_end(l: Lexeme) -> bool
    ensures { result ≡ is_end l }
{
    matches!(l, Lexeme::End)
}

// An expression's bytes: 41 depth aside, then 42, or one past its largest nonterminal.
pub fn check(s: &[u8]) -> Result<usize, ExpressionFault>
    ensures { result ≡ checked_of (expression s.now) }
{
    let mut w = Walk {
        at: 0,
        state: State::Due,
        deep: 0,
        over: false,
        past: 0,
    };
    loop {
        let x = lexeme_at(s, w.at);
        let l = x.lexeme;
        if is_end(l) {
            return finish(w);
        }
        if !fits(w.state, w.deep, l) {
            return Err(ExpressionFault::Unwritten);
        }
        w = step(w, l, x.end);
    }
}
