// The words of a span sheet: where a span's pair stands, and reading, writing and clearing them.
#![tactic(auto)]

ghost use Rattle.std.specs.Prelude.{◌≡◌, ◌+◌, ◌*◌, ◌≤◌, ◌<◌, length};
ghost use Rattle.sets.specs.Says.{Says};
ghost use Rattle.sets.specs.Sets.{In};
ghost use Rattle.grammar.specs.SpanSheet.{pairs, pair_at, first_word, second_word};
ghost use Rattle.spans.specs.Changes.{Cleared, WrotePair};
ghost use Rattle.spans.specs.Reach.{Reach};

use sets::has;

// How many spans 64 tokens have, the empty one besides; and the words of their sheet.
pub const SPANS: usize = 2081;

pub const SHEET_WORDS: usize = 4162;

// How many words the span sheet of `n` tokens has.
pub fn size(n: usize) -> usize
    requires { n ≤ 64 }
    ensures { result ≡ 2 * pairs n }
{
    2 * (1 + n * (n + 1) / 2)
}

// Set the first `n` words to 0.
pub fn clear(words: &mut [u64], n: usize)
    requires { n ≤ length words.old }
    ensures { Cleared words.old words.new n }
{
    words[..n].fill(0);
}

// Which pair of the span sheet of `n` tokens is that of the span of `len` tokens from `start` on.
pub fn pair_at(n: usize, start: usize, len: usize) -> usize
    requires { (n ≤ 64) × (start + len ≤ n) }
    ensures { result ≡ pair_at n start len }
{
    if len == 0 {
        return 0;
    }
    let k = len - 1;
    1 + k * (2 * n + 1 - k) / 2 + start
}

// Is `a` in the first word of the span's pair?
pub fn in_first(words: &[u64], n: usize, start: usize, len: usize, a: u8) -> bool
    requires { Reach words.now n start len a }
    ensures { Says result (In (first_word words.now n start len) a) }
{
    let at = 2 * pair_at(n, start, len);
    has(words[at], a)
}

// Is it in the second?
pub fn in_second(words: &[u64], n: usize, start: usize, len: usize, a: u8) -> bool
    requires { Reach words.now n start len a }
    ensures { Says result (In (second_word words.now n start len) a) }
{
    let at = 2 * pair_at(n, start, len) + 1;
    has(words[at], a)
}

// Write both words of the pair `p`.
pub fn write(words: &mut [u64], p: usize, a: u64, b: u64)
    requires { 2 * p + 1 < length words.old }
    ensures { WrotePair words.old words.new p a b }
{
    let at = 2 * p;
    words[at] = a;
    words[at + 1] = b;
}
