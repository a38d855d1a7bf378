// Cases of the test programs on standard input: a header of 6 bytes (five digits: the input's
// length; byte 10), then the input.
#![tactic(auto)]

ghost use Rattle.std.specs.Prelude.{◌+◌, ◌≤◌, ℕ, List, length, IfOk, IfSome, OnErr};
ghost use Rattle.std.specs.Io.KnownBytes.{Consumes};

use std::io;
use std::io::Read;
use streams::read_full;

// A digit's value; 0 for any other byte.
fn digit(b: u8) -> usize
    ensures { result ≤ 9 }
{
    match b {
        b'0'..=b'9' => usize::from(b - b'0'),
        _ => 0,
    }
}

// The number of five digits from a place on.
pub fn five(s: &[u8], at: usize) -> usize
    requires { at + 5 ≤ length s.now }
    ensures { result ≤ 99999 }
{
    let mut n = 0;
    for b in &s[at..at + 5] {
        n = n * 10 + digit(*b);
    }
    n
}

// The next case's input is put in front; its length, or none where there is no more case, or no
// room for it. A read that fails is no end: it is handed on, and bytes in front may have been read.
pub fn next_case<R: Read>(from: &mut R, space: &mut [u8]) -> io::Result<Option<usize>>
    ensures upper_bound { IfOk result (λ o. IfSome o (λ n. n ≤ 100000)) }
    ensures failed { OnErr result
        ((bs : List ℕ) × Consumes (R.remaining from.old) (R.remaining from.new) bs) }
{
    let mut head = [0u8; 6];
    let got = read_full(from, &mut head)?;
    if got < 6 {
        return Ok(None);
    }
    let n = five(&head, 0);
    if space.len() < n {
        return Ok(None);
    }
    read_full(from, &mut space[..n])?;
    Ok(Some(n))
}
