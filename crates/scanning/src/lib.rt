// Numbers in base ten and fixed bytes, read from a place of a text on.
#![tactic(auto)]

ghost use Rattle.std.specs.Prelude.{◌≤◌, ◌<◌, length, drop};
ghost use Rattle.sets.specs.Says.{Says};
ghost use Rattle.scanning.specs.Scanned.{Starts, DigitsAt, NumberAt};

// The value of some digits and the place behind them.
#[derive(Clone, Copy)]
struct Digits {
    value: u64,
    next: usize,
}

// Do these bytes stand at the place?
pub fn starts_at(s: &[u8], at: usize, bytes: &[u8]) -> bool
    requires { at ≤ length s.now }
    ensures { Says result (Starts (drop at s.now) bytes.now) }
{
    s[at..].starts_with(bytes)
}

// The digits from a place on that write a number without a leading zero, as far as it is at most
// `most`.
fn digits_at(s: &[u8], at: usize, most: u64) -> Digits
    requires at_in_bounds { at ≤ length s.now }
    requires most_bound { most ≤ 4294967296 }
    ensures { DigitsAt s.now at most result }
{
    let mut v: u64 = 0;
    for i in at..s.len() {
        let b = s[i];
        if !b.is_ascii_digit() {
            return Digits { value: v, next: i };
        }
        let d = b - b'0';
        let w = v * 10 + d as u64;
        if most < w {
            return Digits { value: v, next: i };
        }
        if w == 0 {
            return Digits {
                value: 0,
                next: i + 1,
            };
        }
        v = w;
    }
    Digits {
        value: v,
        next: s.len(),
    }
}

// The number from a place on, at most `most` and without a leading zero, with the byte `end` behind
// it, and the place behind that byte.
pub fn number_at(s: &[u8], at: usize, most: u64, end: u8) -> Option<(u64, usize)>
    requires at_in_bounds { at ≤ length s.now }
    requires most_bound { most ≤ 4294967296 }
    requires end_bound { end < 48 }
    ensures { NumberAt s.now at most end result }
{
    let r = digits_at(s, at, most);
    let i = r.next;
    if i == at {
        return None;
    }
    if s.len() <= i {
        return None;
    }
    if s[i] != end {
        return None;
    }
    Some((r.value, i + 1))
}
