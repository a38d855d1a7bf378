// Sets of numbers below 64, as the binary digits of a word; numbers as indices, and one of two
// bools.
#![tactic(auto)]

ghost use Rattle.std.specs.Prelude.{◌≡◌, ◌<◌, ◌≤◌};
ghost use Rattle.sets.specs.Sets.{In};
ghost use Rattle.sets.specs.Says.{Says};
ghost use Rattle.sets.specs.Either.{Either};
ghost use Rattle.sets.specs.Firsts.{FirstFrom};
ghost use Rattle.sets.specs.Insertion.{insert};

// Is `a` a member?
pub fn has(set: u64, a: u8) -> bool
    requires { a < 64 }
    ensures { Says result (In set a) }
{
    (set >> a) % 2 == 1
}

// The set with `a` besides.
pub fn with(set: u64, a: u8) -> u64
    requires { a < 64 }
    ensures { result ≡ insert set a }
{
    set | (1u64 << a)
}

// The least member from `from` on.
pub fn first_from(set: u64, from: u8) -> Option<u8>
    requires { from ≤ 64 }
    ensures { FirstFrom set from result }
{
    for t in from..64 {
        if has(set, t) {
            return Some(t);
        }
    }
    None
}

// A number as an index.
pub fn wide(x: u8) -> usize
    ensures { result ≡ x }
{
    x as usize
}

// Is one of the two true?
pub fn either(a: bool, b: bool) -> bool
    ensures { Either a b result }
{
    if a {
        return true;
    }
    b
}
