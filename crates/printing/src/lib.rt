// Bytes, numbers and lines of output, put into a lent buffer one after the other.
#![tactic(auto)]

ghost use Rattle.std.specs.Prelude.{◌≡◌, [], ◌∷◌, ◌++◌, ◌+◌, ◌*◌, ◌≤◌, ◌<◌, length, take};
ghost use Rattle.printing.specs.Printing.{decimal, Wrote, letter_of, row_text_of, row_lines};

// One byte at a place; the place after it.
pub fn put_byte(out: &mut [u8], at: usize, b: u8) -> usize
    requires { at < length out.old }
    ensures { Wrote out.old out.new at (b ∷ []) result }
{
    out[at] = b;
    at + 1
}

// Bytes at a place; the place after them.
// Kept: byte by byte, as `copy_from_slice` would have the archive for C need memmove from outside.
pub fn put_bytes(out: &mut [u8], at: usize, bytes: &[u8]) -> usize
    requires { at + length bytes.now ≤ length out.old }
    ensures { Wrote out.old out.new at bytes.now result }
{
    for i in 0..bytes.len() {
        out[at + i] = bytes[i];
    }
    at + bytes.len()
}

// A number in base ten without a leading zero.
pub fn put_number(out: &mut [u8], at: usize, v: u64) -> usize
    requires { at + length (decimal v) ≤ length out.old }
    ensures { Wrote out.old out.new at (decimal v) result }
{
    if v < 10 {
        return put_byte(out, at, (48 + v) as u8);
    }
    let next = put_number(out, at, v / 10);
    put_byte(out, next, (48 + v % 10) as u8)
}

// A number of at most five digits and the byte `end` behind it.
pub fn put_ended(out: &mut [u8], at: usize, v: u32, end: u8) -> usize
    requires v_bound { v < 100000 }
    requires at_in_bounds { at + 6 ≤ length out.old }
    ensures wrote { Wrote out.old out.new at (decimal v ++ (end ∷ [])) result }
    ensures upper_bound { result ≤ at + 6 }
{
    let next = put_number(out, at, v as u64);
    put_byte(out, next, end)
}

// The letter of a row's kind.
fn letter(kind: u8) -> u8
    ensures { result ≡ letter_of kind }
{
    match kind {
        0 => b'E',
        1 => b'A',
        2 => b'U',
        3 => b'B',
        _ => b'C',
    }
}

// A tree line.
fn put_row(out: &mut [u8], at: usize, tree: u8, left: u8, kind: u8, start: u8, len: u8) -> usize
    requires { at + 26 ≤ length out.old }
    ensures wrote { Wrote out.old out.new at
        (row_text_of tree left kind start len) result }
    ensures upper_bound { result ≤ at + 26 }
{
    let a = put_ended(out, at, tree as u32, 32);
    let b = put_ended(out, a, left as u32, 32);
    let c = put_byte(out, b, letter(kind));
    let d = put_byte(out, c, b' ');
    let e = put_ended(out, d, start as u32, 32);
    put_ended(out, e, len as u32, 10)
}

// The tree lines of the first `count` rows.
pub fn put_rows(out: &mut [u8], at: usize, tree: u8, rows: &[u8], count: usize) -> usize
    requires count_in_bounds { 4 * count ≤ length rows.now }
    requires count_in_bounds_2 { at + 26 * count ≤ length out.old }
    ensures wrote { Wrote out.old out.new at
        (row_lines tree (take (4 * count) rows.now)) result }
    ensures upper_bound { result ≤ at + 26 * count }
{
    let mut next = at;
    for i in 0..count {
        let p = 4 * i;
        next = put_row(
            out,
            next,
            tree,
            rows[p],
            rows[p + 1],
            rows[p + 2],
            rows[p + 3],
        );
    }
    next
}
