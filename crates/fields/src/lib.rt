// The bytes of a sheet: its lines, the fields of a line, and what a field may be: a number, a kind
// letter, a lay word, `-`.
#![tactic(auto)]

ghost use Rattle.std.specs.Prelude.{◌≡◌, ℕ, ◌+◌, ◌-◌, ◌≤◌, List, Option, length, drop};
ghost use Rattle.fields.specs.Pieces.{before};
ghost use Rattle.fields.specs.Parts.{Part};
ghost use Rattle.fields.specs.Words.{digits_of, numeral_of, kind_of, lay_of, operand_of};
ghost use Rattle.fields.specs.Cursors.{line_at, fields_left, read_field, FirstField};
ghost use Rattle.fields.specs.Three.{ThreeTold};

// A place in a sheet and the line that it is in: `at` is where the next field begins, one past
// `end` where no field is left; `end` is where the line ends, the place of its byte 10 or the
// sheet's end.
#[derive(Clone, Copy)]
pub struct Cursor {
    pub at: usize,
    pub end: usize,
}

// The kinds of rules, by their letters.
#[derive(Clone, Copy, PartialEq, Eq)]
pub enum Kind {
    E,
    A,
    U,
    B,
}

// The lay words: none, offside, offalign, single, align, indent.
#[derive(Clone, Copy)]
pub enum Lay {
    None,
    Offside,
    Offalign,
    Single,
    Align,
    Indent,
}

// What stands as first or second in a rule line: `-`, which is `None`, or a number.
pub type Operand = Option<u32>;

// What a field can be read as.
pub trait Readable {
    // The value that bytes write, if they write one.
    ghost written: { List ℕ → Option Self };

    fn of(f: &[u8]) -> Option<Self>
        ensures { result ≡ written f.now };
}

// The first place of byte b at or after `at`, or the end.
fn piece_end(s: &[u8], at: usize, b: u8) -> usize
    requires { at ≤ length s.now }
    ensures { result ≡ at + length (before b (drop at s.now)) }
{
    for i in at..s.len() {
        if s[i] == b {
            return i;
        }
    }
    s.len()
}

// The number that up to five digits write.
fn digits(f: &[u8]) -> Option<u32>
    requires { length f.now ≤ 5 }
    ensures { result ≡ digits_of 0 f.now }
{
    let mut v: u32 = 0;
    for b in f {
        if !b.is_ascii_digit() {
            return None;
        }
        let d = *b - b'0';
        v = v * 10 + d as u32;
    }
    Some(v)
}

// A number of one to five digits.
pub fn numeral(f: &[u8]) -> Option<u32>
    ensures { result ≡ numeral_of f.now }
{
    let n = f.len();
    if n == 0 {
        return None;
    }
    if 5 < n {
        return None;
    }
    digits(f)
}

impl Readable for u32 {
    ghost written = { numeral_of };

    fn of(f: &[u8]) -> Option<u32> {
        numeral(f)
    }
}

// A kind letter.
impl Readable for Kind {
    ghost written = { kind_of };

    fn of(f: &[u8]) -> Option<Kind> {
        match f {
            b"E" => Some(Kind::E),
            b"A" => Some(Kind::A),
            b"U" => Some(Kind::U),
            b"B" => Some(Kind::B),
            _ => None,
        }
    }
}

impl Readable for Lay {
    ghost written = { lay_of };

    fn of(f: &[u8]) -> Option<Lay> {
        match f {
            b"none" => Some(Lay::None),
            b"offside" => Some(Lay::Offside),
            b"offalign" => Some(Lay::Offalign),
            b"single" => Some(Lay::Single),
            b"align" => Some(Lay::Align),
            b"indent" => Some(Lay::Indent),
            _ => None,
        }
    }
}

// `-`, or a number.
impl Readable for Operand {
    ghost written = { operand_of };

    fn of(f: &[u8]) -> Option<Operand> {
        if let b"-" = f {
            return Some(None);
        }
        Some(Some(numeral(f)?))
    }
}

impl Cursor {
    // The line that begins at a place of the sheet, at its first field.
    pub fn line(s: &[u8], at: usize) -> Cursor
        requires { at ≤ length s.now }
        ensures { result ≡ line_at s.now at }
    {
        let end = piece_end(s, at, b'\n');
        Cursor { at, end }
    }

    // The bytes from the cursor to the line's end, without its byte 10, as a part of the sheet.
    pub fn bytes<'a>(self, s: &'a [u8]) -> &'a [u8]
        requires { (self.at ≤ self.end) × (self.end ≤ length s.now) }
        ensures { Part s.entry self.at (self.end - self.at) result }
    {
        let at = self.at;
        let end = self.end;
        &s[at..end]
    }

    // The bytes of the field at the cursor: up to the next blank, or to the line's end.
    fn field<'a>(self, s: &'a [u8]) -> &'a [u8]
        requires { (self.at ≤ self.end) × (self.end ≤ length s.now) }
        ensures { FirstField s.now self result.now }
    {
        let at = self.at;
        let end = self.end;
        let line = &s[..end];
        let e = piece_end(line, at, b' ');
        &line[at..e]
    }

    // The field at the cursor as a word of a kind, and the cursor moved behind it; or `None` where
    // no field is left, or the field is no such word.
    pub fn read<W: Readable>(self, s: &[u8]) -> Option<(W, Cursor)>
        requires { self.end ≤ length s.now }
        ensures { result ≡ read_field W.written self (fields_left s.now self) }
    {
        let end = self.end;
        if end < self.at {
            return None;
        }
        let f = self.field(s);
        let at = self.at + f.len() + 1;
        let v = W::of(f)?;
        Some((v, Cursor { at, end }))
    }

    // The three numbers at the cursor, with which lines of four sheets begin.
    pub fn three(self, s: &[u8]) -> Option<(u32, u32, u32, Cursor)>
        requires { self.end ≤ length s.now }
        ensures { ThreeTold s.now self result }
    {
        let (x, d) = self.read(s)?;
        let (y, e) = d.read(s)?;
        let (z, f) = e.read(s)?;
        Some((x, y, z, f))
    }
}
