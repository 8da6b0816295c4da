// Lines of bytes: one is built in a small lent array, and copied whole into a lent buffer. Printing is by hand here and in the
// crates that print lines: a line lies in fixed memory, a full one keeps the bytes that fit, and what each function makes
// of it is promised with no answer to look at. `write!`, a `Display` and an `ArrayString` promise their text only where
// they answer Ok.
#![tactic(auto)]

ghost use Rattle.std.specs.Prelude.{◌≡◌, List, [], ◌∷◌, ◌++◌, length};
ghost use Rattle.text.specs.Text.{◌⇥◌, line, decimal};
ghost use Rattle.text.specs.Lines.{text_of, Pushed, Built, written, room_after};

use bounded::Bounded;

// The longest line of a transcript has 45 bytes.
#[derive(Clone, Copy)]
pub struct Line {
    pub bytes: Bounded<u8, 64>,
}

pub fn empty() -> Line
    ensures { text_of result ≡ [] }
{
    Line {
        bytes: Bounded::new(0),
    }
}

// The line with nothing in it, to be built anew.
pub fn clear(l: &mut Line)
    ensures { text_of l.new ≡ [] }
{
    l.bytes.len = 0;
}

// The number of bytes in the line.
pub fn size(l: &Line) -> usize
    ensures { result ≡ length (text_of l.now) }
{
    l.bytes.count()
}

// The bytes of the line.
pub fn bytes(l: &Line) -> &[u8]
    ensures { result.now ≡ text_of l.now }
{
    l.bytes.as_slice()
}

// One byte more. A full line stays as it is.
pub fn push(l: &mut Line, b: u8)
    ensures { Pushed l.old (b ∷ []) l.new }
{
    l.bytes.push(b);
}

// Of more bytes than there is room for the first ones.
pub fn push_bytes(l: &mut Line, s: &[u8])
    ensures { Pushed l.old s.now l.new }
{
    let at = l.bytes.count();
    let n = s.len().min(64 - at);
    l.bytes.items[at..at + n].copy_from_slice(&s[..n]);
    l.bytes.len = at + n;
}

// n in decimal, with no leading zero. By hand: `itoa` promises the same digits in a buffer of its own, out of which they would be
// copied, and is no plainer than these lines. The cast is of one digit, which fits a byte.
pub fn push_decimal(l: &mut Line, n: u64)
    ensures { Pushed l.old (decimal n) l.new }
{
    if 10 <= n {
        push_decimal(l, n / 10);
    }
    push(l, b'0' + (n % 10) as u8);
}

// A tab and a name.
pub fn push_field(l: &mut Line, s: &[u8])
    ensures { Pushed l.old (9 ∷ s.now) l.new }
{
    push(l, b'\t');
    push_bytes(l, s);
}

// A tab and a number.
pub fn push_number(l: &mut Line, n: u64)
    ensures { Pushed l.old (9 ∷ decimal n) l.new }
{
    push(l, b'\t');
    push_decimal(l, n);
}

// The first two fields of a line, whatever was in it: its letter and a name.
pub fn start(l: &mut Line, letter: u8, name: &[u8])
    ensures { Built ((letter ∷ []) ⇥ name.now) l.new }
{
    clear(l);
    push(l, letter);
    push_field(l, name);
}

// A line of a letter and a name.
pub fn name_line(l: &mut Line, letter: u8, s: &[u8])
    ensures { Built (line ((letter ∷ []) ⇥ s.now)) l.new }
{
    start(l, letter, s);
    push(l, b'\n');
}

// A line of a letter, a name and a number.
pub fn number_line(l: &mut Line, letter: u8, name: &[u8], n: u64)
    ensures { Built (line ((letter ∷ []) ⇥ name.now ⇥ decimal n)) l.new }
{
    start(l, letter, name);
    push_number(l, n);
    push(l, b'\n');
}

// Copies the line into out at a position and answers the position after it. Where it does not fit nothing is written.
pub fn append(out: &mut [u8], at: usize, l: &Line) -> Option<usize>
    ensures { (result ≡ room_after out.old at (text_of l.now)) × (out.new ≡ written out.old at (text_of l.now)) }
{
    let n = size(l);
    let end = at.checked_add(n)?;
    if out.len() < end {
        return None;
    }
    out[at..end].copy_from_slice(bytes(l));
    Some(end)
}
