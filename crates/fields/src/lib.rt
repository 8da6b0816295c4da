// The fields of a line: parts of a text between tabs, names and decimals among them.
#![tactic(auto)]

ghost use Rattle.std.specs.Prelude.{◌≡◌, ◌∷◌, ◌++◌, ◌+◌, ◌<◌, ◌≤◌, List, ℕ, length, take, drop, MatchOption};
ghost use Rattle.std.specs.Bool.{Decides};
ghost use Rattle.text.specs.Text.{decimal};
ghost use Rattle.fields.specs.Fields.{place_of, before, after, digits_from, number_of};

// The place of the first byte b, or the length where there is none. No `Option`: that number is promised, the definitions
// count so, and what stands before and after the place is then the whole text and nothing. (`first` and `rest` are the
// definitions' `before` and `after`, of which a line's fields are made one by one; `splitn` would have to be shown to give
// the same at each.)
pub fn place(l: &[u8], b: u8) -> usize
    ensures { result ≡ place_of b l.now }
{
    l.iter().position(|&x| x == b).unwrap_or(l.len())
}

// The first field: what stands before the first tab, or all of a text that has none.
pub fn first(l: &[u8]) -> &[u8]
    ensures { result.now ≡ before l.now }
{
    &l[..place(l, b'\t')]
}

// The other fields: what stands after the first tab, or nothing where there is none. No `Option`: a field that is missing is read
// as one that is empty, which is no name and no number.
pub fn rest(l: &[u8]) -> &[u8]
    ensures { result.now ≡ after l.now }
{
    l.get(place(l, b'\t') + 1..).unwrap_or(&[])
}

// All digits, and the number at most `most`. A `for` over the bytes: `try_fold` would have the same three tests in a closure, and
// `parse` takes a sign and has no bound.
fn digits(f: &[u8], most: u64) -> Option<u64>
    ensures { result ≡ digits_from most 0 f.now }
{
    let mut n: u64 = 0;
    for &b in f {
        if !b.is_ascii_digit() {
            return None;
        }
        n = n.checked_mul(10)?.checked_add(u64::from(b - b'0'))?;
        if most < n {
            return None;
        }
    }
    Some(n)
}

// A decimal with no leading zero, at most `most`.
pub fn number(f: &[u8], most: u64) -> Option<u64>
    ensures { result ≡ number_of most f.now }
{
    match f {
        [] | [b'0', _, ..] => None,
        _ => digits(f, most),
    }
}

// A decimal with no leading zero, from 0 to 255.
#[tactic(auto, using(crate::proofs::Numbers::number_bound))]
pub fn byte(f: &[u8]) -> Option<u8>
    ensures { result ≡ number_of 255 f.now }
{
    u8::try_from(number(f, 255)?).ok()
}

// A decimal with no leading zero, from 0 to 65535.
#[tactic(auto, using(crate::proofs::Numbers::number_bound))]
pub fn word(f: &[u8]) -> Option<u16>
    ensures { result ≡ number_of 65535 f.now }
{
    u16::try_from(number(f, 65535)?).ok()
}

// Are the eight bytes the same? Compared as one number.
#[inline(always)]
fn same_word(a: [u8; 8], b: [u8; 8]) -> bool
    ensures { Decides result (a ≡ b) }
{
    u64::from_le_bytes(a) == u64::from_le_bytes(b)
}

// The first eight bytes of a text.
#[inline(always)]
fn first_eight(l: &[u8]) -> Option<&[u8; 8]>
    ensures { MatchOption result (length l.now < 8) (λ r. r.now ≡ take 8 l.now) }
{
    let (x, _) = l.split_first_chunk::<8>()?;
    Some(x)
}

// Are the eight bytes of both texts from a place on the same?
#[inline(always)]
fn same_eight(a: &[u8], b: &[u8], at: usize) -> bool
    requires { (at + 8 ≤ length a.now) × (at + 8 ≤ length b.now) }
    ensures { Decides result (take 8 (drop at a.now) ≡ take 8 (drop at b.now)) }
{
    match (first_eight(&a[at..]), first_eight(&b[at..])) {
        (Some(x), Some(y)) => same_word(*x, *y),
        _ => false,
    }
}

// Are two texts of 8 to 16 bytes the same? Their first eight bytes and their last eight are compared.
#[inline(always)]
fn same_ends(a: &[u8], b: &[u8]) -> bool
    requires { (length a.now ≡ length b.now) × (8 ≤ length a.now) × (length a.now ≤ 16) }
    ensures { Decides result (a.now ≡ b.now) }
{
    same_eight(a, b, 0) && same_eight(a, b, a.len() - 8)
}

// Are two texts of 16 to 24 bytes the same?
#[inline(always)]
fn same_long(a: &[u8], b: &[u8]) -> bool
    requires { (length a.now ≡ length b.now) × (16 ≤ length a.now) × (length a.now ≤ 24) }
    ensures { Decides result (a.now ≡ b.now) }
{
    same_eight(a, b, 0) && same_ends(&a[8..], &b[8..])
}

// Are two texts of the same length the same? By words, since `==` on an array compares single bytes where it is inlined. It has the
// lengths that are rare here: under 8 and over 24.
#[inline(always)]
fn are<const N: usize>(a: &[u8; N], b: &[u8; N]) -> bool
    ensures { Decides result (a.now ≡ b.now) }
{
    if 8 <= N && N <= 16 {
        same_ends(a, b)
    } else if 16 < N && N <= 24 {
        same_long(a, b)
    } else {
        a == b
    }
}

// What follows the bytes `start` at the start of a text; none where it begins with others. By an array, since `strip_prefix` on a
// slice asks each time how long it is.
#[inline(always)]
pub fn behind<'a, const N: usize>(l: &'a [u8], start: &[u8; N]) -> Option<&'a [u8]>
    ensures { MatchOption result ((rest : List ℕ) → l.now ≡ start.now ++ rest → ⊥) (λ r. l.now ≡ start.now ++ r.now) }
{
    let (head, rest) = l.split_first_chunk::<N>()?;
    if are(head, start) { Some(rest) } else { None }
}

// The digit at the start of a text, as a number, and what follows it.
#[inline(always)]
fn digit(l: &[u8]) -> Option<(u8, &[u8])>
    ensures { MatchOption result (Unit {0}) (λ r. (l.now ≡ (48 + r.0) ∷ r.1.now) × (r.0 < 10)) }
{
    let (b, rest) = l.split_first()?;
    if b.is_ascii_digit() {
        Some((b - b'0', rest))
    } else {
        None
    }
}

// What follows one byte at the start of a text; none where it begins with another.
#[inline(always)]
fn ended(l: &[u8], end: u8) -> Option<&[u8]>
    ensures { MatchOption result (Unit {0}) (λ r. l.now ≡ end ∷ r.now) }
{
    let (&b, rest) = l.split_first()?;
    if b == end { Some(rest) } else { None }
}

// The number of the decimal at the start of a text, where it is from 0 to 255 and the byte `end` ends it, and what follows that
// byte. It is read without looking for its end first. What is none here may still be a number: `byte` decides.
#[inline(always)]
pub fn ended_byte(l: &[u8], end: u8) -> Option<(u8, &[u8])>
    ensures { MatchOption result (Unit {0}) (λ r. l.now ≡ decimal r.0 ++ end ∷ r.1.now) }
{
    let (a, l) = digit(l)?;
    if let Some(rest) = ended(l, end) {
        return Some((a, rest));
    }
    if a == 0 {
        return None;
    }
    let (b, l) = digit(l)?;
    let n = a * 10 + b;
    if let Some(rest) = ended(l, end) {
        return Some((n, rest));
    }
    let (c, l) = digit(l)?;
    let n = n.checked_mul(10)?.checked_add(c)?;
    Some((n, ended(l, end)?))
}
