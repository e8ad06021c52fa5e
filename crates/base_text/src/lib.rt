// Fields, numbers and names in a text of bytes, and numbers written into one.
// "One space separates fields"; byte 10, or bytes 13 and 10, end a line. "Every reader is a cursor that hands itself on after each number."
// A field is what stands up to the next space, line's end or end of text; each field is validated whole, by the definition of the crate `model`.
#![tactic(auto)]

ghost use Rattle.std.specs.Prelude.{◌≡◌, ◌∷◌, ◌+◌, ◌/◌, ◌%◌, ◌≤◌, ◌<◌};
ghost use Rattle.base.specs.{[], length, get_or, drop};
ghost use Rattle.model.specs.{same, decimal, number, hex_digit, hex_from, hex_table, is_letter, is_name_byte, is_name, name_bytes};
ghost use Rattle.base_words.specs.{put_at};
ghost use Rattle.base_text.specs.{Wrote, end_of, end_at, byte_at, line_end_at, number_at, table_at, name_at, closed_at};
ghost use Rattle.base_text.specs.{in_class, span_end, number_then, number_end, table_then, difference_at, span_at, first_is};

// A position in a text. The text itself is a parameter of each method. What a method read is its number, if it has one, and the cursor past it.
#[derive(Clone, Copy)]
pub struct Cursor {
    pub at: usize,
}

// A line: "where the contents stop and where the next line begins"; both are one place where the text ends first.
#[derive(Clone, Copy)]
pub struct Span {
    pub stop: usize,
    pub next: usize,
}

// ---- lines and fields

// How many bytes of a line's end stand at a place: 1 for byte 10, 2 for bytes 13 and 10, else none. A lone 13 ends no line.
pub fn ends_at(s: &[u8], at: usize) -> usize
    ensures { result ≡ end_of (drop at s.now) }
{
    if s.len() <= at {
        return 0;
    }
    let b = s[at];
    if b == 10 {
        return 1;
    }
    if b != 13 || s.len() - at < 2 {
        return 0;
    }
    if s[at + 1] == 10 { 2 } else { 0 }
}

// The line that begins at `from`.
pub fn line(s: &[u8], from: usize) -> Span
    ensures { result ≡ span_at s.now from }
{
    for at in from..s.len() {
        let n = ends_at(s, at);
        if n != 0 {
            return Span {
                stop: at,
                next: at + n,
            };
        }
    }
    let end = from.max(s.len());
    Span {
        stop: end,
        next: end,
    }
}

// Where the field at `from` ends: at the next space, line's end or end of text.
pub fn field_end(s: &[u8], from: usize) -> usize
    ensures { result ≡ end_at s.now from }
{
    for at in from..s.len() {
        if s[at] == 32 || ends_at(s, at) != 0 {
            return at;
        }
    }
    from.max(s.len())
}

// The same bytes.
pub fn same_bytes(a: &[u8], b: &[u8]) -> bool
    ensures { result ≡ same a.now b.now }
{
    a == b
}

// A text's first line has its end, and these contents.
pub fn first_is(s: &[u8], first: Span, bytes: &[u8]) -> bool
    requires { first.stop ≤ length s.now }
    ensures { result ≡ first_is s.now first bytes.now }
{
    let stop = first.stop;
    stop < first.next && same_bytes(&s[..stop], bytes)
}

// ---- numbers

// A number whose digits end at a place: it is one only if its field ends there.
fn closed(s: &[u8], at: usize, n: u16) -> Option<(u16, Cursor)>
    ensures { result ≡ closed_at s.now at n }
{
    if s.len() <= at || s[at] == 32 || ends_at(s, at) != 0 {
        return Some((n, Cursor { at }));
    }
    None
}

// "decimal, 0 to 65,535, without leading zeros": the field at a place where no zero begins it, its digits and its end in one pass.
fn digits_at(s: &[u8], from: usize) -> Option<(u16, Cursor)>
    requires { (from < length s.now) × (48 < get_or s.now from 0) }
    ensures { result ≡ number_at s.now from }
{
    let mut n: u32 = 0;
    for at in from..s.len() {
        let b = s[at];
        if b < 48 {
            return closed(s, at, n as u16);
        }
        if b > 57 {
            return None;
        }
        n = n * 10 + (u32::from(b) - 48);
        if n > 65535 {
            return None;
        }
    }
    Some((n as u16, Cursor { at: s.len() }))
}

// The same for a field of its own: "decimal, 0 to 65,535, without leading zeros".
pub fn number_of(w: &[u8]) -> Option<u16>
    ensures { result ≡ number w.now }
{
    let (n, past) = Cursor { at: 0 }.number(w)?;
    if past.at == w.len() { Some(n) } else { None }
}

// ---- "four lower-case hexadecimal digits"

// The value of a digit of the foundry's match table: "Write it as listed cases, digits and letters by range, so that they can tick them off." A digit's
// value is its distance from `0`, a letter's ten and its distance from `a`; no other byte is a digit.
fn hex_digit(b: u8) -> Option<u16>
    ensures { result ≡ hex_digit b }
{
    match b {
        b'0'..=b'9' => Some(u16::from(b - b'0')),
        b'a'..=b'f' => Some(u16::from(b - b'a') + 10),
        _ => None,
    }
}

fn hex_pair(a: u8, b: u8) -> Option<u16>
    ensures { result ≡ hex_from 0 (a ∷ b ∷ []) }
{
    let high = hex_digit(a)?;
    let low = hex_digit(b)?;
    Some(high * 16 + low)
}

pub fn hex_of(w: &[u8]) -> Option<u16>
    ensures { result ≡ hex_table w.now }
{
    if w.len() != 4 {
        return None;
    }
    let high = hex_pair(w[0], w[1])?;
    let low = hex_pair(w[2], w[3])?;
    Some(high * 256 + low)
}

// ---- "A name is 1 to 8 letters, digits or underscores, a letter first."

fn is_letter(b: u8) -> bool
    ensures { result ≡ is_letter b }
{
    match b {
        b'A'..=b'Z' => true,
        b'a'..=b'z' => true,
        _ => false,
    }
}

pub fn is_name_byte(b: u8) -> bool
    ensures { result ≡ is_name_byte b }
{
    is_letter(b) || (b == b'_' || (b >= b'0' && b <= b'9'))
}

pub fn is_name(w: &[u8]) -> bool
    ensures { result ≡ is_name w.now }
{
    match w {
        [first, rest @ ..] => is_letter(*first)
            && (rest.len() <= 7 && rest.iter().all(|b| is_name_byte(*b))),
        [] => false,
    }
}

// ---- the cursor

impl Cursor {
    // One given byte.
    pub fn byte(self, s: &[u8], b: u8) -> Option<Cursor>
        ensures { result ≡ byte_at s.now self.at b }
    {
        let at = self.at;
        if s.len() <= at || s[at] != b {
            return None;
        }
        Some(Cursor { at: at + 1 })
    }

    // The end of a line: the cursor is where the next line begins.
    pub fn line_end(self, s: &[u8]) -> Option<Cursor>
        ensures { result ≡ line_end_at s.now self.at }
    {
        let at = self.at;
        let n = ends_at(s, at);
        if n == 0 {
            return None;
        }
        Some(Cursor { at: at + n })
    }

    // A number's field.
    pub fn number(self, s: &[u8]) -> Option<(u16, Cursor)>
        ensures { result ≡ number_at s.now self.at }
    {
        let from = self.at;
        if s.len() <= from {
            return None;
        }
        if s[from] > 48 {
            return digits_at(s, from);
        }
        if s[from] == 48 {
            return closed(s, from + 1, 0);
        }
        None
    }

    // A table's field.
    pub fn table(self, s: &[u8]) -> Option<(u16, Cursor)>
        ensures { result ≡ table_at s.now self.at }
    {
        let from = self.at;
        if s.len() <= from {
            return None;
        }
        let end = field_end(s, from);
        let n = hex_of(&s[from..end])?;
        Some((n, Cursor { at: end }))
    }

    // A name's field: the cursor past it says how long it is.
    pub fn name(self, s: &[u8]) -> Option<Cursor>
        ensures { result ≡ name_at s.now self.at }
    {
        let from = self.at;
        if s.len() <= from {
            return None;
        }
        let end = field_end(s, from);
        if is_name(&s[from..end]) {
            return Some(Cursor { at: end });
        }
        None
    }

    // "A difference is in groups of seven bits, lowest first, the top bit set on all but the last byte"; one that "takes more than two bytes" is broken.
    pub fn difference(self, s: &[u8]) -> Option<(u16, Cursor)>
        ensures { result ≡ difference_at s.now self.at }
    {
        let at = self.at;
        if s.len() <= at {
            return None;
        }
        let low = s[at];
        if low < 128 {
            return Some((u16::from(low), Cursor { at: at + 1 }));
        }
        if s.len() <= at + 1 || s[at + 1] >= 128 {
            return None;
        }
        let high = s[at + 1];
        Some((
            u16::from(low) - 128 + 128 * u16::from(high),
            Cursor { at: at + 2 },
        ))
    }

    // A number's field, and the byte that must stand behind it.
    // Stays: the new form is no plainer: `table_then` has these two lines too, and a function over the field's reader would need clauses on what that answers.
    pub fn number_then(self, s: &[u8], b: u8) -> Option<(u16, Cursor)>
        ensures { result ≡ number_then s.now self.at b }
    {
        let (n, past) = self.number(s)?;
        Some((n, past.byte(s, b)?))
    }

    // A number's field that ends its line.
    pub fn number_end(self, s: &[u8]) -> Option<(u16, Cursor)>
        ensures { result ≡ number_end s.now self.at }
    {
        let (n, past) = self.number(s)?;
        Some((n, past.line_end(s)?))
    }

    // A table's field, and the byte behind it.
    pub fn table_then(self, s: &[u8], b: u8) -> Option<(u16, Cursor)>
        ensures { result ≡ table_then s.now self.at b }
    {
        let (n, past) = self.table(s)?;
        Some((n, past.byte(s, b)?))
    }
}

// ---- bytes and numbers written

// All of `from`, from byte `at` on.
// Stays: beside `base_words::put`, one for both is no plainer, as `put_at` would have to be of any type. `copy_from_slice` becomes a call of `memmove`
// here, where C programs are promised that the archive needs `memcpy` and `memset` alone.
pub fn put(out: &mut [u8], at: usize, from: &[u8])
    requires { at + length from.now ≤ length out.old }
    ensures { out.new ≡ put_at out.old at from.now }
{
    for i in 0..from.len() {
        out[at + i] = from[i];
    }
}

// The same; the answer is the place past them.
pub fn put_bytes(out: &mut [u8], at: usize, from: &[u8]) -> usize
    requires { at + length from.now ≤ length out.old }
    ensures { Wrote out.old out.new at result from.now }
{
    put(out, at, from);
    at + from.len()
}

pub fn put_byte(out: &mut [u8], at: usize, b: u8) -> usize
    requires { at < length out.old }
    ensures { Wrote out.old out.new at result (b ∷ []) }
{
    out[at] = b;
    at + 1
}

// A name's bytes by value, with zeros behind them.
pub fn name_bytes(w: &[u8]) -> [u8; 8]
    requires { length w.now ≤ 8 }
    ensures { result ≡ name_bytes w.now }
{
    let mut name = [0u8; 8];
    put(&mut name, 0, w);
    name
}

// How many digits a number has "in decimal without leading zeros".
pub fn number_len(n: u32) -> usize
    ensures { result ≡ length (decimal n) }
{
    if n < 10 { 1 } else { number_len(n / 10) + 1 }
}

// Two digits, a zero first where the number is below ten; the answer is the place past them.
fn put_pair(out: &mut [u8], at: usize, n: u32) -> usize
    requires { (at + 2 ≤ length out.old) × (n < 100) }
    ensures { (result ≡ at + 2) × (out.new ≡ put_at out.old at ((48 + n / 10) ∷ (48 + n % 10) ∷ [])) }
{
    out[at] = 48 + (n / 10) as u8;
    out[at + 1] = 48 + (n % 10) as u8;
    at + 2
}

// A number's digits, from byte `at` on; the answer is the place past them.
pub fn put_number(out: &mut [u8], at: usize, n: u32) -> usize
    requires { at + length (decimal n) ≤ length out.old }
    ensures { (result ≡ at + length (decimal n)) × (out.new ≡ put_at out.old at (decimal n)) }
{
    if n < 10 {
        out[at] = 48 + n as u8;
        return at + 1;
    }
    if n < 100 {
        put_pair(out, at, n)
    } else {
        let next = put_number(out, at, n / 100);
        put_pair(out, next, n % 100)
    }
}

// ---- classes of bytes, and where the bytes of one class end

// "Spaces or tabs part words"; digits; the bytes of a name, "letters, digits and underscores"; those of a name or a figure; all but the space, which
// "separates fields".
// Stays: a closure in its place is no plainer, as the classes are the definitions' own (`in_class`), and a caller's closure would need a proof of its test.
#[derive(Clone, Copy, PartialEq, Eq)]
pub enum Class {
    Blank,
    Digit,
    Name,
    Word,
    Field,
}

pub fn is_of(class: Class, b: u8) -> bool
    ensures { result ≡ in_class class b }
{
    match class {
        Class::Blank => b == b' ' || b == b'\t',
        Class::Digit => b >= b'0' && b <= b'9',
        Class::Name => is_name_byte(b),
        Class::Word => is_name_byte(b) || b == b'.',
        Class::Field => b != b' ',
    }
}

// The first place from `from` on whose byte is of another class, or the end.
pub fn span_end(w: &[u8], from: usize, class: Class) -> usize
    ensures { result ≡ span_end (in_class class) w.now from }
{
    for at in from..w.len() {
        if !is_of(class, w[at]) {
            return at;
        }
    }
    from.max(w.len())
}
