// Whether a text holds the names and symbols of an image, in order, and no others. A text and the place in it go side by side, as
// the places of the image do.
// Marks stay numbers, as in `image::part`.
ghost use Rattle.std.specs.Prelude.{◌+◌, ◌<◌, ◌≤◌, length, IfSome};

// What a text is in, outside of the names: a comment ends with its line, a word like $ENTRY with a space.
#[derive(Clone, Copy, PartialEq, Eq)]
enum Mode {
    Plain,
    Comment,
    Word,
}

impl Mode {
    // What the byte c leads into.
    fn after(self, c: u8) -> Mode {
        match (self, c) {
            (Mode::Plain, b'*') => Mode::Comment,
            (Mode::Plain, b'$') => Mode::Word,
            (Mode::Comment, b'\n') => Mode::Plain,
            (Mode::Word, b' ') => Mode::Plain,
            (mode, _) => mode,
        }
    }
}

// The byte at i, 0 past the end: what is cut off is 0 to each caller, and an Option would only be opened there.
fn byte_at(s: &[u8], i: usize) -> u8 {
    s.get(i).copied().unwrap_or(0)
}

// The number in the two bytes at p, which is enough for a place of a text.
fn place_at(b: &[u8], p: usize) -> usize
    requires { p ≤ 40000 }
    ensures { result < 65536 }
{
    usize::from(u16::from_le_bytes([byte_at(b, p), byte_at(b, p + 1)]))
}

// Where the next name of the text begins, from q on, with a letter or a digit.
fn next_name(t: &[u8], q: usize) -> Option<usize>
    requires { q ≤ length t.now }
    ensures { IfSome result (λ n. n < length t.now) }
{
    let mut mode = Mode::Plain;
    for i in q..t.len() {
        let c = t[i];
        if mode == Mode::Plain && c.is_ascii_alphanumeric() {
            return Some(i);
        }
        mode = mode.after(c);
    }
    None
}

// Past the name at `at` of the image, which stands after `lead` bytes of the text's next word, if it does.
fn name_end(b: &[u8], at: usize, t: &[u8], q: usize, lead: usize) -> Option<usize>
    requires { (at ≤ 33000) × (q ≤ length t.now) × (length t.now ≤ 32768) × (lead ≤ 2) }
    ensures { IfSome result (λ n. n ≤ length t.now) }
{
    let n = usize::from(byte_at(b, at));
    let from = next_name(t, q).unwrap_or(t.len()) + lead;
    let name = t.get(from..from + n)?;
    for k in 0..n {
        if byte_at(b, at + 1 + k) != name[k] {
            return None;
        }
    }
    Some(from + n)
}

// The same of a character, where its span says, behind a quote or another character.
fn character_end(b: &[u8], p: usize, t: &[u8], q: usize) -> Option<usize>
    requires { (p ≤ 32768) × (q ≤ length t.now) × (length t.now ≤ 32768) }
    ensures { IfSome result (λ n. n ≤ length t.now) }
{
    let start = place_at(b, p + 1);
    let at = if *t.get(start)? == b'\'' {
        start + 1
    } else {
        start
    };
    let is_next = next_name(t, q).is_none_or(|n| at <= n);
    if is_next && *t.get(at)? == byte_at(b, p + 9) {
        Some(at + 1)
    } else {
        None
    }
}

// How many names of a declaration are still to come after the record, or the name, at p.
fn names_after(b: &[u8], p: usize, names: u8) -> u8
    requires { (p < length b.now) × (length b.now ≤ 32768) }
{
    if names > 0 {
        return names - 1;
    }
    if b[p] == 17 { byte_at(b, p + 9) } else { 0 }
}

// Past what the text has of the record at p, or of one of so many names, if it has that.
fn record_end(b: &[u8], p: usize, t: &[u8], q: usize, names: u8) -> Option<usize>
    requires { (p < length b.now) × (length b.now ≤ 32768) × (q ≤ length t.now) × (length t.now ≤ 32768) }
    ensures { IfSome result (λ n. n ≤ length t.now) }
{
    if names > 0 {
        return name_end(b, p, t, q, 0);
    }
    match b[p] {
        1 => character_end(b, p, t, q),
        2 | 3 | 8 => name_end(b, p + 9, t, q, 0),
        4..=6 => name_end(b, p + 9, t, q, 2),
        18 => name_end(b, p + 10, t, q, 0),
        _ => Some(q),
    }
}

// How many bytes the record at p has by itself, or one of so many names.
fn record_len(b: &[u8], p: usize, names: u8) -> usize
    requires { (p < length b.now) × (length b.now ≤ 32768) }
    ensures { (0 < result) × (result ≤ 300) }
{
    if names > 0 {
        return 1 + usize::from(b[p]);
    }
    match b[p] {
        1 => 13,
        0 | 2..=6 | 8 => 10 + usize::from(byte_at(b, p + 9)),
        7 | 9..=11 => 9,
        17 => 10,
        18 => 11 + usize::from(byte_at(b, p + 10)),
        _ => 1,
    }
}

// Whether the text t holds the names and symbols of the body b.
pub fn is_spelled(b: &[u8], t: &[u8]) -> bool {
    if b.len() > 32768 || t.len() > 32768 {
        return false;
    }
    let mut p = 0;
    let mut q = 0;
    let mut names = 0;
    while p < b.len() {
        let Some(end) = record_end(b, p, t, q, names) else {
            return false;
        };
        q = end;
        let len = record_len(b, p, names);
        names = names_after(b, p, names);
        p += len;
    }
    next_name(t, q).is_none()
}
