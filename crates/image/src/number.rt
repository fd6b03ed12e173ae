// Little-endian numbers and spans.
ghost use Rattle.std.specs.Prelude.{◌≡◌, ◌+◌, ◌<◌, ◌≤◌, length};
ghost use Rattle.program.specs.Bytes.{get16, get32, get_span};

// The 16-bit number at i.
pub fn read16(s: &[u8], i: usize) -> u32
    requires { i + 2 ≤ length s.now }
    ensures { result ≡ get16 s.now i }
{
    u32::from(u16::from_le_bytes([s[i], s[i + 1]]))
}

// The 32-bit number at i.
pub fn read32(s: &[u8], i: usize) -> u32
    requires { i + 4 ≤ length s.now }
    ensures { result ≡ get32 s.now i }
{
    u32::from_le_bytes([s[i], s[i + 1], s[i + 2], s[i + 3]])
}

// A span: where a record stood in the source.
#[derive(Clone, Copy, PartialEq, Eq)]
pub struct Extent {
    pub start: u32,
    pub end: u32,
}

// The span at i.
pub fn span_at(s: &[u8], i: usize) -> Extent
    requires { i + 8 ≤ length s.now }
    ensures { (result.start ≡ (get_span s.now i).start) × (result.end ≡ (get_span s.now i).end) }
{
    let start = read32(s, i);
    let end = read32(s, i + 4);
    Extent { start, end }
}
