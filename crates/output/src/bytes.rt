// Bytes and little-endian numbers written into a lent slice.
ghost use Rattle.std.specs.Prelude.{◌≡◌, ◌++◌, ◌+◌, ◌≤◌, ◌%◌, length, take, drop};
ghost use Rattle.std.proofs.Math.Seq.{paste};
ghost use Rattle.program.specs.Bytes.{put16, put32};

// Copies n bytes of src from `from` on into dst from `to` on, byte by byte: the library's copy of n bytes would ask for
// `memcpy` from outside.
pub fn copy_bytes(src: &[u8], from: usize, dst: &mut [u8], to: usize, n: usize)
    requires { (from + n ≤ length src.now) × (to + n ≤ length dst.old) }
    ensures { dst.new ≡ paste dst.old to (drop from src.now) n }
{
    for i in 0..n {
        dst[to + i] = src[from + i];
    }
}

// Writes a 16-bit number at `at`.
pub fn write16(out: &mut [u8], at: usize, n: u32)
    requires { at + 2 ≤ length out.old }
    ensures { out.new ≡ take at out.old ++ put16 n (drop (at + 2) out.old) }
{
    out[at..at + 2].copy_from_slice(&n.to_le_bytes()[..2]);
}

// Writes a 32-bit number at `at`.
pub fn write32(out: &mut [u8], at: usize, n: u32)
    requires { at + 4 ≤ length out.old }
    ensures { out.new ≡ take at out.old ++ put32 n (drop (at + 4) out.old) }
{
    out[at..at + 4].copy_from_slice(&n.to_le_bytes());
}
