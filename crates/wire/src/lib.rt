// Numbers in byte slices, lowest byte first, as the page's records have them (RULE R2.1).
// Each function asks for room at its place: the records above test their length once, and no byte is tested again.
#![tactic(auto)]

ghost use Rattle.std.specs.Prelude.{◌≡◌, [], ◌∷◌, ◌+◌, ◌≤◌, length};
ghost use Rattle.wire.specs.Numbers.{joined, number_at, bytes, stored};

// The two-byte number at a place.
pub fn read_u16(s: &[u8], at: usize) -> u16
    requires { at + 2 ≤ length s.now }
    ensures { result ≡ number_at 2 s.now at }
{
    u16::from_le_bytes([s[at], s[at + 1]])
}

// The four-byte number at a place.
pub fn read_u32(s: &[u8], at: usize) -> u32
    requires { at + 4 ≤ length s.now }
    ensures { result ≡ number_at 4 s.now at }
{
    u32::from_le_bytes([s[at], s[at + 1], s[at + 2], s[at + 3]])
}

// Bytes at a place; every other byte stays.
pub fn put<const N: usize>(out: &mut [u8], at: usize, w: [u8; N])
    requires { at + N ≤ length out.old }
    ensures { out.new ≡ stored out.old at w.entry }
{
    out[at..at + N].copy_from_slice(&w);
}

// A two-byte number at a place; every other byte stays.
pub fn put_u16(out: &mut [u8], at: usize, pair: u16)
    requires { at + 2 ≤ length out.old }
    ensures { out.new ≡ stored out.old at (bytes 2 pair) }
{
    put(out, at, pair.to_le_bytes());
}

// A four-byte number at a place; every other byte stays.
pub fn put_u32(out: &mut [u8], at: usize, n: u32)
    requires { at + 4 ≤ length out.old }
    ensures { out.new ≡ stored out.old at (bytes 4 n) }
{
    put(out, at, n.to_le_bytes());
}
