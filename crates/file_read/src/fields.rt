// Little-endian fields of the file, and its nodes.
ghost use Rattle.std.specs.Prelude.{◌≡◌, ◌+◌, ◌*◌, ◌≤◌, length, drop, take};
ghost use Rattle.def_file.specs.Read.{number, u32, raw_of};

use def_file::Raw;

// The N bytes from byte i on.
fn bytes_at<const N: usize>(b: &[u8], i: usize) -> [u8; N]
    requires { i + N ≤ length b.now }
    ensures { result ≡ take N (drop i b.now) }
{
    let mut bytes = [0; N];
    bytes.copy_from_slice(&b[i..i + N]);
    bytes
}

// The three fields differ in their type: the integers have from_le_bytes and share no trait with it.
fn u16_at(b: &[u8], i: usize) -> u16
    requires { i + 2 ≤ length b.now }
    ensures { result ≡ number 2 (drop i b.now) }
{
    u16::from_le_bytes(bytes_at(b, i))
}

pub fn u32_at(b: &[u8], i: usize) -> u32
    requires { i + 4 ≤ length b.now }
    ensures { result ≡ u32 b.now i }
{
    u32::from_le_bytes(bytes_at(b, i))
}

pub fn u64_at(b: &[u8], i: usize) -> u64
    requires { i + 8 ≤ length b.now }
    ensures { result ≡ number 8 (drop i b.now) }
{
    u64::from_le_bytes(bytes_at(b, i))
}

// The node whose 16 bytes begin at byte i.
pub fn raw_at(b: &[u8], i: usize) -> Raw
    requires { i + 16 ≤ length b.now }
    ensures { result ≡ raw_of (drop i b.now) }
{
    Raw {
        kind: b[i],
        form: b[i + 1],
        arity: u16_at(b, i + 2),
        text: u32_at(b, i + 4),
        bits: u64_at(b, i + 8),
    }
}

// Node k of a file: the nodes stand behind a header of 32 bytes.
pub fn node_at(file: &[u8], k: usize) -> Raw
    requires { 32 + 16 * k + 16 ≤ length file.now }
    ensures { result ≡ raw_of (drop (32 + 16 * k) file.now) }
{
    raw_at(file, 32 + 16 * k)
}
