// Little-endian fields into a slice, and a stretch of one slice into another.
ghost use Rattle.std.specs.Prelude.{◌≡◌, ◌+◌, ◌≤◌, length, drop};
ghost use Rattle.std.proofs.lemmas.List.Edits.{sets};
ghost use Rattle.std.proofs.Math.Seq.{paste};
ghost use Rattle.def_file.specs.Write.{bytes, raw_bytes, head_bytes};

use def_file::Raw;
use file_read::header::Header;
use words::put;

// A node's 16 bytes.
pub fn put_raw(b: &mut [u8], i: usize, x: Raw)
    requires { i + 16 ≤ length b.old }
    ensures { b.new ≡ sets b.old i (raw_bytes x) }
{
    put(b, i, [x.kind, x.form]);
    put(b, i + 2, x.arity.to_le_bytes());
    put(b, i + 4, x.text.to_le_bytes());
    put(b, i + 8, x.bits.to_le_bytes());
}

// A number of 4 bytes.
pub fn put_number(b: &mut [u8], i: usize, n: usize)
    requires { (i + 4 ≤ length b.old) × (n ≤ 100000) }
    ensures { b.new ≡ sets b.old i (bytes 4 n) }
{
    put(b, i, (n as u32).to_le_bytes());
}

// The header of a file.
pub fn put_head(b: &mut [u8], header: Header)
    requires { (32 ≤ length b.old) × (header.nodes ≤ 1024) × (header.texts ≤ 256) × (header.bytes ≤ 4096) }
    ensures { b.new ≡ sets b.old 0 (head_bytes header.nodes header.texts header.bytes) }
{
    let at = header.places();
    put_number(b, 0, 1);
    put_number(b, 4, header.total());
    put_number(b, 8, header.nodes);
    put_number(b, 12, 32);
    put_number(b, 16, header.texts);
    put_number(b, 20, at.ends);
    put_number(b, 24, at.bytes);
    put_number(b, 28, header.bytes);
}

// Copies n bytes of one slice, from `from` on, to another, from `at` on: a name for copy_from_slice, for its law in the contract.
pub fn copy(src: &[u8], from: usize, dst: &mut [u8], at: usize, n: usize)
    requires { (from + n ≤ length src.now) × (at + n ≤ length dst.old) }
    ensures { dst.new ≡ paste dst.old at (drop from src.now) n }
{
    dst[at..at + n].copy_from_slice(&src[from..from + n]);
}
