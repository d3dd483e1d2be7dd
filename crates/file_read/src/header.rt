// Rows 2 to 4: the header.
ghost use Rattle.std.specs.Prelude.{◌≡◌, ◌&&◌, ◌+◌, ◌*◌, ◌≤◌, eqb, leb, length};
ghost use Rattle.def_file.specs.Read.{u32};
ghost use Rattle.file_read.specs.Head.{places, HeadIs};

use crate::fields::u32_at;
use crate::texts::Texts;
use refusal::Refusal;

// How many nodes, texts and text bytes a file has. Their bounds are row 3, which is asked of a header as it stands in the file: clauses, and no facts of
// the type.
#[derive(Clone, Copy, Debug, PartialEq, Eq)]
pub struct Header {
    pub nodes: usize,
    pub texts: usize,
    pub bytes: usize,
}

impl Header {
    // Where the texts stand.
    pub fn places(self) -> Texts
        requires { (self.nodes ≤ 1024) × (self.texts ≤ 256) }
        ensures { result ≡ places self.nodes self.texts }
    {
        let ends = 32 + 16 * self.nodes;
        Texts {
            ends,
            bytes: ends + 4 * self.texts,
            count: self.texts,
        }
    }

    // How long the file is.
    pub fn total(self) -> usize
        requires { (self.nodes ≤ 1024) × (self.texts ≤ 256) × (self.bytes ≤ 4096) }
        ensures { result ≡ 32 + 16 * self.nodes + 4 * self.texts + self.bytes }
    {
        self.places().bytes + self.bytes
    }

    // Row 3: 1 to 1,024 nodes, at most 256 texts, at most 4,096 text bytes.
    fn counts_ok(self) -> bool
        ensures { result ≡ (leb 1 self.nodes && leb self.nodes 1024 && leb self.texts 256 && leb self.bytes 4096) }
    {
        (1..=1024).contains(&self.nodes) && self.texts <= 256 && self.bytes <= 4096
    }

    // Row 4: each offset, and the length, is the sum of its parts; the length is that of the bytes given.
    fn sums_ok(self, file: &[u8]) -> bool
        requires { (32 ≤ length file.now) × (self.nodes ≤ 1024) × (self.texts ≤ 256) × (self.bytes ≤ 4096) }
        ensures { result ≡ (eqb (u32 file.now 4) (length file.now) && eqb (u32 file.now 12) 32 && eqb (u32 file.now 20) (32 + 16 * self.nodes) && eqb (u32 file.now 24) (32 + 16 * self.nodes + 4 * self.texts) && eqb (u32 file.now 4) (32 + 16 * self.nodes + 4 * self.texts + self.bytes)) }
    {
        let total = word(file, 4);
        let at = self.places();
        total == file.len()
            && word(file, 12) == 32
            && word(file, 20) == at.ends
            && word(file, 24) == at.bytes
            && total == self.total()
    }
}

fn word(file: &[u8], i: usize) -> usize
    requires { i + 4 ≤ length file.now }
    ensures { result ≡ u32 file.now i }
{
    u32_at(file, i) as usize
}

pub fn read_header(file: &[u8]) -> Result<Header, Refusal>
    ensures { HeadIs file.now result }
{
    if file.len() < 32 || word(file, 0) != 1 {
        return Err(Refusal::Version);
    }
    let h = Header {
        nodes: word(file, 8),
        texts: word(file, 16),
        bytes: word(file, 28),
    };
    if !h.counts_ok() {
        return Err(Refusal::Counts);
    }
    if !h.sums_ok(file) {
        return Err(Refusal::Layout);
    }
    Ok(h)
}
