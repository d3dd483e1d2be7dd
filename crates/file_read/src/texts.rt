// The texts: their ends, looking one up, and row 5.
ghost use Rattle.std.specs.Prelude.{◌≡◌, ◌+◌, ◌*◌, ◌<◌, drop, length};
ghost use Rattle.def_file.specs.Script.{same_text};
ghost use Rattle.def_file.specs.Read.{u32, ends_from, rising, any_text, distinct};
ghost use Rattle.file_read.specs.Text.{Stored, Placed, start_of, text_in, texts_of, hash_of, Hashed};

use crate::fields::u32_at;

// Where a file's texts stand: as many ends as there are texts from byte `ends` on, and the texts' bytes from byte `bytes` on. Without the file, since
// the places are worked out for a file that is still to be written too.
#[derive(Clone, Copy, Debug, PartialEq, Eq)]
pub struct Texts {
    pub ends: usize,
    pub bytes: usize,
    pub count: usize,
}

// A number of a text, by which most texts that differ are told apart.
fn hash_of(text: &[u8]) -> u32
    ensures { result ≡ hash_of text.now }
{
    let mut hash: u32 = 0;
    for byte in text {
        hash = hash.wrapping_mul(31).wrapping_add(u32::from(*byte));
    }
    hash
}

impl Texts {
    // The end of text k, from the first text byte on.
    fn end(self, file: &[u8], k: usize) -> usize
        requires { Stored file.now self × (k < self.count) }
        ensures { (result ≡ u32 file.now (self.ends + 4 * k)) × (result < 4294967296) }
    {
        u32_at(file, self.ends + 4 * k) as usize
    }

    // Where text k begins, from the first text byte on: at the end before it.
    fn start(self, file: &[u8], k: usize) -> usize
        requires { Stored file.now self × (k < self.count) }
        ensures { (result ≡ start_of file.now self.ends k) × (result < 4294967296) }
    {
        if k == 0 {
            return 0;
        }
        self.end(file, k - 1)
    }

    // Text k: the stretch of the file's own bytes between two stored ends; no bytes where these are no such stretch.
    #[tactic(auto, unfolding(crate::specs::Text::text_in))]
    pub fn text(self, file: &[u8], k: usize) -> &[u8]
        requires { Stored file.now self × (k < self.count) }
        ensures { result.now ≡ text_in file.now self.ends self.bytes k }
    {
        let from = self.bytes + self.start(file, k);
        let to = self.bytes + self.end(file, k);
        file.get(from..to).unwrap_or(&[])
    }

    // Row 5: the ends never fall, and the last (0 with no texts) is the byte count b.
    pub fn rising(self, file: &[u8], b: usize) -> bool
        requires { Stored file.now self }
        ensures { result ≡ rising 0 (ends_from self.count (drop self.ends file.now)) b }
    {
        let mut at = 0;
        for k in 0..self.count {
            let e = self.end(file, k);
            if e < at {
                return false;
            }
            at = e;
        }
        at == b
    }

    // The hash of each text.
    fn hashes(self, file: &[u8]) -> [u32; 256]
        requires { Stored file.now self }
        ensures { (length result ≡ 256) × Hashed file.now self result }
    {
        let mut hashes = [0; 256];
        for i in 0..self.count {
            hashes[i] = hash_of(self.text(file, i));
        }
        hashes
    }

    // Are texts i and j the same. Their bytes are compared where their hashes are the same.
    fn same(self, file: &[u8], hashes: &[u32], i: usize, j: usize) -> bool
        requires { Stored file.now self × (i < self.count) × (j < self.count) × (length hashes.now ≡ 256) × Hashed file.now self hashes.now }
        ensures { result ≡ same_text (text_in file.now self.ends self.bytes i) (text_in file.now self.ends self.bytes j) }
    {
        let one = hashes[i];
        let other = hashes[j];
        if one == other {
            let x = self.text(file, i);
            let y = self.text(file, j);
            return x == y;
        }
        false
    }

    // Is text i one of those behind it.
    fn again(self, file: &[u8], hashes: &[u32], i: usize) -> bool
        requires { Placed file.now self × (i < self.count) × (length hashes.now ≡ 256) × Hashed file.now self hashes.now }
        ensures { result ≡ any_text (text_in file.now self.ends self.bytes i) (drop (i + 1) (texts_of file.now self)) }
    {
        (i + 1..self.count).any(|j| self.same(file, hashes, i, j))
    }

    // Row 5: no text stands twice.
    pub fn distinct(self, file: &[u8]) -> bool
        requires { Placed file.now self }
        ensures { result ≡ distinct (texts_of file.now self) }
    {
        let hashes = self.hashes(file);
        (0..self.count).all(|i| !self.again(file, &hashes, i))
    }
}
