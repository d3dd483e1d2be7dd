// The nodes of a readable file.
ghost use Rattle.std.specs.Prelude.{◌≡◌, ◌<◌, ◌≤◌, length};
ghost use Rattle.def_file.specs.Script.{text_at};
ghost use Rattle.file_read.specs.Load.{script_of, Readable};
ghost use Rattle.text_tokens.specs.Tokens.{node_of, HasText};

use def_file::Raw;
use file_read::fields::node_at;
use file_read::header::Header;

// A file's nodes and texts.
#[derive(Clone, Copy, Debug, PartialEq, Eq)]
pub struct Nodes<'a> {
    pub file: &'a [u8],
    pub header: Header,
    pub ghost readable: { Readable file.now header.nodes header.texts },
    pub ghost short: { length file.now ≤ 65536 },
}

impl<'a> Nodes<'a> {
    // Node k.
    pub fn node(self, k: usize) -> Raw
        requires { k < self.header.nodes }
        ensures { result ≡ node_of self.entry.file.now self.entry.header k }
    {
        node_at(self.file, k)
    }

    // The text of node k, which has one.
    pub fn text(self, k: usize) -> &'a [u8]
        requires { (k < self.header.nodes) × HasText self.file.now self.header k }
        ensures { result.now ≡ text_at (script_of self.entry.file.now self.entry.header.nodes self.entry.header.texts) (node_of self.entry.file.now self.entry.header k).text }
    {
        let t = self.node(k).text as usize;
        self.header.places().text(self.file, t)
    }
}
