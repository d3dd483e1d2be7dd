// The resolved script, written: the file with other contexts.
ghost use Rattle.std.specs.Prelude.{◌≡◌, ◌+◌, ◌*◌, ◌≤◌, ◌<◌, get_or, length};
ghost use Rattle.std.proofs.lemmas.List.Edits.{sets};
ghost use Rattle.def_file.specs.Script.{zero_node};
ghost use Rattle.def_file.specs.Write.{node_bytes, file};
ghost use Rattle.def_resolve.specs.Resolve.{resolved};
ghost use Rattle.def_resolve.specs.Entry.{in_room};
ghost use Rattle.laws_roundtrip.specs.Fits.{Bytes};
ghost use Rattle.file_resolve.specs.Check.{Shaped, read_of};
ghost use Rattle.file_resolve.specs.Idents.{Contexts};
ghost use Rattle.file_resolve.specs.Resolve.{Wrote};

use def_file::Raw;
use def_file::kind::Kind;
use file_read::fields::node_at;
use file_read::header::Header;
use file_write::put::{copy, put_raw};
use refusal::Refusal;

// A script's file with its counts, and the contexts of its names.
#[derive(Clone, Copy, Debug, PartialEq, Eq)]
pub struct Resolved<'a> {
    pub file: &'a [u8],
    pub contexts: &'a [u32],
    pub header: Header,
    pub ghost shaped: { Shaped file.now header },
    pub ghost bytes: { Bytes file.now },
    pub ghost names: { Contexts (read_of file.now header) contexts.now },
}

impl Resolved<'_> {
    // Node k.
    fn node(self, k: usize) -> Raw
        requires { k < self.header.nodes }
        ensures { result ≡ get_or (resolved (read_of self.entry.file.now self.entry.header)).nodes k zero_node }
    {
        let x = node_at(self.file, k);
        if !Kind::from(x.kind).is_name() {
            return x;
        }
        Raw {
            bits: u64::from(self.contexts[k]),
            ..x
        }
    }

    // The nodes, from byte 32 on.
    fn put_nodes(self, buffer: &mut [u8])
        requires { 32 + 16 * self.header.nodes ≤ length buffer.old }
        ensures { buffer.new ≡ sets buffer.old 32 (node_bytes (resolved (read_of self.entry.file.now self.entry.header)).nodes) }
    {
        for k in 0..self.header.nodes {
            put_raw(buffer, 32 + 16 * k, self.node(k));
        }
    }

    // Its file: the given one with these nodes. A buffer that is shorter is refused (10).
    pub fn write(self, buffer: &mut [u8]) -> Result<usize, Refusal>
        ensures { Wrote buffer.old buffer.new (in_room (length buffer.old) (file (resolved (read_of self.entry.file.now self.entry.header)))) result }
    {
        let total = self.header.total();
        if buffer.len() < total {
            return Err(Refusal::Buffer);
        }
        copy(self.file, 0, buffer, 0, total);
        self.put_nodes(buffer);
        Ok(total)
    }
}
