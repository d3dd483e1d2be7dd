// The canonical form of a script, written: nodes with the new numbers of their texts and contexts, and the texts that they use.
ghost use Rattle.std.specs.Prelude.{◌≡◌, ◌+◌, ◌*◌, ◌≤◌, ◌<◌, [], get_or, length};
ghost use Rattle.std.proofs.lemmas.List.Edits.{sets};
ghost use Rattle.def_file.specs.Script.{zero_node};
ghost use Rattle.def_file.specs.Write.{node_bytes, end_bytes, text_bytes, file};
ghost use Rattle.def_canon.specs.Entry.{in_room};
ghost use Rattle.file_canon.specs.Form.{Held, form_of};
ghost use Rattle.file_canon.specs.Canon.{Wrote};

use crate::uses::Uses;
use def_file::Raw;
use def_file::kind::Kind;
use file_read::fields::node_at;
use file_read::header::Header;
use file_write::put::{copy, put_head, put_number, put_raw};
use refusal::Refusal;

// A script's file with its counts, and the words that have the numbers of its texts and its contexts.
#[derive(Clone, Copy, Debug, PartialEq, Eq)]
pub struct Form<'a> {
    pub file: &'a [u8],
    pub words: &'a [u32],
    pub header: Header,
    pub ghost held: { Held file.now words.now header },
}

impl<'a> Form<'a> {
    // Node k.
    fn node(self, k: usize) -> Raw
        requires { k < self.header.nodes }
        ensures { result ≡ get_or (form_of self.entry.file.now self.entry.header).nodes k zero_node }
    {
        let x = node_at(self.file, k);
        let kind = Kind::from(x.kind);
        if !kind.uses_text() {
            return x;
        }
        let text = Uses::TEXTS.place_of(self.words, u64::from(x.text)) as u32;
        if !kind.is_name() {
            return Raw { text, ..x };
        }
        let bits = Uses::CONTEXTS.place_of(self.words, x.bits) as u64;
        Raw { text, bits, ..x }
    }

    // How many texts there are.
    fn texts(self) -> usize
        ensures { result ≡ length (form_of self.entry.file.now self.entry.header).texts }
    {
        Uses::TEXTS.count(self.words)
    }

    // Text i.
    fn text(self, i: usize) -> &'a [u8]
        requires { i < length (form_of self.file.now self.header).texts }
        ensures { result.now ≡ get_or (form_of self.entry.file.now self.entry.header).texts i [] }
    {
        let t = Uses::TEXTS.at(self.words, i) as usize;
        self.header.places().text(self.file, t)
    }

    // How many bytes the texts have.
    fn text_bytes(self) -> usize
        ensures { result ≡ length (text_bytes (form_of self.entry.file.now self.entry.header).texts) }
    {
        let mut sum = 0;
        for i in 0..self.texts() {
            sum += self.text(i).len();
        }
        sum
    }

    // The nodes, from byte 32 on.
    fn put_nodes(self, res: &mut [u8])
        requires { 32 + 16 * self.header.nodes ≤ length res.old }
        ensures { res.new ≡ sets res.old 32 (node_bytes (form_of self.entry.file.now self.entry.header).nodes) }
    {
        for k in 0..self.header.nodes {
            put_raw(res, 32 + 16 * k, self.node(k));
        }
    }

    // Where the texts end, from byte p on.
    fn put_ends(self, res: &mut [u8], p: usize)
        requires { p + 4 * length (form_of self.file.now self.header).texts ≤ length res.old }
        ensures { res.new ≡ sets res.old p (end_bytes 0 (form_of self.entry.file.now self.entry.header).texts) }
    {
        let mut end = 0;
        for i in 0..self.texts() {
            end += self.text(i).len();
            put_number(res, p + 4 * i, end);
        }
    }

    // The bytes of the texts, from byte p on.
    fn put_texts(self, res: &mut [u8], p: usize)
        requires { p + length (text_bytes (form_of self.file.now self.header).texts) ≤ length res.old }
        ensures { res.new ≡ sets res.old p (text_bytes (form_of self.entry.file.now self.entry.header).texts) }
    {
        let mut end = p;
        for i in 0..self.texts() {
            let text = self.text(i);
            copy(text, 0, res, end, text.len());
            end += text.len();
        }
    }

    // Its file; the file's length. 16 where the buffer is shorter.
    pub fn write(self, res: &mut [u8]) -> Result<usize, Refusal>
        ensures { Wrote res.old res.new (in_room (length res.old) (file (form_of self.entry.file.now self.entry.header))) result }
    {
        let head = Header {
            nodes: self.header.nodes,
            texts: self.texts(),
            bytes: self.text_bytes(),
        };
        let total = head.total();
        if res.len() < total {
            return Err(Refusal::CanonBuffer);
        }
        put_head(res, head);
        self.put_nodes(res);
        let at = head.places();
        self.put_ends(res, at.ends);
        self.put_texts(res, at.bytes);
        Ok(total)
    }
}
