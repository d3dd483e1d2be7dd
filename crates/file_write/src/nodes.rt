// The nodes of a result: a node of the words' tree turned back into a node of the file.
ghost use Rattle.std.specs.Prelude.{◌≡◌, map, ◌*◌, ◌≤◌, ◌<◌, ℕ, length};
ghost use Rattle.def_file.specs.Named.{Coded};
ghost use Rattle.std.proofs.lemmas.List.Edits.{sets};
ghost use Rattle.def_file.specs.Write.{node_bytes};
ghost use Rattle.words.specs.Layout.{node_of, tree, node_count};
ghost use Rattle.file_write.specs.Back.{Source, node_in, ident_in, text_in, back_in};

use crate::put::put_raw;
use def_file::Raw;
use def_file::kind::Kind;
use file_read::fields::node_at;
use words::{arity_at, form_at, kind_at, layout, num_at};

// A file of so many nodes, and the words that hold its tree.
#[derive(Clone, Copy, Debug, PartialEq, Eq)]
pub struct Source<'a> {
    pub file: &'a [u8],
    pub words: &'a [u32],
    pub nodes: usize,
    pub ghost held: { Source file.now words.now nodes },
}

impl Source<'_> {
    // Node number m of the file; the number 0 where there is none.
    #[tactic(auto, using(std::proofs::lemmas::Bool::Decides::nat_tests), unfolding(crate::specs::Back::node_in))]
    fn node_in(self, m: usize) -> Raw
        ensures { result ≡ node_in self.entry.file.now m }
    {
        if 1 <= m && m <= self.nodes {
            return node_at(self.file, m - 1);
        }
        Raw::ZERO
    }

    // Identifier i, by the first node that has it. Nothing is known of the entries, so that each is tested; `ident` of `pass_roots` asks for more,
    // and tests none.
    #[tactic(auto, using(std::proofs::lemmas::Bool::Decides::nat_tests), unfolding(crate::specs::Back::ident_in))]
    fn ident_in(self, i: u32) -> Raw
        ensures { result ≡ ident_in self.entry.file.now self.entry.words.now i }
    {
        if self.words[layout::IDENT_COUNT] <= i {
            return Raw::ZERO;
        }
        let at = layout::IDENTS + i as usize;
        if self.words.len() <= at {
            return Raw::ZERO;
        }
        self.node_in(self.words[at] as usize)
    }

    // The text of node number m, for a kind that keeps it.
    #[tactic(auto, using(std::proofs::lemmas::Bool::Decides::nat_tests), unfolding(crate::specs::Back::text_in))]
    fn text_in(self, kind: Kind, m: usize) -> u32
        ensures { (k : ℕ) → Coded kind k → result ≡ text_in self.entry.file.now k m }
    {
        if matches!(kind, Kind::Prop | Kind::Member | Kind::PatProp) {
            return self.node_in(m).text;
        }
        0
    }

    // Node k of the tree, as a node of the file.
    #[tactic(auto, using(std::proofs::lemmas::Bool::Decides::nat_tests), unfolding(crate::specs::Back::back_in))]
    fn back(self, k: usize) -> Raw
        requires { k < 1024 }
        ensures { result ≡ back_in self.entry.file.now self.entry.words.now (node_of self.entry.words.now k) }
    {
        let kind = kind_at(self.words, k);
        let arity = arity_at(self.words, k);
        let num = num_at(self.words, k);
        if kind.is_literal() {
            return self.node_in(num as usize);
        }
        if kind.is_name() {
            let x = self.ident_in(num);
            return Raw {
                kind: u32::from(kind) as u8,
                form: 0,
                arity: arity as u16,
                text: x.text,
                bits: x.bits,
            };
        }
        Raw {
            kind: u32::from(kind) as u8,
            form: form_at(self.words, k) as u8,
            arity: arity as u16,
            text: self.text_in(kind, num as usize),
            bits: 0,
        }
    }

    // All nodes of the tree, from the first byte of `out` on.
    pub fn put_nodes(self, out: &mut [u8])
        requires { (node_count self.words.now ≤ 1024) × (16 * node_count self.words.now ≤ length out.old) }
        ensures { out.new ≡ sets out.old 0 (node_bytes (map (back_in self.entry.file.now self.entry.words.now) (tree self.entry.words.now))) }
    {
        let count = self.words[layout::NODE_COUNT] as usize;
        for k in 0..count {
            let x = self.back(k);
            put_raw(out, 16 * k, x);
        }
    }
}
