// Request 8: the identifiers that an assignment, an update or a head of for-in or for-of targets, anywhere in the script as read, as a set in the
// working words.
#![tactic(auto)]

ghost use Rattle.std.specs.Prelude.{◌≡◌, ℕ, ◌<◌, eqb, drop};
ghost use Rattle.def_tree.specs.Base.{member};
ghost use Rattle.laws_flat.specs.PassF.{bounds_l, next_is};
ghost use Rattle.words.specs.Layout.{node_of, tree, node_count};
ghost use Rattle.words_targets.specs.Targets.{Script, Aimed, Joined, hits, Targeted};

use def_file::kind::Kind;
use words::{arity_at, kind_at, layout, num_at, set_flag, wipe};

// The identifier of node k is put into the set.
fn put_name(w: &mut [u32], k: usize)
    requires { (Script w.old) × (k < node_count w.old) × ((node_of w.old k).num < 256) }
    ensures { Joined w.old w.new (eqb (node_of w.old k).num) }
{
    let x = num_at(w, k);
    set_flag(w, layout::TARGETS, x as u8);
}

// The names that the tree at node j binds are put into the set.
fn put_bound(w: &mut [u32], j: usize)
    requires { Script w.old }
    ensures { Joined w.old w.new (λ i. member i (bounds_l 1 0 (drop j (tree w.old)))) }
{
    let n = w[layout::NODE_COUNT] as usize;
    // So many trees are still to be passed over, which bind nothing, and then so many more to be looked at.
    let mut past = 0;
    let mut more = 1;
    for k in j..n {
        if more == 0 {
            return;
        }
        let kind = kind_at(w, k);
        let count = arity_at(w, k) as usize;
        if 0 < past {
            past = past - 1 + count;
        } else if kind.in_pattern() {
            more = more - 1 + count;
        } else {
            if let Kind::BindingIdent = kind {
                put_name(w, k);
            }
            more -= 1;
            past = count;
        }
    }
}

// Where the target of what begins at node j stands: there, or, if it is a declaration or a declarator, where that of its first child does.
fn aimed_at(w: &[u32], j: usize) -> Option<usize>
    requires { Script w.now }
    ensures { Aimed w.now result (λ i. next_is i (drop j (tree w.now))) }
{
    let n = w[layout::NODE_COUNT] as usize;
    for k in j..n {
        match kind_at(w, k) {
            Kind::VarDecl | Kind::VarDeclarator => {
                if arity_at(w, k) == 0 {
                    return None;
                }
            }
            _ => return Some(k),
        }
    }
    None
}

// The target of node k is put into the set, if it has one: the identifier that it is, or the names that it binds.
fn scan_node(w: &mut [u32], k: usize)
    requires { (Script w.old) × (k < node_count w.old) }
    ensures { Joined w.old w.new (hits w.old k) }
{
    if !kind_at(w, k).aims() || arity_at(w, k) == 0 {
        return;
    }
    if let Some(j) = aimed_at(w, k + 1) {
        match kind_at(w, j) {
            Kind::Ident => put_name(w, j),
            _ => put_bound(w, j),
        }
    }
}

// The set of all targets of the tree.
pub fn mark_targets(w: &mut [u32])
    requires { Script w.old }
    ensures { Targeted w.old w.new }
{
    wipe(w, layout::TARGETS, 8);
    let n = w[layout::NODE_COUNT] as usize;
    for k in 0..n {
        scan_node(w, k);
    }
}
