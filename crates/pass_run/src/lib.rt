// Runs of the pass over a script in the working words.
#![tactic(auto)]

pub mod inline;
pub mod start;

ghost use Rattle.laws_flat.specs.WalkF.{run_f, runs_f};
ghost use Rattle.words_nodes.specs.Nodes.{Planted};
ghost use Rattle.words_state.specs.State.{abs};
ghost use Rattle.words_balance.specs.Balance.{WordsBalance, OkBalance};
ghost use Rattle.walk_laws.specs.Did.{Did};
ghost use Rattle.pass_run.specs.Run.{RunsIs};

use refusal::Refusal;
use walk::program;
use words_state::{changed, set_changed, set_inlining, set_is_first_run};

// Runs done, and whether the last one left the mark. pass_answers has both again in what it takes: neither crate stands on the other.
#[derive(Clone, Copy, Debug, PartialEq, Eq)]
pub struct Ran {
    pub runs: u32,
    pub changed: bool,
}

// One run: Analysis, then Inlining.
pub fn visit_mut_program(w: &mut [u32]) -> Result<usize, Refusal>
    requires { Planted w.old }
    ensures is { Did w.old w.new result (run_f 0 (abs w.old)) }
    ensures balance { WordsBalance w.old → OkBalance result w.new }
{
    set_inlining(w, false);
    program(w)?;
    set_inlining(w, true);
    let end = program(w)?;
    set_inlining(w, false);
    Ok(end)
}

// At most n runs, up to the first that leaves no mark.
pub fn runs(w: &mut [u32], n: u32) -> Result<Ran, Refusal>
    requires { Planted w.old }
    ensures is { RunsIs w.old w.new result (runs_f n 0 (abs w.old)) }
    ensures balance { WordsBalance w.old → OkBalance result w.new }
{
    for k in 0..n {
        set_changed(w, false);
        visit_mut_program(w)?;
        if !changed(w) {
            return Ok(Ran {
                runs: k + 1,
                changed: false,
            });
        }
        set_is_first_run(w, false);
    }
    Ok(Ran {
        runs: n,
        changed: true,
    })
}
