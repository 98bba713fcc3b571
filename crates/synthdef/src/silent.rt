// Which nodes of a definition are silent, by its done plan and the done flags of its nodes.
ghost use Rattle.std.specs.Prelude.{◌≡◌};
ghost use Rattle.synthdef.specs.Plan.{silent_in, says, pass, settled, plan_silent};

use crate::plan::{DonePlan, DoneStep};
use std::array;

// Whether node `j` is silent by the flags `s`. A row past them is not, and it is no Option: any words are a plan, and a source that is no row
// silences nothing.
fn silent_in(s: [bool; 24], j: u8) -> bool
    ensures { result ≡ silent_in s j }
{
    s.get(usize::from(j)).copied().unwrap_or(false)
}

// Whether a step's sources make its node silent, by the flags `s`.
fn says(st: DoneStep, s: [bool; 24]) -> bool
    ensures { result ≡ says st s }
{
    let sources = &st.sources[..usize::from(st.count).min(8)];
    if st.all {
        sources.iter().all(|j| silent_in(s, *j))
    } else {
        sources.iter().any(|j| silent_in(s, *j))
    }
}

// One pass over the steps: which nodes are silent, if those in `s` are.
fn pass(p: DonePlan, done: [bool; 24], s: [bool; 24]) -> [bool; 24]
    ensures { result ≡ pass p.steps done s }
{
    array::from_fn(|i| done[i] || says(p.steps[i], s))
}

// Which nodes are silent: passes until nothing changes. Each that changes anything adds a node, so that there are no more of them than
// steps; a loop without that number would have to prove the same.
fn settle(p: DonePlan, done: [bool; 24]) -> [bool; 24]
    ensures { result ≡ settled p.steps done }
{
    let mut s = [false; 24];
    for _ in 0..p.steps.len() {
        let t = pass(p, done, s);
        if t == s {
            return s;
        }
        s = t;
    }
    s
}

// Whether the output of a definition is silent, by its plan and the done flags of its nodes.
pub fn plan_silent(p: DonePlan, done: [bool; 24]) -> bool
    ensures { result ≡ plan_silent p done }
{
    let s = settle(p, done);
    silent_in(s, p.output)
}
