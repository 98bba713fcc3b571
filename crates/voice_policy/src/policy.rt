ghost use Rattle.std.specs.Prelude.{◌≡◌, [], eqb, filter};
ghost use Rattle.voice.specs.declared.policy.Candidate.{Candidate};
ghost use Rattle.voice.specs.Policy.{candidates_of, oldest, newest, takes, passed, walk, quietest, policy_victim, lowest, victim, counts, admits, admission_number, reject_number};

use lists::rows::Table;
use node::record::{NodeId, VoiceId};
use voice::policy::{Admission, BudgetScope, Candidate, Candidates, Held, StealPolicy, Victim};

// No candidates: the table that a caller fills from the front. Its memory is fixed, so that a blank one stands behind the count, where nobody reads.
pub fn no_candidates() -> Candidates
    ensures { candidates_of result ≡ [] }
{
    Table::empty(Candidate {
        voice: VoiceId(0),
        level: None,
        rank: 0,
    })
}

// Whether the walk takes a level.
fn takes_level(h: Held, x: f32) -> bool
    ensures { result ≡ takes h x }
{
    h.is_none_or(|(_, _, level)| x <= level)
}

// One candidate of the walk, at the place `p`.
fn pass_candidate(h: Held, p: usize, c: Candidate) -> Held
    ensures { result ≡ passed h p c c.level }
{
    match c.level {
        Some(x) if takes_level(h, x) => Some((p, c.voice, x)),
        _ => h,
    }
}

// The walk of `Quietest`, in order of admission.
fn walk_levels(all: &[Candidate]) -> Held
    ensures { result ≡ walk None 0 all.now }
{
    all.iter()
        .enumerate()
        .fold(None, |h, (i, c)| pass_candidate(h, i, *c))
}

fn pick_oldest(all: &[Candidate]) -> Victim
    ensures { result ≡ oldest all.now }
{
    all.first().map(|c| (0, c.voice))
}

#[tactic(auto, using(voice::proofs::Walk::newest_last))]
fn pick_newest(all: &[Candidate]) -> Victim
    ensures { result ≡ newest all.now }
{
    let c = all.last()?;
    Some((all.len() - 1, c.voice))
}

fn pick_quietest(all: &[Candidate]) -> Victim
    ensures { result ≡ quietest all.now }
{
    walk_levels(all)
        .map(|(place, voice, _)| (place, voice))
        .or_else(|| pick_oldest(all))
}

// The candidate that the policy gives up, whatever the ranks.
fn policy_victim(all: &[Candidate], policy: StealPolicy) -> Victim
    ensures { result ≡ policy_victim policy all.now }
{
    match policy {
        StealPolicy::Reject => None,
        StealPolicy::Oldest => pick_oldest(all),
        StealPolicy::Newest => pick_newest(all),
        StealPolicy::Quietest => pick_quietest(all),
    }
}

// The lowest of `rank` and the ranks of the candidates.
#[tactic(auto, using(voice::proofs::Walk::lowest_fold))]
fn lowest_rank(all: &[Candidate], rank: u32) -> u32
    ensures { result ≡ lowest rank all.now }
{
    all.iter().fold(rank, |k, c| k.min(c.rank))
}

// The candidates of the rank `k`, in order of admission. By a loop: `collect` makes no table, and there is no heap for a list.
fn of_rank(t: &Candidates, k: u32) -> Candidates
    ensures { candidates_of result ≡ filter (λ (c : Candidate). eqb c.rank k) (candidates_of t.now) }
{
    let mut out = no_candidates();
    for c in t.as_slice() {
        if c.rank == k {
            out.push(*c);
        }
    }
    out
}

// The candidate that gives way to a new voice of rank `rank`, whatever the budget: the policy's victim among those of the
// lowest rank; nobody, if that rank is above the new voice's.
pub fn pick_victim(t: Candidates, policy: StealPolicy, rank: u32) -> Victim
    ensures { result ≡ victim policy rank (candidates_of t) }
{
    let k = lowest_rank(t.as_slice(), rank);
    let low = of_rank(&t, k);
    policy_victim(low.as_slice(), policy)
}

// Whether a tracked voice of the bus `theirs` counts for a new voice on `bus`.
pub fn counts_for(scope: BudgetScope, theirs: NodeId, bus: NodeId) -> bool
    ensures { result ≡ counts scope theirs bus }
{
    match scope {
        BudgetScope::Global => true,
        BudgetScope::PerGroup => theirs == bus,
    }
}

// What a new voice of rank `rank` meets. The candidates are the tracked voices that count for it.
pub fn request_in(budget: Option<usize>, policy: StealPolicy, rank: u32, t: Candidates) -> Admission
    ensures { (result ≡ admits budget policy rank (candidates_of t))
        × (admission_number result ≡ reject_number budget policy rank (candidates_of t)) }
{
    let Some(most) = budget else {
        return Admission::Admit;
    };
    if t.as_slice().len() < most {
        return Admission::Admit;
    }
    match pick_victim(t, policy, rank) {
        None => Admission::Reject,
        Some((place, voice)) => Admission::Steal { place, voice },
    }
}
