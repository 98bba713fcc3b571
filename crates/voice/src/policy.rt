ghost use Rattle.std.specs.Prelude.{◌≡◌, ◌≤◌, None, length, eqb, filter};
ghost use Rattle.voice.specs.declared.policy.Candidate.{Candidate};
ghost use Rattle.voice.specs.Policy.{oldest, newest, takes, passed, walk, quietest, policy_victim, lowest, victim, counts, admits};

use arrayvec::ArrayVec;
use lists::rows::Table;
use node::record::{NodeId, VoiceId};

// What to do at budget.
#[derive(Clone, Copy)]
pub enum StealPolicy {
    Reject,
    Oldest,
    Newest,
    Quietest,
}

// Which tracked voices a budget counts: all, or those of the new voice's bus.
#[derive(Clone, Copy)]
pub enum BudgetScope {
    Global,
    PerGroup,
}

// A voice that may have to go, with its level and its rank.
#[derive(Clone, Copy, Default)]
pub struct Candidate {
    pub voice: VoiceId,
    pub level: Option<f32>,
    pub rank: u32,
}

// The candidates, in order of admission.
pub type Candidates = Table<Candidate, 64>;

// What the walk of `Quietest` holds: the place, the id and the level of the candidate taken so far.
pub type Held = Option<(usize, VoiceId, f32)>;

// Who is stolen or freed: its place among the candidates of its rank, and its id.
pub type Victim = Option<(usize, VoiceId)>;

// What a new voice meets. Three ways, one of which steals: an option of an option would say less.
#[derive(Clone, Copy)]
pub enum Admission {
    Admit,
    Reject,
    Steal { place: usize, voice: VoiceId },
}

/// Whether a tracked voice of the bus `theirs` counts for a new voice on `bus`.
pub fn counts_for(scope: BudgetScope, theirs: NodeId, bus: NodeId) -> bool
    ensures { result ≡ counts scope theirs bus }
{
    match scope {
        BudgetScope::Global => true,
        BudgetScope::PerGroup => theirs == bus,
    }
}

// Whether the walk takes a level.
fn takes_level(h: Held, x: f32) -> bool
    ensures { result ≡ takes h x }
{
    h.is_none_or(|(_, _, level)| x <= level)
}

// One candidate of the walk, at the place `p`.
fn pass_candidate(h: Held, p: usize, c: Candidate) -> Held
    ensures { result ≡ passed h p c c.level }
{
    match c.level {
        Some(x) if takes_level(h, x) => Some((p, c.voice, x)),
        _ => h,
    }
}

// The walk of `Quietest`, in order of admission.
fn walk_levels(all: &[Candidate]) -> Held
    ensures { result ≡ walk None 0 all.now }
{
    all.iter()
        .enumerate()
        .fold(None, |h, (i, c)| pass_candidate(h, i, *c))
}

fn pick_oldest(all: &[Candidate]) -> Victim
    ensures { result ≡ oldest all.now }
{
    all.first().map(|c| (0, c.voice))
}

#[tactic(auto, using(crate::proofs::Walk::newest_last))]
fn pick_newest(all: &[Candidate]) -> Victim
    ensures { result ≡ newest all.now }
{
    let c = all.last()?;
    Some((all.len() - 1, c.voice))
}

fn pick_quietest(all: &[Candidate]) -> Victim
    ensures { result ≡ quietest all.now }
{
    walk_levels(all)
        .map(|(place, voice, _)| (place, voice))
        .or_else(|| pick_oldest(all))
}

// The candidate that the policy gives up, whatever the ranks.
fn policy_victim(all: &[Candidate], policy: StealPolicy) -> Victim
    ensures { result ≡ policy_victim policy all.now }
{
    match policy {
        StealPolicy::Reject => None,
        StealPolicy::Oldest => pick_oldest(all),
        StealPolicy::Newest => pick_newest(all),
        StealPolicy::Quietest => pick_quietest(all),
    }
}

// The lowest of `rank` and the ranks of the candidates.
#[tactic(auto, using(crate::proofs::Walk::lowest_fold))]
fn lowest_rank(all: &[Candidate], rank: u32) -> u32
    ensures { result ≡ lowest rank all.now }
{
    all.iter().fold(rank, |k, c| k.min(c.rank))
}

fn of_rank(all: &[Candidate], rank: u32) -> ArrayVec<Candidate, 64>
    requires { length all.now ≤ 64 }
    ensures { result.items ≡ filter (λ (c : Candidate). eqb c.rank rank) all.now }
{
    let mut low = ArrayVec::new();
    for c in all {
        if c.rank == rank {
            low.push(*c);
        }
    }
    low
}

/// The candidate that gives way to a new voice of rank `rank`, whatever the budget: the policy's victim among those of the lowest rank; nobody, if
/// that rank is above the new voice's.
pub fn pick_victim(candidates: &ArrayVec<Candidate, 64>, policy: StealPolicy, rank: u32) -> Victim
    ensures { result ≡ victim policy rank candidates.now.items }
{
    let all = candidates.as_slice();
    let low = of_rank(all, lowest_rank(all, rank));
    policy_victim(low.as_slice(), policy)
}

/// What a new voice of rank `rank` meets. The candidates are the tracked voices that count for it.
pub fn request_in(
    budget: Option<usize>,
    policy: StealPolicy,
    rank: u32,
    candidates: &ArrayVec<Candidate, 64>,
) -> Admission
    ensures { result ≡ admits budget policy rank candidates.now.items }
{
    let Some(most) = budget else {
        return Admission::Admit;
    };
    if candidates.len() < most {
        return Admission::Admit;
    }
    match pick_victim(candidates, policy, rank) {
        None => Admission::Reject,
        Some((place, voice)) => Admission::Steal { place, voice },
    }
}
