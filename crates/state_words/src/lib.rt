// The state in 32 lent words, for a host that holds words only. Any words stand for a state: an option is a flag and its words.
// Numbers for the kinds, since words hold no enum. The enums are those of crate voice and have no numbers of their own: `From` cannot
// stand here, and numbers at the cases would put this layout into the rules of stealing.
#![tactic(auto)]

ghost use Rattle.std.specs.Prelude.{◌≡◌};
ghost use Rattle.words.specs.Fields.{long_at};
ghost use Rattle.state_words.specs.State.{state_in, words_of, budget_in, policy_in, scope_in, policy_tag, scope_tag};

use memory::state::State;
use node::record::NodeId;
use store::config::Config;
use voice::policy::{BudgetScope, StealPolicy};
use words::fields::{self, high_word, low_word};

pub const STATE_WORDS: usize = 32;

pub type StateWords = [u32; STATE_WORDS];

pub fn budget_in(tag: u32, n: usize) -> Option<usize>
    ensures { result ≡ budget_in tag n }
{
    (tag != 0).then_some(n)
}

pub fn policy_in(tag: u32) -> StealPolicy
    ensures { result ≡ policy_in tag }
{
    match tag {
        1 => StealPolicy::Oldest,
        2 => StealPolicy::Newest,
        3 => StealPolicy::Quietest,
        _ => StealPolicy::Reject,
    }
}

fn policy_tag(p: StealPolicy) -> u32
    ensures { result ≡ policy_tag p }
{
    match p {
        StealPolicy::Reject => 0,
        StealPolicy::Oldest => 1,
        StealPolicy::Newest => 2,
        StealPolicy::Quietest => 3,
    }
}

pub fn scope_in(tag: u32) -> BudgetScope
    ensures { result ≡ scope_in tag }
{
    match tag {
        0 => BudgetScope::Global,
        _ => BudgetScope::PerGroup,
    }
}

fn scope_tag(s: BudgetScope) -> u32
    ensures { result ≡ scope_tag s }
{
    match s {
        BudgetScope::Global => 0,
        BudgetScope::PerGroup => 1,
    }
}

// Two words as one number: the state is one row of its words.
fn long_at(w: &StateWords, k: u16) -> u64
    ensures { result ≡ long_at w.now k }
{
    fields::long_at(w, STATE_WORDS, 0, k)
}

fn size_at(w: &StateWords, k: u16) -> usize
    ensures { result ≡ long_at w.now k }
{
    long_at(w, k) as usize
}

pub fn config_in(w: &StateWords) -> Config
    ensures { result ≡ (state_in w.now).config }
{
    Config {
        rate: w[0],
        block: size_at(w, 1),
        budget: budget_in(w[3], size_at(w, 4)),
        policy: policy_in(w[6]),
        scope: scope_in(w[7]),
        table: w[31] != 0,
    }
}

// The state that the words stand for.
pub fn state_in(w: &StateWords) -> State
    ensures { result ≡ state_in w.now }
{
    State {
        config: config_in(w),
        nodes: size_at(w, 8),
        edges: size_at(w, 10),
        order: size_at(w, 12),
        voices: size_at(w, 14),
        events: size_at(w, 16),
        sink: (w[18] != 0).then_some(NodeId(w[19])),
        prepared: w[20] != 0,
        next: long_at(w, 21),
        clock: long_at(w, 23),
        spawned: long_at(w, 25),
        stolen: long_at(w, 27),
        place: size_at(w, 29),
    }
}

// The words of a state. Word by word, since the list is the layout: parts put by their places would say it twice.
// A function apart from `put_state`: its contract names each word, that of `put_state` what they stand for.
fn state_words(s: State) -> StateWords
    ensures { result ≡ words_of s }
{
    let c = s.config;
    let most = c.budget.unwrap_or(0) as u64;
    [
        c.rate,
        low_word(c.block as u64),
        high_word(c.block as u64),
        u32::from(c.budget.is_some()),
        low_word(most),
        high_word(most),
        policy_tag(c.policy),
        scope_tag(c.scope),
        low_word(s.nodes as u64),
        high_word(s.nodes as u64),
        low_word(s.edges as u64),
        high_word(s.edges as u64),
        low_word(s.order as u64),
        high_word(s.order as u64),
        low_word(s.voices as u64),
        high_word(s.voices as u64),
        low_word(s.events as u64),
        high_word(s.events as u64),
        u32::from(s.sink.is_some()),
        s.sink.map_or(0, |n| n.0),
        u32::from(s.prepared),
        low_word(s.next),
        high_word(s.next),
        low_word(s.clock),
        high_word(s.clock),
        low_word(s.spawned),
        high_word(s.spawned),
        low_word(s.stolen),
        high_word(s.stolen),
        low_word(s.place as u64),
        high_word(s.place as u64),
        u32::from(c.table),
    ]
}

// The lent words become those of the state.
pub fn put_state(w: &mut StateWords, s: State)
    ensures { state_in w.new ≡ s }
{
    *w = state_words(s);
}
