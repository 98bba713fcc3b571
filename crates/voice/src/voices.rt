ghost use Rattle.std.specs.Prelude.{◌≡◌, ◌≤◌, not, length, filter, find, map, count_by};
ghost use Rattle.std.specs.List.{position};
ghost use Rattle.lists.specs.Count.{count};
ghost use Rattle.lists.specs.Rising.{RisesFrom};
ghost use Rattle.voice.specs.Voice.{is_voice, fades_on, counted, begin_fade, moved, moved_state, moved_fade, further, ended, earliest, start_of};
ghost use Rattle.voice.specs.Voices.{Numbered, no_voices, id_of, is_any_of, ended_ids, starts_before, admitted_as, with_voice, without, each};

use crate::policy::{BudgetScope, counts_for};
use arrayvec::ArrayVec;
use node::record::{NodeId, VoiceId};
use node::refusal::Refusal;
use std::marker::Model;
use synthdef::def::Params;
use synthdef::plan::DonePlan;

// A steal fade: its node, the clock at the steal, how far it has come, in samples, and the number of its steal record.
#[derive(Clone, Copy)]
pub struct Fade {
    pub node: NodeId,
    pub start: u64,
    pub position: u64,
    pub number: u64,
}

// Counted by the budget; stolen, and on its way out; or counted by nobody. Three cases: an Option of a fade beside a flag would say less.
#[derive(Clone, Copy, Default)]
pub enum VoiceState {
    #[default]
    Tracked,
    Fading(Fade),
    Loose,
}

// A live voice. Its definition's nodes have the ids from `first` on; the pan's constant and the pan node follow them where
// it is panned; a fade has an id of its own. `port` is the port given at its spawn, `sequence` the noise sequence from
// which the seeds of its nodes follow, `rank` 0 to 7: a voice of a higher rank than the new voice's does not give way to it.
#[derive(Clone, Copy, Default)]
pub struct Voice {
    pub id: VoiceId,
    pub birth: u64,
    pub bus: NodeId,
    pub port: u32,
    pub first: NodeId,
    pub count: u32,
    pub output: NodeId,
    pub panned: bool,
    pub sequence: u32,
    pub rank: u32,
    pub state: VoiceState,
    pub params: Params,
    pub plan: DonePlan,
}

/// The live voices, in order of admission, at most 64. Their ids are numbered from 1, and no id is given twice.
#[derive(Drop)]
pub struct Voices {
    rows: ArrayVec<Voice, 64>,
    spawned: u64,
}

impl Model for Voices {
    ghost use Rattle.voice.specs.Voices.{VoicesView, Numbered};

    ghost Value = { VoicesView };

    ghost view = { λ v. record { live = v.rows.items; spawned = v.spawned } };

    ghost invariant = { λ v. Numbered v.rows.items v.spawned };
}

// Where the voice of this id stands, by halving: the rows stand by rising id.
fn voice_row(rows: &[Voice], voice: VoiceId) -> Option<usize>
    requires { RisesFrom id_of 0 rows.now }
    ensures { result ≡ position (is_voice voice) rows.now }
{
    let at = rows.partition_point(|v| v.id.0 < voice.0);
    if at < rows.len() && rows[at].id.0 == voice.0 {
        return Some(at);
    }
    None
}

fn voice_of(rows: &[Voice], voice: VoiceId) -> Option<Voice>
    requires { RisesFrom id_of 0 rows.now }
    ensures { result ≡ find (is_voice voice) rows.now }
{
    let at = voice_row(rows, voice)?;
    Some(rows[at])
}

fn drop_voice(rows: &mut ArrayVec<Voice, 64>, voice: VoiceId)
    requires { RisesFrom id_of 0 rows.old.items }
    ensures { rows.new.items ≡ filter (λ v. not (is_voice voice v)) rows.old.items }
{
    if let Some(at) = voice_row(rows.as_slice(), voice) {
        rows.remove(at);
    }
}

fn is_any_of(voices: &[VoiceId], v: &Voice) -> bool
    ensures { result ≡ is_any_of voices.now v.now }
{
    voices.iter().any(|w| w.0 == v.id.0)
}

fn drop_any(rows: &mut ArrayVec<Voice, 64>, voices: &[VoiceId])
    ensures { rows.new.items ≡ filter (λ v. not (is_any_of voices.now v)) rows.old.items }
{
    rows.retain(|v| !is_any_of(voices, v));
}

fn begin_at(rows: &mut ArrayVec<Voice, 64>, voice: VoiceId, fade: Fade)
    requires { RisesFrom id_of 0 rows.old.items }
    ensures { rows.new.items ≡ map (begin_fade voice fade) rows.old.items }
{
    if let Some(at) = voice_row(rows.as_slice(), voice) {
        rows.as_mut_slice()[at].state = VoiceState::Fading(fade);
    }
}

fn moved_fade(f: Fade, block: u64) -> Fade
    ensures { result ≡ moved_fade (further block) f }
{
    Fade {
        position: f.position.saturating_add(block),
        ..f
    }
}

fn moved_state(s: VoiceState, block: u64) -> VoiceState
    ensures { result ≡ moved_state (further block) s }
{
    match s {
        VoiceState::Fading(f) => VoiceState::Fading(moved_fade(f, block)),
        VoiceState::Tracked | VoiceState::Loose => s,
    }
}

fn move_in(rows: &mut [Voice], block: u64)
    ensures { rows.new ≡ map (moved (further block)) rows.old }
{
    for v in rows.iter_mut() {
        v.state = moved_state(v.state, block);
    }
}

fn move_each(rows: &mut ArrayVec<Voice, 64>, block: u64)
    ensures { rows.new.items ≡ map (moved (further block)) rows.old.items }
{
    move_in(rows.as_mut_slice(), block);
}

fn is_ended(v: &Voice, length: u64) -> bool
    ensures { result ≡ ended length v.now.state }
{
    match v.state {
        VoiceState::Fading(f) => length <= f.position,
        VoiceState::Tracked | VoiceState::Loose => false,
    }
}

fn ended_in(rows: &[Voice], fade_length: u64) -> ArrayVec<VoiceId, 64>
    requires { length rows.now ≤ 64 }
    ensures { result.items ≡ ended_ids fade_length rows.now }
{
    let mut ids = ArrayVec::new();
    for v in rows {
        if is_ended(v, fade_length) {
            ids.push(v.id);
        }
    }
    ids
}

// Whether the voice is tracked and counts for a new voice on `bus`.
fn is_counted(v: &Voice, scope: BudgetScope, bus: NodeId) -> bool
    ensures { result ≡ counted scope bus v.now }
{
    matches!(v.state, VoiceState::Tracked) && counts_for(scope, v.bus, bus)
}

fn count_in(rows: &[Voice], scope: BudgetScope, bus: NodeId) -> usize
    ensures { result ≡ count_by (counted scope bus) rows.now }
{
    rows.iter().filter(|v| is_counted(v, scope, bus)).count()
}

fn fades_on(v: &Voice, bus: NodeId) -> bool
    ensures { result ≡ fades_on bus v.now }
{
    matches!(v.state, VoiceState::Fading(_)) && v.bus.0 == bus.0
}

// The clock at the start of the voice's fade; 0 where it does not fade.
fn start_of(v: &Voice) -> u64
    ensures { result ≡ start_of v.now.state }
{
    match v.state {
        VoiceState::Fading(f) => f.start,
        VoiceState::Tracked | VoiceState::Loose => 0,
    }
}

// Whether the fade of `v` started before that of the best so far, if there is one.
fn starts_before(v: &Voice, best: &Option<Voice>) -> bool
    ensures { result ≡ starts_before v.now best.now }
{
    match best {
        Some(b) => start_of(v) < start_of(b),
        None => true,
    }
}

// From the first row on, so that of several that started at once the first stays.
fn earliest_in(rows: &[Voice], bus: NodeId) -> Option<Voice>
    ensures { result ≡ earliest (fades_on bus) rows.now }
{
    let mut best = None;
    for v in rows {
        if fades_on(v, bus) && starts_before(v, &best) {
            best = Some(*v);
        }
    }
    best
}

impl Voices {
    /// No voices, and no id given out.
    pub fn new() -> Voices
        ensures { result ≡ no_voices }
    {
        Voices {
            rows: ArrayVec::new(),
            spawned: 0,
        }
    }

    /// The live voices, in order of admission, by rising id.
    pub fn as_slice(&self) -> &[Voice]
        ensures value { result.now ≡ self.now.live }
        ensures numbered { Numbered self.now.live self.now.spawned }
    {
        self.rows.as_slice()
    }

    /// How many voices live: 0 to 64.
    pub fn len(&self) -> usize
        ensures value { result ≡ length self.now.live }
        ensures fits { result ≤ 64 }
    {
        self.rows.len()
    }

    /// How many voice ids were given out.
    pub fn spawned(&self) -> u64
        ensures { result ≡ self.now.spawned }
    {
        self.spawned
    }

    /// The voice of this id, if it lives.
    pub fn find(&self, voice: VoiceId) -> Option<Voice>
        ensures { result ≡ find (is_voice voice) self.now.live }
    {
        voice_of(self.rows.as_slice(), voice)
    }

    /// How many tracked voices count for a new voice on `bus`.
    pub fn count_tracked(&self, scope: BudgetScope, bus: NodeId) -> usize
        ensures { result ≡ count (counted scope bus) self.now.live }
    {
        count_in(self.rows.as_slice(), scope, bus)
    }

    /// The fade of `bus` that started earliest; of several that started at once the first in order of admission.
    pub fn earliest_fade(&self, bus: NodeId) -> Option<Voice>
        ensures { result ≡ earliest (fades_on bus) self.now.live }
    {
        earliest_in(self.rows.as_slice(), bus)
    }

    /// The ids of the voices whose fade has come as far as the fade length, in samples, in order of admission.
    pub fn ended(&self, fade_length: u64) -> ArrayVec<VoiceId, 64>
        ensures { result.items ≡ ended_ids fade_length self.now.live }
    {
        ended_in(self.rows.as_slice(), fade_length)
    }

    /// The id of the next voice. Refused with 7 where 64 voices live, 8 where all ids are given out.
    pub fn next_id(&self) -> Result<VoiceId, Refusal>
        ensures { result ≡ admitted_as self.now }
    {
        if self.rows.is_full() {
            return Err(Refusal::TableFull);
        }
        match self.spawned.checked_add(1) {
            Some(id) => Ok(VoiceId(id)),
            None => Err(Refusal::IdsUsedUp),
        }
    }

    /// One voice more, behind the others, under the next id, whatever id stands in `voice`. Refused as `next_id` is.
    pub fn admit(&mut self, voice: Voice) -> Result<VoiceId, Refusal>
        ensures answer { result ≡ admitted_as self.old }
        ensures voices { self.new ≡ with_voice (admitted_as self.old) voice self.old }
    {
        let id = self.next_id()?;
        self.rows.push(Voice { id, ..voice });
        self.spawned = id.0;
        Ok(id)
    }

    /// The voice of this id goes, if it lives.
    pub fn remove(&mut self, voice: VoiceId)
        ensures { self.new ≡ without (is_voice voice) self.old }
    {
        drop_voice(&mut self.rows, voice);
    }

    /// The voices of these ids go, as far as they live.
    pub fn remove_all(&mut self, voices: &[VoiceId])
        ensures { self.new ≡ without (is_any_of voices.now) self.old }
    {
        drop_any(&mut self.rows, voices);
    }

    /// The voice of this id fades from now on, if it lives.
    pub fn begin_fade(&mut self, voice: VoiceId, fade: Fade)
        ensures { self.new ≡ each (begin_fade voice fade) self.old }
    {
        begin_at(&mut self.rows, voice, fade);
    }

    /// Every fade moves by a block, in samples.
    pub fn move_fades(&mut self, block: u64)
        ensures { self.new ≡ each (moved (further block)) self.old }
    {
        move_each(&mut self.rows, block);
    }
}
