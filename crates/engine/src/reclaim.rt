//! Room on a bus: its lowest free port. While none is free, voices of the bus are removed, and the steal records say so.

ghost use Rattle.std.specs.Prelude.{◌≡◌};
ghost use Rattle.voice.specs.Voice.{counted, tracked_on};
ghost use Rattle.model.specs.Voice.{candidates};
ghost use Rattle.model.specs.Spawn.{recorded, reclaim_log, next_out};
ghost use Rattle.model.specs.Model.{without_voice};
ghost use Rattle.engine.specs.Spawning.{restolen, cut_now, victim_on, Makes};

use crate::Tables;
use crate::free::forget;
use arrayvec::ArrayVec;
use node::record::{NodeId, VoiceId};
use voice::policy::{BudgetScope, Candidate, counts_for, pick_victim};
use voice::steals::steal_record;
use voice::voices::{Voice, VoiceState};

// Whether the voice is tracked and counts for a new voice on `bus`.
fn is_counted(v: &Voice, scope: BudgetScope, bus: NodeId) -> bool
    ensures { result ≡ counted scope bus v.now }
{
    matches!(v.state, VoiceState::Tracked) && counts_for(scope, v.bus, bus)
}

impl Tables {
    // The tracked voices that count for a new voice on `bus`, with their levels.
    pub(crate) fn candidates(&self, scope: BudgetScope, bus: NodeId) -> ArrayVec<Candidate, 64>
        ensures { result.items ≡ candidates self.now.shared (counted scope bus) self.now.voices }
    {
        let mut tracked = ArrayVec::new();
        for v in self.voices.as_slice() {
            if is_counted(v, scope, bus) {
                tracked.push(Candidate {
                    voice: v.id,
                    level: self.level_of(v),
                    rank: v.rank,
                });
            }
        }
        tracked
    }

    // One steal record more: of this voice now, with its level.
    pub(crate) fn record_steal(&mut self, v: &Voice, cut: bool)
        ensures { self.new ≡ restolen (recorded v.now cut self.old.shared) self.old }
    {
        let level = self.level_of(v);
        self.steals.push(steal_record(self.clock, level, cut));
    }

    // What the removal of a voice leaves in the records: a tracked voice gets a cut record, and the record of a fade is marked cut, if it is still
    // held.
    fn record_removal(&mut self, v: &Voice)
        ensures { self.new ≡ restolen (reclaim_log v.now v.now.state self.old.shared) self.old }
    {
        match v.state {
            VoiceState::Tracked => self.record_steal(v, true),
            VoiceState::Fading(fade) => self.steals.mark_cut(fade.number),
            VoiceState::Loose => {}
        }
    }

    // The voice goes, with its nodes and their edges.
    pub(crate) fn forget_voice(&mut self, voice: VoiceId)
        ensures { self.new ≡ without_voice voice self.old }
    {
        forget(&mut self.graph, &mut self.voices, voice);
    }

    // The voice is removed at once, and the records say so. Its level is that of the store in which it lives.
    fn cut_voice(&mut self, v: &Voice)
        ensures { self.new ≡ cut_now v.now self.old }
    {
        self.record_removal(v);
        self.forget_voice(v.id);
    }

    // The tracked voice of `bus` that gives way to a new voice of rank `rank`, or none.
    fn bus_victim(&self, bus: NodeId, rank: u32) -> Option<Voice>
        ensures { result ≡ victim_on self.now.shared bus rank self.now.voices }
    {
        let tracked = self.candidates(BudgetScope::PerGroup, bus);
        let (_, voice) = pick_victim(&tracked, self.config.policy, rank)?;
        self.voices.find(voice)
    }

    // The voice that is removed for a port of `bus`: its earliest fade, whatever its rank, else the tracked voice of the bus that gives way to a new
    // voice of rank `rank`.
    fn next_out(&self, bus: NodeId, rank: u32) -> Option<Voice>
        ensures { result ≡ next_out self.now.shared bus rank self.now.voices }
    {
        self.voices
            .earliest_fade(bus)
            .or_else(|| self.bus_victim(bus, rank))
    }

    // The lowest free port of `bus`, if there is one. Where there is none, voices of the bus are removed one after the other until there is one, at most
    // `fuel` of them.
    pub(crate) fn make_room(&mut self, bus: NodeId, rank: u32, fuel: usize) -> Option<u32>
        ensures { Makes fuel bus rank self.old self.new result }
    {
        let mut port = self.graph.free_port(bus);
        for _ in 0..fuel {
            if port.is_some() {
                break;
            }
            let Some(v) = self.next_out(bus, rank) else {
                break;
            };
            self.cut_voice(&v);
            port = self.graph.free_port(bus);
        }
        port
    }
}
