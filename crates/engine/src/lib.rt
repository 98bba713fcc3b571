//! The store: its tables in one struct with the calls as its methods, and `Store`, which is tables that calls left.
#![tactic(auto)]

pub mod blocks;
pub mod clear;
mod feeding;
pub mod free;
pub mod host;
mod making;
pub mod order;
pub mod page;
mod page_text;
pub mod reach;
pub mod read;
mod reclaim;
pub mod render;
pub mod report;
pub mod scheduling;
mod seat;
pub mod spawn;
pub mod stretch;

ghost use Rattle.std.specs.Prelude.{◌≡◌};
ghost use Rattle.model.specs.Make.{new_model};
ghost use Rattle.engine.specs.Made.{Remakes};

use graph::audio_graph::AudioGraph;
use making::config_of;
use node::refusal::Refusal;
use scheduler::queue::Scheduler;
use std::marker::Model;
use store::config::{Config, Making};
use voice::steal_ring::Steals;
use voice::voices::Voices;

/// The tables of a store: what making fixed, the graph, the pending events, the voices, the newest steals, and the
/// clock, which counts the samples rendered so far. Nothing is required of them: a `Store` is tables that calls left.
#[derive(Drop)]
pub struct Tables {
    config: Config,
    graph: AudioGraph,
    scheduler: Scheduler,
    voices: Voices,
    steals: Steals,
    clock: u64,
}

impl Model for Tables {
    ghost use Rattle.model.specs.Model.{Model};

    ghost Value = { Model };

    ghost view = { λ t. record {
      shared = record {
        config = t.config;
        graph = t.graph;
        events = t.scheduler;
        steals = t.steals;
        clock = t.clock;
        spawned = t.voices.spawned;
      };
      voices = t.voices.live;
    } };
}

impl Tables {
    // The tables of a new store. It is written where the caller wants it: each part is all zeros.
    fn new(config: Config) -> Tables
        ensures { result ≡ new_model config }
    {
        Tables {
            config,
            graph: AudioGraph::new(),
            scheduler: Scheduler::new(),
            voices: Voices::new(),
            steals: Steals::new(),
            clock: 0,
        }
    }

    /// Makes a new store in place of what these tables hold (SPEC 3). Refused, and nothing changes, with 1 for the
    /// sample rate, 2 for the block size, 3 for the budget, 20 for the fade table at another rate than its own.
    pub fn make(&mut self, making: Making) -> Result<(), Refusal>
        ensures { Remakes making self.old result self.new }
    {
        let config = config_of(making)?;
        *self = Tables::new(config);
        Ok(())
    }
}
