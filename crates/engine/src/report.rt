//! Reports: the level of the block that a node wrote, and whether it is done.

ghost use Rattle.std.specs.Prelude.{◌≡◌, None, not};
ghost use Rattle.node.specs.declared.refusal.Refusal.TheVariants as refusal;
ghost use Rattle.graph.specs.Tables.{answer_of};
ghost use Rattle.graph.specs.Refuse.{when};
ghost use Rattle.model.specs.Refuse.{of_definition, reports, lent_block};
ghost use Rattle.model.specs.Call.{report};
ghost use Rattle.engine.specs.Called.{Called, answered};

use crate::Tables;
use level::level;
use node::record::{HOST, Node, NodeId};
use node::refusal::Refusal;
use voice::voices::{Voice, Voices};

// Whether the node is one of the nodes of the voice's definition.
fn of_definition(node: NodeId, voice: Option<Voice>) -> bool
    ensures { result ≡ of_definition node.0 voice }
{
    let Some(v) = voice else {
        return false;
    };
    v.first.0 <= node.0 && u64::from(node.0) < u64::from(v.first.0) + u64::from(v.count)
}

// Whether the node can be reported: it is one of the host's, or one of a voice's definition.
fn is_reported(voices: &Voices, node: Option<Node>) -> bool
    ensures { result ≡ reports voices.now.live node }
{
    let Some(n) = node else {
        return false;
    };
    n.owner.0 == HOST.0 || of_definition(n.id, voices.find(n.owner))
}

// Whether a lent block has its length: one or two channels of `block` samples.
fn is_lent_block(block: usize, channels: usize, samples: usize) -> bool
    ensures { result ≡ lent_block block channels samples }
{
    (1..=2).contains(&channels) && channels.checked_mul(block) == Some(samples)
}

// The tests of a report of a node that was looked for: 4, then 16.
fn report_test(
    voices: &Voices,
    node: Option<Node>,
    block: usize,
    channels: usize,
    samples: usize,
) -> Result<(), Refusal>
    ensures { result ≡ answer_of (when (not (reports voices.now.live node)) refusal.UnknownNode (when (not (lent_block block channels samples)) refusal.LentBlock None)) }
{
    if !is_reported(voices, node) {
        return Err(Refusal::UnknownNode);
    }
    if !is_lent_block(block, channels, samples) {
        return Err(Refusal::LentBlock);
    }
    Ok(())
}

impl Tables {
    /// The block that a node wrote, channel by channel, and whether it is done (SPEC 11.1). Refused with 4 if the node does not live, or is a voice's
    /// and not of its definition, 16 if the block is not one or two channels of as many samples as making said.
    pub fn report(
        &mut self,
        node: NodeId,
        channels: usize,
        samples: &[f32],
        done: bool,
    ) -> Result<(), Refusal>
        ensures { Called (report node channels samples.now done) self.old (answered result) self.new }
    {
        let found = self.graph.node(node);
        report_test(
            &self.voices,
            found,
            self.config.block,
            channels,
            samples.len(),
        )?;
        self.graph.report(node, level(samples), done);
        Ok(())
    }
}
