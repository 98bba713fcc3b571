ghost use Rattle.model.specs.Call as call;
ghost use Rattle.memory.specs.View.{Memory};
ghost use Rattle.memory.specs.Lent.{lent_params};
ghost use Rattle.memory.specs.Called.{Called, Kept, answered};

use crate::row::put_report;
use crate::tests::report_test;
use call_param::left::{copy_on, row_left};
use graph_rows::node_row::NodeTable;
use level::level;
use memory::state::State;
use node::record::NodeId;
use node::refusal::Refusal;
use voice_rows::row::VoiceTable;

// The block that a node wrote, channel by channel, and its done flag.
pub fn report(
    s: State,
    nodes: &mut NodeTable,
    voices: &VoiceTable,
    node: NodeId,
    channels: usize,
    samples: &[f32],
    done: bool,
) -> Result<(), Refusal>
    ensures is { (m : Memory) → Called (call.report node channels samples.now done) (lent_params s nodes.old voices.now m) (answered result) (lent_params s nodes.new voices.now m) }
    ensures same { (m : Memory) → Kept (answered result) (lent_params s nodes.old voices.now m) (lent_params s nodes.new voices.now m) }
{
    let k = u64::from(node.0);
    let row = row_left(nodes, s.nodes, k, &[]);
    let p = report_test(
        nodes,
        row,
        voices,
        s.voices,
        s.config.block,
        channels,
        samples.len(),
    )?;
    put_report(nodes, p, done, level(samples));
    copy_on(nodes, s.nodes, p, k, &[]);
    Ok(())
}
