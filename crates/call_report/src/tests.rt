// The tests of a report. The voices are lent words and the first `held` of their rows: that number stands in the state, and the words are lent
// without it.
ghost use Rattle.std.specs.Prelude.{◌≡◌, Some, take, find};
ghost use Rattle.model.specs.Refuse.{of_definition, reports, lent_block};
ghost use Rattle.voice.specs.Voice.{is_voice};
ghost use Rattle.graph_rows.specs.Node.{nodes_in};
ghost use Rattle.voice_rows.specs.Rows.{voices_in};
ghost use Rattle.call_report.specs.Tested.{row_in, tested, Told};

use graph_rows::node_row::{id_at, owner_at};
use node::record::{HOST, VoiceId};
use node::refusal::Refusal;
use voice_rows::row::{count_at, first_at};
use voice_rows::table::find_voice;

// Whether the id `k` is one of the nodes of the definition of the voice `w`.
fn of_definition(voices: &[u32], held: usize, w: VoiceId, k: u32) -> bool
    ensures { result ≡ of_definition k (find (is_voice w) (take held (voices_in voices.now))) }
{
    find_voice(voices, held, w).is_some_and(|row| {
        k.checked_sub(first_at(voices, row).0)
            .is_some_and(|i| i < count_at(voices, row))
    })
}

// Whether the node in row `p` can be reported: it is one of the host's, or one of a voice's definition.
fn is_reported(nodes: &[u32], p: usize, voices: &[u32], held: usize) -> bool
    ensures { result ≡ reports (take held (voices_in voices.now)) (row_in (Some p) (nodes_in nodes.now)) }
{
    let w = owner_at(nodes, p);
    w == HOST || of_definition(voices, held, w, id_at(nodes, p).0)
}

// Whether a lent block has its length: one or two channels of `block` samples. Crate bus asks the same of its buffers by a private test; to share it
// would make that one public for these lines alone, with a proof that the definitions of the two crates are equal.
fn is_lent_block(block: usize, channels: usize, samples: usize) -> bool
    ensures { result ≡ lent_block block channels samples }
{
    (1..=2).contains(&channels) && channels.checked_mul(block) == Some(samples)
}

// The row of the node, if it was found and can be reported: else 4, the node is unknown; then 16, the lent block has not its length.
pub(crate) fn report_test(
    nodes: &[u32],
    row: Option<usize>,
    voices: &[u32],
    held: usize,
    block: usize,
    channels: usize,
    samples: usize,
) -> Result<usize, Refusal>
    ensures { Told row (tested (take held (voices_in voices.now)) (row_in row (nodes_in nodes.now)) block channels samples) result }
{
    let p = row
        .filter(|p| is_reported(nodes, *p, voices, held))
        .ok_or(Refusal::UnknownNode)?;
    if !is_lent_block(block, channels, samples) {
        return Err(Refusal::LentBlock);
    }
    Ok(p)
}
