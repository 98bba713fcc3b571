ghost use Rattle.std.specs.Prelude.{◌≡◌, None};
ghost use Rattle.node.specs.declared.refusal.Refusal.TheVariants.{VoiceNode};
ghost use Rattle.graph.specs.Refuse.{when};
ghost use Rattle.graph.specs.Tables.{answer_of};
ghost use Rattle.graph_tables.specs.Brief.{of_voice, host_brief, port_brief, wire_brief};

use graph_rows::node_row::Brief;
use node::record::HOST;
use node::refusal::Refusal;

// The node is the host's.
fn owner_test(n: Brief) -> Result<(), Refusal>
    ensures { result ≡ answer_of (when (of_voice n) VoiceNode None) }
{
    if n.owner != HOST {
        return Err(Refusal::VoiceNode);
    }
    Ok(())
}

// The node lives and is the host's.
pub fn host_test(n: Option<Brief>) -> Result<(), Refusal>
    ensures { result ≡ answer_of (host_brief n) }
{
    owner_test(n.ok_or(Refusal::UnknownNode)?)
}

// The node lives, is the host's and has the port.
pub fn port_test(n: Option<Brief>, port: u32) -> Result<(), Refusal>
    ensures { result ≡ answer_of (port_brief n port) }
{
    let node = n.ok_or(Refusal::UnknownNode)?;
    owner_test(node)?;
    if node.ports <= port {
        return Err(Refusal::PortOrKind);
    }
    Ok(())
}

// Both nodes live and are the host's, the second has the port, and the edge a place.
pub fn wire_test(
    from: Option<Brief>,
    to: Option<Brief>,
    port: u32,
    full: bool,
) -> Result<(), Refusal>
    ensures { result ≡ answer_of (wire_brief from to port full) }
{
    let source = from.ok_or(Refusal::UnknownNode)?;
    to.ok_or(Refusal::UnknownNode)?;
    owner_test(source)?;
    port_test(to, port)?;
    if full {
        return Err(Refusal::TableFull);
    }
    Ok(())
}
