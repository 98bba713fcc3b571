//! What the host asks of the graph: nodes, wiring, the sink, and prepare.

ghost use Rattle.model.specs.Call.{add_node, remove_node, connect, disconnect, set_sink, prepare};
ghost use Rattle.engine.specs.Called.{Called, answered, add_answered};

use crate::Tables;
use graph::host::HostNode;
use node::record::NodeId;
use node::refusal::Refusal;

impl Tables {
    /// The host adds a node of the kind `kind`, under the next id (SPEC 4.1). Refused with 6 if the kind's name has not
    /// 1 to 16 bytes, the node more than 64 ports or a required one that it has not, 7 if there are 512 nodes, 8 if all
    /// ids are given out.
    pub fn add_node(&mut self, kind: &[u8], node: HostNode) -> Result<NodeId, Refusal>
        ensures { Called (add_node kind.now node.ports node.required node.takes_values node.takes_glides)
            self.old (add_answered result) self.new }
    {
        self.graph.add_node(kind, node)
    }

    /// The host removes its node, with the edges that touch it; where it is the sink, there is none (SPEC 4.2). Refused
    /// with 4 if it does not live, 5 if it is a voice's.
    pub fn remove_node(&mut self, node: NodeId) -> Result<(), Refusal>
        ensures { Called (remove_node node) self.old (answered result) self.new }
    {
        self.graph.remove_node(node)
    }

    /// The output of `from` feeds the port `port` of `to`, in place of what fed it (SPEC 4.3). Refused with 4 if one of
    /// them does not live, 5 if one is a voice's, 6 if `to` has no such port, 7 if the port has no edge and there are
    /// 1,024 edges.
    pub fn connect(&mut self, from: NodeId, to: NodeId, port: u32) -> Result<(), Refusal>
        ensures { Called (connect from to port) self.old (answered result) self.new }
    {
        self.graph.connect(from, to, port)
    }

    /// Nothing feeds the port `port` of `to` (SPEC 4.4). Refused with 4 if `to` does not live, 5 if it is a voice's, 6
    /// if it has no such port.
    pub fn disconnect(&mut self, to: NodeId, port: u32) -> Result<(), Refusal>
        ensures { Called (disconnect to port) self.old (answered result) self.new }
    {
        self.graph.disconnect(to, port)
    }

    /// The host hears `node` (SPEC 4.5). Refused with 4 if it does not live, 5 if it is a voice's.
    pub fn set_sink(&mut self, node: NodeId) -> Result<(), Refusal>
        ensures { Called (set_sink node) self.old (answered result) self.new }
    {
        self.graph.set_sink(node)
    }

    /// The graph is made ready to be rendered (SPEC 5). Refused, and the order of the last prepare stays, with 13 if a
    /// required port has no edge, 14 if the edges run in a circle.
    pub fn prepare(&mut self) -> Result<(), Refusal>
        ensures { Called prepare self.old (answered result) self.new }
    {
        self.graph.prepare()
    }
}
