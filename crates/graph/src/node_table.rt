//! The nodes of a graph: rows that stand by rising id, so that a node is found by halving.

ghost use Rattle.std.specs.Prelude.{◌≡◌, ◌≤◌, ◌+◌, ◌++◌, not, length, filter, is_some};
ghost use Rattle.std.specs.List.{position, list_all};
ghost use Rattle.lists.specs.Rising.{RisesFrom};
ghost use Rattle.node.specs.Node.{reported, with_last};
ghost use Rattle.graph.specs.Node.{node_at, is_node, owned_by, owned_by_some, noise_raised};
ghost use Rattle.graph.specs.Change.{ids_of};
ghost use Rattle.graph.specs.Sound.{id_of};
ghost use Rattle.graph.specs.Does.{changed_at};
ghost use Rattle.graph.specs.Grown.{is_new, will_live, joins, joins_new, few_ports, numbered};

use arrayvec::ArrayVec;
use node::order::LastOrder;
use node::record::{Edge, Node, NodeId, VoiceId};

pub(crate) type NodeTable = ArrayVec<Node, 512>;

// Where the node of this id stands.
pub(crate) fn node_row(nodes: &[Node], id: NodeId) -> Option<usize>
    requires { RisesFrom id_of 0 nodes.now }
    ensures { result ≡ position (is_node id) nodes.now }
{
    let at = nodes.partition_point(|n| n.id.0 < id.0);
    if at < nodes.len() && nodes[at].id.0 == id.0 {
        return Some(at);
    }
    None
}

pub(crate) fn node_of(nodes: &[Node], id: NodeId) -> Option<Node>
    requires { RisesFrom id_of 0 nodes.now }
    ensures { result ≡ node_at nodes.now id }
{
    let at = node_row(nodes, id)?;
    Some(nodes[at])
}

// Removes the node of this id.
pub(crate) fn drop_node(nodes: &mut NodeTable, id: NodeId)
    requires { RisesFrom id_of 0 nodes.old.items }
    ensures { nodes.new.items ≡ filter (λ n. not (is_node id n)) nodes.old.items }
{
    if let Some(at) = node_row(nodes.as_slice(), id) {
        nodes.remove(at);
    }
}

fn owned_by(voice: VoiceId, n: Node) -> bool
    ensures { result ≡ owned_by voice n }
{
    n.owner.0 == voice.0
}

pub(crate) fn ids_owned(nodes: &[Node], voice: VoiceId) -> ArrayVec<u32, 512>
    requires { length nodes.now ≤ 512 }
    ensures { result.items ≡ ids_of (owned_by voice) nodes.now }
{
    let mut ids = ArrayVec::new();
    for n in nodes {
        if owned_by(voice, *n) {
            ids.push(n.id.0);
        }
    }
    ids
}

pub(crate) fn drop_owned(nodes: &mut NodeTable, voice: VoiceId)
    ensures { nodes.new.items ≡ filter (λ n. not (owned_by voice n)) nodes.old.items }
{
    nodes.retain(|n| !owned_by(voice, *n));
}

fn owned_by_some(voices: &[VoiceId], n: &Node) -> bool
    ensures { result ≡ owned_by_some voices.now n.now }
{
    voices.iter().any(|w| owned_by(*w, *n))
}

pub(crate) fn ids_owned_by_some(nodes: &[Node], voices: &[VoiceId]) -> ArrayVec<u32, 512>
    requires { length nodes.now ≤ 512 }
    ensures { result.items ≡ ids_of (owned_by_some voices.now) nodes.now }
{
    let mut ids = ArrayVec::new();
    for n in nodes {
        if owned_by_some(voices, n) {
            ids.push(n.id.0);
        }
    }
    ids
}

pub(crate) fn drop_owned_by_some(nodes: &mut NodeTable, voices: &[VoiceId])
    ensures { nodes.new.items ≡ filter (λ n. not (owned_by_some voices.now n)) nodes.old.items }
{
    nodes.retain(|n| !owned_by_some(voices, n));
}

// The level of a block and whether the node is done, in its place.
pub(crate) fn report_at(nodes: &mut NodeTable, id: NodeId, level: f32, done: bool)
    requires { RisesFrom id_of 0 nodes.old.items }
    ensures { nodes.new.items ≡ changed_at id (reported level done) nodes.old.items }
{
    if let Some(at) = node_row(nodes.as_slice(), id) {
        let n = &mut nodes.as_mut_slice()[at];
        n.level = level;
        n.done = done;
    }
}

// The last order that the node took.
pub(crate) fn order_at(nodes: &mut NodeTable, id: NodeId, order: LastOrder)
    requires { RisesFrom id_of 0 nodes.old.items }
    ensures { nodes.new.items ≡ changed_at id (with_last order) nodes.old.items }
{
    if let Some(at) = node_row(nodes.as_slice(), id) {
        nodes.as_mut_slice()[at].last = order;
    }
}

// The bus counts one voice more.
pub(crate) fn raise_noise_at(nodes: &mut NodeTable, bus: NodeId)
    requires { RisesFrom id_of 0 nodes.old.items }
    ensures { nodes.new.items ≡ noise_raised bus nodes.old.items }
{
    if let Some(at) = node_row(nodes.as_slice(), bus) {
        let n = &mut nodes.as_mut_slice()[at];
        n.noise = n.noise.wrapping_add(1);
    }
}

// Appends the nodes, under the ids from `next` on.
pub(crate) fn append_all(nodes: &mut NodeTable, more: &[Node], next: u64)
    requires places { length nodes.old.items + length more.now ≤ 512 }
    requires ids { next + length more.now ≤ 4294967296 }
    ensures { nodes.new.items ≡ nodes.old.items ++ numbered next more.now }
{
    let mut id = next;
    for n in more {
        nodes.push(Node {
            id: NodeId(id as u32),
            ..*n
        });
        id += 1;
    }
}

// Whether the id is one of `more` that are given out next.
fn is_new(next: u64, more: usize, id: NodeId) -> bool
    ensures { result ≡ is_new next more id }
{
    let id = u64::from(id.0);
    next <= id && id - next < more as u64
}

fn lives(nodes: &[Node], id: NodeId) -> bool
    requires { RisesFrom id_of 0 nodes.now }
    ensures { result ≡ is_some (node_at nodes.now id) }
{
    node_row(nodes, id).is_some()
}

fn will_live(nodes: &[Node], next: u64, more: usize, id: NodeId) -> bool
    requires { RisesFrom id_of 0 nodes.now }
    ensures { result ≡ will_live nodes.now next more id }
{
    is_new(next, more, id) || lives(nodes, id)
}

// Whether the edge leads to a node that lives, from one that does or is one of `more` that are next.
pub(crate) fn joins(nodes: &[Node], next: u64, more: usize, e: Edge) -> bool
    requires { RisesFrom id_of 0 nodes.now }
    ensures { result ≡ joins nodes.now next more e }
{
    will_live(nodes, next, more, e.from) && lives(nodes, e.to)
}

// Whether each edge leads to one of `more` nodes that are next, from one of them or one that lives.
pub(crate) fn all_join(nodes: &[Node], next: u64, more: usize, es: &[Edge]) -> bool
    requires { RisesFrom id_of 0 nodes.now }
    ensures { result ≡ list_all (joins_new nodes.now next more) es.now }
{
    for e in es {
        if !is_new(next, more, e.to) || !will_live(nodes, next, more, e.from) {
            return false;
        }
    }
    true
}

// Whether none has more than 64 ports.
pub(crate) fn have_few_ports(nodes: &[Node]) -> bool
    ensures { result ≡ list_all few_ports nodes.now }
{
    nodes.iter().all(|n| n.ports <= 64)
}
