ghost use Rattle.std.specs.Prelude.{◌≡◌, ◌≤◌, [], false, get_or};
ghost use Rattle.synthdef.specs.Tables.{edge_rows};
ghost use Rattle.synthdef.specs.Edges.{source_at};
ghost use Rattle.synthdef.specs.Plan.{named_span, span_of, is_every, sources_from, step, summed, step_of, steps_from, plan_of};

use crate::def::{DefEdges, DefNode, SynthDef};
use crate::edges::{counted_edges, ends_at};
use lists::rows::Table;
use node::silence::{SilenceRule, silence_rule};
use std::array;

// The sources that the rule of a node reads, the first `count` of `sources`: where `all` is set, all of them have to be silent for the node
// to be, else one. No `Table` of lists: its count is a byte, as the words of a voice hold it. `all` is a flag there too: an enum of the two
// would be made of it and taken apart again.
#[derive(Clone, Copy, Default)]
pub struct DoneStep {
    pub all: bool,
    pub count: u8,
    pub sources: [u8; 8],
}

// The step of a node that is silent by its done flag alone. It stands for no step, and needs no Option: of no sources none is silent.
const NEVER: DoneStep = DoneStep {
    all: false,
    count: 0,
    sources: [0; 8],
};

// How done nodes silence a definition's output: a step for each node by its place in the definition.
#[derive(Clone, Copy, Default)]
pub struct DonePlan {
    pub steps: [DoneStep; 24],
    pub output: u8,
}

// The ports that a rule reads: `count` of them from `first` on. No range of the library: it is not `Copy`, `step_of` reads it twice, and specs/Plan
// names this type.
#[derive(Clone, Copy)]
struct Span {
    first: usize,
    count: usize,
}

// The port `port` where it is one of `ports`, else none.
fn named_span(ports: usize, port: usize) -> Span
    ensures { result ≡ named_span ports port }
{
    if port < ports {
        Span {
            first: port,
            count: 1,
        }
    } else {
        Span { first: 0, count: 0 }
    }
}

fn span_of(rule: SilenceRule, n: DefNode) -> Span
    ensures { result ≡ span_of rule n }
{
    let ports = usize::from(n.ports).min(8);
    match rule {
        SilenceRule::Own => Span { first: 0, count: 0 },
        SilenceRule::AnyPort | SilenceRule::EveryPort => Span {
            first: 0,
            count: ports,
        },
        SilenceRule::FirstPort => Span { first: 0, count: 1 },
        SilenceRule::LevelPort => named_span(ports, usize::from(n.level_port)),
        SilenceRule::AmpPort => named_span(ports, usize::from(n.amp_port)),
        SilenceRule::InPort => named_span(ports, usize::from(n.in_port)),
    }
}

// Whether the rule asks that every source is silent.
fn is_every(rule: SilenceRule) -> bool
    ensures { result ≡ is_every rule }
{
    matches!(rule, SilenceRule::EveryPort)
}

// The source that is connected to the port `port` of the node `node`.
fn source_at(es: DefEdges, node: usize, port: usize) -> Option<u8>
    ensures { result ≡ source_at (edge_rows es) node port }
{
    es.as_slice()
        .iter()
        .find(|e| ends_at(**e, node, port))
        .map(|e| e.from)
}

// A step that asks for one silent source among those that are connected to the ports of `span`.
fn sources_of(es: DefEdges, node: usize, span: Span) -> DoneStep
    requires { (span.first ≤ 8) × (span.count ≤ 8) }
    ensures { result ≡ step false (sources_from (edge_rows es) node span.first span.count) }
{
    let mut found: Table<u8, 8> = Table::empty(0);
    for port in span.first..span.first + span.count {
        if let Some(from) = source_at(es, node, port) {
            found.push(from);
        }
    }
    DoneStep {
        all: false,
        count: found.count as u8,
        sources: found.rows,
    }
}

// The step of a sum over `ports` ports, where `st` has the connected sources.
fn sum_of(ports: usize, st: DoneStep) -> DoneStep
    ensures { result ≡ summed ports st }
{
    if ports == 0 || usize::from(st.count) != ports {
        return NEVER;
    }
    DoneStep { all: true, ..st }
}

// The step of node `i`, which is `n`, among the counted edges `es`.
fn step_of(es: DefEdges, n: DefNode, i: usize) -> DoneStep
    ensures { result ≡ step_of (edge_rows es) n i }
{
    let rule = silence_rule(n.kind);
    let span = span_of(rule, n);
    let st = sources_of(es, i, span);
    if is_every(rule) {
        sum_of(span.count, st)
    } else {
        st
    }
}

// The step of the node in row `i`, or NEVER where there is no such row.
fn step_at(es: DefEdges, nodes: &[DefNode], i: usize) -> DoneStep
    ensures { result ≡ get_or (steps_from (edge_rows es) nodes.now 0) i (step false []) }
{
    nodes.get(i).map_or(NEVER, |n| step_of(es, *n, i))
}

// The done plan of a definition.
pub fn done_plan(d: SynthDef) -> DonePlan
    ensures { result ≡ plan_of d }
{
    let es = counted_edges(d.edges);
    let nodes = d.nodes.as_slice();
    DonePlan {
        steps: array::from_fn(|i| step_at(es, nodes, i)),
        output: d.output,
    }
}
