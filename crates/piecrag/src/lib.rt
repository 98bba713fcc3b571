// The store: the calls that a host makes on memory that it lends, the tables that it lends, and the types of arguments and answers.
// What else writes a store is no call, and is not shown here. Also shown: what makes an argument (`name_of`, the four `voice_on_bus`), how long
// a page is, and the numbers of refusals and outcomes, which docs/CALLS.md lists for every host.
// A type stands here if a signature or a field names it.
#![tactic(auto)]

// ---- the state, which goes by value, and the six tables with how many words each has
pub use event_table::row::{EVENT_WORDS, EventTable};
pub use graph_rows::edge_row::{EDGE_WORDS, EdgeTable};
pub use graph_rows::node_row::{NODE_WORDS, NodeTable};
pub use memory::state::State;
pub use order_table::{ORDER_WORDS, OrderTable};
pub use steal_log::{STEAL_WORDS, StealTable};
pub use voice_rows::row::{VOICE_WORDS, VoiceTable};

// ---- making
pub use call_make::make;

// ---- the host's nodes, wiring and sink, prepare and scheduling
pub use call_host::host::{add_node, connect, disconnect, remove_node, set_sink};
pub use call_host::preparing::prepare;
pub use call_host::schedule::schedule;
pub use memory::state::CallResult;

// ---- voices
pub use call_clear::clear::free_done_synths;
pub use call_free::free::free_voice;
pub use call_param::number::outcome_number;
pub use call_param::param::{set_voice_param, set_voice_param_glide};
pub use call_render::render::{Rendering, render};
pub use call_report::report::report;
pub use call_spawn::spawn::spawn_voice;
pub use call_spawn::wish::{
    voice_on_bus, voice_on_bus_managed, voice_on_bus_panned, voice_on_bus_panned_managed,
};
pub use store::wish::Wish;

// ---- the console: keyboards whose wishes for spawns wait in a table of their own, and turns that serve them
pub use call_console::making::{MakeRefusal, make_console};
pub use call_console::queues::{
    ConsoleResult, Queue, WishResult, WishState, keyboard_count, waiting_count,
};
pub use call_console::turning::{Served, turn};
pub use call_console::wishing::wish;
pub use console::refusal::{KeyboardRefusal, keyboard_refusal_number};
pub use wish_rows::row::{WISH_WORDS, WishTable};

// ---- the seal: sealing the board of one console, and the calls that a seal may close. What is not here no seal closes
pub use call_seal::closing::BoardRefusal;
pub use call_seal::host::{
    add_node as board_add_node, connect as board_connect, disconnect as board_disconnect,
    remove_node as board_remove_node, set_sink as board_set_sink,
};
pub use call_seal::sealing::{SealResult, seal};
pub use call_seal::spawn::spawn as board_spawn;
pub use call_seal::wishing::wish as board_wish;
pub use sealed::profile::{Profile, Seal};
pub use sealed::refusal::{SealRefusal, seal_refusal_number};

// ---- what a block needs besides: fade output and bus sum
pub use mixing::{FadePart, bus_sum, fade_output};

// ---- the same in whole numbers
pub use whole_mixing::{bus_sum as whole_bus_sum, fade_output as whole_fade_output};

// ---- reading, and the page
pub use call_page::{page, page_length};
pub use call_read::counts::{edge_at, edges, processing_order, voices};
pub use call_read::look::{fade_position, voice, voice_at, voice_level};
pub use call_read::records::{clock, node_record, sources, steals};

// ---- arguments
pub use graph::host::HostNode;
pub use node::name::{Name, name_of};
pub use node::order::{EventAction, Glide, GlideShape, GlideSpace};
pub use node::record::{Edge, NodeId, VoiceId};
pub use store::config::Making;
pub use synthdef::def::{DefEdge, DefEdges, DefNode, DefNodes, NO_PORT, Param, Params, SynthDef};
pub use voice::policy::{BudgetScope, StealPolicy};

// ---- answers
pub use node::order::LastOrder;
pub use node::record::Node;
pub use node::refusal::{Refusal, refusal_number};
pub use store::answer::{Outcome, Rendered};
pub use store::config::Config;
pub use synthdef::plan::{DonePlan, DoneStep};
pub use voice::steals::{StealRecord, Steals};
pub use voice::voices::{Fade, Voice, VoiceState};
