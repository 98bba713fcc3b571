use node::record::NodeId;
use synthdef::def::SynthDef;

// A spawn that is asked for: which of the two it is, and all its arguments. A keyboard's wish waits with it, a direct call makes it at
// once; nothing of the arguments is tested before that. `managed` is a flag: a call from C gives it as one.
#[derive(Clone, Copy, Default)]
pub struct Wish {
    pub managed: bool,
    pub def: SynthDef,
    pub bus: NodeId,
    pub pan: f32,
    pub rank: u32,
}
