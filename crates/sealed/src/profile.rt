use node::record::NodeId;

// What the builder of the board states: its one bus with its ports P, the host nodes H, the host edges G, and the largest
// definition, D nodes and E edges. Numbers of any size: whether they fit is tested.
#[derive(Clone, Copy)]
pub struct Profile {
    pub bus: NodeId,
    pub ports: u64,
    pub host_nodes: u64,
    pub host_edges: u64,
    pub def_nodes: u64,
    pub def_edges: u64,
}

// The seal of a board: none yet, or the profile by which it was sealed.
pub type Seal = Option<Profile>;
