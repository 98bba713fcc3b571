// Render on a lent store: the events before clock + block, one prepare if any was a free, the fades and the clock.
#![tactic(auto)]

mod apply;
mod block;
mod due;
pub mod render;
