// The calls of the console (docs/CHANGES.md, "Fair turns for the manuals") on a lent store with its lent wishes: making with keyboards, a wish, a turn. A call of the
// store stays as it is; it is not lent the wishes.
#![tactic(auto)]

pub mod making;
pub mod queues;
pub mod turning;
pub mod wishing;
