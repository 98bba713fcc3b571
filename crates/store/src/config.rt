use voice::policy::{BudgetScope, StealPolicy};

// Two types, of which neither is a part of the other, and not one over the type of the rate: the model names both and their fields, and a rate
// that is asked for may be any float.
//
// What a host asks for when it makes a store: the sample rate as it says it, and the rest as in `Config`. `table` is a flag: a call from C gives it as one.
#[derive(Clone, Copy)]
pub struct Making {
    pub rate: f32,
    pub block: usize,
    pub budget: Option<usize>,
    pub policy: StealPolicy,
    pub scope: BudgetScope,
    pub table: bool,
}

// What making fixes: the sample rate in Hz, the samples of a block, how many voices may be tracked, which is stolen, and
// among which ones, and whether fades take their gains from the fade table.
#[derive(Clone, Copy)]
pub struct Config {
    pub rate: u32,
    pub block: usize,
    pub budget: Option<usize>,
    pub policy: StealPolicy,
    pub scope: BudgetScope,
    pub table: bool,
}
