use node::refusal::Refusal;

// What became of a value or a glide: applied, or the first that is true of the rest. One enum and no Result: the model and the ledger
// have the four by these names, and the list that a render writes has all four as numbers.
#[derive(Clone, Copy)]
pub enum Outcome {
    Applied = 0,
    NoVoice = 1,
    NoParameter = 2,
    NotTaken = 3,
}

// What a render answers: sounding, silent, silent after a prepare that failed, or refused. One enum and no Result: the model and the ledger have
// the four by these names.
#[derive(Clone, Copy)]
pub enum Rendered {
    Sounding,
    Silent,
    Unprepared(Refusal),
    Refused(Refusal),
}
