ghost use Rattle.isolation.specs.Isolated.{Isolated, IsolatedUpToIds};
ghost use Rattle.isolation.specs.Store.{StoreIsolated};

/// Under `PerGroup` two histories with one story for a bus give that bus the same: said of the ledger, of two histories that agree up to a
/// matching of ids, and of the store. Covered is every history that meets neither a full table nor the end of ids.
pub fn isolated()
    ensures ledger { Isolated }
    ensures ids { IsolatedUpToIds }
    ensures store { StoreIsolated }
{}
