ghost use Rattle.std.specs.Prelude.{◌≡◌, List, Some};
ghost use Rattle.model.specs.Call.{Call};
ghost use Rattle.model.specs.Make.{Making, make};
ghost use Rattle.model.specs.Model.{Model};
ghost use Rattle.replaced.specs.Replaced.{Replaced};

/// A queue that replaces leaves the store as one that keeps all, but for its pending events; and each call answers the same.
pub fn replaced_same()
    ensures { (k : Making) (m : Model) → make k ≡ Some m → (xs : List Call) → Replaced m xs }
{}
