ghost use Rattle.piecrag_c_seal.specs.Closed.{SpawnClosed, WishClosed};

/// A spawn or a wish from a book is answered by 28 exactly where the seal does not leave it open, whatever else it could be refused for.
pub fn closed_first()
    ensures spawn { SpawnClosed }
    ensures wish { WishClosed }
{}
