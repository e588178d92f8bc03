// Places of files. They exist in proofs only, and allocate nothing.
//
// No contract can say which files cannot be read, but one can say at which places a reading failed.
// What a contract sees of an archive is a function of what the archive holds, and it holds no list
// of these places. So they are data of a ghost field. The prover takes such a field only in a type
// with `also_owns`, and each function that sets it has a proof by hand: hence a type with that
// field and nothing else, which two functions make.

ghost use Rattle.std.specs.Prelude.{◌≡◌, ℕ, List, [], ◌∷◌, ◌++◌};
ghost use Rattle.std.specs.Borrow.{ftrue};

use std::marker::Model;

// The places of files, in the order in which they were noted.
#[derive(Drop)]
pub(crate) struct Places {
    ghost places: { List ℕ },
}

impl Model for Places {
    ghost also_owns = { λ _. ftrue };
}

impl Places {
    // No places.
    pub(crate) fn new() -> Places
        ensures { result.places ≡ [] }
    {
        Places {}
    }

    // These places, and one more.
    pub(crate) fn with(&self, _at: usize) -> Places
        ensures { result.places ≡ self.now.places ++ _at ∷ [] }
    {
        Places {}
    }
}
