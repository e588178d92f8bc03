// The text of a position block. It exists in proofs only, and allocates nothing.
//
// What a contract sees of the reader of a summary is a function of what the reader holds, and it
// holds none of this text. So the text is data of a ghost field. The prover takes such a field only
// in a type with `also_owns`, and each function that sets it has a proof by hand: hence a type with
// that field and nothing else, which two functions make.

ghost use Rattle.std.specs.Prelude.{◌≡◌, ℕ, List, [], ◌++◌};
ghost use Rattle.std.specs.Borrow.{ftrue};
ghost use Rattle.session_lines.specs.Texts.{ended_line};

use std::marker::Model;

// The lines of a block, each followed by LF.
#[derive(Drop)]
pub(crate) struct BlockText {
    ghost bytes: { List ℕ },
}

impl Model for BlockText {
    ghost also_owns = { λ _. ftrue };
}

impl BlockText {
    // The text of no lines.
    pub(crate) fn new() -> BlockText
        ensures { result.bytes ≡ [] }
    {
        BlockText {}
    }

    // This text with one more line.
    pub(crate) fn with(&self, _line: &[u8]) -> BlockText
        ensures { result.bytes ≡ self.now.bytes ++ ended_line _line.now }
    {
        BlockText {}
    }
}
