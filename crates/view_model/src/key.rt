//! The keys of a cache of blocks.
ghost use Rattle.std.specs.Prelude.{◌++◌};
ghost use Rattle.std.specs.Hash as fed;
ghost use Rattle.std.specs.Hash.{and-Alike, items_Alike, on_Alike, same_Alike};
ghost use Rattle.std.proofs.lemmas.Bool.Decides.{Decides-eqb};
ghost use Rattle.std.specs.Cmp.{partial_equiv_from_equiv};
ghost use Rattle.view_model.specs.Keys.{same_key, same_key_equiv};

use sftp_values::{ByteText, Items};
use std::hash::{Hash, Hasher};

/// A block of a file: the components of the file's name, and the number of the block, of which the first is 0. Two
/// paths that denote one file have the same keys.
///
/// Example: `crates/sftp_view/src/ops.rt`.
#[derive(Debug, Drop)]
pub struct BlockKey {
    pub name: Items<ByteText>,
    pub block: u64,
}

impl PartialEq for BlockKey {
    ghost eq = { same_key };

    ghost laws = { partial_equiv_from_equiv same_key_equiv };

    fn eq(&self, other: &BlockKey) -> bool {
        self.name == other.name && self.block == other.block
    }
}

impl Eq for BlockKey {
    ghost laws = { same_key_equiv };
}

impl Hash for BlockKey {
    ghost hash_input = { λ k. fed.slice (fed.slice fed.u8) k.name ++ fed.u64 k.block };

    ghost respects_eq = { (and-Alike (on_Alike (λ k. k.name) (items_Alike (items_Alike (same_Alike fed.u8 Decides-eqb))))
        (on_Alike (λ k. k.block) (same_Alike fed.u64 Decides-eqb))).fed };

    fn hash<H: Hasher>(&self, state: &mut H) {
        state.write_usize(self.name.as_slice().len());
        for part in self.name.as_slice() {
            part.as_slice().hash(state);
        }
        self.block.hash(state);
    }
}
