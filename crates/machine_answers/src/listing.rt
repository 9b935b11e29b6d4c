//! Files and directories by their number in the order of the written names.
ghost use Rattle.std.specs.Prelude.{◌≡◌};
ghost use Rattle.std.specs.Option.{option_copied, option_map};
ghost use Rattle.machine_model.specs.Listing.{file_at, dir_at};

use crate::machine::Machine;
use machine_tree::nth_of_kind;

impl Machine {
    /// Returns the written name and the bytes of file `k`, counted from 0 in the order of the written names by bytes.
    pub fn file(&self, k: u64) -> Option<(&[u8], &[u8])>
        ensures { option_map (λ f. (f.0.now, f.1.now)) result ≡ file_at self.now.tree k }
    {
        match nth_of_kind(self.store.names.sorted(), true, k) {
            Some(pair) => Some((pair.0.written(), self.store.node_bytes(pair.1))),
            None => None,
        }
    }

    /// Returns the written name of directory `k`, counted from 0 in the order of the written names by bytes.
    pub fn dir(&self, k: u64) -> Option<&[u8]>
        ensures { option_map (λ d. d.now) result ≡ dir_at self.now.tree k }
    {
        match nth_of_kind(self.store.names.sorted(), false, k) {
            Some(pair) => Some(pair.0.written()),
            None => None,
        }
    }
}
