//! Laws of the definitions. The functions do nothing: what they ensure holds for all values.
ghost use Rattle.std.specs.Prelude.{◌≡◌, ◌≢◌, ℕ, ◌<◌, ◌^◌, Bool};
ghost use Rattle.std.specs.Int.RustNames.{bit_and};
ghost use Rattle.sftp_model.specs.Readings.{permission_bits, has_bit};
ghost use Rattle.sftp_meta.specs.Permissions.{with_bit, is_readonly, with_readonly};

/// A setter's bit reads back as it was set, and each other bit is unchanged. The twelve permissions are the bits `2 ^
/// 0` to `2 ^ 11`.
pub fn permissions_by_bit()
    ensures reads_back { (bits k : ℕ) (value : Bool) → k < 12 → has_bit (with_bit bits (2 ^ k) value) (2 ^ k) ≡ value }
    ensures others_stay { (bits j k : ℕ) (value : Bool) → j < 12 → k < 12 → j ≢ k
        → has_bit (with_bit bits (2 ^ k) value) (2 ^ j) ≡ has_bit bits (2 ^ j) }
{}

/// The permissions of an `st_mode` are its low twelve bits and no more.
pub fn permissions_of_modes()
    ensures low_bits_alone { (mode : ℕ) → permission_bits (bit_and mode 0o7777) ≡ permission_bits mode }
    ensures within { (mode : ℕ) → permission_bits mode < 0o10000 }
    ensures each_bit { (mode k : ℕ) → k < 12 → has_bit (permission_bits mode) (2 ^ k) ≡ has_bit mode (2 ^ k) }
{}

/// `readonly` returns the value that `set_readonly` was passed, and the bits other than the three of writing are
/// unchanged.
pub fn readonly_by_bits()
    ensures reads_back { (bits : ℕ) (readonly : Bool) → is_readonly (with_readonly bits readonly) ≡ readonly }
    ensures others_stay { (bits k : ℕ) (readonly : Bool) → k < 12 → k ≢ 7 → k ≢ 4 → k ≢ 1
        → has_bit (with_readonly bits readonly) (2 ^ k) ≡ has_bit bits (2 ^ k) }
{}
