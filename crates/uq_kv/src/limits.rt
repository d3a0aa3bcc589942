//! How long a key and data may be.
ghost use Rattle.std.specs.Prelude.{◌≡◌, ◌⊎◌, ◌≤◌, length, IfErr, OnOk};
ghost use Rattle.uq_kv.specs.Lengths.{key_checked, value_checked};

use crate::KvFault;

/// No key is longer: 1,024 bytes.
pub const MOST_KEY: usize = 1024;

/// No data are longer: 16,777,216 bytes (2^24).
pub const MOST_VALUE: usize = 16_777_216;

/// Refuses a key that has no byte, or too many.
pub(crate) fn check_key(key: &[u8]) -> Result<(), KvFault>
    ensures checked { result ≡ key_checked key.now }
    ensures faults { IfErr result (λ fault. (fault ≡ KvFault.EmptyKey) ⊎ (fault ≡ KvFault.KeyTooLong)) }
    ensures some { OnOk result (1 ≤ length key.now) }
    ensures fits { OnOk result (length key.now ≤ MOST_KEY) }
{
    if key.is_empty() {
        return Err(KvFault::EmptyKey);
    }
    if key.len() > MOST_KEY {
        return Err(KvFault::KeyTooLong);
    }
    Ok(())
}

/// Refuses data that have too many bytes.
pub(crate) fn check_value(value: &[u8]) -> Result<(), KvFault>
    ensures checked { result ≡ value_checked value.now }
    ensures faults { IfErr result (λ fault. fault ≡ KvFault.ValueTooLong) }
    ensures fits { OnOk result (length value.now ≤ MOST_VALUE) }
{
    if value.len() > MOST_VALUE {
        return Err(KvFault::ValueTooLong);
    }
    Ok(())
}
