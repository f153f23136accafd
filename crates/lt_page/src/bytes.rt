//! Whether bytes are zeros.

ghost use Rattle.std.specs.Prelude.{◌≡◌};
ghost use Rattle.lt_terms.specs.Bytes.{all_zero};

/// Whether all bytes are 0.
pub fn all_zero(bytes: &[u8]) -> bool
    ensures { result ≡ all_zero bytes.now }
{
    // It looks at every byte: with no early end the compiler tests many of them at once.
    bytes.iter().fold(0, |seen, byte| seen | *byte) == 0
}
