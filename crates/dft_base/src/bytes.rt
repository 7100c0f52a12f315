ghost use Rattle.std.specs.Prelude.{◌≡◌};
ghost use Rattle.dft_base.specs.Bytes as spec;

/// Whether a byte is printed, and no blank: 33 to 126 (ASCII).
#[inline(always)]
pub fn is_printed(byte: u8) -> bool
    ensures { result ≡ spec.is_printed byte }
{
    33 <= byte && byte <= 126
}
