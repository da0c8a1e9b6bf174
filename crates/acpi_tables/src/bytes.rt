// Sums of bytes.

ghost use Rattle.std.specs.Prelude.{◌≡◌, ◌%◌, sum};

/// The sum of the bytes modulo 256.
pub(crate) fn byte_sum(bytes: &[u8]) -> u8
    ensures { result ≡ sum bytes.now % 256 }
{
    let mut total = 0u8;
    for byte in bytes {
        total = total.wrapping_add(*byte);
    }
    total
}
