// Masks and shifts.
ghost use Rattle.std.specs.Prelude.{◌≡◌, ◌+◌, ◌-◌, ◌*◌, ◌/◌, ◌%◌, ◌^◌, ◌<◌, ◌≤◌};
ghost use Rattle.std.specs.Int.{bit_at};
ghost use Rattle.aml_regions.specs.Bits.{number};

/// The number whose lowest k bits are ones, and no others.
fn ones(k: u32) -> u64
    requires { k ≤ 64 }
    ensures { result ≡ 2 ^ k - 1 }
{
    if k == 64 { u64::MAX } else { (1 << k) - 1 }
}

/// The k bits of x from bit s on.
pub(crate) fn run(x: u64, s: u32, k: u32) -> u64
    requires s { s < 64 }
    requires k { k ≤ 64 }
    ensures { result ≡ number k (λ i. bit_at x (s + i)) }
{
    (x >> s) & ones(k)
}

/// One number above the m bits of another.
pub(crate) fn above(high: u64, m: u32, low: u64) -> u64
    requires m { m < 64 }
    requires low { low < 2 ^ m }
    requires fits { high * 2 ^ m < 2 ^ 64 }
    ensures { result ≡ high * 2 ^ m + low }
{
    low | (high << m)
}

/// A number with k other bits from bit s on.
pub(crate) fn replaced(old: u64, s: u32, k: u32, part: u64) -> u64
    requires s { s < 64 }
    requires k { s + k ≤ 64 }
    requires part { part < 2 ^ k }
    ensures { result + (old / 2 ^ s % 2 ^ k) * 2 ^ s ≡ old + part * 2 ^ s }
{
    (old & !(ones(k) << s)) | (part << s)
}

/// A byte with k other bits from bit s on.
pub(crate) fn byte_replaced(old: u8, s: u32, k: u32, part: u64) -> u8
    requires k { s + k ≤ 8 }
    requires part { part < 2 ^ k }
    ensures is { result + (old / 2 ^ s % 2 ^ k) * 2 ^ s ≡ old + part * 2 ^ s }
    ensures byte { old < 2 ^ 8 }
{
    replaced(old as u64, s, k, part) as u8
}
