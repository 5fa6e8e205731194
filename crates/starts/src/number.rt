// The numbers that specifiers write.
ghost use Rattle.std.specs.Prelude.{◌≡◌};
ghost use Rattle.starts.specs.Numbers.{small};

/// The number that digits write, or `None` above 255.
pub fn small_number(digits: &[u8]) -> Option<u8>
    ensures { result ≡ small digits.now }
{
    let mut n: u8 = 0;
    for byte in digits {
        n = n.checked_mul(10)?.checked_add(byte.saturating_sub(b'0'))?;
    }
    Some(n)
}
