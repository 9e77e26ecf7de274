// The weight of a pattern.
ghost use Rattle.std.specs.Prelude.{◌≡◌};
ghost use Rattle.patterns.specs.Patterns.{weight};

// The number of ones of all bytes. Eight for each byte that memory can hold are more than a u64 counts.
pub fn weight(bits: &[u8]) -> u128
    ensures { result ≡ weight bits.now }
{
    let mut sum = 0;
    for b in bits {
        sum += u128::from(b.count_ones());
    }
    sum
}
