// Whether bytes are a pattern of so many items.
ghost use Rattle.std.specs.Prelude.{◌≡◌};
ghost use Rattle.patterns.specs.Patterns.{width, fitting, tidy, MembersMakeThePattern};

// The bytes that `count` items take.
pub fn width(count: u32) -> usize
    ensures { result ≡ width count }
{
    (count as usize).div_ceil(8)
}

// Whether there are just the bytes of `count` items.
#[tactic(auto, using(crate::proofs::Packed::well_pattern))]
pub fn fits(bits: &[u8], count: u32) -> bool
    ensures value { result ≡ fitting count bits.now }
    ensures members { MembersMakeThePattern }
{
    bits.len() == width(count)
}

// Whether the bits that follow the last of `count` items, in its byte, are zero.
#[tactic(auto, unfolding(crate::specs::Patterns::tidy))]
pub fn unused_are_zero(bits: &[u8], count: u32) -> bool
    ensures { result ≡ tidy count bits.now }
{
    bits.get((count / 8) as usize)
        .is_none_or(|last| *last >> (count % 8) == 0)
}
