// One item of a pattern. An item past the last byte is in no pattern, and a call that would change it changes nothing.
ghost use Rattle.std.specs.Prelude.{◌≡◌, ℕ, ◌/◌, ◌%◌, ◌^◌, ◌<◌, ◌≤◌, length, slice_index, slice_set};
ghost use Rattle.patterns.specs.Patterns.{member, placed, toggled, cleared};

// Whether item k is in the pattern.
#[tactic(auto, using(crate::proofs::Bits::and_bit, crate::proofs::Packed::member_out), unfolding(crate::specs::Patterns::member))]
pub fn contains(bits: &[u8], k: u32) -> bool
    ensures { result ≡ member bits.now k }
{
    bits.get((k / 8) as usize)
        .is_some_and(|byte| *byte & (1 << (k % 8)) != 0)
}

// Gives the byte of item k and the item's bit to the closure, and puts what it answers in the byte's place; answers whether the item has a place.
fn change<F: Fn(u8, u8) -> u8>(bits: &mut [u8], k: u32, changed: F) -> bool
    requires { F.IsAlwaysCallable changed }
    ensures value { result ≡ placed bits.old k }
    ensures inside { k / 8 < length bits.old → (v : ℕ) × F.post changed (slice_index bits.old (k / 8)) (2 ^ (k % 8)) v × (bits.new ≡ slice_set bits.old (k / 8) v) }
    ensures byte { k / 8 < length bits.old → slice_index bits.old (k / 8) < 256 }
    ensures past { length bits.old ≤ k / 8 → bits.new ≡ bits.old }
{
    // No `get_mut`: a proof knows nothing of what a write through it leaves in a slice.
    let at = (k / 8) as usize;
    if at >= bits.len() {
        return false;
    }
    bits[at] = changed(bits[at], 1 << (k % 8));
    true
}

// Puts item k in where it is out, and takes it out where it is in; answers whether it has a place.
#[tactic(auto, using(crate::proofs::Toggled::toggled_past), unfolding(crate::specs::Patterns::toggled))]
pub fn toggle(bits: &mut [u8], k: u32) -> bool
    ensures value { result ≡ placed bits.old k }
    ensures after { bits.new ≡ toggled bits.old k }
{
    change(bits, k, |byte, bit| byte ^ bit)
}

// Takes item k out, if it is in; answers whether it has a place.
#[tactic(auto, using(crate::proofs::Toggled::cleared_is, crate::proofs::Packed::member_out))]
pub fn clear(bits: &mut [u8], k: u32) -> bool
    ensures value { result ≡ placed bits.old k }
    ensures after { bits.new ≡ cleared bits.old k }
{
    change(bits, k, |byte, bit| byte & !bit)
}
