// Bytes in hexadecimal.
ghost use Rattle.std.specs.Prelude.{◌≡◌, ◌<◌};
ghost use Rattle.refusals.specs.Outputs.{answered, written};
ghost use Rattle.patterns.specs.Hex.{hex_digit, hexed};

use refusals::Refusal;

// The capital digit. The kit's `hex` spells in small letters where it writes into a slice.
fn digit(v: u8) -> u8
    requires { v < 16 }
    ensures { result ≡ hex_digit v }
{
    if v < 10 { b'0' + v } else { b'A' + (v - 10) }
}

// Writes two capital digits for each byte at the front of `out`; answers how many bytes it wrote.
#[tactic(auto, using(crate::proofs::Hexing::digits))]
pub fn write_hex(bytes: &[u8], out: &mut [u8]) -> Result<usize, Refusal>
    ensures value { result ≡ answered (hexed bytes.now) out.old }
    ensures after { out.new ≡ written (hexed bytes.now) out.old }
{
    if bytes.len() > out.len() / 2 {
        return Err(Refusal::OutputTooShort);
    }
    // No `chunks_exact_mut`: a proof knows nothing of what a loop over it leaves in a slice.
    for (i, b) in bytes.iter().enumerate() {
        out[2 * i] = digit(*b / 16);
        out[2 * i + 1] = digit(*b % 16);
    }
    Ok(2 * bytes.len())
}
