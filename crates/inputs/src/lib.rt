// The input of a program.
#![tactic(auto)]

ghost use Rattle.std.specs.Prelude.{◌≡◌, take, IfSome, IfOk};

use std::alloc::Global;
use std::io;
use std::io::Read;

// What the reader gives, or of more the first `most` bytes.
pub fn read_up_to<R: Read + Drop>(heap: Global, reader: R, most: u64) -> io::Result<Vec<u8>>
    ensures { IfOk result (λ bytes. IfSome (R.remaining reader) (λ given. bytes.items ≡ take most given)) }
{
    let mut bytes = Vec::new(heap);
    reader.take(most).read_to_end(&mut bytes)?;
    Ok(bytes)
}

#[cfg(test)]
mod trials;
