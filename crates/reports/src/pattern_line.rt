// The line of a pattern.
ghost use Rattle.std.specs.Prelude.{◌≡◌, ◌^◌, ◌<◌, length};

use patterns::hex::write_hex;

// A line of a word, which ends with a space, and the bytes of a pattern.
#[derive(Clone, Copy)]
pub(crate) struct PatternLine<'a> {
    pub(crate) word: &'a str,
    pub(crate) bytes: &'a [u8],
    ghost short_word: { length word.now < 2 ^ 32 },
    ghost few_bytes: { length bytes.now < 2 ^ 32 },
}

impl<'a> PatternLine<'a> {
    ghost use Rattle.reports.specs.Texts.{line_size, line_text};

    // How many bytes the line has.
    pub(crate) fn size(self) -> usize
        ensures { result ≡ line_size self.entry }
    {
        self.word.len() + (2 * self.bytes.len() + 1)
    }

    // Writes the line, for which `out` has just the room.
    pub(crate) fn write(self, out: &mut [u8])
        requires { length out.old ≡ line_size self }
        ensures { out.new ≡ line_text self.entry }
    {
        let (start, rest) = out.split_at_mut(self.word.len());
        start.copy_from_slice(self.word.as_bytes());
        let (digits, end) = rest.split_at_mut(2 * self.bytes.len());
        let _ = write_hex(self.bytes, digits);
        end.copy_from_slice(b"\n");
    }
}
