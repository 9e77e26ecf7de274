// One line of a script, and what is printed of it.
use crate::calls::{Call, Refused};
use crate::hexadecimal::bytes_of;
use crate::job::{Part, Table};
use anyhow::anyhow;
use std::alloc::Global;
use std::str::Split;

// The words of a line that are still to be read; a word that is not there is empty.
#[derive(Drop)]
struct Words<'a> {
    left: Split<'a, char>,
}

impl<'a> Words<'a> {
    fn word(&mut self) -> &'a str {
        self.left.next().unwrap_or("")
    }

    // The letter of a kind as a number; 0 where there is none.
    fn letter(&mut self) -> u32 {
        self.word().bytes().next().map_or(0, u32::from)
    }

    fn number(&mut self) -> anyhow::Result<u32> {
        Ok(self.word().parse::<u32>()?)
    }

    fn bytes(&mut self, heap: Global) -> anyhow::Result<Vec<u8>> {
        bytes_of(heap, self.word())
    }
}

// What a line does.
#[derive(Drop)]
enum Line {
    // Nothing: it is empty, or begins with #.
    Note,
    // What somebody else does.
    Set(Part),
    Open { syndrome: Vec<u8>, erasure: Vec<u8> },
    Call(Call),
}

impl Line {
    fn read(heap: Global, text: &str) -> anyhow::Result<Line> {
        if text.is_empty() || text.starts_with('#') {
            return Ok(Line::Note);
        }
        let mut words = Words {
            left: text.split(' '),
        };
        let part = match words.word() {
            "code" => Part::Code {
                kind: words.letter(),
                bytes: words.bytes(heap)?,
            },
            "remaining" => Part::Remaining(words.bytes(heap)?),
            "opened" => Part::Opened(words.bytes(heap)?),
            "correction" => Part::Correction(words.bytes(heap)?),
            "count" => Part::Moves(words.number()?),
            "open" => {
                return Ok(Line::Open {
                    syndrome: words.bytes(heap)?,
                    erasure: words.bytes(heap)?,
                });
            }
            name => return Ok(Line::Call(call_of(name, words)?)),
        };
        Ok(Line::Set(part))
    }
}

fn call_of(name: &str, mut words: Words<'_>) -> anyhow::Result<Call> {
    match name {
        "peel" => Ok(Call::Peel {
            check: words.number()?,
        }),
        "prune" => Ok(Call::Prune {
            generator: words.number()?,
            qubit: words.number()?,
        }),
        "flip" => Ok(Call::Flip {
            generator: words.number()?,
        }),
        "run" => Ok(Call::Run),
        "verdict" => Ok(Call::Verdict),
        _ => Err(anyhow!("no such line")),
    }
}

// Plays the line and prints it, with the answer and the job after it where it is a call or an opening.
pub(crate) fn play_line(rt: &HostRuntime, table: &mut Table, text: &str) -> anyhow::Result<()> {
    print!(rt; "{text}")?;
    let answer = match Line::read(rt.alloc(), text)? {
        Line::Note => None,
        Line::Set(part) => {
            table.set(part);
            None
        }
        Line::Open { syndrome, erasure } => {
            Some(table.open(syndrome.as_slice(), erasure.as_slice()))
        }
        Line::Call(call) => Some(table.call(call)),
    };
    match answer {
        None => println!(rt; "")?,
        Some(Ok(told)) => println!(rt; ": {told}\n  {table}")?,
        Some(Err(refused @ Refused::NoMemory)) => return Err(anyhow::Error::from(refused)),
        Some(Err(refused)) => println!(rt; ": {refused}\n  {table}")?,
    }
    Ok(())
}
