// The code and the job that a script works on.
use crate::calls::{Call, Refused, Told, accepted};
use crate::hexadecimal::Hex;
use foreign::numbers::Asked;
use foreign::{kotremwa_call, kotremwa_open};
use std::alloc::Global;
use std::fmt;

// A code by its kind and bytes, and a job by its three patterns and its count of moves.
// The kind is a number, 0 where a script names none: that is what the calls are handed, and they ask whether it is one.
#[derive(Drop)]
pub(crate) struct Table {
    heap: Global,
    kind: u32,
    code: Vec<u8>,
    remaining: Vec<u8>,
    opened: Vec<u8>,
    correction: Vec<u8>,
    moves: u32,
}

// One of these, as somebody else writes it.
#[derive(Drop)]
pub(crate) enum Part {
    Code { kind: u32, bytes: Vec<u8> },
    Remaining(Vec<u8>),
    Opened(Vec<u8>),
    Correction(Vec<u8>),
    Moves(u32),
}

impl Table {
    pub(crate) fn empty(heap: Global) -> Table {
        Table {
            heap,
            kind: 0,
            code: Vec::new(heap),
            remaining: Vec::new(heap),
            opened: Vec::new(heap),
            correction: Vec::new(heap),
            moves: 0,
        }
    }

    pub(crate) fn set(&mut self, part: Part) {
        match part {
            Part::Code { kind, bytes } => {
                self.kind = kind;
                self.code = bytes;
            }
            Part::Remaining(bytes) => self.remaining = bytes,
            Part::Opened(bytes) => self.opened = bytes,
            Part::Correction(bytes) => self.correction = bytes,
            Part::Moves(count) => self.moves = count,
        }
    }

    pub(crate) fn call(&mut self, call: Call) -> Result<Told, Refused> {
        let numbers = kotremwa_call(
            self.heap,
            self.kind,
            self.code.as_slice(),
            &Asked::from(call),
            self.remaining.as_mut_slice(),
            self.opened.as_mut_slice(),
            self.correction.as_mut_slice(),
            &mut self.moves,
        );
        Ok(call.told(accepted(numbers)?))
    }

    pub(crate) fn open(&mut self, syndrome: &[u8], erasure: &[u8]) -> Result<Told, Refused> {
        let numbers = kotremwa_open(
            self.heap,
            self.kind,
            self.code.as_slice(),
            syndrome,
            erasure,
            self.remaining.as_mut_slice(),
            self.opened.as_mut_slice(),
            self.correction.as_mut_slice(),
            &mut self.moves,
        );
        accepted(numbers)?;
        Ok(Told::Accepted)
    }
}

// The remaining syndrome, the open set, the correction and the count of moves.
impl fmt::Display for Table {
    fn fmt<W: fmt::Write>(&self, f: &mut fmt::Formatter<W>) -> fmt::Result {
        let remaining = Hex(self.remaining.as_slice());
        let opened = Hex(self.opened.as_slice());
        let correction = Hex(self.correction.as_slice());
        let moves = self.moves;
        write!(f, "{remaining} {opened} {correction} {moves}")
    }
}
