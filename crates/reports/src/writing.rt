// The writer of reports.
ghost use Rattle.std.specs.Prelude.{◌≡◌, ◌+◌, ◌^◌, ◌<◌, ◌++◌, length};
ghost use Rattle.refusals.specs.Questions.{first_no, answer};
ghost use Rattle.refusals.specs.Outputs.{answered, written};
ghost use Rattle.reports.specs.Texts.{line_size, line_text};
ghost use Rattle.reports.specs.Reports.{told, short_lines, report_of, report_questions, report_answer, report_output, ReportDetermines};

use crate::pattern_line::PatternLine;
use crate::pieces::{put, put_counts};
use crate::report::Report;
use arrayvec::ArrayVec;
use codes::code::Code;
use patterns::shapes::{fits, unused_are_zero};
use refusals::Refusal;

// The lines of counts and words are shorter than this.
const MOST_SHORT: usize = 128;

// Asks both patterns for their length and for their unused bits.
fn ask<C: Code>(code: &C, report: Report<'_>) -> Result<(), Refusal>
    ensures { result ≡ answer (first_no (report_questions (told C.LETTER (C.layout code.now) report.entry))) }
{
    let qubits = code.qubits();
    if !fits(report.correction, qubits) || !fits(report.opened, qubits) {
        return Err(Refusal::WrongPatternLength);
    }
    if !unused_are_zero(report.correction, qubits) || !unused_are_zero(report.opened, qubits) {
        return Err(Refusal::UnusedBitSet);
    }
    Ok(())
}

// The lines `code`, `verdict` and `moves`.
fn short_lines<C: Code>(code: &C, report: Report<'_>) -> ArrayVec<u8, MOST_SHORT>
    ensures { result.items ≡ short_lines (told C.LETTER (C.layout code.now) report.entry) }
{
    let mut lines = ArrayVec::new();
    put("code ", &mut lines);
    lines.push(C::LETTER);
    put_counts(code.qubits(), code.checks(), code.generators(), &mut lines);
    put("verdict ", &mut lines);
    put(report.verdict.word(), &mut lines);
    put("\nmoves", &mut lines);
    put_counts(report.peels, report.prunes, report.flips, &mut lines);
    lines
}

// Writes the short lines and those of two patterns, for which `out` has just the room.
fn fill(short: &[u8], fix: PatternLine<'_>, opened: PatternLine<'_>, out: &mut [u8])
    requires { length out.old ≡ length short.now + (line_size fix + line_size opened) }
    ensures { out.new ≡ short.now ++ (line_text fix.entry ++ line_text opened.entry) }
{
    let (front, patterns) = out.split_at_mut(short.len());
    front.copy_from_slice(short);
    let (front, rest) = patterns.split_at_mut(fix.size());
    fix.write(front);
    opened.write(rest);
}

// Writes the report of patterns that were asked.
fn write_lines<C: Code>(code: &C, report: Report<'_>, out: &mut [u8]) -> Result<usize, Refusal>
    requires correction_len_bound { length report.correction.now < 2 ^ 32 }
    requires opened_len_bound { length report.opened.now < 2 ^ 32 }
    ensures value { result ≡ answered (report_of (told C.LETTER (C.layout code.now) report.entry)) out.old }
    ensures after { out.new ≡ written (report_of (told C.LETTER (C.layout code.now) report.entry)) out.old }
{
    let short = short_lines(code, report);
    let fix = PatternLine {
        word: "fix ",
        bytes: report.correction,
    };
    let opened = PatternLine {
        word: "open ",
        bytes: report.opened,
    };
    let size = short.len() + fix.size() + opened.size();
    if out.len() < size {
        return Err(Refusal::OutputTooShort);
    }
    fill(short.as_slice(), fix, opened, &mut out[..size]);
    Ok(size)
}

// Writes the five lines at the front of `out`; answers how many bytes it wrote. Two reports of the same bytes tell the same.
pub fn write_report<C: Code>(code: &C, report: Report<'_>, out: &mut [u8]) -> Result<usize, Refusal>
    ensures value { result ≡ report_answer (told C.LETTER (C.layout code.now) report.entry) out.old }
    ensures after { out.new ≡ report_output (told C.LETTER (C.layout code.now) report.entry) out.old }
    ensures reads_back { ReportDetermines }
{
    ask(code, report)?;
    write_lines(code, report, out)
}
