// The number and the words of every refusal, as docs/REFUSALS.md tells them. The words are in no contract, since a derive writes them.
use refusals::Refusal;
use std::fmt::InlineText;
use std::test::Fail;

#[test]
fn every_refusal_has_its_number_and_words(rt: HostRuntime) -> Result<(), Fail> {
    let cases: [(Refusal, u8, &str); 18] = [
        (Refusal::OutOfMemory, 0, "there is no memory left"),
        (Refusal::HeadCutShort, 1, "the head is cut short"),
        (Refusal::WrongMark, 2, "the mark is wrong"),
        (Refusal::WrongVersion, 3, "the version is not 1"),
        (Refusal::CountOutOfRange, 4, "a count is out of its range"),
        (
            Refusal::WrongLength,
            5,
            "the length is not what the counts require",
        ),
        (Refusal::UnusedBitSet, 6, "an unused bit is set"),
        (
            Refusal::DegreeOutOfRange,
            7,
            "a degree or a weight is out of its range",
        ),
        (
            Refusal::ShiftsNotRising,
            8,
            "the shifts do not rise strictly below the count",
        ),
        (
            Refusal::OddOverlap,
            9,
            "a check and a generator share an odd number of qubits",
        ),
        (Refusal::UnknownSide, 10, "the side is neither 0 nor 1"),
        (
            Refusal::WrongPatternLength,
            11,
            "a handed pattern has not its length",
        ),
        (
            Refusal::NumberOutOfRange,
            12,
            "a number is not below its count",
        ),
        (Refusal::NotDangling, 13, "the check is not dangling"),
        (
            Refusal::NotInGenerator,
            14,
            "the qubit is not in the generator",
        ),
        (
            Refusal::NotAllOpen,
            15,
            "a qubit of the generator is not open",
        ),
        (Refusal::NoSetLowers, 16, "no set lowers the weight"),
        (Refusal::OutputTooShort, 17, "the output is too short"),
    ];
    for (refusal, number, words) in cases {
        assert_eq!(rt; refusal.number(), number, "{words}");
        let said: InlineText<64> = InlineText::of(refusal);
        assert_eq!(rt; said.as_str(), words, "refusal {number}");
    }
    Ok(())
}
