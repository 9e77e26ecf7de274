// Patterns: item k stands in byte k / 8, at the bit of value 2^(k % 8).
use patterns::hex::write_hex;
use patterns::items::{clear, contains, toggle};
use patterns::shapes::{fits, unused_are_zero};
use patterns::weights::weight;
use std::test::Fail;

#[test]
fn items_stand_in_their_bits(rt: HostRuntime) {
    // 0xA5 is 128 + 32 + 4 + 1; the items from 16 on have no byte.
    let inside = [0, 2, 5, 7, 8];
    let outside = [1, 3, 4, 6, 9, 15, 16, 17, u32::MAX];
    for k in inside {
        assert!(rt; contains(b"\xA5\x01", k), "{k}");
    }
    for k in outside {
        assert!(rt; !contains(b"\xA5\x01", k), "{k}");
    }
}

#[test]
fn items_change_alone(rt: HostRuntime) {
    // The pattern, the item, the pattern with it changed, the pattern without it, and whether it has a place.
    let cases = [
        (b"\x00\x00", 0, b"\x01\x00", b"\x00\x00", true),
        (b"\x01\x00", 0, b"\x00\x00", b"\x00\x00", true),
        (b"\x12\x34", 9, b"\x12\x36", b"\x12\x34", true),
        (b"\xFF\xFF", 15, b"\xFF\x7F", b"\xFF\x7F", true),
        (b"\x12\x34", 16, b"\x12\x34", b"\x12\x34", false),
        (b"\xFF\xFF", u32::MAX, b"\xFF\xFF", b"\xFF\xFF", false),
    ];
    for (before, k, changed, without, has_place) in cases {
        let mut bits = *before;
        assert_eq!(rt; toggle(&mut bits, k), has_place, "{k}");
        assert_eq!(rt; bits, *changed, "{k}");
        bits = *before;
        assert_eq!(rt; clear(&mut bits, k), has_place, "{k}");
        assert_eq!(rt; bits, *without, "{k}");
    }
}

#[test]
fn shapes_and_weights_are_told(rt: HostRuntime) {
    // The bytes, their ones, so many items, whether the bytes are just theirs, and whether the unused bits are zero.
    let cases: [(&[u8], u128, u32, bool, bool); 12] = [
        (b"", 0, 0, true, true),
        (b"\x00", 0, 0, false, true),
        (b"\x07", 3, 3, true, true),
        (b"\x08", 1, 3, true, false),
        (b"\x80", 1, 7, true, false),
        (b"\xFF", 8, 8, true, true),
        (b"\xFF", 8, 9, false, true),
        (b"\xFF\x00", 8, 8, false, true),
        (b"\xFF\x01", 9, 9, true, true),
        (b"\xFF\x02", 9, 9, true, false),
        (b"\xFF\xFF", 16, 16, true, true),
        (b"\x01\x03\xFF", 11, 24, true, true),
    ];
    for (i, (bits, ones, items, just, tidy)) in cases.iter().enumerate() {
        assert_eq!(rt; weight(*bits), *ones, "case {i}");
        assert_eq!(rt; fits(*bits, *items), *just, "case {i}");
        assert_eq!(rt; unused_are_zero(*bits, *items), *tidy, "case {i}");
    }
}

#[test]
fn hex_is_written_at_the_front(rt: HostRuntime) -> Result<(), Fail> {
    let mut longer = *b"......";
    assert_eq!(rt; write_hex(b"\xA5\x0F", &mut longer).ok(), Some(4));
    assert_eq!(rt; longer, *b"A50F..");
    let mut exact = *b"......";
    assert_eq!(rt; write_hex(b"\x00\x9F\xFA", &mut exact).ok(), Some(6));
    assert_eq!(rt; exact, *b"009FFA");
    let mut short = *b"...";
    let refusal = write_hex(b"\xA5\x0F", &mut short)
        .err()
        .ok_or("not refused")?;
    assert_eq!(rt; refusal.number(), 17);
    assert_eq!(rt; short, *b"...");
    Ok(())
}
