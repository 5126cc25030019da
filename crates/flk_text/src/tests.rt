use crate::{
    Billionths, DecimalValue, Ends, Fields, Lines, NumFault, decimal, field, field_count, is_tail,
    push_decimal, whole,
};
use std::test::Fail;

#[test]
fn reads_decimals(rt: HostRuntime) {
    for (text, n) in [
        (
            b"1.220703125E-02".as_slice(),
            12_207_031_250_000_000_000_000,
        ),
        (b"1.23456789012345678", 1_234_567_890_123_456_780_000_000),
        (b"-32767", -32_767_000_000_000_000_000_000_000_000),
        (b"+.5", 500_000_000_000_000_000_000_000),
        (b"50.00", 50_000_000_000_000_000_000_000_000),
        (b"1e-24", 1),
        (b"-0.0E-999", 0),
        (b"1e+12", 1_000_000_000_000_000_000_000_000_000_000_000_000),
    ] {
        assert_eq!(rt; decimal(text), Ok(DecimalValue { n }));
    }
    for text in [
        b"1.234567890123456789".as_slice(),
        b"1e-25",
        b"10.1e-24",
        b"1000000000000.1",
        b"1e13",
    ] {
        assert_eq!(rt; decimal(text), Err(NumFault::Range));
    }
    for text in [
        b"".as_slice(),
        b".",
        b"-",
        b"1.2.3",
        b"1e",
        b"1e1000",
        b"e5",
        b" 1",
        b"0x1",
        b"1e99999",
    ] {
        assert_eq!(rt; decimal(text), Err(NumFault::Syntax));
    }
}

#[test]
fn reads_many_zeros(rt: HostRuntime) -> Result<(), Fail> {
    let mut text = Vec::from_slice(rt.alloc(), b"1")?;
    for _ in 0..1000 {
        text.push(b'0')?;
    }
    assert_eq!(rt; decimal(&text), Err(NumFault::Range));
    text.extend_from_slice(b"E-999")?;
    assert_eq!(rt;
        decimal(&text),
        Ok(DecimalValue {
            n: 10_000_000_000_000_000_000_000_000
        })
    );
    Ok(())
}

#[test]
fn reads_whole_numbers(rt: HostRuntime) {
    assert_eq!(rt; whole(b"4294967295"), Ok(4_294_967_295));
    assert_eq!(rt; whole(b"-1000000000000"), Ok(-1_000_000_000_000));
    assert_eq!(rt; whole(b"+007"), Ok(7));
    assert_eq!(rt; whole(b"1000000000001"), Err(NumFault::Range));
    assert_eq!(rt; whole(b"99999999999999999999"), Err(NumFault::Range));
    assert_eq!(rt; whole(b"1.0"), Err(NumFault::Syntax));
    assert_eq!(rt; whole(b"-"), Err(NumFault::Syntax));
}

#[test]
fn writes_decimals(rt: HostRuntime) -> Result<(), Fail> {
    for (n, text) in [
        (12_207_031_250_000_000_000_000, b"x0.01220703125".as_slice()),
        (0, b"x0"),
        (-32_767_000_000_000_000_000_000_000_000, b"x-32767"),
        (-1, b"x-0.000000000000000000000001"),
        (1_500_000_000_000_000_000_000_000, b"x1.5"),
        (
            1_000_000_000_000_000_000_000_000_000_000_000_000,
            b"x1000000000000",
        ),
    ] {
        let mut out = Vec::from_slice(rt.alloc(), b"x")?;
        push_decimal(&mut out, DecimalValue { n })?;
        assert_eq!(rt; out.as_slice(), text);
    }
    Ok(())
}

#[test]
fn takes_lines(rt: HostRuntime) {
    let mut lines = Lines::new(b"one\r\n\ntwo\r\r\nthree\r");
    assert_eq!(rt; lines.next_line(), Some(b"one".as_slice()));
    assert_eq!(rt; lines.next_line(), Some(b"".as_slice()));
    assert_eq!(rt; lines.next_line(), Some(b"two\r".as_slice()));
    assert_eq!(rt; lines.next_line(), Some(b"three".as_slice()));
    assert_eq!(rt; lines.next_line(), None);
    assert_eq!(rt; lines.last_line(), None);
}

#[test]
fn takes_the_last_line_and_its_tail(rt: HostRuntime) {
    for (bytes, line, tail) in [
        (b"1\r\n\x1a".as_slice(), b"1".as_slice(), b"\x1a".as_slice()),
        (b"1\r\x1a\r\n", b"1", b"\x1a\r\n"),
        (b"1", b"1", b""),
        (b"1\r", b"1", b""),
        (b"1\n\n", b"1", b"\n"),
        (b"\x1a", b"", b"\x1a"),
    ] {
        let mut lines = Lines::new(bytes);
        assert_eq!(rt; lines.last_line(), Some(line));
        assert_eq!(rt; lines.rest(), tail);
        assert!(rt; is_tail(tail));
    }
    assert!(rt; !is_tail(b"\x1a\r\n\x1a"));
    assert!(rt; !is_tail(b" \t"));
}

#[test]
fn cuts_fields(rt: HostRuntime) {
    let line = b" 1, U L1 ,A,,  ";
    assert_eq!(rt; field_count(line), 5);
    assert_eq!(rt; field(line, 0), None);
    assert_eq!(rt; field(line, 1), Some(b"1".as_slice()));
    assert_eq!(rt; field(line, 2), Some(b"U L1".as_slice()));
    assert_eq!(rt; field(line, 4), Some(b"".as_slice()));
    assert_eq!(rt; field(line, 5), Some(b"".as_slice()));
    assert_eq!(rt; field(line, 6), None);
    assert_eq!(rt; field_count(b""), 1);
    assert_eq!(rt; field(b"", 1), Some(b"".as_slice()));
}

#[test]
fn takes_whole_numbers(rt: HostRuntime) {
    for (line, number) in [
        (b"7,8,x".as_slice(), Some(7)),
        (b"-22401,22536", Some(-22_401)),
        (b"+5", Some(5)),
        (b"0", Some(0)),
        (b"-0,", Some(0)),
        (b"007,,9", Some(7)),
        (b"12345678901,1", Some(12_345_678_901)),
        (b"-999999999999", Some(-999_999_999_999)),
        (b"000000000000000000042,1", Some(42)),
        (b"1000000000000,2", None),
        (b"18446744073709551617", None),
        (b" 7,8", None),
        (b"7 ,8", None),
        (b"- 7", None),
        (b"7\r", None),
        (b"", None),
        (b",7", None),
        (b"-,7", None),
        (b"+", None),
        (b"+-7", None),
        (b"7-", None),
        (b"1.0,7", None),
        (b"1:,7", None),
        (b"1/,7", None),
        (b"x,7", None),
    ] {
        let mut fields = Fields::new(line);
        let mut plain = Fields::new(line);
        assert_eq!(rt; fields.next_whole(), number);
        if let Some(value) = number {
            assert_eq!(rt; plain.next_field().map(whole), Some(Ok(value)));
        }
        for _ in 0..4 {
            assert_eq!(rt; fields.next_field(), plain.next_field());
        }
        assert_eq!(rt; fields.next_whole(), None);
    }
}

#[test]
fn prints_billionths(rt: HostRuntime) -> Result<(), Fail> {
    for (value, text) in [
        (0, "0.000000000"),
        (4, "0.000000004"),
        (33_000_000, "0.033000000"),
        (1_000_000_000, "1.000000000"),
        (12_345_678_900_000_000_001, "12345678900.000000001"),
    ] {
        assert_eq!(rt;
            format!(in rt.alloc(); "{}", Billionths(value))?.as_str(),
            text
        );
    }
    let ends = Ends(999_999_999, 1_000_000_001);
    assert_eq!(rt;
        format!(in rt.alloc(); "{ends}")?.as_str(),
        "0.999999999 to 1.000000001"
    );
    Ok(())
}
