use atto::{
    Nano, NsText, NumFault, Rate, delay_units, read_decimal, read_ns, span_least, span_most,
    write_decimal, write_ns,
};
use std::test::Fail;

const NO_NUMBER: Result<i128, NumFault> = Err(NumFault::Spelling);

const TOO_LARGE: Result<i128, NumFault> = Err(NumFault::Range);

// Whether a text is read so, and whether what was read is written as the same text.
fn is_spelled(text: &[u8], want: Result<i128, NumFault>) -> bool {
    match (read_ns(text), want) {
        (Ok(units), Ok(v)) => units.get() == v && is_written(v, text),
        (Err(fault), Err(wanted)) => fault == wanted,
        _ => false,
    }
}

fn is_written(v: i128, text: &[u8]) -> bool {
    let mut out = NsText::new();
    write_ns(v, &mut out);
    out.as_slice() == text
}

// The texts of units, with the values worked by hand: 2^120 is 1329227995784915872903807060280344576.
#[test]
fn units_are_spelled(rt: HostRuntime) -> Result<(), Fail> {
    for (text, want) in [
        ("0.000000000", Ok(0)),
        ("-0.000000001", Ok(-1)),
        ("0.999999999", Ok(999_999_999)),
        ("1.000000000", Ok(1_000_000_000)),
        ("-10.000000020", Ok(-10_000_000_020)),
        ("1329227995784915872903807060.280344576", Ok(1 << 120)),
        ("-1329227995784915872903807060.280344576", Ok(-(1 << 120))),
        ("1329227995784915872903807060.280344577", TOO_LARGE),
        ("-1329227995784915872903807060.280344577", TOO_LARGE),
        (
            "99999999999999999999999999999999999999.000000000",
            TOO_LARGE,
        ),
        (
            "999999999999999999999999999999999999999999999999",
            NO_NUMBER,
        ),
        ("-0.000000000", NO_NUMBER),
        ("+1.000000000", NO_NUMBER),
        ("--1.000000000", NO_NUMBER),
        ("01.000000000", NO_NUMBER),
        ("-01.000000000", NO_NUMBER),
        (" 1.000000000", NO_NUMBER),
        ("1.000000000 ", NO_NUMBER),
        ("1.0", NO_NUMBER),
        ("1.0000000000", NO_NUMBER),
        ("1.00000000a", NO_NUMBER),
        ("1,000000000", NO_NUMBER),
        ("1.", NO_NUMBER),
        ("1", NO_NUMBER),
        (".000000000", NO_NUMBER),
        ("-.000000001", NO_NUMBER),
        ("-", NO_NUMBER),
        ("", NO_NUMBER),
    ] {
        assert!(rt; is_spelled(text.as_bytes(), want), "at {text}");
    }
    assert!(rt; is_written(i128::MIN, b"-170141183460469231731687303715.884105728"));
    Ok(())
}

fn is_decimal(text: &[u8], want: Result<u64, NumFault>) -> bool {
    match (read_decimal(text), want) {
        (Ok(n), Ok(v)) => {
            let mut out = NsText::new();
            write_decimal(n, &mut out);
            n == v && out.as_slice() == text
        }
        (Err(fault), Err(wanted)) => fault == wanted,
        _ => false,
    }
}

// Decimals: 2^64 is 18446744073709551616.
#[test]
fn decimals_are_spelled(rt: HostRuntime) -> Result<(), Fail> {
    for (text, want) in [
        ("0", Ok(0)),
        ("10", Ok(10)),
        ("18446744073709551615", Ok(u64::MAX)),
        ("18446744073709551616", Err(NumFault::Range)),
        (
            "340282366920938463463374607431768211456",
            Err(NumFault::Range),
        ),
        ("00", Err(NumFault::Spelling)),
        ("01", Err(NumFault::Spelling)),
        ("+1", Err(NumFault::Spelling)),
        ("-0", Err(NumFault::Spelling)),
        ("1 ", Err(NumFault::Spelling)),
        ("0x1", Err(NumFault::Spelling)),
        ("", Err(NumFault::Spelling)),
    ] {
        assert!(rt; is_decimal(text.as_bytes(), want), "at {text}");
    }
    Ok(())
}

fn spans(short: u32, long: u32, s: u64, t: u64) -> Option<(i128, i128)> {
    if s > t {
        return None;
    }
    let rate = Rate::new(short, long)?;
    let (s, t) = (Nano::new(s)?, Nano::new(t)?);
    Some((span_least(rate, s, t), span_most(rate, s, t)))
}

// The bounds on spans in units of 1e-9 ns, worked by hand: 2^62 - 1 is 4611686018427387903.
#[test]
fn spans_are_exact(rt: HostRuntime) -> Result<(), Fail> {
    let end = (1 << 62) - 1;
    for (short, long, s, t, least, most) in [
        (0, 0, 0, 0, 0, 0),
        (0, 0, 5, 7, 2_000_000_000, 2_000_000_000),
        (1, 0, 0, 3, 2_999_999_997, 3_000_000_000),
        (0, 1, 0, 3, 3_000_000_000, 3_000_000_003),
        (
            20_000,
            30_000,
            1_000,
            2_001,
            1_000_979_980_000,
            1_001_030_030_000,
        ),
        (999_999_999, 1_000_000_000, end, end, 0, 0),
        (
            999_999_999,
            1_000_000_000,
            0,
            end,
            4_611_686_018_427_387_903,
            9_223_372_036_854_775_806_000_000_000,
        ),
    ] {
        assert!(rt;
            spans(short, long, s, t) == Some((least, most)),
            "from {s} to {t}"
        );
    }
    let delay = Nano::new(end).map(|end| delay_units(end));
    assert!(rt; delay == Some(4_611_686_018_427_387_903_000_000_000));
    Ok(())
}
