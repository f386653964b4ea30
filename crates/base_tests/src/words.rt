use ports::{push_decimal, push_ns, push_word};
use std::test::Fail;

#[test]
fn words_are_appended(rt: HostRuntime) -> Result<(), Fail> {
    let mut line = Vec::from_slice(rt.alloc(), b"end")?;
    push_word(&mut line, b"")?;
    push_word(&mut line, b"a1")?;
    push_decimal(&mut line, 0)?;
    push_decimal(&mut line, u64::MAX)?;
    push_ns(&mut line, -1_500_000_000)?;
    push_ns(&mut line, 1)?;
    let want = b"end  a1 0 18446744073709551615 -1.500000000 0.000000001";
    assert!(rt; line.as_slice() == want.as_slice());
    Ok(())
}
