use line_format::{cut, three_words};
use std::test::Fail;

#[test]
fn lines_are_cut(rt: HostRuntime) -> Result<(), Fail> {
    let cuts = [
        ("", None),
        ("end", None),
        ("\n", Some(("", ""))),
        ("end\n", Some(("end", ""))),
        ("a\nb\nc", Some(("a", "b\nc"))),
    ];
    for (text, want) in cuts {
        let got = cut(b'\n', text.as_bytes());
        let want = want.map(|(line, rest)| (line.as_bytes(), rest.as_bytes()));
        assert!(rt; got == want, "cut of {text}");
    }
    let words = [
        ("a b", None),
        ("a b c", Some(("a", "b", "c"))),
        ("a  c", Some(("a", "", "c"))),
        (" b c ", Some(("", "b", "c "))),
        ("a b c d", Some(("a", "b", "c d"))),
    ];
    for (line, want) in words {
        let got = three_words(line.as_bytes());
        let want = want.map(|(a, b, c)| (a.as_bytes(), b.as_bytes(), c.as_bytes()));
        assert!(rt; got == want, "words of {line}");
    }
    Ok(())
}
