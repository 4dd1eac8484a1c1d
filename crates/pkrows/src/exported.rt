//! Worked pickles and their JSON, or why they have none.

use pkjson::{ExportError, export, export_text, export_to};
use pkops::{Limits, Op};
use pkread::{Reason, Refusal};
use std::test::Fail;

const VALUES: [(&[u8], &str); 12] = [
    (b"}\x8c\x01aK\x01s.", "{\"a\":1}"),
    (b"]]\x94ah\x00Na0.", "[[null]]"),
    (b"I01\n.", "true"),
    (b"I1\n.", "1"),
    (b"\x8a\x00.", "0"),
    (
        b"\x8a\x08\x00\x00\x00\x00\x00\x00\x00\x80.",
        "-9223372036854775808",
    ),
    (
        b"\x8a\x0a\x00\x00\x00\x00\x00\x00\x00\x80\xff\xff.",
        "-9223372036854775808",
    ),
    (b"L-9223372036854775808L\n.", "-9223372036854775808"),
    (b"}\x8c\x01bNs\x8c\x01a\x88s.", "{\"a\":true,\"b\":null}"),
    (b"}\x8c\x01aK\x01s\x8c\x01aK\x02s.", "{\"a\":2}"),
    (b"(\x8c\x01b(l\x8c\x01a(K\x01td.", "{\"a\":[1],\"b\":[]}"),
    (b"](I00\nJ\xff\xff\xff\xffM\x00\x01e.", "[false,-1,256]"),
];

const REFUSED: [(&[u8], ExportError); 8] = [
    (b"}K\x01Ns.", ExportError::Key(4)),
    (b"C\x000N.", ExportError::NotPlain(0, Op::ShortBinBytes)),
    (
        b"\x8a\x09\x00\x00\x00\x00\x00\x00\x00\x80\x00.",
        ExportError::Number(0),
    ),
    (b"I9223372036854775808\n.", ExportError::Number(0)),
    (b"L-9223372036854775809L\n.", ExportError::Number(0)),
    (b"]q\x00h\x00a.", ExportError::TooDeep),
    (b"cm\nf\n.", ExportError::NotPlain(0, Op::Global)),
    (
        b"NN.",
        ExportError::Check(Refusal {
            at: 2,
            reason: Reason::LeftOver,
        }),
    ),
];

#[test]
fn values(rt: HostRuntime) -> Result<(), Fail> {
    for (bytes, wanted) in VALUES {
        let value = export(rt.alloc(), bytes, &Limits::STANDARD)?;
        let text = value.to_string(rt.alloc())?;
        assert_eq!(rt; text.as_str(), wanted);
        let written = export_text(rt.alloc(), bytes, &Limits::STANDARD)?;
        assert_eq!(rt; written.as_slice(), wanted.as_bytes());
        let mut out = Vec::new(rt.alloc());
        export_to(rt.alloc(), bytes, &Limits::STANDARD, &mut out)??;
        assert_eq!(rt; out.as_slice(), wanted.as_bytes());
    }
    Ok(())
}

#[test]
fn refusals(rt: HostRuntime) -> Result<(), Fail> {
    for (bytes, wanted) in REFUSED {
        match export(rt.alloc(), bytes, &Limits::STANDARD) {
            Ok(_) => panic!(rt; "a value"),
            Err(error) => assert_eq!(rt; error, wanted),
        }
        let mut out = Vec::new(rt.alloc());
        match export_to(rt.alloc(), bytes, &Limits::STANDARD, &mut out)? {
            Ok(()) => panic!(rt; "a text"),
            Err(error) => assert_eq!(rt; error, wanted),
        }
        assert!(rt; out.is_empty());
    }
    Ok(())
}
