//! Worked pickles and their optimized forms.

use pkcheck::{Policy, check};
use pkops::Limits;
use pkopt::{optimize, optimized_form};
use pkread::{Memory, Reason, Refusal};
use std::process::Abort;
use std::test::Fail;

/// Pickles without frames, and their optimized forms.
const UNFRAMED: [(&[u8], &[u8]); 7] = [
    (b"]q\x00Nq\x01ah\x000.", b"]q\x00Nah\x000."),
    (b"]\x94N\x94ah\x010.", b"]N\x94ah\x000."),
    (b"]r,\x01\x00\x00Naj,\x01\x00\x000.", b"]q\x00Nah\x000."),
    (b"Np7\ng7\n0.", b"Np0\ng0\n0."),
    (b"Nq\x00]q\x000h\x000.", b"N]q\x000h\x000."),
    (b"Nq\x00h\x000q\x00h\x000.", b"Nq\x00h\x000q\x01h\x010."),
    (b"N.N", b"N."),
];

/// Pickles with frames, and their optimized forms in one frame.
const FRAMED: [(&[u8], &[u8]); 4] = [
    (
        b"\x80\x04\x95\x02\x00\x00\x00\x00\x00\x00\x00N.",
        b"\x80\x04\x95\x02\x00\x00\x00\x00\x00\x00\x00N.",
    ),
    (
        b"\x80\x04\x95\x03\x00\x00\x00\x00\x00\x00\x00N\x94.",
        b"\x80\x04\x95\x02\x00\x00\x00\x00\x00\x00\x00N.",
    ),
    (
        b"\x80\x04\x95\x01\x00\x00\x00\x00\x00\x00\x00N\x95\x01\x00\x00\x00\x00\x00\x00\x00.",
        b"\x80\x04\x95\x02\x00\x00\x00\x00\x00\x00\x00N.",
    ),
    (
        b"N\x95\x01\x00\x00\x00\x00\x00\x00\x00.",
        b"\x95\x02\x00\x00\x00\x00\x00\x00\x00N.",
    ),
];

/// Compares the optimized form of each pickle with the expected one, and checks that form.
fn optimize_each<T: Abort + AllocGlobal>(rt: &T, rows: &[(&[u8], &[u8])]) -> Result<(), Fail> {
    for (pickle, wanted) in rows {
        let out = match optimize(rt.alloc(), pickle, &Limits::STANDARD) {
            Ok(out) => out,
            Err(refusal) => panic!(rt; "{pickle:?}: {refusal:?}"),
        };
        assert_eq!(rt; out.as_slice(), *wanted, "{pickle:?}");
        let mut source = Memory::new(&out);
        let answer = check(
            rt.alloc(),
            &mut source,
            &Policy::AnyImport,
            &Limits::STANDARD,
        );
        assert_eq!(rt; answer.err().map(|no| no.reason), None, "{pickle:?}");
    }
    Ok(())
}

/// A form has its length and that of the pickle, and appends its bytes to what a writer holds.
#[test]
fn a_form_is_written(rt: HostRuntime) -> Result<(), Fail> {
    let (pickle, wanted) = FRAMED[2];
    let Ok(form) = optimized_form(rt.alloc(), pickle, &Limits::STANDARD) else {
        return Err(Fail::from("a form"));
    };
    let mut out = Vec::from_slice(rt.alloc(), b"before")?;
    form.write_to(&mut out)?;
    assert_eq!(rt; &out[..6], b"before".as_slice());
    assert_eq!(rt; &out[6..], wanted);
    assert_eq!(rt; form.len(), wanted.len() as u64);
    assert_eq!(rt; form.taken(), pickle.len() as u64);
    Ok(())
}

/// A form of long parts is written straight from the pickle.
#[test]
fn a_long_payload_is_written(rt: HostRuntime) -> Result<(), Fail> {
    let mut pickle = Vec::from_slice(rt.alloc(), b"\x80\x04\x95\x47\x0d\x03\0\0\0\0\0")?;
    pickle.extend_from_slice(b"B\x40\x0d\x03\0")?;
    pickle.resize(200_016, b'a')?;
    pickle.extend_from_slice(b"\x94.")?;
    let mut wanted = Vec::from_slice(rt.alloc(), b"\x80\x04\x95\x46\x0d\x03\0\0\0\0\0")?;
    wanted.extend_from_slice(&pickle[11..200_016])?;
    wanted.push(b'.')?;
    let Ok(out) = optimize(rt.alloc(), &pickle, &Limits::STANDARD) else {
        return Err(Fail::from("a form"));
    };
    assert!(rt; out == wanted);
    Ok(())
}

#[test]
fn without_frames(rt: HostRuntime) -> Result<(), Fail> {
    optimize_each(&rt, &UNFRAMED)
}

#[test]
fn in_one_frame(rt: HostRuntime) -> Result<(), Fail> {
    optimize_each(&rt, &FRAMED)
}

/// Under a limit of one memo entry, the second remaining write is one too many.
#[test]
fn past_the_limit(rt: HostRuntime) -> Result<(), Fail> {
    let Some(limits) = Limits::new(16, 100, 1, 1, 1) else {
        return Err(Fail::from("an answer of the other kind"));
    };
    let Err(refusal) = optimize(rt.alloc(), b"Nq\x00h\x000q\x00h\x000.", &limits) else {
        return Err(Fail::from("an answer of the other kind"));
    };
    assert_eq!(rt;
        refusal,
        Refusal {
            at: 6,
            reason: Reason::TooLarge
        }
    );
    Ok(())
}

/// Payloads are held here, so the limit on skipped ones doesn't apply.
#[test]
fn a_large_payload_is_held(rt: HostRuntime) -> Result<(), Fail> {
    let Some(limits) = Limits::STANDARD.with_passed(16_777_217) else {
        return Err(Fail::from("limits"));
    };
    let mut pickle = Vec::new(rt.alloc());
    pickle.extend_from_slice(b"B\x01\0\0\x01")?;
    pickle.resize(16_777_222, b'a')?;
    pickle.push(b'.')?;
    let mut source = Memory::new(&pickle);
    let answer = check(rt.alloc(), &mut source, &Policy::AnyImport, &limits);
    assert!(rt; answer.is_ok());
    let Err(refusal) = optimize(rt.alloc(), &pickle, &limits) else {
        return Err(Fail::from("an answer of the other kind"));
    };
    assert_eq!(rt;
        refusal,
        Refusal {
            at: 0,
            reason: Reason::TooLarge
        }
    );
    Ok(())
}

/// A refusal of the check is returned unchanged.
#[test]
fn refused_by_the_check(rt: HostRuntime) -> Result<(), Fail> {
    let Err(refusal) = optimize(rt.alloc(), b"Nq\x05h\x060.", &Limits::STANDARD) else {
        return Err(Fail::from("an answer of the other kind"));
    };
    assert_eq!(rt;
        refusal,
        Refusal {
            at: 3,
            reason: Reason::MissingMemo(6)
        }
    );
    Ok(())
}
