use crate::fakes::Choppy;
use crate::rows::{input, text};
use std::io::ErrorKind;
use std::test::Fail;
use stream::ArchiveWriter;

// Answers all input into the writer, and tries more after an error: the kind of the first error, and the writer.
fn answer(output: Choppy, input: &[u8]) -> (Option<ErrorKind>, Choppy) {
    let mut archive = ArchiveWriter::new(output);
    let mut outcome = archive.take(input);
    if outcome.is_ok() {
        outcome = archive.end();
    }
    let failed = outcome.err().map(|e| e.kind());
    if failed.is_some() && (archive.take(b"28\n").is_ok() || archive.end().is_ok()) {
        return (None, archive.into_inner());
    }
    (failed, archive.into_inner())
}

#[test]
fn a_writer_fails_anywhere(rt: HostRuntime) -> Result<(), Fail> {
    let input = input(rt.alloc())?;
    let text = text(rt.alloc())?;
    for cut in 0..text.len() {
        let mut output = Choppy::new(rt.alloc(), 7);
        output.cut = Some(cut);
        let (failed, output) = answer(output, &input);
        assert!(rt; failed == Some(ErrorKind::BrokenPipe), "at {cut}");
        let (front, _) = text.split_at(cut);
        assert_eq!(rt; output.got.as_slice(), front, "at {cut}");
    }
    Ok(())
}

#[test]
fn a_writer_is_interrupted_anywhere(rt: HostRuntime) -> Result<(), Fail> {
    let input = input(rt.alloc())?;
    let text = text(rt.alloc())?;
    for cut in 0..text.len() {
        let mut output = Choppy::new(rt.alloc(), 100);
        output.cut = Some(cut);
        output.kind = ErrorKind::Interrupted;
        let (failed, output) = answer(output, &input);
        assert!(rt; failed.is_none(), "at {cut}");
        assert_eq!(rt; output.got.as_slice(), text.as_slice(), "at {cut}");
    }
    Ok(())
}

#[test]
fn a_flush_fails(rt: HostRuntime) -> Result<(), Fail> {
    let mut output = Choppy::new(rt.alloc(), 100);
    output.bad_flush = 1;
    let (failed, output) = answer(output, b"28\n28");
    assert!(rt; failed == Some(ErrorKind::BrokenPipe));
    assert_eq!(rt; output.got.as_slice(), b"28 : 1 0\n".as_slice());
    assert_eq!(rt; output.flushes, 1);
    Ok(())
}

#[test]
fn a_writer_takes_nothing(rt: HostRuntime) -> Result<(), Fail> {
    let (failed, output) = answer(Choppy::new(rt.alloc(), 0), b"28\n");
    assert!(rt; failed == Some(ErrorKind::WriteZero));
    assert!(rt; output.got.is_empty());
    Ok(())
}

// 9,000 answers of nine bytes are more than wait at a time.
#[test]
fn more_than_waits_at_a_time(rt: HostRuntime) -> Result<(), Fail> {
    let mut input = Vec::new(rt.alloc());
    let mut text = Vec::new(rt.alloc());
    for _ in 0..9_000u16 {
        input.extend_from_slice(b"28\n")?;
        text.extend_from_slice(b"28 : 1 0\n")?;
    }
    let (failed, output) = answer(Choppy::new(rt.alloc(), 50_000), &input);
    assert!(rt; failed.is_none());
    assert!(rt; output.got.as_slice() == text.as_slice());
    for cut in [0, 1, 65_527, 65_528, 65_536, 65_537, 80_999] {
        let mut output = Choppy::new(rt.alloc(), 50_000);
        output.cut = Some(cut);
        let (failed, output) = answer(output, &input);
        assert!(rt; failed == Some(ErrorKind::BrokenPipe), "at {cut}");
        let front = text.get(..cut).ok_or("too few answers")?;
        assert!(rt; output.got.as_slice() == front, "at {cut}");
    }
    Ok(())
}
