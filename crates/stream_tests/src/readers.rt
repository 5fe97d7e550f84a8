use crate::fakes::{Choppy, Flaky};
use crate::rows::{input, text, text_so_far};
use std::io::ErrorKind;
use std::test::Fail;
use stream::{ArchiveWriter, Input};

// Nothing is read after an error; another input of the same reader goes on where it stopped.
#[test]
fn a_reader_fails_anywhere(rt: HostRuntime) -> Result<(), Fail> {
    let input = input(rt.alloc())?;
    let text = text(rt.alloc())?;
    for cut in 0..input.len() {
        let mut reader = Flaky::new(&input, 9);
        reader.cut = Some(cut);
        let mut archive = ArchiveWriter::new(Vec::new(rt.alloc()));
        let mut failing = Input::new(&mut reader);
        let failed = archive.take_all(&mut failing).err().map(|e| e.kind());
        assert!(rt; failed == Some(ErrorKind::BrokenPipe), "at {cut}");
        assert!(rt; archive.take_all(&mut failing).is_err(), "at {cut}");
        assert!(rt; archive.answer_all(&mut failing).is_err(), "at {cut}");
        archive.answer_all(&mut Input::new(&mut reader))?;
        assert_eq!(rt;
            archive.into_inner().as_slice(),
            text.as_slice(),
            "at {cut}"
        );
    }
    Ok(())
}

#[test]
fn what_was_read_before_an_error_is_answered(rt: HostRuntime) -> Result<(), Fail> {
    let input = input(rt.alloc())?;
    for cut in 0..input.len() {
        let mut reader = Flaky::new(&input, 9);
        reader.cut = Some(cut);
        let mut archive = ArchiveWriter::new(Vec::new(rt.alloc()));
        assert!(rt;
            archive.answer_all(&mut Input::new(reader)).is_err(),
            "at {cut}"
        );
        let text = text_so_far(rt.alloc(), cut)?;
        assert_eq!(rt;
            archive.into_inner().as_slice(),
            text.as_slice(),
            "at {cut}"
        );
    }
    Ok(())
}

#[test]
fn a_reader_is_interrupted_anywhere(rt: HostRuntime) -> Result<(), Fail> {
    let input = input(rt.alloc())?;
    let text = text(rt.alloc())?;
    for cut in 0..input.len() {
        let mut reader = Flaky::new(&input, 100);
        reader.cut = Some(cut);
        reader.kind = ErrorKind::Interrupted;
        let mut archive = ArchiveWriter::new(Vec::new(rt.alloc()));
        archive.answer_all(&mut Input::new(reader))?;
        assert_eq!(rt;
            archive.into_inner().as_slice(),
            text.as_slice(),
            "at {cut}"
        );
    }
    Ok(())
}

// The last read finds the end, and the flush of the end stands for it.
#[test]
fn a_flush_for_each_read(rt: HostRuntime) -> Result<(), Fail> {
    let input = input(rt.alloc())?;
    let text = text(rt.alloc())?;
    let mut reader = Flaky::new(&input, 13);
    let mut archive = ArchiveWriter::new(Choppy::new(rt.alloc(), 11));
    archive.answer_all(&mut Input::new(&mut reader))?;
    let output = archive.into_inner();
    assert_eq!(rt; output.got.as_slice(), text.as_slice());
    assert_eq!(rt; output.flushes, reader.reads);
    Ok(())
}

// Once the writer has failed, nothing is read.
#[test]
fn a_failed_writer_leaves_the_input(rt: HostRuntime) -> Result<(), Fail> {
    let mut reader = Flaky::new(b"28\n28\n28\n", 3);
    let mut output = Choppy::new(rt.alloc(), 100);
    output.cut = Some(0);
    let mut archive = ArchiveWriter::new(output);
    assert!(rt; archive.take(b"28\n").is_err());
    assert!(rt; archive.answer_all(&mut Input::new(&mut reader)).is_err());
    assert_eq!(rt; reader.reads, 0);
    assert!(rt; archive.into_inner().got.is_empty());
    Ok(())
}
