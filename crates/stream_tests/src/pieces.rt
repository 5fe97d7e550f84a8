use crate::fakes::Choppy;
use crate::rows::{input, text, text_so_far};
use std::test::Fail;
use stream::ArchiveWriter;

#[test]
fn the_input_cut_anywhere_has_one_text(rt: HostRuntime) -> Result<(), Fail> {
    let input = input(rt.alloc())?;
    let text = text(rt.alloc())?;
    for cut in 0..input.len() {
        let (front, rest) = input.split_at(cut);
        let mut archive = ArchiveWriter::new(Vec::new(rt.alloc()));
        archive.take(front)?;
        archive.take(rest)?;
        archive.end()?;
        assert_eq!(rt;
            archive.into_inner().as_slice(),
            text.as_slice(),
            "cut at {cut}"
        );
    }
    Ok(())
}

#[test]
fn a_piece_is_answered_before_the_next(rt: HostRuntime) -> Result<(), Fail> {
    let input = input(rt.alloc())?;
    for cut in 0..input.len() {
        let (front, _) = input.split_at(cut);
        let mut archive = ArchiveWriter::new(Choppy::new(rt.alloc(), 5));
        archive.take(front)?;
        let output = archive.into_inner();
        let text = text_so_far(rt.alloc(), cut)?;
        assert_eq!(rt; output.got.as_slice(), text.as_slice(), "cut at {cut}");
        assert_eq!(rt; output.flushes, 1);
    }
    Ok(())
}

#[test]
fn bytes_come_one_by_one(rt: HostRuntime) -> Result<(), Fail> {
    let mut archive = ArchiveWriter::new(Vec::new(rt.alloc()));
    for byte in &input(rt.alloc())? {
        archive.take(&[*byte])?;
    }
    archive.end()?;
    assert_eq!(rt;
        archive.into_inner().as_slice(),
        text(rt.alloc())?.as_slice()
    );
    Ok(())
}

// What comes after the end begins a line, and the book is the same.
#[test]
fn an_input_after_another(rt: HostRuntime) -> Result<(), Fail> {
    let mut archive = ArchiveWriter::new(Vec::new(rt.alloc()));
    archive.take(b"29 7\n28")?;
    archive.end()?;
    archive.end()?;
    archive.take(b"\n10 7 100 500 3\n")?;
    archive.end()?;
    archive.take(b"28\n")?;
    assert_eq!(rt;
        archive.into_inner().as_slice(),
        b"29 7 : 0 0\n99 : 2 2\n99 : 2 0\n10 7 100 500 3 : 0 0\n28 : 0 0\n".as_slice()
    );
    Ok(())
}
