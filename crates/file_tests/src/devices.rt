//! Tests of `outside`: the two adapters to the system.

use outside::{Failed, FetchError, FileShelf, OutSink, Shelf, Sink, emit, fetch};
use std::io::{ErrorKind, Write};
use std::test::Fail;
use std::{fs, io};

/// Names that are fetched one after another, and the last trouble behind each.
const TROUBLES: [(&str, Option<ErrorKind>); 5] = [
    ("outside_test_trouble", None),
    ("outside_test_none", Some(ErrorKind::NotFound)),
    ("outside_test_trouble", Some(ErrorKind::NotFound)),
    (".", Some(ErrorKind::IsADirectory)),
    ("outside_test_trouble/under", Some(ErrorKind::NotADirectory)),
];

#[test]
fn files_of_the_system_are_fetched(rt: HostRuntime) -> Result<(), Fail> {
    let alloc = rt.alloc();
    fs::write(&rt, "outside_test_trouble", "some bytes")?;
    let mut shelf = FileShelf::new(&rt);
    assert!(rt;
        fetch(alloc, &mut shelf, "outside_test_trouble", 10)?.as_slice() == b"some bytes".as_slice()
    );
    assert!(rt; fetch(alloc, &mut shelf, "outside_test_trouble", 9) == Err(FetchError::TooBig));
    assert!(rt; shelf.trouble().is_none());
    for (name, trouble) in &TROUBLES {
        let _ = fetch(alloc, &mut shelf, name, 10);
        assert!(rt; shelf.trouble() == *trouble, "{name}");
    }
    fs::remove_file(&rt, "outside_test_trouble")?;
    Ok(())
}

/// A writer that fails with this trouble, or takes no byte where it is none.
#[derive(Drop)]
struct NoWriter(Option<ErrorKind>);

impl Write for NoWriter {
    fn write(&mut self, _buf: &[u8]) -> io::Result<usize> {
        match self.0 {
            Some(kind) => Err(kind.into()),
            None => Ok(0),
        }
    }

    fn flush(&mut self) -> io::Result<()> {
        Ok(())
    }
}

#[test]
fn a_sink_to_a_writer_tells_its_last_trouble(rt: HostRuntime) -> Result<(), Fail> {
    let mut good = OutSink::new(io::writer(&rt));
    emit(&mut good, b"a line of the test\n")?;
    assert!(rt; good.trouble() == None);
    for trouble in [Some(ErrorKind::StorageFull), None] {
        let mut sink = OutSink::new(NoWriter(trouble));
        assert!(rt; sink.put(b"x") == Err(Failed));
        assert!(rt; sink.trouble() == trouble);
    }
    Ok(())
}
