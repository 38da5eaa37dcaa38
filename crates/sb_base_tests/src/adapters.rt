//! Transfers over std's readers and writers. What an adapter holds is told by its `Debug`: its reader or writer, and the
//! faults that it has counted.

use crate::same::assert_same;
use sb_port::{ReadAll, ReadSource, Source, WriteFault, WriteSink, read_all, write_all};
use std::alloc::Global;
use std::fmt::Debug;
use std::io::{self, Cursor, ErrorKind, Read, Write};
use std::test::Fail;

/// A reader and writer of one byte a call, with an error in place of the third. What it gives is the call's number.
#[derive(Debug, Drop)]
struct FailsThird {
    calls: u8,
}

impl Read for FailsThird {
    fn read(&mut self, buf: &mut [u8]) -> io::Result<usize> {
        self.calls = self.calls.saturating_add(1);
        match buf.first_mut() {
            Some(place) if self.calls != 3 => {
                *place = self.calls;
                Ok(1)
            }
            _ => Err(io::Error::from(ErrorKind::BrokenPipe)),
        }
    }
}

impl Write for FailsThird {
    fn write(&mut self, buf: &[u8]) -> io::Result<usize> {
        self.calls = self.calls.saturating_add(1);
        match self.calls {
            3 => Err(io::Error::from(ErrorKind::BrokenPipe)),
            _ => Ok(buf.len().min(1)),
        }
    }

    fn flush(&mut self) -> io::Result<()> {
        Ok(())
    }
}

#[test]
fn a_reader_is_read_from_where_it_stands(rt: HostRuntime) -> Result<(), Fail> {
    let alloc = rt.alloc();
    let mut cursor = Cursor::new(b"skybridge".as_slice());
    cursor.set_position(3);
    let mut source = ReadSource::new(cursor);
    let bytes = read_all(alloc, &mut source, 6)?;
    assert_same(&rt, "bytes", &bytes.as_slice(), &b"bridge".as_slice());
    let told = format!(in alloc; "{source:?}")?;
    let expected =
        "ReadSource { reader: Cursor { inner: [115, 107, 121, 98, 114, 105, 100, 103, 101], pos: 9 }, faults: 0 }";
    assert_same(&rt, "source", &told.as_str(), &expected);
    Ok(())
}

#[test]
fn an_error_of_the_reader_is_one_fault_at_that_call(rt: HostRuntime) -> Result<(), Fail> {
    let alloc = rt.alloc();
    let mut source = ReadSource::new(FailsThird { calls: 0 });
    let refused = read_all(alloc, &mut source, 100).err();
    assert_same(&rt, "refused", &refused, &Some(ReadAll::ReadFault));
    let told = format!(in alloc; "{source:?}")?;
    let expected = "ReadSource { reader: FailsThird { calls: 3 }, faults: 1 }";
    assert_same(&rt, "source", &told.as_str(), &expected);
    // The reader is asked again, once a call, and its answers stand.
    let mut into = [0; 2];
    for calls in [4, 5] {
        assert_same(&rt, "asked again", &source.take(&mut into), &Ok(1));
        assert_same(&rt, "asked again", &into, &[calls, 0]);
    }
    let told = format!(in alloc; "{source:?}")?;
    let expected = "ReadSource { reader: FailsThird { calls: 5 }, faults: 1 }";
    assert_same(&rt, "source", &told.as_str(), &expected);
    Ok(())
}

/// What writing "bridge" to a sink answers, and what the sink is then.
fn writing<W: Write + Debug>(
    alloc: Global,
    sink: &mut WriteSink<W>,
) -> Result<(Option<WriteFault>, String), Fail> {
    let fault = write_all(sink, b"bridge").err();
    Ok((fault, format!(in alloc; "{sink:?}")?))
}

#[test]
fn an_error_of_the_writer_is_one_fault_at_that_call(rt: HostRuntime) -> Result<(), Fail> {
    let mut sink = WriteSink::new(FailsThird { calls: 0 });
    let (fault, told) = writing(rt.alloc(), &mut sink)?;
    assert_same(&rt, "fault", &fault, &Some(WriteFault { written: 2 }));
    let expected = "WriteSink { writer: FailsThird { calls: 3 }, faults: 1 }";
    assert_same(&rt, "sink", &told.as_str(), &expected);
    // The writer is asked again, once a call, and its answers stand.
    let (fault, told) = writing(rt.alloc(), &mut sink)?;
    assert_same(&rt, "no fault", &fault, &None);
    let expected = "WriteSink { writer: FailsThird { calls: 9 }, faults: 1 }";
    assert_same(&rt, "sink", &told.as_str(), &expected);
    Ok(())
}

#[test]
fn a_writer_is_written_behind_what_it_holds(rt: HostRuntime) -> Result<(), Fail> {
    let mut sink = WriteSink::new(Vec::from_slice(rt.alloc(), b"sky")?);
    let (fault, told) = writing(rt.alloc(), &mut sink)?;
    assert_same(&rt, "no fault", &fault, &None);
    let expected = "WriteSink { writer: [115, 107, 121, 98, 114, 105, 100, 103, 101], faults: 0 }";
    assert_same(&rt, "sink", &told.as_str(), &expected);
    Ok(())
}

#[test]
fn a_writer_that_takes_nothing_has_failed(rt: HostRuntime) -> Result<(), Fail> {
    let mut room = [0; 4];
    let mut sink = WriteSink::new(room.as_mut_slice());
    let (fault, told) = writing(rt.alloc(), &mut sink)?;
    assert_same(&rt, "fault", &fault, &Some(WriteFault { written: 4 }));
    assert_same(
        &rt,
        "sink",
        &told.as_str(),
        &"WriteSink { writer: [], faults: 1 }",
    );
    Ok(())
}
