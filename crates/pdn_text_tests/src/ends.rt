//! Real files, a writer's sink, and the lines of refusals that no case shows.
use crate::texts::repeated;
use pdn_base::{
    FileErr, Files, Label, Name, RealFiles, RowsErr, Sink, SinkErr, Site, Status, StdSink, Who,
};
use std::fs::OpenFile;
use std::io::{ErrorKind, Write};
use std::test::Fail;
use std::{fs, io};

#[test]
fn real_files_give_what_was_written(rt: HostRuntime) -> Result<(), Fail> {
    let alloc = rt.alloc();
    let long = repeated(String::new(alloc), "5,7,flu\n", 1_000)?;
    fs::write(&rt, "long.txt", long.as_str())?;
    fs::create(&rt, "large.txt")?.set_len(536_870_913)?;
    let mut files = RealFiles::new(&rt);
    let whole = files.read(alloc, "long.txt")?;
    assert_eq!(rt; whole.as_slice(), long.as_bytes());
    for (name, error) in [
        ("absent.txt", FileErr::Absent),
        (".", FileErr::Failed),
        ("large.txt", FileErr::Failed),
    ] {
        assert_eq!(rt; files.read(alloc, name).err(), Some(error), "{name}");
    }
    Ok(())
}

/// A writer that takes a byte a call, at most so many in all, and is flushed or not.
#[derive(Drop)]
struct Narrow {
    left: usize,
    flushes: bool,
}

impl Write for Narrow {
    fn write(&mut self, bytes: &[u8]) -> io::Result<usize> {
        let taken = bytes.len().min(self.left).min(1);
        self.left -= taken;
        Ok(taken)
    }

    fn flush(&mut self) -> io::Result<()> {
        if self.flushes {
            Ok(())
        } else {
            Err(io::Error::from(ErrorKind::Other))
        }
    }
}

#[test]
fn a_writer_that_takes_nothing_or_is_not_flushed_is_a_fault(rt: HostRuntime) {
    let mut sink = StdSink::new(Narrow {
        left: 3,
        flushes: true,
    });
    assert_eq!(rt; sink.put(b"ab"), Ok(()));
    assert_eq!(rt; sink.put(b"cd"), Err(SinkErr::Failed));
    assert_eq!(rt; sink.put(b""), Ok(()));
    let mut sink = StdSink::new(Narrow {
        left: 3,
        flushes: false,
    });
    assert_eq!(rt; sink.put(b"ab"), Err(SinkErr::Failed));
}

#[test]
fn a_refusal_has_its_line(rt: HostRuntime) -> Result<(), Fail> {
    let alloc = rt.alloc();
    let late = Status::BadRows {
        site: Site::B,
        table: 1,
        cause: RowsErr::WrongType { row: 3, column: 0 },
    };
    let forbidden = Status::Forbidden {
        column: Name::new(alloc, "diag.code")?,
        label: Label::Protected,
    };
    let other = Status::Disagree {
        table: 1,
        column: 0,
    };
    let desk = Status::Unavailable { who: Who::Desk };
    for (status, code, wanted) in [
        (&late, 8, "refused 8 b diag type 3 pid\n"),
        (&forbidden, 6, "refused 6 diag.code protected\n"),
        (&desk, 10, "refused 10 desk\n"),
        (&Status::TicketsSpent, 11, "refused 11 tickets\n"),
        (&other, 16, "refused 16 diag.pid\n"),
    ] {
        assert_eq!(rt; status.code(), code);
        assert_eq!(rt; status.line(alloc, "diag", "pid")?.as_str(), wanted);
    }
    Ok(())
}
