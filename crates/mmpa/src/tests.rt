//! The adapters over the real files, over an input and over a screen that fail.

use crate::files::RealFiles;
use crate::input::RealInput;
use crate::log::LogFile;
use crate::screen::Screen;
use mm_base::{Failed, Files, FilesFault, Recorder, ShortWrite, Source, is_name, write_all};
use std::fmt::Display;
use std::fs;
use std::io::{self, ErrorKind, Read};
use std::test::Fail;

#[test]
fn real_files_are_fetched_and_replaced(rt: HostRuntime) -> Result<(), Fail> {
    let alloc = rt.alloc();
    let mut files = RealFiles::new(&rt);
    let name = b"a.mm".as_slice();
    assert!(rt; is_name(name));
    assert!(rt; files.fetch(alloc, name, 100)?.is_none());
    files.replace(alloc, name, b"first")?;
    files.replace(alloc, name, b"second text")?;
    let Some(whole) = files.fetch(alloc, name, 11)? else {
        return Err(Fail::from("no file"));
    };
    assert_eq!(rt; whole.bytes.as_slice(), b"second text".as_slice());
    assert!(rt; !whole.more);
    let Some(front) = files.fetch(alloc, name, 6)? else {
        return Err(Fail::from("no file"));
    };
    assert_eq!(rt; front.bytes.as_slice(), b"second".as_slice());
    assert!(rt; front.more);
    assert!(rt; !fs::exists(&rt, "a.mm.new0")?);
    Ok(())
}

#[test]
fn a_folder_is_no_file(rt: HostRuntime) -> Result<(), Fail> {
    let alloc = rt.alloc();
    let mut files = RealFiles::new(&rt);
    fs::create_dir(&rt, "folder")?;
    let name = b"folder".as_slice();
    assert!(rt; is_name(name));
    let fetched = files.fetch(alloc, name, 100);
    assert!(rt; matches!(fetched, Err(FilesFault::Failed)));
    let put = files.replace(alloc, name, b"text");
    assert_eq!(rt; put, Err(FilesFault::Failed));
    assert!(rt; !fs::exists(&rt, "folder.new0")?);
    Ok(())
}

/// Standard output of which each write takes so many bytes at most, or which has failed.
#[derive(Drop)]
struct Narrow {
    most: usize,
    failed: bool,
}

impl Print for Narrow {
    fn print<D: Display + Drop>(&self, _value: D) -> io::Result<()> {
        Err(io::Error::from(ErrorKind::Unsupported))
    }

    fn println<D: Display + Drop>(&self, _value: D) -> io::Result<()> {
        Err(io::Error::from(ErrorKind::Unsupported))
    }

    fn write_all(&self, _bytes: &[u8]) -> io::Result<()> {
        Err(io::Error::from(ErrorKind::Unsupported))
    }

    fn write_some(&self, bytes: &[u8]) -> io::Result<usize> {
        if self.failed {
            return Err(io::Error::from(ErrorKind::BrokenPipe));
        }
        Ok(bytes.len().min(self.most))
    }
}

#[test]
fn a_screen_counts_its_faults(rt: HostRuntime) -> Result<(), Fail> {
    let narrow = Narrow {
        most: 3,
        failed: false,
    };
    let mut screen = Screen::new(&narrow);
    assert_eq!(rt; write_all(&mut screen, b"a longer text"), Ok(()));
    assert_eq!(rt; screen.faults(), 0);
    let full = Narrow {
        most: 0,
        failed: false,
    };
    let mut screen = Screen::new(&full);
    assert_eq!(rt;
        write_all(&mut screen, b"text"),
        Err(ShortWrite { taken: 0 })
    );
    assert_eq!(rt; screen.faults(), 1);
    let closed = Narrow {
        most: 3,
        failed: true,
    };
    let mut screen = Screen::new(&closed);
    assert_eq!(rt;
        write_all(&mut screen, b"text"),
        Err(ShortWrite { taken: 0 })
    );
    assert_eq!(rt; screen.faults(), 1);
    Ok(())
}

/// An input that can't be read.
#[derive(Drop)]
struct Broken {}

impl Read for Broken {
    fn read(&mut self, _buf: &mut [u8]) -> io::Result<usize> {
        Err(io::Error::from(ErrorKind::BrokenPipe))
    }
}

#[test]
fn an_input_counts_its_faults(rt: HostRuntime) -> Result<(), Fail> {
    let mut buf = [0; 4];
    let mut input = RealInput::new(rt.reader());
    assert_eq!(rt; input.read(&mut buf), Ok(0));
    assert_eq!(rt; input.faults(), 0);
    let mut input = RealInput::new(Broken {});
    assert_eq!(rt; input.read(&mut buf), Err(Failed));
    assert_eq!(rt; input.faults(), 1);
    Ok(())
}

#[test]
fn a_log_is_kept_in_its_file(rt: HostRuntime) -> Result<(), Fail> {
    fs::write(&rt, "a.log", "an older and longer text")?;
    fs::create_dir(&rt, "log-folder")?;
    let mut log = LogFile::new(rt.clone()?);
    if log.begin(b"log-folder").is_ok() {
        return Err(Fail::from("a folder is no log"));
    }
    assert_eq!(rt; log.faults(), 1);
    if log.begin(b"a.log").is_err() {
        return Err(Fail::from("no log"));
    }
    assert_eq!(rt; log.hear(b"first\n"), Ok(()));
    assert_eq!(rt; log.hear(b"second\n"), Ok(()));
    assert_eq!(rt; log.finish(), Ok(()));
    assert_eq!(rt; log.faults(), 1);
    assert!(rt; log.heard(1).is_none());
    let kept = fs::read_to_string(&rt, "a.log")?;
    assert_eq!(rt; kept.as_str(), "first\nsecond\n");
    Ok(())
}
