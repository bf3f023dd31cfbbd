use av_base::{Bytes, List, NoMemory, Text, Val};
use av_files::{
    DirShelf, LoadFault, MemShelf, MemSink, ReadStep, Shelf, Sink, StdSink, WriteStep, load_all,
    put_all,
};
use std::alloc::{AllocError, Global};
use std::process::Abort;
use std::rt::Files;
use std::test::Fail;
use std::{env, fs, io};

#[test]
fn bytes_keep_what_is_pushed(rt: HostRuntime) -> Result<(), Fail> {
    let mut bytes = Bytes::new(rt.alloc());
    bytes.append(b"ab")?;
    bytes.push(b'c')?;
    assert_eq!(rt; bytes.as_slice(), b"abc".as_slice());
    Ok(())
}

fn push_two(list: &mut List<u64>) -> Result<(), NoMemory> {
    list.push(3)?;
    list.push(1)
}

#[test]
fn lists_keep_what_is_pushed(rt: HostRuntime) -> Result<(), Fail> {
    let mut list = List::new(rt.alloc());
    push_two(&mut list)?;
    assert_eq!(rt; list.as_slice(), [3, 1].as_slice());
    Ok(())
}

#[test]
fn texts_are_kept(rt: HostRuntime) -> Result<(), Fail> {
    let moved = Bytes::from(String::from_str(rt.alloc(), "moved")?);
    assert_eq!(rt; moved.as_slice(), b"moved".as_slice());
    let text = Text::copy(rt.alloc(), "name")?;
    assert_eq!(rt; text.as_str(), "name");
    Ok(())
}

#[test]
fn makes_values_that_fit(rt: HostRuntime) {
    for (width, bits, fits) in [
        (0, 0, false),
        (1, 1, true),
        (1, 2, false),
        (63, (1 << 63) - 1, true),
        (63, 1 << 63, false),
        (64, (1 << 64) - 1, true),
        (64, 1 << 64, false),
        (127, 1 << 127, false),
        (128, u128::MAX, true),
        (129, 0, false),
    ] {
        assert_eq!(rt; Val::new(width, bits).is_some(), fits, "width {width}");
    }
}

/// Adds a file of 5000 bytes.
fn push_sevens(alloc: Global, files: &mut List<Bytes>) -> Result<(), Fail> {
    let mut bytes = Bytes::new(alloc);
    bytes.append(&[7; 5000])?;
    files.push(bytes)?;
    Ok(())
}

/// The number of the only call that fails.
fn only(alloc: Global, call: u64) -> Result<List<u64>, Fail> {
    let mut calls = List::new(alloc);
    calls.push(call)?;
    Ok(calls)
}

/// A shelf of that file, whose tenth call fails.
fn shelf_of(alloc: Global) -> Result<MemShelf, Fail> {
    let mut files = List::new(alloc);
    push_sevens(alloc, &mut files)?;
    Ok(MemShelf::new(files, only(alloc, 9)?))
}

/// Whether these bytes were loaded.
fn are_loaded(loaded: Result<Bytes, LoadFault>, bytes: &[u8]) -> bool {
    match loaded {
        Ok(all) => all.as_slice() == bytes,
        Err(_) => false,
    }
}

fn is_fault(loaded: Result<Bytes, LoadFault>, fault: LoadFault) -> bool {
    match loaded {
        Ok(_) => false,
        Err(other) => other == fault,
    }
}

/// Whether a whole file, one that is too long, one that isn't there and one that fails are loaded as that.
fn loads(alloc: Global, shelf: &mut MemShelf) -> [bool; 4] {
    [
        are_loaded(load_all(alloc, shelf, 0, 5000), &[7; 5000]),
        is_fault(load_all(alloc, shelf, 0, 4999), LoadFault::TooLong),
        are_loaded(load_all(alloc, shelf, 5, 5000), b""),
        is_fault(load_all(alloc, shelf, 0, 5000), LoadFault::ReadFault),
    ]
}

#[test]
fn loads_files_up_to_the_limit(rt: HostRuntime) -> Result<(), Fail> {
    let mut shelf = shelf_of(rt.alloc())?;
    assert_eq!(rt; loads(rt.alloc(), &mut shelf), [true; 4]);
    Ok(())
}

#[test]
fn takes_bytes_while_there_is_room(rt: HostRuntime) -> Result<(), Fail> {
    let mut sink = MemSink::new(rt.alloc(), 5, only(rt.alloc(), 1)?)?;
    let steps = [sink.write(b"abc"), sink.write(b"x")];
    assert_eq!(rt; steps, [WriteStep::Wrote(3), WriteStep::Failed]);
    assert!(rt; !put_all(&mut sink, b"defg"));
    assert_eq!(rt; sink.bytes(), b"abcde".as_slice());
    Ok(())
}

fn names_of(alloc: Global, names: &[&str]) -> Result<Vec<String>, AllocError> {
    let mut all = Vec::new(alloc);
    for name in names {
        all.push(String::from_str(alloc, name)?)?;
    }
    Ok(all)
}

/// The first name is that of a file of the bytes `hello`, the second is no file's, and the third a folder's.
fn judge_shelf<R: Files + Abort>(rt: &R, names: &[String]) {
    let mut shelf = DirShelf::new(rt, names);
    let mut into = [0; 4];
    assert_eq!(rt; shelf.read_at(0, 1, &mut into), ReadStep::Bytes(4));
    assert_eq!(rt; into, *b"ello");
    let steps = [
        shelf.read_at(0, 5, &mut into),
        shelf.read_at(1, 0, &mut into),
        shelf.read_at(2, 0, &mut into),
        shelf.read_at(3, 0, &mut into),
    ];
    let failed = ReadStep::Failed;
    assert_eq!(rt; steps, [ReadStep::End, failed, failed, failed]);
}

fn read_back<R: Files + AllocGlobal + Abort>(rt: &R, path: &str) -> Result<(), Fail> {
    fs::write(rt, path, "hello")?;
    let names = names_of(rt.alloc(), &[path, "no/such/file", "."])?;
    judge_shelf(rt, names.as_slice());
    fs::remove_file(rt, path)?;
    Ok(())
}

#[test]
fn reads_real_files(rt: HostRuntime) -> Result<(), Fail> {
    let mut file = env::temp_dir(&rt)?;
    file.push("avalon_shelf_test")?;
    read_back(&rt, file.as_path().to_str().ok_or("the path is no text")?)
}

/// A writer that takes one byte at a time, and fails past its room.
#[derive(Drop)]
struct Narrow {
    taken: Vec<u8>,
    room: usize,
}

impl io::Write for Narrow {
    fn write(&mut self, buf: &[u8]) -> io::Result<usize> {
        if self.taken.len() >= self.room {
            return Ok(0);
        }
        match buf {
            [] => Ok(0),
            [first, ..] => {
                self.taken.push(*first)?;
                Ok(1)
            }
        }
    }

    fn flush(&mut self) -> io::Result<()> {
        Ok(())
    }
}

#[test]
fn writes_all_or_fails(rt: HostRuntime) {
    let narrow = Narrow {
        taken: Vec::new(rt.alloc()),
        room: 6,
    };
    let mut sink = StdSink::new(narrow);
    assert_eq!(rt; sink.write(b"abcd"), WriteStep::Wrote(4));
    assert_eq!(rt; sink.write(b"efg"), WriteStep::Failed);
}
