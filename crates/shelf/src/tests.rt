use crate::{MemShelf, MemSink, PlainShelf, PlainSink, PutFault, SayFault, Shelf, Sink, TakeFault};
use std::alloc::{AllocError, Global};
use std::io::Write;
use std::path::PathBuf;
use std::test::Fail;
use std::{env, fs, io, process};

fn files_with(alloc: Global, list: &[(&str, &[u8])]) -> Result<Vec<(String, Vec<u8>)>, AllocError> {
    let mut files = Vec::new(alloc);
    for (name, bytes) in list {
        let name = String::from_str(alloc, name)?;
        files.push((name, Vec::from_slice(alloc, bytes)?))?;
    }
    Ok(files)
}

#[test]
fn takes_a_file_within_the_limit(rt: HostRuntime) -> Result<(), Fail> {
    let alloc = rt.alloc();
    let files = files_with(
        alloc,
        &[("five", b"hello"), ("none", b""), ("five", b"other")],
    )?;
    let mut shelf = MemShelf::new(alloc, files, Vec::new(alloc));
    assert_eq!(rt;
        shelf.take(alloc, "five", 4),
        Err(TakeFault::Long { read: 5 })
    );
    assert_eq!(rt;
        shelf.take(alloc, "five", 0),
        Err(TakeFault::Long { read: 1 })
    );
    assert_eq!(rt;
        shelf.take(alloc, "five", 5)?.as_slice(),
        b"hello".as_slice()
    );
    assert_eq!(rt; shelf.take(alloc, "none", 0)?.as_slice(), b"".as_slice());
    assert_eq!(rt; shelf.take(alloc, "fiv", 5), Err(TakeFault::Failed));
    Ok(())
}

#[test]
fn puts_under_new_and_held_names(rt: HostRuntime) -> Result<(), Fail> {
    let alloc = rt.alloc();
    let files = files_with(alloc, &[("a", b"one"), ("b", b"two"), ("b", b"three")])?;
    let mut shelf = MemShelf::new(alloc, files, Vec::new(alloc));
    shelf.put("b", b"four")?;
    shelf.put("c", b"five")?;
    for (name, bytes) in [("a", b"one".as_slice()), ("b", b"four"), ("c", b"five")] {
        assert_eq!(rt; shelf.file(name), Some(bytes), "at {name}");
        assert_eq!(rt; shelf.take(alloc, name, 9)?.as_slice(), bytes, "at {name}");
    }
    assert_eq!(rt; shelf.file("d"), None);
    Ok(())
}

#[test]
fn fails_at_the_listed_calls(rt: HostRuntime) -> Result<(), Fail> {
    let alloc = rt.alloc();
    let files = files_with(alloc, &[("a", b"one"), ("b", b"two")])?;
    let mut shelf = MemShelf::new(alloc, files, Vec::from_slice(alloc, &[0, 3, 4])?);
    assert_eq!(rt; shelf.take(alloc, "a", 9), Err(TakeFault::Failed));
    assert_eq!(rt; shelf.take(alloc, "a", 9)?.as_slice(), b"one".as_slice());
    shelf.put("b", b"four")?;
    assert_eq!(rt; shelf.put("b", b"seven"), Err(PutFault::Failed));
    assert_eq!(rt; shelf.put("c", b"eight"), Err(PutFault::Failed));
    assert_eq!(rt; shelf.file("a"), Some(b"one".as_slice()));
    assert_eq!(rt; shelf.file("b"), Some(b"se".as_slice()));
    assert_eq!(rt; shelf.take(alloc, "c", 9)?.as_slice(), b"ei".as_slice());
    Ok(())
}

#[test]
fn says_in_memory(rt: HostRuntime) -> Result<(), Fail> {
    let alloc = rt.alloc();
    let mut sink = MemSink::new(alloc, Vec::from_slice(alloc, &[0])?);
    assert_eq!(rt; sink.say(b"lost\n"), Err(SayFault::Failed));
    assert_eq!(rt; sink.text(), b"lo".as_slice());
    sink.say(b"ud\n")?;
    sink.say(b"more\n")?;
    assert_eq!(rt; sink.text(), b"loud\nmore\n".as_slice());
    Ok(())
}

/// An empty folder of this process.
fn new_folder(rt: &HostRuntime, name: &str) -> io::Result<PathBuf> {
    let name = format!(in rt.alloc(); "shelf-{name}-{}", process::id(rt.process()))?;
    let folder = env::temp_dir(rt)?.join(rt.alloc(), name.as_str())?;
    fs::create_dir_all(rt, folder.as_path())?;
    Ok(folder)
}

#[test]
fn keeps_files_of_the_system(rt: HostRuntime) -> Result<(), Fail> {
    let alloc = rt.alloc();
    let folder = new_folder(&rt, "files")?;
    let path = folder.join(alloc, "a")?;
    let missing = folder.join(alloc, "none/a")?;
    let mut shelf = PlainShelf::new(&rt);
    shelf.put(path.as_str(), b"longer than what comes")?;
    shelf.put(path.as_str(), b"hello")?;
    assert_eq!(rt;
        shelf.take(alloc, path.as_str(), 5)?.as_slice(),
        b"hello".as_slice()
    );
    assert_eq!(rt;
        shelf.take(alloc, path.as_str(), 4),
        Err(TakeFault::Long { read: 5 })
    );
    assert_eq!(rt; shelf.faults(), 0);
    assert_eq!(rt;
        shelf.take(alloc, missing.as_str(), 5),
        Err(TakeFault::Failed)
    );
    assert_eq!(rt;
        shelf.put(missing.as_str(), b"hello"),
        Err(PutFault::Failed)
    );
    assert_eq!(rt;
        shelf.take(alloc, folder.as_str(), 5),
        Err(TakeFault::Failed)
    );
    assert_eq!(rt; shelf.faults(), 3);
    if fs::exists(&rt, "/dev/full")? {
        assert_eq!(rt; shelf.put("/dev/full", b"hello"), Err(PutFault::Failed));
        assert_eq!(rt; shelf.faults(), 4);
    }
    fs::remove_dir_all(&rt, folder.as_path())?;
    Ok(())
}

/// A writer that takes nothing.
#[derive(Drop)]
struct Deaf;

impl Write for Deaf {
    fn write(&mut self, _buf: &[u8]) -> io::Result<usize> {
        Ok(0)
    }

    fn flush(&mut self) -> io::Result<()> {
        Ok(())
    }
}

#[test]
fn says_to_a_writer(rt: HostRuntime) -> Result<(), Fail> {
    let folder = new_folder(&rt, "sink")?;
    let path = folder.join(rt.alloc(), "a")?;
    let mut sink = PlainSink::new(fs::create(&rt, path.as_path())?);
    sink.say(b"one\n")?;
    sink.say(b"")?;
    sink.say(b"two\n")?;
    assert_eq!(rt; sink.faults(), 0);
    assert_eq!(rt;
        fs::read(&rt, path.as_path())?.as_slice(),
        b"one\ntwo\n".as_slice()
    );
    let mut deaf = PlainSink::new(Deaf);
    deaf.say(b"")?;
    assert_eq!(rt; deaf.say(b"one\n"), Err(SayFault::Failed));
    assert_eq!(rt; deaf.faults(), 1);
    fs::remove_dir_all(&rt, folder.as_path())?;
    Ok(())
}
