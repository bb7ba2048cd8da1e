ghost use Rattle.std.specs.Prelude.{IsTrue};

use super::*;
use disk_trait::{Disk, Shelf};
use refusal::Failed;
use std::alloc::{Alloc, Global};
use std::cell::Cell;
use std::fmt::Debug;
use std::fs::{File, Metadata, OpenFile};
use std::io::{PipeReader, Read, Write};
use std::os::fd::AsRawFd;
use std::os::unix::fs::{FileExt, symlink};
use std::process::Abort;
use std::rt::Files;
use std::{fs, io};
use text_io::{Sink, Source};

// Assertions as functions: the text of a macro is proved anew wherever it stands.

// It is so.
fn assert_that(rt: &impl Abort, is_so: bool)
    ensures { IsTrue is_so }
{
    assert!(rt; is_so);
}

// It is so, at this case.
fn assert_that_at<P: Debug + Drop>(rt: &impl Abort, is_so: bool, at: P)
    ensures { IsTrue is_so }
{
    assert!(rt; is_so, "at {at:?}");
}

// Both are the same.
fn assert_same<T: PartialEq + Debug + Drop>(rt: &impl Abort, found: T, wanted: T) {
    assert_eq!(rt; found, wanted);
}

// Both are the same, at this case.
fn assert_same_at<T: PartialEq + Debug + Drop, P: Debug + Drop>(
    rt: &impl Abort,
    found: T,
    wanted: T,
    at: P,
) {
    assert_eq!(rt; found, wanted, "at {at:?}");
}

// A stream whose first calls fail so, and each later one moves one byte.
#[derive(Drop)]
struct FailsFirst {
    calls: u32,
    failing: u32,
    kind: io::ErrorKind,
}

impl FailsFirst {
    fn call(&mut self) -> io::Result<()> {
        self.calls = self.calls.saturating_add(1);
        if self.calls <= self.failing {
            return Err(io::Error::from(self.kind));
        }
        Ok(())
    }
}

fn fails_first(failing: u32, kind: io::ErrorKind) -> FailsFirst {
    FailsFirst {
        calls: 0,
        failing,
        kind,
    }
}

impl Read for FailsFirst {
    fn read(&mut self, into: &mut [u8]) -> io::Result<usize> {
        self.call()?;
        Ok(into.len().min(1))
    }
}

impl Write for FailsFirst {
    fn write(&mut self, from: &[u8]) -> io::Result<usize> {
        self.call()?;
        Ok(from.len().min(1))
    }

    fn flush(&mut self) -> io::Result<()> {
        Ok(())
    }
}

// A call that is refused is told, counted once and not tried again, though a second call would have worked.
#[test]
fn a_refused_read_is_not_tried_again(rt: HostRuntime) {
    let mut source = StdSource::new(fails_first(1, io::ErrorKind::Other));
    let mut two = [0; 2];
    assert_that(&rt, source.read(&mut two).is_err());
    assert_same(&rt, (source.reader.calls, source.faults), (1, 1));
    assert_same(&rt, source.read(&mut two), Ok(1));
    assert_same(&rt, (source.reader.calls, source.faults), (2, 1));
}

#[test]
fn a_refused_write_is_not_tried_again(rt: HostRuntime) {
    let mut sink = StdSink::new(fails_first(1, io::ErrorKind::Other));
    assert_that(&rt, sink.write(b"ab").is_err());
    assert_same(&rt, (sink.writer.calls, sink.faults), (1, 1));
    assert_same(&rt, sink.write(b"ab"), Ok(1));
    assert_same(&rt, (sink.writer.calls, sink.faults), (2, 1));
}

// A call that a signal interrupted is made again, and no fault.
#[test]
fn an_interrupted_read_is_made_again(rt: HostRuntime) {
    let mut source = StdSource::new(fails_first(3, io::ErrorKind::Interrupted));
    let mut two = [0; 2];
    assert_same(&rt, source.read(&mut two), Ok(1));
    assert_same(&rt, (source.reader.calls, source.faults), (4, 0));
}

#[test]
fn an_interrupted_write_is_made_again(rt: HostRuntime) {
    let mut sink = StdSink::new(fails_first(3, io::ErrorKind::Interrupted));
    assert_same(&rt, sink.write(b"ab"), Ok(1));
    assert_same(&rt, (sink.writer.calls, sink.faults), (4, 0));
}

#[test]
fn a_reader_is_a_source(rt: HostRuntime) {
    let mut source = StdSource::new(b"abc".as_slice());
    let mut two = [0; 2];
    assert_same(&rt, source.read(&mut two).is_ok(), true);
    assert_same(&rt, two, *b"ab");
    assert_same(&rt, source.read(&mut two), Ok(1));
    assert_same(&rt, source.read(&mut two), Ok(0));
}

#[test]
fn a_writer_is_a_sink(rt: HostRuntime) {
    let mut bytes = Vec::new(rt.alloc());
    {
        let mut sink = StdSink::new(&mut bytes);
        assert_same(&rt, sink.write(b"ab"), Ok(2));
        assert_same(&rt, sink.write(b""), Ok(0));
        assert_same(&rt, sink.write(b"c"), Ok(1));
    }
    assert_same(&rt, bytes.as_slice(), b"abc".as_slice());

    // A writer that takes a part of a piece, and then nothing more.
    let mut two = [0; 2];
    {
        let mut sink = StdSink::new(two.as_mut_slice());
        assert_same(&rt, sink.write(b"abc"), Ok(2));
        assert_that(&rt, sink.write(b"c").is_err());
        assert_same(&rt, sink.write(b""), Ok(0));
    }
    assert_same(&rt, two, *b"ab");
}

// A file of four bytes. One call fails, by its number, and each read and write moves one byte.
#[derive(Drop)]
struct Faulty {
    calls: Cell<u32>,
    failing: u32,
}

impl Faulty {
    fn call(&self) -> io::Result<()> {
        self.calls.set(self.calls.get().saturating_add(1));
        if self.calls.get() == self.failing {
            return Err(io::Error::from(io::ErrorKind::Other));
        }
        Ok(())
    }
}

impl FileExt for Faulty {
    fn read_at(&self, into: &mut [u8], _at: u64) -> io::Result<usize> {
        self.call()?;
        Ok(into.len().min(1))
    }

    fn write_at(&self, from: &[u8], _at: u64) -> io::Result<usize> {
        self.call()?;
        Ok(from.len().min(1))
    }
}

impl OpenFile for Faulty {
    fn metadata(&self) -> io::Result<Metadata> {
        self.call()?;
        Ok(Metadata::of_file(4))
    }

    fn set_len(&self, _size: u64) -> io::Result<()> {
        Ok(())
    }

    fn sync_all(&self) -> io::Result<()> {
        self.call()
    }

    fn sync_data(&self) -> io::Result<()> {
        self.call()
    }
}

// Whether each of five calls ended well.
fn five_calls(disk: &mut FileDisk<Faulty>) -> [bool; 5] {
    let mut two = [0; 2];
    let len = disk.len().is_ok();
    let read = disk.read(1, &mut two).is_ok();
    let write = disk.write(4, b"ab").is_ok();
    let sync = disk.sync().is_ok();
    let again = disk.sync().is_ok();
    [len, read, write, sync, again]
}

// A call that the system refuses is a fault, and isn't tried again. A sync after one that failed isn't even tried.
#[test]
fn a_refused_call_of_a_file_is_one_fault(rt: HostRuntime) {
    const ROWS: [(u32, [bool; 5], u32, u64); 9] = [
        (0, [true, true, true, true, true], 8, 0),
        (1, [false, true, true, true, true], 8, 1),
        (2, [true, false, true, true, true], 7, 1),
        (3, [true, false, true, true, true], 8, 1),
        (4, [true, true, false, true, true], 6, 1),
        (5, [true, true, false, true, true], 7, 1),
        (6, [true, true, false, true, true], 8, 1),
        (7, [true, true, true, false, false], 7, 2),
        (8, [true, true, true, true, false], 8, 1),
    ];
    for &(failing, outcomes, calls, faults) in &ROWS {
        let mut disk = FileDisk::new(Faulty {
            calls: Cell::new(0),
            failing,
        });
        assert_same_at(&rt, five_calls(&mut disk), outcomes, failing);
        assert_same_at(&rt, disk.file.calls.get(), calls, failing);
        assert_same_at(&rt, disk.faults(), faults, failing);
    }
}

// A file is measured where it isn't known to be so long, and what was written makes it known.
#[test]
fn a_write_makes_a_length_known(rt: HostRuntime) {
    let mut disk = FileDisk::new(Faulty {
        calls: Cell::new(0),
        failing: 0,
    });
    assert_same(&rt, disk.write(4, b"ab"), Ok(()));
    assert_same(&rt, disk.file.calls.get(), 3);
    assert_same(&rt, disk.write(6, b"c"), Ok(()));
    assert_same(&rt, disk.file.calls.get(), 4);
}

fn write_six(disk: &mut FileDisk<File>) -> Result<(), Failed> {
    disk.write(0, b"abcd")?;
    disk.write(2, b"CDEF")?;
    disk.sync()
}

fn read_four(disk: &mut FileDisk<File>) -> Result<[u8; 4], Failed> {
    let mut four = [0; 4];
    disk.read(1, &mut four)?;
    Ok(four)
}

// The files of these tests lie in the folder in which they run.
fn shelf<R: Files<File = File>>(files: &R) -> FileShelf<&R> {
    FileShelf::new(files)
}

fn fetch<R: Abort + Files<File = File> + Alloc>(
    rt: &R,
    shelf: &mut FileShelf<&R>,
    name: &str,
    fresh: bool,
) -> FileDisk<File> {
    match shelf.fetch(name, fresh) {
        Ok(disk) => disk,
        Err(Failed) => panic!(rt; "{name} isn't fetched"),
    }
}

fn put<R: Abort + Files<File = File>>(rt: &R, name: &str, bytes: &[u8]) {
    assert_that_at(rt, fs::write(rt, name, bytes).is_ok(), name);
}

fn exists<R: Abort + Files>(rt: &R, name: &str) -> bool {
    match fs::exists(rt, name) {
        Ok(exists) => exists,
        Err(_) => panic!(rt; "{name} isn't looked at"),
    }
}

fn remove<R: Abort + Files>(rt: &R, name: &str) {
    assert_that_at(rt, rt.remove_file(name).is_ok(), name);
}

fn has<R: Abort + Files + Alloc>(rt: &R, name: &str, bytes: &[u8]) {
    match fs::read(rt, name) {
        Ok(found) => assert_same(rt, found.as_slice(), bytes),
        Err(_) => assert!(rt; false, "{name}"),
    }
}

// It is made, written, and read at the next fetch, fresh or not.
fn keeps_six<R: Abort + Files<File = File> + Alloc>(rt: &R, name: &str) {
    let mut shelf = shelf(rt);
    let mut disk = fetch(rt, &mut shelf, name, true);
    assert_same(rt, disk.len(), Ok(0));
    assert_same(rt, write_six(&mut disk), Ok(()));
    assert_same(rt, disk.len(), Ok(6));
    shelf.give_back(name, disk);
    has(rt, name, b"abCDEF");
    reads_four(rt, &mut shelf, name, false);
    reads_four(rt, &mut shelf, name, true);
    assert_same(rt, shelf.faults, 0);
}

fn reads_four<R: Abort + Files<File = File> + Alloc>(
    rt: &R,
    shelf: &mut FileShelf<&R>,
    name: &str,
    fresh: bool,
) {
    let mut disk = fetch(rt, shelf, name, fresh);
    assert_same(rt, read_four(&mut disk), Ok(*b"bCDE"));
    shelf.give_back(name, disk);
}

// What is written stands in the file of that name, and is there at the next fetch, fresh or not.
#[test]
fn a_file_keeps_what_is_written(rt: HostRuntime) {
    assert_that(&rt, fs::create_dir(&rt, "real_edge_files").is_ok());
    for name in ["real_edge_file", "real_edge_files/one"] {
        keeps_six(&rt, name);
        remove(&rt, name);
    }
    assert_that(&rt, fs::remove_dir(&rt, "real_edge_files").is_ok());
}

// A link leads to its file, also where it is fetched fresh, and to the folder of that file.
#[test]
fn a_link_leads_to_its_file(rt: HostRuntime) {
    assert_that(&rt, fs::create_dir(&rt, "real_edge_far").is_ok());
    put(&rt, "real_edge_far/one", b"abCDEF");
    assert_that(
        &rt,
        symlink(&rt, "real_edge_far/one", "real_edge_near").is_ok(),
    );
    let mut shelf = shelf(&rt);
    reads_four(&rt, &mut shelf, "real_edge_near", true);
    reads_four(&rt, &mut shelf, "real_edge_near", false);
    remove(&rt, "real_edge_near");
    remove(&rt, "real_edge_far/one");
    assert_that(&rt, fs::remove_dir(&rt, "real_edge_far").is_ok());
}

// How many of these calls on a file of three bytes end well.
fn past_end(disk: &mut FileDisk<File>) -> usize {
    let mut two = [0; 2];
    let calls = [
        disk.read(2, &mut two).is_ok(),
        disk.read(3, &mut two).is_ok(),
        disk.read(u64::MAX, &mut two).is_ok(),
        disk.read(4, &mut []).is_ok(),
        disk.write(4, b"x").is_ok(),
        disk.write(u64::MAX, b"").is_ok(),
    ];
    calls.iter().filter(|call| **call).count()
}

// A range that begins or is read past the end is a fault and changes nothing, and the shelf gets the faults of the file, which it
// leaves, since no fetch made it.
#[test]
fn a_file_refuses_what_lies_past_its_end(rt: HostRuntime) {
    put(&rt, "real_edge_end", b"abc");
    let mut shelf = shelf(&rt);
    let mut disk = fetch(&rt, &mut shelf, "real_edge_end", true);
    assert_same(&rt, past_end(&mut disk), 0);
    assert_same(&rt, disk.faults(), 6);
    assert_same(&rt, disk.read(3, &mut []), Ok(()));
    assert_same(&rt, disk.write(3, b"de"), Ok(()));
    assert_same(&rt, read_four(&mut disk), Ok(*b"bcde"));
    shelf.give_back("real_edge_end", disk);
    assert_same(&rt, shelf.faults, 6);
    has(&rt, "real_edge_end", b"abcde");
    remove(&rt, "real_edge_end");
}

// A file that a fetch made is gone once it comes back with a fault, and stays without one.
#[test]
fn a_file_made_in_vain_is_removed(rt: HostRuntime) {
    let mut shelf = shelf(&rt);
    let mut disk = fetch(&rt, &mut shelf, "real_edge_vain", true);
    assert_same(&rt, write_six(&mut disk), Ok(()));
    assert_that(&rt, disk.read(7, &mut []).is_err());
    shelf.give_back("real_edge_vain", disk);
    assert_that(&rt, !exists(&rt, "real_edge_vain"));
    let disk = fetch(&rt, &mut shelf, "real_edge_vain", true);
    shelf.give_back("real_edge_vain", disk);
    assert_that(&rt, exists(&rt, "real_edge_vain"));
    remove(&rt, "real_edge_vain");
}

// Refused by a fetch, fresh or not, with a fault for each.
fn refuses<R: Abort + Files<File = File> + Alloc>(rt: &R, name: &str) {
    let mut shelf = shelf(rt);
    assert_that_at(rt, shelf.fetch(name, false).is_err(), name);
    assert_that_at(rt, shelf.fetch(name, true).is_err(), name);
    assert_same(rt, shelf.faults, 2);
}

// A folder, a pipe and a device are no files, and nothing is written to them.
#[test]
fn a_file_alone_is_fetched(rt: HostRuntime) {
    assert_that(&rt, fs::create_dir(&rt, "real_edge_folder").is_ok());
    refuses(&rt, "real_edge_folder");
    assert_that(&rt, fs::remove_dir(&rt, "real_edge_folder").is_ok());
    refuses(&rt, "/dev/null");
    refuses_pipe(&rt);
}

// A pipe, under the name that the system gives it.
fn refuses_pipe<R: Abort + Files<File = File> + Alloc<A = Global>>(rt: &R) {
    let Ok((reader, writer)) = io::pipe(rt) else {
        panic!(rt; "no pipe");
    };
    match format!(in rt.alloc(); "/proc/self/fd/{}", reader.as_raw_fd()) {
        Ok(name) => refuses(rt, name.as_str()),
        Err(_) => assert!(rt; false, "no memory"),
    }
    drop(writer);
    assert_same(rt, left_in(reader), Ok(0));
}

// How many bytes of the first eight a pipe without writers has.
fn left_in(mut reader: PipeReader) -> Result<usize, Failed> {
    let mut eight = [0; 8];
    reader.read(&mut eight).map_err(|_| Failed)
}

// Each fetch that fails is one fault, and makes no file. A link that leads nowhere is not followed.
#[test]
fn a_fetch_that_fails_is_one_fault(rt: HostRuntime) {
    assert_that(
        &rt,
        symlink(&rt, "real_edge_missing", "real_edge_link").is_ok(),
    );
    const ROWS: [(&str, bool); 5] = [
        ("real_edge_missing", false),
        ("real_edge_link", true),
        ("real_edge_no_folder/one", true),
        (".", true),
        ("", true),
    ];
    let mut shelf = shelf(&rt);
    for &(name, fresh) in &ROWS {
        assert_that_at(&rt, shelf.fetch(name, fresh).is_err(), name);
    }
    assert_same(&rt, shelf.faults, 5);
    assert_that(&rt, !exists(&rt, "real_edge_missing"));
    remove(&rt, "real_edge_link");
}

// A file is out once, whichever shelf it is fetched from, until it is given back.
#[test]
fn a_file_that_is_out_is_not_fetched(rt: HostRuntime) {
    let mut one = shelf(&rt);
    let mut other = shelf(&rt);
    let disk = fetch(&rt, &mut one, "real_edge_out", true);
    assert_that(&rt, one.fetch("real_edge_out", true).is_err());
    assert_that(&rt, other.fetch("real_edge_out", false).is_err());
    one.give_back("real_edge_out", disk);
    let disk = fetch(&rt, &mut other, "real_edge_out", false);
    other.give_back("real_edge_out", disk);
    remove(&rt, "real_edge_out");
}
