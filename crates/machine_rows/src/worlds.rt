//! Sources, sinks and files, in memory and over the system.

use crate::answers::must_hold;
use ck_base::{
    Failed, FileError, Files, HostFiles, MemFiles, MemSink, MemSource, NoMemory, PutError, Sink,
    Source, StdInput, StdOutput, SureFiles, SureSink, SureSource,
};
use std::alloc::{AllocError, Global};
use std::io::{self, ErrorKind, Read};
use std::{fs, rt};

/// The next answer of a source.
type Answer = Result<Option<u8>, Failed>;

fn gives<S: Source>(source: &mut S, wanted: &[Answer]) -> bool {
    for answer in wanted {
        if source.next() != *answer {
            return false;
        }
    }
    true
}

/// What a sink is given, and its answer.
type Piece = (&'static [u8], Result<(), Failed>);

fn takes<S: Sink>(sink: &mut S, wanted: &[Piece]) -> bool {
    for (piece, answer) in wanted {
        if sink.put(*piece) != *answer {
            return false;
        }
    }
    true
}

const GIVEN: [Answer; 5] = [Ok(Some(10)), Err(Failed), Ok(Some(20)), Ok(None), Ok(None)];

/// Whether two bytes are given, where the second call fails.
fn gives_two(alloc: Global) -> Result<bool, AllocError> {
    let bytes = Vec::from_slice(alloc, &[10, 20])?;
    let mut source = MemSource::new(bytes, Vec::from_slice(alloc, &[2])?);
    Ok(gives(&mut source, &GIVEN))
}

const TAKEN: [Piece; 5] = [
    (b"ab", Ok(())),
    (b"x", Err(Failed)),
    (b"cd", Ok(())),
    (b"xx", Err(Failed)),
    (b"e", Ok(())),
];

/// Whether five bytes are taken, where the second call fails.
fn takes_five(alloc: Global) -> Result<bool, NoMemory> {
    let mut sink = MemSink::new(alloc, 5, Vec::from_slice(alloc, &[2])?)?;
    Ok(takes(&mut sink, &TAKEN) && sink.bytes() == b"abcde".as_slice())
}

/// A call of files, and its answer.
#[derive(Clone, Copy)]
enum Call {
    Get(&'static str, Result<&'static [u8], FileError>),
    Put(&'static str, &'static [u8], Result<(), PutError>),
}

fn is_read<F: Files>(
    alloc: Global,
    files: &mut F,
    name: &str,
    answer: Result<&[u8], FileError>,
) -> bool {
    match files.get(alloc, name) {
        Ok(bytes) => matches!(answer, Ok(wanted) if bytes.as_slice() == wanted),
        Err(error) => matches!(answer, Err(wanted) if error == wanted),
    }
}

fn are_so<F: Files>(alloc: Global, files: &mut F, calls: &[Call]) -> bool {
    for call in calls {
        let is_so = match *call {
            Call::Get(name, answer) => is_read(alloc, files, name, answer),
            Call::Put(name, bytes, answer) => files.put(alloc, name, bytes) == answer,
        };
        if !is_so {
            return false;
        }
    }
    true
}

/// Files in memory, of which the second and the fifth call fail.
fn files(alloc: Global) -> Result<MemFiles, AllocError> {
    let name = String::from_str(alloc, "a.c")?;
    let names = vec![in alloc; name]?;
    let bytes = Vec::from_slice(alloc, b"first")?;
    let contents = vec![in alloc; bytes]?;
    Ok(MemFiles::new(names, contents, Vec::from_slice(alloc, &[2, 5])?))
}

const FAILING: [Call; 8] = [
    Call::Get("a.c", Ok(b"first")),
    Call::Get("a.c", Err(FileError::Failed)),
    Call::Get("b.c", Err(FileError::Missing)),
    Call::Put("b.c", b"", Ok(())),
    Call::Put("a.c", b"lost", Err(PutError::Failed)),
    Call::Put("a.c", b"new", Ok(())),
    Call::Get("a.c", Ok(b"new")),
    Call::Get("b.c", Ok(b"")),
];

fn serve(alloc: Global, files: &mut MemFiles) -> bool {
    are_so(alloc, files, &FAILING) && files.contents("a.c") == Some(b"new".as_slice())
}

fn files_serve(alloc: Global) -> bool {
    match files(alloc) {
        Ok(mut files) => serve(alloc, &mut files),
        Err(_) => false,
    }
}

fn sure_source_gives(alloc: Global) -> Result<bool, AllocError> {
    let bytes = Vec::from_slice(alloc, &[10])?;
    Ok(gives(&mut SureSource::new(bytes), &[Ok(Some(10)), Ok(None)]))
}

const SURE: [Call; 3] = [
    Call::Put("a.c", b"first", Ok(())),
    Call::Get("a.c", Ok(b"first")),
    Call::Get("b.c", Err(FileError::Missing)),
];

fn sure_files_serve(alloc: Global) -> bool {
    let mut files = SureFiles::new(Vec::new(alloc), Vec::new(alloc));
    are_so(alloc, &mut files, &SURE)
}

/// Whether objects in memory fail in the calls that are told.
fn told_objects_serve(alloc: Global) -> bool {
    matches!(gives_two(alloc), Ok(true))
        && matches!(takes_five(alloc), Ok(true))
        && files_serve(alloc)
}

/// Whether those that do not fail serve.
fn sure_objects_serve(alloc: Global) -> bool {
    matches!(sure_source_gives(alloc), Ok(true))
        && takes(&mut SureSink::new(), &[(b"ab", Ok(()))])
        && sure_files_serve(alloc)
}

/// Gives a byte of 7 at each read but the second, which fails.
#[derive(Drop)]
struct FailsOnce {
    reads: u64,
}

impl Read for FailsOnce {
    fn read(&mut self, buf: &mut [u8]) -> io::Result<usize> {
        self.reads = self.reads.saturating_add(1);
        if self.reads == 2 {
            return Err(io::Error::from(ErrorKind::BrokenPipe));
        }
        if buf.is_empty() {
            return Ok(0);
        }
        buf[0] = 7;
        Ok(1)
    }
}

const READ_OUT: [Answer; 4] = [Ok(Some(b'a')), Ok(Some(b'b')), Ok(None), Ok(None)];

const READ_ON: [Answer; 3] = [Ok(Some(7)), Err(Failed), Ok(Some(7))];

fn input_ends_with_its_reader() -> bool {
    gives(&mut StdInput::new(b"ab".as_slice()), &READ_OUT)
}

fn input_goes_on_after_a_fault() -> bool {
    gives(&mut StdInput::new(FailsOnce { reads: 0 }), &READ_ON)
}

const WRITTEN: [Piece; 3] = [(b"ab", Ok(())), (b"cd", Err(Failed)), (b"", Ok(()))];

fn output_fails_where_its_writer_takes_nothing() -> bool {
    let mut room = [0u8; 3];
    takes(&mut StdOutput::new(room.as_mut_slice()), &WRITTEN) && room == *b"abc"
}

const FILE_NAME: &str = "ck_base_test.bin";

const THERE: [Call; 4] = [
    Call::Get(FILE_NAME, Err(FileError::Failed)),
    Call::Put(FILE_NAME, b"\0\xff\n", Ok(())),
    Call::Put("ck_base_no_folder/a", b"", Err(PutError::Failed)),
    Call::Get(FILE_NAME, Ok(b"\0\xff\n")),
];

fn come_back<R: rt::Files + Drop>(alloc: Global, system: R) -> bool {
    are_so(alloc, &mut HostFiles::new(system), &THERE)
}

fn is_removed(system: &impl rt::Files) -> bool {
    fs::remove_file(system, FILE_NAME).is_ok()
}

/// Whether input goes on after a fault, and ends with its reader, and output fails where its writer takes nothing.
fn streams_serve() -> bool {
    input_ends_with_its_reader()
        && input_goes_on_after_a_fault()
        && output_fails_where_its_writer_takes_nothing()
}

#[test]
fn objects_serve_in_memory_and_over_the_system(rt: HostRuntime) {
    must_hold(&rt, "told objects", told_objects_serve(rt.alloc()));
    must_hold(&rt, "sure objects", sure_objects_serve(rt.alloc()));
    must_hold(&rt, "streams", streams_serve());
    let _ = is_removed(&rt);
    let system = rt.clone().expect(&rt, "memory");
    must_hold(
        &rt,
        "files come back as they were put",
        come_back(rt.alloc(), system),
    );
    must_hold(&rt, "their file is removed", is_removed(&rt));
}
