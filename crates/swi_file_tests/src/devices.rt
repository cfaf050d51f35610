ghost use Rattle.std.specs.Prelude.{◌≡◌, ◌<◌, [], ◌∷◌, length, None, Some};
ghost use Rattle.swi_devices.specs.Stored.{lookup};

use std::alloc::Global;
use std::process::Abort;
use std::test::Fail;
use std::{fs, io};
use swi_devices::{
    FaultRam, Folder, FolderShelf, MemShelf, MemSink, MemSource, RealSink, RealSource,
    SystemFolder, VecRam,
};
use swi_outside::{CacheRam, Failed, Shelf, ShelfError, Sink, Source, Words};

/// Reads into a buffer, once for each row: the answer, and what the buffer then holds.
fn assert_reads<S: Source>(
    rt: &impl Abort,
    source: &mut S,
    buf: &mut [u8],
    turns: &[(Result<usize, Failed>, &[u8])],
)
    requires { 0 < length buf.old }
{
    for &(answer, held) in turns {
        let read = source.read(buf);
        assert_eq!(rt; (read, &*buf), (answer, held));
    }
}

/// Writes each piece in turn, which is to be answered so.
fn assert_writes<S: Sink>(rt: &impl Abort, sink: &mut S, turns: &[(&[u8], Result<(), Failed>)]) {
    for (piece, answer) in turns {
        assert_eq!(rt; sink.write(piece), *answer);
    }
}

/// A call of a shelf, and what it is to answer.
#[derive(Clone, Copy)]
enum Turn<'a> {
    /// The content under a name, of at most so many bytes.
    Get(&'a str, u32, Result<&'a [u8], ShelfError>),
    /// These bytes are put under a name.
    Put(&'a str, &'a [u8], Result<(), ShelfError>),
}

/// Whether a shelf gave these bytes, or this error.
fn is_answer(given: &Result<Vec<u8>, ShelfError>, wanted: Result<&[u8], ShelfError>) -> bool {
    match (given, wanted) {
        (Ok(bytes), Ok(wanted)) => bytes.as_slice() == wanted,
        (Err(error), Err(wanted)) => *error == wanted,
        _ => false,
    }
}

/// Makes each call in turn.
fn assert_turns<S: Shelf>(rt: &impl Abort, shelf: &mut S, alloc: Global, turns: &[Turn<'_>]) {
    for (k, turn) in turns.iter().enumerate() {
        match turn {
            Turn::Get(name, limit, wanted) => {
                let given = shelf.get(alloc, name, *limit);
                assert!(rt; is_answer(&given, *wanted), "turn {k}");
            }
            Turn::Put(name, bytes, wanted) => {
                assert_eq!(rt; shelf.put(alloc, name, bytes), *wanted, "turn {k}");
            }
        }
    }
}

fn set_then_fetch<R: CacheRam>(
    ram: &mut R,
    i: u32,
    w: u32,
) -> (Result<(), Failed>, Result<u32, Failed>)
    requires { i < length (R.state ram.old).words }
    ensures { length (R.state ram.new).words ≡ length (R.state ram.old).words }
{
    let set = ram.set(i, w);
    (set, ram.fetch(i))
}

/// A shelf in memory is to hold these bytes under each name, or nothing.
fn assert_held(rt: &impl Abort, shelf: &MemShelf, rows: &[(&str, Option<&[u8]>)]) {
    for &(name, bytes) in rows {
        assert_eq!(rt; shelf.held(name), bytes, "{name}");
    }
}

/// Sets a word and fetches it, once for each row: its place, the word, and the two answers.
fn assert_words<R: CacheRam>(
    rt: &impl Abort,
    ram: &mut R,
    turns: &[(u32, u32, Result<(), Failed>, Result<u32, Failed>)],
) {
    for (i, w, set, fetched) in turns {
        assert!(rt; *i < ram.words(), "no word {i}");
        assert_eq!(rt; set_then_fetch(ram, *i, *w), (*set, *fetched));
    }
}

/// Two words.
#[derive(Drop)]
struct Two(u32, u32);

impl Words for Two {
    ghost items = { λ t. t.0 ∷ t.1 ∷ [] };

    fn count(&self) -> u32 {
        2
    }

    fn word(&self, k: u32) -> u32 {
        if k == 0 { self.0 } else { self.1 }
    }
}

/// Puts 5 and 6 from index 1 on into a ram of four words, which is to answer so, and then to the fetch of each word.
fn assert_two<R: CacheRam>(
    rt: &impl Abort,
    ram: &mut R,
    answer: Result<(), Failed>,
    held: &[Result<u32, Failed>; 4],
) {
    assert!(rt; ram.words() == 4, "other words");
    assert_eq!(rt; ram.set_all(1, &Two(5, 6)), answer);
    let now = [ram.fetch(0), ram.fetch(1), ram.fetch(2), ram.fetch(3)];
    assert_eq!(rt; now, *held);
}

/// Reads of `abc` by two bytes, of which the second fails.
static FIRST_READS: [(Result<usize, Failed>, &[u8]); 2] = [(Ok(2), b"ab"), (Err(Failed), b"ab")];

static LAST_READS: [(Result<usize, Failed>, &[u8]); 2] = [(Ok(1), b"cb"), (Ok(0), b"cb")];

#[test]
fn source_in_memory_gives_its_bytes_in_turn_and_fails_where_listed(
    rt: HostRuntime,
) -> Result<(), Fail> {
    let alloc = rt.alloc();
    let mut source = MemSource::new(b"abc".to_vec(alloc)?, [2].to_vec(alloc)?);
    let mut buf = [0; 2];
    assert_reads(&rt, &mut source, &mut buf, &FIRST_READS);
    assert_eq!(rt; source.left(), b"c".as_slice());
    assert_reads(&rt, &mut source, &mut buf, &LAST_READS);
    Ok(())
}

/// Pieces for a sink of four bytes whose second call fails, the answers, and what it then holds.
static MEMORY_WRITES: [(&[u8], Result<(), Failed>, &[u8]); 5] = [
    (b"abc", Ok(()), b"abc"),
    (b"x", Err(Failed), b"abc"),
    (b"de", Err(Failed), b"abcd"),
    (b"", Ok(()), b"abcd"),
    (b"f", Err(Failed), b"abcd"),
];

#[test]
fn sink_in_memory_holds_what_fits_and_fails_where_listed(rt: HostRuntime) -> Result<(), Fail> {
    let alloc = rt.alloc();
    let mut sink = MemSink::new(alloc, 4, [2].to_vec(alloc)?)?;
    for &(piece, answer, held) in MEMORY_WRITES.iter() {
        let written = sink.write(piece);
        assert_eq!(rt; (written, sink.held()), (answer, held));
    }
    Ok(())
}

/// Calls of a shelf with `xyz` under `a`, of which the fifth fails.
static MEMORY_TURNS: [Turn<'static>; 6] = [
    Turn::Get("a", 3, Ok(b"xyz")),
    Turn::Get("a", 2, Err(ShelfError::Long)),
    Turn::Get("b", 3, Err(ShelfError::Failed)),
    Turn::Put("b", b"12", Ok(())),
    Turn::Put("a", b"0", Err(ShelfError::Failed)),
    Turn::Put("b", b"345", Ok(())),
];

static MEMORY_HELD: [(&str, Option<&[u8]>); 3] = [
    ("a", Some(b"xyz")),
    ("b", Some(b"345")),
    ("c", None),
];

#[test]
fn shelf_in_memory_keeps_contents_and_fails_where_listed(rt: HostRuntime) -> Result<(), Fail> {
    let alloc = rt.alloc();
    let name = String::from_str(alloc, "a")?;
    let contents = vec![in alloc; (name, b"xyz".to_vec(alloc)?)]?;
    let mut shelf = MemShelf::new(contents, [5].to_vec(alloc)?);
    assert_turns(&rt, &mut shelf, alloc, &MEMORY_TURNS);
    assert_held(&rt, &shelf, &MEMORY_HELD);
    Ok(())
}

#[test]
fn ram_keeps_what_was_set(rt: HostRuntime) -> Result<(), Fail> {
    let alloc = rt.alloc();
    let mut ram = VecRam::new(alloc, 4)?;
    assert_words(&rt, &mut ram, &[(1, 7, Ok(()), Ok(7))]);
    assert_eq!(rt; ram.words(), 4);
    assert_eq!(rt; (ram.word(1), ram.word(2)), (7, 0));
    Ok(())
}

/// Words of a ram whose third and sixth calls fail.
static FAULTY_WORDS: [(u32, u32, Result<(), Failed>, Result<u32, Failed>); 3] = [
    (1, 7, Ok(()), Ok(7)),
    (1, 8, Err(Failed), Ok(7)),
    (2, 9, Ok(()), Err(Failed)),
];

#[test]
fn ram_with_faults_fails_where_listed(rt: HostRuntime) -> Result<(), Fail> {
    let alloc = rt.alloc();
    let mut ram = FaultRam::new(alloc, 4, [3, 6].to_vec(alloc)?)?;
    assert_words(&rt, &mut ram, &FAULTY_WORDS);
    assert_eq!(rt; ram.words(), 4);
    assert_eq!(rt; (ram.word(1), ram.word(2)), (7, 9));
    assert_eq!(rt; (ram.fetches(), ram.sets()), (2, 2));
    Ok(())
}

#[test]
fn rams_put_words_one_behind_the_other(rt: HostRuntime) -> Result<(), Fail> {
    let alloc = rt.alloc();
    let mut ram = VecRam::new(alloc, 4)?;
    assert_two(&rt, &mut ram, Ok(()), &[Ok(0), Ok(5), Ok(6), Ok(0)]);
    let mut faulty = FaultRam::new(alloc, 4, [2].to_vec(alloc)?)?;
    assert_two(&rt, &mut faulty, Err(Failed), &[Ok(0), Ok(5), Ok(0), Ok(0)]);
    assert_two(&rt, &mut faulty, Ok(()), &[Ok(0), Ok(5), Ok(6), Ok(0)]);
    assert_eq!(rt; faulty.sets(), 3);
    Ok(())
}

/// A reader that fails at its second call, and a writer that takes two bytes a call, then nothing.
#[derive(Drop)]
struct Faulty {
    calls: u32,
}

impl io::Read for Faulty {
    fn read(&mut self, buf: &mut [u8]) -> io::Result<usize> {
        self.calls = self.calls.saturating_add(1);
        if self.calls == 2 || buf.is_empty() {
            return Err(io::Error::from(io::ErrorKind::BrokenPipe));
        }
        buf[0] = b'a';
        Ok(1)
    }
}

impl io::Write for Faulty {
    fn write(&mut self, buf: &[u8]) -> io::Result<usize> {
        self.calls = self.calls.saturating_add(1);
        if self.calls > 3 {
            return Ok(0);
        }
        Ok(buf.len().min(2))
    }

    fn flush(&mut self) -> io::Result<()> {
        Ok(())
    }
}

static BROKEN_READS: [(Result<usize, Failed>, &[u8]); 3] = [
    (Ok(1), b"a\0"),
    (Err(Failed), b"a\0"),
    (Ok(1), b"a\0"),
];

#[test]
fn source_over_a_reader_answers_its_errors(rt: HostRuntime) -> Result<(), Fail> {
    let mut source = RealSource::new(Faulty { calls: 0 });
    assert_reads(&rt, &mut source, &mut [0; 2], &BROKEN_READS);
    Ok(())
}

static WHOLE_WRITES: [(&[u8], Result<(), Failed>); 2] = [(b"abc", Ok(())), (b"de", Ok(()))];

static STUCK_WRITES: [(&[u8], Result<(), Failed>); 3] = [
    (b"abcde", Ok(())),
    (b"", Ok(())),
    (b"f", Err(Failed)),
];

#[test]
fn sink_over_a_writer_writes_whole_pieces(rt: HostRuntime) -> Result<(), Fail> {
    let alloc = rt.alloc();
    let mut bytes = Vec::new(alloc);
    let mut whole = RealSink::new(&mut bytes);
    assert_writes(&rt, &mut whole, &WHOLE_WRITES);
    drop(whole);
    assert_eq!(rt; bytes.as_slice(), b"abcde".as_slice());
    let mut stuck = RealSink::new(Faulty { calls: 0 });
    assert_writes(&rt, &mut stuck, &STUCK_WRITES);
    Ok(())
}

const FILE: &str = "swi_outside-shelf-test";

/// Calls over files: a put and one of fewer bytes, and gets.
static FILE_TURNS: [Turn<'static>; 4] = [
    Turn::Put(FILE, b"longer than it was", Ok(())),
    Turn::Put(FILE, b"xyz", Ok(())),
    Turn::Get(FILE, 3, Ok(b"xyz")),
    Turn::Get(FILE, 2, Err(ShelfError::Long)),
];

/// Calls where the file is gone, or the folder isn't there.
static MISSING_TURNS: [Turn<'static>; 2] = [
    Turn::Get(FILE, 3, Err(ShelfError::Failed)),
    Turn::Put("no-such-folder/x", b"1", Err(ShelfError::Failed)),
];

#[test]
fn shelf_over_files_puts_and_gets(rt: HostRuntime) -> Result<(), Fail> {
    let alloc = rt.alloc();
    let mut shelf = FolderShelf::new(SystemFolder::new(&rt));
    assert_turns(&rt, &mut shelf, alloc, &FILE_TURNS);
    fs::remove_file(&rt, FILE)?;
    assert_turns(&rt, &mut shelf, alloc, &MISSING_TURNS);
    Ok(())
}

static ENDING_READS: [(Result<usize, Failed>, &[u8]); 2] = [(Ok(2), b"ab\0\0"), (Ok(0), b"ab\0\0")];

#[test]
fn source_over_a_reader_ends_where_it_ends(rt: HostRuntime) -> Result<(), Fail> {
    let mut source = RealSource::new(b"ab".as_slice());
    assert_reads(&rt, &mut source, &mut [0; 4], &ENDING_READS);
    Ok(())
}

/// A reader that gives a byte, then none, then bytes again.
#[derive(Drop)]
struct Resuming {
    calls: u32,
}

impl io::Read for Resuming {
    fn read(&mut self, buf: &mut [u8]) -> io::Result<usize> {
        self.calls = self.calls.saturating_add(1);
        if self.calls == 2 || buf.is_empty() {
            return Ok(0);
        }
        buf[0] = b'a';
        Ok(1)
    }
}

static RESUMED_READS: [(Result<usize, Failed>, &[u8]); 3] = [
    (Ok(1), b"a\0"),
    (Ok(0), b"a\0"),
    (Ok(0), b"a\0"),
];

#[test]
fn source_over_a_reader_gives_nothing_behind_its_end(rt: HostRuntime) -> Result<(), Fail> {
    let mut reader = Resuming { calls: 0 };
    let mut source = RealSource::new(&mut reader);
    assert_reads(&rt, &mut source, &mut [0; 2], &RESUMED_READS);
    drop(source);
    assert_eq!(rt; reader.calls, 2);
    Ok(())
}

const SHORT_FILE: &str = "swi_outside-shelf-short";

const LONG_FILE: &str = "swi_outside-shelf-long";

/// Puts two files, the second of these bytes, and gets them.
fn assert_two_files<S: Shelf>(rt: &impl Abort, shelf: &mut S, alloc: Global, long: &[u8]) {
    let turns = [
        Turn::Put(SHORT_FILE, b"12", Ok(())),
        Turn::Put(LONG_FILE, long, Ok(())),
        Turn::Get(SHORT_FILE, 1 << 21, Ok(b"12")),
        Turn::Get(LONG_FILE, 1 << 21, Ok(long)),
        Turn::Get(LONG_FILE, 1 << 20, Err(ShelfError::Long)),
    ];
    assert_turns(rt, shelf, alloc, &turns);
}

#[test]
fn shelf_over_files_keeps_two_files_apart_and_gets_more_than_a_mebibyte(
    rt: HostRuntime,
) -> Result<(), Fail> {
    let alloc = rt.alloc();
    let mut shelf = FolderShelf::new(SystemFolder::new(&rt));
    let mut long = vec![in alloc; 7u8; (1 << 20) + 1]?;
    long[9000] = 8;
    assert_two_files(&rt, &mut shelf, alloc, &long);
    fs::remove_file(&rt, SHORT_FILE)?;
    fs::remove_file(&rt, LONG_FILE)?;
    Ok(())
}

/// Files in memory, which tells them: a shelf's contents. It takes what a file's name is from `create`
/// and `close` alone.
#[derive(Drop)]
struct MemFolder<'a> {
    alloc: Global,
    files: &'a mut MemShelf,
}

impl<'a> Folder for MemFolder<'a> {
    ghost contents = { λ f. Some (lookup f.files.now.entries) };

    type Reader = io::Cursor<Vec<u8>>;

    type Writer = Vec<u8>;

    fn open(&mut self, name: &str) -> Result<io::Cursor<Vec<u8>>, Failed> {
        let Some(bytes) = self.files.held(name) else {
            return Err(Failed);
        };
        let copy = Vec::from_slice(self.alloc, bytes).map_err(|_| Failed)?;
        Ok(io::Cursor::new(copy))
    }

    fn create(&mut self, _name: &str) -> Result<Vec<u8>, Failed> {
        Ok(Vec::new(self.alloc))
    }

    fn close(&mut self, name: &str, file: Vec<u8>) -> Result<(), Failed> {
        self.files
            .put(self.alloc, name, file.as_slice())
            .map_err(|_| Failed)
    }
}

/// A folder whose files are read and written as `Faulty` is. It tells no contents.
#[derive(Drop)]
struct FaultyFolder {}

impl Folder for FaultyFolder {
    ghost contents = { λ _. None };

    type Reader = Faulty;

    type Writer = Faulty;

    fn open(&mut self, _name: &str) -> Result<Faulty, Failed> {
        Ok(Faulty { calls: 0 })
    }

    fn create(&mut self, _name: &str) -> Result<Faulty, Failed> {
        Ok(Faulty { calls: 0 })
    }

    fn close(&mut self, _name: &str, _file: Faulty) -> Result<(), Failed> {
        Ok(())
    }
}

static FAULTY_TURNS: [Turn<'static>; 3] = [
    Turn::Get("a", 9, Err(ShelfError::Failed)),
    Turn::Put("a", b"abcdef", Ok(())),
    Turn::Put("a", b"abcdefg", Err(ShelfError::Failed)),
];

#[test]
fn shelf_over_files_that_fail_in_their_midst_answers_it(rt: HostRuntime) -> Result<(), Fail> {
    let alloc = rt.alloc();
    let mut shelf = FolderShelf::new(FaultyFolder {});
    assert_turns(&rt, &mut shelf, alloc, &FAULTY_TURNS);
    Ok(())
}

/// Files under `kept` and `changed`, of which the third that is closed fails.
fn two_files(alloc: Global) -> Result<MemShelf, Fail> {
    let kept = (
        String::from_str(alloc, "kept")?,
        b"as it was".to_vec(alloc)?,
    );
    let changed = (String::from_str(alloc, "changed")?, b"old".to_vec(alloc)?);
    Ok(MemShelf::new(vec![in alloc; kept, changed]?, [3].to_vec(alloc)?))
}

/// Puts these bytes under `changed` and others under two more names, and gets them.
fn assert_changes<S: Shelf>(rt: &impl Abort, shelf: &mut S, alloc: Global, long: &[u8]) {
    let turns = [
        Turn::Put("changed", long, Ok(())),
        Turn::Put("new", b"", Ok(())),
        Turn::Put("third", b"1", Err(ShelfError::Failed)),
        Turn::Get("changed", 10_000, Ok(long)),
        Turn::Get("changed", 9_999, Err(ShelfError::Long)),
        Turn::Get("third", 9, Err(ShelfError::Failed)),
    ];
    assert_turns(rt, shelf, alloc, &turns);
}

#[test]
fn shelf_over_a_folder_in_memory_changes_the_one_file(rt: HostRuntime) -> Result<(), Fail> {
    let alloc = rt.alloc();
    let mut files = two_files(alloc)?;
    let mut long = vec![in alloc; 7u8; 10_000]?;
    long[9000] = 8;
    let mut shelf = FolderShelf::new(MemFolder {
        alloc,
        files: &mut files,
    });
    assert_changes(&rt, &mut shelf, alloc, &long);
    drop(shelf);
    let held = [
        ("kept", Some(b"as it was".as_slice())),
        ("changed", Some(long.as_slice())),
        ("new", Some(b"".as_slice())),
        ("third", None),
    ];
    assert_held(&rt, &files, &held);
    Ok(())
}
