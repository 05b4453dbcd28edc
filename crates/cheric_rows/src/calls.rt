//! Calls of the command over files, an input and sinks in memory.

ghost use Rattle.std.specs.Prelude.{◌≡◌, ◌<◌, ◌-◌, ◌^◌, IfOk};

use cheric_build::build;
use cheric_top::cheric;
use ck_base::{Files, MemFiles, MemSink, MemSource, NoMemory, Refusal, SureFiles};
use std::alloc::Global;
use std::process::Abort;

/// A status, and all that is put to the output and to the notes.
pub type Answer<'a> = (u8, &'a str, &'a str);

/// The numbers of the calls that fail (0: none) of the files, the input, the output and the notes.
pub type Failing = [u64; 4];

pub const SURE: Failing = [0; 4];

/// One file of this name, and the number of the call of the files that fails (0: none).
pub fn one_file(alloc: Global, name: &str, bytes: &[u8], failing: u64) -> Result<MemFiles, NoMemory>
    ensures { IfOk result (λ files. files.faults ≡ 0) }
{
    let names = vec![in alloc; String::from_str(alloc, name)?]?;
    let contents = vec![in alloc; Vec::from_slice(alloc, bytes)?]?;
    Ok(MemFiles::new(names, contents, vec![in alloc; failing]?))
}

/// A C file `a.c`, and another file `a.c.elf`.
fn two_files(alloc: Global, file: &[u8], elf: Vec<u8>) -> Result<SureFiles, NoMemory> {
    let name = String::from_str(alloc, "a.c")?;
    let names = vec![in alloc; name, String::from_str(alloc, "a.c.elf")?]?;
    let contents = vec![in alloc; Vec::from_slice(alloc, file)?, elf]?;
    Ok(SureFiles::new(names, contents))
}

/// What is built of a file, and how many steps it is given for each turn.
pub fn elf_and_count(alloc: Global, file: &[u8]) -> Result<(Vec<u8>, u64), Refusal> {
    let built = build(alloc, file)?;
    Ok((built.elf, built.count))
}

/// What is built of a file.
pub fn elf_of(alloc: Global, file: &[u8]) -> Result<Vec<u8>, Refusal> {
    Ok(elf_and_count(alloc, file)?.0)
}

/// A C file `a.c`, and what is built of it as `a.c.elf`.
pub fn built(alloc: Global, file: &[u8]) -> Result<SureFiles, Refusal> {
    Ok(two_files(alloc, file, elf_of(alloc, file)?)?)
}

pub fn words_of(alloc: Global, words: &str) -> Result<Vec<String>, NoMemory> {
    let mut all = Vec::new(alloc);
    for word in words.split_ascii_whitespace() {
        all.push(String::from_str(alloc, word)?)?;
    }
    Ok(all)
}

/// An input of which the call with this number fails (0: none).
fn source(alloc: Global, input: &str, failing: u64) -> Result<MemSource, NoMemory>
    ensures { IfOk result (λ source. source.faults ≡ 0) }
{
    let bytes = Vec::from_slice(alloc, input.as_bytes())?;
    Ok(MemSource::new(bytes, vec![in alloc; failing]?))
}

/// An output of 1,048,576 bytes, of which the call with this number fails (0: none).
fn sink(alloc: Global, failing: u64) -> Result<MemSink, NoMemory>
    ensures { IfOk result (λ sink. sink.faults ≡ 0) }
{
    MemSink::new(alloc, 1_048_576, vec![in alloc; failing]?)
}

/// What a call answers: its status, and all that is put to the output and to the notes.
type Answered = (u8, Vec<u8>, Vec<u8>);

/// What the command answers to these words on an input, where the calls with these numbers fail.
fn answered<F: Files>(
    alloc: Global,
    files: &mut F,
    words: &str,
    input: &str,
    failing: Failing,
) -> Result<Answered, NoMemory>
    requires { F.faults files.old < 2 ^ 64 - 1 }
{
    let [_, read, byte, note] = failing;
    let words = words_of(alloc, words)?;
    let mut input = source(alloc, input, read)?;
    let mut out = sink(alloc, byte)?;
    let mut notes = sink(alloc, note)?;
    let status = cheric(alloc, &words, files, &mut input, &mut out, &mut notes);
    let put = Vec::from_slice(alloc, out.bytes())?;
    Ok((status, put, Vec::from_slice(alloc, notes.bytes())?))
}

/// Whether the command answers these words so on an input, where the calls with these numbers fail.
pub fn answers<F: Files>(
    alloc: Global,
    files: &mut F,
    words: &str,
    input: &str,
    failing: Failing,
    answer: Answer<'_>,
) -> Result<bool, NoMemory>
    requires { F.faults files.old < 2 ^ 64 - 1 }
{
    let (status, put, line) = answer;
    let got = answered(alloc, files, words, input, failing)?;
    Ok(got.0 == status && got.1.as_slice() == put.as_bytes() && got.2.as_slice() == line.as_bytes())
}

/// What the command puts to the output on these words and the C file `a.c`; nothing where it does not end by 0.
pub fn put_of(alloc: Global, file: &[u8], words: &str) -> Result<String, NoMemory> {
    let mut files = one_file(alloc, "a.c", file, 0)?;
    let (status, put, _) = answered(alloc, &mut files, words, "", SURE)?;
    let put = if status == 0 { put } else { Vec::new(alloc) };
    Ok(String::from_utf8_lossy(alloc, &put)?)
}

/// Whether the command answers these words so on one file of this name, leaves it as it was and puts no `a.c.elf`.
pub fn answers_on(
    alloc: Global,
    name: &str,
    bytes: &[u8],
    words: &str,
    input: &str,
    failing: Failing,
    answer: Answer<'_>,
) -> Result<bool, NoMemory> {
    let mut files = one_file(alloc, name, bytes, failing[0])?;
    let is_answered = answers(alloc, &mut files, words, input, failing, answer)?;
    Ok(is_answered && files.contents(name) == Some(bytes) && files.contents("a.c.elf").is_none())
}

/// The same on the C file `a.c`, without input and faults.
pub fn is_answered(alloc: Global, file: &[u8], words: &str, answer: Answer<'_>) -> bool {
    answers_on(alloc, "a.c", file, words, "", SURE, answer).unwrap_or(false)
}

/// A C file, with the status, output and line of an answer.
pub type Row = (&'static str, u8, &'static str, &'static str);

/// Each of the programs is answered so by these words.
pub fn programs_are_answered(rt: &impl Abort, alloc: Global, words: &str, rows: &[Row]) {
    for &(file, status, put, line) in rows {
        assert!(rt;
            is_answered(alloc, file.as_bytes(), words, (status, put, line)),
            "{words}: {file}"
        );
    }
}

/// The first field of a row, up to a `|`, and those behind.
fn field(row: &str) -> (&str, &str) {
    match row.split_once('|') {
        Some((first, behind)) => (first.trim(), behind),
        None => (row.trim(), ""),
    }
}

/// An answer as a row says it: `STATUS | LINE | PUT`, where a `/` in what is put ends a line, and fields that are left
/// out are empty. No line is put for an empty one.
#[derive(Drop)]
struct Said {
    status: u8,
    put: String,
    line: String,
}

fn answer_of(alloc: Global, row: &str) -> Option<Said> {
    let (status, behind) = field(row);
    let (line, behind) = field(behind);
    let (put, _) = field(behind);
    let end = if line.is_empty() { "" } else { "\n" };
    let status = status.parse::<u8>().ok()?;
    let put = put.replace(alloc, "/", "\n").ok()?;
    let line = format!(in alloc; "{line}{end}").ok()?;
    Some(Said { status, put, line })
}

/// Whether a file is answered so by these words. A row is the answer, maybe with a remark as the last field, and the
/// file from the next line on.
pub fn is_file_so(alloc: Global, words: &str, row: &str) -> Option<bool> {
    let (head, file) = row.split_once('\n').unwrap_or((row, ""));
    let said = answer_of(alloc, head)?;
    let answer = (said.status, said.put.as_str(), said.line.as_str());
    Some(is_answered(alloc, file.as_bytes(), words, answer))
}

/// Each of the files is answered so by these words. An empty line ends a row.
pub fn files_are_answered(rt: &impl Abort, alloc: Global, words: &str, rows: &str) {
    for row in rows.split("\n\n") {
        assert!(rt;
            is_file_so(alloc, words, row) == Some(true),
            "{words}: {row}"
        );
    }
}

/// Calls on a C file `a.c` and an input, each on files of its own; whether `a.c.elf` is built of it before. Each line
/// of the cases is a call, `WORDS ! FAILING | STATUS | LINE | PUT`, or a remark behind `//`.
pub struct Table {
    pub file: &'static str,
    pub is_built: bool,
    pub input: &'static str,
    pub cases: &'static str,
}

/// The numbers of the calls that fail, as `0 1 0 0`.
fn failing(text: &str) -> Option<Failing> {
    let mut all = SURE;
    for (k, word) in text.split_ascii_whitespace().enumerate() {
        *all.get_mut(k)? = word.parse::<u64>().ok()?;
    }
    Some(all)
}

/// The words of a call and the numbers of the calls that fail, and how it is answered.
fn call(case: &str) -> Option<(&str, Failing, &str)> {
    let (call, answer) = field(case);
    let (words, faults) = call.split_once('!').unwrap_or((call, ""));
    Some((words, failing(faults)?, answer))
}

/// Whether a call is answered so on one file of this name, which it leaves as it was.
pub fn is_call_so(
    alloc: Global,
    name: &str,
    bytes: &[u8],
    input: &str,
    case: &str,
) -> Option<bool> {
    let (words, faults, answer) = call(case)?;
    let said = answer_of(alloc, answer)?;
    let answer = (said.status, said.put.as_str(), said.line.as_str());
    answers_on(alloc, name, bytes, words, input, faults, answer).ok()
}

/// The same beside what is built of the file.
fn is_built_so(alloc: Global, table: &Table, case: &str) -> Option<bool> {
    let (words, faults, answer) = call(case)?;
    let said = answer_of(alloc, answer)?;
    let answer = (said.status, said.put.as_str(), said.line.as_str());
    let mut files = built(alloc, table.file.as_bytes()).ok()?;
    answers(alloc, &mut files, words, table.input, faults, answer).ok()
}

/// Whether a call of a table is answered so.
fn is_so(alloc: Global, table: &Table, case: &str) -> Option<bool> {
    if table.is_built {
        is_built_so(alloc, table, case)
    } else {
        is_call_so(alloc, "a.c", table.file.as_bytes(), table.input, case)
    }
}

/// Each call of the tables is answered so.
pub fn calls_are_answered(rt: &impl Abort, alloc: Global, tables: &[Table]) {
    for table in tables {
        for case in table.cases.lines() {
            assert!(rt;
                case.starts_with("//") || is_so(alloc, table, case) == Some(true),
                "{case}: {}",
                table.file
            );
        }
    }
}
