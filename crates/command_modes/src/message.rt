//! The line and the status of an answer.
ghost use Rattle.std.specs.Prelude.{◌≡◌, ◌++◌, ◌≤◌, ◌<◌, ◌+◌, ◌-◌, ◌^◌, [], ◌∷◌, length, decimal, codes, OnOk, OnErr};
ghost use Rattle.std.specs.Io.KnownBytes.{Appends};
ghost use Rattle.arrayvec.specs.ArrayString.{array_string_len};
ghost use Rattle.ck_base.specs.Outside.{AppendsPart, Rises};
ghost use Rattle.command_modes.specs.Answers.{audit_status, status_of, is_silent, line_of, cause_text, reason_text};
ghost use Rattle.command_modes.specs.Answers.{audit_text, words_of, pos_of, text_of, IsSaid};
ghost use Rattle.command_modes.specs.declared.answer.Answer.TheVariants as answers;

use crate::answer::Answer;
use arrayvec::ArrayString;
use cap_ops::Cause;
use ck_base::{Failed, Pos, Sink};
use elf_audit::Verdict;
use itoa::Buffer;
use line_marks::marked;
use obj_mem::Reason;

/// The most bytes of a line without the name of a file.
const ROOM: usize = 128;

/// A line or a part of one, on the stack.
pub type Line = ArrayString<ROOM>;

/// Appends a number in decimal.
fn push_number(line: &mut Line, n: u64)
    requires { array_string_len line.old ≤ 100 }
    ensures bytes { line.new.bytes ≡ line.old.bytes ++ decimal n }
    ensures len { array_string_len line.new ≤ array_string_len line.old + 20 }
{
    line.push_str(Buffer::new().format(n));
}

/// Appends a line and a column, and ends the line.
fn end_at(text: &mut Line, line: u64, col: u32)
    requires { array_string_len text.old ≤ 64 }
    ensures { text.new.bytes ≡ text.old.bytes ++ decimal line ++ codes ":" ++ decimal col ++ 10 ∷ [] }
{
    push_number(text, line);
    text.push_str(":");
    push_number(text, u64::from(col));
    text.push_str("\n");
}

fn cause_text(cause: Cause) -> &'static str
    ensures text { result.now ≡ cause_text cause }
    ensures short { length result.now ≤ 8 }
{
    match cause {
        Cause::Tag => "tag",
        Cause::Sealed => "sealed",
        Cause::Load => "load",
        Cause::Store => "store",
        Cause::StoreCap => "storecap",
        Cause::Bounds => "bounds",
        Cause::Align => "align",
        Cause::Execute => "execute",
    }
}

fn reason_text(reason: Reason) -> &'static str
    ensures text { result.now ≡ reason_text reason }
    ensures short { length result.now ≤ 9 }
{
    match reason {
        Reason::Address => "address",
        Reason::Undefined => "undefined",
        Reason::Unwritten => "unwritten",
        Reason::Padding => "padding",
        Reason::Rounding => "rounding",
        Reason::Excursion => "excursion",
        Reason::Heap => "heap",
        Reason::Overlap => "overlap",
    }
}

/// A word and a number.
fn numbered(word: &str, n: u64) -> Line
    requires { length word.now ≤ 16 }
    ensures bytes { result.bytes ≡ word.now ++ decimal n }
    ensures len { array_string_len result ≤ 63 }
{
    let mut line = Line::new();
    line.push_str(word);
    push_number(&mut line, n);
    line
}

/// A word alone.
fn alone(word: &str) -> Line
    requires { length word.now ≤ 16 }
    ensures bytes { result.bytes ≡ word.now }
    ensures len { array_string_len result ≤ 63 }
{
    let mut line = Line::new();
    line.push_str(word);
    line
}

/// A word, a reason of this name, and a space.
fn named(word: &str, name: &str) -> Line
    requires { (length word.now ≤ 16) × (length name.now ≤ 16) }
    ensures bytes { result.bytes ≡ word.now ++ name.now ++ codes " " }
    ensures len { array_string_len result ≤ 63 }
{
    let mut line = Line::new();
    line.push_str(word);
    line.push_str(name);
    line.push_str(" ");
    line
}

fn trap_at_text(cause: Cause, pc: u64) -> Line
    ensures bytes { result.bytes ≡ words_of (answers.TrapAt cause pc) }
    ensures len { array_string_len result ≤ 63 }
{
    let mut line = Line::new();
    line.push_str("trap ");
    line.push_str(cause_text(cause));
    line.push_str(" at ");
    push_number(&mut line, pc);
    line
}

fn refused_text(code: u16) -> Line
    ensures bytes { result.bytes ≡ codes "refused " ++ decimal code ++ codes " " }
    ensures len { array_string_len result ≤ 63 }
{
    let mut line = Line::new();
    line.push_str("refused ");
    line.push_str(Buffer::new().format(code));
    line.push_str(" ");
    line
}

/// A word, a number and a reason.
fn reasoned(word: &str, n: u64, reason: u8) -> Line
    requires { length word.now ≤ 16 }
    ensures bytes { result.bytes ≡ word.now ++ decimal n ++ codes " " ++ decimal reason }
    ensures len { array_string_len result ≤ 63 }
{
    let mut line = Line::new();
    line.push_str(word);
    push_number(&mut line, n);
    line.push_str(" ");
    push_number(&mut line, u64::from(reason));
    line
}

/// The text of a verdict.
fn audit_text(verdict: Verdict) -> Line
    ensures bytes { result.bytes ≡ audit_text verdict }
    ensures len { array_string_len result ≤ 63 }
{
    match verdict {
        Verdict::Yes => alone("audit yes"),
        Verdict::Word(at, reason) => reasoned("audit no word ", at, reason),
        Verdict::Reloc(k, reason) => reasoned("audit no reloc ", k, reason),
    }
}

/// The text of an answer, up to the place that it names.
fn words_of(answer: Answer) -> Line
    ensures bytes { result.bytes ≡ words_of answer }
    ensures len { array_string_len result ≤ 63 }
{
    match answer {
        Answer::Exit(n) => numbered("exit ", u64::from(n)),
        Answer::Built(n) => numbered("built ", n),
        Answer::Shown => alone(""),
        Answer::Trap(cause, _) => named("trap ", cause_text(cause)),
        Answer::TrapAt(cause, pc) => trap_at_text(cause, pc),
        Answer::Stack(_) => alone("stack "),
        Answer::Steps => alone("steps"),
        Answer::Turns => alone("turns"),
        Answer::Unspecified(reason, _) => named("unspecified ", reason_text(reason)),
        Answer::Outside(_) => alone("outside "),
        Answer::Break(pc) => numbered("break ", pc),
        Answer::Illegal(pc) => numbered("illegal ", pc),
        Answer::Audited(verdict) => audit_text(verdict),
        Answer::Refused(code, _) => refused_text(code),
        Answer::Words => alone("words"),
        Answer::NotLoaded(number) => numbered("image ", u64::from(number)),
        Answer::File => alone("file"),
        Answer::Input => alone("input"),
        Answer::Output => alone("output"),
        Answer::Memory => alone("memory"),
    }
}

/// The position that an answer names.
fn pos_of(answer: Answer) -> Option<Pos>
    ensures { result ≡ pos_of answer }
{
    match answer {
        Answer::Trap(_, pos)
        | Answer::Stack(pos)
        | Answer::Unspecified(_, pos)
        | Answer::Outside(pos)
        | Answer::Refused(_, pos) => Some(pos),
        _ => None,
    }
}

fn audit_status(verdict: Verdict) -> u8
    ensures { result ≡ audit_status verdict }
{
    match verdict {
        Verdict::Yes => 0,
        Verdict::Word(..) | Verdict::Reloc(..) => 7,
    }
}

/// The status of an answer.
pub fn status_of(answer: Answer) -> u8
    ensures { result ≡ status_of answer }
{
    match answer {
        Answer::Exit(0) | Answer::Built(_) | Answer::Shown => 0,
        Answer::Exit(_) => 1,
        Answer::Trap(..) | Answer::TrapAt(..) => 2,
        Answer::Stack(_) => 3,
        Answer::Steps | Answer::Turns => 4,
        Answer::Unspecified(..) | Answer::Outside(_) => 5,
        Answer::Break(_) | Answer::Illegal(_) => 6,
        Answer::Audited(verdict) => audit_status(verdict),
        Answer::Refused(..) => 10,
        Answer::Words => 11,
        Answer::NotLoaded(_) => 12,
        Answer::File => 20,
        Answer::Input => 21,
        Answer::Output => 22,
        Answer::Memory => 30,
    }
}

/// Nothing is said where what was asked for was put to the output.
fn is_silent(answer: Answer) -> bool
    ensures { result ≡ is_silent answer }
{
    match answer {
        Answer::Shown => true,
        _ => false,
    }
}

/// The line of an answer that names no file's places: it is empty where nothing is said.
pub fn line_of(answer: Answer) -> Line
    ensures { result.bytes ≡ line_of [] answer }
{
    if is_silent(answer) {
        return Line::new();
    }
    let mut line = words_of(answer);
    match pos_of(answer) {
        Some(pos) => end_at(&mut line, u64::from(pos.line), pos.col),
        None => line.push_str("\n"),
    }
    line
}

/// Puts three pieces.
fn put_three<N: Sink>(
    notes: &mut N,
    first: &[u8],
    second: &[u8],
    third: &[u8],
) -> Result<(), Failed>
    ensures whole { OnOk result (Appends (N.held notes.old) (N.held notes.new) (first.now ++ second.now ++ third.now)) }
    ensures part { OnErr result
        (AppendsPart (N.held notes.old) (N.held notes.new) (first.now ++ second.now ++ third.now)) }
    ensures same_count { OnOk result (N.faults notes.new ≡ N.faults notes.old) }
    ensures counted { OnErr result (Rises (N.faults notes.old) (N.faults notes.new)) }
{
    notes.put(first)?;
    notes.put(second)?;
    notes.put(third)
}

/// Puts the line of an answer that names a position of this file, or none.
fn put_line<N: Sink>(notes: &mut N, file: &[u8], answer: Answer) -> Result<(), Failed>
    ensures whole { OnOk result
        (Appends (N.held notes.old) (N.held notes.new) (text_of file.now answer ++ 10 ∷ [])) }
    ensures part { OnErr result
        (AppendsPart (N.held notes.old) (N.held notes.new) (text_of file.now answer ++ 10 ∷ [])) }
    ensures same_count { OnOk result (N.faults notes.new ≡ N.faults notes.old) }
    ensures counted { OnErr result (Rises (N.faults notes.old) (N.faults notes.new)) }
{
    let mut words = words_of(answer);
    let Some(pos) = pos_of(answer) else {
        words.push_str("\n");
        return notes.put(words.as_str().as_bytes());
    };
    let place = marked(file, pos);
    if place.name.is_empty() {
        end_at(&mut words, place.line, place.col);
        return notes.put(words.as_str().as_bytes());
    }
    let mut end = Line::new();
    end.push_str(":");
    end_at(&mut end, place.line, place.col);
    put_three(
        notes,
        words.as_str().as_bytes(),
        place.name,
        end.as_str().as_bytes(),
    )
}

/// Says an answer that names a position of this file, or none: puts its line to the notes, and gives its status, or
/// that of a failed output where the notes fail. It takes no memory.
pub fn say<N: Sink>(answer: Answer, file: &[u8], notes: &mut N) -> u8
    requires { N.faults notes.old < 2 ^ 64 - 1 }
    ensures { IsSaid file.now answer result (N.held notes.old) (N.held notes.new) (N.faults notes.old)
        (N.faults notes.new) }
{
    if is_silent(answer) {
        return status_of(answer);
    }
    match put_line(notes, file, answer) {
        Ok(()) => status_of(answer),
        Err(_) => status_of(Answer::Output),
    }
}
