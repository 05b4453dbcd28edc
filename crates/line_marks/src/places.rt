//! The marked place of a position.

ghost use Rattle.std.specs.Prelude.{◌≡◌, ◌+◌, ◌-◌, ◌^◌, ◌<◌, ◌≤◌, length};
ghost use Rattle.ck_base.specs.Lexes.{line_length};
ghost use Rattle.line_marks.specs.Marks.{passed, behind, known_at, marked};
ghost use Rattle.line_marks.specs.Known.{known_of};

use crate::comments::leaves_open;
use crate::markers::{directive_of, marker_of};
use ck_base::Pos;

/// A place as the markers of its file give it: the name of a file, which is empty where none is given, a line and a
/// column. A line may be any number, by a marker before a long file.
#[derive(Clone, Copy)]
pub struct MarkedPlace<'a> {
    pub name: &'a [u8],
    pub line: u64,
    pub col: u32,
}

// What is known before a line.
#[derive(Clone, Copy)]
struct Known<'a> {
    commented: bool,
    line: u32,
    from: u32,
    number: u32,
    name: &'a [u8],
}

// Behind a line that is no marker.
fn passed(known: Known<'_>, commented: bool) -> Known<'_>
    requires { known.line < 2 ^ 32 - 1 }
    ensures known { known_of result ≡ passed (known_of known.entry) commented }
    ensures counted { result.line ≡ known.entry.line + 1 }
{
    Known {
        commented,
        line: known.line + 1,
        from: known.from,
        number: known.number,
        name: known.name,
    }
}

// Behind one more line.
fn behind<'a>(known: Known<'a>, line: &'a [u8]) -> Known<'a>
    requires { known.line < 2 ^ 32 - 1 }
    ensures known { known_of result ≡ behind (known_of known.entry) line.now }
    ensures counted { result.line ≡ known.entry.line + 1 }
{
    if known.commented {
        return passed(known, leaves_open(true, line));
    }
    let Some(bytes) = directive_of(line) else {
        return passed(known, leaves_open(false, line));
    };
    let (number, name) = marker_of(known.name, bytes);
    let Some(number) = number else {
        return passed(known, false);
    };
    Known {
        commented: false,
        line: known.line + 1,
        from: known.line + 1,
        number,
        name,
    }
}

// How many bytes stand before the end of the line.
fn line_length(bytes: &[u8]) -> usize
    ensures value { result ≡ line_length bytes.now }
    ensures within { result ≤ length bytes.now }
{
    bytes.iter().take_while(|b| **b != b'\n').count()
}

// What is known before a line of a file.
fn known_at(file: &[u8], line: u32) -> Known<'_>
    ensures { known_of result ≡ known_at file.now line }
{
    let mut known = Known {
        commented: false,
        line: 1,
        from: 0,
        number: 0,
        name: b"",
    };
    let mut rest = file;
    for _n in 1..line {
        let (bytes, ended) = rest.split_at(line_length(rest));
        known = behind(known, bytes);
        match ended {
            [] => return known,
            [_, more @ ..] => rest = more,
        }
    }
    known
}

/// The marked place of a position of a file: by the last line marker before its line, the line behind which has the
/// number of the marker, or the position itself where there is none. It reads the file once, and takes no memory.
pub fn marked(file: &[u8], pos: Pos) -> MarkedPlace<'_>
    ensures name { result.name.now ≡ (marked file.now pos).name }
    ensures line { result.line ≡ (marked file.now pos).line }
    ensures col { result.col ≡ (marked file.now pos).col }
{
    let known = known_at(file, pos.line);
    MarkedPlace {
        name: known.name,
        line: u64::from(known.number) + u64::from(pos.line.saturating_sub(known.from)),
        col: pos.col,
    }
}
