//! Where a block comment is open.

ghost use Rattle.std.specs.Prelude.{◌≡◌};
ghost use Rattle.line_marks.specs.Comments.{from_code, into, goes_on, leaves_open};

// What the bytes of a line stand in.
#[derive(Clone, Copy)]
pub enum Inside {
    Code,
    // Behind a slash of code.
    Slash,
    // A comment up to the end of the line.
    Rest,
    // A block comment.
    Comment,
    // One, behind a star.
    Star,
    // A literal between such quotes.
    Quoted(u8),
    // One, behind a backslash.
    Escaped(u8),
}

#[tactic(auto, unfolding(ck_base::specs::Lexes::is_quote))]
fn from_code(b: u8) -> Inside
    ensures { result ≡ from_code b }
{
    match b {
        b'/' => Inside::Slash,
        b'\'' | b'"' => Inside::Quoted(b),
        _ => Inside::Code,
    }
}

fn into(inside: Inside, b: u8) -> Inside
    ensures { result ≡ into inside b }
{
    match inside {
        Inside::Code => from_code(b),
        Inside::Slash if b == b'/' => Inside::Rest,
        Inside::Slash if b == b'*' => Inside::Comment,
        Inside::Slash => from_code(b),
        Inside::Rest => Inside::Rest,
        Inside::Comment | Inside::Star if b == b'*' => Inside::Star,
        Inside::Star if b == b'/' => Inside::Code,
        Inside::Comment | Inside::Star => Inside::Comment,
        Inside::Quoted(quote) if b == quote => Inside::Code,
        Inside::Quoted(quote) if b == b'\\' => Inside::Escaped(quote),
        Inside::Quoted(quote) | Inside::Escaped(quote) => Inside::Quoted(quote),
    }
}

fn goes_on(inside: Inside) -> bool
    ensures { result ≡ goes_on inside }
{
    match inside {
        Inside::Comment | Inside::Star => true,
        _ => false,
    }
}

// Whether a block comment is open behind a line.
pub fn leaves_open(commented: bool, line: &[u8]) -> bool
    ensures { result ≡ leaves_open commented line.now }
{
    let mut inside = if commented {
        Inside::Comment
    } else {
        Inside::Code
    };
    for b in line {
        inside = into(inside, *b);
    }
    goes_on(inside)
}
