//! Files, and what the parser answers.

mod tables;

use crate::given::must_be_none;
use c_lex::Tokens;
use c_parse::parse;
use ck_base::{Pos, Refusal};
use std::alloc::{AllocError, Global};
use tables::FILES;

// `tree`, or the code and the place of the refusal.
fn answer(alloc: Global, text: &str) -> Result<String, AllocError> {
    if text.len() >= 10_000 {
        return Ok(String::new(alloc));
    }
    match parse(alloc, Tokens::new(text.as_bytes())) {
        Ok(_) => String::from_str(alloc, "tree"),
        Err(Refusal::Code(code, Pos { line, col })) => format!(in alloc; "{code} {line}:{col}"),
        Err(Refusal::NoMemory) => String::from_str(alloc, "no memory"),
    }
}

// Whether the answer begins so.
fn is_answered(alloc: Global, text: &str, want: &str) -> bool {
    match answer(alloc, text) {
        Ok(answer) => answer.as_str().starts_with(want),
        Err(_) => false,
    }
}

// A part as often as the number before a `*` says, or once.
fn put_part(file: &mut String, part: &str) -> Result<(), AllocError> {
    let (count, text) = part.split_once('*').unwrap_or(("", part));
    let Ok(count) = count.parse::<usize>() else {
        return file.push_str(part);
    };
    for _ in 0..count {
        file.push_str(text)?;
    }
    Ok(())
}

fn is_line_answered(alloc: Global, line: &str) -> Result<bool, AllocError> {
    let (want, parts) = line.split_once(": ").unwrap_or(("none", line));
    let mut file = String::new(alloc);
    for part in parts.split('`') {
        put_part(&mut file, part)?;
    }
    Ok(is_answered(alloc, &file, want))
}

// The first line that is answered otherwise.
fn wrong_line(alloc: Global) -> Option<&'static str> {
    for line in FILES.lines() {
        if !line.starts_with("//") && is_line_answered(alloc, line) != Ok(true) {
            return Some(line);
        }
    }
    None
}

// File, Declaration, Specifiers, Specifier, InitDeclarator, DeclaredName
fn makes_six_nodes(alloc: Global) -> bool {
    match parse(alloc, Tokens::new(b"int x;")) {
        Ok(tree) => tree.nodes.as_slice().len() == 6,
        Err(_) => false,
    }
}

#[test]
fn files_have_trees_or_are_refused(rt: HostRuntime) {
    must_be_none(&rt, wrong_line(rt.alloc()));
    assert!(rt; is_answered(rt.alloc(), "int f(void) { int x; }\n}", "120 2:1"));
    assert!(rt; makes_six_nodes(rt.alloc()));
}
