//! The words of an image's text.

ghost use Rattle.std.specs.Prelude.{◌≡◌, ◌+◌, ◌*◌, ◌/◌, ◌<◌, ◌≤◌, ◌^◌, Ok, length};
ghost use Rattle.cap_machine.specs.ContainedText.{end_of, instr_at};
ghost use Rattle.image_load.specs.Judging.{judged};
ghost use Rattle.image_load.specs.Contained.{text_in};
ghost use Rattle.elf_audit.specs.Rules.{is_place};

use elf_file::View;
use rv_code::decode;
use rv_instr::Instr;

/// The base of the text.
pub fn base_of(view: &View<'_>) -> u64
    ensures { result ≡ view.now.text_base }
{
    match view.word(2) {
        Some(base) => base,
        None => unreachable!(),
    }
}

/// The end of the text of an image that is not refused.
pub fn end_of(view: &View<'_>) -> u64
    requires { judged view.now ≡ Ok tt }
    ensures value { result ≡ end_of (text_in view.now) }
    ensures small { result ≤ 2 ^ 40 }
{
    base_of(view) + view.text().len() as u64
}

/// How many words the text has.
pub fn word_count(view: &View<'_>) -> usize
    ensures { result ≡ length view.now.text / 4 }
{
    view.text().len() / 4
}

/// The address of word k, counted from 0.
pub fn place_of(view: &View<'_>, k: usize) -> u64
    requires fine { judged view.now ≡ Ok tt }
    requires inside { k < length view.now.text / 4 }
    ensures { result ≡ view.now.text_base + 4 * k }
{
    base_of(view) + 4 * k as u64
}

/// The instruction of word k, counted from 0.
pub fn instr_at(view: &View<'_>, k: usize) -> Option<Instr>
    requires { k < length view.now.text / 4 }
    ensures { result ≡ instr_at (text_in view.now) (view.now.text_base + 4 * k) }
{
    let text = view.text();
    let at = 4 * k;
    let word = [text[at], text[at + 1], text[at + 2], text[at + 3]];
    decode(u32::from_le_bytes(word))
}

/// Whether an address is a multiple of 4 inside the text.
pub fn is_place(view: &View<'_>, at: u64) -> bool
    requires { judged view.now ≡ Ok tt }
    ensures { result ≡ is_place (text_in view.now) at }
{
    base_of(view) <= at && at < end_of(view) && at % 4 == 0
}
