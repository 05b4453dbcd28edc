//! The image of a program.
ghost use Rattle.std.specs.Prelude.{All, ◌≡◌, ◌+◌, ◌<◌, ◌^◌};
ghost use Rattle.typed_build.specs.Image.{image_of};

use cap_reloc::Table;
use ck_base::Sequence;
use elf_file::{Image, Line};
use obj_mem::Map;

/// The bytes themselves, of which a contract may then say that each is below 256.
fn below(bytes: Vec<u8>) -> Vec<u8>
    ensures value { result.items ≡ bytes.items }
    ensures small { All (λ b. b < 256) result.items }
{
    bytes
}

/// The image of a program under a map, with the lines of its text and its count.
pub fn image_of(
    map: &Map,
    start: u32,
    text: Vec<u8>,
    contents: Table,
    lines: Vec<Line>,
    count: u64,
) -> Image
    requires { map.now.text.0 + start < 2 ^ 64 }
    ensures value { result ≡ image_of map.now start text.items contents.base contents.bytes.items contents.relocs.items
        lines.items count }
    ensures small { All (λ b. b < 256) contents.bytes.items }
{
    let Table {
        relocs,
        base,
        bytes,
    } = contents;
    Image {
        version: 2,
        entry: map.text.0 + u64::from(start),
        text_base: map.text.0,
        text: Sequence::from_vec(text),
        initial_base: base,
        initial: Sequence::from_vec(below(bytes)),
        table: map.table,
        heap: map.heap,
        stack: map.stack,
        relocs: Sequence::from_vec(relocs),
        lines: Sequence::from_vec(lines),
        count,
    }
}
