//! The own lengths of members that were narrowed to.

ghost use Rattle.std.specs.Prelude.{◌≡◌, map, find, option_map, OnOk, OnErr};
ghost use Rattle.obj_mem.specs.Objects.{is_note_of, noted};
ghost use Rattle.object_memory.specs.Notes.{note_of};

use ck_base::NoMemory;

/// The greatest own length of the members that were narrowed to, for an object and bounds in it.
#[derive(Clone, Copy, Drop)]
pub(crate) struct Note {
    pub(crate) object: u64,
    pub(crate) low: u64,
    pub(crate) high: u64,
    pub(crate) own: u64,
}

impl Note {
    fn is_of(&self, object: u64, low: u64, high: u64) -> bool
        ensures { result ≡ is_note_of object low high (note_of self.now) }
    {
        self.object == object && self.low == low && self.high == high
    }
}

/// What is noted for an object and bounds in it.
pub(crate) fn noted_for(notes: &[Note], object: u64, low: u64, high: u64) -> Option<Note>
    ensures { option_map note_of result ≡ find (is_note_of object low high) (map note_of notes.now) }
{
    for k in 0..notes.len() {
        if notes[k].is_of(object, low, high) {
            return Some(notes[k]);
        }
    }
    None
}

/// Notes a length for an object and bounds in it. The greatest is kept.
pub(crate) fn add_note(
    notes: &mut Vec<Note>,
    object: u64,
    low: u64,
    high: u64,
    own: u64,
) -> Result<(), NoMemory>
    ensures ok { OnOk result (map note_of notes.new.items ≡ noted (map note_of notes.old.items) object low high own) }
    ensures err { OnErr result (notes.new.items ≡ notes.old.items) }
{
    for k in 0..notes.len() {
        let found = notes[k];
        if found.is_of(object, low, high) {
            notes[k] = Note {
                own: found.own.max(own),
                ..found
            };
            return Ok(());
        }
    }
    notes.push(Note {
        object,
        low,
        high,
        own,
    })?;
    Ok(())
}
