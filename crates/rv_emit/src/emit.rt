//! The code as it grows.
ghost use Rattle.std.specs.Prelude.{◌≡◌, ◌+◌, ◌*◌, ◌<◌, ◌≤◌, pos, true, false, [], ◌∷◌, ◌++◌, length};
ghost use Rattle.std.specs.Prelude.{OnOk, IfOk, vec_len};
ghost use Rattle.std.specs.List.{All};
ghost use Rattle.cap_machine.specs.Integers.{extended};
ghost use Rattle.rv_instr.specs.declared.instr.Instr.TheVariants.{Branch, Cjal};
ghost use Rattle.purecap_abi.specs.Words.{IsPlainWord, load_code, store_code, moved_code};
ghost use Rattle.select_words.specs.Services.{ask};
ghost use Rattle.tac_ir.specs.Costs.{number_cost};
ghost use Rattle.select_words.specs.ContainedCode.{IsContainedCode};
ghost use Rattle.rv_emit.specs.Leading.{IsStill, IsLedTo, StandsAt, AreLedTo, IsCompleted};
ghost use Rattle.rv_emit.specs.Growing.{IsText, AreEntries, Grows, Adds, Puts, reach, room, IsWordNumber, IsLongNumber};
ghost use Rattle.rv_emit.specs.Growing.{marking, jumping, calling, trapping, entering, ended};

use ck_base::{NoMemory, Pos};
use elf_file::Line;
use rv_instr::{BranchOp, ImmOp, Instr, Reg};
use rv_words::instructions::{branch, jump};
use rv_words::{
    Jump, Mark, lead, lead_to_entries, lead_to_marks, load_part, moved_part, number_part,
    store_part, word_part,
};
use std::alloc::Global;
use std::marker::Model;

/// The code so far, with the places in the source of its accesses and calls, and the jumps that lead nowhere yet. A
/// clause sees its words, its labels and jumps, and where it enters functions. Each word is one of the machine, and
/// all of them obey the rules of contained code, where they may lead to the next word; the lines ascend and lie in the
/// code; and of code with far calls none is noted.
#[derive(Drop)]
pub struct Code {
    alloc: Global,
    words: Vec<Instr>,
    lines: Vec<Line>,
    /// The labels of the function at hand, and the jumps to them.
    marks: Vec<Mark>,
    jumps: Vec<Jump>,
    calls: Vec<Jump>,
    /// Whether calls take what they call from the table.
    far: bool,
    /// Where each function is entered, in bytes.
    entries: Vec<u32>,
    /// The word with which the loop at hand begins.
    top: usize,
}

impl Model for Code {
    ghost use Rattle.std.specs.Prelude.{◌≡◌, true, [], vec_len};
    ghost use Rattle.rv_emit.specs.Growing.{Size, Links};
    ghost use Rattle.rv_emit.specs.Leading.{IsGrowing};

    ghost Value = { Size };

    ghost view = { λ c. record {
      words = vec_len c.words;
      text = c.words.items;
      links = record {
        marks = c.marks.items;
        jumps = c.jumps.items;
        calls = c.calls.items;
        entered = c.entries.items;
        lines = c.lines.items;
        far = c.far;
      };
      top = c.top;
    } };

    ghost invariant = { λ c. IsGrowing c.words.items c.lines.items c.marks.items c.entries.items c.top
        × (c.far ≡ true → c.calls.items ≡ []) };
}

/// The whole code, the places in the source of its accesses and calls, and where its functions are entered.
#[derive(Drop)]
pub struct Complete {
    pub words: Vec<Instr>,
    pub lines: Vec<Line>,
    pub entries: Vec<u32>,
}

impl Code {
    /// No code, with far calls or with near ones.
    pub fn new(alloc: Global, far: bool) -> Code
        ensures { result ≡ record {
          words = 0;
          text = [];
          links = record { marks = []; jumps = []; calls = []; entered = []; lines = []; far = far };
          top = 0;
        } }
    {
        Code {
            alloc,
            words: Vec::new(alloc),
            lines: Vec::new(alloc),
            marks: Vec::new(alloc),
            jumps: Vec::new(alloc),
            calls: Vec::new(alloc),
            far,
            entries: Vec::new(alloc),
            top: 0,
        }
    }

    /// The number of words.
    pub fn len(&self) -> usize
        ensures { result ≡ self.now.words }
    {
        self.words.len()
    }

    /// The number of words is how many words there are.
    pub fn counted(&self)
        ensures { self.now.words ≡ length self.now.text }
    {
        let _words = &self.words;
    }

    /// Whether calls take what they call from the table.
    pub fn is_far(&self) -> bool
        ensures { result ≡ self.now.links.far }
    {
        self.far
    }

    /// Appends an instruction.
    pub fn put(&mut self, i: Instr) -> Result<(), NoMemory>
        requires { IsPlainWord i }
        ensures size { OnOk result (Adds 1 self.old self.new) }
        ensures text { OnOk result (self.new.text ≡ self.old.text ++ i ∷ []) }
        ensures top { OnOk result (self.new.top ≡ self.old.top) }
    {
        self.words.push(i)?;
        Ok(())
    }

    /// Appends instructions.
    pub fn put_all(&mut self, all: &[Instr]) -> Result<(), NoMemory>
        requires { All IsPlainWord all.now }
        ensures size { OnOk result (Adds (length all.now) self.old self.new) }
        ensures text { OnOk result (self.new.text ≡ self.old.text ++ all.now) }
        ensures top { OnOk result (self.new.top ≡ self.old.top) }
    {
        self.words.extend_from_slice(all)?;
        Ok(())
    }

    /// Appends an instruction with a place in the source: of kind 0 for an access or a call, and 1 for the first
    /// store of a prologue.
    pub fn put_at(&mut self, i: Instr, pos: Pos, kind: u32) -> Result<(), NoMemory>
        requires plain { IsPlainWord i }
        requires room { self.old.words < room }
        requires kind { kind < 2 }
        ensures size { OnOk result (self.new.words ≡ self.old.words + 1) }
        ensures text { OnOk result (self.new.text ≡ self.old.text ++ i ∷ []) }
        ensures links { OnOk result (self.new.links ≡ trapping self.old.links (length self.old.text) pos kind) }
        ensures top { OnOk result (self.new.top ≡ self.old.top) }
    {
        let at = 4 * (self.words.as_slice().len() as u32);
        self.words.push(i)?;
        self.lines.push(Line {
            at,
            line: pos.line,
            col: pos.col,
            kind,
        })?;
        Ok(())
    }

    /// Appends the first instruction of a function, which is entered there.
    pub fn enter(&mut self, i: Instr) -> Result<(), NoMemory>
        requires plain { IsPlainWord i }
        requires room { self.old.words < room }
        ensures words { OnOk result (self.new.words ≡ self.old.words + 1) }
        ensures text { OnOk result (self.new.text ≡ self.old.text ++ i ∷ []) }
        ensures entries { OnOk result (self.new.links ≡ entering self.old) }
    {
        let at = 4 * (self.words.as_slice().len() as u32);
        self.words.push(i)?;
        self.entries.push(at)?;
        Ok(())
    }

    /// Asks the environment for the service of a number, in two words.
    pub fn ask(&mut self, service: u8) -> Result<(), NoMemory>
        requires least { 1 ≤ service }
        requires most { service ≤ 3 }
        ensures size { OnOk result (Adds 2 self.old self.new) }
        ensures text { OnOk result (self.new.text ≡ self.old.text ++ ask service) }
    {
        let sets = Instr::Imm(ImmOp::Addi, Reg::SERVICE, Reg::ZERO, i32::from(service));
        self.words.extend_from_slice(&[sets, Instr::Ecall])?;
        Ok(())
    }

    /// A register becomes a number of 32 bits.
    pub fn number(&mut self, to: Reg, value: i32) -> Result<(), NoMemory>
        ensures size { OnOk result (Grows 2 self.old self.new) }
        ensures text { OnOk result (0 < to → Puts (IsWordNumber to (extended value)) self.old self.new) }
    {
        let part = word_part(self.alloc, to, i64::from(value).cast_unsigned())?;
        self.put_all(part.as_slice())
    }

    /// A register becomes a number.
    pub fn long_number(&mut self, to: Reg, value: u64) -> Result<(), NoMemory>
        ensures size { OnOk result (Grows (number_cost value) self.old self.new) }
        ensures text { OnOk result (0 < to → Puts (IsLongNumber to value) self.old self.new) }
    {
        let part = number_part(self.alloc, to, value)?;
        self.put_all(part.as_slice())
    }

    /// Loads a capability from an offset behind a base, by a scratch register that is not the base.
    pub fn load_far(
        &mut self,
        to: Reg,
        base: Reg,
        offset: u64,
        scratch: Reg,
    ) -> Result<(), NoMemory>
        ensures size { OnOk result (Grows 3 self.old self.new) }
        ensures text { OnOk result (offset < reach →
            self.new.text ≡ self.old.text ++ load_code to base offset scratch) }
    {
        let part = load_part(self.alloc, to, base, offset, scratch)?;
        self.put_all(part.as_slice())
    }

    /// Stores a capability at an offset behind a base, by a scratch register that is neither the base nor what is
    /// stored.
    pub fn store_far(
        &mut self,
        from: Reg,
        base: Reg,
        offset: u64,
        scratch: Reg,
    ) -> Result<(), NoMemory>
        ensures size { OnOk result (Grows 3 self.old self.new) }
        ensures text { OnOk result (offset < reach →
            self.new.text ≡ self.old.text ++ store_code from base offset scratch) }
    {
        let part = store_part(self.alloc, from, base, offset, scratch)?;
        self.put_all(part.as_slice())
    }

    /// A register becomes a base moved by an offset. It is not the base.
    pub fn moved(&mut self, to: Reg, base: Reg, offset: u64) -> Result<(), NoMemory>
        ensures size { OnOk result (Grows 3 self.old self.new) }
        ensures text { OnOk result (offset < reach → self.new.text ≡ self.old.text ++ moved_code to base offset) }
    {
        let part = moved_part(self.alloc, to, base, offset)?;
        self.put_all(part.as_slice())
    }

    /// Appends a jump or a branch, which leads to itself until it is led elsewhere.
    fn put_still(&mut self, i: Instr) -> Result<(), NoMemory>
        requires { IsStill i }
        ensures size { OnOk result (Adds 1 self.old self.new) }
        ensures text { OnOk result (self.new.text ≡ self.old.text ++ i ∷ []) }
        ensures top { OnOk result (self.new.top ≡ self.old.top) }
    {
        self.words.push(i)?;
        Ok(())
    }

    /// Branches to where `land` says. The answer is the place of the branch.
    pub fn branch(&mut self, op: BranchOp, a: Reg, b: Reg) -> Result<usize, NoMemory>
        ensures size { OnOk result (Adds 1 self.old self.new) }
        ensures at { IfOk result (λ at. at ≡ length self.old.text) }
        ensures text { OnOk result (self.new.text ≡ self.old.text ++ Branch op a b (pos 0) ∷ []) }
        ensures top { OnOk result (self.new.top ≡ self.old.top) }
    {
        let at = self.words.len();
        self.put_still(branch(op, a, b, 0))?;
        Ok(at)
    }

    /// Jumps to where `land` says. The answer is the place of the jump.
    pub fn skip(&mut self) -> Result<usize, NoMemory>
        ensures size { OnOk result (Adds 1 self.old self.new) }
        ensures at { IfOk result (λ at. at ≡ length self.old.text) }
        ensures text { OnOk result (self.new.text ≡ self.old.text ++ Cjal 0 (pos 0) ∷ []) }
    {
        let at = self.words.len();
        self.put_still(jump(Reg::ZERO, 0))?;
        Ok(at)
    }

    /// Leads the jump or branch at a place to the next word.
    pub fn land(&mut self, at: usize)
        ensures size { Adds 0 self.old self.new }
        ensures led { IsLedTo self.old.text self.new.text at (length self.old.text) }
    {
        let next = self.words.len();
        lead(&mut self.words, at, next);
    }

    /// A loop begins with the next word.
    pub fn open_loop(&mut self)
        ensures same { self.new ≡ record (self.old) { top = self.new.top } }
        ensures top { self.new.top ≡ length self.old.text }
    {
        self.top = self.words.len();
    }

    /// Branches to the first word of the loop.
    pub fn close_loop(&mut self, op: BranchOp, a: Reg, b: Reg) -> Result<(), NoMemory>
        ensures size { OnOk result (Adds 1 self.old self.new) }
        ensures led { OnOk result (IsLedTo (self.old.text ++ Branch op a b (pos 0) ∷ []) self.new.text
            (length self.old.text) self.old.top) }
    {
        let at = self.branch(op, a, b)?;
        lead(&mut self.words, at, self.top);
        Ok(())
    }

    /// A label stands here.
    pub fn label(&mut self, label: u32) -> Result<(), NoMemory>
        ensures size { self.new.words ≡ self.old.words }
        ensures entered { self.new.links.entered ≡ self.old.links.entered }
        ensures text { self.new.text ≡ self.old.text }
        ensures links { OnOk result (self.new.links ≡ marking self.old.links (length self.old.text) label) }
    {
        let at = self.words.len();
        self.marks.push(Mark { label, at })?;
        Ok(())
    }

    /// Jumps to a label of the function.
    pub fn jump(&mut self, label: u32) -> Result<(), NoMemory>
        ensures size { OnOk result (self.new.words ≡ self.old.words + 1) }
        ensures text { OnOk result (self.new.text ≡ self.old.text ++ Cjal 0 (pos 0) ∷ []) }
        ensures links { OnOk result (self.new.links ≡ jumping self.old.links (length self.old.text) label) }
    {
        let at = self.words.len();
        self.jumps.push(Jump { at, to: label })?;
        self.put_still(jump(Reg::ZERO, 0))
    }

    /// Calls a function by its number.
    pub fn call(&mut self, fun: u32) -> Result<(), NoMemory>
        requires { self.old.links.far ≡ false }
        ensures size { OnOk result (self.new.words ≡ self.old.words + 1) }
        ensures text { OnOk result (self.new.text ≡ self.old.text ++ Cjal 1 (pos 0) ∷ []) }
        ensures links { OnOk result (self.new.links ≡ calling self.old.links (length self.old.text) fun) }
    {
        let at = self.words.len();
        self.calls.push(Jump { at, to: fun })?;
        self.put_still(jump(Reg::LINK, 0))
    }

    /// Leads the jumps of the function at hand to its labels, and forgets both.
    pub fn lead_to_labels(&mut self) -> Result<(), NoMemory>
        ensures size { OnOk result (self.new.words ≡ self.old.words) }
        ensures links { OnOk result (self.new.links ≡ ended self.old) }
        ensures led { OnOk result (AreLedTo (StandsAt self.old.links.marks) self.old.links.jumps
            self.old.text self.new.text) }
    {
        self.marks.sort_by_key(|m| m.label)?;
        lead_to_marks(
            &mut self.words,
            self.jumps.as_slice(),
            self.marks.as_slice(),
        );
        self.jumps.clear();
        self.marks.clear();
        Ok(())
    }

    /// Leads the calls to the functions' entries, and appends a jump to itself, so that no run falls off the code's
    /// end.
    pub fn complete(self) -> Result<Complete, NoMemory>
        ensures len { IfOk result (λ c. vec_len c.words ≡ self.words + 1) }
        ensures each { IfOk result (λ c. c.entries.items ≡ self.links.entered) }
        ensures lines { IfOk result (λ c. c.lines.items ≡ self.links.lines) }
        ensures text { IfOk result (λ c. IsText c.words.items c.lines.items) }
        ensures entries { IfOk result (λ c. AreEntries (vec_len c.words) c.entries.items) }
        ensures contained { IfOk result (λ c. IsContainedCode c.words.items c.entries.items 0) }
        ensures led { IfOk result (λ c. IsCompleted self c.words.items) }
        ensures far { self.links.far ≡ true → self.links.calls ≡ [] }
    {
        let Code {
            alloc: _,
            mut words,
            lines,
            marks,
            jumps,
            calls,
            far: _,
            entries,
            top: _,
        } = self;
        drop(marks);
        drop(jumps);
        lead_to_entries(&mut words, calls.as_slice(), entries.as_slice());
        words.push(Instr::Cjal(Reg::ZERO, 0))?;
        Ok(Complete {
            words,
            lines,
            entries,
        })
    }
}
