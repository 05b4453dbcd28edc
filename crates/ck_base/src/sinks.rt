//! Sinks in memory.
ghost use Rattle.std.specs.Prelude.{◌≡◌, ℕ, ◌+◌, ◌<◌, ◌≤◌, ◌-◌, ◌^◌, ◌⊎◌, Option, Some, None, List, [], length};
ghost use Rattle.std.specs.Prelude.{Contains, IsErr, ◌↔◌, IfOk, OnOk, OnErr, vec_len, vec_capacity};
ghost use Rattle.std.specs.Io.KnownBytes.{Appends};
ghost use Rattle.ck_base.specs.Outside.{AppendsPart, Rises};
ghost use Rattle.ck_base.specs.Memory.{SinkInMemory, one_more};

use crate::outside::{Failed, Sink};
use crate::refusal::NoMemory;
use std::alloc::Global;
use std::marker::Model;

/// Bytes in memory up to a room that was taken when it was made, and the numbers of the calls that fail, counted from
/// 1.
#[derive(Drop)]
pub struct MemSink {
    bytes: Vec<u8>,
    room: u64,
    fails: Vec<u64>,
    calls: u64,
    faults: u64,
}

impl Model for MemSink {
    ghost Value = { SinkInMemory };

    ghost view = { λ s. record {
      held = s.bytes.items;
      room = s.room;
      fails = s.fails.items;
      calls = s.calls;
      faults = s.faults;
    } };

    ghost invariant = { λ s. (vec_len s.bytes ≤ s.room) × (s.room ≤ vec_capacity s.bytes) };
}

impl MemSink {
    /// An empty sink with room for so many bytes, whose calls with these numbers fail.
    pub fn new(alloc: Global, room: u64, fails: Vec<u64>) -> Result<MemSink, NoMemory>
        ensures { IfOk result (λ sink. sink ≡ record {
          held = [];
          room = room;
          fails = fails.items;
          calls = 0;
          faults = 0;
        }) }
    {
        let bytes = Vec::with_capacity(alloc, room as usize)?;
        Ok(MemSink {
            bytes,
            room,
            fails,
            calls: 0,
            faults: 0,
        })
    }

    /// The bytes that it holds.
    pub fn bytes(&self) -> &[u8]
        ensures { result.now ≡ self.now.held }
    {
        &self.bytes
    }
}

impl Sink for MemSink {
    ghost held = { λ s. Some s.held };

    ghost faults = { λ s. s.faults };

    /// Fails in the calls that were named, and where the piece goes past the room; it then appends nothing.
    fn put(&mut self, piece: &[u8]) -> Result<(), Failed>
        ensures whole { OnOk result (Appends (Some self.old.held) (Some self.new.held) piece.now) }
        ensures part { OnErr result (AppendsPart (Some self.old.held) (Some self.new.held) piece.now) }
        ensures same_count { OnOk result (self.new.faults ≡ self.old.faults) }
        ensures counted { OnErr result (Rises self.old.faults self.new.faults) }
        ensures nothing { OnErr result (self.new.held ≡ self.old.held) }
        ensures fails { IsErr result ↔
            (Contains self.old.fails (one_more self.old.calls) ⊎
            (self.old.room < length self.old.held + length piece.now)) }
        ensures calls { self.new.calls ≡ one_more self.old.calls }
        ensures same_fails { self.new.fails ≡ self.old.fails }
        ensures same_room { self.new.room ≡ self.old.room }
    {
        self.calls = self.calls.saturating_add(1);
        let failing = self.fails.contains(&self.calls);
        if failing || piece.len() as u64 > self.room - self.bytes.len() as u64 {
            self.faults = self.faults.saturating_add(1);
            return Err(Failed);
        }
        match self.bytes.extend_from_slice(piece) {
            Ok(()) => Ok(()),
            Err(_) => unreachable!(),
        }
    }
}

/// Keeps nothing and never fails.
#[derive(Drop)]
pub struct SureSink {}

impl SureSink {
    pub fn new() -> Self {
        SureSink {}
    }
}

impl Sink for SureSink {
    ghost held = { λ _. None };

    ghost faults = { λ _. 0 };

    fn put(&mut self, _piece: &[u8]) -> Result<(), Failed> {
        Ok(())
    }
}
