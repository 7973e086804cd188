//! Tables and a sink in memory, of which a call can be made to fail.
ghost use Rattle.std.specs.Prelude.{◌≡◌, ◌≢◌, ◌++◌, ◌+◌, ◌<◌, ◌≤◌, ◌↔◌, [], length, take, Some, None, IfOk, IfSome, OnErr, vec_capacity, vec_len};
ghost use Rattle.omega_io.specs.Edge.{Rose};

use crate::by_table::ByTable;
use crate::calls::{Calls, count_one};
use crate::edges::{Failed, Sink, Tables};
use crate::unread::Unread;
use omega_model::{Bytes, NoMemory, Seq, Table, Text};
use std::alloc::Global;

/// The unread bytes of one table, and its faults.
#[derive(Drop)]
pub struct TableInMemory {
    unread: Unread,
    faults: u64,
}

impl TableInMemory {
    fn new(bytes: Bytes) -> TableInMemory
        ensures { result ≡ record { unread = bytes; faults = 0 } }
    {
        TableInMemory {
            unread: Unread::new(bytes),
            faults: 0,
        }
    }

    fn read(&mut self, fails: bool, most: usize, piece: &mut [u8]) -> Result<usize, Failed>
        requires most { 0 < most }
        requires piece { 0 < length piece.old }
        ensures fits { IfOk result (λ count. count ≤ length piece.new) }
        ensures hands { IfOk result (λ count. self.old.unread ≡ take count piece.new ++ self.new.unread) }
        ensures ends { IfOk result (λ count. (count ≡ 0) ↔ (self.old.unread ≡ [])) }
        ensures stays { OnErr result (self.new.unread ≡ self.old.unread) }
        ensures cause { OnErr result (Rose self.old.faults self.new.faults) }
        ensures later { self.old.faults ≤ self.new.faults }
    {
        if fails {
            count_one(&mut self.faults);
            return Err(Failed);
        }
        Ok(self.unread.hand_over(most, piece))
    }
}

/// Six tables in memory. A contract knows their rests and the folder entered last.
#[derive(Drop)]
pub struct MemoryTables {
    alloc: Global,
    folder: Option<Text>,
    held: ByTable<TableInMemory>,
    largest: usize,
    calls: Calls,
    ghost cuts: { 0 < largest },
}

impl MemoryTables {
    ghost use Rattle.omega_model.specs.declared.rows.Table.{Table};
    ghost use Rattle.omega_io.specs.ByTable.{bytes_of};

    /// Tables of these bytes, in the order of `Table`. No folder is entered and no read fails.
    pub fn new(alloc: Global, tables: [Bytes; 6]) -> MemoryTables
        ensures rests { (t : Table) → ⟦<MemoryTables as Tables>⟧.rest result t ≡ Some (bytes_of tables t) }
        ensures counts { (t : Table) → ⟦<MemoryTables as Tables>⟧.faults result t ≡ 0 }
        ensures folder { ⟦<MemoryTables as Tables>⟧.entered result ≡ Some None }
    {
        let [machines, attributes, tasks, constraints, jobs, disks] = tables;
        MemoryTables {
            alloc,
            folder: None,
            held: ByTable {
                machine_events: TableInMemory::new(machines),
                machine_attributes: TableInMemory::new(attributes),
                task_events: TableInMemory::new(tasks),
                task_constraints: TableInMemory::new(constraints),
                mapreduce_jobs: TableInMemory::new(jobs),
                machine_disk: TableInMemory::new(disks),
            },
            largest: usize::MAX,
            calls: Calls::new(),
        }
    }

    /// The same tables, of which each read gives at most `largest` bytes.
    pub fn cut(self, largest: usize) -> MemoryTables
        requires { 0 < largest }
        ensures largest { result.largest ≡ largest }
        ensures alloc { result.alloc ≡ self.alloc }
        ensures held { result.held ≡ self.held }
        ensures calls { result.calls ≡ self.calls }
        ensures rests { (t : Table) → ⟦<MemoryTables as Tables>⟧.rest result t ≡ ⟦<MemoryTables as Tables>⟧.rest self t }
        ensures counts { (t : Table) → ⟦<MemoryTables as Tables>⟧.faults result t ≡ ⟦<MemoryTables as Tables>⟧.faults self t }
        ensures folder { ⟦<MemoryTables as Tables>⟧.entered result ≡ ⟦<MemoryTables as Tables>⟧.entered self }
    {
        let mut tables = self;
        tables.largest = largest;
        tables
    }

    /// The same tables, of which the read number `call` fails, counted from 0 over all tables. A
    /// second `fail_at` takes the place of the first.
    pub fn fail_at(self, call: u64) -> MemoryTables
        ensures all { result ≡ record self { calls = record self.calls { failing = Some call } } }
        ensures failing { result.calls.failing ≡ Some call }
        ensures rests { (t : Table) → ⟦<MemoryTables as Tables>⟧.rest result t ≡ ⟦<MemoryTables as Tables>⟧.rest self t }
        ensures counts { (t : Table) → ⟦<MemoryTables as Tables>⟧.faults result t ≡ ⟦<MemoryTables as Tables>⟧.faults self t }
        ensures folder { ⟦<MemoryTables as Tables>⟧.entered result ≡ ⟦<MemoryTables as Tables>⟧.entered self }
    {
        let mut tables = self;
        tables.calls.failing = Some(call);
        tables
    }
}

impl Tables for MemoryTables {
    ghost use Rattle.std.specs.Prelude.{Some, option_map};
    ghost use Rattle.omega_io.specs.ByTable.{at};

    ghost rest = { λ s t. Some (at s.held t).unread };

    ghost entered = { λ s. Some s.folder };

    ghost faults = { λ s t. (at s.held t).faults };

    fn enter(&mut self, folder: &str) -> Result<(), NoMemory> {
        let path = String::from_str(self.alloc, folder)?;
        self.folder = Some(Text::of(path));
        Ok(())
    }

    fn read(&mut self, table: Table, piece: &mut [u8]) -> Result<usize, Failed> {
        let fails = self.calls.next_fails();
        self.held.get_mut(table).read(fails, self.largest, piece)
    }

    fn faults(&self, table: Table) -> u64 {
        self.held.get(table).faults
    }
}

/// A sink in memory. A contract knows what was written.
#[derive(Drop)]
pub struct MemorySink {
    bytes: Vec<u8>,
    most: usize,
    largest: usize,
    calls: Calls,
    faults: u64,
    ghost cuts: { 0 < largest },
    ghost within: { vec_len bytes ≤ most },
    ghost room: { most ≤ vec_capacity bytes },
}

impl MemorySink {
    /// An empty sink with room for `most` bytes, so that its writes take no memory. A write once it
    /// is full fails.
    pub fn new(alloc: Global, most: u64) -> Result<MemorySink, NoMemory>
        ensures written { IfOk result (λ sink. ⟦<MemorySink as Sink>⟧.written sink ≡ Some []) }
        ensures count { IfOk result (λ sink. ⟦<MemorySink as Sink>⟧.faults sink ≡ 0) }
    {
        let most = most as usize;
        Ok(MemorySink {
            bytes: Vec::with_capacity(alloc, most)?,
            most,
            largest: usize::MAX,
            calls: Calls::new(),
            faults: 0,
        })
    }

    /// The same sink, of which each write takes at most `largest` bytes.
    pub fn cut(self, largest: usize) -> MemorySink
        requires { 0 < largest }
        ensures largest { result.largest ≡ largest }
        ensures bytes { result.bytes ≡ self.bytes }
        ensures most { result.most ≡ self.most }
        ensures calls { result.calls ≡ self.calls }
        ensures written { ⟦<MemorySink as Sink>⟧.written result ≡ ⟦<MemorySink as Sink>⟧.written self }
        ensures count { ⟦<MemorySink as Sink>⟧.faults result ≡ ⟦<MemorySink as Sink>⟧.faults self }
    {
        let mut sink = self;
        sink.largest = largest;
        sink
    }

    /// The same sink, of which the write number `call` fails, counted from 0. A second `fail_at`
    /// takes the place of the first.
    pub fn fail_at(self, call: u64) -> MemorySink
        ensures all { result ≡ record self { calls = record self.calls { failing = Some call } } }
        ensures failing { result.calls.failing ≡ Some call }
        ensures written { ⟦<MemorySink as Sink>⟧.written result ≡ ⟦<MemorySink as Sink>⟧.written self }
        ensures count { ⟦<MemorySink as Sink>⟧.faults result ≡ ⟦<MemorySink as Sink>⟧.faults self }
    {
        let mut sink = self;
        sink.calls.failing = Some(call);
        sink
    }

    /// The bytes that were written.
    pub fn into_bytes(self) -> Bytes
        ensures { ⟦<MemorySink as Sink>⟧.written self ≡ Some result }
    {
        let MemorySink { bytes, .. } = self;
        Seq::of(bytes)
    }

    /// Counts a fault.
    fn fault(&mut self) -> Failed
        ensures stays { self.new.bytes ≡ self.old.bytes }
        ensures cause { Rose self.old.faults self.new.faults }
        ensures later { self.old.faults ≤ self.new.faults }
    {
        count_one(&mut self.faults);
        Failed
    }
}

impl Sink for MemorySink {
    ghost use Rattle.std.specs.Prelude.{Some};

    ghost written = { λ s. Some s.bytes.items };

    ghost faults = { λ s. s.faults };

    fn write(&mut self, piece: &[u8]) -> Result<usize, Failed> {
        let count = (self.most - self.bytes.len())
            .min(piece.len())
            .min(self.largest);
        if self.calls.next_fails() || count == 0 {
            return Err(self.fault());
        }
        if self.bytes.extend_from_slice(&piece[..count]).is_err() {
            return Err(self.fault());
        }
        Ok(count)
    }

    fn faults(&self) -> u64 {
        self.faults
    }
}
