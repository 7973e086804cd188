//! Standard output as a sink.
ghost use Rattle.std.specs.Prelude.{◌≡◌, ◌≤◌, IfOk, length};
ghost use Rattle.omega_io.specs.Edge.{Rose};

use crate::calls::count_one;
use crate::edges::{Failed, Sink};
use std::io;
use std::io::Write;

/// Standard output. It tells no content, and flushes after each write. A write that takes no byte is
/// a fault, and so is a flush that fails, after which some bytes may be out all the same. The count of
/// faults stops at 2^64 - 1.
#[derive(Drop)]
pub struct StdoutSink<'a> {
    rt: &'a HostRuntime,
    faults: u64,
}

/// Writes the first bytes of a piece and flushes.
fn write_some(rt: &HostRuntime, piece: &[u8]) -> io::Result<usize>
    ensures { IfOk result (λ count. count ≤ length piece.now) }
{
    let mut out = io::writer(rt);
    let count = out.write(piece)?;
    out.flush()?;
    Ok(count)
}

impl<'a> StdoutSink<'a> {
    /// Standard output, with no fault so far.
    pub fn new(rt: &'a HostRuntime) -> StdoutSink<'a>
        ensures { ⟦<StdoutSink<'a> as Sink>⟧.faults result ≡ 0 }
    {
        StdoutSink { rt, faults: 0 }
    }
}

impl<'a> Sink for StdoutSink<'a> {
    ghost use Rattle.std.specs.Prelude.{None};

    ghost written = { λ _. None };

    ghost faults = { λ s. s.faults };

    fn write(&mut self, piece: &[u8]) -> Result<usize, Failed> {
        match write_some(self.rt, piece) {
            Ok(count) if count > 0 => Ok(count),
            _ => {
                count_one(&mut self.faults);
                Err(Failed)
            }
        }
    }

    fn faults(&self) -> u64 {
        self.faults
    }
}
