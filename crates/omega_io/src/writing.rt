//! The writing of all bytes into a sink.
ghost use Rattle.std.specs.Prelude.{◌≡◌, ◌≤◌, OnOk, OnErr};
ghost use Rattle.omega_io.specs.Edge.{Rose, Appends, AppendsPart};

use crate::edges::{Failed, Sink};

/// Writes all the bytes, in as many writes as the sink wants. After `Failed` fewer than all of them
/// were written, from the front on.
pub fn write_all<K: Sink>(out: &mut K, bytes: &[u8]) -> Result<(), Failed>
    ensures whole { OnOk result (Appends bytes.now (K.written out.old) (K.written out.new)) }
    ensures part { OnErr result (AppendsPart bytes.now (K.written out.old) (K.written out.new)) }
    ensures cause { OnErr result (Rose (K.faults out.old) (K.faults out.new)) }
    ensures later { K.faults out.old ≤ K.faults out.new }
{
    let mut done = 0;
    while done < bytes.len() {
        done += out.write(&bytes[done..])?;
    }
    Ok(())
}
