//! Audits whose loading or writing fails. All others are folders of `tests/`.

ghost use Rattle.std.specs.Thread.{IsSync};

use crate::runs::{Call, End, expect, run_kept, tables_of};
use omega_io::PassGate;
use omega_keep::MemoryKeeper;
use omega_model::{NoMemory, Status};
use std::alloc::Global;
use std::process::Abort;
use std::sync::Wait;
use std::thread::Threads;

/// An audit whose sink has room for five bytes.
const AUDIT: Call<'static> = Call {
    words: &["audit"],
    room: 5,
};

/// Sees that an audit of a keeper ends so.
fn expect_audit<R: Threads + Wait + Sync + Abort>(
    rt: &R,
    alloc: Global,
    mut keeper: MemoryKeeper,
    end: &End,
) -> Result<(), NoMemory>
    requires { IsSync R.row }
{
    let mut tables = tables_of(alloc, "", "")?;
    let ran = run_kept(rt, alloc, &AUDIT, &mut tables, &PassGate, &mut keeper)?;
    expect(rt, &ran, end);
    Ok(())
}

#[test]
fn an_audit_whose_loading_fails(rt: HostRuntime) -> Result<(), NoMemory> {
    let keeper = MemoryKeeper::new(rt.alloc()).fail_at(0);
    expect_audit(&rt, rt.alloc(), keeper, &End::refused(Status::KeepFault))
}

#[test]
fn an_audit_whose_writing_fails(rt: HostRuntime) -> Result<(), NoMemory> {
    let end = End {
        status: Status::WriteFault,
        entries: 0,
        report: b"omega",
    };
    expect_audit(&rt, rt.alloc(), MemoryKeeper::new(rt.alloc()), &end)
}
