//! A question looks at the rows on its own field: many thousands are answered while all of them stand.
use crate::forms::{same, spend};
use crate::rows::ask;
use fs_field::{Asked, Field, LeaseKind};
use fs_ident::{FileId, LeaseNo};
use fs_rows::Rows;
use std::alloc::Global;
use std::process::Abort;
use std::test::Fail;

const FILES: u32 = 200_000;

/// The lease of this count of the first server.
fn lease(count: u32) -> LeaseNo {
    LeaseNo {
        server: 0,
        count: u64::from(count),
    }
}

/// The session asks for the life of this file below the root, alone.
fn ask_life(
    alloc: Global,
    rows: &mut Rows,
    no: LeaseNo,
    session: u16,
    k: u32,
) -> Result<Asked, Fail> {
    let life = Field::Life(FileId::root(alloc).child(alloc, k)?);
    let asked = ask(alloc, rows, no, session, &life, LeaseKind::Exclusive);
    spend(life);
    asked
}

/// The first session is granted a lease for each file.
fn grant_each(rt: &impl Abort, alloc: Global, rows: &mut Rows) -> Result<(), Fail> {
    for k in 1..=FILES {
        same(
            rt,
            ask_life(alloc, rows, lease(k), 1, k)?,
            Asked::Granted { value: None },
        );
    }
    Ok(())
}

/// The second session waits for each of them.
fn wait_for_each(rt: &impl Abort, alloc: Global, rows: &mut Rows) -> Result<(), Fail> {
    for k in 1..=FILES {
        same(
            rt,
            ask_life(alloc, rows, lease(k + FILES), 2, k)?,
            Asked::Wait { blocker: lease(k) },
        );
    }
    Ok(())
}

fn ask_for_each(rt: &impl Abort, alloc: Global, rows: &mut Rows) -> Result<(), Fail> {
    grant_each(rt, alloc, rows)?;
    wait_for_each(rt, alloc, rows)
}

#[test]
fn many_files_are_asked_for(rt: HostRuntime) -> Result<(), Fail> {
    let alloc = rt.alloc();
    let mut rows = Rows::new(alloc);
    let done = ask_for_each(&rt, alloc, &mut rows);
    spend(rows);
    done
}
