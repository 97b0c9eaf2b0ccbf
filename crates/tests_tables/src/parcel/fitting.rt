//! Which parcels fit.
ghost use Rattle.std.specs.Prelude.{◌≡◌, IfOk, OnOk};
ghost use Rattle.fs_parcel.specs.Rows.{AreRows, in_one_list};

use crate::forms::{one, same, spend};
use crate::parcel::shown::is_written;
use crate::parcel::{On, Sent, Server, are_records, begun, come, hint, id, parcel};
use fs_parcel::{fits_at, install_at};
use fs_record::{Parcel, Records};
use std::alloc::Global;
use std::process::Abort;
use std::test::Fail;

/// What came once, of which the rows are left: one of each table.
const OLD: &Sent = &(
    "/1",
    &[("/1", true)],
    &[("/1", b"", &[])],
    &[(1, 1, "/1/2", On::Life), (2, 1, "/1/2", On::Own)],
);

/// What came once and is left: a file.
const FILE: &Sent = &("/5", &[("/5", true)], &[("/5", b"", &[])], &[]);

/// Whether the parcel fits, and is put in its place then.
fn come_sent(alloc: Global, s: &mut Server, sent: &Sent) -> Result<bool, Fail>
    requires { AreRows (in_one_list s.old.rows s.old.modes) }
    ensures { OnOk result (AreRows (in_one_list s.new.rows s.new.modes)) }
{
    let p = parcel(alloc, sent)?;
    come(alloc, s, p)
}

/// The parcel comes, and fits.
pub(super) fn must_come(alloc: Global, s: &mut Server, sent: &Sent) -> Result<(), Fail>
    requires { AreRows (in_one_list s.old.rows s.old.modes) }
    ensures { OnOk result (AreRows (in_one_list s.new.rows s.new.modes)) }
{
    if !come_sent(alloc, s, sent)? {
        return Err(Fail::from("it does not fit"));
    }
    Ok(())
}

/// These rows and this file come, and are left. Of both parcels the server manages nothing more.
fn come_here(alloc: Global, s: &mut Server) -> Result<(), Fail>
    requires { AreRows (in_one_list s.old.rows s.old.modes) }
    ensures { OnOk result (AreRows (in_one_list s.new.rows s.new.modes)) }
{
    must_come(alloc, s, OLD)?;
    leave(alloc, &mut s.records)?;
    must_come(alloc, s, FILE)?;
    hint(alloc, &mut s.map, "/", 0)?;
    hint(alloc, &mut s.map, "/7", 1)
}

/// The file of the first parcel is dropped.
fn leave(alloc: Global, records: &mut Records) -> Result<(), Fail> {
    let file = id(alloc, "/1")?;
    let files = one(alloc, file)?;
    records.leave_files(&files);
    spend(files);
    Ok(())
}

/// Server 1 with them.
fn here(alloc: Global) -> Result<Server, Fail>
    ensures { IfOk result (λ s. AreRows (in_one_list s.rows s.modes)) }
{
    let mut s = begun(alloc, 1, 0)?;
    match come_here(alloc, &mut s) {
        Ok(()) => Ok(s),
        Err(why) => {
            spend(s);
            Err(why)
        }
    }
}

const HERE: &str = "/ s0 /7 s1 | /5:0 | 1 | 2 ";

const WHOLE: &[(&str, bool)] = &[("/1", true)];

/// Parcels, and whether they fit.
type Case = (Sent, bool);

const CASES: &[Case] = &[
    // one of each kind of row, and another that lets both stand
    (
        (
            "/1",
            WHOLE,
            &[("/1", b"ab", &[]), ("/1/3", b"", &[1, 3])],
            &[
                (3, 1, "/1/1", On::Life),
                (4, 1, "/1/3", On::Own),
                (5, 2, "/1/3", On::Others(Some(true))),
            ],
        ),
        true,
    ),
    (("/1", WHOLE, &[], &[(3, 1, "/1/2", On::Life)]), true),
    (("/1", &[("/1", true), ("/1/2", false)], &[], &[]), true),
    // the piece is not reduced, or does not begin with the prefix
    (("/1", &[("/1", true), ("/1/2", true)], &[], &[]), false),
    (("/1", &[("/1/2", true)], &[], &[]), false),
    // a record or a row of another file
    (("/1", WHOLE, &[("/2", b"", &[])], &[]), false),
    (("/1", WHOLE, &[], &[(3, 1, "/2", On::Life)]), false),
    (
        (
            "/1",
            &[("/1", true), ("/1/3", false)],
            &[("/1/3", b"", &[])],
            &[],
        ),
        false,
    ),
    // two records of one file, and two rows of one number
    (
        ("/1", WHOLE, &[("/1", b"", &[]), ("/1", b"", &[])], &[]),
        false,
    ),
    (
        (
            "/1",
            WHOLE,
            &[],
            &[(3, 1, "/1/1", On::Life), (3, 1, "/1/3", On::Own)],
        ),
        false,
    ),
    // names or handles that do not rise
    (("/1", WHOLE, &[("/1", b"ba", &[])], &[]), false),
    (("/1", WHOLE, &[("/1", b"", &[3, 1])], &[]), false),
    // an identifier is managed here, or has a record here
    (("/7/1", &[("/7/1", true)], &[], &[]), false),
    (("/5", &[("/5", true)], &[], &[]), false),
    // a conflict with a row here
    (("/1", WHOLE, &[], &[(3, 2, "/1/2", On::Life)]), false),
    (
        ("/1", WHOLE, &[], &[(3, 2, "/1/2", On::Others(None))]),
        false,
    ),
    // a conflict within the parcel
    (
        (
            "/1",
            WHOLE,
            &[],
            &[(3, 1, "/1/1", On::Life), (4, 2, "/1/1", On::Life)],
        ),
        false,
    ),
    (
        (
            "/1",
            WHOLE,
            &[("/1/3", b"", &[])],
            &[
                (4, 1, "/1/3", On::Own),
                (5, 2, "/1/3", On::Others(Some(true))),
            ],
        ),
        false,
    ),
    // a number that stands here, in the other table
    (("/1", WHOLE, &[], &[(2, 1, "/1/1", On::Life)]), false),
    (("/1", WHOLE, &[], &[(1, 1, "/1/1", On::Own)]), false),
];

/// Whether the parcel fits there.
fn comes(alloc: Global, sent: &Sent) -> Result<bool, Fail> {
    let mut s = here(alloc)?;
    let came = come_sent(alloc, &mut s, sent);
    spend(s);
    came
}

/// Each parcel, by its place in the table.
fn each_comes(rt: &impl Abort, alloc: Global, cases: &[Case]) -> Result<(), Fail> {
    let mut n = 0u32;
    for (sent, fit) in cases {
        same(rt, (n, comes(alloc, sent)?), (n, *fit));
        n = n.wrapping_add(1);
    }
    Ok(())
}

/// What is there before a parcel comes.
fn begins(rt: &impl Abort, alloc: Global) -> Result<(), Fail> {
    let s = here(alloc)?;
    let done = is_written(rt, alloc, &s, HERE);
    spend(s);
    done
}

#[test]
fn parcels_of_honest_servers_fit(rt: HostRuntime) -> Result<(), Fail> {
    begins(&rt, rt.alloc())?;
    each_comes(&rt, rt.alloc(), CASES)
}

/// Whether the parcel fits at the reading, and is put in its place then.
fn come_at(alloc: Global, s: &mut Server, now: u64, p: Parcel) -> Result<bool, Fail>
    requires { AreRows (in_one_list s.old.rows s.old.modes) }
{
    s.rows.all();
    s.modes.all();
    let off = s.rows.live(now, 10);
    let on = s.modes.live(now, 10);
    if !fits_at(alloc, &s.records, &off, &on, &s.map, s.me, &p)? {
        spend(p);
        return Ok(false);
    }
    if !are_records(p.records.as_slice()) {
        spend(p);
        return Err(Fail::from("no record"));
    }
    let me = s.me;
    install_at(
        alloc,
        &mut s.records,
        &mut s.rows,
        &mut s.modes,
        &mut s.map,
        me,
        now,
        10,
        p,
    )?;
    Ok(true)
}

/// What conflicts with a row that is over as soon as the skew is.
const CONFLICTS: &Sent = &("/1", WHOLE, &[], &[(3, 2, "/1/2", On::Life)]);

const CAME: &str = "/ s0 /1 s1 /7 s1 | /5:0 | 3 | ";

/// Whether the parcel fits at the reading, and what the server has then.
fn sees(
    rt: &impl Abort,
    alloc: Global,
    s: &mut Server,
    now: u64,
    fit: bool,
    wanted: &str,
) -> Result<(), Fail>
    requires { AreRows (in_one_list s.old.rows s.old.modes) }
{
    let p = parcel(alloc, CONFLICTS)?;
    same(rt, come_at(alloc, s, now, p)?, fit);
    is_written(rt, alloc, s, wanted)
}

fn comes_at(rt: &impl Abort, alloc: Global, now: u64, fit: bool, wanted: &str) -> Result<(), Fail> {
    let mut s = here(alloc)?;
    let done = sees(rt, alloc, &mut s, now, fit, wanted);
    spend(s);
    done
}

#[test]
fn rows_that_are_over_do_not_conflict(rt: HostRuntime) -> Result<(), Fail> {
    comes_at(&rt, rt.alloc(), 109, false, HERE)?;
    comes_at(&rt, rt.alloc(), 110, true, CAME)
}
