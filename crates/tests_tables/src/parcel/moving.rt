//! A directory goes from one server to another.
ghost use Rattle.std.specs.Prelude.{◌≡◌, IfOk, OnOk};
ghost use Rattle.fs_parcel.specs.Rows.{AreRows, in_one_list};

use crate::forms::{reads, same, spend, with};
use crate::parcel::fitting::must_come;
use crate::parcel::shown::{is_written, parcel_text};
use crate::parcel::{On, Sent, Server, begun, come, id, parcel};
use fs_ident::{FileId, PathNo};
use fs_parcel::{MoveError, pack_up, packed, refusal};
use fs_record::Parcel;
use std::alloc::Global;
use std::process::Abort;
use std::test::Fail;

/// All but what is below one file, which another server has: a directory with a file in it, which the second session
/// writes, and another one, with a row of each table on either.
const ALL: &Sent = &(
    "/",
    &[("/", true), ("/1/3", false)],
    &[
        ("/", b"ab", &[]),
        ("/1", b"a", &[]),
        ("/1/2", b"", &[2]),
        ("/2", b"", &[]),
    ],
    &[
        (1, 1, "/1/2", On::Life),
        (2, 1, "/1/2", On::Others(Some(true))),
        (3, 1, "/2", On::Life),
        (4, 2, "/2", On::Own),
    ],
);

/// Server 0 with these files, which came from server 9.
pub(super) fn first_server(alloc: Global, sent: &Sent) -> Result<Server, Fail>
    ensures { IfOk result (λ s. AreRows (in_one_list s.rows s.modes)) }
{
    let mut s = begun(alloc, 0, 9)?;
    match must_come(alloc, &mut s, sent) {
        Ok(()) => Ok(s),
        Err(why) => {
            spend(s);
            Err(why)
        }
    }
}

/// What the server has below the prefix goes to another.
pub(super) fn go(
    alloc: Global,
    s: &mut Server,
    prefix: &FileId,
    to: u8,
    through: Option<PathNo>,
) -> Result<Parcel, MoveError>
    requires { AreRows (in_one_list s.old.rows s.old.modes) }
    ensures { AreRows (in_one_list s.new.rows s.new.modes) }
{
    s.rows.all();
    s.modes.all();
    let me = s.me;
    pack_up(
        alloc,
        &mut s.records,
        &mut s.rows,
        &mut s.modes,
        &mut s.map,
        me,
        prefix,
        to,
        through,
    )
}

/// What went, or why nothing did.
pub(super) fn went(
    alloc: Global,
    s: &mut Server,
    prefix: &str,
    to: u8,
    through: Option<PathNo>,
) -> Result<String, Fail>
    requires { AreRows (in_one_list s.old.rows s.old.modes) }
    ensures { AreRows (in_one_list s.new.rows s.new.modes) }
{
    let prefix = id(alloc, prefix)?;
    let gone = go(alloc, s, &prefix, to, through);
    spend(prefix);
    went_text(alloc, gone)
}

fn went_text(alloc: Global, gone: Result<Parcel, MoveError>) -> Result<String, Fail> {
    match gone {
        Ok(p) => text_of_parcel(alloc, p),
        Err(why) => text_of_refusal(alloc, why),
    }
}

fn text_of_parcel(alloc: Global, p: Parcel) -> Result<String, Fail> {
    let text = parcel_text(alloc, &p);
    spend(p);
    text
}

fn text_of_refusal(alloc: Global, why: MoveError) -> Result<String, Fail> {
    let text = format!(in alloc; "{why}");
    spend(why);
    Ok(text?)
}

/// A copy of what would go.
fn copied(alloc: Global, s: &Server, prefix: &FileId) -> Result<Parcel, Fail>
    requires { AreRows (in_one_list s.now.rows s.now.modes) }
{
    if s.map.owner(prefix).1 != s.me {
        return Err(Fail::from("the prefix is at another server"));
    }
    let off = s.rows.all();
    let on = s.modes.all();
    Ok(packed(alloc, &s.records, &off, &on, &s.map, s.me, prefix)?)
}

/// Whether it may go, if no path lease goes through.
fn may_go(alloc: Global, s: &Server, prefix: &FileId, to: u8) -> Result<bool, Fail> {
    let off = s.rows.all();
    let on = s.modes.all();
    let why = refusal(alloc, &s.records, &off, &on, &s.map, s.me, prefix, to, None)?;
    Ok(why.is_none())
}

const PARCEL: &str = "/1 true /1/3 false | /1:1 /1/2:0 | 1 2 ";

const LEFT: &str = "/ s0 /1 s1 /1/3 s9 | /:2 /2:0 | 3 | 4 ";

const CAME: &str = "/ s0 /1 s1 /1/3 s0 | /1:1 /1/2:0 | 1 | 2 ";

/// What came is as it is written, and fits.
fn comes(rt: &impl Abort, alloc: Global, s1: &mut Server, p: Parcel) -> Result<(), Fail>
    requires { AreRows (in_one_list s1.old.rows s1.old.modes) }
{
    let text = parcel_text(alloc, &p);
    let (p, text) = with(p, text)?;
    reads(rt, text, PARCEL);
    same(rt, come(alloc, s1, p)?, true);
    Ok(())
}

/// The first directory goes.
fn first_goes(alloc: Global, s0: &mut Server) -> Result<Parcel, Fail>
    requires { AreRows (in_one_list s0.old.rows s0.old.modes) }
    ensures { AreRows (in_one_list s0.new.rows s0.new.modes) }
{
    let prefix = id(alloc, "/1")?;
    let gone = go(alloc, s0, &prefix, 1, None);
    spend(prefix);
    Ok(gone?)
}

/// The first directory goes from one to the other.
fn moves(rt: &impl Abort, alloc: Global, s0: &mut Server, s1: &mut Server) -> Result<(), Fail>
    requires from { AreRows (in_one_list s0.old.rows s0.old.modes) }
    requires to { AreRows (in_one_list s1.old.rows s1.old.modes) }
    ensures { AreRows (in_one_list s0.new.rows s0.new.modes) }
{
    let p = first_goes(alloc, s0)?;
    comes(rt, alloc, s1, p)
}

/// It went, and does not go again.
fn went_once(rt: &impl Abort, alloc: Global, s0: &mut Server, s1: &mut Server) -> Result<(), Fail>
    requires from { AreRows (in_one_list s0.old.rows s0.old.modes) }
    requires to { AreRows (in_one_list s1.old.rows s1.old.modes) }
{
    moves(rt, alloc, s0, s1)?;
    is_written(rt, alloc, s0, LEFT)?;
    is_written(rt, alloc, s1, CAME)?;
    reads(rt, went(alloc, s0, "/1", 1, None)?, "/1 is at s1");
    Ok(())
}

/// From a server to a new one.
fn goes_over(rt: &impl Abort, alloc: Global, s0: &mut Server) -> Result<(), Fail>
    requires { AreRows (in_one_list s0.old.rows s0.old.modes) }
{
    let mut s1 = begun(alloc, 1, 0)?;
    let done = went_once(rt, alloc, s0, &mut s1);
    spend(s1);
    done
}

#[test]
fn a_directory_goes_to_another_server(rt: HostRuntime) -> Result<(), Fail> {
    let mut s0 = first_server(rt.alloc(), ALL)?;
    let done = goes_over(&rt, rt.alloc(), &mut s0);
    spend(s0);
    done
}

/// What would go is told before it goes.
fn is_told(rt: &impl Abort, alloc: Global, s0: &Server, prefix: &FileId) -> Result<(), Fail>
    requires { AreRows (in_one_list s0.now.rows s0.now.modes) }
{
    same(rt, may_go(alloc, s0, prefix, 1)?, true);
    let p = copied(alloc, s0, prefix)?;
    reads(rt, text_of_parcel(alloc, p)?, PARCEL);
    Ok(())
}

/// What of the first directory would go is told before it goes.
fn first_is_told(rt: &impl Abort, alloc: Global, s0: &Server) -> Result<(), Fail>
    requires { AreRows (in_one_list s0.now.rows s0.now.modes) }
{
    let prefix = id(alloc, "/1")?;
    let done = is_told(rt, alloc, s0, &prefix);
    spend(prefix);
    done
}

#[test]
fn what_would_go_is_read(rt: HostRuntime) -> Result<(), Fail> {
    let s0 = first_server(rt.alloc(), ALL)?;
    let done = first_is_told(&rt, rt.alloc(), &s0);
    spend(s0);
    done
}
