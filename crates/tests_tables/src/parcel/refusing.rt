//! Why nothing moves, and which reason is told.
ghost use Rattle.std.specs.Prelude.{◌≡◌};
ghost use Rattle.fs_parcel.specs.Rows.{AreRows, in_one_list};

use crate::forms::{reads, spend};
use crate::parcel::moving::{first_server, went};
use crate::parcel::shown::{is_written, server_text};
use crate::parcel::{On, Sent, Server};
use fs_ident::PathNo;
use std::alloc::Global;
use std::process::Abort;
use std::test::Fail;

/// Three files, of which a transaction keeps the life. Another server has what is below the file 1/3, but for one file.
const KEPT: &Sent = &(
    "/",
    &[("/", true), ("/1/3", false), ("/1/3/4", true)],
    &[("/1", b"", &[]), ("/2", b"", &[])],
    &[
        (1, 1, "/1/2", On::KeptLife),
        (2, 1, "/1/3/4", On::KeptLife),
        (3, 1, "/1/4/1", On::KeptLife),
    ],
);

/// A prefix, where it would go, whether a path lease goes through, and why it does not go. With each reason those below
/// it are there too.
type Reason = (&'static str, u8, bool, &'static str);

const REASONS: &[Reason] = &[
    ("/1/3", 0, true, "/1/3 is at s9"),
    ("/1/4", 0, true, "no file has the prefix"),
    ("/1", 0, true, "it is there"),
    ("/1", 1, true, "s0#7 keeps a row"),
    ("/2", 1, true, "s0@5 goes through it"),
];

fn through(is_out: bool) -> Option<PathNo> {
    if is_out {
        Some(PathNo {
            server: 0,
            count: 5,
        })
    } else {
        None
    }
}

/// Each reason is told.
fn refuse_each(
    rt: &impl Abort,
    alloc: Global,
    s: &mut Server,
    reasons: &[Reason],
) -> Result<(), Fail>
    requires { AreRows (in_one_list s.old.rows s.old.modes) }
    ensures { AreRows (in_one_list s.new.rows s.new.modes) }
{
    for (prefix, to, out, wanted) in reasons {
        goes(rt, alloc, s, prefix, *to, *out, wanted)?;
    }
    Ok(())
}

/// No reason changes the server, and without one the files go.
fn refuses(rt: &impl Abort, alloc: Global, s: &mut Server, before: &str) -> Result<(), Fail>
    requires { AreRows (in_one_list s.old.rows s.old.modes) }
{
    refuse_each(rt, alloc, s, REASONS)?;
    is_written(rt, alloc, s, before)?;
    goes(rt, alloc, s, "/2", 1, false, "/2 true | /2:0 | ")
}

/// What goes, or why it does not.
fn goes(
    rt: &impl Abort,
    alloc: Global,
    s: &mut Server,
    prefix: &str,
    to: u8,
    out: bool,
    wanted: &str,
) -> Result<(), Fail>
    requires { AreRows (in_one_list s.old.rows s.old.modes) }
    ensures { AreRows (in_one_list s.new.rows s.new.modes) }
{
    reads(rt, went(alloc, s, prefix, to, through(out))?, wanted);
    Ok(())
}

/// The server stays as it was.
fn stays(rt: &impl Abort, alloc: Global, s: &mut Server) -> Result<(), Fail>
    requires { AreRows (in_one_list s.old.rows s.old.modes) }
{
    let before = server_text(alloc, s)?;
    let done = refuses(rt, alloc, s, before.as_str());
    spend(before);
    done
}

#[test]
fn the_first_reason_is_told(rt: HostRuntime) -> Result<(), Fail> {
    let mut s = first_server(rt.alloc(), KEPT)?;
    let done = stays(&rt, rt.alloc(), &mut s);
    spend(s);
    done
}
