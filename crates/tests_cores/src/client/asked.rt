//! What the user of a client asks for.
ghost use Rattle.std.specs.Prelude.{◌≡◌, true, IfOk};
ghost use Rattle.fs_model.specs.Asking.{may_ask};

use fs_ident::{FileId, Kind, Name};
use fs_model::Op;
use std::alloc::Global;
use std::test::Fail;

/// An operation of the tests.
#[derive(Clone, Copy)]
pub(crate) enum Asking {
    /// Of the directory `a` in the root.
    Create,
    /// Of `a` in the root.
    Lookup,
    /// Of `a` in the root.
    Delete,
    Kind(&'static str),
}

pub(crate) fn op_of(alloc: Global, asking: Asking) -> Result<Op, Fail>
    ensures { IfOk result (λ op. may_ask op ≡ true) }
{
    match asking {
        Asking::Create => create(alloc),
        Asking::Lookup => look_up(alloc),
        Asking::Delete => delete(alloc),
        Asking::Kind(file) => kind_of(alloc, file),
    }
}

fn create(alloc: Global) -> Result<Op, Fail>
    ensures { IfOk result (λ op. may_ask op ≡ true) }
{
    let name = Name::new(alloc, b"a")?;
    Ok(Op::Create {
        dir: FileId::root(alloc),
        name,
        kind: Kind::Dir,
        id: None,
    })
}

fn look_up(alloc: Global) -> Result<Op, Fail>
    ensures { IfOk result (λ op. may_ask op ≡ true) }
{
    let name = Name::new(alloc, b"a")?;
    Ok(Op::Lookup {
        dir: FileId::root(alloc),
        name,
    })
}

fn delete(alloc: Global) -> Result<Op, Fail>
    ensures { IfOk result (λ op. may_ask op ≡ true) }
{
    let name = Name::new(alloc, b"a")?;
    Ok(Op::Delete {
        dir: FileId::root(alloc),
        name,
    })
}

fn kind_of(alloc: Global, file: &str) -> Result<Op, Fail>
    ensures { IfOk result (λ op. may_ask op ≡ true) }
{
    Ok(Op::Kind {
        file: FileId::parse(alloc, file.as_bytes())?,
    })
}
