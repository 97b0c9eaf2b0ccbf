//! Copies compared whole, texts, and a few effects.
use crate::{copies, prints, prints_and_copies, reads, same, shows, spend};
use fs_field::{
    Asked, Effect, Field, LeaseKind, Need, Part, PathAnswer, Row, Unknown, Use, Value, Vote, apply,
    table, touches,
};
use fs_ident::{FileId, Kind, LeaseNo, List, Name, PathNo, Session, TxnNo};
use fs_modes::{Mode, Modes};
use std::alloc::Global;
use std::process::Abort;
use std::test::Fail;

const NO: LeaseNo = LeaseNo {
    server: 1,
    count: 7,
};

const TXN: TxnNo = TxnNo {
    server: 2,
    count: 9,
};

fn root(alloc: Global) -> FileId {
    FileId::root(alloc)
}

/// The fifth file below the root.
fn file(alloc: Global) -> Result<FileId, Fail> {
    Ok(FileId::root(alloc).child(alloc, 5)?)
}

fn name(alloc: Global) -> Result<Name, Fail> {
    Ok(Name::new(alloc, b"a b")?)
}

/// A field of each kind, in order.
fn field(alloc: Global, line: usize) -> Result<Field, Fail> {
    match line {
        0 => Ok(Field::Life(root(alloc))),
        1 => Ok(Field::Child(file(alloc)?, name(alloc)?)),
        2 => Ok(Field::Names(file(alloc)?)),
        3 => Ok(Field::Info(root(alloc))),
        4 => Ok(Field::Own(file(alloc)?)),
        5 => Ok(Field::SelfW(file(alloc)?, Mode::AccR)),
        _ => Ok(Field::Other(root(alloc), Mode::DenyD)),
    }
}

const TEXTS: [&str; 7] = [
    "life /",
    "child /5 \"a b\"",
    "names /5",
    "info /",
    "own /5",
    "self /5 aR",
    "other / dD",
];

/// The field is so written, and is on a mode or not.
fn is_written(
    rt: &impl Abort,
    alloc: Global,
    field: Field,
    text: &str,
    on_mode: bool,
) -> Result<(), Fail> {
    same(rt, field.tells_no_mode(), !on_mode);
    prints_and_copies(rt, alloc, field, text)
}

#[test]
fn fields_are_written_and_copied(rt: HostRuntime) -> Result<(), Fail> {
    for (line, text) in TEXTS.iter().enumerate() {
        is_written(&rt, rt.alloc(), field(rt.alloc(), line)?, *text, line >= 5)?;
    }
    Ok(())
}

#[test]
fn an_unknown_number_is_written(rt: HostRuntime) -> Result<(), Fail> {
    let unknown = Unknown { no: NO };
    prints(
        &rt,
        rt.alloc(),
        &unknown,
        "there is no row with the number s1.7",
    )
}

/// An effect of each kind, in order.
fn effect(alloc: Global, line: usize) -> Result<Effect, Fail> {
    match line {
        0 => set_child(alloc),
        1 => set_parent(alloc),
        2 => new_node(alloc),
        3 => Ok(Effect::RemoveNode { file: file(alloc)? }),
        4 => add_handle(alloc),
        5 => remove_handle(alloc),
        _ => Ok(set_info(alloc)),
    }
}

fn set_child(alloc: Global) -> Result<Effect, Fail> {
    Ok(Effect::SetChild {
        dir: root(alloc),
        name: name(alloc)?,
        to: Some(file(alloc)?),
    })
}

fn set_parent(alloc: Global) -> Result<Effect, Fail> {
    Ok(Effect::SetParent {
        file: file(alloc)?,
        dir: root(alloc),
        name: name(alloc)?,
    })
}

fn new_node(alloc: Global) -> Result<Effect, Fail> {
    Ok(Effect::NewNode {
        file: file(alloc)?,
        kind: Kind::Dir,
        dir: root(alloc),
        name: name(alloc)?,
    })
}

fn add_handle(alloc: Global) -> Result<Effect, Fail> {
    Ok(Effect::AddHandle {
        file: file(alloc)?,
        session: Session(3),
        h: 4,
        modes: Modes::NONE,
    })
}

fn remove_handle(alloc: Global) -> Result<Effect, Fail> {
    Ok(Effect::RemoveHandle {
        file: file(alloc)?,
        session: Session(3),
        h: 4,
    })
}

fn set_info(alloc: Global) -> Effect {
    Effect::SetInfo {
        file: root(alloc),
        size: 10,
        stamp: 5,
    }
}

#[test]
fn effects_are_copied(rt: HostRuntime) -> Result<(), Fail> {
    for line in 0..7 {
        copies(&rt, rt.alloc(), effect(rt.alloc(), line)?)?;
    }
    Ok(())
}

/// A list of one item.
fn single<T: Drop>(alloc: Global, x: T) -> Result<List<T>, Fail> {
    let mut list = List::new(alloc);
    list.push(x)?;
    Ok(list)
}

/// A value of each kind, in order.
fn value(alloc: Global, line: usize) -> Result<Value, Fail> {
    match line {
        0 => Ok(Value::Life(Some(Kind::File))),
        1 => Ok(Value::Child(Some(file(alloc)?))),
        2 => Ok(Value::Names(single(alloc, name(alloc)?)?)),
        3 => Ok(Value::Info(3, 4)),
        4 => Ok(Value::Own(single(alloc, (8, Modes::NONE))?)),
        5 => Ok(Value::SelfW),
        _ => Ok(Value::Other(true)),
    }
}

/// Whether the value is of the field of this number.
fn is_of(alloc: Global, value: &Value, line: usize) -> Result<bool, Fail> {
    let field = field(alloc, line)?;
    let is_of = value.is_of(&field);
    spend(field);
    Ok(is_of)
}

/// The value is of the field of this number, and its copy too.
fn is_value(rt: &impl Abort, alloc: Global, value: Value, line: usize) -> Result<(), Fail> {
    match is_of(alloc, &value, line) {
        Ok(is_of) => {
            same(rt, is_of, true);
            copies(rt, alloc, value)
        }
        Err(fail) => {
            spend(value);
            Err(fail)
        }
    }
}

#[test]
fn values_are_copied(rt: HostRuntime) -> Result<(), Fail> {
    for line in 0..7 {
        is_value(&rt, rt.alloc(), value(rt.alloc(), line)?, line)?;
    }
    Ok(())
}

/// A vote of each kind but the first, in order.
fn vote(alloc: Global, line: usize) -> Result<Vote, Fail> {
    match line {
        0 => Ok(Vote::Ended {
            lease: NO,
            until: 8,
            now: 9,
        }),
        1 => Ok(Vote::PathsOut {
            no: PathNo {
                server: 3,
                count: 1,
            },
        }),
        _ => Ok(Vote::Moved {
            prefix: file(alloc)?,
            to: 2,
        }),
    }
}

#[test]
fn votes_are_copied(rt: HostRuntime) -> Result<(), Fail> {
    for line in 0..3 {
        copies(&rt, rt.alloc(), vote(rt.alloc(), line)?)?;
    }
    Ok(())
}

#[test]
fn answers_are_copied(rt: HostRuntime) -> Result<(), Fail> {
    copies(&rt, rt.alloc(), Asked::Wait { blocker: NO })?;
    copies(&rt, rt.alloc(), Asked::Granted { value: Some(true) })?;
    copies(&rt, rt.alloc(), LeaseKind::Exclusive)
}

fn path(alloc: Global) -> Result<PathAnswer, Fail> {
    Ok(PathAnswer::Path(single(alloc, file(alloc)?)?))
}

fn frozen(alloc: Global) -> Result<PathAnswer, Fail> {
    Ok(PathAnswer::Frozen {
        file: file(alloc)?,
        txn: TXN,
    })
}

#[test]
fn paths_are_copied(rt: HostRuntime) -> Result<(), Fail> {
    copies(&rt, rt.alloc(), path(rt.alloc())?)?;
    copies(&rt, rt.alloc(), frozen(rt.alloc())?)
}

/// The row of the lease with this count.
fn row(field: Field, count: u64) -> Row {
    Row {
        no: LeaseNo { server: 1, count },
        session: Session(2),
        field,
        kind: LeaseKind::Shared,
        until: 100,
        promise: Some(false),
        lock: Some(TXN),
    }
}

fn used(alloc: Global) -> Result<Use, Fail> {
    Ok(Use {
        field: field(alloc, 4)?,
        kind: LeaseKind::Shared,
        no: NO,
        until: 100,
    })
}

fn part(alloc: Global) -> Result<Part, Fail> {
    let uses = single(alloc, used(alloc)?)?;
    Ok(Part {
        file: root(alloc),
        uses,
        freeze: None,
    })
}

fn need(alloc: Global) -> Result<Need, Fail> {
    Ok(Need::Lease(field(alloc, 5)?, LeaseKind::Exclusive))
}

#[test]
fn leases_are_copied(rt: HostRuntime) -> Result<(), Fail> {
    copies(&rt, rt.alloc(), row(field(rt.alloc(), 1)?, 7))?;
    copies(&rt, rt.alloc(), need(rt.alloc())?)?;
    copies(&rt, rt.alloc(), Need::Fresh(file(rt.alloc())?))?;
    copies(&rt, rt.alloc(), part(rt.alloc())?)
}

/// A row on the field of this number is put into the table.
fn put(alloc: Global, rows: &mut Vec<Row>, line: usize, count: u64) -> Result<(), Fail> {
    table::put(rows, row(field(alloc, line)?, count))?;
    Ok(())
}

/// Two rows on the fifth field, and one on the first.
fn put_three(alloc: Global, rows: &mut Vec<Row>) -> Result<(), Fail> {
    put(alloc, rows, 4, 7)?;
    put(alloc, rows, 4, 3)?;
    put(alloc, rows, 0, 5)
}

const ON: &str =
    "List { items: [(LeaseNo { server: 1, count: 3 }, Session(2)), (LeaseNo { server: 1, count: \
    7 }, Session(2))] }";

/// The rows tell this of the fifth field.
fn tells_rows(rt: &impl Abort, alloc: Global, rows: &[Row]) -> Result<(), Fail> {
    let field = field(alloc, 4)?;
    let on = table::rows_on(alloc, rows, &field);
    spend(field);
    reads(rt, alloc, on?, ON)
}

/// The rows tell this of the root.
fn tells_borne(rt: &impl Abort, alloc: Global, rows: &[Row]) -> Result<(), Fail> {
    let root = root(alloc);
    let borne = table::borne(alloc, rows, &root);
    spend(root);
    reads(rt, alloc, borne?, "List { items: [5, 5] }")
}

fn tells_all(rt: &impl Abort, alloc: Global, rows: &mut Vec<Row>) -> Result<(), Fail> {
    put_three(alloc, rows)?;
    tells_rows(rt, alloc, rows)?;
    tells_borne(rt, alloc, rows)
}

#[test]
fn rows_tell_whole_answers(rt: HostRuntime) -> Result<(), Fail> {
    let mut rows = Vec::new(rt.alloc());
    let done = tells_all(&rt, rt.alloc(), &mut rows);
    spend(rows);
    done
}

/// The effect of the first session sets the value of the field to this.
fn applies(
    rt: &impl Abort,
    alloc: Global,
    value: &mut Value,
    (e, field): (&Effect, &Field),
    wanted: &str,
) -> Result<(), Fail> {
    apply(alloc, value, field, Session(1), e)?;
    shows(rt, alloc, value, wanted)
}

fn applies_all(
    rt: &impl Abort,
    alloc: Global,
    value: Value,
    field: Field,
    e: Effect,
    wanted: &str,
) -> Result<(), Fail> {
    let mut value = value;
    let done = applies(rt, alloc, &mut value, (&e, &field), wanted);
    spend((value, field));
    spend(e);
    done
}

#[test]
fn size_and_stamp_are_set(rt: HostRuntime) -> Result<(), Fail> {
    let field = Field::Info(root(rt.alloc()));
    let e = set_info(rt.alloc());
    same(&rt, touches(&e, &field), true);
    applies_all(&rt, rt.alloc(), Value::Info(0, 0), field, e, "Info(10, 5)")
}

const ADDED: &str = "Names(List { items: [Name { bytes: [97, 32, 98] }, Name { bytes: [98] }] })";

fn one_name(alloc: Global) -> Result<Value, Fail> {
    Ok(Value::Names(single(alloc, Name::new(alloc, b"b")?)?))
}

#[test]
fn a_name_is_added(rt: HostRuntime) -> Result<(), Fail> {
    let e = set_child(rt.alloc())?;
    match one_name(rt.alloc()) {
        Ok(value) => {
            let field = Field::Names(root(rt.alloc()));
            applies_all(&rt, rt.alloc(), value, field, e, ADDED)
        }
        Err(fail) => {
            spend(e);
            Err(fail)
        }
    }
}
