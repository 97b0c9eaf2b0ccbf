//! One walk of the table of needs over what a view makes known.
ghost use Rattle.std.specs.Prelude.{◌≡◌, [], false, is_some, None, Some, IfOk};
ghost use Rattle.fs_field.specs.declared.asked.Need.TheVariants.{Lease, Fresh};
ghost use Rattle.fs_model.specs.declared.op.Op.TheVariants as op;
ghost use Rattle.fs_model.specs.declared.reply.Reply.TheVariants as reply;
ghost use Rattle.fs_modes.specs.Modes.{opposing};
ghost use Rattle.fs_view.specs.Modes.{others_before, selves_before};
ghost use Rattle.fs_view.specs.Script.{ask_child, ask_create, ask_info, ask_names, ask_own, ask_place, ask_selves, ask_set, ask_size, close_with, new_file, open_free, open_with};
ghost use Rattle.fs_view.specs.Told.{modes_listed};
ghost use Rattle.fs_view.specs.View.{along, known_by, walk_in};
ghost use Rattle.fs_view.specs.Walk.{behind};

use crate::told;
use crate::view::View;
use fs_field::{Field, LeaseKind, Need, Value};
use fs_ident::{FileId, List, Memory, Name, Twin};
use fs_model::Reply;
use fs_modes::{Mode, Modes};
use std::alloc::Global;

/// The items in order, and the reply where none of them is missing.
#[derive(Debug, Drop)]
pub struct Walk {
    pub items: List<Need>,
    pub reply: Option<Reply>,
}

/// An item of a walk, and whether it is there.
#[derive(Debug, Drop)]
pub struct Item {
    need: Need,
    there: bool,
}

impl Walk {
    /// Nothing more is asked for.
    pub fn answer(alloc: Global, reply: Reply) -> Walk
        ensures { result ≡ record { items = []; reply = Some reply } }
    {
        Walk {
            items: List::new(alloc),
            reply: Some(reply),
        }
    }
}

impl Twin for Walk {
    fn copy(&self, alloc: Global) -> Result<Walk, Memory> {
        Ok(Walk {
            items: self.items.copy(alloc)?,
            reply: self.reply.copy(alloc)?,
        })
    }

    fn discard(self) {}
}

impl Item {
    /// The walk with this item before it.
    pub fn before(self, walk: Walk) -> Result<Walk, Memory>
        ensures { IfOk result (λ w. w ≡ behind self.need self.there walk) }
    {
        let Item { need, there } = self;
        let Walk { mut items, reply } = walk;
        items.insert(0, need)?;
        if there {
            return Ok(Walk { items, reply });
        }
        Ok(Walk { items, reply: None })
    }
}

/// The item of the field, and what is known of it.
pub fn ask(
    view: &View,
    alloc: Global,
    now: u64,
    field: Field,
    kind: LeaseKind,
) -> Result<(Item, Option<Value>), Memory>
    ensures item { IfOk result (λ asked. asked.0 ≡
        record { need = Lease field kind; there = is_some (known_by view.now now field kind) }) }
    ensures value { IfOk result (λ asked. asked.1 ≡ known_by view.now now field kind) }
{
    let value = view.known(alloc, now, &field, kind)?;
    let there = value.is_some();
    let item = Item {
        need: Need::Lease(field, kind),
        there,
    };
    Ok((item, value))
}

pub fn look_up(
    view: &View,
    alloc: Global,
    now: u64,
    dir: &FileId,
    name: &Name,
) -> Result<Walk, Memory>
    ensures { IfOk result (λ w. w ≡ walk_in view.now now (op.Lookup dir.now name.now)) }
{
    let field = Field::Life(dir.copy(alloc)?);
    let (item, life) = ask(view, alloc, now, field, LeaseKind::Shared)?;
    if let Some(reply) = told::no_dir(&life) {
        return item.before(Walk::answer(alloc, reply));
    }
    item.before(look_up_child(view, alloc, now, dir, name)?)
}

fn look_up_child(
    view: &View,
    alloc: Global,
    now: u64,
    dir: &FileId,
    name: &Name,
) -> Result<Walk, Memory>
    ensures { IfOk result (λ w. w ≡ along view.now now (ask_child dir.now name.now)) }
{
    let field = Field::Child(dir.copy(alloc)?, name.copy(alloc)?);
    let (item, child) = ask(view, alloc, now, field, LeaseKind::Shared)?;
    item.before(Walk::answer(alloc, told::look_up_reply(child)))
}

pub fn list(view: &View, alloc: Global, now: u64, dir: &FileId) -> Result<Walk, Memory>
    ensures { IfOk result (λ w. w ≡ walk_in view.now now (op.List dir.now)) }
{
    let field = Field::Life(dir.copy(alloc)?);
    let (item, life) = ask(view, alloc, now, field, LeaseKind::Shared)?;
    if let Some(reply) = told::no_dir(&life) {
        return item.before(Walk::answer(alloc, reply));
    }
    item.before(list_names(view, alloc, now, dir)?)
}

fn list_names(view: &View, alloc: Global, now: u64, dir: &FileId) -> Result<Walk, Memory>
    ensures { IfOk result (λ w. w ≡ along view.now now (ask_names dir.now)) }
{
    let field = Field::Names(dir.copy(alloc)?);
    let (item, names) = ask(view, alloc, now, field, LeaseKind::Shared)?;
    item.before(Walk::answer(alloc, told::names_reply(alloc, names)))
}

pub fn kind(view: &View, alloc: Global, now: u64, file: &FileId) -> Result<Walk, Memory>
    ensures { IfOk result (λ w. w ≡ walk_in view.now now (op.Kind file.now)) }
{
    let field = Field::Life(file.copy(alloc)?);
    let (item, life) = ask(view, alloc, now, field, LeaseKind::Shared)?;
    item.before(Walk::answer(alloc, told::kind_reply(&life)))
}

pub fn info(view: &View, alloc: Global, now: u64, file: &FileId) -> Result<Walk, Memory>
    ensures { IfOk result (λ w. w ≡ walk_in view.now now (op.Info file.now)) }
{
    let field = Field::Life(file.copy(alloc)?);
    let (item, life) = ask(view, alloc, now, field, LeaseKind::Shared)?;
    if let Some(reply) = told::no_file(&life) {
        return item.before(Walk::answer(alloc, reply));
    }
    item.before(info_told(view, alloc, now, file)?)
}

fn info_told(view: &View, alloc: Global, now: u64, file: &FileId) -> Result<Walk, Memory>
    ensures { IfOk result (λ w. w ≡ along view.now now (ask_info file.now)) }
{
    let field = Field::Info(file.copy(alloc)?);
    let (item, info) = ask(view, alloc, now, field, LeaseKind::Shared)?;
    item.before(Walk::answer(alloc, told::info_reply(&info)))
}

pub fn create(
    view: &View,
    alloc: Global,
    now: u64,
    dir: &FileId,
    name: &Name,
    id: &Option<FileId>,
) -> Result<Walk, Memory>
    ensures { IfOk result (λ w. w ≡ along view.now now (ask_create dir.now name.now id.now)) }
{
    let field = Field::Life(dir.copy(alloc)?);
    let (item, life) = ask(view, alloc, now, field, LeaseKind::Shared)?;
    if let Some(reply) = told::no_dir(&life) {
        return item.before(Walk::answer(alloc, reply));
    }
    item.before(create_at(view, alloc, now, dir, name, id)?)
}

fn create_at(
    view: &View,
    alloc: Global,
    now: u64,
    dir: &FileId,
    name: &Name,
    id: &Option<FileId>,
) -> Result<Walk, Memory>
    ensures { IfOk result (λ w. w ≡ along view.now now (ask_place dir.now name.now id.now)) }
{
    let field = Field::Child(dir.copy(alloc)?, name.copy(alloc)?);
    let (item, child) = ask(view, alloc, now, field, LeaseKind::Exclusive)?;
    if let Some(reply) = told::taken_name(&child) {
        return item.before(Walk::answer(alloc, reply));
    }
    item.before(make(view, alloc, now, dir, id)?)
}

fn make(
    view: &View,
    alloc: Global,
    now: u64,
    dir: &FileId,
    id: &Option<FileId>,
) -> Result<Walk, Memory>
    ensures { IfOk result (λ w. w ≡ along view.now now (new_file dir.now id.now)) }
{
    match id {
        None => {
            let item = Item {
                need: Need::Fresh(dir.copy(alloc)?),
                there: view.gives(now, dir),
            };
            item.before(Walk::answer(alloc, Reply::Made))
        }
        Some(id) => {
            let field = Field::Life(id.copy(alloc)?);
            let (item, life) = ask(view, alloc, now, field, LeaseKind::Exclusive)?;
            item.before(Walk::answer(alloc, told::made_reply(&life)))
        }
    }
}

pub fn open(
    view: &View,
    alloc: Global,
    now: u64,
    file: &FileId,
    h: u32,
    modes: Modes,
) -> Result<Walk, Memory>
    ensures { IfOk result (λ w. w ≡ walk_in view.now now (op.OpenFile file.now h modes)) }
{
    let field = Field::Life(file.copy(alloc)?);
    let (item, life) = ask(view, alloc, now, field, LeaseKind::Shared)?;
    if let Some(reply) = told::no_file(&life) {
        return item.before(Walk::answer(alloc, reply));
    }
    item.before(open_own(view, alloc, now, file, h, modes)?)
}

fn open_own(
    view: &View,
    alloc: Global,
    now: u64,
    file: &FileId,
    h: u32,
    modes: Modes,
) -> Result<Walk, Memory>
    ensures { IfOk result (λ w. w ≡ along view.now now (ask_own file.now h modes)) }
{
    let field = Field::Own(file.copy(alloc)?);
    let (item, own) = ask(view, alloc, now, field, LeaseKind::Exclusive)?;
    match told::own_told(&own) {
        None => item.before(open_blind(view, alloc, now, file, h, modes)?),
        Some(own) => item.before(open_beside(view, alloc, now, own, file, h, modes)?),
    }
}

/// Where the session's handles are not known.
fn open_blind(
    view: &View,
    alloc: Global,
    now: u64,
    file: &FileId,
    h: u32,
    modes: Modes,
) -> Result<Walk, Memory>
    ensures { IfOk result (λ w. w ≡ along view.now now (open_with None file.now h modes)) }
{
    let opened = Walk::answer(alloc, Reply::Opened);
    opposed(view, alloc, now, file, modes, opened)
}

/// Beside these handles of the session.
fn open_beside(
    view: &View,
    alloc: Global,
    now: u64,
    own: &[(u32, Modes)],
    file: &FileId,
    h: u32,
    modes: Modes,
) -> Result<Walk, Memory>
    ensures { IfOk result (λ w. w ≡
        along view.now now (open_with (Some own.now) file.now h modes)) }
{
    if told::modes_under(own, h).is_some() {
        return Ok(Walk::answer(alloc, Reply::HandleUsed));
    }
    if told::own_conflicts(own, modes) {
        return Ok(Walk::answer(alloc, Reply::Sharing));
    }
    open_free(view, alloc, now, own, file, modes)
}

/// Where no handle of the session conflicts and the new one's number is free.
fn open_free(
    view: &View,
    alloc: Global,
    now: u64,
    own: &[(u32, Modes)],
    file: &FileId,
    modes: Modes,
) -> Result<Walk, Memory>
    ensures { IfOk result (λ w. w ≡ along view.now now (open_free false own.now file.now modes)) }
{
    let on = told::modes_on(own, modes);
    let opened = turned(view, alloc, now, file, on, Reply::Opened)?;
    opposed(view, alloc, now, file, modes, opened)
}

pub fn close(view: &View, alloc: Global, now: u64, file: &FileId, h: u32) -> Result<Walk, Memory>
    ensures { IfOk result (λ w. w ≡ walk_in view.now now (op.Close file.now h)) }
{
    let field = Field::Own(file.copy(alloc)?);
    let (item, own) = ask(view, alloc, now, field, LeaseKind::Exclusive)?;
    match told::own_told(&own) {
        None => item.before(Walk::answer(alloc, Reply::Closed)),
        Some(own) => item.before(close_one(view, alloc, now, own, file, h)?),
    }
}

fn close_one(
    view: &View,
    alloc: Global,
    now: u64,
    own: &[(u32, Modes)],
    file: &FileId,
    h: u32,
) -> Result<Walk, Memory>
    ensures { IfOk result (λ w. w ≡ along view.now now (close_with (Some own.now) file.now h)) }
{
    if told::modes_under(own, h).is_none() {
        return Ok(Walk::answer(alloc, Reply::NoHandle));
    }
    let off = told::modes_off(own, h);
    turned(view, alloc, now, file, off, Reply::Closed)
}

pub fn set(view: &View, alloc: Global, now: u64, file: &FileId, h: u32) -> Result<Walk, Memory>
    ensures { IfOk result (λ w. w ≡ along view.now now (ask_set file.now h)) }
{
    let field = Field::Own(file.copy(alloc)?);
    let (item, own) = ask(view, alloc, now, field, LeaseKind::Exclusive)?;
    match told::own_told(&own) {
        None => item.before(set_info(view, alloc, now, file)?),
        Some(own) => match told::no_write(own, h) {
            Some(reply) => item.before(Walk::answer(alloc, reply)),
            None => item.before(set_info(view, alloc, now, file)?),
        },
    }
}

fn set_info(view: &View, alloc: Global, now: u64, file: &FileId) -> Result<Walk, Memory>
    ensures { IfOk result (λ w. w ≡ along view.now now (ask_size file.now)) }
{
    let field = Field::Info(file.copy(alloc)?);
    let (item, _) = ask(view, alloc, now, field, LeaseKind::Exclusive)?;
    item.before(Walk::answer(alloc, Reply::Set))
}

/// Each of the modes that an open of these keeps from the others, and the walk, unless one of them has one.
fn opposed(
    view: &View,
    alloc: Global,
    now: u64,
    file: &FileId,
    modes: Modes,
    rest: Walk,
) -> Result<Walk, Memory>
    ensures { IfOk result (λ w. w ≡
        others_before (known_by view.now now) reply.Sharing (modes_listed (opposing modes)) file.now
        false rest) }
{
    let opposing = told::modes_listed(alloc, modes.opposing())?;
    others(
        view,
        alloc,
        now,
        Reply::Sharing,
        &opposing,
        file,
        false,
        rest,
    )
}

/// Each of the modes as the session itself has it, and the reply.
fn turned(
    view: &View,
    alloc: Global,
    now: u64,
    file: &FileId,
    modes: Modes,
    reply: Reply,
) -> Result<Walk, Memory>
    ensures { IfOk result (λ w. w ≡
        along view.now now (ask_selves (modes_listed modes) file.now reply)) }
{
    let turned = told::modes_listed(alloc, modes)?;
    let rest = Walk::answer(alloc, reply);
    selves(view, alloc, now, &turned, file, rest)
}

/// Each of the modes as it is with the other sessions, and the walk, unless one of them has one.
pub fn others(
    view: &View,
    alloc: Global,
    now: u64,
    reply: Reply,
    modes: &[Mode],
    file: &FileId,
    found: bool,
    rest: Walk,
) -> Result<Walk, Memory>
    ensures { IfOk result (λ w. w ≡
        others_before (known_by view.now now) reply modes.now file.now found rest) }
{
    let Some((mode, more)) = modes.split_first() else {
        return Ok(if found {
            Walk::answer(alloc, reply)
        } else {
            rest
        });
    };
    let field = Field::Other(file.copy(alloc)?, *mode);
    let (item, other) = ask(view, alloc, now, field, LeaseKind::Shared)?;
    let found = found || told::is_other_told(&other);
    item.before(others(view, alloc, now, reply, more, file, found, rest)?)
}

/// Each of the modes as the session itself has it, and the walk.
fn selves(
    view: &View,
    alloc: Global,
    now: u64,
    modes: &[Mode],
    file: &FileId,
    rest: Walk,
) -> Result<Walk, Memory>
    ensures { IfOk result (λ w. w ≡ selves_before (known_by view.now now) modes.now file.now rest) }
{
    let Some((mode, more)) = modes.split_first() else {
        return Ok(rest);
    };
    let field = Field::SelfW(file.copy(alloc)?, *mode);
    let (item, _) = ask(view, alloc, now, field, LeaseKind::Exclusive)?;
    item.before(selves(view, alloc, now, more, file, rest)?)
}
