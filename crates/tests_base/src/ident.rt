ghost use Rattle.std.specs.Prelude.{◌≡◌, length};

use crate::{is_copied, same};
use fs_ident::{
    DEPTH, FileId, IdError, Kind, LeaseNo, List, Memory, Name, PathNo, Peer, Session, Twin, TxnNo,
    number_in_front, search_by_name,
};
use std::alloc::Global;
use std::fmt::{Debug, Display};
use std::process::Abort;
use std::test::Fail;

/// The identifier with so many ones.
fn ones(alloc: Global, depth: usize) -> Result<FileId, IdError> {
    let mut id = FileId::root(alloc);
    for _ in 0..depth {
        id = id.child(alloc, 1)?;
    }
    Ok(id)
}

/// The numbers and the order of the root, a file below it, and a file below that.
fn are_in_order(rt: &impl Abort, root: &FileId, one: &FileId, three: &FileId) {
    same(rt, three.numbers(), &[1, 3]);
    same(rt, (root < one, one < three), (true, true));
    same(
        rt,
        (three.begins(one), three.begins(three), one.begins(three)),
        (true, true, false),
    );
}

/// Their order, their copies and their parents.
fn are_numbered(
    rt: &impl Abort,
    alloc: Global,
    root: &FileId,
    one: &FileId,
    three: &FileId,
) -> Result<(), Fail> {
    are_in_order(rt, root, one, three);
    same(rt, &three.copy(alloc)?, three);
    same(rt, three.parent(alloc)?.as_ref(), Some(one));
    same(rt, root.parent(alloc)?.is_none(), true);
    Ok(())
}

#[test]
fn numbers_identifiers(rt: HostRuntime) -> Result<(), Fail> {
    let root = FileId::root(rt.alloc());
    let one = root.child(rt.alloc(), 1)?;
    let three = one.child(rt.alloc(), 3)?;
    are_numbered(&rt, rt.alloc(), &root, &one, &three)
}

#[test]
fn refuses_numbers(rt: HostRuntime) -> Result<(), Fail> {
    let deepest = ones(rt.alloc(), DEPTH)?;
    for k in [0, 1, u32::MAX] {
        same(&rt, deepest.child(rt.alloc(), k).err(), Some(IdError::Deep));
    }
    let root = FileId::root(rt.alloc());
    same(&rt, root.child(rt.alloc(), 0).err(), Some(IdError::Zero));
    Ok(())
}

/// The text of an identifier behind what was there, and the same text again.
fn reads(rt: &impl Abort, alloc: Global, text: &[u8]) -> Result<(), Fail> {
    let mut out = Vec::from_slice(alloc, b"id ")?;
    FileId::parse(alloc, text)?.print(alloc, &mut out)?;
    same(rt, out.split_at(3), (b"id ", text));
    Ok(())
}

const IDS: [&[u8]; 4] = [b"/", b"/5", b"/1/3", b"/4294967295/10"];

#[test]
fn reads_and_prints_identifiers(rt: HostRuntime) -> Result<(), Fail> {
    for text in &IDS {
        reads(&rt, rt.alloc(), text)?;
    }
    reads(&rt, rt.alloc(), &b"/1".repeat(rt.alloc(), DEPTH)?)
}

/// Texts of no identifier, and where they go wrong.
const BAD_TEXTS: [(&[u8], usize); 12] = [
    (b"", 0),
    (b"x", 0),
    (b"1/3", 0),
    (b"//", 1),
    (b"/0", 1),
    (b"/-1", 1),
    (b"/1/", 3),
    (b"/1/03", 3),
    (b"/12x", 3),
    (b"/1/3 ", 4),
    (b"/4294967296", 10),
    (b"/42949672950", 11),
];

fn is_no_id(rt: &impl Abort, alloc: Global, text: &[u8], at: usize) {
    same(
        rt,
        FileId::parse(alloc, text).err(),
        Some(IdError::BadText { at }),
    );
}

#[test]
fn refuses_texts(rt: HostRuntime) -> Result<(), Fail> {
    for (text, at) in &BAD_TEXTS {
        is_no_id(&rt, rt.alloc(), text, *at);
    }
    is_no_id(&rt, rt.alloc(), &b"/1".repeat(rt.alloc(), DEPTH + 1)?, 64);
    Ok(())
}

const NAMES: [&[u8]; 4] = [b"a", b"...", b" ", b"~!"];

/// A name of these bytes, and a copy.
fn takes(rt: &impl Abort, alloc: Global, bytes: &[u8]) -> Result<(), Fail> {
    let name = Name::new(alloc, bytes)?;
    same(rt, name.bytes(), bytes);
    same(rt, &name.copy(alloc)?, &name);
    Ok(())
}

#[test]
fn takes_names(rt: HostRuntime) -> Result<(), Fail> {
    for bytes in NAMES {
        takes(&rt, rt.alloc(), bytes)?;
    }
    takes(&rt, rt.alloc(), &b"a".repeat(rt.alloc(), 255)?)
}

/// Bytes of no name, and where they go wrong.
const BAD_NAMES: [(&[u8], usize); 7] = [
    (b"", 0),
    (b".", 0),
    (b"..", 0),
    (b"a:b", 1),
    (b"a\x7f", 1),
    (b"ab\x1f:", 2),
    (b"abc\xff", 3),
];

fn is_no_name(rt: &impl Abort, alloc: Global, bytes: &[u8], at: usize) {
    same(
        rt,
        Name::new(alloc, bytes).err(),
        Some(IdError::BadName { at }),
    );
}

#[test]
fn refuses_names(rt: HostRuntime) -> Result<(), Fail> {
    for (bytes, at) in &BAD_NAMES {
        is_no_name(&rt, rt.alloc(), bytes, *at);
    }
    for b in b"\\/:*?\"<>|\0\n" {
        is_no_name(&rt, rt.alloc(), &[b'a', b'b', *b], 2);
    }
    is_no_name(&rt, rt.alloc(), &b"a".repeat(rt.alloc(), 256)?, 255);
    Ok(())
}

/// A list of one item, with one before it and one behind it.
fn list_of_three(alloc: Global) -> Result<List<u32>, Fail> {
    let mut list = List::new(alloc);
    list.push(3)?;
    list.insert(0, 1)?;
    if list.offer(4).is_err() {
        return Err(Fail::from("memory"));
    }
    Ok(list)
}

/// The second item alone, with another value.
fn change(rt: &impl Abort, list: &mut List<u32>)
    requires { length list.old ≡ 3 }
{
    same(rt, list.replace(1, 2), 3);
    *list.at_mut(2) = 5;
    same(rt, list.items_mut().pop(), Some(5));
    same(rt, list.remove(0), 1);
    list.truncate(1);
}

#[test]
fn keeps_lists(rt: HostRuntime) -> Result<(), Fail> {
    let mut list = list_of_three(rt.alloc())?;
    same(&rt, list.as_slice(), &[1, 3, 4]);
    if list.len() != 3 {
        return Err(Fail::from("three items"));
    }
    change(&rt, &mut list);
    same(&rt, list.into_vec().as_slice(), &[2]);
    Ok(())
}

/// A copy is the value.
fn is_twin<T: Twin + PartialEq + Debug + Drop>(
    rt: &impl Abort,
    alloc: Global,
    x: T,
) -> Result<(), Fail> {
    same(rt, x.copy(alloc)?, x);
    Ok(())
}

#[test]
fn makes_twins_of_lists(rt: HostRuntime) -> Result<(), Fail> {
    let pairs = Vec::from_array(rt.alloc(), [(1u32, Some(true)), (2, None)])?;
    is_copied(&rt, rt.alloc(), &List::from_vec(pairs))
}

#[test]
fn makes_twins(rt: HostRuntime) -> Result<(), Fail> {
    let server = 1;
    let count = 2;
    is_twin(&rt, rt.alloc(), (Session(1), Peer::Server(0)))?;
    is_twin(&rt, rt.alloc(), (Some(Kind::Dir), 3u64))?;
    is_twin(
        &rt,
        rt.alloc(),
        (LeaseNo { server, count }, TxnNo { server, count }),
    )?;
    is_twin(&rt, rt.alloc(), (PathNo { server, count }, 4u8))
}

/// The text of an actor or of a number.
fn prints<T: Display>(rt: &impl Abort, alloc: Global, x: &T, wanted: &str) -> Result<(), Fail> {
    same(rt, x.to_string(alloc)?.as_str(), wanted);
    Ok(())
}

#[test]
fn prints_actors(rt: HostRuntime) -> Result<(), Fail> {
    let alloc = rt.alloc();
    prints(&rt, alloc, &Session(7), "c7")?;
    prints(&rt, alloc, &Peer::Server(0), "s0")?;
    prints(&rt, alloc, &Peer::Client(Session(1000)), "c1000")?;
    prints(&rt, alloc, &Memory, "memory is wanting")
}

#[test]
fn prints_numbers(rt: HostRuntime) -> Result<(), Fail> {
    let server = 4;
    let count = 19;
    prints(&rt, rt.alloc(), &LeaseNo { server, count }, "s4.19")?;
    prints(&rt, rt.alloc(), &TxnNo { server, count }, "s4#19")?;
    prints(&rt, rt.alloc(), &PathNo { server, count }, "s4@19")
}

/// A value that may not be dropped.
struct Token(u32);

impl Twin for Token {
    fn copy(&self, _: Global) -> Result<Token, Memory> {
        Ok(Token(self.0))
    }

    fn discard(self) {
        let Token(_) = self;
    }
}

/// The number of the token in a copy of a list with one token.
fn copied_number(alloc: Global, number: u32) -> Option<u32> {
    let mut tokens = List::new(alloc);
    if let Err(back) = tokens.offer(Token(number)) {
        back.discard();
    }
    let copied = match tokens.copy(alloc) {
        Ok(twin) => {
            let first = twin.as_slice().first().map(|token| token.0);
            twin.discard();
            first
        }
        Err(Memory) => None,
    };
    tokens.discard();
    copied
}

#[test]
fn copies_what_may_not_be_dropped(rt: HostRuntime) {
    same(&rt, copied_number(rt.alloc(), 5), Some(5));
}

#[test]
fn reads_eight_bytes(rt: HostRuntime) {
    let bytes = [0, 0, 0, 0, 0, 0, 1, 2, 9];
    same(&rt, number_in_front(&bytes[..7]), None);
    same(&rt, number_in_front(&bytes[..8]), Some((258, &[])));
    same(&rt, number_in_front(&bytes), Some((258, &[9])));
}

#[test]
fn finds_a_name(rt: HostRuntime) -> Result<(), Fail> {
    let entries = [(Name::new(rt.alloc(), b"b")?, 1u8)];
    for (name, found) in [(b"a", Err(0)), (b"b", Ok(0)), (b"c", Err(1))] {
        same(
            &rt,
            search_by_name(&entries, &Name::new(rt.alloc(), name)?),
            found,
        );
    }
    Ok(())
}
