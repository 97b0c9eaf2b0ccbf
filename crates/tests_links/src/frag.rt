use crate::{same, spend};
use fs_frag::{
    Back, FragError, Joined, Joiner, Segment, cut, joined_is_cut, segment_count, what_is_coming,
};
use fs_ident::{List, Twin};
use std::alloc::Global;
use std::process::Abort;
use std::test::Fail;

/// What comes of a copy of the segment.
fn add_copy(
    alloc: Global,
    joiner: &mut Joiner,
    segment: &Segment,
) -> Result<Option<Vec<u8>>, Fail> {
    let twin = segment.copy(alloc)?;
    Ok(joiner.add(alloc, &twin)?)
}

/// The message of the segments, each of which has 1024 bytes or so many.
fn whole(
    rt: &impl Abort,
    alloc: Global,
    segments: &[Segment],
    last: usize,
) -> Result<Vec<u8>, Fail> {
    let mut joiner = Joiner::new(alloc);
    let mut joined = None;
    for segment in segments {
        same(rt, joined.is_none(), true);
        let len = segment.bytes().len();
        same(rt, len == 1024 || len == last, true);
        joined = add_copy(alloc, &mut joiner, segment)?;
    }
    Ok(joined.ok_or("it is whole")?)
}

/// The message is cut into so many segments, and whole again behind the last.
fn is_cut(
    rt: &impl Abort,
    alloc: Global,
    message: &[u8],
    count: usize,
    last: usize,
) -> Result<(), Fail> {
    let segments = cut(alloc, message)?;
    same(rt, (message.len(), segments.len()), (message.len(), count));
    same(rt, segment_count(message), count as u64);
    let joined = whole(rt, alloc, segments.as_slice(), last)?;
    same(rt, joined.as_slice(), message);
    Ok(())
}

/// The lengths of messages, how many segments they are, and how many bytes the last has.
const LENGTHS: [(usize, usize, usize); 3] = [(0, 1, 8), (1016, 1, 1024), (1017, 2, 1)];

#[test]
fn full_segments_and_a_rest(rt: HostRuntime) -> Result<(), Fail> {
    for (len, count, last) in &LENGTHS {
        let message = vec![in rt.alloc(); 7u8; *len]?;
        is_cut(&rt, rt.alloc(), &message, *count, *last)?;
    }
    joined_is_cut();
    what_is_coming();
    Ok(())
}

/// How many messages the segments give, and how often there are too many bytes; and what undoes them.
fn taken(
    alloc: Global,
    joiner: &mut Joiner,
    segments: &[Segment],
) -> Result<((usize, usize), Back), Fail> {
    let (joined, back) = joiner.add_all(alloc, segments)?;
    Ok((counts(joined.as_slice()), back))
}

/// The segment has too many bytes, alone and among all.
fn is_over(
    rt: &impl Abort,
    alloc: Global,
    joiner: &mut Joiner,
    segments: &[Segment; 1],
) -> Result<(), Fail> {
    let error = joiner.add(alloc, &segments[0]).err();
    same(rt, error, Some(FragError::Over { have: 2, want: 1 }));
    let (found, back) = taken(alloc, joiner, segments)?;
    spend(back);
    same(rt, found, (0, 1));
    Ok(())
}

/// A segment of a message of one byte that has two.
fn over(alloc: Global) -> Result<[Segment; 1], Fail> {
    let bytes = [0, 0, 0, 0, 0, 0, 0, 1, 65, 66];
    Ok([Segment::new(alloc, &bytes)?.ok_or("it is one")?])
}

#[test]
fn too_many_bytes(rt: HostRuntime) -> Result<(), Fail> {
    same(&rt, Segment::new(rt.alloc(), &[])?.is_none(), true);
    let segments = over(rt.alloc())?;
    let mut joiner = Joiner::new(rt.alloc()).copy(rt.alloc())?;
    is_over(&rt, rt.alloc(), &mut joiner, &segments)?;
    is_over(&rt, rt.alloc(), &mut joiner, &segments)
}

/// How many messages are whole, and how often there were too many bytes.
fn counts(joined: &[Joined]) -> (usize, usize) {
    let whole = joined
        .iter()
        .filter(|one| matches!(one, Joined::Whole(_)))
        .count();
    (whole, joined.len() - whole)
}

/// The segments give so many messages, and again after they are undone.
fn are_taken_twice(
    rt: &impl Abort,
    alloc: Global,
    joiner: &mut Joiner,
    segments: &[Segment],
    told: (usize, usize),
) -> Result<(), Fail> {
    let (found, back) = taken(alloc, joiner, segments)?;
    same(rt, found, told);
    joiner.undo(back);
    let (found, back) = taken(alloc, joiner, segments)?;
    spend(back);
    same(rt, ("again", found), ("again", told));
    Ok(())
}

/// The first of two segments, the last, and both.
fn are_taken_in_turn(rt: &impl Abort, alloc: Global, segments: &[Segment]) -> Result<(), Fail> {
    if segments.len() != 2 {
        return Err(Fail::from("two segments"));
    }
    let (first, last) = segments.split_at(1);
    let mut joiner = Joiner::new(alloc);
    are_taken_twice(rt, alloc, &mut joiner, first, (0, 0))?;
    are_taken_twice(rt, alloc, &mut joiner, last, (1, 0))?;
    are_taken_twice(rt, alloc, &mut joiner, segments, (1, 0))?;
    joiner.undo(Back::Same);
    Ok(())
}

/// The segments of a message of so many bytes.
fn segments(alloc: Global, len: usize) -> Result<List<Segment>, Fail> {
    let message = vec![in alloc; 7u8; len]?;
    Ok(cut(alloc, &message)?)
}

#[test]
fn segments_taken_and_undone(rt: HostRuntime) -> Result<(), Fail> {
    let segments = segments(rt.alloc(), 2000)?;
    are_taken_in_turn(&rt, rt.alloc(), segments.as_slice())
}
