//! What is drawn for made schedules.
ghost use Rattle.std.specs.Prelude.{◌≡◌, ◌<◌, ◌≤◌};
ghost use Rattle.fs_schedule.specs.Made.{draws_from, drawn, stirred};

/// What is drawn for a block, and the state behind these draws: the number of a session, of a
/// directory, of a file in it, and the kind of an operation.
#[derive(Clone, Copy, Debug)]
pub(crate) struct Draws {
    pub(crate) session: u16,
    pub(crate) dir: u32,
    pub(crate) file: u32,
    pub(crate) kind: u64,
    pub(crate) state: u64,
}

/// The four draws of a block, one after another.
pub(crate) fn draws_from(state: u64) -> Draws
    ensures exact { result ≡ draws_from state }
    ensures dir { 1 ≤ result.dir }
    ensures file { 1 ≤ result.file }
    ensures few { result.file ≤ 5 }
{
    let a = stirred(state);
    let b = stirred(a);
    let c = stirred(b);
    let d = stirred(c);
    Draws {
        session: 1 + drawn(a, 6) as u16,
        dir: 1 + drawn(b, 8) as u32,
        file: 1 + drawn(c, 5) as u32,
        kind: drawn(d, 8),
        state: d,
    }
}

/// The state after a draw.
pub(crate) fn stirred(state: u64) -> u64
    ensures { result ≡ stirred state }
{
    state
        .wrapping_mul(6_364_136_223_846_793_005)
        .wrapping_add(1_442_695_040_888_963_407)
}

/// What was drawn of so many numbers from 0 on, where this is the state after it.
pub(crate) fn drawn(state: u64, many: u64) -> u64
    requires { 0 < many }
    ensures number { result ≡ drawn state many }
    ensures below { result < many }
{
    (state >> 33) % many
}
