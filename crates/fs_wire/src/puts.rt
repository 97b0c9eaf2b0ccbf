//! Writing a tag, and what stands behind it.
ghost use Rattle.std.specs.Prelude.{◌≡◌, ◌++◌, ◌∷◌, [], true, OnOk};

use crate::wire::Wire;
use std::alloc::AllocError;

/// Adds a tag that stands alone.
pub fn put_tag(tag: u8, out: &mut Vec<u8>) -> Result<(), AllocError>
    ensures { OnOk result (out.new.items ≡ out.old.items ++ tag ∷ []) }
{
    out.push(tag)?;
    Ok(())
}

/// Adds a tag and a value.
pub fn put_tag_1<A: Wire>(tag: u8, a: &A, out: &mut Vec<u8>) -> Result<(), AllocError>
    ensures text { OnOk result (out.new.items ≡ out.old.items ++ tag ∷ A.text a.now) }
    ensures fits { OnOk result (A.readable a.now ≡ true → A.fits a.now) }
{
    out.push(tag)?;
    a.put(out)
}

/// Adds a tag and two values.
pub fn put_tag_2<A: Wire, B: Wire>(
    tag: u8,
    a: &A,
    b: &B,
    out: &mut Vec<u8>,
) -> Result<(), AllocError>
    ensures text { OnOk result (out.new.items ≡
        out.old.items ++ (tag ∷ A.text a.now ++ B.text b.now)) }
    ensures fits { OnOk result (A.readable a.now ≡ true → B.readable b.now ≡ true →
        A.fits a.now × B.fits b.now) }
{
    out.push(tag)?;
    a.put(out)?;
    b.put(out)
}

/// Adds a tag and three values.
pub fn put_tag_3<A: Wire, B: Wire, C: Wire>(
    tag: u8,
    a: &A,
    b: &B,
    c: &C,
    out: &mut Vec<u8>,
) -> Result<(), AllocError>
    ensures text { OnOk result (out.new.items ≡
        out.old.items ++ (tag ∷ A.text a.now ++ (B.text b.now ++ C.text c.now))) }
    ensures fits { OnOk result (A.readable a.now ≡ true → B.readable b.now ≡ true →
        C.readable c.now ≡ true → A.fits a.now × B.fits b.now × C.fits c.now) }
{
    out.push(tag)?;
    a.put(out)?;
    b.put(out)?;
    c.put(out)
}

/// Adds a tag and four values.
pub fn put_tag_4<A: Wire, B: Wire, C: Wire, D: Wire>(
    tag: u8,
    a: &A,
    b: &B,
    c: &C,
    d: &D,
    out: &mut Vec<u8>,
) -> Result<(), AllocError>
    ensures text { OnOk result (out.new.items ≡
        out.old.items ++
        (tag ∷ A.text a.now ++ (B.text b.now ++ (C.text c.now ++ D.text d.now)))) }
    ensures fits { OnOk result (A.readable a.now ≡ true → B.readable b.now ≡ true →
        C.readable c.now ≡ true → D.readable d.now ≡ true →
        A.fits a.now × B.fits b.now × C.fits c.now × D.fits d.now) }
{
    out.push(tag)?;
    a.put(out)?;
    b.put(out)?;
    c.put(out)?;
    d.put(out)
}
