//! Which numbers the files of rows bear.
ghost use Rattle.fs_rows.specs.Bearing.{AreInOrderOnce};

/// Puts the numbers in order, each once.
pub fn put_in_order(numbers: &mut Vec<u32>)
    ensures { AreInOrderOnce numbers.old.items numbers.new.items }
{
    numbers.sort_unstable();
    numbers.dedup();
}
