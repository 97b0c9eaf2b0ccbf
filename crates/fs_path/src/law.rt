//! Laws of one server's path leases.
ghost use Rattle.fs_path.specs.Laws.{FreezeFreezes, LeavingIsUsedForNothing, NextIsNew, NoneGoesInto, NoneGoesThrough, NumbersGoOn, ReturnsKeepNumbers, TakenPathsBegin, ThawTakesItsOwn, WhatGoesIsOnNoPath, WhatIsNeededStays};

/// A path that a server takes goes down by the parents of its records, over files that no transaction keeps, from a file without a
/// parent or from the end of the path of a lease for the topmost file that does not leave. So what is given out below it begins so,
/// and goes over no file here that is frozen then.
pub fn a_path_that_is_taken_begins_at_the_top()
    ensures { TakenPathsBegin }
{}

/// A lease that leaves is used for nothing: every path is what it is without it.
pub fn a_leaving_lease_is_used_for_nothing()
    ensures { LeavingIsUsedForNothing }
{}

/// A lease that goes back was asked back, and no path that was given out goes over its file; one that such a path goes over stays.
pub fn what_goes_back_is_on_no_path()
    ensures goes { WhatGoesIsOnNoPath }
    ensures stays { WhatIsNeededStays }
{}

/// Where no lease is told that stands in the way, none does: of a freeze, whatever path was given out; of a move, whatever is had
/// from others too.
pub fn what_stands_in_the_way_is_told()
    ensures freeze { NoneGoesThrough }
    ensures goes { NoneGoesInto }
{}

/// A file that a transaction keeps is frozen, until the transaction is over; those of others stay so.
pub fn a_file_is_frozen_until_all_are_over()
    ensures frozen { FreezeFreezes }
    ensures own { ThawTakesItsOwn }
{}

/// No two leases that a server gives out, one after another, have one number.
pub fn each_number_is_given_once()
    ensures new { NextIsNew }
    ensures kept { NumbersGoOn }
    ensures back { ReturnsKeepNumbers }
{}
