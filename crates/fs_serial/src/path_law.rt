//! Paths of files that servers hand down to each other, over what all of them hold together.
ghost use Rattle.std.specs.Prelude.{◌≤◌, ℕ, List};
ghost use Rattle.fs_serial.specs.Cluster.{first_cluster};
ghost use Rattle.fs_serial.specs.KeptFiles.{FilesKept};
ghost use Rattle.fs_serial.specs.PathLaws.{AskingBackKeeps, InstallKeepsPaths, KeptIsOnNone, MoveKeepsPaths, NoPathIsStrange, OtherStepsKeep, PathMessageKeeps, TakenIsTrue, TakenTellsCycles, WhatPathsRestOn};
ghost use Rattle.fs_serial.specs.Paths.{PathsHold, PathsStand};
ghost use Rattle.fs_serial.specs.Runs.{Dated, IsRun, run};

/// Whatever happens, in whatever order: in every cluster that a run reaches all that is said of paths holds, and what they rest on. So each
/// path that a server takes is true. And servers keep the files that they have to keep: a part that said Yes keeps the file that it names;
/// what a part is told to do leaves each directory where it is, unless that part keeps it; and a delete of a directory that is led has
/// parts that keep it.
pub fn every_run_keeps_paths()
    ensures paths { (servers skew term : ℕ) (events : List Dated) → 1 ≤ servers →
        IsRun skew 0 events (first_cluster servers skew term) →
        PathsHold (run events (first_cluster servers skew term)) }
    ensures rests { (servers skew term : ℕ) (events : List Dated) → 1 ≤ servers →
        IsRun skew 0 events (first_cluster servers skew term) →
        PathsStand (run events (first_cluster servers skew term)) }
    ensures files { (servers skew term : ℕ) (events : List Dated) → 1 ≤ servers →
        IsRun skew 0 events (first_cluster servers skew term) →
        FilesKept (run events (first_cluster servers skew term)) }
{}

/// Where all parts hold, and each server keeps the files that transactions have it keep, what paths rest on holds: directories are in
/// directories, each record is in one place, and what a server has of a directory tells where it stands in what all hold together, unless
/// a transaction keeps it there.
pub fn paths_rest_on_what_servers_keep()
    ensures { WhatPathsRestOn }
{}

/// Where all that is said of paths holds, a path that a server takes of a directory that it has is the chain of that directory in what
/// all servers hold together. So it tells which renames into that directory would make a cycle: those of a file on it.
pub fn a_path_that_is_taken_is_true()
    ensures chain { TakenIsTrue }
    ensures cycles { TakenTellsCycles }
{}

/// Where the server of a file's directory keeps that file for a transaction, no path that any server gave out goes over it.
pub fn a_file_that_is_kept_is_on_no_path()
    ensures { KeptIsOnNone }
{}

/// All that is said of paths holds at the start, and behind each message of path leases that comes; behind a move that is refused because
/// of paths, which asks them back, and behind every other move, whether it is made or not; behind a parcel that comes; and behind every step
/// that leaves path leases alone, and the files on them in their places. No message of path leases that comes is strange.
pub fn path_leases_keep_paths()
    ensures first { (servers skew term : ℕ) → PathsHold (first_cluster servers skew term) }
    ensures messages { PathMessageKeeps }
    ensures back { AskingBackKeeps }
    ensures moves { MoveKeepsPaths }
    ensures install { InstallKeepsPaths }
    ensures others { OtherStepsKeep }
    ensures strange { NoPathIsStrange }
{}
