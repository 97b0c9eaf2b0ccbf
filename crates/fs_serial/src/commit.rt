//! A led operation that commits is one step of what servers hold together.
ghost use Rattle.fs_serial.specs.Commits.{CommitIsRelied, CommitKeepsParts};

/// A delete or a rename that gets its reply while the rows of all leases that it used stand: its effects are done and it joins
/// the journal, its session is told so, and all parts hold. All other sessions can go on.
pub fn a_commit_keeps_the_parts()
    ensures parts { CommitKeepsParts }
    ensures relied { CommitIsRelied }
{}
