//! What is decided goes past all that happens until it is applied.
ghost use Rattle.fs_serial.specs.Decided.{ClientGoesPast, CommitGoesPast, DecideKeepsAll, EventGoesPast};

/// Where decided effects are on their way to the servers of their files, all that holds of a world stays so: after each event of a
/// server, after a commit that applies some of its effects and sends the others, and after a part applied what was decided for it,
/// which changes nothing of what all servers hold together. A client's event leaves what is decided as it was.
pub fn what_is_decided_goes_past_all_events()
    ensures event { EventGoesPast }
    ensures client { ClientGoesPast }
    ensures commit { CommitGoesPast }
    ensures decide { DecideKeepsAll }
{}
