//! A file that is gone: its size and stamp are of no matter any more.
ghost use Rattle.fs_view.specs.Gone.{AlikeButGone, GoneIsUnread, GoneStays};

/// No operation asks for size and stamp of a file that does not live and on which the session has no handle. Such a
/// file stays so, whoever gets the reply that the values give and does not make it. So values that differ in size and
/// stamp of such files alone give the same needs and the same reply.
pub fn what_is_gone_is_unread()
    ensures unread { GoneIsUnread }
    ensures stays { GoneStays }
    ensures alike { AlikeButGone }
{}
