//! Laws of where the parts of transactions stand.
ghost use Rattle.fs_txn.specs.Telling.{AskKeeps, DecideFindsPart, DecideKeeps, DoneKeeps, DropKeeps, OwnKeeps, PrepareKeeps, SeekKeeps, TellKeeps, VotedKeeps};

/// Each word of a part that is sent or comes keeps where all parts stand: with the leader, at the server that was asked, and on
/// their way. Who was told a decision has the leader's part ready.
pub fn words_keep_stages()
    ensures ask { AskKeeps }
    ensures own { OwnKeeps }
    ensures prepare { PrepareKeeps }
    ensures voted { VotedKeeps }
    ensures seek { SeekKeeps }
    ensures tell { TellKeeps }
    ensures drop { DropKeeps }
    ensures decide { DecideKeeps }
    ensures done { DoneKeeps }
    ensures found { DecideFindsPart }
{}
