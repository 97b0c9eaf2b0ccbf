//! What a leader does whose parts may be at other servers, as laws.
ghost use Rattle.std.specs.Prelude.{◌≡◌, ◌≤◌, ◌++◌, ℕ, true, false, List, [], ◌∷◌, length, map, Option, Some, is_some, slice_get};
ghost use Rattle.std.specs.FinMap.{get};
ghost use Rattle.fs_ident.specs.In.{In};
ghost use Rattle.fs_ident.specs.declared.actor.Peer.{Peer};
ghost use Rattle.fs_ident.specs.declared.actor.Session.{Session};
ghost use Rattle.fs_ident.specs.declared.actor.TxnNo.{TxnNo};
ghost use Rattle.fs_field.specs.Table.{is_lock_of, same_txn};
ghost use Rattle.fs_field.specs.declared.effect.Effect.{Effect};
ghost use Rattle.fs_field.specs.declared.path.PathAnswer.{PathAnswer};
ghost use Rattle.fs_field.specs.declared.path.PathAnswer.TheVariants as found;
ghost use Rattle.fs_field.specs.declared.row.Row.{Row};
ghost use Rattle.fs_field.specs.declared.used.Part.{Part};
ghost use Rattle.fs_field.specs.declared.vote.Vote.TheVariants.{Yes};
ghost use Rattle.fs_model.specs.Asking.{home_of};
ghost use Rattle.fs_model.specs.declared.reply.Reply.TheVariants.{Cycle, Renamed};
ghost use Rattle.fs_msg.specs.declared.answer.Answer.TheVariants as answer;
ghost use Rattle.fs_msg.specs.declared.done.Done.{Done};
ghost use Rattle.fs_msg.specs.declared.item.Item.{Item};
ghost use Rattle.fs_msg.specs.declared.lead.Lead.{Lead};
ghost use Rattle.fs_msg.specs.declared.msg.Msg.{Msg};
ghost use Rattle.fs_msg.specs.declared.peer_msg.PeerMsg.TheVariants.{Decide};
ghost use Rattle.fs_msg.specs.declared.server_note.ServerNote.TheVariants as note;
ghost use Rattle.fs_msg.specs.declared.voted.Voted.{Voted};
ghost use Rattle.fs_record.specs.declared.led_end.LedEnd.{LedEnd};
ghost use Rattle.fs_record.specs.declared.led_end.Why.TheVariants as why;
ghost use Rattle.fs_server.specs.Begins.{begins, parts_in, round_of, txn_of};
ghost use Rattle.fs_server.specs.Concludes.{concludes, end_of_decision, path_for, tells};
ghost use Rattle.fs_server.specs.Counts.{counts_own, done_step, vote_step, with_vote};
ghost use Rattle.fs_server.specs.Follows.{to_server, vote_here};
ghost use Rattle.fs_server.specs.LeadingLaws.{CommitSplits, IsAdmittedBy, IsKnown, IsOnPath, StandsOnPath, awaits_this, awaits_vote, of_number};
ghost use Rattle.fs_server.specs.Server.{is_mine, strange, to_session};
ghost use Rattle.fs_server.specs.declared.state.Server.{Server};
ghost use Rattle.fs_txn.specs.Deciding.{decision, needs_path, told_effects};
ghost use Rattle.fs_txn.specs.Leading.{awaits_done, elsewhere, ending_of, leading_of, without_done};
ghost use Rattle.fs_txn.specs.Votes.{is_full};
ghost use Rattle.fs_txn.specs.declared.decision.Decision.TheVariants.{Commit, Abort};
ghost use Rattle.fs_txn.specs.declared.leader.Leader.{Leader};
ghost use Rattle.fs_txn.specs.declared.leading.Ending.{Ending};
ghost use Rattle.fs_txn.specs.declared.leading.Leading.{Leading};
ghost use Rattle.fs_txn.specs.declared.mode.Mode2.{Mode2};
ghost use Rattle.fs_txn.specs.declared.mode.Mode2.TheVariants.{Freeze, Check};

/// What a commit applies here, and what it tells other servers, are the effects of the operation: each at the server of its part, and in
/// their order.
pub fn a_commit_splits_by_servers()
    ensures { CommitSplits }
{}

/// A vote that nobody awaits is strange, and so is that a part is done which nobody awaits: nothing changes.
pub fn what_nobody_awaits_is_strange()
    ensures votes { (m : Voted) (s : Server) →
        awaits_vote m (leading_of m.txn s.leading) ≡ false → vote_step m s ≡ strange s }
    ensures dones { (m : Done) (s : Server) →
        awaits_this m (ending_of m.txn s.ending) ≡ false → done_step m s ≡ strange s }
{}

/// Where a rename commits and another server has a part, all rows stay as they are; they do so until the last part is done, and then no
/// row is locked for the transaction any more.
pub fn a_rename_keeps_its_rows()
    ensures commit { (l : Leading) (path : Option PathAnswer) (sent : List (Peer × Msg))
        (s : Server) (effects : List (List Effect)) →
        decision l.leader path ≡ Commit Renamed effects →
        is_some (slice_get (elsewhere s.me l) 0) ≡ true →
        (concludes l path sent s).server.rows ≡ s.rows }
    ensures waits { (m : Done) (s : Server) (x : Ending) (y : ℕ × ℕ) (ys : List (ℕ × ℕ)) →
        ending_of m.txn s.ending ≡ Some x → awaits_done m.number x.awaits ≡ true →
        (without_done m.number x).awaits ≡ y ∷ ys →
        ((done_step m s).server.rows ≡ s.rows) × ((done_step m s).out.send ≡ []) }
    ensures last { (m : Done) (s : Server) (x : Ending) → ending_of m.txn s.ending ≡ Some x →
        awaits_done m.number x.awaits ≡ true → (without_done m.number x).awaits ≡ [] →
        (r : Row) → In r (done_step m s).server.rows → is_lock_of m.txn r.lock ≡ false }
{}

/// While votes are awaited, the file that a part here names which says Yes is kept for the transaction: from the event on in which the
/// transaction begins, or in which the server finds that it has the part's file itself.
pub fn an_own_yes_keeps_its_file()
    ensures begins { (mode : Mode2) (by : Session) (m : Lead) (s : Server) (p : Part)
        (file : List ℕ) → In p (parts_in mode m) → is_mine s p.file ≡ true →
        vote_here s by p ≡ Yes → p.freeze ≡ Some file →
        is_full (round_of mode by m s).votes ≡ false →
        In (file, txn_of s) (begins mode by m s).server.paths.frozen }
    ensures counts { (number : ℕ) (p : Part) (file : List ℕ) (l : Leading) (s : Server) →
        p.freeze ≡ Some file → is_full (with_vote number Yes l).leader.votes ≡ false →
        In (file, l.leader.txn) (counts_own number p Yes l s).server.paths.frozen }
{}

/// What is decided of a directory that comes into another one stands on the path of that one as the event finds it that decides, whatever
/// it was when the transaction began. It is admitted as renamed only over a path without it, where it is kept till then (Freeze), and as a
/// cycle only over a path with it (Check). Where all parts said Yes and a path lease is wanted, or a transaction keeps a file on the path,
/// the session may ask again for that reason; and since something changed, where the record of the other directory is not here any more,
/// and where the directory came onto the path or left it.
pub fn the_path_is_taken_again()
    ensures begins { (mode : Mode2) (by : Session) (m : Lead) (s : Server) (x : Item) →
        needs_path mode m.op ≡ true → In x (begins mode by m s).out.admitted →
        IsAdmittedBy mode m.op m.file s x.reply }
    ensures votes { (m : Voted) (l : Leading) (s : Server) (x : Item) →
        leading_of m.txn s.leading ≡ Some l → needs_path l.leader.mode l.leader.op ≡ true →
        In x (vote_step m s).out.admitted →
        IsAdmittedBy l.leader.mode l.leader.op l.leader.file s x.reply }
    ensures wanted { (l : Leading) (sent : List (Peer × Msg)) (s t : Server) →
        StandsOnPath l.leader → (top dir : List ℕ) →
        IsKnown (found.Wanted top dir) l.leader.op s →
        (concludes l (path_for l.leader.mode l.leader.op s) sent t).out.note ≡
        note.Aborts l.leader.txn (why.Wanted top) }
    ensures frozen { (l : Leading) (sent : List (Peer × Msg)) (s t : Server) →
        StandsOnPath l.leader → (file : List ℕ) (txn : TxnNo) →
        IsKnown (found.Frozen file txn) l.leader.op s →
        (concludes l (path_for l.leader.mode l.leader.op s) sent t).out.note ≡
        note.Aborts l.leader.txn (why.Frozen file txn) }
    ensures gone { (l : Leading) (sent : List (Peer × Msg)) (s t : Server) →
        StandsOnPath l.leader → is_some (get s.records (home_of l.leader.op)) ≡ false →
        (concludes l (path_for l.leader.mode l.leader.op s) sent t).out.note ≡
        note.Aborts l.leader.txn why.Changed }
    ensures came { (l : Leading) (sent : List (Peer × Msg)) (s t : Server) →
        StandsOnPath l.leader → l.leader.mode ≡ Freeze →
        IsOnPath true l.leader.op l.leader.file s →
        (concludes l (path_for l.leader.mode l.leader.op s) sent t).out.note ≡
        note.Aborts l.leader.txn why.Changed }
    ensures left { (l : Leading) (sent : List (Peer × Msg)) (s t : Server) →
        StandsOnPath l.leader → l.leader.mode ≡ Check →
        IsOnPath false l.leader.op l.leader.file s →
        (concludes l (path_for l.leader.mode l.leader.op s) sent t).out.note ≡
        note.Aborts l.leader.txn why.Changed }
{}

/// From its decision on, whichever it is, the transaction keeps no file here where it is.
pub fn a_decision_frees_the_files()
    ensures { (l : Leading) (path : Option PathAnswer) (sent : List (Peer × Msg)) (s : Server)
        (x : List ℕ × TxnNo) → In x (concludes l path sent s).server.paths.frozen →
        same_txn x.1 l.leader.txn ≡ false }
{}

/// The session is told how its operation ended once nothing is awaited any more: where no other server has a part that said Yes, in the
/// event of the decision, and else when the last part is done.
pub fn a_session_is_told_when_all_is_done()
    ensures decided { (l : Leading) (path : Option PathAnswer) (sent : List (Peer × Msg))
        (s : Server) → elsewhere s.me l ≡ [] →
        (concludes l path sent s).out.send ≡ sent ++ to_session l.leader.session
        (answer.Led (end_of_decision (decision l.leader path))) ∷ [] }
    ensures awaited { (l : Leading) (path : Option PathAnswer) (sent : List (Peer × Msg))
        (s : Server) → is_some (slice_get (elsewhere s.me l) 0) ≡ true →
        (concludes l path sent s).out.send ≡
        sent ++ tells l.leader.txn (decision l.leader path) (elsewhere s.me l) }
    ensures done { (m : Done) (s : Server) (x : Ending) → ending_of m.txn s.ending ≡ Some x →
        awaits_done m.number x.awaits ≡ true → (without_done m.number x).awaits ≡ [] →
        (done_step m s).out.send ≡ to_session x.session (answer.Led x.end) ∷ [] }
{}

/// A part that said Yes at another server is told what was decided once, and not again.
pub fn each_part_is_told_once()
    ensures { (me : ℕ) (l : Leading) (number : ℕ) →
        length (of_number number (elsewhere me l)) ≤ 1 }
{}

/// Where it is decided that a directory would come below itself, no file changes here, and no part is told any effect.
pub fn a_cycle_changes_no_file()
    ensures here { (l : Leading) (path : Option PathAnswer) (sent : List (Peer × Msg))
        (s : Server) (effects : List (List Effect)) →
        decision l.leader path ≡ Commit Cycle effects →
        (concludes l path sent s).server.records ≡ s.records }
    ensures told { (l : Leader) (path : Option PathAnswer) (effects : List (List Effect))
        (number : ℕ) → decision l path ≡ Commit Cycle effects →
        told_effects (Commit Cycle effects) number ≡ [] }
{}

/// Where it is decided not to go on, no file changes here, nothing is admitted, and no part is told any effect.
pub fn an_abort_does_nothing()
    ensures here { (l : Leading) (path : Option PathAnswer) (sent : List (Peer × Msg))
        (s : Server) (e : LedEnd) → decision l.leader path ≡ Abort e →
        ((concludes l path sent s).server.records ≡ s.records) ×
        ((concludes l path sent s).out.admitted ≡ []) }
    ensures told { (txn : TxnNo) (e : LedEnd) (out : List (ℕ × ℕ)) →
        tells txn (Abort e) out ≡ map (λ (x : ℕ × ℕ). to_server x.1
        (Decide (record { txn = txn; number = x.0; effects = [] }))) out }
{}
