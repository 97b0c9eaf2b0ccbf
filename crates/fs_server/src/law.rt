//! Laws of a server's steps, over the definitions alone.
ghost use Rattle.std.specs.Prelude.{◌≡◌, ◌≤◌, ℕ, true, false, List, [], ◌∷◌, length, map, None, Some, is_some};
ghost use Rattle.fs_field.specs.Table.{is_lease, is_lock_of, same_txn};
ghost use Rattle.fs_field.specs.declared.field.Field.{Field};
ghost use Rattle.fs_field.specs.declared.lease_kind.LeaseKind.{LeaseKind};
ghost use Rattle.fs_field.specs.declared.path.PathAnswer.TheVariants as found;
ghost use Rattle.fs_field.specs.declared.row.Row.{Row};
ghost use Rattle.fs_field.specs.declared.used.Part.{Part};
ghost use Rattle.fs_field.specs.declared.used.Use.{Use};
ghost use Rattle.fs_field.specs.declared.vote.Vote.TheVariants.{PathsOut, Yes};
ghost use Rattle.fs_ident.specs.In.{In};
ghost use Rattle.fs_ident.specs.declared.actor.PathNo.{PathNo};
ghost use Rattle.fs_ident.specs.declared.actor.Peer.{Peer};
ghost use Rattle.fs_ident.specs.declared.actor.Peer.TheVariants as peer;
ghost use Rattle.fs_ident.specs.declared.actor.Session.{Session};
ghost use Rattle.fs_ident.specs.declared.actor.TxnNo.{TxnNo};
ghost use Rattle.fs_map.specs.Map.{longest};
ghost use Rattle.fs_model.specs.Asking.{home_of};
ghost use Rattle.fs_msg.specs.declared.decide.Decide.{Decide};
ghost use Rattle.fs_msg.specs.declared.end.End.TheVariants as end;
ghost use Rattle.fs_msg.specs.declared.lead.Lead.{Lead};
ghost use Rattle.fs_msg.specs.declared.msg.Msg.{Msg};
ghost use Rattle.fs_msg.specs.declared.msg.Msg.TheVariants as msg;
ghost use Rattle.fs_msg.specs.declared.peer_msg.PeerMsg.{PeerMsg};
ghost use Rattle.fs_msg.specs.declared.peer_msg.PeerMsg.TheVariants.{Parcel, PathAsk};
ghost use Rattle.fs_msg.specs.declared.prepare.Prepare.{Prepare};
ghost use Rattle.fs_msg.specs.declared.refusal.Refusal.TheVariants as refusal;
ghost use Rattle.fs_msg.specs.declared.server_note.ServerNote.TheVariants as note;
ghost use Rattle.fs_msg.specs.declared.voted.Voted.{Voted};
ghost use Rattle.fs_parcel.specs.Parcel.{move_refusal, parcel_of};
ghost use Rattle.fs_path.specs.Leases.{PathLease, goes_into};
ghost use Rattle.fs_path.specs.Returns.{is_needed};
ghost use Rattle.fs_path.specs.declared.having.Having.{Having};
ghost use Rattle.fs_path.specs.Tables.{first_in, holds, lease_of, through};
ghost use Rattle.fs_record.specs.Applied.{records_after_all};
ghost use Rattle.fs_record.specs.Fresh.{is_directory};
ghost use Rattle.fs_record.specs.declared.led_end.Why.TheVariants as why;
ghost use Rattle.fs_record.specs.declared.led_end.Why.{Why};
ghost use Rattle.fs_server.specs.Asks.{ask_from, asked_in};
ghost use Rattle.fs_server.specs.Begins.{begins, leader_with, parts_in, txn_of};
ghost use Rattle.fs_server.specs.Concludes.{path_for};
ghost use Rattle.fs_server.specs.Counts.{vote_step};
ghost use Rattle.fs_server.specs.Follows.{decide_step, path_in_the_way, prepare_step, to_server, vote_here};
ghost use Rattle.fs_server.specs.Laws.{AreAskedBack, BeginsIn, CanBeGiven, FreshComes, IsAskedFirst, IsGivenOut, IsSentOn, StandsOver, concluded, free_items, has_all, item_in, items_end, votes_here};
ghost use Rattle.fs_server.specs.LeadingLaws.{HasNextTxn};
ghost use Rattle.fs_server.specs.Leads.{is_led, lead_step, mode_of, moved_why, refuses, takes_path, wants_path};
ghost use Rattle.fs_server.specs.Moves.{move_step, peer_step};
ghost use Rattle.fs_server.specs.ReturnLaws.{IsAskedBack, IsGivenBack, IsReturn, KeepsFiles, StaysForPaths, is_of_paths};
ghost use Rattle.fs_server.specs.PathSteps.{asks_up, is_asking, path_ask_step, path_grant_step, path_no_step};
ghost use Rattle.fs_server.specs.Rows.{rows_off_modes, rows_on_modes};
ghost use Rattle.fs_server.specs.Server.{begun, is_mine, strange};
ghost use Rattle.fs_server.specs.Ships.{first_gone};
ghost use Rattle.fs_server.specs.Step.{step};
ghost use Rattle.fs_server.specs.declared.event.ServerEvent.TheVariants.{Move};
ghost use Rattle.fs_server.specs.declared.state.Server.{Server};
ghost use Rattle.fs_txn.specs.Decided.{AreDecided};
ghost use Rattle.fs_txn.specs.Deciding.{decision, has_file};
ghost use Rattle.fs_txn.specs.Preparing.{vote_on};
ghost use Rattle.fs_txn.specs.Ready.{is_awaited, is_prepared};
ghost use Rattle.fs_txn.specs.Stages.{is_yes};
ghost use Rattle.fs_txn.specs.declared.mode.Mode2.{Mode2};
ghost use Rattle.fs_txn.specs.declared.mode.Mode2.TheVariants.{Check, Freeze};

/// The items of a question are given in order up to the first that the session could not have before it was given any: no
/// lease that it is given keeps the next one from it.
pub fn items_are_given_in_order()
    ensures given { (by : Session) (items : List (Field × LeaseKind)) (s : Server) →
        map item_in (ask_from by items s []).grants ≡ free_items by s items }
    ensures end { (by : Session) (items : List (Field × LeaseKind)) (s : Server) →
        (ask_from by items s []).end ≡ items_end by s items }
{}

/// Where it is given all, and asks for an identifier of a directory that is managed and lives here, that comes behind
/// them, unless the directory has no number left.
pub fn an_identifier_comes_behind_all_items()
    ensures { (by : Session) (items : List (Field × LeaseKind)) (dir : List ℕ) (s : Server) →
        items_end by s items ≡ end.All → is_mine s dir ≡ true →
        is_directory s.records dir ≡ true →
        FreshComes dir (free_items by s items) (asked_in by items (Some dir) s) }
{}

/// An operation whose home another server manages is not led: the session is told where it is said to be, whatever else is wanting. At
/// its home it is led, a delete of a directory too. One that brings a directory into another one, whose record is here, is led by the path
/// of that one: where the directory is on it, it begins so that the path is looked at again when all have voted (Check), and where it is
/// not, so that the directory is kept till then (Freeze). Where a path lease is wanted the session is told so, and it is asked for unless
/// it was; and where a transaction keeps a file on the path, the session is told that.
pub fn operations_are_led_at_home()
    ensures elsewhere { (by : Session) (m : Lead) (s : Server) → is_led m.op ≡ true →
        is_mine s (home_of m.op) ≡ false →
        lead_step by m s ≡ refuses by (moved_why (longest s.map (home_of m.op))) s }
    ensures begins { (by : Session) (m : Lead) (s : Server) → is_led m.op ≡ true →
        is_mine s (home_of m.op) ≡ true → takes_path s m.op m.kind ≡ false →
        lead_step by m s ≡ begins (mode_of m.op m.kind) by m s }
    ensures on { (by : Session) (m : Lead) (files : List (List ℕ)) (s : Server) →
        is_led m.op ≡ true → StandsOver (found.Path files) m s → has_file files m.file ≡ true →
        lead_step by m s ≡ begins Check by m s }
    ensures off { (by : Session) (m : Lead) (files : List (List ℕ)) (s : Server) →
        is_led m.op ≡ true → StandsOver (found.Path files) m s → has_file files m.file ≡ false →
        lead_step by m s ≡ begins Freeze by m s }
    ensures wanted { (by : Session) (m : Lead) (top dir : List ℕ) (s : Server) →
        is_led m.op ≡ true → StandsOver (found.Wanted top dir) m s →
        lead_step by m s ≡ wants_path by top dir s }
    ensures frozen { (by : Session) (m : Lead) (file : List ℕ) (txn : TxnNo) (s : Server) →
        is_led m.op ≡ true → StandsOver (found.Frozen file txn) m s →
        lead_step by m s ≡ refuses by (why.Frozen file txn) s }
{}

/// Where nothing is admitted no file changes: not when a session asks the server to lead, and not when a vote comes.
pub fn what_is_not_admitted_changes_no_file()
    ensures leads { (by : Session) (m : Lead) (s : Server) → (lead_step by m s).out.admitted ≡ [] →
        (lead_step by m s).server.records ≡ s.records }
    ensures votes { (m : Voted) (s : Server) → (vote_step m s).out.admitted ≡ [] →
        (vote_step m s).server.records ≡ s.records }
{}

/// Where all files of the operation are managed here, all its parts vote at once by the rows and the path leases that stand, and the leader
/// decides, by the path as it is then where it takes one; but for its effects and the number of the transaction, for which no file is kept
/// any more, the server is as it was. Path leases in the way of a part are asked back before the session is told how it ended.
pub fn parts_here_vote_at_once()
    ensures { (by : Session) (m : Lead) (mode : Mode2) (s : Server) → is_led m.op ≡ true →
        BeginsIn m s mode → has_all s (parts_in mode m) ≡ true → HasNextTxn s →
        lead_step by m s ≡
        concluded (decision (leader_with mode (txn_of s) by m (votes_here mode by m s))
        (path_for mode m.op s)) mode by m s }
{}

/// A move with none of the refusals is made in its own event, where no path goes over what is to go: a parcel with all that is below the
/// prefix goes out.
pub fn a_move_that_nothing_refuses_is_made()
    ensures { (s : Server) (now : ℕ) (prefix : List ℕ) (to : ℕ) →
        move_refusal (begun now s).records (begun now s).rows s.map s.me prefix to
        (first_in s.map s.me prefix s.paths) ≡ None →
        ((step s now (Move prefix to)).out.note ≡ note.Moves prefix to) ×
        ((step s now (Move prefix to)).out.send ≡ (
          peer.Server to,
          msg.Peer (Parcel
              (parcel_of (begun now s).records (begun now s).rows s.map s.me prefix)),
        ) ∷ []) }
{}

/// A move that is refused since the path of a lease goes over what is to go asks all such leases back: each that was given out, of the server
/// that has it, and with it those that rest on one from another server; each from another server goes back to it, unless one that was given out
/// rests on it. Nothing else is sent, and no record, no row and no server of a file changes.
pub fn a_move_that_paths_refuse_asks_them_back()
    ensures note { (prefix : List ℕ) (to : ℕ) (number : PathNo) (s : Server) →
        StaysForPaths prefix to number s →
        (move_step prefix to s).out.note ≡ note.Stays (refusal.Paths number) }
    ensures asked { (prefix : List ℕ) (to : ℕ) (number : PathNo) (s : Server) →
        StaysForPaths prefix to number s → (l : PathLease) → In l s.paths.issued →
        goes_into s.map s.me prefix l ≡ true →
        IsAskedBack l (move_step prefix to s).out.send }
    ensures back { (prefix : List ℕ) (to : ℕ) (number : PathNo) (s : Server) →
        StaysForPaths prefix to number s → (h : Having) → In h s.paths.held →
        goes_into s.map s.me prefix (lease_of h) ≡ true →
        is_needed s.paths.issued h ≡ false →
        IsGivenBack (lease_of h) (move_step prefix to s).out.send }
    ensures only { (prefix : List ℕ) (to : ℕ) (number : PathNo) (s : Server) →
        StaysForPaths prefix to number s → (m : Peer × Msg) →
        In m (move_step prefix to s).out.send → IsReturn prefix m s }
    ensures kept { (prefix : List ℕ) (to : ℕ) (number : PathNo) (s : Server) →
        StaysForPaths prefix to number s → KeepsFiles s (move_step prefix to s).server }
{}

/// What other servers say of path leases changes no record, no row and no server of a file.
pub fn paths_change_no_file()
    ensures { (from : ℕ) (m : PeerMsg) (s : Server) → is_of_paths m ≡ true →
        KeepsFiles s (peer_step from m s).server }
{}

/// The vote on a part that another server asks for is that of the rows of both tables, and of the least path lease given out here that goes
/// over the file which the part names.
pub fn parts_of_others_are_voted_on()
    ensures { (s : Server) (by : Session) (p : Part) →
        vote_here s by p ≡
        vote_on (rows_off_modes s.rows) (rows_on_modes s.rows) s.map s.me s.last by p
        (path_in_the_way s p.freeze) }
{}

/// A part for which the vote is Yes waits for its decision, and for each of its leases a row of the session is locked, which is over at
/// no later reading.
pub fn a_yes_has_its_rows_locked()
    ensures waits { (s : Server) (from : ℕ) (m : Prepare) →
        (prepare_step from m s).out.note ≡ note.Votes m.txn Yes →
        is_prepared m.txn m.number (prepare_step from m s).server.prepared ≡ true }
    ensures rows { (s : Server) (now from : ℕ) (m : Prepare) →
        (prepare_step from m s).out.note ≡ note.Votes m.txn Yes → (u : Use) → In u m.part.uses →
        (r : Row) × In r (begun now (prepare_step from m s).server).rows ×
        (is_lease u.no m.session u.field u.kind r ≡ true) × (is_some r.lock ≡ true) }
{}

/// A part for which the vote is Yes keeps the file that it names, beside those that are kept already. Where it names none, and where the
/// vote is not Yes, none is kept.
pub fn a_yes_keeps_its_file()
    ensures kept { (s : Server) (from : ℕ) (m : Prepare) (file : List ℕ) →
        (prepare_step from m s).out.note ≡ note.Votes m.txn Yes → m.part.freeze ≡ Some file →
        In (file, m.txn) (prepare_step from m s).server.paths.frozen }
    ensures stays { (s : Server) (from : ℕ) (m : Prepare) (x : List ℕ × TxnNo) →
        In x s.paths.frozen → In x (prepare_step from m s).server.paths.frozen }
    ensures unnamed { (s : Server) (from : ℕ) (m : Prepare) → m.part.freeze ≡ None →
        (prepare_step from m s).server.paths ≡ s.paths }
    ensures unsaid { (s : Server) (from : ℕ) (m : Prepare) →
        ((prepare_step from m s).out.note ≡ note.Votes m.txn Yes → ⊥) →
        (prepare_step from m s).server.paths ≡ s.paths }
{}

/// Where a part is here and its leases have their rows, and paths that were given out go over the file that it names, the vote is that the
/// least of their leases is out. Then all of them are asked back, in order, behind the vote, and nothing is kept.
pub fn paths_in_the_way_are_asked_back()
    ensures out { (s : Server) (by : Session) (p : Part) (file : List ℕ) (number : PathNo) →
        is_mine s p.file ≡ true → first_gone s.rows by p.uses ≡ None →
        p.freeze ≡ Some file → through file s.paths.issued ≡ Some number →
        vote_here s by p ≡ PathsOut number }
    ensures asked { (s : Server) (from : ℕ) (m : Prepare) (number : PathNo) →
        (prepare_step from m s).out.note ≡ note.Votes m.txn (PathsOut number) →
        AreAskedBack from m number s (prepare_step from m s) }
{}

/// A vote that is not Yes changes nothing but the reading.
pub fn what_is_not_yes_changes_nothing()
    ensures { (s : Server) (from : ℕ) (m : Prepare) →
        is_yes (vote_here s m.session m.part) ≡ false → (prepare_step from m s).server ≡ s }
{}

/// A part is decided once: it waits no more then, and one more decision of it is strange.
pub fn a_part_is_decided_once()
    ensures over { (s : Server) (from : ℕ) (m : Decide) →
        is_prepared m.txn m.number (decide_step from m s).server.prepared ≡ false }
    ensures again { (s : Server) (from later : ℕ) (m n : Decide) → n.txn ≡ m.txn →
        n.number ≡ m.number →
        decide_step later n (decide_step from m s).server ≡
        strange (decide_step from m s).server }
{}

/// What a leader tells a part that waits is applied, in its order; where it tells no effects no file changes.
pub fn decided_effects_are_applied()
    ensures applied { (s : Server) (from : ℕ) (m : Decide) →
        is_prepared m.txn m.number s.prepared ≡ true → AreDecided m.effects →
        (decide_step from m s).server.records ≡ records_after_all s.records m.effects }
    ensures none { (s : Server) (from : ℕ) (m : Decide) → m.effects ≡ [] →
        (decide_step from m s).server.records ≡ s.records }
{}

/// While another part of the transaction waits here all rows stay as they are; with its last one no row is locked for it any more.
pub fn the_last_part_unlocks_the_rows()
    ensures waits { (s : Server) (from : ℕ) (m : Decide) →
        is_awaited m.txn (decide_step from m s).server.prepared ≡ true →
        (decide_step from m s).server.rows ≡ s.rows }
    ensures last { (s : Server) (from : ℕ) (m : Decide) →
        is_prepared m.txn m.number s.prepared ≡ true →
        is_awaited m.txn (decide_step from m s).server.prepared ≡ false → (r : Row) →
        In r (decide_step from m s).server.rows → is_lock_of m.txn r.lock ≡ false }
{}

/// While another part of the transaction waits here all files that are kept stay so; with its last one none is kept for it any more.
/// Those of other transactions stay.
pub fn the_last_part_frees_the_files()
    ensures waits { (s : Server) (from : ℕ) (m : Decide) →
        is_awaited m.txn (decide_step from m s).server.prepared ≡ true →
        (decide_step from m s).server.paths ≡ s.paths }
    ensures last { (s : Server) (from : ℕ) (m : Decide) (x : List ℕ × TxnNo) →
        is_prepared m.txn m.number s.prepared ≡ true →
        is_awaited m.txn (decide_step from m s).server.prepared ≡ false →
        In x (decide_step from m s).server.paths.frozen → same_txn x.1 m.txn ≡ false }
    ensures others { (s : Server) (from : ℕ) (m : Decide) (x : List ℕ × TxnNo) →
        In x s.paths.frozen → same_txn x.1 m.txn ≡ false →
        In x (decide_step from m s).server.paths.frozen }
{}

/// A path that is given out to another server is that of the directory, as it is known here, with the file behind it. Its number is the
/// next one, the lease is among those given out, and nothing else changes. The directory is managed here and has the file as a child, and
/// no transaction keeps the file.
pub fn paths_are_given_as_they_are_known()
    ensures known { (s : Server) (from : ℕ) (file dir : List ℕ) (number : PathNo) →
        (path_ask_step from file dir s).out.note ≡ note.PathGrants number →
        IsGivenOut from file dir number s (path_ask_step from file dir s) }
    ensures child { (s : Server) (from : ℕ) (file dir : List ℕ) (number : PathNo) →
        (path_ask_step from file dir s).out.note ≡ note.PathGrants number →
        CanBeGiven file dir s }
{}

/// The path of a file is asked for once: a server that is asked for a path asks farther up for that of a file only where no such question
/// stands, then one does, and it is one alone; and so does one that is asked to lead an operation. A question that is sent on is the one that stands; a path that comes ends it, and so does a
/// denial after which none is sent on.
pub fn a_path_is_asked_for_once()
    ensures first { (s : Server) (from to : ℕ) (file dir top up : List ℕ) →
        In (to_server to (PathAsk top up)) (path_ask_step from file dir s).out.send →
        IsAskedFirst top s (path_ask_step from file dir s).server }
    ensures leads { (s : Server) (by : Session) (m : Lead) (to : ℕ) (top up : List ℕ) →
        In (to_server to (PathAsk top up)) (lead_step by m s).out.send →
        IsAskedFirst top s (lead_step by m s).server }
    ensures one { (s : Server) (file dir : List ℕ) → length (asks_up file dir s) ≤ 1 }
    ensures on { (s : Server) (to : ℕ) (file asked up : List ℕ) (w : Why) →
        In (to_server to (PathAsk asked up)) (path_no_step file w s).out.send →
        IsSentOn asked file s (path_no_step file w s).server }
    ensures comes { (s : Server) (from : ℕ) (number : PathNo) (file : List ℕ)
        (path : List (List ℕ)) → holds number s.paths.held ≡ false →
        is_asking file (path_grant_step from number file path s).server ≡ false }
    ensures ends { (s : Server) (file : List ℕ) (w : Why) →
        (path_no_step file w s).out.send ≡ [] →
        is_asking file (path_no_step file w s).server ≡ false }
{}
