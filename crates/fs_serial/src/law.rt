//! Laws of the kinds of step: where all parts hold before it, all parts hold after it.
ghost use Rattle.std.specs.Prelude.{Option, length, ◌≡◌, ◌≢◌, ◌<◌, ◌≤◌, ◌+◌, ℕ, max, slice_get, Bool, true, false, List, [], ◌∷◌, ◌++◌, Some, None};
ghost use Rattle.std.specs.List.{list_all};
ghost use Rattle.fs_ident.specs.In.{In};
ghost use Rattle.fs_ident.specs.declared.actor.LeaseNo.{LeaseNo};
ghost use Rattle.fs_ident.specs.declared.actor.PathNo.{PathNo};
ghost use Rattle.fs_ident.specs.declared.actor.Session.{Session};
ghost use Rattle.fs_field.specs.Conflict.{NoConflict};
ghost use Rattle.fs_field.specs.declared.field.Field.TheVariants.{Other};
ghost use Rattle.fs_field.specs.declared.row.Row.{Row};
ghost use Rattle.fs_field.specs.declared.used.Use.{Use};
ghost use Rattle.fs_field.specs.declared.value.Value.TheVariants as value;
ghost use Rattle.fs_moderows.specs.Answer.{reap_blocker};
ghost use Rattle.fs_modes.specs.declared.modes.Mode.{Mode};
ghost use Rattle.fs_lease.specs.Lease.{Lease as Term};
ghost use Rattle.fs_view.specs.ViewLease.{lease_of};
ghost use Rattle.fs_view.specs.declared.view_lease.ViewLease.{ViewLease};
ghost use Rattle.fs_client.specs.Acts.{entry_of, replies};
ghost use Rattle.fs_client.specs.Client.{changed};
ghost use Rattle.fs_client.specs.declared.state.Client.{Client};
ghost use Rattle.fs_model.specs.declared.op.Op.{Op};
ghost use Rattle.fs_model.specs.declared.reply.Reply.{Reply};
ghost use Rattle.fs_msg.specs.declared.answer.Answer.{Answer};
ghost use Rattle.fs_msg.specs.declared.answer.Answer.TheVariants.{Granted, Led};
ghost use Rattle.fs_msg.specs.declared.answer.Grant.{Grant};
ghost use Rattle.fs_msg.specs.declared.client_msg.ClientMsg.TheVariants.{Ship};
ghost use Rattle.fs_msg.specs.declared.end.End.{End};
ghost use Rattle.fs_msg.specs.declared.entry.Entry.{Entry};
ghost use Rattle.fs_msg.specs.declared.item.Item.{Item};
ghost use Rattle.fs_record.specs.Effects.{tells_its_effects};
ghost use Rattle.fs_record.specs.Records.{nodes_of};
ghost use Rattle.fs_record.specs.ValueOf.{selves_in, value_of};
ghost use Rattle.fs_msg.specs.declared.peer_msg.PeerMsg.TheVariants.{Parcel as OfParcel};
ghost use Rattle.fs_parcel.specs.Parcel.{move_refusal};
ghost use Rattle.fs_record.specs.declared.led_end.LedEnd.TheVariants as led;
ghost use Rattle.fs_record.specs.declared.parcel.Parcel.{Parcel};
ghost use Rattle.fs_server.specs.Moves.{fits_here, hands_over, parcel_at};
ghost use Rattle.fs_server.specs.Reaps.{has_own, reap_item, with_reap};
ghost use Rattle.fs_server.specs.Ships.{first_gone, item_of, with_entry};
ghost use Rattle.fs_server.specs.Server.{begun, is_mine};
ghost use Rattle.fs_model.specs.Asking.{home_of};
ghost use Rattle.fs_msg.specs.declared.client_note.ClientNote.TheVariants as client;
ghost use Rattle.fs_msg.specs.declared.server_note.ServerNote.TheVariants as server;
ghost use Rattle.fs_client.specs.Answers.{answer_plan};
ghost use Rattle.fs_server.specs.Step.{step};
ghost use Rattle.fs_server.specs.declared.event.ServerEvent.{ServerEvent};
ghost use Rattle.fs_server.specs.declared.event.ServerEvent.TheVariants.{FromClient, FromPeer, Move};
ghost use Rattle.fs_server.specs.declared.state.Server.{Server};
ghost use Rattle.fs_serial.specs.Client.{ClientFits};
ghost use Rattle.fs_serial.specs.Cluster.{CanCome, ClientEvent, Cluster, IsThere, after_client, after_server, after_step, first_cluster};
ghost use Rattle.fs_serial.specs.Cluster.ClientEvent.{Hears};
ghost use Rattle.fs_serial.specs.EndedLeases.{EndsFair, IsFairAbort, WasEnded};
ghost use Rattle.fs_serial.specs.Laws.{GiftIsRelied, GiftIsTold, GiftKeepsParts, GiftReturnsNone};
ghost use Rattle.fs_serial.specs.Parts.{AllHold, ServersFit, ServersHold, SessionFits, with_client, with_replies};
ghost use Rattle.fs_serial.specs.Settled.{HasLeaseAs, Settled, acknowledged, settled, settled_now};
ghost use Rattle.fs_serial.specs.Places.{PlacesHold};
ghost use Rattle.fs_serial.specs.Runs.{CanRun, Dated, IsOneSerialRun, IsOrderly, IsRun, greatest_in, held_by, run};
ghost use Rattle.fs_serial.specs.Owed.{ends_in};
ghost use Rattle.fs_serial.specs.Seen.{ClusterHolds, with_all};
ghost use Rattle.fs_serial.specs.Sight.{Counts, Sight, sight_of};
ghost use Rattle.fs_serial.specs.Refusals.{IsFairStep, rows_in};
ghost use Rattle.fs_serial.specs.Steps.{AllStand, AreRepliesFrom, HadEnded, IsAdmitted, IsReplied};
ghost use Rattle.fs_serial.specs.Whole.{ClusterStands};
ghost use Rattle.fs_serial.specs.World.{settled_at};

/// A fresh identifier that a directory gives to a session, with an exclusive lease on the life of the file. Whoever relied
/// on what was before can go on, no lease that goes back is given, and the session is told just that lease.
pub fn a_gift_keeps_the_parts()
    ensures parts { GiftKeepsParts }
    ensures relied { GiftIsRelied }
    ensures returned { GiftReturnsNone }
    ensures told { GiftIsTold }
{}

/// An entry that is admitted: it stands first in the log of a session that is not over, and the server finds a row
/// for each lease that it used. Its effects join the records, it joins the journal, and its client will know so.
pub fn an_admitted_entry_keeps_the_parts()
    ensures { (o : Counts) (skew greatest : ℕ) (s : Server) (journal : List Item)
        (replied : Session → List Item) (clients : Session → Settled) (by : Session) (e : Entry) →
        AllHold skew greatest (sight_of o s journal) replied clients →
        IsAdmitted s by (clients by) e →
        AllHold skew greatest
        (sight_of o (with_entry by e s) (journal ++ item_of by e ∷ [])) replied
        (with_client by (acknowledged by (clients by).log (clients by)) clients) }
{}

/// A session that let go of the lease on its handles on a file, and that no row keeps from it, loses these handles. The reap
/// joins the journal with the server's next number.
pub fn a_reap_keeps_the_parts()
    ensures { (o : Counts) (skew greatest : ℕ) (s : Server) (journal : List Item)
        (replied : Session → List Item) (clients : Session → Settled) (file : List ℕ)
        (by : Session) → AllHold skew greatest (sight_of o s journal) replied clients →
        has_own s.rows file by ≡ false →
        reap_blocker (selves_in s.records file) s.rows by file ≡ None →
        AllHold skew greatest (sight_of o (with_reap file by s)
        (journal ++ reap_item s.me (s.reaps + 1) file by ∷ [])) replied clients }
{}

/// No two rows of the servers conflict, in any of the ways in which rows can.
pub fn rows_are_without_conflict()
    ensures { (s : Sight) → ServersHold s → ServersFit s → NoConflict (selves_in s.records) s.rows }
{}

/// What a session was told of the others' modes is what they have, as long as its row stands.
pub fn what_was_promised_is_so()
    ensures { (s : Sight) → ServersHold s → (r : Row) → In r s.rows → (f : List ℕ) (m : Mode)
        (promise : Bool) → r.field ≡ Other f m → r.promise ≡ Some promise →
        value_of s.records r.session r.field ≡ value.Other promise }
{}

/// A client for which nothing is led, and that knows the reply to a plain operation, answers it, and the entry joins its
/// log, whatever is on its way to the client. All parts hold then, and what holds inside the client does.
pub fn a_reply_keeps_the_parts()
    ensures parts { (skew greatest : ℕ) (s : Sight) (replied : Session → List Item)
        (clients : Session → Settled) (by : Session) (c : Client) (down : List Answer) (o : Op)
        (r : Reply) → AllHold skew greatest s replied clients → ClientFits by c →
        clients by ≡ settled by down (settled_now c) → IsReplied c down o r →
        AllHold skew greatest s
        (with_replies by (replied by ++ item_of by (entry_of o r c) ∷ []) replied)
        (with_client by (settled by down (settled_now (changed (replies o r c).ready.change c)))
        clients) }
    ensures client { (by : Session) (c : Client) (down : List Answer) (o : Op) (r : Reply) →
        IsReplied c down o r → ClientFits by c →
        ClientFits by (changed (replies o r c).ready.change c) }
{}

/// A server that hands over what it has below a prefix leaves all rows and all records that there are as they were, and
/// everything at its place, whatever paths go over it.
pub fn a_move_leaves_all_as_it_was()
    ensures same { (k : ℕ) (c : Cluster) (s : Server) (prefix : List ℕ) (to : ℕ) →
        slice_get c.servers k ≡ Some s → PlacesHold c →
        (rows_in (after_step k (Move prefix to) (hands_over prefix to s) c) ≡ rows_in c) ×
        (held_by (after_step k (Move prefix to) (hands_over prefix to s) c) ≡ held_by c) }
    ensures places { (k : ℕ) (c : Cluster) (s : Server) (prefix : List ℕ) (to : ℕ) →
        slice_get c.servers k ≡ Some s → PlacesHold c → (o : Counts) →
        ServersFit (sight_of o (with_all s c) c.journal) → to < length c.servers →
        (through : Option PathNo) →
        move_refusal s.records s.rows s.map s.me prefix to through ≡ None →
        PlacesHold (after_step k (Move prefix to) (hands_over prefix to s) c) }
{}

/// So does a server that takes a parcel which comes; and every parcel on its way fits where it comes.
pub fn a_parcel_that_comes_leaves_all_as_it_was()
    ensures fits { (k from : ℕ) (c : Cluster) (s : Server) (p : Parcel) →
        slice_get c.servers k ≡ Some s → PlacesHold c →
        IsThere k (FromPeer from (OfParcel p)) c → (o : Counts) →
        ServersHold (sight_of o (with_all s c) c.journal) →
        ServersFit (sight_of o (with_all s c) c.journal) → fits_here p s ≡ true }
    ensures same { (k from : ℕ) (c : Cluster) (s : Server) (p : Parcel) →
        slice_get c.servers k ≡ Some s → PlacesHold c →
        IsThere k (FromPeer from (OfParcel p)) c →
        (rows_in (after_step k (FromPeer from (OfParcel p)) (parcel_at true p s) c) ≡ rows_in c) ×
        (held_by (after_step k (FromPeer from (OfParcel p)) (parcel_at true p s) c) ≡ held_by c) }
    ensures places { (k from : ℕ) (c : Cluster) (s : Server) (p : Parcel) →
        slice_get c.servers k ≡ Some s → PlacesHold c →
        IsThere k (FromPeer from (OfParcel p)) c →
        PlacesHold (after_step k (FromPeer from (OfParcel p)) (parcel_at true p s) c) }
{}

/// Every event of every server, a question of a session or a parcel of another server that is on its way among them, keeps
/// all that holds of the servers and of all sessions, as long as no reading was greater than the greatest; and that may rise.
pub fn the_servers_events_keep_all_parts()
    ensures event { (skew greatest now k : ℕ) (e : ServerEvent) (s : Server) (c : Cluster) →
        slice_get c.servers k ≡ Some s → max s.last now ≤ greatest → IsThere k e c →
        ClusterStands skew greatest c → ClusterStands skew greatest (after_server now k e c) }
    ensures rises { (skew greatest later : ℕ) (c : Cluster) → greatest ≤ later →
        ClusterStands skew greatest c → ClusterStands skew later c }
{}

/// Every event of a client keeps all that holds: an operation that its caller asks for, a turn, and an answer that comes. The
/// clock of a client that answers at once is behind the greatest reading by no more than the skew.
pub fn the_clients_events_keep_all_parts()
    ensures { (skew greatest now : ℕ) (c : Cluster) (by : Session) → ClusterStands skew greatest c →
        (e : ClientEvent) → CanCome by e c → greatest ≤ now + skew →
        ClusterStands skew greatest (after_client by now e c) }
{}

/// Nothing that comes is strange: no answer to a client, and no question, parcel or message of path leases to a server.
pub fn nothing_that_comes_is_strange()
    ensures server { (skew greatest now k : ℕ) (e : ServerEvent) (s : Server) (c : Cluster) →
        slice_get c.servers k ≡ Some s → max s.last now ≤ greatest → IsThere k e c →
        ClusterStands skew greatest c → (step s now e).out.note ≢ server.Strange }
    ensures client { (skew greatest now from : ℕ) (a : Answer) (by : Session) (c : Cluster) →
        CanCome by (Hears from a) c → ClusterHolds skew greatest c →
        (answer_plan (c.lines by).client now from a).out.note ≢ client.Strange }
{}

/// At the start, with new servers, no session that has a lease and nothing on its way, all parts hold.
pub fn the_first_cluster_has_all_parts()
    ensures { (servers skew term greatest : ℕ) → 1 ≤ servers →
        ClusterStands skew greatest (first_cluster servers skew term) }
{}

/// An entry is refused only where a lease that it used has no row, and that lease had ended at the server's reading, as
/// long as no clock was ahead of the server's by more than the skew.
pub fn a_refused_entry_had_ended()
    ensures { (skew greatest now : ℕ) (s : Sight) (by : Session) (d : Settled) (e : Entry)
        (u : Use) → SessionFits skew greatest s by d → In e d.log →
        first_gone s.rows by e.uses ≡ Some u → greatest ≤ now + skew →
        HadEnded s.rows now e u }
{}

/// A server refuses an entry of a log that is handed in only where a lease that the entry used has no row with any server, and
/// had ended at the reading of that very event. It says so of this entry and of the first such lease; and it holds back
/// exactly the entries behind it, and none where it refuses none.
pub fn refusals_are_fair()
    ensures { (skew greatest now k : ℕ) (by : Session) (entries : List Entry) (s : Server)
        (c : Cluster) → slice_get c.servers k ≡ Some s → greatest ≤ now + skew →
        IsThere k (FromClient by (Ship entries)) c → ClusterHolds skew greatest c →
        IsFairStep now k by entries s c }
{}

/// Where it is told that an operation which was to be led is refused since a lease had ended, its session waits for just that operation,
/// which used that lease; no server has its row, nor will; and it had ended at the reading that is told. So it is of each vote that is
/// counted or comes, of each end that is kept or comes to its session, of what a server notes, and of what a client hears, as long as
/// no clock is ahead of a server's by more than the skew. The session of a note is that of the transaction: the one that the leader's
/// table has for it, or, where it begins in that event, the one that asks.
pub fn what_is_led_ends_fairly()
    ensures server { (skew greatest now k : ℕ) (e : ServerEvent) (s : Server) (c : Cluster) →
        slice_get c.servers k ≡ Some s → max s.last now ≤ greatest →
        greatest ≤ max s.last now + skew → IsThere k e c → ClusterHolds skew greatest c →
        EndsFair c → EndsFair (after_server now k e c) }
    ensures client { (skew greatest now : ℕ) (c : Cluster) (by : Session) →
        ClusterHolds skew greatest c → EndsFair c → (e : ClientEvent) → CanCome by e c →
        EndsFair (after_client by now e c) }
    ensures first { (servers skew term : ℕ) → EndsFair (first_cluster servers skew term) }
    ensures run { (skew greatest : ℕ) (events : List Dated) (c : Cluster) →
        ClusterStands skew greatest c → EndsFair c → IsRun skew greatest events c →
        EndsFair (run events c) }
    ensures always { (servers skew term : ℕ) (events : List Dated) → 1 ≤ servers →
        IsRun skew 0 events (first_cluster servers skew term) →
        EndsFair (run events (first_cluster servers skew term)) }
    ensures noted { (skew greatest now k : ℕ) (e : ServerEvent) (s : Server) (c : Cluster) →
        slice_get c.servers k ≡ Some s → max s.last now ≤ greatest →
        greatest ≤ max s.last now + skew → IsThere k e c → ClusterHolds skew greatest c →
        EndsFair c → IsFairAbort c e (after_server now k e c) (step s now e).out.note }
    ensures heard { (c : Cluster) (by : Session) (from : ℕ) (number : LeaseNo) (end now : ℕ) →
        CanCome by (Hears from (Led (led.Ended number end now))) c → EndsFair c →
        WasEnded c by number end now }
{}

/// Of a log that is handed in where its entries belong, an entry is admitted in that very event where the rows of the leases that it
/// used stand, and those of each entry before it; whatever stands behind it, as long as all are plain, which they always are.
pub fn a_standing_entry_is_admitted()
    ensures plain { (s : Server) (now : ℕ) (by : Session) (front rest : List Entry) (e : Entry) →
        list_all (λ (x : Entry). tells_its_effects x.op) (front ++ e ∷ rest) ≡ true →
        list_all (λ (x : Entry). is_mine s (home_of x.op)) (front ++ e ∷ []) ≡ true →
        AllStand (begun now s).rows by (front ++ e ∷ []) →
        In (item_of by e) (step s now (FromClient by (Ship (front ++ e ∷ rest)))).out.admitted }
    ensures always { (skew greatest now k : ℕ) (s : Server) (c : Cluster) (by : Session)
        (front rest : List Entry) (e : Entry) → slice_get c.servers k ≡ Some s →
        IsThere k (FromClient by (Ship (front ++ e ∷ rest))) c → ClusterHolds skew greatest c →
        list_all (λ (x : Entry). is_mine s (home_of x.op)) (front ++ e ∷ []) ≡ true →
        AllStand (begun now s).rows by (front ++ e ∷ []) →
        In (item_of by e) (step s now (FromClient by (Ship (front ++ e ∷ rest)))).out.admitted }
{}

/// Whatever happens, in whatever order: every event of a run keeps all that holds. So each identifier has one place, and each row
/// and record is with the server that manages its file, or in the parcel that gives it.
pub fn every_run_keeps_all_parts()
    ensures { (skew greatest : ℕ) (events : List Dated) (c : Cluster) →
        ClusterStands skew greatest c → IsRun skew greatest events c →
        ClusterStands skew (greatest_in greatest events) (run events c) }
{}

/// Whatever the clocks show, and whatever happens in whatever order: after every event each identifier has one place, each row and
/// record is at its place, no number is given twice, no two rows conflict, and what the servers hold together is sound.
pub fn every_run_is_orderly()
    ensures { (servers skew term : ℕ) (events : List Dated) → 1 ≤ servers →
        CanRun events (first_cluster servers skew term) →
        IsOrderly (run events (first_cluster servers skew term)) }
{}

/// The journal of every run is one serial run of the namespace, in the order of each session, to the space that the servers
/// hold together, which is sound; and what each session was told is what the journal has, as far as the journal goes.
pub fn every_run_is_one_serial_run()
    ensures { (servers skew term : ℕ) (events : List Dated) → 1 ≤ servers →
        IsRun skew 0 events (first_cluster servers skew term) →
        IsOneSerialRun (run events (first_cluster servers skew term)) }
{}

/// What a session has pending is one serial run on from the namespace that the servers hold together: as far as the rows of the
/// leases that they used stand, each entry's reply is the namespace's, behind the session's entries before it.
pub fn pending_replies_are_the_namespaces()
    ensures one { (o : Counts) (skew greatest : ℕ) (replied : Session → List Item) (by : Session)
        (rest front : List Entry) (s : Server) (journal : List Item)
        (clients : Session → Settled) →
        AllHold skew greatest (sight_of o s journal) replied clients →
        (clients by).log ≡ front ++ rest → (clients by).over ≡ None →
        AllStand s.rows by front → AreRepliesFrom (nodes_of s.records) by front }
    ensures together { (skew greatest : ℕ) (c : Cluster) (by : Session) (front rest : List Entry)
        (s : Server) → ClusterHolds skew greatest c → In s c.servers →
        (settled_at by (ends_in c by)).log ≡ front ++ rest →
        (settled_at by (ends_in c by)).over ≡ None →
        AllStand (rows_in c) by front → AreRepliesFrom (nodes_of (held_by c)) by front }
{}

/// No lease is passed over: each that a client has and that does not go back is one of the client as it will be, and so is each that
/// is granted to it on the way, with its number, field, kind and end.
pub fn no_lease_is_passed_over()
    ensures held { (by : Session) (c : Client) (down : List Answer) (k : ViewLease) (l : Term) →
        In k c.view.leases → lease_of k.standing ≡ Some l →
        HasLeaseAs (settled by down (settled_now c)).leases l.no l.field l.kind l.until }
    ensures granted { (by : Session) (down : List Answer) (d : Settled) (grants : List Grant)
        (fresh : Option (List ℕ)) (end : End) (g : Grant) → In (Granted grants fresh end) down →
        In g grants → HasLeaseAs (settled by down d).leases g.no g.field g.kind g.until }
{}
