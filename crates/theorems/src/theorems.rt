//! The laws of the router, in terms of the protocol: `specs/Theorem.antt` states each in one line. The functions do
//! nothing: their contracts are the laws. Only `the_headline`, `a_stop_leaves_a_prefix` and `a_router_goes_on`, which speak
//! of files, make a call: `drive`, and `Core::open`, of which they are laws.
ghost use Rattle.theorems.specs.Stops.{stopping};
ghost use Rattle.theorems.specs.Locked.{kind};
ghost use Rattle.std.specs.Prelude.{IfOk};
ghost use Rattle.router_core.specs.Machine.{opening_of};
ghost use Rattle.core_runs.specs.Runs.{events_of};
ghost use Rattle.theorems.specs.Theorem.{TheHeadline, AStopLeavesAPrefix, ARouterGoesOn};
ghost use Rattle.theorems.specs.Theorem.{NoDeliveryStartsBeyondCredit};
ghost use Rattle.theorems.specs.Theorem.{ADeliveryHasOneConsumer, FramesCarryWhatWasBound, MessagesAreBoundOnce};
ghost use Rattle.theorems.specs.Theorem.{OutcomesAreAsGiven, OutcomesAreToldOnce, DurableOutcomesAreKeptFirst};
ghost use Rattle.theorems.specs.Theorem.{OutcomesAreKeptAsTold};
ghost use Rattle.theorems.specs.Theorem.{AcceptedIsToldTruly, ProducersAreToldRightly};
ghost use Rattle.theorems.specs.Theorem.{RowsStayWithConsumers, TheLockKeepsThem};
ghost use Rattle.theorems.specs.Theorem.{DurableLinksAreKeptFirst, DurableMessagesAreKeptFirst};
ghost use Rattle.theorems.specs.Theorem.{ConnectionsKeepOrder, WindowsAreKept};
ghost use Rattle.theorems.specs.Theorem.{ScriptsKeepOrder, ScriptsKeepWindowsAndCredit};
ghost use Rattle.theorems.specs.Theorem.{TakesMakeNoDifference, ConnectionsAreAnsweredAlone, PiecesMakeNoDifference};

use core_runs::{Driven, drive};
use disk_core::Twin;
use router_core::{Config, Core};
use router_trace::Event;
use std::alloc::Global;
use twin_journal::OpenFault;

/// Handles groups of events as `drive` does. Stopped before, within or after any call of its two files, the journal reopens
/// to the book of a prefix of the events handled that holds every event answered; and over every list of events,
/// disconnections, stops and resumptions each durable delivery is decided at most once, its sender is told accepted only
/// after its consumer accepted, and no link starts a delivery beyond its granted credit. What a stop leaves is the book of
/// such a list of runs, and a router that is opened on it goes on from them (`a_router_goes_on`).
pub fn the_headline<T: Twin>(alloc: Global, core: &mut Core<T>, groups: Vec<Vec<Event>>) -> Driven
    ensures { TheHeadline (stopping T.seen T.may_leave T.moment T.left_since) core.old (events_of groups.items) core.new result }
{
    a_stop_leaves_a_prefix(alloc, core, groups)
}

/// Handles groups of events as `drive` does. Stopped at any moment, before, within or after any call of its two files,
/// whatever the call answers, the journal opens to the book of durable links and messages after some first groups, and some
/// first events of the one that comes next. If no fault is answered it opens, at the end, to the book after all of them,
/// and the journal stands for the next call. If one is, it opens to the book after those that were handled, and some first
/// events of the one that met the fault; and surely after all of these if an item was taken after that group.
pub fn a_stop_leaves_a_prefix<T: Twin>(
    alloc: Global,
    core: &mut Core<T>,
    groups: Vec<Vec<Event>>,
) -> Driven
    ensures { AStopLeavesAPrefix (stopping T.seen T.may_leave T.moment T.left_since)
        core.old (events_of groups.items) core.new result }
{
    drive(alloc, core, groups)
}

/// Opens a router as `Core::open` does. If the two files read as files that open to the book of some runs, as what a stop leaves does, the
/// router goes on from these: its trace is theirs, and a new opening on top. So what holds over every list of runs holds of what it does
/// next, and of what the stop after it leaves (`a_stop_leaves_a_prefix`).
pub fn a_router_goes_on<T: Twin>(
    alloc: Global,
    twin: T,
    config: &Config,
) -> Result<Core<T>, OpenFault>
    ensures { IfOk result (λ core. ARouterGoesOn (stopping T.seen T.may_leave T.moment T.left_since)
        config.now.router_id (opening_of config.now core) (T.seen twin) core) }
{
    match Core::open(alloc, twin, config) {
        Ok(core) => Ok(core),
        Err(fault) => Err(fault),
    }
}

/// In every trace of the router each transfer is put out on an attached link, and before each that starts a delivery
/// the link's remaining credit is at least 1. Each flow of a link is put out on an attached one, and where the router
/// is the sender it has the link's delivery-count, or one ahead of it by at most the remaining credit (AMQP 1.0 part 2,
/// section 2.6.7). Groups of events have such traces.
pub fn no_delivery_starts_beyond_credit()
    ensures { NoDeliveryStartsBeyondCredit }
{}

/// A message goes to at most one consumer: once it is bound, its delivery is on that consumer's link and has the
/// payload received, as long as it exists, and it never comes back once it is over (AMQP 1.0 part 2, sections 2.6.12
/// and 2.7.5).
pub fn a_delivery_has_one_consumer()
    ensures { ADeliveryHasOneConsumer }
{}

/// In every trace of the router each transfer carries the next bytes of a message, on the link of the consumer that
/// it was bound to: the first has the delivery-tag, a later one none, and the last carries all remaining bytes. What
/// a consumer gets of a delivery is a beginning of the message, and after the last frame the whole message (AMQP 1.0
/// part 2, sections 2.6.14 and 2.7.5). Groups of events have such traces.
pub fn frames_carry_what_was_bound()
    ensures { FramesCarryWhatWasBound }
{}

/// In every trace of the router a message is bound when it is complete: the last frame of its delivery has just been
/// received. What is bound is what its frames carried, and it is bound once, with the row that the acts of that event
/// admit; on a durable link it has one, unless its producer has settled it. On a multicast address one that its producer
/// has settled is bound once for each consumer that has free credit then, all these copies one after another, and no
/// consumer gets two. A row that a consumer's durable link takes up again is bound once more, to that link: the attach found it in the book for that link, and it is bound as it stood
/// there, with its outcome if it is decided, or the one that the acts of the attach give it (where the router was opened
/// on a sound book, or after other runs). A row that the book has for a producer's durable link is joined to that link,
/// by a delivery that it resumes or without one, and nothing is sent for it. So each delivery is of such a message, or of
/// such a row (AMQP 1.0 part 2, sections 2.6.13, 2.6.14 and 2.7.5). Groups of events have such traces.
pub fn messages_are_bound_once()
    ensures { MessagesAreBoundOnce }
{}

/// Each outcome is as it was given: by a disposition of the delivery's consumer, by the acts of an attach, which decide
/// its row, by the end of its link (it is then modified, with delivery-failed), or, if the message was settled before,
/// by its last frame. The end of a durable
/// link decides a delivery with a row only if it is a detach that closes the link (AMQP 1.0 part 2, sections 2.6.12
/// and 2.7.6).
pub fn outcomes_are_as_given()
    ensures { OutcomesAreAsGiven }
{}

/// The producer of each delivery is sent its outcome at most once; another outcome with the same delivery-id belongs
/// to a message that was bound later. In every trace of the router each disposition as a receiver is for one
/// delivery: it reports the outcome that was given, for the first time, or releases a message that is just complete
/// and isn't bound: no consumer is chosen for it, or its link is durable and it got no row. On a multicast address it
/// rejects it instead, with amqp:not-implemented. It settles a delivery unless that is the producer's to do, on a durable
/// link (AMQP 1.0 part 2, sections 2.6.12 and 2.7.6). Lists of events have such traces.
pub fn outcomes_are_told_once()
    ensures { OutcomesAreToldOnce }
{}

/// In every trace of the router in which no event is declined (Start comes first, and once), opened on a sound book
/// (its numbers rise, no limit is passed, and the termini that rows keep stand): where a producer is told the outcome
/// of a delivery with a row, the book has that row, decided, with that outcome. `Core::handle` has the book on the
/// disk before it puts anything out, so no crash loses an outcome that was told. Each row is decided at most once,
/// whatever happens. Over every list of runs the row that is told is the producer's own: it came on the terminus of the
/// producer's link, with the tag of the delivery that the producer is told of (AMQP 1.0 part 2, section 2.6.12, and part
/// 3, section 3.4). Groups of events have such traces.
pub fn durable_outcomes_are_kept_first()
    ensures { DurableOutcomesAreKeptFirst }
{}

/// What the journal has of an outcome is the very state that its producer is told, for each outcome that a peer can
/// send: a terminal state that a disposition has, or an entry of an attach's unsettled map, where bytes encode that
/// frame's body. So over every list of runs in which each frame that came was encoded: where a producer is told the
/// outcome of a delivery with a row, the book has that row, with the very state that it is told. In every script of
/// bytes it is so, and over every list of runs of such scripts: what is read of bytes is encoded (AMQP 1.0 part 2,
/// sections 2.6.12, 2.7.3 and 2.7.6, and part 3, section 3.4).
pub fn outcomes_are_kept_as_told()
    ensures { OutcomesAreKeptAsTold }
{}

/// Over every list of runs, each ended by a stop anywhere: a row of the book that is decided as accepted was accepted by its consumer, with a
/// disposition, or with the map of the attach by which its link came back; and a producer is told accepted, of a delivery with a row, only after
/// that, by a disposition, or by the map of the router's attach when its own link comes back. Each entry of that map is of a row that the book has
/// from the link's terminus, unforgotten, with the row's tag and outcome; and each entry of a map for a consumer is of a row that waits for its
/// terminus, with the outcome that it has after the acts of the attach (where the router was opened on a sound book, or after other runs). It may
/// have been in an earlier run, whose end was lost to all but the book (AMQP 1.0 part 2, sections 2.6.12, 2.6.13 and 2.7.3).
pub fn accepted_is_told_truly()
    ensures { AcceptedIsToldTruly }
{}

/// Over every list of runs, each ended by a stop anywhere: what a producer is told under an id that its durable link
/// claims is true. If the link's terminus has an unforgotten row with the delivery's tag, it is the outcome with which
/// that row was decided, in this run or an earlier one; and accepted is told only of a row that its own consumer
/// accepted while it was undecided, by a disposition or by the map of an attach. Or the message just came, and is let
/// down: released, or rejected on a multicast address; no other outcome is told of a delivery without a row. So does
/// each entry of the map of the router's attach to a producer tell of the row of its tag, or is null if that was
/// undecided when the link came back (AMQP 1.0 part 2, sections 2.6.12, 2.6.13, 2.7.3 and 2.7.6).
pub fn producers_are_told_rightly()
    ensures { ProducersAreToldRightly }
{}

/// Over every list of runs, each ended by a stop anywhere: each transfer for a delivery with a row goes to the link of the row's own consumer. The
/// row was admitted, in this run or an earlier one, for a terminus that was made, and the link is durable and has that terminus' key; or for
/// none, in this run, and the link is the one to which its message was bound then. In all runs together at most one row is admitted under a number,
/// and at most one terminus made under one, so that a row has one consumer (AMQP 1.0 part 2, section 2.6.12, and part 3, sections 3.5.3 to 3.5.5).
pub fn rows_stay_with_consumers()
    ensures { RowsStayWithConsumers }
{}

/// A router under the lock, whatever its threads do, has a history since its very opening, which is a trace: on no link does it
/// start a delivery beyond the granted credit, the outcome of a delivery with a row stands in the book before it is told, and no row is
/// decided twice. The same holds over every list of runs before, if it was opened on the book that they left.
pub fn the_lock_keeps_them<T: Twin>()
    ensures { TheLockKeepsThem (kind T.seen T.may_leave T.failures) }
{}

/// In every trace of the router a durable link is taken only once the book has its terminus, with the link's key and
/// its address. `Core::handle` has the book on the disk before it puts anything out, so whoever is told that its link
/// is durable has a terminus there (AMQP 1.0 part 3, sections 3.5.3 to 3.5.5). Groups of events have such traces.
pub fn durable_links_are_kept_first()
    ensures { DurableLinksAreKeptFirst }
{}

/// In every trace of the router a message that has a row is bound once the book has admitted it: before the event
/// that completed it stands one act, the admission of that message under a new row, from the terminus of its
/// producer's durable link. `Core::handle` has the acts on the disk before it puts anything out, so no consumer gets
/// a durable message that a crash could lose. Each row is bound at most once, but for the times when its consumer's
/// link takes it up again, and each that the book gave since the router was opened is bound (AMQP 1.0 part 2, section
/// 2.6.12, and part 3, sections 3.5.3 to 3.5.5). Groups of events have such traces.
pub fn durable_messages_are_kept_first()
    ensures { DurableMessagesAreKeptFirst }
{}

/// In every trace of the router at most one header, one open and one close are written on each connection, a close
/// never without an open before it, and nothing after the close. Heartbeats and frames of sessions come between open
/// and close; on each channel begin and end take turns, and the other frames of a session come between them. If the
/// first item received is a header, the router's header is written first; if nothing is received, nothing is written
/// (AMQP 1.0 part 2, sections 2.2, 2.4 and 2.5). Groups of events have such traces.
pub fn connections_keep_order()
    ensures { ConnectionsKeepOrder }
{}

/// In every trace of the router, before each transfer put out, the session's remote-incoming-window is at least 1
/// (AMQP 1.0 part 2, section 2.5.6). Groups of events have such traces.
pub fn windows_are_kept()
    ensures { WindowsAreKept }
{}

/// In every script of bytes the router puts out for each connection at most one header, one open and one close, a
/// close never without an open before it, and nothing after the close; if the first item that it receives is a
/// header, its own header is put out first; if it receives nothing, nothing is put out (AMQP 1.0 part 2, sections 2.2
/// and 2.4). It puts out nothing before its header, whatever the peers send: the items of a login are sent by the
/// door.
pub fn scripts_keep_order()
    ensures { ScriptsKeepOrder }
{}

/// In every script of bytes, whatever the peers send, the session's remote-incoming-window is at least 1 before each
/// transfer that is put out; each is put out on an attached link, and before each that starts a delivery the link's
/// remaining credit is at least 1; and flows tell delivery-counts as in `no_delivery_starts_beyond_credit` (AMQP 1.0
/// part 2, sections 2.5.6 and 2.6.7).
pub fn scripts_keep_windows_and_credit()
    ensures { ScriptsKeepWindowsAndCredit }
{}

/// Takes make no difference: if the same events are handled in the same order, and no outbox of a live connection is
/// full when an event comes, the same items are put out in the same order, whenever items are taken and however many.
pub fn takes_make_no_difference()
    ensures { TakesMakeNoDifference }
{}

/// Each connection on which no attach is received is answered alone: if the same events are about it in the same
/// order (it comes up, an item of it is received, it is lost, a tick), the same items are put out for it in the same
/// order, each after the same of these events, whatever is received on other connections and whatever happens to
/// them. Its own outbox isn't full when an event comes, and it comes up live, with fewer than 64 others. (If a link
/// was attached, another connection can steal it.)
pub fn connections_are_answered_alone()
    ensures { ConnectionsAreAnsweredAlone }
{}

/// How the bytes of a connection are cut into pieces makes no difference, for any number of connections: two scripts
/// that differ only in that have the same effect if no outbox of a live connection is full when an event comes. The
/// router receives the same events in the same order and puts out the same items, and on each connection the same
/// bytes are sent.
pub fn pieces_make_no_difference()
    ensures { PiecesMakeNoDifference }
{}
