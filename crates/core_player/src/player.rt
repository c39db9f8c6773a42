//! Plays the steps of a script.
ghost use Rattle.std.specs.Prelude.{◌≡◌, ◌==◌, ◌∷◌, ◌++◌, ℕ, List, [], length, None, Some, map, option_map, true, false, if◌then◌else◌, OnOk, IfOk};
ghost use Rattle.route_table.specs.Settings.{Settings};
ghost use Rattle.router_trace.specs.Trace.{Beginning};
ghost use Rattle.router_trace.specs.Connection.{conn as known, is_ready};
ghost use Rattle.router_trace.specs.declared.event.Event.TheVariants as event;
ghost use Rattle.core_machine.specs.Moves.{taking};
ghost use Rattle.core_machine.specs.Opened.{IsOpened};
ghost use Rattle.core_machine.specs.Turns.{is_start};
ghost use Rattle.core_player.specs.Script.{Scene, opening, refused, out_line, say_all, hand, enter, enter_all, BytesCome, make, lose, Takes, take_one, close_if, Flushes, Plays};
ghost use Rattle.core_player.specs.Asking.{follow};
ghost use Rattle.core_player.specs.Playing.{Agrees, Begun, Follows, Said, Tells, IsRead, Continues, part_by};
ghost use Rattle.core_player.specs.Recording.{Shown};
ghost use Rattle.core_player.specs.Telling.{TellsOf, fault_after};
ghost use Rattle.core_player.specs.declared.entry.Entry.{Entry as AnEntry};
ghost use Rattle.core_player.specs.declared.line.Line.TheVariants as line;
ghost use Rattle.core_player.specs.declared.line.Line.{Line as ALine};

use crate::entry::{Came, Entry, came_of};
use crate::line::Line;
use crate::listening::door_for;
use crate::recorder::{Cut, Recorder, acts_of};
use crate::script::Step;
use crate::socket::{Asked, Socket};
use crate::sockets::{Parted, add, ask_in, close, part_in, read_in};
use amqp_frames::write_item;
use amqp_model::{Binary, Item};
use core_machine::{Batch, CoreFault, Fused, Machine, take};
use route_table::Config;
use router_trace::{ConnectionId, Event, Peer, PeerRole};
use std::alloc::{AllocError, Global};
use std::collections::BTreeMap;

/// The number of items taken at a time.
const MOST: usize = 64;

/// The most bytes of a step that are cut at a time, in bytes: the items of one such piece are held at once.
const PIECE: usize = 65_536;

/// The state of a script that is being played.
#[derive(Drop)]
struct Player<'a, M: Machine> {
    alloc: Global,
    config: &'a Config,
    core: M,
    sockets: BTreeMap<u64, Socket>,
    newest: Option<u64>,
    lines: Vec<Line>,
    /// The fault with which the router failed.
    fault: Option<CoreFault>,
    recorder: Recorder,
}

/// The router after a play.
#[derive(Drop)]
pub struct Played<M: Machine> {
    /// The router.
    pub core: M,
    /// The fault with which it failed.
    pub fault: Option<CoreFault>,
    /// The event with which it failed, if it failed with one.
    pub cut: Option<Cut>,
}

/// Starts a router that was just opened with this configuration, plays steps against it, and appends their lines: after each step all outboxes are
/// emptied, by connection. If memory is refused to the play itself, the lines end there, and the router is dropped.
pub fn play<M: Fused>(
    alloc: Global,
    config: &Config,
    core: M,
    steps: &[Step],
    lines: &mut Vec<Line>,
    entries: &mut Vec<Entry>,
) -> Result<Played<M>, AllocError>
    requires works { M.meaning.is_failed core ≡ false }
    ensures plays { IfOk result (λ played. played.fault ≡ None → M.meaning.id core ≡ config.now.router_id → (g : Beginning) → IsOpened M.meaning g core
        → (u : Scene) × Plays M.meaning.next steps.now (opening M.meaning.next config.now g) u × (lines.new.items ≡ lines.old.items ++ u.lines) × Agrees M.meaning played.core u.trace) }

    // What it did, also where it failed; and where its journal stands by that.
    ensures shown { IfOk result (λ played. (mine : List AnEntry) × (entries.new.items ≡ entries.old.items ++ mine) × Shown M.meaning core played.core played.cut mine) }

    // Where the router failed, a line says so.
    ensures told { IfOk result (λ played. TellsOf played.fault lines.new.items) }
    ensures more { OnOk result ((more : List ALine) × (lines.new.items ≡ lines.old.items ++ more)) }
{
    let mut player = Player::new(alloc, config, core);
    let played = player.run(steps);
    let Player {
        core,
        lines: told,
        fault,
        recorder,
        ..
    } = player;
    append(lines, told)?;
    played?;
    let cut = recorder.give(entries)?;
    Ok(Played { core, fault, cut })
}

/// Appends lines.
fn append(lines: &mut Vec<Line>, told: Vec<Line>) -> Result<(), AllocError>
    ensures { OnOk result (lines.new.items ≡ lines.old.items ++ told.items) }
{
    for line in told {
        match lines.push(line) {
            Ok(()) => {}
            Err(_) => return Err(AllocError),
        }
    }
    Ok(())
}

impl<'a, M: Fused> Player<'a, M> {
    /// A player whose machine was just opened, and isn't started yet.
    fn new(alloc: Global, config: &'a Config, core: M) -> Player<'a, M>
        ensures begun { M.meaning.id core ≡ config.now.router_id → (g : Beginning) → IsOpened M.meaning g core → Begun M.meaning result config.now g }
        ensures tells { M.meaning.is_failed core ≡ false → Tells M.meaning core result }
        ensures core { result.core ≡ core }
    {
        Player {
            alloc,
            config,
            core,
            sockets: BTreeMap::new(alloc),
            newest: None,
            lines: Vec::new(alloc),
            fault: None,
            recorder: Recorder::new(alloc),
        }
    }

    /// Appends a line.
    fn say(&mut self, line: Line) -> Result<(), AllocError>
        ensures said { OnOk result (Said self.old self.new (line ∷ [])) }
        ensures core { self.new.core ≡ self.old.core }
        ensures recorder { self.new.recorder ≡ self.old.recorder }
        ensures fault { self.new.fault ≡ self.old.fault }
        ensures tells { OnOk result ((first : M) → Tells M.meaning first self.old → Tells M.meaning first self.new) }
    {
        match self.lines.push(line) {
            Ok(()) => Ok(()),
            Err(_) => Err(AllocError),
        }
    }

    /// Appends the line of the router's fault, and keeps a fault with which it failed.
    fn fail(&mut self, fault: CoreFault) -> Result<(), AllocError>
        ensures said { OnOk result (Said self.old self.new (line.Failed fault ∷ [])) }
        ensures core { self.new.core ≡ self.old.core }
        ensures recorder { self.new.recorder ≡ self.old.recorder }
        ensures kept { self.new.fault ≡ fault_after self.old.fault fault }
    {
        self.fault = match fault {
            CoreFault::Disk | CoreFault::Memory => Some(fault),
            CoreFault::Failed | CoreFault::NoConnection => self.fault,
        };
        self.say(Line::Failed(fault))
    }

    /// Appends the line of an outgoing item.
    fn say_out(&mut self, conn: ConnectionId, item: &Item) -> Result<(), AllocError>
        ensures said { OnOk result (Said self.old self.new (out_line conn item.now ∷ [])) }
        ensures core { self.new.core ≡ self.old.core }
        ensures recorder { self.new.recorder ≡ self.old.recorder }
        ensures tells { OnOk result ((first : M) → Tells M.meaning first self.old → Tells M.meaning first self.new) }
    {
        let mut bytes = Vec::new(self.alloc);
        write_item(self.alloc, item, &mut bytes)?;
        self.say(Line::Out {
            conn,
            bytes: Binary::new(bytes),
        })
    }

    /// Appends the lines of outgoing items.
    fn say_all(&mut self, conn: ConnectionId, items: &[Item]) -> Result<(), AllocError>
        ensures said { OnOk result (Said self.old self.new (map (out_line conn) items.now)) }
        ensures core { self.new.core ≡ self.old.core }
        ensures recorder { self.new.recorder ≡ self.old.recorder }
        ensures tells { OnOk result ((first : M) → Tells M.meaning first self.old → Tells M.meaning first self.new) }
    {
        for item in items {
            self.say_out(conn, item)?;
        }
        Ok(())
    }

    /// Starts the router.
    fn start(&mut self) -> Result<(), AllocError>
        ensures follows { OnOk result (M.meaning.is_failed self.new.core ≡ false → (config : Settings) (g : Beginning) → Begun M.meaning self.old config g → Follows M.meaning self.new (opening M.meaning.next config g)) }
        ensures tells { OnOk result ((first : M) → Tells M.meaning first self.old → Tells M.meaning first self.new) }
    {
        let batches = self.core.batch();
        match self.core.handle(Event::Start) {
            Ok(done) => self
                .recorder
                .handled(&self.core, Came::Start, acts_of(self.alloc, done)),
            Err(fault) => {
                self.recorder.failed(fault, Came::Start, batches);
                self.fail(fault)
            }
        }
    }

    /// Hands an event to the router, which is started.
    fn hand(&mut self, event: Event) -> Result<(), AllocError>
        requires not_start { is_start event ≡ false }
        ensures follows { OnOk result (M.meaning.is_failed self.new.core ≡ false → (s : Scene) → Follows M.meaning self.old s → Follows M.meaning self.new (hand M.meaning.next event s)) }
        ensures stays { M.meaning.is_failed self.old.core ≡ true → M.meaning.is_failed self.new.core ≡ true }
        ensures tells { OnOk result ((first : M) → Tells M.meaning first self.old → Tells M.meaning first self.new) }
    {
        let Ok(came) = came_of(self.alloc, &event) else {
            drop(event);
            return Err(AllocError);
        };
        let batches = self.core.batch();
        match self.core.handle(event) {
            Ok(done) => self
                .recorder
                .handled(&self.core, came, acts_of(self.alloc, done)),
            Err(fault) => {
                self.recorder.failed(fault, came, batches);
                self.fail(fault)
            }
        }
    }

    /// An item was received on a connection: it goes to the door, or to the router.
    fn enter(&mut self, conn: ConnectionId, item: Item) -> Result<(), AllocError>
        ensures follows { OnOk result (M.meaning.is_failed self.new.core ≡ false → (s : Scene) → Follows M.meaning self.old s → Follows M.meaning self.new (enter M.meaning.next conn item s)) }
        ensures stays { M.meaning.is_failed self.old.core ≡ true → M.meaning.is_failed self.new.core ≡ true }
        ensures tells { OnOk result ((first : M) → Tells M.meaning first self.old → Tells M.meaning first self.new) }
    {
        let asked = self.ask(conn, &item)?;
        self.follow(conn, item, asked)
    }

    /// Items were received on a connection; they are handled in order.
    fn enter_all(&mut self, conn: ConnectionId, items: Vec<Item>) -> Result<(), AllocError>
        ensures follows { OnOk result (M.meaning.is_failed self.new.core ≡ false → (s : Scene) → Follows M.meaning self.old s → Follows M.meaning self.new (enter_all M.meaning.next conn items.items s)) }
        ensures stays { M.meaning.is_failed self.old.core ≡ true → M.meaning.is_failed self.new.core ≡ true }
        ensures tells { OnOk result ((first : M) → Tells M.meaning first self.old → Tells M.meaning first self.new) }
    {
        for item in items {
            self.enter(conn, item)?;
        }
        Ok(())
    }

    /// Bytes were received on a connection. They are cut in pieces, and the items of one are handled before the next is cut.
    fn bytes(&mut self, conn: ConnectionId, bytes: &[u8]) -> Result<(), AllocError>
        ensures follows { OnOk result (M.meaning.is_failed self.new.core ≡ false → (s : Scene) → Follows M.meaning self.old s → (u : Scene) × BytesCome M.meaning.next conn bytes.now s (s.sockets conn.0) u × Follows M.meaning self.new u) }
        ensures stays { M.meaning.is_failed self.old.core ≡ true → M.meaning.is_failed self.new.core ≡ true }
        ensures tells { OnOk result ((first : M) → Tells M.meaning first self.old → Tells M.meaning first self.new) }
    {
        let (piece, others) = bytes.split_at(bytes.len().min(PIECE));
        match self.read(conn, piece)? {
            None => self.refuse(),
            Some(items) => {
                self.enter_all(conn, items)?;
                self.more_bytes(conn, others)
            }
        }
    }

    /// The further bytes of a step, cut in pieces. Where the connection was closed by what came before them, or its stream
    /// ended, they are dropped.
    fn more_bytes(&mut self, conn: ConnectionId, bytes: &[u8]) -> Result<(), AllocError>
        ensures continues { OnOk result (M.meaning.is_failed self.new.core ≡ false → Continues M.meaning conn bytes.now self.old self.new) }
        ensures stays { M.meaning.is_failed self.old.core ≡ true → M.meaning.is_failed self.new.core ≡ true }
        ensures tells { OnOk result ((first : M) → Tells M.meaning first self.old → Tells M.meaning first self.new) }
    {
        let mut behind = bytes;
        while !behind.is_empty() {
            let (piece, others) = behind.split_at(behind.len().min(PIECE));
            match self.read(conn, piece)? {
                None => return Ok(()),
                Some(items) => self.enter_all(conn, items)?,
            }
            behind = others;
        }
        Ok(())
    }

    /// Cuts bytes into items; none if the connection is closed or its stream ended.
    fn read(&mut self, conn: ConnectionId, bytes: &[u8]) -> Result<Option<Vec<Item>>, AllocError>
        ensures reads { IfOk result (λ read. (s : Scene) → Follows M.meaning self.old s → IsRead M.meaning conn bytes.now s (s.sockets conn.0) self.new (option_map (λ v. v.items) read)) }
        ensures core { self.new.core ≡ self.old.core }
        ensures recorder { self.new.recorder ≡ self.old.recorder }
        ensures tells { OnOk result ((first : M) → Tells M.meaning first self.old → Tells M.meaning first self.new) }
    {
        read_in(&mut self.sockets, conn.0, bytes)
    }

    /// Appends the line of a refusal.
    fn refuse(&mut self) -> Result<(), AllocError>
        ensures said { OnOk result (Said self.old self.new (refused ∷ [])) }
        ensures core { self.new.core ≡ self.old.core }
        ensures recorder { self.new.recorder ≡ self.old.recorder }
        ensures tells { OnOk result ((first : M) → Tells M.meaning first self.old → Tells M.meaning first self.new) }
    {
        self.say(Line::Failed(CoreFault::NoConnection))
    }

    /// A connection is made.
    fn up(&mut self, conn: ConnectionId, role: PeerRole) -> Result<(), AllocError>
        ensures follows { OnOk result ((s : Scene) → Follows M.meaning self.old s → Follows M.meaning self.new (make conn role s)) }
        ensures core { self.new.core ≡ self.old.core }
        ensures recorder { self.new.recorder ≡ self.old.recorder }
        ensures tells { OnOk result ((first : M) → Tells M.meaning first self.old → Tells M.meaning first self.new) }
    {
        let rises = match self.newest {
            None => true,
            Some(newest) => newest < conn.0,
        };
        if !rises {
            self.refuse()?;
            return Ok(());
        }
        let door = door_for(self.alloc, self.config, role)?;
        self.newest = Some(conn.0);
        add(&mut self.sockets, conn.0, Socket::new(self.alloc, door))?;
        Ok(())
    }

    /// A connection is lost.
    fn down(&mut self, conn: ConnectionId) -> Result<(), AllocError>
        ensures follows { OnOk result (M.meaning.is_failed self.new.core ≡ false → (s : Scene) → Follows M.meaning self.old s → Follows M.meaning self.new (lose M.meaning.next conn s)) }
        ensures stays { M.meaning.is_failed self.old.core ≡ true → M.meaning.is_failed self.new.core ≡ true }
        ensures tells { OnOk result ((first : M) → Tells M.meaning first self.old → Tells M.meaning first self.new) }
    {
        match self.part(conn) {
            Parted::Closed => self.refuse(),
            Parted::Passed => self.hand(Event::Down(conn)),
            Parted::AtDoor => Ok(()),
        }
    }

    /// Closes a connection, and returns where it was.
    fn part(&mut self, conn: ConnectionId) -> Parted
        ensures parted { (s : Scene) → Follows M.meaning self.old s → (after : Scene) × Follows M.meaning self.new after × (part_by M.meaning.next conn result after ≡ lose M.meaning.next conn s) }
        ensures core { self.new.core ≡ self.old.core }
        ensures recorder { self.new.recorder ≡ self.old.recorder }
        ensures tells { (first : M) → Tells M.meaning first self.old → Tells M.meaning first self.new }
    {
        part_in(&mut self.sockets, conn.0)
    }

    /// The router's disk gets a fuse, unless the router failed: then it makes no more calls.
    fn fuse(&mut self, calls: u64)
        ensures follows { (s : Scene) → Follows M.meaning self.old s → Follows M.meaning self.new s }
        ensures stays { M.meaning.is_failed self.old.core ≡ true → M.meaning.is_failed self.new.core ≡ true }
        ensures tells { (first : M) → Tells M.meaning first self.old → Tells M.meaning first self.new }
    {
        if self.core.is_failed() {
            return;
        }
        self.core.fuse(calls);
    }

    /// A step.
    fn step(&mut self, step: &Step) -> Result<(), AllocError>
        ensures follows { OnOk result (M.meaning.is_failed self.new.core ≡ false → (s : Scene) → Follows M.meaning self.old s → (u : Scene) × Takes M.meaning.next step.now s u × Follows M.meaning self.new u) }
        ensures stays { M.meaning.is_failed self.old.core ≡ true → M.meaning.is_failed self.new.core ≡ true }
        ensures tells { OnOk result ((first : M) → Tells M.meaning first self.old → Tells M.meaning first self.new) }
    {
        match step {
            Step::Up { conn, role } => self.up(*conn, *role)?,
            Step::In { conn, bytes } => self.bytes(*conn, bytes.as_slice())?,
            Step::Down { conn } => self.down(*conn)?,
            Step::Tick { ms } => self.hand(Event::Tick(*ms))?,
            Step::Fuse { calls } => self.fuse(*calls),
        }
        Ok(())
    }

    /// Empties all outboxes, by connection, unless the router failed.
    fn flush(&mut self) -> Result<(), AllocError>
        ensures follows { OnOk result (M.meaning.is_failed self.new.core ≡ false → (s : Scene) → Follows M.meaning self.old s → (u : Scene) × Flushes s u × Follows M.meaning self.new u) }
        ensures stays { M.meaning.is_failed self.old.core ≡ true → M.meaning.is_failed self.new.core ≡ true }
        ensures tells { OnOk result ((first : M) → Tells M.meaning first self.old → Tells M.meaning first self.new) }
    {
        for _turn in 0..u64::MAX {
            if self.core.is_failed() {
                return Ok(());
            }
            match self.core.ready() {
                None => return Ok(()),
                Some(conn) => self.take(conn)?,
            }
        }
        Err(AllocError)
    }

    /// Takes items from the outbox of a ready connection.
    fn take(&mut self, conn: ConnectionId) -> Result<(), AllocError>
        ensures follows { OnOk result (M.meaning.is_failed self.new.core ≡ false → (s : Scene) → Follows M.meaning self.old s → is_ready (known s.trace conn.0) ≡ true → Follows M.meaning self.new (take_one (taking conn) s)) }
        ensures stays { M.meaning.is_failed self.old.core ≡ true → M.meaning.is_failed self.new.core ≡ true }
        ensures tells { OnOk result ((first : M) → Tells M.meaning first self.old → Tells M.meaning first self.new) }
    {
        match take(&mut self.core, conn, MOST) {
            Ok(batch) => {
                self.recorder.took(conn, batch.items().len())?;
                self.send(conn, batch)
            }
            Err(fault) => self.fail(fault),
        }
    }

    /// Appends the lines of a batch; a connection that is over is closed with its last batch.
    fn send(&mut self, conn: ConnectionId, batch: Batch) -> Result<(), AllocError>
        ensures follows { OnOk result ((s : Scene) → Follows M.meaning self.old s → Follows M.meaning self.new (close_if batch.ended conn (say_all (map (out_line conn) batch.items.items) s))) }
        ensures core { self.new.core ≡ self.old.core }
        ensures recorder { self.new.recorder ≡ self.old.recorder }
        ensures tells { OnOk result ((first : M) → Tells M.meaning first self.old → Tells M.meaning first self.new) }
    {
        self.say_all(conn, batch.items())?;
        self.close_if(conn, batch.is_last())?;
        Ok(())
    }

    /// Closes a connection if it is over.
    fn close_if(&mut self, conn: ConnectionId, ended: bool) -> Result<(), AllocError>
        ensures follows { OnOk result ((s : Scene) → Follows M.meaning self.old s → Follows M.meaning self.new (close_if ended conn s)) }
        ensures core { self.new.core ≡ self.old.core }
        ensures recorder { self.new.recorder ≡ self.old.recorder }
        ensures tells { OnOk result ((first : M) → Tells M.meaning first self.old → Tells M.meaning first self.new) }
    {
        if ended {
            close(&mut self.sockets, conn.0);
            self.say(Line::End { conn })?;
        }
        Ok(())
    }

    /// Starts the router, and plays steps.
    fn run(&mut self, steps: &[Step]) -> Result<(), AllocError>
        ensures follows { OnOk result (M.meaning.is_failed self.new.core ≡ false → (config : Settings) (g : Beginning) → Begun M.meaning self.old config g
            → (u : Scene) × Plays M.meaning.next steps.now (opening M.meaning.next config g) u × Follows M.meaning self.new u) }
        ensures tells { OnOk result ((first : M) → Tells M.meaning first self.old → Tells M.meaning first self.new) }
    {
        self.start()?;
        self.play(steps)
    }

    /// Plays steps, one after another.
    fn play(&mut self, steps: &[Step]) -> Result<(), AllocError>
        ensures follows { OnOk result (M.meaning.is_failed self.new.core ≡ false → (s : Scene) → Follows M.meaning self.old s → (u : Scene) × Plays M.meaning.next steps.now s u × Follows M.meaning self.new u) }
        ensures stays { M.meaning.is_failed self.old.core ≡ true → M.meaning.is_failed self.new.core ≡ true }
        ensures tells { OnOk result ((first : M) → Tells M.meaning first self.old → Tells M.meaning first self.new) }
    {
        for step in steps {
            self.step(step)?;
            self.flush()?;
        }
        Ok(())
    }

    /// Asks who takes an item.
    fn ask(&mut self, conn: ConnectionId, item: &Item) -> Result<Asked, AllocError>
        ensures asks { IfOk result (λ asked. (s : Scene) → Follows M.meaning self.old s → (after : Scene) × Follows M.meaning self.new after × (follow M.meaning.next conn item.now asked after ≡ enter M.meaning.next conn item.now s)) }
        ensures core { self.new.core ≡ self.old.core }
        ensures recorder { self.new.recorder ≡ self.old.recorder }
        ensures tells { OnOk result ((first : M) → Tells M.meaning first self.old → Tells M.meaning first self.new) }
    {
        ask_in(&mut self.sockets, self.alloc, conn.0, item)
    }

    /// Hands an item to the one that takes it.
    fn follow(&mut self, conn: ConnectionId, item: Item, asked: Asked) -> Result<(), AllocError>
        ensures follows { OnOk result (M.meaning.is_failed self.new.core ≡ false → (s : Scene) → Follows M.meaning self.old s → Follows M.meaning self.new (follow M.meaning.next conn item asked s)) }
        ensures stays { M.meaning.is_failed self.old.core ≡ true → M.meaning.is_failed self.new.core ≡ true }
        ensures tells { OnOk result ((first : M) → Tells M.meaning first self.old → Tells M.meaning first self.new) }
    {
        match asked {
            Asked::Nobody => {
                discard(item);
                Ok(())
            }
            Asked::Router => self.hand(Event::Item(conn, item)),
            Asked::Say(items) => {
                discard(item);
                self.say_all(conn, &items)
            }
            Asked::Pass(peer) => self.pass(conn, peer, item),
            Asked::End(items) => {
                discard(item);
                self.say_end(conn, &items)
            }
        }
    }

    /// A connection comes up, and its first item goes to the router.
    fn pass(&mut self, conn: ConnectionId, peer: Peer, item: Item) -> Result<(), AllocError>
        ensures follows { OnOk result (M.meaning.is_failed self.new.core ≡ false → (s : Scene) → Follows M.meaning self.old s → Follows M.meaning self.new (hand M.meaning.next (event.Item conn item) (hand M.meaning.next (event.Up conn peer) s))) }
        ensures stays { M.meaning.is_failed self.old.core ≡ true → M.meaning.is_failed self.new.core ≡ true }
        ensures tells { OnOk result ((first : M) → Tells M.meaning first self.old → Tells M.meaning first self.new) }
    {
        self.hand(Event::Up(conn, peer))?;
        self.hand(Event::Item(conn, item))
    }

    /// Appends the last lines of a connection.
    fn say_end(&mut self, conn: ConnectionId, items: &[Item]) -> Result<(), AllocError>
        ensures said { OnOk result (Said self.old self.new (map (out_line conn) items.now ++ line.End conn ∷ [])) }
        ensures core { self.new.core ≡ self.old.core }
        ensures recorder { self.new.recorder ≡ self.old.recorder }
        ensures tells { OnOk result ((first : M) → Tells M.meaning first self.old → Tells M.meaning first self.new) }
    {
        self.say_all(conn, items)?;
        self.say(Line::End { conn })
    }
}

/// Drops an item.
fn discard(_item: Item) {}
