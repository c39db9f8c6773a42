//! Gathers the payloads of a delivery's frames.
ghost use Rattle.std.specs.Prelude.{◌≡◌, ℕ, [], ◌++◌, List, Some, None, if◌then◌else◌, IfOk, IfErr, OnErr, OnOk, IsOk, true, false, not, nat_lt, length};
ghost use Rattle.amqp_link.specs.Deliveries.{frame};
ghost use Rattle.amqp_link.specs.Gathering.{begun, with_frame, settled_now, fitting, more, whole, next};

use crate::part::{Delivery, Part};
use amqp_model::Transfer;
use bytes::Bytes;
use std::alloc::{AllocError, Global};
use std::marker::Model;

/// The most bytes that a delivery may have.
pub const MAX_MESSAGE_SIZE: usize = 65_536;

/// A delivery in the middle: its fields, and the bytes that came, in one growing buffer. Nothing is kept of one that
/// is too large.
#[derive(Debug, Drop)]
pub(crate) struct Gathering {
    delivery: Delivery,
    bytes: Option<Vec<u8>>,
}

impl Model for Gathering {
    ghost use Rattle.std.specs.Option.{option_map};
    ghost use Rattle.amqp_link.specs.Gathering.{Gathered};

    ghost Value = { Gathered };

    ghost view = { λ g. record { delivery = g.delivery; kept = option_map (λ v. v.items) g.bytes } };
}

impl Gathering {
    /// The delivery that a first frame begins.
    pub(crate) fn begin(
        alloc: Global,
        transfer: &Transfer,
        payload: &Bytes,
    ) -> Result<Gathering, AllocError>
        ensures { IfOk result (λ g. g ≡ begun (frame transfer.now payload.now)) }
    {
        let delivery = Delivery::begun(transfer)?;
        let mut bytes = Vec::new(alloc);
        let fits = append(&mut bytes, payload)?;
        Ok(Gathering {
            delivery,
            bytes: fits.then_some(bytes),
        })
    }

    /// The fields of the delivery.
    pub(crate) fn delivery(&self) -> &Delivery
        ensures { result.now ≡ self.now.delivery }
    {
        &self.delivery
    }

    /// Takes one more frame. An error changes nothing.
    fn add(&mut self, transfer: &Transfer, payload: &Bytes) -> Result<(), AllocError>
        ensures ok { OnOk result (self.new ≡ with_frame (frame transfer.now payload.now) self.old) }
        ensures err { OnErr result (self.new ≡ self.old) }
    {
        let fits = match &mut self.bytes {
            None => false,
            Some(bytes) => append(bytes, payload)?,
        };
        self.delivery.settled = transfer.settled || self.delivery.settled;
        if !fits {
            self.bytes = None;
        }
        Ok(())
    }

    /// Notes that the sender settled the delivery.
    pub(crate) fn settle(&mut self)
        ensures { self.new ≡ settled_now self.old }
    {
        self.delivery.settled = true;
    }

    /// The state of the delivery after its last frame, where more frames are to come.
    fn part(&self) -> Part
        ensures { result ≡ more self.now.kept }
    {
        match self.bytes {
            None => Part::TooLarge,
            Some(_) => Part::More,
        }
    }

    /// The whole delivery, with its last frame. An error gives it back as it was.
    fn finish(self, transfer: &Transfer, payload: &Bytes) -> Result<Part, Gathering>
        ensures ok { let f = frame transfer.now payload.now in IfOk result (λ p. p ≡ whole (with_frame f self).delivery (with_frame f self).kept) }
        ensures err { IfErr result (λ same. same ≡ self) }
    {
        let Gathering {
            mut delivery,
            bytes,
        } = self;
        let Some(bytes) = bytes else {
            return Ok(Part::TooLarge);
        };
        if !fits(&bytes, payload) {
            return Ok(Part::TooLarge);
        }
        match join(bytes, payload) {
            Ok(joined) => {
                delivery.settled = transfer.settled || delivery.settled;
                Ok(Part::Whole(delivery, joined))
            }
            Err(bytes) => Err(Gathering {
                delivery,
                bytes: Some(bytes),
            }),
        }
    }
}

/// What a frame that starts a delivery gives, and what stays in the middle.
pub(crate) fn first(
    alloc: Global,
    transfer: &Transfer,
    payload: Bytes,
) -> Result<(Part, Option<Gathering>), AllocError>
    ensures ok { IfOk result (λ found. found ≡ next (frame transfer.now payload) None) }
    ensures alone { transfer.now.more ≡ false → IsOk result }
    ensures aborted { transfer.now.aborted ≡ true → IsOk result }
{
    if transfer.aborted {
        return Ok((Part::Aborted, None));
    }
    if transfer.more {
        let gathering = Gathering::begin(alloc, transfer, &payload)?;
        return Ok((gathering.part(), Some(gathering)));
    }
    if payload.len() > MAX_MESSAGE_SIZE {
        return Ok((Part::TooLarge, None));
    }
    Ok((Part::Whole(Delivery::begun(transfer)?, payload), None))
}

/// What a later frame gives, and what stays in the middle. An error gives the delivery back as it was.
pub(crate) fn later(
    mut gathering: Gathering,
    transfer: &Transfer,
    payload: Bytes,
) -> Result<(Part, Option<Gathering>), Gathering>
    ensures ok { IfOk result (λ found. found ≡ next (frame transfer.now payload) (Some gathering)) }
    ensures err { IfErr result (λ same. same ≡ gathering) }
    ensures aborted { transfer.now.aborted ≡ true → IsOk result }
{
    if transfer.aborted {
        return Ok((Part::Aborted, None));
    }
    if !transfer.more {
        return Ok((gathering.finish(transfer, &payload)?, None));
    }
    match gathering.add(transfer, &payload) {
        Ok(()) => Ok((gathering.part(), Some(gathering))),
        Err(AllocError) => Err(gathering),
    }
}

/// Appends these bytes where all of them fit into a message, and gives whether they do.
fn append(bytes: &mut Vec<u8>, payload: &Bytes) -> Result<bool, AllocError>
    ensures fits { IfOk result (λ fits. (if fits then Some bytes.new.items else None) ≡ fitting (bytes.old.items ++ payload.now)) }
    ensures err { OnErr result (bytes.new.items ≡ bytes.old.items) }
{
    if !fits(bytes, payload) {
        return Ok(false);
    }
    bytes.extend_from_slice(payload.as_slice())?;
    Ok(true)
}

/// Whether a message may hold these bytes and then those.
fn fits(bytes: &Vec<u8>, payload: &Bytes) -> bool
    ensures { result ≡ not (nat_lt 65536 (length (bytes.now.items ++ payload.now))) }
{
    bytes.len() + payload.len() <= MAX_MESSAGE_SIZE
}

/// These bytes and then those, in one. An error gives them back as they were.
fn join(mut bytes: Vec<u8>, payload: &Bytes) -> Result<Bytes, Vec<u8>>
    ensures ok { IfOk result (λ joined. joined ≡ bytes.items ++ payload.now) }
    ensures err { IfErr result (λ same. same.items ≡ bytes.items) }
{
    let before = bytes.len();
    if bytes.extend_from_slice(payload.as_slice()).is_err() {
        return Err(bytes);
    }
    match Bytes::from_vec(bytes) {
        Ok(joined) => Ok(joined),
        Err(refused) => {
            let mut bytes = refused.value;
            bytes.truncate(before);
            Err(bytes)
        }
    }
}
