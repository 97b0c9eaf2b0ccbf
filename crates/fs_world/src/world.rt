//! The world of a schedule as one value.
ghost use Rattle.std.specs.Prelude.{◌≡◌, ◌≤◌, ◌⊎◌, ◌∷◌, ◌++◌, [], length, Some, IfOk, OnErr, OnOk, IsErrOf};
ghost use Rattle.fs_ident.specs.declared.limits.TheConstants.{LATEST};
ghost use Rattle.fs_msg.specs.declared.core_error.Counter.{Counter as TheCounter};
ghost use Rattle.fs_msg.specs.declared.core_error.CoreError.TheVariants as errors;
ghost use Rattle.fs_serial.specs.Cluster.{parcels_of};
ghost use Rattle.fs_serial.specs.Joined.{effects_by, effects_on_way};

use crate::direct::world::Direct;
use crate::form::Form;
use crate::servers::world::Served;
use fs_field::Effect;
use fs_ident::{List, Memory, Twin, add_copy};
use fs_model::Space;
use fs_msg::{CoreError, Item, PeerMsg};
use fs_record::Parcel;
use fs_schedule::{Event, Head, Outcome};
use fs_serial::{InFlight, joined};
use std::alloc::Global;
use std::marker::Model;

/// What a schedule's events happen to.
pub struct World {
    form: Form,
}

impl Model for World {
    ghost use Rattle.fs_world.specs.declared.form.Form.{Form};
    ghost use Rattle.fs_world.specs.contracts.form.Form as whole;
    ghost use Rattle.fs_world.specs.Linked.{IsWhole};

    ghost Value = { Form };

    ghost coded = { whole.the_row.coded };

    ghost view = { λ w. w.form };

    ghost invariant = { λ w. IsWhole w.form };
}

impl World {
    ghost use Rattle.fs_schedule.specs.Spelling.{FitsHead};
    ghost use Rattle.fs_world.specs.Carried.{LinksCarry};
    ghost use Rattle.fs_world.specs.Refusals.{HasNone, is_link_strange};
    ghost use Rattle.fs_world.specs.Within.{IsWithin};
    ghost use Rattle.fs_world.specs.World.{FitsWorld, first_world, journal_of, packets_of, space_of, step};

    /// The world of the form before its first event.
    pub fn new(alloc: Global, head: &Head) -> Result<World, Memory>
        requires { FitsHead head.now }
        ensures { IfOk result (λ w. w ≡ first_world head.now) }
    {
        match *head {
            Head::Direct => {
                let form = Form::Direct(Direct::new(alloc)?);
                Ok(World { form })
            }
            Head::Servers {
                servers,
                skew,
                term,
            } => {
                let form = Form::Served(Served::new(alloc, servers, skew, term)?);
                Ok(World { form })
            }
        }
    }

    /// One event: what it comes to. `Spent` only where the event would raise that counter above its end; there nothing but
    /// want of memory comes in its place.
    /// All that comes over a link was sent over it. What happens is within the limits of numbers and lengths. After an error the
    /// world is as it was.
    pub fn step(&mut self, alloc: Global, event: &Event) -> Result<Outcome, CoreError>
        requires reading { event.now.reading ≤ LATEST }
        requires asked { FitsWorld self.old event.now.what }
        ensures outcome { IfOk result (λ o. o ≡ (step self.old event.now).outcome) }
        ensures world { OnOk result (self.new ≡ (step self.old event.now).world) }
        ensures known { IfOk result (HasNone is_link_strange) }
        ensures carried { LinksCarry self.old }
        ensures within { OnOk result (IsWithin self.old event.now) }
        ensures spent { (counter : TheCounter) → IsErrOf result (errors.Spent counter) →
            (step self.old event.now).spent ≡ Some counter }
        ensures only { (counter : TheCounter) → (step self.old event.now).spent ≡ Some counter →
            IsErrOf result (errors.Spent counter) ⊎ IsErrOf result errors.Memory }
        ensures err { OnErr result (self.new ≡ self.old) }
    {
        match &mut self.form {
            Form::Direct(direct) => direct.step(alloc, &event.what),
            Form::Served(served) => served.step(alloc, event.reading, &event.what),
        }
    }

    /// A law of every world that steps make: whatever was sent is a packet, and what it joins where it comes, however often it
    /// is told and however late, are exactly the bytes of the first messages between the two, in order, each of which can be read.
    pub fn links_give_what_was_sent(&self)
        ensures { LinksCarry self.now }
    {
        let _form = &self.form;
    }

    /// The items that were admitted, in order.
    pub fn journal(&self) -> &List<Item>
        ensures { result.now ≡ journal_of self.now }
    {
        match &self.form {
            Form::Direct(direct) => &direct.journal,
            Form::Served(served) => &served.journal,
        }
    }

    /// How many packets were sent: none in the direct form.
    pub fn packet_count(&self) -> usize
        ensures { result ≡ length (packets_of self.now) }
    {
        match &self.form {
            Form::Direct(_) => 0,
            Form::Served(served) => served.packets.sent().len(),
        }
    }

    /// The namespace that the servers hold together, with what is decided and on its way to them.
    pub fn space(&self, alloc: Global) -> Result<Space, Memory>
        ensures { IfOk result (λ space. space ≡ space_of self.now) }
    {
        match &self.form {
            Form::Direct(direct) => direct.space.copy(alloc),
            Form::Served(served) => {
                let in_flight = served.in_flight.as_slice();
                let parcels = parcels_of(alloc, in_flight)?;
                let decided = effects_on_way(alloc, in_flight)?;
                joined(alloc, &served.servers, &parcels, &decided)
            }
        }
    }

    /// Gives the world up, with every lease of its clients.
    pub fn discard(self) {
        let World { form } = self;
        form.discard();
    }
}

impl Twin for World {
    fn copy(&self, alloc: Global) -> Result<World, Memory> {
        Ok(World {
            form: self.form.copy(alloc)?,
        })
    }

    fn discard(self) {
        World::discard(self)
    }
}

/// The parcels among the messages on their way.
fn parcels_of(alloc: Global, in_flight: &[InFlight]) -> Result<List<Parcel>, Memory>
    ensures { IfOk result (λ parcels. parcels ≡ parcels_of in_flight.now) }
{
    let mut parcels = List::new(alloc);
    for f in in_flight {
        push_parcel(alloc, &mut parcels, f)?;
    }
    Ok(parcels)
}

/// The parcel that the message brings, if it brings one.
fn push_parcel(alloc: Global, parcels: &mut List<Parcel>, f: &InFlight) -> Result<(), Memory>
    ensures { OnOk result (parcels.new ≡ parcels.old ++ parcels_of (f.now ∷ [])) }
{
    match &f.message {
        PeerMsg::Parcel { parcel } => parcels.push(parcel.copy(alloc)?),
        _ => Ok(()),
    }
}

/// The effects that messages on their way tell parts to apply, in order.
fn effects_on_way(alloc: Global, in_flight: &[InFlight]) -> Result<List<Effect>, Memory>
    ensures { IfOk result (λ effects. effects ≡ effects_on_way in_flight.now) }
{
    let mut effects = List::new(alloc);
    for f in in_flight {
        add_effects(alloc, &mut effects, &f.message)?;
    }
    Ok(effects)
}

/// The effects that the message tells a part to apply, if it tells any.
fn add_effects(alloc: Global, effects: &mut List<Effect>, message: &PeerMsg) -> Result<(), Memory>
    ensures { OnOk result (effects.new ≡ effects.old ++ effects_by message.now) }
{
    match message {
        PeerMsg::Decide { decide } => add_all(alloc, effects, decide.effects.as_slice()),
        _ => Ok(()),
    }
}

fn add_all(alloc: Global, effects: &mut List<Effect>, more: &[Effect]) -> Result<(), Memory>
    ensures { OnOk result (effects.new ≡ effects.old ++ more.now) }
{
    for e in more {
        add_copy(alloc, effects, e)?;
    }
    Ok(())
}
