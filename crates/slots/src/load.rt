// A plan loaded into a slot: its refusals and its effect.
ghost use Rattle.std.specs.Prelude.{◌≡◌, Ok};
ghost use Rattle.refusal.specs.Refusal.{next};
ghost use Rattle.plan_record.specs.PlanRecord.{read_of, plan_in};
ghost use Rattle.slots.specs.World.{real};
ghost use Rattle.slots.specs.Load.{slot_named, in_force_refusal, load_refusal, loaded};

use crate::{Slot, SlotName, Slots};
use plan::Plan;
use refusal::{Refusal, need};

impl Slots {
    // Refusals 11 and 12 of a load on the date, in their order. Slot and plan go on as they were read: a
    // struct of the two would be taken apart in each function.
    #[tactic(auto, unfolding(crate::specs::Load::in_force_refusal))]
    fn in_force_refusal(self, d: u32, slot: SlotName, plan: Plan) -> Result<(), Refusal>
        ensures { result ≡ in_force_refusal real self d slot plan }
    {
        let other = slot.pick(self.slot_2, self.slot_1);
        need(!self.slot_at(slot).in_force(d), Refusal::InForce)?;
        need(!other.both_in_force(plan, d), Refusal::Overlap)
    }

    // Refusals 10, 1 to 7, 11 and 12 of a load on the date; or its slot and its plan.
    #[tactic(auto, unfolding(crate::specs::Load::load_refusal))]
    pub fn checked_load(&self, d: u32, slot: u32, bytes: &[u8]) -> Result<(SlotName, Plan), Refusal>
        ensures { result ≡ next (load_refusal real self.now d slot (read_of bytes.now)) (Ok (slot_named slot, plan_in (read_of bytes.now))) }
    {
        let slot = SlotName::try_from(slot)?;
        let plan = plan_record::read(bytes)?;
        self.in_force_refusal(d, slot, plan)?;
        Ok((slot, plan))
    }

    // The same refusals of any slot number and any reading, wherever the plan was read.
    #[tactic(auto, unfolding(crate::specs::Load::load_refusal))]
    pub fn load_refusal(
        self,
        d: u32,
        slot: u32,
        reading: Result<Plan, Refusal>,
    ) -> Result<(), Refusal>
        ensures { result ≡ load_refusal real self d slot reading }
    {
        self.in_force_refusal(d, SlotName::try_from(slot)?, reading?)
    }

    // The plan put into the slot.
    #[tactic(auto, unfolding(crate::specs::Load::loaded))]
    pub fn loaded(self, slot: SlotName, plan: Plan) -> Slots
        ensures { result ≡ loaded self slot plan }
    {
        let held = Slot { loaded: true, plan };
        Slots {
            slot_1: slot.pick(held, self.slot_1),
            slot_2: slot.pick(self.slot_2, held),
            ..self
        }
    }

    // The same by the slot's number: slot 1 by 1, slot 2 by any other.
    pub fn loaded_by_number(self, slot: u32, plan: Plan) -> Slots
        ensures { result ≡ loaded self (slot_named slot) plan }
    {
        self.loaded(SlotName::try_from(slot).unwrap_or(SlotName::Two), plan)
    }
}
