// The effects on registers whose day is turned, with their codes: the answers of accepted calls, but for pulses (crate `state`) and
// tick, which has none.
ghost use Rattle.std.specs.Prelude.{◌≡◌, [], ◌∷◌, ◌≤◌, ◌^◌};
ghost use Rattle.units.specs.Money.{Small};
ghost use Rattle.account.specs.declared.Event.TheVariants.{Set};
ghost use Rattle.account.specs.Codes.{event_code, note_all};
ghost use Rattle.slots.specs.Load.{loaded};
ghost use Rattle.state.specs.State.{alone, registers_of, with_account, with_slots};
ghost use Rattle.meter.specs.Call.{recharge, alarms, command, key};
ghost use Rattle.meter.specs.Accepted.{accepted_of, effect_by};

use crate::{Accepted, Alarms, Command, Key, Recharge};
use account::{Account, Event};
use plan::Plan;
use slots::SlotName;
use state::RegistersAndCodes;

// Another account, and one more code.
#[tactic(auto, unfolding(account::specs::Codes::note_all, state::specs::State::registers_of, state::specs::State::state_with))]
fn noted(t: RegistersAndCodes, account: Account, event: Event) -> Accepted
    ensures { result ≡ accepted_of (registers_of (with_account (alone t.registers) account)) (note_all t.codes (event_code event ∷ [])) }
{
    let mut next = t;
    next.registers.account = account;
    next.codes = t.codes.note(event);
    Accepted::from(next)
}

#[tactic(auto, unfolding(crate::specs::Effects::effect_of, crate::specs::Effects::codes_of, state::specs::State::state_with))]
pub(crate) fn recharged(t: RegistersAndCodes, p: Recharge) -> Accepted
    requires small { Small t.registers.account.balance.0 }
    requires amount_bound { p.amount.0 ≤ 2 ^ 55 }
    ensures { result ≡ effect_by t (recharge p) }
{
    let account = t.registers.account.recharged(p.amount, p.serial);
    noted(t, account, Event::Recharged)
}

#[tactic(auto, unfolding(crate::specs::Effects::effect_of, crate::specs::Effects::codes_of, state::specs::State::state_with))]
pub(crate) fn alarmed(t: RegistersAndCodes, p: Alarms) -> Accepted
    ensures { result ≡ effect_by t (alarms p) }
{
    let account = t.registers.account.alarmed(p.alarm_1, p.alarm_2);
    noted(t, account, Event::Set)
}

#[tactic(auto, unfolding(account::specs::Codes::note_all, state::specs::State::registers_of, state::specs::State::state_with))]
pub(crate) fn loaded(t: RegistersAndCodes, slot: SlotName, plan: Plan) -> Accepted
    ensures { result ≡ accepted_of (registers_of (with_slots (alone t.registers) (loaded t.registers.slots slot plan))) (note_all t.codes (event_code Set ∷ [])) }
{
    let mut next = t;
    next.registers.slots = t.registers.slots.loaded(slot, plan);
    next.codes = t.codes.note(Event::Set);
    Accepted::from(next)
}

#[tactic(auto, unfolding(crate::specs::Effects::effect_of, crate::specs::Effects::codes_of, state::specs::State::registers_of, state::specs::State::state_with))]
pub(crate) fn commanded(t: RegistersAndCodes, p: Command) -> Accepted
    ensures { result ≡ effect_by t (command p) }
{
    let allow = p.code == 1;
    let mut next = t;
    next.registers.valve = t.registers.valve.commanded(allow);
    next.codes = t.registers.valve.command_codes(allow, t.codes);
    Accepted::from(next)
}

#[tactic(auto, unfolding(crate::specs::Effects::effect_of, crate::specs::Effects::codes_of, state::specs::State::registers_of, state::specs::State::state_with))]
pub(crate) fn opened(t: RegistersAndCodes, p: Key) -> Accepted
    ensures { result ≡ effect_by t (key p) }
{
    let mut next = t;
    next.registers.valve = t.registers.valve.set(true);
    next.codes = t.registers.valve.key_codes(t.codes);
    Accepted::from(next)
}
