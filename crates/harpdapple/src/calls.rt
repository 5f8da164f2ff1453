// The seven calls, on a meter that the host keeps. C calls each by its name, so each has its function.
// A function's two lines stand in each. One function over `meter::Call` has the seven calls in one
// frame, which takes more stack and code. One over a closure has to promise what the closure gives
// and how it leaves the meter: no plainer.
ghost use Rattle.std.specs.Prelude.{◌≡◌};
ghost use Rattle.meter.specs.Call.{pulses as pulses_call, recharge as recharge_call, load as load_call, alarms as alarms_call, command as command_call, key as key_call, tick as tick_call};
ghost use Rattle.meter.specs.Machine.{fresh_meter, after_call};
ghost use Rattle.harpdapple.specs.Replies.{codes_reply_of};

use crate::CodesReply;
use meter::{Alarms, Command, Key, Load, Meter, Pulses, Recharge, Tick};

#[unsafe(no_mangle)]
pub extern "C" fn harpdapple_fresh() -> Meter
    ensures { result ≡ fresh_meter }
{
    Meter::fresh()
}

#[unsafe(no_mangle)]
pub extern "C" fn harpdapple_pulses(meter: &mut Meter, call: Pulses) -> CodesReply
    ensures { (meter.new ≡ (after_call meter.old (pulses_call call)).meter) × (result ≡ codes_reply_of (after_call meter.old (pulses_call call)).done) }
{
    let answer = (*meter).machine.pulses(&mut (*meter).held, call);
    CodesReply::from((*meter).machine.settle(answer))
}

#[unsafe(no_mangle)]
pub extern "C" fn harpdapple_recharge(meter: &mut Meter, call: Recharge) -> CodesReply
    ensures { (meter.new ≡ (after_call meter.old (recharge_call call)).meter) × (result ≡ codes_reply_of (after_call meter.old (recharge_call call)).done) }
{
    let answer = (*meter).machine.recharge(&mut (*meter).held, call);
    CodesReply::from((*meter).machine.settle(answer))
}

#[unsafe(no_mangle)]
pub extern "C" fn harpdapple_load(meter: &mut Meter, call: Load, bytes: &[u8]) -> CodesReply
    ensures { (meter.new ≡ (after_call meter.old (load_call call bytes.now)).meter) × (result ≡ codes_reply_of (after_call meter.old (load_call call bytes.now)).done) }
{
    let answer = (*meter).machine.load(&mut (*meter).held, call, bytes);
    CodesReply::from((*meter).machine.settle(answer))
}

#[unsafe(no_mangle)]
pub extern "C" fn harpdapple_alarms(meter: &mut Meter, call: Alarms) -> CodesReply
    ensures { (meter.new ≡ (after_call meter.old (alarms_call call)).meter) × (result ≡ codes_reply_of (after_call meter.old (alarms_call call)).done) }
{
    let answer = (*meter).machine.alarms(&mut (*meter).held, call);
    CodesReply::from((*meter).machine.settle(answer))
}

#[unsafe(no_mangle)]
pub extern "C" fn harpdapple_command(meter: &mut Meter, call: Command) -> CodesReply
    ensures { (meter.new ≡ (after_call meter.old (command_call call)).meter) × (result ≡ codes_reply_of (after_call meter.old (command_call call)).done) }
{
    let answer = (*meter).machine.command(&mut (*meter).held, call);
    CodesReply::from((*meter).machine.settle(answer))
}

#[unsafe(no_mangle)]
pub extern "C" fn harpdapple_key(meter: &mut Meter, call: Key) -> CodesReply
    ensures { (meter.new ≡ (after_call meter.old (key_call call)).meter) × (result ≡ codes_reply_of (after_call meter.old (key_call call)).done) }
{
    let answer = (*meter).machine.key(&mut (*meter).held, call);
    CodesReply::from((*meter).machine.settle(answer))
}

#[unsafe(no_mangle)]
pub extern "C" fn harpdapple_tick(meter: &mut Meter, call: Tick) -> CodesReply
    ensures { (meter.new ≡ (after_call meter.old (tick_call call)).meter) × (result ≡ codes_reply_of (after_call meter.old (tick_call call)).done) }
{
    let answer = (*meter).machine.tick(&mut (*meter).held, call);
    CodesReply::from((*meter).machine.settle(answer))
}
