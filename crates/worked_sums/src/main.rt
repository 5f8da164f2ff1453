// Document 01 tried on meters: its worked sums, and each refusal number 0 to 27 with the meter
// unchanged.
#![tactic(auto)]

mod calls; // calls.rt: the calls
mod checks; // checks.rt: a call on a meter, and how it should be answered
mod count; // count.rt: the lines that are printed
mod record_in_force; // record_in_force.rt: the record in force of two
mod refusals; // refusals.rt: the numbers 0 to 27
mod setup; // setup.rt: records and meters
mod sums; // sums.rt: the worked sums

use count::Count;
use std::io;

fn main(rt: HostRuntime) -> io::Result<()> {
    let mut c = Count::new(rt.stdout());
    sums::all(&mut c)?;
    refusals::all(&mut c)?;
    record_in_force::all(&mut c)?;
    c.sum_up()
}
