// Document 01, "The plan printer": reads 66-byte plan records from standard input and prints a line
// each. A short last record is refused 1; an empty input prints nothing.
#![tactic(auto)]

ghost use Rattle.std.specs.Prelude.{◌*◌, ◌≤◌, length, IfOk};
ghost use Rattle.plan_line.specs.Line.{most_line};
ghost use Rattle.plan_line.specs.Records.{records_in};

use std::io;
use std::io::{Read, Write};

// Reads until the records are full or the input ends, and answers how many bytes there are. std's
// `read_exact` does not tell how many bytes came before the end, and `read_to_end` needs a heap.
fn read_full(input: &mut impl Read, records: &mut [u8]) -> io::Result<usize>
    ensures { IfOk result (λ n. n ≤ length records.new) }
{
    let mut done = 0usize;
    while done < records.len() {
        let got = input.read(&mut records[done..])?;
        if got == 0 {
            break;
        }
        done += got;
    }
    Ok(done)
}

// Reads as many records as fit, prints their lines, and answers whether more may follow: not after
// the end of the input. A struct of the four that are lent would be made for one call.
fn print_some(
    input: &mut impl Read,
    output: &mut impl Write,
    records: &mut [u8],
    text: &mut [u8],
) -> io::Result<bool>
    requires { most_line * records_in records.old ≤ length text.old }
{
    let got = read_full(input, records)?;
    let n = plan_line::lines(&records[..got], text);
    output.write_all(&text[..n])?;
    Ok(got == records.len())
}

// A proved loop has to end, and nothing says that the input does. So it counts its turns, up to a
// number that no run uses up.
#[tactic(auto, unfolding(plan_line::specs::Records::records_in))]
fn print_all(
    input: &mut impl Read,
    output: &mut impl Write,
    records: &mut [u8],
    text: &mut [u8],
) -> io::Result<()>
    requires { most_line * records_in records.old ≤ length text.old }
{
    for _ in 0..u64::MAX {
        if !print_some(input, output, records, text)? {
            break;
        }
    }
    Ok(())
}

// As long as 992 records, and as many lines.
#[tactic(auto, unfolding(plan_line::specs::Records::records_in))]
fn main(rt: HostRuntime) -> io::Result<()> {
    let mut records = [0u8; 65_472];
    let mut text = [0u8; 992 * plan_line::MOST_LINE];
    print_all(&mut rt.stdin(), &mut rt.stdout(), &mut records, &mut text)
}
