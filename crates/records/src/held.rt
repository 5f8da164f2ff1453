// The held day and month records as words that the caller lends: the count of days, three words for
// each of 62 days, the count of months, three words for each of 120 months; the newest record first.
// Words behind the records that are counted are no part of the state.
ghost use Rattle.std.specs.Prelude.{◌≡◌, ◌&&◌, ◌∷◌, ◌+◌, ◌<◌, leb, length, get_or};
ghost use Rattle.std.proofs.lemmas.List.Edits.{sets};
ghost use Rattle.units.specs.Money.{money};
ghost use Rattle.records.specs.declared.Shelf.TheVariants.{Day};
ghost use Rattle.records.specs.Records.{no_record, shelf_limit};
ghost use Rattle.records.specs.Bounds.{records_good, held_good, is_fresh_held};
ghost use Rattle.records.specs.Queries.{fetched, HeavyDay};
ghost use Rattle.records.specs.Turn.{opened};
ghost use Rattle.records.specs.Words.{balance_of, balance_word, record_from, record_at, date_word, record_words, shelf_place, word_count, held_of, held_on, rows_of, CountFits, no_words};
ghost use Rattle.records.specs.Moves.{pushed, closed_words};

use crate::{Limits, OpenPeriod, Periods, PlacedRecord, Record, Shelf};
use refusal::Refusal;
use units::{Charge, Hundredths, Millionths};

// How many words hold the records.
const WORDS: usize = 548;

// The words of all held records: fixed memory that the host lends.
pub type Words = [u64; WORDS];

// How many records of each kind are held at most.
pub const DAY_LIMIT: usize = 62;

pub const MONTH_LIMIT: usize = 120;

// What the volume is multiplied by in the word that it shares with the date.
const ABOVE_DATE: u64 = 0x1_0000_0000;

// No record held.
#[tactic(auto, unfolding(crate::specs::Words::no_words))]
pub fn none() -> Words
    ensures { result ≡ no_words }
{
    [0; WORDS]
}

fn balance_of(w: u64) -> Millionths
    ensures { result ≡ money (balance_of w) }
{
    Millionths(w.cast_signed())
}

fn balance_word(b: Millionths) -> u64
    ensures { result ≡ balance_word b.0 }
{
    b.0.cast_unsigned()
}

fn date_word(r: Record) -> u64
    ensures { result ≡ date_word r }
{
    u64::from(r.volume.0) * ABOVE_DATE + u64::from(r.date)
}

// The record of three words. No `From`: how words hold a record is private to this file.
#[tactic(auto, unfolding(crate::specs::Words::record_from))]
fn record_from(a: u64, b: u64, c: u64) -> Record
    ensures { result ≡ record_from a b c }
{
    Record {
        date: (a % ABOVE_DATE) as u32,
        volume: Hundredths((a / ABOVE_DATE) as u32),
        charge: Charge(b),
        closing: balance_of(c),
    }
}

// The record whose words begin at i.
fn record_at(h: &Words, i: usize) -> Record
    requires { i + 2 < word_count }
    ensures { result ≡ record_at h.now i }
{
    record_from(h[i], h[i + 1], h[i + 2])
}

// One shelf of the words. A host lends them with any count in it, so `row` asks that they fit on the shelf.
#[derive(Clone, Copy)]
struct Rows<'a> {
    words: &'a Words,
    shelf: Shelf,
}

impl<'a> Rows<'a> {
    fn new(words: &'a Words, shelf: Shelf) -> Rows<'a>
        ensures words { result.words.now ≡ words.now }
        ensures shelf { result.shelf ≡ shelf }
    {
        Rows { words, shelf }
    }

    // How many records it holds.
    #[tactic(auto, using(crate::proofs::Rows::shelf_long))]
    fn count(self) -> usize
        ensures { result ≡ length (rows_of self.entry) }
    {
        self.words[self.shelf.place()] as usize
    }

    // Record k, where it is held, and they are no more than fit on the shelf.
    #[tactic(auto, using(crate::proofs::Rows::shelf_at))]
    fn row(self, k: usize) -> Record
        requires held { k < length (rows_of self) }
        requires few { CountFits self.shelf self.words.now }
        ensures { result ≡ get_or (rows_of self.entry) k no_record }
    {
        record_at(self.words, self.shelf.place() + 3 * k + 1)
    }

    // Whether the records keep the bounds, and are no more than fit on the shelf. A `while` and no `all`: compiled, it tests the
    // count where it jumps back, and `all` in front of each record.
    fn is_good(self, limits: Limits) -> bool
        ensures { result ≡ (leb (length (rows_of self.entry)) (shelf_limit self.entry.shelf) && records_good limits.top.0 limits.total.0 (rows_of self.entry)) }
    {
        let n = self.count();
        if n > self.shelf.limit() {
            return false;
        }
        let mut k = 0;
        while k < n {
            if !self.row(k).is_good(limits) {
                return false;
            }
            k += 1;
        }
        true
    }
}

// Whether the held records keep the bounds. Not inlined, so that the loops have the processor's registers for themselves.
#[inline(never)]
#[tactic(auto, unfolding(crate::specs::Bounds::held_good))]
pub fn is_good(h: &Words, limits: Limits) -> bool
    ensures { result ≡ held_good limits.top.0 limits.total.0 (held_of h.now) }
{
    Rows::new(h, Shelf::Day).is_good(limits) && Rows::new(h, Shelf::Month).is_good(limits)
}

// Whether no record is held.
#[tactic(auto, unfolding(crate::specs::Bounds::is_fresh_held))]
pub fn is_fresh(h: &Words) -> bool
    ensures { result ≡ is_fresh_held (held_of h.now) }
{
    (Rows::new(h, Shelf::Day).count() == 0) & (Rows::new(h, Shelf::Month).count() == 0)
}

// A count and the words of a record, put at `from`.
fn put(h: &mut Words, from: usize, count: u64, r: Record)
    requires { from + 3 < word_count }
    ensures { h.new ≡ sets h.old from (count ∷ record_words r) }
{
    h[from] = count;
    h[from + 1] = date_word(r);
    h[from + 2] = r.charge.0;
    h[from + 3] = balance_word(r.closing);
}

// A record in front on its shelf; the oldest gives way where the shelf is full.
fn push(h: &mut Words, shelf: Shelf, r: Record)
    ensures { h.new ≡ pushed (shelf_place shelf) (shelf_limit shelf) r h.old }
{
    let from = shelf.place();
    let n = (h[from] as usize).min(shelf.limit() - 1);
    h.copy_within(from + 1..from + 1 + 3 * n, from + 4);
    put(h, from, n as u64 + 1, r);
}

// Record k of a shelf, newest first from 0. The two make one question; a struct of them would be taken
// apart at once.
#[tactic(auto, using(crate::proofs::Rows::fetched_held, crate::proofs::Rows::fetched_not))]
pub fn record(h: &Words, shelf: Shelf, k: usize) -> Result<Record, Refusal>
    requires { CountFits shelf h.now }
    ensures { result ≡ fetched (held_on shelf h.now) k }
{
    let rows = Rows::new(h, shelf);
    refusal::need(k < rows.count(), Refusal::NotHeld)?;
    Ok(rows.row(k))
}

// A held day of at least the volume v, with its place, which the loop counts.
pub fn heavy(h: &Words, v: Hundredths) -> Result<PlacedRecord, Refusal>
    requires { CountFits Day h.now }
    ensures { HeavyDay (held_on Day h.now) v.0 result }
{
    let days = Rows::new(h, Shelf::Day);
    for place in 0..days.count() {
        let held = days.row(place);
        if v <= held.volume {
            return Ok(PlacedRecord { place, held });
        }
    }
    Err(Refusal::NoHeavyDay)
}

// The day turned from one date to a later one: what is open then, and the records behind it.
#[tactic(auto, unfolding(crate::specs::Turn::opened, crate::specs::Moves::closed_words))]
pub fn close(h: &mut Words, p: Periods, from: u32, to: u32, closing: Millionths) -> Periods
    ensures { (result ≡ opened p from to) × (h.new ≡ closed_words p from to closing h.old) }
{
    push(h, Shelf::Day, p.day.closed(from, closing));
    let first = calendar::month_start(from);
    if calendar::month_start(to) <= first {
        return Periods {
            day: OpenPeriod::nothing(),
            ..p
        };
    }
    push(h, Shelf::Month, p.month.closed(first, closing));
    Periods::nothing()
}
