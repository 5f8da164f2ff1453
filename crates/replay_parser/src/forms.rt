// The words that begin a line: what each asks for, and how its line is made.
ghost use Rattle.std.specs.Prelude.{◌≡◌, map};
ghost use Rattle.replay_parser.specs.Forms.{line_in, form_by, form_of};

// What a first word asks for.
#[derive(Clone, Copy)]
pub enum Kind {
    Pulse,
    Recharge,
    Plan,
    Alarms,
    Command,
    Key,
    Tick,
    Step,
    Display,
    Show,
    Day,
    Month,
    Heavy,
}

// How a line is made: what its first word asks for, how many words follow it, and how many of these
// are decimal numbers. The one behind them is the record of a plan.
#[derive(Clone, Copy)]
pub struct Form {
    pub kind: Kind,
    pub words: usize,
    pub numbers: usize,
}

// A word, what it asks for, how many words follow it, and how many of these are numbers. A tuple beside
// `Form`: thirteen structs would be longer to read.
type Row = (&'static [u8], Kind, usize, usize);

const TABLE: [Row; 13] = [
    (b"pulse", Kind::Pulse, 3, 3),
    (b"recharge", Kind::Recharge, 4, 4),
    (b"plan", Kind::Plan, 4, 3),
    (b"alarms", Kind::Alarms, 4, 4),
    (b"command", Kind::Command, 3, 3),
    (b"key", Kind::Key, 2, 2),
    (b"tick", Kind::Tick, 2, 2),
    (b"step", Kind::Step, 0, 0),
    (b"display", Kind::Display, 0, 0),
    (b"show", Kind::Show, 0, 0),
    (b"day", Kind::Day, 1, 1),
    (b"month", Kind::Month, 1, 1),
    (b"heavy", Kind::Heavy, 1, 1),
];

// The form that a table has for a word.
fn form_by(table: &[Row], w: &[u8]) -> Option<Form>
    ensures { result ≡ form_by (map line_in table.now) w.now }
{
    let (_, kind, words, numbers) = *table.iter().find(|row| row.0 == w)?;
    Some(Form {
        kind,
        words,
        numbers,
    })
}

// The same of the table above.
#[tactic(auto, unfolding(crate::specs::Forms::form_of, crate::specs::Forms::entries, crate::specs::Forms::form_by))]
pub fn form_of(w: &[u8]) -> Option<Form>
    ensures { result ≡ form_of w.now }
{
    form_by(&TABLE, w)
}
