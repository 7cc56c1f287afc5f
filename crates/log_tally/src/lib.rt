// The tally record of a replayed log, changed in place after every line.
#![tactic(auto)]

ghost use Rattle.std.specs.Prelude.{◌≡◌, ◌+◌, ◌≤◌};
ghost use Rattle.log_tally.specs.Counted.{none_yet, counted, Within};

// Lines answered, pages programmed, blocks erased.
#[derive(Clone, Copy)]
pub struct Tally {
    pub lines: u64,
    pub programmed: u64,
    pub erased: u64,
}

pub fn none_yet() -> Tally
    ensures { result ≡ none_yet }
{
    Tally {
        lines: 0,
        programmed: 0,
        erased: 0,
    }
}

// A sum and one number more.
pub fn plus(sum: u64, more: u32) -> u64
    requires { sum ≤ 4294967295000000 }
    ensures { result ≡ sum + more }
{
    sum + u64::from(more)
}

// One line more: the record is changed in place.
pub fn add(t: &mut Tally, programmed: u32, erased: u32)
    requires { Within t.old }
    ensures { t.new ≡ counted t.old programmed erased }
{
    t.lines = plus(t.lines, 1);
    t.programmed = plus(t.programmed, programmed);
    t.erased = plus(t.erased, erased);
}

// The record after a line: it is lent to `add` and handed back.
pub fn after_line(mut t: Tally, programmed: u32, erased: u32) -> Tally
    requires { Within t }
    ensures { result ≡ counted t programmed erased }
{
    add(&mut t, programmed, erased);
    t
}
