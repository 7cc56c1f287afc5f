// What a call answers, by name, and document 01's numbers for it.
#![tactic(auto, using(crate::specs::Answers::answers_laws))]

ghost use Rattle.std.specs.Prelude.{◌≡◌};
ghost use Rattle.call_answers.specs.Answers.{plain, row_of};

#[derive(Clone, Copy)]
pub enum Answer {
    // the address (lookup), pages programmed, blocks erased
    Done(u32, u32, u32),
    Length,
    // the first broken rule, and its page
    Damaged(u32, u32),
    Worn,
    Absent,
    Height,
    Room,
    // pages programmed, blocks erased
    Stopped(u32, u32),
    // the record is not the image's (request 8)
    Stale,
}

// An answer in numbers: a row of the table.
#[derive(Clone, Copy)]
pub struct Row {
    pub answer: u32,
    pub address: u32,
    pub programmed: u32,
    pub erased: u32,
    pub rule: u32,
    pub page: u32,
}

// The row of an answer that is not DAMAGED.
fn undamaged(answer: u32, address: u32, programmed: u32, erased: u32) -> Row
    ensures { result ≡ plain answer address programmed erased }
{
    Row {
        answer: answer,
        address: address,
        programmed: programmed,
        erased: erased,
        rule: 0,
        page: 0,
    }
}

// An answer's row.
pub fn row_of(a: Answer) -> Row
    ensures { result ≡ row_of a }
{
    match a {
        Answer::Done(address, programmed, erased) => undamaged(0, address, programmed, erased),
        Answer::Length => undamaged(1, 0, 0, 0),
        Answer::Damaged(rule, page) => Row {
            answer: 2,
            address: 0,
            programmed: 0,
            erased: 0,
            rule: rule,
            page: page,
        },
        Answer::Worn => undamaged(3, 0, 0, 0),
        Answer::Absent => undamaged(4, 0, 0, 0),
        Answer::Height => undamaged(5, 0, 0, 0),
        Answer::Room => undamaged(6, 0, 0, 0),
        Answer::Stopped(programmed, erased) => undamaged(7, 0, programmed, erased),
        Answer::Stale => undamaged(8, 0, 0, 0),
    }
}
