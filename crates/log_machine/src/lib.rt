// A day's log, fed byte by byte. What waits to be written stands at the start of a lent buffer; the line that has begun
// stands in another one of 34 bytes, which is as long as a line with a form can be.
#![tactic(auto, using(crate::proofs::Steps::step_laws))]

ghost use Rattle.std.specs.Prelude.{◌≡◌, [], ◌+◌, ◌<◌, ◌≤◌, length, take};
ghost use Rattle.std.proofs.lemmas.List.Edits.{sets};
ghost use Rattle.geometry.specs.Geometry.{small};
ghost use Rattle.log_tally.specs.Counted.{Within};
ghost use Rattle.log_lines.specs.Line.{Of};
ghost use Rattle.log_lines.specs.Replay.{error_line, form_at};
ghost use Rattle.log_machine.specs.Machine.{close, feed, finish};
ghost use Rattle.log_machine.specs.Run.{start_of, state_of, run_of, refused_run, longer_from, Steady};

use log_lines::Order;
use log_tally::Tally;

#[derive(Clone, Copy)]
pub struct Run {
    // bytes of the line that has begun
    pub filled: usize,
    pub tally: Tally,
    // the run has ended with E
    pub over: bool,
    // bytes of the output that wait to be written
    pub wrote: usize,
}

pub fn start() -> Run
    ensures { result ≡ start_of }
{
    Run {
        filled: 0,
        tally: log_tally::none_yet(),
        over: false,
        wrote: 0,
    }
}

// A line of another form, or one too many: E and its number, and the run is over.
fn refuse(out: &mut [u8], t: Tally, wrote: usize) -> Run
    requires { Within t × (wrote ≤ 8000000000000000000) }
    ensures run { result ≡ refused_run t wrote }
    ensures most { result.wrote ≤ wrote + 86 }
    ensures out { out.new ≡ sets out.old wrote (error_line t) }
{
    let next = log_replies::put_line(&mut *out, wrote, b'E', [t.lines + 1, 0, 0, 0], 1);
    Run {
        filled: 0,
        tally: t,
        over: true,
        wrote: next,
    }
}

// An order: it is played on the image, answered and counted.
fn answer(img: &mut [u8], out: &mut [u8], t: Tally, wrote: usize, order: Order) -> Run
    requires { Within t × (t.lines < 1000000) × (wrote ≤ 8000000000000000000) }
    ensures run { result ≡ run_of (close small t img.old (Of order)) wrote }
    ensures image { img.new ≡ (close small t img.old (Of order)).state.image }
    ensures out { out.new ≡ sets out.old wrote
        (close small t img.old (Of order)).out }
    ensures most { result.wrote ≤ wrote + 86 }
    ensures within { Within result.tally }
{
    let row = call_answers::row_of(log_play::obey(&mut *img, order));
    let numbers = [
        u64::from(row.answer),
        u64::from(row.address),
        u64::from(row.programmed),
        u64::from(row.erased),
    ];
    let next = log_replies::put_line(&mut *out, wrote, log_lines::letter_of(order), numbers, 4);
    let counted = log_tally::after_line(t, row.programmed, row.erased);
    Run {
        filled: 0,
        tally: counted,
        over: false,
        wrote: next,
    }
}

// A line that is whole.
fn close_line(img: &mut [u8], line: &[u8], out: &mut [u8], t: Tally, wrote: usize) -> Run
    requires { Within t × (wrote ≤ 8000000000000000000) }
    ensures run { result ≡ run_of (close small t img.old (form_at t line.now)) wrote }
    ensures image { img.new ≡ (close small t img.old
        (form_at t line.now)).state.image }
    ensures out { out.new ≡ sets out.old wrote
        (close small t img.old (form_at t line.now)).out }
    ensures most { result.wrote ≤ wrote + 86 }
    ensures within { Within result.tally }
{
    let full = 1000000 <= t.lines;
    if full {
        return refuse(&mut *out, t, wrote);
    }
    let form = log_lines::parse_line(line);
    let Some(order) = form else {
        return refuse(&mut *out, t, wrote);
    };
    answer(&mut *img, &mut *out, t, wrote, order)
}

// A byte more of a line that has begun.
fn lengthen(line: &mut [u8], out: &mut [u8], t: Tally, filled: usize, wrote: usize, b: u8) -> Run
    requires { Within t × (wrote ≤ 8000000000000000000) × (filled ≤ 34) × (length line.old ≡ 34) }
    ensures run { result ≡ run_of (longer_from t (take filled line.old) b) wrote }
    ensures line { take result.filled line.new ≡ (longer_from t (take filled line.old)
        b).state.line }
    ensures out { out.new ≡ sets out.old wrote
        (longer_from t (take filled line.old) b).out }
    ensures most { result.wrote ≤ wrote + 86 }
    ensures within { Within result.tally }
{
    if filled < 34 {
        text_lines::put_byte(&mut *line, filled, b);
        return Run {
            filled: filled + 1,
            tally: t,
            over: false,
            wrote,
        };
    }
    refuse(&mut *out, t, wrote)
}

// One byte of the input.
pub fn feed(img: &mut [u8], line: &mut [u8], out: &mut [u8], run: Run, b: u8) -> Run
    requires { Steady run line.old × (run.wrote ≤ 8000000000000000000) }
    ensures run { result ≡ run_of (feed small (state_of run line.old img.old) b) run.wrote }
    ensures line { take result.filled line.new ≡ (feed small
        (state_of run line.old img.old) b).state.line }
    ensures image { img.new ≡ (feed small (state_of run line.old img.old)
        b).state.image }
    ensures out { out.new ≡ sets out.old run.wrote
        (feed small (state_of run line.old img.old) b).out }
    ensures most { result.wrote ≤ run.wrote + 86 }
    ensures steady { Steady result line.new }
{
    let t = run.tally;
    let filled = run.filled;
    if run.over {
        return run;
    }
    if b == 10 {
        return close_line(&mut *img, &line[..filled], &mut *out, t, run.wrote);
    }
    lengthen(&mut *line, &mut *out, t, filled, run.wrote, b)
}

// The end of the input: T or E, if no E was written before.
pub fn finish(out: &mut [u8], line: &[u8], run: Run) -> usize
    requires { Steady run line.now × (run.wrote ≤ 8000000000000000000) }
    ensures place { result ≡ run.wrote + length (finish (state_of run line.now [])) }
    ensures most { result ≤ run.wrote + 86 }
    ensures bytes { out.new ≡ sets out.old run.wrote
        (finish (state_of run line.now [])) }
{
    let t = run.tally;
    if run.over {
        return run.wrote;
    }
    if run.filled == 0 {
        return log_replies::put_line(
            &mut *out,
            run.wrote,
            b'T',
            [t.lines, t.programmed, t.erased, 0],
            3,
        );
    }
    log_replies::put_line(&mut *out, run.wrote, b'E', [t.lines + 1, 0, 0, 0], 1)
}
