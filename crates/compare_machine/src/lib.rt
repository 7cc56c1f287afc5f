// A log on both trees, fed byte by byte. The line that has begun stands in a lent buffer of 34 bytes, which is as long
// as a line with a form can be. Nothing is written before the end.
#![tactic(auto)]

ghost use Rattle.std.specs.Prelude.{◌≡◌, true, false, ◌+◌, ◌<◌, ◌≤◌, length, take};
ghost use Rattle.std.proofs.lemmas.List.Edits.{sets};
ghost use Rattle.call_answers.specs.Answers.{told};
ghost use Rattle.log_lines.specs.Line.{Of};
ghost use Rattle.log_lines.specs.Replay.{error_after, form_after};
ghost use Rattle.compare_scores.specs.Scores.{plain_obeyed};
ghost use Rattle.compare_scores.specs.Scoring.{outcome_of, Within};
ghost use Rattle.compare_scores.specs.Compare.{report};
ghost use Rattle.compare_machine.specs.Machine.{goes, played, close, feed, finish};
ghost use Rattle.compare_machine.specs.Run.{start_of, state_of, run_of, refused_run, stopped_run, longer_from, Steady};

use call_answers::{Answer, Row};
use compare_scores::Score;
use log_lines::Order;
use log_play::LARGEST_ALLOWANCE;

// How a run stands.
#[derive(Clone, Copy)]
pub enum Course {
    // lines are played
    Going,
    // an answer was 5, 6 or 7
    Stopped,
    // a line had another form
    Refused,
}

#[derive(Clone, Copy)]
pub struct Run {
    // bytes of the line that has begun
    pub filled: usize,
    pub score: Score,
    pub course: Course,
}

pub fn start() -> Run
    ensures { result ≡ start_of }
{
    Run {
        filled: 0,
        score: compare_scores::none_yet(),
        course: Course::Going,
    }
}

// Whether lines are still played.
pub fn is_going(run: Run) -> bool
    ensures { result ≡ goes run.course }
{
    let course = run.course;
    match course {
        Course::Going => true,
        Course::Stopped => false,
        Course::Refused => false,
    }
}

// A line of another form, or one too many.
fn refuse(s: Score) -> Run
    ensures { result ≡ refused_run s }
{
    Run {
        filled: 0,
        score: s,
        course: Course::Refused,
    }
}

// An answer of 5, 6 or 7: its line is not counted.
fn stop(s: Score) -> Run
    ensures { result ≡ stopped_run s }
{
    Run {
        filled: 0,
        score: s,
        course: Course::Stopped,
    }
}

// An order on the plain tree's image.
fn obey_plain(img: &mut [u8], order: Order) -> Answer
    ensures { told result img.new ≡ plain_obeyed order img.old }
{
    match order {
        Order::Format => plain_calls::format(&mut *img),
        Order::Insert(key, address) => {
            plain_calls::insert(&mut *img, key, address, LARGEST_ALLOWANCE)
        }
        Order::Delete(key) => plain_calls::delete(&mut *img, key, LARGEST_ALLOWANCE),
        Order::Lookup(key) => plain_calls::lookup(&*img, key),
        Order::Limited(key, address, allowance) => {
            plain_calls::insert(&mut *img, key, address, allowance)
        }
    }
}

// The run after an order: it is counted, or the run stops.
fn settle(s: Score, order: Order, first: Row, second: Row) -> Run
    requires { Within s × (s.lines < 1000000) }
    ensures run { result ≡ run_of (played s order (outcome_of first) (outcome_of second)) }
    ensures within { Within result.score }
{
    if compare_scores::stops(first) {
        return stop(s);
    }
    if compare_scores::stops(second) {
        return stop(s);
    }
    Run {
        filled: 0,
        score: compare_scores::after_line(s, order, first, second),
        course: Course::Going,
    }
}

// An order on both images.
fn play(mu: &mut [u8], plain: &mut [u8], s: Score, order: Order) -> Run
    requires { Within s × (s.lines < 1000000) }
    ensures run { result ≡ run_of (close s mu.old plain.old (Of order)) }
    ensures mu { mu.new ≡ (close s mu.old plain.old (Of order)).mu }
    ensures plain { plain.new ≡ (close s mu.old plain.old (Of order)).plain }
    ensures within { Within result.score }
{
    let first = call_answers::row_of(log_play::obey(&mut *mu, order));
    let second = call_answers::row_of(obey_plain(&mut *plain, order));
    settle(s, order, first, second)
}

// A line that is whole.
fn close_line(mu: &mut [u8], plain: &mut [u8], line: &[u8], s: Score) -> Run
    requires { Within s }
    ensures run { result ≡ run_of (close s mu.old plain.old
        (form_after s.lines line.now)) }
    ensures mu { mu.new ≡ (close s mu.old plain.old
        (form_after s.lines line.now)).mu }
    ensures plain { plain.new ≡ (close s mu.old plain.old
        (form_after s.lines line.now)).plain }
    ensures within { Within result.score }
{
    if 1000000 <= s.lines {
        return refuse(s);
    }
    let form = log_lines::parse_line(line);
    let Some(order) = form else {
        return refuse(s);
    };
    play(&mut *mu, &mut *plain, s, order)
}

// A byte more of a line that has begun.
fn lengthen(line: &mut [u8], s: Score, filled: usize, b: u8) -> Run
    requires { Within s × (filled ≤ 34) × (length line.old ≡ 34) }
    ensures run { result ≡ run_of (longer_from s (take filled line.old) b) }
    ensures line { take result.filled line.new ≡ (longer_from s (take filled line.old)
        b).line }
    ensures within { Within result.score }
{
    if filled < 34 {
        text_lines::put_byte(&mut *line, filled, b);
        return Run {
            filled: filled + 1,
            score: s,
            course: Course::Going,
        };
    }
    refuse(s)
}

// One byte of the input.
pub fn feed(mu: &mut [u8], plain: &mut [u8], line: &mut [u8], run: Run, b: u8) -> Run
    requires { Steady run line.old }
    ensures run { result ≡ run_of (feed (state_of run line.old mu.old plain.old) b) }
    ensures line { take result.filled line.new ≡ (feed (state_of run line.old mu.old
        plain.old) b).line }
    ensures mu { mu.new ≡ (feed (state_of run line.old mu.old plain.old)
        b).mu }
    ensures plain { plain.new ≡ (feed (state_of run line.old mu.old
        plain.old) b).plain }
    ensures steady { Steady result line.new }
{
    let s = run.score;
    let filled = run.filled;
    if !is_going(run) {
        return run;
    }
    if b == 10 {
        return close_line(&mut *mu, &mut *plain, &line[..filled], s);
    }
    lengthen(&mut *line, s, filled, b)
}

// The report, from the buffer's start on.
fn put_report(out: &mut [u8], s: Score) -> usize
    ensures place { result ≡ length (report s) }
    ensures most { result ≤ 105 }
    ensures bytes { out.new ≡ sets out.old 0 (report s) }
{
    let ratio = compare_scores::ratio_of(s.mu, s.plain);
    log_replies::put_numbers(
        &mut *out,
        0,
        s.updates,
        [s.mu, s.plain, ratio.upper, ratio.lower],
    )
}

// E and the number of the line after those met.
fn put_error(out: &mut [u8], s: Score) -> usize
    requires { Within s }
    ensures place { result ≡ length (error_after s.lines) }
    ensures most { result ≤ 105 }
    ensures bytes { out.new ≡ sets out.old 0 (error_after s.lines) }
{
    log_replies::put_line(&mut *out, 0, b'E', [s.lines + 1, 0, 0, 0], 1)
}

// The end of the input: the report or E, from the buffer's start on.
pub fn finish(out: &mut [u8], line: &[u8], run: Run) -> usize
    requires { Steady run line.now }
    ensures place { result ≡ length (finish run.course run.score (take run.filled line.now)) }
    ensures most { result ≤ 105 }
    ensures bytes { out.new ≡ sets out.old 0 (finish run.course run.score
        (take run.filled line.now)) }
{
    let s = run.score;
    let course = run.course;
    match course {
        Course::Going => {
            if run.filled == 0 {
                return put_report(&mut *out, s);
            }
            put_error(&mut *out, s)
        }
        Course::Stopped => put_report(&mut *out, s),
        Course::Refused => put_error(&mut *out, s),
    }
}
