// A day's log from a reader, answered to a writer. The image is three blocks of the small chip, all 255 at first.
#![tactic(auto)]

ghost use Rattle.std.specs.Prelude.{◌≡◌, false, [], ◌-◌, ◌≤◌, length, take, IfOk, OnOk, IfSome};
ghost use Rattle.std.specs.Io.KnownBytes.{Appends, IsAtEnd};
ghost use Rattle.geometry.specs.Geometry.{small};
ghost use Rattle.log_lines.specs.Replay.{replayed};
ghost use Rattle.log_machine.specs.Run.{state_of};
ghost use Rattle.log_feed.specs.Left.{left};
ghost use Rattle.log_day.specs.Emptied.{emptied, Drained};
ghost use Rattle.log_day.specs.Answered.{Answers, Passes};

use log_machine::Run;
use std::io;
use std::io::{Read, Write};

// What waits to be written is written.
fn write_out<W: Write>(to: &mut W, out: &[u8], run: Run) -> io::Result<Run>
    requires { run.wrote ≤ length out.now }
    ensures run { IfOk result (λ r. r ≡ emptied run) }
    ensures bytes { OnOk result (Appends (W.contents to.old) (W.contents to.new)
        (take run.wrote out.now)) }
{
    to.write_all(&out[..run.wrote])?;
    Ok(Run {
        filled: run.filled,
        tally: run.tally,
        over: run.over,
        wrote: 0,
    })
}

// A part that was read is fed, and what it is answered by is written.
fn play_read<W: Write>(
    to: &mut W,
    img: &mut [u8],
    line: &mut [u8],
    out: &mut [u8],
    part: &[u8],
    run: Run,
) -> io::Result<Run>
    requires { Drained run line.old × (length out.old ≡ 65536) × (length part.now ≤ 65536) }
    ensures ready { IfOk result (λ r. Drained r line.new) }
    ensures left { IfOk result (λ r. left r ≤ left run - length part.now) }
    ensures answers { IfOk result (λ r. Answers (W.contents to.old) (W.contents to.new)
        (state_of run line.old img.old) (state_of r line.new img.new) part.now []) }
{
    let mut at: usize = 0;
    let mut state = run;
    // Stays a while: the part is used up in pieces as long as the output has room, no range counts them.
    while at < part.len() {
        let played = log_feed::play_part(&mut *img, &mut *line, &mut *out, part, at, state);
        at = played.next;
        state = write_out(&mut *to, &*out, played.run)?;
    }
    Ok(state)
}

// All of the input, part by part, until it ends or the run is over.
fn play_input<R: Read, W: Write>(
    from: &mut R,
    to: &mut W,
    img: &mut [u8],
    line: &mut [u8],
    out: &mut [u8],
    part: &mut [u8],
    run: Run,
) -> io::Result<Run>
    requires { Drained run line.old × (length out.old ≡ 65536) × (length part.old ≡ 65536) }
    ensures ready { IfOk result (λ r. Drained r line.new) }
    ensures ended { IfOk result (λ r. r.over ≡ false → IsAtEnd (R.remaining from.new)) }
    ensures passes { IfOk result (λ r. Passes (R.remaining from.old) (R.remaining from.new)
        (W.contents to.old) (W.contents to.new)
        (state_of run line.old img.old) (state_of r line.new img.new)) }
{
    let mut state = run;
    // Stays a while: the reader and the run say where it ends, no range counts the parts.
    while !state.over {
        let n = from.read(&mut *part)?;
        if n == 0 {
            return Ok(state);
        }
        state = play_read(
            &mut *to,
            &mut *img,
            &mut *line,
            &mut *out,
            &part[..n],
            state,
        )?;
    }
    Ok(state)
}

// Where the bytes are known, what is written is `replayed` of all that there is to read.
pub fn replay<R: Read, W: Write>(from: &mut R, to: &mut W) -> io::Result<()>
    ensures { OnOk result (IfSome (R.remaining from.old)
        (λ input. Appends (W.contents to.old) (W.contents to.new) (replayed small input))) }
{
    let mut image: [u8; 50688] = [255; 50688];
    let mut line: [u8; 34] = [0; 34];
    let mut out: [u8; 65536] = [0; 65536];
    let mut part: [u8; 65536] = [0; 65536];
    let run = play_input(
        &mut *from,
        &mut *to,
        &mut image,
        &mut line,
        &mut out,
        &mut part,
        log_machine::start(),
    )?;
    let n = log_machine::finish(&mut out, &line, run);
    to.write_all(&out[..n])
}
