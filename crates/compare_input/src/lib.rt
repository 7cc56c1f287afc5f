// A log from a reader on both trees, reported to a writer. Each image is three blocks of the small chip, all 255 at
// first.
#![tactic(auto)]

ghost use Rattle.std.specs.Prelude.{◌≡◌, true, List, ◌++◌, ℕ, ◌-◌, ◌≤◌, length, IfOk, OnOk, IfSome};
ghost use Rattle.std.specs.Io.KnownBytes.{Appends, IsAtEnd};
ghost use Rattle.compare_scores.specs.Compare.{compared};
ghost use Rattle.compare_machine.specs.Machine.{goes, ran};
ghost use Rattle.compare_machine.specs.Run.{state_of, Steady};
ghost use Rattle.compare_input.specs.Left.{left};
ghost use Rattle.compare_input.specs.Taken.{Takes};

use compare_machine::Run;
use std::io;
use std::io::{Read, Write};

// A part that was read is fed.
fn play_part(mu: &mut [u8], plain: &mut [u8], line: &mut [u8], part: &[u8], run: Run) -> Run
    requires { Steady run line.old × (length part.now ≤ 65536) }
    ensures steady { Steady result line.new }
    ensures left { left result ≤ left run - length part.now }
    ensures ran { (rest : List ℕ) → ran (state_of run line.old mu.old plain.old)
        (part.now ++ rest) ≡ ran (state_of result line.new mu.new plain.new) rest }
{
    let mut at: usize = 0;
    let mut state = run;
    while at < part.len() {
        state = compare_machine::feed(&mut *mu, &mut *plain, &mut *line, state, part[at]);
        at += 1;
    }
    state
}

// All of the input, part by part, until it ends or the run is over.
fn play_input<R: Read>(
    from: &mut R,
    mu: &mut [u8],
    plain: &mut [u8],
    line: &mut [u8],
    part: &mut [u8],
    run: Run,
) -> io::Result<Run>
    requires { Steady run line.old × (length part.old ≡ 65536) }
    ensures steady { IfOk result (λ r. Steady r line.new) }
    ensures ended { IfOk result (λ r. goes r.course ≡ true → IsAtEnd (R.remaining from.new)) }
    ensures takes { IfOk result (λ r. Takes (R.remaining from.old) (R.remaining from.new)
        (state_of run line.old mu.old plain.old) (state_of r line.new mu.new plain.new)) }
{
    let mut state = run;
    // Stays a while: the reader and the run say where it ends, no range counts the parts.
    while compare_machine::is_going(state) {
        let n = from.read(&mut *part)?;
        if n == 0 {
            return Ok(state);
        }
        state = play_part(&mut *mu, &mut *plain, &mut *line, &part[..n], state);
    }
    Ok(state)
}

// Where the bytes are known, what is written is `compared` of all that there is to read.
pub fn compare<R: Read, W: Write>(from: &mut R, to: &mut W) -> io::Result<()>
    ensures { OnOk result (IfSome (R.remaining from.old)
        (λ input. Appends (W.contents to.old) (W.contents to.new) (compared input))) }
{
    let mut mu: [u8; 50688] = [255; 50688];
    let mut plain: [u8; 50688] = [255; 50688];
    let mut line: [u8; 34] = [0; 34];
    let mut out: [u8; 105] = [0; 105];
    let mut part: [u8; 65536] = [0; 65536];
    let run = play_input(
        &mut *from,
        &mut mu,
        &mut plain,
        &mut line,
        &mut part,
        compare_machine::start(),
    )?;
    let n = compare_machine::finish(&mut out, &line, run);
    to.write_all(&out[..n])
}
