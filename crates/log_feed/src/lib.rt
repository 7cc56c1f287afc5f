// A part of a day's log that was read, fed to the machine until it is used up or the output has no room for another
// line.
#![tactic(auto)]

ghost use Rattle.std.specs.Prelude.{◌≡◌, List, ◌++◌, ℕ, ◌+◌, ◌-◌, ◌<◌, ◌≤◌, length, take, drop};
ghost use Rattle.geometry.specs.Geometry.{small};
ghost use Rattle.log_machine.specs.Machine.{ran};
ghost use Rattle.log_machine.specs.Run.{state_of, Steady};
ghost use Rattle.log_feed.specs.Left.{left};

use log_machine::Run;

#[derive(Clone, Copy)]
pub struct Played {
    pub run: Run,
    // the first byte of the part that was not fed
    pub next: usize,
}

pub fn play_part(
    img: &mut [u8],
    line: &mut [u8],
    out: &mut [u8],
    part: &[u8],
    from: usize,
    run: Run,
) -> Played
    requires { Steady run line.old × (from ≤ length part.now) × (run.wrote ≤ length out.old) ×
        (length out.old ≤ 65536) × (length part.now ≤ 65536) }
    ensures steady { Steady result.run line.new }
    ensures room { result.run.wrote ≤ length out.new }
    ensures within { result.next ≤ length part.now }
    ensures goes { from < length part.now → run.wrote + 86 ≤ length out.old
        → from < result.next }
    ensures left { left result.run ≤ left run - (result.next - from) }
    ensures ran { (rest : List ℕ) → take run.wrote out.old ++ ran small
        (state_of run line.old img.old) (drop from part.now ++ rest)
        ≡ take result.run.wrote out.new ++ ran small (state_of result.run line.new img.new)
        (drop result.next part.now ++ rest) }
{
    let mut state = run;
    for at in from..part.len() {
        if out.len() - state.wrote < 86 {
            return Played {
                run: state,
                next: at,
            };
        }
        state = log_machine::feed(&mut *img, &mut *line, &mut *out, state, part[at]);
    }
    Played {
        run: state,
        next: part.len(),
    }
}
