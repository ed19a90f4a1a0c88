// The run of a step file for C; include/parlour.h declares it, with the numbers of a run, of which 11 is one.
#![tactic(auto)]

ghost use Rattle.std.specs.Prelude.{◌≡◌, true, ◌*◌, ◌<◌};
ghost use Rattle.rules.specs.Lists.{all};
ghost use Rattle.steps.specs.Decoding.{steps_of};
ghost use Rattle.runner.specs.Run.{answers_to, narrow, run_on};

// Runs a step file into an answer buffer, as the crate runner's function of that name does. It stands here once more, since a static library is no
// library for other crates.
#[unsafe(no_mangle)]
pub extern "C" fn parlour_run(steps: &[u8], answers: &mut [u8]) -> u64
    ensures answers_after { (result, answers.new) ≡ run_on 32 256 steps.now answers.old }
    ensures room_in_bytes { result < 65536 * 11 → all narrow (answers_to 32 256 (steps_of steps.now)) ≡ true }
{
    runner::parlour_run(steps, answers)
}
