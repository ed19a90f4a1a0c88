// The step reader: it keeps the caller's bytes and its place in them.
#![tactic(auto)]

ghost use Rattle.std.specs.Prelude.{◌≡◌, ◌≤◌, length};
ghost use Rattle.reader.specs.Place.{next_at};

use steps::decode;
use terms::Step;

#[derive(Clone, Copy)]
pub struct StepReader<'a> {
    file: &'a [u8],
    at: usize,
}

// What stands at a place, and the place behind it.
#[derive(Clone, Copy)]
pub struct Next {
    pub decoded: Option<(Step, usize)>,
    pub at: usize,
}

// The work: the step is decoded from the part of the file that starts at the place. A bad step is not passed.
#[tactic(auto, unfolding(crate::specs::Place::next_at))]
fn next_at(file: &[u8], at: usize) -> Next
    requires { at ≤ length file.now }
    ensures { result ≡ next_at file.now at }
{
    let decoded = decode(&file[at..]);
    let at = match decoded {
        Some((_, n)) => at + n,
        None => at,
    };
    Next { decoded, at }
}

impl<'a> StepReader<'a> {
    // One step: what stands at the place, and the place moves on.
    pub fn step(&mut self) -> Option<(Step, usize)>
        requires { self.old.at ≤ length self.old.file.now }
        ensures { (result ≡ (next_at self.old.file.now self.old.at).decoded)
            × (self.new.file ≡ self.old.file)
            × (self.new.at ≡ (next_at self.old.file.now self.old.at).at) }
    {
        let next = next_at(self.file, self.at);
        self.at = next.at;
        next.decoded
    }
}

// The same on plain bytes and a place, for a caller with no reader.
pub fn step_at(file: &[u8], at: usize) -> Next
    requires { at ≤ length file.now }
    ensures { result ≡ next_at file.now at }
{
    let mut reader = StepReader { file, at };
    let decoded = reader.step();
    Next {
        decoded,
        at: reader.at,
    }
}
