//! An event at a place, and what it shows of each place that is the same but for counts.

ghost use Rattle.std.specs.Prelude.{◌≡◌, map, IfOk, OnErr};
ghost use Rattle.block_model.specs.Plain.{Plain};
ghost use Rattle.block_model.specs.Setting.{Setting};
ghost use Rattle.process.specs.Refinement.{HasCode, IsPlace, IsTied, answer_to};
ghost use Rattle.same_places.specs.Places.{IsCarried, alone, plain_after_choice, rested};
ghost use Rattle.same_places.specs.Resting.{rested_hart};

use hart_state::HartState;
use mach_types::{Choice, Entry, Hart, Why};
use process::{Code, Parts};

/// Sets the counts of all harts to 0.
fn rest_all(harts: &mut [HartState])
    ensures { harts.new ≡ map rested_hart harts.old }
{
    for hart in harts.iter_mut() {
        hart.ran = 0;
        hart.events = 0;
    }
}

/// Sets to 0 how many events each hart made and how many instructions it executed since its thread began to
/// run. No rule of an event reads these counts.
pub(crate) fn rest(parts: &mut Parts)
    ensures harts { parts.new.harts.items ≡ map rested_hart parts.old.harts.items }
    ensures pages { parts.new.pages ≡ parts.old.pages }
    ensures kernel { parts.new.kernel ≡ parts.old.kernel }
    ensures ended { parts.new.ended ≡ parts.old.ended }
{
    rest_all(&mut parts.harts);
}

/// [`Parts::make`] of a process that is alone on its machine and whose harts have no counts; afterwards they
/// have none again.
///
/// `answer` and `tied` say what it answers and to which place its event leads. `carried` says the same of
/// every other place that is the same but for counts, under each step limit: the choice is answered alike
/// there, and its event leads to the same place. That holds since the clauses of [`Parts::make`] speak of
/// every place at which these parts may stand.
pub(crate) fn make_carried(
    parts: &mut Parts,
    code: &Code,
    hart: Hart,
    choice: Choice,
) -> Result<Entry, Why>
    requires { HasCode code.now parts.old hart.0 }
    ensures answer { (s : Setting) (p : Plain) → IsPlace (alone s (rested p)) parts.old hart.0
        → code.now ≡ s.program.pages → result ≡ answer_to (alone s p) hart.0 choice }
    ensures carried { (s : Setting) (p : Plain) → IsPlace (alone s (rested p)) parts.old hart.0
        → code.now ≡ s.program.pages → IsCarried s p hart.0 choice }
    ensures tied { (s : Setting) (p : Plain) → IsPlace (alone s (rested p)) parts.old hart.0
        → code.now ≡ s.program.pages
        → IfOk result (λ e. IsTied s (rested (plain_after_choice s p hart.0 choice)) parts.new) }
    ensures err { OnErr result (parts.new ≡ parts.old) }
{
    match parts.make(code, hart, choice) {
        Ok(entry) => {
            rest(parts);
            Ok(entry)
        }
        Err(why) => Err(why),
    }
}
