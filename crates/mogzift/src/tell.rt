// The three numbers of an answer, written where the caller lent room for them.
ghost use Rattle.std.specs.Prelude.{◌≡◌, [], ◌∷◌, IfOk, IfErr};
ghost use Rattle.graph.specs.Verdict.{accepted, number_of, place_of};
ghost use Rattle.build.specs.Rooms.{counted_words};
ghost use Rattle.level.specs.Rule.{level_said, rest_said};
ghost use Rattle.within.specs.Rule.{levels_said};
ghost use Rattle.page.specs.Rule.{entry_of};
ghost use Rattle.mogzift.specs.Answer.{count_says, build_says, rest_says, level_says, levels_says, run_says, plan_says, depth_says};

use build::Built;
use graph::refusal::Refusal;
use level::layers::Level;
use page::{NEVER, NOT_BY_DEPTH};
use plan::Planned;
use run::Ran;
use within::Levels;

// Of an accepted call what its value says, and 0 is returned; of one turned away kind 0, the number, which is returned, and the place.
// Kept (point 1): the C interface, in which an answer is three numbers and a number that is returned.
pub fn tell<T: Drop, F: FnOnce(T) -> [u64; 3]>(
    answer: &mut [u64; 3],
    answered: Result<T, Refusal>,
    says: F,
) -> usize
    requires { IfOk answered (λ x. F.pre says x) }
    ensures accepted { IfOk answered (λ x. (result ≡ 0) × F.post says x answer.new) }
    ensures refused { IfErr answered (λ why. (result ≡ number_of why) × (answer.new ≡ 0 ∷ number_of why ∷ place_of why ∷ [])) }
{
    match answered {
        Ok(x) => {
            *answer = says(x);
            0
        }
        Err(why) => {
            let number = why.number();
            *answer = [0, number as u64, why.place() as u64];
            number
        }
    }
}

// Of a page, an extract or a text: how much it wrote.
// Kept (point 4): `From<Built> for [u64; 3]` and the like could stand only in `build` and the like, which know nothing of C's three numbers;
// and one from `usize` would have to tell a count from a depth.
pub fn say_count(count: usize) -> [u64; 3]
    ensures { result ≡ count_says count }
{
    [1, count as u64, 0]
}

// Of a build.
// Kept (point 4): as says `say_count`.
pub fn say_build(built: Built) -> [u64; 3]
    ensures { result ≡ build_says (counted_words built) }
{
    [1, built.words as u64, built.looked as u64]
}

// Of a rest: its kind tells whether there is one.
// Kept (point 4): as says `say_count`.
pub fn say_rest(rest: Option<usize>) -> [u64; 3]
    ensures { result ≡ rest_says (rest_said rest) }
{
    match rest {
        Some(t) => [1, t as u64, 0],
        None => [2, 0, 0],
    }
}

// Of a level: its kind tells it.
// Kept (point 4): as says `say_count`.
pub fn say_level(found: Level) -> [u64; 3]
    ensures { result ≡ level_says (level_said found) }
{
    match found {
        Level::At(t) => [1, t as u64, 0],
        Level::Never => [2, 0, 0],
        Level::NotByDepth => [3, 0, 0],
    }
}

// A level as an entry of a page.
fn entry(found: Level) -> u64
    ensures { result ≡ entry_of (accepted (level_said found)) }
{
    match found {
        Level::At(t) => t as u64,
        Level::Never => NEVER as u64,
        Level::NotByDepth => NOT_BY_DEPTH as u64,
    }
}

// Of two levels.
// Kept (point 4): as says `say_count`.
pub fn say_levels(levels: Levels) -> [u64; 3]
    ensures { result ≡ levels_says (levels_said levels) }
{
    [1, entry(levels.first), entry(levels.second)]
}

// Of a run.
// Kept (point 4): as says `say_count`.
pub fn say_run(ran: Ran) -> [u64; 3]
    ensures { result ≡ run_says (record { sets = ran.sets; idle = ran.idle }) }
{
    [1, ran.sets as u64, ran.idle as u64]
}

// Of a plan.
// Kept (point 4): as says `say_count`.
pub fn say_plan(plan: Planned) -> [u64; 3]
    ensures { result ≡ plan_says (record { level = plan.level; count = plan.marked }) }
{
    [1, plan.level as u64, plan.marked as u64]
}

// Of a depth.
// Kept (point 4): as says `say_count`.
pub fn say_depth(depth: usize) -> [u64; 3]
    ensures { result ≡ depth_says depth }
{
    [1, depth as u64, 0]
}
