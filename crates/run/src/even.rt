// Version 2: a list of actions, as long as the effects of each fire in every state of the set or in none. As in version 1, one word tells what all have become.
ghost use Rattle.std.specs.Prelude.{◌≡◌, ◌≤◌, ◌<◌, ◌^◌, length, get_or};
ghost use Rattle.rules.specs.Test.{fails, same};
ghost use Rattle.rules.specs.Word.{common};
ghost use Rattle.rules.specs.Over.{keep};
ghost use Rattle.run.specs.Course.{Known};
ghost use Rattle.run.specs.Even as E;
ghost use Rattle.run.specs.Even.{Foretold, TriedEvenly, GoesOn};

use crate::effects::Evens;
use crate::step::{ALL, Made, Unmade, Walked, change_of, counted};
use graph::file::byte;
use words::members::Members;
use words::sets::PROP_WIDTH;

// Whether an effect with this antecedent may fire in a part of the set: some state lacks some of it, and each of it is had by some.
fn untold(course: u64, when: u64) -> bool
    ensures { result ≡ E.untold course when }
{
    if course & when == 0 {
        return false;
    }
    let somewhere = when << PROP_WIDTH;
    course & somewhere == somewhere
}

// What goes of the word by an effect with this antecedent, where it does not fire in a part of the set only.
fn gone_by(course: u64, when: u64, goes: u64) -> u64
    ensures { result ≡ keep (E.everywhere course when) goes }
{
    if course & when == 0 {
        return goes;
    }
    0
}

// What goes of the word by the effects in the word `by`; or none of it is known, since some effect may fire in a part of the set.
fn foretell(by: u64, evens: &Evens<'_>, course: u64) -> Option<u64>
    requires { by < 2 ^ length evens.now.when.now }
    ensures { Foretold evens.now.when.now evens.now.goes.now by course result }
{
    let mut all = 0u64;
    for e in Members(by) {
        if untold(course, evens.when[e]) {
            return None;
        }
        all = all | gone_by(course, evens.when[e], evens.goes[e]);
    }
    Some(all)
}

// A step of the effects in the word `by`. Of the deletes only those count that nothing adds; what goes of one half of the word comes to the other.
fn step_evenly(course: u64, need: u64, by: u64, evens: &Evens<'_>) -> Result<Made, Unmade>
    requires { by < 2 ^ length evens.now.when.now }
    ensures { TriedEvenly evens.now.when.now evens.now.goes.now by need course result }
{
    if course & need != 0 {
        return Err(Unmade::Missing);
    }
    let even = foretell(by, evens, course);
    let Some(all) = even else {
        return Err(Unmade::Partly);
    };
    let gone = all ^ (all & (all << PROP_WIDTH));
    let left = course & (ALL - gone);
    Ok(Made {
        left,
        course: left | ((gone >> PROP_WIDTH) | (gone << PROP_WIDTH)),
    })
}

// The steps of a list, on from where others led: up to the first that lacks its precondition or has an effect that may fire in a part of the set, or through
// all of them.
pub fn walk_evenly(list: &[u8], evens: &Evens<'_>, from: Walked) -> Walked
    requires { Known (length evens.now.needs.now) list.now × (from.idle ≤ from.made) × (from.made ≤ length list.now) }
    ensures { GoesOn evens.now.needs.now evens.now.owned.now evens.now.when.now evens.now.goes.now list.now from result }
{
    let mut course = from.course;
    let mut idle = from.idle;
    for i in from.made..list.len() {
        let a = byte(list, i);
        let did = step_evenly(course, evens.needs[a], evens.owned[a], evens);
        let Ok(made) = did else {
            return Walked {
                course,
                made: i,
                idle,
            };
        };
        idle = counted(idle, change_of(course, made.left));
        course = made.course;
    }
    Walked {
        course,
        made: list.len(),
        idle,
    }
}

// Whether the step to which others led lacks its precondition in some state of the set.
pub fn lacking(list: &[u8], evens: &Evens<'_>, led: Walked) -> bool
    requires { Known (length evens.now.needs.now) list.now × (led.made < length list.now) }
    ensures { result ≡ fails (same (common led.course (get_or evens.now.needs.now (get_or list.now led.made 0) 0)) 0) }
{
    let at = led.made;
    let a = byte(list, at);
    led.course & evens.needs[a] != 0
}
