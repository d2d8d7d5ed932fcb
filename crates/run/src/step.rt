// Version 1: a list of actions, carried out in every state of a set at once. The one effect of an action adds and deletes the same in each of them, so one
// word tells what all have become: below what some state of the set lacks, above what some state of it has.
ghost use Rattle.std.specs.Prelude.{◌≡◌, ◌+◌, ◌<◌, ◌^◌};
ghost use Rattle.rules.specs.Over.{keep};
ghost use Rattle.words.specs.Width.{word_width};
ghost use Rattle.run.specs.Course as C;

use graph::file::byte;
use words::sets::{PROP_WIDTH, Props, Set, wide};

// All that a word of 64 has.
pub const ALL: u64 = 0xffff_ffff_ffff_ffff;

// Two sets of propositions in one word: the first below, the second above it.
pub fn pack(low: Props, high: Props) -> u64
    ensures { result ≡ C.pack low.0 high.0 }
{
    wide(low.0) | (wide(high.0) << PROP_WIDTH)
}

// What deletes and adds in every state of the set leave of the word.
pub fn leaves(del: Props, add: Props) -> u64
    ensures { result ≡ C.leaves del.0 add.0 }
{
    ALL - pack(add, del.without(add))
}

// What they bring: an add wins over a delete.
pub fn brings(del: Props, add: Props) -> u64
    ensures { result ≡ C.brings del.0 add.0 }
{
    pack(del.without(add), add)
}

// What a state of the set has now, if it started with x.
pub fn came(course: u64, x: Props) -> Props
    ensures { result.0 ≡ C.came course x.0 }
{
    let some = Props((course >> PROP_WIDTH) as u32);
    let lacked = (course % (1u64 << PROP_WIDTH)) as u32;
    x.common(some).union(Props(0xffff_ffff - lacked))
}

// A single step that was made on the word: what is left of the word, and what has become of it. What is left tells what the step changed: no state of the set,
// if that is all.
#[derive(Clone, Copy, PartialEq, Eq, Debug)]
pub struct Made {
    pub left: u64,
    pub course: u64,
}

// Why a step that was tried on the word was not made: some state of the set lacks its precondition; or some of its effects may fire in a part of the set, which
// the word does not tell (version 2).
// Kept (point 1): it is the error in `Result<Made, Unmade>`; by an `Option<Made>` a step would not tell the two causes, of which `tried_on` and `TriedEvenly` speak.
#[derive(Clone, Copy, PartialEq, Eq, Debug)]
pub enum Unmade {
    Missing,
    Partly,
}

// A step that leaves and brings this in every state of the set.
pub fn try_step(course: u64, need: u64, leave: u64, bring: u64) -> Result<Made, Unmade>
    ensures { result ≡ C.tried_on course need leave bring }
{
    if course & need != 0 {
        return Err(Unmade::Missing);
    }
    let left = course & leave;
    Ok(Made {
        left,
        course: left | bring,
    })
}

// What a step that was made changed: some state of the set, or none.
// Kept (point 1): what a step answers is taken apart by `if let`, as document 01 asks; a bool would be asked by `if`.
#[derive(Clone, Copy, PartialEq, Eq, Debug)]
pub enum Change {
    Some,
    None,
}

// Whether a step leaves all of the word. What is left is never more, and so compared costs least.
pub fn still(course: u64, left: u64) -> bool
    ensures { keep result 1 ≡ C.still course left }
{
    course <= left
}

// Of a word, and of what a step left of it.
pub fn change_of(course: u64, left: u64) -> Change
    ensures { C.idle_by result ≡ C.still course left }
{
    if still(course, left) {
        return Change::None;
    }
    Change::Some
}

// The number of idle steps, with one more if the last step is one.
pub fn counted(idle: usize, last: Change) -> usize
    requires { idle + C.idle_by last < 2 ^ word_width }
    ensures { result ≡ idle + C.idle_by last }
{
    if let Change::None = last {
        return idle + 1;
    }
    idle
}

// Where the steps of a list led: up to the first that lacks its precondition, or through all of them.
#[derive(Clone, Copy)]
pub struct Walked {
    pub course: u64,
    pub made: usize,
    pub idle: usize,
}

// The steps of a list. What a step changed is asked in the next turn, of what is at hand by then: so asked it costs two instructions.
pub fn walk(list: &[u8], needs: &[u64], leave: &[u64], bring: &[u64], from: u64) -> Walked
    requires { C.Tables needs.now leave.now bring.now list.now }
    ensures { C.Walks needs.now leave.now bring.now list.now from result }
{
    let mut course = from;
    let mut before = 1u64;
    let mut left = 0u64;
    let mut idle = 0;
    for i in 0..list.len() {
        idle = counted(idle, change_of(before, left));
        let a = byte(list, i);
        let did = try_step(course, needs[a], leave[a], bring[a]);
        let Ok(made) = did else {
            return Walked {
                course,
                made: i,
                idle,
            };
        };
        before = course;
        left = made.left;
        course = made.course;
    }
    Walked {
        course,
        made: list.len(),
        idle: counted(idle, change_of(before, left)),
    }
}
