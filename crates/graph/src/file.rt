// Any bytes of any length are taken as a problem file, with their counts, or turned away: a chain of causes, each a check of its own.
ghost use Rattle.std.specs.Prelude.{◌≡◌, ◌+◌, ◌*◌, ◌^◌, ◌≤◌, ◌<◌, length, get_or, IfOk};
ghost use Rattle.std.proofs.Math.Bool.{So};
ghost use Rattle.rules.specs.Test.{fails};
ghost use Rattle.rules.specs.Over.{join_over};
ghost use Rattle.words.specs.Width.{prop_width};
ghost use Rattle.graph.specs.Verdict.{accepted, verdict, verdict_by};
ghost use Rattle.graph.specs.File.{Ranged};
ghost use Rattle.graph.specs.File as R;
ghost use Rattle.graph.specs.Format as F;

use crate::equal::Plain;
use crate::format::{
    ACTIONS_OFFSET, Counts, EFFECTS_OFFSET, EFFECTS_VERSION, HEAD_BYTES, LONG_HEAD, PLAIN_VERSION,
    PROPS_OFFSET, SET_BYTES, SETS_EACH, STATES_OFFSET,
};
use crate::limits::{MAX_ACTIONS, MAX_EFFECTS};
use crate::refusal::Refusal;
use crate::view::View;
use words::sets::{PROP_WIDTH, Props, STATE_WIDTH, Set};

// Kept (point 6): the format gives places in the file, and no slice of one set: the place is what differs from call to call.
pub fn byte(file: &[u8], at: usize) -> usize
    requires { at < length file.now }
    ensures { (result ≡ get_or file.now at 0) × (result < 256) }
{
    file[at] as usize
}

// The set of propositions at an offset.
// Kept (point 6): as `byte`; with a place the four bytes are a sum of `byte`, which the clause is, too.
pub(crate) fn set_at(file: &[u8], at: usize) -> u32
    requires { at + F.set_bytes ≤ length file.now }
    ensures { result ≡ F.set_at file.now at }
{
    (byte(file, at)
        + 256 * byte(file, at + 1)
        + 65536 * byte(file, at + 2)
        + 16777216 * byte(file, at + 3)) as u32
}

// Whether the letters SAG stand first.
// Kept (point 5): here and below: `check_head` calls this and `version` in the midst of finding it out, so that a type of files with a head would be made there, and once more behind it.
fn letters(file: &[u8]) -> bool
    requires { F.head_bytes ≤ length file.now }
    ensures { result ≡ F.letters file.now }
{
    if file[0] != b'S' {
        return false;
    }
    if file[1] != b'A' {
        return false;
    }
    if file[2] != b'G' {
        return false;
    }
    true
}

// The version that stands in the head.
fn version(file: &[u8]) -> usize
    requires { F.head_bytes ≤ length file.now }
    ensures { result ≡ F.version file.now }
{
    byte(file, 3) + 256 * byte(file, 4)
}

// Where the number of effects stands: in version 1 it is that of the actions.
// Kept (point 2): this and `head_of` are a choice by another version each; one function, `choose(version == PLAIN_VERSION, ACTIONS_OFFSET, EFFECTS_OFFSET)`, would be `if` by another name.
fn effects_offset(version: usize) -> usize
    ensures { result ≡ F.effects_place version }
{
    if version == PLAIN_VERSION {
        return ACTIONS_OFFSET;
    }
    EFFECTS_OFFSET
}

// The version and the counts that stand in the head.
fn counts(file: &[u8]) -> Counts
    requires { (F.head_bytes ≤ length file.now) × (F.effects_place (F.version file.now) < length file.now) }
    ensures { result ≡ F.counts_in file.now }
{
    let version = version(file);
    Counts {
        version,
        props: byte(file, PROPS_OFFSET),
        actions: byte(file, ACTIONS_OFFSET),
        effects: byte(file, effects_offset(version)),
        states: byte(file, STATES_OFFSET),
    }
}

// How many bytes the head of a version has.
fn head_of(version: usize) -> usize
    ensures { result ≡ R.head_of version }
{
    if version == EFFECTS_VERSION {
        return LONG_HEAD;
    }
    HEAD_BYTES
}

// Cause 1.
fn check_head(file: &[u8]) -> Result<(), Refusal>
    ensures { verdict result ≡ R.head_rule file.now }
{
    if file.len() < HEAD_BYTES {
        return Err(Refusal::Head);
    }
    if !letters(file) {
        return Err(Refusal::Head);
    }
    if file.len() < head_of(version(file)) {
        return Err(Refusal::Head);
    }
    Ok(())
}

// Cause 2.
fn check_version(file: &[u8]) -> Result<(), Refusal>
    requires { F.head_bytes ≤ length file.now }
    ensures { verdict result ≡ R.version_rule file.now }
{
    let version = version(file);
    if version == PLAIN_VERSION {
        return Ok(());
    }
    if version == EFFECTS_VERSION {
        return Ok(());
    }
    Err(Refusal::Version)
}

// Cause 3.
fn check_counts(c: Counts) -> Result<(), Refusal>
    ensures { verdict result ≡ R.counts_rule c }
{
    if c.props < 1 {
        return Err(Refusal::Count(PROPS_OFFSET));
    }
    if PROP_WIDTH < c.props {
        return Err(Refusal::Count(PROPS_OFFSET));
    }
    if MAX_ACTIONS < c.actions {
        return Err(Refusal::Count(ACTIONS_OFFSET));
    }
    if c.states < 1 {
        return Err(Refusal::Count(STATES_OFFSET));
    }
    if STATE_WIDTH < c.states {
        return Err(Refusal::Count(STATES_OFFSET));
    }
    if MAX_EFFECTS < c.effects {
        return Err(Refusal::Count(EFFECTS_OFFSET));
    }
    Ok(())
}

// Cause 4.
// Kept (point 5): Ranged, as in `format`: `Whole` and `View` have it, and are made by what this checks.
fn check_length(file: &[u8], c: Counts) -> Result<(), Refusal>
    requires { Ranged c }
    ensures { verdict result ≡ R.length_rule file.now c }
{
    let right = c.right_length();
    if file.len() != right {
        return Err(Refusal::Length(right));
    }
    Ok(())
}

// What is in some of so many sets that lie one behind the other. No way leads out of the loop, so that it takes many sets at a time.
// Kept (point 6): a slice `&file[at..]` with `chunks_exact(4)` would give the same sets, but the clause, as the paper, speaks of places in the file.
fn joined_sets(file: &[u8], at: usize, count: usize) -> u32
    requires { (at ≤ 1000) × (count ≤ 160) × (at + F.set_bytes * count ≤ length file.now) }
    ensures { result ≡ join_over count (λ i. F.set_at file.now (at + F.set_bytes * i)) }
{
    let mut joined = 0u32;
    for i in 0..count {
        joined = joined | set_at(file, at + SET_BYTES * i);
    }
    joined
}

// Version 2: the number that effect e has of its action.
pub(crate) fn owner_at(file: &[u8], c: Counts, e: usize) -> usize
    requires { Ranged c × So (fails (F.plain c)) × (length file.now ≡ F.right_length c) × (e < c.effects) }
    ensures { result ≡ (F.actions_of file.now c).owner e }
{
    byte(file, c.effect_at(e))
}

// A file whose counts are in their ranges, and that is as long as they say.
#[derive(Clone, Copy)]
pub(crate) struct Whole<'a> {
    pub bytes: &'a [u8],
    pub counts: Counts,
    pub ghost ranged: { Ranged counts },
    pub ghost long: { length bytes.now ≡ F.right_length counts },
}

impl<'a> Whole<'a> {
    // Version 2: what is in some set of an effect.
    // Kept (point 5): here and below: a type of whole files of version 2 would hold a `Whole` and take these five methods, each field by one name more; that the version is 2 is what one `if` has just shown.
    fn joined_effects(&self) -> u32
        requires { So (fails (F.plain self.now.counts)) }
        ensures { result ≡ join_over self.now.counts.effects (λ e. join_over 3 (λ i. F.set_at self.now.bytes.now (F.when_at self.now.counts e + F.set_bytes * i))) }
    {
        let mut joined = 0u32;
        for e in 0..self.counts.effects {
            joined = joined | joined_sets(self.bytes, self.counts.when_at(e), SETS_EACH);
        }
        joined
    }

    // What is in some set of the file.
    // As `check_actions` says.
    #[inline(always)]
    fn joined_all(&self) -> u32
        ensures { result < 2 ^ self.now.counts.props → accepted tt ≡ R.sets_rule self.now.bytes.now self.now.counts }
    {
        if self.counts.version == PLAIN_VERSION {
            return joined_sets(
                self.bytes,
                HEAD_BYTES,
                SETS_EACH * self.counts.actions + self.counts.states,
            );
        }
        joined_sets(self.bytes, LONG_HEAD, self.counts.actions)
            | self.joined_effects()
            | joined_sets(self.bytes, self.counts.states_at(), self.counts.states)
    }

    // Cause 5, of so many of its sets that lie one behind the other.
    fn find(&self, at: usize, count: usize) -> Result<(), Refusal>
        requires { (at ≤ 1000) × (count ≤ 160) × (at + F.set_bytes * count ≤ length self.now.bytes.now) }
        ensures { verdict result ≡ R.sets_from self.now.bytes.now self.now.counts.props count at }
    {
        for i in 0..count {
            let here = at + SET_BYTES * i;
            if Props::first(self.counts.props).0 < set_at(self.bytes, here) {
                return Err(Refusal::PropSet(here));
            }
        }
        Ok(())
    }

    // Version 2: cause 5, of the effects' sets.
    fn find_effect_set(&self) -> Result<(), Refusal>
        requires { So (fails (F.plain self.now.counts)) }
        ensures { verdict result ≡ R.effect_sets self.now.bytes.now self.now.counts self.now.counts.effects 0 }
    {
        for e in 0..self.counts.effects {
            self.find(self.counts.when_at(e), SETS_EACH)?;
        }
        Ok(())
    }

    // Cause 5, of the sets before the start states.
    fn find_action_set(&self) -> Result<(), Refusal>
        ensures { verdict result ≡ R.action_sets self.now.bytes.now self.now.counts }
    {
        if self.counts.version == PLAIN_VERSION {
            return self.find(HEAD_BYTES, SETS_EACH * self.counts.actions);
        }
        self.find(LONG_HEAD, self.counts.actions)?;
        self.find_effect_set()
    }

    // Cause 5, of all sets of the file, one after the other.
    fn find_sets(&self) -> Result<(), Refusal>
        ensures { verdict result ≡ R.sets_rule self.now.bytes.now self.now.counts }
    {
        self.find_action_set()?;
        self.find(self.counts.states_at(), self.counts.states)
    }

    // Cause 5: where no proposition of P or above is in all sets together, none has one.
    // As `check_actions` says.
    #[inline(always)]
    fn check_sets(&self) -> Result<(), Refusal>
        ensures { verdict result ≡ R.sets_rule self.now.bytes.now self.now.counts }
    {
        if self.joined_all() <= Props::first(self.counts.props).0 {
            return Ok(());
        }
        self.find_sets()
    }

    // The first effect whose number is that of no action.
    fn find_stray(&self) -> Result<(), Refusal>
        requires { So (fails (F.plain self.now.counts)) }
        ensures { verdict result ≡ R.owners_rule self.now.bytes.now self.now.counts }
    {
        for e in 0..self.counts.effects {
            if self.counts.actions <= owner_at(self.bytes, self.counts, e) {
                return Err(Refusal::EffectAction(self.counts.effect_at(e)));
            }
        }
        Ok(())
    }

    // The largest number of an action that an effect has: no way out of the loop, which is quicker than to look at each.
    fn last_owner(&self) -> usize
        requires { So (fails (F.plain self.now.counts)) }
        ensures { result < self.now.counts.actions → accepted tt ≡ R.owners_rule self.now.bytes.now self.now.counts }
    {
        let mut last = 0;
        for e in 0..self.counts.effects {
            last = usize::max(last, owner_at(self.bytes, self.counts, e));
        }
        last
    }

    // Version 2: cause 16; where the largest number is that of an action, all are.
    // As `check_actions` says.
    #[inline(always)]
    fn check_owners(&self) -> Result<(), Refusal>
        requires { So (fails (F.plain self.now.counts)) }
        ensures { verdict result ≡ R.owners_rule self.now.bytes.now self.now.counts }
    {
        if self.last_owner() < self.counts.actions {
            return Ok(());
        }
        self.find_stray()
    }

    // Causes 16 and 15: in version 1 each effect has its action, and in version 2 equal actions are not looked for.
    // As a call of its own it would take the counts through memory, which each call pays for.
    #[inline(always)]
    fn check_actions(&self) -> Result<(), Refusal>
        ensures { verdict result ≡ R.actions_rule self.now.bytes.now self.now.counts }
    {
        if self.counts.version == PLAIN_VERSION {
            return Plain::new(self.bytes, self.counts).check_equal();
        }
        self.check_owners()
    }
}

// Cause 5: with the most propositions no set has room for another.
// As `check_actions` says.
#[inline(always)]
fn check_sets(file: &[u8], c: Counts) -> Result<(), Refusal>
    requires { Ranged c × (length file.now ≡ F.right_length c) }
    ensures { verdict result ≡ R.sets_rule file.now c }
{
    if PROP_WIDTH <= c.props {
        return Ok(());
    }
    let whole = Whole {
        bytes: file,
        counts: c,
    };
    whole.check_sets()
}

// Causes 1 to 5, 16 and 15, in order.
pub fn check_file<'a>(file: &'a [u8]) -> Result<View<'a>, Refusal>
    ensures rule { verdict_by (λ v. v.counts) result ≡ R.file_rule file.now }
    ensures bytes { IfOk result (λ v. v.bytes ≡ file.entry) }
{
    check_head(file)?;
    check_version(file)?;
    let c = counts(file);
    check_counts(c)?;
    check_length(file, c)?;
    check_sets(file, c)?;
    let whole = Whole {
        bytes: file,
        counts: c,
    };
    whole.check_actions()?;
    let view = View::new(file, c);
    Ok(view)
}
