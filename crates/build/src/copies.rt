// Layers written again and again, once the graph rests.
ghost use Rattle.std.specs.Prelude.{◌≡◌, ◌+◌, ◌-◌, ◌%◌, ◌≤◌, ◌<◌, length, get_or};
ghost use Rattle.rules.specs.Lists.{list_over};
ghost use Rattle.rules.specs.Layer as L;
ghost use Rattle.words.specs.Memory.{put_at};
ghost use Rattle.build.specs.Steps.{Left, block_length};

use graph::layout::{stride, word_count};
use rules::Shape;

// So many words on, a load need not wait for the store that it copies; a block has as many.
const APART: usize = 1024;

// Writes the `stride` words before `to` again and again, `count` words in all: one flat loop, which copies what it wrote itself.
// Kept (point 3): the loop reads words that it wrote itself, so that no iterator over them and no `copy_from_slice` can be it.
// Kept (point 6): as above: one slice, since the words that are read and those that are written are the same.
// Kept (point 5): here and below: the words are lent to each call by themselves; a struct of them, the place and the count would be made anew for each block.
fn copy_on(words: &mut [u64], to: usize, stride: usize, count: usize)
    requires { (0 < count → (0 < stride) × (stride ≤ to)) × (to + count ≤ length words.old) }
    ensures { words.new ≡ put_at to (list_over count (λ i. get_or words.old (to - stride + i % stride) 0)) words.old }
{
    for i in 0..count {
        words[to + i] = words[to + i - stride];
    }
}

// Words copied from `stride` words before, none of which is written.
// Kept (point 6): the words before `at` are read and those from there on written: one slice, cut in two here.
fn move_block(words: &mut [u64], at: usize, stride: usize, count: usize)
    requires { (count ≤ stride) × (0 < count → stride ≤ at) × (at + count ≤ length words.old) }
    ensures { words.new ≡ put_at at (list_over count (λ i. get_or words.old (at + i - stride) 0)) words.old }
{
    if count == 0 {
        return;
    }
    let (before, after) = words.split_at_mut(at);
    let from = at - stride;
    let end = from + count;
    after[..count].copy_from_slice(&before[from..end]);
}

// As `copy_on`, in blocks: no block reaches into the words that it is copied from.
// Kept (point 3): `done` goes on by a block, and the last block is shorter.
// Kept (point 6): as `move_block`.
fn copy_far(words: &mut [u64], to: usize, stride: usize, count: usize)
    requires { (block_length ≤ stride) × (0 < count → stride ≤ to) × (to + count ≤ length words.old) }
    ensures { words.new ≡ put_at to (list_over count (λ i. get_or words.old (to - stride + i % stride) 0)) words.old }
{
    let mut done = 0;
    while done + APART < count {
        move_block(&mut *words, to + done, stride, APART);
        done += APART;
    }
    move_block(words, to + done, stride, count - done);
}

// The same: while few words are written, all of them are written again, so that a load need not wait for the store just before it.
// Kept (point 3): `done` goes on by all that is written so far.
// Kept (point 6): as `move_block`.
fn repeat(words: &mut [u64], to: usize, stride: usize, count: usize)
    requires { (0 < count → (0 < stride) × (stride ≤ to)) × (to + count ≤ length words.old) }
    ensures { words.new ≡ put_at to (list_over count (λ i. get_or words.old (to - stride + i % stride) 0)) words.old }
{
    let mut done = 0;
    while done + stride < usize::min(count - done, APART) {
        copy_on(&mut *words, to + done, done + stride, done + stride);
        done += done + stride;
    }
    if done + stride < APART {
        return copy_on(words, to + done, done + stride, count - done);
    }
    copy_far(words, to + done, done + stride, count - done)
}

// After `done` steps the graph rests or the depth is reached: the words of the steps that are left are those of the last one, again and again.
pub fn copy_rest(words: &mut [u64], s: Shape, done: usize, depth: usize)
    requires { Left s done depth words.old }
    ensures { words.new ≡ put_at (L.word_count s done) (list_over (L.word_count s depth - L.word_count s done) (λ i. get_or words.old (L.word_count s done - L.stride s + i % L.stride s) 0)) words.old }
{
    let to = word_count(s, done);
    repeat(words, to, stride(s), word_count(s, depth) - to);
}
