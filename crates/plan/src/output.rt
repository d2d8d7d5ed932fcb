// The plan's words: their count of marks, and their copy to the caller's memory.
ghost use Rattle.std.specs.Prelude.{◌≡◌, ◌≤◌, length};
ghost use Rattle.rules.specs.Plan.{plan_count};
ghost use Rattle.words.specs.Memory.{put_at};
ghost use Rattle.graph.specs.Limits.{max_depth};

// The number of marked bits over all words.
pub fn count(plan: &[u32]) -> usize
    requires { length plan.now ≤ max_depth }
    ensures { result ≡ plan_count plan.now }
{
    let mut n: usize = 0;
    for &marks in plan {
        n += u32::count_ones(marks) as usize;
    }
    n
}

// The words stand at the front of `out`.
pub fn copy(plan: &[u32], out: &mut [u32])
    requires { length plan.now ≤ length out.old }
    ensures { out.new ≡ put_at 0 plan.now out.old }
{
    out[..plan.len()].copy_from_slice(plan);
}
