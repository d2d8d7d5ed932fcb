// The calls of `mogzift` for C. A slice passes as a pointer and a length, the answer's room as a pointer to three numbers.
// Kept (point 1): the C interface, in which an answer is three numbers and a number that is returned.
#![tactic(auto)]

ghost use Rattle.std.specs.Prelude.{◌≡◌, length};
ghost use Rattle.graph.specs.Verdict.{laid, written};
ghost use Rattle.graph.specs.Build.{build_rule, count_rule};
ghost use Rattle.rules.specs.Share.{share_of};
ghost use Rattle.level.specs.Rule.{level_rule, rest_rule};
ghost use Rattle.within.specs.Rule.{within_rule, count_within, levels_rule};
ghost use Rattle.share.specs.Rule.{share_rule};
ghost use Rattle.page.specs.Rule.{page_rule};
ghost use Rattle.extract.specs.Rule.{extract_rule};
ghost use Rattle.run.specs.Run.{run_rule, report_rule};
ghost use Rattle.plan.specs.Plan.{made, plan_rule};
ghost use Rattle.report.specs.Depth.{fitting_rule};
ghost use Rattle.report.specs.Text.{text_rule};
ghost use Rattle.mogzift.specs.Answer.{code_of, answer_of, count_says, build_says, rest_says, level_says, levels_says, run_says, plan_says, depth_says};

#[unsafe(no_mangle)]
pub extern "C" fn mogzift_build(
    file: &[u8],
    depth: usize,
    words: &mut [u64],
    answer: &mut [u64; 3],
) -> usize
    ensures { (result ≡ code_of (count_rule file.now depth (length words.old)))
        × (answer.new ≡ answer_of build_says (count_rule file.now depth (length words.old)))
        × (words.new ≡ laid (build_rule file.now depth (length words.old)) words.old) }
{
    mogzift::mogzift_build(file, depth, words, answer)
}

#[unsafe(no_mangle)]
pub extern "C" fn mogzift_build_within(
    file: &[u8],
    possible: &[u32],
    depth: usize,
    words: &mut [u64],
    answer: &mut [u64; 3],
) -> usize
    ensures { (result ≡ code_of (count_within file.now possible.now depth (length words.old)))
        × (answer.new ≡ answer_of build_says (count_within file.now possible.now depth (length words.old)))
        × (words.new ≡ laid (within_rule file.now possible.now depth (length words.old)) words.old) }
{
    mogzift::mogzift_build_within(file, possible, depth, words, answer)
}

#[unsafe(no_mangle)]
pub extern "C" fn mogzift_rest(
    file: &[u8],
    depth: usize,
    words: &[u64],
    answer: &mut [u64; 3],
) -> usize
    ensures { (result ≡ code_of (rest_rule file.now depth words.now))
        × (answer.new ≡ answer_of rest_says (rest_rule file.now depth words.now)) }
{
    mogzift::mogzift_rest(file, depth, words, answer)
}

#[unsafe(no_mangle)]
pub extern "C" fn mogzift_level(
    file: &[u8],
    depth: usize,
    set: u64,
    goal: u32,
    words: &[u64],
    answer: &mut [u64; 3],
) -> usize
    ensures { (result ≡ code_of (level_rule file.now depth set goal words.now))
        × (answer.new ≡ answer_of level_says (level_rule file.now depth set goal words.now)) }
{
    mogzift::mogzift_level(file, depth, set, goal, words, answer)
}

#[unsafe(no_mangle)]
pub extern "C" fn mogzift_level_within(
    file: &[u8],
    depth: usize,
    set: u64,
    goal: u32,
    possible: &[u64],
    sure: &[u64],
    answer: &mut [u64; 3],
) -> usize
    ensures { (result ≡ code_of (levels_rule file.now depth set goal possible.now sure.now))
        × (answer.new ≡ answer_of levels_says (levels_rule file.now depth set goal possible.now sure.now)) }
{
    mogzift::mogzift_level_within(file, depth, set, goal, possible, sure, answer)
}

#[unsafe(no_mangle)]
pub extern "C" fn mogzift_level_share(
    file: &[u8],
    depth: usize,
    goal: u32,
    weights: &[u16],
    numerator: u16,
    denominator: u16,
    words: &[u64],
    answer: &mut [u64; 3],
) -> usize
    ensures { (result ≡ code_of (share_rule file.now depth goal (share_of weights.now numerator denominator) words.now))
        × (answer.new ≡ answer_of level_says (share_rule file.now depth goal (share_of weights.now numerator denominator) words.now)) }
{
    mogzift::mogzift_level_share(
        file,
        depth,
        goal,
        weights,
        numerator,
        denominator,
        words,
        answer,
    )
}

#[unsafe(no_mangle)]
pub extern "C" fn mogzift_page(
    file: &[u8],
    depth: usize,
    set: u64,
    goals: &[u32],
    words: &[u64],
    out: &mut [u16],
    answer: &mut [u64; 3],
) -> usize
    ensures { (result ≡ code_of (written (page_rule file.now depth set goals.now words.now (length out.old))))
        × (answer.new ≡ answer_of count_says (written (page_rule file.now depth set goals.now words.now (length out.old))))
        × (out.new ≡ laid (page_rule file.now depth set goals.now words.now (length out.old)) out.old) }
{
    mogzift::mogzift_page(file, depth, set, goals, words, out, answer)
}

#[unsafe(no_mangle)]
pub extern "C" fn mogzift_extract(
    file: &[u8],
    depth: usize,
    set: u64,
    words: &[u64],
    out: &mut [u64],
    answer: &mut [u64; 3],
) -> usize
    ensures { (result ≡ code_of (written (extract_rule file.now depth set words.now (length out.old))))
        × (answer.new ≡ answer_of count_says (written (extract_rule file.now depth set words.now (length out.old))))
        × (out.new ≡ laid (extract_rule file.now depth set words.now (length out.old)) out.old) }
{
    mogzift::mogzift_extract(file, depth, set, words, out, answer)
}

#[unsafe(no_mangle)]
pub extern "C" fn mogzift_run(
    file: &[u8],
    set: u64,
    list: &[u8],
    out: &mut [u32],
    answer: &mut [u64; 3],
) -> usize
    ensures { (result ≡ code_of (report_rule file.now set list.now (length out.old)))
        × (answer.new ≡ answer_of run_says (report_rule file.now set list.now (length out.old)))
        × (out.new ≡ laid (run_rule file.now set list.now (length out.old)) out.old) }
{
    mogzift::mogzift_run(file, set, list, out, answer)
}

#[unsafe(no_mangle)]
pub extern "C" fn mogzift_plan(
    file: &[u8],
    depth: usize,
    set: u64,
    goal: u32,
    words: &[u64],
    out: &mut [u32],
    answer: &mut [u64; 3],
) -> usize
    ensures { (result ≡ code_of (made (plan_rule file.now depth set goal words.now (length out.old))))
        × (answer.new ≡ answer_of plan_says (made (plan_rule file.now depth set goal words.now (length out.old))))
        × (out.new ≡ laid (plan_rule file.now depth set goal words.now (length out.old)) out.old) }
{
    mogzift::mogzift_plan(file, depth, set, goal, words, out, answer)
}

#[unsafe(no_mangle)]
pub extern "C" fn mogzift_depth(file: &[u8], room: usize, answer: &mut [u64; 3]) -> usize
    ensures { (result ≡ code_of (fitting_rule file.now room))
        × (answer.new ≡ answer_of depth_says (fitting_rule file.now room)) }
{
    mogzift::mogzift_depth(file, room, answer)
}

#[unsafe(no_mangle)]
pub extern "C" fn mogzift_levels_text(file: &[u8], out: &mut [u8], answer: &mut [u64; 3]) -> usize
    ensures { (result ≡ code_of (written (text_rule file.now (length out.old))))
        × (answer.new ≡ answer_of count_says (written (text_rule file.now (length out.old))))
        × (out.new ≡ laid (text_rule file.now (length out.old)) out.old) }
{
    mogzift::mogzift_levels_text(file, out, answer)
}
