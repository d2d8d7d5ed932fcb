// The calls over numbers and slices, for C and Rust: `mogzift_c` exports them.
#![tactic(auto)]

mod tell;

ghost use Rattle.std.specs.Prelude.{◌≡◌, length};
ghost use Rattle.graph.specs.Verdict.{laid, written};
ghost use Rattle.graph.specs.Build.{build_rule, count_rule};
ghost use Rattle.rules.specs.Share.{share_of};
ghost use Rattle.level.specs.Rule.{level_rule, rest_rule};
ghost use Rattle.within.specs.Rule.{within_rule, count_within, levels_rule};
ghost use Rattle.share.specs.Rule.{share_rule};
ghost use Rattle.page.specs.Rule.{page_rule};
ghost use Rattle.extract.specs.Rule.{extract_rule};
ghost use Rattle.run.specs.Run.{run_rule, report_rule};
ghost use Rattle.plan.specs.Plan.{made, plan_rule};
ghost use Rattle.report.specs.Depth.{fitting_rule};
ghost use Rattle.report.specs.Text.{text_rule};
ghost use Rattle.mogzift.specs.Answer.{code_of, answer_of, count_says, build_says, rest_says, level_says, levels_says, run_says, plan_says, depth_says};

use build::build;
use extract::extract;
use level::{level, rest};
use page::page;
use plan::plan;
use report::depth::fitting_depth;
use report::levels_text;
use run::run;
use share::level_share;
use tell::{
    say_build, say_count, say_depth, say_level, say_levels, say_plan, say_rest, say_run, tell,
};
use within::{build_within, level_within};
use words::sets::{Props, States};

pub fn mogzift_build(file: &[u8], depth: usize, words: &mut [u64], answer: &mut [u64; 3]) -> usize
    ensures { (result ≡ code_of (count_rule file.now depth (length words.old)))
        × (answer.new ≡ answer_of build_says (count_rule file.now depth (length words.old)))
        × (words.new ≡ laid (build_rule file.now depth (length words.old)) words.old) }
{
    let built = build(file, depth, words);
    tell(answer, built, say_build)
}

pub fn mogzift_build_within(
    file: &[u8],
    possible: &[u32],
    depth: usize,
    words: &mut [u64],
    answer: &mut [u64; 3],
) -> usize
    ensures { (result ≡ code_of (count_within file.now possible.now depth (length words.old)))
        × (answer.new ≡ answer_of build_says (count_within file.now possible.now depth (length words.old)))
        × (words.new ≡ laid (within_rule file.now possible.now depth (length words.old)) words.old) }
{
    let built = build_within(file, possible, depth, words);
    tell(answer, built, say_build)
}

pub fn mogzift_rest(file: &[u8], depth: usize, words: &[u64], answer: &mut [u64; 3]) -> usize
    ensures { (result ≡ code_of (rest_rule file.now depth words.now))
        × (answer.new ≡ answer_of rest_says (rest_rule file.now depth words.now)) }
{
    tell(answer, rest(file, depth, words), say_rest)
}

pub fn mogzift_level(
    file: &[u8],
    depth: usize,
    set: u64,
    goal: u32,
    words: &[u64],
    answer: &mut [u64; 3],
) -> usize
    ensures { (result ≡ code_of (level_rule file.now depth set goal words.now))
        × (answer.new ≡ answer_of level_says (level_rule file.now depth set goal words.now)) }
{
    let found = level(file, depth, States(set), Props(goal), words);
    tell(answer, found, say_level)
}

pub fn mogzift_level_within(
    file: &[u8],
    depth: usize,
    set: u64,
    goal: u32,
    possible: &[u64],
    sure: &[u64],
    answer: &mut [u64; 3],
) -> usize
    ensures { (result ≡ code_of (levels_rule file.now depth set goal possible.now sure.now))
        × (answer.new ≡ answer_of levels_says (levels_rule file.now depth set goal possible.now sure.now)) }
{
    let found = level_within(file, depth, States(set), Props(goal), possible, sure);
    tell(answer, found, say_levels)
}

// Kept (point 5): the C interface, whose parameters these are.
pub fn mogzift_level_share(
    file: &[u8],
    depth: usize,
    goal: u32,
    weights: &[u16],
    numerator: u16,
    denominator: u16,
    words: &[u64],
    answer: &mut [u64; 3],
) -> usize
    ensures { (result ≡ code_of (share_rule file.now depth goal (share_of weights.now numerator denominator) words.now))
        × (answer.new ≡ answer_of level_says (share_rule file.now depth goal (share_of weights.now numerator denominator) words.now)) }
{
    let found = level_share(
        file,
        depth,
        Props(goal),
        weights,
        numerator,
        denominator,
        words,
    );
    tell(answer, found, say_level)
}

pub fn mogzift_page(
    file: &[u8],
    depth: usize,
    set: u64,
    goals: &[u32],
    words: &[u64],
    out: &mut [u16],
    answer: &mut [u64; 3],
) -> usize
    ensures { (result ≡ code_of (written (page_rule file.now depth set goals.now words.now (length out.old))))
        × (answer.new ≡ answer_of count_says (written (page_rule file.now depth set goals.now words.now (length out.old))))
        × (out.new ≡ laid (page_rule file.now depth set goals.now words.now (length out.old)) out.old) }
{
    let paged = page(file, depth, States(set), goals, words, out);
    tell(answer, paged, say_count)
}

pub fn mogzift_extract(
    file: &[u8],
    depth: usize,
    set: u64,
    words: &[u64],
    out: &mut [u64],
    answer: &mut [u64; 3],
) -> usize
    ensures { (result ≡ code_of (written (extract_rule file.now depth set words.now (length out.old))))
        × (answer.new ≡ answer_of count_says (written (extract_rule file.now depth set words.now (length out.old))))
        × (out.new ≡ laid (extract_rule file.now depth set words.now (length out.old)) out.old) }
{
    let cut = extract(file, depth, States(set), words, out);
    tell(answer, cut, say_count)
}

pub fn mogzift_run(
    file: &[u8],
    set: u64,
    list: &[u8],
    out: &mut [u32],
    answer: &mut [u64; 3],
) -> usize
    ensures { (result ≡ code_of (report_rule file.now set list.now (length out.old)))
        × (answer.new ≡ answer_of run_says (report_rule file.now set list.now (length out.old)))
        × (out.new ≡ laid (run_rule file.now set list.now (length out.old)) out.old) }
{
    tell(answer, run(file, States(set), list, out), say_run)
}

pub fn mogzift_plan(
    file: &[u8],
    depth: usize,
    set: u64,
    goal: u32,
    words: &[u64],
    out: &mut [u32],
    answer: &mut [u64; 3],
) -> usize
    ensures { (result ≡ code_of (made (plan_rule file.now depth set goal words.now (length out.old))))
        × (answer.new ≡ answer_of plan_says (made (plan_rule file.now depth set goal words.now (length out.old))))
        × (out.new ≡ laid (plan_rule file.now depth set goal words.now (length out.old)) out.old) }
{
    let planned = plan(file, depth, States(set), Props(goal), words, out);
    tell(answer, planned, say_plan)
}

pub fn mogzift_depth(file: &[u8], room: usize, answer: &mut [u64; 3]) -> usize
    ensures { (result ≡ code_of (fitting_rule file.now room))
        × (answer.new ≡ answer_of depth_says (fitting_rule file.now room)) }
{
    tell(answer, fitting_depth(file, room), say_depth)
}

pub fn mogzift_levels_text(file: &[u8], out: &mut [u8], answer: &mut [u64; 3]) -> usize
    ensures { (result ≡ code_of (written (text_rule file.now (length out.old))))
        × (answer.new ≡ answer_of count_says (written (text_rule file.now (length out.old))))
        × (out.new ≡ laid (text_rule file.now (length out.old)) out.old) }
{
    tell(answer, levels_text(file, out), say_count)
}
