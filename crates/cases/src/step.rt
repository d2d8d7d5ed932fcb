// What a line of the script asks for, by its letter.

#[derive(Clone, Copy, Debug, PartialEq, Eq)]
pub enum Step {
    PutByte,
    PutWord,
    Build,
    BuildWithin,
    Rest,
    Level,
    LevelWithin,
    LevelShare,
    Extract,
    Plan,
    Run,
    Page,
    ShowGraph,
    ShowPossible,
    ShowExtract,
}

// A letter that stands for no step.
#[derive(Clone, Copy, Debug, PartialEq, Eq)]
pub struct NoSuchStep;

impl TryFrom<u8> for Step {
    type Error = NoSuchStep;

    // Kept (point 7): the one place where a letter of the script becomes a step; behind it there are steps only.
    fn try_from(letter: u8) -> Result<Step, NoSuchStep> {
        match letter {
            b'e' => Ok(Step::PutByte),
            b'w' => Ok(Step::PutWord),
            b'b' => Ok(Step::Build),
            b'B' => Ok(Step::BuildWithin),
            b'r' => Ok(Step::Rest),
            b'l' => Ok(Step::Level),
            b'L' => Ok(Step::LevelWithin),
            b's' => Ok(Step::LevelShare),
            b'x' => Ok(Step::Extract),
            b'p' => Ok(Step::Plan),
            b'n' => Ok(Step::Run),
            b'm' => Ok(Step::Page),
            b'g' => Ok(Step::ShowGraph),
            b'G' => Ok(Step::ShowPossible),
            b'o' => Ok(Step::ShowExtract),
            _ => Err(NoSuchStep),
        }
    }
}
