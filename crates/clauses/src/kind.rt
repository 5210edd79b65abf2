// The kinds of clauses.
ghost use Rattle.clauses.specs.Kind.{Decodes};

use refusal::Refusal;

// What a clause is; a WITH and a RETURN with sort keys are kinds of their own.
#[derive(Clone, Copy, Debug, PartialEq, Eq)]
pub enum ClauseKind {
    Match,
    Where,
    With,
    Return,
    Unwind,
    Create,
    Merge,
    Set,
    Remove,
    Delete,
    Call,
    SortedWith,
    SortedReturn,
}

impl TryFrom<u32> for ClauseKind {
    type Error = Refusal;

    ghost try_from_gives = { Decodes };

    fn try_from(code: u32) -> Result<ClauseKind, Refusal> {
        match code {
            1 => Ok(ClauseKind::Match),
            2 => Ok(ClauseKind::Where),
            3 => Ok(ClauseKind::With),
            4 => Ok(ClauseKind::Return),
            5 => Ok(ClauseKind::Unwind),
            6 => Ok(ClauseKind::Create),
            7 => Ok(ClauseKind::Merge),
            8 => Ok(ClauseKind::Set),
            9 => Ok(ClauseKind::Remove),
            10 => Ok(ClauseKind::Delete),
            11 => Ok(ClauseKind::Call),
            12 => Ok(ClauseKind::SortedWith),
            13 => Ok(ClauseKind::SortedReturn),
            _ => Err(Refusal::Word),
        }
    }
}
