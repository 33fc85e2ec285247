// Which call a question asks for, by its number.

#[derive(Clone, Copy)]
pub(crate) enum Call {
    KeyCall,
    Read,
    Start,
    Add,
    Close,
    Check,
    Tag,
    Verify,
    Decode,
    Judge,
    Open,
    OpenOr,
    OpenOrKeep,
    Encode,
    Write,
}

// A number that is no call's.
#[derive(Clone, Copy)]
pub(crate) struct NoCall;

impl TryFrom<u8> for Call {
    type Error = NoCall;

    fn try_from(number: u8) -> Result<Call, NoCall> {
        match number {
            1 => Ok(Call::KeyCall),
            2 => Ok(Call::Read),
            3 => Ok(Call::Start),
            4 => Ok(Call::Add),
            5 => Ok(Call::Close),
            6 => Ok(Call::Check),
            7 => Ok(Call::Tag),
            8 => Ok(Call::Verify),
            9 => Ok(Call::Decode),
            10 => Ok(Call::Judge),
            11 => Ok(Call::Open),
            12 => Ok(Call::OpenOr),
            13 => Ok(Call::OpenOrKeep),
            14 => Ok(Call::Encode),
            15 => Ok(Call::Write),
            _ => Err(NoCall),
        }
    }
}
