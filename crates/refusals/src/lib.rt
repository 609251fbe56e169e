// Why a call refuses, and which rule of a sound table is broken: as enums in the code, by the numbers of documents 01
// and 02 in the answers.

#![tactic(auto)]

ghost use Rattle.std.specs.Prelude.{◌≡◌};
ghost use Rattle.refusals.specs.Numbers.{number_of, rule_number, rule_of, unless};

// The rules of a sound table, the lowest first.
#[derive(Clone, Copy, PartialEq, Eq)]
pub enum Rule {
    Ranges,
    Names,
    Either,
    Joins,
    Vertices,
    Shells,
}

impl Rule {
    // The rule's number in document 01.
    pub fn number(self) -> u8
        ensures { result ≡ rule_number self }
    {
        match self {
            Rule::Ranges => 1,
            Rule::Names => 2,
            Rule::Either => 3,
            Rule::Joins => 4,
            Rule::Vertices => 5,
            Rule::Shells => 6,
        }
    }
}

// Why a call refuses.
#[derive(Clone, Copy, PartialEq, Eq)]
pub enum Refusal {
    // The lender of memory: a capacity or a length is wrong, or a log starts beyond its end; or the table is not sound.
    Memory,
    Unsound(Rule),
    // The author of a script or log.
    BadNumber,
    BadCode,
    OutOfRange,
    ItemFree,
    ItemUsed,
    ConditionFails,
    // The sizer of memory.
    LogFull,
    NoNumberLeft,
    // The asker: undo finds the log ended; a solid is no plain one; the text does not fit; a loop of a face is lone.
    LogEnded,
    NotPlain,
    TextTooLong,
    LoneLoop,
}

impl Refusal {
    // The refusal's number in documents 01 and 02.
    pub fn number(self) -> u8
        ensures { result ≡ number_of self }
    {
        match self {
            Refusal::Memory => 1,
            Refusal::Unsound(_) => 2,
            Refusal::BadNumber => 3,
            Refusal::BadCode => 4,
            Refusal::OutOfRange => 5,
            Refusal::ItemFree => 6,
            Refusal::ItemUsed => 7,
            Refusal::ConditionFails => 8,
            Refusal::LogFull => 9,
            Refusal::NoNumberLeft => 10,
            Refusal::LogEnded => 11,
            Refusal::NotPlain => 12,
            Refusal::TextTooLong => 13,
            Refusal::LoneLoop => 14,
        }
    }

    // The number of the broken rule that comes with 2; else 0.
    pub fn rule(self) -> u8
        ensures { result ≡ rule_of self }
    {
        match self {
            Refusal::Unsound(rule) => rule.number(),
            _ => 0,
        }
    }
}

// Nothing where the test holds, else the refusal, or the broken rule.
pub fn ensure<E: Copy>(holds: bool, refusal: E) -> Result<(), E>
    ensures { result ≡ unless holds refusal }
{
    if holds { Ok(()) } else { Err(refusal) }
}
