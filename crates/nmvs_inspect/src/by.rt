ghost use Rattle.std.specs.Prelude.{◌≡◌};
ghost use Rattle.nmvs_inspect.specs.Groups as groups;

/// A part of an entry, by which entries are counted (own).
#[derive(Clone, Copy)]
pub enum By {
    /// The day, by UTC.
    Day,
    /// The week, by UTC; it is named by its Monday.
    Week,
    /// The month, by UTC.
    Month,
    /// The cause of an alert: why authenticity was not confirmed.
    Cause,
    Premises,
    Authorisation,
    Code,
    User,
    Role,
    /// The word of the question.
    Word,
    /// The word of the reply.
    Reply,
}

impl By {
    /// The word of this part, which heads its column too.
    pub fn word(self) -> &'static str
        ensures { result.now ≡ groups.by_word self }
    {
        match self {
            By::Day => "day",
            By::Week => "week",
            By::Month => "month",
            By::Cause => "cause",
            By::Premises => "premises",
            By::Authorisation => "authorisation",
            By::Code => "code",
            By::User => "user",
            By::Role => "role",
            By::Word => "word",
            By::Reply => "reply",
        }
    }

    /// The part that this word names, if any.
    pub fn named(word: &str) -> Option<By>
        ensures { result ≡ groups.by_named word.now }
    {
        match word {
            "day" => Some(By::Day),
            "week" => Some(By::Week),
            "month" => Some(By::Month),
            "cause" => Some(By::Cause),
            "premises" => Some(By::Premises),
            "authorisation" => Some(By::Authorisation),
            "code" => Some(By::Code),
            "user" => Some(By::User),
            "role" => Some(By::Role),
            "word" => Some(By::Word),
            "reply" => Some(By::Reply),
            _ => None,
        }
    }

    /// The width of its column in a table, in bytes.
    pub(crate) fn width(self) -> u8
        ensures { result ≡ groups.by_width self }
    {
        match self {
            By::Day | By::Week => 10,
            By::Month => 7,
            By::Cause => 9,
            By::Premises | By::User | By::Word => 8,
            By::Authorisation => 13,
            By::Code | By::Reply => 14,
            By::Role => 12,
        }
    }
}
