//! This module has the first words of lines.

ghost use Rattle.std.specs.Prelude.{◌≡◌, ◌≢◌, IfSome, IfNone};
ghost use Rattle.lot_script.specs.declared.script.keyword.Keyword.{Keyword};
ghost use Rattle.lot_script.specs.Private.Parsing.{keyword_text};

// The first word of a line, but for the first line.
#[derive(Copy, Clone)]
pub(super) enum Keyword {
    Register,
    Retire,
    Enter,
    One,
    All,
    Filter,
    Requeue,
    Deadline,
    Resolve,
    Return,
    Acquire,
    Release,
    Trim,
    List,
    Records,
    Size,
}

impl Keyword {
    // The keyword that this word is.
    pub(super) fn of(word: &[u8]) -> Option<Keyword>
        ensures found { IfSome result (λ keyword. word.now ≡ keyword_text keyword) }
        ensures none { IfNone result ((keyword : Keyword) → word.now ≢ keyword_text keyword) }
    {
        match word {
            b"register" => Some(Keyword::Register),
            b"retire" => Some(Keyword::Retire),
            b"enter" => Some(Keyword::Enter),
            b"one" => Some(Keyword::One),
            b"all" => Some(Keyword::All),
            b"filter" => Some(Keyword::Filter),
            b"requeue" => Some(Keyword::Requeue),
            b"deadline" => Some(Keyword::Deadline),
            b"resolve" => Some(Keyword::Resolve),
            b"return" => Some(Keyword::Return),
            b"acquire" => Some(Keyword::Acquire),
            b"release" => Some(Keyword::Release),
            b"trim" => Some(Keyword::Trim),
            b"list" => Some(Keyword::List),
            b"records" => Some(Keyword::Records),
            b"size" => Some(Keyword::Size),
            _ => None,
        }
    }
}
