//! The texts of a line of an act, cut out by the marks around them.
ghost use Rattle.std.specs.Prelude.{◌≡◌, ◌<◌, option_map};
ghost use Rattle.nmvs_cases.specs.Pieces as pieces;

use crate::Act;

/// The texts of a line up to the word of its act, and the rest.
#[derive(Clone, Copy)]
pub(crate) struct Pieces<'l> {
    pub at: &'l str,
    pub moment: &'l str,
    pub user: &'l str,
    pub role: &'l str,
    pub authorisation: &'l str,
    pub premises: &'l str,
    pub code: &'l str,
    pub first: &'l str,
    pub last: &'l str,
    pub hint: &'l str,
    pub act: &'l str,
    pub rest: &'l str,
}

/// An act, and the rest after it: from its text on, if it has one.
#[derive(Clone, Copy)]
pub(crate) struct ActPiece<'l> {
    pub act: Act,
    pub rest: &'l str,
}

/// The texts of a line, by the commas around the numbers and the quotation marks around the others.
#[tactic(auto, unfolding(crate::specs::Pieces::pieces_in))]
pub(crate) fn pieces_in(line: &str) -> Option<Pieces<'_>>
    ensures { option_map pieces.pieces_stated result ≡ pieces.pieces_in line.now }
{
    let (_, rest) = cut(line, ',')?;
    let (at, rest) = cut(rest, ',')?;
    let (moment, rest) = piece(rest, ',', '"')?;
    let (user, rest) = piece(rest, '"', '"')?;
    let (role, rest) = piece(rest, '"', '"')?;
    let (authorisation, rest) = piece(rest, '"', '"')?;
    let (premises, rest) = piece(rest, '"', '"')?;
    let (code, rest) = piece(rest, '"', ',')?;
    let (first, rest) = cut(rest, ',')?;
    let (last, rest) = piece(rest, ',', '"')?;
    let (hint, rest) = piece(rest, '"', '"')?;
    let (act, rest) = cut(rest, '"')?;
    Some(Pieces {
        at,
        moment,
        user,
        role,
        authorisation,
        premises,
        code,
        first,
        last,
        hint,
        act,
        rest,
    })
}

/// The act with this word, and the rest after it.
pub(crate) fn act_in<'l>(word: &str, rest: &'l str) -> Option<ActPiece<'l>>
    ensures { option_map pieces.act_piece_stated result ≡ pieces.act_in word.now rest.now }
{
    match Act::named(word) {
        Some(act) => worded_act(act, rest),
        None => detailed_act(word, rest),
    }
}

fn worded_act(act: Act, rest: &str) -> Option<ActPiece<'_>>
    ensures { option_map pieces.act_piece_stated result ≡ pieces.worded_act act rest.now }
{
    if !act.has_text() {
        return Some(ActPiece { act, rest });
    }
    let (_, rest) = cut(rest, '"')?;
    Some(ActPiece { act, rest })
}

fn detailed_act<'l>(word: &str, rest: &'l str) -> Option<ActPiece<'l>>
    ensures { option_map pieces.act_piece_stated result ≡ pieces.detailed_act word.now rest.now }
{
    let (_, rest) = cut(rest, '"')?;
    let (detail, rest) = piece(rest, '"', '"')?;
    let act = Act::named_with(word, detail)?;
    Some(ActPiece { act, rest })
}

/// A text up to a mark, and what follows the next mark at which another text begins.
fn piece(text: &str, end: char, begin: char) -> Option<(&str, &str)>
    requires end { end < 128 }
    requires begin { begin < 128 }
    ensures { option_map (λ p. (p.0.now, p.1.now)) result ≡ pieces.piece end begin text.now }
{
    let (before, rest) = cut(text, end)?;
    let (_, rest) = cut(rest, begin)?;
    Some((before, rest))
}

/// A text up to a mark, and what follows the mark.
pub(crate) fn cut(text: &str, mark: char) -> Option<(&str, &str)>
    requires { mark < 128 }
    ensures { option_map (λ p. (p.0.now, p.1.now)) result ≡ pieces.cut mark text.now }
{
    text.split_once(mark)
}
