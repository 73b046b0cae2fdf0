ghost use Rattle.std.specs.Prelude.{◌≡◌, ◌<◌, ◌++◌, length};
ghost use Rattle.nmvs_messages.specs.declared.peer.Peer.{Peer as ThePeer};
ghost use Rattle.nmvs_messages.specs.declared.ask.Ask.{Ask as TheAsk};
ghost use Rattle.nmvs_messages.specs.declared.answer.Answer.{Answer as TheAnswer};
ghost use Rattle.nmvs_messages.specs.declared.withheld.Withheld.{Withheld as TheWithheld};
ghost use Rattle.nmvs_messages.specs.Withheld.{AreReleased, shown_text, text_left};

use crate::{Ask, LineList, Peer, Piece, Released, Withheld, WithheldAnswers};

/// Answers the asks of a session. A desk that waits carries the runtime.
pub trait Desk {
    /// The lines that follow an answer.
    type List: LineList;

    // Whether a desk in this state may take this ask from this peer, withhold this answer, and come to that state.
    ghost takes: { Self → ThePeer → TheAsk → TheWithheld → Self → Type 0 };

    // Whether a release that takes a desk from this state to that one may release the withheld answer as this answer.
    ghost releases: { Self → Self → TheWithheld → TheAnswer → Type 0 };

    // Whether a release may take a desk from this state to that one.
    ghost moves: { Self → Self → Type 0 };

    /// Answers what this peer asks. The answer is withheld until it is released. With it comes the list of the lines that follow
    /// it, if any do. Without memory it is `Turned(Memory)`.
    fn take(&mut self, from: &Peer, ask: &Ask) -> (Withheld, Option<Self::List>)
        ensures takes { takes self.old from.now ask.now result.0 self.new }
        ensures list { shown_text result.0 ≡ text_left Self.List.left result.1 };

    /// Releases the withheld answers, once the desk can answer for them. It may turn a line away in place of a reply or a
    /// report.
    fn release<'h>(&mut self, withheld: &'h mut WithheldAnswers) -> Released<'h>
        ensures moves { moves self.old self.new }
        ensures released { AreReleased (releases self.old self.new) withheld.old result };

    /// Fetches the next lines of a list: they take the place of the text of the piece.
    fn fetch(&self, list: &mut Self::List, piece: &mut Piece)
        ensures text { piece.new.text.items ++ Self.List.left list.new ≡ Self.List.left list.old }
        ensures some { 0 < length (Self.List.left list.old) → 0 < length piece.new.text.items };
}
