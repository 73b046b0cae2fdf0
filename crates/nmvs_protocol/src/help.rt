//! The lines that there are, each with an example.
ghost use Rattle.std.specs.Prelude.{◌≡◌};
ghost use Rattle.nmvs_protocol.specs.Texts.{help_text};

/// The answer to `HELP`. None of its lines is longer than the longest reply of one line.
const HELP: &str = "HELP mah1 UPLOAD 09506000134352 SN1 B1 280200  a new pack\n\
    HELP ph1 VERIFY 09506000134352 SN1             is it authentic?\n\
    HELP ph1 STATUS 09506000134352 SN1             without an alert\n\
    HELP ph1 SUPPLY 09506000134352 SN1             to the public\n\
    HELP ph1 HOLD 09506000134352 SN1               for a later supply\n\
    HELP ph1 HOLD 09506000134352 SN1 IF B1 280200  if so uploaded\n\
    HELP ph1 HANDOVER 09506000134352 SN1           held, to the public\n\
    HELP wh1 EXPORT 09506000134352 SN1             out of the Union\n\
    HELP ph1 SAMPLE 09506000134352 SN1             for an authority\n\
    HELP ph1 DESTROY 09506000134352 SN1            it is destroyed\n\
    HELP ph1 REVERT 09506000134352 SN1             back to stock\n\
    HELP mah1 THEFT 09506000134352 SN1             it was stolen\n\
    HELP mah1 RECALL 09506000134352 B1             a batch is recalled\n\
    HELP mah1 WITHDRAW 09506000134352 B1           or is withdrawn\n\
    HELP au1 AUDIT 09506000134352 SN1              its audit trail\n\
    HELP au1 REPORT 09506000134352                 a product's batches\n\
    HELP PING                                      answers PONG\n\
    HELP VERSION                                   of the program\n\
    HELP QUIT                                      ends the session\n\
    HELP END\n";

/// The answer to HELP.
#[tactic(auto, unfolding(crate::specs::Texts::help_text))]
pub(crate) fn help() -> &'static str
    ensures { result.now ≡ help_text }
{
    HELP
}
