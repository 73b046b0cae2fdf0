//! Laws of commands.
ghost use Rattle.nmvs_messages.specs.Commands.{EachCommandIsRead, OneCommandSpelling};

/// Each command is read from its line, and different commands have different lines. The call does nothing.
pub fn commands_are_read()
    ensures each { EachCommandIsRead }
    ensures spelling { OneCommandSpelling }
{}
