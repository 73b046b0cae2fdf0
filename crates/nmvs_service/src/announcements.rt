//! The lines that a server prints for its operator: where it listens, and the lengths of the trails that it settled.
ghost use Rattle.std.specs.Prelude.{◌≡◌, ◌++◌, IfOk, OnOk, decimal, string_bytes};
ghost use Rattle.std.specs.List.{flat_map};
ghost use Rattle.nmvs_service.specs.Announcements as specs;

use nmvs_shard::Shard;
use std::alloc::{AllocError, Global};

/// The line that names the port on which a server listens.
///
/// # Errors
///
/// There is no memory for the text.
pub(crate) fn listening_on(alloc: Global, port: u16) -> Result<String, AllocError>
    ensures { IfOk result (λ text. string_bytes text ≡ specs.listening_text (decimal port)) }
{
    format!(in alloc; "LISTENING {port}\n")
}

/// The line that names the path of the socket at which a server listens.
///
/// # Errors
///
/// There is no memory for the text.
pub(crate) fn listening_at(alloc: Global, path: &str) -> Result<String, AllocError>
    ensures { IfOk result (λ text. string_bytes text ≡ specs.listening_text path.now) }
{
    format!(in alloc; "LISTENING {path}\n")
}

/// The line that names the port on which a server listens for HTTP.
///
/// # Errors
///
/// There is no memory for the text.
pub(crate) fn http_on(alloc: Global, port: u16) -> Result<String, AllocError>
    ensures { IfOk result (λ text. string_bytes text ≡ specs.http_text (decimal port)) }
{
    format!(in alloc; "LISTENING HTTP {port}\n")
}

/// The line that names the path of the socket at which a server listens for HTTP.
///
/// # Errors
///
/// There is no memory for the text.
pub(crate) fn http_at(alloc: Global, path: &str) -> Result<String, AllocError>
    ensures { IfOk result (λ text. string_bytes text ≡ specs.http_text path.now) }
{
    format!(in alloc; "LISTENING HTTP {path}\n")
}

/// The line that says that the shards are settled, with the length of each trail.
///
/// # Errors
///
/// There is no memory for the text.
pub(crate) fn settled_text(alloc: Global, shards: &[Shard<&Global>]) -> Result<String, AllocError>
    ensures { IfOk result (λ text. string_bytes text ≡ specs.settled_text shards.now) }
{
    let mut text = String::from_str(alloc, "SETTLED")?;
    append_lengths(alloc, shards, &mut text)?;
    text.push_str("\n")?;
    Ok(text)
}

/// Puts the lengths of trails at the end of a text, each after a blank.
fn append_lengths(
    alloc: Global,
    shards: &[Shard<&Global>],
    text: &mut String,
) -> Result<(), AllocError>
    ensures { OnOk result (string_bytes text.new ≡ string_bytes text.old ++ flat_map specs.length_text shards.now) }
{
    for shard in shards {
        let length = shard.len();
        text.push_str(&format!(in alloc; " {length}")?)?;
    }
    Ok(())
}
