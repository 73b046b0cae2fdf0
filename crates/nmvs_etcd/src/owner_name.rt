//! Names of owners (own).
ghost use Rattle.std.specs.Prelude.{◌≡◌, ◌≢◌, true, false, IfOk, IfErr, OnOk};
ghost use Rattle.nmvs_etcd.specs.Names.{is_machine as is_machine_name, is_machine_character, is_word, owner_name};
ghost use Rattle.std.specs.List.{list_all};

use std::alloc::{AllocError, Global};
use std::marker::Model;

/// The fault of an owner's name: the first that applies.
#[derive(Clone, Copy)]
pub enum NameFault {
    /// The text cannot name a machine.
    Machine,
    /// There is no memory.
    Memory,
}

impl From<AllocError> for NameFault {
    ghost use Rattle.std.specs.Prelude.{◌≡◌};
    ghost use Rattle.nmvs_etcd.specs.declared.owner_name.NameFault.TheVariants.{Memory};

    ghost from_gives = { λ e f. f ≡ Memory };

    fn from(_: AllocError) -> NameFault {
        NameFault::Memory
    }
}

/// The name by which a server owns the logs: its machine, and 128 bits (own). The server draws them each time that it becomes the
/// owner.
#[derive(Drop)]
pub struct OwnerName {
    text: String,
}

impl Model for OwnerName {
    ghost use Rattle.std.specs.Prelude.{ℕ, List, IsTrue, string_bytes};
    ghost use Rattle.nmvs_etcd.specs.Names.{is_word};

    ghost Value = { List ℕ };

    ghost view = { λ n. string_bytes n.text };

    ghost invariant = { λ n. IsTrue (is_word (string_bytes n.text)) };
}

/// The owner's name if no server owns the logs (own).
pub const NOBODY: &[u8] = b"-";

impl OwnerName {
    /// The name of an owner on this machine, with these drawn bytes.
    ///
    /// # Errors
    ///
    /// `Machine`: the machine is not named by 1 to 63 letters, digits and `-`. `Memory`: there is no memory.
    pub fn new(alloc: Global, machine: &str, drawn: &[u8; 16]) -> Result<OwnerName, NameFault>
        ensures name { IfOk result (λ name. name ≡ owner_name machine.now drawn.now) }
        ensures machine { OnOk result (is_machine_name machine.now ≡ true) }
        ensures fault { IfErr result (λ fault. fault ≢ NameFault.Memory
            → (fault ≡ NameFault.Machine) × (is_machine_name machine.now ≡ false)) }
    {
        if !is_machine(machine) {
            return Err(NameFault::Machine);
        }
        let digits = hex::encode(alloc, drawn)?;
        let text = format!(in alloc; "{machine}.{digits}")?;
        Ok(OwnerName { text })
    }

    /// The same name once more.
    ///
    /// # Errors
    ///
    /// There is no memory.
    pub fn copied(&self, alloc: Global) -> Result<OwnerName, AllocError>
        ensures { IfOk result (λ name. name ≡ self.now) }
    {
        let text = format!(in alloc; "{}", self.text())?;
        Ok(OwnerName { text })
    }

    /// The characters.
    pub fn text(&self) -> &str
        ensures text { result.now ≡ self.now }
        ensures word { is_word self.now ≡ true }
    {
        self.text.as_str()
    }
}

/// Whether a text can name a machine.
fn is_machine(text: &str) -> bool
    ensures { result ≡ is_machine_name text.now }
{
    let bytes = text.as_bytes();
    match bytes.len() {
        1..=63 => are_machine_bytes(bytes),
        _ => false,
    }
}

fn are_machine_bytes(bytes: &[u8]) -> bool
    ensures { result ≡ list_all is_machine_character bytes.now }
{
    bytes.iter().all(|b| is_machine_byte(*b))
}

fn is_machine_byte(byte: u8) -> bool
    ensures { result ≡ is_machine_character byte }
{
    byte.is_ascii_alphanumeric() || byte == b'-'
}
