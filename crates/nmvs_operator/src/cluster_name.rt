//! Names of clusters and machines.
ghost use Rattle.std.specs.Prelude.{◌≡◌};
ghost use Rattle.std.specs.List.{list_all};
ghost use Rattle.nmvs_operator.specs.ClusterNames.{is_cluster_name as is_name, is_name_character};

/// Whether a text names a cluster or a machine: 1 to 63 letters, digits and `-`.
pub(crate) fn is_cluster_name(text: &str) -> bool
    ensures { result ≡ is_name text.now }
{
    let bytes = text.as_bytes();
    match bytes.len() {
        1..=63 => are_name_bytes(bytes),
        _ => false,
    }
}

fn are_name_bytes(bytes: &[u8]) -> bool
    ensures { result ≡ list_all is_name_character bytes.now }
{
    bytes.iter().all(|b| is_name_byte(*b))
}

fn is_name_byte(byte: u8) -> bool
    ensures { result ≡ is_name_character byte }
{
    byte.is_ascii_alphanumeric() || byte == b'-'
}
