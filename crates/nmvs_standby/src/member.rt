//! A server among those that share a log.
use nmvs_etcd::{NameFault, OwnerName};
use nmvs_operator::Cluster;
use std::alloc::{AllocError, Global};

/// A server among those of a cluster, with the bytes that it drew for its name of one run.
#[derive(Clone, Copy)]
pub struct Member<'o> {
    pub cluster: &'o Cluster,
    pub drawn: [u8; 16],
}

impl<'o> Member<'o> {
    /// The name of the cluster.
    pub(crate) fn cluster_name(&self, alloc: Global) -> Result<String, AllocError> {
        String::from_str(alloc, &self.cluster.name)
    }

    /// The line of the cluster's name.
    pub(crate) fn cluster_line(&self, alloc: Global) -> Result<String, AllocError> {
        let cluster = &self.cluster.name;
        format!(in alloc; "{cluster}\n")
    }

    /// The name of the server as the owner of the log.
    pub(crate) fn owner_name(&self, alloc: Global) -> Result<OwnerName, NameFault> {
        OwnerName::new(alloc, &self.cluster.machine, &self.drawn)
    }
}
