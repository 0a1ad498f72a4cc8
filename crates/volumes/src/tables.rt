//! The tables of a volume.

/// The numbers of a volume's tables in its file, counted from 0.
#[derive(Clone, Copy, Debug)]
pub struct Tables {
    /// A row for each feature.
    pub features: u32,
    /// One row: the last version, and the policy in force.
    pub policy: u32,
    /// A row for each record.
    pub records: u32,
    /// A row for each run of a server or a script.
    pub lives: u32,
}
