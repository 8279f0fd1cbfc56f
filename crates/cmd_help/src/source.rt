//! What this program is built from. packaging/stamp writes this file, and it is no part of the sum.

/// The line of the kit that proves and builds it.
pub(crate) const KIT: &str = "rattle-kit-13b logic dac8208d650f15bf";

/// The sum of its sources, as packaging/source-sum says it.
pub(crate) const SOURCE: &str = "490dba8956b2e7d8181225e24fc4a7372c313db7fe39dc989bbad5d1126dcf3c";
