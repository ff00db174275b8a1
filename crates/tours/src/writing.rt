//! How a scene is written.

use crate::witness::Witness;
use anyhow::Result;
use authenticators::{Directory, NodeId};
use replay_verifier::Program;

/// Writes a line `== NAME`, and a line with the encoding of the directory in hexadecimal digits.
pub fn write_head(rt: &HostRuntime, name: &str, directory: &Directory) -> Result<()> {
    let digits = hex::encode(rt.alloc(), directory.to_bytes()?)?;
    println!(rt; "== {name}\n{digits}")?;
    Ok(())
}

/// Writes a line with the export of the witness's store in hexadecimal digits.
pub fn write_store<P: Program + Drop>(rt: &HostRuntime, witness: &Witness<P>) -> Result<()> {
    let store = witness.export(rt.alloc())?;
    println!(rt; "{store}")?;
    Ok(())
}

/// Writes a line for each node with what the witness says of it, and a line with its proof against the accused node, or `none`.
pub fn write_answers<P: Program + Drop>(
    rt: &HostRuntime,
    witness: &Witness<P>,
    accused: NodeId,
) -> Result<()> {
    let alloc = rt.alloc();
    for node in witness.nodes() {
        let said = witness.said_of(alloc, *node)?;
        println!(rt; "{said}")?;
    }
    let proof = witness.proof(alloc, accused)?;
    println!(rt; "{proof}")?;
    Ok(())
}
