//! The nodes of the two trees of a pool.

use crate::fit::are_fit;
use jm_bytes::{Or, Text};
use jm_lines::put_bytes;
use jm_nodes::{Clash, Holds, Owner, TreeNode, nodes};
use jm_pool::Pool;
use std::alloc::{AllocError, Global};

/// Puts the names, each behind a space.
fn put_names(told: &mut String, names: &[Text]) -> Result<(), AllocError> {
    for name in names {
        told.push(' ')?;
        put_bytes(told, name.as_slice())?;
    }
    Ok(())
}

/// Puts the modules, each behind a space and a 1 where it is empty, and a 0 where it isn't.
fn put_owners(told: &mut String, owners: &[Owner]) -> Result<(), AllocError> {
    for owner in owners {
        told.push_str(if owner.empty { " 1" } else { " 0" })?;
        put_bytes(told, owner.module.as_slice())?;
    }
    Ok(())
}

/// Puts the nodes, each by its name, what it holds behind a colon, and a semicolon.
fn put_nodes(told: &mut String, nodes: &[TreeNode]) -> Result<(), AllocError> {
    for node in nodes {
        put_bytes(told, node.name.as_slice())?;
        told.push(':')?;
        match &node.holds {
            Holds::Children(names) => put_names(told, names.as_slice())?,
            Holds::Owners(owners) => put_owners(told, owners.as_slice())?,
        }
        told.push(';')?;
    }
    Ok(())
}

/// The nodes of a pool, or the name that is refused; None where a name isn't fit.
pub fn told_nodes(alloc: Global, pool: &Pool) -> Result<Option<String>, AllocError> {
    if !are_fit(pool) {
        return Ok(None);
    }
    let mut told = String::new(alloc);
    match nodes(alloc, pool) {
        Ok(nodes) => put_nodes(&mut told, nodes.as_slice())?,
        Err(Or::Fault(Clash(name))) => {
            told.push_str("Clash ")?;
            put_bytes(&mut told, name.as_slice())?;
        }
        Err(Or::Memory) => return Err(AllocError),
    }
    Ok(Some(told))
}
