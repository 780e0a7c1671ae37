//! Plans that are given as partitions.

use serde_json::Value;
use std::alloc::{AllocError, Global};

/// The keys of a plan, which no partition has.
const KEYS: [&str; 4] = ["components", "entries", "exits", "links"];

/// The text of the partition in a plan: the components of each process. `None` if the text is no
/// plan.
///
/// # Errors
///
/// An allocation was refused.
pub fn partition_of_plan(alloc: Global, text: &[u8]) -> Result<Option<Vec<u8>>, AllocError> {
    match Value::from_slice(alloc, text) {
        Ok(plan) if is_plan(&plan) => partition_text(alloc, &plan),
        Ok(_) => Ok(None),
        Err(error) if error.is_memory() => Err(AllocError),
        Err(_) => Ok(None),
    }
}

/// Whether a value has the keys of a plan.
fn is_plan(value: &Value) -> bool {
    KEYS.iter().all(|key| value.get(*key).is_some())
}

/// The text of a partition with the processes of a plan. `None` if a process has no components in
/// the plan.
fn partition_text(alloc: Global, plan: &Value) -> Result<Option<Vec<u8>>, AllocError> {
    let Some(processes) = plan.get("processes").and_then(Value::as_array) else {
        return Ok(None);
    };
    let mut text = Vec::new(alloc);
    text.extend_from_slice(b"{\"processes\":[")?;
    for (index, process) in processes.iter().enumerate() {
        let Some(components) = process.get("components") else {
            return Ok(None);
        };
        if index > 0 {
            text.push(b',')?;
        }
        text.extend_from_slice(&components.to_vec(alloc)?)?;
    }
    text.extend_from_slice(b"]}")?;
    Ok(Some(text))
}
