//! What exactly a partition is refused for.

use dv_partition::{GREATEST_PROCESSES, Partition};
use serde_json::Value;
use std::alloc::{AllocError, Global};
use std::collections::HashSet;

/// What a partition is refused for.
#[derive(Drop)]
pub enum Reason {
    /// No component has this path.
    Unknown(String),
    /// This path stands in the partition a second time.
    Repeated(String),
    /// The component with this path is in no process.
    Missing(String),
    /// The process with this index has no component.
    Empty(usize),
    /// There are so many processes: none, or more than `GREATEST_PROCESSES`.
    Count(usize),
    /// There are more processes than components.
    Crowded {
        /// The number of processes.
        processes: usize,
        /// The number of components.
        components: usize,
    },
}

/// What a partition of the components with these paths is refused for: the first reason in the
/// order in which partitions are tested. Its text has lists of paths (it is not Q1). `None` if it
/// is accepted.
///
/// # Errors
///
/// No memory.
pub fn reason_of(
    alloc: Global,
    paths: &[String],
    partition: Partition<'_>,
) -> Result<Option<Reason>, AllocError> {
    match partition {
        Partition::Json(text) => match Value::from_slice(alloc, text) {
            Ok(value) => reason_in_value(alloc, paths, &value),
            Err(error) if error.is_memory() => Err(AllocError),
            Err(_) => Ok(None),
        },
        Partition::Count(processes) => Ok(reason_in_count(paths.len(), processes as usize)),
    }
}

/// The reason why a number of processes is refused.
fn reason_in_count(components: usize, processes: usize) -> Option<Reason> {
    if processes == 0 || processes > GREATEST_PROCESSES {
        Some(Reason::Count(processes))
    } else if processes > components {
        Some(Reason::Crowded {
            processes,
            components,
        })
    } else {
        None
    }
}

fn reason_in_value(
    alloc: Global,
    paths: &[String],
    value: &Value,
) -> Result<Option<Reason>, AllocError> {
    let Some(lists) = value.get("processes").and_then(|lists| lists.as_array()) else {
        return Ok(None);
    };
    match reason_in_lengths(lists) {
        Some(reason) => Ok(Some(reason)),
        None => reason_in_lists(alloc, paths, lists),
    }
}

fn reason_in_lengths(lists: &[Value]) -> Option<Reason> {
    if lists.is_empty() || lists.len() > GREATEST_PROCESSES {
        return Some(Reason::Count(lists.len()));
    }
    let empty = lists.iter().position(|list| items_of(list).is_empty())?;
    Some(Reason::Empty(empty))
}

/// The items of a list.
fn items_of(list: &Value) -> &[Value] {
    match list.as_array() {
        Some(items) => items,
        None => &[],
    }
}

/// The first path in reading order that is unknown or stands there before, or else the first
/// component that is missing.
fn reason_in_lists(
    alloc: Global,
    paths: &[String],
    lists: &[Value],
) -> Result<Option<Reason>, AllocError> {
    let known = known_paths(alloc, paths)?;
    let mut listed = HashSet::new(alloc);
    for list in lists {
        if let Some(reason) = reason_in_list(alloc, &known, items_of(list), &mut listed)? {
            return Ok(Some(reason));
        }
    }
    missing_path(alloc, paths, &listed)
}

fn known_paths(alloc: Global, paths: &[String]) -> Result<HashSet<&str>, AllocError> {
    let mut known = HashSet::new(alloc);
    for path in paths {
        known.insert(path.as_str())?;
    }
    Ok(known)
}

fn reason_in_list<'a>(
    alloc: Global,
    known: &HashSet<&str>,
    items: &'a [Value],
    listed: &mut HashSet<&'a str>,
) -> Result<Option<Reason>, AllocError> {
    for item in items {
        let Some(path) = item.as_str() else {
            return Ok(None);
        };
        if !known.contains(path) {
            return Ok(Some(Reason::Unknown(String::from_str(alloc, path)?)));
        }
        if !listed.insert(path)? {
            return Ok(Some(Reason::Repeated(String::from_str(alloc, path)?)));
        }
    }
    Ok(None)
}

fn missing_path(
    alloc: Global,
    paths: &[String],
    listed: &HashSet<&str>,
) -> Result<Option<Reason>, AllocError> {
    for path in paths {
        if !listed.contains(path.as_str()) {
            return Ok(Some(Reason::Missing(String::from_str(alloc, path.as_str())?)));
        }
    }
    Ok(None)
}
