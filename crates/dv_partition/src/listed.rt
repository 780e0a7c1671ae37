//! The processes of paths: from lists of paths to the process of each component.

ghost use Rattle.std.specs.Prelude.{◌≡◌, ◌<◌, ◌^◌, None, Ok, Some, IfOk, MatchResult, OnOk, false, length, map, string_bytes};
ghost use Rattle.std.specs.List.{AllByRecursion};
ghost use Rattle.std.specs.Option.{option_or};
ghost use Rattle.dv_partition.specs.Answers.{IsErrorOf, first_refusal, in_reading_order, owners_by_lists, owner_from, stands};
ghost use Rattle.dv_partition.specs.Listed.{Text, each};
ghost use Rattle.dv_partition.specs.Steps.{IsMissing, IsRefusal, among, is_in, number_at, texts_of};

use crate::error::{PartitionError, PartitionRefusal};
use std::alloc::{AllocError, Global};
use std::collections::HashMap;

// A number for each text.
type Numbers<'a> = HashMap<&'a str, u32>;

/// The process of each component, by lists of paths for each process.
///
/// # Errors
///
/// Q2 and Q3 for the first listed path in reading order that no component has or that was listed
/// before, then Q3 if a component is missing. No memory for the tables and the processes.
pub(crate) fn owners(
    alloc: Global,
    paths: &[String],
    lists: &[Vec<&str>],
) -> Result<Vec<u32>, PartitionError>
    requires { length lists.now < 2 ^ 32 }
    ensures owners { MatchResult result
        (λ owners. owners_by_lists (map string_bytes paths.now)
        (map (λ list. texts_of list.items) lists.now)
        ≡ Ok owners.items)
        (IsErrorOf (owners_by_lists (map string_bytes paths.now)
        (map (λ list. texts_of list.items) lists.now))) }
    ensures below { IfOk result (λ owners. AllByRecursion (λ p. p < length lists.now)
        owners.items) }
    ensures long { IfOk result (λ owners. length owners.items ≡ length paths.now) }
{
    let known = known_paths(alloc, paths)?;
    let listed = listed(alloc, &known, lists)?;
    owners_by(alloc, &listed, paths)
}

// The number of each path.
fn known_paths<'a>(alloc: Global, paths: &'a [String]) -> Result<Numbers<'a>, AllocError>
    ensures { IfOk result (λ known. (text : Text) → is_in known text
        ≡ stands text (map string_bytes paths.now)) }
{
    let mut known = HashMap::new(alloc);
    for path in paths {
        known.insert(path.as_str(), 0)?;
    }
    Ok(known)
}

// The process of each path that is listed.
fn listed<'a>(
    alloc: Global,
    known: &Numbers<'_>,
    lists: &[Vec<&'a str>],
) -> Result<Numbers<'a>, PartitionError>
    requires { length lists.now < 2 ^ 32 }
    ensures { MatchResult result
        (λ listed. (first_refusal (is_in known.now) (λ _. false)
        (in_reading_order (map (λ list. texts_of list.items) lists.now)) ≡ None)
        × ((text : Text) → number_at listed text
        ≡ owner_from 0 (map (λ list. texts_of list.items) lists.now) text))
        (IsRefusal (first_refusal (is_in known.now) (λ _. false)
        (in_reading_order (map (λ list. texts_of list.items) lists.now)))) }
{
    let mut listed = HashMap::new(alloc);
    for (process, list) in lists.iter().enumerate() {
        list_paths(process as u32, known, list, &mut listed)?;
    }
    Ok(listed)
}

// Adds the paths of a process.
fn list_paths<'a>(
    process: u32,
    known: &Numbers<'_>,
    list: &[&'a str],
    listed: &mut Numbers<'a>,
) -> Result<(), PartitionError>
    ensures listed { OnOk result ((text : Text) → number_at listed.new text
        ≡ option_or (number_at listed.old text) (among (texts_of list.now) process text)) }
    ensures answer { MatchResult result
        (λ _. first_refusal (is_in known.now) (is_in listed.old) (texts_of list.now) ≡ None)
        (IsRefusal (first_refusal (is_in known.now) (is_in listed.old) (texts_of list.now))) }
{
    for path in list {
        if !known.contains_key(*path) {
            return Err(PartitionError::Refused(PartitionRefusal::Q2));
        }
        if listed.contains_key(*path) {
            return Err(PartitionError::Refused(PartitionRefusal::Q3));
        }
        listed.insert(*path, process)?;
    }
    Ok(())
}

// The process of each path.
fn owners_by(
    alloc: Global,
    listed: &Numbers<'_>,
    paths: &[String],
) -> Result<Vec<u32>, PartitionError>
    ensures { MatchResult result
        (λ owners. each (number_at listed.now) (map string_bytes paths.now) ≡ Some owners.items)
        (IsMissing (each (number_at listed.now) (map string_bytes paths.now))) }
{
    let mut owners = Vec::new(alloc);
    for path in paths {
        let Some(process) = number_of(listed, path.as_str()) else {
            return Err(PartitionError::Refused(PartitionRefusal::Q3));
        };
        owners.push(process)?;
    }
    Ok(owners)
}

// The number of a text.
fn number_of(numbers: &Numbers<'_>, text: &str) -> Option<u32>
    ensures { result ≡ number_at numbers.now text.now }
{
    numbers.get(text).copied()
}
