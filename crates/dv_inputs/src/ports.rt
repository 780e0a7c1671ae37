//! The ports by name.

ghost use Rattle.std.specs.Prelude.{◌≡◌, ◌≤◌, ◌^◌, ℕ, List, length, map, string_bytes, IfOk};
ghost use Rattle.dv_inputs.specs.Numbers.{port_in};
ghost use Rattle.dv_inputs.specs.Steps.{number_in};

use indexmap::IndexMap;
use std::alloc::{AllocError, Global};

/// The numbers of ports by the bytes of their names.
pub(crate) type PortNumbers<'a> = IndexMap<&'a [u8], u32>;

/// The numbers of the ports with these names: if a name occurs twice, the first counts.
pub(crate) fn port_numbers<'a>(
    alloc: Global,
    ports: &'a [String],
) -> Result<PortNumbers<'a>, AllocError>
    requires { length ports.now ≤ 2 ^ 32 }
    ensures { IfOk result (λ numbers. (name : List ℕ)
        → number_in numbers name ≡ port_in (map string_bytes ports.now) name) }
{
    let mut numbers = IndexMap::new(alloc);
    for (number, port) in ports.iter().enumerate() {
        let name = port.as_bytes();
        if !numbers.contains_key(name) {
            numbers.insert(name, number as u32)?;
        }
    }
    Ok(numbers)
}

/// The number of the port with this name, if there is one.
pub(crate) fn number_of(numbers: &PortNumbers<'_>, name: &[u8]) -> Option<u32>
    ensures { result ≡ number_in numbers.now name.now }
{
    numbers.get(name).copied()
}
